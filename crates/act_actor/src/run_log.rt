//! What an actor keeps of the calls that it ran.

ghost use Rattle.std.specs.Prelude.{◌≡◌, ◌<◌, ◌≤◌, ◌*◌, List, [], ◌∷◌, ◌++◌, length, OnOk, vec_len, vec_capacity};
ghost use Rattle.act_types.specs.declared.limits.TheConstants.{MAX_CALLERS, MAX_CALLS};
ghost use Rattle.act_rules.specs.declared.history.RunItem.{RunItem as Item};
ghost use Rattle.act_rules.specs.RunList.{has_terminated};

use crate::live::is_end;
use act_rules::RunItem;
use act_types::NoMemory;
use std::alloc::Global;

/// The calls that an actor ran, in order. Contracts read them as `items`, whether a run keeps them, as a `Vec` does, or
/// not, as a `Past`.
pub trait RunLog: Drop {
    ghost items: { Self → List Item };

    /// That there is room for one more.
    ghost has_room: { Self → Type 0 };

    /// No calls.
    fn open(alloc: Global) -> Self
        ensures { items result ≡ [] };

    /// What memory is asked of.
    fn alloc(&self) -> Global;

    /// How many calls ran.
    fn count(&self) -> usize
        ensures { result ≡ length (items self.now) };

    /// Whether the last one ended the actor.
    fn has_terminated(&self) -> bool
        ensures { result ≡ has_terminated (items self.now) };

    /// Makes room for so many more.
    fn make_room(&mut self, count: usize) -> Result<(), NoMemory>
        ensures items { items self.new ≡ items self.old }
        ensures room { OnOk result (1 ≤ count → has_room self.new) };

    /// One call more.
    fn add(&mut self, item: RunItem)
        requires room { has_room self.old }
        requires few { length (items self.old) ≤ MAX_CALLERS * MAX_CALLS }
        ensures { items self.new ≡ items self.old ++ item ∷ [] };
}

/// All calls are kept.
impl RunLog for Vec<RunItem> {
    ghost items = { λ log. log.items };

    ghost has_room = { λ log. vec_len log < vec_capacity log };

    fn open(alloc: Global) -> Vec<RunItem> {
        Vec::new(alloc)
    }

    fn alloc(&self) -> Global {
        *self.allocator()
    }

    fn count(&self) -> usize {
        self.len()
    }

    fn has_terminated(&self) -> bool {
        self.last().is_some_and(is_end)
    }

    fn make_room(&mut self, count: usize) -> Result<(), NoMemory> {
        self.reserve(count)?;
        Ok(())
    }

    fn add(&mut self, item: RunItem) {
        self.push_reserved(item);
    }
}
