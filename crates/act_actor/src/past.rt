//! The calls that an actor ran, of which a run keeps none.

ghost use Rattle.std.specs.Prelude.{◌≡◌, [], ◌∷◌, ◌++◌, ⊤};

use crate::RunLog;
use crate::live::is_end;
use act_rules::RunItem;
use act_types::NoMemory;
use std::alloc::Global;
use std::marker::Model;
use std::mem;
use std::snapshot::Snapshot;

/// No call, or the last one after those before it.
#[derive(Drop)]
#[cycle(ran)]
struct Ran {
    last: Option<Last>,
}

#[derive(Drop)]
#[cycle(ran)]
struct Last {
    before: Snapshot<Ran>,
    item: RunItem,
}

impl Model for Ran {
    ghost use Rattle.std.specs.Prelude.{List, [], ◌∷◌, ◌++◌, length};
    ghost use Rattle.std.specs.Option.{option_map_or};
    ghost use Rattle.std.proofs.Common.{arith, length-append};
    ghost use Rattle.act_rules.specs.declared.history.RunItem.{RunItem};

    ghost Value = { List RunItem };

    ghost view = { λ ran. option_map_or (λ last. last.before.value ++ last.item ∷ []) ran.last [] };

    ghost size = { length };

    ghost size_decreases = { λ ran h. Prim.grind (arith, length-append) };
}

/// No calls.
fn no_call() -> Snapshot<Ran>
    ensures { result.value ≡ [] }
{
    Snapshot::of(&Ran { last: None })
}

/// One call more. It is let go.
fn add_call(calls: &mut Snapshot<Ran>, item: RunItem)
    ensures { calls.new.value ≡ calls.old.value ++ item ∷ [] }
{
    let before = mem::replace(calls, no_call());
    *calls = Snapshot::of(&Ran {
        last: Some(Last { before, item }),
    });
}

/// The calls that an actor ran, known to contracts alone. A run keeps how many they are, and whether the last one ended
/// the actor.
#[derive(Drop)]
pub struct Past {
    alloc: Global,
    count: usize,
    ended: bool,
    calls: Snapshot<Ran>,
}

impl Model for Past {
    ghost use Rattle.std.specs.Prelude.{◌≡◌, List, length};
    ghost use Rattle.act_rules.specs.declared.history.RunItem.{RunItem};
    ghost use Rattle.act_rules.specs.RunList.{has_terminated};

    ghost Value = { List RunItem };

    ghost view = { λ past. past.calls.value };

    ghost invariant = { λ past. (past.count ≡ length past.calls.value) ×
        (past.ended ≡ has_terminated past.calls.value) };
}

impl RunLog for Past {
    ghost use Rattle.std.specs.Prelude.{⊤};

    ghost items = { λ past. past };

    ghost has_room = { λ _. ⊤ };

    fn open(alloc: Global) -> Past {
        Past {
            alloc,
            count: 0,
            ended: false,
            calls: no_call(),
        }
    }

    fn alloc(&self) -> Global {
        self.alloc
    }

    fn count(&self) -> usize {
        self.count
    }

    fn has_terminated(&self) -> bool {
        self.ended
    }

    fn make_room(&mut self, _count: usize) -> Result<(), NoMemory> {
        Ok(())
    }

    fn add(&mut self, item: RunItem) {
        self.ended = is_end(&item);
        self.count += 1;
        add_call(&mut self.calls, item);
    }
}
