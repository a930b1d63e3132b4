//! The search for ends, state by state.

ghost use Rattle.std.specs.Prelude.{◌≡◌, ◌↔◌, true, false, IfOk, OnErr};
ghost use Rattle.act_ends.specs.Frontier.{Extends};
ghost use Rattle.act_ends.specs.declared.search.Searched.TheVariants.{Whole};

use crate::choice::Choice;
use crate::fault::PlansFault;
use crate::key::key_of;
use crate::plans::{Plans, closed_script, read_plans};
use crate::shown::{View, shown};
use crate::state::State;
use act_types::NoMemory;
use std::alloc::Global;
use std::collections::BTreeSet;
use std::marker::Model;

/// How much was searched.
#[derive(Clone, Copy, Debug, PartialEq, Eq)]
pub enum Searched {
    /// Each state that the search came to was looked at.
    Whole,
    /// Some state is left, or was lost for want of memory.
    Part,
}

/// What looking at a state came to.
#[derive(Debug, Drop)]
pub enum Looked {
    /// It was looked at before, or no state is left.
    Nothing,
    /// It is no end, or one that the view doesn't tell from an earlier one.
    State,
    /// It is an end, and these are its lines.
    End(String),
}

/// A search for all ends of a script's plans. Contracts see how many states are left to be looked at,
/// and whether one was lost for want of memory.
#[derive(Drop)]
pub struct Search {
    alloc: Global,
    /// The script, and after it an await at the end of each plan that has none.
    script: Vec<u8>,
    plans: Plans,
    view: View,
    /// The choices that lead to each state that waits to be looked at.
    waiting: Vec<Vec<Choice>>,
    /// The keys of the states that were looked at.
    seen: BTreeSet<String>,
    /// What the view showed of each end so far.
    shown: BTreeSet<String>,
    /// Whether a state was lost for want of memory.
    has_lost: bool,
}

impl Model for Search {
    ghost use Rattle.std.specs.Prelude.{length};
    ghost use Rattle.act_ends.specs.Frontier.{Frontier};

    ghost Value = { Frontier };

    ghost view = { λ search. record {
      script = search.script.items;
      left = length search.waiting.items;
      has_lost = search.has_lost;
    } };
}

/// The choices, and one more.
fn path_after(alloc: Global, path: &[Choice], choice: Choice) -> Result<Vec<Choice>, NoMemory> {
    let mut after = Vec::with_capacity(alloc, path.len().saturating_add(1))?;
    after.extend_from_slice(path)?;
    after.push(choice)?;
    Ok(after)
}

/// Adds the states that come after the one that the path leads to.
fn add_next(
    alloc: Global,
    waiting: &mut Vec<Vec<Choice>>,
    path: &[Choice],
    choices: &[Choice],
) -> Result<(), NoMemory> {
    for choice in choices {
        waiting.push(path_after(alloc, path, *choice)?)?;
    }
    Ok(())
}

/// The state that choices lead to.
fn state_after(alloc: Global, plans: &Plans, path: &[Choice]) -> Result<State, NoMemory> {
    let mut state = State::open(alloc, plans)?;
    for choice in path {
        if let Err(error) = state.choose(plans, *choice) {
            drop(state);
            return Err(error);
        }
    }
    Ok(state)
}

impl Search {
    /// A search at its beginning.
    pub fn open(alloc: Global, script: &[u8], view: View) -> Result<Search, PlansFault>
        ensures { IfOk result (λ search. Extends script.now search.script) }
    {
        let plans = read_plans(alloc, script)?;
        let script = closed_script(alloc, script, &plans)?;
        let mut search = Search {
            alloc,
            script,
            plans,
            view,
            waiting: Vec::new(alloc),
            seen: BTreeSet::new(alloc),
            shown: BTreeSet::new(alloc),
            has_lost: false,
        };
        if search.waiting.push(Vec::new(alloc)).is_err() {
            drop(search);
            return Err(PlansFault::Memory);
        }
        Ok(search)
    }

    /// The script, and after it an await of the last call of each caller whose plan awaits nothing. At
    /// an end each call has an answer. So these lines change no end, and a play has to keep each plan's
    /// order.
    pub fn script(&self) -> &[u8]
        ensures { result.now ≡ self.now.script }
    {
        self.script.as_slice()
    }

    /// How many states are left to be looked at.
    pub fn left(&self) -> usize
        ensures { result ≡ self.now.left }
    {
        self.waiting.len()
    }

    /// How many different states were looked at.
    pub fn count(&self) -> usize {
        self.seen.len()
    }

    /// Whether the search is at its end.
    pub fn searched(&self) -> Searched
        ensures { (result ≡ Whole) ↔ ((self.now.left ≡ 0) × (self.now.has_lost ≡ false)) }
    {
        if self.waiting.is_empty() && !self.has_lost {
            Searched::Whole
        } else {
            Searched::Part
        }
    }

    /// The lines of an end, where the view showed none like it.
    fn end_of(&mut self, state: &State) -> Result<Looked, NoMemory>
        ensures script { self.new.script ≡ self.old.script }
        ensures lost { self.new.has_lost ≡ self.old.has_lost }
    {
        let seen = shown(self.alloc, &self.plans, state, self.view)?;
        let lines = shown(self.alloc, &self.plans, state, View::Report)?;
        if self.shown.insert(seen)? {
            Ok(Looked::End(lines))
        } else {
            drop(lines);
            Ok(Looked::State)
        }
    }

    /// Looks at a state that these choices lead to.
    fn look_at(&mut self, path: &[Choice]) -> Result<Looked, NoMemory>
        ensures script { self.new.script ≡ self.old.script }
        ensures lost { self.new.has_lost ≡ self.old.has_lost }
    {
        let state = state_after(self.alloc, &self.plans, path)?;
        let key = key_of(self.alloc, &self.plans, &state, self.view)?;
        if !self.seen.insert(key)? {
            drop(state);
            return Ok(Looked::Nothing);
        }
        let choices = state.choices(&self.plans)?;
        add_next(self.alloc, &mut self.waiting, path, &choices)?;
        let looked = if state.is_end(&self.plans) {
            self.end_of(&state)
        } else {
            Ok(Looked::State)
        };
        drop(state);
        looked
    }

    /// Looks at the next state, and adds those that come after it. An `Err` loses the state.
    pub fn look(&mut self) -> Result<Looked, NoMemory>
        ensures err { OnErr result (self.new.has_lost ≡ true) }
        ensures script { self.new.script ≡ self.old.script }
        ensures lost { self.old.has_lost ≡ true → self.new.has_lost ≡ true }
    {
        let Some(path) = self.waiting.pop() else {
            return Ok(Looked::Nothing);
        };
        let looked = self.look_at(&path);
        drop(path);
        if looked.is_err() {
            self.has_lost = true;
        }
        looked
    }
}
