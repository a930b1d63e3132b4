//! How far callers and actors are in a play that is being made.

use crate::history::{Call, Caller, History, Placed, future_at, slot_of};
use act_types::{ACTOR_NUMBERS, ActorId, Arg, CallerId, FutureId, NoMemory};
use std::alloc::Global;

/// What a caller did so far.
#[derive(Drop)]
pub(crate) struct CallerProgress {
    /// Which of the calls that it submitted have an answer.
    answered: Vec<bool>,
    /// How many calls of each actor have none.
    pending: [u32; ACTOR_NUMBERS],
    /// Whether it heard that an actor died.
    bereaved: [bool; ACTOR_NUMBERS],
    /// How many of its steps that submit nothing it did.
    pub(crate) passed: usize,
}

impl CallerProgress {
    /// A caller that did nothing yet.
    pub(crate) fn new(alloc: Global) -> CallerProgress {
        CallerProgress {
            answered: Vec::new(alloc),
            pending: [0; ACTOR_NUMBERS],
            bereaved: [false; ACTOR_NUMBERS],
            passed: 0,
        }
    }

    /// How many of its calls it submitted.
    pub(crate) fn count_submitted(&self) -> usize {
        self.answered.len()
    }

    /// The step that it does next, where that submits nothing.
    pub(crate) fn next_between<'a>(&self, caller: &'a Caller) -> Option<&'a Placed> {
        let placed = caller.between.get(self.passed)?;
        if placed.after > self.count_submitted() {
            return None;
        }
        Some(placed)
    }

    /// Whether the limit lets it submit one call more to the actor.
    pub(crate) fn may_submit(&self, limit: Option<u32>, a: ActorId) -> bool {
        match limit {
            None => true,
            Some(limit) => self.pending[slot_of(a)] < limit,
        }
    }

    /// One call more was submitted. It has its answer at once where its actor is known to be dead.
    pub(crate) fn submit(&mut self, a: ActorId) -> Result<(), NoMemory> {
        let slot = slot_of(a);
        self.answered.push(self.bereaved[slot])?;
        if !self.bereaved[slot] {
            self.pending[slot] = self.pending[slot].wrapping_add(1);
        }
        Ok(())
    }

    /// Whether the call has an answer.
    pub(crate) fn is_answered(&self, k: FutureId) -> bool {
        match self.answered.get(k.number() as usize) {
            Some(is_answered) => *is_answered,
            None => false,
        }
    }

    /// Whether all arguments are known.
    fn knows(&self, args: &[Arg]) -> bool {
        for arg in args {
            if let Arg::Fut(k) = arg
                && !self.is_answered(*k)
            {
                return false;
            }
        }
        true
    }

    /// Whether the call was submitted, and can be sent.
    pub(crate) fn may_send(&self, call: &Call, k: FutureId) -> bool {
        (k.number() as usize) < self.count_submitted() && self.knows(call.args.as_slice())
    }

    /// The call of the actor has an answer now.
    fn answer(&mut self, k: FutureId) {
        if let Some(is_answered) = self.answered.get_mut(k.number() as usize) {
            *is_answered = true;
        }
    }

    /// A reply of the actor was collected.
    pub(crate) fn collect(&mut self, a: ActorId, k: FutureId) {
        let slot = slot_of(a);
        self.pending[slot] = self.pending[slot].wrapping_sub(1);
        self.answer(k);
    }

    /// The actor's death was collected.
    pub(crate) fn lose(&mut self, caller: &Caller, a: ActorId) {
        let slot = slot_of(a);
        self.pending[slot] = 0;
        self.bereaved[slot] = true;
        for number in 0..self.count_submitted() {
            if let Some(call) = caller.calls.get(number)
                && call.actor == a
            {
                self.answer(future_at(number));
            }
        }
    }
}

/// What an actor did so far.
#[derive(Clone, Copy)]
pub(crate) struct Done {
    /// How many calls it ran.
    pub(crate) ran: usize,
    /// Whether a caller asked for its kill.
    pub(crate) is_asked: bool,
    pub(crate) is_dead: bool,
}

/// An actor that did nothing yet.
const NOTHING_DONE: Done = Done {
    ran: 0,
    is_asked: false,
    is_dead: false,
};

/// How far all of them are.
#[derive(Drop)]
pub(crate) struct Progress {
    pub(crate) callers: Vec<CallerProgress>,
    pub(crate) actors: [Done; ACTOR_NUMBERS],
}

impl Progress {
    /// A caller for each of the history's, and actors, that did nothing yet.
    pub(crate) fn open(alloc: Global, history: &History) -> Result<Progress, NoMemory> {
        let mut callers = Vec::new(alloc);
        for _caller in &history.callers {
            callers.push(CallerProgress::new(alloc))?;
        }
        Ok(Progress {
            callers,
            actors: [NOTHING_DONE; ACTOR_NUMBERS],
        })
    }

    /// What the actor did so far.
    pub(crate) fn done_by(&self, a: ActorId) -> Done {
        self.actors[slot_of(a)]
    }

    /// Notes what the actor did so far.
    pub(crate) fn note(&mut self, a: ActorId, done: Done) {
        self.actors[slot_of(a)] = done;
    }
}

/// Whether a death answered some call of the caller to the actor.
pub(crate) fn is_bereaved(caller: &Caller, a: ActorId) -> bool {
    for call in &caller.calls {
        if call.actor == a && call.has_died() {
            return true;
        }
    }
    false
}
