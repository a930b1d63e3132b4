//! How far callers and actors are in a play that is being made.

ghost use Rattle.std.specs.Prelude.{◌<◌};

use act_owner::Owner;
use act_types::{ACTOR_NUMBERS, ActorId, Arg, FutureId, NoMemory};
use std::alloc::Global;

/// The place of what is kept of an actor, by its number.
fn slot_of(a: ActorId) -> usize
    ensures { result < ACTOR_NUMBERS }
{
    a.number() as usize
}

/// What a caller did so far.
#[derive(Drop)]
pub(crate) struct CallerProgress {
    /// How many of its calls it submitted.
    submitted: u32,
    /// Which of these have an answer.
    answered: Vec<bool>,
    /// How many calls of each actor have none.
    pending: [u32; ACTOR_NUMBERS],
    /// Whether it heard that an actor died.
    bereaved: [bool; ACTOR_NUMBERS],
}

impl CallerProgress {
    /// A caller that did nothing yet.
    pub(crate) fn new(alloc: Global) -> CallerProgress {
        CallerProgress {
            submitted: 0,
            answered: Vec::new(alloc),
            pending: [0; ACTOR_NUMBERS],
            bereaved: [false; ACTOR_NUMBERS],
        }
    }

    pub(crate) fn count_submitted(&self) -> u32 {
        self.submitted
    }

    /// Whether the caller's limit lets it submit one call more to the actor.
    pub(crate) fn may_submit(&self, owner: &Owner, a: ActorId) -> bool {
        match owner.limit(a) {
            None => true,
            Some(limit) => self.pending[slot_of(a)] < limit,
        }
    }

    /// One call more was submitted. It has its answer at once where its actor is known to be dead.
    pub(crate) fn submit(&mut self, a: ActorId) -> Result<(), NoMemory> {
        let slot = slot_of(a);
        self.answered.push(self.bereaved[slot])?;
        self.submitted = self.submitted.wrapping_add(1);
        if !self.bereaved[slot] {
            self.pending[slot] = self.pending[slot].wrapping_add(1);
        }
        Ok(())
    }

    /// Whether the call has an answer.
    fn is_answered(&self, k: FutureId) -> bool {
        match self.answered.get(k.number() as usize) {
            Some(is_answered) => *is_answered,
            None => false,
        }
    }

    /// Whether the argument is known.
    fn knows(&self, arg: &Arg) -> bool {
        match arg {
            Arg::Plain(_) => true,
            Arg::Fut(k) => self.is_answered(*k),
        }
    }

    /// Whether the call was submitted, and can be sent.
    pub(crate) fn may_send(&self, owner: &Owner, k: FutureId) -> bool {
        let Some(call) = owner.call(k) else {
            return false;
        };
        k.number() < self.submitted && call.args.as_slice().iter().all(|arg| self.knows(arg))
    }

    /// The call of the actor has an answer now.
    fn answer(&mut self, k: FutureId) {
        if let Some(is_answered) = self.answered.get_mut(k.number() as usize) {
            *is_answered = true;
        }
    }

    /// A reply of the actor was collected.
    pub(crate) fn collect(&mut self, a: ActorId, k: FutureId) {
        let slot = slot_of(a);
        self.pending[slot] = self.pending[slot].wrapping_sub(1);
        self.answer(k);
    }

    /// The actor's death was collected.
    pub(crate) fn lose(&mut self, owner: &Owner, a: ActorId) {
        let slot = slot_of(a);
        self.pending[slot] = 0;
        self.bereaved[slot] = true;
        for number in 0..self.submitted {
            let k = FutureId::new(number);
            if is_to(owner, k, a) {
                self.answer(k);
            }
        }
    }
}

/// Whether a call goes to the actor.
fn is_to(owner: &Owner, k: FutureId, a: ActorId) -> bool {
    match owner.call(k) {
        Some(call) => call.actor == a,
        None => false,
    }
}

/// What an actor did so far.
#[derive(Clone, Copy)]
pub(crate) struct ActorProgress {
    /// How many calls it ran.
    pub(crate) ran: usize,
    pub(crate) is_dead: bool,
}
