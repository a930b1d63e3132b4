//! What stands in a play that is being made, for what waits for it: letters, notices and kills.

ghost use Rattle.std.specs.Prelude.{◌<◌};

use act_types::{ACTOR_NUMBERS, ActorId, CALLER_NUMBERS, CallerId, FutureId, NoMemory};
use std::alloc::Global;

/// The place of what is kept of a caller, by its number.
fn caller_place(c: CallerId) -> usize
    ensures { result < CALLER_NUMBERS }
{
    c.number() as usize
}

/// The place of what is kept of an actor, by its number.
fn actor_place(a: ActorId) -> usize
    ensures { result < ACTOR_NUMBERS }
{
    a.number() as usize
}

/// What a caller put.
#[derive(Drop)]
struct CallerCauses {
    /// How many calls it submitted, and the letter of each that was sent.
    submitted: u32,
    calls: Vec<Option<u32>>,
    /// The letters of its last releases, by the actors' numbers.
    notes: [Option<u32>; ACTOR_NUMBERS],
}

/// What an actor gave, and whether its kill was asked.
#[derive(Drop)]
struct ActorCauses {
    /// The notice of each call that ran.
    replies: Vec<u32>,
    /// The notices of its death, by the callers' numbers.
    deaths: [Option<u32>; CALLER_NUMBERS],
    is_asked: bool,
}

/// Where letters and notices stand, each kept by the numbers of callers and actors.
#[derive(Drop)]
pub(crate) struct Causes {
    letters: u32,
    notices: u32,
    callers: Vec<CallerCauses>,
    actors: Vec<ActorCauses>,
}

impl Causes {
    /// Nothing stands yet.
    pub(crate) fn open(alloc: Global) -> Result<Causes, NoMemory> {
        let mut causes = Causes {
            letters: 0,
            notices: 0,
            callers: Vec::new(alloc),
            actors: Vec::new(alloc),
        };
        match causes.add_nobody(alloc) {
            Ok(()) => Ok(causes),
            Err(error) => {
                drop(causes);
                Err(error)
            }
        }
    }

    /// A caller and an actor for each number, which did nothing yet.
    fn add_nobody(&mut self, alloc: Global) -> Result<(), NoMemory> {
        for _caller in 0..CALLER_NUMBERS {
            self.callers.push(CallerCauses {
                submitted: 0,
                calls: Vec::new(alloc),
                notes: [None; ACTOR_NUMBERS],
            })?;
        }
        for _actor in 0..ACTOR_NUMBERS {
            self.actors.push(ActorCauses {
                replies: Vec::new(alloc),
                deaths: [None; CALLER_NUMBERS],
                is_asked: false,
            })?;
        }
        Ok(())
    }

    /// The place that the next letter has.
    fn next_letter(&mut self) -> u32 {
        let place = self.letters;
        self.letters = place.wrapping_add(1);
        place
    }

    /// The place that the next notice has.
    fn next_notice(&mut self) -> u32 {
        let place = self.notices;
        self.notices = place.wrapping_add(1);
        place
    }

    /// A call more is submitted. Its future.
    pub(crate) fn submit(&mut self, c: CallerId) -> Result<Option<FutureId>, NoMemory> {
        let Some(caller) = self.callers.get_mut(caller_place(c)) else {
            return Ok(None);
        };
        caller.calls.push(None)?;
        let k = FutureId::new(caller.submitted);
        caller.submitted = caller.submitted.wrapping_add(1);
        Ok(Some(k))
    }

    /// The call's letter is sent.
    pub(crate) fn send(&mut self, c: CallerId, k: FutureId) {
        let letter = self.next_letter();
        if let Some(caller) = self.callers.get_mut(caller_place(c)) {
            if let Some(call) = caller.calls.get_mut(k.number() as usize) {
                *call = Some(letter);
            }
        }
    }

    /// The last copy of a handle is let go.
    pub(crate) fn let_go(&mut self, c: CallerId, a: ActorId) {
        let letter = self.next_letter();
        if let Some(caller) = self.callers.get_mut(caller_place(c)) {
            caller.notes[actor_place(a)] = Some(letter);
        }
    }

    /// A kill of the actor is asked.
    pub(crate) fn ask_kill(&mut self, a: ActorId) {
        if let Some(actor) = self.actors.get_mut(actor_place(a)) {
            actor.is_asked = true;
        }
    }

    /// The actor runs a call, and its reply is given.
    pub(crate) fn run(&mut self, a: ActorId) -> Result<(), NoMemory> {
        let notice = self.next_notice();
        if let Some(actor) = self.actors.get_mut(actor_place(a)) {
            actor.replies.push(notice)?;
        }
        Ok(())
    }

    /// The actor's death is given to the caller.
    pub(crate) fn tell(&mut self, a: ActorId, c: CallerId) {
        let notice = self.next_notice();
        if let Some(actor) = self.actors.get_mut(actor_place(a)) {
            actor.deaths[caller_place(c)] = Some(notice);
        }
    }

    /// The call's letter, where it was sent.
    pub(crate) fn call(&self, c: CallerId, k: FutureId) -> Option<u32> {
        match self
            .callers
            .get(caller_place(c))?
            .calls
            .get(k.number() as usize)
        {
            Some(letter) => *letter,
            None => None,
        }
    }

    /// The letter of the caller's last release of the actor, where it was sent.
    pub(crate) fn note(&self, c: CallerId, a: ActorId) -> Option<u32> {
        self.callers.get(caller_place(c))?.notes[actor_place(a)]
    }

    /// The notice of the actor's call at this place of its run list, where it ran.
    pub(crate) fn reply(&self, a: ActorId, place: u32) -> Option<u32> {
        match self.actors.get(actor_place(a))?.replies.get(place as usize) {
            Some(notice) => Some(*notice),
            None => None,
        }
    }

    /// The notice of the actor's death to the caller, where it was told.
    pub(crate) fn death(&self, a: ActorId, c: CallerId) -> Option<u32> {
        self.actors.get(actor_place(a))?.deaths[caller_place(c)]
    }

    /// Whether a kill of the actor was asked.
    pub(crate) fn is_asked(&self, a: ActorId) -> bool {
        match self.actors.get(actor_place(a)) {
            Some(actor) => actor.is_asked,
            None => false,
        }
    }
}
