//! What a history tells of callers and actors.

ghost use Rattle.std.specs.Prelude.{◌<◌};

use crate::reason::{PlaceName, ToldPlace};
use act_rules::{KindName, RunItem, Step};
use act_types::{
    ACTOR_NUMBERS, ActorId, Answer, Arg, CALLER_NUMBERS, CallerId, Fault, FutureId, ListOf, Method,
};
use std::alloc::Global;

/// What a caller keeps of a call, as it is told.
#[derive(Drop)]
pub(crate) enum Kept {
    Nothing,
    /// An answer that isn't judged: that of its run, or of its actor's death.
    Something,
    Answer(Answer),
}

/// A call of a caller.
#[derive(Drop)]
pub(crate) struct Call {
    pub(crate) actor: ActorId,
    pub(crate) method: Method,
    pub(crate) args: ListOf<Arg>,
    pub(crate) kept: Kept,
    /// The line that submits it, or 0.
    pub(crate) submitted: u32,
    /// The line that tells its answer, or else the one that submits it.
    pub(crate) line: u32,
    /// The first place in its actor's run list that has it.
    pub(crate) place: Option<u32>,
    /// Where a call ran that took its failure, though its reply is a value: so a death answered it.
    pub(crate) failed: Option<(ActorId, u32)>,
}

/// A step of a caller that submits nothing.
#[derive(Clone, Copy)]
pub(crate) enum Between {
    /// A copy or a release of a handle, which never waits.
    Handle,
    Kill(ActorId),
    Await(FutureId),
}

/// Such a step, where it stands among the caller's calls.
#[derive(Clone, Copy)]
pub(crate) struct Placed {
    pub(crate) step: Between,
    /// How many of the caller's calls are submitted before it.
    pub(crate) after: usize,
    pub(crate) line: u32,
}

/// A caller with its calls.
#[derive(Drop)]
pub(crate) struct Caller {
    /// Whether some role names it.
    pub(crate) is_named: bool,
    pub(crate) calls: Vec<Call>,
    /// Whether lines of the script tell its calls.
    pub(crate) has_plan: bool,
    /// Whether some line of the script has it await an answer. Then it does all its lines in order.
    pub(crate) awaits: bool,
    /// Its other lines, where it awaits.
    pub(crate) between: Vec<Placed>,
    /// How many of its calls have a line that tells their answer.
    pub(crate) told: usize,
}

/// How an actor is left.
#[derive(Clone, Copy, PartialEq, Eq)]
pub(crate) enum Ending {
    Live,
    Dead,
    Retired,
}

/// A call that an actor ran, and the line that tells it.
#[derive(Drop)]
pub(crate) struct Ran {
    pub(crate) item: RunItem,
    pub(crate) line: u32,
}

/// An actor with its run list.
#[derive(Drop)]
pub(crate) struct Served {
    /// Its role, where it has one.
    pub(crate) kind: Option<KindName>,
    /// How many calls of each caller may have no answer.
    pub(crate) limit: Option<u32>,
    /// The callers that may call it.
    pub(crate) callers: Vec<CallerId>,
    pub(crate) ending: Ending,
    /// The line that tells how it ended. 0 until it was read.
    pub(crate) line: u32,
    pub(crate) log: Vec<Ran>,
}

/// What is told of all callers and actors. Each stands at its number.
#[derive(Drop)]
pub(crate) struct History {
    pub(crate) callers: Vec<Caller>,
    pub(crate) actors: Vec<Served>,
}

/// What a history tells beside its roles, as it was read.
#[derive(Clone, Copy)]
pub(crate) struct Lines<'a> {
    /// The steps of its script.
    pub(crate) steps: &'a [(CallerId, Step, u32)],
    /// The lines of what was left, and how many come before them.
    pub(crate) rest: &'a [u8],
    pub(crate) before: u32,
}

/// The place of what is kept of an actor, by its number.
pub(crate) fn slot_of(a: ActorId) -> usize
    ensures { result < ACTOR_NUMBERS }
{
    a.number() as usize
}

/// The place of what is kept of a caller, by its number.
pub(crate) fn slot_of_caller(c: CallerId) -> usize
    ensures { result < CALLER_NUMBERS }
{
    c.number() as usize
}

/// A place as a line tells it. No history has so many that one doesn't fit.
pub(crate) fn told_place(place: usize) -> u32 {
    u32::try_from(place).unwrap_or(u32::MAX)
}

/// Whether a line ends here.
pub(crate) fn is_line_end(byte: &u8) -> bool {
    *byte == b'\n'
}

/// The future of the call at this place among a caller's.
pub(crate) fn future_at(place: usize) -> FutureId {
    FutureId::new(told_place(place))
}

impl Call {
    /// Whether it has no answer.
    pub(crate) fn is_open(&self) -> bool {
        matches!(&self.kept, Kept::Nothing)
    }

    /// The answer that is told of it, if that is judged.
    pub(crate) fn answer(&self) -> Option<&Answer> {
        match &self.kept {
            Kept::Answer(answer) => Some(answer),
            Kept::Nothing | Kept::Something => None,
        }
    }

    /// Where it ran first, if it did.
    pub(crate) fn first_place(&self) -> Option<(ActorId, u32)> {
        let place = self.place?;
        Some((self.actor, place))
    }

    /// Whether a death answered it.
    pub(crate) fn has_died(&self) -> bool {
        match &self.kept {
            Kept::Nothing => false,
            Kept::Something => self.place.is_none() || self.failed.is_some(),
            Kept::Answer(Err(Fault::ActorDied)) => true,
            Kept::Answer(_) => false,
        }
    }
}

impl Caller {
    pub(crate) fn new(alloc: Global) -> Caller {
        Caller {
            is_named: false,
            calls: Vec::new(alloc),
            has_plan: false,
            awaits: false,
            between: Vec::new(alloc),
            told: 0,
        }
    }

    pub(crate) fn call(&self, k: FutureId) -> Option<&Call> {
        self.calls.get(k.number() as usize)
    }
}

impl Served {
    pub(crate) fn new(alloc: Global) -> Served {
        Served {
            kind: None,
            limit: None,
            callers: Vec::new(alloc),
            ending: Ending::Live,
            line: 0,
            log: Vec::new(alloc),
        }
    }

    pub(crate) fn may_be_called_by(&self, c: CallerId) -> bool {
        for caller in &self.callers {
            if *caller == c {
                return true;
            }
        }
        false
    }
}

impl History {
    pub(crate) fn caller(&self, c: CallerId) -> Option<&Caller> {
        self.callers.get(c.number() as usize)
    }

    pub(crate) fn actor(&self, a: ActorId) -> Option<&Served> {
        self.actors.get(a.number() as usize)
    }

    /// The actor that comes after so many.
    pub(crate) fn actor_after(&self, before: u8) -> Option<(ActorId, &Served)> {
        let a = ActorId::new(before.wrapping_add(1))?;
        Some((a, self.actor(a)?))
    }

    /// The caller that comes after so many.
    pub(crate) fn caller_after(&self, before: u8) -> Option<(CallerId, &Caller)> {
        let c = CallerId::new(before.wrapping_add(1))?;
        Some((c, self.caller(c)?))
    }

    pub(crate) fn call(&self, c: CallerId, k: FutureId) -> Option<&Call> {
        self.caller(c)?.call(k)
    }

    /// The call at a place of an actor's run list.
    pub(crate) fn ran_at(&self, a: ActorId, place: u32) -> Option<&Ran> {
        self.actor(a)?.log.get(place as usize)
    }

    /// A place of an actor's run list, with its line.
    pub(crate) fn told_at(&self, a: ActorId, place: u32) -> Option<ToldPlace> {
        let ran = self.ran_at(a, place)?;
        Some(ToldPlace {
            at: PlaceName { actor: a, place },
            line: ran.line,
        })
    }

    pub(crate) fn call_mut(&mut self, c: CallerId, k: FutureId) -> Option<&mut Call> {
        let caller = self.callers.get_mut(c.number() as usize)?;
        caller.calls.get_mut(k.number() as usize)
    }
}
