//! What is told of an event: what it did, or the first refusal that met it.

ghost use Rattle.std.specs.Prelude.{◌≡◌, Some};
ghost use Rattle.act_rules.specs.Report.{arrival_text, did_text, handle_text, submit_text, sending_text, refusal_text};

use act_types::{CallerId, FutureId};
use std::fmt;

/// What a delivery is to an actor.
#[derive(Clone, Copy, Debug, PartialEq, Eq)]
pub enum Arrival {
    /// It had not arrived before.
    New,
    /// It arrived before, and changes nothing.
    Repeat,
    /// It is not for this actor, or of no caller of it, and changes nothing.
    Stranger,
}

/// What an accepted event did.
#[derive(Clone, Copy, Debug, PartialEq, Eq)]
pub enum Did {
    /// The caller's new future.
    Future(CallerId, FutureId),
    /// The copies of the handle that the caller holds now.
    Copies(u32),
    /// The place of the new letter in the mail.
    Mail(u32),
    Arrived(Arrival),
    /// The place of the call in the run list, and that of its notice in the replies.
    Ran(u32, u32),
    /// The caller's next call has not arrived.
    Gap,
    /// The collected answer is the first one of this future.
    Kept(CallerId, FutureId),
    /// This future has an answer already, which stays.
    Late(CallerId, FutureId),
    /// How many futures the collected death answered.
    Died(u32),
    Asked,
    Dead,
    /// The place of the death's notice in the replies.
    Told(u32),
    Retired,
}

/// Why a handle isn't used. The first of these that holds is told.
#[derive(Clone, Copy, Debug, PartialEq, Eq)]
pub enum HandleRefusal {
    /// The actor is none of this caller's.
    NoActor,
    /// The caller holds no copy of the handle.
    NoHandle,
    /// The caller holds 65,535 copies.
    TooManyCopies,
    /// The caller has submitted 65,536 calls.
    TooManyCalls,
}

/// Why a call isn't submitted. The first of these that holds is told.
#[derive(Clone, Copy, Debug, PartialEq, Eq)]
pub enum SubmitRefusal {
    /// The actor is none of this caller's.
    NoActor,
    /// The caller holds no copy of the handle.
    NoHandle,
    /// There are more than 4 arguments.
    TooManyArgs,
    /// An argument is no earlier future of this caller.
    BadFuture,
    /// The caller has submitted 65,536 calls.
    TooManyCalls,
    /// As many of the caller's calls to the actor as its limit allows have no answer yet. It is
    /// after Ray's option `max_pending_calls`, which raises `PendingCallsLimitExceeded`.
    PendingLimit,
    NoMemory,
}

/// Why a call isn't sent. The first of these that holds is told.
#[derive(Clone, Copy, Debug, PartialEq, Eq)]
pub enum SendRefusal {
    /// The caller has no such future.
    NoFuture,
    /// An argument has no answer yet.
    NotReady,
    /// A death answered the call before it was sent.
    Answered,
    NoMemory,
}

/// Why an event changed nothing. The first of the checks of its event that fails is told.
#[derive(Clone, Copy, Debug, PartialEq, Eq)]
pub enum WorldRefusal {
    Submit(SubmitRefusal),
    Handle(HandleRefusal),
    Sending(SendRefusal),
    /// No cast names the caller.
    NoCaller,
    /// The mail has no letter at this place.
    NoMail,
    /// The replies have no notice at this place.
    NoReply,
    /// The actor is dead or retired.
    ActorEnded,
    /// No kill of the actor was asked.
    NoKill,
    /// The actor is not dead.
    NotDead,
    /// A handle isn't released, or a call hasn't run.
    NotDrained,
    NoMemory,
}

/// What is told of an event.
pub type Outcome = Result<Did, WorldRefusal>;

impl Arrival {
    /// The word by which reports tell it.
    pub fn word(&self) -> &'static str
        ensures { result.now ≡ arrival_text self.now }
    {
        match self {
            Arrival::New => "new",
            Arrival::Repeat => "repeat",
            Arrival::Stranger => "stranger",
        }
    }
}

impl fmt::Display for Arrival {
    ghost output = { λ arrival. Some (arrival_text arrival) };

    fn fmt<W: fmt::Write>(&self, f: &mut fmt::Formatter<W>) -> fmt::Result {
        f.write_str(self.word())
    }
}

impl fmt::Display for Did {
    ghost output = { λ did. Some (did_text did) };

    fn fmt<W: fmt::Write>(&self, f: &mut fmt::Formatter<W>) -> fmt::Result {
        match self {
            Did::Future(caller, future) => write!(f, "future {caller}.{future}"),
            Did::Copies(copies) => write!(f, "copies {copies}"),
            Did::Mail(place) => write!(f, "mail {place}"),
            Did::Arrived(arrival) => f.write_str(arrival.word()),
            Did::Ran(place, reply) => write!(f, "place {place} reply {reply}"),
            Did::Gap => f.write_str("gap"),
            Did::Kept(caller, future) => write!(f, "kept {caller}.{future}"),
            Did::Late(caller, future) => write!(f, "late {caller}.{future}"),
            Did::Died(answered) => write!(f, "died {answered}"),
            Did::Asked => f.write_str("asked"),
            Did::Dead => f.write_str("dead"),
            Did::Told(reply) => write!(f, "reply {reply}"),
            Did::Retired => f.write_str("retired"),
        }
    }
}

impl HandleRefusal {
    /// The word by which reports tell it.
    pub fn word(&self) -> &'static str
        ensures { result.now ≡ handle_text self.now }
    {
        match self {
            HandleRefusal::NoActor => "NoActor",
            HandleRefusal::NoHandle => "NoHandle",
            HandleRefusal::TooManyCopies => "TooManyCopies",
            HandleRefusal::TooManyCalls => "TooManyCalls",
        }
    }
}

impl fmt::Display for HandleRefusal {
    ghost output = { λ refusal. Some (handle_text refusal) };

    fn fmt<W: fmt::Write>(&self, f: &mut fmt::Formatter<W>) -> fmt::Result {
        f.write_str(self.word())
    }
}

impl SubmitRefusal {
    /// The word by which reports tell it.
    pub fn word(&self) -> &'static str
        ensures { result.now ≡ submit_text self.now }
    {
        match self {
            SubmitRefusal::NoActor => "NoActor",
            SubmitRefusal::NoHandle => "NoHandle",
            SubmitRefusal::TooManyArgs => "TooManyArgs",
            SubmitRefusal::BadFuture => "BadFuture",
            SubmitRefusal::TooManyCalls => "TooManyCalls",
            SubmitRefusal::PendingLimit => "PendingLimit",
            SubmitRefusal::NoMemory => "NoMemory",
        }
    }
}

impl fmt::Display for SubmitRefusal {
    ghost output = { λ refusal. Some (submit_text refusal) };

    fn fmt<W: fmt::Write>(&self, f: &mut fmt::Formatter<W>) -> fmt::Result {
        f.write_str(self.word())
    }
}

impl SendRefusal {
    /// The word by which reports tell it.
    pub fn word(&self) -> &'static str
        ensures { result.now ≡ sending_text self.now }
    {
        match self {
            SendRefusal::NoFuture => "NoFuture",
            SendRefusal::NotReady => "NotReady",
            SendRefusal::Answered => "Answered",
            SendRefusal::NoMemory => "NoMemory",
        }
    }
}

impl fmt::Display for SendRefusal {
    ghost output = { λ refusal. Some (sending_text refusal) };

    fn fmt<W: fmt::Write>(&self, f: &mut fmt::Formatter<W>) -> fmt::Result {
        f.write_str(self.word())
    }
}

impl WorldRefusal {
    /// The word by which reports tell it, which is that of the refusal within it, if there is one.
    pub fn word(&self) -> &'static str
        ensures { result.now ≡ refusal_text self.now }
    {
        match self {
            WorldRefusal::Submit(refusal) => refusal.word(),
            WorldRefusal::Handle(refusal) => refusal.word(),
            WorldRefusal::Sending(refusal) => refusal.word(),
            WorldRefusal::NoCaller => "NoCaller",
            WorldRefusal::NoMail => "NoMail",
            WorldRefusal::NoReply => "NoReply",
            WorldRefusal::ActorEnded => "ActorEnded",
            WorldRefusal::NoKill => "NoKill",
            WorldRefusal::NotDead => "NotDead",
            WorldRefusal::NotDrained => "NotDrained",
            WorldRefusal::NoMemory => "NoMemory",
        }
    }
}

impl fmt::Display for WorldRefusal {
    ghost output = { λ refusal. Some (refusal_text refusal) };

    fn fmt<W: fmt::Write>(&self, f: &mut fmt::Formatter<W>) -> fmt::Result {
        f.write_str(self.word())
    }
}
