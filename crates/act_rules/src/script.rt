//! What scripts are made of.

ghost use Rattle.std.specs.Prelude.{◌≡◌, Some};
ghost use Rattle.act_rules.specs.Report.{wrong_text};

use crate::Event;
use act_types::{ActorId, Arg, CallerId, FutureId, ListOf, Method};
use std::fmt;

/// How a script is run: as one list of events, or by threads, each caller with a plan of its own.
#[derive(Clone, Copy, Debug, PartialEq, Eq)]
pub enum Mode {
    Play,
    Threads,
}

/// The kinds of actor.
#[derive(Clone, Copy, Debug, PartialEq, Eq)]
pub enum KindName {
    Counter,
    Table,
    Account,
    ListKind,
}

/// An actor of a script: the callers that may call it, its kind, and its limit if it has one.
#[derive(Debug, Drop)]
pub struct Role {
    pub actor: ActorId,
    pub callers: ListOf<CallerId>,
    pub kind: KindName,
    /// How many calls of each caller to the actor may have no answer yet, from 1 to 65,536.
    pub pending: Option<u32>,
}

/// One step of a caller's plan.
#[derive(Debug, Drop)]
pub enum Step {
    Submit(ActorId, Method, ListOf<Arg>),
    Copy(ActorId),
    Release(ActorId),
    Kill(ActorId),
    /// The caller goes on when the future has an answer.
    Await(FutureId),
}

/// What a caller does in threads, in order.
pub type Plan = Vec<Step>;

/// What one line of a script says.
#[derive(Debug, Drop)]
pub enum Line {
    Role(Role),
    Event(Event),
    /// A step of a caller, in threads.
    Step(CallerId, Step),
}

/// What is wrong with a line of a script, the first of these that holds.
#[derive(Clone, Copy, Debug, PartialEq, Eq)]
pub enum Wrong {
    /// The script has more than 1,048,576 bytes. This stands for line 0.
    TooLong,
    /// The line has none of the forms of its mode.
    BadLine,
    /// A role stands after a line of another form.
    LateActor,
    /// The actor has a role already.
    TwiceActor,
    /// A caller stands twice in the role.
    TwiceCaller,
    /// Threads don't serve so many actors or callers. This stands for line 0.
    TooMany,
    /// The step would be refused, or its caller has no role.
    BadPlan,
}

impl Wrong {
    /// The word by which a script fault tells it.
    pub fn word(&self) -> &'static str
        ensures { result.now ≡ wrong_text self.now }
    {
        match self {
            Wrong::TooLong => "TooLong",
            Wrong::BadLine => "BadLine",
            Wrong::LateActor => "LateActor",
            Wrong::TwiceActor => "TwiceActor",
            Wrong::TwiceCaller => "TwiceCaller",
            Wrong::TooMany => "TooMany",
            Wrong::BadPlan => "BadPlan",
        }
    }
}

impl fmt::Display for Wrong {
    ghost output = { λ wrong. Some (wrong_text wrong) };

    fn fmt<W: fmt::Write>(&self, f: &mut fmt::Formatter<W>) -> fmt::Result {
        f.write_str(self.word())
    }
}
