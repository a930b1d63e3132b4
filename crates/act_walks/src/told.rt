//! What is told of a play's end.

use act_rules::Step;
use act_types::{ActorId, Arg, CallerId, FutureId, ListOf, Method, Settled, SmallList};

/// What is told of a call's answer.
#[derive(Clone, Copy, Debug, PartialEq, Eq)]
pub enum Left {
    /// None is kept.
    Open,
    /// Its reply is kept.
    Reply,
    /// The death of its actor is.
    Death,
}

/// A call that is told.
#[derive(Debug, Drop)]
pub struct ToldCall {
    pub actor: ActorId,
    pub method: Method,
    pub args: ListOf<Arg>,
    pub left: Left,
    /// Whether it is left open which answer is kept.
    pub is_open: bool,
    /// Where it ran, if it did: its actor, and the place in the run list.
    pub place: Option<(ActorId, u32)>,
    /// Where a call ran that took its failure, if it gave a value and its death is told.
    pub failed: Option<(ActorId, u32)>,
}

/// What is told of a caller.
#[derive(Debug, Drop)]
pub struct ToldCaller {
    /// Its calls, in their order.
    pub calls: Vec<ToldCall>,
    /// The steps that it does in their order, where it is bound to some.
    pub steps: Option<Vec<Step>>,
    /// Whether a script tells its calls. Else each call that ran is as it ran.
    pub has_lines: bool,
}

/// A call that an actor is told to have run.
#[derive(Debug, Drop)]
pub struct ToldRun {
    pub caller: CallerId,
    pub future: FutureId,
    pub method: Method,
    /// The arguments that it ran with.
    pub args: SmallList<Settled>,
}

/// What is told of an actor.
#[derive(Debug, Drop)]
pub struct ToldActor {
    /// The callers that its cast names.
    pub callers: Vec<CallerId>,
    /// The calls that it ran, in their order.
    pub runs: Vec<ToldRun>,
    pub is_dead: bool,
    pub is_retired: bool,
}

/// What is told of a play's end.
#[derive(Debug, Drop)]
pub struct ToldEnd {
    /// The callers, each at its number.
    pub callers: Vec<ToldCaller>,
    /// The actors, each at its number.
    pub actors: Vec<ToldActor>,
}
