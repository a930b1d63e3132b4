//! What accepted events leave behind.

use act_types::{ActorId, Arg, CallerId, FutureId, ListOf, Method, Settled, SmallList};

/// An accepted submission of a caller. Its place among the caller's submissions is its future.
#[derive(Debug, Drop)]
pub struct Submission {
    pub actor: ActorId,
    pub method: Method,
    pub args: ListOf<Arg>,
}

/// One call that an actor ran.
#[derive(Debug, Drop)]
pub struct RunItem {
    pub caller: CallerId,
    /// The call's place among the caller's calls to this actor.
    pub number: u32,
    pub future: FutureId,
    pub method: Method,
    pub args: SmallList<Settled>,
}

/// What a letter of the mail is: two letters that are equal in this are one.
#[derive(Clone, Copy, Debug, PartialEq, Eq)]
pub enum Letter {
    /// A caller's call to an actor, by its number.
    Call(CallerId, ActorId, u32),
    /// A caller's last release of its handle, with the number of calls that it submitted.
    Note(CallerId, ActorId, u32),
}

/// What a notice to a caller is.
#[derive(Clone, Copy, Debug, PartialEq, Eq)]
pub enum Post {
    /// The caller's call at this place of the actor's run list has run.
    Reply(CallerId, ActorId, u32),
    /// The actor is dead.
    Death(CallerId, ActorId),
}
