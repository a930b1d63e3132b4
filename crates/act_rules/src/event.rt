//! The steps of a world.

use act_types::{ActorId, Arg, CallerId, FutureId, ListOf, Method};

/// One step of a world. Each is decided by the steps before it, and a refused one changes nothing.
#[derive(Debug, Drop)]
pub enum Event {
    /// The caller submits a call to the actor.
    Submit(CallerId, ActorId, Method, ListOf<Arg>),
    /// The caller copies its handle of the actor.
    Copy(CallerId, ActorId),
    /// The caller releases a copy of its handle.
    Release(CallerId, ActorId),
    /// The caller sends the call of this future. It may do so again.
    Send(CallerId, FutureId),
    /// The letter at this place of the mail is brought to its actor, once more.
    Deliver(u32),
    /// The actor runs the next call of the caller, if it has arrived.
    Run(ActorId, CallerId),
    /// The notice at this place of the replies is handed to its caller, once more.
    Collect(u32),
    /// The caller asks for the actor's kill.
    AskKill(CallerId, ActorId),
    /// The actor takes a kill that was asked, between two calls.
    TakeKill(ActorId),
    /// The dead actor tells its death to the caller.
    Tell(ActorId, CallerId),
    /// The actor ends, since every handle is released and every call has run.
    Retire(ActorId),
}
