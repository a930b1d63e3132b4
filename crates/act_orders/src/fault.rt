//! Why a history isn't in order.

use crate::Happening;
use act_types::ListOf;

/// What shows that a history isn't in order. Runs and calls are told by their places.
#[derive(Debug, Drop)]
pub enum Fault {
    /// The run is that of a call to another actor.
    Strays(usize),
    /// The first run is that of a call which ran before, at the second.
    Again(usize, usize),
    /// The run came before this earlier call of its caller to the actor.
    Skips(usize, usize),
    /// The call is of a caller that may not call the actor.
    NoRole(usize),
    /// The call's answer is a death, and the actor isn't dead.
    Alive(usize),
    /// The actor retired, and didn't run the call.
    LeftOut(usize),
    /// The first call is answered, and the second, whose answer it takes, failed or died.
    Spoiled(usize, usize),
    /// The first happened, and the second, which must come before it, didn't.
    Lacks(Happening, Happening),
    /// A caller waited for the answer of this call after its last one, and it is open.
    NoAnswer(usize),
    /// Each of these must come after the next, and the last one is the first again.
    Circle(ListOf<Happening>),
}
