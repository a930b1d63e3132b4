//! Walks: a play in a world that does nothing but what is told, and is never stuck where some play
//! ends so.
#![tactic(auto)]

mod acting;
mod asking;
mod fault;
mod going;
mod hearing;
mod played;
mod resting;
mod seen;
mod serving;
mod told;
mod walks;

pub use fault::WalkFault;
pub use played::Walked;
pub use told::{Left, ToldActor, ToldCall, ToldCaller, ToldEnd, ToldRun};
pub use walks::walk;
