//! Small callers of the service, each with a contract of its own.
#![tactic(auto)]

mod front;
mod one_call;
mod patient;
mod peaceful;
mod played;

pub use front::{ran_of, world_after};
pub use one_call::{Heard, ask_once};
pub use patient::play_patiently;
pub use peaceful::{Kinds, PeaceFault, are_peaceful, run_in_peace, serve_each_kind};
pub use played::{PartFault, play_part};
