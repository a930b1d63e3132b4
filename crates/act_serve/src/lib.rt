//! An actor in a thread of its own: it takes letters and kills, runs calls, and gives notices.
#![tactic(auto)]

mod laws;
mod letter;
mod turn;

pub use laws::replies_are_due;
pub use turn::{Ended, ExecLines, ExecPasses, Finished, Gate, NoGate, serve, serve_by};
