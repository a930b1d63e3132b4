//! The history that a run in threads leaves, by its order alone.
#![tactic(auto)]

mod actors;
mod calls;
mod laws;
mod runs;
mod told;

pub use laws::{joined_runs_are_in_turn, joined_runs_end_right};
pub use told::{names_of, told_of};
