//! Epochs: runs in threads that follow one another, each with the kinds that the one before left.
//! Definitions and laws alone; nothing runs.
#![tactic(auto)]

mod laws;

pub use laws::{epochs_are_consistent, epochs_go_on, kept_over_epochs};
