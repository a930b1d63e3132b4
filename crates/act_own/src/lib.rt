//! What the steps of a kind of one's own keep, in worlds and in threads.
#![tactic(auto)]

mod laws;

pub use laws::{kept_in_each_run, kept_in_each_world};
