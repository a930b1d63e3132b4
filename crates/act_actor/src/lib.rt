//! An actor that runs the calls of its inbox one after another and keeps a log of them.
#![tactic(auto)]

mod cast;
mod dead;
mod live;
mod past;
mod retired;
mod run_log;

pub use act_rules::{Arrival, RunItem};
pub use cast::{Cast, actors_of, cast_fits, limits_of};
pub use dead::Dead;
pub use live::Live;
pub use past::Past;
pub use retired::Retired;
pub use run_log::RunLog;
