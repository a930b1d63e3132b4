//! That a play which does only what is told is never stuck where some play ends as is told, over the
//! definitions alone.
#![tactic(auto)]

mod laws;

pub use laws::{
    deaths_may_be_replies, each_end_is_told, each_retires, each_walk_goes_on, each_walk_rests,
    kills_can_be_asked, no_walk_is_stuck, stuck_walks_decide, told_alike, untold_may_be_as_run,
};
