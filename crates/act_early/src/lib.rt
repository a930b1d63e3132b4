//! That a search misses no end which does all as early as it can but for the choices, over the
//! definitions alone.
#![tactic(auto)]

mod laws;

pub use laws::{
    choices_tell_all, early_is_enough, early_plays_have_all_ends, ends_are_told_alike,
    lists_are_plays, no_front_is_stuck, plays_are_accepted,
};
