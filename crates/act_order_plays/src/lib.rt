//! That a history is in order exactly where it is a play of the rules, over the definitions alone.
#![tactic(auto)]

mod laws;

pub use laws::{histories_are_plays, orders_are_plays, plays_are_in_order};
