//! Decisions: whether any events end as a history tells.
#![tactic(auto)]

mod agreed;
mod answers;
mod compared;
mod deciding;
mod fits;
mod fits_roles;
mod laws;
mod lost;
mod misplaced;
mod parts;
mod placed;
mod refuting;
mod sayable;
mod within;

pub use deciding::{Decision, decide};
pub use laws::{plays_are_read_one_way, walks_decide};
pub use parts::{is_filled_in, split_line};
