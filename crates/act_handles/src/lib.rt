//! One caller's handles: how many copies of each it holds, and how many numbers it gave to its calls.
//! Also which futures the arguments of these calls may name.
#![tactic(auto)]

mod handles;

pub use act_rules::HandleRefusal;
pub use handles::{Handle, Handles, are_earlier};
