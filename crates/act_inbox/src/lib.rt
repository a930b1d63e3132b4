//! The queue of the calls that were sent to one actor: they come in any order, and the calls of
//! each caller go out in the order in which they were submitted.
#![tactic(auto)]

mod inbox;
mod numbered;

pub use act_rules::Arrival;
pub use inbox::Inbox;
