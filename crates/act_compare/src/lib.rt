//! What was found, compared: with what is told, or with what a run left.
#![tactic(auto)]

mod played;
mod same;
mod script;

pub use played::{are_accepted, play_in};
pub use same::{same_answer, same_args, same_log, same_method, same_owner, same_settled_args};
pub use script::{same_callers, same_event, same_events, same_roles};
