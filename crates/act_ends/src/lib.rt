//! Every end of plans: what a script for threads can leave, each end with a play that leads there.
#![tactic(auto)]

mod choice;
mod ends;
mod fault;
mod key;
mod kind;
mod lines;
mod planned;
mod plans;
mod roles;
mod search;
mod shown;
mod state;

pub use act_console::Stock;
pub use ends::{End, Ends};
pub use fault::{EndFault, PlansFault};
pub use kind::Kind;
pub use lines::lines_at_rest;
pub use planned::{Planned, read_closed, read_planned};
pub use roles::Roles;
pub use search::{Looked, Search, Searched};
pub use shown::View;
