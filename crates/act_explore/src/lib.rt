//! Every end of plans: a question to all of them, or all of them, each with a play that leads there.
#![tactic(auto)]

mod asking;
mod exploring;
mod fault;
mod key;
mod opening;
mod search;
mod setups;
mod visits;

pub use asking::{Check, always};
pub use exploring::{Ends, Found, explore};
pub use fault::ExploreFault;
pub use opening::{End, Opening, Plays};
pub use search::{Searched, Visit, Visited};
pub use visits::visit_ends;
