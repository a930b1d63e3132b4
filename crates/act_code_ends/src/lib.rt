//! Ends of callers whose calls are decided by code: the code is run anew whenever more is known.
#![tactic(auto)]

mod certified;
mod choices;
mod ends;
mod fault;
mod opening;
mod play;
mod rehearsal;
mod rehearsed;
mod session;

pub use certified::Played;
pub use ends::{CodeEnds, explore_codes, first_bad};
pub use fault::CodeFault;
pub use opening::Codes;
