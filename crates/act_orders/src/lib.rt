//! Histories judged by their order alone: an order of all that happened, or why there is none.
#![tactic(auto)]

mod causes;
mod draft;
mod ends;
mod fault;
mod history;
mod laws;
mod mistake;
mod reader;
mod reasons;
mod runs;
mod search;
mod told;
mod verdict;
mod whole;
mod words;

pub use fault::Fault;
pub use history::{History, Lines, MAX_BYTES, read_history};
pub use laws::faults_hold;
pub use mistake::{Mistake, Wrongly};
pub use reasons::Teller;
pub use told::{Actor, Call, End, Happening, Outcome, Run, Told};
pub use verdict::{Refused, judge};
pub use whole::is_whole;
