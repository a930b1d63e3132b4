//! Histories: what callers and actors left, read from lines and decided: a play that ends so, or the
//! place where none can go on.
#![tactic(auto)]

mod blocked;
mod check;
mod copied;
mod cut;
mod differs;
mod failed;
mod fault;
mod faults;
mod history;
mod line;
mod mistake;
mod printed;
mod progress;
mod reached;
mod reading;
mod reason;
mod refusing;
mod replies;
mod rules;
mod told_end;
mod values;

pub use act_console::Stock;
pub use check::check_history;
pub use fault::CheckFault;
pub use reason::Reasons;
