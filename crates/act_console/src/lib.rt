//! Scripts run from bytes to bytes: played as one list of events, or in threads, each caller with a
//! plan of its own.
#![tactic(auto)]

mod console;
mod fault;
mod report;
mod streams;
mod summary;
mod tail;
mod threads;

pub use act_executor::{Gate, NoGate};
pub use act_scripts::{Items, Script, ScriptFault, read_script};
pub use console::{Stock, casts_of, play_script};
pub use fault::ConsoleFault;
pub use report::play_report;
pub use streams::{read_whole, refusal_of, write_whole};
pub use summary::joined_report;
pub use threads::{Sorted, StepAt, first_stranger, line_of, sort, threads_script};
