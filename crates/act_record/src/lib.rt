//! A run of a script for threads, recorded: from the script's bytes to the bytes of a script of
//! events, a play that ends as the threads did.
#![tactic(auto)]

mod copied;
mod fault;
mod output;
mod printed;
mod reading;
mod record;

pub use act_replay::Source;
pub use fault::RecordingFault;
pub use output::Written;
pub use record::record_script;
