//! A history by order alone as a text, which `./check` reads.
#![tactic(auto)]

mod fault;
mod lines;
mod numbers;
mod text;
mod written;

pub use fault::WriteFault;
pub use text::history_text;
pub use written::write_history;
