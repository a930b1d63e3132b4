//! Scripts: the bytes of one, read into its roles and its events or steps.
#![tactic(auto)]

mod forms;
mod line;
mod script;
mod words;

pub use line::{BAD_LINE, LineFault, ScriptFault};
pub use script::{Items, Script, read_script};
pub use words::{actor_of, caller_of, kind_of, method_of, number_of, value_of};
