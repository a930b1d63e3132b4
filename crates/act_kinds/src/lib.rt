//! The kinds of actor behind one trait: a counter, a table, an account and a list.
#![tactic(auto)]

mod account;
mod actor;
mod counter;
mod list;
mod own;
mod storable;
mod table;

pub use account::Account;
pub use actor::{Actor, Boxed};
pub use counter::Counter;
pub use list::ListKind;
pub use own::{Meaning, append_line, runs_by_its_steps};
pub use table::Table;
