//! One caller's futures, each with its actor and, once there is one, its answer.
#![tactic(auto)]

mod table;

pub use table::{Kept, ReplyTable, Row};
