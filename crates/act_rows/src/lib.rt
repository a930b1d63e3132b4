//! The worked examples of the rules, as theorems: scripts with their reports, event lists with what they
//! leave, and calls of each kind. All are computed by the definitions of act_rules inside the proof.
#![tactic(auto)]

mod rows;

pub use rows::{
    end_rows, further_lines, further_rows, pending_rows, worked_kinds, worked_rows, worked_scripts,
};
