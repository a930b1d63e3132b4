//! What the lines of a history tell, and that they can be read one way only, over the definitions alone.
#![tactic(auto)]

mod laws;

pub use laws::{
    agreed_lines_fit, alike_ends_are_told_alike, lines_are_read_one_way,
    lines_are_told_as_they_stand,
};
