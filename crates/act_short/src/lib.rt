//! Short forms of what each client writes: arguments, callers, the cast of one actor, and an answer's text.
#![tactic(auto)]

mod answer;
mod lists;

pub use answer::{Shown, answer_text};
pub use lists::{args_of, callers_of, casts_of_one, list_of};
