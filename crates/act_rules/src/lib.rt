//! The rules of the actor service: what each event of a world does, what a report says, and what a
//! script spells, as definitions (`specs/`), with the laws that follow from them. Every crate above
//! cites these words. The worked examples that they were checked on stand in act_rows.
//!
//! The plain types that the definitions speak of are declared here, too.
#![tactic(auto)]

mod event;
mod history;
mod laws;
mod memory;
mod outcome;
mod script;

pub use event::Event;
pub use history::{Letter, Post, RunItem, Submission};
pub use laws::{
    each_text_reads_back, each_world_is_consistent, kept_answers_stay, names_are_no_words,
    nothing_follows_a_terminate, nothing_runs_after_the_end, one_spelling,
    pending_stays_within_the_limit, planned_is_what_a_world_takes, retired_ran_all,
};
pub use outcome::{Arrival, Did, HandleRefusal, Outcome, SendRefusal, SubmitRefusal, WorldRefusal};
pub use script::{KindName, Line, Mode, Plan, Role, Step, Wrong};
