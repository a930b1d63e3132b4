//! A run in threads, written down as a play: a list of events that the rules accept, and that ends
//! in what the threads left.
#![tactic(auto)]

mod causes;
mod circle;
mod compared;
mod merged;
mod progress;
mod rebuilt;
mod recorded;
mod run;

pub use circle::{a_circle_is_joined_and_no_play, a_circle_of_awaits_is_not_as_planned};
pub use compared::is_play_of;
pub use recorded::{Recorded, Source, run_recorded};
pub use run::{RecordFault, play_of};
