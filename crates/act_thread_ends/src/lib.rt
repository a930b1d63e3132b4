//! That each run in threads ends as one of the plays that a whole search saw, over the definitions
//! alone.
#![tactic(auto)]

mod laws;

pub use laws::{thread_ends_are_seen, what_fits_is_of_a_run};
