//! Who takes part in a run of threads, and what each caller does there.
#![tactic(auto)]

mod plan_checker;
mod rising;

pub use act_rules::Plan;
pub use plan_checker::{MAX_STEPS, bad_step, first_bad_setup, plans_fit};
pub use rising::{CallerSetup, Prepared, prepare};
