//! Plays of plans in a world: whoever makes the choices, all else happens at once.
#![tactic(auto)]

mod choice;
mod choices;
mod choosing;
mod ending;
mod laws;
mod making;
mod moves;
mod plan_play;
mod played;
mod retiring;

pub use choice::{Choice, PlayFault};
pub use choices::may_run;
pub use laws::prepared_plans_hold;
pub use moves::is_dead;
pub use plan_play::PlanPlay;
pub use played::{do_event, try_event};
