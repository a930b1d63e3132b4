//! What the measured programs share: the work that they do, their command line and what they tell.
#![tactic(auto)]

mod command;
mod prepared;
mod served;
mod stop;
mod told;
mod work;

pub use command::{Order, read_order};
pub use prepared::Prepared;
pub use served::{are_served, is_served};
pub use stop::{Stop, exit_code};
pub use told::print_turn;
pub use work::{Reach, Style, Work, casts_of, one_more};
