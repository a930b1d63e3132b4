//! One caller: what it submitted, what it sent, and the answers that it keeps.
#![tactic(auto)]

mod laws;
mod owner;

pub use act_rules::{HandleRefusal, SendRefusal, SubmitRefusal};
pub use laws::{never_above_the_limit, one_packet_for_good, told_by_notices};
pub use owner::{Call, Collected, Owner};
