//! Callers that are code, each a page.
#![tactic(auto)]

mod buyer;
mod buyers;
mod clerk;
mod impatient;
mod laws;
mod retry;
mod run;
mod transfer;
mod worker;

pub use buyer::Buyer;
pub use buyers::run_buyers;
pub use clerk::Clerk;
pub use impatient::Impatient;
pub use laws::holds_what_was_put_in;
pub use retry::Retry;
pub use run::{run_clerks, run_transfers};
pub use transfer::Transfer;
pub use worker::Worker;
