//! Kinds of one's own: what a user of the library writes, each a page.
#![tactic(auto)]

mod bank;
mod gauge;
mod kept;
mod limiter;
mod queue;

pub use bank::{Bank, BankCall, BankMeaning, MAX_ACCOUNTS, money_is_kept};
pub use gauge::{Gauge, GaugeCall};
pub use kept::{bank_stage, run_banks, run_limiters};
pub use limiter::{Limiter, LimiterCall, never_above_its_rate};
pub use queue::{MAX_QUEUED, QueueCall, QueueMeaning, WorkQueue, first_in_first_out};
