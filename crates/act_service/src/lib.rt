//! A service that goes on: epoch after epoch in threads, until it comes to its end.
#![tactic(auto)]

mod epochs;
mod service;
mod shapes;

pub use epochs::{EpochFault, run_epochs};
pub use service::Service;
