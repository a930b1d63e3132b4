//! Which call of a caller may be sent next: each call waits for the answers that its arguments
//! name.
#![tactic(auto)]

mod least;
mod resolver;

pub use resolver::{Futures, Resolver};
