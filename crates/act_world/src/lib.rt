//! A world of callers and actors: events, what each of them tells, and what stands after them.
#![tactic(auto)]

pub mod laws;
mod network;
mod slot;
mod world;

pub use act_actor::{Cast, cast_fits};
pub use act_rules::{Did, Event, Outcome, WorldRefusal};
pub use slot::Stage;
pub use world::{World, is_memory};
