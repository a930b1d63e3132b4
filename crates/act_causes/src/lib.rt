//! That what threads did is a play, over the definitions alone: it stands in one order, in which each
//! cause comes first, and the events of such an order are a play.
#![tactic(auto)]

mod merge;
mod plays;

pub use merge::merges_keep_causes;
pub use plays::caused_deeds_are_plays;
