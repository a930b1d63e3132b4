//! What is left to choose, where all else happens as early as it can.

use act_types::{ActorId, CallerId};

/// A choice that the rules leave open.
#[derive(Clone, Copy, Debug, PartialEq, Eq)]
pub(crate) enum Choice {
    /// The actor runs the caller's next call, whose reply is collected at once.
    Run(ActorId, CallerId),
    /// The actor takes a kill that was asked.
    Take(ActorId),
}
