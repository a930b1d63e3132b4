//! What is left to choose.

use act_types::{ActorId, CallerId, NoMemory};
use std::alloc::{AllocError, AllocFailed};

/// What the rules leave to choose.
#[derive(Clone, Copy, Debug, PartialEq, Eq)]
pub enum Choice {
    /// The actor runs the caller's next call, whose reply is collected at once.
    Run(ActorId, CallerId),
    /// The actor takes a kill that was asked.
    Take(ActorId),
}

/// Why a play can't go on.
#[derive(Clone, Copy, Debug, PartialEq, Eq)]
pub enum PlayFault {
    NoMemory,
    /// The choice can't be made, or the play has as many letters as a world holds.
    Stuck,
}

impl From<NoMemory> for PlayFault {
    fn from(_error: NoMemory) -> PlayFault {
        PlayFault::NoMemory
    }
}

impl From<AllocError> for PlayFault {
    fn from(_error: AllocError) -> PlayFault {
        PlayFault::NoMemory
    }
}

impl<T: Drop> From<AllocFailed<T>> for PlayFault {
    fn from(_error: AllocFailed<T>) -> PlayFault {
        PlayFault::NoMemory
    }
}
