//! Why a walk can't go on.

use act_plan_plays::PlayFault;
use act_types::NoMemory;
use std::alloc::AllocError;

/// Why a walk can't go on.
#[derive(Clone, Copy, Debug, PartialEq, Eq)]
pub enum WalkFault {
    NoMemory,
    /// The walk has as many letters as a world holds.
    Stuck,
}

impl From<NoMemory> for WalkFault {
    fn from(_error: NoMemory) -> WalkFault {
        WalkFault::NoMemory
    }
}

impl From<AllocError> for WalkFault {
    fn from(_error: AllocError) -> WalkFault {
        WalkFault::NoMemory
    }
}

impl From<PlayFault> for WalkFault {
    fn from(fault: PlayFault) -> WalkFault {
        match fault {
            PlayFault::NoMemory => WalkFault::NoMemory,
            PlayFault::Stuck => WalkFault::Stuck,
        }
    }
}
