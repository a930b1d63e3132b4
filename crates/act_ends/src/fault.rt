//! Why there is nothing to search, and why an end isn't told.

ghost use Rattle.std.specs.Prelude.{◌≡◌};

use act_rules::Wrong;
use act_types::NoMemory;
use std::alloc::{AllocError, AllocFailed};
use thiserror::Error;

/// Why a script has no plans to search.
#[derive(Clone, Copy, Debug, PartialEq, Eq, Error)]
pub enum PlansFault {
    /// What is wrong with the script, and in which line.
    #[error("line {0}: {1}")]
    Line(u32, Wrong),
    #[error("no memory")]
    Memory,
}

impl From<NoMemory> for PlansFault {
    fn from(_error: NoMemory) -> PlansFault {
        PlansFault::Memory
    }
}

impl From<AllocError> for PlansFault {
    fn from(_error: AllocError) -> PlansFault {
        PlansFault::Memory
    }
}

/// Why an end isn't told.
#[derive(Clone, Copy, Debug, PartialEq, Eq, Error)]
pub enum EndFault {
    /// No play was found that ends so, or the script and the lines are too long to be read again.
    #[error("no play is found of an end")]
    Unplayed,
    #[error("no memory")]
    Memory,
}

impl From<NoMemory> for EndFault {
    fn from(_error: NoMemory) -> EndFault {
        EndFault::Memory
    }
}

impl From<AllocError> for EndFault {
    fn from(_error: AllocError) -> EndFault {
        EndFault::Memory
    }
}

impl<T: Drop> From<AllocFailed<T>> for EndFault {
    fn from(_error: AllocFailed<T>) -> EndFault {
        EndFault::Memory
    }
}
