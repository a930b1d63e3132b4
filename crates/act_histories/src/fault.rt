//! Why no play was written of a history.

ghost use Rattle.std.specs.Prelude.{◌≡◌};
ghost use Rattle.act_histories.specs.declared.fault.CheckFault.TheVariants.{Memory};

use act_types::NoMemory;
use std::alloc::{AllocError, AllocFailed};
use thiserror::Error;

/// Why no play was written of a history.
#[derive(Clone, Copy, Debug, PartialEq, Eq, Error)]
pub enum CheckFault {
    /// A line isn't one of a history. The line, and what is wrong with it, was written.
    #[error("no history")]
    Mistake,
    /// No play ends as the history does. Where, and why, was written.
    #[error("no play ends so")]
    Refused,
    #[error("no memory")]
    Memory,
    #[error("read failed")]
    Reading,
    #[error("write failed")]
    Writing,
}

impl From<NoMemory> for CheckFault {
    ghost from_gives = { λ _ fault. fault ≡ Memory };

    fn from(_error: NoMemory) -> CheckFault {
        CheckFault::Memory
    }
}

impl From<AllocError> for CheckFault {
    ghost from_gives = { λ _ fault. fault ≡ Memory };

    fn from(_error: AllocError) -> CheckFault {
        CheckFault::Memory
    }
}

impl<T: Drop> From<AllocFailed<T>> for CheckFault {
    ghost from_gives = { λ _ fault. fault ≡ Memory };

    fn from(_error: AllocFailed<T>) -> CheckFault {
        CheckFault::Memory
    }
}
