//! Why a run of a script was not recorded.

ghost use Rattle.std.specs.Prelude.{◌≡◌};
ghost use Rattle.act_console.specs.declared.fault.ConsoleFault.TheVariants as faults;
ghost use Rattle.act_record.specs.declared.fault.RecordingFault.TheVariants.{Console};

use act_console::ConsoleFault;
use act_types::NoMemory;
use std::alloc::{AllocError, AllocFailed};
use thiserror::Error;

/// Why a run of a script was not recorded.
#[derive(Clone, Copy, Debug, PartialEq, Eq, Error)]
pub enum RecordingFault {
    /// What also ends a run that is not recorded.
    #[error("{0}")]
    Console(ConsoleFault),
    /// The threads ended, and no play was found that ends as they did. Nothing was written. No
    /// contract says that this never comes.
    #[error("no play found")]
    Unplayed,
}

impl From<ConsoleFault> for RecordingFault {
    ghost from_gives = { λ fault result. result ≡ Console fault };

    fn from(fault: ConsoleFault) -> RecordingFault {
        RecordingFault::Console(fault)
    }
}

impl From<NoMemory> for RecordingFault {
    ghost from_gives = { λ _ result. result ≡ Console faults.Memory };

    fn from(_error: NoMemory) -> RecordingFault {
        RecordingFault::Console(ConsoleFault::Memory)
    }
}

impl From<AllocError> for RecordingFault {
    ghost from_gives = { λ _ result. result ≡ Console faults.Memory };

    fn from(_error: AllocError) -> RecordingFault {
        RecordingFault::Console(ConsoleFault::Memory)
    }
}

impl<T: Drop> From<AllocFailed<T>> for RecordingFault {
    ghost from_gives = { λ _ result. result ≡ Console faults.Memory };

    fn from(_error: AllocFailed<T>) -> RecordingFault {
        RecordingFault::Console(ConsoleFault::Memory)
    }
}
