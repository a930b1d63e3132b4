//! How the program ends.

ghost use Rattle.std.specs.Prelude.{◌≡◌};
ghost use Rattle.std.specs.Process.{exit_status};
ghost use Rattle.ray_explore.specs.Status.{status_of};

use act_console::ConsoleFault;
use act_ends::{EndFault, PlansFault};
use act_types::NoMemory;
use std::alloc::{AllocError, AllocFailed};
use std::process::ExitCode;
use thiserror::Error;

/// Why the program ends without each end told.
#[derive(Clone, Copy, Debug, PartialEq, Eq, Error)]
pub(crate) enum Stop {
    /// The script has a fault, whose line was written.
    #[error("script fault")]
    Script,
    #[error("usage: ray_explore report|answers|ends [MOST]")]
    Usage,
    #[error("no memory")]
    Memory,
    #[error("read failed")]
    Reading,
    #[error("write failed")]
    Writing,
    /// As many states were looked at as the command line allows, and some are left.
    #[error("some states are left")]
    Cut,
    #[error("no play is found of an end")]
    Unplayed,
}

impl From<NoMemory> for Stop {
    fn from(_error: NoMemory) -> Stop {
        Stop::Memory
    }
}

impl From<AllocError> for Stop {
    fn from(_error: AllocError) -> Stop {
        Stop::Memory
    }
}

impl<T: Drop> From<AllocFailed<T>> for Stop {
    fn from(_error: AllocFailed<T>) -> Stop {
        Stop::Memory
    }
}

impl From<ConsoleFault> for Stop {
    fn from(error: ConsoleFault) -> Stop {
        match error {
            ConsoleFault::Script => Stop::Script,
            ConsoleFault::Reading => Stop::Reading,
            ConsoleFault::Writing => Stop::Writing,
            ConsoleFault::Memory | ConsoleFault::Thread => Stop::Memory,
        }
    }
}

impl From<EndFault> for Stop {
    fn from(error: EndFault) -> Stop {
        match error {
            EndFault::Unplayed => Stop::Unplayed,
            EndFault::Memory => Stop::Memory,
        }
    }
}

impl Stop {
    fn status(self) -> u8
        ensures { result ≡ status_of self }
    {
        match self {
            Stop::Script => 1,
            Stop::Usage => 2,
            Stop::Memory => 3,
            Stop::Reading | Stop::Writing => 4,
            Stop::Cut => 6,
            Stop::Unplayed => 7,
        }
    }

    /// Whether it is told on the standard error. The others stand on the standard output.
    pub(crate) fn is_told(self) -> bool {
        !matches!(self, Stop::Script | Stop::Cut)
    }
}

pub(crate) fn exit_code(stop: &Stop) -> ExitCode
    ensures { exit_status result ≡ status_of stop.now }
{
    ExitCode::from(stop.status())
}
