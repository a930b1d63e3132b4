//! Why the program ends before all is told.

ghost use Rattle.std.specs.Prelude.{◌≡◌};
ghost use Rattle.std.specs.Process.{exit_status};
ghost use Rattle.random_callers.specs.Status.{status_of};

use act_types::NoMemory;
use std::alloc::{AllocError, AllocFailed};
use std::io;
use std::process::ExitCode;
use thiserror::Error;

/// Why the program ends before all is told.
#[derive(Clone, Copy, Debug, PartialEq, Eq, Error)]
pub(crate) enum Stop {
    #[error("usage: random_callers SEED CALLERS ACTORS STEPS")]
    Usage,
    #[error("the crew cannot be run")]
    Unfit,
    #[error("out of memory")]
    Memory,
    #[error("a thread could not be started")]
    Thread,
    #[error("the standard output failed")]
    Io,
    #[error("the history of the run is not in order")]
    Order,
}

impl From<NoMemory> for Stop {
    fn from(_error: NoMemory) -> Stop {
        Stop::Memory
    }
}

impl From<AllocError> for Stop {
    fn from(_error: AllocError) -> Stop {
        Stop::Memory
    }
}

impl<T: Drop> From<AllocFailed<T>> for Stop {
    fn from(_error: AllocFailed<T>) -> Stop {
        Stop::Memory
    }
}

impl From<io::Error> for Stop {
    fn from(_error: io::Error) -> Stop {
        Stop::Io
    }
}

/// 1 for a crew that does not fit, 2 for the command line, 3 for memory or a thread, 4 for writing, 5 for
/// a history that is not in order.
pub(crate) fn exit_code(stop: &Stop) -> ExitCode
    ensures { exit_status result ≡ status_of stop.now }
{
    ExitCode::from(match stop {
        Stop::Unfit => 1,
        Stop::Usage => 2,
        Stop::Memory | Stop::Thread => 3,
        Stop::Io => 4,
        Stop::Order => 5,
    })
}
