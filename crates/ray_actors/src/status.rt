//! How the program ends.
ghost use Rattle.std.specs.Prelude.{◌≡◌, IsTrue, ◌↔◌, ◌<◌};
ghost use Rattle.std.specs.Process.{exit_status};
ghost use Rattle.ray_actors.specs.Status.{status_of};

use act_console::ConsoleFault;
use std::process::ExitCode;
use thiserror::Error;

/// Why the program ends without a report.
#[derive(Clone, Copy, Debug, PartialEq, Eq, Error)]
pub(crate) enum Stop {
    #[error("usage: ray_actors play|threads")]
    Usage,
    #[error("{0}")]
    Console(ConsoleFault),
}

impl From<ConsoleFault> for Stop {
    fn from(fault: ConsoleFault) -> Stop {
        Stop::Console(fault)
    }
}

impl Stop {
    /// 1 for a script fault, 2 for the command line, 3 for memory or a thread, 4 for reading or writing.
    fn status(self) -> u8
        ensures { result ≡ status_of self }
    {
        match self {
            Stop::Console(ConsoleFault::Script) => 1,
            Stop::Usage => 2,
            Stop::Console(ConsoleFault::Memory | ConsoleFault::Thread) => 3,
            Stop::Console(ConsoleFault::Reading | ConsoleFault::Writing) => 4,
        }
    }

    /// Whether it is told on the standard error. A script fault stands on the standard output.
    pub(crate) fn is_told(self) -> bool
        ensures { IsTrue result ↔ (1 < status_of self) }
    {
        self.status() > 1
    }
}

pub(crate) fn exit_code(stop: &Stop) -> ExitCode
    ensures { exit_status result ≡ status_of stop.now }
{
    ExitCode::from(stop.status())
}
