//! How the program ends.
ghost use Rattle.std.specs.Prelude.{◌≡◌, IsTrue, ◌↔◌};
ghost use Rattle.std.specs.Process.{exit_status};
ghost use Rattle.ray_commands.specs.Status.{console_status, check_status, status_of, IsTold};

use act_console::ConsoleFault;
use act_histories::CheckFault;
use act_record::RecordingFault;
use std::process::ExitCode;
use thiserror::Error;

/// Why the program ends without what it was asked for.
#[derive(Clone, Copy, Debug, PartialEq, Eq, Error)]
pub(crate) enum Stop {
    #[error("usage: ray_commands play|threads|record|check|check-all")]
    Usage,
    #[error("{0}")]
    Console(ConsoleFault),
    #[error("{0}")]
    Recording(RecordingFault),
    #[error("{0}")]
    Check(CheckFault),
}

/// 1 for a script fault, 3 for memory or a thread, 4 for reading or writing.
fn status_of_console(fault: ConsoleFault) -> u8
    ensures { result ≡ console_status fault }
{
    match fault {
        ConsoleFault::Script => 1,
        ConsoleFault::Memory | ConsoleFault::Thread => 3,
        ConsoleFault::Reading | ConsoleFault::Writing => 4,
    }
}

/// 1 for a mistake of the history, 3 for memory, 4 for reading or writing, 5 where no play ends so.
fn status_of_check(fault: CheckFault) -> u8
    ensures { result ≡ check_status fault }
{
    match fault {
        CheckFault::Mistake => 1,
        CheckFault::Memory => 3,
        CheckFault::Reading | CheckFault::Writing => 4,
        CheckFault::Refused => 5,
    }
}

impl Stop {
    /// 2 for the command line, 5 where no play was found; the others are those of the faults.
    fn status(self) -> u8
        ensures { result ≡ status_of self }
    {
        match self {
            Stop::Usage => 2,
            Stop::Console(fault) => status_of_console(fault),
            Stop::Recording(RecordingFault::Console(fault)) => status_of_console(fault),
            Stop::Recording(RecordingFault::Unplayed) => 5,
            Stop::Check(fault) => status_of_check(fault),
        }
    }

    /// Whether it is told on the standard error. A script fault, and what is wrong with a history,
    /// stands on the standard output.
    pub(crate) fn is_told(self) -> bool
        ensures { IsTrue result ↔ IsTold self }
    {
        !matches!(
            self,
            Stop::Console(ConsoleFault::Script)
                | Stop::Recording(RecordingFault::Console(ConsoleFault::Script))
                | Stop::Check(CheckFault::Mistake | CheckFault::Refused)
        )
    }
}

pub(crate) fn exit_code(stop: &Stop) -> ExitCode
    ensures { exit_status result ≡ status_of stop.now }
{
    ExitCode::from(stop.status())
}
