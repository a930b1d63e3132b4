//! Why the program ends before its last turn.

ghost use Rattle.std.specs.Prelude.{◌≡◌};
ghost use Rattle.std.specs.Process.{exit_status};
ghost use Rattle.ray_bench_work.specs.Status.{status_of};

use act_executor::RunFault;
use act_rules::WorldRefusal;
use act_types::NoMemory;
use std::io;
use std::process::ExitCode;
use thiserror::Error;

/// Why the program ends before its last turn.
#[derive(Clone, Copy, Debug, PartialEq, Eq, Error)]
pub enum Stop {
    #[error("usage: ray_bench, ray_bench_code or ray_bench_play, CALLERS ACTORS CALLS wait|future own|both TURNS")]
    Usage,
    #[error("a run left a call without an answer")]
    Unanswered,
    #[error("an event was refused, or did not do what it was to do")]
    Refused,
    #[error("the plans cannot be run")]
    BadPlan,
    #[error("out of memory")]
    Memory,
    #[error("a thread could not be started")]
    Thread,
    #[error("the clock or the standard output failed")]
    Io,
}

impl From<NoMemory> for Stop {
    fn from(_error: NoMemory) -> Stop {
        Stop::Memory
    }
}

impl From<io::Error> for Stop {
    fn from(_error: io::Error) -> Stop {
        Stop::Io
    }
}

impl From<RunFault> for Stop {
    fn from(fault: RunFault) -> Stop {
        match fault {
            RunFault::NoThread => Stop::Thread,
            RunFault::NoMemory => Stop::Memory,
            RunFault::TooMany | RunFault::BadPlan(..) => Stop::BadPlan,
        }
    }
}

impl From<WorldRefusal> for Stop {
    fn from(refusal: WorldRefusal) -> Stop {
        match refusal {
            WorldRefusal::NoMemory => Stop::Memory,
            _ => Stop::Refused,
        }
    }
}

/// 1 for a run that went wrong, 2 for the command line, 3 for memory or a thread, 4 for the clock or writing.
pub fn exit_code(stop: &Stop) -> ExitCode
    ensures { exit_status result ≡ status_of stop.now }
{
    ExitCode::from(match stop {
        Stop::Unanswered | Stop::Refused | Stop::BadPlan => 1,
        Stop::Usage => 2,
        Stop::Memory | Stop::Thread => 3,
        Stop::Io => 4,
    })
}
