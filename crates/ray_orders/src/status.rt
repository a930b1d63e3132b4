//! How the program ends.

ghost use Rattle.std.specs.Prelude.{◌≡◌, ◌↔◌, IsTrue};
ghost use Rattle.std.specs.Process.{exit_status};
ghost use Rattle.ray_orders.specs.Status.{status_of, IsTold};

use std::alloc::AllocError;
use std::process::ExitCode;
use thiserror::Error;

/// Why the program ends without an order.
#[derive(Clone, Copy, Debug, PartialEq, Eq, Error)]
pub(crate) enum Stop {
    #[error("usage: ray_orders [--all|--order]")]
    Usage,
    #[error("a line is none of a history")]
    Mistake,
    #[error("the history is not in order")]
    Refused,
    #[error("no memory")]
    NoMemory,
    #[error("read failed")]
    Reading,
    #[error("write failed")]
    Writing,
}

impl From<AllocError> for Stop {
    ghost use Rattle.std.specs.Prelude.{◌≡◌};
    ghost use Rattle.ray_orders.specs.declared.status.Stop.TheVariants as stop;

    ghost from_gives = { λ _ result. result ≡ stop.NoMemory };

    fn from(_error: AllocError) -> Stop {
        Stop::NoMemory
    }
}

impl Stop {
    fn status(self) -> u8
        ensures { result ≡ status_of self }
    {
        match self {
            Stop::Mistake => 1,
            Stop::Usage => 2,
            Stop::NoMemory => 3,
            Stop::Reading | Stop::Writing => 4,
            Stop::Refused => 5,
        }
    }

    /// Whether it is told on the standard error. What is wrong with a history stands on the standard
    /// output.
    pub(crate) fn is_told(self) -> bool
        ensures { IsTrue result ↔ IsTold self }
    {
        !matches!(self, Stop::Mistake | Stop::Refused)
    }
}

pub(crate) fn exit_code(stop: &Stop) -> ExitCode
    ensures { exit_status result ≡ status_of stop.now }
{
    ExitCode::from(stop.status())
}
