//! Why an exploration has no answer.

use act_types::{CallerId, NoMemory};
use std::alloc::{AllocError, AllocFailed};
use std::error::Error;
use std::fmt;

/// Why an exploration has no answer.
#[derive(Clone, Copy, Debug, PartialEq, Eq)]
pub enum ExploreFault {
    /// A caller has two plans, or no cast names it, or its plan is too long.
    Unfit,
    /// The caller's step at this place, from 0, would be refused. It is the first such step.
    BadPlan(CallerId, u32),
    /// There are more states than were to be looked at, or a play is longer than a world holds.
    Cut,
    NoMemory,
}

impl From<NoMemory> for ExploreFault {
    ghost use Rattle.std.specs.Prelude.{◌≡◌};
    ghost use Rattle.act_explore.specs.declared.fault.ExploreFault.TheVariants as fault;

    ghost from_gives = { λ _ result. result ≡ fault.NoMemory };

    fn from(_error: NoMemory) -> ExploreFault {
        ExploreFault::NoMemory
    }
}

impl From<AllocError> for ExploreFault {
    ghost use Rattle.std.specs.Prelude.{◌≡◌};
    ghost use Rattle.act_explore.specs.declared.fault.ExploreFault.TheVariants as fault;

    ghost from_gives = { λ _ result. result ≡ fault.NoMemory };

    fn from(error: AllocError) -> ExploreFault {
        ExploreFault::from(NoMemory::from(error))
    }
}

impl<T: Drop> From<AllocFailed<T>> for ExploreFault {
    ghost use Rattle.std.specs.Prelude.{◌≡◌};
    ghost use Rattle.act_explore.specs.declared.fault.ExploreFault.TheVariants as fault;

    ghost from_gives = { λ _ result. result ≡ fault.NoMemory };

    fn from(failed: AllocFailed<T>) -> ExploreFault {
        ExploreFault::from(NoMemory::from(failed))
    }
}

impl fmt::Display for ExploreFault {
    fn fmt<W: fmt::Write>(&self, f: &mut fmt::Formatter<W>) -> fmt::Result {
        match self {
            ExploreFault::Unfit => f.write_str("the plans don't suit the casts"),
            ExploreFault::BadPlan(caller, place) => write!(
                f,
                "the step of {caller} at place {place} would be refused"
            ),
            ExploreFault::Cut => f.write_str("too many states"),
            ExploreFault::NoMemory => f.write_str("no memory"),
        }
    }
}

impl Error for ExploreFault {}
