//! Why a line or a script was not read.

ghost use Rattle.std.specs.Prelude.{◌≡◌};
ghost use Rattle.act_scripts.specs.declared.line.LineFault.TheVariants.{Memory};
ghost use Rattle.act_scripts.specs.declared.line.ScriptFault.TheVariants as fault;

use act_rules::Wrong;
use act_types::NoMemory;
use std::alloc::{AllocError, AllocFailed};
use std::error::Error;
use std::fmt;

/// Why a line was not read.
#[derive(Clone, Copy, Debug, PartialEq, Eq)]
pub enum LineFault {
    Wrong(Wrong),
    Memory,
}

/// The line has none of the forms.
pub const BAD_LINE: LineFault = LineFault::Wrong(Wrong::BadLine);

impl From<NoMemory> for LineFault {
    ghost from_gives = { λ _ fault. fault ≡ Memory };

    fn from(_error: NoMemory) -> LineFault {
        LineFault::Memory
    }
}

impl From<AllocError> for LineFault {
    ghost from_gives = { λ _ fault. fault ≡ Memory };

    fn from(_error: AllocError) -> LineFault {
        LineFault::Memory
    }
}

impl<T: Drop> From<AllocFailed<T>> for LineFault {
    ghost from_gives = { λ _ fault. fault ≡ Memory };

    fn from(_error: AllocFailed<T>) -> LineFault {
        LineFault::Memory
    }
}

/// Why a script was not read.
#[derive(Clone, Copy, Debug, PartialEq, Eq)]
pub enum ScriptFault {
    /// What is wrong, and in which line, counted from 1. What is wrong with the whole script stands for line 0.
    Line(u32, Wrong),
    NoMemory,
}

impl fmt::Display for ScriptFault {
    fn fmt<W: fmt::Write>(&self, f: &mut fmt::Formatter<W>) -> fmt::Result {
        match self {
            ScriptFault::Line(line, wrong) => write!(f, "line {line}: {wrong}"),
            ScriptFault::NoMemory => f.write_str("no memory"),
        }
    }
}

impl Error for ScriptFault {}

impl From<NoMemory> for ScriptFault {
    ghost from_gives = { λ _ result. result ≡ fault.NoMemory };

    fn from(_error: NoMemory) -> ScriptFault {
        ScriptFault::NoMemory
    }
}

impl From<AllocError> for ScriptFault {
    ghost from_gives = { λ _ result. result ≡ fault.NoMemory };

    fn from(error: AllocError) -> ScriptFault {
        ScriptFault::from(NoMemory::from(error))
    }
}

impl<T: Drop> From<AllocFailed<T>> for ScriptFault {
    ghost from_gives = { λ _ result. result ≡ fault.NoMemory };

    fn from(failed: AllocFailed<T>) -> ScriptFault {
        ScriptFault::from(NoMemory::from(failed))
    }
}
