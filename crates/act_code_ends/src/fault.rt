//! Why codes are not explored to their end.

use act_types::{CallerId, NoMemory};
use std::alloc::{AllocError, AllocFailed};
use std::error::Error;
use std::fmt;

/// Why codes are not explored to their end. The first that comes is told.
#[derive(Clone, Copy, Debug, PartialEq, Eq)]
pub enum CodeFault {
    NoMemory,
    /// The code of this caller did something else than before, when more was known: it is no function of
    /// what it is told.
    Changed(CallerId),
    /// The code of this caller gave up, and not because it was stopped. Memory that it was refused by
    /// another than its session may be the reason.
    GaveUp(CallerId),
    /// A world doesn't take the events that were found, or the caller is left otherwise than its code left
    /// it. No contract says that this never comes.
    Unplayed,
}

impl From<NoMemory> for CodeFault {
    fn from(_error: NoMemory) -> CodeFault {
        CodeFault::NoMemory
    }
}

impl From<AllocError> for CodeFault {
    fn from(_error: AllocError) -> CodeFault {
        CodeFault::NoMemory
    }
}

impl<T: Drop> From<AllocFailed<T>> for CodeFault {
    fn from(_error: AllocFailed<T>) -> CodeFault {
        CodeFault::NoMemory
    }
}

impl fmt::Display for CodeFault {
    fn fmt<W: fmt::Write>(&self, f: &mut fmt::Formatter<W>) -> fmt::Result {
        match self {
            CodeFault::NoMemory => f.write_str("no memory"),
            CodeFault::Changed(caller) => write!(f, "the code of {caller} did something else"),
            CodeFault::GaveUp(caller) => write!(f, "the code of {caller} gave up"),
            CodeFault::Unplayed => f.write_str("a world refuses the events that were found"),
        }
    }
}

impl Error for CodeFault {}
