//! What is wrong with a line of a history.

use act_types::NoMemory;
use std::alloc::{AllocError, AllocFailed};
use std::fmt;

/// What is wrong with a line.
#[derive(Clone, Copy, Debug, PartialEq, Eq)]
pub enum Wrongly {
    BadLine,
    NoCaller,
    NoRole,
    OutOfOrder,
    NotSubmitted,
    NoOutcome,
    NoEnd,
    TooLong,
}

impl fmt::Display for Wrongly {
    fn fmt<W: fmt::Write>(&self, f: &mut fmt::Formatter<W>) -> fmt::Result {
        match self {
            Wrongly::BadLine => f.write_str("BadLine: no line of a history has this form"),
            Wrongly::NoCaller => f.write_str(
                "NoCaller: a role names no caller, so nobody could call or kill this actor",
            ),
            Wrongly::NoRole => f.write_str("NoRole: no role names this actor"),
            Wrongly::OutOfOrder => f.write_str(
                "OutOfOrder: roles come first, then calls, then outcomes, and then each actor with its run list",
            ),
            Wrongly::NotSubmitted => f.write_str("NotSubmitted: no line submits this call"),
            Wrongly::NoOutcome => f.write_str("NoOutcome: no line tells what became of this call"),
            Wrongly::NoEnd => f.write_str("NoEnd: an actor has a role, and no line tells its end"),
            Wrongly::TooLong => f.write_str("TooLong: a history has at most 67108864 bytes"),
        }
    }
}

/// Why a history wasn't read.
#[derive(Clone, Copy, Debug, PartialEq, Eq)]
pub enum Mistake {
    /// The number of a line, from 1, and what is wrong with it. What no line has stands for line 0.
    Line(u32, Wrongly),
    NoMemory,
}

impl fmt::Display for Mistake {
    fn fmt<W: fmt::Write>(&self, f: &mut fmt::Formatter<W>) -> fmt::Result {
        match self {
            Mistake::Line(line, wrongly) => write!(f, "line {line}: {wrongly}"),
            Mistake::NoMemory => f.write_str("no memory"),
        }
    }
}

/// Why a line wasn't taken.
#[derive(Clone, Copy, Debug, PartialEq, Eq)]
pub(crate) enum Untaken {
    Wrong(Wrongly),
    /// At another line.
    At(u32, Wrongly),
    NoMemory,
}

impl From<Wrongly> for Untaken {
    fn from(wrongly: Wrongly) -> Untaken {
        Untaken::Wrong(wrongly)
    }
}

impl From<NoMemory> for Untaken {
    fn from(_error: NoMemory) -> Untaken {
        Untaken::NoMemory
    }
}

impl From<AllocError> for Untaken {
    fn from(_error: AllocError) -> Untaken {
        Untaken::NoMemory
    }
}

impl<T: Drop> From<AllocFailed<T>> for Untaken {
    fn from(_error: AllocFailed<T>) -> Untaken {
        Untaken::NoMemory
    }
}

impl From<AllocError> for Mistake {
    fn from(_error: AllocError) -> Mistake {
        Mistake::NoMemory
    }
}

impl<T: Drop> From<AllocFailed<T>> for Mistake {
    fn from(_error: AllocFailed<T>) -> Mistake {
        Mistake::NoMemory
    }
}
