//! A caller by code of its own.

ghost use Rattle.std.specs.Prelude.{OnOk};
ghost use Rattle.act_drive.specs.Sessions.{SessionView};

use crate::refusals::{KillRefusal, WaitRefusal};
use crate::session::Session;
use act_handles::HandleRefusal;
use act_rules::SubmitRefusal;
use act_types::NoMemory;
use std::alloc::{AllocError, AllocFailed};
use std::error::Error;
use std::fmt;

/// Why a caller's code ended before its end: memory was refused, a call was refused, or it chose to.
#[derive(Clone, Copy, Debug, PartialEq, Eq)]
pub struct GaveUp;

impl fmt::Display for GaveUp {
    fn fmt<W: fmt::Write>(&self, f: &mut fmt::Formatter<W>) -> fmt::Result {
        f.write_str("gave up")
    }
}

impl Error for GaveUp {}

impl From<NoMemory> for GaveUp {
    fn from(_error: NoMemory) -> GaveUp {
        GaveUp
    }
}

impl From<AllocError> for GaveUp {
    fn from(_error: AllocError) -> GaveUp {
        GaveUp
    }
}

impl<T: Drop> From<AllocFailed<T>> for GaveUp {
    fn from(_error: AllocFailed<T>) -> GaveUp {
        GaveUp
    }
}

impl From<SubmitRefusal> for GaveUp {
    fn from(_refusal: SubmitRefusal) -> GaveUp {
        GaveUp
    }
}

impl From<WaitRefusal> for GaveUp {
    fn from(_refusal: WaitRefusal) -> GaveUp {
        GaveUp
    }
}

impl From<HandleRefusal> for GaveUp {
    fn from(_refusal: HandleRefusal) -> GaveUp {
        GaveUp
    }
}

impl From<KillRefusal> for GaveUp {
    fn from(_refusal: KillRefusal) -> GaveUp {
        GaveUp
    }
}

/// A caller's own code.
pub trait Code: Drop {
    /// What the code concludes, of what it saw at first and at its end.
    ghost tells: { Self → SessionView → SessionView → Type 0 };

    /// About how many calls it will submit, for which room is made at once. It is a hint: code may
    /// submit more or fewer.
    fn calls(&self) -> usize {
        0
    }

    /// Calls the actors as it decides. It has to return: nobody ends it. Handles that it still holds
    /// at its end are let go for it.
    fn run<S: Session>(&mut self, session: &mut S) -> Result<(), GaveUp>
        ensures { OnOk result (tells self.old (S.seen session.old) (S.seen session.new)) };
}
