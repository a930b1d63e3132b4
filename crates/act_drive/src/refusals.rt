//! Why a session does not do what its code asks.

use act_handles::HandleRefusal;
use std::error::Error;
use std::fmt;

/// Why a wait ended without an answer. The first of these that holds is told.
#[derive(Clone, Copy, Debug, PartialEq, Eq)]
pub enum WaitRefusal {
    /// The caller has no such future.
    NoFuture,
    /// A call that is ready could not be sent. The wait may be tried again.
    NoMemory,
}

impl fmt::Display for WaitRefusal {
    fn fmt<W: fmt::Write>(&self, f: &mut fmt::Formatter<W>) -> fmt::Result {
        f.write_str(match self {
            WaitRefusal::NoFuture => "NoFuture",
            WaitRefusal::NoMemory => "NoMemory",
        })
    }
}

impl Error for WaitRefusal {}

/// Why a kill was not asked. The first of these that holds is told.
#[derive(Clone, Copy, Debug, PartialEq, Eq)]
pub enum KillRefusal {
    Handle(HandleRefusal),
    /// `MAX_KILLS` of the actor were asked.
    TooManyKills,
    /// The actor's line was full, and meanwhile a call that is ready could not be sent. The kill may
    /// be asked again.
    NoMemory,
}

impl fmt::Display for KillRefusal {
    fn fmt<W: fmt::Write>(&self, f: &mut fmt::Formatter<W>) -> fmt::Result {
        f.write_str(match self {
            KillRefusal::Handle(refusal) => refusal.word(),
            KillRefusal::TooManyKills => "TooManyKills",
            KillRefusal::NoMemory => "NoMemory",
        })
    }
}

impl Error for KillRefusal {}
