//! What is wrong with a line of a history.

use act_rules::Wrong;
use act_types::NoMemory;
use std::alloc::{AllocError, AllocFailed};
use std::fmt;

/// What is wrong with a line of a history.
#[derive(Clone, Copy)]
pub(crate) enum Wrongly {
    /// What is wrong with a line of the script.
    Script(Wrong),
    BadLine,
    NoRole,
    OutOfOrder,
    OtherActor,
    OtherKind,
    NotSubmitted,
    NoFuture,
    NoEnd,
    /// A walk after what was read decides nothing.
    Undecided,
    /// The play that was found is read as another one.
    OtherPlay,
}

impl Wrongly {
    /// What is said of it. What is wrong with a line of the script says that itself.
    fn text(&self) -> &'static str {
        match self {
            Wrongly::Script(_) => "",
            Wrongly::BadLine => "BadLine: no line of a history has this form",
            Wrongly::NoRole => "NoRole: no role names this caller or this actor",
            Wrongly::OutOfOrder => {
                "OutOfOrder: futures come first, by rising numbers, and then each actor with its run list"
            }
            Wrongly::OtherActor => "OtherActor: this call was submitted to another actor",
            Wrongly::OtherKind => "OtherKind: the actor's role has another kind",
            Wrongly::NotSubmitted => {
                "NotSubmitted: no line submits this future, and its caller has lines that submit"
            }
            Wrongly::NoFuture => "NoFuture: no line tells the future of this call",
            Wrongly::NoEnd => "NoEnd: an actor has a role, and no line tells its end",
            Wrongly::Undecided => "Undecided: whether a play ends so isn't known",
            Wrongly::OtherPlay => "OtherPlay: the play that was found isn't read as it was written",
        }
    }
}

impl fmt::Display for Wrongly {
    fn fmt<W: fmt::Write>(&self, f: &mut fmt::Formatter<W>) -> fmt::Result {
        match self {
            Wrongly::Script(wrong) => write!(f, "{wrong}"),
            _ => f.write_str(self.text()),
        }
    }
}

/// Why a history wasn't read.
#[derive(Clone, Copy)]
pub(crate) enum Mistake {
    /// The number of a line, from 1, and what is wrong with it. What no line has stands for line 0.
    Line(u32, Wrongly),
    NoMemory,
}

impl From<NoMemory> for Mistake {
    fn from(_error: NoMemory) -> Mistake {
        Mistake::NoMemory
    }
}

impl From<AllocError> for Mistake {
    fn from(_error: AllocError) -> Mistake {
        Mistake::NoMemory
    }
}

impl<T: Drop> From<AllocFailed<T>> for Mistake {
    fn from(_error: AllocFailed<T>) -> Mistake {
        Mistake::NoMemory
    }
}
