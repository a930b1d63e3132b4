//! Why the service stops before the input ends.

use actors::NoMemory;
use std::alloc::{AllocError, AllocFailed};
use thiserror::Error;

/// Why a round wasn't read, or not answered.
#[derive(Clone, Copy, Debug, Error, PartialEq, Eq)]
pub(crate) enum Stop {
    #[error("no memory")]
    Memory,
    #[error("the branches don't fit")]
    Unfit,
    #[error("the input can't be read")]
    Reading,
    #[error("the answers can't be written")]
    Writing,
}

impl From<NoMemory> for Stop {
    fn from(_error: NoMemory) -> Stop {
        Stop::Memory
    }
}

impl From<AllocError> for Stop {
    fn from(_error: AllocError) -> Stop {
        Stop::Memory
    }
}

impl<T: Drop> From<AllocFailed<T>> for Stop {
    fn from(_error: AllocFailed<T>) -> Stop {
        Stop::Memory
    }
}
