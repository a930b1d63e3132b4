//! Why a history isn't written whole.

ghost use Rattle.std.specs.Prelude.{◌≡◌};
ghost use Rattle.act_written.specs.declared.fault.WriteFault.TheVariants.{Memory};

use act_types::NoMemory;
use thiserror::Error;

/// Why a history isn't written whole.
#[derive(Clone, Copy, Debug, PartialEq, Eq, Error)]
pub enum WriteFault {
    /// Nothing is written then.
    #[error("no memory")]
    Memory,
    #[error("write failed")]
    Writing,
}

impl From<NoMemory> for WriteFault {
    ghost from_gives = { λ _ fault. fault ≡ Memory };

    fn from(_error: NoMemory) -> WriteFault {
        WriteFault::Memory
    }
}
