//! Refusals as errors: what `?` makes of want of memory, where a call that may be refused is made
//! beside calls that take memory.

ghost use Rattle.std.specs.Prelude.{◌≡◌};
ghost use Rattle.act_rules.specs.declared.outcome.SubmitRefusal.TheVariants as submit;
ghost use Rattle.act_rules.specs.declared.outcome.SendRefusal.TheVariants as sending;
ghost use Rattle.act_rules.specs.declared.outcome.WorldRefusal.TheVariants as world;

use crate::{HandleRefusal, SendRefusal, SubmitRefusal, WorldRefusal};
use act_types::NoMemory;
use std::alloc::{AllocError, AllocFailed};
use std::error::Error;

impl Error for HandleRefusal {}

impl Error for SubmitRefusal {}

impl Error for SendRefusal {}

impl Error for WorldRefusal {}

impl From<NoMemory> for SubmitRefusal {
    ghost from_gives = { λ _ refusal. refusal ≡ submit.NoMemory };

    fn from(_error: NoMemory) -> SubmitRefusal {
        SubmitRefusal::NoMemory
    }
}

impl From<AllocError> for SubmitRefusal {
    ghost from_gives = { λ _ refusal. refusal ≡ submit.NoMemory };

    fn from(error: AllocError) -> SubmitRefusal {
        SubmitRefusal::from(NoMemory::from(error))
    }
}

impl<T: Drop> From<AllocFailed<T>> for SubmitRefusal {
    ghost from_gives = { λ _ refusal. refusal ≡ submit.NoMemory };

    fn from(failed: AllocFailed<T>) -> SubmitRefusal {
        SubmitRefusal::from(NoMemory::from(failed))
    }
}

impl From<NoMemory> for SendRefusal {
    ghost from_gives = { λ _ refusal. refusal ≡ sending.NoMemory };

    fn from(_error: NoMemory) -> SendRefusal {
        SendRefusal::NoMemory
    }
}

impl From<AllocError> for SendRefusal {
    ghost from_gives = { λ _ refusal. refusal ≡ sending.NoMemory };

    fn from(error: AllocError) -> SendRefusal {
        SendRefusal::from(NoMemory::from(error))
    }
}

impl<T: Drop> From<AllocFailed<T>> for SendRefusal {
    ghost from_gives = { λ _ refusal. refusal ≡ sending.NoMemory };

    fn from(failed: AllocFailed<T>) -> SendRefusal {
        SendRefusal::from(NoMemory::from(failed))
    }
}

impl From<NoMemory> for WorldRefusal {
    ghost from_gives = { λ _ refusal. refusal ≡ world.NoMemory };

    fn from(_error: NoMemory) -> WorldRefusal {
        WorldRefusal::NoMemory
    }
}

impl From<AllocError> for WorldRefusal {
    ghost from_gives = { λ _ refusal. refusal ≡ world.NoMemory };

    fn from(error: AllocError) -> WorldRefusal {
        WorldRefusal::from(NoMemory::from(error))
    }
}

impl<T: Drop> From<AllocFailed<T>> for WorldRefusal {
    ghost from_gives = { λ _ refusal. refusal ≡ world.NoMemory };

    fn from(failed: AllocFailed<T>) -> WorldRefusal {
        WorldRefusal::from(NoMemory::from(failed))
    }
}
