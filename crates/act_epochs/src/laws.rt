//! What holds over all epochs, over the definitions alone: a call costs nothing.

ghost use Rattle.act_epochs.specs.OverEpochs.{EpochsAreConsistent, EpochsGoOn, KeptOverEpochs};

use act_drive::Code;
use act_kinds::Meaning;

/// Over all epochs each actor ran each caller's calls in order, none twice, and kept its state. Each
/// answer is that of the call's place among all runs of its actor, and what was killed stays dead.
#[tactic(none)]
pub fn epochs_are_consistent<C: Code>()
    ensures { EpochsAreConsistent C.tells }
{}

/// An epoch that opens with the casts that the others left goes on from them.
#[tactic(none)]
pub fn epochs_go_on<C: Code>()
    ensures { EpochsGoOn C.tells }
{}

/// What each step of a kind keeps holds over all epochs, as in one run.
#[tactic(none)]
pub fn kept_over_epochs<C: Code, M: Meaning>()
    ensures { KeptOverEpochs C.tells M.step M.written M.holds }
{}
