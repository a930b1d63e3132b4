//! Laws over the definitions alone: a call costs nothing.

ghost use Rattle.act_own.specs.Kept.{KeptInEachWorld, KeptInEachRun};

use act_kinds::Meaning;

/// What each step keeps holds of each actor of the kind, whatever happened in its world.
#[tactic(none)]
pub fn kept_in_each_world<M: Meaning>()
    ensures { KeptInEachWorld M.step M.written M.holds }
{}

/// What each step keeps holds of each actor of the kind that a run in threads left.
#[tactic(none)]
pub fn kept_in_each_run<M: Meaning>()
    ensures { KeptInEachRun M.step M.written M.holds }
{}
