//! Whether a run is told that no events leave.

ghost use Rattle.std.specs.Prelude.{◌≡◌, ◌≢◌, ℕ, IsTrue, Some};
ghost use Rattle.act_walks.specs.Fits.{rans_in};
ghost use Rattle.act_decisions.specs.Misplaced.{WhyMisplaced, IsMisplaced};

use crate::placed::{call_at, stands_there};
use act_types::ActorId;
use act_walks::{ToldCall, ToldEnd, ToldRun};

/// Whether this is another place of a run list.
fn is_elsewhere(a: usize, p: usize, place: (ActorId, u32)) -> bool
    ensures { IsTrue result → ((place.0 ≡ a) × (place.1 ≡ p) → ⊥) }
{
    let (b, q) = place;
    b.number() as usize != a || q as usize != p
}

/// Whether the call ran elsewhere, too.
fn ran_elsewhere(end: &ToldEnd, a: usize, p: usize, run: &ToldRun, call: &ToldCall) -> bool
    ensures { IsTrue result → WhyMisplaced end.now a p run.now.caller run.now.future }
{
    let Some(place) = call.place else {
        return false;
    };
    if !is_elsewhere(a, p, place) {
        return false;
    }
    stands_there(
        end,
        run.caller.number() as usize,
        run.future.number() as usize,
        call,
    )
}

/// Whether no events leave this run.
fn is_misplaced(end: &ToldEnd, a: usize, p: usize, run: &ToldRun) -> bool
    ensures { IsTrue result → WhyMisplaced end.now a p run.now.caller run.now.future }
{
    let Some(call) = call_at(end, run.caller, run.future) else {
        return true;
    };
    if call.actor.number() as usize != a {
        return true;
    }
    ran_elsewhere(end, a, p, run, call)
}

/// Whether no events leave one of the actor's runs.
fn has_misplaced_at(end: &ToldEnd, a: usize, runs: &[ToldRun]) -> bool
    ensures { IsTrue result → runs.now ≡ rans_in end.now a → IsMisplaced end.now }
{
    for p in 0..runs.len() {
        if is_misplaced(end, a, p, &runs[p]) {
            return true;
        }
    }
    false
}

/// Whether no events leave one of the runs.
pub(crate) fn has_misplaced(end: &ToldEnd) -> bool
    ensures { IsTrue result → IsMisplaced end.now }
{
    for a in 0..end.actors.len() {
        if has_misplaced_at(end, a, &end.actors[a].runs) {
            return true;
        }
    }
    false
}
