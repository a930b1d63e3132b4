//! Whether no call took the failure of one that gave a value, and that is taken for a reply.

ghost use Rattle.std.specs.Prelude.{◌≡◌, ℕ, false, slice_get, IsTrue, Some, List};
ghost use Rattle.act_rules.specs.History.{ActorSpec};
ghost use Rattle.act_walks.specs.declared.told.ToldRun.{ToldRun as Run};
ghost use Rattle.act_decisions.specs.Answered.{AreAnswers};
ghost use Rattle.act_decisions.specs.Placed.{MayHaveDied, TakesNoValue, TakesNone, NoValueIsLost};

use crate::answers::{Answered, may_be_value};
use crate::placed::call_at;
use act_types::{CallerId, Settled};
use act_walks::{Left, ToldCall, ToldEnd, ToldRun};

/// Whether it is left open if the call's reply is kept, or the death of its actor.
fn may_have_died(end: &ToldEnd, call: &ToldCall) -> bool
    ensures { result ≡ false → MayHaveDied end.now call.now → ⊥ }
{
    if !call.is_open || call.left != Left::Reply {
        return false;
    }
    match end.actors.get(call.actor.number() as usize) {
        None => false,
        Some(actor) => actor.is_dead,
    }
}

/// Whether the argument isn't the failure of such a call of the caller.
fn takes_no_value(end: &ToldEnd, all: &[Answered], c: CallerId, arg: &Settled) -> bool
    ensures { (casts : List ActorSpec) → AreAnswers casts end.now all.now → IsTrue result →
        TakesNoValue casts end.now c arg.now }
{
    let Settled::Bad(k) = arg else {
        return true;
    };
    let Some(call) = call_at(end, c, *k) else {
        return true;
    };
    if !may_have_died(end, call) {
        return true;
    }
    match call.place {
        None => true,
        Some((a, p)) => !may_be_value(all, a, p),
    }
}

/// Whether none of the run's arguments is.
fn takes_none(end: &ToldEnd, all: &[Answered], run: &ToldRun) -> bool
    ensures { (casts : List ActorSpec) → AreAnswers casts end.now all.now → IsTrue result →
        TakesNone casts end.now run.now }
{
    let args = run.args.as_slice();
    for i in 0..args.len() {
        if !takes_no_value(end, all, run.caller, &args[i]) {
            return false;
        }
    }
    true
}

/// Whether none of any of these runs is.
fn take_none(end: &ToldEnd, all: &[Answered], runs: &[ToldRun]) -> bool
    ensures { (casts : List ActorSpec) → AreAnswers casts end.now all.now → IsTrue result →
        (q : ℕ) (run : Run) → slice_get runs.now q ≡ Some run → TakesNone casts end.now run }
{
    for q in 0..runs.len() {
        if !takes_none(end, all, &runs[q]) {
            return false;
        }
    }
    true
}

/// Whether no call took the failure of one that gave a value, and that is taken for a reply.
pub(crate) fn no_value_is_lost(end: &ToldEnd, all: &[Answered]) -> bool
    ensures { (casts : List ActorSpec) → AreAnswers casts end.now all.now → IsTrue result →
        NoValueIsLost casts end.now }
{
    for b in 0..end.actors.len() {
        if !take_none(end, all, &end.actors[b].runs) {
            return false;
        }
    }
    true
}
