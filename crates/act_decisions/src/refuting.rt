//! Whether what was read says enough for a walk after it to decide.

ghost use Rattle.std.specs.Prelude.{IfOk, IsTrue, List};
ghost use Rattle.act_rules.specs.History.{ActorSpec};
ghost use Rattle.act_decisions.specs.Answered.{AreAnswers};
ghost use Rattle.act_decisions.specs.Decided.{Refutes};
ghost use Rattle.act_decisions.specs.Placed.{RunsArePlaced, AllDecided, NoValueIsLost};
ghost use Rattle.act_decisions.specs.Read.{IsLined, AreSayable};

use crate::agreed::agree;
use crate::answers::{Answered, all_answers};
use crate::fits_roles::all_fit_roles;
use crate::lost::no_value_is_lost;
use crate::misplaced::has_misplaced;
use crate::placed::{all_are_decided, runs_are_placed};
use crate::sayable::are_sayable;
use crate::within::is_within;
use act_rules::{Event, Role};
use act_types::NoMemory;
use act_walks::ToldEnd;
use std::alloc::Global;

/// Whether what was read has the callers of the roles, and agrees with the lines.
fn is_lined(alloc: Global, end: &ToldEnd, roles: &[Role], rest: &[u8]) -> Result<bool, NoMemory>
    ensures { IfOk result (λ is. IsTrue is → IsLined end.now roles.now rest.now) }
{
    if !is_within(end) || !all_fit_roles(end, roles) {
        return Ok(false);
    }
    let is = agree(alloc, end, rest)?;
    Ok(is)
}

/// Whether nothing has to be guessed of what was read, and a script can write the walk.
fn says_enough(end: &ToldEnd, all: &[Answered], walk: &[Event]) -> bool
    ensures placed { IsTrue result → RunsArePlaced end.now }
    ensures decided { (casts : List ActorSpec) → AreAnswers casts end.now all.now → IsTrue result →
        AllDecided casts end.now }
    ensures lost { (casts : List ActorSpec) → AreAnswers casts end.now all.now → IsTrue result →
        NoValueIsLost casts end.now }
    ensures sayable { IsTrue result → AreSayable walk.now }
{
    if !runs_are_placed(end) || !are_sayable(walk) {
        return false;
    }
    if !all_are_decided(end, all) {
        return false;
    }
    no_value_is_lost(end, all)
}

/// Whether a walk that doesn't end so shows that nothing does: a run is told that no events leave, or
/// nothing has to be guessed.
pub(crate) fn refutes(
    alloc: Global,
    end: &ToldEnd,
    roles: &[Role],
    rest: &[u8],
    walk: &[Event],
) -> Result<bool, NoMemory>
    ensures { IfOk result (λ is. IsTrue is → Refutes end.now roles.now rest.now walk.now) }
{
    if !is_lined(alloc, end, roles, rest)? {
        return Ok(false);
    }
    if has_misplaced(end) {
        return Ok(true);
    }
    let all = all_answers(alloc, roles, end)?;
    Ok(says_enough(end, &all, walk))
}
