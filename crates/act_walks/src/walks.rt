//! The whole walk.

ghost use Rattle.std.specs.Prelude.{◌≡◌, ◌↔◌, ℕ, List, [], All, IfOk, OnOk, IsOk, IsTrue, Some, true};
ghost use Rattle.act_rules.specs.declared.script.Step.{Step as PlanStep};
ghost use Rattle.act_rules.specs.History.{ActorSpec, opening};
ghost use Rattle.act_rules.specs.Rules.{outcomes};
ghost use Rattle.act_world.specs.IsReachedBy.{IsReachedBy};
ghost use Rattle.act_world.specs.View.{world_view};
ghost use Rattle.act_walks.specs.Fits.{bound_of};
ghost use Rattle.act_walks.specs.Walking.{parts_of, done_in};
ghost use Rattle.act_walks.specs.Whole.{HasDone, HaveDone, GoesFar, DoesAllSteps, Decides};

use crate::asking::ask_all;
use crate::fault::WalkFault;
use crate::going::go;
use crate::played::Walked;
use crate::resting::retire_all;
use crate::told::{ToldCaller, ToldEnd};
use act_kinds::Actor;
use act_types::CALLER_NUMBERS;
use act_world::World;
use std::alloc::Global;

/// How many of its steps the caller of this number did.
fn steps_done(done: &[usize; CALLER_NUMBERS], number: usize) -> usize
    ensures { result ≡ done_in done.now number }
{
    done.get(number).copied().unwrap_or(0)
}

/// Whether the caller of this number did all the steps that it is bound to.
fn has_done(done: &[usize; CALLER_NUMBERS], number: usize, caller: &ToldCaller) -> bool
    ensures { IsTrue result ↔ HasDone done.now number caller.now }
{
    let Some(steps) = &caller.steps else {
        return true;
    };
    steps_done(done, number) >= steps.len()
}

/// Whether each caller did all the steps that it is bound to.
fn have_done(done: &[usize; CALLER_NUMBERS], end: &ToldEnd) -> bool
    ensures { IsTrue result ↔ HaveDone end.now done.now }
{
    for (number, caller) in end.callers.iter().enumerate() {
        if !has_done(done, number, caller) {
            return false;
        }
    }
    true
}

/// The walk goes as far as it can, and actors retire where each caller did all its steps.
fn go_far<K: Actor>(walk: &mut Walked<K>, end: &ToldEnd) -> Result<(), WalkFault>
    ensures { OnOk result
        (GoesFar end.now (parts_of K.state walk.old) (parts_of K.state walk.new) walk.new.is_done) }
{
    ask_all(walk, end)?;
    go(walk, end)?;
    walk.is_done = have_done(&walk.done, end);
    if !walk.is_done {
        return Ok(());
    }
    retire_all(&mut walk.world, &mut walk.events, end)?;
    Ok(())
}

/// Plays events in a world that was just opened, each of which is told of the end, as far as it can.
/// Where any events end as is told, these do.
pub fn walk<K: Actor>(alloc: Global, world: World<K>, end: &ToldEnd) -> Result<Walked<K>, WalkFault>
    ensures accepted { IfOk result (λ walked. (casts : List ActorSpec) →
        IsReachedBy casts [] (world_view K.state world) → All IsOk (outcomes (opening casts) walked.events.items)) }
    ensures reached { IfOk result (λ walked. (casts : List ActorSpec) →
        IsReachedBy casts [] (world_view K.state world) →
        IsReachedBy casts walked.events.items (world_view K.state walked.world)) }
    ensures does { IfOk result (λ walked. walked.is_done ≡ true → (casts : List ActorSpec) →
        IsReachedBy casts [] (world_view K.state world) → (c : ℕ) (steps : List PlanStep) →
        bound_of end.now c ≡ Some steps → DoesAllSteps casts c steps walked.events.items) }
    ensures decides { IfOk result (λ walked. (casts : List ActorSpec) →
        IsReachedBy casts [] (world_view K.state world) → Decides end.now casts walked.events.items walked.is_done) }
{
    let mut walk = Walked {
        world,
        events: Vec::new(alloc),
        done: [0; CALLER_NUMBERS],
        is_done: false,
    };
    go_far(&mut walk, end)?;
    Ok(walk)
}
