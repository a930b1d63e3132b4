//! What actors do: the runs that are told, and then the kill.

ghost use Rattle.std.specs.Prelude.{◌≡◌, IfOk, OnOk, slice_get, List, length};
ghost use Rattle.act_rules.specs.declared.event.Event.{Event as Happening};
ghost use Rattle.act_rules.specs.History.{ActorSpec, History, runs_of};
ghost use Rattle.act_world.specs.View.{world_view};
ghost use Rattle.act_plan_plays.specs.Parts.{IsBehind};
ghost use Rattle.act_walks.specs.Fits.{left_of, runs_in};
ghost use Rattle.act_walks.specs.Walking.{parts_of, Moves, RunsNext, NoRuns, NoKill, NoServing, NoServings};

use crate::fault::WalkFault;
use crate::played::{Walked, must_do, try_do, try_post};
use crate::seen::count_runs;
use crate::told::{Left, ToldEnd};
use act_kinds::Actor;
use act_plan_plays::may_run;
use act_rules::{Did, Event};
use act_types::{ActorId, CallerId, FutureId, MAX_ACTORS};
use act_world::World;

/// What is told of the answer to a call.
fn left_of(end: &ToldEnd, c: CallerId, k: FutureId) -> Left
    ensures { result ≡ left_of end.now c k }
{
    let Some(caller) = end.callers.get(c.number() as usize) else {
        return Left::Open;
    };
    match caller.calls.get(k.number() as usize) {
        None => Left::Open,
        Some(call) => call.left,
    }
}

/// The call that the actor is told to run next.
fn next_run<K: Actor>(world: &World<K>, end: &ToldEnd, a: ActorId) -> Option<(CallerId, FutureId)>
    ensures { (casts : List ActorSpec) (h : History) (before : List Happening) →
        IsBehind casts h (world_view K.state world.now) before →
        result ≡ slice_get (runs_in end.now a) (length (runs_of a h)) }
{
    let actor = end.actors.get(a.number() as usize)?;
    let next = actor.runs.get(count_runs(world, a))?;
    Some((next.caller, next.future))
}

/// The actor runs the call that has come, and its reply is collected where it is told.
fn run<K: Actor>(
    walk: &mut Walked<K>,
    end: &ToldEnd,
    a: ActorId,
    c: CallerId,
    k: FutureId,
) -> Result<(), WalkFault>
    ensures { OnOk result
        (RunsNext end.now a c k (parts_of K.state walk.old) (parts_of K.state walk.new)) }
{
    let Did::Ran(_, j) = must_do(walk, Event::Run(a, c))? else {
        return Err(WalkFault::Stuck);
    };
    if let Left::Reply = left_of(end, c, k) {
        let _told = must_do(walk, Event::Collect(j))?;
    }
    Ok(())
}

/// The call that the actor is told to run next runs where it has come, and else it is sent. Where it
/// doesn't come then, no events end as is told.
fn run_next<K: Actor>(walk: &mut Walked<K>, end: &ToldEnd, a: ActorId) -> Result<bool, WalkFault>
    ensures { IfOk result
        (Moves end.now (NoRuns a) (parts_of K.state walk.old) (parts_of K.state walk.new)) }
{
    let Some(next) = next_run(&walk.world, end, a) else {
        return Ok(false);
    };
    if may_run(&walk.world, a, next.0) {
        run(walk, end, a, next.0, next.1)?;
        return Ok(true);
    }
    if !try_post(walk, Event::Send(next.0, next.1))? {
        return Ok(false);
    }
    Ok(may_run(&walk.world, a, next.0))
}

/// The actor takes its kill, if it is told dead and ran all that it is told to run.
fn take_kill<K: Actor>(walk: &mut Walked<K>, end: &ToldEnd, a: ActorId) -> Result<bool, WalkFault>
    ensures { IfOk result
        (Moves end.now (NoKill a) (parts_of K.state walk.old) (parts_of K.state walk.new)) }
{
    let Some(actor) = end.actors.get(a.number() as usize) else {
        return Ok(false);
    };
    if !actor.is_dead {
        return Ok(false);
    }
    if count_runs(&walk.world, a) != actor.runs.len() {
        return Ok(false);
    }
    let moved = try_do(walk, Event::TakeKill(a))?;
    Ok(moved)
}

/// The actor runs its next call, or takes its kill.
fn serve<K: Actor>(walk: &mut Walked<K>, end: &ToldEnd, a: ActorId) -> Result<bool, WalkFault>
    ensures { IfOk result
        (Moves end.now (NoServing a) (parts_of K.state walk.old) (parts_of K.state walk.new)) }
{
    if run_next(walk, end, a)? {
        return Ok(true);
    }
    let moved = take_kill(walk, end, a)?;
    Ok(moved)
}

/// The actor goes on as far as it can.
fn serve_far<K: Actor>(walk: &mut Walked<K>, end: &ToldEnd, a: ActorId) -> Result<bool, WalkFault>
    ensures { IfOk result
        (Moves end.now (NoServing a) (parts_of K.state walk.old) (parts_of K.state walk.new)) }
{
    let mut moved = false;
    for _ in 0..u32::MAX {
        if !serve(walk, end, a)? {
            return Ok(moved);
        }
        moved = true;
    }
    Err(WalkFault::Stuck)
}

/// Each actor goes on as far as it can.
pub(crate) fn serve_all<K: Actor>(walk: &mut Walked<K>, end: &ToldEnd) -> Result<bool, WalkFault>
    ensures { IfOk result
        (Moves end.now (NoServings MAX_ACTORS) (parts_of K.state walk.old) (parts_of K.state walk.new)) }
{
    let mut moved = false;
    for before in 0..MAX_ACTORS {
        let a = ActorId::new(before + 1).unwrap();
        moved |= serve_far(walk, end, a)?;
    }
    Ok(moved)
}
