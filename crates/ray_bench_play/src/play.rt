//! All calls, as events of a world.

ghost use Rattle.std.specs.Prelude.{◌≡◌, ◌*◌, ◌∷◌, [], OnOk};
ghost use Rattle.act_world.specs.IsReachedBy.{HasRoom, IsGrownBy};
ghost use Rattle.act_world.specs.View.{world_view};
ghost use Rattle.ray_bench_work.specs.Work.{one_more};
ghost use Rattle.ray_bench_play.specs.Plays.{StandsAfter, event_of, submission_of, way_of};
ghost use Rattle.ray_bench_play.specs.Plays.{all_legs, events_in, legs, submissions, ways};

use crate::calls::{Call, Leg, call_at};
use act_kinds::Actor;
use act_types::{Arg, ListOf};
use act_world::World;
use ray_bench_work::{Prepared, Stop, Style, Work};
use std::alloc::Global;

/// Submits a call.
fn submit<K: Actor>(world: &mut World<K>, call: &Call, args: ListOf<Arg>) -> Result<(), Stop>
    requires room { HasRoom 1 world.old.network }
    ensures after { OnOk result (StandsAfter (submission_of call.now args ∷ [])
        (world_view K.state world.old) (world_view K.state world.new)) }
    ensures grown { OnOk result (IsGrownBy 1 world.old.network world.new.network) }
{
    let did = world.apply_owned(call.submission(args))?;
    if did == call.submitted() {
        Ok(())
    } else {
        Err(Stop::Refused)
    }
}

/// Takes a call one leg further.
fn step<K: Actor>(world: &mut World<K>, call: &Call, leg: Leg) -> Result<(), Stop>
    requires room { HasRoom 1 world.old.network }
    ensures after { OnOk result (StandsAfter (event_of leg call.now ∷ [])
        (world_view K.state world.old) (world_view K.state world.new)) }
    ensures grown { OnOk result (IsGrownBy 1 world.old.network world.new.network) }
{
    let did = world.apply(&call.event(leg))?;
    if call.is_done(leg, &did) {
        Ok(())
    } else {
        Err(Stop::Refused)
    }
}

/// Takes a call all the way.
fn follow<K: Actor>(world: &mut World<K>, call: &Call, args: ListOf<Arg>) -> Result<(), Stop>
    requires room { HasRoom 5 world.old.network }
    requires args { args ≡ one_more }
    ensures after { OnOk result (StandsAfter (way_of call.now)
        (world_view K.state world.old) (world_view K.state world.new)) }
    ensures grown { OnOk result (IsGrownBy 5 world.old.network world.new.network) }
{
    submit(world, call, args)?;
    step(world, call, Leg::Send)?;
    step(world, call, Leg::Deliver)?;
    step(world, call, Leg::Run)?;
    step(world, call, Leg::Collect)?;
    Ok(())
}

/// Takes so many calls all the way, each before the next one.
fn follow_all<K: Actor>(
    alloc: Global,
    world: &mut World<K>,
    work: &Work,
    calls: u32,
    prepared: &mut Prepared,
) -> Result<(), Stop>
    requires room { HasRoom (5 * calls) world.old.network }
    ensures after { OnOk result (StandsAfter (ways work.now calls)
        (world_view K.state world.old) (world_view K.state world.new)) }
{
    for number in 0..calls {
        follow(world, &call_at(work, number), prepared.take(alloc)?)?;
    }
    Ok(())
}

/// Submits so many calls.
fn submit_all<K: Actor>(
    alloc: Global,
    world: &mut World<K>,
    work: &Work,
    calls: u32,
    prepared: &mut Prepared,
) -> Result<(), Stop>
    requires room { HasRoom calls world.old.network }
    ensures after { OnOk result (StandsAfter (submissions work.now calls)
        (world_view K.state world.old) (world_view K.state world.new)) }
    ensures grown { OnOk result (IsGrownBy calls world.old.network world.new.network) }
{
    for number in 0..calls {
        submit(world, &call_at(work, number), prepared.take(alloc)?)?;
    }
    Ok(())
}

/// Takes so many calls one leg further.
fn step_all<K: Actor>(world: &mut World<K>, work: &Work, calls: u32, leg: Leg) -> Result<(), Stop>
    requires room { HasRoom calls world.old.network }
    ensures after { OnOk result (StandsAfter (legs leg work.now calls)
        (world_view K.state world.old) (world_view K.state world.new)) }
    ensures grown { OnOk result (IsGrownBy calls world.old.network world.new.network) }
{
    for number in 0..calls {
        step(world, &call_at(work, number), leg)?;
    }
    Ok(())
}

/// Takes all calls one leg after another.
fn share_legs<K: Actor>(
    alloc: Global,
    world: &mut World<K>,
    work: &Work,
    calls: u32,
    prepared: &mut Prepared,
) -> Result<(), Stop>
    requires room { HasRoom (5 * calls) world.old.network }
    ensures after { OnOk result (StandsAfter (all_legs work.now calls)
        (world_view K.state world.old) (world_view K.state world.new)) }
{
    submit_all(alloc, world, work, calls, prepared)?;
    step_all(world, work, calls, Leg::Send)?;
    step_all(world, work, calls, Leg::Deliver)?;
    step_all(world, work, calls, Leg::Run)?;
    step_all(world, work, calls, Leg::Collect)?;
    Ok(())
}

/// Plays so many calls, in the style of the work.
pub(crate) fn play_all<K: Actor>(
    alloc: Global,
    world: &mut World<K>,
    work: &Work,
    calls: u32,
    prepared: &mut Prepared,
) -> Result<(), Stop>
    requires room { HasRoom (5 * calls) world.old.network }
    ensures after { OnOk result (StandsAfter (events_in work.now.style work.now calls)
        (world_view K.state world.old) (world_view K.state world.new)) }
{
    match work.style {
        Style::Wait => follow_all(alloc, world, work, calls, prepared),
        Style::Future => share_legs(alloc, world, work, calls, prepared),
    }
}
