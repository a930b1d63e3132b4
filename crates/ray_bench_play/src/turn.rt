//! One play, and how long it took.

ghost use Rattle.std.specs.Prelude.{◌≡◌, ◌*◌, IfOk, IfSome, map};
ghost use Rattle.std.specs.List.{list_all};
ghost use Rattle.act_rules.specs.Report.{one_to};
ghost use Rattle.act_actor.specs.Cast.{IsFitting};
ghost use Rattle.act_actor.specs.Casts.{actor_spec};
ghost use Rattle.act_world.specs.IsReachedBy.{IsReachedBy};
ghost use Rattle.act_world.specs.View.{world_view};
ghost use Rattle.ray_bench_play.specs.Plays.{bench_events, is_served_in};

use crate::play::play_all;
use act_actor::{Cast, cast_fits};
use act_kinds::Actor;
use act_types::CallerId;
use act_world::World;
use ray_bench_work::{Prepared, Stop, Work, casts_of, is_served};
use std::alloc::Global;
use std::rt::Clock;
use std::time::Instant;

/// The world after a play, and how many microseconds that took.
#[derive(Drop)]
struct Measured<K> {
    world: World<K>,
    micros: u64,
}

/// Opens a world and plays all calls in it, and measures the play alone.
fn play_measured<R: Clock, K: Actor>(
    rt: &R,
    alloc: Global,
    work: &Work,
    casts: Vec<Cast<K>>,
    calls: u32,
    prepared: &mut Prepared,
) -> Result<Measured<K>, Stop>
    requires fit { IsFitting casts.items }
    requires calls { calls ≡ work.now.callers * work.now.calls }
    ensures { IfOk result (λ measured.
        IsReachedBy (map (actor_spec K.state) casts.items) (bench_events work.now)
        (world_view K.state measured.world)) }
{
    let mut world = World::open(alloc, casts)?;
    if !world.has_room(5 * calls as usize) {
        return Err(Stop::BadPlan);
    }
    let begin = Instant::now(rt)?;
    play_all(alloc, &mut world, work, calls, prepared)?;
    let took = begin.elapsed(rt)?;
    let micros = u64::try_from(took.as_micros()).unwrap_or(u64::MAX);
    Ok(Measured { world, micros })
}

/// Whether a caller made so many calls, and each was answered.
fn is_caller_served<K: Actor>(world: &World<K>, caller: CallerId, calls: u32) -> bool
    ensures { result ≡ is_served_in world.now.network calls caller }
{
    match world.owner(caller) {
        Some(owner) => is_served(owner, calls),
        None => false,
    }
}

/// Whether each caller of the work made all its calls, and each was answered.
fn all_served<K: Actor>(world: &World<K>, work: &Work) -> bool
    ensures { result ≡ list_all (is_served_in world.now.network work.now.calls)
        (one_to work.now.callers) }
{
    let mut served = true;
    for before in 0..work.callers.number() {
        let caller = CallerId::new(before + 1).unwrap();
        served = served && is_caller_served(world, caller, work.calls);
    }
    served
}

/// How many calls the work has, where a play can count them.
fn count_of(work: &Work) -> Option<u32>
    ensures { IfSome result (λ calls. calls ≡ work.now.callers * work.now.calls) }
{
    u32::try_from(work.all_calls()).ok()
}

/// Plays the work once, and tells how many microseconds that took. The world is opened and the calls'
/// arguments are made before it, and what it left is looked at after.
pub(crate) fn take_turn<R: Clock>(rt: &R, alloc: Global, work: &Work) -> Result<u64, Stop> {
    let casts = casts_of(alloc, work)?;
    let Some(calls) = count_of(work) else {
        return Err(Stop::BadPlan);
    };
    if !cast_fits(casts.as_slice()) {
        return Err(Stop::BadPlan);
    }
    let mut prepared = Prepared::make(alloc, calls)?;
    let Measured { world, micros } = play_measured(rt, alloc, work, casts, calls, &mut prepared)?;
    if !all_served(&world, work) {
        return Err(Stop::Unanswered);
    }
    Ok(micros)
}
