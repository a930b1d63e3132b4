//! What an actor has run of a caller's calls, read off a world after any events.

ghost use Rattle.std.specs.Prelude.{◌≡◌, ℕ, List, map, OnOk, IfOk, ◌++◌, ◌∷◌, []};
ghost use Rattle.actors.specs.Rules.{ActorSpec, IsPrefix};
ghost use Rattle.actors.specs.Event.{Event as Happening};
ghost use Rattle.actors.specs.Actors.{IsFitting, actor_spec};
ghost use Rattle.actors.specs.Worlds.{slot_log, IsReachedBy, stage_view, world_view};
ghost use Rattle.example_uses.specs.Fronts.{ran_in, submitted_in};

use actors::{
    Actor, ActorId, CallerId, Cast, Event, FutureId, NoMemory, RunItem, Stage, World, is_memory,
};
use std::alloc::Global;

/// Does one event where there is room for it. A refused event is one that happened, too.
fn step<K: Actor>(world: &mut World<K>, event: &Event) -> Result<(), NoMemory>
    ensures { OnOk result ((casts : List ActorSpec) (before : List Happening) →
        IsReachedBy casts before (world_view K.state world.old) →
        IsReachedBy casts (before ++ event.now ∷ []) (world_view K.state world.new)) }
{
    if !world.has_room(1) {
        return Err(NoMemory);
    }
    let told = world.apply(event);
    if is_memory(&told) {
        return Err(NoMemory);
    }
    Ok(())
}

/// Opens a world and does these events in it.
pub fn world_after<K: Actor>(
    alloc: Global,
    casts: Vec<Cast<K>>,
    events: &[Event],
) -> Result<World<K>, NoMemory>
    requires fit { IsFitting casts.items }
    ensures { IfOk result (λ world.
        IsReachedBy (map (actor_spec K.state) casts.items) events.now (world_view K.state world)) }
{
    let mut world = World::open(alloc, casts)?;
    for event in events {
        step(&mut world, event)?;
    }
    Ok(world)
}

/// What an actor ran, whatever state it is in.
fn log_of<'a, K: Actor>(stage: Stage<'a, K>) -> &'a [RunItem]
    ensures { result.now ≡ slot_log (stage_view K.state stage.entry) }
{
    match stage {
        Stage::Live(live) => live.log(),
        Stage::Dead(dead) => dead.log(),
        Stage::Retired(retired) => retired.log(),
    }
}

/// The caller's calls that the actor ran, in the order in which it ran them.
fn calls_run<K: Actor>(
    alloc: Global,
    world: &World<K>,
    a: ActorId,
    c: CallerId,
) -> Result<Vec<(u32, FutureId)>, NoMemory>
    ensures { IfOk result (λ ran. ran.items ≡ ran_in (world_view K.state world.now) a c) }
{
    let Some(stage) = world.stage(a) else {
        return Ok(Vec::new(alloc));
    };
    let ran = log_of(stage)
        .iter()
        .filter(|item| item.caller == c)
        .map(|item| (item.number, item.future))
        .collect(alloc)?;
    Ok(ran)
}

/// The caller's calls that the actor ran, in the order in which it ran them, each by its number
/// among the caller's calls to this actor and by its future.
pub fn ran_of<K: Actor>(
    alloc: Global,
    world: &World<K>,
    a: ActorId,
    c: CallerId,
) -> Result<Vec<(u32, FutureId)>, NoMemory>
    ensures ran { IfOk result (λ ran. ran.items ≡ ran_in (world_view K.state world.now) a c) }
    // They are a prefix of those that the caller submitted: in order, with no gap, and each once.
    ensures front { IfOk result (λ ran. (casts : List ActorSpec) (events : List Happening) →
        IsReachedBy casts events (world_view K.state world.now) →
        IsPrefix ran.items (submitted_in (world_view K.state world.now) a c)) }
{
    world.consistent();
    let ran = calls_run(alloc, world, a, c)?;
    Ok(ran)
}
