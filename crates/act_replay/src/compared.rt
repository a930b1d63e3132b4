//! A list of events, played in a world and compared with what a run in threads left.

ghost use Rattle.std.specs.Prelude.{◌≡◌, ◌↔◌, ◌<◌, ◌^◌, List, [], length, map, IfOk, IsOk, IsTrue, All};
ghost use Rattle.act_rules.specs.declared.event.Event.{Event as Happening};
ghost use Rattle.act_rules.specs.History.{ActorSpec, opening};
ghost use Rattle.act_rules.specs.Laws.{history};
ghost use Rattle.act_rules.specs.Rules.{outcomes};
ghost use Rattle.act_actor.specs.Cast.{IsFitting};
ghost use Rattle.act_actor.specs.Casts.{actor_spec};
ghost use Rattle.act_serve.specs.Served.{end_view, end_id};
ghost use Rattle.act_world.specs.IsReachedBy.{IsReachedBy, HasRoom};
ghost use Rattle.act_world.specs.View.{stage_view, world_view};
ghost use Rattle.act_executor.specs.Plays.{IsOwnerIn, IsEndIn, IsPlayOf};
ghost use Rattle.act_replay.specs.Play.{IsSameEnd};

use act_compare::{play_in, same_log, same_owner};
use act_kinds::{Actor, Boxed};
use act_owner::Owner;
use act_serve::{Ended, Finished};
use act_types::NoMemory;
use act_world::{Cast, Event, Stage, World};
use std::alloc::Global;

/// Whether the world has the caller, with the same calls and the same answers.
fn has_owner<J: Actor>(world: &World<J>, owner: &Owner) -> bool
    ensures { (casts : List ActorSpec) (events : List Happening) →
        IsReachedBy casts events (world_view J.state world.now) →
        IsTrue result ↔ IsOwnerIn (history casts events) owner.now }
{
    match world.owner(owner.id()) {
        None => false,
        Some(other) => same_owner(owner, other),
    }
}

/// Whether the world has each of these callers.
fn has_owners<J: Actor>(world: &World<J>, owners: &[Owner]) -> bool
    ensures { (casts : List ActorSpec) (events : List Happening) →
        IsReachedBy casts events (world_view J.state world.now) →
        IsTrue result ↔ All (IsOwnerIn (history casts events)) owners.now }
{
    for owner in owners {
        if !has_owner(world, owner) {
            return false;
        }
    }
    true
}

/// Whether the actor of a world ran the same as one of threads, and ended in the same way.
fn same_end<J: Actor, K: Actor>(stage: Stage<'_, J>, ended: &Ended<K>) -> bool
    ensures { IsTrue result ↔ IsSameEnd (stage_view J.state stage.entry) (end_view K.state ended.now) }
{
    match (stage, ended) {
        (Stage::Dead(dead), Ended::Killed(other)) => same_log(dead.log(), other.log()),
        (Stage::Retired(retired), Ended::Retired(other)) => same_log(retired.log(), other.log()),
        _ => false,
    }
}

/// Whether the world has the actor, which ran the same and ended in the same way.
fn has_end<J: Actor, K: Actor>(world: &World<J>, ended: &Ended<K>) -> bool
    ensures { (casts : List ActorSpec) (events : List Happening) →
        IsReachedBy casts events (world_view J.state world.now) →
        IsTrue result ↔ IsEndIn (history casts events) (end_view K.state ended.now) }
{
    match world.stage(ended.id()) {
        None => false,
        Some(stage) => same_end(stage, ended),
    }
}

/// Whether the world has each of these actors.
fn has_ends<J: Actor, K: Actor>(world: &World<J>, actors: &[Finished<K>]) -> bool
    ensures { (casts : List ActorSpec) (events : List Happening) →
        IsReachedBy casts events (world_view J.state world.now) →
        IsTrue result ↔ All (λ actor. IsEndIn (history casts events) (end_view K.state actor.ended)) actors.now }
{
    for actor in actors {
        if !has_end(world, &actor.ended) {
            return false;
        }
    }
    true
}

/// Whether all events are accepted in a world that was just opened, and it ends with these callers
/// and these actors.
fn ends_so<J: Actor, K: Actor>(
    alloc: Global,
    world: &mut World<J>,
    events: &[Event],
    owners: &[Owner],
    actors: &[Finished<K>],
) -> Result<bool, NoMemory>
    requires room { HasRoom (length events.now) world.old.network }
    ensures { IfOk result (λ is.
        (casts : List ActorSpec) → IsReachedBy casts [] (world_view J.state world.old) →
        IsTrue is ↔
        IsPlayOf casts events.now owners.now
        (map (λ actor. end_view K.state actor.ended) actors.now)) }
{
    let accepted = play_in(alloc, world, events)?;
    if !accepted {
        return Ok(false);
    }
    if !has_owners(world, owners) {
        return Ok(false);
    }
    Ok(has_ends(world, actors))
}

/// Whether the events are a play of what these callers and these actors are left with, in a world
/// of these casts. The casts' kinds are in their opening states again.
pub fn is_play_of<K: Actor>(
    alloc: Global,
    casts: Vec<Cast>,
    events: &[Event],
    owners: &[Owner],
    actors: &[Finished<K>],
) -> Result<bool, NoMemory>
    requires fit { IsFitting casts.items }
    requires few { length events.now < 2 ^ 32 }
    ensures { IfOk result (λ is. IsTrue is ↔
        IsPlayOf (map (actor_spec ⟦<Boxed as Actor>⟧.state) casts.items) events.now owners.now
        (map (λ actor. end_view K.state actor.ended) actors.now)) }
{
    let mut world = World::open(alloc, casts)?;
    let is = ends_so(alloc, &mut world, events, owners, actors);
    drop(world);
    Ok(is?)
}
