//! Actors as they are told: who may call them, and how they ended.

ghost use Rattle.std.specs.Prelude.{◌≡◌, ◌==◌, IfOk, map, position};
ghost use Rattle.act_serve.specs.Served.{end_view, end_id};
ghost use Rattle.act_told.specs.Told.{actor_place, callers_told, end_told, actor_told};

use act_kinds::Actor;
use act_orders::End;
use act_owner::Owner;
use act_serve::{Ended, Finished};
use act_types::{ActorId, ListOf, NoMemory};
use std::alloc::Global;

/// The number of each actor, by its place.
pub(crate) fn numbers_of<K: Actor>(
    alloc: Global,
    actors: &[Finished<K>],
) -> Result<Vec<usize>, NoMemory>
    ensures { IfOk result (λ numbers.
        numbers.items ≡ map (λ actor. end_id (end_view K.state actor.ended)) actors.now) }
{
    let mut numbers = Vec::new(alloc);
    for actor in actors {
        let id = actor.ended.id();
        numbers.push(id.number() as usize)?;
    }
    Ok(numbers)
}

fn found_at<K: Actor>(actors: &[Finished<K>], id: ActorId) -> Option<usize>
    ensures { result ≡ position (λ one. end_id (end_view K.state one.ended) == id) actors.now }
{
    actors.iter().position(|one| one.ended.id() == id)
}

/// The place of an actor; past the last one where it is none of these.
pub(crate) fn actor_place<K: Actor>(actors: &[Finished<K>], id: ActorId) -> usize
    ensures { result ≡ actor_place (map (λ actor. end_view K.state actor.ended) actors.now) id }
{
    match found_at(actors, id) {
        Some(place) => place,
        None => actors.len(),
    }
}

/// The callers that may call an actor.
fn callers_of(alloc: Global, owners: &[Owner], id: ActorId) -> Result<ListOf<usize>, NoMemory>
    ensures { IfOk result (λ callers. callers ≡ callers_told owners.now id) }
{
    let mut callers = ListOf::new(alloc);
    for owner in owners {
        if owner.is_listed(id) {
            callers.push(owner.id().number() as usize)?;
        }
    }
    Ok(callers)
}

/// How an actor ended.
fn end_of<K: Actor>(ended: &Ended<K>) -> End
    ensures { result ≡ end_told (end_view K.state ended.now) }
{
    match ended {
        Ended::Killed(_) | Ended::Starved(_) => End::Dead,
        Ended::Retired(_) => End::Retired,
    }
}

/// An actor: who may call it, and how it ended.
fn actor_of<K: Actor>(
    alloc: Global,
    owners: &[Owner],
    ended: &Ended<K>,
) -> Result<act_orders::Actor, NoMemory>
    ensures { IfOk result (λ actor. actor ≡ actor_told owners.now (end_view K.state ended.now)) }
{
    Ok(act_orders::Actor {
        callers: callers_of(alloc, owners, ended.id())?,
        end: end_of(ended),
    })
}

/// Each actor: who may call it, and how it ended.
pub(crate) fn actors_of<K: Actor>(
    alloc: Global,
    owners: &[Owner],
    actors: &[Finished<K>],
) -> Result<ListOf<act_orders::Actor>, NoMemory>
    ensures { IfOk result (λ told.
        told ≡ map (actor_told owners.now) (map (λ actor. end_view K.state actor.ended) actors.now)) }
{
    let mut told = ListOf::new(alloc);
    for actor in actors {
        told.push(actor_of(alloc, owners, &actor.ended)?)?;
    }
    Ok(told)
}
