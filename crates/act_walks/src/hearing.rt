//! How callers hear of the deaths that are told.

ghost use Rattle.std.specs.Prelude.{◌≡◌, ◌↔◌, ◌≤◌, IsTrue, IfOk, OnOk, List, length};
ghost use Rattle.act_rules.specs.declared.event.Event.{Event as Happening};
ghost use Rattle.act_rules.specs.History.{ActorSpec, History};
ghost use Rattle.act_world.specs.View.{world_view};
ghost use Rattle.act_plan_plays.specs.Parts.{IsBehind};
ghost use Rattle.act_walks.specs.Fits.{calls_in};
ghost use Rattle.act_walks.specs.Walking.{parts_of, lets_hear, AllLetHear, Hears, HearsNow, Moves};
ghost use Rattle.act_walks.specs.Walking.{NoTell, NoTells, NoTellsOf};

use crate::fault::WalkFault;
use crate::played::{Walked, must_do};
use crate::told::{Left, ToldCall, ToldEnd};
use act_kinds::Actor;
use act_owner::Owner;
use act_plan_plays::is_dead;
use act_rules::{Did, Event};
use act_types::{ActorId, CallerId, FutureId, MAX_ACTORS, MAX_CALLERS, MAX_CALLS};
use act_world::World;

/// Whether the call lets its caller hear of the actor's death: it went elsewhere, or it is told
/// answered, and a reply that is told is there.
fn lets_hear(owner: &Owner, a: ActorId, k: FutureId, call: &ToldCall) -> bool
    ensures { result ≡ lets_hear a owner.now.kept k call.now }
{
    if call.actor != a {
        return true;
    }
    match call.left {
        Left::Open => false,
        Left::Reply => owner.answer(k).is_some(),
        Left::Death => true,
    }
}

/// Whether each of the caller's calls lets it hear of the actor's death.
fn all_let_hear(owner: &Owner, a: ActorId, calls: &[ToldCall]) -> bool
    ensures { length calls.now ≤ MAX_CALLS → (IsTrue result ↔ AllLetHear a owner.now.kept calls.now) }
{
    if calls.len() > MAX_CALLS as usize {
        return false;
    }
    for (place, call) in calls.iter().enumerate() {
        if !lets_hear(owner, a, FutureId::new(place as u32), call) {
            return false;
        }
    }
    true
}

/// The calls that are told of the caller.
fn calls_of(end: &ToldEnd, c: CallerId) -> &[ToldCall]
    ensures { result.now ≡ calls_in end.now c }
{
    match end.callers.get(c.number() as usize) {
        None => &[],
        Some(caller) => caller.calls.as_slice(),
    }
}

/// Whether the dead actor may tell the caller its death, which the caller doesn't know yet.
fn may_tell<K: Actor>(world: &World<K>, end: &ToldEnd, a: ActorId, c: CallerId) -> bool
    ensures { (casts : List ActorSpec) (h : History) (before : List Happening) →
        IsBehind casts h (world_view K.state world.now) before → Hears end.now c a h result }
{
    if !is_dead(world, a) {
        return false;
    }
    let Some(owner) = world.owner(c) else {
        return false;
    };
    if !owner.is_listed(a) {
        return false;
    }
    if owner.is_dead(a) {
        return false;
    }
    all_let_hear(owner, a, calls_of(end, c))
}

/// The dead actor tells the caller its death, who collects it.
fn tell<K: Actor>(walk: &mut Walked<K>, a: ActorId, c: CallerId) -> Result<(), WalkFault>
    ensures { OnOk result (HearsNow c a (parts_of K.state walk.old) (parts_of K.state walk.new)) }
{
    let Did::Told(j) = must_do(walk, Event::Tell(a, c))? else {
        return Err(WalkFault::Stuck);
    };
    let _told = must_do(walk, Event::Collect(j))?;
    Ok(())
}

/// The caller hears of the actor's death, if it may.
fn hear<K: Actor>(
    walk: &mut Walked<K>,
    end: &ToldEnd,
    a: ActorId,
    c: CallerId,
) -> Result<bool, WalkFault>
    ensures { IfOk result
        (Moves end.now (NoTell c a) (parts_of K.state walk.old) (parts_of K.state walk.new)) }
{
    if !may_tell(&walk.world, end, a, c) {
        return Ok(false);
    }
    tell(walk, a, c)?;
    Ok(true)
}

/// Each caller hears of the actor's death, if it may.
fn hear_of<K: Actor>(walk: &mut Walked<K>, end: &ToldEnd, a: ActorId) -> Result<bool, WalkFault>
    ensures { IfOk result
        (Moves end.now (NoTellsOf MAX_CALLERS a) (parts_of K.state walk.old) (parts_of K.state walk.new)) }
{
    let mut moved = false;
    for before in 0..MAX_CALLERS {
        let c = CallerId::new(before + 1).unwrap();
        moved |= hear(walk, end, a, c)?;
    }
    Ok(moved)
}

/// Each caller hears of each death that it may hear of.
pub(crate) fn hear_all<K: Actor>(walk: &mut Walked<K>, end: &ToldEnd) -> Result<bool, WalkFault>
    ensures { IfOk result
        (Moves end.now (NoTells MAX_ACTORS) (parts_of K.state walk.old) (parts_of K.state walk.new)) }
{
    let mut moved = false;
    for before in 0..MAX_ACTORS {
        let a = ActorId::new(before + 1).unwrap();
        moved |= hear_of(walk, end, a)?;
    }
    Ok(moved)
}
