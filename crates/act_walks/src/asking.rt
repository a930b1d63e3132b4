//! At the start of a walk, the kill is asked of each actor that is told dead.

ghost use Rattle.std.specs.Prelude.{◌≡◌, ◌+◌, OnOk, find, is_none};
ghost use Rattle.act_walks.specs.Fits.{bound_of};
ghost use Rattle.act_walks.specs.Walking.{parts_of};
ghost use Rattle.act_walks.specs.Asking.{AsksFrom, SetsOut};

use crate::fault::WalkFault;
use crate::played::{Walked, must_do};
use crate::told::ToldEnd;
use act_kinds::Actor;
use act_rules::Event;
use act_types::{ActorId, CallerId, MAX_ACTORS};

/// Whether the caller is bound to no steps.
fn is_free(end: &ToldEnd, c: CallerId) -> bool
    ensures { result ≡ is_none (bound_of end.now c) }
{
    match end.callers.get(c.number() as usize) {
        None => true,
        Some(caller) => caller.steps.is_none(),
    }
}

/// The first of the callers that is bound to no steps.
fn first_free(end: &ToldEnd, callers: &[CallerId]) -> Option<CallerId>
    ensures { result ≡ find (λ c. is_none (bound_of end.now c)) callers.now }
{
    callers.iter().copied().find(|c| is_free(end, *c))
}

/// Where the actor is told dead, its first caller that is bound to no steps asks for its kill.
fn ask<K: Actor>(walk: &mut Walked<K>, end: &ToldEnd, a: ActorId) -> Result<(), WalkFault>
    ensures { OnOk result (AsksFrom end.now a (a + 1) (parts_of K.state walk.old) (parts_of K.state walk.new)) }
{
    let Some(actor) = end.actors.get(a.number() as usize) else {
        return Ok(());
    };
    if !actor.is_dead {
        return Ok(());
    }
    let Some(c) = first_free(end, actor.callers.as_slice()) else {
        return Ok(());
    };
    let _asked = must_do(walk, Event::AskKill(c, a))?;
    Ok(())
}

/// The kill is asked of each actor that is told dead, where a caller of it is bound to no steps.
pub(crate) fn ask_all<K: Actor>(walk: &mut Walked<K>, end: &ToldEnd) -> Result<(), WalkFault>
    ensures { OnOk result (SetsOut end.now (parts_of K.state walk.old) (parts_of K.state walk.new)) }
{
    for before in 0..MAX_ACTORS {
        let a = ActorId::new(before + 1).unwrap();
        ask(walk, end, a)?;
    }
    Ok(())
}
