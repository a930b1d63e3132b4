//! A walk, and the events that it does.

ghost use Rattle.std.specs.Prelude.{◌≡◌, IfOk, OnOk};
ghost use Rattle.act_walks.specs.Walking.{parts_of, Tries, TriesPost, Does};

use crate::fault::WalkFault;
use act_kinds::{Actor, Boxed};
use act_plan_plays::{do_event, try_event};
use act_rules::{Did, Event};
use act_types::CALLER_NUMBERS;
use act_world::World;

/// A walk: a world, and what happened in it from its opening on.
#[derive(Drop)]
pub struct Walked<K = Boxed> {
    pub world: World<K>,
    pub events: Vec<Event>,
    /// How many of its steps each caller did, by the callers' numbers.
    pub(crate) done: [usize; CALLER_NUMBERS],
    /// Whether each caller that is bound to steps did all of them.
    pub is_done: bool,
}

/// Does an event, unless it is refused, and tells whether it was done.
pub(crate) fn try_do<K: Actor>(walk: &mut Walked<K>, event: Event) -> Result<bool, WalkFault>
    ensures { IfOk result (Tries event (parts_of K.state walk.old) (parts_of K.state walk.new)) }
{
    let outcome = try_event(&mut walk.world, &mut walk.events, event)?;
    Ok(outcome.is_ok())
}

/// The same, and the letter is brought that the event tells, if its actor lives.
pub(crate) fn try_post<K: Actor>(walk: &mut Walked<K>, event: Event) -> Result<bool, WalkFault>
    ensures { IfOk result (TriesPost event (parts_of K.state walk.old) (parts_of K.state walk.new)) }
{
    let Ok(told) = try_event(&mut walk.world, &mut walk.events, event)? else {
        return Ok(false);
    };
    if let Did::Mail(i) = told {
        let _outcome = try_event(&mut walk.world, &mut walk.events, Event::Deliver(i))?;
    }
    Ok(true)
}

/// Does an event that has to be accepted.
pub(crate) fn must_do<K: Actor>(walk: &mut Walked<K>, event: Event) -> Result<Did, WalkFault>
    ensures { IfOk result (Does event (parts_of K.state walk.old) (parts_of K.state walk.new)) }
{
    let told = do_event(&mut walk.world, &mut walk.events, event)?;
    Ok(told)
}
