//! What moves in a play of plans, and the events that move it.

ghost use Rattle.std.specs.Prelude.{◌≡◌, ◌++◌, ◌∷◌, [], IfOk, OnOk, OnErr, List, None};
ghost use Rattle.act_rules.specs.declared.event.Event.TheVariants as happening;
ghost use Rattle.act_rules.specs.History.{ActorSpec, History};
ghost use Rattle.act_rules.specs.Rules.{refusal_of, outcome_of, did, add_event, after};
ghost use Rattle.act_world.specs.View.{world_view};
ghost use Rattle.act_plan_plays.specs.Parts.{IsBehind, after_post};

use crate::choice::PlayFault;
use act_kinds::{Actor, Boxed};
use act_rules::{Did, Event, Outcome};
use act_types::{ActorId, CALLER_NUMBERS};
use act_world::{World, is_memory};

/// A world, the events that it stands after, how many steps of its plan each caller did, and the
/// actors whose kill was asked.
#[derive(Drop)]
pub(crate) struct Played<K = Boxed> {
    pub(crate) world: World<K>,
    pub(crate) events: Vec<Event>,
    /// By the callers' numbers.
    pub(crate) done: [usize; CALLER_NUMBERS],
    /// Each of them once.
    pub(crate) asked: Vec<ActorId>,
}

/// Does an event, and keeps it if it was accepted. One that is refused changes nothing.
pub fn try_event<K: Actor>(
    world: &mut World<K>,
    events: &mut Vec<Event>,
    event: Event,
) -> Result<Outcome, PlayFault>
    ensures behind { IfOk result (λ outcome. (casts : List ActorSpec) (h : History) →
        IsBehind casts h (world_view K.state world.old) events.old.items →
        (outcome ≡ outcome_of h event)
        × IsBehind casts (after h event) (world_view K.state world.new) events.new.items) }
    ensures kept { IfOk result (λ outcome. OnOk outcome (events.new.items ≡ events.old.items ++ event ∷ [])) }
    ensures refused { IfOk result (λ outcome. OnErr outcome ((world.new ≡ world.old) × (events.new ≡ events.old))) }
{
    if !world.has_room(1) {
        return Err(PlayFault::Stuck);
    }
    let outcome = world.apply(&event);
    if is_memory(&outcome) {
        return Err(PlayFault::NoMemory);
    }
    if outcome.is_ok() {
        events.push(event)?;
    }
    Ok(outcome)
}

/// Does an event that has to be accepted.
pub fn do_event<K: Actor>(
    world: &mut World<K>,
    events: &mut Vec<Event>,
    event: Event,
) -> Result<Did, PlayFault>
    ensures behind { IfOk result (λ told. (casts : List ActorSpec) (h : History) →
        IsBehind casts h (world_view K.state world.old) events.old.items →
        (refusal_of h event ≡ None) × (told ≡ did h event)
        × IsBehind casts (add_event h event) (world_view K.state world.new) events.new.items) }
    ensures kept { OnOk result (events.new.items ≡ events.old.items ++ event ∷ []) }
{
    let outcome = try_event(world, events, event)?;
    match outcome {
        Ok(told) => Ok(told),
        Err(_) => Err(PlayFault::Stuck),
    }
}

/// Brings the letter at this place, if its actor lives.
fn bring<K: Actor>(world: &mut World<K>, events: &mut Vec<Event>, i: u32) -> Result<(), PlayFault>
    ensures { OnOk result ((casts : List ActorSpec) (h : History) →
        IsBehind casts h (world_view K.state world.old) events.old.items →
        IsBehind casts (after h (happening.Deliver i)) (world_view K.state world.new) events.new.items) }
{
    let _outcome = try_event(world, events, Event::Deliver(i))?;
    Ok(())
}

/// Does an event that has to be accepted, and brings the letter that it tells, if it tells one.
pub(crate) fn post<K: Actor>(
    world: &mut World<K>,
    events: &mut Vec<Event>,
    event: Event,
) -> Result<(), PlayFault>
    ensures { OnOk result ((casts : List ActorSpec) (h : History) →
        IsBehind casts h (world_view K.state world.old) events.old.items →
        (refusal_of h event ≡ None)
        × IsBehind casts (after_post event h) (world_view K.state world.new) events.new.items) }
{
    let told = do_event(world, events, event)?;
    if let Did::Mail(i) = told {
        bring(world, events, i)?;
    }
    Ok(())
}
