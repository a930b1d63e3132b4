//! The end of a walk that is through: the actors that are told retired retire.

ghost use Rattle.std.specs.Prelude.{◌≡◌, ℕ, List, Option, OnOk, IfSome, Ok, false, true};
ghost use Rattle.act_rules.specs.declared.event.Event.TheVariants as happening;
ghost use Rattle.act_rules.specs.declared.script.Step.{Step as PlanStep};
ghost use Rattle.act_rules.specs.Laws.{history};
ghost use Rattle.act_rules.specs.History.{ActorSpec, History};
ghost use Rattle.act_world.specs.View.{world_view};
ghost use Rattle.act_told_ends.specs.Told.{Told};
ghost use Rattle.act_told_ends.specs.Retiring.{RetiredAsTold};
ghost use Rattle.act_plan_plays.specs.Parts.{IsBehind, after_mail};
ghost use Rattle.act_walks.specs.Eager.{IsAtRest, SomeEnd};
ghost use Rattle.act_walks.specs.Fits.{Fits, FitsCasts};
ghost use Rattle.act_walks.specs.Paced.{IsPaced, AreAllDone};
ghost use Rattle.act_walks.specs.Rested.{OnlyRests, RestsOn, IsToldRetired, SaysRetired, CannotHappen, HoldNone, IsSettled, AreSettled};

use crate::told::{ToldActor, ToldEnd};
use act_kinds::Actor;
use act_plan_plays::{PlayFault, try_event};
use act_rules::{Did, Event};
use act_types::{ActorId, CallerId};
use act_world::World;

/// Brings the letter that is told, if one is, and if its actor lives.
fn bring_told<K: Actor>(
    world: &mut World<K>,
    events: &mut Vec<Event>,
    told: Did,
) -> Result<(), PlayFault>
    ensures only { OnOk result (OnlyRests events.old.items events.new.items) }
    ensures behind { OnOk result ((casts : List ActorSpec) (h : History) →
        IsBehind casts h (world_view K.state world.old) events.old.items →
        IsBehind casts (after_mail told h) (world_view K.state world.new) events.new.items) }
{
    if let Did::Mail(i) = told {
        let _outcome = try_event(world, events, Event::Deliver(i))?;
    }
    Ok(())
}

/// A caller lets one copy of the actor's handle go, and its note is brought. Whether it had one.
fn release<K: Actor>(
    world: &mut World<K>,
    events: &mut Vec<Event>,
    c: CallerId,
    a: ActorId,
) -> Result<bool, PlayFault>
    ensures rests { OnOk result (RestsOn (IsToldRetired a) (world_view K.state world.old)
        (world_view K.state world.new) events.old.items events.new.items) }
    ensures still { result ≡ Ok false → (world.new ≡ world.old) × (events.new ≡ events.old) }
    ensures none { result ≡ Ok false →
        CannotHappen (happening.Release c a) (world_view K.state world.new) events.new.items }
{
    let outcome = try_event(world, events, Event::Release(c, a))?;
    let Ok(told) = outcome else {
        return Ok(false);
    };
    bring_told(world, events, told)?;
    Ok(true)
}

/// A caller lets all copies of the actor's handle go. Whether it had any.
fn let_go<K: Actor>(
    world: &mut World<K>,
    events: &mut Vec<Event>,
    c: CallerId,
    a: ActorId,
) -> Result<bool, PlayFault>
    ensures rests { OnOk result (RestsOn (IsToldRetired a) (world_view K.state world.old)
        (world_view K.state world.new) events.old.items events.new.items) }
    ensures still { result ≡ Ok false → (world.new ≡ world.old) × (events.new ≡ events.old) }
    ensures none { OnOk result
        (CannotHappen (happening.Release c a) (world_view K.state world.new) events.new.items) }
{
    for count in 0..u32::MAX {
        if !release(world, events, c, a)? {
            return Ok(count > 0);
        }
    }
    Err(PlayFault::Stuck)
}

/// Each of the callers lets all copies of the actor's handle go. Whether any had some.
fn let_all_go<K: Actor>(
    world: &mut World<K>,
    events: &mut Vec<Event>,
    a: ActorId,
    callers: &[CallerId],
) -> Result<bool, PlayFault>
    ensures rests { OnOk result (RestsOn (IsToldRetired a) (world_view K.state world.old)
        (world_view K.state world.new) events.old.items events.new.items) }
    ensures still { result ≡ Ok false → (world.new ≡ world.old) × (events.new ≡ events.old) }
    ensures none { result ≡ Ok false →
        HoldNone callers.now a (world_view K.state world.new) events.new.items }
{
    let mut moved = false;
    for c in callers {
        if let_go(world, events, *c, a)? {
            moved = true;
        }
    }
    Ok(moved)
}

/// The actor retires, if it can. Whether it did.
fn try_retire<K: Actor>(
    world: &mut World<K>,
    events: &mut Vec<Event>,
    a: ActorId,
) -> Result<bool, PlayFault>
    ensures rests { OnOk result (RestsOn (IsToldRetired a) (world_view K.state world.old)
        (world_view K.state world.new) events.old.items events.new.items) }
    ensures still { result ≡ Ok false → (world.new ≡ world.old) × (events.new ≡ events.old) }
    ensures none { result ≡ Ok false →
        CannotHappen (happening.Retire a) (world_view K.state world.new) events.new.items }
{
    let outcome = try_event(world, events, Event::Retire(a))?;
    let Ok(_) = outcome else {
        return Ok(false);
    };
    Ok(true)
}

/// The callers of the actor let its handle go, and it retires, if it can. Whether something moved.
fn retire<K: Actor>(
    world: &mut World<K>,
    events: &mut Vec<Event>,
    a: ActorId,
    callers: &[CallerId],
) -> Result<bool, PlayFault>
    ensures rests { OnOk result (RestsOn (IsToldRetired a) (world_view K.state world.old)
        (world_view K.state world.new) events.old.items events.new.items) }
    ensures still { result ≡ Ok false → (world.new ≡ world.old) × (events.new ≡ events.old) }
    ensures settled { result ≡ Ok false →
        IsSettled callers.now a (world_view K.state world.new) events.new.items }
{
    let let_go = let_all_go(world, events, a, callers)?;
    let retired = try_retire(world, events, a)?;
    Ok(let_go || retired)
}

/// The actor of a number, if there can be one.
fn actor_at(number: usize) -> Option<ActorId>
    ensures { IfSome result (λ a. a ≡ number) }
{
    let Ok(number) = u8::try_from(number) else {
        return None;
    };
    ActorId::new(number)
}

/// The actor of this number retires, if it is told so. Whether something moved.
fn retire_told<K: Actor>(
    world: &mut World<K>,
    events: &mut Vec<Event>,
    number: usize,
    actor: &ToldActor,
) -> Result<bool, PlayFault>
    ensures rests { OnOk result (RestsOn (SaysRetired number actor.now) (world_view K.state world.old)
        (world_view K.state world.new) events.old.items events.new.items) }
    ensures still { result ≡ Ok false → (world.new ≡ world.old) × (events.new ≡ events.old) }
    ensures settled { result ≡ Ok false → actor.now.is_retired ≡ true →
        IsSettled actor.now.callers.items number (world_view K.state world.new) events.new.items }
{
    if !actor.is_retired {
        return Ok(false);
    }
    let Some(a) = actor_at(number) else {
        return Err(PlayFault::Stuck);
    };
    retire(world, events, a, actor.callers.as_slice())
}

/// Each actor that is told retired retires, if it can. Whether something moved.
fn retire_round<K: Actor>(
    world: &mut World<K>,
    events: &mut Vec<Event>,
    end: &ToldEnd,
) -> Result<bool, PlayFault>
    ensures rests { OnOk result (RestsOn (Fits end.now) (world_view K.state world.old)
        (world_view K.state world.new) events.old.items events.new.items) }
    ensures still { result ≡ Ok false → (world.new ≡ world.old) × (events.new ≡ events.old) }
    ensures settled { result ≡ Ok false →
        AreSettled end.now.actors.items (world_view K.state world.new) events.new.items }
{
    let mut moved = false;
    for (number, actor) in end.actors.iter().enumerate() {
        if retire_told(world, events, number, actor)? {
            moved = true;
        }
    }
    Ok(moved)
}

/// The actors that are told retired retire, once a walk is through and each bound caller did its
/// steps.
pub(crate) fn retire_all<K: Actor>(
    world: &mut World<K>,
    events: &mut Vec<Event>,
    end: &ToldEnd,
) -> Result<(), PlayFault>
    ensures rests { OnOk result (RestsOn (Fits end.now) (world_view K.state world.old)
        (world_view K.state world.new) events.old.items events.new.items) }
    // Bound callers that did all their steps do no other.
    ensures paced { OnOk result ((casts : List ActorSpec) (bound : ℕ → Option (List PlanStep)) (done : ℕ → ℕ) →
        AreAllDone bound done → IsPaced casts bound done events.old.items →
        IsPaced casts bound done events.new.items) }
    // Where some events end as is told, those retired that are told so.
    ensures retired { OnOk result ((casts : List ActorSpec) (bound : ℕ → Option (List PlanStep)) (told : Told) →
        SomeEnd casts bound told → Fits end.now told → FitsCasts end.now casts →
        IsBehind casts (history casts events.old.items) (world_view K.state world.old) events.old.items →
        IsAtRest told (history casts events.old.items) → RetiredAsTold told (history casts events.new.items)) }
{
    for _ in 0..u32::MAX {
        if !retire_round(world, events, end)? {
            return Ok(());
        }
    }
    Err(PlayFault::Stuck)
}
