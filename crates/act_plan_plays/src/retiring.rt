//! The end of a play: the actors that run retire.

ghost use Rattle.std.specs.Prelude.{◌≤◌, ℕ, List, OnOk};
ghost use Rattle.act_rules.specs.declared.script.Step.{Step as PlanStep};
ghost use Rattle.act_rules.specs.History.{ActorSpec};
ghost use Rattle.act_early.specs.Plays.{At};
ghost use Rattle.act_world.specs.View.{world_view};
ghost use Rattle.act_plan_plays.specs.Retired.{AllOver, GoesOnRetired, IsRetiredFrom};

use crate::choice::PlayFault;
use crate::choices::is_live;
use crate::played::do_event;
use act_kinds::Actor;
use act_rules::Event;
use act_types::{ActorId, MAX_ACTORS};
use act_world::World;

/// The actor of this number retires, if it runs.
fn retire_one<K: Actor>(
    world: &mut World<K>,
    events: &mut Vec<Event>,
    number: u8,
) -> Result<(), PlayFault>
    requires { (1 ≤ number) × (number ≤ MAX_ACTORS) }
    ensures { OnOk result ((casts : List ActorSpec) (plans : ℕ → List PlanStep) (at end : At) →
        IsRetiredFrom casts plans at end (world_view K.state world.old) events.old.items →
        GoesOnRetired casts plans at end number (world_view K.state world.new) events.new.items) }
{
    let a = ActorId::new(number).unwrap();
    if !is_live(world, a) {
        return Ok(());
    }
    do_event(world, events, Event::Retire(a))?;
    Ok(())
}

/// Each actor that runs retires.
pub(crate) fn retire_all<K: Actor>(
    world: &mut World<K>,
    events: &mut Vec<Event>,
) -> Result<(), PlayFault>
    ensures { OnOk result ((casts : List ActorSpec) (plans : ℕ → List PlanStep) (at : At) →
        IsRetiredFrom casts plans at at (world_view K.state world.old) events.old.items → (end : At)
        × IsRetiredFrom casts plans at end (world_view K.state world.new) events.new.items
        × AllOver end.history) }
{
    for before in 0..MAX_ACTORS {
        retire_one(world, events, before + 1)?;
    }
    Ok(())
}
