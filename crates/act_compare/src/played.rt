//! Events, played in a world to see whether all of them are accepted.

ghost use Rattle.std.specs.Prelude.{◌↔◌, List, [], length, IfOk, IsOk, IsTrue, All};
ghost use Rattle.act_rules.specs.History.{ActorSpec, opening};
ghost use Rattle.act_rules.specs.Rules.{outcomes};
ghost use Rattle.act_world.specs.IsReachedBy.{IsReachedBy, HasRoom};
ghost use Rattle.act_world.specs.View.{world_view};

use act_kinds::Actor;
use act_rules::{Event, Outcome};
use act_types::NoMemory;
use act_world::World;
use std::alloc::Global;

/// Whether an event was accepted.
fn is_accepted(told: &Outcome) -> bool
    ensures { IsTrue result ↔ IsOk told.now }
{
    told.is_ok()
}

/// Whether all events were accepted.
pub fn are_accepted(told: &[Outcome]) -> bool
    ensures { IsTrue result ↔ All IsOk told.now }
{
    for outcome in told {
        if !is_accepted(outcome) {
            return false;
        }
    }
    true
}

/// Plays events in a world that was just opened, and tells whether all of them were accepted. What
/// is told of each is let go.
pub fn play_in<K: Actor>(
    alloc: Global,
    world: &mut World<K>,
    events: &[Event],
) -> Result<bool, NoMemory>
    requires room { HasRoom (length events.now) world.old.network }
    ensures accepted { IfOk result (λ is.
        (casts : List ActorSpec) → IsReachedBy casts [] (world_view K.state world.old) →
        IsTrue is ↔ All IsOk (outcomes (opening casts) events.now)) }
    ensures reached { IfOk result (λ _.
        (casts : List ActorSpec) → IsReachedBy casts [] (world_view K.state world.old) →
        IsReachedBy casts events.now (world_view K.state world.new)) }
{
    let mut told = Vec::new(alloc);
    let Ok(()) = world.play(events, &mut told) else {
        return Err(NoMemory);
    };
    Ok(are_accepted(&told))
}
