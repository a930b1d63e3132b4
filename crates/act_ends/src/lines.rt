//! The lines of an end: what the world of a play shows once its actors retired.

ghost use Rattle.std.specs.Prelude.{◌≡◌, ◌<◌, ◌+◌, List, IfOk, OnOk, string_bytes, true, false, is_some};
ghost use Rattle.act_rules.specs.declared.event.Event.{Event as Happening};
ghost use Rattle.act_rules.specs.History.{ActorSpec, History, cast_of, is_ended};
ghost use Rattle.act_rules.specs.Laws.{history};
ghost use Rattle.act_world.specs.View.{world_view};
ghost use Rattle.act_world.specs.IsReachedBy.{IsReachedBy};
ghost use Rattle.act_early.specs.Told.{told_at_rest};
ghost use Rattle.act_ends.specs.Rest.{IsResting};

use crate::fault::EndFault;
use act_console::play_report;
use act_kinds::Actor;
use act_rules::Event;
use act_types::{ActorId, MAX_ACTORS};
use act_world::{Stage, World};
use std::alloc::Global;

/// Whether the actor runs.
fn is_live<K: Actor>(world: &World<K>, actor: ActorId) -> bool
    ensures { result ≡ false → (casts : List ActorSpec) (events : List Happening) →
        IsReachedBy casts events (world_view K.state world.now) →
        is_some (cast_of actor (history casts events)) ≡ true → is_ended actor (history casts events) ≡ true }
{
    match world.stage(actor) {
        Some(Stage::Live(_)) => true,
        _ => false,
    }
}

/// Has the actor that comes after this number retire, where it runs.
fn retire<K: Actor>(world: &mut World<K>, before: u8) -> Result<(), EndFault>
    requires few { before < MAX_ACTORS }
    ensures { OnOk result ((casts : List ActorSpec) (h : History) →
        IsResting casts h before (world_view K.state world.old) →
        IsResting casts h (before + 1) (world_view K.state world.new)) }
{
    let actor = ActorId::new(before + 1).unwrap();
    if !is_live(world, actor) {
        return Ok(());
    }
    if !world.has_room(1) {
        return Err(EndFault::Unplayed);
    }
    match world.apply(&Event::Retire(actor)) {
        Ok(_) => Ok(()),
        Err(_) => Err(EndFault::Unplayed),
    }
}

/// Has each actor retire that runs.
fn retire_all<K: Actor>(world: &mut World<K>) -> Result<(), EndFault>
    ensures { OnOk result ((casts : List ActorSpec) (h : History) →
        IsResting casts h 0 (world_view K.state world.old) →
        IsResting casts h MAX_ACTORS (world_view K.state world.new)) }
{
    for before in 0..MAX_ACTORS {
        retire(world, before)?;
    }
    Ok(())
}

/// The lines of an end: what the world shows once its actors retired. A world where some actor can't
/// retire has no end.
pub fn lines_at_rest<K: Actor>(alloc: Global, world: &mut World<K>) -> Result<String, EndFault>
    ensures { IfOk result (λ lines. (casts : List ActorSpec) (events : List Happening) →
        IsReachedBy casts events (world_view K.state world.old) →
        string_bytes lines ≡ told_at_rest (history casts events)) }
{
    retire_all(world)?;
    let mut lines = String::new(alloc);
    play_report(alloc, world, &[], &mut lines)?;
    Ok(lines)
}
