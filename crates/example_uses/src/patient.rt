//! A play that goes on where memory was refused, and ends where it would have ended.

ghost use Rattle.std.specs.Prelude.{take, OnOk, IfErr};
ghost use Rattle.actors.specs.Worlds.{HasPlayed, world_view};

use actors::{Actor, Event, Outcome, World};

/// Plays the events. Where memory is refused it plays on from there, as often as there are tries.
/// An `Err` tells how many events were played: a later call can go on with the others.
pub fn play_patiently<K: Actor>(
    world: &mut World<K>,
    events: &[Event],
    told: &mut Vec<Outcome>,
    tries: u32,
) -> Result<(), usize>
    // The same as if memory had never been refused: no event is lost, and none is done twice.
    ensures ok { OnOk result (HasPlayed events.now (world_view K.state world.old)
        (world_view K.state world.new) told.old.items told.new.items) }
    ensures err { IfErr result (λ place.
        HasPlayed (take place events.now) (world_view K.state world.old)
        (world_view K.state world.new) told.old.items told.new.items) }
{
    let mut place: usize = 0;
    for _attempt in 0..tries {
        let rest = &events[place..];
        if !world.has_room(rest.len()) {
            return Err(place);
        }
        match world.play(rest, told) {
            Ok(()) => return Ok(()),
            Err(more) => place += more as usize,
        }
    }
    Err(place)
}
