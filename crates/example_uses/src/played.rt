//! A script that is read, and of which a part is played.

ghost use Rattle.std.specs.Prelude.{◌≡◌, take, IfOk, OnOk, IfErr, Ok};
ghost use Rattle.actors.specs.Scripts.{spelled, Spelled, FailsAt};
ghost use Rattle.actors.specs.Mode.TheVariants.{Play};
ghost use Rattle.actors.specs.Worlds.{HasPlayed, world_view};
ghost use Rattle.example_uses.specs.Scripts.{IsFaultOf, PlayedBefore};

use actors::{Actor, Event, Items, ListOf, Mode, Outcome, Script, ScriptFault, World, read_script};
use std::alloc::Global;

/// Why a script was not played as far as was asked.
#[derive(Clone, Copy, Debug, PartialEq, Eq)]
pub enum PartFault {
    /// The bytes spell no script of events, or memory was refused while they were read.
    Script(ScriptFault),
    /// The world has no room for so many events.
    NoRoom,
    /// Memory was refused at the event of this place.
    Stopped(u32),
}

impl From<ScriptFault> for PartFault {
    ghost use Rattle.std.specs.Prelude.{◌≡◌};
    ghost use Rattle.example_uses.specs.declared.played.PartFault.TheVariants as part;

    ghost from_gives = { λ fault result. result ≡ part.Script fault };

    fn from(fault: ScriptFault) -> PartFault {
        PartFault::Script(fault)
    }
}

/// The events that bytes spell.
fn events_in(alloc: Global, bytes: &[u8]) -> Result<ListOf<Event>, ScriptFault>
    ensures events { IfOk result (λ events. (script : Spelled) → spelled Play bytes.now ≡ Ok script →
        events ≡ script.events) }
    ensures fault { IfErr result (λ fault. FailsAt fault (spelled Play bytes.now)) }
{
    let script = read_script(alloc, bytes, Mode::Play)?;
    let Script { items, .. } = script;
    let Items::Events(events) = items else {
        unreachable!()
    };
    Ok(events)
}

/// The first events, or all where there are no more.
fn first_events(events: &[Event], count: usize) -> &[Event]
    ensures { result.now ≡ take count events.now }
{
    if count < events.len() {
        &events[..count]
    } else {
        events
    }
}

/// Reads a script of events, and plays the first of them.
pub fn play_part<K: Actor>(
    alloc: Global,
    world: &mut World<K>,
    bytes: &[u8],
    count: usize,
    told: &mut Vec<Outcome>,
) -> Result<(), PartFault>
    ensures ok { OnOk result ((script : Spelled) → spelled Play bytes.now ≡ Ok script →
        HasPlayed (take count script.events) (world_view K.state world.old)
        (world_view K.state world.new) told.old.items told.new.items) }
    // A stop at a place has played the events before it, and any other `Err` none.
    ensures err { IfErr result (λ fault.
        PlayedBefore fault (spelled Play bytes.now) count (world_view K.state world.old)
        (world_view K.state world.new) told.old.items told.new.items) }
    // A fault with its line is the script's first one.
    ensures fault { IfErr result (λ fault. IsFaultOf fault (spelled Play bytes.now)) }
{
    let events = events_in(alloc, bytes)?;
    let part = first_events(events.as_slice(), count);
    if !world.has_room(part.len()) {
        return Err(PartFault::NoRoom);
    }
    match world.play(part, told) {
        Ok(()) => Ok(()),
        Err(place) => Err(PartFault::Stopped(place)),
    }
}
