//! A play of what a run in threads left.

ghost use Rattle.std.specs.Prelude.{◌≡◌, map, IfOk, IfErr};
ghost use Rattle.act_actor.specs.Cast.{IsFitting};
ghost use Rattle.act_actor.specs.Casts.{actor_spec};
ghost use Rattle.act_serve.specs.Served.{end_view};
ghost use Rattle.act_executor.specs.Plays.{IsPlayOf};
ghost use Rattle.act_replay.specs.Faults.{IsPlayFault};

use crate::compared::is_play_of;
use crate::rebuilt::rebuild;
use act_executor::{Joined, RunFault};
use act_kinds::{Actor, Boxed};
use act_types::NoMemory;
use act_world::{Cast, Event};
use std::alloc::Global;
use std::error::Error;
use std::fmt;

/// Why a run has no play to show.
#[derive(Clone, Copy, Debug, PartialEq, Eq)]
pub enum RecordFault {
    /// The run itself has no end to show.
    Run(RunFault),
    /// All threads ended, and what they left is the end of no play that was found. No contract says
    /// that this never comes.
    Unplayed,
}

impl From<RunFault> for RecordFault {
    ghost use Rattle.act_replay.specs.declared.run.RecordFault.TheVariants as record_fault;

    ghost from_gives = { λ fault result. result ≡ record_fault.Run fault };

    fn from(fault: RunFault) -> RecordFault {
        RecordFault::Run(fault)
    }
}

impl From<NoMemory> for RecordFault {
    ghost use Rattle.act_replay.specs.declared.run.RecordFault.TheVariants as record_fault;
    ghost use Rattle.act_executor.specs.declared.run.RunFault.TheVariants as fault;

    ghost from_gives = { λ _ result. result ≡ record_fault.Run fault.NoMemory };

    fn from(_error: NoMemory) -> RecordFault {
        RecordFault::Run(RunFault::NoMemory)
    }
}

impl fmt::Display for RecordFault {
    fn fmt<W: fmt::Write>(&self, f: &mut fmt::Formatter<W>) -> fmt::Result {
        match self {
            RecordFault::Run(fault) => write!(f, "{fault}"),
            RecordFault::Unplayed => f.write_str("no play ends as the threads did"),
        }
    }
}

impl Error for RecordFault {}

/// More events than a world takes.
const MAX_EVENTS: usize = 4_294_967_296;

/// The events, where they are a play of what is joined.
pub(crate) fn check_play<K: Actor>(
    alloc: Global,
    casts: Vec<Cast>,
    events: Vec<Event>,
    joined: &Joined<K>,
) -> Result<Vec<Event>, RecordFault>
    requires fit { IsFitting casts.items }
    ensures played { IfOk result (λ events.
        IsPlayOf (map (actor_spec ⟦<Boxed as Actor>⟧.state) casts.items) events.items joined.now.owners.items
        (map (λ actor. end_view K.state actor.ended) joined.now.actors.items)) }
    ensures same { IfOk result (λ play. play.items ≡ events.items) }
    ensures fault { IfErr result IsPlayFault }
{
    if events.len() >= MAX_EVENTS {
        return Err(RecordFault::Unplayed);
    }
    if !is_play_of(alloc, casts, &events, &joined.owners, &joined.actors)? {
        return Err(RecordFault::Unplayed);
    }
    Ok(events)
}

/// A play that ends in what a run in threads left, where one is found. It is made of what is joined
/// alone, and nothing was noted while the threads ran. It is one way in which the run can have gone,
/// and need not be the one in which it went.
///
/// The casts are those of the run once more, with their kinds in their opening states: the threads
/// used the first ones up. A world is opened with them, and plays the events before they are given.
pub fn play_of<K: Actor>(
    alloc: Global,
    casts: Vec<Cast>,
    joined: &Joined<K>,
) -> Result<Vec<Event>, RecordFault>
    requires fit { IsFitting casts.items }
    ensures played { IfOk result (λ events.
        IsPlayOf (map (actor_spec ⟦<Boxed as Actor>⟧.state) casts.items) events.items joined.now.owners.items
        (map (λ actor. end_view K.state actor.ended) joined.now.actors.items)) }
    ensures fault { IfErr result IsPlayFault }
{
    let events = rebuild(alloc, &joined.owners, &joined.actors)?;
    let play = check_play(alloc, casts, events, joined)?;
    Ok(play)
}
