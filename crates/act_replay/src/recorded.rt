//! A run in threads, and a play that ends in what it left.

ghost use Rattle.std.specs.Prelude.{◌≡◌, map, None, IfOk, IfErr};
ghost use Rattle.act_actor.specs.Cast.{IsFitting};
ghost use Rattle.act_actor.specs.Casts.{actor_spec};
ghost use Rattle.act_serve.specs.Served.{end_view};
ghost use Rattle.act_plans.specs.Setups.{PlansFit};
ghost use Rattle.act_plans.specs.Runs.{first_bad_plan};
ghost use Rattle.act_executor.specs.Joined.{IsJoined};
ghost use Rattle.act_executor.specs.Runs.{plan_view};
ghost use Rattle.act_executor.specs.Plays.{IsPlayOf};
ghost use Rattle.act_executor.specs.PlanPlays.{IsPlayedAsPlanned};
ghost use Rattle.act_replay.specs.Faults.{IsPlayFault, IsRecordFault};
ghost use Rattle.act_replay.specs.Notes.{AreFrom};

use crate::merged::merge;
use crate::rebuilt::rebuild;
use crate::run::{RecordFault, check_play};
use act_executor::{Gate, Joined, Page, Pages, Plan, run_plans_noting};
use act_kinds::{Actor, Boxed};
use act_types::{CallerId, NoMemory};
use act_world::{Cast, Event};
use std::alloc::Global;
use std::sync::Wait;
use std::thread::Threads;

/// Where a play's events come from.
#[derive(Clone, Copy, Debug, PartialEq, Eq)]
pub enum Source {
    /// They were noted while the threads ran: each thread's own order, with each cause first.
    Noted,
    /// They were made of what is joined alone: one way in which the run can have gone.
    Found,
}

/// What a run in threads left, and a play that ends in it.
#[derive(Drop)]
pub struct Recorded<K> {
    pub joined: Joined<K>,
    pub events: Vec<Event>,
    pub source: Source,
}

/// The events of a play, and where they come from: what was noted, where it is whole and each event
/// has its cause, and else what is joined.
fn events_of<K: Actor>(
    alloc: Global,
    joined: &Joined<K>,
    pages: &Pages<Page>,
) -> Result<(Vec<Event>, Source), NoMemory>
    ensures { IfOk result (λ found. AreFrom found.1 pages.now found.0.items) }
{
    match merge(alloc, &joined.owners, &joined.actors, pages)? {
        Some(events) => Ok((events, Source::Noted)),
        None => {
            let events = rebuild(alloc, &joined.owners, &joined.actors)?;
            Ok((events, Source::Found))
        }
    }
}

/// The events of a play that ends in what is joined, and where they come from.
fn checked_events<K: Actor>(
    alloc: Global,
    twins: Vec<Cast>,
    joined: &Joined<K>,
    pages: &Pages<Page>,
) -> Result<(Vec<Event>, Source), RecordFault>
    requires fit { IsFitting twins.items }
    ensures played { IfOk result (λ play.
        IsPlayOf (map (actor_spec ⟦<Boxed as Actor>⟧.state) twins.items) play.0.items joined.now.owners.items
        (map (λ actor. end_view K.state actor.ended) joined.now.actors.items)) }
    ensures source { IfOk result (λ play. AreFrom play.1 pages.now play.0.items) }
    ensures fault { IfErr result IsPlayFault }
{
    let (found, source) = events_of(alloc, joined, pages)?;
    let events = check_play(alloc, twins, found, joined)?;
    Ok((events, source))
}

/// Runs the plans as `run_plans` does, and gives beside what is joined a play that ends in it.
///
/// The twins are the casts once more, with their kinds in the same opening states, in boxes. The
/// threads use the casts up, and a world is opened with the twins, which plays the events before they
/// are given. So it takes the memory of two runs. A run of which no play is found is `Unplayed`; no
/// contract says that this never comes.
pub fn run_recorded<R: Threads + Wait + Sync, K: Actor + Send, G: Gate>(
    rt: &R,
    alloc: Global,
    casts: Vec<Cast<K>>,
    twins: Vec<Cast>,
    plans: Vec<(CallerId, Plan)>,
    gate: &G,
) -> Result<Recorded<K>, RecordFault>
    requires fit { IsFitting casts.items }
    requires twins { map (actor_spec ⟦<Boxed as Actor>⟧.state) twins.items ≡ map (actor_spec K.state) casts.items }
    requires plans { PlansFit casts.items plans.items }
    ensures joined { IfOk result (λ recorded.
        IsJoined (map (actor_spec K.state) casts.items) (map plan_view plans.items) recorded.joined.owners.items
        (map (λ actor. end_view K.state actor.ended) recorded.joined.actors.items)) }
    ensures planned { IfOk result (λ recorded.
        IsPlayedAsPlanned (map (actor_spec K.state) casts.items) (map plan_view plans.items)
        recorded.joined.owners.items (map (λ actor. end_view K.state actor.ended) recorded.joined.actors.items)) }
    ensures good { IfOk result (λ _.
        first_bad_plan (map (actor_spec K.state) casts.items) (map plan_view plans.items) ≡ None) }
    ensures played { IfOk result (λ recorded.
        IsPlayOf (map (actor_spec K.state) casts.items) recorded.events.items recorded.joined.owners.items
        (map (λ actor. end_view K.state actor.ended) recorded.joined.actors.items)) }
    ensures fault { IfErr result (IsRecordFault (map (actor_spec K.state) casts.items) (map plan_view plans.items)) }
{
    let ran = run_plans_noting::<R, K, G, Page>(rt, alloc, casts, plans, gate)?;
    let (joined, pages) = ran;
    let play = checked_events(alloc, twins, &joined, &pages);
    drop(pages);
    match play {
        Ok((events, source)) => Ok(Recorded {
            joined,
            events,
            source,
        }),
        Err(fault) => {
            drop(joined);
            Err(fault)
        }
    }
}
