//! Plans that are run in threads only if no schedule of theirs makes or loses money.

ghost use Rattle.std.specs.Prelude.{◌≡◌, ◌==◌, IfOk, find, option_copied};
ghost use Rattle.actors.specs.Threads.{end_id, end_view};
ghost use Rattle.example_transfer.specs.Purse.{purse_at};
ghost use Rattle.example_transfer.specs.Purses.{plans_of};
ghost use Rattle.example_transfer.specs.Money.{IsAnswer, IsVerdict, purse_left};

use crate::purse::Purse;
use crate::purses::{Manner, Purses};
use actors::{
    ActorId, Ended, Event, Finished, Joined, NoGate, Opening, always, plans_fit, run_plans,
};
use anyhow::{Result, ensure};
use std::alloc::Global;
use std::marker::PhantomData;
use std::sync::Wait;
use std::thread::Threads;

/// At most so many states are looked at.
const MOST_STATES: usize = 10_000;

/// What came of plans.
#[derive(Drop)]
pub enum Verdict {
    /// The sum is kept at every end, and a run in threads left this.
    Kept(Joined<Purse>),
    /// These events change it.
    Changed(Vec<Event>),
}

/// What an actor left.
fn find_actor(actors: &[Finished<Purse>], a: ActorId) -> Option<&Finished<Purse>>
    ensures { option_copied result ≡ find (λ actor. end_id (end_view purse_at actor.ended) == a) actors.now }
{
    actors.iter().find(|actor| actor.ended.id() == a)
}

/// The purse with which an actor retired.
pub fn purse_left(joined: &Joined<Purse>, a: ActorId) -> Option<&Purse>
    ensures { option_copied result ≡ purse_left a joined.now.actors.items }
{
    let actor = find_actor(&joined.actors, a)?;
    match &actor.ended {
        Ended::Retired(retired) => Some(retired.kind()),
        Ended::Killed(_) | Ended::Starved(_) => None,
    }
}

/// Looks at every end that the callers can come to, and gives events that make or lose money, if any do. If
/// none do, no run in threads makes or loses any.
pub fn find_change(alloc: Global, purses: &Purses, manner: Manner) -> Result<Option<Vec<Event>>>
    ensures { IfOk result (IsAnswer purses.now (plans_of manner)) }
{
    let plans = manner.plans(alloc)?;
    let together = purses.together();
    Ok(always(alloc, PhantomData, purses, plans, MOST_STATES, &together)?)
}

/// Runs the callers in threads, if no run of theirs makes or loses money.
pub fn run_if_kept<R: Threads + Wait + Sync>(
    rt: &R,
    alloc: Global,
    purses: &Purses,
    manner: Manner,
) -> Result<Verdict>
    ensures { IfOk result (IsVerdict purses.now (plans_of manner)) }
{
    if let Some(events) = find_change(alloc, purses, manner)? {
        return Ok(Verdict::Changed(events));
    }
    let casts = purses.open(alloc)?;
    let plans = manner.plans(alloc)?;
    ensure!(plans_fit(&casts, &plans), "the plans don't fit");
    let joined = run_plans(rt, alloc, casts, plans, &NoGate)?;
    Ok(Verdict::Kept(joined))
}
