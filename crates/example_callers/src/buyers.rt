//! A run of buyers, beside callers with plans.

ghost use Rattle.std.specs.Prelude.{map, All, IfErr, IfOk};
ghost use Rattle.actors.specs.Actors.{IsFitting, actor_spec};
ghost use Rattle.actors.specs.Threads.{end_view, PlansFit, plan_view, IsFault};
ghost use Rattle.actors.specs.Codes.{IsJoinedBy, CodesFit};
ghost use Rattle.example_callers.specs.Buyer.{buyer_tells};
ghost use Rattle.example_callers.specs.Buyers.{HasLeft};

use crate::buyer::Buyer;
use actors::{Actor, CallerId, Cast, Joined, NoGate, Plan, RunFault, run_callers};
use std::alloc::Global;
use std::sync::Wait;
use std::thread::Threads;

/// Runs buyers. Whatever else is done with purses and shops, each of them ordered only what it paid for.
pub fn run_buyers<R: Threads + Wait + Sync, K: Actor + Send>(
    rt: &R,
    alloc: Global,
    casts: Vec<Cast<K>>,
    plans: Vec<(CallerId, Plan)>,
    buyers: Vec<(CallerId, Buyer)>,
) -> Result<Joined<K>, RunFault>
    requires casts { IsFitting casts.items }
    requires plans { PlansFit casts.items plans.items }
    requires codes { CodesFit casts.items plans.items buyers.items }
    ensures joined { IfOk result (λ joined.
        IsJoinedBy buyer_tells (map (actor_spec K.state) casts.items) (map plan_view plans.items) buyers.items
        joined.owners.items (map (λ actor. end_view K.state actor.ended) joined.actors.items)) }
    ensures paid { IfOk result (λ joined. All (HasLeft joined.owners.items) buyers.items) }
    ensures fault { IfErr result (IsFault (map (actor_spec K.state) casts.items) (map plan_view plans.items)) }
{
    let joined = run_callers(rt, alloc, casts, plans, buyers, &NoGate)?;
    Ok(joined)
}
