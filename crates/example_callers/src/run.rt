//! Runs of such callers: what each of them tells of its owner, and what the accounts and queues hold.

ghost use Rattle.std.specs.Prelude.{◌≡◌, [], ℕ, map, All, IfErr, IfOk};
ghost use Rattle.actors.specs.Actors.{IsFitting, actor_spec};
ghost use Rattle.actors.specs.Threads.{end_view, PlansFit, end_of, plan_view, IsFault};
ghost use Rattle.actors.specs.Codes.{IsJoinedBy, CodesFit};
ghost use Rattle.actors.specs.Kinds.{EndKeeps, OpensAt};
ghost use Rattle.example_kinds.specs.Queue.{IsInOrder, queue_at, queue_step, queue_text};
ghost use Rattle.example_callers.specs.Clerk.{clerk_tells};
ghost use Rattle.example_callers.specs.Runs.{HasTransferred, AreBalanced, KeepsTheSum};
ghost use Rattle.example_callers.specs.Transfer.{transfer_tells};

use crate::clerk::Clerk;
use crate::transfer::Transfer;
use actors::{Actor, CallerId, Cast, Joined, NoGate, Plan, RunFault, run_callers};
use std::alloc::Global;
use std::sync::Wait;
use std::thread::Threads;

/// Runs transfers, one a caller, and plans of other callers. Whatever the schedule, money is neither made
/// nor lost: an account that retired holds what it opened with and what all put in, less what they took out.
pub fn run_transfers<R: Threads + Wait + Sync, K: Actor + Send>(
    rt: &R,
    alloc: Global,
    casts: Vec<Cast<K>>,
    plans: Vec<(CallerId, Plan)>,
    transfers: Vec<(CallerId, Transfer)>,
) -> Result<Joined<K>, RunFault>
    requires fit { IsFitting casts.items }
    requires plans { PlansFit casts.items plans.items }
    requires codes { CodesFit casts.items plans.items transfers.items }
    ensures joined { IfOk result (λ joined.
        IsJoinedBy transfer_tells (map (actor_spec K.state) casts.items) (map plan_view plans.items) transfers.items
        joined.owners.items (map (λ actor. end_view K.state actor.ended) joined.actors.items)) }
    ensures guarded { IfOk result (λ joined. All (HasTransferred joined.owners.items) transfers.items) }
    ensures kept { IfOk result (λ joined. AreBalanced (map (actor_spec K.state) casts.items) joined.owners.items
        (map (λ actor. end_view K.state actor.ended) joined.actors.items)) }
    ensures sum { IfOk result (λ joined. KeepsTheSum (map (actor_spec K.state) casts.items) joined.owners.items
        (map (λ actor. end_view K.state actor.ended) joined.actors.items)) }
    ensures fault { IfErr result (IsFault (map (actor_spec K.state) casts.items) (map plan_view plans.items)) }
{
    let joined = run_callers(rt, alloc, casts, plans, transfers, &NoGate)?;
    Ok(joined)
}

/// Runs callers of different code, and plans of others. Accounts keep their money. What is taken out of a
/// queue that opened empty, and then what waits there, is what was put in, in order.
pub fn run_clerks<R: Threads + Wait + Sync, K: Actor + Send>(
    rt: &R,
    alloc: Global,
    casts: Vec<Cast<K>>,
    plans: Vec<(CallerId, Plan)>,
    clerks: Vec<(CallerId, Clerk)>,
) -> Result<Joined<K>, RunFault>
    requires fit { IsFitting casts.items }
    requires plans { PlansFit casts.items plans.items }
    requires codes { CodesFit casts.items plans.items clerks.items }
    ensures joined { IfOk result (λ joined.
        IsJoinedBy clerk_tells (map (actor_spec K.state) casts.items) (map plan_view plans.items) clerks.items
        joined.owners.items (map (λ actor. end_view K.state actor.ended) joined.actors.items)) }
    ensures kept { IfOk result (λ joined. AreBalanced (map (actor_spec K.state) casts.items) joined.owners.items
        (map (λ actor. end_view K.state actor.ended) joined.actors.items)) }
    ensures order { IfOk result (λ joined. (a : ℕ) →
        OpensAt queue_step queue_text (map (actor_spec K.state) casts.items) a [] →
        EndKeeps queue_step queue_text IsInOrder (queue_at [])
        (end_of a (map (λ actor. end_view K.state actor.ended) joined.actors.items))) }
    ensures fault { IfErr result (IsFault (map (actor_spec K.state) casts.items) (map plan_view plans.items)) }
{
    let joined = run_callers(rt, alloc, casts, plans, clerks, &NoGate)?;
    Ok(joined)
}
