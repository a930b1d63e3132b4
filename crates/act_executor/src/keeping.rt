//! A whole run of actors that need not keep the calls that they ran.

ghost use Rattle.std.specs.Prelude.{◌≡◌, map, None, IfOk, IfErr};
ghost use Rattle.act_actor.specs.Cast.{IsFitting};
ghost use Rattle.act_actor.specs.Casts.{actor_spec};
ghost use Rattle.act_serve.specs.Served.{end_view};
ghost use Rattle.act_plans.specs.Setups.{PlansFit};
ghost use Rattle.act_plans.specs.Runs.{first_bad_plan};
ghost use Rattle.act_executor.specs.ByCode.{IsJoinedBy, IsPlayedBy};
ghost use Rattle.act_executor.specs.Plays.{IsPlayed};
ghost use Rattle.act_executor.specs.Conducts.{CodesFit};
ghost use Rattle.act_executor.specs.Runs.{plan_view, IsFault};

use crate::joined::Joined;
use crate::run::{RunFault, run_conducts};
use crate::work::ByCode;
use act_actor::{Cast, RunLog};
use act_drive::Code;
use act_kinds::Actor;
use act_mailbox::NoNotes;
use act_plans::Plan;
use act_serve::Gate;
use act_types::CallerId;
use std::alloc::Global;
use std::sync::Wait;
use std::thread::Threads;

/// As `run_callers`, where each actor keeps of the calls that it runs what an `L` keeps: with a `Past` only
/// how many they are. The clauses speak of these calls in either case.
pub fn run_callers_keeping<
    R: Threads + Wait + Sync,
    K: Actor + Send,
    C: Code + Send,
    G: Gate,
    L: RunLog + Send,
>(
    rt: &R,
    alloc: Global,
    casts: Vec<Cast<K>>,
    plans: Vec<(CallerId, Plan)>,
    codes: Vec<(CallerId, C)>,
    gate: &G,
) -> Result<Joined<K, L>, RunFault>
    requires fit { IsFitting casts.items }
    requires plans { PlansFit casts.items plans.items }
    requires codes { CodesFit casts.items plans.items codes.items }
    ensures joined { IfOk result (λ joined.
        IsJoinedBy C.tells (map (actor_spec K.state) casts.items) (map plan_view plans.items) codes.items
        joined.owners.items (map (λ actor. end_view K.state actor.ended) joined.actors.items)) }
    ensures played { IfOk result (λ joined.
        IsPlayed (map (actor_spec K.state) casts.items) joined.owners.items
        (map (λ actor. end_view K.state actor.ended) joined.actors.items)) }
    ensures planned { IfOk result (λ joined.
        IsPlayedBy C.tells (map (actor_spec K.state) casts.items) (map plan_view plans.items) codes.items
        joined.owners.items (map (λ actor. end_view K.state actor.ended) joined.actors.items)) }
    ensures good { IfOk result (λ _.
        first_bad_plan (map (actor_spec K.state) casts.items) (map plan_view plans.items) ≡ None) }
    ensures fault { IfErr result (IsFault (map (actor_spec K.state) casts.items) (map plan_view plans.items)) }
{
    let codes = ByCode { codes };
    let ran = run_conducts::<R, K, ByCode<C>, G, NoNotes, L>(rt, alloc, casts, plans, codes, gate)?;
    let (joined, pages) = ran;
    drop(pages);
    Ok(joined)
}
