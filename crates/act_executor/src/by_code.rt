//! A whole run where a caller may be code of its own.

ghost use Rattle.std.specs.Prelude.{◌≡◌, map, None, IfOk, IfErr};
ghost use Rattle.act_actor.specs.Cast.{IsFitting};
ghost use Rattle.act_actor.specs.Casts.{actor_spec};
ghost use Rattle.act_serve.specs.Served.{end_view};
ghost use Rattle.act_plans.specs.Setups.{PlansFit};
ghost use Rattle.act_plans.specs.Runs.{first_bad_plan};
ghost use Rattle.act_executor.specs.ByCode.{IsJoinedBy, IsPlayedBy};
ghost use Rattle.act_executor.specs.Plays.{IsPlayed};
ghost use Rattle.act_executor.specs.Conducts.{CodesFit};
ghost use Rattle.act_executor.specs.Runs.{plan_view, IsFault};

use crate::joined::Joined;
use crate::keeping::run_callers_keeping;
use crate::run::RunFault;
use act_actor::{Cast, RunItem};
use act_drive::Code;
use act_kinds::Actor;
use act_plans::Plan;
use act_serve::Gate;
use act_types::CallerId;
use std::alloc::Global;
use std::sync::Wait;
use std::thread::Threads;

/// Runs each actor and each caller in a thread of its own, as `run_plans` does, each caller by its
/// code or by its plan. A caller with neither does nothing. `codes_fit` tells which codes may be
/// given. Where a caller's code gives up the fault is `NoMemory`, as where memory was refused: kills
/// are asked, and all have ended. A code has to come to its end; that a run ends is not promised.
pub fn run_callers<R: Threads + Wait + Sync, K: Actor + Send, C: Code + Send, G: Gate>(
    rt: &R,
    alloc: Global,
    casts: Vec<Cast<K>>,
    plans: Vec<(CallerId, Plan)>,
    codes: Vec<(CallerId, C)>,
    gate: &G,
) -> Result<Joined<K>, RunFault>
    requires fit { IsFitting casts.items }
    requires plans { PlansFit casts.items plans.items }
    requires codes { CodesFit casts.items plans.items codes.items }
    ensures joined { IfOk result (λ joined.
        IsJoinedBy C.tells (map (actor_spec K.state) casts.items) (map plan_view plans.items) codes.items
        joined.owners.items (map (λ actor. end_view K.state actor.ended) joined.actors.items)) }
    ensures played { IfOk result (λ joined.
        IsPlayed (map (actor_spec K.state) casts.items) joined.owners.items
        (map (λ actor. end_view K.state actor.ended) joined.actors.items)) }
    ensures planned { IfOk result (λ joined.
        IsPlayedBy C.tells (map (actor_spec K.state) casts.items) (map plan_view plans.items) codes.items
        joined.owners.items (map (λ actor. end_view K.state actor.ended) joined.actors.items)) }
    ensures good { IfOk result (λ _.
        first_bad_plan (map (actor_spec K.state) casts.items) (map plan_view plans.items) ≡ None) }
    ensures fault { IfErr result (IsFault (map (actor_spec K.state) casts.items) (map plan_view plans.items)) }
{
    run_callers_keeping::<R, K, C, G, Vec<RunItem>>(rt, alloc, casts, plans, codes, gate)
}
