//! One run, and how long it took.

ghost use Rattle.std.specs.Prelude.{◌≡◌, IfOk, map, []};
ghost use Rattle.act_actor.specs.Cast.{IsFitting};
ghost use Rattle.act_actor.specs.Casts.{actor_spec};
ghost use Rattle.act_serve.specs.Served.{end_view};
ghost use Rattle.act_executor.specs.ByCode.{IsJoinedBy};
ghost use Rattle.act_plans.specs.Setups.{PlansFit};
ghost use Rattle.act_executor.specs.Conducts.{CodesFit};
ghost use Rattle.act_executor.specs.Runs.{plan_view};

use crate::adder::adders_of;
use act_actor::{Cast, cast_fits};
use act_executor::{Code, Joined, NoGate, Plan, codes_fit, plans_fit, run_callers};
use act_kinds::Actor;
use act_types::CallerId;
use ray_bench_work::{Stop, Work, are_served, casts_of};
use std::alloc::Global;
use std::rt::Clock;
use std::sync::Wait;
use std::thread::Threads;
use std::time::Instant;

/// What a run left, and how many microseconds it took.
#[derive(Drop)]
struct Measured<K> {
    joined: Joined<K>,
    micros: u64,
}

/// Runs the codes, and measures that alone.
fn run_measured<R: Clock + Threads + Wait + Sync, K: Actor + Send, C: Code + Send>(
    rt: &R,
    alloc: Global,
    casts: Vec<Cast<K>>,
    plans: Vec<(CallerId, Plan)>,
    codes: Vec<(CallerId, C)>,
) -> Result<Measured<K>, Stop>
    requires fit { IsFitting casts.items }
    requires plans { PlansFit casts.items plans.items }
    requires codes { CodesFit casts.items plans.items codes.items }
    ensures { IfOk result (λ measured.
        IsJoinedBy C.tells (map (actor_spec K.state) casts.items) (map plan_view plans.items) codes.items
        measured.joined.owners.items (map (λ actor. end_view K.state actor.ended) measured.joined.actors.items)) }
{
    let begin = Instant::now(rt)?;
    let joined = run_callers(rt, alloc, casts, plans, codes, &NoGate)?;
    let took = begin.elapsed(rt)?;
    let micros = u64::try_from(took.as_micros()).unwrap_or(u64::MAX);
    Ok(Measured { joined, micros })
}

/// Runs the work once, and tells how many microseconds the run took. Casts and codes are made before
/// it, and what it left is looked at after.
pub(crate) fn take_turn<R: Clock + Threads + Wait + Sync>(
    rt: &R,
    alloc: Global,
    work: &Work,
) -> Result<u64, Stop> {
    let casts = casts_of(alloc, work)?;
    let plans = Vec::new(alloc);
    let codes = adders_of(alloc, work)?;
    if !cast_fits(casts.as_slice())
        || !plans_fit(casts.as_slice(), plans.as_slice())
        || !codes_fit(casts.as_slice(), plans.as_slice(), codes.as_slice())
    {
        return Err(Stop::BadPlan);
    }
    let Measured { joined, micros } = run_measured(rt, alloc, casts, plans, codes)?;
    if !are_served(joined.owners.as_slice(), work.calls) {
        return Err(Stop::Unanswered);
    }
    Ok(micros)
}
