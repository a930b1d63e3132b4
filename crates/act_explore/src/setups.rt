//! The parts of the callers, as plays of their plans take them.

ghost use Rattle.std.specs.Prelude.{◌≡◌, map, None, IfOk, IfErr};
ghost use Rattle.act_plans.specs.Runs.{plan_of, first_bad_plan};
ghost use Rattle.act_plan_plays.specs.Play.{HoldPlans};
ghost use Rattle.act_executor.specs.Runs.{plan_view};
ghost use Rattle.act_thread_ends.specs.ThreadEnds.{AreOfARun};
ghost use Rattle.act_explore.specs.Plans.{AreSuited};
ghost use Rattle.act_explore.specs.Faults.{IsFault};

use crate::fault::ExploreFault;
use crate::opening::Opening;
use act_kinds::Actor;
use act_plans::{CallerSetup, Plan, first_bad_setup, plans_fit, prepare};
use act_types::CallerId;
use std::alloc::Global;

/// The parts of the callers, where the plans suit the casts and no step would be refused.
pub(crate) fn setups_of<K: Actor, O: Opening<K>>(
    alloc: Global,
    opening: &O,
    plans: Vec<(CallerId, Plan)>,
) -> Result<Vec<CallerSetup>, ExploreFault>
    ensures hold { IfOk result (λ setups.
        HoldPlans (O.casts opening.now) (λ c. plan_of c (map plan_view plans.items)) setups.items) }
    ensures run { IfOk result (λ _. AreOfARun (O.casts opening.now) (map plan_view plans.items)) }
    ensures suited { IfOk result (λ _. AreSuited (O.casts opening.now) plans.items) }
    ensures good { IfOk result (λ _. first_bad_plan (O.casts opening.now) (map plan_view plans.items) ≡ None) }
    ensures fault { IfErr result (IsFault (O.casts opening.now) plans.items) }
{
    let casts = opening.open(alloc)?;
    if !plans_fit(casts.as_slice(), plans.as_slice()) {
        drop(casts);
        drop(plans);
        return Err(ExploreFault::Unfit);
    }
    let prepared = prepare(alloc, casts, plans)?;
    if let Some(bad) = first_bad_setup(alloc, prepared.setups.as_slice())? {
        drop(prepared);
        return Err(ExploreFault::BadPlan(bad.0, bad.1));
    }
    Ok(prepared.setups)
}
