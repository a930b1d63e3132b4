//! The plans that are run.

use act_executor::Plan;
use act_rules::Step;
use act_types::{CallerId, FutureId, Method, NoMemory};
use ray_bench_work::{Work, one_more};
use std::alloc::Global;

/// The steps of a caller: it awaits each call.
fn plan_of(alloc: Global, work: &Work, caller: CallerId) -> Result<Plan, NoMemory> {
    let mut plan = Vec::new(alloc);
    for place in 0..work.calls {
        plan.push(Step::Submit(work.actor_at(caller, place), Method::Add, one_more(alloc)?))?;
        plan.push(Step::Await(FutureId::new(place)))?;
    }
    Ok(plan)
}

/// The steps of each caller.
pub(crate) fn plans_of(alloc: Global, work: &Work) -> Result<Vec<(CallerId, Plan)>, NoMemory> {
    let mut plans = Vec::new(alloc);
    for before in 0..work.callers.number() {
        let caller = CallerId::new(before + 1).unwrap();
        plans.push((caller, plan_of(alloc, work, caller)?))?;
    }
    Ok(plans)
}
