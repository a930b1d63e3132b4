//! The plans that are run.

ghost use Rattle.std.specs.Prelude.{◌≡◌, IfOk, map};
ghost use Rattle.act_rules.specs.Report.{one_to};
ghost use Rattle.act_executor.specs.Runs.{plan_view};
ghost use Rattle.ray_bench.specs.Plans.{bench_part, bench_plan};

use act_executor::Plan;
use act_rules::Step;
use act_types::{CallerId, FutureId, Method, NoMemory};
use ray_bench_work::{Style, Work, one_more};
use std::alloc::Global;

/// The steps of a caller.
fn plan_of(alloc: Global, work: &Work, caller: CallerId) -> Result<Plan, NoMemory>
    ensures { IfOk result (λ plan. plan.items ≡ bench_plan work.now caller) }
{
    let mut plan = Vec::new(alloc);
    for place in 0..work.calls {
        plan.push(Step::Submit(work.actor_at(caller, place), Method::Add, one_more(alloc)?))?;
        if work.style == Style::Wait {
            plan.push(Step::Await(FutureId::new(place)))?;
        }
    }
    Ok(plan)
}

/// The steps of each caller.
pub(crate) fn plans_of(alloc: Global, work: &Work) -> Result<Vec<(CallerId, Plan)>, NoMemory>
    ensures { IfOk result (λ plans. map plan_view plans.items ≡ map (bench_part work.now) (one_to work.now.callers)) }
{
    let mut plans = Vec::new(alloc);
    for before in 0..work.callers.number() {
        let caller = CallerId::new(before + 1).unwrap();
        plans.push((caller, plan_of(alloc, work, caller)?))?;
    }
    Ok(plans)
}
