//! Two callers add to one counter, each in a thread of its own, and a gate prints each run.
#![tactic(auto)]

use actors::{
    ActorId, CallerId, Counter, Ended, Gate, Method, Plan, Step, args_of, cast_fits, casts_of_one,
    plans_fit, run_plans,
};
use anyhow::{Result, ensure};
use std::alloc::Global;

/// Prints each run before it comes.
#[derive(Clone, Copy)]
struct Trace<'a, R> {
    rt: &'a R,
}

impl<'a, R: Print + Sync> Gate for Trace<'a, R> {
    fn pass(&self, actor: ActorId, place: u32) {
        // A gate can't end a run, so a line that can't be written is left out.
        let _ = println!(self.rt; "{actor} runs the call of place {place}");
    }
}

/// A plan of one call, which adds a number.
fn plan_of_add(alloc: Global, actor: ActorId, number: i64) -> Result<Plan> {
    let args = args_of(alloc, &[number])?;
    Ok(vec![in alloc; Step::Submit(actor, Method::Add, args)]?)
}

fn main(rt: HostRuntime) -> Result<()> {
    let alloc = rt.alloc();
    let a1 = ActorId::new(1).unwrap();
    let c1 = CallerId::new(1).unwrap();
    let c2 = CallerId::new(2).unwrap();

    let casts = casts_of_one(alloc, a1, &[c1, c2], Counter::open(), Some(2))?;
    let plans = vec![in alloc;
        (c1, plan_of_add(alloc, a1, 5)?),
        (c2, plan_of_add(alloc, a1, 7)?),
    ]?;
    let fit = cast_fits(&casts) && plans_fit(&casts, &plans);
    ensure!(fit, "the casts or the plans don't fit");

    let joined = run_plans(&rt, alloc, casts, plans, &Trace { rt: &rt })?;
    for actor in &joined.actors {
        if let Ended::Retired(retired) = &actor.ended {
            let name = retired.id();
            let counter = retired.kind();
            println!(rt; "{name} retired {counter}")?;
        }
    }
    Ok(())
}
