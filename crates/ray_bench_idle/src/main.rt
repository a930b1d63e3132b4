//! A run in threads that idles: all callers wait for the first answer of one actor, which waits for a line.
#![tactic(auto)]

mod door;
mod plans;

use act_actor::cast_fits;
use act_executor::{plans_fit, run_plans};
use act_types::{ActorId, CallerId, MAX_ACTORS, MAX_CALLERS};
use anyhow::{Result, ensure};
use door::Door;
use plans::plans_of;
use ray_bench_work::{Reach, Style, Work, are_served, casts_of};

/// Each caller calls the first actor, and then the second.
const CALLS: u32 = 2;

/// As many callers and actors as there may be.
fn work() -> Work {
    Work {
        callers: CallerId::new(MAX_CALLERS).unwrap(),
        actors: ActorId::new(MAX_ACTORS).unwrap(),
        calls: CALLS,
        style: Style::Wait,
        reach: Reach::Both,
    }
}

/// Runs the work once. Where it can't, that is one line on the standard error.
fn main(rt: HostRuntime) -> Result<()> {
    let alloc = rt.alloc();
    let work = work();
    let casts = casts_of(alloc, &work)?;
    let plans = plans_of(alloc, &work)?;
    let fit = cast_fits(casts.as_slice()) && plans_fit(casts.as_slice(), plans.as_slice());
    ensure!(fit, "the casts or the plans don't fit");
    let joined = run_plans(&rt, alloc, casts, plans, &Door { rt: &rt })?;
    ensure!(
        are_served(joined.owners.as_slice(), work.calls),
        "a call has no answer"
    );
    Ok(())
}
