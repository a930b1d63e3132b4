//! Callers of different code in one run, at a queue, a counter and an account.

use crate::callers_scene::{actor, caller, cast_of, ends_as, plan_of, report_of};
use act_actor::{Cast, cast_fits};
use act_executor::{codes_fit, plans_fit};
use act_kinds::{Account, Boxed, Counter};
use act_types::{CallerId, Method, Name, NoMemory};
use example_callers::{Clerk, Retry, Worker, run_clerks};
use example_kinds::WorkQueue;
use std::alloc::Global;
use std::test::Fail;

fn three_actors(alloc: Global) -> Result<Vec<Cast<Boxed>>, NoMemory> {
    let queue: Boxed = Box::new(alloc, WorkQueue::open(alloc))?;
    let counter: Boxed = Box::new(alloc, Counter::open())?;
    let account: Boxed = Box::new(alloc, Account::open())?;
    let mut casts = Vec::new(alloc);
    casts.push(cast_of(alloc, 1, &[1, 3], queue)?)?;
    casts.push(cast_of(alloc, 2, &[1], counter)?)?;
    casts.push(cast_of(alloc, 3, &[2], account)?)?;
    Ok(casts)
}

/// A worker at the queue, and a caller that tries to withdraw twice.
fn two_clerks(alloc: Global) -> Result<Vec<(CallerId, Clerk)>, NoMemory> {
    let worker = Worker {
        queue: actor(1),
        counter: actor(2),
    };
    let retry = Retry {
        account: actor(3),
        amount: 1,
        most: 2,
    };
    let mut clerks = Vec::new(alloc);
    clerks.push((caller(1), Clerk::Worker(worker)))?;
    clerks.push((caller(2), Clerk::Retry(retry)))?;
    Ok(clerks)
}

/// What waits in the queue, and how many jobs were taken.
const ENDS: [(&str, &str); 3] = [
    ("a1 retired queue 7 8\n", "a2 retired counter 0\n"),
    ("a1 retired queue 8\n", "a2 retired counter 1\n"),
    ("a1 retired queue\n", "a2 retired counter 2\n"),
];

/// Two jobs are put by a plan meanwhile: each is taken and counted, or waits.
#[test]
fn different_code_in_one_run(rt: HostRuntime) -> Result<(), Fail> {
    let alloc = rt.alloc();
    let casts = three_actors(alloc)?;
    let plans = plan_of(
        alloc,
        3,
        Method::Own(Name::new("enqueue").unwrap()),
        &[7, 8],
    )?;
    let clerks = two_clerks(alloc)?;
    assert!(rt; cast_fits(&casts));
    assert!(rt; plans_fit(&casts, &plans));
    assert!(rt; codes_fit(&casts, &plans, &clerks));
    let joined = run_clerks(&rt, alloc, casts, plans, clerks)?;
    let report = report_of(alloc, &joined);
    drop(joined);
    let report = report?;
    assert!(rt; ends_as(report.as_str(), &ENDS));
    assert!(rt;
        report
            .as_str()
            .contains("c2.0 a3 = Insufficient\nc2.1 a3 = Insufficient\n")
    );
    assert!(rt; report.as_str().contains("a3 retired account 0\n"));
    Ok(())
}
