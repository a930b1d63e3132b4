//! Casts, plans and reports.

use act_actor::{Cast, cast_fits};
use act_console::joined_report;
use act_executor::{Code, Joined, NoGate, Plan, codes_fit, plans_fit, run_callers};
use act_kinds::{Actor, Boxed};
use act_rules::Step;
use act_short::args_of;
use act_types::{ActorId, CallerId, ListOf, Method, NoMemory};
use std::alloc::Global;
use std::process::Abort;
use std::sync::Wait;
use std::test::Fail;
use std::thread::Threads;

pub fn actor(number: u8) -> ActorId {
    ActorId::new(number).unwrap_or(ActorId::new(1).unwrap())
}

pub fn caller(number: u8) -> CallerId {
    CallerId::new(number).unwrap_or(CallerId::new(1).unwrap())
}

/// An actor that these callers may call.
pub fn cast_of<K: Drop>(
    alloc: Global,
    number: u8,
    callers: &[u8],
    kind: K,
) -> Result<Cast<K>, NoMemory> {
    let mut names = ListOf::new(alloc);
    for name in callers {
        names.push(caller(*name))?;
    }
    Ok(Cast {
        actor: actor(number),
        callers: names,
        kind,
        pending: None,
    })
}

/// Actors 1 and 2, which these callers may call.
pub fn two_casts<K: Drop>(
    alloc: Global,
    callers: &[u8],
    one: K,
    two: K,
) -> Result<Vec<Cast<K>>, NoMemory> {
    let mut casts = Vec::new(alloc);
    casts.push(cast_of(alloc, 1, callers, one)?)?;
    casts.push(cast_of(alloc, 2, callers, two)?)?;
    Ok(casts)
}

/// A call with one number.
pub fn call_of(alloc: Global, actor: ActorId, method: Method, n: i64) -> Result<Step, NoMemory> {
    Ok(Step::Submit(actor, method, args_of(alloc, &[n])?))
}

/// The plan of a caller that makes these calls of actor 1.
pub fn plan_of(
    alloc: Global,
    number: u8,
    method: Method,
    numbers: &[i64],
) -> Result<Vec<(CallerId, Plan)>, NoMemory> {
    let mut plan = Vec::new(alloc);
    for n in numbers {
        plan.push(call_of(alloc, actor(1), method, *n)?)?;
    }
    let mut plans = Vec::new(alloc);
    plans.push((caller(number), plan))?;
    Ok(plans)
}

/// What threads left, as a report.
pub fn report_of(alloc: Global, joined: &Joined<Boxed>) -> Result<String, NoMemory> {
    let mut text = String::new(alloc);
    joined_report(alloc, joined, &mut text)?;
    Ok(text)
}

/// The report of a run of caller 1, which goes by this code.
pub fn alone<R: Abort + Threads + Wait + Sync, C: Code + Send>(
    rt: &R,
    alloc: Global,
    casts: Vec<Cast<Boxed>>,
    code: C,
) -> Result<String, Fail> {
    let plans = Vec::new(alloc);
    let mut codes = Vec::new(alloc);
    codes.push((caller(1), code))?;
    assert!(rt; cast_fits(&casts));
    assert!(rt; plans_fit(&casts, &plans));
    assert!(rt; codes_fit(&casts, &plans, &codes));
    let joined = run_callers(rt, alloc, casts, plans, codes, &NoGate)?;
    let report = report_of(alloc, &joined);
    drop(joined);
    Ok(report?)
}

/// Whether a report has both lines of one of these ends.
pub fn ends_as(report: &str, ends: &[(&str, &str)]) -> bool {
    for end in ends {
        if report.contains(end.0) && report.contains(end.1) {
            return true;
        }
    }
    false
}
