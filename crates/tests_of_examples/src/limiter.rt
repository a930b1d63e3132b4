//! A rate limiter beside a counter: never more than two grants between two resets.

use crate::scene::{Call, Given, casts_of, plans_of, played, summary_of, threaded};
use act_actor::cast_fits;
use act_executor::plans_fit;
use act_kinds::{Boxed, Counter};
use act_types::{Method, NoMemory};
use act_world::Cast;
use example_kinds::{Limiter, run_limiters};
use std::alloc::Global;
use std::test::Fail;

/// A limiter with two grants, and a counter.
fn limiter_and_counter(alloc: Global) -> Result<Vec<Cast<Boxed>>, NoMemory> {
    let own: Boxed = Box::new(alloc, Limiter::open(2))?;
    let known: Boxed = Box::new(alloc, Counter::open())?;
    casts_of(alloc, own, known)
}

const CALLS: [Call; 10] = [
    Call::Own(1, "acquire", Given::Nothing),
    Call::Own(1, "acquire", Given::Nothing),
    Call::Own(1, "acquire", Given::Nothing),
    Call::Own(1, "left", Given::Nothing),
    Call::Known(2, Method::Add, Given::Answer(1)),
    Call::Own(1, "reset", Given::Nothing),
    Call::Own(1, "reset", Given::Int(1)),
    Call::Known(1, Method::Get, Given::Nothing),
    Call::Own(1, "acquire", Given::Nothing),
    Call::Own(1, "left", Given::Nothing),
];

const ANSWERS: &str = "c1.0 a1 = 1\nc1.1 a1 = 0\nc1.2 a1 = RateLimited\nc1.3 a1 = 0\nc1.4 a2 = 0\n\
    c1.5 a1 = unit\nc1.6 a1 = BadArgs\nc1.7 a1 = NoMethod\nc1.8 a1 = 1\nc1.9 a1 = 1\n";

const RUNS: &str = "a1.0 c1.0 acquire\na1.1 c1.1 acquire\na1.2 c1.2 acquire\na1.3 c1.3 left\n\
    a1.4 c1.5 reset\na1.5 c1.6 reset 1\na1.6 c1.7 get\na1.7 c1.8 acquire\na1.8 c1.9 left\n";

#[test]
fn played_beside_a_known_kind(rt: HostRuntime) -> Result<(), Fail> {
    let alloc = rt.alloc();
    let report = played(&rt, alloc, limiter_and_counter(alloc)?, &CALLS)?;
    let wanted = format!(in alloc;
        "{ANSWERS}a1 live limiter 1 of 2\n{RUNS}a2 live counter 0\na2.0 c1.4 add 0\n"
    )?;
    assert_eq!(rt; report.as_str(), wanted.as_str());
    Ok(())
}

#[test]
fn in_threads_beside_a_known_kind(rt: HostRuntime) -> Result<(), Fail> {
    let alloc = rt.alloc();
    let report = threaded(&rt, alloc, limiter_and_counter(alloc)?, &CALLS)?;
    let wanted = format!(in alloc;
        "{ANSWERS}a1 retired limiter 1 of 2\n{RUNS}a2 retired counter 0\na2.0 c1.4 add 0\n"
    )?;
    assert_eq!(rt; report.as_str(), wanted.as_str());
    Ok(())
}

/// The same run once more, of which the limiter's rate is said.
#[test]
fn run_of_limiters(rt: HostRuntime) -> Result<(), Fail> {
    let alloc = rt.alloc();
    let casts = limiter_and_counter(alloc)?;
    let plans = plans_of(&rt, alloc, &CALLS)?;
    assert!(rt; cast_fits(&casts));
    assert!(rt; plans_fit(&casts, &plans));
    let joined = run_limiters(&rt, alloc, casts, plans)?;
    let report = summary_of(alloc, joined)?;
    let wanted = format!(in alloc;
        "{ANSWERS}a1 retired limiter 1 of 2\n{RUNS}a2 retired counter 0\na2.0 c1.4 add 0\n"
    )?;
    assert_eq!(rt; report.as_str(), wanted.as_str());
    Ok(())
}
