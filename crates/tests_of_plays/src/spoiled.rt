//! Events written by hand, beside what a run left.

use super::scene::{Ids, Row, counters, few_ids, pair, plans_of};
use act_actor::cast_fits;
use act_executor::{Joined, NoGate, RunFault, plans_fit, run_plans};
use act_kinds::{Boxed, Counter};
use act_replay::is_play_of;
use act_types::{CallerId, FutureId, ListOf, Method, NoMemory};
use act_world::Event;
use std::alloc::Global;
use std::process::Abort;
use std::sync::Wait;
use std::test::Fail;
use std::thread::Threads;

/// Both callers ask the first counter, which answers 0 to each, in one order or the other.
fn both_ask<R: Threads + Wait + Sync>(rt: &R, alloc: Global) -> Result<Joined<Counter>, RunFault> {
    let Ids { a1, .. } = few_ids();
    let casts = counters(alloc, None)?;
    let plans = plans_of(alloc, &[Row::Get(a1)], &[Row::Get(a1)])?;
    if cast_fits(casts.as_slice()) && plans_fit(casts.as_slice(), plans.as_slice()) {
        run_plans(rt, alloc, casts, plans, &NoGate)
    } else {
        Err(RunFault::TooMany)
    }
}

/// Both callers ask, and their letters are brought.
fn asked(alloc: Global) -> Result<Vec<Event>, NoMemory> {
    let Ids { c1, c2, a1, .. } = few_ids();
    let k0 = FutureId::new(0);
    let events = vec![in alloc;
        Event::Submit(c1, a1, Method::Get, ListOf::new(alloc)),
        Event::Submit(c2, a1, Method::Get, ListOf::new(alloc)),
        Event::Send(c1, k0),
        Event::Send(c2, k0),
        Event::Deliver(0),
        Event::Deliver(1),
    ]?;
    Ok(events)
}

/// Each caller lets both handles go, and both counters retire.
fn push_ends(events: &mut Vec<Event>) -> Result<(), NoMemory> {
    let Ids { c1, c2, a1, a2 } = few_ids();
    for actor in [a1, a2] {
        events.push(Event::Release(c1, actor))?;
        events.push(Event::Release(c2, actor))?;
    }
    for letter in 2..6u32 {
        events.push(Event::Deliver(letter))?;
    }
    events.push(Event::Retire(a1))?;
    events.push(Event::Retire(a2))?;
    Ok(())
}

/// A play in which the callers' calls run in this order, and so many answers are collected.
fn play(alloc: Global, order: [CallerId; 2], answers: u32) -> Result<Vec<Event>, NoMemory> {
    let Ids { a1, .. } = few_ids();
    let mut events = asked(alloc)?;
    for caller in order {
        events.push(Event::Run(a1, caller))?;
    }
    for notice in 0..answers {
        events.push(Event::Collect(notice))?;
    }
    push_ends(&mut events)?;
    Ok(events)
}

/// Whether the events are a play of what was joined.
fn fits(alloc: Global, events: &[Event], joined: &Joined<Counter>) -> Result<bool, NoMemory> {
    let first: Boxed = Box::new(alloc, Counter::open())?;
    let second: Boxed = Box::new(alloc, Counter::open())?;
    let twins = pair(alloc, first, second, None)?;
    if cast_fits(twins.as_slice()) && events.len() < 100 {
        is_play_of(alloc, twins, events, &joined.owners, &joined.actors)
    } else {
        Err(NoMemory)
    }
}

/// Whether the play in this order, with so many answers collected, is one of what was joined.
fn fits_in(
    alloc: Global,
    joined: &Joined<Counter>,
    order: [CallerId; 2],
    answers: u32,
) -> Result<bool, NoMemory> {
    let events = play(alloc, order, answers)?;
    let fits = fits(alloc, &events, joined);
    drop(events);
    fits
}

/// All answers are 0, so the two orders differ in the run list alone.
#[test]
fn one_call_out_of_order(rt: HostRuntime) -> Result<(), Fail> {
    let alloc = rt.alloc();
    let Ids { c1, c2, .. } = few_ids();
    let joined = both_ask(&rt, alloc)?;
    let one = fits_in(alloc, &joined, [c1, c2], 2);
    let other = fits_in(alloc, &joined, [c2, c1], 2);
    drop(joined);
    assert!(rt; one? != other?);
    Ok(())
}

#[test]
fn an_answer_short(rt: HostRuntime) -> Result<(), Fail> {
    let alloc = rt.alloc();
    let Ids { c1, c2, .. } = few_ids();
    let joined = both_ask(&rt, alloc)?;
    let one = fits_in(alloc, &joined, [c1, c2], 1);
    let other = fits_in(alloc, &joined, [c2, c1], 1);
    drop(joined);
    assert!(rt; !one?);
    assert!(rt; !other?);
    Ok(())
}

/// In neither order a counter that retired can retire once more.
fn assert_retired(
    rt: &impl Abort,
    alloc: Global,
    joined: &Joined<Counter>,
) -> Result<(), NoMemory> {
    let Ids { c1, c2, a1, .. } = few_ids();
    for order in [[c1, c2], [c2, c1]] {
        let mut events = play(alloc, order, 2)?;
        events.push(Event::Retire(a1))?;
        assert!(rt; !fits(alloc, &events, joined)?);
    }
    Ok(())
}

/// A retired counter can't retire once more.
#[test]
fn one_event_refused(rt: HostRuntime) -> Result<(), Fail> {
    let alloc = rt.alloc();
    let joined = both_ask(&rt, alloc)?;
    let done = assert_retired(&rt, alloc, &joined);
    drop(joined);
    done?;
    Ok(())
}
