//! Every end of plans that are small enough to be counted by hand.
//!
//! Two callers that add one each run in 2 orders. A caller that adds one and asks for the kill comes to 3 ends: the
//! actor takes the kill before the call, after it, or never.

use crate::opened::{Counters, adding, with_text};
use act_explore::{ExploreFault, always, explore};
use act_plans::Plan;
use act_rules::Step;
use act_types::{ActorId, CallerId, FutureId, Method, NoMemory};
use std::alloc::Global;
use std::marker::PhantomData;
use std::test::Fail;

fn caller(number: u8) -> CallerId {
    CallerId::new(number).unwrap_or(CallerId::new(1).unwrap())
}

/// The call that adds one.
fn add_one(alloc: Global) -> Result<Step, NoMemory> {
    let a1 = ActorId::new(1).unwrap();
    Ok(Step::Submit(a1, Method::Add, adding(alloc, 1)?))
}

/// Two callers that add one each.
fn two_adds(alloc: Global) -> Result<Vec<(CallerId, Plan)>, NoMemory> {
    let one = vec![in alloc; add_one(alloc)?]?;
    let other = vec![in alloc; add_one(alloc)?]?;
    Ok(vec![in alloc; (caller(1), one), (caller(2), other)]?)
}

/// A caller with these steps alone.
fn alone(alloc: Global, number: u8, step: Step) -> Result<Vec<(CallerId, Plan)>, NoMemory> {
    let plan = vec![in alloc; step]?;
    Ok(vec![in alloc; (caller(number), plan)]?)
}

#[test]
fn each_order_is_an_end(rt: HostRuntime) -> Result<(), Fail> {
    let alloc = rt.alloc();
    let ends = explore(alloc, PhantomData, &Counters, two_adds(alloc)?, 100)?;
    assert!(rt; ends.whole);
    assert_eq!(rt; ends.found.len(), 2);
    Ok(())
}

#[test]
fn a_kill_comes_before_after_or_never(rt: HostRuntime) -> Result<(), Fail> {
    let alloc = rt.alloc();
    let kill = Step::Kill(ActorId::new(1).unwrap());
    let plan = vec![in alloc; add_one(alloc)?, kill]?;
    let plans = vec![in alloc; (caller(1), plan)]?;
    let ends = explore(alloc, PhantomData, &Counters, plans, 100)?;
    assert!(rt; ends.whole);
    assert_eq!(rt; ends.found.len(), 3);
    Ok(())
}

#[test]
fn too_few_states_are_a_part(rt: HostRuntime) -> Result<(), Fail> {
    let alloc = rt.alloc();
    let ends = explore(alloc, PhantomData, &Counters, two_adds(alloc)?, 1)?;
    assert!(rt; !ends.whole);
    assert_eq!(rt; ends.found.len(), 0);
    Ok(())
}

#[test]
fn an_answer_holds_at_each_end_or_a_play_is_given(rt: HostRuntime) -> Result<(), Fail> {
    let alloc = rt.alloc();
    let two = with_text(alloc, "counter 2");
    let held = always(alloc, PhantomData, &Counters, two_adds(alloc)?, 100, &two)?;
    assert!(rt; held.is_none());
    let three = with_text(alloc, "counter 3");
    let broken = always(alloc, PhantomData, &Counters, two_adds(alloc)?, 100, &three)?;
    assert!(rt; broken.is_some());
    Ok(())
}

#[test]
fn plans_are_looked_at_first(rt: HostRuntime) -> Result<(), Fail> {
    let alloc = rt.alloc();
    let stranger = alone(alloc, 3, add_one(alloc)?)?;
    let unfit = explore(alloc, PhantomData, &Counters, stranger, 100);
    assert!(rt; matches!(unfit, Err(ExploreFault::Unfit)));
    let early = alone(alloc, 2, Step::Await(FutureId::new(0)))?;
    let bad = explore(alloc, PhantomData, &Counters, early, 100);
    assert!(rt; matches!(bad, Err(ExploreFault::BadPlan(_, 0))));
    Ok(())
}
