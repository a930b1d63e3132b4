//! Runs of several shapes, each of which is found to be a play.

use super::scene::{Ids, Row, few_ids, is_found, recorded};
use act_executor::RunFault;
use std::alloc::Global;
use std::sync::Wait;
use std::test::Fail;
use std::thread::Threads;

/// One caller passes answers on between both counters, and the other adds to both. Whether a play is found.
fn answers_passed_on<R: Threads + Wait + Sync>(
    rt: &R,
    alloc: Global,
    pending: Option<u32>,
) -> Result<bool, RunFault> {
    let Ids { a1, a2, .. } = few_ids();
    let one = [
        Row::Add(a1, 1),
        Row::AddAnswer(a2, 0),
        Row::Await(1),
        Row::AddAnswer(a1, 1),
        Row::Get(a2),
    ];
    let two = [Row::Add(a2, 5), Row::AddAnswer(a1, 0), Row::Get(a1)];
    is_found(recorded(rt, alloc, pending, &one, &two))
}

/// Memory and threads are refused from outside, at most once.
#[test]
fn answers_passed_on_once(rt: HostRuntime) -> Result<(), Fail> {
    assert!(rt; answers_passed_on(&rt, rt.alloc(), None)?);
    Ok(())
}

#[test]
fn answers_in_every_schedule(rt: HostRuntime) -> Result<(), Fail> {
    for _ in 0..50u32 {
        assert!(rt; answers_passed_on(&rt, rt.alloc(), None)?);
    }
    Ok(())
}

#[test]
fn answers_under_a_limit(rt: HostRuntime) -> Result<(), Fail> {
    for _ in 0..50u32 {
        assert!(rt; answers_passed_on(&rt, rt.alloc(), Some(1))?);
    }
    Ok(())
}

/// One caller adds, and the other kills the counter. Whether a play is found.
fn killed<R: Threads + Wait + Sync>(rt: &R, alloc: Global) -> Result<bool, RunFault> {
    let Ids { a1, a2, .. } = few_ids();
    let one = [
        Row::Add(a1, 1),
        Row::Add(a1, 2),
        Row::AddAnswer(a2, 0),
        Row::Add(a1, 3),
    ];
    let two = [Row::Get(a1), Row::Kill(a1), Row::Get(a1)];
    is_found(recorded(rt, alloc, None, &one, &two))
}

#[test]
fn a_kill_in_every_schedule(rt: HostRuntime) -> Result<(), Fail> {
    for _ in 0..50u32 {
        assert!(rt; killed(&rt, rt.alloc())?);
    }
    Ok(())
}

/// One caller adds, and the other terminates the counter. Whether a play is found.
fn terminated<R: Threads + Wait + Sync>(
    rt: &R,
    alloc: Global,
    pending: Option<u32>,
) -> Result<bool, RunFault> {
    let Ids { a1, a2, .. } = few_ids();
    let one = [Row::Add(a1, 1), Row::AddAnswer(a2, 0), Row::Add(a1, 2)];
    let two = [Row::Add(a1, 4), Row::Terminate(a1), Row::Get(a1)];
    is_found(recorded(rt, alloc, pending, &one, &two))
}

#[test]
fn a_terminate_in_every_schedule(rt: HostRuntime) -> Result<(), Fail> {
    for _ in 0..50u32 {
        assert!(rt; terminated(&rt, rt.alloc(), None)?);
    }
    Ok(())
}

#[test]
fn a_terminate_under_a_limit(rt: HostRuntime) -> Result<(), Fail> {
    for _ in 0..50u32 {
        assert!(rt; terminated(&rt, rt.alloc(), Some(2))?);
    }
    Ok(())
}
