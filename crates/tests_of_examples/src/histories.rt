//! Histories of runs in threads: in order as they are, and not with a fault planted in them.

ghost use Rattle.std.specs.Prelude.{IfOk};
ghost use Rattle.act_orders.specs.Causes.{IsWhole};

use crate::callers_scene::{caller, two_casts};
use crate::first::{First, Put, Then};
use act_actor::{Cast, cast_fits};
use act_executor::{Joined, NoGate, codes_fit, plans_fit, run_callers};
use act_kinds::{Boxed, Counter};
use act_orders::{Fault, History, Mistake, Refused, Run, Told, is_whole, judge, read_history};
use act_told::{names_of, told_of};
use act_types::{CallerId, ListOf, NoMemory};
use act_written::{WriteFault, history_text, write_history};
use example_kinds::WorkQueue;
use std::alloc::Global;
use std::mem;
use std::process::Abort;
use std::sync::Wait;
use std::test::Fail;
use std::thread::Threads;

/// How many runs are judged.
const RUNS: u32 = 20;

fn queue_and_counter(alloc: Global) -> Result<Vec<Cast<Boxed>>, NoMemory> {
    let queue: Boxed = Box::new(alloc, WorkQueue::open(alloc))?;
    let counter: Boxed = Box::new(alloc, Counter::open())?;
    two_casts(alloc, &[1, 2, 3], queue, counter)
}

/// Three callers that put three jobs each, and then work until the queue gives none.
fn three_workers(alloc: Global) -> Result<Vec<(CallerId, First)>, NoMemory> {
    let first = First {
        put: Put::Enqueue,
        number: 7,
        times: 3,
        then: Then::Work,
    };
    let mut codes = Vec::new(alloc);
    for number in 1..4 {
        codes.push((caller(number), first))?;
    }
    Ok(codes)
}

fn joined_run<R: Abort + Threads + Wait + Sync>(
    rt: &R,
    alloc: Global,
) -> Result<Joined<Boxed>, Fail> {
    let casts = queue_and_counter(alloc)?;
    let plans = Vec::new(alloc);
    let codes = three_workers(alloc)?;
    assert!(rt; cast_fits(&casts));
    assert!(rt; plans_fit(&casts, &plans));
    assert!(rt; codes_fit(&casts, &plans, &codes));
    Ok(run_callers(rt, alloc, casts, plans, codes, &NoGate)?)
}

/// The history of a run.
fn told_by_threads<R: Abort + Threads + Wait + Sync>(rt: &R, alloc: Global) -> Result<Told, Fail> {
    let joined = joined_run(rt, alloc)?;
    let told = told_of(alloc, &joined);
    drop(joined);
    let told = told?;
    assert!(rt; is_whole(&told));
    Ok(told)
}

/// Whether it is in order, or which faults it has.
fn verdict<R: Abort>(
    rt: &R,
    alloc: Global,
    told: &Told,
) -> Result<Option<ListOf<Fault>>, NoMemory> {
    assert!(rt; is_whole(told));
    match judge(alloc, told) {
        Ok(_) => Ok(None),
        Err(Refused::Faults(faults)) => Ok(Some(faults)),
        Err(Refused::NoMemory) => Err(NoMemory),
    }
}

#[test]
fn in_order_each_time(rt: HostRuntime) -> Result<(), Fail> {
    let alloc = rt.alloc();
    for _ in 0..RUNS {
        let told = told_by_threads(&rt, alloc)?;
        assert!(rt; told.calls.len() > 12);
        assert_eq!(rt; told.runs.len(), told.calls.len());
        assert!(rt; verdict(&rt, alloc, &told)?.is_none());
    }
    Ok(())
}

/// The runs of a history, which are taken out of it.
fn take_runs(alloc: Global, told: &mut Told) -> Vec<Run> {
    mem::replace(&mut told.runs, ListOf::new(alloc)).into_vec()
}

/// The first two calls of caller 1, which go to the queue, change places.
fn swap_two(runs: &mut [Run]) {
    for run in runs {
        run.call = match run.call {
            0 => 1,
            1 => 0,
            other => other,
        };
    }
}

#[test]
fn two_runs_swapped(rt: HostRuntime) -> Result<(), Fail> {
    let alloc = rt.alloc();
    for _ in 0..RUNS {
        let mut told = told_by_threads(&rt, alloc)?;
        let mut runs = take_runs(alloc, &mut told);
        swap_two(&mut runs);
        told.runs = ListOf::from_vec(runs);
        let Some(faults) = verdict(&rt, alloc, &told)? else {
            return Err(Fail::new("the swap isn't told"));
        };
        let skips = |fault: &Fault| matches!(fault, Fault::Skips(_, 0));
        assert!(rt; faults.as_slice().iter().any(skips));
    }
    Ok(())
}

/// The first run comes again in the place of the second.
fn run_again(runs: &mut [Run]) {
    if runs.len() > 1 {
        runs[1] = runs[0];
    }
}

#[test]
fn a_run_comes_again(rt: HostRuntime) -> Result<(), Fail> {
    let alloc = rt.alloc();
    for _ in 0..RUNS {
        let mut told = told_by_threads(&rt, alloc)?;
        let mut runs = take_runs(alloc, &mut told);
        run_again(&mut runs);
        told.runs = ListOf::from_vec(runs);
        let Some(faults) = verdict(&rt, alloc, &told)? else {
            return Err(Fail::new("the second run isn't told"));
        };
        let again = |fault: &Fault| matches!(fault, Fault::Again(1, 0));
        assert!(rt; faults.as_slice().iter().any(again));
    }
    Ok(())
}

/// The history that these lines tell.
fn read_again(alloc: Global, lines: &[u8]) -> Result<History, Fail>
    ensures { IfOk result (λ history. IsWhole history.told) }
{
    match read_history(alloc, lines) {
        Ok(history) => Ok(history),
        Err(Mistake::NoMemory) => Err(Fail::from(NoMemory)),
        Err(Mistake::Line(_, _)) => Err(Fail::new("a line isn't read")),
    }
}

/// What is written of a run, read again.
#[test]
fn written_and_read_again(rt: HostRuntime) -> Result<(), Fail> {
    let alloc = rt.alloc();
    let joined = joined_run(&rt, alloc)?;
    let told = told_of(alloc, &joined)?;
    let names = names_of(alloc, &joined)?;
    drop(joined);
    assert!(rt; is_whole(&told));
    let mut written: Vec<u8> = Vec::new(alloc);
    if let Err(fault) = write_history(alloc, &told, &names, &mut written) {
        // A list fails to take bytes for want of memory alone.
        assert!(rt; fault == WriteFault::Writing || written.is_empty());
        return Err(Fail::from(NoMemory));
    }
    let history = read_again(alloc, &written)?;
    assert!(rt; verdict(&rt, alloc, &history.told)?.is_none());
    let text = history_text(alloc, &history.told, &names)?;
    assert!(rt; text.as_bytes() == written.as_slice());
    Ok(())
}

/// Each kind of line: awaits before a call and after the last one, two answers taken, each outcome and each end.
const LINES: &str =
    "history order\nactor a7 c2 c10\nactor a3 c2\nactor a12 c2\ncall c2 a7\nawait c2 0\ncall c2 a3 @0\n\
    call c2 a7 @1 @0\ncall c10 a7\nawait c10 0\ncall c10 a7\nawait c2 1\nc2.0 answered\nc2.1 died\nc2.2 failed\n\
    c10.0 answered\nc10.1 open\na7 live\na7.0 c2.0\na7.1 c2.2\na7.2 c10.0\na3 dead\na12 retired\n";

/// A history that was read is written with the same lines.
#[test]
fn read_and_written_again(rt: HostRuntime) -> Result<(), Fail> {
    let alloc = rt.alloc();
    let history = read_again(alloc, LINES.as_bytes())?;
    let text = history_text(alloc, &history.told, &[7, 3, 12])?;
    assert_eq!(rt; text.as_str(), LINES);
    Ok(())
}
