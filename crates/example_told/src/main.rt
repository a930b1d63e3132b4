//! Two callers by code at queues, each in a thread of its own, and the history of the run as a text.
#![tactic(auto)]

use actors::{
    ActorId, CallerId, Cast, Code, GaveUp, Joined, MAX_CALLS, NoGate, Session, Value, callers_of,
    cast_fits, codes_fit, is_whole, judge, names_of, plans_fit, run_callers, told_of,
    write_history,
};
use anyhow::{Result, bail, ensure};
use example_kinds::{QueueCall, WorkQueue};
use std::alloc::Global;
use std::io::{self, Write};
use std::sync::Wait;
use std::thread::Threads;

/// Puts jobs into a queue, and then takes from it until it gives none.
#[derive(Clone, Copy, Debug)]
struct Porter {
    queue: ActorId,
    jobs: i64,
}

impl Code for Porter {
    // What a porter concludes isn't told.
    ghost tells = { λ _ _ _. Unit {0} };

    fn run<S: Session>(&mut self, session: &mut S) -> Result<(), GaveUp> {
        for job in 0..self.jobs {
            let (enqueue, args) = QueueCall::Enqueue(&Value::Int(job)).spell(session.alloc())?;
            session.submit(self.queue, enqueue, args)?;
        }
        take_all(session, self.queue)
    }
}

/// Takes jobs from a queue until it gives none.
fn take_all<S: Session>(session: &mut S, queue: ActorId) -> Result<(), GaveUp> {
    for _ in 0..MAX_CALLS {
        let (dequeue, args) = QueueCall::Dequeue.spell(session.alloc())?;
        let k = session.ask(queue, dequeue, args)?;
        let Some(Ok(_)) = session.answer(k) else {
            return Ok(());
        };
    }
    Err(GaveUp)
}

/// A queue that one caller may call.
fn queue_of(alloc: Global, actor: ActorId, caller: CallerId) -> Result<Cast<WorkQueue>> {
    Ok(Cast {
        actor,
        callers: callers_of(alloc, &[caller])?,
        kind: WorkQueue::open(alloc),
        pending: None,
    })
}

/// Runs two porters, each in a thread of its own. Each has its own queue, so that the history is the same
/// whatever the schedule.
fn run_porters<R: Threads + Wait + Sync>(rt: &R, alloc: Global) -> Result<Joined<WorkQueue>> {
    let a1 = ActorId::new(1).unwrap();
    let a2 = ActorId::new(2).unwrap();
    let c1 = CallerId::new(1).unwrap();
    let c2 = CallerId::new(2).unwrap();
    let casts = vec![in alloc; queue_of(alloc, a1, c1)?, queue_of(alloc, a2, c2)?]?;
    let plans = Vec::new(alloc);
    let two = Porter { queue: a1, jobs: 2 };
    let one = Porter { queue: a2, jobs: 1 };
    let codes = vec![in alloc; (c1, two), (c2, one)]?;
    let fit = cast_fits(&casts) && plans_fit(&casts, &plans) && codes_fit(&casts, &plans, &codes);
    ensure!(fit, "the casts or the codes don't fit");
    Ok(run_callers(rt, alloc, casts, plans, codes, &NoGate)?)
}

/// Judges the history of a run, and writes it.
fn tell_run<W: Write>(alloc: Global, joined: &Joined<WorkQueue>, writer: &mut W) -> Result<()> {
    let told = told_of(alloc, joined)?;
    ensure!(is_whole(&told), "the history is not whole");
    if judge(alloc, &told).is_err() {
        bail!("the run is not in order");
    }
    let names = names_of(alloc, joined)?;
    write_history(alloc, &told, &names, writer)?;
    Ok(())
}

fn main(rt: HostRuntime) -> Result<()> {
    let joined = run_porters(&rt, rt.alloc())?;
    tell_run(rt.alloc(), &joined, &mut io::writer(&rt))
}
