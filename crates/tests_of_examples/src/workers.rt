//! A worker at a queue.

use crate::callers_scene::{alone, two_casts};
use crate::first::{First, Put, Then};
use act_actor::Cast;
use act_kinds::{Boxed, Counter};
use act_types::NoMemory;
use example_kinds::WorkQueue;
use std::alloc::Global;
use std::test::Fail;

fn queue_and_counter(alloc: Global) -> Result<Vec<Cast<Boxed>>, NoMemory> {
    let queue: Boxed = Box::new(alloc, WorkQueue::open(alloc))?;
    let counter: Boxed = Box::new(alloc, Counter::open())?;
    two_casts(alloc, &[1], queue, counter)
}

/// Works after so many jobs were put into the queue.
fn after(jobs: u32) -> First {
    First {
        put: Put::Enqueue,
        number: 7,
        times: jobs,
        then: Then::Work,
    }
}

#[test]
fn empties_the_queue(rt: HostRuntime) -> Result<(), Fail> {
    let alloc = rt.alloc();
    let report = alone(&rt, alloc, queue_and_counter(alloc)?, after(2))?;
    let wanted =
        "c1.0 a1 = 1\nc1.1 a1 = 2\nc1.2 a1 = 7\nc1.3 a1 = 7\nc1.4 a1 = QueueEmpty\nc1.5 a2 = 2\n\
        a1 retired queue\na1.0 c1.0 enqueue 7\na1.1 c1.1 enqueue 7\na1.2 c1.2 dequeue\na1.3 c1.3 dequeue\n\
        a1.4 c1.4 dequeue\na2 retired counter 2\na2.0 c1.5 add 2\n";
    assert_eq!(rt; report.as_str(), wanted);
    Ok(())
}

#[test]
fn reports_that_there_was_no_job(rt: HostRuntime) -> Result<(), Fail> {
    let alloc = rt.alloc();
    let report = alone(&rt, alloc, queue_and_counter(alloc)?, after(0))?;
    let wanted = "c1.0 a1 = QueueEmpty\nc1.1 a2 = 0\na1 retired queue\na1.0 c1.0 dequeue\n\
        a2 retired counter 0\na2.0 c1.1 add 0\n";
    assert_eq!(rt; report.as_str(), wanted);
    Ok(())
}
