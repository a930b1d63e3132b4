//! A work queue beside a list: what is put first is taken first.

use crate::scene::{Call, Given, casts_of, played, threaded};
use act_kinds::{Boxed, ListKind};
use act_types::{Method, NoMemory};
use act_world::Cast;
use example_kinds::WorkQueue;
use std::alloc::Global;
use std::test::Fail;

/// A queue in which nothing waits, and a list.
fn queue_and_list(alloc: Global) -> Result<Vec<Cast<Boxed>>, NoMemory> {
    let own: Boxed = Box::new(alloc, WorkQueue::open(alloc))?;
    let known: Boxed = Box::new(alloc, ListKind::open(alloc))?;
    casts_of(alloc, own, known)
}

const CALLS: [Call; 11] = [
    Call::Own(1, "dequeue", Given::Nothing),
    Call::Own(1, "enqueue", Given::Int(5)),
    Call::Own(1, "enqueue", Given::Int(7)),
    Call::Own(1, "enqueue", Given::Answer(0)),
    Call::Own(1, "waiting", Given::Nothing),
    Call::Own(1, "dequeue", Given::Nothing),
    Call::Known(2, Method::Push, Given::Answer(5)),
    Call::Own(1, "enqueue", Given::Two(1, 2)),
    Call::Known(1, Method::Pop, Given::Nothing),
    Call::Own(1, "enqueue", Given::Int(9)),
    Call::Own(1, "dequeue", Given::Nothing),
];

const ANSWERS: &str =
    "c1.0 a1 = QueueEmpty\nc1.1 a1 = 1\nc1.2 a1 = 2\nc1.3 a1 = Dependency(0)\nc1.4 a1 = 2\n\
    c1.5 a1 = 5\nc1.6 a2 = 1\nc1.7 a1 = BadArgs\nc1.8 a1 = NoMethod\nc1.9 a1 = 2\n\
    c1.10 a1 = 7\n";

const RUNS: &str =
    "a1.0 c1.0 dequeue\na1.1 c1.1 enqueue 5\na1.2 c1.2 enqueue 7\na1.3 c1.3 enqueue !0\n\
    a1.4 c1.4 waiting\na1.5 c1.5 dequeue\na1.6 c1.7 enqueue 1 2\na1.7 c1.8 pop\n\
    a1.8 c1.9 enqueue 9\na1.9 c1.10 dequeue\n";

#[test]
fn played_beside_a_known_kind(rt: HostRuntime) -> Result<(), Fail> {
    let alloc = rt.alloc();
    let report = played(&rt, alloc, queue_and_list(alloc)?, &CALLS)?;
    let wanted = format!(in alloc;
        "{ANSWERS}a1 live queue 9\n{RUNS}a2 live list 5\na2.0 c1.6 push 5\n"
    )?;
    assert_eq!(rt; report.as_str(), wanted.as_str());
    Ok(())
}

#[test]
fn in_threads_beside_a_known_kind(rt: HostRuntime) -> Result<(), Fail> {
    let alloc = rt.alloc();
    let report = threaded(&rt, alloc, queue_and_list(alloc)?, &CALLS)?;
    let wanted = format!(in alloc;
        "{ANSWERS}a1 retired queue 9\n{RUNS}a2 retired list 5\na2.0 c1.6 push 5\n"
    )?;
    assert_eq!(rt; report.as_str(), wanted.as_str());
    Ok(())
}
