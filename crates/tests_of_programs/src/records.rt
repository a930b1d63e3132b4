//! Scripts whose play is the same whatever the schedule, scripts with a fault, and a script run past a gate.

use crate::meeting::Meeting;
use act_console::{ConsoleFault, Gate, NoGate, Stock};
use act_kinds::{Account, Boxed, Counter, ListKind, Table};
use act_record::{RecordingFault, Written, record_script};
use act_types::MAX_ACTORS;
use std::sync::Wait;
use std::test::Fail;
use std::thread::Threads;

/// Records a run of a script past a gate, with kinds that are made here.
fn recorded<Rt: AllocGlobal + Threads + Wait + Sync, G: Gate>(
    rt: &Rt,
    script: &[u8],
    written: &mut Vec<u8>,
    gate: &G,
) -> Result<Written, RecordingFault> {
    let alloc = rt.alloc();
    let mut stock = Stock {
        counters: Vec::new(alloc),
        tables: Vec::new(alloc),
        accounts: Vec::new(alloc),
        lists: Vec::new(alloc),
    };
    let mut twins = Stock {
        counters: Vec::new(alloc),
        tables: Vec::new(alloc),
        accounts: Vec::new(alloc),
        lists: Vec::new(alloc),
    };
    for _ in 0..MAX_ACTORS {
        let counter: Boxed = Box::new(alloc, Counter::open())?;
        let table: Boxed = Box::new(alloc, Table::open(alloc))?;
        let account: Boxed = Box::new(alloc, Account::open())?;
        let list: Boxed = Box::new(alloc, ListKind::open(alloc))?;
        stock.add(counter, table, account, list)?;
    }
    for _ in 0..MAX_ACTORS {
        let counter: Boxed = Box::new(alloc, Counter::open())?;
        let table: Boxed = Box::new(alloc, Table::open(alloc))?;
        let account: Boxed = Box::new(alloc, Account::open())?;
        let list: Boxed = Box::new(alloc, ListKind::open(alloc))?;
        twins.add(counter, table, account, list)?;
    }
    let mut reader = script;
    record_script(rt, alloc, stock, twins, &mut reader, written, gate)
}

/// One caller and one actor take turns, since each step waits for the call before it.
#[test]
fn one_call_after_another(rt: HostRuntime) -> Result<(), Fail> {
    let script = "actor a2 table c3\nsubmit c3 a2 put \"k\" 5\nawait c3 0\n";
    let play =
        "actor a2 table c3\nsubmit c3 a2 put \"k\" 5\nsend c3 0\ndeliver 0\nrun a2 c3\ncollect 0\n\
        release c3 a2\ndeliver 1\nretire a2\n";
    let mut written = Vec::new(rt.alloc());
    let answer = recorded(&rt, script.as_bytes(), &mut written, &NoGate);
    assert!(rt; matches!(answer, Ok(Written::Play(_))));
    assert_eq!(rt; written.as_slice(), play.as_bytes());
    Ok(())
}

/// The line of a script's first fault is written, and no thread is started.
#[test]
fn faults_are_told(rt: HostRuntime) -> Result<(), Fail> {
    for (script, line) in [
        ("actor a1 counter c1\nsend c1 0\n", "line 2: BadLine\n"),
        (
            "actor a1 counter c1\nsubmit c2 a1 get\n",
            "line 2: BadPlan\n",
        ),
    ] {
        let mut written = Vec::new(rt.alloc());
        let answer = recorded(&rt, script.as_bytes(), &mut written, &NoGate);
        assert_eq!(rt; answer, Err(RecordingFault::Console(ConsoleFault::Script)));
        assert_eq!(rt; written.as_slice(), line.as_bytes());
    }
    Ok(())
}

/// Two actors of a script meet at the gate with which it is recorded.
#[test]
fn gate_of_a_recorded_script(rt: HostRuntime) -> Result<(), Fail> {
    let script =
        "actor a1 counter c1\nactor a2 account c2\nsubmit c1 a1 add 1\nsubmit c2 a2 deposit 10\n";
    let gate = Meeting::new();
    let mut written = Vec::new(rt.alloc());
    let answer = recorded(&rt, script.as_bytes(), &mut written, &gate);
    drop(written);
    assert!(rt; matches!(answer, Ok(Written::Play(_))));
    assert_eq!(rt; gate.count(), 2);
    Ok(())
}
