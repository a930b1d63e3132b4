//! Readers and writers that are slow, or fail, and some scripts from bytes to bytes.
mod fakes;
mod long;
mod rows;
mod thread_rows;
mod threads;

use act_console::{ConsoleFault, Gate, NoGate, Stock, play_script, threads_script};
use act_kinds::{Account, Boxed, Counter, ListKind, Table};
use act_rules::Mode;
use act_types::{MAX_ACTORS, MAX_SCRIPT_BYTES};
use fakes::{Failure, FakeReader, FakeWriter};
use rows::Row;
use std::io::ErrorKind;
use std::process::Abort;
use std::sync::Wait;
use std::test::Fail;
use std::thread::Threads;

/// The rows of a shorter script are few, and some of them have a fault.
const SHORT: usize = 100;

/// Errors after which a caller might try again. Nothing here does.
const KINDS: [ErrorKind; 3] = [
    ErrorKind::Other,
    ErrorKind::Interrupted,
    ErrorKind::WouldBlock,
];

/// Runs what a reader has in this mode, with kinds that are made here.
fn ran<Rt: AllocGlobal + Threads + Wait + Sync, G: Gate>(
    rt: &Rt,
    mode: Mode,
    gate: &G,
    reader: &mut FakeReader,
    writer: &mut FakeWriter,
) -> Result<(), ConsoleFault> {
    let alloc = rt.alloc();
    let mut stock = Stock {
        counters: Vec::new(alloc),
        tables: Vec::new(alloc),
        accounts: Vec::new(alloc),
        lists: Vec::new(alloc),
    };
    for _ in 0..MAX_ACTORS {
        let counter: Boxed = Box::new(alloc, Counter::open())?;
        let table: Boxed = Box::new(alloc, Table::open(alloc))?;
        let account: Boxed = Box::new(alloc, Account::open())?;
        let list: Boxed = Box::new(alloc, ListKind::open(alloc))?;
        stock.add(counter, table, account, list)?;
    }
    match mode {
        Mode::Play => play_script(alloc, stock, reader, writer),
        Mode::Threads => threads_script(rt, alloc, stock, reader, writer, gate),
    }
}

/// A script of empty lines is read byte by byte, and of a longer one than a script may be no more
/// than one byte too many.
#[test]
fn a_byte_a_read(rt: HostRuntime) -> Result<(), Fail> {
    const MAX_READ: usize = MAX_SCRIPT_BYTES + 1;
    for (len, reads, wanted) in [
        (0, 1, Ok(())),
        (10, 11, Ok(())),
        (MAX_SCRIPT_BYTES, MAX_READ, Ok(())),
        (MAX_READ, MAX_READ, Err(ConsoleFault::Script)),
        (MAX_READ + 10, MAX_READ, Err(ConsoleFault::Script)),
    ] {
        let bytes = vec![in rt.alloc(); b'\n'; len]?;
        let mut reader = FakeReader::new(&bytes);
        let mut writer = FakeWriter::new(rt.alloc());
        let answer = ran(&rt, Mode::Play, &NoGate, &mut reader, &mut writer);
        assert_eq!(rt; (answer, reader.reads()), (wanted, reads), "of {len}");
    }
    Ok(())
}

/// Each script gives its output and its answer, with a read for each byte and one for the end, and a
/// write for each byte.
fn assert_told<Rt: AllocGlobal + Threads + Wait + Sync + Abort>(rt: &Rt, mode: Mode, rows: &[Row]) {
    for row in rows {
        let mut reader = FakeReader::new(row.script.as_bytes());
        let mut writer = FakeWriter::new(rt.alloc());
        let answer = ran(rt, mode, &NoGate, &mut reader, &mut writer);
        assert_eq!(rt; answer, row.answer, "{}", row.script);
        assert_eq!(rt; writer.written(), row.output.as_bytes(), "{}", row.script);
        assert!(rt; reader.reads() <= row.script.len() + 1);
        assert!(rt; writer.writes() <= row.output.len());
    }
}

#[test]
fn scripts_are_played(rt: HostRuntime) -> Result<(), Fail> {
    for rows in rows::tables() {
        assert_told(&rt, Mode::Play, rows);
    }
    Ok(())
}

#[test]
fn plans_are_run(rt: HostRuntime) -> Result<(), Fail> {
    for rows in thread_rows::tables() {
        assert_told(&rt, Mode::Threads, rows);
    }
    Ok(())
}

/// A failed read ends the run at once, though the next one would go on, and nothing is written.
fn assert_read_fails<Rt: AllocGlobal + Threads + Wait + Sync + Abort>(
    rt: &Rt,
    mode: Mode,
    row: &Row,
    read: usize,
) {
    for kind in KINDS {
        let mut reader = FakeReader::failing(row.script.as_bytes(), read, kind);
        let mut writer = FakeWriter::new(rt.alloc());
        let answer = ran(rt, mode, &NoGate, &mut reader, &mut writer);
        let seen = (answer, reader.reads(), writer.writes());
        assert_eq!(rt; seen, (Err(ConsoleFault::Reading), read, 0));
    }
}

/// Each read of the short scripts fails in turn.
fn assert_reads_fail<Rt: AllocGlobal + Threads + Wait + Sync + Abort>(
    rt: &Rt,
    mode: Mode,
    rows: &[Row],
) {
    for row in rows {
        if row.script.len() < SHORT {
            for before in 0..=row.script.len() {
                assert_read_fails(rt, mode, row, before + 1);
            }
        }
    }
}

#[test]
fn each_read_fails_in_turn(rt: HostRuntime) -> Result<(), Fail> {
    for rows in rows::tables() {
        assert_reads_fail(&rt, Mode::Play, rows);
    }
    for rows in thread_rows::tables() {
        assert_reads_fail(&rt, Mode::Threads, rows);
    }
    Ok(())
}

/// A failed write, or one of 0 bytes, ends the run at once, though the next one would go on, and a
/// front is written by then.
fn assert_write_fails<Rt: AllocGlobal + Threads + Wait + Sync + Abort>(
    rt: &Rt,
    mode: Mode,
    row: &Row,
    front: &[u8],
    failure: Failure,
) {
    let write = front.len() + 1;
    let mut reader = FakeReader::new(row.script.as_bytes());
    let mut writer = FakeWriter::failing(rt.alloc(), write, failure);
    let answer = ran(rt, mode, &NoGate, &mut reader, &mut writer);
    let seen = (answer, writer.writes(), writer.written());
    assert_eq!(rt; seen, (Err(ConsoleFault::Writing), write, front));
}

/// Each write of the short scripts fails in turn.
fn assert_writes_fail<Rt: AllocGlobal + Threads + Wait + Sync + Abort>(
    rt: &Rt,
    mode: Mode,
    rows: &[Row],
) {
    for row in rows {
        if row.script.len() < SHORT {
            for written in 0..row.output.len() {
                let front = &row.output.as_bytes()[..written];
                assert_write_fails(rt, mode, row, front, Failure::Zero);
                for kind in KINDS {
                    assert_write_fails(rt, mode, row, front, Failure::Error(kind));
                }
            }
        }
    }
}

#[test]
fn each_write_fails_in_turn(rt: HostRuntime) -> Result<(), Fail> {
    for rows in rows::tables() {
        assert_writes_fail(&rt, Mode::Play, rows);
    }
    for rows in thread_rows::tables() {
        assert_writes_fail(&rt, Mode::Threads, rows);
    }
    Ok(())
}

#[test]
fn fault_texts(rt: HostRuntime) -> Result<(), Fail> {
    let table = [
        (ConsoleFault::Script, "script fault"),
        (ConsoleFault::Memory, "no memory"),
        (ConsoleFault::Thread, "no thread"),
        (ConsoleFault::Reading, "read failed"),
        (ConsoleFault::Writing, "write failed"),
    ];
    for (fault, want) in table {
        assert_eq!(rt; fault.to_string(rt.alloc())?.as_str(), want);
    }
    Ok(())
}
