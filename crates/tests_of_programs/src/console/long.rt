//! Scripts of many lines, with what is refused at the end of them.

use super::fakes::{FakeReader, FakeWriter};
use super::ran;
use act_console::NoGate;
use act_rules::Mode;
use act_types::NoMemory;
use std::process::Abort;
use std::sync::Wait;
use std::test::Fail;
use std::thread::Threads;

/// So many copies of its handle a caller may have of an actor.
const MAX_COPIES: u32 = 65_535;

/// So many keys a table may have.
const MAX_KEYS: u32 = 1_024;

/// The script is played to its end, and gives this report.
fn assert_report<Rt: AllocGlobal + Threads + Wait + Sync + Abort>(
    rt: &Rt,
    script: &str,
    report: &str,
) {
    let mut reader = FakeReader::new(script.as_bytes());
    let mut writer = FakeWriter::new(rt.alloc());
    let answer = ran(rt, Mode::Play, &NoGate, &mut reader, &mut writer);
    assert_eq!(rt; answer, Ok(()));
    assert!(rt; writer.written() == report.as_bytes());
}

/// One copy of a handle too many is refused, and the play goes on.
#[test]
fn a_copy_too_many(rt: HostRuntime) -> Result<(), Fail> {
    let mut script = String::new(rt.alloc());
    let mut report = String::new(rt.alloc());
    script.push_str("actor a1 counter c1\n")?;
    for (place, copies) in (2..=MAX_COPIES).enumerate() {
        script.push_str("copy c1 a1\n")?;
        writeln!(report, "{place}: copies {copies}")?;
    }
    script.push_str("copy c1 a1\nrelease c1 a1\ncopy c1 a1\n")?;
    report.push_str("65534: refused TooManyCopies\n65535: copies 65534\n65536: copies 65535\n")?;
    report.push_str("a1 live counter 0\n")?;
    assert_report(&rt, &script, &report);
    Ok(())
}

/// Adds the lines of a call that puts a key, and runs.
fn push_put(script: &mut String, key: u32) -> Result<(), NoMemory> {
    writeln!(script, "submit c1 a1 put \"k{key}\" {key}")?;
    writeln!(script, "send c1 {key}\ndeliver {key}")?;
    writeln!(script, "run a1 c1\ncollect {key}")?;
    Ok(())
}

/// Adds what is told of these lines, the first of which has this place.
fn push_told(report: &mut String, key: u32, place: u32) -> Result<(), NoMemory> {
    let [sent, came, ran, kept] = [1, 2, 3, 4].map(|more| place.saturating_add(more));
    writeln!(report, "{place}: future c1.{key}\n{sent}: mail {key}")?;
    writeln!(report, "{came}: new\n{ran}: place {key} reply {key}")?;
    writeln!(report, "{kept}: kept c1.{key}")?;
    Ok(())
}

/// Adds the futures, the table and its run list.
fn push_summary(report: &mut String) -> Result<(), NoMemory> {
    for key in 0..MAX_KEYS {
        writeln!(report, "c1.{key} a1 = unit")?;
    }
    write!(report, "c1.{MAX_KEYS} a1 = KindFull\na1 live table")?;
    for key in 0..MAX_KEYS {
        write!(report, " \"k{key}\" {key}")?;
    }
    writeln!(report)?;
    for key in 0..=MAX_KEYS {
        writeln!(report, "a1.{key} c1.{key} put \"k{key}\" {key}")?;
    }
    Ok(())
}

/// One key too many is answered with a fault, and the table stays as it was.
#[test]
fn a_key_too_many(rt: HostRuntime) -> Result<(), Fail> {
    let mut script = String::new(rt.alloc());
    let mut report = String::new(rt.alloc());
    script.push_str("actor a1 table c1\n")?;
    for key in 0..=MAX_KEYS {
        push_put(&mut script, key)?;
        push_told(&mut report, key, 5 * key)?;
    }
    push_summary(&mut report)?;
    assert_report(&rt, &script, &report);
    Ok(())
}
