//! Two callers that count: what was read is written with one more, or one is added.
//!
//! By hand: two callers that read and write run in C(4, 2) = 6 orders. Where one reads and writes before the
//! other reads, the table holds 2 (2 orders), else 1 (4 orders). Two that add run in 2 orders.

use crate::opened::{Counters, Tables, adding, with_text};
use act_code_ends::{Codes, explore_codes, first_bad};
use act_drive::{Code, GaveUp, Session};
use act_types::{ActorId, Answer, Arg, CallerId, ListOf, Method, NoMemory, Text, Value};
use std::alloc::Global;
use std::test::Fail;

/// How a caller counts.
#[derive(Clone, Copy, Debug, PartialEq, Eq)]
enum Counting {
    /// It adds one.
    Adds,
    /// It reads, and writes one more.
    ReadsAndWrites,
    /// It adds one, takes a turn, and adds ten where the answer is there.
    Looks,
}

fn key(alloc: Global) -> Result<Arg, NoMemory> {
    Ok(Arg::Plain(Value::Text(Text::copied(alloc, "n")?)))
}

fn reading(alloc: Global) -> Result<ListOf<Arg>, NoMemory> {
    let mut args = ListOf::new(alloc);
    args.push(key(alloc)?)?;
    Ok(args)
}

fn writing(alloc: Global, number: i64) -> Result<ListOf<Arg>, NoMemory> {
    let mut args = ListOf::new(alloc);
    args.push(key(alloc)?)?;
    args.push(Arg::Plain(Value::Int(number)))?;
    Ok(args)
}

/// The number that was read: none is 0.
fn number_of(answer: Option<&Answer>) -> i64 {
    match answer {
        Some(Ok(Value::Int(number))) => *number,
        _ => 0,
    }
}

fn read_and_write<S: Session>(session: &mut S, a: ActorId) -> Result<(), GaveUp> {
    let alloc = session.alloc();
    let k = session.ask(a, Method::Get, reading(alloc)?)?;
    let more = number_of(session.answer(k)).wrapping_add(1);
    session.ask(a, Method::Put, writing(alloc, more)?)?;
    Ok(())
}

fn look<S: Session>(session: &mut S, a: ActorId) -> Result<(), GaveUp> {
    let alloc = session.alloc();
    let k = session.submit(a, Method::Add, adding(alloc, 1)?)?;
    session.turn()?;
    if session.answer(k).is_some() {
        session.submit(a, Method::Add, adding(alloc, 10)?)?;
    }
    Ok(())
}

impl Code for Counting {
    ghost use Rattle.tests_of_ends.specs.Examples.{any_end};

    ghost tells = { any_end };

    fn run<S: Session>(&mut self, session: &mut S) -> Result<(), GaveUp> {
        let a = ActorId::new(1).unwrap();
        match self {
            Counting::Adds => {
                let args = adding(session.alloc(), 1)?;
                session.ask(a, Method::Add, args)?;
                Ok(())
            }
            Counting::ReadsAndWrites => read_and_write(session, a),
            Counting::Looks => look(session, a),
        }
    }
}

/// All callers count so.
impl Codes<Counting> for Counting {
    ghost use Rattle.tests_of_ends.specs.Examples.{same_code};

    ghost makes = { same_code };

    fn code(&self, _alloc: Global, _caller: CallerId) -> Result<Counting, NoMemory> {
        Ok(*self)
    }
}

#[test]
fn reading_and_writing_loses_an_update(rt: HostRuntime) -> Result<(), Fail> {
    let alloc = rt.alloc();
    let ends = explore_codes(alloc, &Tables, &Counting::ReadsAndWrites, 1_000)?;
    assert!(rt; ends.is_whole);
    assert_eq!(rt; ends.found.len(), 6);
    let bad = first_bad(&ends.found, &with_text(alloc, "table \"n\" 2"))?;
    assert!(rt; bad.is_some());
    assert!(rt; first_bad(&ends.found, &with_text(alloc, "table \"n\" 1"))?.is_some());
    Ok(())
}

#[test]
fn adding_loses_none(rt: HostRuntime) -> Result<(), Fail> {
    let alloc = rt.alloc();
    let ends = explore_codes(alloc, &Counters, &Counting::Adds, 1_000)?;
    assert!(rt; ends.is_whole);
    assert_eq!(rt; ends.found.len(), 2);
    assert!(rt; first_bad(&ends.found, &with_text(alloc, "counter 2"))?.is_none());
    Ok(())
}

#[test]
fn a_look_comes_before_or_after(rt: HostRuntime) -> Result<(), Fail> {
    let alloc = rt.alloc();
    let ends = explore_codes(alloc, &Counters, &Counting::Looks, 10_000)?;
    assert!(rt; ends.is_whole);
    for text in ["counter 2", "counter 12", "counter 22"] {
        let all = ends.found.len();
        assert!(rt; all > 2);
        assert!(rt; first_bad(&ends.found, &with_text(alloc, text))?.is_some());
    }
    Ok(())
}
