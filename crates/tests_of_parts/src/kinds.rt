//! The worked rows, through the trait.

use super::rows::Verb::{
    Add, At, Balance, Del, Deposit, Get, Len, Pop, Push, Put, Size, Terminate, Withdraw,
};
use super::rows::Why::{
    BadAmount, BadArgs, Insufficient, KindFull, NoItem, NoItems, NoKey, NoMethod, Overflow,
};
use super::rows::Word::{Int, Txt, Unit};
use super::rows::{Verb, Why, Word, answer_of, assert_is, assert_reads, method, value_of};
use act_kinds::{Account, Actor, Boxed, Counter, ListKind, Table};
use act_types::{Answer, Fault, MAX_ITEMS, Method, NoMemory, Text, Value};
use std::alloc::Global;
use std::process::Abort;
use std::test::Fail;

/// A text of 65 bytes.
const LONG: &str = "kkkkkkkkkkkkkkkkkkkkkkkkkkkkkkkkkkkkkkkkkkkkkkkkkkkkkkkkkkkkkkkkk";

/// A case by its name: a call, its answer, and the text of the state that it leaves.
type Row<'a> = (
    &'static str,
    Verb,
    &'static [Word],
    Result<Word, Why>,
    &'a str,
);

#[rattlefmt::skip]
static COUNTER: [Row<'static>; 10] = [
    ("opened", Get, &[], Ok(Int(0)), "counter 0"),
    ("below 0", Add, &[Int(-3)], Ok(Int(-3)), "counter -3"),
    ("to the least", Add, &[Int(-9_223_372_036_854_775_805)], Ok(Int(i64::MIN)), "counter -9223372036854775808"),
    ("below the least", Add, &[Int(-1)], Err(Overflow), "counter -9223372036854775808"),
    ("the greatest", Add, &[Int(i64::MAX)], Ok(Int(-1)), "counter -1"),
    ("above 0", Add, &[Int(5)], Ok(Int(4)), "counter 4"),
    ("a method of a list", Push, &[Int(1)], Err(NoMethod), "counter 4"),
    ("an argument too many", Get, &[Int(1)], Err(BadArgs), "counter 4"),
    ("no number", Add, &[Unit], Err(BadArgs), "counter 4"),
    ("terminate", Terminate, &[Unit], Err(NoMethod), "counter 4"),
];

#[rattlefmt::skip]
static TABLE: [Row<'static>; 10] = [
    ("a key too long", Put, &[Txt(LONG), Int(1)], Err(BadArgs), "table"),
    ("unit as a value", Put, &[Txt("a"), Unit], Err(BadArgs), "table"),
    ("the first key", Put, &[Txt("a"), Int(1)], Ok(Unit), "table \"a\" 1"),
    ("the second key", Put, &[Txt("b"), Int(2)], Ok(Unit), "table \"a\" 1 \"b\" 2"),
    ("a text for a number", Put, &[Txt("a"), Txt("x")], Ok(Unit), "table \"a\" \"x\" \"b\" 2"),
    ("a number for a text", Put, &[Txt("a"), Int(1)], Ok(Unit), "table \"a\" 1 \"b\" 2"),
    ("the third key", Put, &[Txt("c"), Int(3)], Ok(Unit), "table \"a\" 1 \"b\" 2 \"c\" 3"),
    ("a key between", Del, &[Txt("b")], Ok(Int(2)), "table \"a\" 1 \"c\" 3"),
    ("a key that is gone", Get, &[Txt("b")], Err(NoKey), "table \"a\" 1 \"c\" 3"),
    ("how many", Size, &[], Ok(Int(2)), "table \"a\" 1 \"c\" 3"),
];

#[rattlefmt::skip]
static ACCOUNT: [Row<'static>; 8] = [
    ("opened", Balance, &[], Ok(Int(0)), "account 0"),
    ("the first deposit", Deposit, &[Int(10)], Ok(Int(10)), "account 10"),
    ("more than it has", Withdraw, &[Int(11)], Err(Insufficient), "account 10"),
    ("a deposit of 0", Deposit, &[Int(0)], Err(BadAmount), "account 10"),
    ("below 0", Withdraw, &[Int(-1)], Err(BadAmount), "account 10"),
    ("all of it", Withdraw, &[Int(10)], Ok(Int(0)), "account 0"),
    ("the most", Deposit, &[Int(i64::MAX)], Ok(Int(i64::MAX)), "account 9223372036854775807"),
    ("above the most", Deposit, &[Int(1)], Err(Overflow), "account 9223372036854775807"),
];

#[rattlefmt::skip]
static LIST: [Row<'static>; 6] = [
    ("nothing to pop", Pop, &[], Err(NoItems), "list"),
    ("the first item", Push, &[Int(7)], Ok(Int(1)), "list 7"),
    ("past the last", At, &[Int(1)], Err(NoItem), "list 7"),
    ("the second item", Push, &[Txt("a")], Ok(Int(2)), "list 7 \"a\""),
    ("how many", Len, &[], Ok(Int(2)), "list 7 \"a\""),
    ("the last item", Pop, &[], Ok(Txt("a")), "list 7"),
];

static FIRST_KEY: [Row<'static>; 1] = [(
    "the first of many",
    Put,
    &[Txt("a"), Int(0)],
    Ok(Unit),
    "table \"a\" 0",
)];

/// Of a table of 1,024 keys, with the text up to the first of them.
#[rattlefmt::skip]
static FULL_TABLE: [Row<'static>; 2] = [
    ("a key too many", Put, &[Txt("z"), Int(1)], Err(KindFull), "table \"a\" 0"),
    ("an old key", Put, &[Txt("a"), Int(1)], Ok(Unit), "table \"a\" 1"),
];

/// What the actor answers to a call.
fn asked<A: Actor>(
    alloc: Global,
    actor: &mut A,
    verb: Verb,
    words: &[Word],
) -> Result<Answer, NoMemory> {
    let mut args = Vec::new(alloc);
    for word in words {
        args.push(value_of(alloc, *word)?)?;
    }
    actor.ask(&method(verb), args.as_slice())
}

fn text_of<A: Actor>(alloc: Global, actor: &A) -> Result<String, NoMemory> {
    let mut text = String::new(alloc);
    actor.state_text(&mut text)?;
    Ok(text)
}

/// Compares an answer with that of a row.
fn assert_answered(
    rt: &impl Abort,
    alloc: Global,
    row: &Row,
    answered: Answer,
) -> Result<(), NoMemory> {
    match answer_of(alloc, &row.3) {
        Ok(wanted) => {
            assert_is(rt, row.0, &answered, &wanted);
            drop(answered);
            drop(wanted);
            Ok(())
        }
        Err(refused) => {
            drop(answered);
            Err(refused)
        }
    }
}

/// Asks a call, and compares its answer and the text of the state after it.
fn play_row<A: Actor>(
    rt: &impl Abort,
    alloc: Global,
    actor: &mut A,
    row: &Row,
    state: &str,
) -> Result<(), NoMemory> {
    let answered = asked(alloc, actor, row.1, row.2)?;
    assert_answered(rt, alloc, row, answered)?;
    let text = text_of(alloc, actor)?;
    assert_reads(rt, row.0, text.as_str(), state);
    drop(text);
    Ok(())
}

/// Asks each call of the actor in turn.
fn play<A: Actor>(
    rt: &impl Abort,
    alloc: Global,
    actor: &mut A,
    rows: &[Row],
) -> Result<(), NoMemory> {
    for row in rows {
        play_row(rt, alloc, actor, row, row.4)?;
    }
    Ok(())
}

/// Asks each call of an actor, which ends with that.
fn play_opened<A: Actor>(
    rt: &impl Abort,
    alloc: Global,
    mut actor: A,
    rows: &[Row],
) -> Result<(), NoMemory> {
    let done = play(rt, alloc, &mut actor, rows);
    drop(actor);
    done
}

#[test]
fn counter_rows(rt: HostRuntime) -> Result<(), Fail> {
    play_opened(&rt, rt.alloc(), Counter::open(), &COUNTER)?;
    Ok(())
}

#[test]
fn table_rows(rt: HostRuntime) -> Result<(), Fail> {
    play_opened(&rt, rt.alloc(), Table::open(rt.alloc()), &TABLE)?;
    Ok(())
}

#[test]
fn boxed_account_rows(rt: HostRuntime) -> Result<(), Fail> {
    let account: Boxed = Box::new(rt.alloc(), Account::open())?;
    play_opened(&rt, rt.alloc(), account, &ACCOUNT)?;
    Ok(())
}

#[test]
fn list_rows(rt: HostRuntime) -> Result<(), Fail> {
    play_opened(&rt, rt.alloc(), ListKind::open(rt.alloc()), &LIST)?;
    Ok(())
}

/// Puts 1,023 keys, `k1` and so on.
fn fill(alloc: Global, table: &mut Table) -> Result<(), NoMemory> {
    for number in 1..1024_i64 {
        let key = Text::new(format!(in alloc; "k{number}")?);
        drop(table.ask(&Method::Put, &[Value::Text(key), Value::Int(number)])?);
    }
    Ok(())
}

fn push_key(alloc: Global, text: &mut String, number: i64) -> Result<(), NoMemory> {
    let key = format!(in alloc; " \"k{number}\" {number}")?;
    text.push_str(key.as_str())?;
    Ok(())
}

/// Writes the text of a full table, of which this is that up to its first key.
fn full_text(alloc: Global, text: &mut String, first: &str) -> Result<(), NoMemory> {
    text.push_str(first)?;
    for number in 1..1024_i64 {
        push_key(alloc, text, number)?;
    }
    Ok(())
}

/// Asks a call of a full table, which leaves it full.
fn play_full(rt: &impl Abort, alloc: Global, table: &mut Table, row: &Row) -> Result<(), NoMemory> {
    let mut text = String::new(alloc);
    let done = match full_text(alloc, &mut text, row.4) {
        Ok(()) => play_row(rt, alloc, table, row, text.as_str()),
        Err(refused) => Err(refused),
    };
    drop(text);
    done
}

/// Puts `a`, and then as many keys as the table takes.
fn fill_and_play(rt: &impl Abort, alloc: Global, table: &mut Table) -> Result<(), NoMemory> {
    play(rt, alloc, table, &FIRST_KEY)?;
    fill(alloc, table)?;
    for row in &FULL_TABLE {
        play_full(rt, alloc, table, row)?;
    }
    Ok(())
}

#[test]
fn full_table_rows(rt: HostRuntime) -> Result<(), Fail> {
    let mut table = Table::open(rt.alloc());
    let done = fill_and_play(&rt, rt.alloc(), &mut table);
    drop(table);
    done?;
    Ok(())
}

/// As many items as a list holds, each the longest text that it takes.
fn fill_list(alloc: Global, list: &mut ListKind) -> Result<(), NoMemory> {
    let longest = LONG.get(1..).unwrap_or("k");
    for _item in 0..MAX_ITEMS {
        drop(asked(alloc, list, Push, &[Txt(longest)])?);
    }
    Ok(())
}

/// A full list takes no item more.
fn push_more(rt: &impl Abort, alloc: Global, list: &mut ListKind) -> Result<(), NoMemory> {
    let answered = asked(alloc, list, Push, &[Int(1)])?;
    let is_full = matches!(answered, Err(Fault::KindFull));
    assert_is(rt, "an item too many", &is_full, &true);
    drop(answered);
    Ok(())
}

fn assert_long(rt: &impl Abort, text: &str) {
    let ends = (text.starts_with("list \"kkk"), text.ends_with("kkk\""));
    assert_is(
        rt,
        "the longest text",
        &(text.len(), ends),
        &(4 + MAX_ITEMS * 67, (true, true)),
    );
}

fn fill_and_push(rt: &impl Abort, alloc: Global, list: &mut ListKind) -> Result<(), NoMemory> {
    fill_list(alloc, list)?;
    push_more(rt, alloc, list)?;
    let text = text_of(alloc, list)?;
    assert_long(rt, text.as_str());
    drop(text);
    Ok(())
}

/// The longest text of a state is written whole, and a full list takes no item more.
#[test]
fn full_list(rt: HostRuntime) -> Result<(), Fail> {
    let mut list = ListKind::open(rt.alloc());
    let done = fill_and_push(&rt, rt.alloc(), &mut list);
    drop(list);
    done?;
    Ok(())
}
