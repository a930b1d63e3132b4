//! Worked calls, each with its answer; and calls for which memory is refused.

ghost use Rattle.act_actor.specs.Cast.{CallersDiffer};

use super::rows::Verb::{Add, At, Get, Push, Put, Size, Terminate};
use super::rows::Why::{BadArgs, Dependency, NoKey};
use super::rows::Word::{Int, Txt, Unit};
use super::rows::{
    Verb, Why, Word, actor, answer_of, assert_is, assert_reads, caller, method, value_of,
};
use act_actor::{Arrival, Cast, Live, Past, Retired, RunLog, actors_of, cast_fits, limits_of};
use act_kinds::{Actor, Boxed, Counter, ListKind, Table};
use act_types::{
    ActorId, CallerId, FutureId, ListOf, Method, NoMemory, Packet, ReleaseNote, Reply, Settled,
    SmallList, Value,
};
use std::alloc::Global;
use std::process::Abort;
use std::test::Fail;

/// An argument as a row writes it: a value, or a future that has a fault.
#[derive(Clone, Copy)]
enum Given {
    Good(Word),
    Bad(u32),
}

use Given::{Bad, Good};

/// A call of caller 1 to actor 1 by its name and number, and its answer.
type Row = (&'static str, u32, Verb, &'static [Given], Result<Word, Why>);

/// Some of these calls may run at once.
#[rattlefmt::skip]
static AT_ONCE: [(Row, bool); 6] = [
    (("before the first", 1, Get, &[], Ok(Int(0))), false),
    (("the first", 0, Add, &[Good(Int(5))], Ok(Int(5))), true),
    (("the first again", 0, Add, &[Good(Int(5))], Ok(Int(5))), false),
    (("the second", 1, Add, &[Good(Int(2))], Ok(Int(7))), true),
    (("a number too great", 65_536, Get, &[], Ok(Int(7))), false),
    (("the third", 2, Get, &[], Ok(Int(7))), true),
];

/// The next call and one that is held.
static HELD: Row = ("held", 4, Get, &[], Ok(Int(7)));

static NEXT: Row = ("before one that is held", 3, Get, &[], Ok(Int(7)));

static FIRST_GET: Row = ("to another actor", 0, Get, &[], Ok(Int(0)));

static FIRST_END: Row = ("terminate", 0, Terminate, &[], Ok(Unit));

static AFTER_THE_END: Row = ("after terminate", 1, Get, &[], Ok(Int(0)));

#[rattlefmt::skip]
static FAILED_ARGUMENTS: [Row; 4] = [
    ("no such key", 0, Get, &[Good(Txt("x"))], Err(NoKey)),
    ("a failed argument", 1, Put, &[Good(Txt("y")), Bad(0)], Err(Dependency(0))),
    ("the first of two", 2, Put, &[Bad(3), Bad(1)], Err(Dependency(3))),
    ("nothing was put", 3, Size, &[], Ok(Int(0))),
];

#[rattlefmt::skip]
static FROM_FIVE: [Row; 4] = [
    ("what it was opened with", 0, Get, &[], Ok(Int(5))),
    ("two more", 1, Add, &[Good(Int(2))], Ok(Int(7))),
    ("after a gap", 3, Get, &[], Ok(Int(7))),
    ("further after it", 4, Get, &[], Ok(Int(7))),
];

static ADD_TWO: [Row; 1] = [("the only call", 0, Add, &[Good(Int(2))], Ok(Int(2)))];

#[rattlefmt::skip]
static REFUSED_ENDS: [Row; 2] = [
    ("terminate with an argument", 0, Terminate, &[Good(Int(1))], Err(BadArgs)),
    ("terminate with a failed argument", 1, Terminate, &[Good(Int(1)), Bad(0)], Err(Dependency(0))),
];

#[rattlefmt::skip]
static THE_END: [Row; 2] = [
    ("terminate in its turn", 2, Terminate, &[], Ok(Unit)),
    ("after it", 3, Get, &[], Ok(Int(0))),
];

#[rattlefmt::skip]
static A_GAP: [Row; 3] = [
    ("before the gap", 0, Add, &[Good(Int(2))], Ok(Int(2))),
    ("after the gap", 2, Get, &[], Ok(Int(2))),
    ("further after it", 3, Get, &[], Ok(Int(2))),
];

#[rattlefmt::skip]
static OF_A_LIST: [Row; 5] = [
    ("a text", 0, Push, &[Good(Txt("x"))], Ok(Int(1))),
    ("a number", 1, Push, &[Good(Int(7))], Ok(Int(2))),
    ("an item", 2, At, &[Good(Int(1))], Ok(Int(7))),
    ("a failed argument", 3, Push, &[Bad(0)], Err(Dependency(0))),
    ("another text", 4, Push, &[Good(Txt("y"))], Ok(Int(3))),
];

fn settled_of(alloc: Global, given: Given) -> Result<Settled, NoMemory> {
    match given {
        Good(word) => Ok(Settled::Good(value_of(alloc, word)?)),
        Bad(future) => Ok(Settled::Bad(FutureId::new(future))),
    }
}

fn packet_of(alloc: Global, row: &Row) -> Result<Packet, NoMemory> {
    let (_, number, verb, givens, _) = row;
    let mut args = SmallList::new(alloc);
    for given in *givens {
        args.push(settled_of(alloc, *given)?)?;
    }
    Ok(Packet {
        caller: CallerId::new(1).unwrap(),
        actor: ActorId::new(1).unwrap(),
        number: *number,
        future: FutureId::new(*number),
        method: method(*verb),
        args,
    })
}

fn reply_of(alloc: Global, row: &Row) -> Result<Reply, NoMemory> {
    Ok(Reply {
        actor: ActorId::new(1).unwrap(),
        caller: CallerId::new(1).unwrap(),
        future: FutureId::new(row.1),
        place: row.1,
        answer: answer_of(alloc, &row.4)?,
    })
}

/// Actor 1 with this kind, and with caller 1 alone.
fn opened<K: Actor>(alloc: Global, kind: K) -> Result<Live<K>, NoMemory> {
    let callers = [CallerId::new(1).unwrap()];
    Live::open(alloc, ActorId::new(1).unwrap(), &callers, kind)
}

/// Brings a call, of which this is told.
fn assert_arrives<K: Actor, L: RunLog>(
    rt: &impl Abort,
    live: &mut Live<K, L>,
    name: &str,
    packet: Packet,
    arrival: Arrival,
) {
    let arrived = live.arrive(packet);
    let wanted = Ok(arrival);
    assert_is(rt, name, &arrived, &wanted);
    drop(arrived);
    drop(wanted);
}

/// What a call was answered, and what it is to be answered if it ran.
fn assert_reply(
    rt: &impl Abort,
    alloc: Global,
    row: &Row,
    ran: Option<Reply>,
    runs: bool,
) -> Result<(), NoMemory> {
    let wanted = match reply_of(alloc, row) {
        Ok(wanted) => runs.then_some(wanted),
        Err(refused) => {
            drop(ran);
            return Err(refused);
        }
    };
    assert_is(rt, row.0, &ran, &wanted);
    drop(ran);
    drop(wanted);
    Ok(())
}

/// Brings a call, which hasn't come before.
fn arrive_new<K: Actor, L: RunLog>(
    rt: &impl Abort,
    alloc: Global,
    live: &mut Live<K, L>,
    row: &Row,
) -> Result<(), NoMemory> {
    let packet = packet_of(alloc, row)?;
    assert_arrives(rt, live, row.0, packet, Arrival::New);
    Ok(())
}

/// Runs the call that comes next, which is this one, or none.
fn assert_runs<K: Actor, L: RunLog>(
    rt: &impl Abort,
    alloc: Global,
    live: &mut Live<K, L>,
    row: &Row,
    runs: bool,
) -> Result<(), NoMemory> {
    let ran = live.run(CallerId::new(1).unwrap())?;
    assert_reply(rt, alloc, row, ran, runs)
}

/// Brings each call, which hasn't come before.
fn arrive_each<K: Actor, L: RunLog>(
    rt: &impl Abort,
    alloc: Global,
    live: &mut Live<K, L>,
    rows: &[Row],
) -> Result<(), NoMemory> {
    for row in rows {
        arrive_new(rt, alloc, live, row)?;
    }
    Ok(())
}

/// Brings each call, and runs the next one where it came.
fn play<K: Actor, L: RunLog>(
    rt: &impl Abort,
    alloc: Global,
    live: &mut Live<K, L>,
    rows: &[Row],
) -> Result<(), NoMemory> {
    arrive_each(rt, alloc, live, rows)?;
    for row in rows {
        let is_next = row.1 as usize == live.ran();
        let has_next = live.has_next(CallerId::new(1).unwrap());
        assert_is(rt, row.0, &has_next, &is_next);
        assert_runs(rt, alloc, live, row, is_next)?;
    }
    Ok(())
}

/// Runs a call at once where it may, as it is to be told.
fn run_at_once<K: Actor, L: RunLog>(
    rt: &impl Abort,
    alloc: Global,
    live: &mut Live<K, L>,
    row: &Row,
    runs: bool,
) -> Result<(), NoMemory> {
    let packet = packet_of(alloc, row)?;
    if !live.runs_at_once(&packet) {
        drop(packet);
        return assert_reply(rt, alloc, row, None, runs);
    }
    let reply = live.run_now(packet)?;
    assert_reply(rt, alloc, row, Some(reply), runs)
}

/// Two actors hold no call, and have logs of one length and one state.
fn assert_alike<K: Actor, L: RunLog, M: RunLog>(
    rt: &impl Abort,
    alloc: Global,
    live: &Live<K, L>,
    other: &Live<K, M>,
) -> Result<(), NoMemory> {
    let shown = (live.holds_none(), other.holds_none(), live.ran());
    assert_is(rt, "both actors", &shown, &(true, true, other.ran()));
    let text = text_of(rt, alloc, other)?;
    let done = assert_text(rt, alloc, live, text.as_str());
    drop(text);
    done
}

/// Runs calls of which some may run at once: in the one actor at once where it may, and in the
/// other where it has arrived.
fn run_each_in_both<K: Actor>(
    rt: &impl Abort,
    alloc: Global,
    live: &mut Live<K>,
    other: &mut Live<K>,
) -> Result<(), NoMemory> {
    for (row, runs) in &AT_ONCE {
        run_at_once(rt, alloc, live, row, *runs)?;
        if *runs {
            arrive_new(rt, alloc, other, row)?;
            assert_runs(rt, alloc, other, row, true)?;
        }
        assert_alike(rt, alloc, live, other)?;
    }
    Ok(())
}

/// Where a call is held, the one before it doesn't run at once.
fn not_at_once_before<K: Actor>(
    rt: &impl Abort,
    alloc: Global,
    live: &mut Live<K>,
) -> Result<(), NoMemory> {
    arrive_new(rt, alloc, live, &HELD)?;
    assert_is(rt, HELD.0, &live.holds_none(), &false);
    run_at_once(rt, alloc, live, &NEXT, false)?;
    arrive_new(rt, alloc, live, &NEXT)?;
    assert_runs(rt, alloc, live, &NEXT, true)
}

/// A call that runs at once leaves what one leaves that arrives and runs: the reply, the log, the
/// state, and what arrives and runs after it.
fn at_once_beside<K: Actor>(
    rt: &impl Abort,
    alloc: Global,
    live: &mut Live<K>,
    kind: K,
) -> Result<(), NoMemory> {
    let mut other = opened(alloc, kind)?;
    let done = run_each_in_both(rt, alloc, live, &mut other);
    drop(other);
    done?;
    not_at_once_before(rt, alloc, live)
}

#[test]
fn at_once_as_arrived_and_run(rt: HostRuntime) -> Result<(), Fail> {
    let mut live = opened(rt.alloc(), Counter::open())?;
    let done = at_once_beside(&rt, rt.alloc(), &mut live, Counter::open());
    drop(live);
    done?;
    Ok(())
}

/// A call that was for another actor doesn't run at once.
#[test]
fn not_at_once_elsewhere(rt: HostRuntime) -> Result<(), Fail> {
    let alloc = rt.alloc();
    let callers = [CallerId::new(1).unwrap()];
    let mut live = Live::open(alloc, ActorId::new(2).unwrap(), &callers, Counter::open())?;
    let done = run_at_once(&rt, alloc, &mut live, &FIRST_GET, false);
    drop(live);
    done?;
    Ok(())
}

/// Runs a `terminate` at once, after which no call runs so.
fn end_at_once<K: Actor, L: RunLog>(
    rt: &impl Abort,
    alloc: Global,
    live: &mut Live<K, L>,
) -> Result<(), NoMemory> {
    run_at_once(rt, alloc, live, &FIRST_END, true)?;
    assert_is(rt, FIRST_END.0, &live.terminated(), &true);
    run_at_once(rt, alloc, live, &AFTER_THE_END, false)
}

#[test]
fn not_at_once_after_a_terminate(rt: HostRuntime) -> Result<(), Fail> {
    let mut live = opened(rt.alloc(), Counter::open())?;
    let done = end_at_once(&rt, rt.alloc(), &mut live);
    drop(live);
    done?;
    Ok(())
}

/// Plays these calls, after which the actor is killed, and keeps its name and the log of those that
/// ran.
fn play_and_kill<K: Actor, L: RunLog>(
    rt: &impl Abort,
    alloc: Global,
    mut live: Live<K, L>,
    rows: &[Row],
    ran: usize,
    text: &str,
) -> Result<(), NoMemory> {
    let done = match play(rt, alloc, &mut live, rows) {
        Ok(()) => assert_text(rt, alloc, &live, text),
        Err(refused) => Err(refused),
    };
    match done {
        Ok(()) => assert_killed(rt, live, ran),
        Err(_) => drop(live),
    }
    done
}

/// A killed actor keeps its name and its log.
fn assert_killed<K: Actor, L: RunLog>(rt: &impl Abort, live: Live<K, L>, ran: usize) {
    let id = live.id();
    let dead = live.kill();
    assert_is(
        rt,
        "killed",
        &(dead.id(), dead.run_log().count()),
        &(id, ran),
    );
    drop(dead);
}

#[test]
fn failed_arguments(rt: HostRuntime) -> Result<(), Fail> {
    let alloc = rt.alloc();
    let table: Boxed = Box::new(alloc, Table::open(alloc))?;
    let live = opened(alloc, table)?;
    play_and_kill(&rt, alloc, live, &FAILED_ARGUMENTS, 4, "is table")?;
    Ok(())
}

/// A counter that was asked to add 5.
fn counted() -> Result<Counter, NoMemory> {
    let mut counter = Counter::open();
    drop(counter.ask(&Method::Add, &[Value::Int(5)])?);
    Ok(counter)
}

#[test]
fn opened_later(rt: HostRuntime) -> Result<(), Fail> {
    let live = opened(rt.alloc(), counted()?)?;
    play_and_kill(&rt, rt.alloc(), live, &FROM_FIVE, 2, "is counter 7")?;
    Ok(())
}

#[test]
fn killed_with_calls_held(rt: HostRuntime) -> Result<(), Fail> {
    let live = opened(rt.alloc(), Counter::open())?;
    play_and_kill(&rt, rt.alloc(), live, &A_GAP, 1, "is counter 2")?;
    Ok(())
}

/// Actor 1 with this kind, and with caller 1 alone. It keeps none of the calls that it runs.
fn opened_for_none<K: Actor>(alloc: Global, kind: K) -> Result<Live<K, Past>, NoMemory> {
    let callers = [CallerId::new(1).unwrap()];
    Live::open_keeping(alloc, ActorId::new(1).unwrap(), &callers, kind)
}

#[test]
fn calls_that_are_not_kept(rt: HostRuntime) -> Result<(), Fail> {
    let alloc = rt.alloc();
    let table: Boxed = Box::new(alloc, Table::open(alloc))?;
    let live = opened_for_none(alloc, table)?;
    play_and_kill(&rt, alloc, live, &FAILED_ARGUMENTS, 4, "is table")?;
    let live = opened_for_none(alloc, counted()?)?;
    play_and_kill(&rt, alloc, live, &FROM_FIVE, 2, "is counter 7")?;
    Ok(())
}

#[test]
fn none_kept_and_terminated(rt: HostRuntime) -> Result<(), Fail> {
    let mut live = opened_for_none(rt.alloc(), Counter::open())?;
    let done = end_at_once(&rt, rt.alloc(), &mut live);
    assert_is(&rt, "ran", &live.ran(), &1);
    drop(live);
    done?;
    Ok(())
}

/// Release notes, each by its caller, its actor and what it tells.
type Note = (&'static str, u8, u8, u32, Arrival);

#[rattlefmt::skip]
static NOTES: [Note; 4] = [
    ("of a stranger", 9, 1, 0, Arrival::Stranger),
    ("to another actor", 1, 2, 0, Arrival::Stranger),
    ("after one call", 1, 1, 1, Arrival::New),
    ("a second note", 1, 1, 0, Arrival::Repeat),
];

static NOTE_AFTER_THREE: [Note; 1] = [("after three calls", 1, 1, 3, Arrival::New)];

/// Brings release notes.
fn note<K: Actor>(rt: &impl Abort, live: &mut Live<K>, notes: &[Note]) {
    for (name, from, to, after, arrival) in notes {
        let note = ReleaseNote {
            caller: caller(rt, *from),
            actor: actor(rt, *to),
            after: *after,
        };
        assert_is(rt, name, &live.released(note), arrival);
    }
}

/// Actor 1 with a counter, whose caller 1 submitted one call that hasn't come yet.
fn noted(rt: &impl Abort, alloc: Global, callers: &[CallerId]) -> Result<Live<Counter>, NoMemory>
    requires { CallersDiffer callers.now }
{
    let mut live = Live::open(alloc, ActorId::new(1).unwrap(), callers, Counter::open())?;
    note(rt, &mut live, &NOTES);
    let Err(live) = live.retire() else {
        panic!(rt; "retired before its call came");
    };
    Ok(live)
}

/// Adds the text of the state that actor 1 retired with, after one call.
fn tell_retired(
    rt: &impl Abort,
    retired: &Retired<Counter>,
    text: &mut String,
) -> Result<(), NoMemory> {
    retired.state_text(text)?;
    let seen = (retired.id().number(), retired.log().len());
    assert_is(rt, "retired", &seen, &(1, 1));
    Ok(())
}

/// The kind that the actor gives back has the state that it retired with.
fn give_back(
    rt: &impl Abort,
    retired: Retired<Counter>,
    text: &mut String,
) -> Result<(), NoMemory> {
    let told = tell_retired(rt, &retired, text);
    let kind = retired.into_kind();
    told?;
    let mut again = String::new(*text.allocator());
    kind.state_text(&mut again)?;
    assert_reads(rt, "given back", again.as_str(), text.as_str());
    Ok(())
}

/// Adds the text of the state that the actor retired with, or none where it didn't retire.
fn retire(rt: &impl Abort, live: Live<Counter>, text: &mut String) -> Result<(), NoMemory> {
    match live.retire() {
        Ok(retired) => give_back(rt, retired, text),
        Err(live) => {
            drop(live);
            Ok(())
        }
    }
}

/// Brings and runs the call, after which the actor is drained or not.
fn add_two<K: Actor>(
    rt: &impl Abort,
    alloc: Global,
    live: &mut Live<K>,
    drained: bool,
) -> Result<(), NoMemory> {
    play(rt, alloc, live, &ADD_TWO)?;
    assert_is(rt, "drained", &live.drained(), &drained);
    Ok(())
}

/// An actor with these callers retires with this text, once the call came, or doesn't retire.
fn assert_retires(
    rt: &impl Abort,
    alloc: Global,
    callers: &[CallerId],
    drained: bool,
    wanted: &str,
) -> Result<(), NoMemory>
    requires { CallersDiffer callers.now }
{
    let mut live = noted(rt, alloc, callers)?;
    let mut text = String::new(alloc);
    let done = match add_two(rt, alloc, &mut live, drained) {
        Ok(()) => retire(rt, live, &mut text),
        Err(refused) => {
            drop(live);
            Err(refused)
        }
    };
    if done.is_ok() {
        assert_reads(rt, "the text of the state", text.as_str(), wanted);
    }
    drop(text);
    done
}

#[test]
fn retired_once_drained(rt: HostRuntime) -> Result<(), Fail> {
    let c1 = CallerId::new(1).unwrap();
    let c2 = CallerId::new(2).unwrap();
    assert_retires(&rt, rt.alloc(), &[c1], true, "counter 2")?;
    assert_retires(&rt, rt.alloc(), &[c1, c2], false, "")?;
    Ok(())
}

/// Plays two calls of `terminate` that are refused, and one in its turn, at place 2, after which
/// nothing runs.
fn play_to_the_end<K: Actor>(
    rt: &impl Abort,
    alloc: Global,
    live: &mut Live<K>,
) -> Result<(), NoMemory> {
    let c1 = CallerId::new(1).unwrap();
    play(rt, alloc, live, &REFUSED_ENDS)?;
    note(rt, live, &NOTE_AFTER_THREE);
    arrive_each(rt, alloc, live, &THE_END)?;
    assert_is(rt, "before its turn", &live.terminated(), &false);
    assert_runs(rt, alloc, live, &THE_END[0], true)?;
    let ended = (live.terminated(), live.has_next(c1), live.drained());
    assert_is(rt, "after its turn", &ended, &(true, false, false));
    assert_runs(rt, alloc, live, &THE_END[1], false)
}

/// An actor that ran its `terminate` doesn't retire, and keeps its log.
fn assert_ended<K: Actor>(rt: &impl Abort, live: Live<K>) {
    let Err(live) = live.retire() else {
        panic!(rt; "retired after its end");
    };
    assert_killed(rt, live, 3);
}

/// Plays to the end, after which the actor is killed.
fn play_and_end<K: Actor>(
    rt: &impl Abort,
    alloc: Global,
    mut live: Live<K>,
) -> Result<(), NoMemory> {
    let done = play_to_the_end(rt, alloc, &mut live);
    match done {
        Ok(()) => assert_ended(rt, live),
        Err(_) => drop(live),
    }
    done
}

#[test]
fn ended_in_its_turn(rt: HostRuntime) -> Result<(), Fail> {
    let live = opened(rt.alloc(), Counter::open())?;
    play_and_end(&rt, rt.alloc(), live)?;
    Ok(())
}

/// An actor, its callers and its limit.
type Role = (u8, [u8; 2], Option<u32>);

#[rattlefmt::skip]
static CASTS: [(&str, &[Role], bool); 8] = [
    ("none", &[], true),
    ("callers in any order", &[(1, [1, 2], None), (2, [2, 1], None)], true),
    ("one actor twice", &[(1, [1, 2], None), (1, [2, 1], None)], false),
    ("one caller twice", &[(1, [1, 2], None), (2, [2, 2], None)], false),
    ("the least limit", &[(1, [1, 2], Some(1))], true),
    ("a limit of 0", &[(1, [1, 2], None), (2, [2, 1], Some(0))], false),
    ("the greatest limit", &[(1, [1, 2], Some(65_536))], true),
    ("a limit above it", &[(1, [1, 2], Some(65_537))], false),
];

static THREE_ROLES: [Role; 3] = [(3, [1, 2], Some(7)), (2, [1, 3], None), (1, [3, 2], None)];

/// The actors that name a caller.
static NAMED: [(&str, u8, &[u8]); 3] = [
    ("the first caller", 1, &[3, 2]),
    ("the second caller", 2, &[3, 1]),
    ("a stranger", 9, &[]),
];

fn cast_of(rt: &impl Abort, alloc: Global, role: &Role) -> Result<Cast<Counter>, NoMemory> {
    let mut callers = ListOf::new(alloc);
    for name in role.1 {
        callers.push(caller(rt, name))?;
    }
    Ok(Cast {
        actor: actor(rt, role.0),
        callers,
        kind: Counter::open(),
        pending: role.2,
    })
}

fn casts_of(
    rt: &impl Abort,
    alloc: Global,
    roles: &[Role],
) -> Result<Vec<Cast<Counter>>, NoMemory> {
    let mut casts = Vec::new(alloc);
    for role in roles {
        casts.push(cast_of(rt, alloc, role)?)?;
    }
    Ok(casts)
}

#[test]
fn casts_that_fit(rt: HostRuntime) -> Result<(), Fail> {
    for (name, roles, fits) in &CASTS {
        let casts = casts_of(&rt, rt.alloc(), roles)?;
        assert_is(&rt, name, &cast_fits(casts.as_slice()), fits);
        drop(casts);
    }
    Ok(())
}

/// Compares the actors that name a caller.
fn assert_named(
    rt: &impl Abort,
    alloc: Global,
    casts: &[Cast<Counter>],
    row: &(&str, u8, &[u8]),
) -> Result<(), NoMemory> {
    let (name, number, wanted) = *row;
    let actors = actors_of(alloc, casts, caller(rt, number))?;
    let numbers = actors.as_slice().iter().map(|a| a.number());
    assert_is(rt, name, &numbers.eq(wanted.iter().copied()), &true);
    drop(actors);
    Ok(())
}

fn assert_all_named(
    rt: &impl Abort,
    alloc: Global,
    casts: &[Cast<Counter>],
) -> Result<(), NoMemory> {
    for row in &NAMED {
        assert_named(rt, alloc, casts, row)?;
    }
    let limits = limits_of(alloc, casts, caller(rt, 1))?;
    let wanted = [(actor(rt, 3), Some(7)), (actor(rt, 2), None)];
    assert_eq!(rt; limits.as_slice(), wanted.as_slice());
    drop(limits);
    Ok(())
}

#[test]
fn actors_that_name_a_caller(rt: HostRuntime) -> Result<(), Fail> {
    let casts = casts_of(&rt, rt.alloc(), &THREE_ROLES)?;
    let done = assert_all_named(&rt, rt.alloc(), casts.as_slice());
    drop(casts);
    done?;
    Ok(())
}

/// The state's text, which is asked for once more where memory is refused.
fn text_of<K: Actor, L: RunLog>(
    rt: &impl Abort,
    alloc: Global,
    live: &Live<K, L>,
) -> Result<String, NoMemory> {
    let mut text = String::new(alloc);
    text.push_str("is ")?;
    if live.state_text(&mut text).is_err() {
        assert_reads(rt, "a text that was refused", text.as_str(), "is ");
        assert_is(rt, "the text again", &live.state_text(&mut text), &Ok(()));
    }
    Ok(text)
}

fn assert_text<K: Actor, L: RunLog>(
    rt: &impl Abort,
    alloc: Global,
    live: &Live<K, L>,
    wanted: &str,
) -> Result<(), NoMemory> {
    let text = text_of(rt, alloc, live)?;
    assert_reads(rt, "the text of the state", text.as_str(), wanted);
    drop(text);
    Ok(())
}

/// Brings a call that came back as it went, since memory was refused.
fn bring_back<K: Actor>(
    rt: &impl Abort,
    live: &mut Live<K>,
    name: &str,
    back: Packet,
    wanted: Packet,
) {
    assert_is(rt, name, &back, &wanted);
    drop(wanted);
    let arrival = live.arrival(back.actor, back.caller, back.number);
    assert_is(rt, name, &arrival, &Arrival::New);
    assert_arrives(rt, live, name, back, Arrival::New);
}

/// Brings a new call, and what came back of it where memory is refused.
fn bring_at_last<K: Actor>(
    rt: &impl Abort,
    alloc: Global,
    live: &mut Live<K>,
    row: &Row,
    wanted: Packet,
) -> Result<(), NoMemory> {
    let before = live.has_next(CallerId::new(1).unwrap());
    let packet = match packet_of(alloc, row) {
        Ok(packet) => packet,
        Err(refused) => {
            drop(wanted);
            return Err(refused);
        }
    };
    match live.arrive(packet) {
        Ok(_) => drop(wanted),
        Err(back) => {
            let after = live.has_next(CallerId::new(1).unwrap());
            assert_is(rt, row.0, &after, &before);
            bring_back(rt, live, row.0, back, wanted);
        }
    }
    Ok(())
}

/// Brings a call twice.
fn bring<K: Actor>(
    rt: &impl Abort,
    alloc: Global,
    live: &mut Live<K>,
    row: &Row,
) -> Result<(), NoMemory> {
    let wanted = packet_of(alloc, row)?;
    bring_at_last(rt, alloc, live, row, wanted)?;
    let packet = packet_of(alloc, row)?;
    assert_arrives(rt, live, row.0, packet, Arrival::Repeat);
    Ok(())
}

/// Where memory is refused, a call that is to run leaves all as it was, and runs at last.
fn run_again<K: Actor>(
    rt: &impl Abort,
    alloc: Global,
    live: &mut Live<K>,
    before: &str,
    place: usize,
) -> Result<Option<Reply>, NoMemory> {
    let caller = CallerId::new(1).unwrap();
    let shown = (live.has_next(caller), live.log().len());
    assert_is(rt, "a run that was refused", &shown, &(true, place));
    assert_text(rt, alloc, live, before)?;
    let again = live.run(caller);
    assert_is(rt, "the run again", &again.is_ok(), &true);
    again
}

/// Runs the call that comes next, and once more where memory is refused.
fn run_next<K: Actor>(
    rt: &impl Abort,
    alloc: Global,
    live: &mut Live<K>,
) -> Result<Option<Reply>, NoMemory> {
    let before = text_of(rt, alloc, live)?;
    let place = live.log().len();
    let ran = live.run(CallerId::new(1).unwrap());
    if ran.is_ok() {
        drop(before);
        return ran;
    }
    drop(ran);
    let again = run_again(rt, alloc, live, before.as_str(), place);
    drop(before);
    again
}

/// Opens an actor with a list, and once more where memory is refused.
fn opened_list(rt: &impl Abort, alloc: Global) -> Result<Live<ListKind>, NoMemory> {
    let live = opened(alloc, ListKind::open(alloc));
    if live.is_ok() {
        return live;
    }
    drop(live);
    let again = opened(alloc, ListKind::open(alloc));
    assert_is(rt, "opened again", &again.is_ok(), &true);
    again
}

/// Makes room for the calls of a list, and once more where memory is refused. Nothing runs by it.
fn make_room<K: Actor>(rt: &impl Abort, live: &mut Live<K>) {
    let has_room = live.reserve(OF_A_LIST.len()).is_ok() || live.reserve(OF_A_LIST.len()).is_ok();
    assert_is(
        rt,
        "room for calls",
        &(has_room, live.log().len()),
        &(true, 0),
    );
}

/// Brings the calls of a list in reverse, and runs them in turn.
fn play_list<K: Actor>(rt: &impl Abort, alloc: Global, live: &mut Live<K>) -> Result<(), NoMemory> {
    for row in OF_A_LIST.iter().rev() {
        bring(rt, alloc, live, row)?;
    }
    run_list(rt, alloc, live)?;
    assert_text(rt, alloc, live, "is list \"x\" 7 \"y\"")
}

fn run_list<K: Actor>(rt: &impl Abort, alloc: Global, live: &mut Live<K>) -> Result<(), NoMemory> {
    for row in &OF_A_LIST {
        let ran = run_next(rt, alloc, live)?;
        assert_reply(rt, alloc, row, ran, true)?;
    }
    Ok(())
}

/// Memory is refused from outside, at most once.
#[test]
fn refused_memory_changes_nothing(rt: HostRuntime) -> Result<(), Fail> {
    let mut live = opened_list(&rt, rt.alloc())?;
    make_room(&rt, &mut live);
    let done = play_list(&rt, rt.alloc(), &mut live);
    drop(live);
    done?;
    Ok(())
}
