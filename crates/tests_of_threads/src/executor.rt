//! Whole runs, with what must come of them whatever the schedule.

mod codes;
mod ends;
mod meeting;
pub(crate) mod scene;
mod waits;

use crate::places::Places;
use crate::rows::assert_is;
use crate::told::text_of;
use Given::{Answer, Int, Key, Nothing, Pair};
use Kind::{ACounter, AList, ATable, AnAccount};
use Row::{Await, Call};
use Verb::{Add, Deposit, Get, Push, Put, Terminate, Withdraw};
use act_executor::{NoGate, RunFault};
use codes::Move;
use ends::{has_counted_to, is_of_all_sizes, is_terminated, runs_of_two};
use meeting::Meeting;
use scene::{Case, Given, Kind, Role, Row, Verb, caller, ran};
use std::alloc::Global;
use std::process::Abort;
use std::sync::Wait;
use std::test::Fail;
use std::thread::Threads;

/// A counter of caller 1, and two counters that callers 1 and 2 may call.
const OF_ONE: &[Role] = &[(1, &[1], ACounter, None)];

const OF_TWO: &[Role] = &[(1, &[1, 2], ACounter, None), (2, &[1, 2], ACounter, None)];

/// Eight counters of caller 1.
#[rattlefmt::skip]
const EIGHT: &[Role] = &[
    (1, &[1], ACounter, None), (2, &[1], ACounter, None), (3, &[1], ACounter, None), (4, &[1], ACounter, None),
    (5, &[1], ACounter, None), (6, &[1], ACounter, None), (7, &[1], ACounter, None), (8, &[1], ACounter, None),
];

const ALL: &[u8] = &[1, 2, 3, 4, 5, 6, 7, 8, 9, 10, 11, 12, 13, 14, 15, 16];

/// Eight counters of all callers, by falling number.
#[rattlefmt::skip]
const OF_ALL: &[Role] = &[
    (8, ALL, ACounter, None), (7, ALL, ACounter, None), (6, ALL, ACounter, None), (5, ALL, ACounter, None),
    (4, ALL, ACounter, None), (3, ALL, ACounter, None), (2, ALL, ACounter, None), (1, ALL, ACounter, None),
];

/// Each of the callers adds 1 to each of eight actors.
#[rattlefmt::skip]
const ONE_EACH: &[(u8, Row, u32)] = &[
    (0, Call(1, Add, Int(1)), 1), (0, Call(2, Add, Int(1)), 1), (0, Call(3, Add, Int(1)), 1),
    (0, Call(4, Add, Int(1)), 1), (0, Call(5, Add, Int(1)), 1), (0, Call(6, Add, Int(1)), 1),
    (0, Call(7, Add, Int(1)), 1), (0, Call(8, Add, Int(1)), 1),
];

/// The same by code.
#[rattlefmt::skip]
const ADDS_TO_EACH: &[Move] = &[
    Move::Add(1, 1), Move::Add(2, 1), Move::Add(3, 1), Move::Add(4, 1), Move::Add(5, 1), Move::Add(6, 1),
    Move::Add(7, 1), Move::Add(8, 1),
];

/// What is left of eight counters of caller 1.
const EIGHT_LEFT: &str =
    "c1: 1 1 1 1 1 1 1 1\na1 retired counter 1: c1.0\na2 retired counter 1: c1.1\n\
    a3 retired counter 1: c1.2\na4 retired counter 1: c1.3\na5 retired counter 1: c1.4\na6 retired counter 1: c1.5\n\
    a7 retired counter 1: c1.6\na8 retired counter 1: c1.7\n";

/// What is left of two counters where nobody calls them.
const NOTHING_CALLED: &str = "c1:\nc2:\na1 retired counter 0:\na2 retired counter 0:\n";

/// Runs a case, of which one of its ends is to be left.
fn play<R: Threads + Wait + Sync + Abort>(
    rt: &R,
    alloc: Global,
    case: &Case,
) -> Result<(), RunFault> {
    let joined = ran(rt, alloc, case, &NoGate)?;
    let text = text_of(alloc, &joined);
    drop(joined);
    let text = text?;
    let can_be = case.ends.contains(&text.as_str());
    assert!(rt; can_be, "{} {text}", case.name);
    drop(text);
    Ok(())
}

fn play_all<R: Threads + Wait + Sync + Abort>(
    rt: &R,
    alloc: Global,
    cases: &[Case],
    times: u32,
) -> Result<(), RunFault> {
    for case in cases {
        for _ in 0..times {
            play(rt, alloc, case)?;
        }
    }
    Ok(())
}

// ---- plans

#[rattlefmt::skip]
static A_TABLE_AND_AN_ACCOUNT: Case = Case { name: "a_table_and_an_account",
    roles: &[(1, &[1, 2], ATable, None), (2, &[2], AnAccount, None)], planned: &[1, 2],
    steps: &[(1, Call(1, Put, Pair(5)), 1), (1, Call(1, Get, Key), 1),
        (2, Call(2, Deposit, Int(10)), 1), (2, Call(2, Withdraw, Answer(0)), 1)],
    codes: &[], ends: &["c1: unit 5\nc2: 10 0\n\
        a1 retired table \"k\" 5: c1.0 c1.1\na2 retired account 0: c2.0 c2.1\n"] };

/// One caller adds twice and the other kills. The log is a prefix of the calls, an answer is a number only where its
/// call is in the log, and the second only where the first is.
#[rattlefmt::skip]
static A_KILL: Case = Case { name: "a_kill_in_the_middle", roles: &[(1, &[1, 2], ACounter, None)], planned: &[1, 2],
    steps: &[(1, Call(1, Add, Int(1)), 1), (1, Call(1, Add, Int(2)), 1), (2, Row::Kill(1), 1)], codes: &[],
    ends: &[
        "c1: ActorDied ActorDied\nc2:\na1 killed:\n",
        "c1: ActorDied ActorDied\nc2:\na1 killed: c1.0\n",
        "c1: ActorDied ActorDied\nc2:\na1 killed: c1.0 c1.1\n",
        "c1: 1 ActorDied\nc2:\na1 killed: c1.0\n",
        "c1: 1 ActorDied\nc2:\na1 killed: c1.0 c1.1\n",
        "c1: 1 3\nc2:\na1 killed: c1.0 c1.1\n",
    ] };

#[rattlefmt::skip]
static A_TERMINATE: Case = Case { name: "a_terminate_in_every_schedule", roles: OF_ONE, planned: &[1], codes: &[],
    steps: &[(1, Call(1, Add, Int(5)), 1), (1, Call(1, Terminate, Nothing), 1)],
    ends: &["c1: 5 unit\na1 killed: c1.0 c1.1\n"] };

/// A caller pushes three numbers to a list, of which each waits for the one before.
#[rattlefmt::skip]
static WAITING_PUSHES: Case = Case { name: "waiting_pushes_in_every_schedule", roles: &[(1, &[1], AList, Some(1))], planned: &[1],
    steps: &[(1, Call(1, Push, Int(4)), 1), (1, Call(1, Push, Int(5)), 1), (1, Call(1, Push, Int(6)), 1)], codes: &[],
    ends: &["c1: 1 2 3\na1 retired list 4 5 6: c1.0 c1.1 c1.2\n"] };

#[rattlefmt::skip]
static PLANS: [Case; 2] = [
    // An answer is awaited and passed on, and nobody calls the list.
    Case { name: "an_answer_awaited", roles: &[(1, &[1], ACounter, None), (2, &[], AList, None)], planned: &[1],
        steps: &[(1, Call(1, Add, Int(1)), 1), (1, Await(0), 1), (1, Call(1, Add, Answer(0)), 1)], codes: &[],
        ends: &["c1: 1 2\na1 retired counter 2: c1.0 c1.1\na2 retired list:\n"] },
    // The line of kills has room for 16, so the last are asked of an actor that took one.
    Case { name: "twenty_kills", roles: OF_ONE, planned: &[1], steps: &[(1, Row::Kill(1), 20)], codes: &[],
        ends: &["c1:\na1 killed:\n"] },
];

/// Each call of a chain needs the answer of the one before, and the last waits for the first, which goes to the same
/// actor.
#[rattlefmt::skip]
static A_WAITING_CHAIN: Case = Case { name: "a_waiting_chain_in_every_schedule", planned: &[1], codes: &[],
    roles: &[(1, &[1], ACounter, Some(1)), (2, &[1], ACounter, Some(1))],
    steps: &[(1, Call(1, Add, Int(1)), 1), (1, Call(2, Add, Answer(0)), 1), (1, Call(1, Add, Answer(1)), 1)],
    ends: &["c1: 1 1 2\na1 retired counter 2: c1.0 c1.2\na2 retired counter 1: c1.1\n"] };

#[test]
fn plans_of_one_end(rt: HostRuntime) -> Result<(), Fail> {
    play_all(&rt, rt.alloc(), &PLANS, 1)?;
    Ok(())
}

/// Of this and the other cases that run once memory and threads are refused from outside, at most once.
#[test]
fn a_table_and_an_account(rt: HostRuntime) -> Result<(), Fail> {
    play(&rt, rt.alloc(), &A_TABLE_AND_AN_ACCOUNT)?;
    Ok(())
}

#[test]
fn a_kill_once(rt: HostRuntime) -> Result<(), Fail> {
    play(&rt, rt.alloc(), &A_KILL)?;
    Ok(())
}

#[test]
fn a_terminate_once(rt: HostRuntime) -> Result<(), Fail> {
    play(&rt, rt.alloc(), &A_TERMINATE)?;
    Ok(())
}

#[test]
fn waiting_pushes_once(rt: HostRuntime) -> Result<(), Fail> {
    play(&rt, rt.alloc(), &WAITING_PUSHES)?;
    Ok(())
}

/// A kill in the middle, a `terminate`, pushes that wait and a chain that waits.
#[test]
fn in_every_schedule(rt: HostRuntime) -> Result<(), Fail> {
    for _ in 0..50u32 {
        play(&rt, rt.alloc(), &A_KILL)?;
        play(&rt, rt.alloc(), &A_TERMINATE)?;
        play(&rt, rt.alloc(), &WAITING_PUSHES)?;
        play(&rt, rt.alloc(), &A_WAITING_CHAIN)?;
    }
    Ok(())
}

/// One caller adds and terminates, and the other adds three times.
#[rattlefmt::skip]
static A_TERMINATE_BESIDE_CALLS: Case = Case { name: "a_terminate_beside_calls",
    roles: &[(1, &[1, 2], ACounter, None)], planned: &[1, 2], codes: &[], ends: &[],
    steps: &[(1, Call(1, Add, Int(5)), 1), (1, Call(1, Terminate, Nothing), 1), (2, Call(1, Add, Int(1)), 3)] };

#[test]
fn a_terminate_beside_calls(rt: HostRuntime) -> Result<(), Fail> {
    for _ in 0..50u32 {
        let joined = ran(&rt, rt.alloc(), &A_TERMINATE_BESIDE_CALLS, &NoGate)?;
        let is_terminated = is_terminated(&joined);
        drop(joined);
        assert_is(&rt, "a_terminate_beside_calls", &is_terminated, &true);
    }
    Ok(())
}

#[rattlefmt::skip]
static TWO_HUNDRED: Case = Case { name: "two_hundred_in_order", roles: OF_ONE, planned: &[1],
    steps: &[(1, Call(1, Add, Int(1)), 200)], codes: &[], ends: &[] };

#[test]
fn two_hundred_in_order(rt: HostRuntime) -> Result<(), Fail> {
    let joined = ran(&rt, rt.alloc(), &TWO_HUNDRED, &NoGate)?;
    let has_counted = has_counted_to(&joined, 200);
    drop(joined);
    assert_is(&rt, "two_hundred_in_order", &has_counted, &true);
    Ok(())
}

/// Sixteen callers add 1 to each of eight counters, whose casts come by falling number: by plans, and by code.
#[rattlefmt::skip]
static ALL_SIZES: [Case; 2] = [
    Case { name: "all_sizes", roles: OF_ALL, planned: ALL, steps: ONE_EACH, codes: &[], ends: &[] },
    Case { name: "sixteen_codes_and_eight_actors", roles: OF_ALL, planned: &[], steps: &[], ends: &[],
        codes: &[(1, ADDS_TO_EACH), (2, ADDS_TO_EACH), (3, ADDS_TO_EACH), (4, ADDS_TO_EACH), (5, ADDS_TO_EACH),
            (6, ADDS_TO_EACH), (7, ADDS_TO_EACH), (8, ADDS_TO_EACH), (9, ADDS_TO_EACH), (10, ADDS_TO_EACH),
            (11, ADDS_TO_EACH), (12, ADDS_TO_EACH), (13, ADDS_TO_EACH), (14, ADDS_TO_EACH), (15, ADDS_TO_EACH),
            (16, ADDS_TO_EACH)] },
];

fn play_sizes<R: Threads + Wait + Sync + Abort>(
    rt: &R,
    alloc: Global,
    case: &Case,
) -> Result<(), RunFault> {
    let joined = ran(rt, alloc, case, &NoGate)?;
    let is_right = is_of_all_sizes(alloc, &joined);
    drop(joined);
    assert_is(rt, case.name, &is_right?, &true);
    Ok(())
}

#[test]
fn all_sizes(rt: HostRuntime) -> Result<(), Fail> {
    for case in &ALL_SIZES {
        play_sizes(&rt, rt.alloc(), case)?;
    }
    Ok(())
}

// ---- gates

/// Runs, by the actors of each, a bit for one, in which the first runs of all actors see each other.
#[rattlefmt::skip]
static MEETINGS: [(Case, u64); 3] = [
    (Case { name: "gate_two_actors", roles: OF_TWO, planned: &[1, 2], codes: &[],
        steps: &[(1, Call(1, Add, Int(1)), 1), (2, Call(2, Add, Int(1)), 1)],
        ends: &["c1: 1\nc2: 1\na1 retired counter 1: c1.0\na2 retired counter 1: c2.0\n"] }, 0b11),
    (Case { name: "gate_eight_actors", roles: EIGHT, planned: &[1], steps: ONE_EACH, codes: &[],
        ends: &[EIGHT_LEFT] }, 0xff),
    (Case { name: "gate_of_a_code", roles: EIGHT, planned: &[], steps: &[], codes: &[(1, ADDS_TO_EACH)],
        ends: &[EIGHT_LEFT] }, 0xff),
];

fn play_meeting<R: Threads + Wait + Sync + Abort>(
    rt: &R,
    alloc: Global,
    case: &Case,
    all: u64,
) -> Result<(), RunFault> {
    let meeting = Meeting::of(all);
    let joined = ran(rt, alloc, case, &meeting)?;
    let text = text_of(alloc, &joined);
    drop(joined);
    let text = text?;
    let is_left = case.ends.contains(&text.as_str());
    drop(text);
    assert_is(rt, case.name, &(is_left, meeting.have_met()), &(true, true));
    Ok(())
}

#[test]
fn actors_run_at_the_same_time(rt: HostRuntime) -> Result<(), Fail> {
    for (case, all) in &MEETINGS {
        play_meeting(&rt, rt.alloc(), case, *all)?;
    }
    Ok(())
}

/// Caller 1's first call to actor 1 waits for an answer of actor 2, and six later ones are sent before it. Actor 1 has
/// 10 calls in all, and actor 2 has 12.
#[rattlefmt::skip]
static EACH_PLACE: Case = Case { name: "each_place_of_each_actor_once", planned: &[1, 2, 3], codes: &[], ends: &[],
    roles: &[(1, &[1, 2, 3], ACounter, None), (2, &[1, 2, 3], ACounter, None)],
    steps: &[(1, Call(2, Add, Int(1)), 1), (1, Call(1, Add, Answer(0)), 1), (1, Call(1, Add, Int(1)), 6),
        (2, Call(1, Add, Int(1)), 3), (2, Call(2, Add, Int(1)), 5), (3, Call(2, Add, Int(1)), 6)] };

/// Some of the calls run as they come, and some once the call before them has come.
#[test]
fn each_place_of_each_actor_once(rt: HostRuntime) -> Result<(), Fail> {
    let places = Places::new(rt.alloc())?;
    let joined = ran(&rt, rt.alloc(), &EACH_PLACE, &places);
    let each_once = places.has_each_once([10, 12]);
    drop(places);
    let joined = joined?;
    let runs = runs_of_two(&joined);
    drop(joined);
    assert_is(
        &rt,
        EACH_PLACE.name,
        &(runs, each_once),
        &([Some(10), Some(12)], true),
    );
    Ok(())
}

/// Two of three plans are bad, both at their second step.
#[rattlefmt::skip]
static BAD_PLANS: Case = Case { name: "bad_plans_come_first", planned: &[3, 2, 1], codes: &[], ends: &[],
    roles: &[(1, &[1, 2, 3], ACounter, None)],
    steps: &[(3, Call(1, Add, Int(1)), 1), (2, Row::Release(1), 1), (2, Row::Copy(1), 1), (1, Row::Release(1), 1),
        (1, Row::Kill(1), 1)] };

/// The fault is of the lower caller, though its plan comes later. The good plan isn't run either.
#[test]
fn bad_plans_come_first(rt: HostRuntime) -> Result<(), Fail> {
    let places = Places::new(rt.alloc())?;
    let fault = ran(&rt, rt.alloc(), &BAD_PLANS, &places).err();
    let none_ran = places.has_each_once([0, 0]);
    drop(places);
    let wanted = Some(RunFault::BadPlan(caller(1), 1));
    assert_is(&rt, BAD_PLANS.name, &(fault, none_ran), &(wanted, true));
    Ok(())
}

// ---- codes

/// The plan beside a code: it adds 5 to actor 2.
const FIVE: &[(u8, Row, u32)] = &[(2, Call(2, Add, Int(5)), 1)];

/// The code adds 1 until it is answered 3, beside a plan. A code that asks for no more adds once.
#[rattlefmt::skip]
static ANSWERS_DECIDE: [Case; 2] = [
    Case { name: "answers_decide, thrice", roles: OF_TWO, planned: &[2], steps: FIVE,
        codes: &[(1, &[Move::CountTo(1, 3)])],
        ends: &["c1: 1 2 3\nc2: 5\na1 retired counter 3: c1.0 c1.1 c1.2\na2 retired counter 5: c2.0\n"] },
    Case { name: "answers_decide, once", roles: OF_TWO, planned: &[2], steps: FIVE,
        codes: &[(1, &[Move::CountTo(1, 1)])],
        ends: &["c1: 1\nc2: 5\na1 retired counter 1: c1.0\na2 retired counter 5: c2.0\n"] },
];

/// Handles that are let go are refused, and the others serve on.
#[rattlefmt::skip]
static LETS_ALL_GO: Case = Case { name: "lets_all_go", roles: OF_TWO, planned: &[2], steps: &[],
    codes: &[(1, &[Move::Copy(1), Move::Release(1), Move::Holds(1, 1), Move::Release(1),
        Move::IsRefused(1, false), Move::Ask(2), Move::Has(1)])],
    ends: &["c1: 1\nc2:\na1 retired counter 0:\na2 retired counter 1: c1.0\n"] };

#[rattlefmt::skip]
static CODES: [Case; 9] = [
    // A code hands on the answer of a call that it doesn't wait for.
    Case { name: "an_answer_handed_on", roles: OF_TWO, planned: &[2], steps: &[],
        codes: &[(1, &[Move::Add(1, 4), Move::AddAnswer(2, 0)])],
        ends: &["c1: 4 4\nc2:\na1 retired counter 4: c1.0\na2 retired counter 4: c1.1\n"] },
    Case { name: "answers_of_several, any", roles: OF_TWO, planned: &[2], steps: &[],
        codes: &[(1, &[Move::Add(1, 1), Move::Add(2, 1), Move::WaitEither, Move::Wait(0),
            Move::WaitAny([0, 1], 2, Some(0))])],
        ends: &["c1: 1 1\nc2:\na1 retired counter 1: c1.0\na2 retired counter 1: c1.1\n"] },
    Case { name: "answers_of_several, all", roles: OF_TWO, planned: &[2], steps: &[],
        codes: &[(1, &[Move::Add(1, 1), Move::Add(2, 1), Move::WaitAll([0, 1], 2, true), Move::IsOne(0),
            Move::IsOne(1), Move::WaitAll([0, 0], 0, true), Move::WaitAll([0, 7], 2, false)])],
        ends: &["c1: 1 1\nc2:\na1 retired counter 1: c1.0\na2 retired counter 1: c1.1\n"] },
    // A wait is refused for any of no futures, or of one that isn't the code's own.
    Case { name: "turns_and_no_futures, none", roles: OF_TWO, planned: &[2], steps: &[],
        codes: &[(1, &[Move::Add(1, 1), Move::Wait(0), Move::WaitAny([0, 0], 0, None), Move::WaitAny([7, 0], 1, None),
            Move::WaitAny([0, 7], 2, None), Move::WaitAny([0, 0], 1, Some(0))])],
        ends: &["c1: 1\nc2:\na1 retired counter 1: c1.0\na2 retired counter 0:\n"] },
    Case { name: "turns_and_no_futures, turns", roles: OF_TWO, planned: &[2], steps: &[],
        codes: &[(1, &[Move::Add(1, 1), Move::Poll(0), Move::IsOne(0)])],
        ends: &["c1: 1\nc2:\na1 retired counter 1: c1.0\na2 retired counter 0:\n"] },
    // Under a limit of 1 a code submits four calls, each of which waits for the answer before.
    Case { name: "a_full_limit_waits", roles: &[(1, &[1], ACounter, Some(1))], planned: &[], steps: &[],
        codes: &[(1, &[Move::Add(1, 1), Move::IsAtLimit(1), Move::Add(1, 1), Move::IsAtLimit(1), Move::Add(1, 1),
            Move::IsAtLimit(1), Move::Add(1, 1), Move::IsAtLimit(1)])],
        ends: &["c1: 1 2 3 4\na1 retired counter 4: c1.0 c1.1 c1.2 c1.3\n"] },
    // A code that submits nothing lets its handles go, so that the actors retire.
    Case { name: "submits_nothing", roles: OF_TWO, planned: &[2], steps: &[], codes: &[(1, &[])],
        ends: &[NOTHING_CALLED] },
    // A future that it hasn't is refused, and nobody waits.
    Case { name: "waits_for_no_call", roles: OF_TWO, planned: &[2], steps: &[],
        codes: &[(1, &[Move::WaitForNext])], ends: &[NOTHING_CALLED] },
    // An actor whose cast doesn't name the caller is refused.
    Case { name: "asks_a_stranger", roles: &[(1, &[1], ACounter, None), (2, &[2], ACounter, None)], planned: &[],
        steps: &[], codes: &[(1, &[Move::IsRefused(2, true)])], ends: &[NOTHING_CALLED] },
];

/// A code that asks for a kill has an answer all the same. These are all that a kill before a call can leave.
#[rattlefmt::skip]
static CODE_KILLS: [Case; 1] = [Case { name: "kills", roles: OF_TWO, planned: &[2], steps: &[],
    codes: &[(1, &[Move::Kill(1), Move::Kill(1), Move::Ask(1)])],
    ends: &[
        "c1: ActorDied\nc2:\na1 killed:\na2 retired counter 0:\n",
        "c1: ActorDied\nc2:\na1 killed: c1.0\na2 retired counter 0:\n",
        "c1: 1\nc2:\na1 killed: c1.0\na2 retired counter 0:\n",
    ] }];

/// It gives up at once, or after calls.
#[rattlefmt::skip]
static GIVES_UP: [Case; 3] = [
    Case { name: "gives_up, 0", roles: OF_TWO, planned: &[2], steps: FIVE, ends: &[],
        codes: &[(1, &[Move::GiveUp])] },
    Case { name: "gives_up, 1", roles: OF_TWO, planned: &[2], steps: FIVE, ends: &[],
        codes: &[(1, &[Move::Add(1, 1), Move::GiveUp])] },
    Case { name: "gives_up, 40", roles: OF_TWO, planned: &[2], steps: FIVE, ends: &[],
        codes: &[(1, &[Move::AddOnes(1, 40), Move::GiveUp])] },
];

#[test]
fn answers_decide(rt: HostRuntime) -> Result<(), Fail> {
    play_all(&rt, rt.alloc(), &ANSWERS_DECIDE, 1)?;
    Ok(())
}

#[test]
fn lets_all_go(rt: HostRuntime) -> Result<(), Fail> {
    play(&rt, rt.alloc(), &LETS_ALL_GO)?;
    Ok(())
}

#[test]
fn codes_of_one_end(rt: HostRuntime) -> Result<(), Fail> {
    play_all(&rt, rt.alloc(), &CODES, 1)?;
    Ok(())
}

#[test]
fn a_code_kills(rt: HostRuntime) -> Result<(), Fail> {
    play_all(&rt, rt.alloc(), &CODE_KILLS, 50)?;
    Ok(())
}

/// The run ends for want of memory. Other faults stay what they are.
fn gave_up<R: Threads + Wait + Sync>(rt: &R, alloc: Global, case: &Case) -> Result<bool, RunFault> {
    match ran(rt, alloc, case, &NoGate).err() {
        None => Ok(false),
        Some(RunFault::NoMemory) => Ok(true),
        Some(fault) => Err(fault),
    }
}

/// All threads have ended, and the fault is want of memory.
#[test]
fn gives_up(rt: HostRuntime) -> Result<(), Fail> {
    for case in &GIVES_UP {
        let has_given_up = gave_up(&rt, rt.alloc(), case)?;
        assert_is(&rt, case.name, &has_given_up, &true);
    }
    Ok(())
}
