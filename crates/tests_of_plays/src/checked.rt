//! Histories that some play ends in, and others, worked by hand.

use act_histories::{CheckFault, Reasons, Stock, check_history};
use act_kinds::{Account, Boxed, Counter, ListKind, Table};
use act_types::MAX_ACTORS;
use std::process::Abort;
use std::test::Fail;

/// A history, what is written of it, and the answer.
struct Row {
    history: &'static str,
    output: &'static str,
    answer: Result<(), CheckFault>,
}

const TWO_CALLS: Row = Row {
    history: "actor a1 counter c1\nsubmit c1 a1 add 5\nsubmit c1 a1 add @0\nc1.0 a1 = 5\nc1.1 a1 = 10\n\
        a1 retired counter 10\na1.0 c1.0 add 5\na1.1 c1.1 add 5\n",
    output: "actor a1 counter c1\nsubmit c1 a1 add 5\nsubmit c1 a1 add @0\nsend c1 0\ndeliver 0\nrun a1 c1\n\
        collect 0\nsend c1 1\ndeliver 1\nrun a1 c1\ncollect 1\nrelease c1 a1\ndeliver 2\nretire a1\n",
    answer: Ok(()),
};

/// No line submits the calls, and the second one never ran.
const A_DEATH: Row = Row {
    history: "actor a1 counter c1\n# what was left\nc1.0 a1 = 5\nc1.1 a1 = ActorDied\n\na1 dead\na1.0 c1.0 add 5",
    output: "actor a1 counter c1\nkill c1 a1\nsubmit c1 a1 add 5\nsubmit c1 a1 get\nsend c1 0\ndeliver 0\nrun a1 c1\n\
        collect 0\ntake a1\ntell a1 c1\ncollect 1\n",
    answer: Ok(()),
};

/// Each first answer needs the other caller's second call, which needs that caller's first answer.
const A_CIRCLE: Row = Row {
    history: "actor a1 list c1 c2\nactor a2 list c1 c2\nsubmit c1 a1 push 5\nsubmit c1 a2 push @0\n\
        submit c2 a2 push 5\nsubmit c2 a1 push @0\nc1.0 a1 = 2\nc1.1 a2 = 1\nc2.0 a2 = 2\nc2.1 a1 = 1\n\
        a1 retired list 2 5\na1.0 c2.1 push 2\na1.1 c1.0 push 5\n\
        a2 retired list 2 5\na2.0 c1.1 push 2\na2.1 c2.0 push 5\n",
    output: "line 12: c2.1 waits for the answer of c2.0\nline 9: c2.0 waits for c1.1 at a2, which ran before it\n\
        line 15: c1.1 waits for the answer of c1.0\nline 7: c1.0 waits for c2.1 at a1, which ran before it\n",
    answer: Err(CheckFault::Refused),
};

/// The second call is submitted once the first has its answer, and the handle goes where a line says so.
const AN_AWAIT: Row = Row {
    history: "actor a1 counter c1\nactor a2 counter c1\nsubmit c1 a1 add 5\nawait c1 0\nsubmit c1 a2 add 2\n\
        release c1 a2\nc1.0 a1 = 5\nc1.1 a2 = 2\na1 retired counter 5\na1.0 c1.0 add 5\n\
        a2 retired counter 2\na2.0 c1.1 add 2\n",
    output: "actor a1 counter c1\nactor a2 counter c1\nsubmit c1 a1 add 5\nsend c1 0\ndeliver 0\nrun a1 c1\n\
        collect 0\nsubmit c1 a2 add 2\nrelease c1 a2\ndeliver 1\nsend c1 1\ndeliver 2\nrun a2 c1\ncollect 1\n\
        release c1 a1\ndeliver 3\nretire a1\nretire a2\n",
    answer: Ok(()),
};

/// Each caller submits its second call once it has its first answer, and each first call ran behind
/// the other's second one.
const A_CIRCLE_OF_AWAITS: Row = Row {
    history: "actor a1 list c1 c2\nactor a2 list c1 c2\nsubmit c1 a2 push 1\nawait c1 0\nsubmit c1 a1 push 2\n\
        submit c2 a1 push 3\nawait c2 0\nsubmit c2 a2 push 4\nc1.0 a2 = 2\nc1.1 a1 = 1\nc2.0 a1 = 2\n\
        c2.1 a2 = 1\na1 retired list 2 3\na1.0 c1.1 push 2\na1.1 c2.0 push 3\na2 retired list 4 1\n\
        a2.0 c2.1 push 4\na2.1 c1.0 push 1\n",
    output: "line 4: c1.1 waits for the answer of c1.0, by this await\n\
        line 9: c1.0 waits for c2.1 at a2, which ran before it\n\
        line 7: c2.1 waits for the answer of c2.0, by this await\n\
        line 11: c2.0 waits for c1.1 at a1, which ran before it\n",
    answer: Err(CheckFault::Refused),
};

/// The death is the answer for which the caller waits before it asks the kill.
const A_KILL_AFTER_ITS_DEATH: Row = Row {
    history: "actor a1 counter c1\nsubmit c1 a1 get\nawait c1 0\nkill c1 a1\nc1.0 a1 = ActorDied\na1 dead\n",
    output: "line 4: a1 is dead, and waits for this kill of c1\n\
        line 3: c1 waits for the answer of c1.0, by this await\nline 5: c1.0 waits for the death of a1\n",
    answer: Err(CheckFault::Refused),
};

const A_DEATH_BY_NOBODY: Row = Row {
    history: "actor a1 counter c1\nsubmit c1 a1 add 1\nawait c1 0\nc1.0 a1 = 1\na1 dead\na1.0 c1.0 add 1\n",
    output: "line 5: a1 is dead, and its callers await answers and have no kill of it\n",
    answer: Err(CheckFault::Refused),
};

const AN_AWAIT_WITHOUT_ANSWER: Row = Row {
    history: "actor a1 counter c1\nsubmit c1 a1 get\nawait c1 0\nc1.0 a1 ?\na1 live counter 0\n",
    output: "line 3: c1 waits for the answer of c1.0, by this await\nline 4: c1.0 has no answer\n",
    answer: Err(CheckFault::Refused),
};

const AN_AWAIT_OF_A_LATER_CALL: Row = Row {
    history: "actor a1 counter c1\nawait c1 0\nsubmit c1 a1 get\nc1.0 a1 = 0\na1 live counter 0\na1.0 c1.0 get\n",
    output: "line 2: BadPlan\n",
    answer: Err(CheckFault::Mistake),
};

const A_CALL_SKIPPED: Row = Row {
    history: "actor a1 counter c1\nc1.0 a1 = 3\nc1.1 a1 = 2\na1 live counter 3\na1.0 c1.1 add 2\na1.1 c1.0 add 1\n",
    output: "line 5: a1.0 skips c1.0, which runs at a1.1 (line 6)\n",
    answer: Err(CheckFault::Refused),
};

const A_CALL_LEFT_OUT: Row = Row {
    history: "actor a1 counter c1\nc1.0 a1 ?\nc1.1 a1 = 2\na1 live counter 2\na1.0 c1.1 add 2\n",
    output: "line 5: a1.0 skips c1.0, which didn't run\n",
    answer: Err(CheckFault::Refused),
};

const A_CALL_TWICE: Row = Row {
    history: "actor a1 counter c1\nc1.0 a1 = 2\na1 live counter 4\na1.0 c1.0 add 2\na1.1 c1.0 add 2\n",
    output: "line 5: a1.1 runs c1.0 again, after a1.0 (line 4)\n",
    answer: Err(CheckFault::Refused),
};

const ANOTHER_CALL: Row = Row {
    history: "actor a1 counter c1\nsubmit c1 a1 get\nsubmit c1 a1 add 1\nc1.0 a1 = 0\nc1.1 a1 = 2\n\
        a1 live counter 2\na1.0 c1.0 get\na1.1 c1.1 add 2\n",
    output: "line 8: a1.1 isn't c1.1 as it was submitted (line 3)\n",
    answer: Err(CheckFault::Refused),
};

/// Of c1 a call comes too early and one twice, and c2 hears another answer and of a death.
const MANY_FAULTS: &str =
    "actor a1 counter c1 c2\nactor a2 list c1\nsubmit c1 a1 add 1\nsubmit c1 a1 add 2\n\
    submit c1 a1 add 3\nsubmit c1 a2 push @0\nsubmit c2 a1 get\nsubmit c2 a1 get\nc1.0 a1 = 1\nc1.1 a1 = 7\n\
    c1.2 a1 = 4\nc1.3 a2 = 1\nc2.0 a1 = 5\nc2.1 a1 = ActorDied\na1 live counter 9\na1.0 c1.0 add 1\n\
    a1.1 c1.2 add 3\na1.2 c2.0 get\na1.3 c1.0 add 1\na1.4 c1.1 add 2\na1.5 c2.2 get\na2 live list 2\n\
    a2.0 c1.3 push 2\n";

const THE_FIRST_FAULT: Row = Row {
    history: MANY_FAULTS,
    output: "line 17: a1.1 skips c1.1, which runs at a1.4 (line 20)\n",
    answer: Err(CheckFault::Refused),
};

const EACH_FAULT: Row = Row {
    history: MANY_FAULTS,
    output: "line 14: c2.1 has ActorDied, and a1 isn't dead\nline 17: a1.1 skips c1.1, which runs at a1.4 (line 20)\n\
        line 18: the answer at a1.2 is 4 by the rules, and the history tells 5 (line 13)\n\
        line 19: a1.3 runs c1.0 again, after a1.0 (line 16)\nline 21: a1.5 is c2.2, which has no line\n\
        line 23: the arguments at a2.0 are 1 by the rules, and the history tells 2\n",
    answer: Err(CheckFault::Refused),
};

/// What calls of a dead actor answered isn't told, of one that ran and of one that didn't, nor the
/// state of the other actor.
const LEFT_OPEN: Row = Row {
    history: "actor a1 counter c1\nactor a2 list c1\nc1.0 a1 = *\nc1.1 a1 = *\nc1.2 a2 = 1\na1 dead\n\
        a1.0 c1.0 add 5\na2 live ?\na2.0 c1.2 push 5\n",
    output: "actor a1 counter c1\nactor a2 list c1\nkill c1 a1\nsubmit c1 a1 add 5\nsubmit c1 a1 get\n\
        submit c1 a2 push 5\nsend c1 0\ndeliver 0\nrun a1 c1\ncollect 0\ntake a1\nsend c1 2\ndeliver 1\n\
        run a2 c1\ncollect 1\ntell a1 c1\ncollect 2\n",
    answer: Ok(()),
};

/// A later call took the failure of c1.0, whose reply would be 5. So c1 heard of the death of a1.
const A_FAILURE_THAT_IS_A_DEATH: Row = Row {
    history: "actor a1 counter c1\nactor a2 counter c1\nc1.0 a1 = *\nc1.1 a2 = *\na1 dead\na1.0 c1.0 add 5\n\
        a2 live counter 0\na2.0 c1.1 add !0\n",
    output: "actor a1 counter c1\nactor a2 counter c1\nkill c1 a1\nsubmit c1 a1 add 5\nsubmit c1 a2 add @0\n\
        send c1 0\ndeliver 0\nrun a1 c1\ntake a1\ntell a1 c1\ncollect 1\nsend c1 1\ndeliver 1\nrun a2 c1\n\
        collect 2\n",
    answer: Ok(()),
};

/// Here a1 lives, so no death can have been the answer.
const A_FAILURE_OF_A_LIVE_ACTOR: Row = Row {
    history: "actor a1 counter c1\nactor a2 counter c1\nc1.0 a1 = *\nc1.1 a2 = *\na1 live counter 5\n\
        a1.0 c1.0 add 5\na2 live counter 0\na2.0 c1.1 add !0\n",
    output: "line 8: the arguments at a2.0 are 5 by the rules, and the history tells !0\n",
    answer: Err(CheckFault::Refused),
};

const LEFT_OPEN_AND_NOT_RUN: Row = Row {
    history: "actor a1 counter c1\nc1.0 a1 = *\na1 live ?\n",
    output: "line 2: c1.0 has an answer, and a1 didn't run it\n",
    answer: Err(CheckFault::Refused),
};

/// The answer that isn't told is 5 by the rules, and the argument that it is ran as 6.
const LEFT_OPEN_AND_ANOTHER_ARGUMENT: Row = Row {
    history: "actor a1 counter c1\nsubmit c1 a1 add 5\nsubmit c1 a1 add @0\nc1.0 a1 = *\nc1.1 a1 = 11\n\
        a1 retired ?\na1.0 c1.0 add 5\na1.1 c1.1 add 6\n",
    output: "line 8: the arguments at a1.1 are 5 by the rules, and the history tells 6\n",
    answer: Err(CheckFault::Refused),
};

const ANOTHER_ANSWER: Row = Row {
    history: "actor a1 counter c1\nc1.0 a1 = 1\nc1.1 a1 = 9\na1 live counter 3\na1.0 c1.0 add 1\na1.1 c1.1 add 2\n",
    output: "line 6: the answer at a1.1 is 3 by the rules, and the history tells 9 (line 3)\n",
    answer: Err(CheckFault::Refused),
};

/// The caller awaits an answer, so it does all its steps, and it lets its handle go before the kill.
const A_STEP_THAT_EVERY_PLAY_REFUSES: Row = Row {
    history: "actor a1 counter c1\nsubmit c1 a1 get\nawait c1 0\nrelease c1 a1\nkill c1 a1\nc1.0 a1 = 0\n\
        a1 live counter 0\na1.0 c1.0 get\n",
    output: "line 5: BadPlan\n",
    answer: Err(CheckFault::Mistake),
};

const A_SECOND_SPELLING: Row = Row {
    history: "actor a1 counter c1\n# a comment counts\nc1.0 a1 = 05\n",
    output: "line 3: BadLine: no line of a history has this form\n",
    answer: Err(CheckFault::Mistake),
};

/// Checks a history, with kinds that are made here.
fn checked<Rt: AllocGlobal>(
    rt: &Rt,
    reasons: Reasons,
    history: &[u8],
    written: &mut Vec<u8>,
) -> Result<(), CheckFault> {
    let alloc = rt.alloc();
    let mut stock = Stock {
        counters: Vec::new(alloc),
        tables: Vec::new(alloc),
        accounts: Vec::new(alloc),
        lists: Vec::new(alloc),
    };
    for _ in 0..MAX_ACTORS {
        let counter: Boxed = Box::new(alloc, Counter::open())?;
        let table: Boxed = Box::new(alloc, Table::open(alloc))?;
        let account: Boxed = Box::new(alloc, Account::open())?;
        let list: Boxed = Box::new(alloc, ListKind::open(alloc))?;
        stock.add(counter, table, account, list)?;
    }
    let mut reader = history;
    check_history(alloc, stock, reasons, &mut reader, written)
}

fn assert_told<Rt: AllocGlobal + Abort>(rt: &Rt, row: &Row) {
    assert_all_told(rt, row, Reasons::First);
}

/// The same, where so many reasons are asked for.
fn assert_all_told<Rt: AllocGlobal + Abort>(rt: &Rt, row: &Row, reasons: Reasons) {
    let mut written = Vec::new(rt.alloc());
    let answer = checked(rt, reasons, row.history.as_bytes(), &mut written);
    assert_eq!(rt; answer, row.answer, "{}", row.history);
    assert_eq!(rt;
        written.as_slice(),
        row.output.as_bytes(),
        "{}",
        row.history
    );
}

#[test]
fn plays_are_found(rt: HostRuntime) -> Result<(), Fail> {
    assert_told(&rt, &TWO_CALLS);
    assert_told(&rt, &A_DEATH);
    assert_told(&rt, &AN_AWAIT);
    assert_told(&rt, &LEFT_OPEN);
    assert_told(&rt, &A_FAILURE_THAT_IS_A_DEATH);
    Ok(())
}

#[test]
fn what_no_play_leaves_is_refused(rt: HostRuntime) -> Result<(), Fail> {
    assert_told(&rt, &A_CIRCLE);
    assert_told(&rt, &A_CALL_SKIPPED);
    assert_told(&rt, &A_CALL_LEFT_OUT);
    assert_told(&rt, &A_CALL_TWICE);
    assert_told(&rt, &ANOTHER_CALL);
    assert_told(&rt, &ANOTHER_ANSWER);
    Ok(())
}

#[test]
fn all_faults_are_told_where_they_are_asked_for(rt: HostRuntime) -> Result<(), Fail> {
    assert_told(&rt, &THE_FIRST_FAULT);
    assert_all_told(&rt, &EACH_FAULT, Reasons::All);
    assert_all_told(&rt, &A_CIRCLE, Reasons::All);
    assert_all_told(&rt, &TWO_CALLS, Reasons::All);
    Ok(())
}

#[test]
fn what_is_left_open_is_judged_no_further(rt: HostRuntime) -> Result<(), Fail> {
    assert_told(&rt, &LEFT_OPEN_AND_NOT_RUN);
    assert_told(&rt, &LEFT_OPEN_AND_ANOTHER_ARGUMENT);
    assert_told(&rt, &A_FAILURE_OF_A_LIVE_ACTOR);
    assert_all_told(&rt, &LEFT_OPEN_AND_ANOTHER_ARGUMENT, Reasons::All);
    Ok(())
}

#[test]
fn awaits_that_no_play_keeps_are_refused(rt: HostRuntime) -> Result<(), Fail> {
    assert_told(&rt, &A_CIRCLE_OF_AWAITS);
    assert_told(&rt, &A_KILL_AFTER_ITS_DEATH);
    assert_told(&rt, &A_DEATH_BY_NOBODY);
    assert_told(&rt, &AN_AWAIT_WITHOUT_ANSWER);
    Ok(())
}

#[test]
fn mistakes_are_told(rt: HostRuntime) -> Result<(), Fail> {
    assert_told(&rt, &A_SECOND_SPELLING);
    assert_told(&rt, &AN_AWAIT_OF_A_LATER_CALL);
    assert_told(&rt, &A_STEP_THAT_EVERY_PLAY_REFUSES);
    Ok(())
}
