//! Three futures of two actors, with an answer, a death, and replies that come too late; how many
//! futures of each wait, step by step; a table that grows where memory is refused; and random steps that compare a
//! table with a plain list.

use super::rows::{actor, assert_is, word_after};
use act_replies::{Kept, ReplyTable};
use act_types::{ActorId, Answer, Fault, FutureId, MAX_CALLS, NoMemory, Value};
use std::process::Abort;
use std::test::Fail;

/// What is done to a table, with actors and futures by their numbers.
#[derive(Clone, Copy)]
enum Step {
    Enter(u8),
    /// An answer of a future, which is this number.
    Keep(u32, i64),
    Died(u8),
}

use Step::{Died, Enter, Keep};

/// What the table tells of it.
#[derive(Clone, Copy, Debug, PartialEq, Eq)]
enum Told {
    Future(u32),
    Of(Kept),
    /// How many futures the death answered.
    Answered(u32),
}

use Told::{Answered, Future, Of};

/// A case by its name: a step, what is told of it, and how many futures of actors 1 and 2 wait
/// after it.
type Row = (&'static str, Step, Told, (u32, u32));

#[rattlefmt::skip]
static FIRST_ANSWERS: [Row; 8] = [
    ("a future of the first actor", Enter(1), Future(0), (1, 0)),
    ("a future of the second actor", Enter(2), Future(1), (1, 1)),
    ("the first actor again", Enter(1), Future(2), (2, 1)),
    ("the first answer", Keep(0, 5), Of(Kept::First), (1, 1)),
    ("the death of the first actor", Died(1), Answered(1), (0, 1)),
    ("another answer", Keep(0, 7), Of(Kept::Late), (0, 1)),
    ("an answer after the death", Keep(2, 7), Of(Kept::Late), (0, 1)),
    ("an answer of no future", Keep(9, 7), Of(Kept::Stray), (0, 1)),
];

/// Late and stray answers leave the counts.
#[rattlefmt::skip]
static COUNTS: [Row; 10] = [
    ("a future of the first actor", Enter(1), Future(0), (1, 0)),
    ("a future of the second actor", Enter(2), Future(1), (1, 1)),
    ("the first actor again", Enter(1), Future(2), (2, 1)),
    ("the first answer", Keep(0, 5), Of(Kept::First), (1, 1)),
    ("the same again", Keep(0, 5), Of(Kept::Late), (1, 1)),
    ("an answer of no future", Keep(9, 5), Of(Kept::Stray), (1, 1)),
    ("the death of the first actor", Died(1), Answered(1), (0, 1)),
    ("an answer after the death", Keep(2, 5), Of(Kept::Late), (0, 1)),
    ("a future after the death", Enter(1), Future(3), (1, 1)),
    ("the second actor's answer", Keep(1, 5), Of(Kept::First), (1, 0)),
];

fn take(rt: &impl Abort, table: &mut ReplyTable, step: Step) -> Result<Told, NoMemory> {
    match step {
        Enter(a) => {
            assert!(rt; table.count() < MAX_CALLS);
            let future = table.enter(actor(rt, a))?;
            Ok(Future(future.number()))
        }
        Keep(k, value) => Ok(Of(table.keep(FutureId::new(k), Ok(Value::Int(value))))),
        Died(a) => Ok(Answered(table.died(actor(rt, a)))),
    }
}

/// Takes each step in turn, of which this is to be told.
fn play(rt: &impl Abort, table: &mut ReplyTable, rows: &[Row]) -> Result<(), NoMemory> {
    for (name, step, told, pending) in rows {
        assert_is(rt, name, &take(rt, table, *step)?, told);
        let counted = (table.pending(actor(rt, 1)), table.pending(actor(rt, 2)));
        assert_is(rt, name, &counted, pending);
    }
    Ok(())
}

/// The answer of a future, if it has one.
fn assert_answer(rt: &impl Abort, table: &ReplyTable, k: u32, wanted: Option<Answer>) {
    let told = (k, table.answer(FutureId::new(k)));
    assert_is(rt, "an answer", &told, &(k, wanted.as_ref()));
    drop(wanted);
}

fn assert_first_stays(rt: &impl Abort, table: &ReplyTable) {
    assert_answer(rt, table, 0, Some(Ok(Value::Int(5))));
    assert_answer(rt, table, 1, None);
    assert_answer(rt, table, 2, Some(Err(Fault::ActorDied)));
    assert_answer(rt, table, 9, None);
    assert_is(rt, "at the end", &shown(table), &(3, 1));
}

/// The same after room was asked for.
fn reserve_and_play(rt: &impl Abort, table: &mut ReplyTable, rows: &[Row]) -> Result<(), NoMemory> {
    table.reserve_one()?;
    table.reserve(3)?;
    play(rt, table, rows)
}

/// The first future is answered, and actor 1 dies.
#[test]
fn the_first_answer_stays(rt: HostRuntime) -> Result<(), Fail> {
    let mut table = ReplyTable::new(rt.alloc());
    let done = reserve_and_play(&rt, &mut table, &FIRST_ANSWERS);
    if done.is_ok() {
        assert_first_stays(&rt, &table);
    }
    drop(table);
    done?;
    Ok(())
}

#[test]
fn counts_of_two_actors(rt: HostRuntime) -> Result<(), Fail> {
    let mut table = ReplyTable::new(rt.alloc());
    let done = play(&rt, &mut table, &COUNTS);
    drop(table);
    done?;
    Ok(())
}

/// How many futures are shown, and how many of them have no answer.
fn shown(table: &ReplyTable) -> (u32, u32) {
    (table.count(), table.unanswered())
}

/// Enters a future, and once more where memory is refused. From the sixth on it asks for room first.
fn enter_again(rt: &impl Abort, table: &mut ReplyTable, a: ActorId) -> Result<FutureId, NoMemory> {
    let before = shown(table);
    if table.count() > 4 && table.reserve_one().is_err() {
        assert_is(rt, "after a refusal", &shown(table), &before);
        assert_is(rt, "room again", &table.reserve_one(), &Ok(()));
    }
    assert!(rt; table.count() < MAX_CALLS);
    let entered = table.enter(a);
    if entered.is_err() {
        assert_is(rt, "after a refusal", &shown(table), &before);
        return table.enter(a);
    }
    entered
}

/// Enters seventeen futures, of which the third alone is answered.
fn fill(rt: &impl Abort, table: &mut ReplyTable) {
    let a1 = ActorId::new(1).unwrap();
    for count in 0..17 {
        assert_is(rt, "how many", &table.count(), &count);
        let entered = enter_again(rt, table, a1);
        assert_is(rt, "entered", &entered, &Ok(FutureId::new(count)));
        table.keep(FutureId::new(2), Ok(Value::Int(5)));
    }
}

/// Memory is refused from outside, at most once.
#[test]
fn refused_memory_changes_nothing(rt: HostRuntime) -> Result<(), Fail> {
    let mut table = ReplyTable::new(rt.alloc());
    fill(&rt, &mut table);
    assert_answer(&rt, &table, 1, None);
    assert_answer(&rt, &table, 2, Some(Ok(Value::Int(5))));
    assert_answer(&rt, &table, 16, None);
    drop(table);
    Ok(())
}

/// A future as a plain list has it.
#[derive(Drop)]
struct Plain {
    actor: ActorId,
    answer: Option<Answer>,
}

fn waits(future: &Plain, actor: ActorId) -> bool {
    future.actor == actor && future.answer.is_none()
}

/// What the plain list makes of an answer.
fn keep_plainly(futures: &mut [Plain], place: usize, answer: Answer) -> Kept {
    let Some(future) = futures.get_mut(place) else {
        return Kept::Stray;
    };
    if future.answer.is_some() {
        return Kept::Late;
    }
    future.answer = Some(answer);
    Kept::First
}

/// Answers the futures of a death in the plain list, and gives their number.
fn die_plainly(futures: &mut [Plain], actor: ActorId) -> usize {
    let count = futures.iter().filter(|future| waits(future, actor)).count();
    for future in futures.iter_mut() {
        if waits(future, actor) {
            future.answer = Some(Err(Fault::ActorDied));
        }
    }
    count
}

/// Takes a step that the number chooses in the table and in the plain list, and compares what both
/// tell of it.
fn take_step(
    rt: &impl Abort,
    table: &mut ReplyTable,
    futures: &mut Vec<Plain>,
    number: u32,
) -> Result<(), NoMemory> {
    let actor = ActorId::new((number % 3) as u8 + 1).unwrap();
    match number / 3 % 32 {
        0 => {
            let told = die_plainly(futures, actor);
            assert_is(rt, "a death", &(table.died(actor) as usize), &told);
        }
        1..=12 => {
            assert!(rt; table.count() < MAX_CALLS);
            let future = table.enter(actor)?;
            assert_is(rt, "a future", &(future.number() as usize), &futures.len());
            futures.push(Plain {
                actor,
                answer: None,
            })?;
        }
        _ => {
            let future = FutureId::new(number / 96 % (table.count() + 2));
            let answer = i64::from(number);
            let told = keep_plainly(futures, future.number() as usize, Ok(Value::Int(answer)));
            let kept = table.keep(future, Ok(Value::Int(answer)));
            assert_is(rt, "an answer", &kept, &told);
        }
    }
    Ok(())
}

/// Compares which futures wait, and how many of each actor.
fn assert_waiting(rt: &impl Abort, table: &ReplyTable, futures: &[Plain]) {
    let open = futures
        .iter()
        .filter(|future| future.answer.is_none())
        .count();
    assert_is(rt, "those that wait", &(table.unanswered() as usize), &open);
    for number in 1..4 {
        let actor = ActorId::new(number).unwrap();
        let last = futures.iter().rposition(|future| waits(future, actor));
        let told = table
            .waiting_of(actor)
            .map(|future| future.number() as usize);
        assert_is(rt, "the last of an actor", &(number, told), &(number, last));
        let count = futures.iter().filter(|future| waits(future, actor)).count();
        let told = table.pending(actor) as usize;
        assert_is(rt, "those of an actor", &(number, told), &(number, count));
    }
}

/// The table and the plain list have the same answers.
fn assert_same(rt: &impl Abort, table: &ReplyTable, futures: &[Plain]) {
    assert_is(rt, "futures", &(table.count() as usize), &futures.len());
    for (k, future) in (0..table.count()).zip(futures.iter()) {
        let told = (k, table.answer(FutureId::new(k)));
        assert_is(rt, "an answer", &told, &(k, future.answer.as_ref()));
    }
}

/// Takes many steps, and compares which futures wait after each.
fn take_steps(
    rt: &impl Abort,
    table: &mut ReplyTable,
    futures: &mut Vec<Plain>,
) -> Result<(), NoMemory> {
    let mut number = 2_463_534_242;
    for _ in 0..4_000 {
        number = word_after(number);
        take_step(rt, table, futures, number)?;
        assert_waiting(rt, table, futures);
    }
    Ok(())
}

#[test]
fn the_same_as_a_plain_list(rt: HostRuntime) -> Result<(), Fail> {
    let mut table = ReplyTable::new(rt.alloc());
    let mut futures = Vec::new(rt.alloc());
    let done = take_steps(&rt, &mut table, &mut futures);
    if done.is_ok() {
        assert_same(&rt, &table, &futures);
    }
    drop(table);
    drop(futures);
    done?;
    Ok(())
}
