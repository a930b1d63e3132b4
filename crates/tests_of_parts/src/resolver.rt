//! A worked example, calls that are entered where memory is refused, and many calls beside a plain
//! scan of them.

ghost use Rattle.std.specs.Prelude.{◌≡◌, ◌<◌, ◌^◌, [], length, IfOk, OnErr};

use super::rows::{assert_is, word_after};
use act_resolver::{Futures, Resolver};
use act_types::{FutureId, MAX_ARGS, NoMemory};
use std::alloc::Global;
use std::process::Abort;
use std::test::Fail;

/// A change of the calls.
#[derive(Clone, Copy)]
enum Step<'a> {
    Reserve(usize),
    Enter(&'a [FutureId]),
    Told(FutureId),
    Sent(FutureId),
}

/// Takes a step, where so many calls were entered, and tells how many there are after it. Where
/// memory is refused there are as many as before.
fn take(
    rt: &impl Abort,
    resolver: &mut Resolver,
    entered: u32,
    step: &Step,
) -> Result<u32, NoMemory>
    requires { entered ≡ length resolver.old.calls }
    ensures ok { IfOk result (λ entered. entered ≡ length resolver.new.calls) }
    ensures err { OnErr result (entered ≡ length resolver.new.calls) }
{
    match *step {
        Step::Reserve(count) => {
            resolver.reserve(count)?;
            Ok(entered)
        }
        Step::Enter(futures) => {
            assert!(rt; entered < u32::MAX);
            assert!(rt; futures.len() <= MAX_ARGS);
            assert!(rt; futures.iter().all(|future| future.number() < entered));
            resolver.enter(FutureId::new(entered), futures)?;
            Ok(entered + 1)
        }
        Step::Told(k) => {
            assert!(rt; k.number() < entered);
            resolver.told(k);
            Ok(entered)
        }
        Step::Sent(k) => {
            assert!(rt; k.number() < entered);
            resolver.mark_sent(k);
            Ok(entered)
        }
    }
}

/// A step as a row writes it, with calls by their numbers.
#[derive(Clone, Copy)]
enum Change {
    Reserve(usize),
    Enter(&'static [u32]),
    Told(u32),
    Sent(u32),
}

use Change::{Enter, Reserve, Sent, Told};

/// A case by its name: a step, and the call that is ready after it.
type Row = (&'static str, Change, Option<u32>);

/// A call, whether it is sent, and whether all that it waits for is known.
type End = (u32, bool, bool);

#[rattlefmt::skip]
static CALLS_THAT_WAIT: [Row; 14] = [
    ("room for the first", Reserve(1), None),
    ("the first waits for none", Enter(&[]), Some(0)),
    ("the first is sent", Sent(0), None),
    ("room for the second", Reserve(1), None),
    ("the second waits for the first, twice", Enter(&[0, 0]), None),
    ("room for the third", Reserve(1), None),
    ("the third waits for both", Enter(&[0, 1]), None),
    ("the first is answered", Told(0), Some(1)),
    ("the first is answered again", Told(0), Some(1)),
    ("the second is answered, though it wasn't sent", Told(1), Some(2)),
    ("the third is sent", Sent(2), None),
    ("room for the fourth", Reserve(1), None),
    ("the fourth waits for the third", Enter(&[2, 0]), None),
    ("the third is answered", Told(2), Some(3)),
];

static ENDS_OF_WAITING: [End; 5] = [
    (0, true, true),
    (1, false, true),
    (2, true, true),
    (3, false, true),
    (4, false, false),
];

#[rattlefmt::skip]
static CALLS_OF_LITTLE_ROOM: [Row; 14] = [
    ("room for two", Reserve(2), None),
    ("the first waits for none", Enter(&[]), Some(0)),
    ("the first is sent", Sent(0), None),
    ("the second waits for the first", Enter(&[0]), None),
    ("the third waits for both", Enter(&[0, 1]), None),
    ("the fourth waits for the second", Enter(&[1]), None),
    ("the fifth waits for the first", Enter(&[0]), None),
    ("the sixth waits for none", Enter(&[]), Some(5)),
    ("the seventh waits for the sixth", Enter(&[5]), Some(5)),
    ("the eighth waits for none", Enter(&[]), Some(5)),
    ("room for nine", Reserve(9), Some(5)),
    ("the ninth waits for the first", Enter(&[0]), Some(5)),
    ("the first is answered", Told(0), Some(1)),
    ("the second is sent", Sent(1), Some(4)),
];

static ENDS_OF_LITTLE_ROOM: [End; 4] = [
    (0, true, true),
    (1, true, true),
    (5, false, true),
    (9, false, false),
];

/// The calls that a row has its call wait for.
fn futures_of(change: &Change) -> [FutureId; 4] {
    let mut futures = [FutureId::new(0); 4];
    if let Enter(numbers) = *change {
        for (future, number) in futures.iter_mut().zip(numbers) {
            *future = FutureId::new(*number);
        }
    }
    futures
}

fn step_of<'a>(rt: &impl Abort, change: &Change, futures: &'a [FutureId; 4]) -> Step<'a> {
    match *change {
        Reserve(count) => Step::Reserve(count),
        Enter(numbers) => {
            assert!(rt; numbers.len() <= 4);
            Step::Enter(&futures[..numbers.len()])
        }
        Told(k) => Step::Told(FutureId::new(k)),
        Sent(k) => Step::Sent(FutureId::new(k)),
    }
}

/// Takes the step of a row, and once more where memory is refused, which changes nothing.
fn take_row(
    rt: &impl Abort,
    resolver: &mut Resolver,
    entered: u32,
    row: &Row,
) -> Result<u32, NoMemory>
    requires { entered ≡ length resolver.old.calls }
    ensures { IfOk result (λ entered. entered ≡ length resolver.new.calls) }
{
    let futures = futures_of(&row.1);
    let step = step_of(rt, &row.1, &futures);
    let before = resolver.ready();
    let taken = take(rt, resolver, entered, &step);
    if taken.is_ok() {
        return taken;
    }
    assert_is(rt, row.0, &resolver.ready(), &before);
    assert_is(
        rt,
        row.0,
        &resolver.is_known(FutureId::new(entered)),
        &false,
    );
    let again = take(rt, resolver, entered, &step);
    assert_is(rt, row.0, &again.is_ok(), &true);
    again
}

/// Takes each step in turn, and compares the call that is ready after it.
fn play(rt: &impl Abort, resolver: &mut Resolver, rows: &[Row]) -> Result<(), NoMemory>
    requires { resolver.old.calls ≡ [] }
{
    let mut entered = 0;
    for row in rows {
        entered = take_row(rt, resolver, entered, row)?;
        assert_is(rt, row.0, &resolver.ready().map(FutureId::number), &row.2);
    }
    Ok(())
}

/// Compares which of these calls are sent and known.
fn assert_ends(rt: &impl Abort, resolver: &Resolver, ends: &[End]) {
    for (k, sent, known) in ends {
        let call = FutureId::new(*k);
        let seen = (*k, resolver.is_sent(call), resolver.is_known(call));
        assert_is(rt, "at the end", &seen, &(*k, *sent, *known));
    }
}

/// Plays these rows from no call on, and compares which calls are sent and known at their end.
fn assert_played(
    rt: &impl Abort,
    alloc: Global,
    rows: &[Row],
    ends: &[End],
) -> Result<(), NoMemory> {
    let mut resolver = Resolver::new(alloc);
    let played = play(rt, &mut resolver, rows);
    if played.is_ok() {
        assert_ends(rt, &resolver, ends);
    }
    drop(resolver);
    played
}

#[test]
fn calls_wait_for_answers(rt: HostRuntime) -> Result<(), Fail> {
    assert_played(&rt, rt.alloc(), &CALLS_THAT_WAIT, &ENDS_OF_WAITING)?;
    Ok(())
}

/// Memory is refused from outside, at most once.
#[test]
fn refused_memory_changes_nothing(rt: HostRuntime) -> Result<(), Fail> {
    assert_played(&rt, rt.alloc(), &CALLS_OF_LITTLE_ROOM, &ENDS_OF_LITTLE_ROOM)?;
    Ok(())
}

/// Enters a call and so many that wait for it, and tells how many there are.
fn enter_waiting(rt: &impl Abort, resolver: &mut Resolver, count: u32) -> Result<u32, NoMemory>
    requires { resolver.old.calls ≡ [] }
    ensures { IfOk result (λ entered. entered ≡ length resolver.new.calls) }
{
    let c0 = FutureId::new(0);
    resolver.reserve_calls(1 + count as usize)?;
    resolver.reserve_one()?;
    let mut entered = take(rt, resolver, 0, &Step::Enter(&[]))?;
    for _ in 0..count {
        resolver.reserve_one()?;
        entered = take(rt, resolver, entered, &Step::Enter(&[c0]))?;
    }
    Ok(entered)
}

/// From the second on, each of so many calls is ready in its turn, and is sent.
fn send_in_turn(rt: &impl Abort, resolver: &mut Resolver, mut entered: u32) -> Result<(), NoMemory>
    requires { entered ≡ length resolver.old.calls }
{
    for number in 1..entered {
        let k = FutureId::new(number);
        assert_is(rt, "in its turn", &resolver.ready(), &Some(k));
        entered = take(rt, resolver, entered, &Step::Sent(k))?;
    }
    Ok(())
}

fn wait_for_one(rt: &impl Abort, resolver: &mut Resolver, count: u32) -> Result<(), NoMemory>
    requires { resolver.old.calls ≡ [] }
{
    let c0 = FutureId::new(0);
    let entered = enter_waiting(rt, resolver, count)?;
    assert_eq!(rt;
        (entered, resolver.ready()),
        (count.wrapping_add(1), Some(c0))
    );
    let entered = take(rt, resolver, entered, &Step::Told(c0))?;
    send_in_turn(rt, resolver, entered)?;
    assert_is(rt, "all were sent", &resolver.ready(), &None);
    Ok(())
}

/// So many calls are past the numbers of a word, of a word of words, and of a word at the top.
#[test]
fn many_calls_wait_for_one(rt: HostRuntime) -> Result<(), Fail> {
    for count in [5000, 262_200] {
        let mut resolver = Resolver::new(rt.alloc());
        let done = wait_for_one(&rt, &mut resolver, count);
        drop(resolver);
        done?;
    }
    Ok(())
}

/// A call as the plain scan sees it.
#[derive(Drop)]
struct Scanned {
    futures: Futures,
    answered: bool,
    sent: bool,
}

fn is_answered(calls: &[Scanned], k: FutureId) -> bool {
    calls
        .get(k.number() as usize)
        .is_some_and(|call| call.answered)
}

fn is_sent(calls: &[Scanned], k: FutureId) -> bool {
    calls.get(k.number() as usize).is_some_and(|call| call.sent)
}

/// Asks each argument of the call.
fn is_known(calls: &[Scanned], k: FutureId) -> bool {
    let Some(call) = calls.get(k.number() as usize) else {
        return false;
    };
    call.futures
        .as_slice()
        .iter()
        .all(|future| is_answered(calls, *future))
}

/// Asks each call in turn.
fn first_ready(calls: &[Scanned]) -> Option<FutureId>
    requires { length calls.now < 2 ^ 32 }
{
    (0..calls.len() as u32).map(FutureId::new).find(|k| is_known(calls, *k)
        && !is_sent(calls, *k)
        && !is_answered(calls, *k))
}

/// Takes the step as `take` does.
fn scan_step(rt: &impl Abort, calls: &mut Vec<Scanned>, step: &Step) -> Result<(), NoMemory> {
    match *step {
        Step::Reserve(_) => {}
        Step::Enter(futures) => {
            assert!(rt; futures.len() <= MAX_ARGS);
            calls.push(Scanned {
                futures: Futures::new(futures),
                answered: false,
                sent: false,
            })?;
        }
        Step::Told(k) => {
            assert!(rt; (k.number() as usize) < calls.len());
            let call = &mut calls[k.number() as usize];
            call.answered = true;
        }
        Step::Sent(k) => {
            assert!(rt; (k.number() as usize) < calls.len());
            let call = &mut calls[k.number() as usize];
            call.sent = true;
        }
    }
    Ok(())
}

/// The resolver answers as the plain scan does.
fn assert_same(rt: &impl Abort, resolver: &Resolver, calls: &[Scanned]) {
    assert!(rt; calls.len() < u32::MAX as usize);
    assert_is(
        rt,
        "the first that is ready",
        &resolver.ready(),
        &first_ready(calls),
    );
    for k in (0..calls.len() as u32 + 1).map(FutureId::new) {
        let seen = (k, resolver.is_known(k), resolver.is_sent(k));
        let wanted = (k, is_known(calls, k), is_sent(calls, k));
        assert_is(rt, "a call", &seen, &wanted);
    }
}

/// A xorshift generator.
#[derive(Drop)]
struct Random {
    state: u32,
}

impl Random {
    fn below(&mut self, bound: u32) -> u32
        requires { 0 < bound }
        ensures { result < bound }
    {
        self.state = word_after(self.state);
        self.state % bound
    }
}

/// Four futures of so many calls.
fn random_futures(random: &mut Random, entered: u32) -> [FutureId; 4] {
    let mut futures = [FutureId::new(0); 4];
    for future in futures.iter_mut() {
        *future = FutureId::new(random.below(entered.max(1)));
    }
    futures
}

/// A step that may be taken after so many calls, of which this one is ready.
fn random_step<'a>(
    random: &mut Random,
    entered: u32,
    ready: Option<FutureId>,
    futures: &'a [FutureId; 4],
) -> Step<'a> {
    if entered == 0 {
        return Step::Enter(&[]);
    }
    let k = FutureId::new(random.below(entered));
    match random.below(4) {
        0 => Step::Told(k),
        1 => Step::Sent(k),
        2 => Step::Sent(ready.unwrap_or(k)),
        _ => Step::Enter(&futures[..random.below(5) as usize]),
    }
}

/// So many calls, each of which waits for an earlier one or for none.
fn enter_all(
    rt: &impl Abort,
    random: &mut Random,
    resolver: &mut Resolver,
    calls: &mut Vec<Scanned>,
    count: u32,
) -> Result<u32, NoMemory>
    requires { resolver.old.calls ≡ [] }
    ensures { IfOk result (λ entered. entered ≡ length resolver.new.calls) }
{
    let mut entered = 0;
    for _ in 0..count {
        let futures = random_futures(random, entered);
        let most = random.below(2).min(entered);
        let step = Step::Enter(&futures[..most as usize]);
        entered = take(rt, resolver, entered, &step)?;
        scan_step(rt, calls, &step)?;
    }
    Ok(entered)
}

/// Takes so many random steps after these calls, in the resolver and in the plain calls, and
/// compares both after each.
fn take_random(
    rt: &impl Abort,
    random: &mut Random,
    resolver: &mut Resolver,
    calls: &mut Vec<Scanned>,
    mut entered: u32,
    steps: u32,
) -> Result<(), NoMemory>
    requires { entered ≡ length resolver.old.calls }
{
    for _ in 0..steps {
        let futures = random_futures(random, entered);
        let step = random_step(random, entered, resolver.ready(), &futures);
        entered = take(rt, resolver, entered, &step)?;
        scan_step(rt, calls, &step)?;
        assert_same(rt, resolver, calls);
    }
    Ok(())
}

/// Random steps of a resolver and of the plain calls, of which there are so many at first.
fn random_run(
    rt: &impl Abort,
    alloc: Global,
    random: &mut Random,
    count: u32,
    steps: u32,
) -> Result<(), NoMemory> {
    let mut resolver = Resolver::new(alloc);
    let mut calls = Vec::new(alloc);
    let done = match enter_all(rt, random, &mut resolver, &mut calls, count) {
        Ok(entered) => take_random(rt, random, &mut resolver, &mut calls, entered, steps),
        Err(refused) => Err(refused),
    };
    drop(resolver);
    drop(calls);
    done
}

#[test]
fn random_runs_agree_with_a_plain_scan(rt: HostRuntime) -> Result<(), Fail> {
    let mut random = Random { state: 2026 };
    for _ in 0..4000 {
        let steps = random.below(41);
        random_run(&rt, rt.alloc(), &mut random, 0, steps)?;
    }
    Ok(())
}

/// Up to the numbers of a word, of a word of words, and of more than one word at the top.
#[test]
fn random_changes_agree_with_a_plain_scan(rt: HostRuntime) -> Result<(), Fail> {
    let mut random = Random { state: 64 };
    for (count, steps) in [
        (1, 10),
        (63, 500),
        (64, 500),
        (4095, 500),
        (4096, 500),
        (65_000, 50),
        (262_200, 10),
    ] {
        random_run(&rt, rt.alloc(), &mut random, count, steps)?;
    }
    Ok(())
}
