//! Code that does what a list says, well and badly. It gives up where it is told another thing than it should be.

use super::scene::actor;
use act_executor::{Code, GaveUp, KillRefusal, Session, WaitRefusal};
use act_rules::{HandleRefusal, SubmitRefusal};
use act_types::{ActorId, Answer, Arg, FutureId, ListOf, Method, NoMemory, Value};
use std::alloc::Global;

/// How many turns a code that polls takes at most. Where turns send and collect, few are needed.
const MAX_TURNS: u32 = 1_000_000_000;

/// What code does, with actors and futures by their numbers. All calls are of `add`.
#[derive(Clone, Copy)]
pub(super) enum Move {
    /// Adds so much, and waits for nothing.
    Add(u8, i64),
    /// Adds 1 so many times, and waits for nothing.
    AddOnes(u8, u32),
    /// Adds the answer of a future.
    AddAnswer(u8, u32),
    /// Adds 1, waits, and is answered.
    Ask(u8),
    /// Asks to add 1 until it is answered as much.
    CountTo(u8, i64),
    Wait(u32),
    /// Waits for any of the first so many of these. It is told this place, or refused.
    WaitAny([u32; 2], usize, Option<usize>),
    /// Waits for either of the first two futures. None before the one that it is told has its answer by then.
    WaitEither,
    /// Waits for all of the first so many of these, or is refused.
    WaitAll([u32; 2], usize, bool),
    /// Is refused to wait for the future that its next call will have.
    WaitForNext,
    /// Takes turns until a future has its answer.
    Poll(u32),
    /// A future was answered 1.
    IsOne(u32),
    /// At most one call may have no answer, and does.
    IsAtLimit(u8),
    /// Has submitted so many calls.
    Has(u32),
    /// Copies its handle, and has two.
    Copy(u8),
    Release(u8),
    Holds(u8, u32),
    /// Is refused each use of the actor, since no cast names it for the caller, or else its handles are gone.
    IsRefused(u8, bool),
    Kill(u8),
    GiveUp,
}

/// Goes on where this holds.
fn so(holds: bool) -> Result<(), GaveUp> {
    if holds { Ok(()) } else { Err(GaveUp) }
}

fn one_arg(alloc: Global, arg: Arg) -> Result<ListOf<Arg>, NoMemory> {
    let mut args = ListOf::new(alloc);
    args.push(arg)?;
    Ok(args)
}

fn int(alloc: Global, number: i64) -> Result<ListOf<Arg>, NoMemory> {
    one_arg(alloc, Arg::Plain(Value::Int(number)))
}

/// Whether the answer is this number.
fn is_int(answer: Option<&Answer>, number: i64) -> bool {
    match answer {
        Some(Ok(Value::Int(value))) => *value == number,
        _ => false,
    }
}

fn add<S: Session>(session: &mut S, a: ActorId, number: i64) -> Result<(), GaveUp> {
    let args = int(session.alloc(), number)?;
    session.submit(a, Method::Add, args)?;
    Ok(())
}

fn add_ones<S: Session>(session: &mut S, a: ActorId, times: u32) -> Result<(), GaveUp> {
    for _ in 0..times {
        add(session, a, 1)?;
    }
    Ok(())
}

fn add_answer<S: Session>(session: &mut S, a: ActorId, k: FutureId) -> Result<(), GaveUp> {
    let args = one_arg(session.alloc(), Arg::Fut(k))?;
    session.submit(a, Method::Add, args)?;
    Ok(())
}

fn ask_one<S: Session>(session: &mut S, a: ActorId) -> Result<FutureId, GaveUp> {
    let args = int(session.alloc(), 1)?;
    Ok(session.ask(a, Method::Add, args)?)
}

fn count_to<S: Session>(session: &mut S, a: ActorId, number: i64) -> Result<(), GaveUp> {
    for _ in 0..100u32 {
        let k = ask_one(session, a)?;
        if is_int(session.answer(k), number) {
            return Ok(());
        }
    }
    Err(GaveUp)
}

fn futures_of(ks: [u32; 2]) -> [FutureId; 2] {
    [FutureId::new(ks[0]), FutureId::new(ks[1])]
}

fn wait_any<S: Session>(
    session: &mut S,
    ks: [u32; 2],
    count: usize,
    wanted: Option<usize>,
) -> Result<(), GaveUp> {
    let futures = futures_of(ks);
    let told = session.wait_any(&futures[..count.min(2)]);
    so(told == wanted.ok_or(WaitRefusal::NoFuture))
}

fn wait_either<S: Session>(session: &mut S) -> Result<(), GaveUp> {
    let futures = [FutureId::new(0), FutureId::new(1)];
    let at = session.wait_any(&futures)?;
    so(at < 2 && is_int(session.answer(futures[at.min(1)]), 1))?;
    so(at == 0 || !is_int(session.answer(futures[0]), 1))
}

fn wait_all<S: Session>(
    session: &mut S,
    ks: [u32; 2],
    count: usize,
    are_there: bool,
) -> Result<(), GaveUp> {
    let futures = futures_of(ks);
    let told = session.wait_all(&futures[..count.min(2)]);
    let wanted = if are_there {
        Ok(())
    } else {
        Err(WaitRefusal::NoFuture)
    };
    so(told == wanted)
}

fn wait_for_next<S: Session>(session: &mut S) -> Result<(), GaveUp> {
    let next = FutureId::new(session.count());
    so(session.wait(next) == Err(WaitRefusal::NoFuture))?;
    so(session.answer(next).is_none())
}

fn poll<S: Session>(session: &mut S, k: FutureId) -> Result<(), GaveUp> {
    for _ in 0..MAX_TURNS {
        session.turn()?;
        if session.answer(k).is_some() {
            return Ok(());
        }
    }
    Err(GaveUp)
}

/// Each use of the actor is refused, and each refusal is this one.
fn is_refused<S: Session>(
    session: &mut S,
    a: ActorId,
    handle: HandleRefusal,
    submit: SubmitRefusal,
) -> Result<(), GaveUp> {
    let args = int(session.alloc(), 1)?;
    so(session.submit(a, Method::Add, args) == Err(submit))?;
    let args = int(session.alloc(), 1)?;
    so(session.ask(a, Method::Add, args) == Err(submit))?;
    so(
        session.copy(a) == Err(handle)
            && session.release(a) == Err(handle)
            && session.kill(a) == Err(KillRefusal::Handle(handle))
            && session.holds(a) == 0
            && session.pending(a) == 0,
    )
}

fn wait<S: Session>(session: &mut S, step: Move) -> Result<(), GaveUp> {
    match step {
        Move::Wait(k) => Ok(session.wait(FutureId::new(k))?),
        Move::WaitAny(ks, count, wanted) => wait_any(session, ks, count, wanted),
        Move::WaitEither => wait_either(session),
        Move::WaitAll(ks, count, are_there) => wait_all(session, ks, count, are_there),
        Move::WaitForNext => wait_for_next(session),
        Move::Poll(k) => poll(session, FutureId::new(k)),
        _ => Err(GaveUp),
    }
}

fn use_handle<S: Session>(session: &mut S, step: Move) -> Result<(), GaveUp> {
    match step {
        Move::Copy(a) => so(session.copy(actor(a)) == Ok(2)),
        Move::Release(a) => so(session.release(actor(a)).is_ok()),
        Move::Holds(a, count) => so(session.holds(actor(a)) == count),
        Move::IsRefused(a, true) => {
            is_refused(
                session,
                actor(a),
                HandleRefusal::NoActor,
                SubmitRefusal::NoActor,
            )
        }
        Move::IsRefused(a, false) => {
            is_refused(
                session,
                actor(a),
                HandleRefusal::NoHandle,
                SubmitRefusal::NoHandle,
            )
        }
        Move::Kill(a) => Ok(session.kill(actor(a))?),
        _ => wait(session, step),
    }
}

fn take<S: Session>(session: &mut S, step: Move) -> Result<(), GaveUp> {
    match step {
        Move::Add(a, number) => add(session, actor(a), number),
        Move::AddOnes(a, times) => add_ones(session, actor(a), times),
        Move::AddAnswer(a, k) => add_answer(session, actor(a), FutureId::new(k)),
        Move::Ask(a) => {
            let k = ask_one(session, actor(a))?;
            so(session.answer(k).is_some())
        }
        Move::CountTo(a, number) => count_to(session, actor(a), number),
        Move::IsOne(k) => so(is_int(session.answer(FutureId::new(k)), 1)),
        Move::IsAtLimit(a) => {
            so(session.limit(actor(a)) == Some(1) && session.pending(actor(a)) <= 1)
        }
        Move::Has(count) => so(session.count() == count),
        Move::GiveUp => Err(GaveUp),
        _ => use_handle(session, step),
    }
}

/// How many moves code makes at most.
const MOST_MOVES: usize = 8;

/// Code that makes the first so many of these moves in turn.
#[derive(Clone, Copy)]
pub(super) struct Script {
    moves: [Move; MOST_MOVES],
    count: usize,
}

impl Script {
    /// Code that makes these moves, of which there are eight at most.
    pub(super) fn of(steps: &[Move]) -> Script {
        let mut moves = [Move::GiveUp; MOST_MOVES];
        for (made, step) in moves.iter_mut().zip(steps) {
            *made = *step;
        }
        Script {
            moves,
            count: steps.len(),
        }
    }
}

impl Code for Script {
    ghost tells = { λ _ _ _. Unit {0} };

    fn run<S: Session>(&mut self, session: &mut S) -> Result<(), GaveUp> {
        let moves = self.moves;
        let count = self.count.min(MOST_MOVES);
        for step in &moves[..count] {
            take(session, *step)?;
        }
        Ok(())
    }
}
