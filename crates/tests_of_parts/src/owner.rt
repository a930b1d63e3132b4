//! One caller from its first call to a death, calls that wait for answers, forged notices, the most
//! calls and copies, and refused memory.

use super::rows::{actor, assert_is, caller};
use act_owner::SendRefusal::{Answered, NoFuture, NotReady};
use act_owner::SubmitRefusal::{BadFuture, NoActor, PendingLimit, TooManyArgs};
use act_owner::{Collected, HandleRefusal, Owner, SendRefusal, SubmitRefusal};
use act_types::{
    ActorId, Answer, Arg, CallerId, Fault, FutureId, ListOf, Method, NoMemory, Notice, Packet,
    Reply, Settled, Value,
};
use std::alloc::Global;
use std::process::Abort;
use std::test::Fail;

/// What a row asks of the caller, with actors and futures by their numbers.
#[derive(Clone, Copy)]
enum Ask {
    /// So many arguments of this value.
    Add(u8, u32, i64),
    /// So many arguments.
    Get(u8, u32),
    /// One argument, which is a future.
    AddFuture(u8, u32),
    Packet(u32),
    /// The same, of which all is told.
    Whole(u32),
    /// A call is sent without its packet.
    Send(u32),
    /// The packet of the least call that may be sent.
    Next,
    Reply(u8, u32, i64),
    /// The reply says that the actor died.
    DeathReply(u8, u32),
    /// A reply to another caller.
    ReplyTo(u8, u8, u32, i64),
    Death(u8),
    /// Room for so many calls.
    Reserve(usize),
    See(Look),
}

/// What a row looks at, which changes nothing.
#[derive(Clone, Copy)]
enum Look {
    Count,
    AllAnswered,
    Ready,
    Call(u32),
    Answer(u32),
    Actor(u8),
}

/// The method of a call.
#[derive(Clone, Copy, Debug, PartialEq, Eq)]
enum Verb {
    Add,
    Get,
    Other,
}

/// What the caller tells of it.
#[derive(Clone, Copy, Debug, PartialEq, Eq)]
enum Told {
    Future(u32),
    NotSubmitted(SubmitRefusal),
    /// The number of the packet, and its first argument.
    Packet(u32, Option<i64>),
    /// The caller, the actor, the number, the future, the method, how many arguments, and the first.
    Whole(u8, u8, u32, u32, Verb, usize, Option<i64>),
    /// The actor that the call goes to, and its number there.
    Sent(u8, u32),
    NotSent(SendRefusal),
    /// The future of the next packet, the packet's number and its first argument, if there is a packet.
    Next(Option<(u32, u32, Option<i64>)>),
    First(u32),
    Late(u32),
    Stray,
    Died(u32),
    NoNotice,
    /// Whether there is the room that was asked for.
    Reserved(bool),
    Count(u32),
    AllAnswered(bool),
    Ready(Option<u32>),
    /// The actor, the number, the method, how many arguments, and the first.
    Call(u8, u32, Verb, usize, Option<i64>),
    NoCall,
    Number(i64),
    DiedFirst,
    OtherAnswer,
    NoAnswer,
    /// The copies of its handle, its calls without an answer, whether there are any, whether it is
    /// known to be dead, and its limit.
    Actor(u32, u32, bool, bool, Option<u32>),
}

/// How many looks there are after three calls.
const LOOKS: usize = 12;

/// A case by its name: what is asked, and what is to be told of it.
type Row = (&'static str, Ask, Told);

#[rattlefmt::skip]
static FIRST_CALLS: [Row; 18] = [
    ("the first call", Ask::Add(1, 1, 5), Told::Future(0)),
    ("a call of another actor", Ask::Get(2, 0), Told::Future(1)),
    ("the second call of the first actor", Ask::Get(1, 0), Told::Future(2)),
    ("an actor that it has no handle of", Ask::Get(3, 0), Told::NotSubmitted(NoActor)),
    ("five arguments", Ask::Get(1, 5), Told::NotSubmitted(TooManyArgs)),
    ("the packet of no call", Ask::Packet(3), Told::NotSent(NoFuture)),
    ("the first packet", Ask::Packet(0), Told::Packet(0, Some(5))),
    ("the first packet again", Ask::Packet(0), Told::Packet(0, Some(5))),
    ("three calls", Ask::See(Look::Count), Told::Count(3)),
    ("the first call's number", Ask::See(Look::Call(0)), Told::Call(1, 0, Verb::Add, 1, Some(5))),
    ("the number at another actor", Ask::See(Look::Call(1)), Told::Call(2, 0, Verb::Get, 0, None)),
    ("the next number at the first actor", Ask::See(Look::Call(2)), Told::Call(1, 1, Verb::Get, 0, None)),
    ("all of the first packet", Ask::Whole(0), Told::Whole(1, 1, 0, 0, Verb::Add, 1, Some(5))),
    ("all of the first packet again", Ask::Whole(0), Told::Whole(1, 1, 0, 0, Verb::Add, 1, Some(5))),
    ("two calls wait for the first actor", Ask::See(Look::Actor(1)), Told::Actor(1, 2, true, false, None)),
    ("one waits for the other", Ask::See(Look::Actor(2)), Told::Actor(1, 1, true, false, None)),
    ("none waits for a third", Ask::See(Look::Actor(3)), Told::Actor(0, 0, false, false, None)),
    ("an actor's answer to a call of another", Ask::Reply(2, 0, 5), Told::Stray),
];

#[rattlefmt::skip]
static FIRST_ANSWERS: [Row; 7] = [
    ("an answer of a call that wasn't sent", Ask::Reply(1, 2, 5), Told::Stray),
    ("a death as an answer", Ask::DeathReply(1, 0), Told::Stray),
    ("the first answer", Ask::Reply(1, 0, 5), Told::First(0)),
    ("the first answer again", Ask::Reply(1, 0, 5), Told::Late(0)),
    ("one call waits for the first actor", Ask::See(Look::Actor(1)), Told::Actor(1, 1, true, false, None)),
    ("still one for the other", Ask::See(Look::Actor(2)), Told::Actor(1, 1, true, false, None)),
    ("still none for a third", Ask::See(Look::Actor(3)), Told::Actor(0, 0, false, false, None)),
];

/// The last call goes to an actor that is known to be dead, and doesn't count.
#[rattlefmt::skip]
static A_DEATH: [Row; 20] = [
    ("the death", Ask::Death(1), Told::Died(1)),
    ("the death again", Ask::Death(1), Told::Died(0)),
    ("the death of an actor that it has no handle of", Ask::Death(3), Told::Stray),
    ("the packet of a call that died", Ask::Packet(2), Told::NotSent(Answered)),
    ("the packet that was sent before", Ask::Packet(0), Told::Packet(0, Some(5))),
    ("a call of the dead actor", Ask::Get(1, 0), Told::Future(3)),
    ("its packet", Ask::Packet(3), Told::NotSent(Answered)),
    ("the dead actor", Ask::See(Look::Actor(1)), Told::Actor(1, 0, false, true, None)),
    ("the other actor", Ask::See(Look::Actor(2)), Told::Actor(1, 1, true, false, None)),
    ("a third actor", Ask::See(Look::Actor(3)), Told::Actor(0, 0, false, false, None)),
    ("all of the first packet at last", Ask::Whole(0), Told::Whole(1, 1, 0, 0, Verb::Add, 1, Some(5))),
    ("four calls", Ask::See(Look::Count), Told::Count(4)),
    ("the first number stays", Ask::See(Look::Call(0)), Told::Call(1, 0, Verb::Add, 1, Some(5))),
    ("the number at the other actor stays", Ask::See(Look::Call(1)), Told::Call(2, 0, Verb::Get, 0, None)),
    ("the second number stays", Ask::See(Look::Call(2)), Told::Call(1, 1, Verb::Get, 0, None)),
    ("a number at the dead actor", Ask::See(Look::Call(3)), Told::Call(1, 2, Verb::Get, 0, None)),
    ("the answer before the death", Ask::See(Look::Answer(0)), Told::Number(5)),
    ("no answer of the other actor", Ask::See(Look::Answer(1)), Told::NoAnswer),
    ("the answer by the death", Ask::See(Look::Answer(2)), Told::DiedFirst),
    ("the answer after the death", Ask::See(Look::Answer(3)), Told::DiedFirst),
];

#[rattlefmt::skip]
static CALLS_SENT: [Row; 8] = [
    ("the first call", Ask::Add(1, 1, 5), Told::Future(0)),
    ("the second call", Ask::Get(1, 0), Told::Future(1)),
    ("an answer before it was sent", Ask::Reply(1, 1, 5), Told::Stray),
    ("no such call", Ask::Send(2), Told::NotSent(NoFuture)),
    ("sent", Ask::Send(1), Told::Sent(1, 1)),
    ("sent again", Ask::Send(1), Told::Sent(1, 1)),
    ("its answer", Ask::Reply(1, 1, 5), Told::First(1)),
    ("its packet, too", Ask::Packet(1), Told::Packet(1, None)),
];

#[rattlefmt::skip]
static CALLS_UNDER_A_LIMIT: [Row; 16] = [
    ("the first actor's limit", Ask::See(Look::Actor(1)), Told::Actor(1, 0, false, false, Some(1))),
    ("the second actor's limit", Ask::See(Look::Actor(2)), Told::Actor(1, 0, false, false, None)),
    ("a third actor's limit", Ask::See(Look::Actor(3)), Told::Actor(0, 0, false, false, None)),
    ("as many as may be", Ask::Get(1, 0), Told::Future(0)),
    ("one more", Ask::Get(1, 0), Told::NotSubmitted(PendingLimit)),
    ("with five arguments", Ask::Get(1, 5), Told::NotSubmitted(TooManyArgs)),
    ("an actor without a limit", Ask::Get(2, 0), Told::Future(1)),
    ("that actor again", Ask::Get(2, 0), Told::Future(2)),
    ("the packet", Ask::Packet(0), Told::Packet(0, None)),
    ("one more once it was sent", Ask::Get(1, 0), Told::NotSubmitted(PendingLimit)),
    ("the answer", Ask::Reply(1, 0, 5), Told::First(0)),
    ("the next after the answer", Ask::Get(1, 0), Told::Future(3)),
    ("one more than that", Ask::Get(1, 0), Told::NotSubmitted(PendingLimit)),
    ("the death", Ask::Death(1), Told::Died(1)),
    ("a call of the dead actor", Ask::Get(1, 0), Told::Future(4)),
    ("another call of it", Ask::Get(1, 0), Told::Future(5)),
];

#[rattlefmt::skip]
static CALLS_THAT_WAIT: [Row; 16] = [
    ("a call that doesn't wait", Ask::Add(2, 1, 7), Told::Future(0)),
    ("one that waits for it", Ask::AddFuture(1, 0), Told::Future(1)),
    ("one after it that doesn't", Ask::Add(1, 1, 1), Told::Future(2)),
    ("one that would wait for itself", Ask::AddFuture(1, 3), Told::NotSubmitted(BadFuture)),
    ("the first is ready", Ask::See(Look::Ready), Told::Ready(Some(0))),
    ("the second isn't", Ask::Packet(1), Told::NotSent(NotReady)),
    ("the first packet", Ask::Packet(0), Told::Packet(0, Some(7))),
    ("the third is ready", Ask::See(Look::Ready), Told::Ready(Some(2))),
    ("the third is the next packet", Ask::Next, Told::Next(Some((2, 1, Some(1))))),
    ("its packet again", Ask::Packet(2), Told::Packet(1, Some(1))),
    ("none is ready", Ask::See(Look::Ready), Told::Ready(None)),
    ("no next packet", Ask::Next, Told::Next(None)),
    ("the answer", Ask::Reply(2, 0, 7), Told::First(0)),
    ("the second is ready after it", Ask::See(Look::Ready), Told::Ready(Some(1))),
    ("its packet has the answer", Ask::Next, Told::Next(Some((1, 0, Some(7))))),
    ("none is ready at the end", Ask::See(Look::Ready), Told::Ready(None)),
];

/// Of these calls two are sent, and the first is answered.
#[rattlefmt::skip]
static THREE_CALLS: [Row; 6] = [
    ("a call of the first actor", Ask::Add(1, 1, 5), Told::Future(0)),
    ("a call of the second", Ask::Get(2, 0), Told::Future(1)),
    ("the first actor again", Ask::Get(1, 0), Told::Future(2)),
    ("the first is sent", Ask::Packet(0), Told::Packet(0, Some(5))),
    ("the second is sent", Ask::Packet(1), Told::Packet(0, None)),
    ("the first is answered", Ask::Reply(1, 0, 5), Told::First(0)),
];

/// How the caller stands after three calls. The last may be sent, and nobody died.
#[rattlefmt::skip]
static AFTER_THREE_CALLS: [Row; LOOKS] = [
    ("three calls", Ask::See(Look::Count), Told::Count(3)),
    ("not all are answered", Ask::See(Look::AllAnswered), Told::AllAnswered(false)),
    ("the last is ready", Ask::See(Look::Ready), Told::Ready(Some(2))),
    ("the first call", Ask::See(Look::Call(0)), Told::Call(1, 0, Verb::Add, 1, Some(5))),
    ("the second call", Ask::See(Look::Call(1)), Told::Call(2, 0, Verb::Get, 0, None)),
    ("the third call", Ask::See(Look::Call(2)), Told::Call(1, 1, Verb::Get, 0, None)),
    ("the first answer", Ask::See(Look::Answer(0)), Told::Number(5)),
    ("no second answer", Ask::See(Look::Answer(1)), Told::NoAnswer),
    ("no third answer", Ask::See(Look::Answer(2)), Told::NoAnswer),
    ("the first actor", Ask::See(Look::Actor(1)), Told::Actor(1, 1, true, false, Some(2))),
    ("the second actor", Ask::See(Look::Actor(2)), Told::Actor(1, 1, true, false, None)),
    ("a third actor", Ask::See(Look::Actor(3)), Told::Actor(0, 0, false, false, None)),
];

#[rattlefmt::skip]
static FORGED: [Row; 6] = [
    ("to another caller", Ask::ReplyTo(2, 2, 1, 7), Told::Stray),
    ("of another actor", Ask::Reply(1, 1, 7), Told::Stray),
    ("of no call", Ask::Reply(2, 9, 7), Told::Stray),
    ("of a call that wasn't sent", Ask::Reply(1, 2, 7), Told::Stray),
    ("a death as an answer", Ask::DeathReply(2, 1), Told::Stray),
    ("the death of a third actor", Ask::Death(3), Told::Stray),
];

static GENUINE: [Row; 1] = [("a genuine answer", Ask::Reply(2, 1, 7), Told::First(1))];

#[rattlefmt::skip]
static CALLS_AND_PACKETS: [Row; 11] = [
    ("one argument", Ask::Add(1, 1, 5), Told::Future(0)),
    ("a future", Ask::AddFuture(2, 0), Told::Future(1)),
    ("two arguments", Ask::Add(2, 2, 7), Told::Future(2)),
    ("the first packet", Ask::Packet(0), Told::Packet(0, Some(5))),
    ("the first answer", Ask::Reply(1, 0, 5), Told::First(0)),
    ("a packet with an answer", Ask::Packet(1), Told::Packet(0, Some(5))),
    ("no argument", Ask::Get(1, 0), Told::Future(3)),
    ("a future that has no answer", Ask::AddFuture(1, 2), Told::Future(4)),
    ("a packet of two arguments", Ask::Packet(2), Told::Packet(1, Some(7))),
    ("room for nine calls", Ask::Reserve(9), Told::Reserved(true)),
    ("the fourth is ready", Ask::See(Look::Ready), Told::Ready(Some(3))),
];

fn copies(alloc: Global, count: u32, value: i64) -> Result<ListOf<Arg>, NoMemory> {
    let mut args = ListOf::new(alloc);
    for _ in 0..count {
        args.push(Arg::Plain(Value::Int(value)))?;
    }
    Ok(args)
}

fn one_future(alloc: Global, k: u32) -> Result<ListOf<Arg>, NoMemory> {
    let mut args = ListOf::new(alloc);
    args.push(Arg::Fut(FutureId::new(k)))?;
    Ok(args)
}

fn submitted(owner: &mut Owner, a: ActorId, method: Method, args: ListOf<Arg>) -> Told {
    match owner.submit(a, method, args) {
        Ok(k) => Told::Future(k.number()),
        Err(refusal) => Told::NotSubmitted(refusal),
    }
}

fn verb_of(method: Method) -> Verb {
    match method {
        Method::Add => Verb::Add,
        Method::Get => Verb::Get,
        _ => Verb::Other,
    }
}

fn first_argument(packet: &Packet) -> Option<i64> {
    match packet.args.as_slice().first() {
        Some(Settled::Good(Value::Int(value))) => Some(*value),
        _ => None,
    }
}

fn part_of(packet: &Packet) -> Told {
    Told::Packet(packet.number, first_argument(packet))
}

fn whole_of(packet: &Packet) -> Told {
    Told::Whole(
        packet.caller.number(),
        packet.actor.number(),
        packet.number,
        packet.future.number(),
        verb_of(packet.method),
        packet.args.len(),
        first_argument(packet),
    )
}

fn packet_told(alloc: Global, owner: &mut Owner, k: u32, whole: bool) -> Told {
    match owner.packet(alloc, FutureId::new(k)) {
        Ok(packet) => {
            let told = if whole {
                whole_of(&packet)
            } else {
                part_of(&packet)
            };
            drop(packet);
            told
        }
        Err(refusal) => Told::NotSent(refusal),
    }
}

fn next_told(alloc: Global, owner: &mut Owner) -> Result<Told, NoMemory> {
    let Some(packet) = owner.next_packet(alloc)? else {
        return Ok(Told::Next(None));
    };
    let first = first_argument(&packet);
    let told = Told::Next(Some((packet.future.number(), packet.number, first)));
    drop(packet);
    Ok(told)
}

fn sending_told(owner: &mut Owner, k: u32) -> Told {
    match owner.send(FutureId::new(k)) {
        Ok((a, number)) => Told::Sent(a.number(), number),
        Err(refusal) => Told::NotSent(refusal),
    }
}

fn collected(owner: &mut Owner, notice: Notice) -> Told {
    match owner.collect(notice) {
        Collected::First(k) => Told::First(k.number()),
        Collected::Late(k) => Told::Late(k.number()),
        Collected::Stray => Told::Stray,
        Collected::Died(count) => Told::Died(count),
    }
}

fn reply(actor: ActorId, caller: CallerId, k: u32, answer: Answer) -> Notice {
    Notice::Answered(Reply {
        actor,
        caller,
        future: FutureId::new(k),
        place: 0,
        answer,
    })
}

fn call_seen(owner: &Owner, k: u32) -> Told {
    let Some(call) = owner.call(FutureId::new(k)) else {
        return Told::NoCall;
    };
    let first = match call.args.as_slice().first() {
        Some(Arg::Plain(Value::Int(value))) => Some(*value),
        _ => None,
    };
    Told::Call(
        call.actor.number(),
        call.number,
        verb_of(call.method),
        call.args.len(),
        first,
    )
}

fn answer_seen(owner: &Owner, k: u32) -> Told {
    match owner.answer(FutureId::new(k)) {
        None => Told::NoAnswer,
        Some(Ok(Value::Int(value))) => Told::Number(*value),
        Some(Err(Fault::ActorDied)) => Told::DiedFirst,
        Some(_) => Told::OtherAnswer,
    }
}

fn actor_seen(owner: &Owner, a: ActorId) -> Told {
    Told::Actor(
        owner.holds(a),
        owner.pending(a),
        owner.awaits(a),
        owner.is_dead(a),
        owner.limit(a),
    )
}

fn seen(rt: &impl Abort, owner: &Owner, look: Look) -> Told {
    match look {
        Look::Count => Told::Count(owner.count()),
        Look::AllAnswered => Told::AllAnswered(owner.all_answered()),
        Look::Ready => Told::Ready(owner.ready().map(FutureId::number)),
        Look::Call(k) => call_seen(owner, k),
        Look::Answer(k) => answer_seen(owner, k),
        Look::Actor(a) => actor_seen(owner, actor(rt, a)),
    }
}

/// What the caller tells of a notice, or of what it shows.
fn noticed(rt: &impl Abort, owner: &mut Owner, ask: Ask) -> Told {
    let own = owner.id();
    let notice = match ask {
        Ask::Reply(a, k, value) => reply(actor(rt, a), own, k, Ok(Value::Int(value))),
        Ask::DeathReply(a, k) => reply(actor(rt, a), own, k, Err(Fault::ActorDied)),
        Ask::ReplyTo(c, a, k, value) => {
            reply(actor(rt, a), caller(rt, c), k, Ok(Value::Int(value)))
        }
        Ask::Death(a) => Notice::Death(actor(rt, a)),
        _ => return Told::NoNotice,
    };
    collected(owner, notice)
}

/// What the caller tells of a row's request.
fn asked(rt: &impl Abort, alloc: Global, owner: &mut Owner, ask: Ask) -> Result<Told, NoMemory> {
    match ask {
        Ask::Add(a, count, value) => {
            let args = copies(alloc, count, value)?;
            Ok(submitted(owner, actor(rt, a), Method::Add, args))
        }
        Ask::Get(a, count) => {
            let args = copies(alloc, count, 0)?;
            Ok(submitted(owner, actor(rt, a), Method::Get, args))
        }
        Ask::AddFuture(a, k) => {
            let args = one_future(alloc, k)?;
            Ok(submitted(owner, actor(rt, a), Method::Add, args))
        }
        Ask::Packet(k) => Ok(packet_told(alloc, owner, k, false)),
        Ask::Whole(k) => Ok(packet_told(alloc, owner, k, true)),
        Ask::Send(k) => Ok(sending_told(owner, k)),
        Ask::Next => next_told(alloc, owner),
        Ask::Reserve(count) => Ok(Told::Reserved(owner.reserve(count).is_ok())),
        Ask::See(look) => Ok(seen(rt, owner, look)),
        _ => Ok(noticed(rt, owner, ask)),
    }
}

/// All that is shown of a caller's first three calls, and of three actors.
fn shown(rt: &impl Abort, owner: &Owner) -> [Told; LOOKS] {
    let mut shown = [Told::Stray; LOOKS];
    for (told, row) in shown.iter_mut().zip(&AFTER_THREE_CALLS) {
        if let Ask::See(look) = row.1 {
            *told = seen(rt, owner, look);
        }
    }
    shown
}

/// What the caller tells of a request, which is asked once more where memory is refused.
fn asked_again(
    rt: &impl Abort,
    alloc: Global,
    owner: &mut Owner,
    row: &Row,
) -> Result<Told, NoMemory> {
    let before = shown(rt, owner);
    let told = asked(rt, alloc, owner, row.1)?;
    match told {
        Told::NotSubmitted(SubmitRefusal::NoMemory)
        | Told::NotSent(SendRefusal::NoMemory)
        | Told::Reserved(false) => {
            assert_is(rt, row.0, &shown(rt, owner), &before);
            asked(rt, alloc, owner, row.1)
        }
        _ => Ok(told),
    }
}

/// Asks for what each row asks for, where memory may be refused once.
fn play(rt: &impl Abort, alloc: Global, owner: &mut Owner, rows: &[Row]) -> Result<(), NoMemory> {
    for row in rows {
        let told = asked_again(rt, alloc, owner, row)?;
        assert_is(rt, row.0, &told, &row.2);
    }
    Ok(())
}

/// Caller 1, which has handles of actors 1 and 2, and of the first one's calls this limit.
fn opened(rt: &impl Abort, alloc: Global, limit: Option<u32>) -> Result<Owner, NoMemory> {
    let c1 = caller(rt, 1);
    let a1 = ActorId::new(1).unwrap();
    let a2 = ActorId::new(2).unwrap();
    match limit {
        None => Owner::open(alloc, c1, &[a1, a2]),
        Some(limit) => {
            assert!(rt; limit != 0);
            Owner::open_with(alloc, c1, &[(a1, Some(limit)), (a2, None)])
        }
    }
}

/// The caller, which is opened once more where memory is refused.
fn opened_again(rt: &impl Abort, alloc: Global, limit: Option<u32>) -> Result<Owner, NoMemory> {
    let owner = opened(rt, alloc, limit);
    if owner.is_ok() {
        return owner;
    }
    drop(owner);
    let again = opened(rt, alloc, limit);
    assert_is(rt, "opened again", &again.is_ok(), &true);
    again
}

/// Opens a caller under this limit, and plays these rows in turn.
fn play_all(
    rt: &impl Abort,
    alloc: Global,
    limit: Option<u32>,
    parts: &[&[Row]],
) -> Result<(), NoMemory> {
    let mut owner = opened_again(rt, alloc, limit)?;
    let mut done = Ok(());
    for rows in parts {
        if done.is_ok() {
            done = play(rt, alloc, &mut owner, rows);
        }
    }
    drop(owner);
    done
}

#[test]
fn from_the_first_call_to_a_death(rt: HostRuntime) -> Result<(), Fail> {
    play_all(
        &rt,
        rt.alloc(),
        None,
        &[&FIRST_CALLS, &FIRST_ANSWERS, &A_DEATH],
    )?;
    Ok(())
}

/// The reply of a call that was sent without its packet is kept.
#[test]
fn sent_without_their_packets(rt: HostRuntime) -> Result<(), Fail> {
    play_all(&rt, rt.alloc(), None, &[&CALLS_SENT])?;
    Ok(())
}

/// A call counts until its answer is kept, and none does once the actor's death was collected.
#[test]
fn a_limit_counts_what_has_no_answer(rt: HostRuntime) -> Result<(), Fail> {
    play_all(&rt, rt.alloc(), Some(1), &[&CALLS_UNDER_A_LIMIT])?;
    Ok(())
}

#[test]
fn calls_wait_for_answers(rt: HostRuntime) -> Result<(), Fail> {
    play_all(&rt, rt.alloc(), None, &[&CALLS_THAT_WAIT])?;
    Ok(())
}

/// After each forged notice the caller stands as before.
fn play_forged(rt: &impl Abort, alloc: Global, owner: &mut Owner) -> Result<(), NoMemory> {
    play(rt, alloc, owner, &THREE_CALLS)?;
    play(rt, alloc, owner, &AFTER_THREE_CALLS)?;
    for (name, ask, wanted) in &FORGED {
        let told = asked(rt, alloc, owner, *ask)?;
        assert_is(rt, name, &told, wanted);
        play(rt, alloc, owner, &AFTER_THREE_CALLS)?;
    }
    play(rt, alloc, owner, &GENUINE)
}

#[test]
fn forged_notices_change_nothing(rt: HostRuntime) -> Result<(), Fail> {
    let mut owner = opened(&rt, rt.alloc(), Some(2))?;
    let done = play_forged(&rt, rt.alloc(), &mut owner);
    drop(owner);
    done?;
    Ok(())
}

/// Memory is refused from outside, at most once.
#[test]
fn refused_memory_changes_nothing(rt: HostRuntime) -> Result<(), Fail> {
    play_all(&rt, rt.alloc(), Some(2), &[&CALLS_AND_PACKETS])?;
    Ok(())
}

/// Submits so many calls of an actor. The last that was refused, by how many came before it.
fn last_refused(
    alloc: Global,
    owner: &mut Owner,
    a: ActorId,
    count: u32,
) -> Option<(u32, SubmitRefusal)> {
    let mut refused = None;
    for submitted in 0..count {
        if let Err(refusal) = owner.submit(a, Method::Get, ListOf::new(alloc)) {
            refused = Some((submitted, refusal));
        }
    }
    refused
}

#[test]
fn the_most_calls(rt: HostRuntime) -> Result<(), Fail> {
    let a1 = ActorId::new(1).unwrap();
    let mut owner = opened(&rt, rt.alloc(), None)?;
    let last = last_refused(rt.alloc(), &mut owner, a1, 65_537);
    let seen = (last, owner.count());
    let wanted = (Some((65_536, SubmitRefusal::TooManyCalls)), 65_536);
    assert_is(&rt, "the last of 65,537 calls", &seen, &wanted);
    drop(owner);
    Ok(())
}

/// Copies the caller's one handle of an actor until it has so many.
fn assert_copies(rt: &impl Abort, owner: &mut Owner, a: ActorId, most: u32) {
    for copies in 2..most {
        assert_is(rt, "a copy", &owner.copy(a), &Ok(copies));
    }
}

#[test]
fn the_most_copies(rt: HostRuntime) -> Result<(), Fail> {
    let a1 = ActorId::new(1).unwrap();
    let mut owner = opened(&rt, rt.alloc(), None)?;
    assert_copies(&rt, &mut owner, a1, 65_536);
    let seen = (owner.copy(a1), owner.holds(a1));
    let wanted = (Err(HandleRefusal::TooManyCopies), 65_535);
    assert_is(&rt, "one copy too many", &seen, &wanted);
    drop(owner);
    Ok(())
}

#[test]
fn of_one_actor(rt: HostRuntime) -> Result<(), Fail> {
    let a1 = ActorId::new(1).unwrap();
    let a2 = ActorId::new(2).unwrap();
    let owner = Owner::open(rt.alloc(), caller(&rt, 1), &[a1])?;
    let seen = (owner.holds(a1), owner.holds(a2));
    drop(owner);
    assert_is(&rt, "a caller of one actor", &seen, &(1, 0));
    Ok(())
}
