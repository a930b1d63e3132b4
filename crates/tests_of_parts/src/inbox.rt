//! The order in which calls come, and in which they are handed out; calls that come where memory is
//! refused; and an inbox beside a plain list of what it holds.

use super::rows::{Verb, assert_is, caller, method, word_after};
use act_inbox::{Arrival, Inbox};
use act_types::{
    ActorId, CALLER_NUMBERS, CallerId, FutureId, Method, NoMemory, Packet, ReleaseNote, Settled,
    SmallList, Value,
};
use std::alloc::{AllocError, Global};
use std::process::Abort;
use std::test::Fail;

/// Calls of caller 1 and of a stranger by their names, callers and numbers, and whether caller 1's
/// next came after each.
#[rattlefmt::skip]
static ARRIVALS: [(&str, u8, u32, Verb, Arrival, bool); 6] = [
    ("before the first two", 1, 2, Verb::Add, Arrival::New, false),
    ("the first", 1, 0, Verb::Get, Arrival::New, true),
    ("the third again", 1, 2, Verb::Add, Arrival::Repeat, true),
    ("the first again, as another method", 1, 0, Verb::Put, Arrival::Repeat, true),
    ("a number too great", 1, 65_536, Verb::Add, Arrival::Stranger, true),
    ("of a stranger", 9, 0, Verb::Add, Arrival::Stranger, true),
];

/// Release notes by their names, callers and what they tell, where one call of caller 1 went out,
/// and whether the inbox is drained after each.
#[rattlefmt::skip]
static NOTES: [(&str, u8, u32, Arrival, bool); 3] = [
    ("of a stranger", 9, 1, Arrival::Stranger, false),
    ("after the call that went out", 1, 1, Arrival::New, true),
    ("a second note", 1, 2, Arrival::Repeat, true),
];

/// Calls by their names and numbers, and whether each may be passed by.
#[rattlefmt::skip]
static PASSES: [(&str, u32, bool); 5] = [
    ("the second, too early", 1, false),
    ("the first", 0, true),
    ("the first again", 0, false),
    ("the third, too early", 2, false),
    ("the second", 1, true),
];

/// A call of this caller, number and method to actor 1, with one argument.
fn packet_of(
    alloc: Global,
    caller: CallerId,
    number: u32,
    method: Method,
) -> Result<Packet, NoMemory> {
    let mut args = SmallList::new(alloc);
    args.push(Settled::Good(Value::Int(7)))?;
    Ok(Packet {
        caller,
        actor: ActorId::new(1).unwrap(),
        number,
        future: FutureId::new(number),
        method,
        args,
    })
}

/// Caller 1's call of this number.
fn call_of(alloc: Global, number: u32) -> Result<Packet, NoMemory> {
    packet_of(alloc, CallerId::new(1).unwrap(), number, Method::Add)
}

fn arrive(rt: &impl Abort, inbox: &mut Inbox, name: &str, packet: Packet, arrival: Arrival) {
    let arrived = inbox.arrive(packet);
    let wanted = Ok(arrival);
    assert_is(rt, name, &arrived, &wanted);
    drop(arrived);
    drop(wanted);
}

/// Brings caller 1's call of this number.
fn bring(
    rt: &impl Abort,
    alloc: Global,
    inbox: &mut Inbox,
    number: u32,
    arrival: Arrival,
) -> Result<(), NoMemory> {
    let packet = call_of(alloc, number)?;
    arrive(rt, inbox, "in turn", packet, arrival);
    Ok(())
}

fn number_of(packet: Packet) -> u32 {
    let number = packet.number;
    drop(packet);
    number
}

fn method_of(packet: Packet) -> Method {
    let method = packet.method;
    drop(packet);
    method
}

/// Takes out the call of caller 1 that is next, if it came.
fn take(rt: &impl Abort, inbox: &mut Inbox, wanted: Option<u32>) {
    let taken = inbox.next(CallerId::new(1).unwrap());
    assert_is(rt, "the call taken", &taken.map(number_of), &wanted);
}

/// Brings calls of caller 1 and of a stranger.
fn bring_each(rt: &impl Abort, alloc: Global, inbox: &mut Inbox) -> Result<(), NoMemory> {
    for (name, from, number, verb, arrival, has_next) in &ARRIVALS {
        let packet = packet_of(alloc, caller(rt, *from), *number, method(*verb))?;
        arrive(rt, inbox, name, packet, *arrival);
        assert_is(rt, name, &inbox.has_next(caller(rt, 1)), has_next);
    }
    Ok(())
}

/// Brings release notes, where one call of caller 1 went out.
fn note_each(rt: &impl Abort, inbox: &mut Inbox) {
    for (name, from, after, arrival, drained) in &NOTES {
        let note = ReleaseNote {
            caller: caller(rt, *from),
            actor: ActorId::new(1).unwrap(),
            after: *after,
        };
        assert_is(rt, name, &inbox.released(note), arrival);
        assert_is(rt, name, &inbox.drained(), drained);
    }
}

/// Shows and takes the one call that comes next, which then is none.
fn show_and_take(rt: &impl Abort, inbox: &mut Inbox) {
    let c1 = CallerId::new(1).unwrap();
    for wanted in [Some(Method::Get), None] {
        let shown = inbox.peek(c1).map(|packet| packet.method);
        let taken = inbox.next(c1).map(method_of);
        assert_is(rt, "the call shown", &shown, &wanted);
        assert_is(rt, "the call taken", &taken, &wanted);
        assert_is(rt, "handed out", &inbox.handed(c1), &1);
    }
}

#[test]
fn first_arrivals_in_order(rt: HostRuntime) -> Result<(), Fail> {
    let mut inbox = Inbox::open(rt.alloc(), &[CallerId::new(1).unwrap()])?;
    let done = bring_each(&rt, rt.alloc(), &mut inbox);
    if done.is_ok() {
        show_and_take(&rt, &mut inbox);
        note_each(&rt, &mut inbox);
    }
    drop(inbox);
    done?;
    Ok(())
}

/// Brings a thousand calls, the last one first.
fn bring_descending(
    rt: &impl Abort,
    alloc: Global,
    inbox: &mut Inbox,
    arrival: Arrival,
) -> Result<(), NoMemory> {
    for number in (0..1000).rev() {
        bring(rt, alloc, inbox, number, arrival)?;
    }
    Ok(())
}

/// Takes a thousand calls, the first one first.
fn take_ascending(rt: &impl Abort, inbox: &mut Inbox) {
    for number in 0..1000 {
        take(rt, inbox, Some(number));
    }
}

fn descend_and_ascend(rt: &impl Abort, alloc: Global, inbox: &mut Inbox) -> Result<(), NoMemory> {
    bring_descending(rt, alloc, inbox, Arrival::New)?;
    take_ascending(rt, inbox);
    bring_descending(rt, alloc, inbox, Arrival::Repeat)?;
    bring(rt, alloc, inbox, 1000, Arrival::New)?;
    take(rt, inbox, Some(1000));
    Ok(())
}

#[test]
fn descending_numbers_go_out_ascending(rt: HostRuntime) -> Result<(), Fail> {
    let mut inbox = Inbox::open(rt.alloc(), &[CallerId::new(1).unwrap()])?;
    let done = descend_and_ascend(&rt, rt.alloc(), &mut inbox);
    drop(inbox);
    done?;
    Ok(())
}

/// Opens an inbox, and once more where memory is refused.
fn opened(rt: &impl Abort, alloc: Global) -> Result<Inbox, NoMemory> {
    let callers = [CallerId::new(1).unwrap()];
    let opened = Inbox::open(alloc, &callers);
    if opened.is_ok() {
        return opened;
    }
    drop(opened);
    let again = Inbox::open(alloc, &callers);
    assert_is(rt, "opened again", &again.is_ok(), &true);
    again
}

/// Brings a call that came back, since memory was refused.
fn bring_again(rt: &impl Abort, inbox: &mut Inbox, back: Packet, before: (bool, u32)) {
    let c1 = CallerId::new(1).unwrap();
    let name = "one that came back";
    assert_is(rt, name, &(inbox.has_next(c1), inbox.handed(c1)), &before);
    assert_is(
        rt,
        name,
        &inbox.arrival(back.caller, back.number),
        &Arrival::New,
    );
    arrive(rt, inbox, name, back, Arrival::New);
}

/// Brings a call, and what came back of it where memory is refused.
fn bring_at_last(
    rt: &impl Abort,
    alloc: Global,
    inbox: &mut Inbox,
    number: u32,
) -> Result<(), NoMemory> {
    let c1 = CallerId::new(1).unwrap();
    let call = call_of(alloc, number)?;
    let before = (inbox.has_next(c1), inbox.handed(c1));
    let same = match call_of(alloc, number) {
        Ok(same) => same,
        Err(refused) => {
            drop(call);
            return Err(refused);
        }
    };
    if let Err(back) = inbox.arrive(same) {
        assert_is(rt, "what came back", &back, &call);
        bring_again(rt, inbox, back, before);
    }
    arrive(rt, inbox, "the same again", call, Arrival::Repeat);
    Ok(())
}

/// Brings a thousand calls, the last one first, and what came back of one.
fn bring_all_at_last(rt: &impl Abort, alloc: Global, inbox: &mut Inbox) -> Result<(), NoMemory> {
    for number in (0..1000).rev() {
        bring_at_last(rt, alloc, inbox, number)?;
    }
    Ok(())
}

/// Memory is refused from outside, at most once.
#[test]
fn refused_memory_changes_nothing(rt: HostRuntime) -> Result<(), Fail> {
    let mut inbox = opened(&rt, rt.alloc())?;
    let done = bring_all_at_last(&rt, rt.alloc(), &mut inbox);
    if done.is_ok() {
        take_ascending(&rt, &mut inbox);
    }
    drop(inbox);
    done?;
    Ok(())
}

/// A call, by what tells it from the others.
#[derive(Clone, Copy, Debug, PartialEq, Eq)]
struct Call {
    caller: CallerId,
    number: u32,
    future: FutureId,
}

impl Call {
    fn of(packet: &Packet) -> Call {
        Call {
            caller: packet.caller,
            number: packet.number,
            future: packet.future,
        }
    }

    fn shown(packet: Packet) -> Call {
        let call = Call::of(&packet);
        drop(packet);
        call
    }

    fn packet(&self, alloc: Global) -> Packet {
        Packet {
            caller: self.caller,
            actor: ActorId::new(1).unwrap(),
            number: self.number,
            future: self.future,
            method: Method::Get,
            args: SmallList::new(alloc),
        }
    }
}

/// How many of a caller's calls were handed out, whether its next came, and which that is.
type Seen = (u32, bool, Option<Call>);

fn seen(inbox: &Inbox, caller: CallerId) -> Seen {
    let next = inbox.peek(caller).map(|packet| Call::of(packet));
    (inbox.handed(caller), inbox.has_next(caller), next)
}

/// The calls that wait, in the order in which they came, and by the callers' numbers how many were
/// handed out.
#[derive(Drop)]
struct PlainInbox {
    held: Vec<Call>,
    handed: [u32; CALLER_NUMBERS],
}

impl PlainInbox {
    fn handed(&self, caller: CallerId) -> u32 {
        self.handed[caller.number() as usize]
    }

    fn place(&self, caller: CallerId, number: u32) -> Option<usize> {
        self.held
            .iter()
            .position(|call| call.caller == caller && call.number == number)
    }

    fn arrive(&mut self, call: Call) -> Result<Arrival, AllocError> {
        let came = call.number < self.handed(call.caller)
            || self.place(call.caller, call.number).is_some();
        if came {
            return Ok(Arrival::Repeat);
        }
        self.held.push(call)?;
        Ok(Arrival::New)
    }

    fn peek(&self, caller: CallerId) -> Option<Call> {
        let place = self.place(caller, self.handed(caller))?;
        self.held.get(place).copied()
    }

    fn seen(&self, caller: CallerId) -> Seen {
        let next = self.peek(caller);
        (self.handed(caller), next.is_some(), next)
    }

    fn next(&mut self, caller: CallerId) -> Option<Call> {
        let call = self.peek(caller)?;
        self.held.retain(|other| *other != call);
        let number = caller.number() as usize;
        self.handed[number] = self.handed[number].saturating_add(1);
        Some(call)
    }
}

/// Passes a call by where that may be done, and whether it was.
fn passed_by(inbox: &mut Inbox, packet: &Packet) -> bool {
    if !inbox.is_empty() || inbox.handed(packet.caller) != packet.number {
        return false;
    }
    match inbox.arrival(packet.caller, packet.number) {
        Arrival::New => {
            inbox.pass_by(packet);
            true
        }
        _ => false,
    }
}

/// A call of the caller near those that were handed out of the plain inbox.
fn call_near(plain: &PlainInbox, caller: CallerId, word: u32, step: u32) -> Call {
    let least = plain.handed(caller).saturating_sub(3);
    Call {
        caller,
        number: least.saturating_add(word / 9 % 8),
        future: FutureId::new(step),
    }
}

/// Brings a call to both, to the inbox by passing it by where that may be done.
fn bring_to_both(
    rt: &impl Abort,
    alloc: Global,
    inbox: &mut Inbox,
    plain: &mut PlainInbox,
    call: Call,
    may_pass: bool,
) -> Result<(), AllocError> {
    let arrival = plain.arrive(call)?;
    let packet = call.packet(alloc);
    let told = inbox.arrival(packet.caller, packet.number);
    assert_is(rt, "what a random call would be", &told, &arrival);
    if may_pass && passed_by(inbox, &packet) {
        assert_is(
            rt,
            "a random call passed by",
            &plain.next(call.caller),
            &Some(call),
        );
        drop(packet);
    } else {
        arrive(rt, inbox, "a random call", packet, arrival);
    }
    assert_is(
        rt,
        "after a random call",
        &inbox.is_empty(),
        &plain.held.is_empty(),
    );
    Ok(())
}

/// A step of an inbox and of a plain one, as a random word says.
fn random_step(
    rt: &impl Abort,
    alloc: Global,
    inbox: &mut Inbox,
    plain: &mut PlainInbox,
    caller: CallerId,
    word: u32,
    step: u32,
) -> Result<(), AllocError> {
    if word / 3 % 3 == 0 {
        let taken = inbox.next(caller).map(Call::shown);
        assert_is(rt, "a random call taken", &taken, &plain.next(caller));
        return Ok(());
    }
    let call = call_near(plain, caller, word, step);
    bring_to_both(rt, alloc, inbox, plain, call, word / 72 % 2 == 0)
}

/// Thirty steps, each of the caller that its word says, after which both show the same.
fn random_steps(
    rt: &impl Abort,
    alloc: Global,
    inbox: &mut Inbox,
    plain: &mut PlainInbox,
    callers: &[CallerId; 3],
    word: &mut u32,
) -> Result<(), AllocError> {
    for step in 0..30 {
        *word = word_after(*word);
        let caller = callers[(*word % 3) as usize];
        random_step(rt, alloc, inbox, plain, caller, *word, step)?;
        assert!(rt;
            callers
                .iter()
                .all(|caller| seen(inbox, *caller) == plain.seen(*caller))
        );
    }
    Ok(())
}

/// Steps of an inbox and of a plain one, each drawn from the row of random words.
fn random_run(rt: &impl Abort, alloc: Global, word: &mut u32) -> Result<(), Fail> {
    let callers = [
        CallerId::new(3).unwrap(),
        CallerId::new(16).unwrap(),
        CallerId::new(1).unwrap(),
    ];
    let mut inbox = Inbox::open(alloc, &callers)?;
    let mut plain = PlainInbox {
        held: Vec::new(alloc),
        handed: [0; CALLER_NUMBERS],
    };
    let done = random_steps(rt, alloc, &mut inbox, &mut plain, &callers, word);
    drop(inbox);
    drop(plain);
    done?;
    Ok(())
}

/// Passes calls by where that may be done.
fn pass_each_by(rt: &impl Abort, alloc: Global, inbox: &mut Inbox) -> Result<(), NoMemory> {
    let c1 = CallerId::new(1).unwrap();
    for (name, number, passes) in &PASSES {
        let packet = call_of(alloc, *number)?;
        assert_is(rt, name, &passed_by(inbox, &packet), passes);
        drop(packet);
    }
    assert_is(
        rt,
        "passed by",
        &(inbox.handed(c1), inbox.has_next(c1)),
        &(2, false),
    );
    Ok(())
}

/// Brings calls around one that can't be passed by, since another is held.
fn bring_beside_one_held(
    rt: &impl Abort,
    alloc: Global,
    inbox: &mut Inbox,
) -> Result<(), NoMemory> {
    bring(rt, alloc, inbox, 1, Arrival::Repeat)?;
    bring(rt, alloc, inbox, 3, Arrival::New)?;
    assert_is(rt, "one is held", &inbox.is_empty(), &false);
    let between = call_of(alloc, 2)?;
    assert_is(rt, "between", &passed_by(inbox, &between), &false);
    drop(between);
    bring(rt, alloc, inbox, 2, Arrival::New)
}

fn pass_bring_and_take(rt: &impl Abort, alloc: Global, inbox: &mut Inbox) -> Result<(), NoMemory> {
    pass_each_by(rt, alloc, inbox)?;
    bring_beside_one_held(rt, alloc, inbox)?;
    for wanted in [Some(2), Some(3), None] {
        take(rt, inbox, wanted);
    }
    assert_is(rt, "all went out", &inbox.is_empty(), &true);
    Ok(())
}

/// A call that is passed by leaves what one leaves that comes and goes out.
#[test]
fn passed_by_as_come_and_gone(rt: HostRuntime) -> Result<(), Fail> {
    let mut inbox = Inbox::open(rt.alloc(), &[CallerId::new(1).unwrap()])?;
    let done = pass_bring_and_take(&rt, rt.alloc(), &mut inbox);
    drop(inbox);
    done?;
    Ok(())
}

#[test]
fn random_runs_as_of_a_plain_list(rt: HostRuntime) -> Result<(), Fail> {
    let mut word = 2463534242;
    for _ in 0..2000 {
        random_run(&rt, rt.alloc(), &mut word)?;
    }
    Ok(())
}
