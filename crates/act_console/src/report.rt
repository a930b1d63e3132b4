//! The text of a report.

ghost use Rattle.std.specs.Prelude.{◌≡◌, ◌≤◌, ◌+◌, ◌++◌, List, [], OnOk, OnErr, IfOk, Some, Err, true, false, string_bytes, length, option_copied, decimal};
ghost use Rattle.std.specs.List.{flat_map};
ghost use Rattle.std.specs.Vec.{vec_len};
ghost use Rattle.act_types.specs.Texts.{space, actor_text, method_text, settled_text, value_text};
ghost use Rattle.act_rules.specs.History.{ActorSpec, opening};
ghost use Rattle.act_rules.specs.Report.{line, numbered_lines, one_to, outcome_line, outcome_lines, future_text, kept_text, item_line, report, did_text};
ghost use Rattle.act_world.specs.View.{world_view, stage_view};
ghost use Rattle.act_world.specs.Headline.{slot_log, IsConsistent};
ghost use Rattle.act_world.specs.IsReachedBy.{IsReachedBy, HasRoom};
ghost use Rattle.act_console.specs.Parts.{item_head, owner_line, owner_lines, standing_text, caller_lines, stage_lines, world_report, AreTold};
ghost use Rattle.std.specs.Fmt.{signed_decimal};
ghost use Rattle.std.specs.Str.{IsAscii};

use crate::tail::Tail;
use act_kinds::Actor;
use act_owner::Owner;
use act_rules::{Arrival, Did, Event, Outcome, RunItem};
use act_types::{
    ActorId, Answer, CallerId, Fault, FutureId, ListOf, MAX_ACTORS, MAX_CALLERS, Method, NoMemory,
    Settled, Value,
};
use act_world::{Stage, World, is_memory};
use itoa::Buffer;
use std::alloc::{AllocError, Global};

/// Room for what a report tells of one event: its line, and mostly those of a future and of its run.
const EVENT_BYTES: usize = 40;

/// After so many events the room that they had is given back.
const EVENTS_AT_ONCE: usize = 1024;

/// Gives the room of the events that happened back, after each so many of them.
fn give_back(left: &mut Vec<Event>, place: usize)
    ensures items { left.new.items ≡ left.old.items }
    ensures len { vec_len left.new ≡ vec_len left.old }
{
    if place % EVENTS_AT_ONCE == 0 {
        left.shrink_to_fit();
    }
}

/// Adds the line of an outcome.
fn push_outcome(
    text: &mut String,
    line: &mut Tail,
    place: usize,
    outcome: &Outcome,
) -> Result<(), AllocError>
    ensures { OnOk result (string_bytes text.new ≡ string_bytes text.old ++ outcome_line place outcome.now) }
{
    match outcome {
        Ok(did) => {
            line.clear();
            line.put(b'\n');
            put_did(line, did);
            line.put_word(": ");
            line.put_number(place as u64);
            text.push_str(line.as_str())
        }
        Err(refusal) => writeln!(text, "{place}: refused {refusal}"),
    }
}

/// Adds a line for each outcome.
fn push_outcomes(text: &mut String, outcomes: &[Outcome]) -> Result<(), AllocError>
    ensures { OnOk result (string_bytes text.new ≡ string_bytes text.old ++ outcome_lines outcomes.now) }
{
    let mut line = Tail::new();
    for (place, outcome) in outcomes.iter().enumerate() {
        push_outcome(text, &mut line, place, outcome)?;
    }
    Ok(())
}

/// Adds what is kept of a future, and the end of its line.
fn push_kept(text: &mut String, kept: Option<&Answer>) -> Result<(), AllocError>
    ensures { OnOk result (string_bytes text.new
        ≡ string_bytes text.old ++ line (kept_text (option_copied kept.entry))) }
{
    match kept {
        None => text.push_str(" ?\n"),
        Some(Ok(value)) => {
            text.push_str(" = ")?;
            push_value(text, value)?;
            text.push_str("\n")
        }
        Some(Err(fault)) => writeln!(text, " = {fault}"),
    }
}

/// Puts a fault that is kept of a future, and the end of its line. Tells whether it did: a fault of a kind of one's own
/// is left out.
fn put_fault(end: &mut Tail, fault: &Fault) -> bool
    requires { end.old ≡ [] }
    ensures whole { result ≡ true → end.new ≡ line (kept_text (Some (Err fault.now))) }
    ensures none { result ≡ false → end.new ≡ [] }
    ensures short { length end.new ≤ 40 }
{
    match fault {
        Fault::NoMethod => end.put_word(" = NoMethod\n"),
        Fault::BadArgs => end.put_word(" = BadArgs\n"),
        Fault::Overflow => end.put_word(" = Overflow\n"),
        Fault::NoKey => end.put_word(" = NoKey\n"),
        Fault::BadAmount => end.put_word(" = BadAmount\n"),
        Fault::Insufficient => end.put_word(" = Insufficient\n"),
        Fault::NoItems => end.put_word(" = NoItems\n"),
        Fault::NoItem => end.put_word(" = NoItem\n"),
        Fault::KindFull => end.put_word(" = KindFull\n"),
        Fault::Dependency(future) => {
            end.put_word(")\n");
            end.put_number(future.number() as u64);
            end.put_word(" = Dependency(");
        }
        Fault::ActorDied => end.put_word(" = ActorDied\n"),
        Fault::Own(_) => return false,
    }
    true
}

/// Puts what is kept of a future, and the end of its line, where both are short. Tells whether it did.
fn put_kept(end: &mut Tail, kept: Option<&Answer>) -> bool
    requires { end.old ≡ [] }
    ensures whole { result ≡ true → end.new ≡ line (kept_text (option_copied kept.entry)) }
    ensures none { result ≡ false → end.new ≡ [] }
    ensures short { length end.new ≤ 40 }
{
    match kept {
        None => {
            end.put_word(" ?\n");
            true
        }
        Some(Ok(Value::Unit)) => {
            end.put_word(" = unit\n");
            true
        }
        Some(Ok(Value::Int(number))) => {
            end.put(b'\n');
            end.put_int(*number);
            end.put_word(" = ");
            true
        }
        Some(Ok(Value::Text(_))) => false,
        Some(Err(fault)) => put_fault(end, fault),
    }
}

/// Adds the line of a future: its actor, and what is kept. Most lines are short, and are added at once.
fn push_line(
    text: &mut String,
    front: &mut Tail,
    caller: CallerId,
    k: FutureId,
    actor: ActorId,
    kept: Option<&Answer>,
) -> Result<(), AllocError>
    ensures { OnOk result (string_bytes text.new ≡
        string_bytes text.old ++ line
        (future_text caller k ++ space ++ actor_text actor ++ kept_text (option_copied kept.entry))) }
{
    front.clear();
    let is_whole = put_kept(front, kept);
    front.put_actor(actor);
    front.put(b' ');
    front.put_future(caller, k);
    text.push_str(front.as_str())?;
    if is_whole {
        return Ok(());
    }
    push_kept(text, kept)
}

/// Adds the line of a caller's future.
fn push_future(
    text: &mut String,
    front: &mut Tail,
    owner: &Owner,
    k: FutureId,
) -> Result<(), AllocError>
    ensures { OnOk result (string_bytes text.new ≡ string_bytes text.old ++ owner_line owner.now k) }
{
    let Some(call) = owner.call(k) else {
        return Ok(());
    };
    push_line(text, front, owner.id(), k, call.actor, owner.answer(k))
}

/// Adds a line for each future of a caller.
pub(crate) fn push_futures(text: &mut String, owner: &Owner) -> Result<(), AllocError>
    ensures { OnOk result (string_bytes text.new ≡ string_bytes text.old ++ owner_lines owner.now) }
{
    let mut front = Tail::new();
    for number in 0..owner.count() {
        push_future(text, &mut front, owner, FutureId::new(number))?;
    }
    Ok(())
}

/// Adds a number after a space.
fn push_spaced(text: &mut String, number: i64) -> Result<(), AllocError>
    ensures { OnOk result (string_bytes text.new ≡ string_bytes text.old ++ (space ++ signed_decimal number)) }
{
    let mut word = Tail::new();
    word.put_int(number);
    word.put(b' ');
    text.push_str(word.as_str())
}

/// Adds an argument of a call that ran, after a space.
fn push_arg(text: &mut String, arg: &Settled) -> Result<(), AllocError>
    ensures { OnOk result (string_bytes text.new ≡ string_bytes text.old ++ (space ++ settled_text arg.now)) }
{
    if let Settled::Good(Value::Int(number)) = arg {
        return push_spaced(text, *number);
    }
    text.push_str(" ")?;
    push_settled(text, arg)
}

/// Adds the arguments of a call, a space before each.
fn push_args(text: &mut String, args: &[Settled]) -> Result<(), AllocError>
    ensures { OnOk result (string_bytes text.new
        ≡ string_bytes text.old ++ flat_map (λ arg. space ++ settled_text arg) args.now) }
{
    for arg in args {
        push_arg(text, arg)?;
    }
    Ok(())
}

/// Adds the front of the line of a call that an actor ran.
fn push_head(
    text: &mut String,
    actor: ActorId,
    place: usize,
    item: &RunItem,
) -> Result<(), AllocError>
    ensures { OnOk result (string_bytes text.new ≡ string_bytes text.old ++ item_head actor place item.now) }
{
    let mut line = Tail::new();
    line.put(b' ');
    line.put_future(item.caller, item.future);
    line.put(b' ');
    line.put_number(place as u64);
    line.put(b'.');
    line.put_actor(actor);
    text.push_str(line.as_str())?;
    text.push_str(item.method.word())
}

/// Adds the line of a call that an actor ran, part by part.
fn push_parts(
    text: &mut String,
    actor: ActorId,
    place: usize,
    item: &RunItem,
) -> Result<(), AllocError>
    ensures { OnOk result (string_bytes text.new ≡ string_bytes text.old ++ item_line actor place item.now) }
{
    push_head(text, actor, place, item)?;
    push_args(text, item.args.as_slice())?;
    text.push_str("\n")
}

/// Puts an argument of a call that ran before the end of a line, where it is a number. Tells whether it did.
#[inline(always)]
fn put_arg(line: &mut Tail, arg: &Settled) -> bool
    requires room { length line.old + 22 ≤ 128 }
    ensures { result ≡ true → line.new ≡ (space ++ settled_text arg.now) ++ line.old }
{
    let Settled::Good(Value::Int(number)) = arg else {
        return false;
    };
    line.put_int(*number);
    line.put(b' ');
    true
}

/// Puts the arguments of a call before the end of a line, where all are numbers and short. Tells whether it did.
#[inline(always)]
fn put_args(line: &mut Tail, args: &[Settled]) -> bool
    ensures text { result ≡ true → line.new ≡ flat_map (λ arg. space ++ settled_text arg) args.now ++ line.old }
    ensures short { result ≡ true → length line.new ≤ 33 }
{
    let mut left = args.len();
    while left > 0 {
        left -= 1;
        if !line.is_short() || !put_arg(line, &args[left]) {
            return false;
        }
    }
    line.is_short()
}

/// Puts the word of a method that scripts can name before the end of a line. Tells whether it did.
#[inline(always)]
fn put_method(line: &mut Tail, method: &Method) -> bool
    requires room { length line.old + 9 ≤ 128 }
    ensures text { result ≡ true → line.new ≡ method_text method.now ++ line.old }
    ensures short { length line.new ≤ length line.old + 9 }
{
    match method {
        Method::Add => line.put_word("add"),
        Method::Get => line.put_word("get"),
        Method::Put => line.put_word("put"),
        Method::Del => line.put_word("del"),
        Method::Size => line.put_word("size"),
        Method::Deposit => line.put_word("deposit"),
        Method::Withdraw => line.put_word("withdraw"),
        Method::Balance => line.put_word("balance"),
        Method::Push => line.put_word("push"),
        Method::Pop => line.put_word("pop"),
        Method::At => line.put_word("at"),
        Method::Len => line.put_word("len"),
        Method::Terminate => line.put_word("terminate"),
        Method::Own(_) => return false,
    }
    true
}

/// Puts what stands before the arguments of a call that an actor ran. Tells whether it did.
#[inline(always)]
fn put_head(line: &mut Tail, actor: ActorId, place: usize, item: &RunItem) -> bool
    requires room { length line.old ≤ 33 }
    ensures { result ≡ true → line.new ≡ item_head actor place item.now ++ line.old }
{
    if !put_method(line, &item.method) {
        return false;
    }
    line.put(b' ');
    line.put_future(item.caller, item.future);
    line.put(b' ');
    line.put_number(place as u64);
    line.put(b'.');
    line.put_actor(actor);
    true
}

/// Puts the line of a call that an actor ran, where it is short. Tells whether it did.
#[inline(always)]
fn put_item(line: &mut Tail, actor: ActorId, place: usize, item: &RunItem) -> bool
    requires { line.old ≡ [] }
    ensures { result ≡ true → line.new ≡ item_line actor place item.now }
{
    line.put(b'\n');
    if !put_args(line, item.args.as_slice()) {
        return false;
    }
    put_head(line, actor, place, item)
}

/// Adds the line of a call that an actor ran. Most lines are short, and are added at once.
fn push_item(
    text: &mut String,
    line: &mut Tail,
    actor: ActorId,
    place: usize,
    item: &RunItem,
) -> Result<(), AllocError>
    ensures { OnOk result (string_bytes text.new ≡ string_bytes text.old ++ item_line actor place item.now) }
{
    line.clear();
    if put_item(line, actor, place, item) {
        return text.push_str(line.as_str());
    }
    push_parts(text, actor, place, item)
}

/// Adds a line for each call that an actor ran.
pub(crate) fn push_items(
    text: &mut String,
    actor: ActorId,
    items: &[RunItem],
) -> Result<(), AllocError>
    ensures { OnOk result (string_bytes text.new
        ≡ string_bytes text.old ++ numbered_lines (item_line actor) 0 items.now) }
{
    let mut line = Tail::new();
    for (place, item) in items.iter().enumerate() {
        push_item(text, &mut line, actor, place, item)?;
    }
    Ok(())
}

/// Adds how an actor stands.
fn push_standing<K: Actor>(text: &mut String, stage: &Stage<'_, K>) -> Result<(), NoMemory>
    ensures { OnOk result (string_bytes text.new
        ≡ string_bytes text.old ++ standing_text (stage_view K.state stage.now)) }
{
    match *stage {
        Stage::Live(live) => {
            text.push_str("live ")?;
            live.state_text(text)?;
        }
        Stage::Dead(_) => text.push_str("dead")?,
        Stage::Retired(retired) => {
            text.push_str("retired ")?;
            retired.state_text(text)?;
        }
    }
    Ok(())
}

/// What an actor ran, in whatever state it is.
fn log_of<'a, K: Actor>(stage: &Stage<'a, K>) -> &'a [RunItem]
    ensures { result.now ≡ slot_log (stage_view K.state stage.now) }
{
    match *stage {
        Stage::Live(live) => live.log(),
        Stage::Dead(dead) => dead.log(),
        Stage::Retired(retired) => retired.log(),
    }
}

/// Adds the line of an actor.
fn push_actor<K: Actor>(
    text: &mut String,
    actor: ActorId,
    stage: &Stage<'_, K>,
) -> Result<(), NoMemory>
    ensures { OnOk result (string_bytes text.new ≡
        string_bytes text.old ++ line (actor_text actor ++ space ++ standing_text (stage_view K.state stage.now))) }
{
    write!(text, "{actor} ")?;
    push_standing(text, stage)?;
    text.push_str("\n")?;
    Ok(())
}

/// Adds a line for each future, callers by rising number.
fn push_callers<K: Actor>(text: &mut String, world: &World<K>) -> Result<(), NoMemory>
    ensures { OnOk result (string_bytes text.new ≡
        string_bytes text.old ++ flat_map (caller_lines (world_view K.state world.now)) (one_to MAX_CALLERS)) }
{
    for before in 0..MAX_CALLERS {
        let caller = CallerId::new(before + 1).unwrap();
        if let Some(owner) = world.owner(caller) {
            push_futures(text, owner)?;
        }
    }
    Ok(())
}

/// Adds the lines of each actor, by rising number.
fn push_stages<K: Actor>(text: &mut String, world: &World<K>) -> Result<(), NoMemory>
    ensures { OnOk result (string_bytes text.new ≡
        string_bytes text.old ++ flat_map (stage_lines (world_view K.state world.now)) (one_to MAX_ACTORS)) }
{
    for before in 0..MAX_ACTORS {
        let actor = ActorId::new(before + 1).unwrap();
        if let Some(stage) = world.stage(actor) {
            push_actor(text, actor, &stage)?;
            push_items(text, actor, log_of(&stage))?;
        }
    }
    Ok(())
}

/// The report of what was told of events, and of the world after them.
#[tactic(auto, using(crate::proofs::Shown::all_parts))]
fn text_of<K: Actor>(alloc: Global, world: &World<K>, told: &[Outcome]) -> Result<String, NoMemory>
    ensures { IfOk result (λ text. string_bytes text ≡ world_report told.now (world_view K.state world.now)) }
{
    let mut text = String::new(alloc);
    push_outcomes(&mut text, told)?;
    push_callers(&mut text, world)?;
    push_stages(&mut text, world)?;
    Ok(text)
}

/// Adds the report of what was told of events, and of the world after them: a line for each
/// outcome, a line for each future, and the actors with what they ran. An `Err` leaves the text as
/// it was.
pub fn play_report<K: Actor>(
    alloc: Global,
    world: &World<K>,
    told: &[Outcome],
    text: &mut String,
) -> Result<(), NoMemory>
    ensures ok { OnOk result
        (string_bytes text.new ≡ string_bytes text.old ++ world_report told.now (world_view K.state world.now)) }
    ensures err { OnErr result (string_bytes text.new ≡ string_bytes text.old) }
{
    let report = text_of(alloc, world, told)?;
    text.push_str(&report)?;
    Ok(())
}

/// Plays events in a world, and adds the line of each as it happens. Each event is handed over to the
/// world, so nothing of it is copied or kept here.
fn play_all<K: Actor>(
    world: &mut World<K>,
    events: ListOf<Event>,
    text: &mut String,
) -> Result<(), NoMemory>
    requires room { HasRoom (length events) world.old.network }
    ensures { OnOk result (AreTold events (world_view K.state world.old) (world_view K.state world.new)
        (string_bytes text.old) (string_bytes text.new)) }
{
    let mut left = events.into_vec();
    // The next event stands last, so that the room of those that happened can be given back.
    left.reverse();
    let mut line = Tail::new();
    let mut place = 0;
    while let Some(event) = left.pop() {
        let outcome = world.apply_owned(event);
        if is_memory(&outcome) {
            return Err(NoMemory);
        }
        push_outcome(text, &mut line, place, &outcome)?;
        place += 1;
        give_back(&mut left, place);
    }
    Ok(())
}

/// Plays events in a world, and gives the report of them and of the world after them.
pub(crate) fn play_and_report<K: Actor>(
    alloc: Global,
    world: &mut World<K>,
    events: ListOf<Event>,
) -> Result<String, NoMemory>
    requires room { HasRoom (length events) world.old.network }
    ensures report { IfOk result (λ text.
        (casts : List ActorSpec) → IsReachedBy casts [] (world_view K.state world.old) →
        string_bytes text ≡ report (opening casts) events) }
    // What is reported is consistent: what ran is a prefix of what was submitted, in order, each once.
    ensures consistent { OnOk result ((casts : List ActorSpec) → IsReachedBy casts [] (world_view K.state world.old) →
        IsConsistent casts (world_view K.state world.new)) }
{
    world.make_room(events.as_slice());
    let mut text = String::with_capacity(alloc, events.len() * EVENT_BYTES)?;
    play_all(world, events, &mut text)?;
    world.consistent();
    push_callers(&mut text, world)?;
    push_stages(&mut text, world)?;
    Ok(text)
}

/// Adds a signed number.
fn push_int(text: &mut String, number: i64) -> Result<(), AllocError>
    ensures { OnOk result (string_bytes text.new ≡ string_bytes text.old ++ signed_decimal number) }
{
    let mut buffer = Buffer::new();
    text.push_str(buffer.format(number))
}

/// Adds a value.
pub(crate) fn push_value(text: &mut String, value: &Value) -> Result<(), AllocError>
    ensures { OnOk result (string_bytes text.new ≡ string_bytes text.old ++ value_text value.now) }
{
    match value {
        Value::Unit => text.push_str("unit"),
        Value::Int(number) => push_int(text, *number),
        Value::Text(word) => {
            text.push_str("\"")?;
            text.push_str(word.as_str())?;
            text.push_str("\"")
        }
    }
}

/// Adds an argument of a call that ran.
pub(crate) fn push_settled(text: &mut String, arg: &Settled) -> Result<(), AllocError>
    ensures { OnOk result (string_bytes text.new ≡ string_bytes text.old ++ settled_text arg.now) }
{
    match arg {
        Settled::Good(value) => push_value(text, value),
        Settled::Bad(future) => {
            let mut buffer = Buffer::new();
            text.push('!')?;
            text.push_str(buffer.format(future.number()))
        }
    }
}

/// Puts what an event did before the end of its line. What most events do is spelled out, so that the
/// length of each word is known where it is put.
fn put_did(line: &mut Tail, did: &Did)
    requires room { length line.old ≤ 4 }
    ensures text { line.new ≡ did_text did.now ++ line.old }
    ensures short { length line.new ≤ length line.old + 60 }
{
    match *did {
        Did::Future(caller, future) => {
            line.put_future(caller, future);
            line.put_word("future ");
        }
        Did::Copies(copies) => put_numbered(line, "copies ", copies as u64),
        Did::Mail(place) => {
            line.put_number(place as u64);
            line.put_word("mail ");
        }
        Did::Arrived(Arrival::New) => line.put_word("new"),
        Did::Arrived(Arrival::Repeat) => line.put_word("repeat"),
        Did::Arrived(Arrival::Stranger) => line.put_word("stranger"),
        Did::Ran(place, reply) => {
            line.put_number(reply as u64);
            line.put_word(" reply ");
            line.put_number(place as u64);
            line.put_word("place ");
        }
        Did::Gap => line.put_word("gap"),
        Did::Kept(caller, future) => {
            line.put_future(caller, future);
            line.put_word("kept ");
        }
        Did::Late(caller, future) => put_named(line, "late ", caller, future),
        Did::Died(answered) => put_numbered(line, "died ", answered as u64),
        Did::Asked => line.put_word("asked"),
        Did::Dead => line.put_word("dead"),
        Did::Told(reply) => put_numbered(line, "reply ", reply as u64),
        Did::Retired => line.put_word("retired"),
    }
}

/// Puts a word and the number after it before the end of a line.
#[inline(always)]
fn put_numbered(line: &mut Tail, word: &str, number: u64)
    requires ascii { IsAscii word.now }
    requires room { length word.now + length line.old + 20 ≤ 128 }
    ensures text { line.new ≡ word.now ++ decimal number ++ line.old }
    ensures short { length line.new ≤ length line.old + length word.now + 20 }
{
    line.put_number(number);
    line.put_word(word);
}

/// Puts a word and the caller's future after it before the end of a line.
#[inline(always)]
fn put_named(line: &mut Tail, word: &str, caller: CallerId, k: FutureId)
    requires ascii { IsAscii word.now }
    requires room { length word.now + length line.old + 42 ≤ 128 }
    ensures text { line.new ≡ word.now ++ future_text caller k ++ line.old }
    ensures short { length line.new ≤ length line.old + length word.now + 42 }
{
    line.put_future(caller, k);
    line.put_word(word);
}
