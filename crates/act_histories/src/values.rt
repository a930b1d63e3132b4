//! What a world shows after a play that was found, beside what a history tells.

use crate::differs::{push_other_answer, push_other_args};
use crate::history::{Call, History, Lines, is_line_end, slot_of};
use crate::reason::ToldPlace;
use act_compare::{same_answer, same_settled_args};
use act_console::play_report;
use act_decisions::is_filled_in;
use act_kinds::Actor;
use act_rules::{Event, RunItem};
use act_types::{ACTOR_NUMBERS, ActorId, CallerId, FutureId, NoMemory};
use act_world::{Stage, World};
use std::alloc::{AllocError, Global};
use std::str;

/// What is seen of an actor's run list.
fn log_of<'a, K: Actor>(stage: &Stage<'a, K>) -> &'a [RunItem] {
    match *stage {
        Stage::Live(live) => live.log(),
        Stage::Dead(dead) => dead.log(),
        Stage::Retired(retired) => retired.log(),
    }
}

/// Compares the call at a place with what is told of it.
fn compare_run<K: Actor>(
    text: &mut String,
    world: &World<K>,
    history: &History,
    a: ActorId,
    place: u32,
) -> Result<(), AllocError> {
    if let Some(stage) = world.stage(a)
        && let Some(by_rules) = log_of(&stage).get(place as usize)
        && let Some(ran) = history.ran_at(a, place)
        && let Some(told) = history.told_at(a, place)
    {
        let by_rules = by_rules.args.as_slice();
        let args = ran.item.args.as_slice();
        if !same_settled_args(by_rules, args) {
            return push_other_args(text, &told, by_rules, args);
        }
    }
    Ok(())
}

/// Where the call ran.
fn place_of(history: &History, call: &Call) -> Option<ToldPlace> {
    history.told_at(call.actor, call.place?)
}

/// Compares a kept answer with what is told of it.
fn compare_answer<K: Actor>(
    text: &mut String,
    world: &World<K>,
    history: &History,
    c: CallerId,
    k: FutureId,
) -> Result<(), AllocError> {
    if let Some(owner) = world.owner(c)
        && let Some(kept) = owner.answer(k)
        && let Some(call) = history.call(c, k)
        && let Some(told) = call.answer()
        && !same_answer(kept, told)
        && let Some(at) = place_of(history, call)
    {
        return push_other_answer(text, &at, kept, told, call.line);
    }
    Ok(())
}

/// Compares the next call that the actor ran, and what its caller keeps of it, with what is told.
/// `ran` has how many calls each actor ran before.
fn compare_next<K: Actor>(
    text: &mut String,
    world: &World<K>,
    history: &History,
    a: ActorId,
    ran: &mut [u32; ACTOR_NUMBERS],
) -> Result<(), AllocError> {
    let slot = slot_of(a);
    let place = ran[slot];
    ran[slot] = place.wrapping_add(1);
    compare_run(text, world, history, a, place)?;
    if !text.is_empty() {
        return Ok(());
    }
    match history.ran_at(a, place) {
        None => Ok(()),
        Some(ran) => compare_answer(text, world, history, ran.item.caller, ran.item.future),
    }
}

/// Adds the first difference in the order of the events.
fn compare_events<K: Actor>(
    text: &mut String,
    world: &World<K>,
    history: &History,
    events: &[Event],
) -> Result<(), AllocError> {
    let mut ran = [0; ACTOR_NUMBERS];
    for event in events {
        if let Event::Run(a, _) = event {
            compare_next(text, world, history, *a, &mut ran)?;
        }
        if !text.is_empty() {
            return Ok(());
        }
    }
    Ok(())
}

/// Adds a line that is told and the one that is shown.
fn push_lines(text: &mut String, number: u32, told: &[u8], shown: &[u8]) -> Result<(), AllocError> {
    let told = str::from_utf8(told).unwrap_or("?");
    let shown = str::from_utf8(shown).unwrap_or("?");
    writeln!(text, "line {number}: {told}, and by the rules: {shown}")
}

/// Adds the first line that isn't as the world shows it.
fn compare_lines(
    text: &mut String,
    rest: &[u8],
    before: u32,
    shown: &str,
) -> Result<(), AllocError> {
    let mut number = before;
    let mut lines = shown.as_bytes().split(is_line_end);
    for line in rest.split(is_line_end) {
        number = number.wrapping_add(1);
        if line.is_empty() || line[0] == b'#' {
            continue;
        }
        let shown = lines.next().unwrap_or(b"");
        if line != shown && !is_filled_in(line, shown) {
            return push_lines(text, number, line, shown);
        }
    }
    Ok(())
}

/// Adds the first line that isn't as the world shows it at its end.
fn compare_end<K: Actor>(
    alloc: Global,
    text: &mut String,
    world: &World<K>,
    lines: Lines<'_>,
) -> Result<(), NoMemory> {
    let mut shown = String::new(alloc);
    play_report(alloc, world, &[], &mut shown)?;
    compare_lines(text, lines.rest, lines.before, &shown)?;
    Ok(())
}

/// Adds what differs first between what is told and what the world shows that played these events.
pub(crate) fn push_difference<K: Actor>(
    alloc: Global,
    text: &mut String,
    world: &World<K>,
    history: &History,
    events: &[Event],
    lines: Lines<'_>,
) -> Result<(), NoMemory> {
    compare_events(text, world, history, events)?;
    if text.is_empty() {
        compare_end(alloc, text, world, lines)?;
    }
    if text.is_empty() {
        text.push_str("line 0: no play does these steps and ends so\n")?;
    }
    Ok(())
}
