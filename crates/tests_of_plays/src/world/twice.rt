//! Plays of which each adds to one list what it is told, and events that are handed over.

use super::{Line, Play, assert_end, assert_told, assert_told_one, events_of, opened};
use crate::rows::assert_is;
use act_kinds::Boxed;
use act_types::NoMemory;
use act_world::{Event, Outcome, World};
use std::alloc::Global;
use std::process::Abort;
use std::test::Fail;

/// A call to its answer, and a death that is told.
#[rattlefmt::skip]
static INTO_ONE_LIST: Play = Play { name: "into_one_list", actors: "actor a1 counter c1\n",
    lines: &[
        ("submit c1 a1 add 5", "future c1.0"),
        ("send c1 0", "mail 0"),
        ("deliver 0", "new"),
        ("run a1 c1", "place 0 reply 0"),
        ("collect 0", "kept c1.0"),
        ("deliver 0", "repeat"),
        ("kill c1 a1", "asked"),
        ("take a1", "dead"),
        ("tell a1 c1", "reply 1"),
        ("collect 1", "died 0"),
        ("collect 0", "late c1.0"),
    ],
    shown: (&[1], &[1]), end: "c1.0 a1 = 5\na1 dead\na1.0 c1.0 add 5\n" };

/// A call that is handed over runs with the arguments that were moved, and one with too many is
/// refused.
#[rattlefmt::skip]
static MOVED_ARGUMENTS: Play = Play { name: "moved_arguments", actors: "actor a1 counter c1\n",
    lines: &[
        ("submit c1 a1 add 0 1 2 3 4", "submit: TooManyArgs"),
        ("submit c1 a1 add 5", "future c1.0"),
        ("send c1 0", "mail 0"),
        ("deliver 0", "new"),
        ("run a1 c1", "place 0 reply 0"),
        ("collect 0", "kept c1.0"),
    ],
    shown: (&[1], &[1]), end: "c1.0 a1 = 5\na1 live counter 5\na1.0 c1.0 add 5\n" };

/// Plays events where the list is given the room of their outcomes before.
fn play_with_room(
    rt: &impl Abort,
    world: &mut World<Boxed>,
    events: &[Event],
    told: &mut Vec<Outcome>,
) -> Result<(), NoMemory> {
    assert!(rt; world.has_room(events.len()));
    told.reserve(events.len())?;
    assert_is(
        rt,
        INTO_ONE_LIST.name,
        &world.play_reserved(events, told),
        &Ok(()),
    );
    Ok(())
}

/// Plays the first of the events, then five where the list has room for fewer, and then the last five.
fn play_in_parts(
    rt: &impl Abort,
    world: &mut World<Boxed>,
    events: &[Event],
    told: &mut Vec<Outcome>,
) -> Result<(), NoMemory> {
    assert!(rt; events.len() == 11);
    play_with_room(rt, world, &events[..1], told)?;
    let is_short = told.capacity() > 0 && told.capacity().saturating_sub(told.len()) < 5;
    assert!(rt; world.has_room(5));
    let played = world.play(&events[1..6], told);
    assert_is(rt, INTO_ONE_LIST.name, &(is_short, played), &(true, Ok(())));
    play_with_room(rt, world, &events[6..], told)
}

fn assert_in_parts(
    rt: &impl Abort,
    alloc: Global,
    world: &mut World<Boxed>,
    lines: &[Line],
) -> Result<(), NoMemory> {
    let events = events_of(rt, alloc, INTO_ONE_LIST.actors, lines)?;
    let mut told = Vec::with_capacity(alloc, 1)?;
    let done = match play_in_parts(rt, world, events.as_slice(), &mut told) {
        Ok(()) => assert_told(rt, alloc, INTO_ONE_LIST.name, told.as_slice(), lines),
        Err(refused) => Err(refused),
    };
    drop(told);
    drop(events);
    done
}

/// Three plays. The last begins with a kill that is asked.
#[test]
fn into_one_list(rt: HostRuntime) -> Result<(), Fail> {
    let play = &INTO_ONE_LIST;
    let mut world = opened(&rt, rt.alloc(), play.actors)?;
    let done = match assert_in_parts(&rt, rt.alloc(), &mut world, play.lines) {
        Ok(()) => assert_end(&rt, rt.alloc(), &world, play),
        Err(refused) => Err(refused),
    };
    drop(world);
    done?;
    Ok(())
}

/// Hands the events over, and is told of each what its line says.
fn assert_handed(
    rt: &impl Abort,
    alloc: Global,
    world: &mut World<Boxed>,
    lines: &[Line],
) -> Result<(), NoMemory> {
    let events = events_of(rt, alloc, MOVED_ARGUMENTS.actors, lines)?;
    for (event, line) in events.into_iter().zip(lines) {
        assert!(rt; world.has_room(1));
        let told = world.apply_owned(event);
        assert_told_one(rt, alloc, MOVED_ARGUMENTS.name, &told, line)?;
    }
    Ok(())
}

#[test]
fn moved_arguments(rt: HostRuntime) -> Result<(), Fail> {
    let play = &MOVED_ARGUMENTS;
    let mut world = opened(&rt, rt.alloc(), play.actors)?;
    let done = match assert_handed(&rt, rt.alloc(), &mut world, play.lines) {
        Ok(()) => assert_end(&rt, rt.alloc(), &world, play),
        Err(refused) => Err(refused),
    };
    drop(world);
    done?;
    Ok(())
}
