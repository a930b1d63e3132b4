//! Plays whose first event is refused.

use super::{Line, Play, opened, play_lines, play_whole};
use crate::rows::assert_is;
use act_rules::HandleRefusal;
use act_types::{ActorId, CallerId, NoMemory};
use act_world::{Did, Event, WorldRefusal};
use std::alloc::Global;
use std::process::Abort;
use std::test::Fail;

/// A counter that its caller may have two calls of without an answer.
const ONE_COUNTER: &str = "actor a1 counter max 2 c1\n";

/// Nothing was submitted, sent, asked or posted yet.
#[rattlefmt::skip]
static NOTHING_THERE: Play = Play { name: "nothing_there", actors: ONE_COUNTER,
    lines: &[
        ("deliver 0", "NoMail"),
        ("collect 0", "NoReply"),
        ("take a1", "NoKill"),
        ("send c1 0", "send: NoFuture"),
        ("run a1 c1", "gap"),
        ("run a2 c1", "handle: NoActor"),
        ("run a1 c2", "NoCaller"),
        ("tell a1 c1", "NotDead"),
    ],
    shown: (&[1], &[1]), end: "a1 live counter 0\n" };

/// Plays that may begin with any of some events, by their names: the events before those, and those.
#[rattlefmt::skip]
static BEGINNINGS: [(&str, &[Line], &[Line]); 5] = [
    // Of a caller or an actor that isn't there.
    ("begins_with_a_stranger", &[], &[
        ("submit c2 a1 get", "NoCaller"),
        ("copy c2 a1", "NoCaller"),
        ("release c2 a1", "NoCaller"),
        ("send c2 0", "NoCaller"),
        ("run a1 c2", "NoCaller"),
        ("kill c2 a1", "NoCaller"),
        ("tell a1 c2", "NoCaller"),
        ("submit c1 a2 get", "submit: NoActor"),
        ("copy c1 a2", "handle: NoActor"),
        ("release c1 a2", "handle: NoActor"),
        ("run a2 c1", "handle: NoActor"),
        ("kill c1 a2", "handle: NoActor"),
        ("take a2", "handle: NoActor"),
        ("tell a2 c1", "handle: NoActor"),
        ("retire a2", "handle: NoActor"),
    ]),
    // That comes too early, or asks too much.
    ("begins_too_early", &[], &[
        ("submit c1 a1 add @0", "submit: BadFuture"),
        ("submit c1 a1 add 0 1 2 3 4", "submit: TooManyArgs"),
        ("send c1 0", "send: NoFuture"),
        ("deliver 0", "NoMail"),
        ("collect 0", "NoReply"),
        ("take a1", "NoKill"),
        ("tell a1 c1", "NotDead"),
        ("retire a1", "NotDrained"),
    ]),
    // That comes too late: the handle is gone.
    ("begins_without_a_handle", &[("release c1 a1", "mail 0")], &[
        ("submit c1 a1 get", "submit: NoHandle"),
        ("copy c1 a1", "handle: NoHandle"),
        ("release c1 a1", "handle: NoHandle"),
        ("kill c1 a1", "handle: NoHandle"),
    ]),
    // That comes too late: the actor is dead, and its death is known.
    ("begins_after_the_end", &[
        ("submit c1 a1 get", "future c1.0"),
        ("kill c1 a1", "asked"),
        ("take a1", "dead"),
        ("tell a1 c1", "reply 0"),
        ("collect 0", "died 1"),
        ("release c1 a1", "mail 0"),
    ], &[
        ("send c1 0", "send: Answered"),
        ("deliver 0", "ActorEnded"),
        ("run a1 c1", "ActorEnded"),
        ("take a1", "ActorEnded"),
        ("retire a1", "ActorEnded"),
    ]),
    // What an earlier call still holds up.
    ("begins_before_an_answer", &[("submit c1 a1 add 1", "future c1.0"), ("submit c1 a1 add @0", "future c1.1")], &[
        ("submit c1 a1 get", "submit: PendingLimit"),
        ("send c1 1", "send: NotReady"),
    ]),
];

#[test]
fn nothing_there(rt: HostRuntime) -> Result<(), Fail> {
    play_whole(&rt, rt.alloc(), &NOTHING_THERE)?;
    Ok(())
}

/// Plays the lines before, and then these, which are refused.
fn play_after(
    rt: &impl Abort,
    alloc: Global,
    name: &str,
    before: &[Line],
    refused: &[Line],
) -> Result<(), NoMemory> {
    let mut world = opened(rt, alloc, ONE_COUNTER)?;
    let done = match play_lines(rt, alloc, name, &mut world, ONE_COUNTER, before) {
        Ok(()) => play_lines(rt, alloc, name, &mut world, ONE_COUNTER, refused),
        Err(error) => Err(error),
    };
    drop(world);
    done
}

/// After the lines before them these events are refused, whichever of them the play begins with.
#[test]
fn begins_with_a_refusal(rt: HostRuntime) -> Result<(), Fail> {
    for (name, before, refused) in &BEGINNINGS {
        for first in 0..refused.len() {
            play_after(&rt, rt.alloc(), name, before, &refused[first..])?;
        }
    }
    Ok(())
}

/// A play may begin with one copy of a handle too many.
#[test]
fn begins_with_a_copy_too_many(rt: HostRuntime) -> Result<(), Fail> {
    let copy = [Event::Copy(CallerId::new(1).unwrap(), ActorId::new(1).unwrap())];
    let mut world = opened(&rt, rt.alloc(), ONE_COUNTER)?;
    let mut are_right = true;
    for copies in 2..65_536u32 {
        assert!(rt; world.has_room(1));
        are_right = world.apply(&copy[0]) == Ok(Did::Copies(copies)) && are_right;
    }
    let mut told = Vec::new(rt.alloc());
    assert!(rt; world.has_room(1));
    let played = world.play(&copy, &mut told);
    drop(world);
    let refusal = Err(WorldRefusal::Handle(HandleRefusal::TooManyCopies));
    let is_refused = told.as_slice() == [refusal].as_slice();
    drop(told);
    let got = (are_right, played, is_refused);
    assert_is(
        &rt,
        "begins_with_a_copy_too_many",
        &got,
        &(true, Ok(()), true),
    );
    Ok(())
}
