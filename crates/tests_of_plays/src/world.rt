//! Worked plays, line by line with what is told of each and how the world ends, also where memory is refused.

mod refused;
mod report;
mod twice;

use super::rows::{assert_is, assert_reads};
use act_actor::cast_fits;
use act_kinds::{Account, Boxed, Counter, ListKind, Table};
use act_rules::{Event, KindName, Mode, Outcome, Role, WorldRefusal};
use act_scripts::{Items, Script, ScriptFault, read_script};
use act_types::{ListOf, NoMemory};
use act_world::{Cast, World};
use report::end_of;
use std::alloc::Global;
use std::process::Abort;
use std::test::Fail;

/// An event as a script writes it, and what is told of it.
type Line = (&'static str, &'static str);

/// A play by its name: its actors as a script writes them, its events, the callers and actors that
/// are shown, and how the world ends.
struct Play {
    name: &'static str,
    actors: &'static str,
    lines: &'static [Line],
    shown: (&'static [u8], &'static [u8]),
    end: &'static str,
}

fn kind_of(alloc: Global, kind: KindName) -> Result<Boxed, NoMemory> {
    Ok(match kind {
        KindName::Counter => Box::new(alloc, Counter::open())?,
        KindName::Table => Box::new(alloc, Table::open(alloc))?,
        KindName::Account => Box::new(alloc, Account::open())?,
        KindName::ListKind => Box::new(alloc, ListKind::open(alloc))?,
    })
}

fn cast_of(alloc: Global, role: &Role) -> Result<Cast<Boxed>, NoMemory> {
    let mut callers = ListOf::new(alloc);
    for caller in role.callers.as_slice() {
        callers.push(*caller)?;
    }
    Ok(Cast {
        actor: role.actor,
        callers,
        kind: kind_of(alloc, role.kind)?,
        pending: role.pending,
    })
}

/// What the actors' lines and these events spell.
fn read(rt: &impl Abort, alloc: Global, actors: &str, lines: &[Line]) -> Result<Script, NoMemory> {
    let mut text = String::new(alloc);
    text.push_str(actors)?;
    for line in lines {
        writeln!(text, "{}", line.0)?;
    }
    match read_script(alloc, text.as_bytes(), Mode::Play) {
        Ok(script) => Ok(script),
        Err(ScriptFault::NoMemory) => Err(NoMemory),
        Err(fault) => panic!(rt; "{fault} of {text}"),
    }
}

/// The events that these lines spell.
fn events_of(
    rt: &impl Abort,
    alloc: Global,
    actors: &str,
    lines: &[Line],
) -> Result<Vec<Event>, NoMemory> {
    let Script { casts, items } = read(rt, alloc, actors, lines)?;
    drop(casts);
    match items {
        Items::Events(events) => Ok(events.into_vec()),
        Items::Steps(_) => panic!(rt; "steps"),
    }
}

/// A world of these actors.
fn opened(rt: &impl Abort, alloc: Global, actors: &str) -> Result<World<Boxed>, NoMemory> {
    let script = read(rt, alloc, actors, &[])?;
    let mut casts = Vec::new(alloc);
    for role in script.casts.as_slice() {
        casts.push(cast_of(alloc, role)?)?;
    }
    drop(script);
    assert!(rt; cast_fits(casts.as_slice()));
    World::open(alloc, casts)
}

/// Adds what is told of an event, after the sort of a refusal that has one.
fn push_told(text: &mut String, outcome: &Outcome) -> Result<(), NoMemory> {
    match outcome {
        Ok(did) => write!(text, "{did}")?,
        Err(refusal) => {
            let sort = match refusal {
                WorldRefusal::Submit(_) => "submit: ",
                WorldRefusal::Handle(_) => "handle: ",
                WorldRefusal::Sending(_) => "send: ",
                _ => "",
            };
            write!(text, "{sort}{refusal}")?;
        }
    }
    Ok(())
}

/// Compares what is told of an event.
fn assert_told_one(
    rt: &impl Abort,
    alloc: Global,
    name: &str,
    outcome: &Outcome,
    line: &Line,
) -> Result<(), NoMemory> {
    let mut text = String::new(alloc);
    push_told(&mut text, outcome)?;
    assert_reads(rt, name, line.0, text.as_str(), line.1);
    drop(text);
    Ok(())
}

/// What is told of the events is what their lines say.
fn assert_told(
    rt: &impl Abort,
    alloc: Global,
    name: &str,
    told: &[Outcome],
    lines: &[Line],
) -> Result<(), NoMemory> {
    assert_is(rt, name, &told.len(), &lines.len());
    for (outcome, line) in told.iter().zip(lines) {
        assert_told_one(rt, alloc, name, outcome, line)?;
    }
    Ok(())
}

/// Plays events where memory may be refused once: then the world stops at the event that wanted it,
/// with the outcomes before it told, and plays on from there. The list of outcomes has no room yet.
fn play_events(
    rt: &impl Abort,
    alloc: Global,
    name: &str,
    world: &mut World<Boxed>,
    events: &[Event],
    lines: &[Line],
) -> Result<(), NoMemory> {
    assert!(rt; world.has_room(events.len()));
    let mut told = Vec::new(alloc);
    assert_is(rt, name, &told.capacity(), &0);
    if let Err(i) = world.play(events, &mut told) {
        let stop = i as usize;
        assert!(rt; stop < events.len() && stop < lines.len());
        assert_told(rt, alloc, name, told.as_slice(), &lines[..stop])?;
        assert!(rt; world.has_room(events.len()));
        assert_is(rt, name, &world.play(&events[stop..], &mut told), &Ok(()));
    }
    let done = assert_told(rt, alloc, name, told.as_slice(), lines);
    drop(told);
    done
}

/// Plays lines in a world of these actors.
fn play_lines(
    rt: &impl Abort,
    alloc: Global,
    name: &str,
    world: &mut World<Boxed>,
    actors: &str,
    lines: &[Line],
) -> Result<(), NoMemory> {
    let events = events_of(rt, alloc, actors, lines)?;
    let done = play_events(rt, alloc, name, world, events.as_slice(), lines);
    drop(events);
    done
}

/// The world ends as the play says.
fn assert_end(
    rt: &impl Abort,
    alloc: Global,
    world: &World<Boxed>,
    play: &Play,
) -> Result<(), NoMemory> {
    let text = end_of(alloc, world, play.shown)?;
    assert_reads(rt, play.name, "its end", text.as_str(), play.end);
    drop(text);
    world.consistent();
    Ok(())
}

fn play_whole(rt: &impl Abort, alloc: Global, play: &Play) -> Result<(), NoMemory> {
    let mut world = opened(rt, alloc, play.actors)?;
    let done = match play_lines(rt, alloc, play.name, &mut world, play.actors, play.lines) {
        Ok(()) => assert_end(rt, alloc, &world, play),
        Err(refused) => Err(refused),
    };
    drop(world);
    done
}

#[rattlefmt::skip]
static ANOTHER_CALLER_PASSES: Play = Play { name: "another_caller_passes",
    actors: "actor a1 counter c1 c2\nactor a2 counter c1\n",
    lines: &[
        ("submit c1 a2 add 7", "future c1.0"),
        ("submit c1 a1 add @0", "future c1.1"),
        ("submit c1 a1 add 1", "future c1.2"),
        ("send c1 1", "send: NotReady"),
        ("send c1 2", "mail 0"),
        ("deliver 0", "new"),
        ("run a1 c1", "gap"),
        ("submit c2 a1 add 100", "future c2.0"),
        ("send c2 0", "mail 1"),
        ("deliver 1", "new"),
        ("run a1 c2", "place 0 reply 0"),
        ("send c1 0", "mail 2"),
        ("deliver 2", "new"),
        ("run a2 c1", "place 0 reply 1"),
        ("collect 1", "kept c1.0"),
        ("send c1 1", "mail 3"),
        ("deliver 3", "new"),
        ("run a1 c1", "place 1 reply 2"),
        ("run a1 c1", "place 2 reply 3"),
        ("collect 0", "kept c2.0"),
        ("collect 2", "kept c1.1"),
        ("collect 3", "kept c1.2"),
    ],
    shown: (&[1, 2], &[1, 2]),
    end: "c1.0 a2 = 7\nc1.1 a1 = 107\nc1.2 a1 = 108\nc2.0 a1 = 100\n\
        a1 live counter 108\na1.0 c2.0 add 100\na1.1 c1.1 add 7\na1.2 c1.2 add 1\n\
        a2 live counter 7\na2.0 c1.0 add 7\n" };

#[rattlefmt::skip]
static ONE_PACKET_FOR_GOOD: Play = Play { name: "one_packet_for_good",
    actors: "actor a1 counter c1\nactor a2 list c1\n",
    lines: &[
        ("submit c1 a1 add 5", "future c1.0"),
        ("submit c1 a2 push @0", "future c1.1"),
        ("send c1 0", "mail 0"),
        ("deliver 0", "new"),
        ("run a1 c1", "place 0 reply 0"),
        ("kill c1 a1", "asked"),
        ("take a1", "dead"),
        ("tell a1 c1", "reply 1"),
        ("collect 1", "died 1"),
        ("send c1 1", "mail 1"),
        ("collect 0", "late c1.0"),
        ("send c1 1", "mail 2"),
        ("deliver 2", "new"),
        ("deliver 1", "repeat"),
        ("run a2 c1", "place 0 reply 2"),
        ("collect 2", "kept c1.1"),
    ],
    shown: (&[1], &[1, 2]),
    end: "c1.0 a1 = ActorDied\nc1.1 a2 = Dependency(0)\n\
        a1 dead\na1.0 c1.0 add 5\na2 live list\na2.0 c1.1 push !0\n" };

#[rattlefmt::skip]
static RELEASE_AND_RETIRE: Play = Play { name: "release_and_retire", actors: "actor a1 counter c1\n",
    lines: &[
        ("submit c1 a1 add 2", "future c1.0"),
        ("send c1 0", "mail 0"),
        ("copy c1 a1", "copies 2"),
        ("release c1 a1", "copies 1"),
        ("release c1 a1", "mail 1"),
        ("retire a1", "NotDrained"),
        ("deliver 1", "new"),
        ("retire a1", "NotDrained"),
        ("deliver 1", "repeat"),
        ("deliver 0", "new"),
        ("retire a1", "NotDrained"),
        ("run a1 c1", "place 0 reply 0"),
        ("retire a1", "retired"),
        ("deliver 0", "ActorEnded"),
        ("collect 0", "kept c1.0"),
    ],
    shown: (&[1], &[1]), end: "c1.0 a1 = 2\na1 retired counter 2\na1.0 c1.0 add 2\n" };

#[rattlefmt::skip]
static RAN_AND_YET_DIED: Play = Play { name: "ran_and_yet_died", actors: "actor a1 counter c1\n",
    lines: &[
        ("submit c1 a1 add 5", "future c1.0"),
        ("send c1 0", "mail 0"),
        ("deliver 0", "new"),
        ("run a1 c1", "place 0 reply 0"),
        ("tell a1 c1", "NotDead"),
        ("kill c1 a1", "asked"),
        ("take a1", "dead"),
        ("tell a1 c1", "reply 1"),
        ("collect 1", "died 1"),
        ("collect 0", "late c1.0"),
        ("deliver 0", "ActorEnded"),
        ("retire a1", "ActorEnded"),
        ("submit c1 a1 get", "future c1.1"),
        ("send c1 1", "send: Answered"),
        ("release c1 a1", "mail 1"),
        ("deliver 1", "ActorEnded"),
    ],
    shown: (&[1], &[1]), end: "c1.0 a1 = ActorDied\nc1.1 a1 = ActorDied\na1 dead\na1.0 c1.0 add 5\n" };

#[rattlefmt::skip]
static PENDING_LIMIT: Play = Play { name: "pending_limit", actors: "actor a1 counter max 2 c1\n",
    lines: &[
        ("submit c1 a1 add 1", "future c1.0"),
        ("submit c1 a1 add 2", "future c1.1"),
        ("submit c1 a1 add 3", "submit: PendingLimit"),
        ("send c1 0", "mail 0"),
        ("deliver 0", "new"),
        ("run a1 c1", "place 0 reply 0"),
        ("submit c1 a1 add 3", "submit: PendingLimit"),
        ("collect 0", "kept c1.0"),
        ("submit c1 a1 add 3", "future c1.2"),
    ],
    shown: (&[1], &[1]), end: "c1.0 a1 = 1\nc1.1 a1 ?\nc1.2 a1 ?\na1 live counter 1\na1.0 c1.0 add 1\n" };

#[rattlefmt::skip]
static TERMINATE_IN_TURN: Play = Play { name: "terminate_in_turn",
    actors: "actor a1 counter c1\nactor a2 counter c1\n",
    lines: &[
        ("submit c1 a1 add 5", "future c1.0"),
        ("submit c1 a1 terminate", "future c1.1"),
        ("submit c1 a1 add 1", "future c1.2"),
        ("send c1 0", "mail 0"),
        ("send c1 1", "mail 1"),
        ("send c1 2", "mail 2"),
        ("deliver 2", "new"),
        ("deliver 1", "new"),
        ("deliver 0", "new"),
        ("run a1 c1", "place 0 reply 0"),
        ("run a1 c1", "place 1 reply 1"),
        ("run a1 c1", "ActorEnded"),
        ("collect 0", "kept c1.0"),
        ("collect 1", "kept c1.1"),
        ("tell a1 c1", "reply 2"),
        ("collect 2", "died 1"),
        ("submit c1 a2 terminate 1", "future c1.3"),
        ("submit c1 a2 add 2", "future c1.4"),
        ("send c1 3", "mail 3"),
        ("send c1 4", "mail 4"),
        ("deliver 3", "new"),
        ("deliver 4", "new"),
        ("run a2 c1", "place 0 reply 3"),
        ("run a2 c1", "place 1 reply 4"),
        ("collect 3", "kept c1.3"),
        ("collect 4", "kept c1.4"),
    ],
    shown: (&[1], &[1, 2]),
    end: "c1.0 a1 = 5\nc1.1 a1 = unit\nc1.2 a1 = ActorDied\nc1.3 a2 = BadArgs\nc1.4 a2 = 2\n\
        a1 dead\na1.0 c1.0 add 5\na1.1 c1.1 terminate\n\
        a2 live counter 2\na2.0 c1.3 terminate 1\na2.1 c1.4 add 2\n" };

/// A call that waits for an answer isn't sent, a later one waits at its actor, and another caller's
/// passes it. In this and the following memory is refused from outside, at most once.
#[test]
fn another_caller_passes(rt: HostRuntime) -> Result<(), Fail> {
    play_whole(&rt, rt.alloc(), &ANOTHER_CALLER_PASSES)?;
    Ok(())
}

/// A death answers a call that ran, and the packet of a call that takes this answer stays as it is
/// when the actor's own answer comes late.
#[test]
fn one_packet_for_good(rt: HostRuntime) -> Result<(), Fail> {
    play_whole(&rt, rt.alloc(), &ONE_PACKET_FOR_GOOD)?;
    Ok(())
}

/// An actor retires once its caller released its handle and its calls ran.
#[test]
fn release_and_retire(rt: HostRuntime) -> Result<(), Fail> {
    play_whole(&rt, rt.alloc(), &RELEASE_AND_RETIRE)?;
    Ok(())
}

/// Of an actor that its caller knows dead an answer comes late, and a further call is answered at
/// once.
#[test]
fn ran_and_yet_died(rt: HostRuntime) -> Result<(), Fail> {
    play_whole(&rt, rt.alloc(), &RAN_AND_YET_DIED)?;
    Ok(())
}

/// A call counts against its actor's limit until its answer is kept, though it ran.
#[test]
fn pending_limit(rt: HostRuntime) -> Result<(), Fail> {
    play_whole(&rt, rt.alloc(), &PENDING_LIMIT)?;
    Ok(())
}

/// A `terminate` waits its turn and ends its actor, which never runs the call after it; one with an
/// argument is a bad call, and the actor goes on.
#[test]
fn terminate_in_turn(rt: HostRuntime) -> Result<(), Fail> {
    play_whole(&rt, rt.alloc(), &TERMINATE_IN_TURN)?;
    Ok(())
}
