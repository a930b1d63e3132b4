//! An actor that serves two callers' lines, which a test filled.

ghost use Rattle.std.specs.Prelude.{◌≡◌, [], ◌∷◌, slice_index_or};
ghost use Rattle.std.specs.Thread.{IsSync};
ghost use Rattle.act_mailbox.specs.Notices.{RepliesView};
ghost use Rattle.act_serve.specs.Turns.{PassesFit, PassesOf, IsUnusedExec};

mod at_place;
mod scene;

use crate::lines::{actor, caller, second};
use crate::rows::assert_is;
use act_actor::{Live, RunItem};
use act_kinds::{Actor, Counter};
use act_mailbox::{Control, ControlCaller, Replies, ReplyCaller};
use act_serve::{Ended, ExecLines, ExecPasses, Finished, serve};
use act_types::{NoMemory, Notice};
use at_place::AtPlace;
use scene::{Posted, Scene, Sent, ask_kill, opened, post_all};
use std::alloc::Global;
use std::process::Abort;
use std::sync::Wait;
use std::test::Fail;
use std::thread;
use std::thread::Threads;

/// How an actor ended.
#[derive(Clone, Copy, Debug, PartialEq, Eq)]
enum End {
    Killed,
    Retired,
    Starved,
}

/// When the kill of the actor is asked: not at all, before it serves, or once it is at a place of
/// its log.
#[derive(Clone, Copy, PartialEq, Eq)]
enum Kill {
    Never,
    First,
    At(u32),
}

use End::{Killed, Retired, Starved};
use Sent::{Call, Note, Terminate};

/// How many replies and then how many deaths a caller was given, where no reply follows a death.
type Given = Option<(u32, u32)>;

/// A case by its name: the letters in the order in which they came, when the kill is asked and
/// whether its place is reached, how the actor ends, which calls it ran, by their callers and
/// numbers, and what each caller is given.
#[derive(Clone, Copy)]
struct Row {
    name: &'static str,
    letters: &'static [Posted],
    kill: Kill,
    is_reached: bool,
    end: End,
    ran: &'static [(u8, u32)],
    given: [Given; 2],
}

/// Of one caller. The other submits nothing, which its note tells where the actor is to retire.
#[rattlefmt::skip]
static OF_ONE: [Row; 8] = [
    Row { name: "retires_after_a_call", letters: &[(2, Note(1, 0)), (1, Call(1, 0)), (1, Note(1, 1))],
        kill: Kill::Never, is_reached: false, end: Retired, ran: &[(1, 0)], given: [Some((1, 0)), Some((0, 0))] },
    Row { name: "kill_first", letters: &[(2, Note(1, 0)), (1, Call(1, 0)), (1, Note(1, 1))],
        kill: Kill::First, is_reached: false, end: Killed, ran: &[], given: [Some((0, 1)), Some((0, 1))] },
    // The call that follows a `terminate` doesn't run, though it and the note came.
    Row { name: "terminates", kill: Kill::Never, is_reached: false,
        letters: &[(2, Note(1, 0)), (1, Call(1, 0)), (1, Terminate(1, 1)), (1, Call(1, 2)), (1, Note(1, 3))],
        end: Killed, ran: &[(1, 0), (1, 1)], given: [Some((2, 1)), Some((0, 1))] },
    // Letters that are for another actor, of a number that no call has, or that came before, change nothing, and nor do
    // notes for another actor and second ones.
    Row { name: "forged_letters_change_nothing", kill: Kill::Never, is_reached: false,
        letters: &[(2, Note(1, 0)), (1, Call(2, 0)), (1, Call(1, 65_536)), (1, Call(1, 0)), (1, Call(1, 0)),
            (1, Note(2, 0)), (1, Note(1, 2)), (1, Note(1, 1)), (1, Call(1, 1))],
        end: Retired, ran: &[(1, 0), (1, 1)], given: [Some((2, 0)), Some((0, 0))] },
    // The kill is asked in the last run of an actor that could retire after it. The actor looks once more, and dies.
    Row { name: "kill_in_the_last_run", letters: &[(2, Note(1, 0)), (1, Call(1, 1)), (1, Note(1, 2)), (1, Call(1, 0))],
        kill: Kill::At(1), is_reached: true, end: Killed, ran: &[(1, 0), (1, 1)], given: [Some((2, 1)), Some((0, 1))] },
    // An actor that never reaches the place retires, and that is told.
    Row { name: "a_place_that_is_not_reached", letters: &[(2, Note(1, 0)), (1, Call(1, 0)), (1, Note(1, 1))],
        kill: Kill::At(1), is_reached: false, end: Retired, ran: &[(1, 0)], given: [Some((1, 0)), Some((0, 0))] },
    // Call 0 runs as it comes. Call 2 comes before call 1 and waits for it. Call 3 runs as it comes again.
    Row { name: "each_place_once", kill: Kill::Never, is_reached: false,
        letters: &[(2, Note(1, 0)), (1, Call(1, 0)), (1, Call(1, 2)), (1, Call(1, 1)), (1, Call(1, 3)), (1, Note(1, 4))],
        end: Retired, ran: &[(1, 0), (1, 1), (1, 2), (1, 3)], given: [Some((4, 0)), Some((0, 0))] },
    // A call that never can run passes no gate.
    Row { name: "no_run_no_pass", letters: &[(2, Note(1, 0)), (1, Call(1, 1)), (1, Call(1, 2)), (1, Note(1, 0))],
        kill: Kill::Never, is_reached: false, end: Retired, ran: &[], given: [Some((0, 0)), Some((0, 0))] },
];

#[rattlefmt::skip]
static OF_BOTH: [Row; 2] = [
    // The other caller has a call in the actor's inbox and one in its mail, and is given its death alone.
    Row { name: "terminate_beside_waiting_calls", kill: Kill::Never, is_reached: false,
        letters: &[(2, Call(1, 1)), (1, Call(1, 0)), (1, Terminate(1, 1)), (2, Call(1, 0))],
        end: Killed, ran: &[(1, 0), (1, 1)], given: [Some((2, 1)), Some((0, 1))] },
    // Each caller's second call comes before any first one. Caller 2's first call runs, since caller 1's isn't there.
    // Once it is, both callers have a call that can run, and those of caller 1 run before caller 2's second, which came
    // before them.
    Row { name: "the_least_caller_runs", kill: Kill::Never, is_reached: false,
        letters: &[(1, Call(1, 1)), (2, Call(1, 1)), (2, Call(1, 0)), (1, Call(1, 0)), (1, Note(1, 2)), (2, Note(1, 2))],
        end: Retired, ran: &[(2, 0), (1, 0), (1, 1), (2, 1)], given: [Some((2, 0)), Some((2, 0))] },
];

#[rattlefmt::skip]
static WHERE_MEMORY_IS_REFUSED: Row = Row { name: "refused_memory_starves", kill: Kill::Never, is_reached: false,
    letters: &[(2, Note(1, 0)), (1, Call(1, 1)), (1, Call(1, 0)), (1, Call(1, 2)), (1, Note(1, 3))],
    end: Retired, ran: &[(1, 0), (1, 1), (1, 2)], given: [Some((3, 0)), Some((0, 0))] };

#[rattlefmt::skip]
static TWENTY_FOUR: [Posted; 25] = [
    (1, Call(1, 0)), (1, Call(1, 1)), (1, Call(1, 2)), (1, Call(1, 3)), (1, Call(1, 4)), (1, Call(1, 5)),
    (1, Call(1, 6)), (1, Call(1, 7)), (1, Call(1, 8)), (1, Call(1, 9)), (1, Call(1, 10)), (1, Call(1, 11)),
    (1, Call(1, 12)), (1, Call(1, 13)), (1, Call(1, 14)), (1, Call(1, 15)), (1, Call(1, 16)), (1, Call(1, 17)),
    (1, Call(1, 18)), (1, Call(1, 19)), (1, Call(1, 20)), (1, Call(1, 21)), (1, Call(1, 22)), (1, Call(1, 23)),
    (1, Note(1, 24)),
];

#[rattlefmt::skip]
static FIRST_TWENTY: [(u8, u32); 20] = [
    (1, 0), (1, 1), (1, 2), (1, 3), (1, 4), (1, 5), (1, 6), (1, 7), (1, 8), (1, 9),
    (1, 10), (1, 11), (1, 12), (1, 13), (1, 14), (1, 15), (1, 16), (1, 17), (1, 18), (1, 19),
];

/// Whether exactly these calls ran, in this order.
fn is_run_of(log: &[RunItem], wanted: &[(u8, u32)]) -> bool {
    log.len() == wanted.len()
        && log.iter().zip(wanted).all(|(item, call)| (item.caller.number(), item.number) == *call)
}

/// How an actor ended, how many calls it ran, and whether they were these.
type Served = (End, usize, bool);

fn served_of<K: Actor>(finished: &Finished<K>, wanted: &[(u8, u32)]) -> Served {
    let (end, log) = match &finished.ended {
        Ended::Killed(dead) => (Killed, dead.log()),
        Ended::Retired(retired) => (Retired, retired.log()),
        Ended::Starved(dead) => (Starved, dead.log()),
    };
    (end, log.len(), is_run_of(log, wanted))
}

fn given<R: Wait>(rt: &R, replies: &Replies, collector: &mut ReplyCaller) -> Given
    requires { collector.old.line ≡ replies.now.line }
{
    let mut given = (0u32, 0u32);
    for _ in 0..100u32 {
        match replies.collect(rt, collector) {
            None => return Some(given),
            Some(Notice::Death(_)) => given.1 = given.1.wrapping_add(1),
            Some(Notice::Answered(_)) if given.1 > 0 => return None,
            Some(Notice::Answered(_)) => given.0 = given.0.wrapping_add(1),
        }
    }
    None
}

/// A counter serves these lines.
fn serve_counter<R: Wait>(
    rt: &R,
    alloc: Global,
    lines: &ExecLines,
    passes: ExecPasses,
    gate: &AtPlace,
    wanted: &[(u8, u32)],
) -> Result<Served, NoMemory>
    requires fit { PassesOf lines.now 1 [] passes }
    requires fresh { IsUnusedExec lines.now.replies.now (1 ∷ 2 ∷ []) passes }
{
    match Live::open(alloc, actor(), &[caller(), second()], Counter::open()) {
        Ok(live) => {
            let finished = serve(rt, live, lines, passes, gate);
            let served = served_of(&finished, wanted);
            drop(finished);
            Ok(served)
        }
        Err(refused) => {
            drop(passes);
            Err(refused)
        }
    }
}

/// Asks the kill once the place is reached, if it is to be asked at one. Whether the place was, and
/// the line took the kill. Where the place is not reached, the kill is asked all the same, so that
/// the actor ends.
fn ask_at<R: Wait>(
    rt: &R,
    gate: &AtPlace,
    control: &Control,
    mut ask: ControlCaller,
    kill: Kill,
) -> bool
    requires { ask.line ≡ control.now.line }
{
    let is_asked = match kill {
        Kill::Never | Kill::First => false,
        Kill::At(_) => {
            let is_reached = gate.wait_until_reached();
            let is_taken = ask_kill(rt, control, &mut ask);
            gate.asked();
            is_reached && is_taken
        }
    };
    drop(ask);
    is_asked
}

/// What comes of a row: what the actor did, what its callers were given, whether the kill was asked
/// at the row's place, and whether the gate was passed once at each place of the log and nowhere
/// else.
type Told = (Served, [Given; 2], bool, bool);

/// A counter serves the scene's lines, and the kill is asked.
fn told<R: Threads + Wait + Sync>(
    rt: &R,
    alloc: Global,
    row: &Row,
    gate: &AtPlace,
    scene: Scene,
    passes: ExecPasses,
) -> Result<Told, NoMemory>
    requires sync { IsSync R.row }
    requires fit { PassesFit scene.mail.line scene.control.line scene.replies 1 [] passes }
    requires fresh { IsUnusedExec scene.replies (1 ∷ 2 ∷ []) passes }
    requires ask { scene.ask.line ≡ scene.control.line }
    requires first { (r : RepliesView) → scene.first_collector.line ≡ (slice_index_or scene.replies 0 r).line }
    requires second { (r : RepliesView) → scene.second_collector.line ≡ (slice_index_or scene.replies 1 r).line }
{
    let Scene {
        mail,
        control,
        replies,
        first,
        second,
        ask,
        mut first_collector,
        mut second_collector,
    } = scene;
    drop(first);
    drop(second);
    let lines = ExecLines {
        mail: &mail,
        control: &control,
        replies: &replies,
    };
    let (ran, kill) = (row.ran, row.kill);
    let (served, is_asked) = {
        let control = &control;
        thread::join(
            rt,
            move || -> Result<Served, NoMemory>
                requires { PassesOf lines 1 [] passes × IsUnusedExec lines.replies.now (1 ∷ 2 ∷ []) passes }
            {
                let served = serve_counter(rt, alloc, &lines, passes, gate, ran);
                gate.ended();
                served
            },
            move || -> bool
                requires { ask.line ≡ control.now.line }
            { ask_at(rt, gate, control, ask, kill) },
        )
    };
    let given = [
        given(rt, &replies[0], &mut first_collector),
        given(rt, &replies[1], &mut second_collector),
    ];
    drop(first_collector);
    drop(second_collector);
    drop(mail);
    drop(control);
    drop(replies);
    let served = served?;
    let each_once = gate.passed.has_each_once([served.1, 0]);
    Ok((served, given, is_asked, each_once))
}

/// A counter serves a row's letters.
fn served<R: Threads + Wait + Sync + Abort>(
    rt: &R,
    alloc: Global,
    row: &Row,
) -> Result<Told, NoMemory>
    requires sync { IsSync R.row }
{
    let place = match row.kill {
        Kill::At(place) => Some(place),
        _ => None,
    };
    let gate = AtPlace::new(alloc, place)?;
    let (mut scene, passes) = match opened(alloc) {
        Ok(opened) => opened,
        Err(refused) => {
            drop(gate);
            return Err(refused);
        }
    };
    let told = match post_all(
        rt,
        alloc,
        &scene.mail,
        &mut scene.first,
        &mut scene.second,
        row.letters,
    ) {
        Ok(are_posted) => {
            let is_ready = row.kill != Kill::First || ask_kill(rt, &scene.control, &mut scene.ask);
            assert_is(rt, row.name, &(are_posted, is_ready), &(true, true));
            told(rt, alloc, row, &gate, scene, passes)
        }
        Err(refused) => {
            drop(scene);
            drop(passes);
            Err(refused)
        }
    };
    drop(gate);
    told
}

fn wanted(row: &Row) -> Told {
    let served = (row.end, row.ran.len(), true);
    (served, row.given, row.is_reached, true)
}

fn play<R: Threads + Wait + Sync + Abort>(rt: &R, alloc: Global, row: &Row) -> Result<(), NoMemory>
    requires sync { IsSync R.row }
{
    let told = served(rt, alloc, row)?;
    assert_is(rt, row.name, &told, &wanted(row));
    Ok(())
}

#[test]
fn letters_of_one_caller(rt: HostRuntime) -> Result<(), Fail> {
    for row in &OF_ONE {
        play(&rt, rt.alloc(), row)?;
    }
    Ok(())
}

#[test]
fn letters_of_both_callers(rt: HostRuntime) -> Result<(), Fail> {
    for row in &OF_BOTH {
        play(&rt, rt.alloc(), row)?;
    }
    Ok(())
}

/// A kill that comes between two calls.
#[test]
fn kill_at_place(rt: HostRuntime) -> Result<(), Fail> {
    for place in 0..20u32 {
        let row = Row {
            name: "kill_at_place",
            letters: &TWENTY_FOUR,
            kill: Kill::At(place),
            is_reached: true,
            end: Killed,
            ran: &FIRST_TWENTY[..place as usize + 1],
            given: [Some((place + 1, 1)), Some((0, 1))],
        };
        play(&rt, rt.alloc(), &row)?;
    }
    Ok(())
}

/// Whether an actor without memory ended as it should: a reply for each call that it ran, and then
/// its death.
fn is_starved(told: &Told) -> bool {
    match (told.0, told.1) {
        ((Starved, ran, _), [Some((replies, deaths)), _]) => replies as usize == ran && deaths == 1,
        _ => false,
    }
}

/// Where a request for memory is refused, the actor is starved. With ample memory it retires.
#[test]
fn refused_memory_starves(rt: HostRuntime) -> Result<(), Fail> {
    let row = &WHERE_MEMORY_IS_REFUSED;
    let told = served(&rt, rt.alloc(), row)?;
    let is_right = told == wanted(row) || is_starved(&told);
    assert_is(&rt, row.name, &is_right, &true);
    Ok(())
}
