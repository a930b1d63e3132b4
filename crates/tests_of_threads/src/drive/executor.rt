//! A plain executor, which does what a list says.

ghost use Rattle.std.specs.Prelude.{◌≡◌, [], All, IfOk, IfSome};
ghost use Rattle.act_types.specs.declared.call.Notice.TheVariants.{Answered};
ghost use Rattle.act_rules.specs.Consistent.{IsPrefix};
ghost use Rattle.act_mailbox.specs.Notices.{new_exec, IsNoDeath, NamesPlace};

use crate::lines::caller;
use act_actor::Live;
use act_kinds::{Actor, Counter};
use act_mailbox::{Control, ControlExec, Letter, Mail, MailExec, Replies, ReplyExec};
use act_types::{ActorId, CopyOf, NoMemory, Notice, Reply};
use std::alloc::Global;
use std::sync::Wait;
use std::thread;

/// How often an executor looks for a kill that is not to come.
const LOOKS: u32 = 100_000;

/// How often one that attends looks for something to do. Its thread may stand before its caller's,
/// where no other can be made.
const ATTENDS: u32 = 5_000_000;

/// What an executor does.
#[derive(Clone, Copy)]
pub(super) enum Act {
    /// Takes a letter, for which it waits.
    Take,
    /// Looks for a kill, of which there is to be none.
    SeesNoKill,
    /// Runs the caller's next call, and gives its reply so many times.
    Run(u32),
    /// Waits for a kill.
    TakeKill,
    /// Takes letters and runs calls until all is drained. A kill is not to come.
    Attend,
}

/// What an executor does in turn, and whether it retires then. Else it tells its death.
#[derive(Clone, Copy)]
pub(super) struct Script(pub(super) &'static [Act], pub(super) bool);

/// Whether an executor saw what it was to see, how many calls it ran, and whether it retired.
#[derive(Clone, Copy, Debug, PartialEq, Eq)]
pub(super) struct Acted {
    pub(super) is_right: bool,
    pub(super) ran: usize,
    pub(super) retired: bool,
}

/// The lines of an executor with one caller.
#[derive(Clone, Copy)]
pub(super) struct ExecLines<'a> {
    pub(super) mail: &'a Mail,
    pub(super) control: &'a Control,
    pub(super) replies: &'a Replies,
}

/// The executor's passes.
#[derive(Drop)]
pub(super) struct ExecPasses {
    pub(super) letters: MailExec,
    pub(super) kills: ControlExec,
    pub(super) gives: ReplyExec,
}

/// Takes a letter, if there is one, and has it arrive. Whether there was one.
fn take_in<R: Wait, K: Actor>(
    rt: &R,
    mail: &Mail,
    letters: &mut MailExec,
    live: &mut Live<K>,
) -> Result<bool, NoMemory>
    requires line { letters.old.line ≡ mail.now.line }
    ensures line { letters.new.line ≡ letters.old.line }
    ensures same { live.new ≡ record live.old { inbox = live.new.inbox } }
{
    match mail.take(rt, letters) {
        None => Ok(false),
        Some(Letter::Call(packet)) => match live.arrive(packet) {
            Ok(_) => Ok(true),
            Err(back) => {
                drop(back);
                Err(NoMemory)
            }
        },
        Some(Letter::Note(note)) => {
            live.released(note);
            Ok(true)
        }
    }
}

/// Takes a letter, for which it waits, and has it arrive.
fn take_one<R: Wait, K: Actor>(
    rt: &R,
    mail: &Mail,
    letters: &mut MailExec,
    live: &mut Live<K>,
) -> Result<(), NoMemory>
    requires line { letters.old.line ≡ mail.now.line }
    ensures line { letters.new.line ≡ letters.old.line }
    ensures same { live.new ≡ record live.old { inbox = live.new.inbox } }
{
    for _ in rt.forever() {
        if take_in(rt, mail, letters, live)? {
            return Ok(());
        }
        thread::yield_now();
    }
    unreachable!()
}

/// Looks for a kill at most so many times. Whether one came.
fn sees_kill<R: Wait, K: Actor>(
    rt: &R,
    control: &Control,
    kills: &mut ControlExec,
    live: &Live<K>,
    looks: u32,
) -> bool
    requires line { kills.old.line ≡ control.now.line }
    requires actor { live.now.id ≡ kills.old.actor }
    ensures { (kills.new.line ≡ kills.old.line) × (kills.new.actor ≡ kills.old.actor) }
{
    for _ in 0..looks {
        if control.take(rt, kills, live).is_some() {
            return true;
        }
        thread::yield_now();
    }
    false
}

/// Runs the caller's next call.
fn run_next<K: Actor>(live: &mut Live<K>) -> Result<Option<Reply>, NoMemory>
    ensures id { live.new.id ≡ live.old.id }
    ensures front { IsPrefix live.old.log live.new.log }
    ensures names { IfOk result (λ ran. IfSome ran (λ reply.
        (reply.actor ≡ live.old.id) ×
        NamesPlace live.new.log (Answered reply))) }
{
    live.run(caller())
}

/// Gives a reply so many times.
fn give_times<R: Wait, K: Actor>(
    rt: &R,
    alloc: Global,
    live: &Live<K>,
    line: &Replies,
    gives: &mut ReplyExec,
    reply: &Reply,
    times: u32,
) -> Result<(), NoMemory>
    requires line { gives.old.line ≡ line.now.line }
    requires names { (reply.now.actor ≡ gives.old.actor)
        × NamesPlace live.now.log (Answered reply.now) }
    requires grown { IsPrefix gives.old.seen live.now.log }
    requires alive { All IsNoDeath gives.old.given }
    ensures line { (gives.new.line ≡ gives.old.line) × (gives.new.actor ≡ gives.old.actor) }
    ensures grown { IsPrefix gives.new.seen live.now.log }
    ensures alive { All IsNoDeath gives.new.given }
{
    for _ in 0..times {
        let copy = reply.copy_of(alloc)?;
        drop(line.give(rt, gives, live.log(), Notice::Answered(copy)));
    }
    Ok(())
}

/// Runs the caller's next call, if it came, and gives its reply so many times.
fn run_one<R: Wait, K: Actor>(
    rt: &R,
    alloc: Global,
    live: &mut Live<K>,
    line: &Replies,
    gives: &mut ReplyExec,
    times: u32,
) -> Result<(), NoMemory>
    requires line { gives.old.line ≡ line.now.line }
    requires actor { gives.old.actor ≡ live.old.id }
    requires grown { IsPrefix gives.old.seen live.old.log }
    requires alive { All IsNoDeath gives.old.given }
    ensures line { gives.new.line ≡ gives.old.line }
    ensures actor { (gives.new.actor ≡ gives.old.actor)
        × (live.new.id ≡ live.old.id) }
    ensures grown { IsPrefix gives.new.seen live.new.log }
    ensures alive { All IsNoDeath gives.new.given }
{
    let Some(reply) = run_next(live)? else {
        return Ok(());
    };
    let given = give_times(rt, alloc, live, line, gives, &reply, times);
    drop(reply);
    given
}

/// Takes letters and runs calls until all is drained, and whether it was. A kill or the last look
/// ends it before.
fn attend<R: Wait, K: Actor>(
    rt: &R,
    alloc: Global,
    live: &mut Live<K>,
    lines: &ExecLines,
    passes: &mut ExecPasses,
) -> Result<bool, NoMemory>
    requires letters { passes.old.letters.line ≡ lines.now.mail.now.line }
    requires kills { (passes.old.kills.line ≡ lines.now.control.now.line) × (passes.old.kills.actor ≡ live.old.id) }
    requires gives { (passes.old.gives.line ≡ lines.now.replies.now.line) × (passes.old.gives.actor ≡ live.old.id) }
    requires grown { IsPrefix passes.old.gives.seen live.old.log }
    requires alive { All IsNoDeath passes.old.gives.given }
    ensures letters { passes.new.letters.line ≡ passes.old.letters.line }
    ensures kills { (passes.new.kills.line ≡ passes.old.kills.line) × (passes.new.kills.actor ≡ live.new.id) }
    ensures gives { (passes.new.gives.line ≡ passes.old.gives.line) × (passes.new.gives.actor ≡ live.new.id) }
    ensures id { live.new.id ≡ live.old.id }
    ensures grown { IsPrefix passes.new.gives.seen live.new.log }
    ensures alive { All IsNoDeath passes.new.gives.given }
{
    for _ in 0..ATTENDS {
        if sees_kill(rt, lines.control, &mut passes.kills, live, 1) {
            return Ok(false);
        }
        let has_come = take_in(rt, lines.mail, &mut passes.letters, live)?;
        run_one(rt, alloc, live, lines.replies, &mut passes.gives, 1)?;
        if !has_come && live.drained() {
            return Ok(true);
        }
    }
    Ok(false)
}

/// Does one thing. Whether it saw what it was to see.
fn act_once<R: Wait, K: Actor>(
    rt: &R,
    alloc: Global,
    live: &mut Live<K>,
    lines: &ExecLines,
    passes: &mut ExecPasses,
    act: Act,
) -> Result<bool, NoMemory>
    requires letters { passes.old.letters.line ≡ lines.now.mail.now.line }
    requires kills { (passes.old.kills.line ≡ lines.now.control.now.line) × (passes.old.kills.actor ≡ live.old.id) }
    requires gives { (passes.old.gives.line ≡ lines.now.replies.now.line) × (passes.old.gives.actor ≡ live.old.id) }
    requires grown { IsPrefix passes.old.gives.seen live.old.log }
    requires alive { All IsNoDeath passes.old.gives.given }
    ensures letters { passes.new.letters.line ≡ passes.old.letters.line }
    ensures kills { (passes.new.kills.line ≡ passes.old.kills.line) × (passes.new.kills.actor ≡ live.new.id) }
    ensures gives { (passes.new.gives.line ≡ passes.old.gives.line) × (passes.new.gives.actor ≡ live.new.id) }
    ensures id { live.new.id ≡ live.old.id }
    ensures grown { IsPrefix passes.new.gives.seen live.new.log }
    ensures alive { All IsNoDeath passes.new.gives.given }
{
    match act {
        Act::Take => take_one(rt, lines.mail, &mut passes.letters, live)?,
        Act::SeesNoKill => return Ok(!sees_kill(rt, lines.control, &mut passes.kills, live, LOOKS)),
        Act::Run(times) => run_one(rt, alloc, live, lines.replies, &mut passes.gives, times)?,
        Act::TakeKill => return Ok(sees_kill(rt, lines.control, &mut passes.kills, live, u32::MAX)),
        Act::Attend => return attend(rt, alloc, live, lines, passes),
    }
    Ok(true)
}

/// Does these things in turn. Whether it saw what it was to see.
fn act_all<R: Wait, K: Actor>(
    rt: &R,
    alloc: Global,
    live: &mut Live<K>,
    lines: &ExecLines,
    passes: &mut ExecPasses,
    acts: &[Act],
) -> Result<bool, NoMemory>
    requires log { live.old.log ≡ [] }
    requires letters { passes.old.letters.line ≡ lines.now.mail.now.line }
    requires kills { (passes.old.kills.line ≡ lines.now.control.now.line) × (passes.old.kills.actor ≡ live.old.id) }
    requires gives { passes.old.gives ≡ new_exec lines.now.replies.now.line live.old.id }
    ensures gives { (passes.new.gives.line ≡ passes.old.gives.line) × (passes.new.gives.actor ≡ live.new.id) }
    ensures grown { IsPrefix passes.new.gives.seen live.new.log }
    ensures alive { All IsNoDeath passes.new.gives.given }
{
    let mut is_right = true;
    for one in acts {
        is_right = act_once(rt, alloc, live, lines, passes, *one)? && is_right;
    }
    Ok(is_right)
}

/// Retires, or tells its death where it isn't to retire or can't.
fn end<R: Wait, K: Actor>(
    rt: &R,
    live: Live<K>,
    line: &Replies,
    gives: &mut ReplyExec,
    retires: bool,
) -> bool
    requires line { gives.old.line ≡ line.now.line }
    requires actor { gives.old.actor ≡ live.id }
    requires grown { IsPrefix gives.old.seen live.log }
    requires alive { All IsNoDeath gives.old.given }
{
    if retires && live.drained() {
        let ended = live.retire();
        let is_retired = ended.is_ok();
        drop(ended);
        return is_retired;
    }
    drop(line.give(rt, gives, live.log(), Notice::Death(live.id())));
    drop(live);
    false
}

/// A counter's executor, which tells its death where it finds no memory.
pub(super) fn perform<R: Wait>(
    rt: &R,
    alloc: Global,
    a: ActorId,
    lines: &ExecLines,
    mut passes: ExecPasses,
    script: &Script,
) -> Acted
    requires letters { passes.letters.line ≡ lines.now.mail.now.line }
    requires kills { (passes.kills.line ≡ lines.now.control.now.line) × (passes.kills.actor ≡ a) }
    requires gives { passes.gives ≡ new_exec lines.now.replies.now.line a }
{
    let acted = match Live::open(alloc, a, &[caller()], Counter::open()) {
        Ok(mut live) => {
            let done = act_all(rt, alloc, &mut live, lines, &mut passes, script.0);
            let retires = script.1 && done.is_ok();
            let is_right = done.unwrap_or(false);
            let ran = live.log().len();
            let retired = end(rt, live, lines.replies, &mut passes.gives, retires);
            Acted {
                is_right,
                ran,
                retired,
            }
        }
        Err(_) => {
            let death = Notice::Death(a);
            drop(lines.replies.give(rt, &mut passes.gives, &[], death));
            Acted {
                is_right: false,
                ran: 0,
                retired: false,
            }
        }
    };
    drop(passes);
    acted
}
