//! A caller that drives the lines of two actors, against executors of the test's own in threads beside it.

ghost use Rattle.std.specs.Prelude.{◌≡◌, [], ◌∷◌, None, IfOk, slice_index_or};
ghost use Rattle.std.specs.Thread.{IsSync};
ghost use Rattle.act_rules.specs.Plans.{first_bad};
ghost use Rattle.act_owner.specs.Owner.{opened_under};
ghost use Rattle.act_mailbox.specs.Controls.{ControlView};
ghost use Rattle.act_mailbox.specs.Mails.{MailView};
ghost use Rattle.act_mailbox.specs.Notices.{new_exec};
ghost use Rattle.act_drive.specs.Driven.{IsUnusedCaller};

mod executor;
mod pair;

use crate::lines::{actor, caller, other};
use crate::rows::assert_is;
use act_drive::{CallerLines, CallerPasses, Plan, drive};
use act_owner::Owner;
use act_plans::{MAX_STEPS, bad_step};
use act_rules::Step;
use act_types::{ActorId, Arg, Fault, FutureId, ListOf, Method, NoMemory, Value};
use executor::{Act, Acted, ExecLines, ExecPasses, Script, perform};
use pair::{Pair, Passes, opened_pair};
use std::alloc::Global;
use std::process::Abort;
use std::sync::Wait;
use std::test::Fail;
use std::thread;
use std::thread::Threads;

/// What a caller is to do, with actors and futures by their numbers.
#[derive(Clone, Copy)]
enum Do {
    /// Adds 1.
    Add(u8),
    Await(u32),
    Release(u8),
    Kill(u8),
}

/// What a future has.
#[derive(Clone, Copy, Debug, PartialEq, Eq)]
enum Said {
    Nothing,
    Number(i64),
    Died,
    Other,
}

use Act::{Attend, Run, SeesNoKill, Take, TakeKill};
use Do::{Add, Await, Kill, Release};
use Said::{Died, Nothing, Number};

/// What a caller leaves: the answers of its first three futures, and whether each of its actors is
/// known dead or has no open call.
#[derive(Clone, Copy, Debug, PartialEq, Eq)]
struct Left {
    is_starved: bool,
    answers: [Said; 3],
    is_through: bool,
}

/// A case by its name: whether the caller may have one call to the first actor without an answer,
/// its plan, what the executors of both actors do, the answers that it is left with, and how many
/// calls each actor ran.
#[derive(Clone, Copy)]
struct Row {
    name: &'static str,
    is_limited: bool,
    plan: &'static [Do],
    one: Script,
    other: Script,
    answers: [Said; 3],
    ran: [usize; 2],
}

#[rattlefmt::skip]
static AGAINST_ONE: [Row; 5] = [
    Row { name: "await_holds", is_limited: false, plan: &[Add(1), Await(0), Kill(1)],
        one: Script(&[Take, SeesNoKill, Run(1), TakeKill], false), other: Script(&[Take], true),
        answers: [Number(1), Nothing, Nothing], ran: [1, 0] },
    Row { name: "repeated_reply", is_limited: false, plan: &[Add(1), Add(1)],
        one: Script(&[Take, Take, Run(2), Run(0)], false), other: Script(&[Take], true),
        answers: [Number(1), Died, Nothing], ran: [2, 0] },
    // Both calls are posted, and then the note with their number, else the actor would not retire.
    Row { name: "ends_with_all_answered", is_limited: false, plan: &[Add(1), Add(1)],
        one: Script(&[Take, Take, Take, Run(1), Run(1)], true), other: Script(&[Take], true),
        answers: [Number(1), Number(2), Nothing], ran: [2, 0] },
    // The actor takes no call before it gave the reply of the one before, and a limit of 1 lets none be submitted
    // before that reply is collected: none is refused for it.
    Row { name: "limit_waits_for_answers", is_limited: true, plan: &[Add(1), Add(1), Add(1)],
        one: Script(&[Take, Run(1), Take, Run(1), Take, Run(1), Take], true), other: Script(&[Take], true),
        answers: [Number(1), Number(2), Number(3)], ran: [3, 0] },
    // The death of the actor answers the call before, and makes room for the next.
    Row { name: "limit_ends_with_the_actor", is_limited: true, plan: &[Add(1), Add(1)],
        one: Script(&[Take], false), other: Script(&[Take], true),
        answers: [Died, Died, Nothing], ran: [0, 0] },
];

/// The first actor's handle is let go, and its note posted, before the call of the second, else the first would not
/// retire.
#[rattlefmt::skip]
static OF_EACH: Row = Row { name: "one_call_of_each_actor", is_limited: false,
    plan: &[Add(1), Await(0), Release(1), Add(2)], one: Script(&[Attend], true), other: Script(&[Attend], true),
    answers: [Number(1), Number(1), Nothing], ran: [1, 1] };

fn actor_of(number: u8) -> ActorId {
    if number == 1 { actor() } else { other() }
}

/// The step `add 1`.
fn add(alloc: Global, a: ActorId) -> Result<Step, NoMemory> {
    let mut args = ListOf::new(alloc);
    args.push(Arg::Plain(Value::Int(1)))?;
    Ok(Step::Submit(a, Method::Add, args))
}

fn plan_of(alloc: Global, steps: &[Do]) -> Result<Plan, NoMemory> {
    let mut plan = Vec::new(alloc);
    for step in steps {
        plan.push(match *step {
            Add(a) => add(alloc, actor_of(a))?,
            Await(k) => Step::Await(FutureId::new(k)),
            Release(a) => Step::Release(actor_of(a)),
            Kill(a) => Step::Kill(actor_of(a)),
        })?;
    }
    Ok(plan)
}

/// The caller's plan, of which no step would be refused.
fn good_plan(rt: &impl Abort, alloc: Global, row: &Row) -> Result<Plan, NoMemory>
    ensures { IfOk result (λ plan. first_bad (1 ∷ 2 ∷ []) plan.items ≡ None) }
{
    let plan = plan_of(alloc, row.plan)?;
    assert!(rt; plan.len() < MAX_STEPS);
    let bad = bad_step(alloc, &[actor(), other()], plan.as_slice())?;
    assert!(rt; bad.is_none(), "{}", row.name);
    Ok(plan)
}

/// The caller of both actors. With a limit one of its calls to the first may have no answer.
fn owner_of(alloc: Global, is_limited: bool) -> Result<Owner, NoMemory>
    ensures { IfOk result (λ owner. owner ≡ opened_under owner.limits 1 (1 ∷ 2 ∷ [])) }
{
    if is_limited {
        Owner::open_with(alloc, caller(), &[(actor(), Some(1)), (other(), None)])
    } else {
        Owner::open(alloc, caller(), &[actor(), other()])
    }
}

fn answer_of(owner: &Owner, k: u32) -> Said {
    match owner.answer(FutureId::new(k)) {
        None => Nothing,
        Some(Ok(Value::Int(n))) => Number(*n),
        Some(Err(Fault::ActorDied)) => Died,
        Some(_) => Said::Other,
    }
}

fn is_through(owner: &Owner, a: ActorId) -> bool {
    owner.is_dead(a) || !owner.awaits(a)
}

/// Drives a plan, and tells what the caller leaves.
fn driven<R: Wait>(
    rt: &R,
    alloc: Global,
    owner: Owner,
    plan: Plan,
    lines: &CallerLines,
    passes: CallerPasses,
) -> Left
    requires owner { owner ≡ opened_under owner.limits 1 (1 ∷ 2 ∷ []) }
    requires fits { first_bad (1 ∷ 2 ∷ []) plan.items ≡ None }
    requires unused { IsUnusedCaller lines.now.mails.now lines.now.controls.now lines.now.replies.now 1 passes }
{
    let driven = drive(rt, alloc, owner, plan, lines, passes);
    let owner = &driven.owner;
    let left = Left {
        is_starved: driven.starved,
        answers: [
            answer_of(owner, 0),
            answer_of(owner, 1),
            answer_of(owner, 2),
        ],
        is_through: is_through(owner, actor()) && is_through(owner, other()),
    };
    drop(driven);
    left
}

/// Both executors do what their scripts say.
fn performed<R: Threads + Wait + Sync>(
    rt: &R,
    alloc: Global,
    lines: ExecLines,
    exec: ExecPasses,
    other_lines: ExecLines,
    other_exec: ExecPasses,
    scripts: [Script; 2],
) -> [Acted; 2]
    requires sync { IsSync R.row }
    requires first { (exec.letters.line ≡ lines.mail.now.line) × (exec.kills.line ≡ lines.control.now.line) ×
        (exec.kills.actor ≡ 1) × (exec.gives ≡ new_exec lines.replies.now.line 1) }
    requires second { (other_exec.letters.line ≡ other_lines.mail.now.line) ×
        (other_exec.kills.line ≡ other_lines.control.now.line) × (other_exec.kills.actor ≡ 2) ×
        (other_exec.gives ≡ new_exec other_lines.replies.now.line 2) }
{
    let [one, two] = scripts;
    let (first, second) = thread::join(
        rt,
        move || -> Acted
            requires { (exec.letters.line ≡ lines.mail.now.line) × (exec.kills.line ≡ lines.control.now.line) ×
                (exec.kills.actor ≡ 1) × (exec.gives ≡ new_exec lines.replies.now.line 1) }
        { perform(rt, alloc, actor(), &lines, exec, &one) },
        move || -> Acted
            requires { (other_exec.letters.line ≡ other_lines.mail.now.line) ×
                (other_exec.kills.line ≡ other_lines.control.now.line) × (other_exec.kills.actor ≡ 2) ×
                (other_exec.gives ≡ new_exec other_lines.replies.now.line 2) }
        { perform(rt, alloc, other(), &other_lines, other_exec, &two) },
    );
    [first, second]
}

/// A caller drives its plan over these lines, and both executors do what their scripts say.
fn driven_beside<R: Threads + Wait + Sync>(
    rt: &R,
    alloc: Global,
    owner: Owner,
    plan: Plan,
    pair: &Pair,
    passes: Passes,
    scripts: [Script; 2],
) -> (Left, [Acted; 2])
    requires sync { IsSync R.row }
    requires owner { owner ≡ opened_under owner.limits 1 (1 ∷ 2 ∷ []) }
    requires fits { first_bad (1 ∷ 2 ∷ []) plan.items ≡ None }
    requires caller { IsUnusedCaller pair.now.mails pair.now.controls pair.now.replies 1 passes.caller }
    requires exec { let mails = pair.now.mails in let controls = pair.now.controls in
        let exec = passes.exec in (m : MailView) (k : ControlView) →
        (exec.letters.line ≡ (slice_index_or mails 0 m).line) ×
        (exec.kills.line ≡ (slice_index_or controls 0 k).line) × (exec.kills.actor ≡ 1) ×
        (exec.gives ≡ new_exec pair.now.replies.line 1) }
    requires other_exec { let mails = pair.now.mails in let controls = pair.now.controls in
        let exec = passes.other_exec in (m : MailView) (k : ControlView) →
        (exec.letters.line ≡ (slice_index_or mails 1 m).line) ×
        (exec.kills.line ≡ (slice_index_or controls 1 k).line) × (exec.kills.actor ≡ 2) ×
        (exec.gives ≡ new_exec pair.now.replies.line 2) }
{
    let Passes {
        caller,
        exec,
        other_exec,
    } = passes;
    let lines = CallerLines {
        mails: &pair.mails,
        controls: &pair.controls,
        replies: &pair.replies,
    };
    let exec_lines = ExecLines {
        mail: &pair.mails[0],
        control: &pair.controls[0],
        replies: &pair.replies,
    };
    let other_lines = ExecLines {
        mail: &pair.mails[1],
        control: &pair.controls[1],
        replies: &pair.replies,
    };
    thread::join(
        rt,
        move || -> Left
            requires { (owner ≡ opened_under owner.limits 1 (1 ∷ 2 ∷ [])) × (first_bad (1 ∷ 2 ∷ []) plan.items ≡ None) ×
                IsUnusedCaller lines.mails.now lines.controls.now lines.replies.now 1 caller }
        { driven(rt, alloc, owner, plan, &lines, caller) },
        move || -> [Acted; 2]
            requires { ((exec.letters.line ≡ exec_lines.mail.now.line)
                × (exec.kills.line ≡ exec_lines.control.now.line) ×
                (exec.kills.actor ≡ 1) × (exec.gives ≡ new_exec exec_lines.replies.now.line 1)) ×
                ((other_exec.letters.line ≡ other_lines.mail.now.line) ×
                (other_exec.kills.line ≡ other_lines.control.now.line) × (other_exec.kills.actor ≡ 2) ×
                (other_exec.gives ≡ new_exec other_lines.replies.now.line 2)) }
        {
            performed(
                rt,
                alloc,
                exec_lines,
                exec,
                other_lines,
                other_exec,
                scripts,
            )
        },
    )
}

/// What the caller of a row leaves, and what its executors tell.
fn joined<R: Threads + Wait + Sync + Abort>(
    rt: &R,
    alloc: Global,
    row: &Row,
) -> Result<(Left, [Acted; 2]), NoMemory>
    requires sync { IsSync R.row }
{
    let plan = good_plan(rt, alloc, row)?;
    let owner = owner_of(alloc, row.is_limited)?;
    match opened_pair(alloc) {
        Ok((pair, passes)) => {
            let told = driven_beside(rt, alloc, owner, plan, &pair, passes, [row.one, row.other]);
            drop(pair);
            Ok(told)
        }
        Err(refused) => {
            drop(owner);
            drop(plan);
            Err(refused)
        }
    }
}

/// An executor that saw what it was to see, ran so many calls, and ended as its script says.
fn wanted_of(script: Script, ran: usize) -> Acted {
    Acted {
        is_right: true,
        ran,
        retired: script.1,
    }
}

fn play<R: Threads + Wait + Sync + Abort>(rt: &R, alloc: Global, row: &Row) -> Result<(), NoMemory>
    requires sync { IsSync R.row }
{
    let told = joined(rt, alloc, row)?;
    let left = Left {
        is_starved: false,
        answers: row.answers,
        is_through: true,
    };
    let acted = [
        wanted_of(row.one, row.ran[0]),
        wanted_of(row.other, row.ran[1]),
    ];
    assert_is(rt, row.name, &told, &(left, acted));
    Ok(())
}

#[test]
fn plans_against_one_actor(rt: HostRuntime) -> Result<(), Fail> {
    for row in &AGAINST_ONE {
        play(&rt, rt.alloc(), row)?;
    }
    Ok(())
}

#[test]
fn one_call_of_each_actor(rt: HostRuntime) -> Result<(), Fail> {
    play(&rt, rt.alloc(), &OF_EACH)?;
    Ok(())
}

/// An answer of a caller, which has none for a call that it couldn't submit or send.
fn is_fair(said: Said, is_starved: bool) -> bool {
    match said {
        Number(n) => n == 1,
        Died => true,
        Nothing => is_starved,
        Said::Other => false,
    }
}

/// Where a request for memory is refused, a caller ends all the same, and awaits nothing of an actor
/// that isn't dead.
#[test]
fn refused_memory_starves(rt: HostRuntime) -> Result<(), Fail> {
    let (left, _) = joined(&rt, rt.alloc(), &OF_EACH)?;
    let are_fair = is_fair(left.answers[0], left.is_starved)
        && is_fair(left.answers[1], left.is_starved);
    assert_is(
        &rt,
        "a starved caller",
        &(left.is_through, are_fair),
        &(true, true),
    );
    Ok(())
}
