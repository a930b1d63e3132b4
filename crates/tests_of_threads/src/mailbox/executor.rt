//! An executor in a thread of its own, and the caller that asks the kill of its actor.

ghost use Rattle.std.specs.Prelude.{◌≡◌, IfOk};
ghost use Rattle.std.specs.Thread.{IsSync};
ghost use Rattle.act_mailbox.specs.Notices.{new_exec};

use act_actor::Live;
use act_kinds::{Actor, Counter};
use act_mailbox::{Control, ControlCaller, ControlExec, Replies, ReplyCaller, ReplyExec};
use act_rules::RunItem;
use act_types::{ActorId, CallerId, KillNote, NoMemory, Notice};
use std::alloc::Global;
use std::process::Abort;
use std::sync::Wait;
use std::test::Fail;
use std::thread;
use std::thread::Threads;

/// The passes that an executor takes into its thread.
#[derive(Drop)]
struct ExecPasses {
    kills: ControlExec,
    notices: ReplyExec,
}

/// The passes that a caller takes into its thread.
#[derive(Drop)]
struct CallerPasses {
    kills: ControlCaller,
    notices: ReplyCaller,
}

/// Looks for a kill until there is one.
fn take_kill<R: Wait, K: Actor>(
    rt: &R,
    control: &Control,
    pass: &mut ControlExec,
    live: &Live<K>,
) -> KillNote
    requires pass { pass.old.line ≡ control.now.line }
    requires actor { live.now.id ≡ pass.old.actor }
    ensures { pass.new.line ≡ pass.old.line }
{
    for _ in rt.forever() {
        if let Some(note) = control.take(rt, pass, live) {
            return note;
        }
        thread::yield_now();
    }
    unreachable!()
}

/// Gives the death, and tries again while the line is full.
fn give_death<R: Wait>(
    rt: &R,
    replies: &Replies,
    pass: &mut ReplyExec,
    log: &[RunItem],
    actor: ActorId,
)
    requires { pass.old ≡ new_exec replies.now.line actor }
    ensures { pass.new.line ≡ pass.old.line }
{
    for _ in rt.forever() {
        if replies.give(rt, pass, log, Notice::Death(actor)).is_ok() {
            return;
        }
        thread::yield_now();
    }
    unreachable!()
}

/// Waits for a kill, and gives the death of the actor.
fn serve<R: Wait, K: Actor>(
    rt: &R,
    control: &Control,
    replies: &Replies,
    mut passes: ExecPasses,
    live: Live<K>,
) -> (ExecPasses, KillNote)
    requires kills { passes.kills.line ≡ control.now.line }
    requires actor { live.id ≡ passes.kills.actor }
    requires notices { passes.notices ≡ new_exec replies.now.line passes.kills.actor }
    ensures kills { result.0.kills.line ≡ control.now.line }
    ensures notices { result.0.notices.line ≡ replies.now.line }
{
    let note = take_kill(rt, control, &mut passes.kills, &live);
    give_death(rt, replies, &mut passes.notices, live.log(), live.id());
    drop(live);
    (passes, note)
}

/// Asks the kill, and tries again while the line is full.
fn ask_kill<R: Wait>(rt: &R, control: &Control, pass: &mut ControlCaller, mut note: KillNote)
    requires { pass.old.line ≡ control.now.line }
    ensures { pass.new.line ≡ pass.old.line }
{
    for _ in rt.forever() {
        match control.ask(rt, pass, note) {
            Ok(()) => return,
            Err(back) => note = back,
        }
        thread::yield_now();
    }
    unreachable!()
}

/// Collects one notice, and tries again while the line is empty.
fn collect_one<R: Wait>(rt: &R, replies: &Replies, pass: &mut ReplyCaller) -> Notice
    requires { pass.old.line ≡ replies.now.line }
    ensures { pass.new.line ≡ pass.old.line }
{
    for _ in rt.forever() {
        if let Some(notice) = replies.collect(rt, pass) {
            return notice;
        }
        thread::yield_now();
    }
    unreachable!()
}

/// Asks the kill, and waits for what the executor tells.
fn drive<R: Wait>(
    rt: &R,
    control: &Control,
    replies: &Replies,
    mut passes: CallerPasses,
    note: KillNote,
) -> (CallerPasses, Notice)
    requires kills { passes.kills.line ≡ control.now.line }
    requires notices { passes.notices.line ≡ replies.now.line }
    ensures kills { result.0.kills.line ≡ control.now.line }
    ensures notices { result.0.notices.line ≡ replies.now.line }
{
    ask_kill(rt, control, &mut passes.kills, note);
    let notice = collect_one(rt, replies, &mut passes.notices);
    (passes, notice)
}

/// Both, in a thread each.
fn serve_and_drive<R: Threads + Wait + Sync, K: Actor + Send>(
    rt: &R,
    control: &Control,
    replies: &Replies,
    executor: (ExecPasses, Live<K>),
    caller: (CallerPasses, KillNote),
) -> ((ExecPasses, KillNote), (CallerPasses, Notice))
    requires sync { IsSync R.row }
    requires kills { executor.0.kills.line ≡ control.now.line }
    requires actor { executor.1.id ≡ executor.0.kills.actor }
    requires notices { executor.0.notices ≡ new_exec replies.now.line executor.0.kills.actor }
    requires asker { caller.0.kills.line ≡ control.now.line }
    requires collector { caller.0.notices.line ≡ replies.now.line }
    ensures kills { result.0.0.kills.line ≡ control.now.line }
    ensures notices { result.0.0.notices.line ≡ replies.now.line }
    ensures asker { result.1.0.kills.line ≡ control.now.line }
    ensures collector { result.1.0.notices.line ≡ replies.now.line }
{
    let (exec_passes, live) = executor;
    let (caller_passes, note) = caller;
    thread::join(
        rt,
        move || -> (ExecPasses, KillNote)
            requires kills { exec_passes.kills.line ≡ control.now.line }
            requires actor { live.id ≡ exec_passes.kills.actor }
            requires notices { exec_passes.notices ≡ new_exec replies.now.line exec_passes.kills.actor }
            ensures kills { result.0.kills.line ≡ control.entry.now.line }
            ensures notices { result.0.notices.line ≡ replies.entry.now.line }
        { serve(rt, control, replies, exec_passes, live) },
        move || -> (CallerPasses, Notice)
            requires kills { caller_passes.kills.line ≡ control.now.line }
            requires notices { caller_passes.notices.line ≡ replies.now.line }
            ensures kills { result.0.kills.line ≡ control.entry.now.line }
            ensures notices { result.0.notices.line ≡ replies.entry.now.line }
        { drive(rt, control, replies, caller_passes, note) },
    )
}

/// The control line of actor 8 and caller 1, and the passes on it.
fn opened_control(alloc: Global) -> Result<(Control, ControlExec, ControlCaller), NoMemory>
    ensures executor { IfOk result (λ opened. (opened.1.line ≡ opened.0.line) × (opened.1.actor ≡ 8)) }
    ensures caller { IfOk result (λ opened. opened.2.line ≡ opened.0.line) }
{
    let actor = ActorId::new(8).unwrap();
    let caller = CallerId::new(1).unwrap();
    let (control, mut askers, starter, kills) = Control::open(alloc, actor, &[caller])?;
    drop(starter);
    Ok((control, kills, askers.pop().unwrap()))
}

/// The reply line of caller 1 and actor 8, and the passes on it.
fn opened_replies(alloc: Global) -> Result<(Replies, ReplyExec, ReplyCaller), NoMemory>
    ensures executor { IfOk result (λ opened. opened.1 ≡ new_exec opened.0.line 8) }
    ensures caller { IfOk result (λ opened. opened.2.line ≡ opened.0.line) }
{
    let actor = ActorId::new(8).unwrap();
    let caller = CallerId::new(1).unwrap();
    let (replies, mut executors, collector) = Replies::open(alloc, caller, &[actor])?;
    Ok((replies, executors.pop().unwrap(), collector))
}

/// Both lines are empty, as the passes see them.
fn assert_empty<R: Wait + Abort>(
    rt: &R,
    control: &Control,
    replies: &Replies,
    executor: &mut ExecPasses,
    asker: &mut CallerPasses,
)
    requires kills { executor.old.kills.line ≡ control.now.line }
    requires notices { executor.old.notices.line ≡ replies.now.line }
    requires asker { asker.old.kills.line ≡ control.now.line }
    requires collector { asker.old.notices.line ≡ replies.now.line }
{
    assert_eq!(rt; control.audit(rt, &mut asker.kills, &mut executor.kills), 0);
    assert_eq!(rt;
        replies.audit(rt, &mut executor.notices, &mut asker.notices),
        0
    );
}

/// The lines of actor 8 and caller 1.
#[derive(Drop)]
struct Lines {
    control: Control,
    replies: Replies,
}

/// The lines, and the passes on them.
fn opened(alloc: Global) -> Result<(Lines, ExecPasses, CallerPasses), NoMemory>
    ensures kills { IfOk result (λ opened. (opened.1.kills.line ≡ opened.0.control.line) × (opened.1.kills.actor ≡ 8)) }
    ensures notices { IfOk result (λ opened. opened.1.notices ≡ new_exec opened.0.replies.line 8) }
    ensures asker { IfOk result (λ opened. opened.2.kills.line ≡ opened.0.control.line) }
    ensures collector { IfOk result (λ opened. opened.2.notices.line ≡ opened.0.replies.line) }
{
    let (replies, notices, collector) = opened_replies(alloc)?;
    match opened_control(alloc) {
        Ok((control, kills, ask)) => {
            let asker = CallerPasses {
                kills: ask,
                notices: collector,
            };
            Ok((
                Lines { control, replies },
                ExecPasses { kills, notices },
                asker,
            ))
        }
        Err(refused) => {
            drop(replies);
            drop(notices);
            drop(collector);
            Err(refused)
        }
    }
}

/// What a run of both leaves: the kill that the executor took, and what the caller was told.
fn run_both<R: Threads + Wait + Sync + Abort>(
    rt: &R,
    lines: &Lines,
    executor: (ExecPasses, Live<Counter>),
    caller: (CallerPasses, KillNote),
) -> (KillNote, Notice)
    requires sync { IsSync R.row }
    requires kills { executor.0.kills.line ≡ lines.now.control.line }
    requires actor { executor.1.id ≡ executor.0.kills.actor }
    requires notices { executor.0.notices ≡ new_exec lines.now.replies.line executor.0.kills.actor }
    requires asker { caller.0.kills.line ≡ lines.now.control.line }
    requires collector { caller.0.notices.line ≡ lines.now.replies.line }
{
    let (served, driven) = serve_and_drive(rt, &lines.control, &lines.replies, executor, caller);
    let (mut executor, taken) = served;
    let (mut asker, told) = driven;
    assert_empty(
        rt,
        &lines.control,
        &lines.replies,
        &mut executor,
        &mut asker,
    );
    drop(executor);
    drop(asker);
    (taken, told)
}

#[test]
fn an_executor_in_a_thread(rt: HostRuntime) -> Result<(), Fail> {
    let actor = ActorId::new(8).unwrap();
    let caller = CallerId::new(1).unwrap();
    let live = Live::open(rt.alloc(), actor, &[caller], Counter::open())?;
    let (lines, executor, asker) = match opened(rt.alloc()) {
        Ok(opened) => opened,
        Err(refused) => {
            drop(live);
            return Err(refused.into());
        }
    };
    let note = KillNote { caller, actor };
    let (taken, told) = run_both(&rt, &lines, (executor, live), (asker, note));
    drop(lines);
    assert_eq!(rt; taken, note);
    assert_eq!(rt; told, Notice::Death(actor));
    drop(told);
    Ok(())
}
