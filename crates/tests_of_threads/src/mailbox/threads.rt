//! Two callers and an executor, in a thread each.

ghost use Rattle.std.specs.Prelude.{◌≡◌, ◌<◌, [], ◌∷◌, IfOk};
ghost use Rattle.std.specs.Thread.{IsSync};
ghost use Rattle.act_mailbox.specs.Mails.{caller_of};

use super::full_mail::letter;
use act_mailbox::{Letter, Mail, MailCaller, MailExec};
use act_types::{ActorId, CallerId, NoMemory};
use std::alloc::Global;
use std::process::Abort;
use std::sync::Wait;
use std::test::Fail;
use std::thread;
use std::thread::Threads;

/// Posts one letter, and tries again while the line is full.
fn post_one<R: Wait>(rt: &R, mail: &Mail, pass: &mut MailCaller, mut letter: Letter)
    requires pass { pass.old.line ≡ mail.now.line }
    requires caller { caller_of letter ≡ pass.old.number }
    ensures { (pass.new.line ≡ pass.old.line) × (pass.new.number ≡ pass.old.number) }
{
    for _ in rt.forever() {
        match mail.post(rt, pass, letter) {
            Ok(()) => return,
            Err(back) => letter = back,
        }
        thread::yield_now();
    }
    unreachable!()
}

/// Posts letters 0, 1, .. of the caller.
fn post_all<R: Wait>(
    rt: &R,
    alloc: Global,
    mail: &Mail,
    mut pass: MailCaller,
    caller: CallerId,
    count: u32,
) -> MailCaller
    requires pass { pass.line ≡ mail.now.line }
    requires caller { pass.number ≡ caller }
    ensures { result.line ≡ mail.now.line }
{
    for number in 0..count {
        post_one(rt, mail, &mut pass, letter(alloc, caller, number));
    }
    pass
}

/// Takes one letter, and tries again while the line is empty.
fn take_one<R: Wait>(rt: &R, mail: &Mail, pass: &mut MailExec) -> Letter
    requires { pass.old.line ≡ mail.now.line }
    ensures { pass.new.line ≡ pass.old.line }
{
    for _ in rt.forever() {
        if let Some(letter) = mail.take(rt, pass) {
            return letter;
        }
        thread::yield_now();
    }
    unreachable!()
}

/// Takes so many letters, and counts those that come in order of each of the two callers.
fn take_all<R: Wait>(
    rt: &R,
    alloc: Global,
    mail: &Mail,
    mut pass: MailExec,
    callers: [CallerId; 2],
    count: u32,
) -> (MailExec, [u32; 2])
    requires { pass.line ≡ mail.now.line }
    ensures { result.0.line ≡ mail.now.line }
{
    let [first, second] = callers;
    let mut in_order = [0u32; 2];
    for _ in 0..count {
        let taken = take_one(rt, mail, &mut pass);
        if taken == letter(alloc, first, in_order[0]) {
            in_order[0] = in_order[0].wrapping_add(1);
        } else if taken == letter(alloc, second, in_order[1]) {
            in_order[1] = in_order[1].wrapping_add(1);
        }
    }
    (pass, in_order)
}

/// Both callers post, in a thread each.
fn both_post<R: Threads + Wait + Sync>(
    rt: &R,
    alloc: Global,
    mail: &Mail,
    first: MailCaller,
    second: MailCaller,
    callers: [CallerId; 2],
    count: u32,
) -> (MailCaller, MailCaller)
    requires sync { IsSync R.row }
    requires passes { (first.line ≡ mail.now.line) × (second.line ≡ mail.now.line) }
    requires callers { callers ≡ first.number ∷ second.number ∷ [] }
    ensures { (result.0.line ≡ mail.now.line) × (result.1.line ≡ mail.now.line) }
{
    let [one, two] = callers;
    thread::join(
        rt,
        move || -> MailCaller
            requires { (first.line ≡ mail.now.line) × (first.number ≡ one) }
            ensures { result.line ≡ mail.entry.now.line }
        { post_all(rt, alloc, mail, first, one, count) },
        move || -> MailCaller
            requires { (second.line ≡ mail.now.line) × (second.number ≡ two) }
            ensures { result.line ≡ mail.entry.now.line }
        { post_all(rt, alloc, mail, second, two, count) },
    )
}

/// Both callers post while the executor takes.
fn network<R: Threads + Wait + Sync>(
    rt: &R,
    alloc: Global,
    mail: &Mail,
    passes: (MailCaller, MailCaller),
    executor: MailExec,
    callers: [CallerId; 2],
    count: u32,
) -> ((MailCaller, MailCaller), (MailExec, [u32; 2]))
    requires sync { IsSync R.row }
    requires passes { (passes.0.line ≡ mail.now.line) × (passes.1.line ≡ mail.now.line) }
    requires callers { callers ≡ passes.0.number ∷ passes.1.number ∷ [] }
    requires executor { executor.line ≡ mail.now.line }
    requires few { count < 1000 }
    ensures passes { (result.0.0.line ≡ mail.now.line) × (result.0.1.line ≡ mail.now.line) }
    ensures executor { result.1.0.line ≡ mail.now.line }
{
    let (first, second) = passes;
    let total = 2 * count;
    thread::join(
        rt,
        move || -> (MailCaller, MailCaller)
            requires sync { IsSync R.row }
            requires passes { (first.line ≡ mail.now.line) × (second.line ≡ mail.now.line) }
            requires callers { callers ≡ first.number ∷ second.number ∷ [] }
            ensures { (result.0.line ≡ mail.entry.now.line) × (result.1.line ≡ mail.entry.now.line) }
        { both_post(rt, alloc, mail, first, second, callers, count) },
        move || -> (MailExec, [u32; 2])
            requires { executor.line ≡ mail.now.line }
            ensures { result.0.line ≡ mail.entry.now.line }
        { take_all(rt, alloc, mail, executor, callers, total) },
    )
}

/// The mail line of actor 1 and callers 1 and 2, the callers' passes, and the executor's.
fn opened(alloc: Global) -> Result<(Mail, (MailCaller, MailCaller), MailExec), NoMemory>
    ensures first { IfOk result (λ opened. (opened.1.0.line ≡ opened.0.line) × (opened.1.0.number ≡ 1)) }
    ensures second { IfOk result (λ opened. (opened.1.1.line ≡ opened.0.line) × (opened.1.1.number ≡ 2)) }
    ensures executor { IfOk result (λ opened. opened.2.line ≡ opened.0.line) }
{
    let callers = [CallerId::new(1).unwrap(), CallerId::new(2).unwrap()];
    let (mail, mut passes, executor) = Mail::open(alloc, ActorId::new(1).unwrap(), &callers)?;
    let second = passes.pop().unwrap();
    let first = passes.pop().unwrap();
    Ok((mail, (first, second), executor))
}

/// The line is empty, as this caller and the executor see it.
fn assert_empty<R: Wait + Abort>(
    rt: &R,
    mail: &Mail,
    caller: &mut MailCaller,
    executor: &mut MailExec,
)
    requires caller { caller.old.line ≡ mail.now.line }
    requires executor { executor.old.line ≡ mail.now.line }
    ensures executor { executor.new ≡ executor.old }
{
    assert_eq!(rt; mail.audit(rt, caller, executor), 0);
}

#[test]
fn mail_two_threads(rt: HostRuntime) -> Result<(), Fail> {
    let callers = [CallerId::new(1).unwrap(), CallerId::new(2).unwrap()];
    let alloc = rt.alloc();
    let (mail, passes, executor) = opened(alloc)?;
    let (posted, taken) = network(&rt, alloc, &mail, passes, executor, callers, 200);
    let (mut first, mut second) = posted;
    let (mut executor, in_order) = taken;
    assert_eq!(rt; in_order, [200, 200]);
    assert_empty(&rt, &mail, &mut first, &mut executor);
    assert_empty(&rt, &mail, &mut second, &mut executor);
    drop(mail);
    drop(first);
    drop(second);
    drop(executor);
    Ok(())
}
