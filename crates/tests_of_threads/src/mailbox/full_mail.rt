//! A mail line that is filled and emptied.

ghost use Rattle.std.specs.Prelude.{◌≡◌, IfOk};
ghost use Rattle.act_mailbox.specs.Mails.{caller_of};

use act_mailbox::{Letter, Mail, MailCaller, MailExec};
use act_types::{ActorId, CallerId, FutureId, Method, NoMemory, Packet, ReleaseNote, SmallList};
use std::alloc::Global;
use std::process::Abort;
use std::sync::Wait;
use std::test::Fail;

/// A letter of the caller, told from others by its number: a call where that is even, and else a
/// note.
pub(super) fn letter(alloc: Global, caller: CallerId, number: u32) -> Letter
    ensures { caller_of result ≡ caller }
{
    let actor = ActorId::new(1).unwrap();
    if number % 2 == 1 {
        return Letter::Note(ReleaseNote {
            caller,
            actor,
            after: number,
        });
    }
    Letter::Call(Packet {
        caller,
        actor,
        number,
        future: FutureId::new(number),
        method: Method::Get,
        args: SmallList::new(alloc),
    })
}

fn is_same(one: Letter, other: Letter) -> bool {
    let is_same = one == other;
    drop(one);
    drop(other);
    is_same
}

/// How many letters are taken in, until the next one is handed back.
fn accepted<R: Wait>(
    rt: &R,
    alloc: Global,
    mail: &Mail,
    pass: &mut MailCaller,
    caller: CallerId,
) -> Option<u32>
    requires pass { pass.old.line ≡ mail.now.line }
    requires caller { pass.old.number ≡ caller }
    ensures pass { pass.new.line ≡ mail.now.line }
    ensures caller { pass.new.number ≡ caller }
{
    for number in 0..1000 {
        if let Err(back) = mail.post(rt, pass, letter(alloc, caller, number)) {
            return is_same(back, letter(alloc, caller, number)).then_some(number);
        }
    }
    None
}

fn is_wanted(taken: Option<Letter>, wanted: Option<Letter>) -> bool {
    let is_wanted = taken == wanted;
    drop(taken);
    drop(wanted);
    is_wanted
}

/// Whether the next letter is this one, or there is none.
fn is_next<R: Wait>(rt: &R, mail: &Mail, pass: &mut MailExec, wanted: Option<Letter>) -> bool
    requires { pass.old.line ≡ mail.now.line }
    ensures { pass.new.line ≡ mail.now.line }
{
    is_wanted(mail.take(rt, pass), wanted)
}

/// The same, by an attempt. One thread alone is never before a put that isn't finished.
fn is_next_at_once(mail: &Mail, pass: &mut MailExec, wanted: Option<Letter>) -> bool
    requires { pass.old.line ≡ mail.now.line }
    ensures { pass.new.line ≡ mail.now.line }
{
    is_wanted(mail.try_take(pass), wanted)
}

/// Whether the next letters are those of these numbers, in order.
fn are_next<R: Wait>(
    rt: &R,
    alloc: Global,
    mail: &Mail,
    pass: &mut MailExec,
    caller: CallerId,
    from: u32,
    end: u32,
) -> bool
    requires { pass.old.line ≡ mail.now.line }
    ensures { pass.new.line ≡ mail.now.line }
{
    for number in from..end {
        if !is_next(rt, mail, pass, Some(letter(alloc, caller, number))) {
            return false;
        }
    }
    true
}

/// The mail line of actor 1 and callers 1 and 16, the pass of the last, and the executor's.
fn opened(alloc: Global) -> Result<(Mail, MailCaller, MailExec), NoMemory>
    ensures caller { IfOk result (λ opened. (opened.1.line ≡ opened.0.line) × (opened.1.number ≡ 16)) }
    ensures executor { IfOk result (λ opened. opened.2.line ≡ opened.0.line) }
{
    let callers = [CallerId::new(1).unwrap(), CallerId::new(16).unwrap()];
    let (mail, mut passes, executor) = Mail::open(alloc, ActorId::new(1).unwrap(), &callers)?;
    Ok((mail, passes.pop().unwrap(), executor))
}

/// The line fills up with the caller's letters.
fn assert_filled<R: Wait + Abort>(
    rt: &R,
    alloc: Global,
    mail: &Mail,
    pass: &mut MailCaller,
    executor: &mut MailExec,
    caller: CallerId,
)
    requires pass { (pass.old.line ≡ mail.now.line) × (pass.old.number ≡ caller) }
    requires executor { executor.old.line ≡ mail.now.line }
    ensures pass { (pass.new.line ≡ mail.now.line) × (pass.new.number ≡ caller) }
    ensures executor { executor.new ≡ executor.old }
{
    assert_eq!(rt; accepted(rt, alloc, mail, pass, caller), Some(64));
    assert_eq!(rt; mail.audit(rt, pass, executor), 64);
}

/// The letters of these numbers come in order, and leave so many in the line.
fn assert_next<R: Wait + Abort>(
    rt: &R,
    alloc: Global,
    mail: &Mail,
    pass: &mut MailCaller,
    executor: &mut MailExec,
    caller: CallerId,
    numbers: (u32, u32),
    left: usize,
)
    requires pass { pass.old.line ≡ mail.now.line }
    requires executor { executor.old.line ≡ mail.now.line }
    ensures pass { pass.new ≡ pass.old }
    ensures executor { executor.new.line ≡ mail.now.line }
{
    let (from, end) = numbers;
    assert!(rt;
        are_next(rt, alloc, mail, executor, caller, from, end),
        "from {from}"
    );
    assert_eq!(rt; mail.audit(rt, pass, executor), left, "from {from}");
}

/// The line is filled, emptied by one, filled again, and emptied.
fn assert_fills_and_empties<R: Wait + Abort>(
    rt: &R,
    alloc: Global,
    mail: &Mail,
    pass: &mut MailCaller,
    executor: &mut MailExec,
    caller: CallerId,
)
    requires pass { (pass.old.line ≡ mail.now.line) × (pass.old.number ≡ caller) }
    requires executor { executor.old.line ≡ mail.now.line }
{
    assert!(rt; is_next(rt, mail, executor, None));
    assert_filled(rt, alloc, mail, pass, executor, caller);
    assert_next(rt, alloc, mail, pass, executor, caller, (0, 1), 63);
    let posted = mail.post(rt, pass, letter(alloc, caller, 64));
    assert!(rt; posted.is_ok());
    drop(posted);
    assert_next(rt, alloc, mail, pass, executor, caller, (1, 33), 32);
    assert_next(rt, alloc, mail, pass, executor, caller, (33, 64), 1);
    let last = letter(alloc, caller, 64);
    assert!(rt; is_next_at_once(mail, executor, Some(last)));
    assert!(rt; is_next_at_once(mail, executor, None));
    assert!(rt; is_next(rt, mail, executor, None));
    assert_next(rt, alloc, mail, pass, executor, caller, (65, 65), 0);
}

#[test]
fn full_and_empty(rt: HostRuntime) -> Result<(), Fail> {
    let caller = CallerId::new(16).unwrap();
    let alloc = rt.alloc();
    let (mail, mut pass, mut executor) = opened(alloc)?;
    assert_eq!(rt; mail.actor(), ActorId::new(1).unwrap());
    assert_eq!(rt; pass.number(), 16);
    assert_fills_and_empties(&rt, alloc, &mail, &mut pass, &mut executor, caller);
    drop(mail);
    drop(pass);
    drop(executor);
    Ok(())
}
