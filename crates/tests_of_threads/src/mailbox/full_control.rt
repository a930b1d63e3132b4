//! A control line that is filled and emptied.

ghost use Rattle.std.specs.Prelude.{◌≡◌, ◌<◌, ◌≤◌, IfOk};

use act_actor::Live;
use act_kinds::{Actor, Counter};
use act_mailbox::{Control, ControlCaller, ControlExec};
use act_types::{ActorId, CallerId, FutureId, KillNote, Method, NoMemory, Packet, SmallList};
use std::alloc::Global;
use std::process::Abort;
use std::sync::Wait;
use std::test::Fail;

/// A note, told from others by its number.
fn kill_note(number: u8) -> KillNote
    requires { number < 128 }
{
    KillNote {
        caller: CallerId::new(1 + number % 16).unwrap(),
        actor: ActorId::new(1 + number / 16).unwrap(),
    }
}

/// How many kills are taken in, until the next one is handed back.
fn accepted<R: Wait>(rt: &R, control: &Control, pass: &mut ControlCaller) -> Option<u8>
    requires { pass.old.line ≡ control.now.line }
    ensures { pass.new.line ≡ control.now.line }
{
    for number in 0..128 {
        if let Err(back) = control.ask(rt, pass, kill_note(number)) {
            return (back == kill_note(number)).then_some(number);
        }
    }
    None
}

/// Whether the next kills are those of these numbers, in order.
fn are_next<R: Wait>(
    rt: &R,
    control: &Control,
    pass: &mut ControlExec,
    live: &Live<Counter>,
    from: u8,
    end: u8,
) -> bool
    requires pass { pass.old.line ≡ control.now.line }
    requires actor { live.now.id ≡ pass.old.actor }
    requires few { end ≤ 128 }
    ensures pass { pass.new.line ≡ control.now.line }
    ensures actor { pass.new.actor ≡ pass.old.actor }
{
    for number in from..end {
        if control.take(rt, pass, live) != Some(kill_note(number)) {
            return false;
        }
    }
    true
}

/// The actor runs this call of the caller.
fn run_call(live: &mut Live<Counter>, call: Packet) -> Result<(), NoMemory> {
    let caller = call.caller;
    if let Err(back) = live.arrive(call) {
        drop(back);
        return Err(NoMemory);
    }
    let reply = live.run(caller)?;
    drop(reply);
    Ok(())
}

/// The actor runs so many calls of the caller.
fn run_calls(
    alloc: Global,
    live: &mut Live<Counter>,
    caller: CallerId,
    count: u32,
) -> Result<(), NoMemory> {
    for number in 0..count {
        let call = Packet {
            caller,
            actor: live.id(),
            number,
            future: FutureId::new(number),
            method: Method::Get,
            args: SmallList::new(alloc),
        };
        run_call(live, call)?;
    }
    Ok(())
}

/// An actor that ran so many calls of the caller.
fn after_calls(
    alloc: Global,
    actor: ActorId,
    caller: CallerId,
    count: u32,
) -> Result<Live<Counter>, NoMemory> {
    let mut live = Live::open(alloc, actor, &[caller], Counter::open())?;
    match run_calls(alloc, &mut live, caller, count) {
        Ok(()) => Ok(live),
        Err(refused) => {
            drop(live);
            Err(refused)
        }
    }
}

/// The control line of actor 1 and caller 2, the passes of the caller and of the starter, and the
/// executor's.
fn opened(alloc: Global) -> Result<(Control, ControlCaller, ControlCaller, ControlExec), NoMemory>
    ensures caller { IfOk result (λ opened. opened.1.line ≡ opened.0.line) }
    ensures starter { IfOk result (λ opened. opened.2.line ≡ opened.0.line) }
    ensures executor { IfOk result (λ opened. (opened.3.line ≡ opened.0.line) × (opened.3.actor ≡ 1)) }
{
    let actor = ActorId::new(1).unwrap();
    let caller = CallerId::new(2).unwrap();
    let (control, mut passes, starter, executor) = Control::open(alloc, actor, &[caller])?;
    Ok((control, passes.pop().unwrap(), starter, executor))
}

/// The actor is actor 1, which ran so many calls.
fn assert_ran<R: Abort>(rt: &R, live: &Live<Counter>, count: u32)
    ensures { live.now.id ≡ 1 }
{
    assert_eq!(rt; live.id(), ActorId::new(1).unwrap());
    assert_eq!(rt; live.log().len(), count as usize);
}

/// There is no kill.
fn assert_none<R: Wait + Abort>(
    rt: &R,
    control: &Control,
    pass: &mut ControlExec,
    live: &Live<Counter>,
)
    requires pass { pass.old.line ≡ control.now.line }
    requires actor { live.now.id ≡ pass.old.actor }
    ensures { (pass.new.line ≡ pass.old.line) × (pass.new.actor ≡ pass.old.actor) }
{
    assert_eq!(rt; control.take(rt, pass, live), None);
}

/// The kill of this number is taken in.
fn assert_asked<R: Wait + Abort>(rt: &R, control: &Control, pass: &mut ControlCaller, number: u8)
    requires pass { pass.old.line ≡ control.now.line }
    requires few { number < 128 }
    ensures { pass.new.line ≡ pass.old.line }
{
    assert_eq!(rt; control.ask(rt, pass, kill_note(number)), Ok(()));
}

/// The kills of these numbers come in order, and leave so many in the line.
fn assert_next<R: Wait + Abort>(
    rt: &R,
    control: &Control,
    asker: &mut ControlCaller,
    executor: &mut ControlExec,
    live: &Live<Counter>,
    numbers: (u8, u8),
    left: usize,
)
    requires asker { asker.old.line ≡ control.now.line }
    requires pass { executor.old.line ≡ control.now.line }
    requires actor { live.now.id ≡ executor.old.actor }
    requires few { numbers.1 ≤ 128 }
    ensures asker { asker.new ≡ asker.old }
    ensures pass { (executor.new.line ≡ executor.old.line) × (executor.new.actor ≡ executor.old.actor) }
{
    let (from, end) = numbers;
    assert!(rt;
        are_next(rt, control, executor, live, from, end),
        "from {from}"
    );
    assert_eq!(rt; control.audit(rt, asker, executor), left, "from {from}");
}

/// A kill is taken at this length of the log, and only once it was asked.
fn assert_killed_after<R: Wait + Abort>(
    rt: &R,
    alloc: Global,
    control: &Control,
    pass: &mut ControlCaller,
    executor: &mut ControlExec,
    count: u32,
) -> Result<(), NoMemory>
    requires pass { pass.old.line ≡ control.now.line }
    requires executor { (executor.old.line ≡ control.now.line) × (executor.old.actor ≡ 1) }
    ensures pass { pass.new.line ≡ pass.old.line }
    ensures executor { (executor.new.line ≡ executor.old.line) × (executor.new.actor ≡ executor.old.actor) }
{
    let actor = ActorId::new(1).unwrap();
    let caller = CallerId::new(2).unwrap();
    let live = after_calls(alloc, actor, caller, count)?;
    assert_ran(rt, &live, count);
    assert_none(rt, control, executor, &live);
    assert_asked(rt, control, pass, 0);
    assert!(rt;
        are_next(rt, control, executor, &live, 0, 1),
        "after {count}"
    );
    drop(live);
    Ok(())
}

/// A kill is taken at each of the first lengths of the log.
fn assert_kills_taken<R: Wait + Abort>(
    rt: &R,
    alloc: Global,
    control: &Control,
    pass: &mut ControlCaller,
    executor: &mut ControlExec,
) -> Result<(), NoMemory>
    requires pass { pass.old.line ≡ control.now.line }
    requires executor { (executor.old.line ≡ control.now.line) × (executor.old.actor ≡ 1) }
{
    for count in 0..4 {
        assert_killed_after(rt, alloc, control, pass, executor, count)?;
    }
    Ok(())
}

/// A kill is taken at each length of the log.
#[test]
fn kills_after_calls(rt: HostRuntime) -> Result<(), Fail> {
    let (control, mut pass, starter, mut executor) = opened(rt.alloc())?;
    drop(starter);
    let done = assert_kills_taken(&rt, rt.alloc(), &control, &mut pass, &mut executor);
    drop(control);
    drop(pass);
    drop(executor);
    done?;
    Ok(())
}

/// The line fills up with the caller's kills.
fn assert_filled<R: Wait + Abort>(
    rt: &R,
    control: &Control,
    pass: &mut ControlCaller,
    executor: &mut ControlExec,
)
    requires pass { pass.old.line ≡ control.now.line }
    requires executor { executor.old.line ≡ control.now.line }
    ensures pass { pass.new.line ≡ pass.old.line }
    ensures executor { executor.new ≡ executor.old }
{
    assert_eq!(rt; accepted(rt, control, pass), Some(16));
    assert_eq!(rt; control.audit(rt, pass, executor), 16);
}

/// The line is empty and full again, as its passes see it.
fn assert_fills_and_empties<R: Wait + Abort>(
    rt: &R,
    control: &Control,
    pass: &mut ControlCaller,
    starter: &mut ControlCaller,
    executor: &mut ControlExec,
    live: &Live<Counter>,
)
    requires pass { pass.old.line ≡ control.now.line }
    requires starter { starter.old.line ≡ control.now.line }
    requires executor { executor.old.line ≡ control.now.line }
    requires actor { live.now.id ≡ executor.old.actor }
{
    assert_none(rt, control, executor, live);
    assert_filled(rt, control, pass, executor);
    assert_next(rt, control, pass, executor, live, (0, 1), 15);
    assert_asked(rt, control, starter, 16);
    assert_next(rt, control, starter, executor, live, (1, 9), 8);
    assert_next(rt, control, starter, executor, live, (9, 17), 0);
    assert_none(rt, control, executor, live);
    assert_next(rt, control, starter, executor, live, (17, 17), 0);
}

/// The line is actor 1's, and the passes are the starter's and caller 2's.
fn assert_names(rt: &impl Abort, control: &Control, pass: &ControlCaller, starter: &ControlCaller) {
    assert_eq!(rt;
        (control.actor().number(), starter.number(), pass.number()),
        (1, 0, 2)
    );
}

#[test]
fn full_and_empty(rt: HostRuntime) -> Result<(), Fail> {
    let actor = ActorId::new(1).unwrap();
    let caller = CallerId::new(2).unwrap();
    let live = Live::open(rt.alloc(), actor, &[caller], Counter::open())?;
    let (control, mut pass, mut starter, mut executor) = match opened(rt.alloc()) {
        Ok(opened) => opened,
        Err(refused) => {
            drop(live);
            return Err(refused.into());
        }
    };
    assert_names(&rt, &control, &pass, &starter);
    assert_fills_and_empties(&rt, &control, &mut pass, &mut starter, &mut executor, &live);
    drop(live);
    drop(control);
    drop(pass);
    drop(starter);
    drop(executor);
    Ok(())
}
