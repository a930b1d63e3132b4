//! What callers do: their calls, or the steps that they are bound to.

ghost use Rattle.std.specs.Prelude.{IfOk};
ghost use Rattle.act_walks.specs.Walking.{parts_of, Moves, TriesStep, NoCall, NoStep, NoAct, NoActs};

use crate::fault::WalkFault;
use crate::played::{Walked, try_do, try_post};
use crate::seen::{count_calls, has_answer};
use crate::told::ToldEnd;
use act_kinds::Actor;
use act_rules::{Event, Step};
use act_types::{CallerId, CopyOf, MAX_CALLERS};

/// The caller makes its next call, if it is bound to no steps.
fn call<K: Actor>(walk: &mut Walked<K>, end: &ToldEnd, c: CallerId) -> Result<bool, WalkFault>
    ensures { IfOk result
        (Moves end.now (NoCall end.now c) (parts_of K.state walk.old) (parts_of K.state walk.new)) }
{
    let Some(caller) = end.callers.get(c.number() as usize) else {
        return Ok(false);
    };
    if caller.steps.is_some() {
        return Ok(false);
    }
    let Some(call) = caller.calls.get(count_calls(&walk.world, c)) else {
        return Ok(false);
    };
    let args = call.args.copy_of(*walk.events.allocator())?;
    let moved = try_do(walk, Event::Submit(c, call.actor, call.method, args))?;
    Ok(moved)
}

/// The caller does what the step says, but for counting it. An await is over once its answer is
/// there.
fn do_step<K: Actor>(walk: &mut Walked<K>, c: CallerId, step: &Step) -> Result<bool, WalkFault>
    ensures { IfOk result (TriesStep c step.now (parts_of K.state walk.old) (parts_of K.state walk.new)) }
{
    match step {
        Step::Submit(a, method, args) => {
            let args = args.copy_of(*walk.events.allocator())?;
            try_do(walk, Event::Submit(c, *a, *method, args))
        }
        Step::Copy(a) => try_do(walk, Event::Copy(c, *a)),
        Step::Release(a) => try_post(walk, Event::Release(c, *a)),
        Step::Kill(a) => try_do(walk, Event::AskKill(c, *a)),
        Step::Await(k) => Ok(has_answer(&walk.world, c, *k)),
    }
}

/// The caller takes its next step, if it is bound to steps.
fn step<K: Actor>(walk: &mut Walked<K>, end: &ToldEnd, c: CallerId) -> Result<bool, WalkFault>
    ensures { IfOk result
        (Moves end.now (NoStep end.now c) (parts_of K.state walk.old) (parts_of K.state walk.new)) }
{
    let slot = c.number() as usize;
    let Some(caller) = end.callers.get(slot) else {
        return Ok(false);
    };
    let Some(steps) = &caller.steps else {
        return Ok(false);
    };
    let done = walk.done[slot];
    let Some(step) = steps.get(done) else {
        return Ok(false);
    };
    if !do_step(walk, c, step)? {
        return Ok(false);
    }
    walk.done[slot] = done + 1;
    Ok(true)
}

/// The caller makes its next call, or takes its next step.
fn act<K: Actor>(walk: &mut Walked<K>, end: &ToldEnd, c: CallerId) -> Result<bool, WalkFault>
    ensures { IfOk result
        (Moves end.now (NoAct end.now c) (parts_of K.state walk.old) (parts_of K.state walk.new)) }
{
    if call(walk, end, c)? {
        return Ok(true);
    }
    let moved = step(walk, end, c)?;
    Ok(moved)
}

/// The caller goes on as far as it can.
fn act_far<K: Actor>(walk: &mut Walked<K>, end: &ToldEnd, c: CallerId) -> Result<bool, WalkFault>
    ensures { IfOk result
        (Moves end.now (NoAct end.now c) (parts_of K.state walk.old) (parts_of K.state walk.new)) }
{
    let mut moved = false;
    for _ in 0..u32::MAX {
        if !act(walk, end, c)? {
            return Ok(moved);
        }
        moved = true;
    }
    Err(WalkFault::Stuck)
}

/// Each caller goes on as far as it can.
pub(crate) fn act_all<K: Actor>(walk: &mut Walked<K>, end: &ToldEnd) -> Result<bool, WalkFault>
    ensures { IfOk result
        (Moves end.now (NoActs end.now MAX_CALLERS) (parts_of K.state walk.old) (parts_of K.state walk.new)) }
{
    let mut moved = false;
    for before in 0..MAX_CALLERS {
        let c = CallerId::new(before + 1).unwrap();
        moved |= act_far(walk, end, c)?;
    }
    Ok(moved)
}
