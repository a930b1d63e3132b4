//! What was read of a history, as what is told of an end.

use crate::history::{Call, Caller, Ending, History, Kept, Ran, Served};
use act_rules::Step;
use act_types::{CallerId, CopyOf, NoMemory};
use act_walks::{Left, ToldActor, ToldCall, ToldCaller, ToldEnd, ToldRun};
use std::alloc::Global;

/// What is told of a call's answer. One that is left open is its reply where it ran, or the death of which a
/// later call took the failure.
fn left_of(call: &Call) -> Left {
    if call.is_open() {
        Left::Open
    } else if call.has_died() {
        Left::Death
    } else {
        Left::Reply
    }
}

/// A thing of which an end tells.
trait Tell {
    type Told: Drop;

    /// What is told of it.
    fn told(&self, alloc: Global) -> Result<Self::Told, NoMemory>;
}

/// What is told of each.
fn told_each<T: Tell>(alloc: Global, things: &[T]) -> Result<Vec<T::Told>, NoMemory> {
    let mut told = Vec::new(alloc);
    for thing in things {
        told.push(thing.told(alloc)?)?;
    }
    Ok(told)
}

impl Tell for Call {
    type Told = ToldCall;

    fn told(&self, alloc: Global) -> Result<ToldCall, NoMemory> {
        let args = self.args.copy_of(alloc)?;
        Ok(ToldCall {
            actor: self.actor,
            method: self.method,
            args,
            left: left_of(self),
            is_open: matches!(&self.kept, Kept::Something),
            place: self.first_place(),
            failed: self.failed,
        })
    }
}

impl Tell for Caller {
    type Told = ToldCaller;

    /// One that awaits is bound to its steps, which are still to be added.
    fn told(&self, alloc: Global) -> Result<ToldCaller, NoMemory> {
        let calls = told_each(alloc, &self.calls)?;
        let steps = if self.awaits {
            Some(Vec::new(alloc))
        } else {
            None
        };
        Ok(ToldCaller {
            calls,
            steps,
            has_lines: self.has_plan,
        })
    }
}

impl Tell for Ran {
    type Told = ToldRun;

    fn told(&self, alloc: Global) -> Result<ToldRun, NoMemory> {
        let args = self.item.args.copy_of(alloc)?;
        Ok(ToldRun {
            caller: self.item.caller,
            future: self.item.future,
            method: self.item.method,
            args,
        })
    }
}

impl Tell for Served {
    type Told = ToldActor;

    fn told(&self, alloc: Global) -> Result<ToldActor, NoMemory> {
        let callers = Vec::from_slice(alloc, &self.callers)?;
        let runs = told_each(alloc, &self.log)?;
        Ok(ToldActor {
            callers,
            runs,
            is_dead: self.ending == Ending::Dead,
            is_retired: self.ending == Ending::Retired,
        })
    }
}

fn copied_step(alloc: Global, step: &Step) -> Result<Step, NoMemory> {
    match step {
        Step::Submit(actor, method, args) => {
            Ok(Step::Submit(*actor, *method, args.copy_of(alloc)?))
        }
        Step::Copy(actor) => Ok(Step::Copy(*actor)),
        Step::Release(actor) => Ok(Step::Release(*actor)),
        Step::Kill(actor) => Ok(Step::Kill(*actor)),
        Step::Await(future) => Ok(Step::Await(*future)),
    }
}

/// Adds a step to those of its caller, where it is bound to them.
fn add_step(
    alloc: Global,
    callers: &mut Vec<ToldCaller>,
    c: CallerId,
    step: &Step,
) -> Result<(), NoMemory> {
    if let Some(caller) = callers.get_mut(c.number() as usize)
        && let Some(steps) = &mut caller.steps
    {
        steps.push(copied_step(alloc, step)?)?;
    }
    Ok(())
}

/// Adds the steps of the callers that are bound to theirs.
fn add_steps(
    alloc: Global,
    callers: &mut Vec<ToldCaller>,
    steps: &[(CallerId, Step, u32)],
) -> Result<(), NoMemory> {
    for (caller, step, _) in steps {
        add_step(alloc, callers, *caller, step)?;
    }
    Ok(())
}

/// What is told of the callers, with the steps of those that are bound to theirs.
fn bound_callers(
    alloc: Global,
    callers: &[Caller],
    steps: &[(CallerId, Step, u32)],
) -> Result<Vec<ToldCaller>, NoMemory> {
    let mut told = told_each(alloc, callers)?;
    match add_steps(alloc, &mut told, steps) {
        Ok(()) => Ok(told),
        Err(error) => {
            drop(told);
            Err(error)
        }
    }
}

/// What the history tells of an end, with the steps of its script for the callers that await. An answer
/// that is left open is taken for a reply where the call ran, unless its failure was taken.
pub(crate) fn told_end(
    alloc: Global,
    history: &History,
    steps: &[(CallerId, Step, u32)],
) -> Result<ToldEnd, NoMemory> {
    let callers = bound_callers(alloc, &history.callers, steps)?;
    match told_each(alloc, &history.actors) {
        Ok(actors) => Ok(ToldEnd { callers, actors }),
        Err(error) => {
            drop(callers);
            Err(error)
        }
    }
}
