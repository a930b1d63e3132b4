//! How a world ends, as a report has it.

use act_kinds::{Actor, Boxed};
use act_owner::Owner;
use act_rules::RunItem;
use act_types::{ActorId, Answer, CallerId, FutureId, NoMemory, Settled};
use act_world::{Stage, World};
use std::alloc::Global;

fn push_answer(text: &mut String, answer: Option<&Answer>) -> Result<(), NoMemory> {
    match answer {
        None => writeln!(text, " ?")?,
        Some(Ok(value)) => writeln!(text, " = {value}")?,
        Some(Err(fault)) => writeln!(text, " = {fault}")?,
    }
    Ok(())
}

/// Adds a caller's calls, each with its answer.
fn push_calls(text: &mut String, owner: &Owner) -> Result<(), NoMemory> {
    let caller = owner.id();
    for place in 0..owner.count() {
        let k = FutureId::new(place);
        if let Some(call) = owner.call(k) {
            let actor = call.actor;
            write!(text, "{caller}.{k} {actor}")?;
        }
        push_answer(text, owner.answer(k))?;
    }
    Ok(())
}

fn push_args(text: &mut String, args: &[Settled]) -> Result<(), NoMemory> {
    for arg in args {
        write!(text, " {arg}")?;
    }
    text.push('\n')?;
    Ok(())
}

/// Adds what an actor ran.
fn push_log(text: &mut String, actor: ActorId, log: &[RunItem]) -> Result<(), NoMemory> {
    text.push('\n')?;
    for (place, item) in log.iter().enumerate() {
        let caller = item.caller;
        let k = item.future;
        let method = item.method;
        write!(text, "{actor}.{place} {caller}.{k} {method}")?;
        push_args(text, item.args.as_slice())?;
    }
    Ok(())
}

/// Adds an actor's state, and what it ran.
fn push_stage(text: &mut String, actor: ActorId, stage: &Stage<Boxed>) -> Result<(), NoMemory> {
    write!(text, "{actor} ")?;
    match stage {
        Stage::Live(live) => {
            text.push_str("live ")?;
            live.state_text(text)?;
            push_log(text, actor, live.log())
        }
        Stage::Dead(dead) => {
            text.push_str("dead")?;
            push_log(text, actor, dead.log())
        }
        Stage::Retired(retired) => {
            text.push_str("retired ")?;
            retired.state_text(text)?;
            push_log(text, actor, retired.log())
        }
    }
}

fn push_callers(text: &mut String, world: &World<Boxed>, callers: &[u8]) -> Result<(), NoMemory> {
    for number in callers {
        if let Some(caller) = CallerId::new(*number) {
            if let Some(owner) = world.owner(caller) {
                push_calls(text, owner)?;
            }
        }
    }
    Ok(())
}

fn push_actors(text: &mut String, world: &World<Boxed>, actors: &[u8]) -> Result<(), NoMemory> {
    for number in actors {
        if let Some(actor) = ActorId::new(*number) {
            if let Some(stage) = world.stage(actor) {
                push_stage(text, actor, &stage)?;
            }
        }
    }
    Ok(())
}

/// How these callers and actors end.
pub(super) fn end_of(
    alloc: Global,
    world: &World<Boxed>,
    shown: (&[u8], &[u8]),
) -> Result<String, NoMemory> {
    let mut text = String::new(alloc);
    push_callers(&mut text, world, shown.0)?;
    push_actors(&mut text, world, shown.1)?;
    Ok(text)
}
