//! What is left of a run, as text: a line for each caller with its answers, and one for each actor
//! with its end and the calls of its log.

use act_executor::{Ended, Joined};
use act_kinds::{Actor, Boxed};
use act_owner::Owner;
use act_rules::RunItem;
use act_types::{ActorId, Answer, FutureId, NoMemory};
use std::alloc::Global;

fn push_answer(text: &mut String, answer: Option<&Answer>) -> Result<(), NoMemory> {
    match answer {
        None => write!(text, " ?")?,
        Some(Ok(value)) => write!(text, " {value}")?,
        Some(Err(fault)) => write!(text, " {fault}")?,
    }
    Ok(())
}

fn push_owner(text: &mut String, owner: &Owner) -> Result<(), NoMemory> {
    let caller = owner.id();
    write!(text, "{caller}:")?;
    for place in 0..owner.count() {
        push_answer(text, owner.answer(FutureId::new(place)))?;
    }
    text.push('\n')?;
    Ok(())
}

/// An actor with this word for its end, and its state where it retired.
fn push_actor(
    text: &mut String,
    actor: ActorId,
    end: &str,
    log: &[RunItem],
) -> Result<(), NoMemory> {
    write!(text, "{actor} {end}:")?;
    for item in log {
        let caller = item.caller;
        let k = item.future;
        write!(text, " {caller}.{k}")?;
    }
    text.push('\n')?;
    Ok(())
}

fn push_end(alloc: Global, text: &mut String, ended: &Ended<Boxed>) -> Result<(), NoMemory> {
    match ended {
        Ended::Killed(dead) => push_actor(text, dead.id(), "killed", dead.log()),
        Ended::Starved(dead) => push_actor(text, dead.id(), "starved", dead.log()),
        Ended::Retired(retired) => {
            let mut end = String::new(alloc);
            end.push_str("retired ")?;
            retired.state_text(&mut end)?;
            push_actor(text, retired.id(), end.as_str(), retired.log())
        }
    }
}

pub(crate) fn push_joined(
    alloc: Global,
    text: &mut String,
    joined: &Joined<Boxed>,
) -> Result<(), NoMemory> {
    for owner in &joined.owners {
        push_owner(text, owner)?;
    }
    for actor in &joined.actors {
        push_end(alloc, text, &actor.ended)?;
    }
    Ok(())
}

pub(crate) fn text_of(alloc: Global, joined: &Joined<Boxed>) -> Result<String, NoMemory> {
    let mut text = String::new(alloc);
    push_joined(alloc, &mut text, joined)?;
    Ok(text)
}
