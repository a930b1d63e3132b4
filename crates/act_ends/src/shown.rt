//! An end as the lines of a report, and what a view shows of it.

use crate::plans::Plans;
use crate::state::{Ran, Server, Standing, State, future_at};
use act_kinds::Actor;
use act_types::{ActorId, Answer, CallerId, NoMemory};
use std::alloc::{AllocError, Global};

/// What is looked at of an end. Ends that differ in nothing else are one.
#[derive(Clone, Copy, Debug, PartialEq, Eq)]
pub enum View {
    /// Answers, how actors ended, and run lists.
    Report,
    /// Answers, and how actors ended.
    Answers,
    /// How actors ended.
    Ends,
}

/// Adds an answer.
pub(crate) fn push_answer(text: &mut String, answer: &Answer) -> Result<(), AllocError> {
    match answer {
        Ok(value) => write!(text, "{value}"),
        Err(fault) => write!(text, "{fault}"),
    }
}

/// Adds the lines of a caller's futures.
fn push_futures(text: &mut String, state: &State, c: CallerId) -> Result<(), AllocError> {
    let Some(caller) = state.caller(c) else {
        return Ok(());
    };
    for (place, call) in caller.calls.iter().enumerate() {
        let actor = call.actor;
        write!(text, "{c}.{place} {actor} = ")?;
        if let Some(answer) = &call.answer {
            push_answer(text, answer)?;
        }
        text.push('\n')?;
    }
    Ok(())
}

/// Adds the line that tells how an actor ended.
fn push_standing(text: &mut String, a: ActorId, server: &Server) -> Result<(), NoMemory> {
    match (server.standing, &server.kind) {
        (Standing::Live, Some(kind)) => {
            write!(text, "{a} retired ")?;
            kind.state_text(text)?;
            text.push('\n')?;
        }
        _ => writeln!(text, "{a} dead")?,
    }
    Ok(())
}

/// Adds the line of a call that ran.
fn push_item(text: &mut String, a: ActorId, place: usize, ran: &Ran) -> Result<(), AllocError> {
    let caller = ran.caller;
    let future = ran.future;
    let method = ran.method;
    write!(text, "{a}.{place} {caller}.{future} {method}")?;
    for arg in &ran.args {
        write!(text, " {arg}")?;
    }
    text.push('\n')
}

/// Adds an actor's run list.
fn push_log(text: &mut String, a: ActorId, server: &Server) -> Result<(), AllocError> {
    for (place, ran) in server.log.iter().enumerate() {
        push_item(text, a, place, ran)?;
    }
    Ok(())
}

/// What the view shows of an end.
pub(crate) fn shown(
    alloc: Global,
    plans: &Plans,
    state: &State,
    view: View,
) -> Result<String, NoMemory> {
    let mut text = String::new(alloc);
    if view != View::Ends {
        for setup in &plans.setups {
            push_futures(&mut text, state, setup.caller)?;
        }
    }
    for cast in &plans.casts {
        if let Some(server) = state.actor(cast.actor) {
            push_standing(&mut text, cast.actor, server)?;
            if view == View::Report {
                push_log(&mut text, cast.actor, server)?;
            }
        }
    }
    Ok(text)
}
