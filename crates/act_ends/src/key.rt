//! What tells states apart: two states with the same key have the same ends, as the view shows them.

use crate::plans::Plans;
use crate::shown::{View, push_answer};
use crate::state::{Server, Standing, State, future_at};
use act_kinds::Actor;
use act_plans::CallerSetup;
use act_types::{ActorId, NoMemory};
use std::alloc::{AllocError, Global};

/// Adds which callers' calls an actor ran, in order, and whether it was killed. All else follows.
fn push_runs(key: &mut String, server: &Server) -> Result<(), AllocError> {
    for ran in &server.log {
        let caller = ran.caller.number();
        write!(key, "{caller} ")?;
    }
    key.push(if server.standing == Standing::Killed {
        '!'
    } else {
        '.'
    })
}

/// Adds an actor's state, and how many calls of each caller it ran.
fn push_state(
    key: &mut String,
    plans: &Plans,
    state: &State,
    a: ActorId,
    server: &Server,
) -> Result<(), NoMemory> {
    match (server.standing, &server.kind) {
        (Standing::Live, Some(kind)) => kind.state_text(key)?,
        _ => key.push('!')?,
    }
    for setup in &plans.setups {
        let count = state.count_of(a, setup.caller);
        write!(key, " {count}")?;
    }
    key.push('\n')?;
    Ok(())
}

/// Adds a caller's answers: all, or those that a call to come needs and that the others are there.
fn push_answers(
    key: &mut String,
    state: &State,
    setup: &CallerSetup,
    view: View,
) -> Result<(), AllocError> {
    let Some(caller) = state.caller(setup.caller) else {
        return Ok(());
    };
    for (place, call) in caller.calls.iter().enumerate() {
        match &call.answer {
            None => key.push('?')?,
            Some(answer) => {
                if view == View::Answers || state.is_needed(setup, future_at(place)) {
                    push_answer(key, answer)?;
                } else {
                    key.push('=')?;
                }
            }
        }
        key.push(' ')?;
    }
    key.push('\n')
}

/// The key of a state.
pub(crate) fn key_of(
    alloc: Global,
    plans: &Plans,
    state: &State,
    view: View,
) -> Result<String, NoMemory> {
    let mut key = String::new(alloc);
    for cast in &plans.casts {
        if let Some(server) = state.actor(cast.actor) {
            match view {
                View::Report => push_runs(&mut key, server)?,
                View::Answers | View::Ends => {
                    push_state(&mut key, plans, state, cast.actor, server)?
                }
            }
        }
    }
    if view != View::Report {
        for setup in &plans.setups {
            push_answers(&mut key, state, setup, view)?;
        }
    }
    Ok(key)
}
