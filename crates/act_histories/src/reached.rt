//! How far callers and actors get in a play that ends as a history tells, made greedily.
//!
//! Each event happens as soon as what it needs is there. A call is submitted when its caller's limit
//! allows it. It is sent and runs when its turn in the run list has come and its arguments are
//! known. A reply is collected where it gave the answer that is told, and a dead actor dies after
//! its run list. A caller that awaits does all its lines in order, and goes on past an await when
//! the answer is there. Each of these holds in any play with this end, and stays true once it is. So
//! where nothing more can happen, no play ends so.
//!
//! No contract says so, and the events aren't kept: what is found only says why a history was refused.

use crate::history::{Between, Caller, Ending, History, Ran, Served, slot_of};
use crate::progress::{CallerProgress, Done, Progress, is_bereaved};
use crate::rules::has_terminated;
use act_types::{ACTOR_NUMBERS, ActorId, CallerId, MAX_ACTORS, NoMemory};
use std::alloc::Global;

/// More rounds than there are events in any play.
const MAX_ROUNDS: u32 = 4_294_967_295;

/// Does the caller's next step, where that submits nothing and nothing that it awaits is missing.
fn pass(asked: &mut CallerProgress, actors: &mut [Done; ACTOR_NUMBERS], caller: &Caller) -> bool {
    let Some(placed) = asked.next_between(caller) else {
        return false;
    };
    match placed.step {
        Between::Handle => {}
        Between::Kill(a) => actors[slot_of(a)].is_asked = true,
        Between::Await(k) => {
            if !asked.is_answered(k) {
                return false;
            }
        }
    }
    asked.passed = asked.passed.saturating_add(1);
    true
}

/// Does the caller's steps up to its next submission, or to an await that holds it back.
fn pass_all(
    asked: &mut CallerProgress,
    actors: &mut [Done; ACTOR_NUMBERS],
    caller: &Caller,
) -> bool {
    let before = asked.passed;
    for _step in 0..caller.between.len() {
        if !pass(asked, actors, caller) {
            break;
        }
    }
    before < asked.passed
}

/// Does the caller's steps as far as its limits and its awaits allow.
fn submit_all(
    asked: &mut CallerProgress,
    actors: &mut [Done; ACTOR_NUMBERS],
    history: &History,
    caller: &Caller,
) -> Result<bool, NoMemory> {
    let mut has_moved = pass_all(asked, actors, caller);
    for place in asked.count_submitted()..caller.calls.len() {
        let a = caller.calls[place].actor;
        if asked.next_between(caller).is_some() || !asked.may_submit(limit_of(history, a), a) {
            break;
        }
        asked.submit(a)?;
        has_moved = true;
        pass_all(asked, actors, caller);
    }
    Ok(has_moved)
}

/// How many calls of each caller to the actor may have no answer.
fn limit_of(history: &History, a: ActorId) -> Option<u32> {
    history.actor(a)?.limit
}

/// Sends a call, runs it and collects its reply, where it can be sent. A reply is collected where it gave
/// the answer that is told.
fn run(callers: &mut Vec<CallerProgress>, history: &History, ran: &Ran) -> bool {
    let k = ran.item.future;
    if let Some(call) = history.call(ran.item.caller, k)
        && let Some(asked) = callers.get_mut(ran.item.caller.number() as usize)
        && asked.may_send(call, k)
    {
        if !call.is_open() && !call.has_died() {
            asked.collect(call.actor, k);
        }
        return true;
    }
    false
}

/// Runs the actor's calls as far as they can be sent.
fn run_all(progress: &mut Progress, history: &History, a: ActorId, log: &[Ran]) -> bool {
    let mut done = progress.done_by(a);
    let before = done.ran;
    for place in before..log.len() {
        if !run(&mut progress.callers, history, &log[place]) {
            break;
        }
        done.ran = place + 1;
    }
    progress.note(a, done);
    before < done.ran
}

/// Whether one of these callers awaits nothing: no lines bind it.
fn has_free_caller(history: &History, callers: &[CallerId]) -> bool {
    for c in callers {
        if let Some(caller) = history.caller(*c)
            && !caller.awaits
        {
            return true;
        }
    }
    false
}

/// Whether the actor can die by now: by a `terminate`, or by a kill, for which a line asked or a caller can ask
/// that awaits nothing.
fn may_die(history: &History, actor: &Served, done: &Done) -> bool {
    done.is_asked
        || actor.callers.is_empty()
        || has_terminated(&actor.log)
        || has_free_caller(history, &actor.callers)
}

/// The dead actor tells each caller that has calls which its death answered, and which collects the notice.
fn tell_all(callers: &mut Vec<CallerProgress>, history: &History, a: ActorId, told: &[CallerId]) {
    for c in told {
        if let Some(caller) = history.caller(*c)
            && is_bereaved(caller, a)
            && let Some(asked) = callers.get_mut(c.number() as usize)
        {
            asked.lose(caller, a);
        }
    }
}

/// A dead actor dies once it ran all that it ran.
fn die(progress: &mut Progress, history: &History, a: ActorId, actor: &Served) -> bool {
    let mut done = progress.done_by(a);
    if actor.ending != Ending::Dead
        || done.is_dead
        || done.ran < actor.log.len()
        || !may_die(history, actor, &done)
    {
        return false;
    }
    done.is_dead = true;
    progress.note(a, done);
    tell_all(&mut progress.callers, history, a, &actor.callers);
    true
}

/// What all callers can do now.
fn submit_round(progress: &mut Progress, history: &History) -> Result<bool, NoMemory> {
    let mut has_moved = false;
    for (place, caller) in history.callers.iter().enumerate() {
        if let Some(asked) = progress.callers.get_mut(place) {
            has_moved = submit_all(asked, &mut progress.actors, history, caller)? || has_moved;
        }
    }
    Ok(has_moved)
}

/// What all actors can do now.
fn serve_round(progress: &mut Progress, history: &History) -> bool {
    let mut has_moved = false;
    for before in 0..MAX_ACTORS {
        if let Some((a, actor)) = history.actor_after(before) {
            let has_run = run_all(progress, history, a, &actor.log);
            has_moved = die(progress, history, a, actor) || has_run || has_moved;
        }
    }
    has_moved
}

/// Does what callers and actors can do, until they can do nothing.
fn go_on(progress: &mut Progress, history: &History) -> Result<(), NoMemory> {
    for _round in 0..MAX_ROUNDS {
        let has_submitted = submit_round(progress, history)?;
        let has_served = serve_round(progress, history);
        if !has_submitted && !has_served {
            break;
        }
    }
    Ok(())
}

/// How far all of them get.
pub(crate) fn reach(alloc: Global, history: &History) -> Result<Progress, NoMemory> {
    let mut progress = Progress::open(alloc, history)?;
    match go_on(&mut progress, history) {
        Ok(()) => Ok(progress),
        Err(error) => {
            drop(progress);
            Err(error)
        }
    }
}
