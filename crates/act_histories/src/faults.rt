//! All that a history tells and no play leaves, by rising lines: of each call what it is answered, and
//! of each actor its end, its run list, and what it answers there.

use crate::history::{History, Ran, told_place};
use crate::reason::{Blame, PlaceName, ToldPlace, push_blame, push_blames};
use crate::replies::Replies;
use crate::rules::{blame_of_end, blames_of_caller, blames_of_log};
use act_types::{ActorId, MAX_ACTORS, MAX_CALLERS, NoMemory};
use std::alloc::{AllocError, Global};

/// Adds the blames of a line, from this one on, and gives the place of the next.
fn push_blames_of_line(
    text: &mut String,
    blames: &[Blame],
    from: usize,
    line: u32,
) -> Result<usize, AllocError> {
    for place in from..blames.len() {
        let blame = blames[place];
        if blame.line != line {
            return Ok(place);
        }
        push_blame(text, blame)?;
    }
    Ok(blames.len())
}

/// Adds the faults of a run list.
fn push_log(
    alloc: Global,
    text: &mut String,
    history: &History,
    replies: &Replies,
    a: ActorId,
    log: &[Ran],
) -> Result<(), NoMemory> {
    let blames = blames_of_log(alloc, history, a, log)?;
    let mut next = 0usize;
    for (place, ran) in log.iter().enumerate() {
        let line = ran.line;
        next = push_blames_of_line(text, &blames, next, line)?;
        let at = PlaceName {
            actor: a,
            place: told_place(place),
        };
        let told = ToldPlace { at, line };
        replies.push_faults(alloc, text, history, &told, &ran.item)?;
    }
    Ok(())
}

/// Adds the faults of all run lists, each behind that of its actor's end.
fn push_actors(
    alloc: Global,
    text: &mut String,
    history: &History,
    replies: &Replies,
) -> Result<(), NoMemory> {
    for before in 0..MAX_ACTORS {
        if let Some((a, actor)) = history.actor_after(before) {
            if let Some(blame) = blame_of_end(a, actor) {
                push_blame(text, blame)?;
            }
            push_log(alloc, text, history, replies, a, &actor.log)?;
        }
    }
    Ok(())
}

/// Adds the faults of all callers.
fn push_callers(alloc: Global, text: &mut String, history: &History) -> Result<(), NoMemory> {
    for before in 0..MAX_CALLERS {
        if let Some((c, caller)) = history.caller_after(before) {
            let blames = blames_of_caller(alloc, history, c, caller)?;
            push_blames(text, &blames)?;
        }
    }
    Ok(())
}

/// Adds the lines of all that no play leaves.
pub(crate) fn push_all_faults(
    alloc: Global,
    text: &mut String,
    history: &History,
) -> Result<(), NoMemory> {
    push_callers(alloc, text, history)?;
    let replies = Replies::new(alloc, history)?;
    let pushed = push_actors(alloc, text, history, &replies);
    drop(replies);
    pushed
}
