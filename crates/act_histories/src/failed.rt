//! Which answers that a history leaves open are deaths: those of which a later call took the failure, where
//! the reply is a value.

use crate::history::{Ending, History, Kept, Ran, told_place};
use crate::replies::Replies;
use act_rules::RunItem;
use act_types::{ActorId, CallerId, FutureId, MAX_ACTORS, NoMemory, Settled};
use std::alloc::Global;

/// A call, and the place of one that took its failure.
#[derive(Drop)]
struct Failed {
    caller: CallerId,
    future: FutureId,
    by: (ActorId, u32),
}

/// Where the call ran, if it is left open whether its reply answered it or the death of its actor.
fn open_place(history: &History, c: CallerId, k: FutureId) -> Option<(ActorId, u32)> {
    let call = history.call(c, k)?;
    if !matches!(&call.kept, Kept::Something) {
        return None;
    }
    let actor = history.actor(call.actor)?;
    if actor.ending != Ending::Dead {
        return None;
    }
    call.first_place()
}

/// Whether a call took the failure of one that is left open so.
fn takes_open(history: &History, item: &RunItem) -> bool {
    for arg in item.args.as_slice() {
        if let Settled::Bad(k) = arg
            && open_place(history, item.caller, *k).is_some()
        {
            return true;
        }
    }
    false
}

/// Whether some call of a run list did.
fn one_takes_open(history: &History, log: &[Ran]) -> bool {
    for ran in log {
        if takes_open(history, &ran.item) {
            return true;
        }
    }
    false
}

/// Whether some call did.
fn some_takes_open(history: &History) -> bool {
    for actor in &history.actors {
        if one_takes_open(history, &actor.log) {
            return true;
        }
    }
    false
}

/// Whether the call is left open so, and its reply is a value. Then its failure was no reply.
fn is_open_value(history: &History, replies: &Replies, c: CallerId, k: FutureId) -> bool {
    match open_place(history, c, k) {
        Some((a, place)) => replies.is_value(a, place),
        None => false,
    }
}

/// Adds the calls of which the one at this place took the failure.
fn add_failed_by(
    failed: &mut Vec<Failed>,
    history: &History,
    replies: &Replies,
    item: &RunItem,
    by: ActorId,
    place: u32,
) -> Result<(), NoMemory> {
    for arg in item.args.as_slice() {
        if let Settled::Bad(future) = arg
            && is_open_value(history, replies, item.caller, *future)
        {
            failed.push(Failed {
                caller: item.caller,
                future: *future,
                by: (by, place),
            })?;
        }
    }
    Ok(())
}

/// The same of all calls of a run list.
fn add_failed_in(
    failed: &mut Vec<Failed>,
    history: &History,
    replies: &Replies,
    a: ActorId,
    log: &[Ran],
) -> Result<(), NoMemory> {
    for (place, ran) in log.iter().enumerate() {
        add_failed_by(failed, history, replies, &ran.item, a, told_place(place))?;
    }
    Ok(())
}

/// The same of all run lists.
fn add_all_failed(
    failed: &mut Vec<Failed>,
    history: &History,
    replies: &Replies,
) -> Result<(), NoMemory> {
    for before in 0..MAX_ACTORS {
        if let Some((a, actor)) = history.actor_after(before) {
            add_failed_in(failed, history, replies, a, &actor.log)?;
        }
    }
    Ok(())
}

/// The calls of which a later one took the failure.
fn all_failed(alloc: Global, history: &History) -> Result<Vec<Failed>, NoMemory> {
    let replies = Replies::new(alloc, history)?;
    let mut failed = Vec::new(alloc);
    let added = add_all_failed(&mut failed, history, &replies);
    drop(replies);
    match added {
        Ok(()) => Ok(failed),
        Err(error) => {
            drop(failed);
            Err(error)
        }
    }
}

/// Notes of each call that a death answered where its failure was taken. What actors answer is found only
/// where it matters.
pub(crate) fn note_failed(alloc: Global, history: &mut History) -> Result<(), NoMemory> {
    if !some_takes_open(history) {
        return Ok(());
    }
    for Failed { caller, future, by } in &all_failed(alloc, history)? {
        if let Some(call) = history.call_mut(*caller, *future) {
            call.failed = Some(*by);
        }
    }
    Ok(())
}
