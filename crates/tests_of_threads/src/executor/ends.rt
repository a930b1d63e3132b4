//! What runs may leave whose order isn't one of a few.

use act_executor::{Ended, Finished, Joined};
use act_kinds::{Actor, Boxed};
use act_owner::Owner;
use act_rules::RunItem;
use act_types::{Answer, Fault, FutureId, MAX_ACTORS, MAX_CALLERS, NoMemory, Value};
use std::alloc::Global;

fn number_of(answer: Option<&Answer>) -> Option<i64> {
    match answer {
        Some(Ok(Value::Int(number))) => Some(*number),
        _ => None,
    }
}

/// Whether the caller has so many answers: 1, 2, 3, .. .
fn counted_to(owner: &Owner, count: u32) -> bool {
    for place in 0..count {
        if number_of(owner.answer(FutureId::new(place))) != Some(place as i64 + 1) {
            return false;
        }
    }
    owner.count() == count
}

/// Whether there is one caller, with so many answers: 1, 2, 3, .. .
pub(super) fn has_counted_to(joined: &Joined<Boxed>, count: u32) -> bool {
    match joined.owners.as_slice() {
        [owner] => counted_to(owner, count),
        _ => false,
    }
}

/// How many calls an actor ran that retired.
fn runs_of(finished: Option<&Finished<Boxed>>) -> Option<usize> {
    match &finished?.ended {
        Ended::Retired(retired) => Some(retired.log().len()),
        _ => None,
    }
}

/// How many calls each of two actors ran, where it retired.
pub(super) fn runs_of_two(joined: &Joined<Boxed>) -> [Option<usize>; 2] {
    [runs_of(joined.actors.get(0)), runs_of(joined.actors.get(1))]
}

/// Whether the caller has so many answers, each a number, or, where it may be, that the actor died.
fn has_answers(owner: &Owner, count: u32, may_be_dead: bool) -> bool {
    for place in 0..count {
        match owner.answer(FutureId::new(place)) {
            Some(Ok(Value::Int(_))) => {}
            Some(Err(Fault::ActorDied)) if may_be_dead => {}
            _ => return false,
        }
    }
    owner.count() == count
}

/// How many of a log's calls are a caller's, where these are its first, in order.
fn front_of(log: &[RunItem], caller: u8) -> Option<u32> {
    let mut next = 0u32;
    for item in log {
        if item.caller.number() == caller {
            if item.future != FutureId::new(next) {
                return None;
            }
            next = next.wrapping_add(1);
        }
    }
    Some(next)
}

/// Whether these are all callers by rising number, each with a number from each actor.
fn all_have_numbers(owners: &[Owner]) -> bool {
    for (caller, owner) in (1..=MAX_CALLERS).zip(owners) {
        if owner.id().number() != caller || !has_answers(owner, MAX_ACTORS as u32, false) {
            return false;
        }
    }
    owners.len() == MAX_CALLERS as usize
}

/// How many of a log's calls are a caller's.
fn calls_of(log: &[RunItem], caller: u8) -> u32 {
    let mut count = 0u32;
    for item in log {
        if item.caller.number() == caller {
            count = count.wrapping_add(1);
        }
    }
    count
}

/// Whether a log has one call of each caller.
fn has_one_of_each(log: &[RunItem]) -> bool {
    for caller in 1..=MAX_CALLERS {
        if calls_of(log, caller) != 1 {
            return false;
        }
    }
    log.len() == MAX_CALLERS as usize
}

/// Whether this is the actor of a number, and retired as a counter that each caller added 1 to.
fn has_counted(alloc: Global, actor: u8, finished: &Finished<Boxed>) -> Result<bool, NoMemory> {
    let Ended::Retired(retired) = &finished.ended else {
        return Ok(false);
    };
    let mut text = String::new(alloc);
    retired.state_text(&mut text)?;
    Ok(
        retired.id().number() == actor
            && text.as_str() == "counter 16"
            && has_one_of_each(retired.log()),
    )
}

/// Whether all callers have their answers, and all actors by rising number ran a call of each caller.
pub(super) fn is_of_all_sizes(alloc: Global, joined: &Joined<Boxed>) -> Result<bool, NoMemory> {
    for (actor, finished) in (1..=MAX_ACTORS).zip(&joined.actors) {
        if !has_counted(alloc, actor, finished)? {
            return Ok(false);
        }
    }
    Ok(joined.actors.len() == MAX_ACTORS as usize && all_have_numbers(joined.owners.as_slice()))
}

/// Whether the actor was killed after caller 1's second call, and ran first calls of both callers.
fn has_terminated(finished: &Finished<Boxed>) -> bool {
    let Ended::Killed(dead) = &finished.ended else {
        return false;
    };
    let ends = match dead.log() {
        [.., last] => last.caller.number() == 1 && last.future == FutureId::new(1),
        _ => false,
    };
    ends && front_of(dead.log(), 1) == Some(2) && front_of(dead.log(), 2).is_some()
}

/// Whether the caller's first call has a number for an answer, and its second `Unit`.
fn was_told_both(owner: &Owner) -> bool {
    let second = owner.answer(FutureId::new(1));
    number_of(owner.answer(FutureId::new(0))).is_some()
        && matches!(second, Some(Ok(Value::Unit)))
        && owner.count() == 2
}

/// Whether this is what one caller's `terminate` beside another's three calls can leave.
pub(super) fn is_terminated(joined: &Joined<Boxed>) -> bool {
    match (joined.owners.as_slice(), joined.actors.as_slice()) {
        ([one, two], [actor]) => {
            was_told_both(one) && has_answers(two, 3, true) && has_terminated(actor)
        }
        _ => false,
    }
}
