//! What each history keeps that some play ends in, and that shows line by line.

use crate::history::{
    Call, Caller, Ending, History, Ran, Served, future_at, slot_of, slot_of_caller, told_place,
};
use crate::reason::{Blame, Blames, CallName, PlaceName, Reason, push_blame};
use act_compare::same_method;
use act_rules::RunItem;
use act_types::{
    ACTOR_NUMBERS, ActorId, Arg, CALLER_NUMBERS, CallerId, FutureId, MAX_ACTORS, MAX_CALLERS,
    Method, NoMemory, Settled,
};
use std::alloc::{AllocError, Global};

/// Whether the call ends its actor.
pub(crate) fn is_end(item: &RunItem) -> bool {
    match item.method {
        Method::Terminate => item.args.as_slice().is_empty(),
        _ => false,
    }
}

/// Whether the actor's last call ended it.
pub(crate) fn has_terminated(log: &[Ran]) -> bool {
    match log.last() {
        Some(ran) => is_end(&ran.item),
        None => false,
    }
}

/// Whether an argument that was submitted can have been settled to this one.
fn may_settle(arg: &Arg, settled: &Settled) -> bool {
    match (arg, settled) {
        (Arg::Plain(value), Settled::Good(other)) => value == other,
        (Arg::Fut(future), Settled::Bad(other)) => future == other,
        (Arg::Fut(_), Settled::Good(_)) => true,
        (Arg::Plain(_), Settled::Bad(_)) => false,
    }
}

/// Whether the arguments that were submitted can have been settled to these.
fn may_all_settle(args: &[Arg], settled: &[Settled]) -> bool {
    if args.len() != settled.len() {
        return false;
    }
    for (place, arg) in args.iter().enumerate() {
        if !may_settle(arg, &settled[place]) {
            return false;
        }
    }
    true
}

/// Whether the call that was submitted can have run as this one.
pub(crate) fn may_run_as(call: &Call, item: &RunItem) -> bool {
    same_method(&call.method, &item.method)
        && may_all_settle(call.args.as_slice(), item.args.as_slice())
}

/// That the call at a place runs before one of the same caller that was submitted before it.
fn skip_of(history: &History, at: &PlaceName, skipped: CallName) -> Option<Reason> {
    let call = history.call(skipped.caller, skipped.future)?;
    if call.actor != at.actor {
        return None;
    }
    match call.place {
        None => Some(Reason::SkipsForGood(*at, skipped)),
        Some(place) => {
            let later = history.told_at(at.actor, place)?;
            Some(Reason::Skips(*at, skipped, later))
        }
    }
}

/// Why the call at a place can't have run there, whatever ran before.
fn reason_at(history: &History, at: &PlaceName, name: CallName) -> Option<Reason> {
    if !history.actor(at.actor)?.may_be_called_by(name.caller) {
        return Some(Reason::NoHandle(*at, name.caller));
    }
    let Some(call) = history.call(name.caller, name.future) else {
        return Some(Reason::Unsubmitted(*at, name));
    };
    if call.actor != at.actor {
        return Some(Reason::Elsewhere(*at, name, call.actor));
    }
    let first = call.place?;
    if first != at.place {
        let before = history.told_at(at.actor, first)?;
        return Some(Reason::Again(*at, name, before));
    }
    None
}

/// That the call at a place was submitted with another method or other arguments.
fn other_call(history: &History, at: &PlaceName, item: &RunItem) -> Option<Reason> {
    let call = history.call(item.caller, item.future)?;
    if may_run_as(call, item) {
        return None;
    }
    Some(Reason::OtherCall(*at, name_of(item), call.submitted))
}

/// The name of a call that ran.
pub(crate) fn name_of(item: &RunItem) -> CallName {
    CallName {
        caller: item.caller,
        future: item.future,
    }
}

/// Adds the calls that are skipped at a place, and that no earlier place skips: those of the caller
/// that come after so many and before this one.
fn add_skips(blames: &mut Blames, history: &History, at: &PlaceName, ran: &Ran, passed: usize) {
    let CallName { caller, future } = name_of(&ran.item);
    for place in passed..future.number() as usize {
        let skipped = CallName {
            caller,
            future: future_at(place),
        };
        blames.add_any(ran.line, skip_of(history, at, skipped));
    }
}

/// Adds why the call at a place can't have run there. `passed` has how many calls of each caller come no
/// later than one that ran.
fn add_reasons_at(
    blames: &mut Blames,
    history: &History,
    at: &PlaceName,
    ran: &Ran,
    passed: &mut [usize; CALLER_NUMBERS],
) {
    let name = name_of(&ran.item);
    let slot = slot_of_caller(name.caller);
    let count = (name.future.number() as usize).saturating_add(1);
    if let Some(reason) = reason_at(history, at, name) {
        blames.add(ran.line, reason);
        return;
    }
    add_skips(blames, history, at, ran, passed[slot]);
    passed[slot] = passed[slot].max(count);
    blames.add_any(ran.line, other_call(history, at, &ran.item));
}

/// The calls of a run list that can't have run there, in their order.
pub(crate) fn blames_of_log(
    alloc: Global,
    history: &History,
    a: ActorId,
    log: &[Ran],
) -> Result<Vec<Blame>, NoMemory> {
    let mut blames = Blames::new(alloc);
    let mut passed = [0; CALLER_NUMBERS];
    let mut has_ended = false;
    for (place, ran) in log.iter().enumerate() {
        let at = PlaceName {
            actor: a,
            place: told_place(place),
        };
        if has_ended {
            blames.add(ran.line, Reason::AfterTheEnd(at));
        } else {
            add_reasons_at(&mut blames, history, &at, ran, &mut passed);
        }
        has_ended = has_ended || is_end(&ran.item);
    }
    blames.whole()
}

/// Whether an actor that ran a terminate is told as dead.
pub(crate) fn blame_of_end(a: ActorId, actor: &Served) -> Option<Blame> {
    if actor.ending == Ending::Dead || !has_terminated(&actor.log) {
        return None;
    }
    let at = PlaceName {
        actor: a,
        place: told_place(actor.log.len().saturating_sub(1)),
    };
    Some(Blame {
        line: actor.line,
        reason: Reason::Terminated(at),
    })
}

/// The first future among arguments that isn't that of an earlier call.
fn later_in(args: &[Arg], k: FutureId) -> Option<FutureId> {
    for arg in args {
        if let Arg::Fut(future) = arg
            && future.number() >= k.number()
        {
            return Some(*future);
        }
    }
    None
}

/// Why a death can't have answered the call, beside an actor that is left so.
fn reason_of_death(call: &Call, name: CallName, ending: Ending) -> Option<Reason> {
    if ending == Ending::Dead {
        return None;
    }
    match call.answer() {
        Some(_) => Some(Reason::NoDeath(name, call.actor)),
        None => Some(Reason::NotRun(name, call.actor)),
    }
}

/// Why the call can't be left so, beside an actor that is left so.
fn reason_of(call: &Call, name: CallName, ending: Ending) -> Option<Reason> {
    if let Some(later) = later_in(call.args.as_slice(), name.future) {
        return Some(Reason::Later(name, later));
    }
    if call.has_died() {
        return reason_of_death(call, name, ending);
    }
    if call.place.is_some() {
        return None;
    }
    if !call.is_open() {
        return Some(Reason::NotRun(name, call.actor));
    }
    if ending == Ending::Retired {
        return Some(Reason::LeftOver(name, call.actor));
    }
    None
}

/// The first calls of a caller to each actor that have no answer, and that a death answered.
#[derive(Drop)]
struct Halves {
    open: [Option<FutureId>; ACTOR_NUMBERS],
    dead: [Option<FutureId>; ACTOR_NUMBERS],
}

impl Halves {
    fn new() -> Halves {
        Halves {
            open: [None; ACTOR_NUMBERS],
            dead: [None; ACTOR_NUMBERS],
        }
    }

    /// Notes a call, and gives both once there are both.
    fn note(&mut self, call: &Call, k: FutureId) -> Option<(FutureId, FutureId)> {
        let slot = slot_of(call.actor);
        if self.open[slot].is_some() && self.dead[slot].is_some() {
            return None;
        }
        if call.is_open() {
            self.open[slot] = Some(k);
        }
        if call.has_died() {
            self.dead[slot] = Some(k);
        }
        Some((self.open[slot]?, self.dead[slot]?))
    }
}

/// Why the call can't be left so, beside those before it.
fn reason_beside(halves: &mut Halves, call: &Call, name: CallName) -> Option<Reason> {
    let (open, dead) = halves.note(call, name.future)?;
    let caller = name.caller;
    let open = CallName {
        caller,
        future: open,
    };
    let dead = CallName {
        caller,
        future: dead,
    };
    Some(Reason::HalfDead(open, dead))
}

/// The calls of a caller that can't be left so, in their order.
pub(crate) fn blames_of_caller(
    alloc: Global,
    history: &History,
    c: CallerId,
    caller: &Caller,
) -> Result<Vec<Blame>, NoMemory> {
    let mut blames = Blames::new(alloc);
    let mut halves = Halves::new();
    for (place, call) in caller.calls.iter().enumerate() {
        let name = CallName {
            caller: c,
            future: future_at(place),
        };
        if let Some(actor) = history.actor(call.actor) {
            blames.add_any(call.line, reason_of(call, name.again(), actor.ending));
        }
        blames.add_any(call.line, reason_beside(&mut halves, call, name));
    }
    blames.whole()
}

/// Adds the line of what is blamed first, if anything is. Tells whether something is.
fn push_first(text: &mut String, blames: &[Blame]) -> Result<bool, AllocError> {
    match blames.first() {
        None => Ok(false),
        Some(blame) => {
            push_blame(text, *blame)?;
            Ok(true)
        }
    }
}

/// Adds the line of the first call of some actor that can't have run there, or of an end that it can't have. Tells
/// whether there is such a thing.
fn push_first_of_actors(
    alloc: Global,
    text: &mut String,
    history: &History,
) -> Result<bool, NoMemory> {
    for before in 0..MAX_ACTORS {
        if let Some((a, actor)) = history.actor_after(before) {
            if push_first(text, &blames_of_log(alloc, history, a, &actor.log)?)? {
                return Ok(true);
            }
            if let Some(blame) = blame_of_end(a, actor) {
                push_blame(text, blame)?;
                return Ok(true);
            }
        }
    }
    Ok(false)
}

/// The same of the callers.
fn push_first_of_callers(
    alloc: Global,
    text: &mut String,
    history: &History,
) -> Result<bool, NoMemory> {
    for before in 0..MAX_CALLERS {
        if let Some((c, caller)) = history.caller_after(before)
            && push_first(text, &blames_of_caller(alloc, history, c, caller)?)?
        {
            return Ok(true);
        }
    }
    Ok(false)
}

/// Adds the line of the first thing in a history that no play leaves, whatever the order of its events, if there is
/// such a thing.
pub(crate) fn push_first_fault(
    alloc: Global,
    text: &mut String,
    history: &History,
) -> Result<(), NoMemory> {
    if !push_first_of_actors(alloc, text, history)? {
        push_first_of_callers(alloc, text, history)?;
    }
    Ok(())
}
