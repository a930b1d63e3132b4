//! Where a play that is being made is stuck, and why.
//!
//! Each run list that isn't through has a first call that didn't run, and each call that isn't
//! submitted waits for one that is, by a limit or by an await. What such a call waits for leads to
//! the first call of another run list, and so on, until one comes again, or a call that never has an
//! answer. A dead actor whose run list is through waits for a kill, which may come after an await.

use crate::history::{Between, Call, Ending, History, Ran, future_at, slot_of};
use crate::progress::{CallerProgress, Progress};
use crate::reason::{Blame, Blames, CallName, Reason};
use crate::rules::name_of;
use act_types::{ACTOR_NUMBERS, ActorId, Arg, CallerId, MAX_ACTORS, MAX_CALLERS, NoMemory};
use std::alloc::Global;

/// A play that is stuck.
#[derive(Clone, Copy)]
struct Stuck<'a> {
    history: &'a History,
    progress: &'a Progress,
}

impl<'a> Stuck<'a> {
    fn asked_by(&self, c: CallerId) -> Option<&'a CallerProgress> {
        self.progress.callers.get(c.number() as usize)
    }

    /// The first call of the actor that didn't run.
    fn front(&self, a: ActorId) -> Option<&'a Ran> {
        self.history.actor(a)?.log.get(self.progress.done_by(a).ran)
    }

    /// Whether the actor is told as dead, ran all that it ran, and couldn't die.
    fn lives_on(&self, a: ActorId) -> bool {
        match self.history.actor(a) {
            Some(actor) => {
                actor.ending == Ending::Dead
                    && self.front(a).is_none()
                    && !self.progress.done_by(a).is_dead
            }
            None => false,
        }
    }

    /// The line of the await that holds the caller back, and the call whose answer it awaits. All other
    /// steps that submit nothing can be done.
    fn awaited_by(&self, c: CallerId) -> Option<(u32, CallName)> {
        let placed = self.asked_by(c)?.next_between(self.history.caller(c)?)?;
        match placed.step {
            Between::Await(future) => Some((placed.line, CallName { caller: c, future })),
            Between::Handle | Between::Kill(_) => None,
        }
    }

    /// The first line by which a caller asks for the actor's kill, and that wasn't done.
    fn kill_to_come(&self, c: CallerId, a: ActorId) -> Option<u32> {
        let passed = self.asked_by(c)?.passed;
        for placed in self.history.caller(c)?.between.iter().skip(passed) {
            if let Between::Kill(victim) = placed.step
                && victim == a
            {
                return Some(placed.line);
            }
        }
        None
    }

    /// The line of the call.
    fn line_of(&self, name: &CallName) -> u32 {
        match self.history.call(name.caller, name.future) {
            Some(call) => call.line,
            None => 0,
        }
    }

    fn is_answered(&self, name: &CallName) -> bool {
        match self.asked_by(name.caller) {
            Some(asked) => asked.is_answered(name.future),
            None => false,
        }
    }

    /// The first argument of a call that isn't known.
    fn unknown_arg(&self, c: CallerId, call: &Call) -> Option<CallName> {
        for arg in call.args.as_slice() {
            if let Arg::Fut(future) = arg {
                let name = CallName {
                    caller: c,
                    future: *future,
                };
                if !self.is_answered(&name) {
                    return Some(name);
                }
            }
        }
        None
    }

    /// The first call of a caller to the actor that was submitted and has no answer.
    fn first_open(&self, c: CallerId, a: ActorId) -> Option<CallName> {
        let caller = self.history.caller(c)?;
        let asked = self.asked_by(c)?;
        for place in 0..asked.count_submitted() {
            let future = future_at(place);
            if caller.call(future)?.actor == a && !asked.is_answered(future) {
                return Some(CallName { caller: c, future });
            }
        }
        None
    }

    /// The first call that a caller didn't submit.
    fn first_unsubmitted(&self, c: CallerId) -> Option<CallName> {
        let submitted = self.asked_by(c)?.count_submitted();
        if submitted >= self.history.caller(c)?.calls.len() {
            return None;
        }
        Some(CallName {
            caller: c,
            future: future_at(submitted),
        })
    }

    /// The next call that the caller of this one submits, where that is this one or comes before it.
    fn held_before(&self, name: &CallName) -> Option<CallName> {
        let next = self.first_unsubmitted(name.caller)?;
        if next.future.number() > name.future.number() {
            return None;
        }
        Some(next)
    }
}

// The way from one waiting call to the next: each adds why it waits, and gives the actor of which the next thing
// is waited for. None where the way ends.
impl<'a> Stuck<'a> {
    /// What an answer of a call that was submitted waits for.
    fn through_answer(&self, way: &mut Blames, name: &CallName) -> Option<ActorId> {
        let call = self.history.call(name.caller, name.future)?;
        if call.is_open() {
            way.add(call.line, Reason::Open(name.again()));
            return None;
        }
        let Some(front) = self.front(call.actor) else {
            return self.through_end(way, name, call);
        };
        let first = name_of(&front.item);
        if call.has_died() {
            way.add(
                call.line,
                Reason::WaitsForDeath(name.again(), first, call.actor),
            );
        } else if first != *name {
            way.add(
                call.line,
                Reason::WaitsForTurn(name.again(), first, call.actor),
            );
        }
        Some(call.actor)
    }

    /// What an answer waits for whose actor ran all that it ran: its death, where that is the answer.
    fn through_end(&self, way: &mut Blames, name: &CallName, call: &Call) -> Option<ActorId> {
        if !call.has_died() || !self.lives_on(call.actor) {
            return None;
        }
        way.add(call.line, Reason::WaitsForEnd(name.again(), call.actor));
        Some(call.actor)
    }

    /// What the actor's death waits for: a kill by one of its callers, and what holds that one back.
    fn through_kill(&self, way: &mut Blames, a: ActorId) -> Option<ActorId> {
        let actor = self.history.actor(a)?;
        for c in &actor.callers {
            if let Some(line) = self.kill_to_come(*c, a) {
                way.add(line, Reason::WaitsForKill(a, *c));
                return self.through_caller(way, *c);
            }
        }
        way.add(actor.line, Reason::NoKill(a));
        None
    }

    /// What a caller waits for that isn't through with its lines: an answer that it awaits, or room.
    fn through_caller(&self, way: &mut Blames, c: CallerId) -> Option<ActorId> {
        if let Some((line, of)) = self.awaited_by(c) {
            way.add(line, Reason::Awaits(c, of.again()));
            return self.through_answer(way, &of);
        }
        self.through_room(way, &self.first_unsubmitted(c)?)
    }

    /// What a call waits for that is its caller's next: an answer that the caller awaits, or room.
    fn through_next(&self, way: &mut Blames, name: &CallName) -> Option<ActorId> {
        if let Some((line, of)) = self.awaited_by(name.caller) {
            way.add(line, Reason::WaitsForAwait(name.again(), of.again()));
            return self.through_answer(way, &of);
        }
        self.through_room(way, name)
    }

    /// What a call waits for that is the next to be submitted.
    fn through_room(&self, way: &mut Blames, name: &CallName) -> Option<ActorId> {
        let call = self.history.call(name.caller, name.future)?;
        let open = self.first_open(name.caller, call.actor)?;
        way.add(
            call.line,
            Reason::WaitsForRoom(name.again(), open.again(), call.actor),
        );
        self.through_answer(way, &open)
    }

    /// What the first call of a run list waits for that didn't run.
    fn through_front(&self, way: &mut Blames, front: &Ran) -> Option<ActorId> {
        let name = name_of(&front.item);
        match self.held_before(&name) {
            Some(next) => self.through_submission(way, &name, &next),
            None => self.through_arg(way, &name, front.line),
        }
    }

    /// What a call waits for that isn't submitted, where this is the next of its caller that is.
    fn through_submission(
        &self,
        way: &mut Blames,
        name: &CallName,
        next: &CallName,
    ) -> Option<ActorId> {
        if *next != *name {
            way.add(
                self.line_of(name),
                Reason::WaitsForSubmission(name.again(), next.again()),
            );
        }
        self.through_next(way, next)
    }

    /// What a call waits for that was submitted, and that is told at this line.
    fn through_arg(&self, way: &mut Blames, name: &CallName, line: u32) -> Option<ActorId> {
        let call = self.history.call(name.caller, name.future)?;
        let of = self.unknown_arg(name.caller, call)?;
        way.add(line, Reason::WaitsForAnswer(name.again(), of.again()));
        self.through_answer(way, &of)
    }

    /// What comes next of an actor waits for.
    fn through_actor(&self, way: &mut Blames, a: ActorId) -> Option<ActorId> {
        match self.front(a) {
            Some(front) => self.through_front(way, front),
            None => self.through_kill(way, a),
        }
    }
}

/// The first actor whose run list isn't through, or that is dead and couldn't die.
fn first_waiting(stuck: &Stuck<'_>) -> Option<ActorId> {
    for before in 0..MAX_ACTORS {
        let a = ActorId::new(before + 1)?;
        if stuck.front(a).is_some() || stuck.lives_on(a) {
            return Some(a);
        }
    }
    None
}

/// The first caller that isn't through with its lines.
fn first_held(stuck: &Stuck<'_>) -> Option<CallerId> {
    for before in 0..MAX_CALLERS {
        let c = CallerId::new(before + 1)?;
        if stuck.awaited_by(c).is_some() || stuck.first_unsubmitted(c).is_some() {
            return Some(c);
        }
    }
    None
}

/// The way from the first call of an actor on, until an actor comes again or it ends. What leads
/// into a circle and isn't in it is left out.
fn way_from(alloc: Global, stuck: &Stuck<'_>, first: ActorId) -> Blames {
    let mut way = Blames::new(alloc);
    let mut begins = [None; ACTOR_NUMBERS];
    let mut at = first;
    for _step in 0..=MAX_ACTORS {
        let slot = slot_of(at);
        if let Some(begin) = begins[slot] {
            return way.since(alloc, begin);
        }
        begins[slot] = Some(way.count());
        match stuck.through_actor(&mut way, at) {
            Some(next) => at = next,
            None => break,
        }
    }
    way
}

/// Why an actor waits, whose run list isn't through or that couldn't die.
fn way_of_waiting(alloc: Global, stuck: &Stuck<'_>, first: ActorId) -> Blames {
    let mut way = way_from(alloc, stuck, first);
    if way.count() == 0 {
        way.add(0, Reason::Stuck);
    }
    way
}

/// Why a caller that is held back can't go on, where all run lists are through.
fn way_of_held(alloc: Global, stuck: &Stuck<'_>) -> Blames {
    let mut way = Blames::new(alloc);
    if let Some(c) = first_held(stuck) {
        stuck.through_caller(&mut way, c);
        if way.count() == 0 {
            let line = match stuck.first_unsubmitted(c) {
                Some(name) => stuck.line_of(&name),
                None => 0,
            };
            way.add(line, Reason::Stuck);
        }
    }
    way
}

/// Why the play can't go on, or nothing where all that is told happened.
pub(crate) fn why_blocked(
    alloc: Global,
    history: &History,
    progress: &Progress,
) -> Result<Vec<Blame>, NoMemory> {
    let stuck = Stuck { history, progress };
    let way = match first_waiting(&stuck) {
        Some(first) => way_of_waiting(alloc, &stuck, first),
        None => way_of_held(alloc, &stuck),
    };
    way.whole()
}
