//! A code that is run from its start, over what its caller knows so far.

ghost use Rattle.std.specs.Prelude.{◌≡◌, [], ◌∷◌, length, None, Some, IfOk, OnOk, OnErr, is_some, true, position};
ghost use Rattle.act_rules.specs.declared.script.Step.TheVariants.{Submit};
ghost use Rattle.act_rules.specs.Submissions.{kept_at};
ghost use Rattle.act_handles.specs.Handles.{copies_in};
ghost use Rattle.act_drive.specs.Sessions.{call_refusal, use_refusal, first_answered, IsLater, DoesMore, Submits};
ghost use Rattle.act_code_ends.specs.Rehearsals.{OnlyTakes};

use act_drive::{Did, add_step, submission};
use act_handles::{HandleRefusal, are_earlier};
use act_owner::Owner;
use act_rules::{Event, SubmitRefusal};
use act_types::{
    ACTOR_NUMBERS, ActorId, Arg, CopyOf, FutureId, ListOf, MAX_ARGS, MAX_CALLS, Method, NoMemory,
    Notice,
};
use std::alloc::Global;
use std::marker::Model;
use std::snapshot::Snapshot;

/// Why a rehearsal stopped. From then on it refuses what takes memory, and notes nothing.
#[derive(Clone, Copy, Debug, PartialEq, Eq)]
pub(crate) enum Pause {
    /// The code waits for a notice that isn't known.
    Waits,
    /// The code takes a turn, and it isn't chosen what came by then.
    Looks,
    /// Memory was refused.
    Memory,
}

/// A caller that is lent to its code. It takes notices that are known already, each with its place among
/// the notices of all callers. Contracts see a session, and no event that was noted.
#[derive(Drop)]
pub(crate) struct Rehearsal<'a> {
    pub(crate) alloc: Global,
    pub(crate) owner: Owner,
    pub(crate) known: &'a [(u32, Notice)],
    /// How many notices came by each turn.
    pub(crate) looks: &'a [usize],
    pub(crate) taken: usize,
    pub(crate) looked: usize,
    pub(crate) kills: [u32; ACTOR_NUMBERS],
    pub(crate) did: Snapshot<Did>,
    /// What the caller did, until it stopped.
    pub(crate) events: Vec<Event>,
    pub(crate) pause: Option<Pause>,
}

impl<'a> Model for Rehearsal<'a> {
    ghost use Rattle.std.specs.Prelude.{◌≡◌, length};
    ghost use Rattle.act_drive.specs.Sessions.{SessionView, session_view};

    ghost Value = { SessionView };

    ghost view = { λ s. record (session_view s.owner) { kills = s.kills; did = s.did.value } };

    ghost invariant = { λ s. length s.owner.kept ≡ length s.owner.calls };
}

impl<'a> Rehearsal<'a> {
    pub(crate) fn has_stopped(&self) -> bool {
        self.pause.is_some()
    }

    pub(crate) fn stop(&mut self, pause: Pause)
        ensures { self.new ≡ self.old }
    {
        if self.pause.is_none() {
            self.pause = Some(pause);
        }
    }

    /// Notes what the caller did, unless it stopped before.
    pub(crate) fn note(&mut self, event: Event)
        ensures { self.new ≡ self.old }
    {
        if self.has_stopped() {
            drop(event);
            return;
        }
        if self.events.push(event).is_err() {
            self.stop(Pause::Memory);
        }
    }

    /// A copy of the next notice that is known, which is noted.
    fn next_notice(&mut self) -> Option<Notice>
        ensures { self.new ≡ self.old }
    {
        if self.has_stopped() {
            return None;
        }
        let (place, notice) = self.known.get(self.taken)?;
        let Ok(notice) = notice.copy_of(self.alloc) else {
            self.stop(Pause::Memory);
            return None;
        };
        self.taken += 1;
        self.note(Event::Collect(*place));
        Some(notice)
    }

    /// Marks the call sent that a notice answers.
    fn mark_sent(&mut self, notice: &Notice)
        ensures { self.new ≡ self.old }
    {
        if let Notice::Answered(reply) = notice {
            let _ = self.owner.send(reply.future);
        }
    }

    /// Takes the next notice, where one is known.
    pub(crate) fn take(&mut self)
        ensures { OnlyTakes self.old self.new }
    {
        if let Some(notice) = self.next_notice() {
            self.mark_sent(&notice);
            self.owner.collect(notice);
        }
    }

    /// Takes so many notices, where as many are known.
    pub(crate) fn take_some(&mut self, count: usize)
        ensures { OnlyTakes self.old self.new }
    {
        for _ in 0..count {
            self.take();
        }
    }

    /// Takes notices until the future has an answer, or stops. Whether it has one.
    pub(crate) fn await_answer(&mut self, k: FutureId) -> bool
        ensures takes { OnlyTakes self.old self.new }
        ensures answered { result ≡ true → is_some (kept_at self.new.kept k) ≡ true }
        ensures kept { is_some (kept_at self.old.kept k) ≡ true → result ≡ true }
    {
        for _ in self.taken..self.known.len() {
            if self.owner.answer(k).is_some() {
                return true;
            }
            self.take();
        }
        if self.owner.answer(k).is_some() {
            return true;
        }
        self.stop(Pause::Waits);
        false
    }

    /// The place of the first of these futures that has an answer.
    fn first_answered(&self, futures: &[FutureId]) -> Option<usize>
        ensures { result ≡ first_answered self.now futures.now }
    {
        futures.iter().position(|k| self.owner.answer(*k).is_some())
    }

    /// Takes notices until one of the futures has an answer, or stops. The place of the first that has.
    pub(crate) fn await_any(&mut self, futures: &[FutureId]) -> Option<usize>
        ensures takes { OnlyTakes self.old self.new }
        ensures first { is_some result ≡ true → result ≡ first_answered self.new futures.now }
        ensures kept { is_some (first_answered self.old futures.now) ≡ true → is_some result ≡ true }
    {
        if let Some(at) = self.first_answered(futures) {
            return Some(at);
        }
        for _ in self.taken..self.known.len() {
            self.take();
            if let Some(at) = self.first_answered(futures) {
                return Some(at);
            }
        }
        self.stop(Pause::Waits);
        None
    }

    /// Whether the actor's limit leaves room for one call more.
    fn has_room(&self, a: ActorId) -> bool {
        match self.owner.limit(a) {
            None => true,
            Some(limit) => self.owner.pending(a) < limit,
        }
    }

    /// Takes notices until the actor's limit leaves room, or stops.
    pub(crate) fn await_room(&mut self, a: ActorId)
        ensures { OnlyTakes self.old self.new }
    {
        for _ in self.taken..self.known.len() {
            if self.has_room(a) {
                return;
            }
            self.take();
        }
        if !self.has_room(a) {
            self.stop(Pause::Waits);
        }
    }

    /// Why a call would not be submitted, the actor's limit and memory apart.
    pub(crate) fn call_refusal(&self, a: ActorId, args: &ListOf<Arg>) -> Option<SubmitRefusal>
        ensures { result ≡ call_refusal self.now a args.now }
    {
        let count = self.owner.count();
        if !self.owner.is_listed(a) {
            Some(SubmitRefusal::NoActor)
        } else if self.owner.holds(a) == 0 {
            Some(SubmitRefusal::NoHandle)
        } else if args.len() > MAX_ARGS {
            Some(SubmitRefusal::TooManyArgs)
        } else if !are_earlier(args, count) {
            Some(SubmitRefusal::BadFuture)
        } else if count >= MAX_CALLS {
            Some(SubmitRefusal::TooManyCalls)
        } else {
            None
        }
    }

    /// Why a handle is not let go, or a kill not asked.
    pub(crate) fn use_refusal(&self, a: ActorId) -> Option<HandleRefusal>
        ensures { result ≡ use_refusal self.now a }
    {
        if !self.owner.is_listed(a) {
            Some(HandleRefusal::NoActor)
        } else if self.owner.holds(a) == 0 {
            Some(HandleRefusal::NoHandle)
        } else {
            None
        }
    }

    /// Submits a call for which there is room.
    pub(crate) fn enter(
        &mut self,
        actor: ActorId,
        method: Method,
        args: ListOf<Arg>,
    ) -> Result<FutureId, NoMemory>
        ensures future { IfOk result (λ k. k ≡ length self.old.calls) }
        ensures submits { OnOk result (
            Submits (record { actor = actor; method = method; args = args }) self.old self.new) }
        ensures does { OnOk result (DoesMore (Submit actor method args ∷ []) self.old self.new) }
        ensures on { IsLater self.old self.new }
        ensures err { OnErr result (self.new ≡ self.old) }
    {
        let Ok(copy) = args.copy_of(self.alloc) else {
            drop(args);
            self.stop(Pause::Memory);
            return Err(NoMemory);
        };
        let step = submission(actor, &method, &args);
        let Ok(k) = self.owner.submit(actor, method, args) else {
            drop(step);
            drop(copy);
            self.stop(Pause::Memory);
            return Err(NoMemory);
        };
        let me = self.owner.id();
        self.note(Event::Submit(me, actor, method, copy));
        add_step(&mut self.did, step);
        Ok(k)
    }
}
