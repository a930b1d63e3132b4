//! A caller at work, as it is lent to its code.

ghost use Rattle.std.specs.Prelude.{◌≡◌, ◌≢◌, [], ◌∷◌, length, None, IfOk, OnOk, IfErr, OnErr, unwrap_or};
ghost use Rattle.act_rules.specs.declared.outcome.SubmitRefusal.TheVariants.{NoMemory as NoRoom};
ghost use Rattle.act_rules.specs.declared.script.Step.TheVariants.{Submit};
ghost use Rattle.act_drive.specs.Sessions.{call_refusal, IsLater, DoesMore, OnlyHears, Submits};

use crate::any::are_below;
use crate::did::{Did, add_step};
use crate::doing::{Doing, submission};
use crate::driver::{CallerLines, Driver};
use crate::refusals::{KillRefusal, WaitRefusal};
use crate::session::{MAX_KILLS, Session};
use act_handles::HandleRefusal;
use act_mailbox::{IdleBackoff, NoNotes};
use act_rules::SubmitRefusal;
use act_types::{ACTOR_NUMBERS, ActorId, Answer, Arg, FutureId, ListOf, Method, NoMemory};
use std::alloc::Global;
use std::marker::{Model, PhantomData};
use std::snapshot::Snapshot;
use std::sync::Wait;

/// From which driver a session began. It is known in proofs alone.
pub(crate) trait Opening {
    ghost use Rattle.std.specs.Prelude.{ℕ, List};
    ghost use Rattle.act_drive.specs.declared.driver.CallerLines.{CallerLines};
    ghost use Rattle.act_drive.specs.declared.driver.Driver.{Driver};

    ghost actors: { List ℕ };

    ghost began: { CallerLines → Driver → Type 0 };
}

/// A driver that is lent to its caller's code. `since` counts the submissions from one turn to the next,
/// and `kills` the kills asked of each actor, by its number. What it did is known to contracts alone.
#[derive(Drop)]
pub(crate) struct Lent<'a, R, O: Opening> {
    pub(crate) rt: &'a R,
    pub(crate) alloc: Global,
    pub(crate) lines: &'a CallerLines<'a>,
    pub(crate) driver: Driver,
    pub(crate) since: u32,
    pub(crate) idle_backoff: IdleBackoff,
    pub(crate) kills: [u32; ACTOR_NUMBERS],
    pub(crate) did: Snapshot<Did>,
    pub(crate) of: PhantomData<O>,
}

impl<'a, R, O: Opening> Model for Lent<'a, R, O> {
    ghost use Rattle.act_drive.specs.Sessions.{SessionView, session_view};
    ghost use Rattle.act_drive.specs.Lent.{IsAtWork};

    ghost Value = { SessionView };

    ghost view = { λ s. record (session_view s.driver.owner) { kills = s.kills; did = s.did.value } };

    ghost invariant = { λ s. IsAtWork O.actors (O.began s.lines.now) s.lines.now s.driver s.kills s.did.value };
}

impl<'a, R: Wait, O: Opening> Lent<'a, R, O> {
    /// Submits a call, and takes no turn but to wait.
    fn enter(
        &mut self,
        actor: ActorId,
        method: Method,
        args: ListOf<Arg>,
    ) -> Result<FutureId, SubmitRefusal>
        ensures future { IfOk result (λ k. k ≡ length self.old.calls) }
        ensures accepted { OnOk result (call_refusal self.old actor args ≡ None) }
        ensures submits { OnOk result (
            Submits (record { actor = actor; method = method; args = args }) self.old self.new) }
        ensures does { OnOk result (DoesMore (Submit actor method args ∷ []) self.old self.new) }
        ensures does_nothing { OnErr result (self.new.did ≡ self.old.did) }
        ensures refusal { IfErr result (λ refusal. refusal ≡ unwrap_or (call_refusal self.old actor args) NoRoom) }
        ensures refused { IfErr result (λ refusal. refusal ≢ NoRoom → self.new ≡ self.old) }
        ensures hears { OnErr result (OnlyHears self.old self.new) }
        ensures on { IsLater self.old self.new }
    {
        let step = submission(actor, &method, &args);
        let k = self
            .driver
            .try_submit(self.rt, self.alloc, self.lines, actor, method, args)?;
        add_step(&mut self.did, step);
        Ok(k)
    }

    /// A turn after each so many submissions. What it can't send for want of memory is sent later.
    fn turn_after(&mut self)
        ensures does_nothing { self.new.did ≡ self.old.did }
        ensures hears { OnlyHears self.old self.new }
        ensures on { IsLater self.old self.new }
    {
        let _ = self.driver.turn_after(
            self.rt,
            self.alloc,
            self.lines,
            &mut self.since,
            &mut NoNotes,
        );
    }
}

impl<'a, R: Wait, O: Opening> Session for Lent<'a, R, O> {
    ghost seen = { λ lent. lent };

    fn submit(
        &mut self,
        actor: ActorId,
        method: Method,
        args: ListOf<Arg>,
    ) -> Result<FutureId, SubmitRefusal> {
        let k = self.enter(actor, method, args)?;
        self.turn_after();
        Ok(k)
    }

    fn wait(&mut self, k: FutureId) -> Result<(), WaitRefusal> {
        if k.number() >= self.driver.owner.count() {
            return Err(WaitRefusal::NoFuture);
        }
        let idle = &mut self.idle_backoff;
        match self
            .driver
            .wait_for(self.rt, self.alloc, self.lines, k, idle, &mut NoNotes)
        {
            Ok(()) => {
                add_step(&mut self.did, Doing::Await(k));
                Ok(())
            }
            Err(_) => Err(WaitRefusal::NoMemory),
        }
    }

    fn wait_any(&mut self, futures: &[FutureId]) -> Result<usize, WaitRefusal> {
        if futures.is_empty() || !are_below(futures, self.driver.owner.count()) {
            return Err(WaitRefusal::NoFuture);
        }
        let idle = &mut self.idle_backoff;
        match self.driver.wait_for_any(
            self.rt,
            self.alloc,
            self.lines,
            futures,
            idle,
            &mut NoNotes,
        ) {
            Ok(at) => {
                add_step(&mut self.did, Doing::Await(futures[at]));
                Ok(at)
            }
            Err(_) => Err(WaitRefusal::NoMemory),
        }
    }

    fn turn(&mut self) -> Result<(), NoMemory> {
        self.driver
            .turn(self.rt, self.alloc, self.lines, &mut NoNotes)?;
        Ok(())
    }

    fn answer(&self, k: FutureId) -> Option<&Answer> {
        self.driver.owner.answer(k)
    }

    fn copy(&mut self, actor: ActorId) -> Result<u32, HandleRefusal> {
        let copies = self.driver.try_copy(actor)?;
        add_step(&mut self.did, Doing::Copy(actor));
        Ok(copies)
    }

    fn release(&mut self, actor: ActorId) -> Result<(), HandleRefusal> {
        if let Some(refusal) = self.driver.use_refusal(actor) {
            return Err(refusal);
        }
        let Ok(()) = self
            .driver
            .release(self.rt, self.lines, actor, &mut NoNotes)
        else {
            unreachable!()
        };
        add_step(&mut self.did, Doing::Release(actor));
        Ok(())
    }

    fn kill(&mut self, actor: ActorId) -> Result<(), KillRefusal> {
        if let Some(refusal) = self.driver.use_refusal(actor) {
            return Err(KillRefusal::Handle(refusal));
        }
        let number = actor.number() as usize;
        if self.kills[number] >= MAX_KILLS {
            return Err(KillRefusal::TooManyKills);
        }
        match self
            .driver
            .kill(self.rt, self.alloc, self.lines, actor, &mut NoNotes)
        {
            Ok(()) => {
                self.kills[number] += 1;
                add_step(&mut self.did, Doing::Kill(actor));
                Ok(())
            }
            Err(_) => Err(KillRefusal::NoMemory),
        }
    }

    fn pending(&self, actor: ActorId) -> u32 {
        self.driver.owner.pending(actor)
    }

    fn limit(&self, actor: ActorId) -> Option<u32> {
        self.driver.owner.limit(actor)
    }

    fn holds(&self, actor: ActorId) -> u32 {
        self.driver.owner.holds(actor)
    }

    fn kills(&self, actor: ActorId) -> u32 {
        self.kills[actor.number() as usize]
    }

    fn count(&self) -> u32 {
        self.driver.owner.count()
    }

    fn alloc(&self) -> Global {
        self.alloc
    }
}
