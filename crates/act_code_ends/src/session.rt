//! A rehearsal as the session that the code is lent.

ghost use Rattle.std.specs.Prelude.{◌≡◌, nat_lt};
ghost use Rattle.std.specs.List.{list_all};

use crate::rehearsal::{Pause, Rehearsal};
use act_drive::{Doing, KillRefusal, MAX_KILLS, Session, WaitRefusal, add_step};
use act_handles::HandleRefusal;
use act_rules::{Event, SubmitRefusal};
use act_types::{ActorId, Answer, Arg, FutureId, ListOf, Method, NoMemory};
use std::alloc::Global;

/// Whether each of these futures is one of the first `count`.
fn are_below(futures: &[FutureId], count: u32) -> bool
    ensures { result ≡ list_all (λ k. nat_lt k count) futures.now }
{
    futures.iter().all(|k| k.number() < count)
}

impl<'a> Session for Rehearsal<'a> {
    ghost seen = { λ rehearsal. rehearsal };

    fn submit(
        &mut self,
        actor: ActorId,
        method: Method,
        args: ListOf<Arg>,
    ) -> Result<FutureId, SubmitRefusal> {
        if let Some(refusal) = self.call_refusal(actor, &args) {
            drop(args);
            return Err(refusal);
        }
        self.await_room(actor);
        if self.has_stopped() {
            drop(args);
            return Err(SubmitRefusal::NoMemory);
        }
        match self.enter(actor, method, args) {
            Ok(k) => Ok(k),
            Err(_) => Err(SubmitRefusal::NoMemory),
        }
    }

    fn wait(&mut self, k: FutureId) -> Result<(), WaitRefusal> {
        if k.number() >= self.owner.count() {
            return Err(WaitRefusal::NoFuture);
        }
        if !self.await_answer(k) {
            return Err(WaitRefusal::NoMemory);
        }
        add_step(&mut self.did, Doing::Await(k));
        Ok(())
    }

    fn wait_any(&mut self, futures: &[FutureId]) -> Result<usize, WaitRefusal> {
        if futures.is_empty() || !are_below(futures, self.owner.count()) {
            return Err(WaitRefusal::NoFuture);
        }
        let Some(at) = self.await_any(futures) else {
            return Err(WaitRefusal::NoMemory);
        };
        add_step(&mut self.did, Doing::Await(futures[at]));
        Ok(at)
    }

    /// Where each call has an answer there is nothing to choose.
    fn turn(&mut self) -> Result<(), NoMemory> {
        if self.has_stopped() {
            return Err(NoMemory);
        }
        if self.owner.all_answered() {
            return Ok(());
        }
        let Some(count) = self.looks.get(self.looked) else {
            self.stop(Pause::Looks);
            return Err(NoMemory);
        };
        self.looked += 1;
        self.take_some(*count);
        if self.has_stopped() {
            return Err(NoMemory);
        }
        Ok(())
    }

    fn answer(&self, k: FutureId) -> Option<&Answer> {
        self.owner.answer(k)
    }

    fn copy(&mut self, actor: ActorId) -> Result<u32, HandleRefusal> {
        let copies = self.owner.copy(actor)?;
        let me = self.owner.id();
        self.note(Event::Copy(me, actor));
        add_step(&mut self.did, Doing::Copy(actor));
        Ok(copies)
    }

    fn release(&mut self, actor: ActorId) -> Result<(), HandleRefusal> {
        let note = self.owner.release(actor)?;
        drop(note);
        let me = self.owner.id();
        self.note(Event::Release(me, actor));
        add_step(&mut self.did, Doing::Release(actor));
        Ok(())
    }

    fn kill(&mut self, actor: ActorId) -> Result<(), KillRefusal> {
        if let Some(refusal) = self.use_refusal(actor) {
            return Err(KillRefusal::Handle(refusal));
        }
        let number = actor.number() as usize;
        if self.kills[number] >= MAX_KILLS {
            return Err(KillRefusal::TooManyKills);
        }
        if self.has_stopped() {
            return Err(KillRefusal::NoMemory);
        }
        let me = self.owner.id();
        self.note(Event::AskKill(me, actor));
        self.kills[number] += 1;
        add_step(&mut self.did, Doing::Kill(actor));
        Ok(())
    }

    fn pending(&self, actor: ActorId) -> u32 {
        self.owner.pending(actor)
    }

    fn limit(&self, actor: ActorId) -> Option<u32> {
        self.owner.limit(actor)
    }

    fn holds(&self, actor: ActorId) -> u32 {
        self.owner.holds(actor)
    }

    fn kills(&self, actor: ActorId) -> u32 {
        self.kills[actor.number() as usize]
    }

    fn count(&self) -> u32 {
        self.owner.count()
    }

    fn alloc(&self) -> Global {
        self.alloc
    }
}
