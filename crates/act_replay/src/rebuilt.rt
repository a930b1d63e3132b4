//! A play made of what a run in threads left, and of nothing else.
//!
//! It is made greedily. Each event is put as soon as what it needs is there: a call is submitted when
//! its caller's limit allows it. It is sent and runs when its turn in the run list has come and its
//! arguments are known. A reply is collected where its answer was kept, and a killed actor dies after
//! its run list. Each of these holds in any play with this end, and stays true once it is. So where
//! nothing more can be put, no play ends so.
//!
//! No contract says that what is made is a play: a world plays it, and the two ends are compared.

ghost use Rattle.std.specs.Prelude.{◌≡◌, ◌==◌, position};

use crate::progress::{ActorProgress, CallerProgress};
use act_executor::{Ended, Finished};
use act_kinds::Actor;
use act_owner::Owner;
use act_rules::{Event, RunItem};
use act_types::{ActorId, Answer, CallerId, CopyOf, Fault, FutureId, Method, NoMemory};
use std::alloc::Global;

/// A play that is being made.
#[derive(Drop)]
struct Rebuilt {
    alloc: Global,
    events: Vec<Event>,
    /// How many letters there are so far, and how many notices.
    letters: u32,
    notices: u32,
    /// The callers and the actors, in the order in which they were joined.
    callers: Vec<CallerProgress>,
    actors: Vec<ActorProgress>,
}

/// The place of the caller.
fn place_of(owners: &[Owner], c: CallerId) -> Option<usize>
    ensures { result ≡ position (λ owner. owner.id == c) owners.now }
{
    owners.iter().position(|owner| owner.id() == c)
}

/// Whether the answer is one that a death gives.
fn is_death(answer: Option<&Answer>) -> bool {
    matches!(answer, Some(Err(Fault::ActorDied)))
}

/// Whether the call ended its actor.
fn is_end(item: &RunItem) -> bool {
    match item.method {
        Method::Terminate => item.args.as_slice().is_empty(),
        _ => false,
    }
}

/// Whether the actor's last call ended it.
fn has_terminated(log: &[RunItem]) -> bool {
    match log.last() {
        Some(item) => is_end(item),
        None => false,
    }
}

impl Rebuilt {
    /// No event, for so many callers and actors.
    fn open(alloc: Global, callers: usize, actors: usize) -> Result<Rebuilt, NoMemory> {
        let mut rebuilt = Rebuilt {
            alloc,
            events: Vec::new(alloc),
            letters: 0,
            notices: 0,
            callers: Vec::new(alloc),
            actors: Vec::new(alloc),
        };
        match rebuilt.add_nobody(callers, actors) {
            Ok(()) => Ok(rebuilt),
            Err(error) => {
                drop(rebuilt);
                Err(error)
            }
        }
    }

    /// So many callers and actors that did nothing yet.
    fn add_nobody(&mut self, callers: usize, actors: usize) -> Result<(), NoMemory> {
        for _caller in 0..callers {
            self.callers.push(CallerProgress::new(self.alloc))?;
        }
        for _actor in 0..actors {
            self.actors.push(ActorProgress {
                ran: 0,
                is_dead: false,
            })?;
        }
        Ok(())
    }

    fn put(&mut self, event: Event) -> Result<(), NoMemory> {
        self.events.push(event)?;
        Ok(())
    }

    /// The place that the next letter has.
    fn next_letter(&mut self) -> u32 {
        let place = self.letters;
        self.letters = place.wrapping_add(1);
        place
    }

    /// The place that the next notice has.
    fn next_notice(&mut self) -> u32 {
        let place = self.notices;
        self.notices = place.wrapping_add(1);
        place
    }

    /// Submits the caller's next call, where its limit allows it.
    fn submit(&mut self, owner: &Owner, at: usize, k: FutureId) -> Result<bool, NoMemory> {
        let Some(call) = owner.call(k) else {
            return Ok(false);
        };
        let Some(caller) = self.callers.get_mut(at) else {
            return Ok(false);
        };
        if !caller.may_submit(owner, call.actor) {
            return Ok(false);
        }
        caller.submit(call.actor)?;
        let args = call.args.copy_of(self.alloc)?;
        self.put(Event::Submit(owner.id(), call.actor, call.method, args))?;
        Ok(true)
    }

    fn count_submitted(&self, at: usize) -> u32 {
        match self.callers.get(at) {
            Some(caller) => caller.count_submitted(),
            None => 0,
        }
    }

    /// Submits the caller's calls as far as its limits allow.
    fn submit_all(&mut self, owner: &Owner, at: usize) -> Result<bool, NoMemory> {
        let mut has_moved = false;
        for number in self.count_submitted(at)..owner.count() {
            if !self.submit(owner, at, FutureId::new(number))? {
                return Ok(has_moved);
            }
            has_moved = true;
        }
        Ok(has_moved)
    }

    /// Whether the call was submitted, and can be sent.
    fn may_send(&self, owner: &Owner, at: usize, k: FutureId) -> bool {
        match self.callers.get(at) {
            Some(caller) => caller.may_send(owner, k),
            None => false,
        }
    }

    /// Collects the reply to a call, where it gave the answer that was kept.
    fn collect(
        &mut self,
        owner: &Owner,
        at: usize,
        a: ActorId,
        k: FutureId,
        notice: u32,
    ) -> Result<(), NoMemory> {
        if is_death(owner.answer(k)) {
            return Ok(());
        }
        if let Some(caller) = self.callers.get_mut(at) {
            caller.collect(a, k);
        }
        self.put(Event::Collect(notice))
    }

    /// Sends a call, brings it to its actor and runs it, where it can be sent.
    fn run(&mut self, owners: &[Owner], a: ActorId, item: &RunItem) -> Result<bool, NoMemory> {
        let Some(at) = place_of(owners, item.caller) else {
            return Ok(false);
        };
        let owner = &owners[at];
        if !self.may_send(owner, at, item.future) {
            return Ok(false);
        }
        let letter = self.next_letter();
        let notice = self.next_notice();
        self.put(Event::Send(item.caller, item.future))?;
        self.put(Event::Deliver(letter))?;
        self.put(Event::Run(a, item.caller))?;
        self.collect(owner, at, a, item.future, notice)?;
        Ok(true)
    }

    /// What the actor did so far.
    fn actor_at(&self, at: usize) -> ActorProgress {
        match self.actors.get(at) {
            Some(progress) => *progress,
            None => ActorProgress {
                ran: 0,
                is_dead: false,
            },
        }
    }

    fn set_actor(&mut self, at: usize, progress: ActorProgress) {
        if let Some(place) = self.actors.get_mut(at) {
            *place = progress;
        }
    }

    /// Runs the actor's calls as far as they can be sent.
    fn run_all(
        &mut self,
        owners: &[Owner],
        at: usize,
        a: ActorId,
        log: &[RunItem],
    ) -> Result<bool, NoMemory> {
        let mut progress = self.actor_at(at);
        let before = progress.ran;
        for place in before..log.len() {
            if !self.run(owners, a, &log[place])? {
                break;
            }
            progress.ran = place + 1;
        }
        self.set_actor(at, progress);
        Ok(before < progress.ran)
    }

    /// The actor takes a kill, which one of its callers asked for.
    fn kill(&mut self, owners: &[Owner], a: ActorId) -> Result<(), NoMemory> {
        if let Some(at) = owners.iter().position(|owner| owner.is_listed(a)) {
            self.put(Event::AskKill(owners[at].id(), a))?;
            self.put(Event::TakeKill(a))?;
        }
        Ok(())
    }

    /// The dead actor tells its caller, which collects the notice.
    fn tell(&mut self, owner: &Owner, at: usize, a: ActorId) -> Result<(), NoMemory> {
        let notice = self.next_notice();
        if let Some(caller) = self.callers.get_mut(at) {
            caller.lose(owner, a);
        }
        self.put(Event::Tell(a, owner.id()))?;
        self.put(Event::Collect(notice))
    }

    /// The dead actor tells each of its callers.
    fn tell_all(&mut self, owners: &[Owner], a: ActorId) -> Result<(), NoMemory> {
        for (at, owner) in owners.iter().enumerate() {
            if owner.is_listed(a) {
                self.tell(owner, at, a)?;
            }
        }
        Ok(())
    }

    /// A killed actor dies once it ran all that it ran.
    fn die(
        &mut self,
        owners: &[Owner],
        at: usize,
        a: ActorId,
        log: &[RunItem],
    ) -> Result<bool, NoMemory> {
        let progress = self.actor_at(at);
        if progress.is_dead || progress.ran < log.len() {
            return Ok(false);
        }
        self.set_actor(
            at,
            ActorProgress {
                ran: progress.ran,
                is_dead: true,
            },
        );
        if !has_terminated(log) {
            self.kill(owners, a)?;
        }
        self.tell_all(owners, a)?;
        Ok(true)
    }

    /// What the actor can do now.
    fn serve<K: Actor>(
        &mut self,
        owners: &[Owner],
        at: usize,
        ended: &Ended<K>,
    ) -> Result<bool, NoMemory> {
        match ended {
            Ended::Killed(dead) | Ended::Starved(dead) => {
                let has_run = self.run_all(owners, at, dead.id(), dead.log())?;
                let has_died = self.die(owners, at, dead.id(), dead.log())?;
                Ok(has_run || has_died)
            }
            Ended::Retired(retired) => self.run_all(owners, at, retired.id(), retired.log()),
        }
    }

    /// What all callers can submit now.
    fn submit_round(&mut self, owners: &[Owner]) -> Result<bool, NoMemory> {
        let mut has_moved = false;
        for (at, owner) in owners.iter().enumerate() {
            has_moved = self.submit_all(owner, at)? || has_moved;
        }
        Ok(has_moved)
    }

    /// What all actors can do now.
    fn serve_round<K: Actor>(
        &mut self,
        owners: &[Owner],
        actors: &[Finished<K>],
    ) -> Result<bool, NoMemory> {
        let mut has_moved = false;
        for (at, actor) in actors.iter().enumerate() {
            has_moved = self.serve(owners, at, &actor.ended)? || has_moved;
        }
        Ok(has_moved)
    }

    /// A caller lets its handle go, and the actor hears of it.
    fn release(&mut self, owner: &Owner, a: ActorId) -> Result<(), NoMemory> {
        let letter = self.next_letter();
        self.put(Event::Release(owner.id(), a))?;
        self.put(Event::Deliver(letter))
    }

    /// All callers of an actor let their handles go, and it retires.
    fn retire(&mut self, owners: &[Owner], a: ActorId) -> Result<(), NoMemory> {
        for owner in owners {
            if owner.is_listed(a) {
                self.release(owner, a)?;
            }
        }
        self.put(Event::Retire(a))
    }

    /// The actors that were not killed retire.
    fn retire_all<K: Actor>(
        &mut self,
        owners: &[Owner],
        actors: &[Finished<K>],
    ) -> Result<(), NoMemory> {
        for actor in actors {
            if let Ended::Retired(retired) = &actor.ended {
                self.retire(owners, retired.id())?;
            }
        }
        Ok(())
    }

    /// Puts events as far as they can be put.
    fn put_all<K: Actor>(
        &mut self,
        owners: &[Owner],
        actors: &[Finished<K>],
    ) -> Result<(), NoMemory> {
        for _round in 0..MAX_ROUNDS {
            let has_submitted = self.submit_round(owners)?;
            let has_served = self.serve_round(owners, actors)?;
            if !has_submitted && !has_served {
                break;
            }
        }
        self.retire_all(owners, actors)
    }
}

/// More rounds than there are events in any play.
const MAX_ROUNDS: u32 = 4_294_967_295;

/// The events of a play that ends in what these callers and actors left, where one does.
pub(crate) fn rebuild<K: Actor>(
    alloc: Global,
    owners: &[Owner],
    actors: &[Finished<K>],
) -> Result<Vec<Event>, NoMemory> {
    let mut rebuilt = Rebuilt::open(alloc, owners.len(), actors.len())?;
    match rebuilt.put_all(owners, actors) {
        Ok(()) => {
            let Rebuilt { events, .. } = rebuilt;
            Ok(events)
        }
        Err(error) => {
            drop(rebuilt);
            Err(error)
        }
    }
}
