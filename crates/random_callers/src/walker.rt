//! A caller whose code draws its steps, and decides by what it is told.

use crate::call::{Place, Wanted, future, key, method_of, places_of, reading_of};
use crate::crew::Crew;
use crate::draw::Draw;
use crate::trace::Trace;
use act_rules::KindName;
use act_types::{ActorId, Answer, Arg, Fault, FutureId, ListOf, Method, NoMemory, Value};
use std::alloc::Global;

/// What the last answer has the caller do next.
#[derive(Clone, Copy, Debug, PartialEq, Eq)]
pub(crate) enum Next {
    /// What is drawn.
    Draw,
    /// The actor is dead, so its handle goes.
    LetGo(ActorId),
    /// A call met a fault, so the caller asks what the actor holds.
    Look(ActorId),
}

/// A caller: what it may draw, and what it made of the answers so far.
#[derive(Drop)]
pub(crate) struct Walker<'a, R> {
    pub(crate) trace: Trace<'a, R>,
    pub(crate) crew: Crew,
    pub(crate) draw: Draw,
    pub(crate) steps: u32,
    /// Whether it gives up at its end.
    pub(crate) gives_up: bool,
    pub(crate) next: Next,
    /// The last number that it was told, until it is spent in a call.
    pub(crate) purse: Option<i64>,
    /// The actor of each of its calls.
    pub(crate) called: Vec<ActorId>,
}

impl<'a, R> Walker<'a, R> {
    /// One of the actors, or now and then one that may not be there.
    pub(crate) fn actor(&mut self) -> ActorId {
        let last = if self.draw.once_in(40) {
            8
        } else {
            self.crew.actors.number() as u32
        };
        ActorId::new(self.draw.below(last) as u8 + 1).unwrap()
    }

    fn number(&mut self) -> i64 {
        match self.purse.take() {
            Some(number) => number,
            None => self.draw.below(12) as i64 - 2,
        }
    }

    /// A value or, now and then, a future.
    fn argument(&mut self, alloc: Global, place: Place, count: u32) -> Result<Arg, NoMemory> {
        if self.draw.once_in(6) {
            return Ok(Arg::Fut(future(&mut self.draw, count)));
        }
        let value = match place {
            Place::Number => Value::Int(self.number()),
            Place::Key => key(alloc, &mut self.draw)?,
            Place::Any => {
                if self.draw.once_in(2) {
                    Value::Int(self.number())
                } else {
                    key(alloc, &mut self.draw)?
                }
            }
        };
        Ok(Arg::Plain(value))
    }

    fn arguments(
        &mut self,
        alloc: Global,
        places: &[Place],
        count: u32,
    ) -> Result<ListOf<Arg>, NoMemory> {
        let mut args = ListOf::new(alloc);
        for place in places {
            args.push(self.argument(alloc, *place, count)?)?;
        }
        Ok(args)
    }

    /// More arguments than the method takes, or than any call may have.
    fn too_many(&mut self, alloc: Global) -> Result<ListOf<Arg>, NoMemory> {
        let mut args = ListOf::new(alloc);
        for _ in 0..self.draw.below(4) + 3 {
            args.push(Arg::Plain(Value::Unit))?;
        }
        Ok(args)
    }

    /// The arguments of a method, or now and then too many.
    fn arguments_of(
        &mut self,
        alloc: Global,
        kind: KindName,
        method: &Method,
        count: u32,
    ) -> Result<ListOf<Arg>, NoMemory> {
        if self.draw.once_in(40) {
            return self.too_many(alloc);
        }
        self.arguments(alloc, places_of(kind, *method), count)
    }

    /// A call that is drawn.
    pub(crate) fn call(&mut self, alloc: Global, count: u32) -> Result<Wanted, NoMemory> {
        let actor = self.actor();
        let kind = self.crew.kind_of(actor);
        let method = method_of(&mut self.draw, kind, self.crew.kills);
        let args = self.arguments_of(alloc, kind, &method, count)?;
        Ok(Wanted::new(actor, method, args))
    }

    /// The call that asks what an actor holds.
    pub(crate) fn look(&self, alloc: Global, actor: ActorId) -> Wanted {
        Wanted {
            actor,
            method: reading_of(self.crew.kind_of(actor)),
            args: ListOf::new(alloc),
        }
    }

    /// Decides by the answer of a future.
    pub(crate) fn decide(&mut self, k: FutureId, answer: &Answer) {
        let Some(actor) = self.called.get(k.number() as usize) else {
            return;
        };
        match answer {
            Ok(Value::Int(number)) => self.purse = Some(*number),
            Ok(_) => {}
            Err(Fault::ActorDied) => self.next = Next::LetGo(*actor),
            Err(_) => self.next = Next::Look(*actor),
        }
    }
}
