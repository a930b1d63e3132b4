//! Where callers and actors are after some choices.
//!
//! All that isn't a choice is done as early as it can be: a caller's steps, the sending of its calls,
//! the collection of replies and of deaths. Each of these only ever lets more happen.

use crate::choice::Choice;
use crate::kind::Kind;
use crate::plans::{Plans, limit_of};
use act_kinds::Actor;
use act_plans::CallerSetup;
use act_rules::Step;
use act_types::{
    ACTOR_NUMBERS, ActorId, Answer, Arg, CALLER_NUMBERS, CallerId, CopyOf, Fault, FutureId, Method,
    NoMemory, Settled, Value,
};
use std::alloc::Global;

/// A call that was submitted.
#[derive(Drop)]
pub(crate) struct Call {
    pub(crate) actor: ActorId,
    /// Its step in the caller's plan.
    step: usize,
    pub(crate) answer: Option<Answer>,
}

/// What a caller did.
#[derive(Drop)]
pub(crate) struct Caller {
    /// How many steps of its plan.
    done: usize,
    pub(crate) calls: Vec<Call>,
}

/// A call that an actor ran.
#[derive(Drop)]
pub(crate) struct Ran {
    pub(crate) caller: CallerId,
    pub(crate) future: FutureId,
    pub(crate) method: Method,
    pub(crate) args: Vec<Settled>,
}

/// How an actor stands.
#[derive(Clone, Copy, Debug, PartialEq, Eq)]
pub(crate) enum Standing {
    Live,
    /// It took a kill.
    Killed,
    /// It ran a `terminate`.
    Terminated,
}

/// What an actor did.
#[derive(Drop)]
pub(crate) struct Server {
    pub(crate) kind: Option<Kind>,
    pub(crate) standing: Standing,
    /// Whether a caller asked for its kill.
    is_asked: bool,
    pub(crate) log: Vec<Ran>,
}

/// Where all of them are. Each stands at its number.
#[derive(Drop)]
pub(crate) struct State {
    alloc: Global,
    callers: Vec<Caller>,
    actors: Vec<Server>,
}

/// A future by its place.
pub(crate) fn future_at(place: usize) -> FutureId {
    FutureId::new(u32::try_from(place).unwrap_or(u32::MAX))
}

/// What a step submits, if it does.
pub(crate) fn submission(step: Option<&Step>) -> Option<(&Method, &[Arg])> {
    match step {
        Some(Step::Submit(_, method, args)) => Some((method, args.as_slice())),
        _ => None,
    }
}

/// Copies of the values, or the future of the first argument that failed.
fn values_of(alloc: Global, args: &[Settled]) -> Result<Result<Vec<Value>, FutureId>, NoMemory> {
    let mut values = Vec::new(alloc);
    for arg in args {
        match arg {
            Settled::Good(value) => values.push(value.copy_of(alloc)?)?,
            Settled::Bad(future) => return Ok(Err(*future)),
        }
    }
    Ok(Ok(values))
}

impl Server {
    fn is_dead(&self) -> bool {
        self.standing != Standing::Live
    }

    /// How many calls of the caller it ran.
    fn count_of(&self, c: CallerId) -> usize {
        self.log.iter().filter(|ran| ran.caller == c).count()
    }

    /// What it answers to these values.
    fn ask(&mut self, method: Method, values: &[Value]) -> Result<Answer, NoMemory> {
        if method == Method::Terminate {
            if !values.is_empty() {
                return Ok(Err(Fault::BadArgs));
            }
            self.standing = Standing::Terminated;
            return Ok(Ok(Value::Unit));
        }
        match &mut self.kind {
            Some(kind) => kind.ask(&method, values),
            None => Ok(Err(Fault::NoMethod)),
        }
    }

    /// Runs a call.
    fn run(&mut self, alloc: Global, ran: Ran) -> Result<Answer, NoMemory> {
        let answer = match values_of(alloc, &ran.args)? {
            Ok(values) => self.ask(ran.method, &values)?,
            Err(future) => Err(Fault::Dependency(future)),
        };
        self.log.push(ran)?;
        Ok(answer)
    }
}

impl Caller {
    /// Whether the future has an answer.
    fn is_answered(&self, k: FutureId) -> bool {
        match self.calls.get(k.number() as usize) {
            Some(call) => call.answer.is_some(),
            None => false,
        }
    }

    /// How many calls to the actor have no answer.
    fn pending(&self, a: ActorId) -> usize {
        self.calls
            .iter()
            .filter(|call| call.actor == a && call.answer.is_none())
            .count()
    }

    /// The place of its call to the actor that has so many before it.
    fn call_to(&self, a: ActorId, number: usize) -> Option<usize> {
        let mut before = 0usize;
        for (place, call) in self.calls.iter().enumerate() {
            if call.actor == a {
                if before == number {
                    return Some(place);
                }
                before = before.wrapping_add(1);
            }
        }
        None
    }

    /// Each open call to an actor that died has this answer.
    fn lose(&mut self, a: ActorId) {
        for call in &mut self.calls {
            if call.actor == a && call.answer.is_none() {
                call.answer = Some(Err(Fault::ActorDied));
            }
        }
    }

    /// Whether all arguments are known.
    fn knows(&self, args: &[Arg]) -> bool {
        args.iter().all(|arg| match arg {
            Arg::Plain(_) => true,
            Arg::Fut(k) => self.is_answered(*k),
        })
    }

    /// An argument as it is sent.
    fn settle(&self, alloc: Global, arg: &Arg) -> Result<Settled, NoMemory> {
        match arg {
            Arg::Plain(value) => Ok(Settled::Good(value.copy_of(alloc)?)),
            Arg::Fut(k) => match self.calls.get(k.number() as usize) {
                Some(
                    Call {
                        answer: Some(Ok(value)),
                        ..
                    },
                ) => Ok(Settled::Good(value.copy_of(alloc)?)),
                _ => Ok(Settled::Bad(*k)),
            },
        }
    }

    /// The arguments as they are sent.
    fn settle_all(&self, alloc: Global, args: &[Arg]) -> Result<Vec<Settled>, NoMemory> {
        let mut settled = Vec::new(alloc);
        for arg in args {
            settled.push(self.settle(alloc, arg)?)?;
        }
        Ok(settled)
    }
}

impl State {
    /// All callers and actors as they begin.
    pub(crate) fn open(alloc: Global, plans: &Plans) -> Result<State, NoMemory> {
        let mut state = State {
            alloc,
            callers: Vec::new(alloc),
            actors: Vec::new(alloc),
        };
        match state.begin(plans) {
            Ok(()) => Ok(state),
            Err(error) => {
                drop(state);
                Err(error)
            }
        }
    }

    fn begin(&mut self, plans: &Plans) -> Result<(), NoMemory> {
        let alloc = self.alloc;
        for _ in 0..CALLER_NUMBERS {
            self.callers.push(Caller {
                done: 0,
                calls: Vec::new(alloc),
            })?;
        }
        for _ in 0..ACTOR_NUMBERS {
            self.actors.push(Server {
                kind: None,
                standing: Standing::Live,
                is_asked: false,
                log: Vec::new(alloc),
            })?;
        }
        for cast in &plans.casts {
            if let Some(server) = self.actors.get_mut(cast.actor.number() as usize) {
                server.kind = Some(Kind::open(alloc, cast.kind));
            }
        }
        self.advance_all(plans)
    }

    pub(crate) fn caller(&self, c: CallerId) -> Option<&Caller> {
        self.callers.get(c.number() as usize)
    }

    pub(crate) fn actor(&self, a: ActorId) -> Option<&Server> {
        self.actors.get(a.number() as usize)
    }

    fn is_dead(&self, a: ActorId) -> bool {
        match self.actor(a) {
            Some(server) => server.is_dead(),
            None => false,
        }
    }

    /// Submits a call, unless the limit holds it back. One to a dead actor is answered at once.
    fn submit(&mut self, setup: &CallerSetup, a: ActorId) -> Result<bool, NoMemory> {
        let is_dead = self.is_dead(a);
        let Some(caller) = self.callers.get_mut(setup.caller.number() as usize) else {
            return Ok(false);
        };
        if let Some(limit) = limit_of(setup, a)
            && !is_dead
            && caller.pending(a) >= limit as usize
        {
            return Ok(false);
        }
        let answer = if is_dead {
            Some(Err(Fault::ActorDied))
        } else {
            None
        };
        caller.calls.push(Call {
            actor: a,
            step: caller.done,
            answer,
        })?;
        Ok(true)
    }

    fn ask_kill(&mut self, a: ActorId) {
        if let Some(server) = self.actors.get_mut(a.number() as usize) {
            server.is_asked = true;
        }
    }

    fn is_answered(&self, c: CallerId, k: FutureId) -> bool {
        match self.caller(c) {
            Some(caller) => caller.is_answered(k),
            None => false,
        }
    }

    /// Does the caller's next step, where nothing holds it back.
    fn step(&mut self, setup: &CallerSetup) -> Result<bool, NoMemory> {
        let c = setup.caller;
        let Some(caller) = self.caller(c) else {
            return Ok(false);
        };
        let done = caller.done;
        let may_go_on = match setup.plan.get(done) {
            None => false,
            Some(Step::Submit(a, _, _)) => self.submit(setup, *a)?,
            Some(Step::Await(k)) => self.is_answered(c, *k),
            Some(Step::Kill(a)) => {
                self.ask_kill(*a);
                true
            }
            Some(Step::Copy(_) | Step::Release(_)) => true,
        };
        if may_go_on && let Some(caller) = self.callers.get_mut(c.number() as usize) {
            caller.done = done.saturating_add(1);
        }
        Ok(may_go_on)
    }

    /// Does the caller's steps as far as it can.
    fn advance(&mut self, setup: &CallerSetup) -> Result<(), NoMemory> {
        for _step in 0..setup.plan.len() {
            if !self.step(setup)? {
                break;
            }
        }
        Ok(())
    }

    fn advance_all(&mut self, plans: &Plans) -> Result<(), NoMemory> {
        for setup in &plans.setups {
            self.advance(setup)?;
        }
        Ok(())
    }

    /// The place of the caller's call that the actor runs next, where it was sent.
    fn next_call(&self, setup: &CallerSetup, a: ActorId) -> Option<usize> {
        let caller = self.caller(setup.caller)?;
        let number = self.actor(a)?.count_of(setup.caller);
        let place = caller.call_to(a, number)?;
        let call = caller.calls.get(place)?;
        let (_, args) = submission(setup.plan.get(call.step))?;
        if !caller.knows(args) {
            return None;
        }
        Some(place)
    }

    /// The call at this place, with its arguments settled.
    fn sent(&self, setup: &CallerSetup, place: usize) -> Result<Option<Ran>, NoMemory> {
        let Some(caller) = self.caller(setup.caller) else {
            return Ok(None);
        };
        let Some(call) = caller.calls.get(place) else {
            return Ok(None);
        };
        let Some((method, args)) = submission(setup.plan.get(call.step)) else {
            return Ok(None);
        };
        Ok(Some(Ran {
            caller: setup.caller,
            future: future_at(place),
            method: *method,
            args: caller.settle_all(self.alloc, args)?,
        }))
    }

    /// Each caller hears that the actor died.
    fn lose(&mut self, a: ActorId) {
        for caller in &mut self.callers {
            caller.lose(a);
        }
    }

    /// Goes on after a run of the caller's call at the actor.
    fn go_on(&mut self, plans: &Plans, setup: &CallerSetup, a: ActorId) -> Result<(), NoMemory> {
        if self.is_dead(a) {
            self.lose(a);
            self.advance_all(plans)
        } else {
            self.advance(setup)
        }
    }

    /// The actor runs the caller's next call.
    fn run(&mut self, plans: &Plans, a: ActorId, setup: &CallerSetup) -> Result<(), NoMemory> {
        let Some(place) = self.next_call(setup, a) else {
            return Ok(());
        };
        let Some(ran) = self.sent(setup, place)? else {
            return Ok(());
        };
        let Some(server) = self.actors.get_mut(a.number() as usize) else {
            drop(ran);
            return Ok(());
        };
        let answer = server.run(self.alloc, ran)?;
        if let Some(caller) = self.callers.get_mut(setup.caller.number() as usize)
            && let Some(call) = caller.calls.get_mut(place)
        {
            call.answer = Some(answer);
        }
        self.go_on(plans, setup, a)
    }

    /// The actor takes a kill.
    fn take(&mut self, plans: &Plans, a: ActorId) -> Result<(), NoMemory> {
        if let Some(server) = self.actors.get_mut(a.number() as usize) {
            server.standing = Standing::Killed;
        }
        self.lose(a);
        self.advance_all(plans)
    }

    /// Makes a choice, and then all that can be done.
    pub(crate) fn choose(&mut self, plans: &Plans, choice: Choice) -> Result<(), NoMemory> {
        match choice {
            Choice::Take(a) => self.take(plans, a),
            Choice::Run(a, c) => {
                for setup in &plans.setups {
                    if setup.caller == c {
                        return self.run(plans, a, setup);
                    }
                }
                Ok(())
            }
        }
    }

    /// Adds the choices at an actor.
    fn add_choices(
        &self,
        plans: &Plans,
        a: ActorId,
        choices: &mut Vec<Choice>,
    ) -> Result<(), NoMemory> {
        let Some(server) = self.actor(a) else {
            return Ok(());
        };
        if server.is_dead() {
            return Ok(());
        }
        for setup in &plans.setups {
            if self.next_call(setup, a).is_some() {
                choices.push(Choice::Run(a, setup.caller))?;
            }
        }
        if server.is_asked {
            choices.push(Choice::Take(a))?;
        }
        Ok(())
    }

    /// All choices that there are.
    pub(crate) fn choices(&self, plans: &Plans) -> Result<Vec<Choice>, NoMemory> {
        let mut choices = Vec::new(self.alloc);
        for cast in &plans.casts {
            self.add_choices(plans, cast.actor, &mut choices)?;
        }
        Ok(choices)
    }

    /// Whether the caller did its plan, and each of its calls has an answer.
    fn is_through(&self, setup: &CallerSetup) -> bool {
        match self.caller(setup.caller) {
            Some(caller) => {
                caller.done == setup.plan.len()
                    && caller.calls.iter().all(|call| call.answer.is_some())
            }
            None => false,
        }
    }

    /// Whether this is an end. A live actor ran all its calls then, and retires.
    pub(crate) fn is_end(&self, plans: &Plans) -> bool {
        plans.setups.iter().all(|setup| self.is_through(setup))
    }

    /// Whether a call of the caller that has no answer yet has this future as an argument.
    pub(crate) fn is_needed(&self, setup: &CallerSetup, k: FutureId) -> bool {
        let mut place = 0usize;
        for step in &setup.plan {
            if let Some((_, args)) = submission(Some(step)) {
                let names_it = args.iter().any(|arg| match arg {
                    Arg::Plain(_) => false,
                    Arg::Fut(future) => *future == k,
                });
                if names_it && !self.is_answered(setup.caller, future_at(place)) {
                    return true;
                }
                place = place.wrapping_add(1);
            }
        }
        false
    }

    /// How many calls of the caller the actor ran.
    pub(crate) fn count_of(&self, a: ActorId, c: CallerId) -> usize {
        match self.actor(a) {
            Some(server) => server.count_of(c),
            None => 0,
        }
    }
}
