//! What an actor answers at each place of its run list, and what a call has there as arguments, by what
//! the history tells alone.

use crate::differs::{push_other_answer, push_other_args};
use crate::history::{Call, History, Kept, Ran, Served};
use crate::reason::ToldPlace;
use crate::rules::{is_end, may_run_as};
use act_compare::{same_answer, same_settled_args};
use act_kinds::{Account, Actor, Counter, ListKind, Table};
use act_rules::{KindName, RunItem};
use act_types::{
    ActorId, Answer, Arg, CallerId, CopyOf, Fault, FutureId, Method, NoMemory, Settled, SmallList,
    Value,
};
use std::alloc::{AllocError, Global};

/// What an actor answers to a call whose arguments are these values.
fn answer_to<K: Actor>(
    kind: &mut K,
    method: &Method,
    values: &[Value],
) -> Result<Answer, NoMemory> {
    match (method, values) {
        (Method::Terminate, []) => Ok(Ok(Value::Unit)),
        (Method::Terminate, _) => Ok(Err(Fault::BadArgs)),
        _ => kind.ask(method, values),
    }
}

/// The first future among arguments that failed.
fn failed_in(args: &[Settled]) -> Option<FutureId> {
    for arg in args {
        if let Settled::Bad(future) = arg {
            return Some(*future);
        }
    }
    None
}

/// The values of arguments of which none failed.
fn values_of(alloc: Global, args: &[Settled]) -> Result<SmallList<Value>, NoMemory> {
    let mut values = SmallList::with_capacity(alloc, args.len())?;
    for arg in args {
        if let Settled::Good(value) = arg {
            values.push(value.copy_of(alloc)?)?;
        }
    }
    Ok(values)
}

/// What an actor answers to a call, with the arguments that it ran with.
fn answer_of<K: Actor>(alloc: Global, kind: &mut K, item: &RunItem) -> Result<Answer, NoMemory> {
    let args = item.args.as_slice();
    if let Some(future) = failed_in(args) {
        return Ok(Err(Fault::Dependency(future)));
    }
    let values = values_of(alloc, args)?;
    let answer = answer_to(kind, &item.method, values.as_slice());
    drop(values);
    answer
}

/// What an actor answers at each place of its run list.
#[derive(Drop)]
struct Answered {
    /// Behind the call that ends the actor, too: what its kind would answer there.
    answers: Vec<Answer>,
    /// How many of them come no later than that call.
    until_end: usize,
}

/// How many of these calls come no later than the one that ends the actor.
fn count_until_end(log: &[Ran]) -> usize {
    for (place, ran) in log.iter().enumerate() {
        if is_end(&ran.item) {
            return place.saturating_add(1);
        }
    }
    log.len()
}

fn answers_by<K: Actor>(alloc: Global, mut kind: K, log: &[Ran]) -> Result<Answered, NoMemory> {
    let mut answers = Vec::new(alloc);
    for ran in log {
        answers.push(answer_of(alloc, &mut kind, &ran.item)?)?;
    }
    Ok(Answered {
        answers,
        until_end: count_until_end(log),
    })
}

/// The same of an actor, whose kind is opened for that.
fn answers_of(alloc: Global, actor: &Served) -> Result<Answered, NoMemory> {
    match actor.kind {
        None => Ok(Answered {
            answers: Vec::new(alloc),
            until_end: 0,
        }),
        Some(KindName::Counter) => answers_by(alloc, Counter::open(), &actor.log),
        Some(KindName::Table) => answers_by(alloc, Table::open(alloc), &actor.log),
        Some(KindName::Account) => answers_by(alloc, Account::open(), &actor.log),
        Some(KindName::ListKind) => answers_by(alloc, ListKind::open(alloc), &actor.log),
    }
}

/// What each actor answers, by its number.
#[derive(Drop)]
pub(crate) struct Replies {
    of_actors: Vec<Answered>,
}

impl Replies {
    pub(crate) fn new(alloc: Global, history: &History) -> Result<Replies, NoMemory> {
        let mut of_actors = Vec::new(alloc);
        for actor in &history.actors {
            of_actors.push(answers_of(alloc, actor)?)?;
        }
        Ok(Replies { of_actors })
    }

    /// What the actor answers at a place, unless that is behind its end.
    pub(crate) fn at(&self, a: ActorId, place: u32) -> Option<&Answer> {
        let told = self.of_actors.get(a.number() as usize)?;
        if place as usize >= told.until_end {
            return None;
        }
        told.answers.get(place as usize)
    }

    /// Whether it answers a value there, or would if it hadn't ended.
    pub(crate) fn is_value(&self, a: ActorId, place: u32) -> bool {
        match self.of_actors.get(a.number() as usize) {
            Some(told) => matches!(told.answers.get(place as usize), Some(Ok(_))),
            None => false,
        }
    }

    /// The answer of a call: the one that is told, and where that isn't judged the one of its run.
    fn answer_of<'a>(&'a self, call: &'a Call) -> Option<&'a Answer> {
        match &call.kept {
            Kept::Nothing => None,
            Kept::Something => self.at(call.actor, call.place?),
            Kept::Answer(answer) => Some(answer),
        }
    }

    /// What a future is settled to as an argument, or what it ran as where it has no answer.
    fn settled_future(
        &self,
        alloc: Global,
        call: Option<&Call>,
        future: FutureId,
        ran: &Settled,
    ) -> Result<Settled, NoMemory> {
        let Some(call) = call else {
            return ran.copy_of(alloc);
        };
        if call.has_died() {
            return Ok(Settled::Bad(future));
        }
        match self.answer_of(call) {
            None => ran.copy_of(alloc),
            Some(Ok(value)) => Ok(Settled::Good(value.copy_of(alloc)?)),
            Some(Err(_)) => Ok(Settled::Bad(future)),
        }
    }

    /// What an argument of a caller's call is settled to that ran so.
    fn settled_arg(
        &self,
        alloc: Global,
        history: &History,
        c: CallerId,
        arg: &Arg,
        ran: &Settled,
    ) -> Result<Settled, NoMemory> {
        match arg {
            Arg::Plain(value) => Ok(Settled::Good(value.copy_of(alloc)?)),
            Arg::Fut(k) => self.settled_future(alloc, history.call(c, *k), *k, ran),
        }
    }

    /// What the arguments of a call are settled to that ran so.
    fn settled_args(
        &self,
        alloc: Global,
        history: &History,
        call: &Call,
        item: &RunItem,
    ) -> Result<SmallList<Settled>, NoMemory> {
        let mut args = SmallList::with_capacity(alloc, item.args.len())?;
        for (arg, ran) in call.args.as_slice().iter().zip(item.args.as_slice()) {
            args.push(self.settled_arg(alloc, history, item.caller, arg, ran)?)?;
        }
        Ok(args)
    }

    /// Adds that a call ran with other arguments than its own are settled to.
    fn push_args_fault(
        &self,
        alloc: Global,
        text: &mut String,
        history: &History,
        told: &ToldPlace,
        call: &Call,
        item: &RunItem,
    ) -> Result<(), NoMemory> {
        if !may_run_as(call, item) {
            return Ok(());
        }
        let args = self.settled_args(alloc, history, call, item)?;
        if !same_settled_args(args.as_slice(), item.args.as_slice()) {
            push_other_args(text, told, args.as_slice(), item.args.as_slice())?;
        }
        Ok(())
    }

    /// Adds what is told of the arguments and the answer of a call that ran here, and isn't so. Behind
    /// its actor's end nothing is added.
    pub(crate) fn push_faults(
        &self,
        alloc: Global,
        text: &mut String,
        history: &History,
        told: &ToldPlace,
        item: &RunItem,
    ) -> Result<(), NoMemory> {
        let Some(by_rules) = self.at(told.at.actor, told.at.place) else {
            return Ok(());
        };
        if let Some(call) = call_at(history, told, item) {
            self.push_args_fault(alloc, text, history, told, call, item)?;
            push_answer_fault(text, told, call, by_rules)?;
        }
        Ok(())
    }
}

/// Adds that another answer is told of a call than its actor gives.
fn push_answer_fault(
    text: &mut String,
    told: &ToldPlace,
    call: &Call,
    by_rules: &Answer,
) -> Result<(), AllocError> {
    if call.has_died() {
        return Ok(());
    }
    if let Some(answer) = call.answer()
        && !same_answer(by_rules, answer)
    {
        push_other_answer(text, told, by_rules, answer, call.line)?;
    }
    Ok(())
}

/// The call that runs first at this place.
fn call_at<'a>(history: &'a History, told: &ToldPlace, item: &RunItem) -> Option<&'a Call> {
    let call = history.call(item.caller, item.future)?;
    if call.actor == told.at.actor && call.place == Some(told.at.place) {
        return Some(call);
    }
    None
}
