//! A history, from the script and the lines of what was left.

use crate::failed::note_failed;
use crate::history::{
    Between, Call, Caller, Ending, History, Kept, Lines, Placed, Ran, Served, is_line_end,
};
use crate::line::{Told, read_words};
use crate::mistake::{Mistake, Wrongly};
use act_rules::{KindName, Role, RunItem, Step, Wrong};
use act_scripts::LineFault;
use act_types::{
    ACTOR_NUMBERS, ActorId, Arg, CALLER_NUMBERS, CallerId, CopyOf, FutureId, ListOf, Method,
    NoMemory, Settled,
};
use std::alloc::Global;
use std::str;

/// What the lines tell so far, and which comes next.
#[derive(Drop)]
struct Reading {
    alloc: Global,
    history: History,
    /// The last caller that had a line, and the last actor. 0 before the first.
    caller: u8,
    actor: u8,
}

/// A history of nobody.
fn empty_history(alloc: Global) -> Result<History, NoMemory> {
    let mut history = History {
        callers: Vec::new(alloc),
        actors: Vec::new(alloc),
    };
    match add_nobody(alloc, &mut history) {
        Ok(()) => Ok(history),
        Err(error) => {
            drop(history);
            Err(error)
        }
    }
}

/// A caller and an actor for each number, of which nothing is told yet.
fn add_nobody(alloc: Global, history: &mut History) -> Result<(), NoMemory> {
    for _ in 0..CALLER_NUMBERS {
        history.callers.push(Caller::new(alloc))?;
    }
    for _ in 0..ACTOR_NUMBERS {
        history.actors.push(Served::new(alloc))?;
    }
    Ok(())
}

/// A mistake of this line.
fn mistake<T>(line: u32, wrong: Wrongly) -> Result<T, Mistake> {
    Err(Mistake::Line(line, wrong))
}

/// A call of a caller that has no line of a script: until it runs, it is taken as one that could
/// be sent at once.
fn unknown_call(alloc: Global, actor: ActorId, line: u32) -> Call {
    Call {
        actor,
        method: Method::Get,
        args: ListOf::new(alloc),
        kept: Kept::Nothing,
        submitted: 0,
        line,
        place: None,
        failed: None,
    }
}

/// The argument as it was submitted, where only what it was settled to is known.
fn arg_of(alloc: Global, settled: &Settled) -> Result<Arg, NoMemory> {
    match settled {
        Settled::Good(value) => Ok(Arg::Plain(value.copy_of(alloc)?)),
        Settled::Bad(future) => Ok(Arg::Fut(*future)),
    }
}

/// The arguments as they were submitted, where only what they were settled to is known.
fn args_of(alloc: Global, item: &RunItem) -> Result<ListOf<Arg>, NoMemory> {
    let mut args = ListOf::new(alloc);
    for settled in item.args.as_slice() {
        args.push(arg_of(alloc, settled)?)?;
    }
    Ok(args)
}

impl Reading {
    fn caller_mut(&mut self, c: CallerId) -> Option<&mut Caller> {
        self.history.callers.get_mut(c.number() as usize)
    }

    fn actor_mut(&mut self, a: ActorId) -> Option<&mut Served> {
        self.history.actors.get_mut(a.number() as usize)
    }

    /// The callers that a role names.
    fn add_callers(&mut self, a: ActorId, callers: &[CallerId]) -> Result<(), NoMemory> {
        for c in callers {
            if let Some(caller) = self.caller_mut(*c) {
                caller.is_named = true;
            }
            if let Some(actor) = self.actor_mut(a) {
                actor.callers.push(*c)?;
            }
        }
        Ok(())
    }

    fn add_role(&mut self, role: &Role) -> Result<(), NoMemory> {
        if let Some(actor) = self.actor_mut(role.actor) {
            actor.kind = Some(role.kind);
            actor.limit = role.pending;
        }
        self.add_callers(role.actor, role.callers.as_slice())
    }

    fn add_roles(&mut self, roles: &[Role]) -> Result<(), NoMemory> {
        for role in roles {
            self.add_role(role)?;
        }
        Ok(())
    }

    /// A call that the script submits.
    fn submit(
        &mut self,
        c: CallerId,
        actor: ActorId,
        method: Method,
        args: &ListOf<Arg>,
        line: u32,
    ) -> Result<(), Mistake> {
        let alloc = self.alloc;
        let Some(caller) = self.caller_mut(c) else {
            return Ok(());
        };
        if !caller.is_named {
            return mistake(line, Wrongly::NoRole);
        }
        caller.has_plan = true;
        caller.calls.push(Call {
            actor,
            method,
            args: args.copy_of(alloc)?,
            kept: Kept::Nothing,
            submitted: line,
            line,
            place: None,
            failed: None,
        })?;
        Ok(())
    }

    /// A step that submits nothing.
    fn add_between(&mut self, c: CallerId, step: Between, line: u32) -> Result<(), Mistake> {
        let Some(caller) = self.caller_mut(c) else {
            return Ok(());
        };
        let after = caller.calls.len();
        if let Between::Await(k) = step {
            if k.number() as usize >= after {
                return mistake(line, Wrongly::Script(Wrong::BadPlan));
            }
            caller.awaits = true;
        }
        caller.between.push(Placed { step, after, line })?;
        Ok(())
    }

    fn add_step(&mut self, c: CallerId, step: &Step, line: u32) -> Result<(), Mistake> {
        match step {
            Step::Submit(actor, method, args) => self.submit(c, *actor, *method, args, line),
            Step::Copy(_) | Step::Release(_) => self.add_between(c, Between::Handle, line),
            Step::Kill(actor) => self.add_between(c, Between::Kill(*actor), line),
            Step::Await(future) => self.add_between(c, Between::Await(*future), line),
        }
    }

    /// What the script's steps tell. Those that submit nothing bind a caller only where it awaits.
    fn add_steps(&mut self, steps: &[(CallerId, Step, u32)]) -> Result<(), Mistake> {
        for (caller, step, line) in steps {
            self.add_step(*caller, step, *line)?;
        }
        for caller in self.history.callers.iter_mut() {
            if !caller.awaits {
                caller.between.clear();
            }
        }
        Ok(())
    }

    /// Looks whether the line of a future comes in its turn.
    fn check_future(&mut self, c: CallerId, k: FutureId, line: u32) -> Result<(), Mistake> {
        if self.actor > 0 || c.number() < self.caller {
            return mistake(line, Wrongly::OutOfOrder);
        }
        self.caller = c.number();
        match self.history.caller(c) {
            Some(caller) if caller.is_named => {
                if caller.told != k.number() as usize {
                    return mistake(line, Wrongly::OutOfOrder);
                }
                Ok(())
            }
            _ => mistake(line, Wrongly::NoRole),
        }
    }

    /// Adds the call of a caller whose calls no line of the script tells.
    fn add_unknown(&mut self, c: CallerId, a: ActorId, line: u32) -> Result<(), NoMemory> {
        let alloc = self.alloc;
        if let Some(caller) = self.caller_mut(c)
            && !caller.has_plan
        {
            caller.calls.push(unknown_call(alloc, a, line))?;
        }
        Ok(())
    }

    /// Looks whether the line of a future tells of a call to the actor, which is the caller's next.
    fn check_told(
        &mut self,
        c: CallerId,
        k: FutureId,
        a: ActorId,
        line: u32,
    ) -> Result<(), Mistake> {
        self.check_future(c, k, line)?;
        self.add_unknown(c, a, line)?;
        match self.history.call(c, k) {
            None => mistake(line, Wrongly::NotSubmitted),
            Some(call) if call.actor != a => mistake(line, Wrongly::OtherActor),
            Some(_) => Ok(()),
        }
    }

    /// Notes the answer that a caller keeps of a call, and the line that tells it.
    fn keep(&mut self, c: CallerId, k: FutureId, kept: Kept, line: u32) {
        if let Some(caller) = self.caller_mut(c)
            && let Some(call) = caller.calls.get_mut(k.number() as usize)
        {
            call.kept = kept;
            call.line = line;
            caller.told = caller.told.saturating_add(1);
        }
    }

    /// What a caller keeps of a call.
    fn add_future(
        &mut self,
        c: CallerId,
        k: FutureId,
        a: ActorId,
        kept: Kept,
        line: u32,
    ) -> Result<(), Mistake> {
        match self.check_told(c, k, a, line) {
            Ok(()) => {
                self.keep(c, k, kept, line);
                Ok(())
            }
            Err(mistake) => {
                drop(kept);
                Err(mistake)
            }
        }
    }

    /// How an actor is left.
    fn add_end(
        &mut self,
        a: ActorId,
        ending: Ending,
        kind: Option<KindName>,
        line: u32,
    ) -> Result<(), Mistake> {
        if a.number() <= self.actor {
            return mistake(line, Wrongly::OutOfOrder);
        }
        self.actor = a.number();
        let Some(actor) = self.actor_mut(a) else {
            return mistake(line, Wrongly::NoRole);
        };
        let Some(own) = actor.kind else {
            return mistake(line, Wrongly::NoRole);
        };
        if let Some(kind) = kind
            && kind != own
        {
            return mistake(line, Wrongly::OtherKind);
        }
        actor.ending = ending;
        actor.line = line;
        Ok(())
    }

    /// What a call was that only its run tells.
    fn learn(&mut self, item: &RunItem) -> Result<(), NoMemory> {
        let alloc = self.alloc;
        if let Some(caller) = self.caller_mut(item.caller)
            && !caller.has_plan
            && let Some(call) = caller.calls.get_mut(item.future.number() as usize)
        {
            call.args = args_of(alloc, item)?;
            call.method = item.method;
        }
        Ok(())
    }

    /// Whether the call at a place of the actor's run list is one to it, and runs for the first time.
    fn is_first(&self, a: ActorId, item: &RunItem) -> bool {
        match self.history.call(item.caller, item.future) {
            Some(call) => call.actor == a && call.place.is_none(),
            None => false,
        }
    }

    /// Notes where a call ran.
    fn note_run(&mut self, place: u32, item: &RunItem) {
        if let Some(call) = self.history.call_mut(item.caller, item.future) {
            call.place = Some(place);
        }
    }

    /// Looks whether the line of a run comes in its turn.
    fn check_run(&self, a: ActorId, place: u32, line: u32) -> Result<(), Mistake> {
        if a.number() != self.actor {
            return mistake(line, Wrongly::OutOfOrder);
        }
        match self.history.actor(a) {
            None => mistake(line, Wrongly::NoRole),
            Some(actor) if actor.log.len() != place as usize => {
                mistake(line, Wrongly::OutOfOrder)
            }
            Some(_) => Ok(()),
        }
    }

    /// What the run of a call tells of it, in its turn.
    fn note(&mut self, a: ActorId, place: u32, item: &RunItem, line: u32) -> Result<(), Mistake> {
        if self.is_first(a, item) {
            self.learn(item)?;
            self.note_run(place, item);
        }
        self.check_run(a, place, line)
    }

    /// A call that an actor ran.
    fn add_run(&mut self, a: ActorId, place: u32, item: RunItem, line: u32) -> Result<(), Mistake> {
        if let Err(mistake) = self.note(a, place, &item, line) {
            drop(item);
            return Err(mistake);
        }
        if let Some(actor) = self.actor_mut(a) {
            actor.log.push(Ran { item, line })?;
        }
        Ok(())
    }

    fn add(&mut self, told: Told, line: u32) -> Result<(), Mistake> {
        match told {
            Told::Future(caller, future, actor, kept) => {
                self.add_future(caller, future, actor, kept, line)
            }
            Told::End(actor, ending, kind) => self.add_end(actor, ending, kind, line),
            Told::Run(actor, place, item) => self.add_run(actor, place, item, line),
        }
    }

    /// Looks whether each call of the script has the line of its future.
    fn check_calls(&self) -> Result<(), Mistake> {
        for caller in &self.history.callers {
            if let Some(call) = caller.calls.get(caller.told) {
                return mistake(call.line, Wrongly::NoFuture);
            }
        }
        Ok(())
    }

    /// Looks whether each actor that has a role has a line.
    fn check_actors(&self) -> Result<(), Mistake> {
        for actor in &self.history.actors {
            if actor.kind.is_some() && actor.line == 0 {
                return mistake(0, Wrongly::NoEnd);
            }
        }
        Ok(())
    }
}

/// A fault of words, as a mistake of their line.
fn mistake_of(line: u32, fault: LineFault) -> Mistake {
    match fault {
        LineFault::Wrong(Wrong::BadLine) => Mistake::Line(line, Wrongly::BadLine),
        LineFault::Wrong(wrong) => Mistake::Line(line, Wrongly::Script(wrong)),
        LineFault::Memory => Mistake::NoMemory,
    }
}

/// What a line tells that isn't skipped.
fn read_line(alloc: Global, line: &[u8], number: u32) -> Result<Told, Mistake> {
    let Ok(text) = str::from_utf8(line) else {
        return mistake(number, Wrongly::BadLine);
    };
    let mut words = Vec::new(alloc);
    for word in text.split(' ') {
        words.push(word)?;
    }
    match read_words(alloc, &words) {
        Ok(told) => Ok(told),
        Err(fault) => Err(mistake_of(number, fault)),
    }
}

/// Adds what a line tells, unless it is skipped.
fn add_line(reading: &mut Reading, line: &[u8], number: u32) -> Result<(), Mistake> {
    match line {
        [] | [b'#', ..] => Ok(()),
        _ => {
            let told = read_line(reading.alloc, line, number)?;
            reading.add(told, number)
        }
    }
}

/// Adds what the lines tell, of which the first has the number after this one.
fn add_lines(reading: &mut Reading, rest: &[u8], before: u32) -> Result<(), Mistake> {
    let mut number = before;
    for line in rest.split(is_line_end) {
        number = number.wrapping_add(1);
        add_line(reading, line, number)?;
    }
    Ok(())
}

/// Adds what roles, steps and the lines of what was left tell, up to their first mistake.
fn add_all(reading: &mut Reading, roles: &[Role], lines: Lines<'_>) -> Result<(), Mistake> {
    reading.add_roles(roles)?;
    reading.add_steps(lines.steps)?;
    add_lines(reading, lines.rest, lines.before)?;
    reading.check_calls()?;
    reading.check_actors()?;
    note_failed(reading.alloc, &mut reading.history)?;
    Ok(())
}

/// The history that roles, steps and the lines of what was left tell, or their first mistake.
pub(crate) fn read_history(
    alloc: Global,
    roles: &[Role],
    lines: Lines<'_>,
) -> Result<History, Mistake> {
    let mut reading = Reading {
        alloc,
        history: empty_history(alloc)?,
        caller: 0,
        actor: 0,
    };
    match add_all(&mut reading, roles, lines) {
        Ok(()) => {
            let Reading { history, .. } = reading;
            Ok(history)
        }
        Err(mistake) => {
            drop(reading);
            Err(mistake)
        }
    }
}
