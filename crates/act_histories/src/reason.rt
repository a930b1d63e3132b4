//! Why no play ends as a history does.

use act_types::{ActorId, CallerId, FutureId, NoMemory};
use std::alloc::{AllocError, Global};
use std::fmt;
use std::fmt::Display;

/// How much is told of a history that no play ends as.
#[derive(Clone, Copy, Debug, PartialEq, Eq)]
pub enum Reasons {
    /// The first fault that is found.
    First,
    /// Every fault of what actors ran and of what callers were answered, by rising lines.
    All,
}

/// A caller's call, told as its future.
#[derive(Clone, Copy, PartialEq, Eq)]
pub(crate) struct CallName {
    pub(crate) caller: CallerId,
    pub(crate) future: FutureId,
}

impl CallName {
    /// The same name once more.
    pub(crate) fn again(&self) -> CallName {
        CallName {
            caller: self.caller,
            future: self.future,
        }
    }
}

impl fmt::Display for CallName {
    fn fmt<W: fmt::Write>(&self, f: &mut fmt::Formatter<W>) -> fmt::Result {
        let CallName { caller, future } = *self;
        write!(f, "{caller}.{future}")
    }
}

/// A place of an actor's run list.
#[derive(Clone, Copy)]
pub(crate) struct PlaceName {
    pub(crate) actor: ActorId,
    pub(crate) place: u32,
}

impl fmt::Display for PlaceName {
    fn fmt<W: fmt::Write>(&self, f: &mut fmt::Formatter<W>) -> fmt::Result {
        let PlaceName { actor, place } = *self;
        write!(f, "{actor}.{place}")
    }
}

/// A place of an actor's run list, and the line that tells it.
#[derive(Clone, Copy)]
pub(crate) struct ToldPlace {
    pub(crate) at: PlaceName,
    pub(crate) line: u32,
}

impl fmt::Display for ToldPlace {
    fn fmt<W: fmt::Write>(&self, f: &mut fmt::Formatter<W>) -> fmt::Result {
        let ToldPlace { at, line } = *self;
        write!(f, "{at} (line {line})")
    }
}

/// Why no play ends so.
#[derive(Clone, Copy)]
pub(crate) enum Reason {
    /// The caller of the call at this place may not call the actor.
    NoHandle(PlaceName, CallerId),
    /// The call at this place has no line.
    Unsubmitted(PlaceName, CallName),
    /// The call at this place goes to another actor.
    Elsewhere(PlaceName, CallName, ActorId),
    /// What runs at this place comes after another call of the same caller, which runs later.
    Skips(PlaceName, CallName, ToldPlace),
    /// The same of another call that didn't run.
    SkipsForGood(PlaceName, CallName),
    /// The call at this place ran before, at the other one.
    Again(PlaceName, CallName, ToldPlace),
    /// Another method or other arguments were submitted, at this line.
    OtherCall(PlaceName, CallName, u32),
    /// A call ran after the one that ended the actor.
    AfterTheEnd(PlaceName),
    /// The actor's last call ended it, and it is told as live or retired.
    Terminated(PlaceName),
    /// The call has an answer, and its actor didn't run it.
    NotRun(CallName, ActorId),
    /// The actor retired, and didn't run the call.
    LeftOver(CallName, ActorId),
    /// The call is answered by a death, and its actor isn't dead.
    NoDeath(CallName, ActorId),
    /// The first call has no answer, and the second is answered by the death of the same actor.
    HalfDead(CallName, CallName),
    /// The call takes an answer of a call that comes later.
    Later(CallName, FutureId),
    /// The first call waits for the answer of the second.
    WaitsForAnswer(CallName, CallName),
    /// The first call waits for the second, which ran before it.
    WaitsForTurn(CallName, CallName, ActorId),
    /// The call waits for the actor's death, and that for the second call, which ran before.
    WaitsForDeath(CallName, CallName, ActorId),
    /// The first call waits until the second is submitted, which comes before it.
    WaitsForSubmission(CallName, CallName),
    /// The first call waits until the second has an answer: the actor's limit lets it in no sooner.
    WaitsForRoom(CallName, CallName, ActorId),
    /// The first call waits until the second has an answer, which its caller awaits before it.
    WaitsForAwait(CallName, CallName),
    /// The caller waits for the answer, and does no other step before.
    Awaits(CallerId, CallName),
    /// The call waits for the actor's death.
    WaitsForEnd(CallName, ActorId),
    /// The actor's death waits for a kill of the caller's lines.
    WaitsForKill(ActorId, CallerId),
    /// The actor is dead, and its callers do their lines alone, none of which is a kill of it.
    NoKill(ActorId),
    /// The call has no answer.
    Open(CallName),
    /// Nothing more can happen, and this is all that is known.
    Stuck,
}

/// What a reason names.
#[derive(Clone, Copy)]
enum Named {
    Nothing,
    Actor(ActorId),
    Caller(CallerId),
    Future(FutureId),
    Call(CallName),
    Place(PlaceName),
    Told(ToldPlace),
    Line(u32),
}

impl fmt::Display for Named {
    fn fmt<W: fmt::Write>(&self, f: &mut fmt::Formatter<W>) -> fmt::Result {
        match self {
            Named::Nothing => Ok(()),
            Named::Actor(a) => a.fmt(f),
            Named::Caller(c) => c.fmt(f),
            Named::Future(k) => k.fmt(f),
            Named::Call(call) => call.fmt(f),
            Named::Place(at) => at.fmt(f),
            Named::Told(at) => at.fmt(f),
            Named::Line(line) => line.fmt(f),
        }
    }
}

/// The line of a reason: what it names, and the text behind each.
#[derive(Clone, Copy)]
struct Sentence {
    first: Named,
    after_first: &'static str,
    second: Named,
    after_second: &'static str,
    third: Named,
    after_third: &'static str,
}

/// A line that names one thing.
fn of_one(first: Named, after: &'static str) -> Sentence {
    of_three(first, after, Named::Nothing, "", Named::Nothing, "")
}

/// A line that names two things.
fn of_two(first: Named, between: &'static str, second: Named, after: &'static str) -> Sentence {
    of_three(first, between, second, after, Named::Nothing, "")
}

/// A line that names three things.
fn of_three(
    first: Named,
    after_first: &'static str,
    second: Named,
    after_second: &'static str,
    third: Named,
    after_third: &'static str,
) -> Sentence {
    Sentence {
        first,
        after_first,
        second,
        after_second,
        third,
        after_third,
    }
}

impl Reason {
    // No arm writes: all that writing does would stand in the proof once for each reason.
    fn sentence(&self) -> Sentence {
        match *self {
            Reason::NoHandle(at, c) => of_two(
                Named::Place(at),
                " is a call of ",
                Named::Caller(c),
                ", which has no handle",
            ),
            Reason::Unsubmitted(at, call) => of_two(
                Named::Place(at),
                " is ",
                Named::Call(call),
                ", which has no line",
            ),
            Reason::Elsewhere(at, call, a) => of_three(
                Named::Place(at),
                " is ",
                Named::Call(call),
                ", which goes to ",
                Named::Actor(a),
                "",
            ),
            Reason::Skips(at, call, later) => of_three(
                Named::Place(at),
                " skips ",
                Named::Call(call),
                ", which runs at ",
                Named::Told(later),
                "",
            ),
            Reason::SkipsForGood(at, call) => of_two(
                Named::Place(at),
                " skips ",
                Named::Call(call),
                ", which didn't run",
            ),
            Reason::Again(at, call, before) => of_three(
                Named::Place(at),
                " runs ",
                Named::Call(call),
                " again, after ",
                Named::Told(before),
                "",
            ),
            Reason::OtherCall(at, call, line) => of_three(
                Named::Place(at),
                " isn't ",
                Named::Call(call),
                " as it was submitted (line ",
                Named::Line(line),
                ")",
            ),
            Reason::AfterTheEnd(at) => of_one(Named::Place(at), " runs after a terminate"),
            Reason::Terminated(at) => of_one(
                Named::Place(at),
                " is a terminate, so its actor is dead",
            ),
            Reason::NotRun(call, a) => of_two(
                Named::Call(call),
                " has an answer, and ",
                Named::Actor(a),
                " didn't run it",
            ),
            Reason::LeftOver(call, a) => of_two(
                Named::Actor(a),
                " retired, and didn't run ",
                Named::Call(call),
                "",
            ),
            Reason::NoDeath(call, a) => of_two(
                Named::Call(call),
                " has ActorDied, and ",
                Named::Actor(a),
                " isn't dead",
            ),
            Reason::HalfDead(open, call) => of_two(
                Named::Call(open),
                " has no answer, and the death that answered ",
                Named::Call(call),
                " answers both",
            ),
            Reason::Later(call, k) => of_two(
                Named::Call(call),
                " takes the answer of @",
                Named::Future(k),
                ", a later call",
            ),
            Reason::WaitsForAnswer(call, of) => of_two(
                Named::Call(call),
                " waits for the answer of ",
                Named::Call(of),
                "",
            ),
            Reason::WaitsForTurn(call, of, a) => of_three(
                Named::Call(call),
                " waits for ",
                Named::Call(of),
                " at ",
                Named::Actor(a),
                ", which ran before it",
            ),
            Reason::WaitsForDeath(call, of, a) => of_three(
                Named::Call(call),
                " waits for the death of ",
                Named::Actor(a),
                ", which ran ",
                Named::Call(of),
                " before",
            ),
            Reason::WaitsForSubmission(call, of) => of_two(
                Named::Call(call),
                " waits for ",
                Named::Call(of),
                ", which is submitted before it",
            ),
            Reason::WaitsForRoom(call, of, a) => of_three(
                Named::Call(call),
                " waits for the answer of ",
                Named::Call(of),
                ", by the limit of ",
                Named::Actor(a),
                "",
            ),
            Reason::WaitsForAwait(call, of) => of_two(
                Named::Call(call),
                " waits for the answer of ",
                Named::Call(of),
                ", by this await",
            ),
            Reason::Awaits(c, of) => of_two(
                Named::Caller(c),
                " waits for the answer of ",
                Named::Call(of),
                ", by this await",
            ),
            Reason::WaitsForEnd(call, a) => of_two(
                Named::Call(call),
                " waits for the death of ",
                Named::Actor(a),
                "",
            ),
            Reason::WaitsForKill(a, c) => of_two(
                Named::Actor(a),
                " is dead, and waits for this kill of ",
                Named::Caller(c),
                "",
            ),
            Reason::NoKill(a) => of_one(
                Named::Actor(a),
                " is dead, and its callers await answers and have no kill of it",
            ),
            Reason::Open(call) => of_one(Named::Call(call), " has no answer"),
            Reason::Stuck => of_one(Named::Nothing, "nothing more can happen"),
        }
    }
}

impl fmt::Display for Reason {
    fn fmt<W: fmt::Write>(&self, f: &mut fmt::Formatter<W>) -> fmt::Result {
        let Sentence {
            first,
            after_first,
            second,
            after_second,
            third,
            after_third,
        } = self.sentence();
        write!(
            f,
            "{first}{after_first}{second}{after_second}{third}{after_third}"
        )
    }
}

/// A reason, and the line where it shows.
#[derive(Clone, Copy)]
pub(crate) struct Blame {
    pub(crate) line: u32,
    pub(crate) reason: Reason,
}

/// What is blamed so far.
#[derive(Drop)]
pub(crate) struct Blames {
    list: Vec<Blame>,
    /// Whether memory was refused for some of it. So none who adds has to look.
    is_short: bool,
}

impl Blames {
    pub(crate) fn new(alloc: Global) -> Blames {
        Blames {
            list: Vec::new(alloc),
            is_short: false,
        }
    }

    pub(crate) fn count(&self) -> usize {
        self.list.len()
    }

    /// Adds that a reason shows at this line.
    pub(crate) fn add(&mut self, line: u32, reason: Reason) {
        if self.list.push(Blame { line, reason }).is_err() {
            self.is_short = true;
        }
    }

    /// Adds that a reason shows at this line, where there is one.
    pub(crate) fn add_any(&mut self, line: u32, reason: Option<Reason>) {
        if let Some(reason) = reason {
            self.add(line, reason);
        }
    }

    /// What was added from this place on.
    pub(crate) fn since(self, alloc: Global, begin: usize) -> Blames {
        let Blames { list, is_short } = self;
        let mut rest = Blames {
            list: Vec::new(alloc),
            is_short,
        };
        for blame in list.iter().skip(begin) {
            rest.add(blame.line, blame.reason);
        }
        drop(list);
        rest
    }

    /// All of it, unless memory was refused for some.
    pub(crate) fn whole(self) -> Result<Vec<Blame>, NoMemory> {
        let Blames { list, is_short } = self;
        if is_short {
            drop(list);
            return Err(NoMemory);
        }
        Ok(list)
    }
}

/// Adds the line of what is blamed.
pub(crate) fn push_blame(text: &mut String, blame: Blame) -> Result<(), AllocError> {
    let Blame { line, reason } = blame;
    writeln!(text, "line {line}: {reason}")
}

/// Adds the lines of what is blamed.
pub(crate) fn push_blames(text: &mut String, blames: &[Blame]) -> Result<(), AllocError> {
    for blame in blames {
        push_blame(text, *blame)?;
    }
    Ok(())
}
