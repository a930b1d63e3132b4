//! What is run: who takes part, and what each caller does.

ghost use Rattle.std.specs.Prelude.{◌≡◌, ◌<◌, ◌*◌, ◌^◌, IfOk, All, None, map, pos};
ghost use Rattle.act_rules.specs.Report.{one_to};
ghost use Rattle.ray_bench_work.specs.Work.{actor_at, cast_in_work, cast_view, callers_in_work, one_more, is_reached};

use act_actor::Cast;
use act_kinds::Counter;
use act_types::{ActorId, Arg, CallerId, ListOf, NoMemory, Value};
use std::alloc::Global;
use std::fmt;

/// Whether a caller awaits each answer before its next call.
#[derive(Clone, Copy, Debug, PartialEq, Eq)]
pub enum Style {
    Wait,
    Future,
}

/// Whether a caller calls one actor, or all in turns.
#[derive(Clone, Copy, Debug, PartialEq, Eq)]
pub enum Reach {
    Own,
    Both,
}

/// Callers and actors, numbered from 1 to the last one, and what each caller does.
#[derive(Clone, Copy, Debug, PartialEq, Eq)]
pub struct Work {
    pub callers: CallerId,
    pub actors: ActorId,
    /// The calls of each caller.
    pub calls: u32,
    pub style: Style,
    pub reach: Reach,
}

impl Work {
    /// How many calls there are of all callers.
    pub fn all_calls(&self) -> u64
        ensures value { result ≡ self.now.callers * self.now.calls }
        ensures bound { result < 2 ^ 36 }
    {
        self.callers.number() as u64 * self.calls as u64
    }

    /// The actor that a caller calls at a place of its calls, from 0.
    pub fn actor_at(&self, caller: CallerId, place: u32) -> ActorId
        ensures { result ≡ actor_at self.now caller place }
    {
        let turn = match self.reach {
            Reach::Own => caller.number() as u32 - 1,
            Reach::Both => place,
        };
        let before = (turn % self.actors.number() as u32) as u8;
        ActorId::new(before + 1).unwrap()
    }

    /// Whether a caller calls this actor at all.
    fn calls_actor(&self, caller: CallerId, actor: ActorId) -> bool
        ensures { result ≡ is_reached self.now.reach (actor_at self.now caller 0) actor }
    {
        match self.reach {
            Reach::Own => self.actor_at(caller, 0) == actor,
            Reach::Both => true,
        }
    }
}

impl fmt::Display for Work {
    fn fmt<W: fmt::Write>(&self, f: &mut fmt::Formatter<W>) -> fmt::Result {
        let style = match self.style {
            Style::Wait => "wait",
            Style::Future => "future",
        };
        let reach = match self.reach {
            Reach::Own => "own",
            Reach::Both => "both",
        };
        let callers = self.callers.number();
        let actors = self.actors.number();
        write!(f, "{callers} x {actors}, {style}, {reach}")
    }
}

/// The callers that call an actor.
fn callers_of(alloc: Global, work: &Work, actor: ActorId) -> Result<ListOf<CallerId>, NoMemory>
    ensures { IfOk result (λ callers. callers ≡ callers_in_work work.now actor) }
{
    let mut callers = Vec::new(alloc);
    for before in 0..work.callers.number() {
        let caller = CallerId::new(before + 1).unwrap();
        if work.calls_actor(caller, actor) {
            callers.push(caller)?;
        }
    }
    Ok(ListOf::from_vec(callers))
}

/// A counter at 0 for each actor, without a limit.
pub fn casts_of(alloc: Global, work: &Work) -> Result<Vec<Cast<Counter>>, NoMemory>
    ensures names { IfOk result (λ casts.
        map cast_view casts.items ≡ map (cast_in_work work.now) (one_to work.now.actors)) }
    ensures limits { IfOk result (λ casts. All (λ cast. cast.pending ≡ None) casts.items) }
    ensures kinds { IfOk result (λ casts. All (λ cast. cast.kind ≡ pos 0) casts.items) }
{
    let mut casts = Vec::new(alloc);
    for before in 0..work.actors.number() {
        let actor = ActorId::new(before + 1).unwrap();
        casts.push(Cast {
            actor,
            callers: callers_of(alloc, work, actor)?,
            kind: Counter::open(),
            pending: None,
        })?;
    }
    Ok(casts)
}

/// The argument of a call that adds 1.
pub fn one_more(alloc: Global) -> Result<ListOf<Arg>, NoMemory>
    ensures { IfOk result (λ args. args ≡ one_more) }
{
    let mut args = ListOf::with_capacity(alloc, 1)?;
    args.push(Arg::Plain(Value::Int(1)))?;
    Ok(args)
}
