//! Two counters, two callers, and what they do.

ghost use Rattle.std.specs.Prelude.{◌≡◌, [], ◌∷◌, map, IfOk};
ghost use Rattle.act_types.specs.KindState.{KindState};
ghost use Rattle.act_actor.specs.Casts.{actor_spec};
ghost use Rattle.tests_of_plays.specs.Scene.{two_actor_specs};

use act_actor::{Cast, cast_fits};
use act_executor::{NoGate, Plan, RunFault, plans_fit, run_plans};
use act_kinds::{Boxed, Counter};
use act_replay::{RecordFault, play_of};
use act_rules::Step;
use act_types::{ActorId, Arg, CallerId, FutureId, ListOf, Method, NoMemory, Value};
use act_world::Event;
use std::alloc::Global;
use std::sync::Wait;
use std::thread::Threads;

/// Callers and actors.
#[derive(Clone, Copy)]
pub(super) struct Ids {
    pub(super) c1: CallerId,
    pub(super) c2: CallerId,
    pub(super) a1: ActorId,
    pub(super) a2: ActorId,
}

pub(super) fn few_ids() -> Ids
    ensures { result ≡ record { c1 = 1; c2 = 2; a1 = 1; a2 = 2 } }
{
    Ids {
        c1: CallerId::new(1).unwrap(),
        c2: CallerId::new(2).unwrap(),
        a1: ActorId::new(1).unwrap(),
        a2: ActorId::new(2).unwrap(),
    }
}

/// A step of a plan.
#[derive(Clone, Copy)]
pub(super) enum Row {
    Add(ActorId, i64),
    /// Adds the answer of the caller's future of this number.
    AddAnswer(ActorId, u32),
    Get(ActorId),
    Terminate(ActorId),
    Kill(ActorId),
    Await(u32),
}

fn with_arg(alloc: Global, arg: Arg) -> Result<ListOf<Arg>, NoMemory> {
    let mut args = ListOf::new(alloc);
    args.push(arg)?;
    Ok(args)
}

fn step_of(alloc: Global, row: Row) -> Result<Step, NoMemory> {
    Ok(match row {
        Row::Add(a, number) => {
            let args = with_arg(alloc, Arg::Plain(Value::Int(number)))?;
            Step::Submit(a, Method::Add, args)
        }
        Row::AddAnswer(a, number) => {
            let args = with_arg(alloc, Arg::Fut(FutureId::new(number)))?;
            Step::Submit(a, Method::Add, args)
        }
        Row::Get(a) => Step::Submit(a, Method::Get, ListOf::new(alloc)),
        Row::Terminate(a) => Step::Submit(a, Method::Terminate, ListOf::new(alloc)),
        Row::Kill(a) => Step::Kill(a),
        Row::Await(number) => Step::Await(FutureId::new(number)),
    })
}

fn plan_of(alloc: Global, rows: &[Row]) -> Result<Plan, NoMemory> {
    let mut plan = Vec::new(alloc);
    for row in rows {
        plan.push(step_of(alloc, *row)?)?;
    }
    Ok(plan)
}

/// The plans of the two callers.
pub(super) fn plans_of(
    alloc: Global,
    one: &[Row],
    two: &[Row],
) -> Result<Vec<(CallerId, Plan)>, NoMemory> {
    let Ids { c1, c2, .. } = few_ids();
    let mut plans = Vec::new(alloc);
    plans.push((c1, plan_of(alloc, one)?))?;
    plans.push((c2, plan_of(alloc, two)?))?;
    Ok(plans)
}

/// An actor that both callers may call.
fn cast_of<K: Drop>(
    alloc: Global,
    actor: ActorId,
    kind: K,
    pending: Option<u32>,
) -> Result<Cast<K>, NoMemory>
    ensures { IfOk result (λ cast.
        cast ≡ record { actor = actor; callers = 1 ∷ 2 ∷ []; kind = kind; pending = pending }) }
{
    let Ids { c1, c2, .. } = few_ids();
    let mut callers = ListOf::new(alloc);
    callers.push(c1)?;
    callers.push(c2)?;
    Ok(Cast {
        actor,
        callers,
        kind,
        pending,
    })
}

/// Two actors that both callers may call.
pub(super) fn pair<K: Drop>(
    alloc: Global,
    one: K,
    two: K,
    pending: Option<u32>,
) -> Result<Vec<Cast<K>>, NoMemory>
    ensures { IfOk result (λ casts. (state : K → KindState) →
        map (actor_spec state) casts.items ≡ two_actor_specs pending (state one) (state two)) }
{
    let Ids { a1, a2, .. } = few_ids();
    let mut casts = Vec::new(alloc);
    casts.push(cast_of(alloc, a1, one, pending)?)?;
    casts.push(cast_of(alloc, a2, two, pending)?)?;
    Ok(casts)
}

/// Two counters.
pub(super) fn counters(
    alloc: Global,
    pending: Option<u32>,
) -> Result<Vec<Cast<Counter>>, NoMemory> {
    pair(alloc, Counter::open(), Counter::open(), pending)
}

fn in_a_box(alloc: Global) -> Result<Box<Counter>, NoMemory> {
    Ok(Box::new(alloc, Counter::open())?)
}

/// Whether a play was found. A run that left nothing keeps its fault.
pub(super) fn is_found(found: Result<Vec<Event>, RecordFault>) -> Result<bool, RunFault> {
    let Err(fault) = found else {
        return Ok(true);
    };
    match fault {
        RecordFault::Run(fault) => Err(fault),
        RecordFault::Unplayed => Ok(false),
    }
}

/// Runs the plans of the two callers at two counters of this limit, and finds a play of what is left.
pub(super) fn recorded<R: Threads + Wait + Sync>(
    rt: &R,
    alloc: Global,
    pending: Option<u32>,
    one: &[Row],
    two: &[Row],
) -> Result<Vec<Event>, RecordFault> {
    let casts = counters(alloc, pending)?;
    let first: Boxed = in_a_box(alloc)?;
    let second: Boxed = in_a_box(alloc)?;
    let twins = pair(alloc, first, second, pending)?;
    let plans = plans_of(alloc, one, two)?;
    if cast_fits(casts.as_slice())
        && cast_fits(twins.as_slice())
        && plans_fit(casts.as_slice(), plans.as_slice())
    {
        let joined = run_plans(rt, alloc, casts, plans, &NoGate)?;
        let found = play_of(alloc, twins, &joined);
        drop(joined);
        found
    } else {
        Err(RecordFault::Run(RunFault::TooMany))
    }
}
