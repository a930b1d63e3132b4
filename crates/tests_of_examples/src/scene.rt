//! One caller and two actors: what is played there, what is run in threads, and the reports of both.

use act_actor::cast_fits;
use act_console::{joined_report, play_report};
use act_executor::{Joined, NoGate, Plan, plans_fit, run_plans};
use act_kinds::Boxed;
use act_rules::Step;
use act_short::{args_of, callers_of, list_of};
use act_types::{ActorId, Arg, CallerId, FutureId, ListOf, Method, Name, NoMemory};
use act_world::{Cast, Event, World};
use std::alloc::Global;
use std::process::Abort;
use std::sync::Wait;
use std::test::Fail;
use std::thread::Threads;

/// The arguments of a call.
#[derive(Clone, Copy)]
pub enum Given {
    Nothing,
    Int(i64),
    Two(i64, i64),
    Three(i64, i64, i64),
    /// The answer of an earlier call.
    Answer(u32),
}

/// A call of the caller, to actor 1 or 2. A method is given by its own name, or as one of the four kinds'.
#[derive(Clone, Copy)]
pub enum Call {
    Own(u8, &'static str, Given),
    Known(u8, Method, Given),
}

/// The arguments that are given.
fn given_args(alloc: Global, given: Given) -> Result<ListOf<Arg>, NoMemory> {
    match given {
        Given::Nothing => Ok(ListOf::new(alloc)),
        Given::Int(number) => args_of(alloc, &[number]),
        Given::Two(first, second) => args_of(alloc, &[first, second]),
        Given::Three(first, second, third) => args_of(alloc, &[first, second, third]),
        Given::Answer(future) => list_of(alloc, [Arg::Fut(FutureId::new(future))]),
    }
}

/// The actor, the method and the arguments of a call.
fn parts_of<R: Abort>(
    rt: &R,
    alloc: Global,
    call: &Call,
) -> Result<(ActorId, Method, ListOf<Arg>), NoMemory> {
    match call {
        Call::Own(actor, word, given) => {
            let name = Name::new(word).expect(rt, "a name");
            let actor = ActorId::new(*actor).expect(rt, "an actor");
            Ok((actor, Method::Own(name), given_args(alloc, *given)?))
        }
        Call::Known(actor, method, given) => {
            let actor = ActorId::new(*actor).expect(rt, "an actor");
            Ok((actor, *method, given_args(alloc, *given)?))
        }
    }
}

fn cast_of(alloc: Global, actor: ActorId, kind: Boxed) -> Result<Cast<Boxed>, NoMemory> {
    let c1 = CallerId::new(1).unwrap();
    Ok(Cast {
        actor,
        callers: callers_of(alloc, &[c1])?,
        kind,
        pending: None,
    })
}

/// Actors 1 and 2, which caller 1 may call.
pub fn casts_of(alloc: Global, first: Boxed, second: Boxed) -> Result<Vec<Cast<Boxed>>, NoMemory> {
    let mut casts = Vec::new(alloc);
    casts.push(cast_of(alloc, ActorId::new(1).unwrap(), first)?)?;
    casts.push(cast_of(alloc, ActorId::new(2).unwrap(), second)?)?;
    Ok(casts)
}

/// The events by which each call is submitted, sent, brought, run and answered, one after another.
fn events_of<R: Abort>(rt: &R, alloc: Global, calls: &[Call]) -> Result<Vec<Event>, NoMemory> {
    let c1 = CallerId::new(1).unwrap();
    let mut events = Vec::new(alloc);
    for (place, call) in calls.iter().enumerate() {
        let place = u32::try_from(place).unwrap_or(0);
        let (actor, method, args) = parts_of(rt, alloc, call)?;
        events.push(Event::Submit(c1, actor, method, args))?;
        events.push(Event::Send(c1, FutureId::new(place)))?;
        events.push(Event::Deliver(place))?;
        events.push(Event::Run(actor, c1))?;
        events.push(Event::Collect(place))?;
    }
    Ok(events)
}

/// A world in which each of these calls ran before the next one was submitted.
pub fn world_after<R: Abort>(
    rt: &R,
    alloc: Global,
    casts: Vec<Cast<Boxed>>,
    calls: &[Call],
) -> Result<World<Boxed>, NoMemory> {
    assert!(rt; cast_fits(&casts));
    let events = events_of(rt, alloc, calls)?;
    let mut world = World::open(alloc, casts)?;
    let done = play_all(rt, alloc, &mut world, &events);
    drop(events);
    match done {
        Ok(()) => Ok(world),
        Err(error) => {
            drop(world);
            Err(error)
        }
    }
}

/// The report of a world in which each of these calls ran before the next one was submitted.
pub fn played<R: Abort>(
    rt: &R,
    alloc: Global,
    casts: Vec<Cast<Boxed>>,
    calls: &[Call],
) -> Result<String, NoMemory> {
    let world = world_after(rt, alloc, casts, calls)?;
    let mut text = String::new(alloc);
    let told = play_report(alloc, &world, &[], &mut text);
    drop(world);
    told?;
    Ok(text)
}

/// Plays these events in a world.
fn play_all<R: Abort>(
    rt: &R,
    alloc: Global,
    world: &mut World<Boxed>,
    events: &[Event],
) -> Result<(), NoMemory> {
    let mut told = Vec::new(alloc);
    assert!(rt; world.has_room(events.len()));
    let played = world.play(events, &mut told);
    drop(told);
    if played.is_err() {
        return Err(NoMemory);
    }
    Ok(())
}

/// The steps by which each call is submitted.
fn plan_of<R: Abort>(rt: &R, alloc: Global, calls: &[Call]) -> Result<Plan, NoMemory> {
    let mut plan = Vec::new(alloc);
    for call in calls {
        let (actor, method, args) = parts_of(rt, alloc, call)?;
        plan.push(Step::Submit(actor, method, args))?;
    }
    Ok(plan)
}

/// The plan of the one caller, which makes these calls.
pub fn plans_of<R: Abort>(
    rt: &R,
    alloc: Global,
    calls: &[Call],
) -> Result<Vec<(CallerId, Plan)>, NoMemory> {
    let mut plans = Vec::new(alloc);
    plans.push((CallerId::new(1).unwrap(), plan_of(rt, alloc, calls)?))?;
    Ok(plans)
}

/// The summary of what threads left.
pub fn summary_of(alloc: Global, joined: Joined<Boxed>) -> Result<String, NoMemory> {
    let mut text = String::new(alloc);
    let told = joined_report(alloc, &joined, &mut text);
    drop(joined);
    told?;
    Ok(text)
}

/// The summary of what threads left, whose one caller has these calls as its plan.
pub fn threaded<R: Abort + Threads + Wait + Sync>(
    rt: &R,
    alloc: Global,
    casts: Vec<Cast<Boxed>>,
    calls: &[Call],
) -> Result<String, Fail> {
    let plans = plans_of(rt, alloc, calls)?;
    assert!(rt; cast_fits(&casts));
    assert!(rt; plans_fit(&casts, &plans));
    let joined = run_plans(rt, alloc, casts, plans, &NoGate)?;
    Ok(summary_of(alloc, joined)?)
}
