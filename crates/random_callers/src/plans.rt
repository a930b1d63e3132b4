//! The callers that have plans, beside those that have code.

use crate::call::{Wanted, reading_of};
use crate::crew::Crew;
use crate::draw::Draw;
use crate::stop::Stop;
use act_executor::Plan;
use act_rules::Step;
use act_types::{ActorId, Arg, CallerId, FutureId, ListOf, Method, NoMemory, Value};
use std::alloc::Global;

/// A call of the first actor, which adds a number or asks what it holds.
fn planned_call(alloc: Global, crew: &Crew, draw: &mut Draw) -> Result<Wanted, NoMemory> {
    let actor = ActorId::new(1).unwrap();
    let mut args = ListOf::new(alloc);
    let method = if draw.once_in(2) {
        args.push(Arg::Plain(Value::Int(draw.below(9) as i64)))?;
        Method::Add
    } else {
        reading_of(crew.kind_of(actor))
    };
    Ok(Wanted {
        actor,
        method,
        args,
    })
}

/// Draws a plan of so many calls, some of which are awaited, and prints its steps.
fn plan_of<Rt: Print>(
    rt: &Rt,
    alloc: Global,
    crew: &Crew,
    draw: &mut Draw,
    me: CallerId,
) -> Result<Plan, Stop> {
    println!(rt; "plan {me}")?;
    let mut plan = Vec::new(alloc);
    for place in 0..draw.below(12) {
        let wanted = planned_call(alloc, crew, draw)?;
        println!(rt; "submit {me} {wanted}")?;
        let Wanted {
            actor,
            method,
            args,
        } = wanted;
        plan.push(Step::Submit(actor, method, args))?;
        if draw.once_in(3) {
            println!(rt; "await {me} {place}")?;
            plan.push(Step::Await(FutureId::new(place)))?;
        }
    }
    Ok(plan)
}

/// Draws the plans of the callers that have one.
pub(crate) fn plans_of<Rt: Print>(
    rt: &Rt,
    alloc: Global,
    crew: &Crew,
    draw: &mut Draw,
) -> Result<Vec<(CallerId, Plan)>, Stop> {
    let mut plans = Vec::new(alloc);
    for before in 0..crew.callers.number() {
        let me = CallerId::new(before + 1).unwrap();
        if crew.has_plan(me) {
            plans.push((me, plan_of(rt, alloc, crew, draw, me)?))?;
        }
    }
    Ok(plans)
}
