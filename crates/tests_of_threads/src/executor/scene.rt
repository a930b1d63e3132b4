//! Runs as rows of numbers: casts, plans and codes.

use super::codes::{Move, Script};
use act_actor::{Cast, cast_fits};
use act_executor::{
    Code, Gate, Joined, Plan, RunFault, codes_fit, plans_fit, run_callers, run_plans,
};
use act_kinds::{Account, Boxed, Counter, ListKind, Table};
use act_rules::Step;
use act_types::{ActorId, Arg, CallerId, FutureId, ListOf, Method, NoMemory, Text, Value};
use std::alloc::Global;
use std::sync::Wait;
use std::thread::Threads;

/// An actor's kind.
#[derive(Clone, Copy)]
pub(crate) enum Kind {
    AnAccount,
    ACounter,
    AList,
    ATable,
}

/// A method.
#[derive(Clone, Copy)]
pub(super) enum Verb {
    Add,
    Deposit,
    Get,
    Push,
    Put,
    Terminate,
    Withdraw,
}

/// What a call is submitted with.
#[derive(Clone, Copy)]
pub(super) enum Given {
    Nothing,
    Int(i64),
    /// The key `k`.
    Key,
    /// The key `k` and a number.
    Pair(i64),
    /// The answer of the caller's future of this number.
    Answer(u32),
}

/// A step of a plan.
#[derive(Clone, Copy)]
pub(super) enum Row {
    Call(u8, Verb, Given),
    Copy(u8),
    Release(u8),
    Kill(u8),
    Await(u32),
}

/// An actor, the callers that may call it, its kind and its limit.
pub(crate) type Role = (u8, &'static [u8], Kind, Option<u32>);

/// A run by its name: its actors; the callers that follow plans, in the order in which these are given; their steps,
/// each so many times, where caller 0 is each of the callers; the callers by code; and all texts that may be left.
#[derive(Clone, Copy)]
pub(super) struct Case {
    pub(super) name: &'static str,
    pub(super) roles: &'static [Role],
    pub(super) planned: &'static [u8],
    pub(super) steps: &'static [(u8, Row, u32)],
    pub(super) codes: &'static [(u8, &'static [Move])],
    pub(super) ends: &'static [&'static str],
}

pub(crate) fn actor(number: u8) -> ActorId {
    ActorId::new(number).unwrap_or(ActorId::new(1).unwrap())
}

pub(crate) fn caller(number: u8) -> CallerId {
    CallerId::new(number).unwrap_or(CallerId::new(1).unwrap())
}

fn method_of(verb: Verb) -> Method {
    match verb {
        Verb::Add => Method::Add,
        Verb::Deposit => Method::Deposit,
        Verb::Get => Method::Get,
        Verb::Push => Method::Push,
        Verb::Put => Method::Put,
        Verb::Terminate => Method::Terminate,
        Verb::Withdraw => Method::Withdraw,
    }
}

fn key(alloc: Global) -> Result<Arg, NoMemory> {
    Ok(Arg::Plain(Value::Text(Text::copied(alloc, "k")?)))
}

fn one_arg(alloc: Global, arg: Arg) -> Result<ListOf<Arg>, NoMemory> {
    let mut args = ListOf::new(alloc);
    args.push(arg)?;
    Ok(args)
}

fn key_and_number(alloc: Global, number: i64) -> Result<ListOf<Arg>, NoMemory> {
    let mut args = one_arg(alloc, key(alloc)?)?;
    args.push(Arg::Plain(Value::Int(number)))?;
    Ok(args)
}

fn args_of(alloc: Global, given: Given) -> Result<ListOf<Arg>, NoMemory> {
    match given {
        Given::Nothing => Ok(ListOf::new(alloc)),
        Given::Int(number) => one_arg(alloc, Arg::Plain(Value::Int(number))),
        Given::Key => one_arg(alloc, key(alloc)?),
        Given::Pair(number) => key_and_number(alloc, number),
        Given::Answer(k) => one_arg(alloc, Arg::Fut(FutureId::new(k))),
    }
}

fn step_of(alloc: Global, row: Row) -> Result<Step, NoMemory> {
    Ok(match row {
        Row::Call(a, verb, given) => {
            Step::Submit(actor(a), method_of(verb), args_of(alloc, given)?)
        }
        Row::Copy(a) => Step::Copy(actor(a)),
        Row::Release(a) => Step::Release(actor(a)),
        Row::Kill(a) => Step::Kill(actor(a)),
        Row::Await(k) => Step::Await(FutureId::new(k)),
    })
}

/// The caller's steps among all.
fn plan_of(alloc: Global, of: u8, steps: &[(u8, Row, u32)]) -> Result<Plan, NoMemory> {
    let mut plan = Vec::new(alloc);
    for (by, row, times) in steps {
        if *by == of || *by == 0 {
            for _ in 0..*times {
                plan.push(step_of(alloc, *row)?)?;
            }
        }
    }
    Ok(plan)
}

fn plans_of(alloc: Global, case: &Case) -> Result<Vec<(CallerId, Plan)>, NoMemory> {
    let mut plans = Vec::new(alloc);
    for of in case.planned {
        plans.push((caller(*of), plan_of(alloc, *of, case.steps)?))?;
    }
    Ok(plans)
}

fn kind_of(alloc: Global, kind: Kind) -> Result<Boxed, NoMemory> {
    Ok(match kind {
        Kind::AnAccount => Box::new(alloc, Account::open())?,
        Kind::ACounter => Box::new(alloc, Counter::open())?,
        Kind::AList => Box::new(alloc, ListKind::open(alloc))?,
        Kind::ATable => Box::new(alloc, Table::open(alloc))?,
    })
}

fn cast_of(alloc: Global, role: &Role) -> Result<Cast<Boxed>, NoMemory> {
    let (number, names, kind, pending) = *role;
    let mut callers = ListOf::new(alloc);
    for name in names {
        callers.push(caller(*name))?;
    }
    Ok(Cast {
        actor: actor(number),
        callers,
        kind: kind_of(alloc, kind)?,
        pending,
    })
}

pub(crate) fn casts_of(alloc: Global, roles: &[Role]) -> Result<Vec<Cast<Boxed>>, NoMemory> {
    let mut casts = Vec::new(alloc);
    for role in roles {
        casts.push(cast_of(alloc, role)?)?;
    }
    Ok(casts)
}

fn casts_and_plans(
    alloc: Global,
    case: &Case,
) -> Result<(Vec<Cast<Boxed>>, Vec<(CallerId, Plan)>), NoMemory> {
    let plans = plans_of(alloc, case)?;
    match casts_of(alloc, case.roles) {
        Ok(casts) => Ok((casts, plans)),
        Err(refused) => {
            drop(plans);
            Err(refused)
        }
    }
}

/// Runs the case's plans. Casts or plans that don't fit are too many.
pub(super) fn ran_by_plan<R: Threads + Wait + Sync, G: Gate>(
    rt: &R,
    alloc: Global,
    case: &Case,
    gate: &G,
) -> Result<Joined<Boxed>, RunFault> {
    let (casts, plans) = casts_and_plans(alloc, case)?;
    if cast_fits(casts.as_slice()) && plans_fit(casts.as_slice(), plans.as_slice()) {
        run_plans(rt, alloc, casts, plans, gate)
    } else {
        drop(casts);
        drop(plans);
        Err(RunFault::TooMany)
    }
}

/// Runs the case's plans, and these codes beside them.
pub(super) fn ran_by_code<R: Threads + Wait + Sync, C: Code + Send, G: Gate>(
    rt: &R,
    alloc: Global,
    case: &Case,
    codes: Vec<(CallerId, C)>,
    gate: &G,
) -> Result<Joined<Boxed>, RunFault> {
    let (casts, plans) = match casts_and_plans(alloc, case) {
        Ok(made) => made,
        Err(refused) => {
            drop(codes);
            return Err(refused.into());
        }
    };
    if cast_fits(casts.as_slice())
        && plans_fit(casts.as_slice(), plans.as_slice())
        && codes_fit(casts.as_slice(), plans.as_slice(), codes.as_slice())
    {
        run_callers(rt, alloc, casts, plans, codes, gate)
    } else {
        drop(casts);
        drop(plans);
        drop(codes);
        Err(RunFault::TooMany)
    }
}

fn codes_of(alloc: Global, codes: &[(u8, &[Move])]) -> Result<Vec<(CallerId, Script)>, NoMemory> {
    let mut made = Vec::new(alloc);
    for (of, steps) in codes {
        made.push((caller(*of), Script::of(steps)))?;
    }
    Ok(made)
}

/// Runs the case, by its plans alone where it has no codes.
pub(super) fn ran<R: Threads + Wait + Sync, G: Gate>(
    rt: &R,
    alloc: Global,
    case: &Case,
    gate: &G,
) -> Result<Joined<Boxed>, RunFault> {
    if case.codes.is_empty() {
        return ran_by_plan(rt, alloc, case, gate);
    }
    let codes = codes_of(alloc, case.codes)?;
    ran_by_code(rt, alloc, case, codes, gate)
}
