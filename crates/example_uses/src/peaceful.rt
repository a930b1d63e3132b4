//! Boxed actors of all four kinds, each in a thread of its own, and callers that end none of them.

ghost use Rattle.std.specs.Prelude.{◌≡◌, ◌≤◌, ◌∷◌, [], map, IfOk, IfErr};
ghost use Rattle.std.specs.List.{list_all};
ghost use Rattle.actors.specs.Actors.{actor_spec};
ghost use Rattle.actors.specs.Threads.{end_view, IsJoined, plan_view};
ghost use Rattle.example_uses.specs.Peaceful.{AllRan, IsPeaceFault, IsServeFault, are_peaceful, is_peaceful, cast_for, casts_for};

use actors::{
    Actor, ActorId, Boxed, CallerId, Cast, Joined, ListOf, MAX_STEPS, Method, NoGate, NoMemory,
    Plan, RunFault, Step, cast_fits, plans_fit, run_plans,
};
use std::alloc::{AllocError, AllocFailed, Global};
use std::sync::Wait;
use std::thread::Threads;

/// Whether a step ends no actor.
fn is_peaceful(step: &Step) -> bool
    ensures { result ≡ is_peaceful step.now }
{
    !matches!(step, Step::Kill(_) | Step::Submit(_, Method::Terminate, _))
}

/// Whether no step of a plan ends an actor.
fn is_peaceful_plan(plan: &Plan) -> bool
    ensures { result ≡ list_all is_peaceful plan.now.items }
{
    plan.iter().all(|step| is_peaceful(step))
}

/// Whether no step of any plan ends an actor.
pub fn are_peaceful(plans: &[(CallerId, Plan)]) -> bool
    ensures { result ≡ are_peaceful plans.now }
{
    plans.iter().all(|plan| is_peaceful_plan(&plan.1))
}

/// Why plans were not run to their end in peace.
#[derive(Clone, Copy, Debug, PartialEq, Eq)]
pub enum PeaceFault {
    /// A step of a plan ends an actor.
    EndsAnActor,
    /// The casts don't fit, or the plans don't fit them.
    Unfit,
    Run(RunFault),
}

impl From<RunFault> for PeaceFault {
    ghost use Rattle.std.specs.Prelude.{◌≡◌};
    ghost use Rattle.example_uses.specs.declared.peaceful.PeaceFault.TheVariants as fault;

    ghost from_gives = { λ stopped result. result ≡ fault.Run stopped };

    fn from(fault: RunFault) -> PeaceFault {
        PeaceFault::Run(fault)
    }
}

impl From<NoMemory> for PeaceFault {
    ghost use Rattle.std.specs.Prelude.{◌≡◌};
    ghost use Rattle.actors.specs.RunFault.TheVariants as run;
    ghost use Rattle.example_uses.specs.declared.peaceful.PeaceFault.TheVariants as fault;

    ghost from_gives = { λ _ result. result ≡ fault.Run run.NoMemory };

    fn from(_error: NoMemory) -> PeaceFault {
        PeaceFault::Run(RunFault::NoMemory)
    }
}

impl From<AllocError> for PeaceFault {
    ghost use Rattle.std.specs.Prelude.{◌≡◌};
    ghost use Rattle.actors.specs.RunFault.TheVariants as run;
    ghost use Rattle.example_uses.specs.declared.peaceful.PeaceFault.TheVariants as fault;

    ghost from_gives = { λ _ result. result ≡ fault.Run run.NoMemory };

    fn from(error: AllocError) -> PeaceFault {
        PeaceFault::from(RunFault::from(error))
    }
}

impl<T: Drop> From<AllocFailed<T>> for PeaceFault {
    ghost use Rattle.std.specs.Prelude.{◌≡◌};
    ghost use Rattle.actors.specs.RunFault.TheVariants as run;
    ghost use Rattle.example_uses.specs.declared.peaceful.PeaceFault.TheVariants as fault;

    ghost from_gives = { λ _ result. result ≡ fault.Run run.NoMemory };

    fn from(failed: AllocFailed<T>) -> PeaceFault {
        PeaceFault::from(RunFault::from(failed))
    }
}

/// Runs plans that end no actor. What `run_plans` asks for is decided before it is called.
pub fn run_in_peace<R: Threads + Wait + Sync, K: Actor + Send>(
    rt: &R,
    alloc: Global,
    casts: Vec<Cast<K>>,
    plans: Vec<(CallerId, Plan)>,
) -> Result<Joined<K>, PeaceFault>
    ensures joined { IfOk result (λ joined.
        IsJoined (map (actor_spec K.state) casts.items) (map plan_view plans.items) joined.owners.items
        (map (λ actor. end_view K.state actor.ended) joined.actors.items)) }
    // No answer is a death: each call of each caller ran, and its answer is its kind's.
    ensures answered { IfOk result (λ joined.
        AllRan (map (actor_spec K.state) casts.items) joined.owners.items
        (map (λ actor. end_view K.state actor.ended) joined.actors.items)) }
    ensures fault { IfErr result (IsPeaceFault K.state casts.items plans.items) }
{
    if !are_peaceful(plans.as_slice()) {
        return Err(PeaceFault::EndsAnActor);
    }
    if !cast_fits(casts.as_slice()) || !plans_fit(casts.as_slice(), plans.as_slice()) {
        return Err(PeaceFault::Unfit);
    }
    let joined = run_plans(rt, alloc, casts, plans, &NoGate)?;
    Ok(joined)
}

/// A kind of each sort, each mostly in a box.
#[derive(Drop)]
pub struct Kinds<K = Boxed> {
    pub counter: K,
    pub table: K,
    pub account: K,
    pub list: K,
}

/// The cast of an actor of this kind, for one caller.
fn cast_of<K: Actor>(alloc: Global, c: CallerId, number: u8, kind: K) -> Result<Cast<K>, NoMemory>
    requires number { (1 ≤ number) × (number ≤ 8) }
    ensures { IfOk result (λ cast. actor_spec K.state cast ≡ cast_for c number (K.state kind)) }
{
    let mut callers = ListOf::new(alloc);
    callers.push(c)?;
    Ok(Cast {
        actor: ActorId::new(number).unwrap(),
        callers,
        kind,
        pending: None,
    })
}

/// The casts of these kinds, for one caller.
fn casts_of<K: Actor>(alloc: Global, c: CallerId, kinds: Kinds<K>) -> Result<Vec<Cast<K>>, NoMemory>
    ensures { IfOk result (λ casts. map (actor_spec K.state) casts.items ≡ casts_for K.state c kinds) }
{
    let Kinds {
        counter,
        table,
        account,
        list,
    } = kinds;
    let mut casts = Vec::new(alloc);
    casts.push(cast_of(alloc, c, 1, counter)?)?;
    casts.push(cast_of(alloc, c, 2, table)?)?;
    casts.push(cast_of(alloc, c, 3, account)?)?;
    casts.push(cast_of(alloc, c, 4, list)?)?;
    Ok(casts)
}

/// The plan of one caller.
fn one_plan(alloc: Global, c: CallerId, plan: Plan) -> Result<Vec<(CallerId, Plan)>, NoMemory>
    ensures { IfOk result (λ plans. plans.items ≡ (c, plan) ∷ []) }
{
    let mut plans = Vec::new(alloc);
    plans.push((c, plan))?;
    Ok(plans)
}

/// Has a caller do its plan with a counter, a table, an account and a list: actors 1 to 4. A plan
/// that doesn't fit has too many steps.
pub fn serve_each_kind<R: Threads + Wait + Sync, K: Actor + Send>(
    rt: &R,
    alloc: Global,
    c: CallerId,
    kinds: Kinds<K>,
    plan: Plan,
) -> Result<Joined<K>, PeaceFault>
    ensures joined { IfOk result (λ joined.
        IsJoined (casts_for K.state c kinds) ((c, plan.items) ∷ []) joined.owners.items
        (map (λ actor. end_view K.state actor.ended) joined.actors.items)) }
    ensures answered { IfOk result (λ joined.
        AllRan (casts_for K.state c kinds) joined.owners.items
        (map (λ actor. end_view K.state actor.ended) joined.actors.items)) }
    // Want of memory comes last.
    ensures fault { IfErr result (IsServeFault (casts_for K.state c kinds) c plan.items) }
{
    if !is_peaceful_plan(&plan) {
        return Err(PeaceFault::EndsAnActor);
    }
    if plan.len() >= MAX_STEPS {
        return Err(PeaceFault::Unfit);
    }
    let casts = casts_of(alloc, c, kinds)?;
    let plans = one_plan(alloc, c, plan)?;
    let joined = run_in_peace(rt, alloc, casts, plans)?;
    Ok(joined)
}
