//! Which step of a plan would be refused.

ghost use Rattle.std.specs.Prelude.{◌≡◌, ◌<◌, All, length, filter_map, slice_get, IfOk, ◌↔◌, ◌≢◌, ◌==◌, AllPairs, IsTrue};
ghost use Rattle.act_types.specs.declared.call.Method.{Method};
ghost use Rattle.act_rules.specs.declared.script.Step.TheVariants.{Submit};
ghost use Rattle.act_rules.specs.Plans.{first_bad};
ghost use Rattle.act_handles.specs.Handles.{given_of_all};
ghost use Rattle.act_actor.specs.Cast.{CallersDiffer};
ghost use Rattle.act_plans.specs.Setups.{most_steps, PlansFit};
ghost use Rattle.act_plans.specs.Prepared.{bad_of_setup};
ghost use Rattle.act_plans.specs.PlanChecks.{ChecksStep};
ghost use Rattle.std.specs.List.{list_all, list_any};
ghost use Rattle.act_rules.specs.History.{contains};

use crate::{CallerSetup, Plan};
use act_actor::Cast;
use act_handles::{Handles, are_earlier};
use act_rules::Step;
use act_types::{ActorId, Arg, CallerId, ListOf, MAX_ARGS, NoMemory};
use std::alloc::Global;

/// What is known of a plan's steps so far: the handles, and the number of calls.
#[derive(Drop)]
struct PlanChecker {
    handles: Handles,
    count: u32,
}

impl PlanChecker {
    /// Whether a call can be submitted. If so it is counted.
    fn submits(&mut self, actor: ActorId, args: &ListOf<Arg>) -> bool
        requires { self.old.count ≡ given_of_all self.old.handles }
        ensures { (method : Method) → ChecksStep result (Submit actor method args.now) self.old self.new }
    {
        if args.len() > MAX_ARGS || !are_earlier(args, self.count) {
            return false;
        }
        if self.handles.number(actor).is_err() {
            return false;
        }
        self.count += 1;
        true
    }

    /// Whether a step is accepted. If so it is done.
    fn accepts(&mut self, step: &Step) -> bool
        requires { self.old.count ≡ given_of_all self.old.handles }
        ensures { ChecksStep result step.now self.old self.new }
    {
        match step {
            Step::Submit(actor, _, args) => self.submits(*actor, args),
            Step::Copy(actor) => self.handles.copy(*actor).is_ok(),
            Step::Release(actor) => self.handles.release(*actor).is_ok(),
            Step::Kill(actor) => self.handles.refusal(*actor).is_none(),
            Step::Await(k) => k.number() < self.count,
        }
    }
}

/// The place of the first step of a plan that would be refused, where the caller has these actors.
pub fn bad_step(alloc: Global, actors: &[ActorId], plan: &[Step]) -> Result<Option<u32>, NoMemory>
    requires differ { CallersDiffer actors.now }
    requires short { length plan.now < most_steps }
    ensures { IfOk result (λ bad. bad ≡ first_bad actors.now plan.now) }
{
    let mut plan_checker = PlanChecker {
        handles: Handles::open(alloc, actors)?,
        count: 0,
    };
    for (place, step) in plan.iter().enumerate() {
        if !plan_checker.accepts(step) {
            return Ok(Some(place as u32));
        }
    }
    Ok(None)
}

/// The first part with a step that would be refused: its caller, and the place of the first such
/// step.
pub fn first_bad_setup(
    alloc: Global,
    setups: &[CallerSetup],
) -> Result<Option<(CallerId, u32)>, NoMemory>
    requires differ { All (λ setup. CallersDiffer setup.actors.items) setups.now }
    requires short { All (λ setup. length setup.plan.items < most_steps) setups.now }
    ensures { IfOk result (λ bad. bad ≡ slice_get (filter_map bad_of_setup setups.now) 0) }
{
    for setup in setups {
        let bad = bad_step(alloc, setup.actors.as_slice(), setup.plan.as_slice())?;
        if let Some(place) = bad {
            return Ok(Some((setup.caller, place)));
        }
    }
    Ok(None)
}

/// A plan has fewer steps than this.
pub const MAX_STEPS: usize = 4_294_967_296;

/// Whether one of the casts names the caller.
pub(crate) fn is_named<K>(casts: &[Cast<K>], caller: CallerId) -> bool
    ensures { result ≡ list_any (λ cast. contains caller cast.callers) casts.now }
{
    casts
        .iter()
        .any(|cast| cast.callers.as_slice().contains(&caller))
}

/// Whether one of the plans is of this caller.
fn has_plan(plans: &[(CallerId, Plan)], caller: CallerId) -> bool
    ensures { result ≡ list_any (λ plan. plan.0 == caller) plans.now }
{
    plans.iter().any(|plan| plan.0 == caller)
}

/// Whether no caller has two plans.
fn callers_differ(plans: &[(CallerId, Plan)]) -> bool
    ensures { IsTrue result ↔ (AllPairs (λ one other. one.0 ≢ other.0) plans.now) }
{
    for (place, plan) in plans.iter().enumerate() {
        if has_plan(&plans[..place], plan.0) {
            return false;
        }
    }
    true
}

/// Whether each plan's caller is named by a cast.
fn are_named<K>(casts: &[Cast<K>], plans: &[(CallerId, Plan)]) -> bool
    ensures { result ≡ list_all (λ plan. list_any (λ cast. contains plan.0 cast.callers) casts.now) plans.now }
{
    plans.iter().all(|plan| is_named(casts, plan.0))
}

/// Whether no plan is too long.
fn are_short(plans: &[(CallerId, Plan)]) -> bool
    ensures { IsTrue result ↔ (All (λ plan. length plan.1.items < most_steps) plans.now) }
{
    plans.iter().all(|plan| plan.1.len() < MAX_STEPS)
}

/// Whether the callers are distinct, each is named by a cast, and no plan is too long.
pub fn plans_fit<K>(casts: &[Cast<K>], plans: &[(CallerId, Plan)]) -> bool
    ensures { IsTrue result ↔ PlansFit casts.now plans.now }
{
    callers_differ(plans) && are_named(casts, plans) && are_short(plans)
}
