//! Whether what was read fits the roles of its script.

ghost use Rattle.std.specs.Prelude.{◌≡◌, ◌==◌, ◌≤◌, ◌<◌, ℕ, List, length, map, find, IfOk, IfSome, IsTrue, None, Some, option_copied, option_map};
ghost use Rattle.act_types.specs.declared.limits.TheConstants.{MAX_CALLERS};
ghost use Rattle.act_rules.specs.declared.script.Step.{Step as Line};
ghost use Rattle.act_rules.specs.History.{actors_naming, callers_in, contains};
ghost use Rattle.act_rules.specs.Plans.{first_bad};
ghost use Rattle.act_rules.specs.Scripts.{actor_spec_of, actors_of_roles};
ghost use Rattle.act_scripts.specs.Roles.{AreFitting};
ghost use Rattle.act_walks.specs.Fits.{bound_of, callers_of};
ghost use Rattle.act_decisions.specs.Decided.{IsBadIn};
ghost use Rattle.act_decisions.specs.Fits.{AllFitRoles};
ghost use Rattle.act_decisions.specs.Read.{HasGoodPlans};
ghost use Rattle.act_plans.specs.Setups.{most_steps};

use act_compare::same_callers;
use act_plans::bad_step;
use act_rules::{Role, Step};
use act_types::{ACTOR_NUMBERS, ActorId, CallerId, MAX_CALLERS, NoMemory};
use act_walks::ToldEnd;
use std::alloc::Global;

/// Whether the role is that of the actor of this number.
fn is_of(role: &Role, a: usize) -> bool
    ensures { result ≡ (role.now.actor == a) }
{
    role.actor.number() as usize == a
}

/// The first role of the actor of this number.
pub(crate) fn role_at(roles: &[Role], a: usize) -> Option<&Role>
    ensures { option_copied result ≡ find (λ role. role.actor == a) roles.now }
{
    roles.iter().find(|role| is_of(role, a))
}

/// Whether these are the callers that the role names, and none where there is no role.
fn are_callers_of(callers: &[CallerId], role: Option<&Role>) -> bool
    ensures { IsTrue result → callers.now ≡ callers_in (option_map actor_spec_of (option_copied role.entry)) }
{
    match role {
        None => callers.is_empty(),
        Some(role) => same_callers(callers, role.callers.as_slice()),
    }
}

/// Whether the actor of this number has the callers that its role names.
fn fits_role(end: &ToldEnd, roles: &[Role], a: usize) -> bool
    ensures { IsTrue result →
        callers_of end.now a ≡ callers_in (find (λ cast. cast.actor == a) (map actor_spec_of roles.now)) }
{
    let role = role_at(roles, a);
    match end.actors.get(a) {
        None => are_callers_of(&[], role),
        Some(actor) => are_callers_of(&actor.callers, role),
    }
}

/// Whether each actor has the callers that its role names.
pub(crate) fn all_fit_roles(end: &ToldEnd, roles: &[Role]) -> bool
    ensures { IsTrue result → AllFitRoles end.now roles.now }
{
    if end.actors.len() > ACTOR_NUMBERS {
        return false;
    }
    for a in 0..ACTOR_NUMBERS {
        if !fits_role(end, roles, a) {
            return false;
        }
    }
    true
}

/// Whether the role names the caller.
fn names_caller(role: &Role, c: CallerId) -> bool
    ensures { result ≡ contains c role.now.callers }
{
    role.callers.as_slice().contains(&c)
}

/// The actors whose roles name the caller.
fn naming(alloc: Global, roles: &[Role], c: CallerId) -> Result<Vec<ActorId>, NoMemory>
    ensures { IfOk result (λ actors. actors.items ≡ actors_of_roles c roles.now) }
{
    let actors = roles
        .iter()
        .filter(|role| names_caller(role, c))
        .map(|role| role.actor)
        .collect(alloc)?;
    Ok(actors)
}

/// The place of the first of the caller's steps that the rules refuse in every play.
fn bad_place(
    alloc: Global,
    roles: &[Role],
    c: CallerId,
    plan: &[Step],
) -> Result<Option<u32>, NoMemory>
    requires roles { AreFitting (map actor_spec_of roles.now) }
    requires short { length plan.now < most_steps }
    ensures { IfOk result (λ bad. bad ≡ first_bad (actors_naming c (map actor_spec_of roles.now)) plan.now) }
{
    let actors = naming(alloc, roles, c)?;
    let bad = bad_step(alloc, &actors, plan)?;
    Ok(bad)
}

/// The place of the first step that the rules refuse, where the caller is bound to its steps.
fn bad_place_of(
    alloc: Global,
    end: &ToldEnd,
    roles: &[Role],
    c: CallerId,
) -> Result<Option<u32>, NoMemory>
    requires roles { AreFitting (map actor_spec_of roles.now) }
    requires short { (plan : List Line) → bound_of end.now c ≡ Some plan → length plan < most_steps }
    ensures none { IfOk result (λ bad. bad ≡ None → (plan : List Line) → bound_of end.now c ≡ Some plan →
        first_bad (actors_naming c (map actor_spec_of roles.now)) plan ≡ None) }
    ensures some { IfOk result (λ bad. IfSome bad (λ place. IsBadIn end.now (map actor_spec_of roles.now) c place)) }
{
    let Some(caller) = end.callers.get(c.number() as usize) else {
        return Ok(None);
    };
    match &caller.steps {
        None => Ok(None),
        Some(plan) => bad_place(alloc, roles, c, plan),
    }
}

/// The same of the caller of this number.
fn bad_place_at(
    alloc: Global,
    end: &ToldEnd,
    roles: &[Role],
    number: u8,
) -> Result<Option<(CallerId, u32)>, NoMemory>
    requires number { (1 ≤ number) × (number ≤ MAX_CALLERS) }
    requires roles { AreFitting (map actor_spec_of roles.now) }
    requires short { (plan : List Line) → bound_of end.now number ≡ Some plan → length plan < most_steps }
    ensures none { IfOk result (λ bad. bad ≡ None → (plan : List Line) → bound_of end.now number ≡ Some plan →
        first_bad (actors_naming number (map actor_spec_of roles.now)) plan ≡ None) }
    ensures some { IfOk result (λ bad. IfSome bad (λ at.
        (1 ≤ at.0) × (at.0 ≤ MAX_CALLERS) × IsBadIn end.now (map actor_spec_of roles.now) at.0 at.1)) }
{
    let c = CallerId::new(number).unwrap();
    match bad_place_of(alloc, end, roles, c)? {
        None => Ok(None),
        Some(place) => Ok(Some((c, place))),
    }
}

/// The first step that the rules refuse in every play, of a caller that is bound to its steps: the
/// caller, and the step's place among them.
pub(crate) fn bad_plan(
    alloc: Global,
    end: &ToldEnd,
    roles: &[Role],
) -> Result<Option<(CallerId, u32)>, NoMemory>
    requires roles { AreFitting (map actor_spec_of roles.now) }
    requires short { (c : ℕ) (plan : List Line) → 1 ≤ c → c ≤ MAX_CALLERS → bound_of end.now c ≡ Some plan →
        length plan < most_steps }
    ensures none { IfOk result (λ bad. bad ≡ None → HasGoodPlans end.now roles.now) }
    ensures some { IfOk result (λ bad. IfSome bad (λ at.
        (1 ≤ at.0) × (at.0 ≤ MAX_CALLERS) × IsBadIn end.now (map actor_spec_of roles.now) at.0 at.1)) }
{
    for before in 0..MAX_CALLERS {
        let bad = bad_place_at(alloc, end, roles, before + 1)?;
        if let Some(at) = bad {
            return Ok(Some(at));
        }
    }
    Ok(None)
}
