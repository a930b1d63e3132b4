//! Which codes fit the casts and the plans of a run.

ghost use Rattle.std.specs.Prelude.{◌≡◌, ◌↔◌, ◌≢◌, ◌==◌, not, AllPairs, IsTrue};
ghost use Rattle.std.specs.List.{list_all, list_any};
ghost use Rattle.act_rules.specs.History.{contains};
ghost use Rattle.act_executor.specs.Conducts.{CodesFit};

use act_actor::Cast;
use act_plans::Plan;
use act_types::CallerId;

/// Whether one of the casts names the caller.
fn is_named<K>(casts: &[Cast<K>], caller: CallerId) -> bool
    ensures { result ≡ list_any (λ cast. contains caller cast.callers) casts.now }
{
    casts
        .iter()
        .any(|cast| cast.callers.as_slice().contains(&caller))
}

/// Whether one of the plans is of this caller.
fn has_plan(plans: &[(CallerId, Plan)], caller: CallerId) -> bool
    ensures { result ≡ list_any (λ plan. plan.0 == caller) plans.now }
{
    plans.iter().any(|plan| plan.0 == caller)
}

/// Whether one of the codes is of this caller.
fn has_code<C>(codes: &[(CallerId, C)], caller: CallerId) -> bool
    ensures { result ≡ list_any (λ code. code.0 == caller) codes.now }
{
    codes.iter().any(|code| code.0 == caller)
}

/// Whether no caller has two codes.
fn callers_differ<C>(codes: &[(CallerId, C)]) -> bool
    ensures { IsTrue result ↔ (AllPairs (λ one other. one.0 ≢ other.0) codes.now) }
{
    for (place, code) in codes.iter().enumerate() {
        if has_code(&codes[..place], code.0) {
            return false;
        }
    }
    true
}

/// Whether each code's caller is named by a cast.
fn are_named<K, C>(casts: &[Cast<K>], codes: &[(CallerId, C)]) -> bool
    ensures { result ≡ list_all (λ code. list_any (λ cast. contains code.0 cast.callers) casts.now) codes.now }
{
    codes.iter().all(|code| is_named(casts, code.0))
}

/// Whether no code's caller has a plan.
fn are_apart<C>(plans: &[(CallerId, Plan)], codes: &[(CallerId, C)]) -> bool
    ensures { result ≡ list_all (λ code. not (list_any (λ plan. plan.0 == code.0) plans.now)) codes.now }
{
    codes.iter().all(|code| !has_plan(plans, code.0))
}

/// Whether the codes' callers are distinct, each is named by a cast, and none of them has a plan.
pub fn codes_fit<K, C>(
    casts: &[Cast<K>],
    plans: &[(CallerId, Plan)],
    codes: &[(CallerId, C)],
) -> bool
    ensures { IsTrue result ↔ CodesFit casts.now plans.now codes.now }
{
    callers_differ(codes) && are_named(casts, codes) && are_apart(plans, codes)
}
