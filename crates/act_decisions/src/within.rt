//! Whether nothing is told of numbers that no caller and no actor has.

ghost use Rattle.std.specs.Prelude.{◌≡◌, ◌≤◌, ◌⊎◌, ◌<◌, ℕ, false, [], None, IsTrue, is_none, true};
ghost use Rattle.act_types.specs.declared.limits.TheConstants.{ACTOR_NUMBERS, CALLER_NUMBERS};
ghost use Rattle.act_walks.specs.Fits.{bound_of, calls_in, callers_of, rans_in, is_dead_in, is_retired_in};
ghost use Rattle.act_decisions.specs.Within.{IsOfNumbers};

use act_types::{ACTOR_NUMBERS, CALLER_NUMBERS};
use act_walks::{ToldActor, ToldCaller, ToldEnd};

/// Whether no call and no step is told of the caller.
fn is_silent(caller: &ToldCaller) -> bool
    ensures calls { IsTrue result → caller.now.calls.items ≡ [] }
    ensures steps { IsTrue result → caller.now.steps ≡ None }
{
    caller.calls.is_empty() && caller.steps.is_none()
}

/// Whether calls and steps are told of callers alone.
fn are_callers(end: &ToldEnd) -> bool
    ensures { IsTrue result → (c : ℕ) →
        (1 ≤ c) × (c < CALLER_NUMBERS) ⊎ (calls_in end.now c ≡ []) × (bound_of end.now c ≡ None) }
{
    if end.callers.len() > CALLER_NUMBERS {
        return false;
    }
    match end.callers.first() {
        None => true,
        Some(caller) => is_silent(caller),
    }
}

/// Whether nothing is told of the actor, if no caller may call it.
fn is_told_so(actor: &ToldActor) -> bool
    ensures runs { IsTrue result → actor.now.callers.items ≡ [] → actor.now.runs.items ≡ [] }
    ensures dead { IsTrue result → actor.now.callers.items ≡ [] → actor.now.is_dead ≡ false }
    ensures retired { IsTrue result → actor.now.callers.items ≡ [] → actor.now.is_retired ≡ false }
{
    if !actor.callers.is_empty() {
        return true;
    }
    actor.runs.is_empty() && !actor.is_dead && !actor.is_retired
}

/// Whether something is told of such actors alone that some callers may call.
fn are_told_so(end: &ToldEnd) -> bool
    ensures runs { IsTrue result → (a : ℕ) → callers_of end.now a ≡ [] → rans_in end.now a ≡ [] }
    ensures dead { IsTrue result → (a : ℕ) → callers_of end.now a ≡ [] → is_dead_in end.now a ≡ false }
    ensures retired { IsTrue result → (a : ℕ) → callers_of end.now a ≡ [] → is_retired_in end.now a ≡ false }
{
    for a in 0..end.actors.len() {
        if !is_told_so(&end.actors[a]) {
            return false;
        }
    }
    true
}

/// Whether callers are told of actors alone.
fn are_actors(end: &ToldEnd) -> bool
    ensures { IsTrue result → (a : ℕ) → (1 ≤ a) × (a < ACTOR_NUMBERS) ⊎ (callers_of end.now a ≡ []) }
{
    if end.actors.len() > ACTOR_NUMBERS {
        return false;
    }
    match end.actors.first() {
        None => true,
        Some(actor) => actor.callers.is_empty(),
    }
}

/// Whether nothing is told of numbers that no caller and no actor has.
pub(crate) fn is_within(end: &ToldEnd) -> bool
    ensures { IsTrue result → IsOfNumbers end.now }
{
    are_callers(end) && are_actors(end) && are_told_so(end)
}
