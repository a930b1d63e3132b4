//! Whether what was read fits the roles and the steps of its script.

ghost use Rattle.std.specs.Prelude.{◌≡◌, ◌↔◌, ◌≤◌, ◌++◌, ◌∷◌, ℕ, true, false, [], length, map, take, IfSome, IsTrue, Some};
ghost use Rattle.act_rules.specs.declared.script.Step.TheVariants as lines;
ghost use Rattle.act_console.specs.Plans.{steps_of_caller};
ghost use Rattle.act_walks.specs.declared.told.ToldCaller.{ToldCaller as ToldCallerOf};
ghost use Rattle.act_walks.specs.Fits.{submission_of_call, steps_in, caller_in};
ghost use Rattle.act_decisions.specs.Play.{BeginsWith, IsNext, awaits, call_of, calls_of_steps};
ghost use Rattle.act_decisions.specs.Fits.{own_step, StartsWith, binding, FitsSteps, AllFitSteps};

use crate::compared::has_none;
use act_compare::{same_args, same_method};
use act_rules::Step;
use act_types::{ActorId, Arg, CallerId, MAX_CALLERS, Method};
use act_walks::{ToldCall, ToldCaller, ToldEnd};

/// Whether the call at this place goes to the actor, with this method and these arguments.
fn has_call(calls: &[ToldCall], k: usize, actor: ActorId, method: &Method, args: &[Arg]) -> bool
    ensures { IsTrue result → IsNext k actor method.now args.now (map submission_of_call calls.now) }
{
    let Some(call) = calls.get(k) else {
        return false;
    };
    if call.actor != actor {
        return false;
    }
    same_method(&call.method, method) && same_args(call.args.as_slice(), args)
}

/// How many of the calls the steps told so far after this one, where it submits the next.
fn calls_after(
    calls: &[ToldCall],
    c: CallerId,
    told: usize,
    caller: CallerId,
    step: &Step,
) -> Option<usize>
    requires { told ≤ length (map submission_of_call calls.now) }
    ensures { (line : ℕ) → IfSome result (λ next. BeginsWith next
        (take told (map submission_of_call calls.now) ++ call_of c (caller, step.now, line))
        (map submission_of_call calls.now)) }
{
    if caller != c {
        return Some(told);
    }
    match step {
        Step::Submit(actor, method, args) => {
            if has_call(calls, told, *actor, method, args.as_slice()) {
                Some(told + 1)
            } else {
                None
            }
        }
        _ => Some(told),
    }
}

/// Whether the calls are those that the caller's steps submit.
fn are_calls_of(calls: &[ToldCall], c: CallerId, steps: &[(CallerId, Step, u32)]) -> bool
    ensures { IsTrue result → map submission_of_call calls.now ≡ calls_of_steps c steps.now }
{
    let mut told = 0usize;
    for step in steps {
        match calls_after(calls, c, told, step.0, &step.1) {
            Some(next) => told = next,
            None => return false,
        }
    }
    told == calls.len()
}

/// Whether two steps are the same.
fn same_step(one: &Step, other: &Step) -> bool
    ensures { IsTrue result → one.now ≡ other.now }
{
    match one {
        Step::Submit(a, method, args) => is_submit(other, *a, method, args.as_slice()),
        Step::Copy(a) => is_copy(other, *a),
        Step::Release(a) => is_release(other, *a),
        Step::Kill(a) => is_kill(other, *a),
        Step::Await(k) => match other {
            Step::Await(j) => *j == *k,
            _ => false,
        },
    }
}

pub(crate) fn is_submit(step: &Step, a: ActorId, method: &Method, args: &[Arg]) -> bool
    ensures same { IsTrue result → step.now ≡ lines.Submit a method.now args.now }
{
    match step {
        Step::Submit(actor, own, given) => {
            *actor == a && same_method(own, method) && same_args(given.as_slice(), args)
        }
        _ => false,
    }
}

pub(crate) fn is_copy(step: &Step, a: ActorId) -> bool
    ensures same { IsTrue result → step.now ≡ lines.Copy a }
{
    match step {
        Step::Copy(actor) => *actor == a,
        _ => false,
    }
}

pub(crate) fn is_release(step: &Step, a: ActorId) -> bool
    ensures same { IsTrue result → step.now ≡ lines.Release a }
{
    match step {
        Step::Release(actor) => *actor == a,
        _ => false,
    }
}

pub(crate) fn is_kill(step: &Step, a: ActorId) -> bool
    ensures same { IsTrue result → step.now ≡ lines.Kill a }
{
    match step {
        Step::Kill(actor) => *actor == a,
        _ => false,
    }
}

/// How many of its own steps the caller has after this one, where it is the next of them.
fn steps_after(own: &[Step], c: CallerId, at: usize, caller: CallerId, step: &Step) -> Option<usize>
    requires { at ≤ length own.now }
    ensures { (line : ℕ) → IfSome result (λ next.
        StartsWith next (take at own.now ++ own_step c (caller, step.now, line)) own.now) }
{
    if caller != c {
        return Some(at);
    }
    let next = own.get(at)?;
    if !same_step(next, step) {
        return None;
    }
    Some(at + 1)
}

/// Whether these are the caller's steps.
fn are_steps_of(own: &[Step], c: CallerId, steps: &[(CallerId, Step, u32)]) -> bool
    ensures { IsTrue result → own.now ≡ steps_of_caller c steps.now }
{
    let mut at = 0usize;
    for step in steps {
        match steps_after(own, c, at, step.0, &step.1) {
            Some(next) => at = next,
            None => return false,
        }
    }
    at == own.len()
}

/// Whether the line is the caller's, and awaits an answer.
fn is_await_of(c: CallerId, caller: CallerId, step: &Step) -> bool
    ensures { IsTrue result ↔ awaits c ((caller, step.now, 0) ∷ []) ≡ true }
{
    caller == c && matches!(step, Step::Await(_))
}

/// Whether the caller has a step that awaits an answer.
fn awaits_any(c: CallerId, steps: &[(CallerId, Step, u32)]) -> bool
    ensures { result ≡ awaits c steps.now }
{
    for step in steps {
        if is_await_of(c, step.0, &step.1) {
            return true;
        }
    }
    false
}

/// Whether the caller has the calls that its steps submit, if they submit any.
fn fits_calls(caller: &ToldCaller, c: CallerId, steps: &[(CallerId, Step, u32)]) -> bool
    ensures told { IsTrue result → caller.now.has_lines ≡ true →
        map submission_of_call caller.now.calls.items ≡ calls_of_steps c steps.now }
    ensures untold { IsTrue result → caller.now.has_lines ≡ false → calls_of_steps c steps.now ≡ [] }
{
    if caller.has_lines {
        are_calls_of(&caller.calls, c, steps)
    } else {
        has_none(c, steps)
    }
}

/// Whether the caller is bound to its steps, where it awaits an answer, and else to none.
fn fits_bound(caller: &ToldCaller, c: CallerId, steps: &[(CallerId, Step, u32)]) -> bool
    ensures bound { IsTrue result → steps_in caller.now ≡ binding c steps.now }
    ensures lined { IsTrue result → awaits c steps.now ≡ true → caller.now.has_lines ≡ true }
{
    let is_bound = awaits_any(c, steps);
    match &caller.steps {
        None => !is_bound,
        Some(own) => is_bound && caller.has_lines && are_steps_of(own, c, steps),
    }
}

/// Whether what is told of the caller fits its steps.
fn fits_steps(caller: &ToldCaller, c: CallerId, steps: &[(CallerId, Step, u32)]) -> bool
    ensures { IsTrue result → FitsSteps c steps.now caller.now }
{
    fits_calls(caller, c, steps) && fits_bound(caller, c, steps)
}

/// Whether what is told of the caller of this number fits its steps.
fn fits_steps_at(end: &ToldEnd, number: u8, steps: &[(CallerId, Step, u32)]) -> bool
    requires { (1 ≤ number) × (number ≤ MAX_CALLERS) }
    ensures { IsTrue result → (caller : ToldCallerOf) × (caller_in end.now number ≡ Some caller)
        × FitsSteps number steps.now caller }
{
    let c = CallerId::new(number).unwrap();
    match end.callers.get(number as usize) {
        None => false,
        Some(caller) => fits_steps(caller, c, steps),
    }
}

/// Whether what is told of each caller fits its steps.
pub(crate) fn all_fit_steps(end: &ToldEnd, steps: &[(CallerId, Step, u32)]) -> bool
    ensures { IsTrue result → AllFitSteps end.now steps.now }
{
    for before in 0..MAX_CALLERS {
        if !fits_steps_at(end, before + 1, steps) {
            return false;
        }
    }
    true
}
