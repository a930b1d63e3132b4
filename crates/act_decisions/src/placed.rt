//! Whether each call that ran is told where, and no answer that is left open has to be guessed.

ghost use Rattle.std.specs.Prelude.{◌≡◌, ◌≢◌, ℕ, false, true, slice_get, IsTrue, Some, List, [], Contains, map, option_copied};
ghost use Rattle.act_types.specs.declared.call.Settled.TheVariants.{Bad};
ghost use Rattle.act_rules.specs.History.{ActorSpec};
ghost use Rattle.act_told_ends.specs.Untold.{arg_as_run};
ghost use Rattle.act_walks.specs.declared.told.Left.TheVariants.{Reply, Death};
ghost use Rattle.act_walks.specs.declared.told.ToldCall.{ToldCall as Told};
ghost use Rattle.act_walks.specs.declared.told.ToldRun.{ToldRun as Run};
ghost use Rattle.act_walks.specs.Fits.{calls_in, call_of_run};
ghost use Rattle.act_decisions.specs.Answered.{AreAnswers};
ghost use Rattle.act_decisions.specs.Placed.{IsRunIn, IsPlacedAt, RunsArePlaced, StandsThere, GaveValue, TookFailure, IsDecided, AllDecided};

use crate::answers::{Answered, is_value};
use act_compare::same_method;
use act_types::{ActorId, Arg, CallerId, FutureId, Settled};
use act_walks::{Left, ToldCall, ToldCaller, ToldEnd, ToldRun};

/// The caller's call.
pub(crate) fn call_at(end: &ToldEnd, c: CallerId, k: FutureId) -> Option<&ToldCall>
    ensures { option_copied result ≡ slice_get (calls_in end.now c) k }
{
    let caller = end.callers.get(c.number() as usize)?;
    caller.calls.get(k.number() as usize)
}

/// What ran at a place of the actor's run list.
fn run_at(end: &ToldEnd, a: ActorId, p: u32) -> Option<&ToldRun>
    ensures { (run : Run) → option_copied result ≡ Some run → IsRunIn end.now a p run }
{
    let actor = end.actors.get(a.number() as usize)?;
    actor.runs.get(p as usize)
}

/// Whether the call is told to have run there.
fn ran_at(call: &ToldCall, a: usize, p: usize) -> bool
    ensures { IsTrue result → call.now.place ≡ Some (a, p) }
{
    match call.place {
        Some((actor, place)) => actor.number() as usize == a && place as usize == p,
        None => false,
    }
}

/// Whether the caller's call is told to have run there.
fn is_placed(end: &ToldEnd, a: usize, p: usize, run: &ToldRun) -> bool
    ensures { IsTrue result → IsPlacedAt end.now a p run.now.caller run.now.future }
{
    match call_at(end, run.caller, run.future) {
        None => false,
        Some(call) => ran_at(call, a, p),
    }
}

/// Whether each of the actor's runs is of a call that is told to have run there.
fn are_placed(end: &ToldEnd, a: usize, runs: &[ToldRun]) -> bool
    ensures { IsTrue result → (p : ℕ) (run : Run) → slice_get runs.now p ≡ Some run →
        IsPlacedAt end.now a p run.caller run.future }
{
    for p in 0..runs.len() {
        if !is_placed(end, a, p, &runs[p]) {
            return false;
        }
    }
    true
}

/// Whether each run is of a call that is told to have run there.
pub(crate) fn runs_are_placed(end: &ToldEnd) -> bool
    ensures { IsTrue result → RunsArePlaced end.now }
{
    for a in 0..end.actors.len() {
        if !are_placed(end, a, &end.actors[a].runs) {
            return false;
        }
    }
    true
}

/// Whether the run is of the caller's call k.
fn is_run_of(run: &ToldRun, c: usize, k: usize) -> bool
    ensures { IsTrue result → call_of_run run.now ≡ (c, k) }
{
    run.caller.number() as usize == c && run.future.number() as usize == k
}

/// Whether the call stands in the run list where it is told to have run.
pub(crate) fn stands_there(end: &ToldEnd, c: usize, k: usize, call: &ToldCall) -> bool
    ensures { IsTrue result → StandsThere end.now c k call.now }
{
    let Some((a, p)) = call.place else {
        return true;
    };
    match run_at(end, a, p) {
        None => false,
        Some(run) => is_run_of(run, c, k),
    }
}

/// Whether the argument is the failure of the call of this place among its caller's.
fn is_failure(arg: &Settled, k: usize) -> bool
    ensures { IsTrue result → arg.now ≡ Bad k }
{
    match arg {
        Settled::Good(_) => false,
        Settled::Bad(future) => future.number() as usize == k,
    }
}

/// Whether one of the arguments is that failure.
fn has_failure(args: &[Settled], k: usize) -> bool
    ensures { IsTrue result → Contains args.now (Bad k) }
{
    for p in 0..args.len() {
        if is_failure(&args[p], k) {
            return true;
        }
    }
    false
}

/// Whether the caller's call that ran at this place took the failure of its call k.
fn took_failure(end: &ToldEnd, at: Option<(ActorId, u32)>, c: usize, k: usize) -> bool
    ensures { IsTrue result → TookFailure end.now c k }
{
    let Some((b, q)) = at else {
        return false;
    };
    match run_at(end, b, q) {
        None => false,
        Some(run) => { run.caller.number() as usize == c && has_failure(run.args.as_slice(), k) }
    }
}

/// Whether the argument is submitted so, where it ran with this one and no line tells more.
fn is_as_run(arg: &Arg, ran: &Settled) -> bool
    ensures { IsTrue result → arg.now ≡ arg_as_run ran.now }
{
    match arg {
        Arg::Plain(value) => match ran {
            Settled::Good(other) => *value == *other,
            Settled::Bad(_) => false,
        },
        Arg::Fut(j) => match ran {
            Settled::Good(_) => false,
            Settled::Bad(k) => *j == *k,
        },
    }
}

/// Whether all arguments are.
fn are_as_run(args: &[Arg], ran: &[Settled]) -> bool
    ensures { IsTrue result → args.now ≡ map arg_as_run ran.now }
{
    if args.len() != ran.len() {
        return false;
    }
    for p in 0..args.len() {
        if !is_as_run(&args[p], &ran[p]) {
            return false;
        }
    }
    true
}

/// Whether the call is as it ran there.
fn is_as_it_ran(end: &ToldEnd, call: &ToldCall, a: ActorId, p: u32) -> bool
    ensures { IsTrue result → (run : Run) → IsRunIn end.now a p run →
        (call.now.method ≡ run.method) × (call.now.args ≡ map arg_as_run run.args) }
{
    match run_at(end, a, p) {
        None => false,
        Some(run) => {
            same_method(&call.method, &run.method)
                && are_as_run(call.args.as_slice(), run.args.as_slice())
        }
    }
}

/// Whether nothing has to be guessed of a call that isn't told to have run.
fn is_decided_unrun(caller: &ToldCaller, call: &ToldCall) -> bool
    ensures open { IsTrue result → call.now.is_open ≡ true → call.now.left ≢ Reply }
    ensures args { IsTrue result → caller.now.has_lines ≡ false → call.now.args ≡ [] }
{
    if call.is_open && call.left == Left::Reply {
        return false;
    }
    caller.has_lines || call.args.as_slice().is_empty()
}

/// Whether nothing has to be guessed of a call that is told to have run there.
fn is_decided_run(
    end: &ToldEnd,
    all: &[Answered],
    c: usize,
    k: usize,
    caller: &ToldCaller,
    call: &ToldCall,
    place: (ActorId, u32),
) -> bool
    ensures death { (casts : List ActorSpec) → AreAnswers casts end.now all.now → IsTrue result →
        call.now.is_open ≡ true → call.now.left ≡ Death →
        GaveValue casts end.now place.0 place.1 × TookFailure end.now c k }
    ensures as_ran { IsTrue result → caller.now.has_lines ≡ false → (run : Run) →
        IsRunIn end.now place.0 place.1 run →
        (call.now.method ≡ run.method) × (call.now.args ≡ map arg_as_run run.args) }
{
    let (a, p) = place;
    if call.is_open && call.left == Left::Death {
        if !is_value(all, a, p) || !took_failure(end, call.failed, c, k) {
            return false;
        }
    }
    caller.has_lines || is_as_it_ran(end, call, a, p)
}

/// Whether nothing has to be guessed of the call.
fn is_decided(
    end: &ToldEnd,
    all: &[Answered],
    c: usize,
    k: usize,
    caller: &ToldCaller,
    call: &ToldCall,
) -> bool
    ensures { (casts : List ActorSpec) → AreAnswers casts end.now all.now → IsTrue result →
        IsDecided casts end.now c k caller.now call.now }
{
    if call.is_open && call.left == Left::Open {
        return false;
    }
    match call.place {
        None => is_decided_unrun(caller, call),
        Some(place) => is_decided_run(end, all, c, k, caller, call, place),
    }
}

/// Whether nothing has to be guessed of the caller's calls, and they stand where they are told to
/// have run.
fn are_decided(end: &ToldEnd, all: &[Answered], c: usize, caller: &ToldCaller) -> bool
    ensures { (casts : List ActorSpec) → AreAnswers casts end.now all.now → IsTrue result →
        (k : ℕ) (call : Told) → slice_get caller.now.calls.items k ≡ Some call →
        StandsThere end.now c k call × IsDecided casts end.now c k caller.now call }
{
    for k in 0..caller.calls.len() {
        let call = &caller.calls[k];
        if !stands_there(end, c, k, call) || !is_decided(end, all, c, k, caller, call) {
            return false;
        }
    }
    true
}

/// Whether nothing has to be guessed of any call, and each stands where it is told to have run.
pub(crate) fn all_are_decided(end: &ToldEnd, all: &[Answered]) -> bool
    ensures { (casts : List ActorSpec) → AreAnswers casts end.now all.now → IsTrue result →
        AllDecided casts end.now }
{
    for c in 0..end.callers.len() {
        if !are_decided(end, all, c, &end.callers[c]) {
            return false;
        }
    }
    true
}
