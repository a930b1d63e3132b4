//! What a world shows, beside what steps and lines tell.

ghost use Rattle.std.specs.Prelude.{◌≡◌, ◌≢◌, ◌↔◌, ◌≤◌, ◌<◌, ◌++◌, ℕ, true, List, [], length, map, take, IfOk, IfSome, IsOk, IsTrue, All, Option, Some, None};
ghost use Rattle.act_rules.specs.declared.event.Event.{Event as Happening};
ghost use Rattle.act_rules.specs.History.{ActorSpec};
ghost use Rattle.act_rules.specs.Laws.{history};
ghost use Rattle.act_rules.specs.Report.{summary};
ghost use Rattle.act_world.specs.IsReachedBy.{IsReachedBy};
ghost use Rattle.act_world.specs.View.{world_view};
ghost use Rattle.act_summaries.specs.Lines.{AreTold};
ghost use Rattle.act_decisions.specs.Play.{HasCalls, BeginsWith, IsNext, call_of, calls_of_steps};
ghost use Rattle.act_decisions.specs.Read.{Matches};

use crate::parts::second_part;
use act_compare::{same_args, same_method};
use act_console::play_report;
use act_kinds::Actor;
use act_owner::Owner;
use act_rules::Step;
use act_types::{ActorId, Arg, CallerId, FutureId, MAX_CALLERS, MAX_CALLS, Method, NoMemory};
use act_world::World;
use std::alloc::Global;

/// Whether the caller's call of this future goes to the actor, with this method and these arguments.
fn has_call(owner: &Owner, k: u32, actor: ActorId, method: &Method, args: &[Arg]) -> bool
    ensures next { IsTrue result → IsNext k actor method.now args.now owner.now.calls }
    ensures exact { IsNext k actor method.now args.now owner.now.calls → IsTrue result }
    ensures few { IsTrue result → k < MAX_CALLS }
{
    if k >= owner.count() {
        return false;
    }
    let Some(call) = owner.call(FutureId::new(k)) else {
        return false;
    };
    if call.actor != actor {
        return false;
    }
    same_method(&call.method, method) && same_args(call.args.as_slice(), args)
}

/// How many of the caller's calls the steps told so far after this one, where it submits the next.
fn told_after(owner: &Owner, c: CallerId, told: u32, caller: CallerId, step: &Step) -> Option<u32>
    requires { told ≤ length owner.now.calls }
    ensures begins { (line : ℕ) → IfSome result (λ next.
        BeginsWith next (take told owner.now.calls ++ call_of c (caller, step.now, line)) owner.now.calls) }
    ensures exact { (line next : ℕ) →
        BeginsWith next (take told owner.now.calls ++ call_of c (caller, step.now, line)) owner.now.calls →
        result ≢ None }
{
    if caller != c {
        return Some(told);
    }
    match step {
        Step::Submit(actor, method, args) => {
            if has_call(owner, told, *actor, method, args.as_slice()) {
                Some(told + 1)
            } else {
                None
            }
        }
        _ => Some(told),
    }
}

/// Whether the caller's calls are those that its steps submit, if any do.
fn has_calls(owner: &Owner, c: CallerId, steps: &[(CallerId, Step, u32)]) -> bool
    ensures has { IsTrue result → calls_of_steps c steps.now ≢ [] → owner.now.calls ≡ calls_of_steps c steps.now }
    ensures exact { (calls_of_steps c steps.now ≢ [] → owner.now.calls ≡ calls_of_steps c steps.now) →
        IsTrue result }
{
    let mut told = 0;
    for step in steps {
        match told_after(owner, c, told, step.0, &step.1) {
            Some(next) => told = next,
            None => return false,
        }
    }
    told == 0 || told == owner.count()
}

/// Whether the step submits nothing of this caller's.
fn is_silent(c: CallerId, caller: CallerId, step: &Step) -> bool
    ensures silent { (line : ℕ) → IsTrue result → call_of c (caller, step.now, line) ≡ [] }
    ensures exact { (line : ℕ) → call_of c (caller, step.now, line) ≡ [] → IsTrue result }
{
    caller != c || !matches!(step, Step::Submit(..))
}

/// Whether no step submits a call of this caller.
pub(crate) fn has_none(c: CallerId, steps: &[(CallerId, Step, u32)]) -> bool
    ensures none { IsTrue result → calls_of_steps c steps.now ≡ [] }
    ensures exact { calls_of_steps c steps.now ≡ [] → IsTrue result }
{
    for step in steps {
        if !is_silent(c, step.0, &step.1) {
            return false;
        }
    }
    true
}

/// Whether the calls of the caller are those that its steps submit, if any do.
fn has_calls_of<K: Actor>(world: &World<K>, c: CallerId, steps: &[(CallerId, Step, u32)]) -> bool
    ensures has { IsTrue result → (casts : List ActorSpec) (events : List Happening) →
        IsReachedBy casts events (world_view K.state world.now) → HasCalls c steps.now (history casts events) }
    ensures exact { (casts : List ActorSpec) (events : List Happening) →
        IsReachedBy casts events (world_view K.state world.now) → HasCalls c steps.now (history casts events) →
        IsTrue result }
{
    match world.owner(c) {
        None => has_none(c, steps),
        Some(owner) => has_calls(owner, c, steps),
    }
}

/// Whether the calls of the caller of this number are those that its steps submit, if any do.
fn has_calls_at<K: Actor>(world: &World<K>, number: u8, steps: &[(CallerId, Step, u32)]) -> bool
    requires { (1 ≤ number) × (number ≤ MAX_CALLERS) }
    ensures has { IsTrue result → (casts : List ActorSpec) (events : List Happening) →
        IsReachedBy casts events (world_view K.state world.now) → HasCalls number steps.now (history casts events) }
    ensures exact { (casts : List ActorSpec) (events : List Happening) →
        IsReachedBy casts events (world_view K.state world.now) → HasCalls number steps.now (history casts events) →
        IsTrue result }
{
    let c = CallerId::new(number).unwrap();
    has_calls_of(world, c, steps)
}

/// Whether the calls of each caller are those that its steps submit, if any do.
fn has_all_calls<K: Actor>(world: &World<K>, steps: &[(CallerId, Step, u32)]) -> bool
    ensures have { IsTrue result → (casts : List ActorSpec) (events : List Happening) →
        IsReachedBy casts events (world_view K.state world.now) →
        (c : ℕ) → 1 ≤ c → c ≤ MAX_CALLERS → HasCalls c steps.now (history casts events) }
    ensures exact { (casts : List ActorSpec) (events : List Happening) →
        IsReachedBy casts events (world_view K.state world.now) →
        ((c : ℕ) → 1 ≤ c → c ≤ MAX_CALLERS → HasCalls c steps.now (history casts events)) → IsTrue result }
{
    for before in 0..MAX_CALLERS {
        if !has_calls_at(world, before + 1, steps) {
            return false;
        }
    }
    true
}

/// Whether the bytes are the same.
fn same_bytes(one: &[u8], other: &[u8]) -> bool
    ensures { IsTrue result ↔ (one.now ≡ other.now) }
{
    one == other
}

/// Whether the world shows the lines of the history.
fn shows<K: Actor>(alloc: Global, world: &World<K>, rest: &[u8]) -> Result<bool, NoMemory>
    ensures { IfOk result (λ is. (casts : List ActorSpec) (events : List Happening) →
        IsReachedBy casts events (world_view K.state world.now) →
        IsTrue is ↔ AreTold rest.now (summary (history casts events))) }
{
    let mut text = String::new(alloc);
    play_report(alloc, world, &[], &mut text)?;
    let shown = text.as_bytes();
    let told = second_part(alloc, rest, shown)?;
    Ok(same_bytes(shown, &told))
}

/// Whether the callers have the calls that steps tell, and the world shows the lines of the history.
pub(crate) fn matches_told<K: Actor>(
    alloc: Global,
    world: &World<K>,
    steps: &[(CallerId, Step, u32)],
    rest: &[u8],
) -> Result<bool, NoMemory>
    ensures { IfOk result (λ is. (casts : List ActorSpec) (events : List Happening) →
        IsReachedBy casts events (world_view K.state world.now) →
        IsTrue is ↔ Matches casts steps.now rest.now events) }
{
    if !has_all_calls(world, steps) {
        return Ok(false);
    }
    let is = shows(alloc, world, rest)?;
    Ok(is)
}
