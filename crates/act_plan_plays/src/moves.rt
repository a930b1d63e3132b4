//! What is left to do without a choice.

ghost use Rattle.std.specs.Prelude.{◌≡◌, ◌<◌, ◌&&◌, ℕ, not, nat_lt, List, length, find, slice_get, IfOk, IfSome, IfNone, is_none, None, Ok};
ghost use Rattle.act_rules.specs.declared.script.Step.{Step as PlanStep};
ghost use Rattle.act_rules.specs.History.{ActorSpec};
ghost use Rattle.act_early.specs.Plays.{At};
ghost use Rattle.act_early.specs.Early.{IsQuiescent};
ghost use Rattle.act_owner.specs.Owner.{is_known_dead, refusal_to_submit};
ghost use Rattle.act_world.specs.View.{world_view};
ghost use Rattle.act_plan_plays.specs.Parts.{parts_of, Stands};
ghost use Rattle.act_plan_plays.specs.Play.{IsPart, HoldPlans};
ghost use Rattle.act_plan_plays.specs.Moves.{held, may_take, shows_dead, is_left_out, HasNoStep, IsDone};

use crate::choice::PlayFault;
use crate::played::Played;
use act_kinds::Actor;
use act_owner::Owner;
use act_plans::CallerSetup;
use act_rules::Step;
use act_types::{ActorId, Arg, FutureId, ListOf, MAX_COPIES};
use act_world::{Stage, World};

/// What a caller does next without a choice, or what it is told.
#[derive(Clone, Copy, Debug, PartialEq, Eq)]
pub(crate) enum Move {
    /// It takes the next step of its plan.
    Step,
    /// It leaves that step out.
    Skip,
    /// It lets a handle of the actor go.
    Close(ActorId),
    /// It sends a call.
    Send(FutureId),
    /// The dead actor tells it its death.
    Tell(ActorId),
}

/// Whether the caller holds a handle of the actor, and may make one more.
fn may_copy(owner: &Owner, a: ActorId) -> bool
    ensures { result ≡ (nat_lt 0 (held owner.now a) && nat_lt (held owner.now a) MAX_COPIES) }
{
    let copies = owner.holds(a);
    copies > 0 && copies < MAX_COPIES
}

/// Whether the caller holds a handle of the actor.
fn is_held(owner: &Owner, a: ActorId) -> bool
    ensures { result ≡ nat_lt 0 (held owner.now a) }
{
    owner.holds(a) > 0
}

/// Whether the caller may submit the call.
fn may_submit(owner: &Owner, a: ActorId, args: &ListOf<Arg>) -> bool
    ensures { result ≡ is_none (refusal_to_submit owner.now a args.now) }
{
    owner.submission_refusal(a, args).is_none()
}

/// Whether the caller may take the step.
fn may_take(owner: &Owner, step: &Step) -> bool
    ensures { result ≡ may_take owner.now step.now }
{
    match step {
        Step::Submit(a, _, args) => may_submit(owner, *a, args),
        Step::Copy(a) => may_copy(owner, *a),
        Step::Release(a) => is_held(owner, *a),
        Step::Kill(a) => is_held(owner, *a),
        Step::Await(k) => owner.answer(*k).is_some(),
    }
}

/// Whether the actor is dead.
pub fn is_dead<K: Actor>(world: &World<K>, a: ActorId) -> bool
    ensures { result ≡ shows_dead (world_view K.state world.now) a }
{
    match world.stage(a) {
        Some(Stage::Dead(_)) => true,
        _ => false,
    }
}

/// Whether the caller leaves the step out: the kill of a dead actor of its own.
pub(crate) fn is_left_out<K: Actor>(world: &World<K>, owner: &Owner, step: &Step) -> bool
    ensures { result ≡ is_left_out (world_view K.state world.now) owner.now step.now }
{
    match step {
        Step::Kill(a) => is_dead(world, *a) && owner.is_listed(*a),
        _ => false,
    }
}

/// The first of the actors of which the caller holds a handle.
fn first_held(owner: &Owner, actors: &[ActorId]) -> Option<ActorId>
    ensures { result ≡ find (λ a. nat_lt 0 (held owner.now a)) actors.now }
{
    actors.iter().copied().find(|a| is_held(owner, *a))
}

/// Whether the actor is dead, and its caller doesn't know it.
fn is_untold<K: Actor>(world: &World<K>, owner: &Owner, a: ActorId) -> bool
    ensures { result ≡ (shows_dead (world_view K.state world.now) a && not (is_known_dead owner.now a)) }
{
    is_dead(world, a) && !owner.is_dead(a)
}

/// The first of the actors that is dead and didn't tell it.
fn first_untold<K: Actor>(world: &World<K>, owner: &Owner, actors: &[ActorId]) -> Option<ActorId>
    ensures { IfNone result
        (find (λ a. shows_dead (world_view K.state world.now) a && not (is_known_dead owner.now a)) actors.now ≡ None) }
{
    for a in actors {
        if is_untold(world, owner, *a) {
            return Some(*a);
        }
    }
    None
}

/// What the caller does with its next step, or with its handles after the last.
fn own_move<K: Actor>(
    world: &World<K>,
    owner: &Owner,
    setup: &CallerSetup,
    done: usize,
) -> Option<Move>
    ensures { IfNone result (HasNoStep (world_view K.state world.now) owner.now setup.now.actors.items
        (slice_get setup.now.plan.items done)) }
{
    let Some(step) = setup.plan.get(done) else {
        let held = first_held(owner, setup.actors.as_slice())?;
        return Some(Move::Close(held));
    };
    if may_take(owner, step) {
        return Some(Move::Step);
    }
    if is_left_out(world, owner, step) {
        return Some(Move::Skip);
    }
    None
}

/// What the caller does next without a choice, or what it is told.
pub(crate) fn next_move<K: Actor>(
    played: &Played<K>,
    setup: &CallerSetup,
) -> Result<Option<Move>, PlayFault>
    ensures { result ≡ Ok None → (casts : List ActorSpec) (plans : ℕ → List PlanStep) (at : At) →
        Stands casts plans at (parts_of K.state played.now) → IsPart casts plans setup.now →
        IsDone plans setup.now.caller at }
{
    let Some(owner) = played.world.owner(setup.caller) else {
        return Err(PlayFault::Stuck);
    };
    let done = played.done[setup.caller.number() as usize];
    if let Some(next) = own_move(&played.world, owner, setup, done) {
        return Ok(Some(next));
    }
    if let Some(k) = owner.ready() {
        return Ok(Some(Move::Send(k)));
    }
    if let Some(a) = first_untold(&played.world, owner, setup.actors.as_slice()) {
        return Ok(Some(Move::Tell(a)));
    }
    Ok(None)
}

/// The place of the first part whose caller does something without a choice.
pub(crate) fn find_move<K: Actor>(
    played: &Played<K>,
    setups: &[CallerSetup],
) -> Result<Option<usize>, PlayFault>
    ensures within { IfOk result (λ found. IfSome found (λ place. place < length setups.now)) }
    ensures quiescent { result ≡ Ok None → (casts : List ActorSpec) (plans : ℕ → List PlanStep) (at : At) →
        Stands casts plans at (parts_of K.state played.now) → HoldPlans casts plans setups.now →
        IsQuiescent plans at }
{
    for (place, setup) in setups.iter().enumerate() {
        if next_move(played, setup)?.is_some() {
            return Ok(Some(place));
        }
    }
    Ok(None)
}
