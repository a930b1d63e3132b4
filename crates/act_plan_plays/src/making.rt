//! What is done without a choice.

ghost use Rattle.std.specs.Prelude.{◌≡◌, ◌==◌, ◌||◌, ℕ, List, None, Some, OnOk, IsTrue, true, is_some};
ghost use Rattle.act_rules.specs.declared.event.Event.{Event as Happening};
ghost use Rattle.act_rules.specs.declared.script.Step.{Step as PlanStep};
ghost use Rattle.act_rules.specs.declared.script.Step.TheVariants as steps;
ghost use Rattle.act_rules.specs.History.{ActorSpec, History, contains, kept_of};
ghost use Rattle.act_rules.specs.Submissions.{kept_at};
ghost use Rattle.act_early.specs.Plays.{At};
ghost use Rattle.act_early.specs.Early.{IsQuiescent};
ghost use Rattle.act_early.specs.Fronts.{HaveSameChoices};
ghost use Rattle.act_world.specs.View.{world_view};
ghost use Rattle.act_plan_plays.specs.Parts.{parts_of, IsBehind, Stands};
ghost use Rattle.act_plan_plays.specs.Play.{HoldPlans};
ghost use Rattle.act_plan_plays.specs.Moves.{Does, Moves};

use crate::choice::PlayFault;
use crate::moves::{Move, find_move, is_left_out, next_move};
use crate::played::{Played, do_event, post};
use act_kinds::Actor;
use act_plans::CallerSetup;
use act_rules::{Did, Event, Step};
use act_types::{ActorId, Arg, CallerId, CopyOf, FutureId, ListOf, Method};
use act_world::World;

/// Whether the caller has the answer.
fn has_answer<K: Actor>(world: &World<K>, c: CallerId, k: FutureId) -> bool
    ensures { IsTrue result → (casts : List ActorSpec) (h : History) (before : List Happening) →
        IsBehind casts h (world_view K.state world.now) before → is_some (kept_at (kept_of c h) k) ≡ true }
{
    match world.owner(c) {
        None => false,
        Some(owner) => owner.answer(k).is_some(),
    }
}

/// The caller submits a call.
fn submit<K: Actor>(
    played: &mut Played<K>,
    c: CallerId,
    a: ActorId,
    method: Method,
    args: &ListOf<Arg>,
) -> Result<(), PlayFault>
    ensures does { OnOk result
        (Does c (steps.Submit a method args.now) (parts_of K.state played.old) (parts_of K.state played.new)) }
    ensures done { played.new.done ≡ played.old.done }
{
    let args = args.copy_of(*played.events.allocator())?;
    do_event(
        &mut played.world,
        &mut played.events,
        Event::Submit(c, a, method, args),
    )?;
    Ok(())
}

/// The caller copies its handle of the actor.
fn copy<K: Actor>(played: &mut Played<K>, c: CallerId, a: ActorId) -> Result<(), PlayFault>
    ensures does { OnOk result (Does c (steps.Copy a) (parts_of K.state played.old) (parts_of K.state played.new)) }
    ensures done { played.new.done ≡ played.old.done }
{
    do_event(&mut played.world, &mut played.events, Event::Copy(c, a))?;
    Ok(())
}

/// The caller lets a copy of its handle go.
fn release<K: Actor>(played: &mut Played<K>, c: CallerId, a: ActorId) -> Result<(), PlayFault>
    ensures does { OnOk result (Does c (steps.Release a) (parts_of K.state played.old) (parts_of K.state played.new)) }
    ensures done { played.new.done ≡ played.old.done }
{
    post(&mut played.world, &mut played.events, Event::Release(c, a))?;
    Ok(())
}

/// Adds the actor, unless it is there.
fn add_actor(actors: &mut Vec<ActorId>, a: ActorId) -> Result<(), PlayFault>
    ensures { OnOk result ((b : ℕ) → contains b actors.new.items ≡ (contains b actors.old.items || (a == b))) }
{
    if !actors.as_slice().contains(&a) {
        actors.push(a)?;
    }
    Ok(())
}

/// The caller asks for the actor's kill.
fn ask_kill<K: Actor>(played: &mut Played<K>, c: CallerId, a: ActorId) -> Result<(), PlayFault>
    ensures does { OnOk result (Does c (steps.Kill a) (parts_of K.state played.old) (parts_of K.state played.new)) }
    ensures done { played.new.done ≡ played.old.done }
{
    do_event(&mut played.world, &mut played.events, Event::AskKill(c, a))?;
    add_actor(&mut played.asked, a)?;
    Ok(())
}

/// The caller goes on where it has the answer.
fn go_on<K: Actor>(played: &mut Played<K>, c: CallerId, k: FutureId) -> Result<(), PlayFault>
    ensures does { OnOk result (Does c (steps.Await k) (parts_of K.state played.old) (parts_of K.state played.new)) }
    ensures done { played.new.done ≡ played.old.done }
{
    if !has_answer(&played.world, c, k) {
        return Err(PlayFault::Stuck);
    }
    Ok(())
}

/// The caller takes the step, but for counting it.
fn do_step<K: Actor>(played: &mut Played<K>, c: CallerId, step: &Step) -> Result<(), PlayFault>
    ensures does { OnOk result (Does c step.now (parts_of K.state played.old) (parts_of K.state played.new)) }
    ensures done { played.new.done ≡ played.old.done }
{
    match step {
        Step::Submit(a, method, args) => submit(played, c, *a, *method, args),
        Step::Copy(a) => copy(played, c, *a),
        Step::Release(a) => release(played, c, *a),
        Step::Kill(a) => ask_kill(played, c, *a),
        Step::Await(k) => go_on(played, c, *k),
    }
}

/// The caller takes its next step.
fn take_step<K: Actor>(played: &mut Played<K>, setup: &CallerSetup) -> Result<(), PlayFault>
    ensures { OnOk result (Moves setup.now (parts_of K.state played.old) (parts_of K.state played.new)) }
{
    let slot = setup.caller.number() as usize;
    let done = played.done[slot];
    let Some(step) = setup.plan.get(done) else {
        return Err(PlayFault::Stuck);
    };
    do_step(played, setup.caller, step)?;
    played.done[slot] = done + 1;
    Ok(())
}

/// The caller leaves its next step out.
fn skip_step<K: Actor>(played: &mut Played<K>, setup: &CallerSetup) -> Result<(), PlayFault>
    ensures { OnOk result (Moves setup.now (parts_of K.state played.old) (parts_of K.state played.new)) }
{
    let slot = setup.caller.number() as usize;
    let done = played.done[slot];
    let Some(step) = setup.plan.get(done) else {
        return Err(PlayFault::Stuck);
    };
    let Some(owner) = played.world.owner(setup.caller) else {
        return Err(PlayFault::Stuck);
    };
    if !is_left_out(&played.world, owner, step) {
        return Err(PlayFault::Stuck);
    }
    played.done[slot] = done + 1;
    Ok(())
}

/// The caller, whose plan is done, lets a handle of the actor go.
fn close<K: Actor>(played: &mut Played<K>, setup: &CallerSetup, a: ActorId) -> Result<(), PlayFault>
    ensures { OnOk result (Moves setup.now (parts_of K.state played.old) (parts_of K.state played.new)) }
{
    let done = played.done[setup.caller.number() as usize];
    if done < setup.plan.len() {
        return Err(PlayFault::Stuck);
    }
    post(
        &mut played.world,
        &mut played.events,
        Event::Release(setup.caller, a),
    )?;
    Ok(())
}

/// The caller sends a call, which arrives.
fn send<K: Actor>(played: &mut Played<K>, setup: &CallerSetup, k: FutureId) -> Result<(), PlayFault>
    ensures { OnOk result (Moves setup.now (parts_of K.state played.old) (parts_of K.state played.new)) }
{
    post(
        &mut played.world,
        &mut played.events,
        Event::Send(setup.caller, k),
    )?;
    Ok(())
}

/// The dead actor tells the caller its death, who collects it.
fn tell<K: Actor>(played: &mut Played<K>, setup: &CallerSetup, a: ActorId) -> Result<(), PlayFault>
    ensures { OnOk result (Moves setup.now (parts_of K.state played.old) (parts_of K.state played.new)) }
{
    let told = do_event(
        &mut played.world,
        &mut played.events,
        Event::Tell(a, setup.caller),
    )?;
    let Did::Told(j) = told else {
        return Err(PlayFault::Stuck);
    };
    do_event(&mut played.world, &mut played.events, Event::Collect(j))?;
    Ok(())
}

/// What needs no choice is done.
fn make<K: Actor>(played: &mut Played<K>, setup: &CallerSetup, next: Move) -> Result<(), PlayFault>
    ensures { OnOk result (Moves setup.now (parts_of K.state played.old) (parts_of K.state played.new)) }
{
    match next {
        Move::Step => take_step(played, setup),
        Move::Skip => skip_step(played, setup),
        Move::Close(a) => close(played, setup, a),
        Move::Send(k) => send(played, setup, k),
        Move::Tell(a) => tell(played, setup, a),
    }
}

/// The caller goes on as far as it can without a choice.
fn go_far<K: Actor>(played: &mut Played<K>, setup: &CallerSetup) -> Result<(), PlayFault>
    ensures { OnOk result (Moves setup.now (parts_of K.state played.old) (parts_of K.state played.new)) }
{
    for _ in 0..u32::MAX {
        let Some(next) = next_move(played, setup)? else {
            return Ok(());
        };
        make(played, setup, next)?;
    }
    Err(PlayFault::Stuck)
}

/// All that needs no choice is done.
pub(crate) fn quiesce<K: Actor>(
    played: &mut Played<K>,
    setups: &[CallerSetup],
) -> Result<(), PlayFault>
    ensures { OnOk result ((casts : List ActorSpec) (plans : ℕ → List PlanStep) (at : At) →
        Stands casts plans at (parts_of K.state played.old) → HoldPlans casts plans setups.now →
        (next : At) × Stands casts plans next (parts_of K.state played.new) × IsQuiescent plans next
        × HaveSameChoices at.history next.history) }
{
    for _ in 0..u32::MAX {
        let Some(place) = find_move(played, setups)? else {
            return Ok(());
        };
        go_far(played, &setups[place])?;
    }
    Err(PlayFault::Stuck)
}
