//! What there is to choose.

ghost use Rattle.std.specs.Prelude.{◌≡◌, ℕ, List, None, true, OnOk, IfOk, Contains, is_some};
ghost use Rattle.act_rules.specs.declared.event.Event.TheVariants as happening;
ghost use Rattle.act_rules.specs.declared.script.Step.{Step as PlanStep};
ghost use Rattle.act_rules.specs.Consistent.{IsPrefix};
ghost use Rattle.act_rules.specs.History.{ActorSpec, contains, next_item};
ghost use Rattle.act_rules.specs.Rules.{refusal_of};
ghost use Rattle.act_early.specs.Plays.{At};
ghost use Rattle.act_world.specs.View.{world_view};
ghost use Rattle.act_plan_plays.specs.Parts.{parts_of, Stands};
ghost use Rattle.act_plan_plays.specs.Play.{HoldPlans};
ghost use Rattle.act_plan_plays.specs.Moves.{shows_live, shows_next, AllRuns};
ghost use Rattle.act_plan_plays.specs.declared.choice.Choice.TheVariants as choose;

use crate::choice::Choice;
use crate::played::Played;
use act_kinds::Actor;
use act_plans::CallerSetup;
use act_types::{ActorId, CallerId, NoMemory};
use act_world::{Stage, World};
use std::alloc::Global;

/// Whether the actor runs, and the caller's next call has come to it.
pub fn may_run<K: Actor>(world: &World<K>, a: ActorId, c: CallerId) -> bool
    ensures { result ≡ shows_next (world_view K.state world.now) a c }
{
    match world.stage(a) {
        Some(Stage::Live(live)) => live.has_next(c),
        _ => false,
    }
}

/// Whether the actor runs.
pub(crate) fn is_live<K: Actor>(world: &World<K>, a: ActorId) -> bool
    ensures { result ≡ shows_live (world_view K.state world.now) a }
{
    match world.stage(a) {
        Some(Stage::Live(_)) => true,
        _ => false,
    }
}

/// Adds the runs of the caller's calls.
fn add_runs<K: Actor>(
    world: &World<K>,
    setup: &CallerSetup,
    choices: &mut Vec<Choice>,
) -> Result<(), NoMemory>
    ensures front { IsPrefix choices.old.items choices.new.items }
    ensures runs { OnOk result ((a : ℕ) → contains a setup.now.actors.items ≡ true →
        shows_next (world_view K.state world.now) a setup.now.caller ≡ true →
        Contains choices.new.items (choose.Run a setup.now.caller)) }
{
    for a in setup.actors.as_slice() {
        if may_run(world, *a, setup.caller) {
            choices.push(Choice::Run(*a, setup.caller))?;
        }
    }
    Ok(())
}

/// Adds the kills of those of the actors that run.
fn add_kills<K: Actor>(
    world: &World<K>,
    asked: &[ActorId],
    choices: &mut Vec<Choice>,
) -> Result<(), NoMemory>
    ensures front { IsPrefix choices.old.items choices.new.items }
    ensures kills { OnOk result ((a : ℕ) → contains a asked.now ≡ true →
        shows_live (world_view K.state world.now) a ≡ true → Contains choices.new.items (choose.Take a)) }
{
    for a in asked {
        if is_live(world, *a) {
            choices.push(Choice::Take(*a))?;
        }
    }
    Ok(())
}

/// Adds the runs of all callers' calls.
fn add_all_runs<K: Actor>(
    world: &World<K>,
    setups: &[CallerSetup],
    choices: &mut Vec<Choice>,
) -> Result<(), NoMemory>
    ensures { OnOk result ((casts : List ActorSpec) (plans : ℕ → List PlanStep) → HoldPlans casts plans setups.now →
        AllRuns casts (world_view K.state world.now) choices.new.items) }
{
    for setup in setups {
        add_runs(world, setup, choices)?;
    }
    Ok(())
}

/// Each choice that may be made.
pub(crate) fn choices_of<K: Actor>(
    alloc: Global,
    played: &Played<K>,
    setups: &[CallerSetup],
) -> Result<Vec<Choice>, NoMemory>
    ensures runs { IfOk result (λ choices. (casts : List ActorSpec) (plans : ℕ → List PlanStep) (at : At) →
        Stands casts plans at (parts_of K.state played.now) → HoldPlans casts plans setups.now →
        (a c : ℕ) → refusal_of at.history (happening.Run a c) ≡ None → is_some (next_item a c at.history) ≡ true →
        Contains choices.items (choose.Run a c)) }
    ensures kills { IfOk result (λ choices. (casts : List ActorSpec) (plans : ℕ → List PlanStep) (at : At) →
        Stands casts plans at (parts_of K.state played.now) → HoldPlans casts plans setups.now →
        (a : ℕ) → refusal_of at.history (happening.TakeKill a) ≡ None → Contains choices.items (choose.Take a)) }
{
    let mut choices = Vec::new(alloc);
    add_all_runs(&played.world, setups, &mut choices)?;
    add_kills(&played.world, played.asked.as_slice(), &mut choices)?;
    Ok(choices)
}
