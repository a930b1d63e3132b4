//! Whether a play is ended.

ghost use Rattle.std.specs.Prelude.{◌↔◌, ℕ, List, IsTrue};
ghost use Rattle.act_rules.specs.declared.event.Event.{Event as Happening};
ghost use Rattle.act_rules.specs.declared.script.Step.{Step as PlanStep};
ghost use Rattle.act_rules.specs.History.{ActorSpec, History};
ghost use Rattle.act_early.specs.Plays.{At};
ghost use Rattle.act_world.specs.View.{world_view};
ghost use Rattle.act_plan_plays.specs.Parts.{parts_of, IsBehind, Stands};
ghost use Rattle.act_plan_plays.specs.Play.{IsPart, HoldPlans, HasAnswers, IsThrough, AllThrough};

use crate::played::Played;
use act_kinds::Actor;
use act_plans::CallerSetup;
use act_types::CallerId;
use act_world::World;

/// Whether each call of the caller has an answer.
fn is_answered<K: Actor>(world: &World<K>, c: CallerId) -> bool
    ensures { (casts : List ActorSpec) (h : History) (before : List Happening) →
        IsBehind casts h (world_view K.state world.now) before → (IsTrue result ↔ HasAnswers c h) }
{
    match world.owner(c) {
        None => true,
        Some(owner) => owner.all_answered(),
    }
}

/// Whether the caller did its plan, and each of its calls has an answer.
fn is_through<K: Actor>(played: &Played<K>, setup: &CallerSetup) -> bool
    ensures { (casts : List ActorSpec) (plans : ℕ → List PlanStep) (at : At) →
        Stands casts plans at (parts_of K.state played.now) → IsPart casts plans setup.now →
        (IsTrue result ↔ IsThrough plans setup.now.caller at) }
{
    let done = played.done[setup.caller.number() as usize];
    if done < setup.plan.len() {
        return false;
    }
    is_answered(&played.world, setup.caller)
}

/// Whether each caller did its plan, and each call has an answer.
pub(crate) fn are_through<K: Actor>(played: &Played<K>, setups: &[CallerSetup]) -> bool
    ensures { (casts : List ActorSpec) (plans : ℕ → List PlanStep) (at : At) →
        Stands casts plans at (parts_of K.state played.now) → HoldPlans casts plans setups.now →
        (IsTrue result ↔ AllThrough plans at) }
{
    for setup in setups {
        if !is_through(played, setup) {
            return false;
        }
    }
    true
}
