//! What a choice makes.

ghost use Rattle.std.specs.Prelude.{ℕ, List, OnOk, true};
ghost use Rattle.act_rules.specs.declared.script.Step.{Step as PlanStep};
ghost use Rattle.act_rules.specs.History.{ActorSpec};
ghost use Rattle.act_early.specs.Plays.{At};
ghost use Rattle.act_early.specs.Early.{HasRunMore, HasTakenMore};
ghost use Rattle.act_plan_plays.specs.Parts.{parts_of, Stands};
ghost use Rattle.act_plan_plays.specs.Play.{HasChosen};

use crate::choice::{Choice, PlayFault};
use crate::played::{Played, do_event};
use act_kinds::Actor;
use act_rules::{Did, Event};
use act_types::{ActorId, CallerId};

/// The actor runs the caller's next call, whose reply is collected.
fn run<K: Actor>(played: &mut Played<K>, a: ActorId, c: CallerId) -> Result<(), PlayFault>
    ensures { OnOk result ((casts : List ActorSpec) (plans : ℕ → List PlanStep) (at : At) →
        Stands casts plans at (parts_of K.state played.old) →
        (next : At) × Stands casts plans next (parts_of K.state played.new)
        × HasRunMore a c true at.history next.history) }
{
    let told = do_event(&mut played.world, &mut played.events, Event::Run(a, c))?;
    let Did::Ran(_, j) = told else {
        return Err(PlayFault::Stuck);
    };
    do_event(&mut played.world, &mut played.events, Event::Collect(j))?;
    Ok(())
}

/// The actor takes a kill.
fn take_kill<K: Actor>(played: &mut Played<K>, a: ActorId) -> Result<(), PlayFault>
    ensures { OnOk result ((casts : List ActorSpec) (plans : ℕ → List PlanStep) (at : At) →
        Stands casts plans at (parts_of K.state played.old) →
        (next : At) × Stands casts plans next (parts_of K.state played.new)
        × HasTakenMore a at.history next.history) }
{
    do_event(&mut played.world, &mut played.events, Event::TakeKill(a))?;
    Ok(())
}

/// The choice is made, and nothing else.
pub(crate) fn choose<K: Actor>(played: &mut Played<K>, choice: Choice) -> Result<(), PlayFault>
    ensures { OnOk result ((casts : List ActorSpec) (plans : ℕ → List PlanStep) (at : At) →
        Stands casts plans at (parts_of K.state played.old) →
        (next : At) × Stands casts plans next (parts_of K.state played.new)
        × HasChosen choice at.history next.history) }
{
    match choice {
        Choice::Run(a, c) => run(played, a, c),
        Choice::Take(a) => take_kill(played, a),
    }
}
