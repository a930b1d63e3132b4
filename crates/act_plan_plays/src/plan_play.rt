//! A play of plans in a world, which is quiescent after each choice.
//!
//! `K` is the kind, mostly a box. Where a clause speaks of where a play stands, it names what is seen
//! of it by `play_view` at the kind's state.

ghost use Rattle.std.specs.Prelude.{◌≡◌, ◌↔◌, ℕ, List, [], map, None, is_some, true, IsTrue, IfOk, OnOk, Contains};
ghost use Rattle.act_rules.specs.declared.event.Event.TheVariants as happening;
ghost use Rattle.act_rules.specs.declared.script.Step.{Step};
ghost use Rattle.act_rules.specs.History.{ActorSpec, runs_of, next_item};
ghost use Rattle.act_rules.specs.Rules.{refusal_of};
ghost use Rattle.act_early.specs.Plays.{At};
ghost use Rattle.act_early.specs.Early.{IsQuiescent};
ghost use Rattle.act_actor.specs.Cast.{IsFitting};
ghost use Rattle.act_actor.specs.Casts.{actor_spec};
ghost use Rattle.act_plan_plays.specs.Parts.{parts_of, Stands};
ghost use Rattle.act_plan_plays.specs.Play.{play_view, HoldPlans, StandsAt, HasChosen, AllThrough};
ghost use Rattle.act_plan_plays.specs.Retired.{AllOver, IsRetiredFrom};
ghost use Rattle.act_world.specs.View.{world_view};
ghost use Rattle.act_plan_plays.specs.declared.choice.Choice.TheVariants as choose;

use crate::choice::{Choice, PlayFault};
use crate::choices::choices_of;
use crate::choosing::choose;
use crate::ending::are_through;
use crate::making::quiesce;
use crate::played::Played;
use crate::retiring::retire_all;
use act_actor::Cast;
use act_kinds::{Actor, Boxed};
use act_plans::CallerSetup;
use act_rules::Event;
use act_types::{CALLER_NUMBERS, NoMemory};
use act_world::World;
use std::alloc::Global;
use std::marker::Model;

/// A play of plans in a world.
#[derive(Drop)]
pub struct PlanPlay<'a, K = Boxed> {
    played: Played<K>,
    /// The parts of the callers.
    setups: &'a [CallerSetup],
}

impl<'a, K> Model for PlanPlay<'a, K> {
    ghost use Rattle.act_plan_plays.specs.View.{PlanPlayOf};
    ghost use Rattle.act_world.specs.declared.slot.Slot.{Slot};

    ghost Value = { PlanPlayOf (Slot K) };

    ghost view = { λ play. record {
      world = play.played.world;
      setups = play.setups.now;
      events = play.played.events.items;
      done = play.played.done;
      asked = play.played.asked.items;
    } };
}

/// A play of which nothing is done.
fn new_play<K: Actor>(alloc: Global, casts: Vec<Cast<K>>) -> Result<Played<K>, NoMemory>
    requires fit { IsFitting casts.items }
    ensures { IfOk result (λ played. (plans : ℕ → List Step) → (at : At)
        × Stands (map (actor_spec K.state) casts.items) plans at (parts_of K.state played)
        × ((a : ℕ) → runs_of a at.history ≡ []) × (at.history.killed ≡ [])) }
{
    let world = World::open(alloc, casts)?;
    Ok(Played {
        world,
        events: Vec::new(alloc),
        done: [0; CALLER_NUMBERS],
        asked: Vec::new(alloc),
    })
}

impl<'a, K: Actor> PlanPlay<'a, K> {
    /// A play in a world of these actors, of which all is done that needs no choice. The parts hold
    /// the plans of the callers, and outlive it.
    pub fn open(
        alloc: Global,
        casts: Vec<Cast<K>>,
        setups: &'a [CallerSetup],
    ) -> Result<PlanPlay<'a, K>, PlayFault>
        requires fit { IsFitting casts.items }
        ensures { IfOk result (λ play. (plans : ℕ → List Step) →
            HoldPlans (map (actor_spec K.state) casts.items) plans setups.now →
            (at : At) × StandsAt (map (actor_spec K.state) casts.items) plans at (play_view K.state play)
            × IsQuiescent plans at × ((a : ℕ) → runs_of a at.history ≡ []) × (at.history.killed ≡ [])) }
    {
        let mut played = new_play(alloc, casts)?;
        quiesce(&mut played, setups)?;
        Ok(PlanPlay { played, setups })
    }

    /// Each actor that runs retires. It is refused where one didn't run all its calls, as it did where
    /// the play is ended. No choice is left then.
    pub fn retire(&mut self) -> Result<(), PlayFault>
        ensures { OnOk result ((casts : List ActorSpec) (plans : ℕ → List Step) (at : At) →
            StandsAt casts plans at (play_view K.state self.old) → (end : At)
            × IsRetiredFrom casts plans at end (world_view K.state self.new.world) self.new.events
            × AllOver end.history) }
    {
        retire_all(&mut self.played.world, &mut self.played.events)?;
        Ok(())
    }

    /// Each choice that may be made.
    pub fn choices(&self, alloc: Global) -> Result<Vec<Choice>, NoMemory>
        ensures runs { IfOk result (λ choices. (casts : List ActorSpec) (plans : ℕ → List Step) (at : At) →
            StandsAt casts plans at (play_view K.state self.now) → (a c : ℕ) →
            refusal_of at.history (happening.Run a c) ≡ None → is_some (next_item a c at.history) ≡ true →
            Contains choices.items (choose.Run a c)) }
        ensures kills { IfOk result (λ choices. (casts : List ActorSpec) (plans : ℕ → List Step) (at : At) →
            StandsAt casts plans at (play_view K.state self.now) → (a : ℕ) →
            refusal_of at.history (happening.TakeKill a) ≡ None → Contains choices.items (choose.Take a)) }
    {
        let choices = choices_of(alloc, &self.played, self.setups)?;
        Ok(choices)
    }

    /// Makes a choice, and then does all that needs none.
    pub fn choose(&mut self, choice: Choice) -> Result<(), PlayFault>
        ensures { OnOk result ((casts : List ActorSpec) (plans : ℕ → List Step) (at : At) →
            StandsAt casts plans at (play_view K.state self.old) →
            (next : At) × StandsAt casts plans next (play_view K.state self.new) × IsQuiescent plans next
            × HasChosen choice at.history next.history) }
    {
        choose(&mut self.played, choice)?;
        quiesce(&mut self.played, self.setups)?;
        Ok(())
    }

    /// Whether each caller did its plan, and each call has an answer.
    pub fn is_ended(&self) -> bool
        ensures { (casts : List ActorSpec) (plans : ℕ → List Step) (at : At) →
            StandsAt casts plans at (play_view K.state self.now) → (IsTrue result ↔ AllThrough plans at) }
    {
        are_through(&self.played, self.setups)
    }

    /// The world that it stands in.
    pub fn world(&self) -> &World<K>
        ensures { result.now ≡ self.now.world }
    {
        &self.played.world
    }

    /// The events that the world stands after.
    pub fn events(&self) -> &[Event]
        ensures { result.now ≡ self.now.events }
    {
        self.played.events.as_slice()
    }

    /// The world alone.
    pub fn into_world(self) -> World<K>
        ensures { result ≡ self.entry.world }
    {
        let PlanPlay { played, .. } = self;
        let Played { world, .. } = played;
        world
    }

    /// The world and the events that it stands after.
    pub fn into_parts(self) -> (World<K>, Vec<Event>)
        ensures world { result.0 ≡ self.entry.world }
        ensures events { result.1.items ≡ self.entry.events }
    {
        let PlanPlay { played, .. } = self;
        let Played { world, events, .. } = played;
        (world, events)
    }

    /// The events alone.
    pub fn into_events(self) -> Vec<Event>
        ensures { result.items ≡ self.entry.events }
    {
        let PlanPlay { played, .. } = self;
        let Played { events, .. } = played;
        events
    }
}
