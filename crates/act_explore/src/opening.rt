//! What opens the actors of plans.

ghost use Rattle.std.specs.Prelude.{◌≡◌, List, map, IfOk};
ghost use Rattle.act_rules.specs.History.{ActorSpec};
ghost use Rattle.act_actor.specs.Cast.{IsFitting};
ghost use Rattle.act_actor.specs.Casts.{actor_spec};

use act_actor::Cast;
use act_kinds::Actor;
use act_plan_plays::PlanPlay;
use act_rules::Event;
use act_types::NoMemory;
use act_world::World;
use std::alloc::Global;
use std::marker::PhantomData;

/// Names the kind of the actors that are searched, so that its plays have a size. It is passed as
/// `PhantomData`.
pub type Plays<'a, K> = PhantomData<(PlanPlay<'a, K>, End<K>, (World<K>, Vec<Event>))>;

/// An end of plans: each plan is done, and each call has an answer. Actors that nobody killed are
/// alive in the world, and can retire.
#[derive(Drop)]
pub struct End<K> {
    pub world: World<K>,
    /// The events that lead there.
    pub events: Vec<Event>,
}

/// Opens the actors of a run, alike each time: a search opens them again for each state that it looks
/// at.
pub trait Opening<K: Actor> {
    /// The casts, each with the state that its kind opens in.
    ghost casts: { Self → List ActorSpec };

    /// The casts, which can be opened.
    fn open(&self, alloc: Global) -> Result<Vec<Cast<K>>, NoMemory>
        ensures fit { IfOk result (λ opened. IsFitting opened.items) }
        ensures casts { IfOk result (λ opened. map (actor_spec K.state) opened.items ≡ casts self.now) };
}
