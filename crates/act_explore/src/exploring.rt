//! Each end of plans.

ghost use Rattle.std.specs.Prelude.{◌≡◌, ℕ, true, List, Ok, None, map, All, IsTrue, IfOk, IfErr};
ghost use Rattle.act_rules.specs.declared.event.Event.{Event as Happening};
ghost use Rattle.act_rules.specs.declared.script.Step.{Step};
ghost use Rattle.act_rules.specs.History.{ActorSpec};
ghost use Rattle.act_plans.specs.Runs.{plan_of, first_bad_plan};
ghost use Rattle.act_world.specs.View.{world_view};
ghost use Rattle.act_world.specs.IsReachedBy.{IsReachedBy};
ghost use Rattle.act_executor.specs.Runs.{plan_view};
ghost use Rattle.act_explore.specs.Plans.{AreSuited};
ghost use Rattle.act_explore.specs.Ends.{LeadsToEnd, EachEndHas, EachRunHas};
ghost use Rattle.act_explore.specs.Found.{IsFoundBy, IsFound};
ghost use Rattle.act_explore.specs.Faults.{IsFault};
ghost use Rattle.act_explore.specs.declared.exploring.Collecting.{Collecting as Collected};
ghost use Rattle.act_explore.specs.declared.search.Visited.TheVariants.{GoOn, Stop};

use crate::fault::ExploreFault;
use crate::opening::{End, Opening, Plays};
use crate::search::{Searched, Visit, Visited};
use crate::visits::visit_ends;
use act_kinds::Actor;
use act_plans::Plan;
use act_rules::Event;
use act_types::{CallerId, NoMemory};
use std::alloc::Global;

/// An end of plans.
#[derive(Debug, Drop)]
pub struct Found {
    /// The events that lead there.
    pub events: Vec<Event>,
}

/// The ends of plans that were found, and whether these are all.
#[derive(Debug, Drop)]
pub struct Ends {
    pub found: Vec<Found>,
    pub whole: bool,
}

/// Keeps each end.
#[derive(Drop)]
struct Collecting {
    found: Vec<Found>,
}

impl<K: Actor> Visit<K> for Collecting {
    ghost use Rattle.std.specs.Prelude.{◌≡◌, All};
    ghost use Rattle.act_explore.specs.Ends.{LeadsToEnd};
    ghost use Rattle.act_explore.specs.Found.{IsFoundBy};

    ghost passed = { λ collecting casts events. IsFoundBy collecting.found.items events };

    ghost keeps = { λ first collecting casts plans. All (λ found. LeadsToEnd casts plans found.events.items)
        collecting.found.items };

    ghost has_stopped = { λ collecting. ⊥ };

    fn visit(&mut self, end: End<K>) -> Result<Visited, NoMemory>
        ensures passed { result ≡ Ok GoOn → (casts : List ActorSpec) →
            IsReachedBy casts end.events.items (world_view K.state end.world) →
            IsFoundBy self.new.found.items end.events.items }
        ensures earlier { IfOk result (λ _. (casts : List ActorSpec) (events : List Happening) →
            IsFoundBy self.old.found.items events → IsFoundBy self.new.found.items events) }
        ensures keeps { IfOk result (λ _. (first : Collected) (casts : List ActorSpec) (plans : ℕ → List Step) →
            LeadsToEnd casts plans end.events.items →
            IsReachedBy casts end.events.items (world_view K.state end.world) →
            All (λ found. LeadsToEnd casts plans found.events.items) self.old.found.items →
            All (λ found. LeadsToEnd casts plans found.events.items) self.new.found.items) }
        ensures stopped { result ≡ Ok Stop → ⊥ }
    {
        let End { world, events } = end;
        drop(world);
        self.found.push(Found { events })?;
        Ok(Visited::GoOn)
    }
}

/// Each end of the plans, with events that lead there. An end is found for each different list of
/// choices, so two of them may leave the same.
pub fn explore<K: Actor, O: Opening<K>>(
    alloc: Global,
    plays: Plays<'_, K>,
    opening: &O,
    plans: Vec<(CallerId, Plan)>,
    most: usize,
) -> Result<Ends, ExploreFault>
    ensures sound { IfOk result (λ ends.
        All (λ found. LeadsToEnd (O.casts opening.now) (λ c. plan_of c (map plan_view plans.items)) found.events.items)
        ends.found.items) }
    ensures complete { IfOk result (λ ends. IsTrue ends.whole →
        EachEndHas (O.casts opening.now) (map plan_view plans.items) (IsFound (O.casts opening.now) ends.found.items)) }
    ensures threads { IfOk result (λ ends. IsTrue ends.whole →
        EachRunHas (O.casts opening.now) (map plan_view plans.items) (IsFound (O.casts opening.now) ends.found.items)) }
    ensures suited { IfOk result (λ _. AreSuited (O.casts opening.now) plans.items) }
    ensures good { IfOk result (λ _. first_bad_plan (O.casts opening.now) (map plan_view plans.items) ≡ None) }
    ensures fault { IfErr result (IsFault (O.casts opening.now) plans.items) }
{
    let mut collecting = Collecting {
        found: Vec::new(alloc),
    };
    match visit_ends(alloc, plays, opening, plans, most, &mut collecting)? {
        Searched::Whole => Ok(Ends {
            found: collecting.found,
            whole: true,
        }),
        _ => Ok(Ends {
            found: collecting.found,
            whole: false,
        }),
    }
}
