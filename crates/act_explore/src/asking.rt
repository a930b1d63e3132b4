//! A question to each end of plans.

ghost use Rattle.std.specs.Prelude.{◌≡◌, ℕ, false, List, Ok, None, Some, map, IsTrue, IsSome, IfOk, IfErr, IfSome};
ghost use Rattle.act_rules.specs.declared.event.Event.{Event as Happening};
ghost use Rattle.act_rules.specs.declared.script.Step.{Step};
ghost use Rattle.act_rules.specs.History.{ActorSpec, History};
ghost use Rattle.act_rules.specs.Laws.{history};
ghost use Rattle.act_plans.specs.Runs.{plan_of, first_bad_plan};
ghost use Rattle.act_world.specs.View.{world_view};
ghost use Rattle.act_world.specs.IsReachedBy.{IsReachedBy};
ghost use Rattle.act_executor.specs.Runs.{plan_view};
ghost use Rattle.act_explore.specs.declared.asking.Asking.{Asking as Asked};
ghost use Rattle.act_explore.specs.declared.search.Visited.TheVariants.{GoOn, Stop};
ghost use Rattle.act_explore.specs.Plans.{AreSuited};
ghost use Rattle.act_explore.specs.Ends.{LeadsToEnd, EachEndHas, EachRunHas};
ghost use Rattle.act_explore.specs.Faults.{IsFault};

use crate::fault::ExploreFault;
use crate::opening::{End, Opening, Plays};
use crate::search::{Searched, Visit, Visited};
use crate::visits::visit_ends;
use act_kinds::Actor;
use act_plans::Plan;
use act_rules::Event;
use act_types::{CallerId, NoMemory};
use act_world::World;
use std::alloc::Global;

/// A question to each end of plans.
pub trait Check<K: Actor> {
    /// What holds of the history of an end where the answer is yes.
    ghost holds: { Self → History → Type 0 };

    /// What holds of it where the answer is no.
    ghost breaks: { Self → History → Type 0 } = { λ _ _. Unit {0} };

    /// Answers for an end, in whose world each plan is done.
    fn check(&self, world: &World<K>) -> Result<bool, NoMemory>
        ensures yes { IfOk result (λ yes. IsTrue yes → (casts : List ActorSpec) (events : List Happening) →
            IsReachedBy casts events (world_view K.state world.now) → holds self.now (history casts events)) }
        ensures no { IfOk result (λ yes. yes ≡ false → (casts : List ActorSpec) (events : List Happening) →
            IsReachedBy casts events (world_view K.state world.now) → breaks self.now (history casts events)) };
}

/// Asks at each end, and stops where the answer is no.
#[derive(Drop)]
struct Asking<'a, C> {
    check: &'a C,
    /// The events that lead to the end where it was no.
    found: Option<Vec<Event>>,
}

impl<'a, K: Actor, C: Check<K>> Visit<K> for Asking<'a, C> {
    ghost use Rattle.std.specs.Prelude.{◌≡◌, None, IsSome, IfSome};
    ghost use Rattle.act_rules.specs.Laws.{history};
    ghost use Rattle.act_explore.specs.Ends.{LeadsToEnd};

    ghost passed = { λ asking casts events. C.holds asking.check.now (history casts events) };

    ghost keeps = { λ first asking casts plans. (asking.check.now ≡ first.check.now) × IfSome asking.found (λ found.
        LeadsToEnd casts plans found.items × C.breaks first.check.now (history casts found.items)) };

    ghost has_stopped = { λ asking. IsSome asking.found };

    fn visit(&mut self, end: End<K>) -> Result<Visited, NoMemory>
        ensures passed { result ≡ Ok GoOn → (casts : List ActorSpec) →
            IsReachedBy casts end.events.items (world_view K.state end.world) →
            C.holds self.new.check.now (history casts end.events.items) }
        ensures earlier { IfOk result (λ _. (casts : List ActorSpec) (events : List Happening) →
            C.holds self.old.check.now (history casts events) → C.holds self.new.check.now (history casts events)) }
        ensures keeps { IfOk result (λ _. (first : Asked C) (casts : List ActorSpec) (plans : ℕ → List Step) →
            LeadsToEnd casts plans end.events.items →
            IsReachedBy casts end.events.items (world_view K.state end.world) →
            (self.old.check.now ≡ first.check.now) × IfSome self.old.found (λ found.
            LeadsToEnd casts plans found.items × C.breaks first.check.now (history casts found.items)) →
            (self.new.check.now ≡ first.check.now) × IfSome self.new.found (λ found.
            LeadsToEnd casts plans found.items × C.breaks first.check.now (history casts found.items))) }
        ensures stopped { result ≡ Ok Stop → IsSome self.new.found }
    {
        let yes = self.check.check(&end.world)?;
        let End { world, events } = end;
        drop(world);
        if yes {
            drop(events);
            Ok(Visited::GoOn)
        } else {
            self.found = Some(events);
            Ok(Visited::Stop)
        }
    }
}

/// Whether the check says yes to every end of the plans: `None`, or the events that lead to an end
/// where it says no. Where it is `None`, what holds there holds of whatever a run in threads leaves.
pub fn always<K: Actor, O: Opening<K>, C: Check<K>>(
    alloc: Global,
    plays: Plays<'_, K>,
    opening: &O,
    plans: Vec<(CallerId, Plan)>,
    most: usize,
    check: &C,
) -> Result<Option<Vec<Event>>, ExploreFault>
    ensures runs { result ≡ Ok None →
        EachRunHas (O.casts opening.now) (map plan_view plans.items) (C.holds check.now) }
    ensures ends { result ≡ Ok None →
        EachEndHas (O.casts opening.now) (map plan_view plans.items) (C.holds check.now) }
    ensures found { IfOk result (λ found. IfSome found (λ events.
        LeadsToEnd (O.casts opening.now) (λ c. plan_of c (map plan_view plans.items)) events.items)) }
    ensures breaks { IfOk result (λ found. IfSome found (λ events.
        C.breaks check.now (history (O.casts opening.now) events.items))) }
    ensures suited { IfOk result (λ _. AreSuited (O.casts opening.now) plans.items) }
    ensures good { IfOk result (λ _. first_bad_plan (O.casts opening.now) (map plan_view plans.items) ≡ None) }
    ensures fault { IfErr result (IsFault (O.casts opening.now) plans.items) }
{
    let mut asking = Asking { check, found: None };
    match visit_ends(alloc, plays, opening, plans, most, &mut asking)? {
        Searched::Whole => Ok(None),
        Searched::Stopped => Ok(asking.found),
        Searched::Cut => Err(ExploreFault::Cut),
    }
}
