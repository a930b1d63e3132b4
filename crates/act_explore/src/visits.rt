//! Visits to each end of plans.

ghost use Rattle.std.specs.Prelude.{◌≡◌, Ok, None, map, IfOk, IfErr};
ghost use Rattle.act_plans.specs.Runs.{plan_of, first_bad_plan};
ghost use Rattle.act_executor.specs.Runs.{plan_view};
ghost use Rattle.act_explore.specs.Plans.{AreSuited};
ghost use Rattle.act_explore.specs.Ends.{HasPassed, EachEndHas, EachRunHas};
ghost use Rattle.act_explore.specs.Faults.{IsFault};
ghost use Rattle.act_explore.specs.declared.search.Searched.TheVariants.{Whole, Stopped};

use crate::fault::ExploreFault;
use crate::opening::{Opening, Plays};
use crate::search::{Searched, Visit, search_all};
use crate::setups::setups_of;
use act_kinds::Actor;
use act_plans::Plan;
use act_types::CallerId;
use std::alloc::Global;

/// Lends the visit each end of the plans, until there is none left, the visit stops, or so many states
/// were looked at. Where the search was whole, each end of a play that loses no reply was lent, and so
/// was one for whatever a run in threads leaves.
pub fn visit_ends<K: Actor, O: Opening<K>, V: Visit<K>>(
    alloc: Global,
    plays: Plays<'_, K>,
    opening: &O,
    plans: Vec<(CallerId, Plan)>,
    most: usize,
    visit: &mut V,
) -> Result<Searched, ExploreFault>
    ensures ends { result ≡ Ok Whole → EachEndHas (O.casts opening.now) (map plan_view plans.items)
        (HasPassed (O.casts opening.now) (V.passed visit.new (O.casts opening.now))) }
    ensures runs { result ≡ Ok Whole → EachRunHas (O.casts opening.now) (map plan_view plans.items)
        (HasPassed (O.casts opening.now) (V.passed visit.new (O.casts opening.now))) }
    ensures keeps { IfOk result (λ _. (first : V) →
        V.keeps first visit.old (O.casts opening.now) (λ c. plan_of c (map plan_view plans.items)) →
        V.keeps first visit.new (O.casts opening.now) (λ c. plan_of c (map plan_view plans.items))) }
    ensures stopped { result ≡ Ok Stopped → V.has_stopped visit.new }
    ensures suited { IfOk result (λ _. AreSuited (O.casts opening.now) plans.items) }
    ensures good { IfOk result (λ _. first_bad_plan (O.casts opening.now) (map plan_view plans.items) ≡ None) }
    ensures fault { IfErr result (IsFault (O.casts opening.now) plans.items) }
{
    let setups = setups_of(alloc, opening, plans)?;
    let searched = search_all(alloc, plays, opening, setups.as_slice(), most, visit)?;
    Ok(searched)
}
