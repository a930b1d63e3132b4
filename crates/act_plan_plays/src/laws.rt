//! The law that joins what is prepared of a run to its plans.

ghost use Rattle.act_plan_plays.specs.Prepared.{PreparedPlansHold};

/// The parts that are prepared hold the plans that they were prepared from, with the casts as they
/// were given.
#[tactic(none)]
pub fn prepared_plans_hold<K>()
    ensures { PreparedPlansHold K }
{}
