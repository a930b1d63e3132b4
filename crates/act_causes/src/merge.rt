//! What all threads did, in one order.

ghost use Rattle.act_causes.specs.Merge.{MergesKeepCauses};

/// The steps of any threads, whose stamps never fall, stand in one order: each thread's is kept, and
/// before a step stands each one that has a lower stamp.
#[tactic(none)]
pub fn merges_keep_causes()
    ensures { MergesKeepCauses }
{}
