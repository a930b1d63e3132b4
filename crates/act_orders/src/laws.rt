//! That no history is refused wrongly.

ghost use Rattle.act_orders.specs.Faults.{FaultsHold};

/// A history of which a fault tells isn't in order: no order of what happened keeps its causes.
#[tactic(none)]
pub fn faults_hold()
    ensures { FaultsHold }
{}
