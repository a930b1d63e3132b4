//! What holds of the history of each joined run.

ghost use Rattle.act_told.specs.InOrder.{JoinedRunsAreInTurn, JoinedRunsEndRight};

/// In the history of a joined run each call that an actor ran is its caller's next one to it. It went to
/// this actor, it hadn't run, and each earlier one had.
#[tactic(none)]
pub fn joined_runs_are_in_turn()
    ensures { JoinedRunsAreInTurn }
{}

/// In the history of a joined run a death answers only a call to a dead actor, and an actor that retired
/// ran all calls to it.
#[tactic(none)]
pub fn joined_runs_end_right()
    ensures { JoinedRunsEndRight }
{}
