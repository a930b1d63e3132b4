//! Runs in threads whose answers, or whose awaits, stand in a circle.

ghost use Rattle.act_executor.specs.Joined.{IsJoined};
ghost use Rattle.act_replay.specs.Circle.{IsUnplayed, IsNoPlay, circle_casts, circle_plans, circle_owners, circle_ends};
ghost use Rattle.act_replay.specs.AwaitCircle.{IsUnplanned, await_plans, await_owners, await_ends};

/// What the threads of a run leave fits together here, and yet no list of events leaves it: that all
/// fits doesn't make a run a play, which `run_plans` promises beside it (`played`). Each of two lists
/// ran a call with an answer that the other gave later.
#[tactic(none)]
pub fn a_circle_is_joined_and_no_play()
    ensures joined { IsJoined circle_casts circle_plans circle_owners circle_ends }
    ensures unplayed { IsUnplayed circle_casts circle_owners circle_ends }
    ensures no_play { IsNoPlay circle_casts circle_owners circle_ends }
{}

/// What callers and actors have here, no play of the plans leaves, so no run in threads leaves it
/// (`planned` of `run_plans`). Each of two callers awaits an answer before it submits the call that the
/// other's answer comes after.
#[tactic(none)]
pub fn a_circle_of_awaits_is_not_as_planned()
    ensures { IsUnplanned circle_casts await_plans await_owners await_ends }
{}
