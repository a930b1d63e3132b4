//! What the lines of a history tell of two plays of it, and what a walk decides that follows what was
//! read of them.

ghost use Rattle.act_decisions.specs.OneWay.{PlaysAreReadOneWay};
ghost use Rattle.act_decisions.specs.Read.{WalksDecide, NoRunIsMisplaced};

/// Two plays of one history end alike.
#[tactic(none)]
pub fn plays_are_read_one_way()
    ensures { PlaysAreReadOneWay }
{}

/// Where some events end as a history tells, so does a walk after what was read of it. So where it
/// doesn't, none do. `act_walks` makes such walks. What was read has to fit the roles, the steps and the
/// lines, and no answer may have to be guessed.
#[tactic(none)]
pub fn walks_decide()
    ensures walk { WalksDecide }
    ensures runs { NoRunIsMisplaced }
{}
