//! The laws of a caller's whole life, over the definitions alone.

ghost use Rattle.act_owner.specs.Life.{KnownCallsStayKnown, OnePacketForGood, SentStaysSent, AllIsHeard, NeverAboveTheLimit};

/// Once a call may be sent, its packet is the same for good.
#[tactic(none)]
pub fn one_packet_for_good()
    ensures known { KnownCallsStayKnown }
    ensures packet { OnePacketForGood }
{}

/// A call that was sent stays so, and a caller keeps and knows only what it collected.
#[tactic(none)]
pub fn told_by_notices()
    ensures sent { SentStaysSent }
    ensures heard { AllIsHeard }
{}

/// Never are more calls of an actor without an answer than its limit says.
#[tactic(none)]
pub fn never_above_the_limit()
    ensures { NeverAboveTheLimit }
{}
