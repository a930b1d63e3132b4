//! The laws of walks: plays that do only what is told.

ghost use Rattle.act_told_ends.specs.Walks.{KillsCanBeAsked, NoWalkIsStuck};

/// Where some play ends as is told, a walk is through, or may go on.
#[tactic(none)]
pub fn no_walk_is_stuck()
    ensures { NoWalkIsStuck }
{}

ghost use Rattle.act_told_ends.specs.Retiring.{EachRetires, ToldAlike};

/// And once it is through, those can retire that are told retired.
#[tactic(none)]
pub fn each_retires()
    ensures { EachRetires }
{}

/// Two ends that are as is told have one summary.
#[tactic(none)]
pub fn told_alike()
    ensures { ToldAlike }
{}

ghost use Rattle.act_told_ends.specs.Walked.{EachWalkIsOne, StuckRefutesAll, WalksGoOn};

/// Whoever does only what may be done next, and sends and delivers letters, makes a walk, and so is
/// never stuck: where one is stuck before it is through, no events end as is told.
#[tactic(none)]
pub fn each_walk_goes_on()
    ensures is { EachWalkIsOne }
    ensures goes { WalksGoOn }
    ensures stuck { StuckRefutesAll }
{}

ghost use Rattle.act_told_ends.specs.Told.{EachEndIsTold};

/// What any accepted events leave is told of them.
#[tactic(none)]
pub fn each_end_is_told()
    ensures { EachEndIsTold }
{}

ghost use Rattle.act_told_ends.specs.Untold.{StuckRefutesAllAsRun, UntoldMayBeAsRun};

/// Where the arguments of calls aren't told, those with which they ran may stand for them.
#[tactic(none)]
pub fn untold_may_be_as_run()
    ensures ends { UntoldMayBeAsRun }
    ensures stuck { StuckRefutesAllAsRun }
{}

ghost use Rattle.act_told_ends.specs.Resting.{RestsAtTheEnd, StuckAtRestRefutesAll};

/// Once a walk is through it comes to the end that is told, or no events end so.
#[tactic(none)]
pub fn each_walk_rests()
    ensures ends { RestsAtTheEnd }
    ensures stuck { StuckAtRestRefutesAll }
{}

ghost use Rattle.act_told_ends.specs.Deciding.{StuckEndsAsTold, StuckIsThrough};

/// So a walk that can't go on decides: it ends as is told, if any events do. Nobody has to compare what
/// it left with what is told before it goes on to rest.
#[tactic(none)]
pub fn stuck_walks_decide()
    ensures through { StuckIsThrough }
    ensures ends { StuckEndsAsTold }
{}

/// No kill has to be done without by a caller of whose plan no step is refused.
#[tactic(none)]
pub fn kills_can_be_asked()
    ensures { KillsCanBeAsked }
{}

ghost use Rattle.act_told_ends.specs.LeftOpen.{DeathsMayBeReplies};

/// Where a death is told of a call that ran, its reply may stand for it.
#[tactic(none)]
pub fn deaths_may_be_replies()
    ensures { DeathsMayBeReplies }
{}
