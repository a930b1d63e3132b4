//! The laws of every run, over the definitions alone.

ghost use Rattle.act_rules.specs.Laws.{NothingRunsAfterTheEnd, KeptAnswersStay, RetiredRanAll, EachWorldIsConsistent, NothingFollowsATerminate};

use act_rules::{
    each_world_is_consistent, kept_answers_stay, nothing_follows_a_terminate,
    nothing_runs_after_the_end, retired_ran_all,
};

/// Nothing runs at an actor that is dead or retired.
pub fn l1()
    ensures { NothingRunsAfterTheEnd }
{
    nothing_runs_after_the_end()
}

/// An answer that is kept stays.
pub fn l2()
    ensures { KeptAnswersStay }
{
    kept_answers_stay()
}

/// A retired actor ran every call of every caller to it, in order.
pub fn l3()
    ensures { RetiredRanAll }
{
    retired_ran_all()
}

/// Opening states, submissions, run lists, kept answers and dead actors fit one another.
pub fn l4()
    ensures { EachWorldIsConsistent }
{
    each_world_is_consistent()
}

/// No call follows a `terminate` that ended its actor.
pub fn l5()
    ensures { NothingFollowsATerminate }
{
    nothing_follows_a_terminate()
}
