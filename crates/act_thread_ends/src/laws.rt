//! The laws that join runs in threads to the search of early plays.

ghost use Rattle.act_thread_ends.specs.ThreadEnds.{EachThreadEndIsSeen, WhatFitsIsOfARun};

/// Whatever callers and actors a run in threads leaves, a search that looks at each choice of its plans
/// saw a play that ends so.
#[tactic(none)]
pub fn thread_ends_are_seen()
    ensures { EachThreadEndIsSeen }
{}

/// What the law asks of casts and plans, those have that fit as `run_plans` asks, where all numbers are
/// those that ids have.
#[tactic(none)]
pub fn what_fits_is_of_a_run<K>()
    ensures { WhatFitsIsOfARun K }
{}
