//! The laws of early plays.

ghost use Rattle.act_early.specs.Plays.{PlaysAreAccepted};

/// A play of plans is a list of events that the rules accept.
#[tactic(none)]
pub fn plays_are_accepted()
    ensures { PlaysAreAccepted }
{}

ghost use Rattle.act_early.specs.Early.{EarlyIsEnough};

/// A search that looks at each choice, and does all else as early as it can, misses no end.
#[tactic(none)]
pub fn early_is_enough()
    ensures { EarlyIsEnough }
{}

ghost use Rattle.act_early.specs.Fronts.{ChoicesTellAll, SameChoicesEndAlike, NoFrontIsStuck};

/// Quiescent plays with the same choices are alike, and end as each play does that made these choices.
#[tactic(none)]
pub fn choices_tell_all()
    ensures state { ChoicesTellAll }
    ensures end { SameChoicesEndAlike }
{}

/// Whoever follows the choices of a play, at any actor first, and does all else early, is never stuck.
#[tactic(none)]
pub fn no_front_is_stuck()
    ensures { NoFrontIsStuck }
{}

ghost use Rattle.act_early.specs.Quiescence.{QuiescenceCanBeReached, EarlyPlaysHaveAllEnds, ActorsCanRetire};

/// Each play can be made quiescent, and for each ended play one made of choices alone ends alike: its
/// actors can retire, and it is the same end.
#[tactic(none)]
pub fn early_plays_have_all_ends()
    ensures quiescence { QuiescenceCanBeReached }
    ensures ends { EarlyPlaysHaveAllEnds }
    ensures retiring { ActorsCanRetire }
{}

ghost use Rattle.act_early.specs.Lists.{ListsArePlays, EachListIsFound, EachListIsMadeEarly};

/// A list of events that the rules accept, in which each caller does its plan, is a play of the plans:
/// a search finds its end, and an early play comes to it.
#[tactic(none)]
pub fn lists_are_plays()
    ensures plays { ListsArePlays }
    ensures found { EachListIsFound }
    ensures early { EachListIsMadeEarly }
{}

ghost use Rattle.act_early.specs.Told.{SameEndsAreToldAlike, EndsAreToldAlike};

/// The same end is told alike, and plays that end alike are, once the actors of both retired.
#[tactic(none)]
pub fn ends_are_told_alike()
    ensures same { SameEndsAreToldAlike }
    ensures alike { EndsAreToldAlike }
{}
