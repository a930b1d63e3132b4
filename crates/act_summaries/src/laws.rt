//! What the same lines tell of two histories, what lines tell that agree with calls and ends, and what
//! those tell that leave nothing open.

ghost use Rattle.act_summaries.specs.Lines.{AreToldAsTheyStand};
ghost use Rattle.act_summaries.specs.Stems.{AgreedLinesFit};
ghost use Rattle.act_summaries.specs.Summaries.{AreReadOneWay, AreToldAlike};

/// Two histories of the same roles that the same lines tell end alike.
#[tactic(none)]
pub fn lines_are_read_one_way()
    ensures { AreReadOneWay }
{}

/// Where two histories end alike, lines that tell one of them tell the other.
#[tactic(none)]
pub fn alike_ends_are_told_alike()
    ensures { AreToldAlike }
{}

/// Calls and ends with which lines agree, one by one, fit each history that the lines tell.
#[tactic(none)]
pub fn agreed_lines_fit()
    ensures { AgreedLinesFit }
{}

/// Where no line leaves an answer or a state open, the lines are told as they stand.
#[tactic(none)]
pub fn lines_are_told_as_they_stand()
    ensures { AreToldAsTheyStand }
{}
