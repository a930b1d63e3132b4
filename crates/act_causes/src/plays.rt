//! What the rules say of a list of all that threads did.

ghost use Rattle.act_causes.specs.Plays.{CausedDeedsArePlays};

/// Whatever threads did, where each deed is caused by those before it: some play does the same.
#[tactic(none)]
pub fn caused_deeds_are_plays()
    ensures { CausedDeedsArePlays }
{}
