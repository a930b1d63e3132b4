//! What the words of the contract of `drive` come to.

ghost use Rattle.act_drive.specs.Driven.{LettersStandAtTheirEndpoints};

/// Where no two endpoints are at lines of the same actor, a letter that was posted stands at the endpoint
/// of its actor.
#[tactic(none)]
pub fn letters_stand_at_their_endpoints()
    ensures { LettersStandAtTheirEndpoints }
{}
