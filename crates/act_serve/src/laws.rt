//! What the words of the contract of `serve` come to.

ghost use Rattle.act_serve.specs.Served.{RepliesAreDue};

/// What is due to a caller is a reply for each place of its items, in order, with the answer there.
#[tactic(none)]
pub fn replies_are_due()
    ensures { RepliesAreDue }
{}
