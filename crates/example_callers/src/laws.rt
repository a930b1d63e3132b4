//! What an account holds after any calls.

ghost use Rattle.std.specs.Prelude.{ℕ, List};
ghost use Rattle.actors.specs.RunItem.{RunItem};
ghost use Rattle.example_callers.specs.Accounts.{HoldsWhatWasPutIn};

/// After every run list of an account: what it holds, and what granted withdrawals took, is what it opened with, and
/// what granted deposits put in.
#[tactic(none)]
pub fn holds_what_was_put_in()
    ensures { (n : ℕ) (items : List RunItem) → HoldsWhatWasPutIn n items }
{}
