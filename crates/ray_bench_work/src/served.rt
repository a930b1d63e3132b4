//! What is looked at after a run.

ghost use Rattle.std.specs.Prelude.{◌≡◌, ◌==◌, ◌&&◌, length, is_some};
ghost use Rattle.std.specs.List.{list_all};

use act_owner::Owner;

/// Whether a caller made so many calls, and each was answered.
pub fn is_served(owner: &Owner, calls: u32) -> bool
    ensures { result ≡ (length owner.now.calls == calls) && list_all is_some owner.now.kept }
{
    owner.count() == calls && owner.all_answered()
}

/// Whether each caller made so many calls, and each was answered.
pub fn are_served(owners: &[Owner], calls: u32) -> bool
    ensures { result ≡ list_all (λ owner. (length owner.calls == calls) && list_all is_some owner.kept) owners.now }
{
    owners.iter().all(|owner| is_served(owner, calls))
}
