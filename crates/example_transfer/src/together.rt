//! Whether two purses hold the same sum together as before.

ghost use Rattle.std.specs.Prelude.{◌≡◌, ◌↔◌, ◌+◌, List, IfOk, IsTrue, option_copied};
ghost use Rattle.actors.specs.Event.{Event as Happening};
ghost use Rattle.actors.specs.Rules.{ActorSpec, history};
ghost use Rattle.actors.specs.Worlds.{IsReachedBy, world_view};
ghost use Rattle.example_transfer.specs.Purse.{purse_at};
ghost use Rattle.example_transfer.specs.Money.{HoldOtherwise, HoldTogether, IsPurseIn};

use crate::purse::Purse;
use actors::{ActorId, Check, NoMemory, Stage, World};

/// Two actors, and what their purses are to hold together.
#[derive(Clone, Copy, Debug)]
pub struct Together {
    pub one: ActorId,
    pub other: ActorId,
    pub sum: u64,
}

/// The purse that an actor is, where it isn't dead.
pub fn purse_in(world: &World<Purse>, a: ActorId) -> Option<&Purse>
    ensures { (casts : List ActorSpec) (events : List Happening) →
        IsReachedBy casts events (world_view purse_at world.now) →
        IsPurseIn (history casts events) a (option_copied result) }
{
    match world.stage(a)? {
        Stage::Live(live) => Some(live.kind()),
        Stage::Retired(retired) => Some(retired.kind()),
        Stage::Dead(_) => None,
    }
}

/// Whether two purses hold this sum.
fn add_to(one: &Purse, other: &Purse, sum: u64) -> bool
    ensures { IsTrue result ↔ (one.now.held + other.now.held ≡ sum) }
{
    one.held.checked_add(other.held) == Some(sum)
}

impl Together {
    /// Whether they do.
    fn is_kept(&self, world: &World<Purse>) -> bool
        ensures { (casts : List ActorSpec) (events : List Happening) →
            IsReachedBy casts events (world_view purse_at world.now) →
            (IsTrue result ↔ HoldTogether self.now (history casts events)) }
    {
        let Some(one) = purse_in(world, self.one) else {
            return false;
        };
        let Some(other) = purse_in(world, self.other) else {
            return false;
        };
        add_to(one, other, self.sum)
    }
}

impl Check<Purse> for Together {
    ghost holds = { HoldTogether };

    ghost breaks = { HoldOtherwise };

    fn check(&self, world: &World<Purse>) -> Result<bool, NoMemory> {
        Ok(self.is_kept(world))
    }
}
