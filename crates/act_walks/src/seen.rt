//! What a world shows of callers and actors.

ghost use Rattle.std.specs.Prelude.{◌≡◌, List, length, is_some};
ghost use Rattle.act_rules.specs.declared.event.Event.{Event as Happening};
ghost use Rattle.act_rules.specs.History.{ActorSpec, History, calls_of, kept_of, runs_of};
ghost use Rattle.act_rules.specs.Submissions.{kept_at};
ghost use Rattle.act_world.specs.View.{world_view};
ghost use Rattle.act_plan_plays.specs.Parts.{IsBehind};

use act_kinds::Actor;
use act_types::{ActorId, CallerId, FutureId};
use act_world::{Stage, World};

/// How many calls the caller made.
pub(crate) fn count_calls<K: Actor>(world: &World<K>, c: CallerId) -> usize
    ensures { (casts : List ActorSpec) (h : History) (before : List Happening) →
        IsBehind casts h (world_view K.state world.now) before → result ≡ length (calls_of c h) }
{
    match world.owner(c) {
        None => 0,
        Some(owner) => owner.count() as usize,
    }
}

/// Whether the caller has the answer.
pub(crate) fn has_answer<K: Actor>(world: &World<K>, c: CallerId, k: FutureId) -> bool
    ensures { (casts : List ActorSpec) (h : History) (before : List Happening) →
        IsBehind casts h (world_view K.state world.now) before → result ≡ is_some (kept_at (kept_of c h) k) }
{
    match world.owner(c) {
        None => false,
        Some(owner) => owner.answer(k).is_some(),
    }
}

/// How many calls the actor ran.
pub(crate) fn count_runs<K: Actor>(world: &World<K>, a: ActorId) -> usize
    ensures { (casts : List ActorSpec) (h : History) (before : List Happening) →
        IsBehind casts h (world_view K.state world.now) before → result ≡ length (runs_of a h) }
{
    match world.stage(a) {
        None => 0,
        Some(Stage::Live(live)) => live.log().len(),
        Some(Stage::Dead(dead)) => dead.log().len(),
        Some(Stage::Retired(retired)) => retired.log().len(),
    }
}
