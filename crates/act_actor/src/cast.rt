//! Who plays.

ghost use Rattle.std.specs.Prelude.{◌≡◌, ◌↔◌, ◌==◌, IfOk, IsTrue};
ghost use Rattle.std.specs.List.{list_any};
ghost use Rattle.act_actor.specs.Cast.{CallersDiffer, ActorsDiffer, IsFitting};
ghost use Rattle.act_rules.specs.History.{contains};
ghost use Rattle.act_rules.specs.Submissions.{IsLimit};
ghost use Rattle.act_actor.specs.Casts.{actors_that_name, limits_that_name};

use act_kinds::Boxed;
use act_types::{ActorId, CallerId, ListOf, MAX_CALLS, NoMemory};
use std::alloc::Global;

/// An actor that is to be opened: its name, who may call it, its kind, and its limit if it has one.
#[derive(Drop)]
pub struct Cast<K = Boxed> {
    pub actor: ActorId,
    pub callers: ListOf<CallerId>,
    pub kind: K,
    /// How many calls of each caller to the actor may have no answer yet, from 1 to 65,536.
    pub pending: Option<u32>,
}

/// Whether no caller stands twice.
fn callers_differ(callers: &[CallerId]) -> bool
    ensures { IsTrue result ↔ CallersDiffer callers.now }
{
    for (place, caller) in callers.iter().enumerate() {
        if callers[..place].contains(caller) {
            return false;
        }
    }
    true
}

/// Whether one of the casts is of this actor.
fn names<K>(casts: &[Cast<K>], actor: ActorId) -> bool
    ensures { result ≡ list_any (λ cast. cast.actor == actor) casts.now }
{
    casts.iter().any(|cast| cast.actor == actor)
}

/// Whether no actor stands twice.
fn actors_differ<K>(casts: &[Cast<K>]) -> bool
    ensures { IsTrue result ↔ ActorsDiffer casts.now }
{
    for (place, cast) in casts.iter().enumerate() {
        if names(&casts[..place], cast.actor) {
            return false;
        }
    }
    true
}

/// Whether a limit is one that a cast may have.
fn is_limit(pending: Option<u32>) -> bool
    ensures { IsTrue result ↔ IsLimit pending }
{
    match pending {
        None => true,
        Some(limit) => 1 <= limit && limit <= MAX_CALLS,
    }
}

/// Whether the actors are distinct, the callers of each are, and each limit is from 1 to 65,536.
pub fn cast_fits<K>(casts: &[Cast<K>]) -> bool
    ensures { IsTrue result ↔ IsFitting casts.now }
{
    actors_differ(casts)
        && casts.iter().all(|cast| callers_differ(cast.callers.as_slice())
            && is_limit(cast.pending))
}

/// Whether the cast names the caller.
fn names_caller<K>(cast: &Cast<K>, c: CallerId) -> bool
    ensures { result ≡ contains c cast.now.callers }
{
    cast.callers.as_slice().contains(&c)
}

/// The actors whose casts name the caller, in the order of the casts.
pub fn actors_of<K>(alloc: Global, casts: &[Cast<K>], c: CallerId) -> Result<Vec<ActorId>, NoMemory>
    ensures { IfOk result (λ actors. actors.items ≡ actors_that_name c casts.now) }
{
    let actors = casts
        .iter()
        .filter(|cast| names_caller(cast, c))
        .map(|cast| cast.actor)
        .collect(alloc)?;
    Ok(actors)
}

/// The actors whose casts name the caller, each with its limit, in the order of the casts.
pub fn limits_of<K>(
    alloc: Global,
    casts: &[Cast<K>],
    c: CallerId,
) -> Result<Vec<(ActorId, Option<u32>)>, NoMemory>
    ensures { IfOk result (λ limits. limits.items ≡ limits_that_name c casts.now) }
{
    let limits = casts
        .iter()
        .filter(|cast| names_caller(cast, c))
        .map(|cast| (cast.actor, cast.pending))
        .collect(alloc)?;
    Ok(limits)
}
