//! Whether any events end as a history tells, decided by a walk after what was read of it.

ghost use Rattle.std.specs.Prelude.{◌≡◌, ◌<◌, ◌^◌, true, List, IfOk, IsTrue, length, map};
ghost use Rattle.std.specs.List.{list_all};
ghost use Rattle.act_rules.specs.declared.event.Event.{Event as Happening};
ghost use Rattle.act_rules.specs.History.{ActorSpec};
ghost use Rattle.act_rules.specs.Scripts.{actor_spec_of};
ghost use Rattle.act_scripts.specs.Roles.{AreFitting};
ghost use Rattle.act_summaries.specs.Summaries.{is_sayable_role};
ghost use Rattle.act_world.specs.IsReachedBy.{IsReachedBy};
ghost use Rattle.act_world.specs.View.{world_view};
ghost use Rattle.act_decisions.specs.Decided.{IsWalkAfter, IsDecision};
ghost use Rattle.act_decisions.specs.Fits.{AllFitSteps};
ghost use Rattle.act_decisions.specs.Read.{Matches};

use crate::compared::matches_told;
use crate::fits::all_fit_steps;
use crate::fits_roles::bad_plan;
use crate::refuting::refutes;
use act_kinds::Actor;
use act_rules::{Role, Step};
use act_types::{CallerId, NoMemory};
use act_walks::{ToldEnd, Walked};
use std::alloc::Global;

/// What a walk decides of a history.
#[derive(Clone, Copy, Debug, PartialEq, Eq)]
pub enum Decision {
    /// The walk's events end so.
    Ends,
    /// No events do.
    Nowhere,
    /// The caller awaits an answer, and every play refuses its own step at this place. So no run in
    /// threads has such plans.
    BadStep(CallerId, u32),
    /// The walk's events don't, and it isn't known whether others do: what was read isn't what the
    /// lines tell, or leaves something to be guessed.
    Open,
}

/// Whether the walk is done, and ends as steps and lines tell.
fn ends<K: Actor>(
    alloc: Global,
    walked: &Walked<K>,
    steps: &[(CallerId, Step, u32)],
    rest: &[u8],
) -> Result<bool, NoMemory>
    ensures done { IfOk result (λ is. IsTrue is → walked.now.is_done ≡ true) }
    ensures matches { IfOk result (λ is. (casts : List ActorSpec) (events : List Happening) →
        IsReachedBy casts events (world_view K.state walked.now.world) → IsTrue is →
        Matches casts steps.now rest.now events) }
    ensures exact { IfOk result (λ is. (casts : List ActorSpec) (events : List Happening) →
        IsReachedBy casts events (world_view K.state walked.now.world) → walked.now.is_done ≡ true →
        Matches casts steps.now rest.now events → IsTrue is) }
{
    if !walked.is_done {
        return Ok(false);
    }
    matches_told(alloc, &walked.world, steps, rest)
}

/// What the walk decides, where what was read has the callers' steps.
fn decision_of<K: Actor>(
    alloc: Global,
    walked: &Walked<K>,
    roles: &[Role],
    steps: &[(CallerId, Step, u32)],
    rest: &[u8],
    end: &ToldEnd,
) -> Result<Decision, NoMemory>
    requires roles { AreFitting (map actor_spec_of roles.now) }
    requires sayable { IsTrue (list_all is_sayable_role roles.now) }
    requires few { length steps.now < 2 ^ 32 }
    requires lines { AllFitSteps end.now steps.now }
    requires walk { IsWalkAfter K.state end.now (map actor_spec_of roles.now) walked.now }
    ensures { IfOk result (IsDecision (map actor_spec_of roles.now) steps.now rest.now walked.now.events.items) }
{
    if ends(alloc, walked, steps, rest)? {
        return Ok(Decision::Ends);
    }
    let bad = bad_plan(alloc, end, roles)?;
    match bad {
        Some(at) => Ok(Decision::BadStep(at.0, at.1)),
        None => {
            if refutes(alloc, end, roles, rest, &walked.events)? {
                Ok(Decision::Nowhere)
            } else {
                Ok(Decision::Open)
            }
        }
    }
}

/// Whether any events end as the steps of a script and the lines below them tell, by a walk in a world
/// of its roles. `end` is what was read of them, and what the walk came after. Whatever it is, the
/// decision is right.
pub fn decide<K: Actor>(
    alloc: Global,
    walked: &Walked<K>,
    roles: &[Role],
    steps: &[(CallerId, Step, u32)],
    rest: &[u8],
    end: &ToldEnd,
) -> Result<Decision, NoMemory>
    requires roles { AreFitting (map actor_spec_of roles.now) }
    requires sayable { IsTrue (list_all is_sayable_role roles.now) }
    requires few { length steps.now < 2 ^ 32 }
    requires walk { IsWalkAfter K.state end.now (map actor_spec_of roles.now) walked.now }
    ensures { IfOk result (IsDecision (map actor_spec_of roles.now) steps.now rest.now walked.now.events.items) }
{
    if !all_fit_steps(end, steps) {
        return Ok(Decision::Open);
    }
    decision_of(alloc, walked, roles, steps, rest, end)
}
