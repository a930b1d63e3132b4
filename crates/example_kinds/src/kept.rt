//! What holds of banks and limiters in a world, and in a run in threads, whatever else happens there.

ghost use Rattle.std.specs.Prelude.{◌≡◌, ℕ, List, map, option_map, replicate, IfErr, IfOk};
ghost use Rattle.actors.specs.Event.{Event as Happening};
ghost use Rattle.actors.specs.Rules.{ActorSpec};
ghost use Rattle.actors.specs.Kinds.{told_in, SlotKeeps, EndKeeps, OpensAt};
ghost use Rattle.actors.specs.Actors.{IsFitting, actor_spec};
ghost use Rattle.actors.specs.Worlds.{IsReachedBy, stage_in, stage_view, world_view};
ghost use Rattle.actors.specs.Threads.{end_view, PlansFit, IsJoined, end_of, log_in, plan_view, IsFault};
ghost use Rattle.example_kinds.specs.Bank.{bank_step, bank_text, empty_bank, HoldsItsMoney};
ghost use Rattle.example_kinds.specs.Limiter.{limiter_step, limiter_text, limiter_of, limiter_at, NeverAbove};

use actors::{
    Actor, ActorId, CallerId, Cast, Joined, NoGate, Plan, RunFault, Stage, World, run_plans,
};
use std::alloc::Global;
use std::sync::Wait;
use std::thread::Threads;

/// An actor of a world. One that opened as an empty bank has what was paid in less what was paid out.
pub fn bank_stage<K: Actor>(world: &World<K>, a: ActorId) -> Option<Stage<'_, K>>
    ensures shown { option_map (stage_view K.state) result ≡ stage_in (world_view K.state world.now) a }
    ensures kept { (casts : List ActorSpec) (events : List Happening) (accounts : ℕ) →
        IsReachedBy casts events (world_view K.state world.now) →
        OpensAt bank_step bank_text casts a (replicate accounts 0) →
        SlotKeeps bank_step bank_text HoldsItsMoney (empty_bank accounts) (option_map (stage_view K.state) result) }
{
    world.stage(a)
}

/// Runs plans with banks among the actors. Each that opened empty has what was paid in less what was paid out.
pub fn run_banks<R: Threads + Wait + Sync, K: Actor + Send>(
    rt: &R,
    alloc: Global,
    casts: Vec<Cast<K>>,
    plans: Vec<(CallerId, Plan)>,
) -> Result<Joined<K>, RunFault>
    requires casts { IsFitting casts.items }
    requires plans { PlansFit casts.items plans.items }
    ensures joined { IfOk result (λ joined.
        IsJoined (map (actor_spec K.state) casts.items) (map plan_view plans.items) joined.owners.items
        (map (λ actor. end_view K.state actor.ended) joined.actors.items)) }
    ensures kept { IfOk result (λ joined. (a accounts : ℕ) →
        OpensAt bank_step bank_text (map (actor_spec K.state) casts.items) a (replicate accounts 0) →
        EndKeeps bank_step bank_text HoldsItsMoney (empty_bank accounts)
        (end_of a (map (λ actor. end_view K.state actor.ended) joined.actors.items))) }
    ensures fault { IfErr result (IsFault (map (actor_spec K.state) casts.items) (map plan_view plans.items)) }
{
    let joined = run_plans(rt, alloc, casts, plans, &NoGate)?;
    Ok(joined)
}

/// Runs plans with limiters among the actors. None grants more than its rate between two resets.
pub fn run_limiters<R: Threads + Wait + Sync, K: Actor + Send>(
    rt: &R,
    alloc: Global,
    casts: Vec<Cast<K>>,
    plans: Vec<(CallerId, Plan)>,
) -> Result<Joined<K>, RunFault>
    requires casts { IsFitting casts.items }
    requires plans { PlansFit casts.items plans.items }
    ensures joined { IfOk result (λ joined.
        IsJoined (map (actor_spec K.state) casts.items) (map plan_view plans.items) joined.owners.items
        (map (λ actor. end_view K.state actor.ended) joined.actors.items)) }
    ensures rate { IfOk result (λ joined. (a most : ℕ) →
        OpensAt limiter_step limiter_text (map (actor_spec K.state) casts.items) a (limiter_of most) →
        NeverAbove most (told_in (limiter_at most)
        (log_in (map (λ actor. end_view K.state actor.ended) joined.actors.items) a))) }
    ensures fault { IfErr result (IsFault (map (actor_spec K.state) casts.items) (map plan_view plans.items)) }
{
    let left = run_plans(rt, alloc, casts, plans, &NoGate)?;
    Ok(left)
}
