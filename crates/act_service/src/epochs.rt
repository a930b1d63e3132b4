//! Epochs that follow one another.

ghost use Rattle.std.specs.Prelude.{[], map, option_map, IfOk, IfErr, IfSome, OnOk};
ghost use Rattle.act_actor.specs.Cast.{IsFitting};
ghost use Rattle.act_actor.specs.Casts.{actor_spec};
ghost use Rattle.act_executor.specs.Conducts.{CodesFit};
ghost use Rattle.act_service.specs.Services.{HaveLed, CarriesOver, BecomesKnown, LeadsOn, IsUnderWay};
ghost use Rattle.act_service.specs.Faults.{IsEpochFault, IsFaultAt, IsFaultOfCodes, IsOfService};

use crate::service::Service;
use crate::shapes::{Shape, casts_left, copy_shapes};
use act_actor::Cast;
use act_executor::{Joined, RunFault, codes_fit, run_callers_keeping};
use act_kinds::Actor;
use act_serve::Gate;
use act_types::{CallerId, NoMemory};
use std::alloc::Global;
use std::error::Error;
use std::fmt;
use std::sync::Wait;
use std::thread::Threads;

/// Why a service ended before its end. The actors are gone then.
#[derive(Debug, Drop)]
pub enum EpochFault<E> {
    /// A thread or memory was refused, in a run or between two, or a caller's code gave up, which a
    /// run tells as `NoMemory`. All threads have ended.
    Run(RunFault),
    /// The service failed.
    Service(E),
    /// The service gave codes that don't fit the actors that are left, as `codes_fit` tells.
    BadCodes,
}

impl<E> From<RunFault> for EpochFault<E> {
    ghost use Rattle.std.specs.Prelude.{◌≡◌};
    ghost use Rattle.act_service.specs.declared.epochs.EpochFault.TheVariants as fault;

    ghost from_gives = { λ given result. result ≡ fault.Run given };

    fn from(given: RunFault) -> EpochFault<E> {
        EpochFault::Run(given)
    }
}

impl<E> From<NoMemory> for EpochFault<E> {
    ghost use Rattle.std.specs.Prelude.{◌≡◌};
    ghost use Rattle.act_service.specs.declared.epochs.EpochFault.TheVariants as fault;
    ghost use Rattle.act_executor.specs.declared.run.RunFault.TheVariants as run;

    ghost from_gives = { λ _ result. result ≡ fault.Run run.NoMemory };

    fn from(_error: NoMemory) -> EpochFault<E> {
        EpochFault::Run(RunFault::NoMemory)
    }
}

impl<E: fmt::Display> fmt::Display for EpochFault<E> {
    fn fmt<W: fmt::Write>(&self, f: &mut fmt::Formatter<W>) -> fmt::Result {
        match self {
            EpochFault::Run(fault) => write!(f, "{fault}"),
            EpochFault::Service(fault) => write!(f, "{fault}"),
            EpochFault::BadCodes => f.write_str("codes don't fit the actors"),
        }
    }
}

impl<E: Error> Error for EpochFault<E> {}

/// The codes for the next epoch, which fit its casts.
fn next_codes<K: Actor, S: Service<K>>(
    service: &mut S,
    casts: &[Cast<K>],
) -> Result<Option<Vec<(CallerId, S::One)>>, EpochFault<S::Fault>>
    ensures fit { IfOk result (λ codes. IfSome codes (λ codes. CodesFit casts.now [] codes.items)) }
    ensures gave { IfOk result (λ codes. CarriesOver (S.knows service.old)
        (S.gave service.new (option_map (λ codes. codes.items) codes)) (map (actor_spec K.state) casts.now)) }
    ensures fault { IfErr result (IsFaultOfCodes K.state (S.knows service.old) (S.gave service.new) casts.now) }
{
    match service.codes(casts) {
        Err(fault) => Err(EpochFault::Service(fault)),
        Ok(None) => Ok(None),
        Ok(Some(codes)) => {
            if codes_fit(casts, &[], &codes) {
                Ok(Some(codes))
            } else {
                Err(EpochFault::BadCodes)
            }
        }
    }
}

/// Lends the service what an epoch left.
fn look<K: Actor, S: Service<K>>(
    service: &mut S,
    joined: &Joined<K, S::Log>,
) -> Result<(), EpochFault<S::Fault>>
    ensures known { OnOk result
        (BecomesKnown S.One.tells K.state (S.gave service.old) (S.knows service.new) joined.now) }
    ensures fault { IfErr result IsOfService }
{
    match service.look(joined) {
        Err(fault) => Err(EpochFault::Service(fault)),
        Ok(()) => Ok(()),
    }
}

/// Runs the codes with these casts, and lends the service what they leave.
fn run_epoch<R: Threads + Wait + Sync, K: Actor + Send, S: Service<K>, G: Gate>(
    rt: &R,
    alloc: Global,
    casts: Vec<Cast<K>>,
    codes: Vec<(CallerId, S::One)>,
    service: &mut S,
    gate: &G,
) -> Result<Vec<Cast<K>>, EpochFault<S::Fault>>
    requires fit { IsFitting casts.items }
    requires codes { CodesFit casts.items [] codes.items }
    ensures led { IfOk result (λ left. LeadsOn S.One.tells (S.gave service.old (Some codes.items))
        (S.knows service.new) (map (actor_spec K.state) casts.items) (map (actor_spec K.state) left.items)) }
    ensures fit { IfOk result (λ left. IsFitting left.items) }
    ensures fault { IfErr result (IsFaultAt S.One.tells (S.gave service.old (Some codes.items))
        (IsUnderWay (S.knows service.new) (S.gave service.new)) (map (actor_spec K.state) casts.items)) }
{
    let shapes = copy_shapes(alloc, &casts)?;
    let plans = Vec::new(alloc);
    let joined = run_callers_keeping::<R, K, S::One, G, S::Log>(
        rt, alloc, casts, plans, codes, gate,
    )?;
    look(service, &joined)?;
    let Joined { owners, actors } = joined;
    drop(owners);
    let left = casts_left(alloc, &shapes, actors)?;
    Ok(left)
}

/// Runs epoch after epoch until the service comes to its end, and gives back the actors that are left,
/// each with the kind that its last epoch left. Each epoch is a run of `run_callers_keeping`, by the codes that
/// the service gives for it. An actor that retired is cast again, with its callers and its limit; one
/// that died is not. Of an epoch nothing else is kept. The gate is passed with the places of each
/// epoch's run list, from 0. That the service comes to its end is not promised.
pub fn run_epochs<R: Threads + Wait + Sync, K: Actor + Send, S: Service<K>, G: Gate>(
    rt: &R,
    alloc: Global,
    casts: Vec<Cast<K>>,
    service: &mut S,
    gate: &G,
) -> Result<Vec<Cast<K>>, EpochFault<S::Fault>>
    requires fit { IsFitting casts.items }
    requires known { S.knows service.old (map (actor_spec K.state) casts.items) [] }
    ensures led { IfOk result (λ left. HaveLed S.One.tells (S.gave service.new None)
        (map (actor_spec K.state) casts.items) (map (actor_spec K.state) left.items)) }
    ensures fit { IfOk result (λ left. IsFitting left.items) }
    ensures fault { IfErr result (IsEpochFault K.state S.One.tells (S.gave service.new) (S.knows service.new)
        (map (actor_spec K.state) casts.items)) }
{
    let mut casts = casts;
    for _ in rt.forever() {
        match next_codes(service, &casts)? {
            None => return Ok(casts),
            Some(codes) => casts = run_epoch(rt, alloc, casts, codes, service, gate)?,
        }
    }
    unreachable!()
}
