//! A whole run: each actor and each caller in a thread of its own.

ghost use Rattle.std.specs.Prelude.{◌≡◌, map, All, None, IfOk, IfErr};
ghost use Rattle.act_rules.specs.Plans.{first_bad};
ghost use Rattle.act_actor.specs.Cast.{IsFitting, CallersDiffer};
ghost use Rattle.act_actor.specs.Casts.{actor_spec};
ghost use Rattle.act_mailbox.specs.Passes.{new_putter};
ghost use Rattle.act_mailbox.specs.Controls.{starter};
ghost use Rattle.act_tasks.specs.Each.{Each, EachReady};
ghost use Rattle.act_serve.specs.Served.{end_view};
ghost use Rattle.act_plans.specs.Setups.{PlansFit, AreMatched, HasLimits};
ghost use Rattle.act_plans.specs.Runs.{first_bad_plan};
ghost use Rattle.act_executor.specs.Opened.{AreOpened};
ghost use Rattle.act_executor.specs.Joined.{IsJoined};
ghost use Rattle.act_executor.specs.Plays.{IsPlayed};
ghost use Rattle.act_executor.specs.PlanPlays.{IsPlayedAsPlanned};
ghost use Rattle.act_executor.specs.Joins.{AreStarters};
ghost use Rattle.act_executor.specs.Work.{CanServe, IsServedBy, CanDrive, IsDrivenTo, CanStop, IsAsked, HasAskedAll};
ghost use Rattle.act_executor.specs.Runs.{plan_view, HasRunPlans, HasRun, IsFault, IsThreadFault, fault_of};
ghost use Rattle.act_executor.specs.Audits.{SitsAtControl};

use crate::joined::{Ends, Joined, compare_ends};
use crate::open::{Opened, open_lines, unzip};
use crate::work::{ByPlan, Conduct, Conducts, Driving, Serving, calls_of_all, drivings, servings};
use act_actor::{Cast, RunItem, RunLog};
use act_kinds::Actor;
use act_mailbox::{Control, ControlCaller, Endpoint, NoNotes, Notes};
use act_plans::{CallerSetup, Plan, Prepared, first_bad_setup, prepare};
use act_serve::Gate;
use act_tasks::{Refusal, Stop, run_both};
use act_types::{CallerId, KillNote, NoMemory};
use std::alloc::{AllocError, AllocFailed, Global};
use std::error::Error;
use std::fmt;
use std::sync::Wait;
use std::thread::Threads;

/// Why a run has no end to show.
#[derive(Clone, Copy, Debug, PartialEq, Eq)]
pub enum RunFault {
    /// More callers or actors than are served. Ids are so few that no casts meet it.
    TooMany,
    /// The caller's step at this place, from 0, would be refused. Nothing was run.
    BadPlan(CallerId, u32),
    /// A thread could not be started. All that were started have ended.
    NoThread,
    /// Memory was refused to the starter, to a caller or to an actor. All have ended.
    NoMemory,
}

impl From<NoMemory> for RunFault {
    ghost use Rattle.std.specs.Prelude.{◌≡◌};
    ghost use Rattle.act_executor.specs.declared.run.RunFault.TheVariants as fault;

    ghost from_gives = { λ _ result. result ≡ fault.NoMemory };

    fn from(_error: NoMemory) -> RunFault {
        RunFault::NoMemory
    }
}

impl From<AllocError> for RunFault {
    ghost use Rattle.std.specs.Prelude.{◌≡◌};
    ghost use Rattle.act_executor.specs.declared.run.RunFault.TheVariants as fault;

    ghost from_gives = { λ _ result. result ≡ fault.NoMemory };

    fn from(error: AllocError) -> RunFault {
        RunFault::from(NoMemory::from(error))
    }
}

impl<T: Drop> From<AllocFailed<T>> for RunFault {
    ghost use Rattle.std.specs.Prelude.{◌≡◌};
    ghost use Rattle.act_executor.specs.declared.run.RunFault.TheVariants as fault;

    ghost from_gives = { λ _ result. result ≡ fault.NoMemory };

    fn from(failed: AllocFailed<T>) -> RunFault {
        RunFault::from(NoMemory::from(failed))
    }
}

impl fmt::Display for RunFault {
    fn fmt<W: fmt::Write>(&self, f: &mut fmt::Formatter<W>) -> fmt::Result {
        match self {
            RunFault::TooMany => f.write_str("too many callers or actors"),
            RunFault::BadPlan(caller, place) => write!(
                f,
                "the step of {caller} at place {place} would be refused"
            ),
            RunFault::NoThread => f.write_str("no thread"),
            RunFault::NoMemory => f.write_str("no memory"),
        }
    }
}

impl Error for RunFault {}

impl<S: Drop, X: Drop> From<Refusal<S, X>> for RunFault {
    ghost use Rattle.std.specs.Prelude.{◌≡◌};

    ghost from_gives = { λ refusal result. result ≡ fault_of refusal };

    fn from(refusal: Refusal<S, X>) -> RunFault {
        match refusal {
            Refusal::NoThread(_) => RunFault::NoThread,
            Refusal::NoMemory(_) => RunFault::NoMemory,
        }
    }
}

/// What the threads noted, each by rising number.
#[derive(Drop)]
pub struct Pages<N> {
    pub of_callers: Vec<N>,
    pub of_actors: Vec<N>,
}

/// Runs the tasks in threads of their own.
fn run_tasks<
    R: Threads + Wait + Sync,
    K: Actor + Send,
    D: Conduct + Send,
    G: Gate,
    N: Notes + Send + Drop,
    L: RunLog + Send,
>(
    rt: &R,
    alloc: Global,
    servings: Vec<Serving<K, G, N, L>>,
    drivings: Vec<Driving<D, N>>,
    starter: Starter,
) -> Result<(Ends<K, L>, Pages<N>), RunFault>
    requires servings { All CanServe servings.items }
    requires drivings { All CanDrive drivings.items }
    requires starter { CanStop starter }
    ensures actors { IfOk result (λ ran. Each (IsServedBy K.state) servings.entry.items ran.0.actors.items) }
    ensures callers { IfOk result (λ ran. Each (IsDrivenTo D.does) drivings.entry.items ran.0.callers.items) }
    ensures starters { IfOk result (λ ran. ran.0.starters.items ≡ starter.entry.endpoints.items) }
    ensures fault { IfErr result IsThreadFault }
{
    let (served, driven, starter) = run_both(rt, alloc, servings, drivings, starter)?;
    let Starter {
        endpoints,
        asked,
        ..
    } = starter;
    drop(asked);
    let (actors, of_actors) = unzip(alloc, served)?;
    let (callers, of_callers) = unzip(alloc, driven)?;
    let ends = Ends {
        actors,
        callers,
        starters: endpoints,
    };
    let pages = Pages {
        of_callers,
        of_actors,
    };
    Ok((ends, pages))
}

/// Runs all threads at the lines that were opened for them, and compares what they left.
fn run_opened<
    R: Threads + Wait + Sync,
    K: Actor + Send,
    D: Conducts,
    G: Gate,
    N: Notes + Send + Drop,
    L: RunLog + Send,
>(
    rt: &R,
    alloc: Global,
    prepared: Prepared<K>,
    conducts: D,
    opened: Opened,
    gate: &G,
) -> Result<(Joined<K, L>, Pages<N>), RunFault>
    requires matched { AreMatched prepared.casts.items prepared.setups.items }
    requires limits { All HasLimits prepared.setups.items }
    requires fits { All (λ setup. first_bad setup.actors.items setup.plan.items ≡ None) prepared.setups.items }
    requires opening { AreOpened prepared.casts.items prepared.setups.items opened }
    ensures joined { IfOk result (λ ran. HasRunPlans K.state (λ c. D.One.does (D.of conducts c)) prepared ran.0) }
    ensures fault { IfErr result IsThreadFault }
{
    let Prepared { casts, setups } = prepared;
    let Opened {
        lines,
        execs,
        callers,
        starters,
    } = opened;
    let calls = calls_of_all(setups.as_slice());
    let servings = servings(alloc, casts, &lines, execs, gate, &calls)?;
    let drivings = drivings(alloc, setups, conducts, &lines, callers)?;
    let starter = starter_at(alloc, lines.controls.as_slice(), starters)?;
    let (ends, pages) = run_tasks(rt, alloc, servings, drivings, starter)?;
    let joined = compare_ends(rt, alloc, &lines, ends)?;
    drop(lines);
    Ok((joined, pages))
}

/// Runs each actor and each caller in a thread of its own, each caller by its conduct, where no step
/// of a plan would be refused.
pub(crate) fn run_conducts<
    R: Threads + Wait + Sync,
    K: Actor + Send,
    D: Conducts,
    G: Gate,
    N: Notes + Send + Drop,
    L: RunLog + Send,
>(
    rt: &R,
    alloc: Global,
    casts: Vec<Cast<K>>,
    plans: Vec<(CallerId, Plan)>,
    conducts: D,
    gate: &G,
) -> Result<(Joined<K, L>, Pages<N>), RunFault>
    requires fit { IsFitting casts.items }
    requires plans { PlansFit casts.items plans.items }
    ensures ran { IfOk result (λ ran.
        HasRun K.state (λ c. D.One.does (D.of conducts c)) casts.items plans.items ran.0) }
    ensures fault { IfErr result (IsFault (map (actor_spec K.state) casts.items) (map plan_view plans.items)) }
{
    let prepared = prepare(alloc, casts, plans)?;
    if let Some(bad) = first_bad_setup(alloc, prepared.setups.as_slice())? {
        drop(prepared);
        return Err(RunFault::BadPlan(bad.0, bad.1));
    }
    let opened = open_lines(alloc, prepared.casts.as_slice(), prepared.setups.as_slice())?;
    run_opened(rt, alloc, prepared, conducts, opened, gate)
}

/// Runs each actor and each caller in a thread of its own, each caller by its plan, and ends when
/// all have ended. A caller without a plan has an empty one. The gate is passed before each run of a
/// call. What the threads noted is given beside. That a run ends is not promised.
pub fn run_plans_noting<R: Threads + Wait + Sync, K: Actor + Send, G: Gate, N: Notes + Send + Drop>(
    rt: &R,
    alloc: Global,
    casts: Vec<Cast<K>>,
    plans: Vec<(CallerId, Plan)>,
    gate: &G,
) -> Result<(Joined<K>, Pages<N>), RunFault>
    requires fit { IsFitting casts.items }
    requires plans { PlansFit casts.items plans.items }
    ensures joined { IfOk result (λ ran.
        IsJoined (map (actor_spec K.state) casts.items) (map plan_view plans.items) ran.0.owners.items
        (map (λ actor. end_view K.state actor.ended) ran.0.actors.items)) }
    ensures played { IfOk result (λ ran.
        IsPlayed (map (actor_spec K.state) casts.items) ran.0.owners.items
        (map (λ actor. end_view K.state actor.ended) ran.0.actors.items)) }
    ensures planned { IfOk result (λ ran.
        IsPlayedAsPlanned (map (actor_spec K.state) casts.items) (map plan_view plans.items) ran.0.owners.items
        (map (λ actor. end_view K.state actor.ended) ran.0.actors.items)) }
    ensures good { IfOk result (λ _.
        first_bad_plan (map (actor_spec K.state) casts.items) (map plan_view plans.items) ≡ None) }
    ensures fault { IfErr result (IsFault (map (actor_spec K.state) casts.items) (map plan_view plans.items)) }
{
    run_conducts::<R, K, ByPlan, G, N, Vec<RunItem>>(rt, alloc, casts, plans, ByPlan, gate)
}

/// Runs each actor and each caller in a thread of its own, each caller by its plan, and ends when
/// all have ended. A caller without a plan has an empty one. The gate is passed before each run of a
/// call. That a run ends is not promised.
pub fn run_plans<R: Threads + Wait + Sync, K: Actor + Send, G: Gate>(
    rt: &R,
    alloc: Global,
    casts: Vec<Cast<K>>,
    plans: Vec<(CallerId, Plan)>,
    gate: &G,
) -> Result<Joined<K>, RunFault>
    requires fit { IsFitting casts.items }
    requires plans { PlansFit casts.items plans.items }
    ensures joined { IfOk result (λ joined.
        IsJoined (map (actor_spec K.state) casts.items) (map plan_view plans.items) joined.owners.items
        (map (λ actor. end_view K.state actor.ended) joined.actors.items)) }
    ensures played { IfOk result (λ joined.
        IsPlayed (map (actor_spec K.state) casts.items) joined.owners.items
        (map (λ actor. end_view K.state actor.ended) joined.actors.items)) }
    ensures planned { IfOk result (λ joined.
        IsPlayedAsPlanned (map (actor_spec K.state) casts.items) (map plan_view plans.items) joined.owners.items
        (map (λ actor. end_view K.state actor.ended) joined.actors.items)) }
    ensures good { IfOk result (λ _.
        first_bad_plan (map (actor_spec K.state) casts.items) (map plan_view plans.items) ≡ None) }
    ensures fault { IfErr result (IsFault (map (actor_spec K.state) casts.items) (map plan_view plans.items)) }
{
    let ran = run_plans_noting::<R, K, G, NoNotes>(rt, alloc, casts, plans, gate)?;
    let (joined, pages) = ran;
    drop(pages);
    Ok(joined)
}

/// What came of a kill that the starter asked: its pass has it, or the line handed it back. Such a
/// line is full, and has kills enough.
pub(crate) type Asking = Result<Endpoint<ControlCaller>, KillNote>;

/// The starter's passes on all control lines, and room for what comes of its kills.
#[derive(Drop)]
pub(crate) struct Starter<'a> {
    pub(crate) controls: &'a [Control],
    pub(crate) endpoints: Vec<Endpoint<ControlCaller>>,
    pub(crate) asked: Vec<Asking>,
}

/// Asks for a kill, in the name of the first caller.
fn ask<R: Wait>(rt: &R, controls: &[Control], endpoint: Endpoint<ControlCaller>) -> Asking
    requires { SitsAtControl controls.now endpoint }
    ensures { IsAsked controls.now endpoint result }
{
    let Endpoint { place, mut pass } = endpoint;
    let control = &controls[place];
    let kill = KillNote {
        caller: CallerId::new(1).unwrap(),
        actor: control.actor(),
    };
    match control.ask(rt, &mut pass, kill) {
        Ok(()) => Ok(Endpoint { place, pass }),
        Err(back) => Err(back),
    }
}

impl<'a> Stop for Starter<'a> {
    type Stopped = Vec<Asking>;

    ghost can_stop = { CanStop };

    ghost has_stopped = { HasAskedAll };

    fn stop<R: Wait>(self, rt: &R) -> Vec<Asking> {
        let Starter {
            controls,
            endpoints,
            mut asked,
        } = self;
        for endpoint in endpoints {
            asked.push_reserved(ask(rt, controls, endpoint));
        }
        asked
    }
}

/// The starter at these lines, with room for what comes of its kills.
pub(crate) fn starter_at(
    alloc: Global,
    controls: &[Control],
    passes: Vec<ControlCaller>,
) -> Result<Starter, NoMemory>
    requires { passes.items ≡ map (λ control. new_putter control.line starter) controls.now }
    ensures controls { IfOk result (λ it. it.controls.now ≡ controls.now) }
    ensures starters { IfOk result (λ it. AreStarters controls.now it.endpoints.items) }
    ensures ready { IfOk result CanStop }
{
    let mut endpoints = Vec::new(alloc);
    for pass in passes {
        let place = endpoints.len();
        endpoints.push(Endpoint { place, pass })?;
    }
    let asked = Vec::with_capacity(alloc, endpoints.len())?;
    Ok(Starter {
        controls,
        endpoints,
        asked,
    })
}
