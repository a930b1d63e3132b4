//! Runs that are written down as plays.

ghost use Rattle.std.specs.Prelude.{◌≡◌};

use super::scene::{Ids, Row, few_ids, pair, plans_of};
use act_actor::cast_fits;
use act_executor::{Gate, NoGate, RunFault, plans_fit};
use act_kinds::{Actor, Boxed, Counter};
use act_replay::{RecordFault, Recorded, Source, run_recorded};
use act_types::ActorId;
use act_world::Event;
use std::alloc::Global;
use std::sync::Wait;
use std::sync::atomic::{AtomicU64, Ordering};
use std::test::Fail;
use std::thread;
use std::thread::Threads;

/// What was written down, or none where no play of the run was found. A run that left nothing keeps
/// its fault.
fn told<K>(recorded: Result<Recorded<K>, RecordFault>) -> Result<Option<Recorded<K>>, RunFault> {
    match recorded {
        Ok(recorded) => Ok(Some(recorded)),
        Err(fault) => match fault {
            RecordFault::Run(fault) => Err(fault),
            RecordFault::Unplayed => Ok(None),
        },
    }
}

/// Runs the plans of the two callers at two actors of this limit, past a gate, and writes the run down.
fn written_past<R: Threads + Wait + Sync, K: Actor + Send, G: Gate>(
    rt: &R,
    alloc: Global,
    pending: Option<u32>,
    kinds: (K, K),
    twins: (Boxed, Boxed),
    one: &[Row],
    two: &[Row],
    gate: &G,
) -> Result<Option<Recorded<K>>, RunFault>
    requires one { ⟦<Boxed as Actor>⟧.state twins.0 ≡ K.state kinds.0 }
    requires two { ⟦<Boxed as Actor>⟧.state twins.1 ≡ K.state kinds.1 }
{
    let casts = pair(alloc, kinds.0, kinds.1, pending)?;
    let twins = pair(alloc, twins.0, twins.1, pending)?;
    let plans = plans_of(alloc, one, two)?;
    if cast_fits(casts.as_slice()) && plans_fit(casts.as_slice(), plans.as_slice()) {
        told(run_recorded(rt, alloc, casts, twins, plans, gate))
    } else {
        Err(RunFault::TooMany)
    }
}

/// The same without a gate.
fn written<R: Threads + Wait + Sync, K: Actor + Send>(
    rt: &R,
    alloc: Global,
    pending: Option<u32>,
    kinds: (K, K),
    twins: (Boxed, Boxed),
    one: &[Row],
    two: &[Row],
) -> Result<Option<Recorded<K>>, RunFault>
    requires one { ⟦<Boxed as Actor>⟧.state twins.0 ≡ K.state kinds.0 }
    requires two { ⟦<Boxed as Actor>⟧.state twins.1 ≡ K.state kinds.1 }
{
    written_past(rt, alloc, pending, kinds, twins, one, two, &NoGate)
}

/// One caller passes answers on between both counters, and the other adds to both. Whether the play
/// has an event for each thing that happens: five for each of the 7 calls, two for the end of each of the
/// 4 handles, and one for that of each counter.
fn answers_passed_on<R: Threads + Wait + Sync, K: Actor + Send>(
    rt: &R,
    alloc: Global,
    pending: Option<u32>,
    kinds: (K, K),
    twins: (Boxed, Boxed),
) -> Result<bool, RunFault>
    requires one { ⟦<Boxed as Actor>⟧.state twins.0 ≡ K.state kinds.0 }
    requires two { ⟦<Boxed as Actor>⟧.state twins.1 ≡ K.state kinds.1 }
{
    let Ids { a1, a2, .. } = few_ids();
    let one = [
        Row::Add(a1, 1),
        Row::AddAnswer(a2, 0),
        Row::Await(1),
        Row::AddAnswer(a1, 1),
        Row::Get(a2),
    ];
    let two = [Row::Add(a2, 5), Row::AddAnswer(a1, 0), Row::Get(a1)];
    let Some(recorded) = written(rt, alloc, pending, kinds, twins, &one, &two)? else {
        return Ok(false);
    };
    let is_whole = recorded.events.len() == 45 && recorded.source == Source::Noted;
    drop(recorded);
    Ok(is_whole)
}

/// How many deaths, and how many retirements, a play has.
fn ends_in(events: &[Event]) -> (usize, usize) {
    let dead = events
        .iter()
        .filter(|event| matches!(event, Event::TakeKill(_)))
        .count();
    let retired = events
        .iter()
        .filter(|event| matches!(event, Event::Retire(_)))
        .count();
    (dead, retired)
}

/// One caller adds, and the other kills the counter. Whether it takes the kill in the play, and the
/// other counter retires.
fn killed<R: Threads + Wait + Sync, K: Actor + Send>(
    rt: &R,
    alloc: Global,
    kinds: (K, K),
    twins: (Boxed, Boxed),
) -> Result<bool, RunFault>
    requires one { ⟦<Boxed as Actor>⟧.state twins.0 ≡ K.state kinds.0 }
    requires two { ⟦<Boxed as Actor>⟧.state twins.1 ≡ K.state kinds.1 }
{
    let Ids { a1, a2, .. } = few_ids();
    let one = [Row::Add(a1, 1), Row::AddAnswer(a2, 0), Row::Add(a1, 3)];
    let two = [Row::Get(a1), Row::Kill(a1), Row::Get(a1)];
    let Some(recorded) = written(rt, alloc, None, kinds, twins, &one, &two)? else {
        return Ok(false);
    };
    let ends = ends_in(recorded.events.as_slice());
    drop(recorded);
    Ok(ends == (1, 1))
}

/// So many times a run looks whether the other one came.
const LOOKS: u32 = 10_000_000;

/// Where the first runs of two actors wait for each other.
#[derive(Drop)]
struct Meeting {
    came: AtomicU64,
    met: AtomicU64,
}

impl Gate for Meeting {
    fn pass(&self, _actor: ActorId, place: u32) {
        if place != 0 {
            return;
        }
        self.came.fetch_add(1, Ordering::SeqCst);
        for _ in 0..LOOKS {
            if self.came.load(Ordering::SeqCst) == 2 {
                self.met.fetch_add(1, Ordering::SeqCst);
                return;
            }
            thread::yield_now();
        }
    }
}

/// Each caller adds to a counter of its own. How many of the counters met at the gate that the run was given, where a
/// play was found.
fn met<R: Threads + Wait + Sync, K: Actor + Send>(
    rt: &R,
    alloc: Global,
    kinds: (K, K),
    twins: (Boxed, Boxed),
) -> Result<Option<u64>, RunFault>
    requires one { ⟦<Boxed as Actor>⟧.state twins.0 ≡ K.state kinds.0 }
    requires two { ⟦<Boxed as Actor>⟧.state twins.1 ≡ K.state kinds.1 }
{
    let Ids { a1, a2, .. } = few_ids();
    let (one, two) = ([Row::Add(a1, 1)], [Row::Add(a2, 1)]);
    let gate = Meeting {
        came: AtomicU64::new(0),
        met: AtomicU64::new(0),
    };
    let Some(recorded) = written_past(rt, alloc, None, kinds, twins, &one, &two, &gate)? else {
        return Ok(None);
    };
    drop(recorded);
    Ok(Some(gate.met.load(Ordering::SeqCst)))
}

#[test]
fn gate_of_a_recorded_run(rt: HostRuntime) -> Result<(), Fail> {
    let alloc = rt.alloc();
    let one: Boxed = Box::new(alloc, Counter::open())?;
    let two: Boxed = Box::new(alloc, Counter::open())?;
    let kinds = (Counter::open(), Counter::open());
    assert_eq!(rt; met(&rt, alloc, kinds, (one, two))?, Some(2));
    Ok(())
}

#[test]
fn answers_are_noted(rt: HostRuntime) -> Result<(), Fail> {
    let alloc = rt.alloc();
    let one: Boxed = Box::new(alloc, Counter::open())?;
    let two: Boxed = Box::new(alloc, Counter::open())?;
    let kinds = (Counter::open(), Counter::open());
    assert!(rt; answers_passed_on(&rt, alloc, None, kinds, (one, two))?);
    Ok(())
}

#[test]
fn answers_under_a_limit_are_noted(rt: HostRuntime) -> Result<(), Fail> {
    let alloc = rt.alloc();
    let one: Boxed = Box::new(alloc, Counter::open())?;
    let two: Boxed = Box::new(alloc, Counter::open())?;
    let kinds = (Counter::open(), Counter::open());
    assert!(rt; answers_passed_on(&rt, alloc, Some(1), kinds, (one, two))?);
    Ok(())
}

#[test]
fn a_kill_is_noted(rt: HostRuntime) -> Result<(), Fail> {
    let alloc = rt.alloc();
    let one: Boxed = Box::new(alloc, Counter::open())?;
    let two: Boxed = Box::new(alloc, Counter::open())?;
    let kinds = (Counter::open(), Counter::open());
    assert!(rt; killed(&rt, alloc, kinds, (one, two))?);
    Ok(())
}
