//! Run lists as they are told.

ghost use Rattle.std.specs.Prelude.{◌≡◌, ◌<◌, ◌^◌, ◌++◌, IfOk, OnOk, map};
ghost use Rattle.act_serve.specs.Served.{end_view};
ghost use Rattle.act_told.specs.Starts.{AreSmall, start_in, run_by, runs_by};

use act_actor::RunItem;
use act_kinds::Actor;
use act_orders::Run;
use act_serve::Finished;
use act_types::{CallerId, ListOf, NoMemory};
use std::alloc::Global;

/// Where a caller's calls begin; past the last call where it is none of these.
fn start_in(starts: &[(CallerId, usize)], all: usize, caller: CallerId) -> usize
    requires small { AreSmall starts.now }
    requires few { all < 2 ^ 63 }
    ensures value { result ≡ start_in starts.now all caller }
    ensures small { result < 2 ^ 63 }
{
    for start in starts {
        if start.0 == caller {
            return start.1;
        }
    }
    all
}

/// Adds what the actor at a place ran.
fn push_runs(
    starts: &[(CallerId, usize)],
    all: usize,
    actor: usize,
    log: &[RunItem],
    runs: &mut ListOf<Run>,
) -> Result<(), NoMemory>
    requires small { AreSmall starts.now }
    requires few { all < 2 ^ 63 }
    ensures { OnOk result (runs.new ≡ runs.old ++ map (run_by starts.now all actor) log.now) }
{
    for item in log {
        let start = start_in(starts, all, item.caller);
        runs.push(Run {
            actor,
            call: start + item.future.number() as usize,
        })?;
    }
    Ok(())
}

/// The run lists of all actors, one after the other.
pub(crate) fn runs_of<K: Actor>(
    alloc: Global,
    starts: &[(CallerId, usize)],
    all: usize,
    actors: &[Finished<K>],
) -> Result<ListOf<Run>, NoMemory>
    requires small { AreSmall starts.now }
    requires few { all < 2 ^ 63 }
    ensures { IfOk result (λ runs.
        runs ≡ runs_by starts.now all 0 (map (λ actor. end_view K.state actor.ended) actors.now)) }
{
    let mut runs = ListOf::new(alloc);
    for (place, actor) in actors.iter().enumerate() {
        push_runs(starts, all, place, actor.ended.log(), &mut runs)?;
    }
    Ok(runs)
}
