//! Run lists: where each call ran, and which runs aren't their callers' next calls.

ghost use Rattle.std.specs.Prelude.{◌≡◌, ◌<◌, ◌≤◌, ◌++◌, length, take, All, MatchOption, IfOk, OnOk, OnErr, option_to_list};
ghost use Rattle.act_orders.specs.Order.{call_of, calls_run, IsNext, RunsInTurn};
ghost use Rattle.act_orders.specs.Causes.{IsWhole, IsBefore, IsLast, HasBefore, HasPlaces, TurnTo, run_of};
ghost use Rattle.act_orders.specs.Faults.{IsFault};

use crate::{Fault, Told};
use act_types::{ListOf, NoMemory};
use std::alloc::Global;

/// Adds what was found, if anything was.
pub(crate) fn note(faults: &mut ListOf<Fault>, found: Option<Fault>) -> Result<(), NoMemory>
    ensures ok { OnOk result (faults.new ≡ faults.old ++ option_to_list found) }
    ensures err { OnErr result (faults.new ≡ faults.old) }
{
    match found {
        Some(fault) => {
            faults.push(fault)?;
            Ok(())
        }
        None => Ok(()),
    }
}

/// Of the last call to the same actor, whether it is the caller's.
fn call_before(told: &Told, last: Option<usize>, place: usize) -> Option<usize>
    requires whole { IsWhole told.now }
    requires within { place < length told.now.calls }
    requires last { IsLast told.now place (call_of told.now place).actor last }
    ensures { IsBefore told.now place result }
{
    match last {
        Some(last) => {
            if told.call(last).caller == told.call(place).caller {
                Some(last)
            } else {
                None
            }
        }
        None => None,
    }
}

/// For each call the one before it of the same caller to the same actor.
fn calls_before(alloc: Global, told: &Told) -> Result<Vec<Option<usize>>, NoMemory>
    requires { IsWhole told.now }
    ensures { IfOk result (λ before. HasBefore told.now before.items) }
{
    let count = told.calls.len();
    let mut before = Vec::with_capacity(alloc, count)?;
    let mut last = vec![in alloc; None; told.actors.len()]?;
    for place in 0..count {
        let actor = told.call(place).actor;
        before.push(call_before(told, last[actor], place))?;
        last[actor] = Some(place);
    }
    Ok(before)
}

/// What is wrong with a run, where the places of the calls that ran before it are known.
fn fault_of_run(
    told: &Told,
    before: &[Option<usize>],
    places: &[Option<usize>],
    place: usize,
) -> Option<Fault>
    requires whole { IsWhole told.now }
    requires within { place < length told.now.runs }
    requires before { HasBefore told.now before.now }
    requires places { HasPlaces told.now (take place told.now.runs) places.now }
    ensures { MatchOption result
        (TurnTo told.now place → IsNext told.now (take place (calls_run told.now)) (run_of told.now place))
        (IsFault told.now) }
{
    let run = told.run(place);
    if told.call(run.call).actor != run.actor {
        return Some(Fault::Strays(place));
    }
    if let Some(first) = places[run.call] {
        return Some(Fault::Again(place, first));
    }
    match before[run.call] {
        Some(before) => match places[before] {
            Some(_) => None,
            None => Some(Fault::Skips(place, before)),
        },
        None => None,
    }
}

/// Where each call ran, if it did. Faults of the run lists are added.
pub(crate) fn place_runs(
    alloc: Global,
    told: &Told,
    faults: &mut ListOf<Fault>,
) -> Result<Vec<Option<usize>>, NoMemory>
    requires whole { IsWhole told.now }
    requires so_far { All (IsFault told.now) faults.old }
    ensures places { IfOk result (λ places. HasPlaces told.now told.now.runs places.items) }
    ensures faults { OnOk result (All (IsFault told.now) faults.new) }
    ensures more { OnOk result (length faults.old ≤ length faults.new) }
    ensures runs { OnOk result (length faults.new ≡ 0 → RunsInTurn told.now) }
{
    let before = calls_before(alloc, told)?;
    let mut places = vec![in alloc; None; told.calls.len()]?;
    for place in 0..told.runs.len() {
        note(faults, fault_of_run(told, &before, &places, place))?;
        let call = told.run(place).call;
        places[call] = Some(place);
    }
    Ok(places)
}
