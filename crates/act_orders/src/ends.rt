//! Ends and answers: which calls don't stand as their actors do, and which happened without their causes.

ghost use Rattle.std.specs.Prelude.{◌≡◌, ◌≢◌, ◌<◌, ◌↔◌, ℕ, length, IsTrue, Contains, MatchOption, OnOk};
ghost use Rattle.act_orders.specs.Order.{call_of, actor_of, Happened, IsCause};
ghost use Rattle.act_orders.specs.Causes.{IsWhole, HasPlaces};
ghost use Rattle.act_orders.specs.Faults.{IsFault, Finds, Come, Runs, HasFailed, TakesGood, CallHolds, CallsHold};

use crate::runs::note;
use crate::{End, Fault, Happening, Outcome, Told};
use act_types::{ListOf, NoMemory};

/// Whether the call's caller may call its actor.
fn may_call(told: &Told, call: usize) -> bool
    requires whole { IsWhole told.now }
    requires within { call < length told.now.calls }
    ensures { IsTrue result
        ↔ Contains (actor_of told.now (call_of told.now call).actor).callers (call_of told.now call).caller }
{
    let actor = told.actor(told.call(call).actor);
    let caller = told.call(call).caller;
    actor.callers.as_slice().binary_search(&caller).is_ok()
}

/// A call of a caller that may not call its actor.
fn fault_of_role(told: &Told, call: usize) -> Option<Fault>
    requires whole { IsWhole told.now }
    requires within { call < length told.now.calls }
    ensures { MatchOption result
        (Contains (actor_of told.now (call_of told.now call).actor).callers (call_of told.now call).caller)
        (IsFault told.now) }
{
    if may_call(told, call) {
        None
    } else {
        Some(Fault::NoRole(call))
    }
}

/// A death that is told of an actor which isn't dead.
fn fault_of_death(told: &Told, call: usize) -> Option<Fault>
    requires whole { IsWhole told.now }
    requires within { call < length told.now.calls }
    ensures { MatchOption result
        ((call_of told.now call).outcome ≡ Outcome.Died →
        (actor_of told.now (call_of told.now call).actor).end ≡ End.Dead)
        (IsFault told.now) }
{
    match told.call(call).outcome {
        Outcome::Died => match told.actor(told.call(call).actor).end {
            End::Dead => None,
            End::Live | End::Retired => Some(Fault::Alive(call)),
        },
        Outcome::Answered | Outcome::Failed | Outcome::Open => None,
    }
}

/// A call that had to run, and didn't: its actor retired, or it has an answer.
fn fault_of_rest(told: &Told, places: &[Option<usize>], call: usize) -> Option<Fault>
    requires whole { IsWhole told.now }
    requires within { call < length told.now.calls }
    requires places { HasPlaces told.now told.now.runs places.now }
    ensures { MatchOption result (Runs told.now call) (IsFault told.now) }
{
    if places[call].is_some() {
        return None;
    }
    match told.actor(told.call(call).actor).end {
        End::Retired => Some(Fault::LeftOut(call)),
        End::Live | End::Dead => match told.call(call).outcome {
            Outcome::Answered | Outcome::Failed => Some(Fault::Lacks(
                Happening::Answered(call),
                Happening::Ran(call),
            )),
            Outcome::Died | Outcome::Open => None,
        },
    }
}

/// An answer that must come before what happened, and didn't.
fn fault_if_open(told: &Told, happening: Happening, call: usize) -> Option<Fault>
    requires happened { Happened told.now happening }
    requires within { call < length told.now.calls }
    requires cause { IsCause told.now (Happening.Answered call) happening }
    ensures { MatchOption result (Happened told.now (Happening.Answered call)) (IsFault told.now) }
{
    match told.call(call).outcome {
        Outcome::Open => Some(Fault::Lacks(happening, Happening::Answered(call))),
        Outcome::Answered | Outcome::Failed | Outcome::Died => None,
    }
}

/// An answer for which a caller waited after its last call, and that didn't come.
fn fault_if_awaited(told: &Told, call: usize) -> Option<Fault>
    requires within { call < length told.now.calls }
    requires awaited { Contains told.now.waits call }
    ensures { MatchOption result (Happened told.now (Happening.Answered call)) (IsFault told.now) }
{
    match told.call(call).outcome {
        Outcome::Open => Some(Fault::NoAnswer(call)),
        Outcome::Answered | Outcome::Failed | Outcome::Died => None,
    }
}

/// Adds that answers didn't come which must come before what happened.
fn note_open(
    told: &Told,
    waits: &[usize],
    happening: Happening,
    faults: &mut ListOf<Fault>,
) -> Result<(), NoMemory>
    requires happened { Happened told.now happening }
    requires within { (k : ℕ) → Contains waits.now k → k < length told.now.calls }
    requires causes { (k : ℕ) → Contains waits.now k → IsCause told.now (Happening.Answered k) happening }
    ensures { OnOk result (Finds told.now (Come told.now waits.now) faults.old faults.new) }
{
    for call in waits {
        note(faults, fault_if_open(told, happening, *call))?;
    }
    Ok(())
}

/// Adds that answers didn't come for which callers waited after their last calls.
fn note_last(told: &Told, faults: &mut ListOf<Fault>) -> Result<(), NoMemory>
    requires whole { IsWhole told.now }
    ensures { OnOk result (Finds told.now (Come told.now told.now.waits) faults.old faults.new) }
{
    for call in told.waits.as_slice() {
        note(faults, fault_if_awaited(told, *call))?;
    }
    Ok(())
}

/// Adds the answers that a call took when it ran, and that didn't come.
fn note_taken(
    told: &Told,
    places: &[Option<usize>],
    call: usize,
    faults: &mut ListOf<Fault>,
) -> Result<(), NoMemory>
    requires whole { IsWhole told.now }
    requires within { call < length told.now.calls }
    requires places { HasPlaces told.now told.now.runs places.now }
    ensures { OnOk result (Finds told.now
        (Happened told.now (Happening.Ran call) → Come told.now (call_of told.now call).takes) faults.old faults.new) }
{
    match places[call] {
        Some(_) => {
            let takes = told.call(call).takes.as_slice();
            note_open(told, takes, Happening::Ran(call), faults)?;
            Ok(())
        }
        None => Ok(()),
    }
}

/// An answer that failed, and that an answered call takes.
fn fault_if_failed(told: &Told, call: usize, taken: usize) -> Option<Fault>
    requires within { call < length told.now.calls }
    requires taken { taken < length told.now.calls }
    requires answered { (call_of told.now call).outcome ≡ Outcome.Answered }
    requires takes { Contains (call_of told.now call).takes taken }
    ensures { MatchOption result (HasFailed (call_of told.now taken).outcome → ⊥) (IsFault told.now) }
{
    match told.call(taken).outcome {
        Outcome::Failed | Outcome::Died => Some(Fault::Spoiled(call, taken)),
        Outcome::Answered | Outcome::Open => None,
    }
}

/// Adds the answers that failed, and that an answered call takes.
fn note_failed(told: &Told, call: usize, faults: &mut ListOf<Fault>) -> Result<(), NoMemory>
    requires whole { IsWhole told.now }
    requires within { call < length told.now.calls }
    requires answered { (call_of told.now call).outcome ≡ Outcome.Answered }
    ensures { OnOk result (Finds told.now (TakesGood told.now call (call_of told.now call).takes)
        faults.old faults.new) }
{
    for taken in told.call(call).takes.as_slice() {
        note(faults, fault_if_failed(told, call, *taken))?;
    }
    Ok(())
}

/// Adds the answers that failed, and that a call takes which is answered all the same.
fn note_spoiled(told: &Told, call: usize, faults: &mut ListOf<Fault>) -> Result<(), NoMemory>
    requires whole { IsWhole told.now }
    requires within { call < length told.now.calls }
    ensures { OnOk result (Finds told.now (TakesGood told.now call (call_of told.now call).takes)
        faults.old faults.new) }
{
    match told.call(call).outcome {
        Outcome::Answered => note_failed(told, call, faults),
        Outcome::Failed | Outcome::Died | Outcome::Open => Ok(()),
    }
}

/// Adds what is wrong with a call.
fn note_call(
    told: &Told,
    places: &[Option<usize>],
    call: usize,
    faults: &mut ListOf<Fault>,
) -> Result<(), NoMemory>
    requires whole { IsWhole told.now }
    requires within { call < length told.now.calls }
    requires places { HasPlaces told.now told.now.runs places.now }
    ensures { OnOk result (Finds told.now (CallHolds told.now call) faults.old faults.new) }
{
    note(faults, fault_of_role(told, call))?;
    note(faults, fault_of_death(told, call))?;
    note(faults, fault_of_rest(told, places, call))?;
    let waits = told.call(call).waits.as_slice();
    note_open(told, waits, Happening::Submitted(call), faults)?;
    note_taken(told, places, call, faults)?;
    note_spoiled(told, call, faults)?;
    Ok(())
}

/// Adds what is wrong with the calls.
pub(crate) fn note_calls(
    told: &Told,
    places: &[Option<usize>],
    faults: &mut ListOf<Fault>,
) -> Result<(), NoMemory>
    requires whole { IsWhole told.now }
    requires places { HasPlaces told.now told.now.runs places.now }
    ensures { OnOk result (Finds told.now (CallsHold told.now) faults.old faults.new) }
{
    for call in 0..told.calls.len() {
        note_call(told, places, call, faults)?;
    }
    note_last(told, faults)?;
    Ok(())
}
