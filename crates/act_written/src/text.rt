//! A history as a text.

ghost use Rattle.std.specs.Prelude.{◌≡◌, ◌<◌, ◌≤◌, ◌+◌, ◌++◌, OnOk, IfOk, length, string_bytes};
ghost use Rattle.std.specs.List.{flat_map};
ghost use Rattle.act_orders.specs.Causes.{IsWhole};
ghost use Rattle.act_written.specs.Texts.{HasNumbers, of_each, role_line, call_lines, outcome_line, run_line_of, actor_lines, await_line, history_text, IsAt, IsPast};

use crate::lines::{push_awaits, push_call, push_end, push_outcome, push_role, push_run};
use crate::numbers::{call_numbers, next_run_number};
use act_orders::Told;
use act_types::NoMemory;
use std::alloc::Global;

/// The next run to be written, and its number in its actor's run list.
#[derive(Clone, Copy, Debug, PartialEq, Eq)]
pub(crate) struct Cursor {
    pub(crate) place: usize,
    pub(crate) number: usize,
}

fn push_roles(text: &mut String, told: &Told, names: &[usize]) -> Result<(), NoMemory>
    ensures { OnOk result (string_bytes text.new
        ≡ string_bytes text.old ++ of_each (role_line told.now names.now) (length told.now.actors)) }
{
    for place in 0..told.actors.len() {
        push_role(text, told, names, place)?;
    }
    Ok(())
}

fn push_calls(
    text: &mut String,
    told: &Told,
    names: &[usize],
    numbers: &[usize],
) -> Result<(), NoMemory>
    requires whole { IsWhole told.now }
    requires numbers { HasNumbers told.now numbers.now }
    ensures { OnOk result (string_bytes text.new
        ≡ string_bytes text.old ++ of_each (call_lines told.now names.now) (length told.now.calls)) }
{
    for place in 0..told.calls.len() {
        push_call(text, told, names, numbers, place)?;
    }
    Ok(())
}

fn push_outcomes(text: &mut String, told: &Told, numbers: &[usize]) -> Result<(), NoMemory>
    requires numbers { HasNumbers told.now numbers.now }
    ensures { OnOk result (string_bytes text.new
        ≡ string_bytes text.old ++ of_each (outcome_line told.now) (length told.now.calls)) }
{
    for place in 0..told.calls.len() {
        push_outcome(text, told, numbers, place)?;
    }
    Ok(())
}

/// The run after this one.
fn next_run(told: &Told, at: Cursor) -> Cursor
    requires at { IsAt told.now at }
    requires within { at.place < length told.now.runs }
    ensures at { IsAt told.now result }
    ensures place { result.place ≡ at.place + 1 }
{
    let count = told.runs.len();
    let place = at.place + 1;
    let number = if place < count {
        next_run_number(told, place, at.number)
    } else {
        0
    };
    Cursor { place, number }
}

/// Adds the run list of an actor, which begins at this run, and gives the first run of a later one.
fn push_runs(
    text: &mut String,
    told: &Told,
    names: &[usize],
    numbers: &[usize],
    actor: usize,
    mut at: Cursor,
) -> Result<Cursor, NoMemory>
    requires whole { IsWhole told.now }
    requires numbers { HasNumbers told.now numbers.now }
    requires at { IsAt told.now at }
    requires past { IsPast told.now actor at.place }
    requires few { actor < length told.now.actors }
    ensures lines { OnOk result (string_bytes text.new
        ≡ string_bytes text.old ++ of_each (run_line_of told.now names.now actor) (length told.now.runs)) }
    ensures at { IfOk result (λ at. IsAt told.now at) }
    ensures past { IfOk result (λ at. IsPast told.now (actor + 1) at.place) }
{
    while at.place < told.runs.len() && told.run(at.place).actor == actor {
        push_run(text, told, names, numbers, at.place, at.number)?;
        at = next_run(told, at);
    }
    Ok(at)
}

/// Adds how each actor is at the end, with its run list.
fn push_actors(
    text: &mut String,
    told: &Told,
    names: &[usize],
    numbers: &[usize],
) -> Result<(), NoMemory>
    requires whole { IsWhole told.now }
    requires numbers { HasNumbers told.now numbers.now }
    ensures { OnOk result (string_bytes text.new
        ≡ string_bytes text.old ++ of_each (actor_lines told.now names.now) (length told.now.actors)) }
{
    let mut at = Cursor {
        place: 0,
        number: 0,
    };
    for place in 0..told.actors.len() {
        push_end(text, told, names, place)?;
        at = push_runs(text, told, names, numbers, place, at)?;
    }
    Ok(())
}

/// A history as a text that `./check` reads. The number of each actor is that at its place in the list.
pub fn history_text(alloc: Global, told: &Told, names: &[usize]) -> Result<String, NoMemory>
    requires { IsWhole told.now }
    ensures { IfOk result (λ text. string_bytes text ≡ history_text told.now names.now) }
{
    let numbers = call_numbers(alloc, told)?;
    let mut text = String::new(alloc);
    text.push_str("history order\n")?;
    push_roles(&mut text, told, names)?;
    push_calls(&mut text, told, names, numbers.as_slice())?;
    push_awaits(&mut text, told, numbers.as_slice(), told.waits.as_slice())?;
    push_outcomes(&mut text, told, numbers.as_slice())?;
    push_actors(&mut text, told, names, numbers.as_slice())?;
    Ok(text)
}
