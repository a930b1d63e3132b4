//! The lines of a history.

ghost use Rattle.std.specs.Prelude.{◌≡◌, ◌<◌, ◌≤◌, ◌+◌, ◌++◌, OnOk, IfOk, All, Contains, length, codes, string_bytes};
ghost use Rattle.std.specs.List.{flat_map};
ghost use Rattle.act_types.specs.Texts.{actor_text, caller_text, space};
ghost use Rattle.act_orders.specs.Order.{call_of, actor_of};
ghost use Rattle.act_orders.specs.Causes.{IsWhole, run_of};
ghost use Rattle.act_written.specs.Texts.{HasNumbers, call_name, name_at, role_word, role_line, await_line, take_word, call_lines, outcome_text, outcome_line, end_text, end_line, run_line, run_number, line};

use crate::numbers::number_at;
use act_orders::{End, Outcome, Told};
use std::alloc::AllocError;

/// Adds a caller to the line of a role.
fn push_caller(text: &mut String, caller: usize) -> Result<(), AllocError>
    ensures { OnOk result (string_bytes text.new ≡ string_bytes text.old ++ role_word caller) }
{
    write!(text, " c{caller}")
}

fn push_callers(text: &mut String, callers: &[usize]) -> Result<(), AllocError>
    ensures { OnOk result (string_bytes text.new ≡ string_bytes text.old ++ flat_map role_word callers.now) }
{
    for caller in callers {
        push_caller(text, *caller)?;
    }
    Ok(())
}

/// Adds the line of a role.
pub(crate) fn push_role(
    text: &mut String,
    told: &Told,
    names: &[usize],
    place: usize,
) -> Result<(), AllocError>
    requires { place < length told.now.actors }
    ensures { OnOk result (string_bytes text.new ≡ string_bytes text.old ++ role_line told.now names.now place) }
{
    let name = number_at(names, place);
    write!(text, "actor a{name}")?;
    push_callers(text, told.actor(place).callers.as_slice())?;
    text.push_str("\n")
}

/// Adds the line of an answer for which its caller waited.
fn push_await(
    text: &mut String,
    told: &Told,
    numbers: &[usize],
    place: usize,
) -> Result<(), AllocError>
    requires numbers { HasNumbers told.now numbers.now }
    requires within { place < length told.now.calls }
    ensures { OnOk result (string_bytes text.new ≡ string_bytes text.old ++ await_line told.now place) }
{
    let caller = told.call(place).caller;
    let number = numbers[place];
    writeln!(text, "await c{caller} {number}")
}

/// Adds a line for each answer for which a caller waited.
pub(crate) fn push_awaits(
    text: &mut String,
    told: &Told,
    numbers: &[usize],
    places: &[usize],
) -> Result<(), AllocError>
    requires numbers { HasNumbers told.now numbers.now }
    requires within { All (λ k. k < length told.now.calls) places.now }
    ensures { OnOk result (string_bytes text.new
        ≡ string_bytes text.old ++ flat_map (await_line told.now) places.now) }
{
    for place in places {
        push_await(text, told, numbers, *place)?;
    }
    Ok(())
}

/// Adds an answer that a call takes.
fn push_take(
    text: &mut String,
    told: &Told,
    numbers: &[usize],
    place: usize,
) -> Result<(), AllocError>
    requires numbers { HasNumbers told.now numbers.now }
    requires within { place < length told.now.calls }
    ensures { OnOk result (string_bytes text.new ≡ string_bytes text.old ++ take_word told.now place) }
{
    let number = numbers[place];
    write!(text, " @{number}")
}

fn push_takes(
    text: &mut String,
    told: &Told,
    numbers: &[usize],
    places: &[usize],
) -> Result<(), AllocError>
    requires numbers { HasNumbers told.now numbers.now }
    requires within { All (λ k. k < length told.now.calls) places.now }
    ensures { OnOk result (string_bytes text.new
        ≡ string_bytes text.old ++ flat_map (take_word told.now) places.now) }
{
    for place in places {
        push_take(text, told, numbers, *place)?;
    }
    Ok(())
}

/// Adds the line of a call, and before it those of the answers for which its caller waited.
pub(crate) fn push_call(
    text: &mut String,
    told: &Told,
    names: &[usize],
    numbers: &[usize],
    place: usize,
) -> Result<(), AllocError>
    requires whole { IsWhole told.now }
    requires numbers { HasNumbers told.now numbers.now }
    requires within { place < length told.now.calls }
    ensures { OnOk result (string_bytes text.new ≡ string_bytes text.old ++ call_lines told.now names.now place) }
{
    let call = told.call(place);
    let caller = call.caller;
    let name = number_at(names, call.actor);
    push_awaits(text, told, numbers, call.waits.as_slice())?;
    write!(text, "call c{caller} a{name}")?;
    push_takes(text, told, numbers, call.takes.as_slice())?;
    text.push_str("\n")
}

fn outcome_word(outcome: Outcome) -> &'static str
    ensures { result.now ≡ outcome_text outcome }
{
    match outcome {
        Outcome::Answered => "answered",
        Outcome::Failed => "failed",
        Outcome::Died => "died",
        Outcome::Open => "open",
    }
}

/// Adds what became of a call.
pub(crate) fn push_outcome(
    text: &mut String,
    told: &Told,
    numbers: &[usize],
    place: usize,
) -> Result<(), AllocError>
    requires numbers { HasNumbers told.now numbers.now }
    requires within { place < length told.now.calls }
    ensures { OnOk result (string_bytes text.new ≡ string_bytes text.old ++ outcome_line told.now place) }
{
    let call = told.call(place);
    let caller = call.caller;
    let word = outcome_word(call.outcome);
    let number = numbers[place];
    writeln!(text, "c{caller}.{number} {word}")
}

fn end_word(end: End) -> &'static str
    ensures { result.now ≡ end_text end }
{
    match end {
        End::Live => "live",
        End::Dead => "dead",
        End::Retired => "retired",
    }
}

/// Adds how an actor is at the end.
pub(crate) fn push_end(
    text: &mut String,
    told: &Told,
    names: &[usize],
    place: usize,
) -> Result<(), AllocError>
    requires { place < length told.now.actors }
    ensures { OnOk result (string_bytes text.new ≡ string_bytes text.old ++ end_line told.now names.now place) }
{
    let name = number_at(names, place);
    let word = end_word(told.actor(place).end);
    writeln!(text, "a{name} {word}")
}

/// Adds the line of a run, whose number is known.
pub(crate) fn push_run(
    text: &mut String,
    told: &Told,
    names: &[usize],
    numbers: &[usize],
    place: usize,
    number: usize,
) -> Result<(), AllocError>
    requires whole { IsWhole told.now }
    requires numbers { HasNumbers told.now numbers.now }
    requires within { place < length told.now.runs }
    requires number { number ≡ run_number told.now place }
    ensures { OnOk result (string_bytes text.new ≡ string_bytes text.old ++ run_line told.now names.now place) }
{
    let run = told.run(place);
    let name = number_at(names, run.actor);
    let caller = told.call(run.call).caller;
    let call = numbers[run.call];
    writeln!(text, "a{name}.{number} c{caller}.{call}")
}
