//! The numbers of calls and of runs.

ghost use Rattle.std.specs.Prelude.{◌≡◌, ◌-◌, ◌<◌, ◌≤◌, length, slice_index_or, IfOk};
ghost use Rattle.act_written.specs.Texts.{call_number, run_number, name_at, HasNumbers};

use act_orders::Told;
use act_types::NoMemory;
use std::alloc::Global;

/// The number at a place, or 0.
pub(crate) fn number_at(numbers: &[usize], place: usize) -> usize
    ensures { result ≡ slice_index_or numbers.now place 0 }
{
    match numbers.get(place) {
        Some(number) => *number,
        None => 0,
    }
}

/// The number of a call, where that of the call before is known.
fn next_call_number(told: &Told, place: usize, number: usize) -> usize
    requires later { 0 < place }
    requires within { place < length told.now.calls }
    requires few { number < place }
    requires number { number ≡ call_number told.now (place - 1) }
    ensures value { result ≡ call_number told.now place }
    ensures few { result ≤ place }
{
    if told.call(place - 1).caller == told.call(place).caller {
        number + 1
    } else {
        0
    }
}

/// The number of a run, where that of the run before is known.
pub(crate) fn next_run_number(told: &Told, place: usize, number: usize) -> usize
    requires later { 0 < place }
    requires within { place < length told.now.runs }
    requires few { number < place }
    requires number { number ≡ run_number told.now (place - 1) }
    ensures value { result ≡ run_number told.now place }
    ensures few { result ≤ place }
{
    if told.run(place - 1).actor == told.run(place).actor {
        number + 1
    } else {
        0
    }
}

/// Each call's number among its caller's calls.
pub(crate) fn call_numbers(alloc: Global, told: &Told) -> Result<Vec<usize>, NoMemory>
    ensures { IfOk result (λ numbers. HasNumbers told.now numbers.items) }
{
    let count = told.calls.len();
    let mut numbers = Vec::with_capacity(alloc, count)?;
    let mut number = 0;
    for place in 0..count {
        if place > 0 {
            number = next_call_number(told, place, number);
        }
        numbers.push(number)?;
    }
    Ok(numbers)
}
