//! What must come before what happens: slots, in each of which one cause stands or none.

ghost use Rattle.std.specs.Prelude.{◌≡◌, ◌<◌, ◌↔◌, ℕ, length, slice_get, IsTrue};
ghost use Rattle.act_orders.specs.Order.{Happened};
ghost use Rattle.act_orders.specs.Causes.{IsWhole, HasPlaces, call_in, call_before, run_before, first_cause, second_cause, taken_by, slots};

use crate::{Happening, Outcome, Told};

/// Whether it happened.
pub(crate) fn has_happened(told: &Told, places: &[Option<usize>], happening: Happening) -> bool
    requires places { HasPlaces told.now told.now.runs places.now }
    requires within { call_in happening < length told.now.calls }
    ensures { IsTrue result ↔ Happened told.now happening }
{
    match happening {
        Happening::Submitted(_) => true,
        Happening::Ran(call) => places[call].is_some(),
        Happening::Answered(call) => !matches!(told.call(call).outcome, Outcome::Open),
    }
}

/// The submission before, of the same caller.
fn call_before(told: &Told, call: usize) -> Option<Happening>
    requires { call < length told.now.calls }
    ensures { result ≡ call_before told.now call }
{
    if call == 0 {
        return None;
    }
    let before = call - 1;
    if told.call(before).caller == told.call(call).caller {
        Some(Happening::Submitted(before))
    } else {
        None
    }
}

/// The run before this place, of the same actor.
fn run_before(told: &Told, place: Option<usize>) -> Option<Happening>
    requires { (i : ℕ) → place ≡ Some i → i < length told.now.runs }
    ensures { result ≡ run_before told.now place }
{
    let place = place?;
    if place == 0 {
        return None;
    }
    let before = told.run(place - 1);
    if before.actor == told.run(place).actor {
        Some(Happening::Ran(before.call))
    } else {
        None
    }
}

fn first_cause(told: &Told, places: &[Option<usize>], happening: Happening) -> Option<Happening>
    requires places { HasPlaces told.now told.now.runs places.now }
    requires within { call_in happening < length told.now.calls }
    ensures { result ≡ first_cause told.now places.now happening }
{
    match happening {
        Happening::Submitted(call) => call_before(told, call),
        Happening::Ran(call) => run_before(told, places[call]),
        Happening::Answered(call) => Some(Happening::Submitted(call)),
    }
}

fn second_cause(told: &Told, happening: Happening) -> Option<Happening>
    requires whole { IsWhole told.now }
    requires within { call_in happening < length told.now.calls }
    ensures { result ≡ second_cause told.now happening }
{
    match happening {
        Happening::Submitted(_) => None,
        Happening::Ran(call) => Some(Happening::Submitted(call)),
        Happening::Answered(call) => match told.call(call).outcome {
            Outcome::Died => {
                let last = told.last_run(told.call(call).actor)?;
                Some(Happening::Ran(last))
            }
            Outcome::Answered | Outcome::Failed | Outcome::Open => Some(Happening::Ran(call)),
        },
    }
}

/// The calls whose answers come before.
fn taken_by(told: &Told, happening: Happening) -> &[usize]
    requires { call_in happening < length told.now.calls }
    ensures { result.now ≡ taken_by told.now happening }
{
    match happening {
        Happening::Submitted(call) => told.call(call).waits.as_slice(),
        Happening::Ran(call) => told.call(call).takes.as_slice(),
        Happening::Answered(_) => &[],
    }
}

/// What stands in a slot, if there are so many.
pub(crate) fn slot_of(
    told: &Told,
    places: &[Option<usize>],
    happening: Happening,
    number: usize,
) -> Option<Option<Happening>>
    requires whole { IsWhole told.now }
    requires places { HasPlaces told.now told.now.runs places.now }
    requires within { call_in happening < length told.now.calls }
    ensures { result ≡ slice_get (slots told.now places.now happening) number }
{
    if number == 0 {
        return Some(first_cause(told, places, happening));
    }
    if number == 1 {
        return Some(second_cause(told, happening));
    }
    match taken_by(told, happening).get(number - 2) {
        Some(call) => Some(Some(Happening::Answered(*call))),
        None => None,
    }
}
