//! Whether a history is whole: numbers that name calls and actors, and callers that rise.

ghost use Rattle.std.specs.Prelude.{◌≡◌, ◌<◌, ◌≤◌, ◌↔◌, ℕ, length, IsTrue, Contains};
ghost use Rattle.act_orders.specs.Causes.{IsWhole, IsEarlier, AreEarlier};
ghost use Rattle.act_orders.specs.Whole.{CallFits, RunFits, RoleFits, NumbersFit, CountFits, CallersRise, ActorsRise, Rising};

use crate::Told;

/// Less than this is the number of calls, and of those that a call waits for or takes.
const MANY: usize = 4_294_967_296;

/// Whether these are earlier calls of the caller of this call, and not too many.
fn are_earlier(told: &Told, calls: &[usize], place: usize) -> bool
    requires { place < length told.now.calls }
    ensures { IsTrue result ↔ AreEarlier told.now place calls.now }
{
    if calls.len() >= MANY {
        return false;
    }
    for call in calls {
        if !is_earlier(told, *call, place) {
            return false;
        }
    }
    true
}

fn is_earlier(told: &Told, call: usize, place: usize) -> bool
    requires { place < length told.now.calls }
    ensures { IsTrue result ↔ IsEarlier told.now place call }
{
    call < place && told.call(call).caller == told.call(place).caller
}

/// Whether the numbers of a call are those of an actor and of earlier calls of its caller.
fn call_fits(told: &Told, place: usize) -> bool
    requires { place < length told.now.calls }
    ensures { IsTrue result ↔ CallFits told.now place }
{
    let call = told.call(place);
    let has_actor = call.actor < told.actors.len();
    let waits = are_earlier(told, call.waits.as_slice(), place);
    let takes = are_earlier(told, call.takes.as_slice(), place);
    has_actor && waits && takes
}

fn calls_fit(told: &Told) -> bool
    ensures { IsTrue result ↔ ((n : ℕ) → n < length told.now.calls → CallFits told.now n) }
{
    for place in 0..told.calls.len() {
        if !call_fits(told, place) {
            return false;
        }
    }
    true
}

fn run_fits(told: &Told, place: usize) -> bool
    requires { place < length told.now.runs }
    ensures { IsTrue result ↔ RunFits told.now place }
{
    let run = told.run(place);
    run.call < told.calls.len() && run.actor < told.actors.len()
}

fn runs_fit(told: &Told) -> bool
    ensures { IsTrue result ↔ ((i : ℕ) → i < length told.now.runs → RunFits told.now i) }
{
    for place in 0..told.runs.len() {
        if !run_fits(told, place) {
            return false;
        }
    }
    true
}

fn role_fits(told: &Told, place: usize) -> bool
    requires { place < length told.now.actors }
    ensures { IsTrue result ↔ RoleFits told.now place }
{
    let callers = told.actor(place).callers.as_slice();
    !callers.is_empty() && callers.is_sorted()
}

fn roles_fit(told: &Told) -> bool
    ensures { IsTrue result ↔ ((a : ℕ) → a < length told.now.actors → RoleFits told.now a) }
{
    for place in 0..told.actors.len() {
        if !role_fits(told, place) {
            return false;
        }
    }
    true
}

fn numbers_fit(told: &Told) -> bool
    ensures { IsTrue result ↔ NumbersFit told.now }
{
    count_fits(told) && calls_fit(told) && runs_fit(told) && roles_fit(told)
}

fn count_fits(told: &Told) -> bool
    ensures { IsTrue result ↔ CountFits told.now }
{
    let count = told.calls.len();
    count < MANY && all_below(told.waits.as_slice(), count)
}

/// Whether each of these is less.
fn all_below(numbers: &[usize], bound: usize) -> bool
    ensures { IsTrue result ↔ ((k : ℕ) → Contains numbers.now k → k < bound) }
{
    for number in numbers {
        if *number >= bound {
            return false;
        }
    }
    true
}

fn callers_rise(told: &Told) -> bool
    ensures { IsTrue result ↔ CallersRise told.now }
{
    told.calls.as_slice().is_sorted_by_key(|call| call.caller)
}

fn actors_rise(told: &Told) -> bool
    ensures { IsTrue result ↔ ActorsRise told.now }
{
    told.runs.as_slice().is_sorted_by_key(|run| run.actor)
}

fn all_rise(told: &Told) -> bool
    ensures { IsTrue result ↔ Rising told.now }
{
    callers_rise(told) && actors_rise(told)
}

/// Whether a history is whole, as `judge` asks.
pub fn is_whole(told: &Told) -> bool
    ensures { IsTrue result ↔ IsWhole told.now }
{
    numbers_fit(told) && all_rise(told)
}
