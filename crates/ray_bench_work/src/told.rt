//! The line of a turn.

ghost use Rattle.std.specs.Prelude.{◌≡◌, ◌<◌, ◌*◌, ◌/◌, ◌^◌, max};

use crate::work::Work;
use std::io;

/// How many calls a second there would be.
fn rate(calls: u64, micros: u64) -> u64
    requires { calls < 2 ^ 36 }
    ensures { result ≡ calls * 1000000 / max micros 1 }
{
    calls * 1_000_000 / micros.max(1)
}

/// Prints the line of a turn.
pub fn print_turn<Rt: Print>(rt: &Rt, work: &Work, micros: u64) -> io::Result<()> {
    let calls = work.all_calls();
    let rate = rate(calls, micros);
    println!(rt; "{work}: {calls} calls, {micros} us, {rate} calls a second")
}
