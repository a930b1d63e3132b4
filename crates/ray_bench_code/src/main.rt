//! Measures how long a run of callers by code takes, in threads, that all add 1 to counters.
#![tactic(auto)]

mod adder;
mod turn;

use ray_bench_work::{Order, Stop, exit_code, print_turn, read_order};
use std::process::ExitCode;
use std::rt::{Clock, Env};
use std::sync::Wait;
use std::thread::Threads;
use turn::take_turn;

/// Takes the turns that the command line asks for, and prints a line for each.
fn run<Rt: Env + AllocGlobal + Clock + Print + Threads + Wait + Sync>(rt: &Rt) -> Result<(), Stop> {
    let Order { work, turns } = read_order(rt)?;
    for _ in 0..turns {
        let micros = take_turn(rt, rt.alloc(), &work)?;
        print_turn(rt, &work, micros)?;
    }
    Ok(())
}

/// Ends with a status and, where that is not 0, one line on the standard error.
fn main(rt: HostRuntime) -> ExitCode {
    match run(&rt) {
        Ok(()) => ExitCode::SUCCESS,
        Err(stop) => {
            let _ = rt.eprintln(&stop);
            exit_code(&stop)
        }
    }
}
