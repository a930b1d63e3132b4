//! Runs callers by code of their own, which draw their steps by a seed and decide by what they are
//! told. Prints what each did and was told, and what all of them left.
#![tactic(auto)]

mod call;
mod coded;
mod command;
mod crew;
mod draw;
mod kinds;
mod plans;
mod stop;
mod trace;
mod turn;
mod walk;
mod walker;

use command::read_order;
use std::process::ExitCode;
use std::rt::Env;
use std::sync::Wait;
use std::thread::Threads;
use stop::{Stop, exit_code};
use turn::run_crew;

/// Runs the crew that the command line asks for.
fn run<Rt: Env + AllocGlobal + Print + Threads + Wait + Sync>(rt: &Rt) -> Result<(), Stop> {
    let order = read_order(rt)?;
    run_crew(rt, rt.alloc(), &order)
}

/// Ends with a status and, where that is not 0, one line on the standard error.
fn main(rt: HostRuntime) -> ExitCode {
    match run(&rt) {
        Ok(()) => ExitCode::SUCCESS,
        Err(stop) => {
            let _ = rt.eprintln(&stop);
            exit_code(&stop)
        }
    }
}
