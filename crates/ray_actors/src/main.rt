//! Runs a script of actors, which comes on the standard input, and prints its report.
//! Version 0.1.0.
#![tactic(auto)]

mod command;
mod status;

use act_runs::run_script;
use command::read_mode;
use status::{Stop, exit_code};
use std::io;
use std::process::ExitCode;
use std::rt::Env;
use std::sync::Wait;
use std::thread::Threads;

fn run<Rt: Env + AllocGlobal + Input + Print + Threads + Wait + Sync>(rt: &Rt) -> Result<(), Stop> {
    let mode = read_mode(rt)?;
    let mut reader = rt.reader();
    let mut writer = io::writer(rt);
    run_script(rt, mode, &mut reader, &mut writer)?;
    Ok(())
}

/// Ends with a status and, from 2 on, one line on the standard error.
fn main(rt: HostRuntime) -> ExitCode {
    match run(&rt) {
        Ok(()) => ExitCode::SUCCESS,
        Err(stop) => {
            if stop.is_told() {
                let _ = rt.eprintln(&stop);
            }
            exit_code(&stop)
        }
    }
}
