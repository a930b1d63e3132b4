//! Judges a history by its order alone. It comes on the standard input.
#![tactic(auto)]

mod command;
mod judging;
mod status;

use command::read_command;
use judging::run_judging;
use status::{Stop, exit_code};
use std::io;
use std::process::ExitCode;
use std::rt::Env;

fn run<Rt: Env + AllocGlobal + Input + Print>(rt: &Rt) -> Result<(), Stop> {
    let command = read_command(rt)?;
    let mut reader = rt.reader();
    let mut writer = io::writer(rt);
    run_judging(rt.alloc(), command, &mut reader, &mut writer)
}

/// Ends with a status and, where that isn't on the standard output, one line on the standard error.
fn main(rt: HostRuntime) -> ExitCode {
    match run(&rt) {
        Ok(()) => ExitCode::SUCCESS,
        Err(stop) => {
            if stop.is_told() {
                let _ = rt.eprintln(&stop);
            }
            exit_code(&stop)
        }
    }
}
