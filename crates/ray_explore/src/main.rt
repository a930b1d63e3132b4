//! Tells every end of a script's plans, each with a play that leads there. The script comes on the
//! standard input, and two words say what is looked at of an end, and how many states at most.
#![tactic(auto)]

mod command;
mod exploring;
mod status;
mod telling;
mod told;
mod writing;

use command::{Command, read_command};
use exploring::explore;
use status::{Stop, exit_code};
use std::io;
use std::process::ExitCode;
use std::rt::Env;

fn run<Rt: Env + AllocGlobal + Input + Print + Eprint>(rt: &Rt) -> Result<(), Stop> {
    let command = read_command(rt)?;
    let mut reader = rt.reader();
    explore(rt, command, &mut reader, io::writer(rt))
}

/// Ends with a status and, where that isn't on the standard output, one line on the standard error.
fn main(rt: HostRuntime) -> ExitCode {
    match run(&rt) {
        Ok(()) => ExitCode::SUCCESS,
        Err(stop) => {
            if stop.is_told() {
                let _ = rt.eprintln(&stop);
            }
            exit_code(&stop)
        }
    }
}
