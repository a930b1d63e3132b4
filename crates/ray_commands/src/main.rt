//! Runs a script, records its run in threads, or checks a history, as its one word says. Each comes
//! on the standard input.
#![tactic(auto)]

mod checking;
mod command;
mod ended;
mod recording;
mod status;

use act_record::{Source, Written};
use command::read_command;
use ended::obey;
use status::{Stop, exit_code};
use std::io;
use std::process::ExitCode;
use std::rt::Env;
use std::sync::Wait;
use std::thread::Threads;

/// Says on the standard error what the play itself doesn't show.
fn tell(rt: &impl Eprint, written: Written) {
    let (source, is_long) = match written {
        Written::Play(source) => (source, false),
        Written::LongPlay(source) => (source, true),
    };
    if source == Source::Found {
        let _ = rt.eprintln("the play is found, not noted: one way in which the run can have gone");
    }
    if is_long {
        let _ = rt.eprintln("the play has more than 1048576 bytes, and can't be read again");
    }
}

fn run<Rt: Env + AllocGlobal + Input + Print + Eprint + Threads + Wait + Sync>(
    rt: &Rt,
) -> Result<(), Stop> {
    let command = read_command(rt)?;
    let mut reader = rt.reader();
    let mut writer = io::writer(rt);
    if let Some(written) = obey(rt, command, &mut reader, &mut writer).told()? {
        tell(rt, written);
    }
    Ok(())
}

/// Ends with a status and, where that isn't on the standard output, one line on the standard error.
fn main(rt: HostRuntime) -> ExitCode {
    match run(&rt) {
        Ok(()) => ExitCode::SUCCESS,
        Err(stop) => {
            if stop.is_told() {
                let _ = rt.eprintln(&stop);
            }
            exit_code(&stop)
        }
    }
}
