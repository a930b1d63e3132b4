//! The command line.
use crate::status::Stop;
use act_console::ConsoleFault;
use act_rules::Mode;
use clap::error::ErrorKind;
use clap::{Command, Error};
use std::alloc::Global;
use std::rt::Env;
use std::{env, io};

/// The mode that the words of the command line name, after the program's name.
fn mode_of(alloc: Global, words: &[String]) -> Result<Option<Mode>, Error> {
    let command = Command::new(alloc, "ray_actors")
        .subcommand_required(true)
        .subcommand(Command::new(alloc, "play"))?
        .subcommand(Command::new(alloc, "threads"))?;
    let matches = command.try_get_matches_from(words)?;
    Ok(match matches.subcommand_name() {
        Some("play") => Some(Mode::Play),
        Some("threads") => Some(Mode::Threads),
        _ => None,
    })
}

fn stop_of_words(error: &Error) -> Stop {
    match error.kind() {
        ErrorKind::OutOfMemory => Stop::Console(ConsoleFault::Memory),
        _ => Stop::Usage,
    }
}

fn stop_of_args(error: &io::Error) -> Stop {
    match error.kind() {
        io::ErrorKind::OutOfMemory => Stop::Console(ConsoleFault::Memory),
        _ => Stop::Usage,
    }
}

/// The mode that the command line names. Words that are no text are refused as others are.
pub(crate) fn read_mode(rt: &(impl Env + AllocGlobal)) -> Result<Mode, Stop> {
    let args = env::args(rt).map_err(|error| stop_of_args(&error))?;
    let words: Vec<String> = args
        .collect(rt.alloc())
        .map_err(|_| Stop::Console(ConsoleFault::Memory))?;
    // clap takes a last `--` for no word.
    if words.len() != 2 {
        return Err(Stop::Usage);
    }
    match mode_of(rt.alloc(), &words) {
        Ok(Some(mode)) => Ok(mode),
        Ok(None) => Err(Stop::Usage),
        Err(error) => Err(stop_of_words(&error)),
    }
}
