//! The command line: one word beside the program's name.
ghost use Rattle.std.specs.Prelude.{◌≡◌};
ghost use Rattle.ray_commands.specs.Command.{command_named};

use crate::status::Stop;
use act_console::ConsoleFault;
use act_histories::Reasons;
use act_rules::Mode;
use std::rt::Env;
use std::{env, io};

/// What the program does with its standard input.
#[derive(Clone, Copy, Debug, PartialEq, Eq)]
pub(crate) enum Command {
    /// Runs a script.
    Run(Mode),
    /// Runs a script for threads, and writes the run as a script of events.
    Record,
    /// Checks a history, and tells these reasons where no play ends so.
    Check(Reasons),
}

const NO_MEMORY: Stop = Stop::Console(ConsoleFault::Memory);

fn stop_of_args(error: &io::Error) -> Stop {
    match error.kind() {
        io::ErrorKind::OutOfMemory => NO_MEMORY,
        _ => Stop::Usage,
    }
}

/// The command that a word names.
fn command_of(word: &str) -> Option<Command>
    ensures { result ≡ command_named word.now }
{
    match word {
        "play" => Some(Command::Run(Mode::Play)),
        "threads" => Some(Command::Run(Mode::Threads)),
        "record" => Some(Command::Record),
        "check" => Some(Command::Check(Reasons::First)),
        "check-all" => Some(Command::Check(Reasons::All)),
        _ => None,
    }
}

/// The command that the command line names. Words that are no text are refused as others are.
pub(crate) fn read_command(rt: &(impl Env + AllocGlobal)) -> Result<Command, Stop> {
    let args = env::args(rt).map_err(|error| stop_of_args(&error))?;
    let words: Vec<String> = args.collect(rt.alloc()).map_err(|_| NO_MEMORY)?;
    if words.len() != 2 {
        return Err(Stop::Usage);
    }
    command_of(&words[1]).ok_or(Stop::Usage)
}
