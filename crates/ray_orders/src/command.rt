//! The command line: one word beside the program's name, or none.

ghost use Rattle.std.specs.Prelude.{◌≡◌};
ghost use Rattle.ray_orders.specs.Command.{command_named};

use crate::status::Stop;
use std::rt::Env;
use std::{env, io};

/// What is told of a history.
#[derive(Clone, Copy, Debug, PartialEq, Eq)]
pub(crate) enum Command {
    /// That it is in order, or the first fault.
    First,
    /// That it is in order, or each fault.
    All,
    /// Its order, or the first fault.
    Order,
}

fn stop_of_args(error: &io::Error) -> Stop {
    match error.kind() {
        io::ErrorKind::OutOfMemory => Stop::NoMemory,
        _ => Stop::Usage,
    }
}

/// The command that a word names.
fn command_of(word: &str) -> Option<Command>
    ensures { result ≡ command_named word.now }
{
    match word {
        "--all" => Some(Command::All),
        "--order" => Some(Command::Order),
        _ => None,
    }
}

/// The command that the command line names.
pub(crate) fn read_command(rt: &(impl Env + AllocGlobal)) -> Result<Command, Stop> {
    let args = env::args(rt).map_err(|error| stop_of_args(&error))?;
    let words: Vec<String> = args.collect(rt.alloc()).map_err(|_| Stop::NoMemory)?;
    match words.len() {
        1 => Ok(Command::First),
        2 => command_of(&words[1]).ok_or(Stop::Usage),
        _ => Err(Stop::Usage),
    }
}
