//! The command line: what is looked at of an end, and how many states at most if not 100,000.

use crate::status::Stop;
use act_ends::View;
use std::rt::Env;
use std::{env, io};

/// What the program does with the script.
#[derive(Clone, Copy, Debug)]
pub(crate) struct Command {
    pub(crate) view: View,
    pub(crate) most: usize,
}

/// How many states are looked at, where the command line doesn't say.
const MOST: usize = 100_000;

fn stop_of_args(error: &io::Error) -> Stop {
    match error.kind() {
        io::ErrorKind::OutOfMemory => Stop::Memory,
        _ => Stop::Usage,
    }
}

/// The view that a word names.
fn view_of(word: &str) -> Option<View> {
    match word {
        "report" => Some(View::Report),
        "answers" => Some(View::Answers),
        "ends" => Some(View::Ends),
        _ => None,
    }
}

fn command_of(view: &str, most: usize) -> Result<Command, Stop> {
    match view_of(view) {
        Some(view) => Ok(Command { view, most }),
        None => Err(Stop::Usage),
    }
}

/// The view and the number that the command line names.
pub(crate) fn read_command(rt: &(impl Env + AllocGlobal)) -> Result<Command, Stop> {
    let args = env::args(rt).map_err(|error| stop_of_args(&error))?;
    let words: Vec<String> = args.collect(rt.alloc()).map_err(|_| Stop::Memory)?;
    match words.as_slice() {
        [_, view] => command_of(view, MOST),
        [_, view, most] => match most.parse::<usize>() {
            Ok(most) => command_of(view, most),
            Err(_) => Err(Stop::Usage),
        },
        _ => Err(Stop::Usage),
    }
}
