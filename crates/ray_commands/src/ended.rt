//! What a command does, and how it ended.
ghost use Rattle.std.specs.Prelude.{◌≡◌};
ghost use Rattle.ray_commands.specs.Ended.{Obeyed, told_of};

use crate::checking::run_check;
use crate::command::Command;
use crate::recording::run_recording;
use crate::status::Stop;
use act_console::ConsoleFault;
use act_histories::CheckFault;
use act_record::{RecordingFault, Written};
use act_runs::run_script;
use std::io::{Read, Write};
use std::sync::Wait;
use std::thread::Threads;

/// How a command ended.
#[derive(Clone, Copy, Debug, PartialEq, Eq)]
pub(crate) enum Ended {
    Run(Result<(), ConsoleFault>),
    Recording(Result<Written, RecordingFault>),
    Check(Result<(), CheckFault>),
}

/// Does what a command says.
pub(crate) fn obey<Rt: AllocGlobal + Threads + Wait + Sync, R: Read, W: Write>(
    rt: &Rt,
    command: Command,
    reader: &mut R,
    writer: &mut W,
) -> Ended
    ensures { Obeyed command (R.remaining reader.old) (R.remaining reader.new) (W.contents writer.old)
        (W.contents writer.new) result }
{
    match command {
        Command::Run(mode) => Ended::Run(run_script(rt, mode, reader, writer)),
        Command::Record => Ended::Recording(run_recording(rt, reader, writer)),
        Command::Check(reasons) => Ended::Check(run_check(rt, reasons, reader, writer)),
    }
}

impl Ended {
    /// What of a recording is to be told, or why the program stops.
    pub(crate) fn told(self) -> Result<Option<Written>, Stop>
        ensures { result ≡ told_of self }
    {
        match self {
            Ended::Run(Ok(())) | Ended::Check(Ok(())) => Ok(None),
            Ended::Recording(Ok(written)) => Ok(Some(written)),
            Ended::Run(Err(fault)) => Err(Stop::Console(fault)),
            Ended::Recording(Err(fault)) => Err(Stop::Recording(fault)),
            Ended::Check(Err(fault)) => Err(Stop::Check(fault)),
        }
    }
}
