//! A history from bytes to what is told of it.

ghost use Rattle.std.specs.Prelude.{◌≡◌, ◌++◌, [], IfOk, IfErr, OnOk, string_bytes, codes};
ghost use Rattle.std.specs.Fmt.{decimal};
ghost use Rattle.std.specs.Io.{ReadsAtMost};
ghost use Rattle.std.specs.Io.KnownBytes.{Appends, Keeps, ReadConsumes};
ghost use Rattle.act_orders.specs.Causes.{IsWhole};
ghost use Rattle.ray_orders.specs.Input.{IsWholeInput};
ghost use Rattle.ray_orders.specs.Told.{Grows, StopsReading, StopsWriting, TellsInOrder, IsJudged, IsRun, reasons_told};

use crate::command::Command;
use crate::status::Stop;
use act_orders::{
    Fault, Happening, History, MAX_BYTES, Mistake, Refused, Teller, judge, read_history,
};
use std::alloc::{AllocError, Global};
use std::io::{Read, Write};

/// One byte more than a history may have, so that one that is too long is seen to be.
const MAX_READ: usize = MAX_BYTES + 1;

const CHUNK: usize = 65_536;

/// How much text is gathered before it is written.
const MUCH: usize = 65_536;

/// The reader's next bytes, of which there are none at its end.
fn read_some<R: Read>(reader: &mut R, chunk: &mut [u8]) -> Result<usize, Stop>
    ensures bound { ReadsAtMost result chunk.new }
    ensures bytes { ReadConsumes (R.remaining reader.old) (R.remaining reader.new) result chunk.new }
    ensures stop { IfErr result (λ stop. stop ≡ Stop.Reading) }
{
    match reader.read(chunk) {
        Ok(count) => Ok(count),
        Err(_) => Err(Stop::Reading),
    }
}

/// All that the reader has or, where it has more than a history may have, its first bytes.
fn read_whole<R: Read>(alloc: Global, reader: &mut R) -> Result<Vec<u8>, Stop>
    ensures ok { IfOk result (λ bytes.
        IsWholeInput (R.remaining reader.old) (R.remaining reader.new) bytes.items) }
    ensures stop { IfErr result StopsReading }
{
    let mut bytes = Vec::new(alloc);
    let mut chunk = [0u8; CHUNK];
    while bytes.len() < MAX_READ {
        let room = CHUNK.min(MAX_READ - bytes.len());
        let count = read_some(reader, &mut chunk[..room])?;
        if count == 0 {
            break;
        }
        bytes.extend_from_slice(&chunk[..count])?;
    }
    Ok(bytes)
}

/// Writes a text, and empties it.
fn flush<W: Write>(writer: &mut W, text: &mut String) -> Result<(), Stop>
    ensures ok { OnOk result
        (Appends (W.contents writer.old) (W.contents writer.new) (string_bytes text.old)) }
    ensures stop { IfErr result (λ stop. stop ≡ Stop.Writing) }
{
    match writer.write_all(text.as_bytes()) {
        Ok(()) => {
            text.clear();
            Ok(())
        }
        Err(_) => Err(Stop::Writing),
    }
}

/// Writes a text where it is much, and empties it.
fn flush_much<W: Write>(writer: &mut W, text: &mut String) -> Result<(), Stop>
    ensures ok { OnOk result (Grows (W.contents writer.old) (W.contents writer.new)) }
    ensures stop { IfErr result (λ stop. stop ≡ Stop.Writing) }
{
    if text.len() > MUCH {
        return flush(writer, text);
    }
    Ok(())
}

/// Writes the lines of items, many at once.
fn write_each<T, W: Write, F: Fn(&mut String, &T) -> Result<(), AllocError>>(
    alloc: Global,
    items: &[T],
    push: F,
    writer: &mut W,
) -> Result<(), Stop>
    requires { F.IsAlwaysCallable push }
    ensures ok { OnOk result (Grows (W.contents writer.old) (W.contents writer.new)) }
    ensures stop { IfErr result StopsWriting }
{
    let mut text = String::new(alloc);
    for item in items {
        push(&mut text, item)?;
        flush_much(writer, &mut text)?;
    }
    flush(writer, &mut text)?;
    Ok(())
}

/// The reasons that are told: all, or the first alone.
fn told_of<T>(command: Command, reasons: &[T]) -> &[T]
    ensures { result.now ≡ reasons_told command reasons.now }
{
    match command {
        Command::All => reasons,
        Command::First | Command::Order => &reasons[..reasons.len().min(1)],
    }
}

/// The faults that are told, where these runs were.
fn faults_beside<'a>(command: Command, renamed: &[usize], faults: &'a [Fault]) -> &'a [Fault]
    ensures none { renamed.now ≡ [] → result.now ≡ reasons_told command faults.now }
    ensures all { command ≡ Command.All → result.now ≡ faults.now }
{
    match command {
        Command::All => faults,
        Command::First | Command::Order => {
            if renamed.is_empty() {
                told_of(command, faults)
            } else {
                &[]
            }
        }
    }
}

/// Writes why a history can't be read.
fn write_mistake<W: Write>(alloc: Global, mistake: Mistake, writer: &mut W) -> Result<(), Stop>
    ensures ok { OnOk result (Grows (W.contents writer.old) (W.contents writer.new)) }
    ensures stop { IfErr result StopsWriting }
{
    let mut text = format!(in alloc; "{mistake}\n")?;
    flush(writer, &mut text)?;
    Ok(())
}

/// Writes which runs tell another method than their calls, and the faults; or the first of all these.
fn write_reasons<W: Write>(
    alloc: Global,
    command: Command,
    teller: &Teller,
    faults: &[Fault],
    writer: &mut W,
) -> Result<(), Stop>
    ensures ok { OnOk result (Grows (W.contents writer.old) (W.contents writer.new)) }
    ensures stop { IfErr result StopsWriting }
{
    let renamed = told_of(command, teller.history().renamed.as_slice());
    write_each(
        alloc,
        renamed,
        |text, place| teller.push_renamed(text, *place),
        writer,
    )?;
    let faults = faults_beside(command, renamed, faults);
    write_each(
        alloc,
        faults,
        |text, fault| teller.push_fault(text, fault),
        writer,
    )?;
    Ok(())
}

/// Tells that a history of so many calls is in order, or writes its order.
fn write_in_order<W: Write>(
    alloc: Global,
    command: Command,
    count: usize,
    teller: &Teller,
    order: &[Happening],
    writer: &mut W,
) -> Result<(), Stop>
    ensures ok { OnOk result (TellsInOrder count command (W.contents writer.old) (W.contents writer.new)) }
    ensures stop { IfErr result StopsWriting }
{
    match command {
        Command::Order => write_each(
            alloc,
            order,
            |text, happening| teller.push_in_order(text, *happening),
            writer,
        ),
        Command::First | Command::All => {
            let mut text = format!(in alloc; "in order: {count} calls\n")?;
            flush(writer, &mut text)?;
            Ok(())
        }
    }
}

/// Judges a history, and tells that it is in order or why it isn't.
fn judge_history<W: Write>(
    alloc: Global,
    command: Command,
    history: History,
    writer: &mut W,
) -> Result<(), Stop>
    requires { IsWhole history.told }
    ensures { IsJudged history.told history.renamed command
        (W.contents writer.old) (W.contents writer.new) result }
{
    let count = history.told.calls.len();
    let is_renamed = !history.renamed.is_empty();
    let judged = judge(alloc, &history.told);
    let teller = Teller::new(alloc, history)?;
    match judged {
        Ok(order) => {
            if is_renamed {
                write_reasons(alloc, command, &teller, &[], writer)?;
                return Err(Stop::Refused);
            }
            write_in_order(alloc, command, count, &teller, &order, writer)
        }
        Err(Refused::Faults(faults)) => {
            write_reasons(alloc, command, &teller, faults.as_slice(), writer)?;
            Err(Stop::Refused)
        }
        Err(Refused::NoMemory) => Err(Stop::NoMemory),
    }
}

/// Reads a history, judges it, and tells that it is in order or why it isn't.
pub(crate) fn run_judging<R: Read, W: Write>(
    alloc: Global,
    command: Command,
    reader: &mut R,
    writer: &mut W,
) -> Result<(), Stop>
    ensures { IsRun command (R.remaining reader.old) (R.remaining reader.new)
        (W.contents writer.old) (W.contents writer.new) result }
{
    let bytes = read_whole(alloc, reader)?;
    let read = read_history(alloc, &bytes);
    drop(bytes);
    match read {
        Ok(history) => judge_history(alloc, command, history, writer),
        Err(Mistake::NoMemory) => Err(Stop::NoMemory),
        Err(mistake) => {
            write_mistake(alloc, mistake, writer)?;
            Err(Stop::Mistake)
        }
    }
}
