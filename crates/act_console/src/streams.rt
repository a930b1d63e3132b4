//! A script's bytes from a reader, and a report's into a writer.

ghost use Rattle.std.specs.Prelude.{◌≡◌, IfOk, IfErr, OnOk, OnErr, string_bytes};
ghost use Rattle.std.specs.Io.{ReadsAtMost};
ghost use Rattle.std.specs.Io.KnownBytes.{ReadConsumes, Appends};
ghost use Rattle.act_console.specs.Input.{IsWholeInput};
ghost use Rattle.act_console.specs.Output.{IsBeforeWriting, AppendsPrefix, Wrote};
ghost use Rattle.act_rules.specs.Report.{fault_line};

use crate::fault::ConsoleFault;
use act_rules::Wrong;
use act_types::MAX_SCRIPT_BYTES;
use std::alloc::{AllocError, Global};
use std::io::{Read, Write};

/// One byte more than a script may have, so that a script that is too long is seen to be.
pub(crate) const MAX_READ: usize = MAX_SCRIPT_BYTES + 1;

const CHUNK: usize = 4096;

/// The reader's next bytes, of which there are none at its end. Any failed read is `Reading`.
fn read_some<R: Read>(reader: &mut R, chunk: &mut [u8]) -> Result<usize, ConsoleFault>
    ensures bound { ReadsAtMost result chunk.new }
    ensures bytes { ReadConsumes (R.remaining reader.old) (R.remaining reader.new) result chunk.new }
    ensures fault { IfErr result (λ fault. fault ≡ ConsoleFault.Reading) }
{
    let Ok(count) = reader.read(chunk) else {
        return Err(ConsoleFault::Reading);
    };
    Ok(count)
}

/// All that the reader has or, where it has more, its first bytes up to the limit.
pub fn read_whole<R: Read>(alloc: Global, reader: &mut R) -> Result<Vec<u8>, ConsoleFault>
    ensures ok { IfOk result (λ bytes.
        IsWholeInput MAX_READ (R.remaining reader.old) (R.remaining reader.new) bytes.items) }
    ensures err { IfErr result IsBeforeWriting }
{
    let mut bytes = Vec::new(alloc);
    let mut chunk = [0u8; CHUNK];
    while bytes.len() < MAX_READ {
        let room = CHUNK.min(MAX_READ - bytes.len());
        let count = read_some(reader, &mut chunk[..room])?;
        if count == 0 {
            break;
        }
        bytes
            .extend_from_slice(&chunk[..count])
            .map_err(|_| ConsoleFault::Memory)?;
    }
    Ok(bytes)
}

/// Writes a text whole, or a prefix of it and then fails.
pub fn write_whole<W: Write>(writer: &mut W, text: &str) -> Result<(), ConsoleFault>
    ensures ok { OnOk result (Appends (W.contents writer.old) (W.contents writer.new) text.now) }
    ensures fault { IfErr result (λ e. e ≡ ConsoleFault.Writing) }
    ensures err { OnErr result (AppendsPrefix (W.contents writer.old) (W.contents writer.new) text.now) }
{
    let mut rest = text.as_bytes();
    while !rest.is_empty() {
        match writer.write(rest) {
            Ok(0) | Err(_) => return Err(ConsoleFault::Writing),
            Ok(count) => rest = &rest[count..],
        }
    }
    Ok(())
}

/// Writes what there is to be written of a script. A refusal is told as the script's fault.
pub(crate) fn write_output<W: Write>(writer: &mut W, answer: Output) -> Result<(), ConsoleFault>
    ensures { Wrote (W.contents writer.old) (W.contents writer.new) answer result }
{
    match answer {
        Output::Report(text) => write_whole(writer, &text),
        Output::Refusal(text) => {
            write_whole(writer, &text)?;
            Err(ConsoleFault::Script)
        }
    }
}

/// What there is to be written of a script.
#[derive(Debug, Drop)]
pub(crate) enum Output {
    Report(String),
    Refusal(String),
}

/// The line of a script's fault.
pub fn refusal_of(alloc: Global, line: u32, wrong: Wrong) -> Result<String, AllocError>
    ensures { IfOk result (λ text. string_bytes text ≡ fault_line (line, wrong)) }
{
    format!(in alloc; "line {line}: {wrong}\n")
}
