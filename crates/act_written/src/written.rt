//! A history into a writer.

ghost use Rattle.std.specs.Prelude.{◌≡◌, OnOk, OnErr, IfErr};
ghost use Rattle.std.specs.Io.KnownBytes.{Appends};
ghost use Rattle.act_orders.specs.Causes.{IsWhole};
ghost use Rattle.act_written.specs.Texts.{history_text};
ghost use Rattle.act_written.specs.Output.{AppendsPrefix, Wrote};

use crate::fault::WriteFault;
use crate::text::history_text;
use act_orders::Told;
use std::alloc::Global;
use std::io::Write;

/// Writes a text whole, or a prefix of it and then fails.
fn write_whole<W: Write>(writer: &mut W, text: &str) -> Result<(), WriteFault>
    ensures ok { OnOk result (Appends (W.contents writer.old) (W.contents writer.new) text.now) }
    ensures fault { IfErr result (λ e. e ≡ WriteFault.Writing) }
    ensures err { OnErr result (AppendsPrefix (W.contents writer.old) (W.contents writer.new) text.now) }
{
    let mut rest = text.as_bytes();
    while !rest.is_empty() {
        match writer.write(rest) {
            Ok(0) | Err(_) => return Err(WriteFault::Writing),
            Ok(count) => rest = &rest[count..],
        }
    }
    Ok(())
}

/// Writes a history as a text that `./check` reads. The number of each actor is that at its place in the
/// list. The text is made whole before it is written.
pub fn write_history<W: Write>(
    alloc: Global,
    told: &Told,
    names: &[usize],
    writer: &mut W,
) -> Result<(), WriteFault>
    requires { IsWhole told.now }
    ensures { Wrote (W.contents writer.old) (W.contents writer.new) (history_text told.now names.now) result }
{
    let text = history_text(alloc, told, names)?;
    write_whole(writer, &text)
}
