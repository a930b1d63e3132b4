//! What is written of a script, with kinds that are made for each end.

ghost use Rattle.std.specs.Prelude.{◌≡◌, ◌++◌, true, false, None, IfOk, IfSome, OnOk, string_bytes};
ghost use Rattle.std.specs.BTreeSet.{contains, Updates};
ghost use Rattle.std.specs.Io.KnownBytes.{Appends};
ghost use Rattle.act_histories.specs.Checked.{IsPlayOfHistory};
ghost use Rattle.ray_explore.specs.Told.{TellsNew};

use crate::status::Stop;
use crate::told::end_text;
use act_console::{Stock, refusal_of, write_whole};
use act_ends::{End, Ends, PlansFault};
use act_kinds::{Account, Boxed, Counter, ListKind, Table};
use act_types::MAX_ACTORS;
use std::alloc::Global;
use std::io::Write;

/// The end with these lines, unless it was told before. Makes the kinds, as many of each as a script
/// may have actors.
fn add_end(
    alloc: Global,
    ends: &mut Ends,
    script: &[u8],
    lines: String,
) -> Result<Option<End>, Stop>
    ensures lines { IfOk result (λ told. IfSome told (λ end. string_bytes end.lines ≡ string_bytes lines)) }
    ensures played { IfOk result (λ told. IfSome told (λ end.
        IsPlayOfHistory (script.now ++ string_bytes end.lines) end.play.items)) }
    ensures known { IfOk result (λ told. told ≡ None → contains ⟦<String as Ord>⟧.cmp ends.old lines ≡ true) }
    ensures told { OnOk result (Updates ⟦<String as Ord>⟧.cmp ends.old ends.new lines true) }
{
    let mut stock = Stock {
        counters: Vec::new(alloc),
        tables: Vec::new(alloc),
        accounts: Vec::new(alloc),
        lists: Vec::new(alloc),
    };
    for _ in 0..MAX_ACTORS {
        let counter: Boxed = Box::new(alloc, Counter::open())?;
        let table: Boxed = Box::new(alloc, Table::open(alloc))?;
        let account: Boxed = Box::new(alloc, Account::open())?;
        let list: Boxed = Box::new(alloc, ListKind::open(alloc))?;
        stock.add(counter, table, account, list)?;
    }
    Ok(ends.add(alloc, stock, script, lines)?)
}

/// Writes bytes whole.
fn write_bytes<W: Write>(writer: &mut W, bytes: &[u8]) -> Result<(), Stop>
    ensures { OnOk result (Appends (W.contents writer.old) (W.contents writer.new) bytes.now) }
{
    match writer.write_all(bytes) {
        Ok(()) => Ok(()),
        Err(_) => Err(Stop::Writing),
    }
}

/// Writes an end with its play, unless it was told before. Whether it was new.
pub(crate) fn tell_end<W: Write>(
    alloc: Global,
    ends: &mut Ends,
    script: &[u8],
    lines: String,
    number: u64,
    writer: &mut W,
) -> Result<bool, Stop>
    ensures told { IfOk result (λ is_new.
        TellsNew script.now (string_bytes lines) is_new (W.contents writer.old) (W.contents writer.new)) }
    ensures known { IfOk result (λ is_new. is_new ≡ false → contains ⟦<String as Ord>⟧.cmp ends.old lines ≡ true) }
    ensures ends { OnOk result (Updates ⟦<String as Ord>⟧.cmp ends.old ends.new lines true) }
{
    let Some(end) = add_end(alloc, ends, script, lines)? else {
        return Ok(false);
    };
    let text = end_text(alloc, number, &end)?;
    drop(end);
    write_bytes(writer, &text)?;
    Ok(true)
}

/// Writes what is wrong with a script.
fn write_refusal<W: Write>(alloc: Global, fault: PlansFault, writer: &mut W) -> Result<(), Stop> {
    match fault {
        PlansFault::Memory => Err(Stop::Memory),
        PlansFault::Line(line, wrong) => {
            let text = refusal_of(alloc, line, wrong)?;
            write_whole(writer, &text)?;
            Ok(())
        }
    }
}

/// Writes what is wrong with a script, and says why nothing is searched.
pub(crate) fn refuse<W: Write>(alloc: Global, fault: PlansFault, writer: &mut W) -> Stop {
    match write_refusal(alloc, fault, writer) {
        Ok(()) => Stop::Script,
        Err(stop) => stop,
    }
}
