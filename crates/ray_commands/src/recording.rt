//! A script's run in threads, recorded with kinds that are made for it.

ghost use Rattle.std.specs.Prelude.{◌≡◌, []};
ghost use Rattle.act_record.specs.Record.{IsRecorded};

use act_console::{NoGate, Stock};
use act_kinds::{Account, Boxed, Counter, ListKind, Table};
use act_record::{RecordingFault, Written, record_script};
use act_types::MAX_ACTORS;
use std::io::{Read, Write};
use std::sync::Wait;
use std::thread::Threads;

/// Makes the kinds, as many of each as a script may have actors, for the threads and once more for
/// the play. Then it records the script's run with them.
pub(crate) fn run_recording<Rt: AllocGlobal + Threads + Wait + Sync, R: Read, W: Write>(
    rt: &Rt,
    reader: &mut R,
    writer: &mut W,
) -> Result<Written, RecordingFault>
    ensures { IsRecorded (R.remaining reader.old) (R.remaining reader.new) (W.contents writer.old)
        (W.contents writer.new) result }
{
    let alloc = rt.alloc();
    let mut stock = Stock {
        counters: Vec::new(alloc),
        tables: Vec::new(alloc),
        accounts: Vec::new(alloc),
        lists: Vec::new(alloc),
    };
    let mut twins = Stock {
        counters: Vec::new(alloc),
        tables: Vec::new(alloc),
        accounts: Vec::new(alloc),
        lists: Vec::new(alloc),
    };
    for _ in 0..MAX_ACTORS {
        let counter: Boxed = Box::new(alloc, Counter::open())?;
        let table: Boxed = Box::new(alloc, Table::open(alloc))?;
        let account: Boxed = Box::new(alloc, Account::open())?;
        let list: Boxed = Box::new(alloc, ListKind::open(alloc))?;
        stock.add(counter, table, account, list)?;
    }
    for _ in 0..MAX_ACTORS {
        let counter: Boxed = Box::new(alloc, Counter::open())?;
        let table: Boxed = Box::new(alloc, Table::open(alloc))?;
        let account: Boxed = Box::new(alloc, Account::open())?;
        let list: Boxed = Box::new(alloc, ListKind::open(alloc))?;
        twins.add(counter, table, account, list)?;
    }
    record_script(rt, alloc, stock, twins, reader, writer, &NoGate)
}
