//! A history, checked with kinds that are made for it.

ghost use Rattle.act_histories.specs.Checked.{Checked};

use act_console::Stock;
use act_histories::{CheckFault, Reasons, check_history};
use act_kinds::{Account, Boxed, Counter, ListKind, Table};
use act_types::MAX_ACTORS;
use std::io::{Read, Write};

/// Makes the kinds, as many of each as a script may have actors, and checks the history with them.
/// Where no play ends so, the reasons are told as asked.
pub(crate) fn run_check<Rt: AllocGlobal, R: Read, W: Write>(
    rt: &Rt,
    reasons: Reasons,
    reader: &mut R,
    writer: &mut W,
) -> Result<(), CheckFault>
    ensures { Checked (R.remaining reader.old) (R.remaining reader.new) (W.contents writer.old)
        (W.contents writer.new) result }
{
    let alloc = rt.alloc();
    let mut stock = Stock {
        counters: Vec::new(alloc),
        tables: Vec::new(alloc),
        accounts: Vec::new(alloc),
        lists: Vec::new(alloc),
    };
    for _ in 0..MAX_ACTORS {
        let counter: Boxed = Box::new(alloc, Counter::open())?;
        let table: Boxed = Box::new(alloc, Table::open(alloc))?;
        let account: Boxed = Box::new(alloc, Account::open())?;
        let list: Boxed = Box::new(alloc, ListKind::open(alloc))?;
        stock.add(counter, table, account, list)?;
    }
    check_history(alloc, stock, reasons, reader, writer)
}
