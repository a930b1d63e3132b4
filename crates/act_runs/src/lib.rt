//! A script run with kinds that are made for it, for each program that runs scripts.
#![tactic(auto)]

ghost use Rattle.std.specs.Prelude.{◌≡◌};
ghost use Rattle.act_rules.specs.declared.script.Mode.TheVariants.{Play, Threads};
ghost use Rattle.act_console.specs.Console.{ScriptPlayed};
ghost use Rattle.act_console.specs.Threads.{Threaded};

use act_console::{ConsoleFault, NoGate, Stock, play_script, threads_script};
use act_kinds::{Account, Boxed, Counter, ListKind, Table};
use act_rules::Mode;
use act_types::MAX_ACTORS;
use std::io::{Read, Write};
use std::sync::Wait;
use std::thread::Threads;

/// Makes the kinds, as many of each as a script may have actors, and runs the script with them.
pub fn run_script<Rt: AllocGlobal + Threads + Wait + Sync, R: Read, W: Write>(
    rt: &Rt,
    mode: Mode,
    reader: &mut R,
    writer: &mut W,
) -> Result<(), ConsoleFault>
    ensures played { mode ≡ Play →
        ScriptPlayed (R.remaining reader.old) (R.remaining reader.new) (W.contents writer.old)
        (W.contents writer.new) result }
    ensures threaded { mode ≡ Threads →
        Threaded (R.remaining reader.old) (R.remaining reader.new) (W.contents writer.old)
        (W.contents writer.new) result }
{
    let alloc = rt.alloc();
    let mut stock = Stock {
        counters: Vec::new(alloc),
        tables: Vec::new(alloc),
        accounts: Vec::new(alloc),
        lists: Vec::new(alloc),
    };
    for _ in 0..MAX_ACTORS {
        let counter: Boxed = Box::new(alloc, Counter::open())?;
        let table: Boxed = Box::new(alloc, Table::open(alloc))?;
        let account: Boxed = Box::new(alloc, Account::open())?;
        let list: Boxed = Box::new(alloc, ListKind::open(alloc))?;
        stock.add(counter, table, account, list)?;
    }
    match mode {
        Mode::Play => play_script(alloc, stock, reader, writer),
        Mode::Threads => threads_script(rt, alloc, stock, reader, writer, &NoGate),
    }
}
