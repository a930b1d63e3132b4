//! A script explored.

ghost use Rattle.std.specs.Prelude.{◌≡◌, ◌+◌, ◌^◌, ◌<◌, true, false, IfOk, OnOk};
ghost use Rattle.ray_explore.specs.Told.{TellsCount, TellsMore};

use crate::command::Command;
use crate::status::Stop;
use crate::telling::tell_all;
use crate::told::{closing_states, word_of};
use crate::writing::{refuse, tell_end};
use act_console::{read_whole, write_whole};
use act_ends::{Ends, Looked, Search, Searched, View};
use std::io::{Read, Write};

/// After so many states a line on the standard error says how many there were.
const STATES_A_BEAT: usize = 4096;

/// More looks than any search takes.
const MOST_LOOKS: u64 = 1 << 62;

/// Says how far the search is, now and then.
fn beat(rt: &(impl Eprint + AllocGlobal), search: &Search, ends: u64) {
    let states = search.count();
    if states % STATES_A_BEAT == 0 {
        let _ = eprintln!(rt; "{states} states, {ends} ends");
    }
}

/// Tells what looking at a state came to, after so many ends. How many ends there are then.
fn tell_looked<Rt: AllocGlobal + Eprint, W: Write>(
    rt: &Rt,
    ends: &mut Ends,
    search: &Search,
    looked: Looked,
    count: u64,
    writer: &mut W,
) -> Result<u64, Stop>
    requires few { count + 1 < 2 ^ 64 }
    ensures { IfOk result (λ after.
        TellsMore search.now.script count after (W.contents writer.old) (W.contents writer.new)) }
{
    match looked {
        Looked::Nothing => Ok(count),
        Looked::State => {
            beat(rt, search, count);
            Ok(count)
        }
        Looked::End(lines) => {
            let number = count + 1;
            if tell_end(rt.alloc(), ends, search.script(), lines, number, writer)? {
                Ok(number)
            } else {
                Ok(count)
            }
        }
    }
}

/// Searches as far as it may, and writes each end. How many there were.
fn tell_ends<Rt: AllocGlobal + Eprint, W: Write>(
    rt: &Rt,
    search: &mut Search,
    most: usize,
    writer: &mut W,
) -> Result<u64, Stop>
    ensures told { IfOk result (λ count.
        TellsCount search.old.script count (W.contents writer.old) (W.contents writer.new)) }
    ensures script { search.new.script ≡ search.old.script }
{
    let mut ends = Ends::new(rt.alloc());
    let mut count = 0u64;
    for _ in 0..MOST_LOOKS {
        if search.left() == 0 || search.count() >= most {
            break;
        }
        let looked = search.look()?;
        count = tell_looked(rt, &mut ends, search, looked, count, writer)?;
    }
    drop(ends);
    Ok(count)
}

/// Whether all was searched.
fn is_whole(search: &Search) -> bool
    ensures { result ≡ true → (search.now.left ≡ 0) × (search.now.has_lost ≡ false) }
{
    match search.searched() {
        Searched::Whole => true,
        Searched::Part => false,
    }
}

/// Writes each end of a search, and whether it is whole.
fn explore_from<Rt: AllocGlobal + Eprint, W: Write>(
    rt: &Rt,
    search: &mut Search,
    most: usize,
    writer: &mut W,
) -> Result<(), Stop>
    ensures { OnOk result ((search.new.left ≡ 0) × (search.new.has_lost ≡ false)) }
{
    let count = tell_ends(rt, search, most, writer)?;
    let is_whole = is_whole(search);
    let line = closing_states(rt.alloc(), word_of(is_whole), count, search.count())?;
    write_whole(writer, &line)?;
    if is_whole { Ok(()) } else { Err(Stop::Cut) }
}

/// Searches for the ends of the plans that bytes spell, as the view shows them, and writes each.
fn explore_view<Rt: AllocGlobal + Eprint, W: Write>(
    rt: &Rt,
    command: Command,
    bytes: &[u8],
    writer: &mut W,
) -> Result<(), Stop> {
    let alloc = rt.alloc();
    match Search::open(alloc, bytes, command.view) {
        Ok(mut search) => {
            let told = explore_from(rt, &mut search, command.most, writer);
            drop(search);
            told
        }
        Err(fault) => Err(refuse(alloc, fault, writer)),
    }
}

/// Reads a script to its end, and writes each end of its plans with a play that leads there. Where the
/// view is of reports, all ends are written.
pub(crate) fn explore<Rt: AllocGlobal + Eprint, R: Read, W: Write + Drop>(
    rt: &Rt,
    command: Command,
    reader: &mut R,
    writer: W,
) -> Result<(), Stop> {
    let bytes = read_whole(rt.alloc(), reader)?;
    let (told, writer) = match command.view {
        View::Report => tell_all(rt.alloc(), &bytes, command.most, writer),
        View::Answers | View::Ends => {
            let mut writer = writer;
            let told = explore_view(rt, command, &bytes, &mut writer);
            (told, writer)
        }
    };
    drop(bytes);
    drop(writer);
    told
}
