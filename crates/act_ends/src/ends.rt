//! Ends that are told, each with a play that ends so.

ghost use Rattle.std.specs.Prelude.{◌≡◌, ◌++◌, true, false, None, IfOk, IfSome, OnOk, OnErr, string_bytes};
ghost use Rattle.std.specs.BTreeSet.{contains, Updates, IsUnchanged, IsEmpty};
ghost use Rattle.act_console.specs.Stock.{IsReady};
ghost use Rattle.act_histories.specs.Checked.{IsPlayOfHistory};

use crate::fault::EndFault;
use act_histories::{CheckFault, Reasons, Stock, check_history};
use act_kinds::{Actor, Boxed};
use act_types::MAX_SCRIPT_BYTES;
use std::alloc::{AllocError, Global};
use std::collections::BTreeSet;
use std::marker::Model;

/// An end of a script's plans.
#[derive(Debug, Drop)]
pub struct End {
    /// What callers and actors are left with, as a report tells it.
    pub lines: String,
    /// A script of events that ends so.
    pub play: Vec<u8>,
}

/// The ends that were told so far, by their lines.
#[derive(Drop)]
pub struct Ends {
    told: BTreeSet<String>,
}

impl Model for Ends {
    ghost use Rattle.std.specs.BTreeSet.{BTreeSet};
    ghost use Rattle.std.specs.Global.{Global};
    ghost use Rattle.std.specs.Prelude.{String};

    ghost Value = { BTreeSet (String Global) };

    ghost view = { λ ends. ends.told };
}

/// The bytes of the history that has the script and these lines.
fn history_of(alloc: Global, script: &[u8], lines: &str) -> Result<Vec<u8>, AllocError>
    ensures { IfOk result (λ history. history.items ≡ script.now ++ lines.now) }
{
    let mut history = Vec::new(alloc);
    history.extend_from_slice(script)?;
    history.extend_from_slice(lines.as_bytes())?;
    Ok(history)
}

/// A play of the script that ends with these lines, checked by its rules.
fn play_of(alloc: Global, stock: Stock, script: &[u8], lines: &str) -> Result<Vec<u8>, EndFault>
    requires ready { IsReady ⟦<Boxed as Actor>⟧.state stock }
    ensures { IfOk result (λ play. IsPlayOfHistory (script.now ++ lines.now) play.items) }
{
    let history = history_of(alloc, script, lines)?;
    if history.len() > MAX_SCRIPT_BYTES {
        return Err(EndFault::Unplayed);
    }
    let mut play = Vec::new(alloc);
    let mut reader = history.as_slice();
    let checked = check_history(alloc, stock, Reasons::First, &mut reader, &mut play);
    drop(history);
    match checked {
        Ok(()) => Ok(play),
        Err(CheckFault::Memory) => Err(EndFault::Memory),
        Err(_) => Err(EndFault::Unplayed),
    }
}

impl Ends {
    /// No end is told yet.
    pub fn new(alloc: Global) -> Ends
        ensures { IsEmpty result }
    {
        Ends {
            told: BTreeSet::new(alloc),
        }
    }

    /// The end with these lines, and a play of the script that leads there; or `None` where it was
    /// told before. The kinds are taken from the stock.
    pub fn add(
        &mut self,
        alloc: Global,
        stock: Stock,
        script: &[u8],
        lines: String,
    ) -> Result<Option<End>, EndFault>
        requires ready { IsReady ⟦<Boxed as Actor>⟧.state stock }
        ensures lines { IfOk result (λ told. IfSome told (λ end. string_bytes end.lines ≡ string_bytes lines)) }
        ensures played { IfOk result (λ told. IfSome told (λ end.
            IsPlayOfHistory (script.now ++ string_bytes end.lines) end.play.items)) }
        ensures new { IfOk result (λ told. IfSome told (λ end.
            contains ⟦<String as Ord>⟧.cmp self.old lines ≡ false)) }
        ensures known { IfOk result (λ told. told ≡ None → contains ⟦<String as Ord>⟧.cmp self.old lines ≡ true) }
        ensures told { OnOk result (Updates ⟦<String as Ord>⟧.cmp self.old self.new lines true) }
        ensures err { OnErr result (IsUnchanged self.old self.new) }
    {
        let copy = String::from_str(alloc, &lines)?;
        let play = play_of(alloc, stock, script, &copy)?;
        let is_new = self.told.insert(lines)?;
        let end = if is_new {
            Some(End { lines: copy, play })
        } else {
            None
        };
        Ok(end)
    }
}
