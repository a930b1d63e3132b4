//! What is told of a history that no play ends as.

use crate::blocked::why_blocked;
use crate::faults::push_all_faults;
use crate::history::{History, Lines};
use crate::reached::reach;
use crate::reason::{Reasons, push_blames};
use crate::rules::push_first_fault;
use crate::values::push_difference;
use act_kinds::Actor;
use act_rules::Step;
use act_types::{CallerId, NoMemory};
use act_walks::Walked;
use std::alloc::Global;

/// Adds what no play leaves, whatever the order of its events: nothing where there is nothing.
fn push_faults(
    alloc: Global,
    text: &mut String,
    history: &History,
    reasons: Reasons,
) -> Result<(), NoMemory> {
    match reasons {
        Reasons::All => push_all_faults(alloc, text, history),
        Reasons::First => push_first_fault(alloc, text, history),
    }
}

/// Adds where no play can go on: nothing where one can.
fn push_blocked(alloc: Global, text: &mut String, history: &History) -> Result<(), NoMemory> {
    let progress = reach(alloc, history)?;
    let blames = why_blocked(alloc, history, &progress);
    drop(progress);
    push_blames(text, &blames?)?;
    Ok(())
}

/// Adds why no play ends so: what is found first of this.
fn push_reasons<K: Actor>(
    alloc: Global,
    text: &mut String,
    history: &History,
    reasons: Reasons,
    walked: &Walked<K>,
    lines: Lines<'_>,
) -> Result<(), NoMemory> {
    push_faults(alloc, text, history, reasons)?;
    if text.is_empty() {
        push_blocked(alloc, text, history)?;
    }
    if text.is_empty() {
        push_difference(alloc, text, &walked.world, history, &walked.events, lines)?;
    }
    Ok(())
}

/// Why no play ends so. The walk is what could be done of it.
pub(crate) fn why_refused<K: Actor>(
    alloc: Global,
    history: &History,
    reasons: Reasons,
    walked: &Walked<K>,
    lines: Lines<'_>,
) -> Result<String, NoMemory> {
    let mut text = String::new(alloc);
    match push_reasons(alloc, &mut text, history, reasons, walked, lines) {
        Ok(()) => Ok(text),
        Err(error) => {
            drop(text);
            Err(error)
        }
    }
}

/// The line of the caller's own step at this place.
pub(crate) fn line_of_step(steps: &[(CallerId, Step, u32)], c: CallerId, place: u32) -> u32 {
    let mut before = 0u32;
    for (caller, _, line) in steps {
        if *caller == c {
            if before == place {
                return *line;
            }
            before = before.wrapping_add(1);
        }
    }
    0
}
