//! Money moved between two purses by two callers, carelessly and carefully: is any made or lost?
#![tactic(auto)]

mod checked;
mod purse;
mod purses;
mod together;
mod told;

use crate::checked::{Verdict, purse_left, run_if_kept};
use crate::purse::Purse;
use crate::purses::{Manner, Purses};
use crate::together::{Together, purse_in};
use crate::told::{tell_events, tell_purse};
use actors::{Event, Joined, Opening, World};
use anyhow::{Result, bail, ensure};
use std::alloc::Global;
use std::sync::Wait;
use std::thread::Threads;

/// The first purse holds 50.
const PURSES: Purses = Purses {
    first: 50,
    second: 0,
};

/// Prints events, and what the purses hold after them.
fn tell_changed<R: Print>(rt: &R, alloc: Global, events: &[Event]) -> Result<()> {
    tell_events(rt, alloc, events)?;
    let mut world = World::open(alloc, PURSES.open(alloc)?)?;
    ensure!(world.has_room(events.len()), "the world is full");
    let mut told = Vec::new(alloc);
    if world.play(events, &mut told).is_err() {
        bail!("no memory");
    }
    let Together { one, other, .. } = PURSES.together();
    tell_purse(rt, one, purse_in(&world, one))?;
    tell_purse(rt, other, purse_in(&world, other))
}

/// Prints what the purses hold that a run in threads left.
fn tell_kept<R: Print>(rt: &R, joined: &Joined<Purse>) -> Result<()> {
    let Together { one, other, .. } = PURSES.together();
    tell_purse(rt, one, purse_left(joined, one))?;
    tell_purse(rt, other, purse_left(joined, other))
}

/// Asks whether callers keep the sum, and prints what came of it.
fn ask<R: Print + Threads + Wait + Sync>(rt: &R, alloc: Global, manner: Manner) -> Result<()> {
    match run_if_kept(rt, alloc, &PURSES, manner)? {
        Verdict::Changed(events) => {
            println!(rt; "{manner:?}: money is made or lost")?;
            tell_changed(rt, alloc, &events)
        }
        Verdict::Kept(joined) => {
            println!(rt; "{manner:?}: money is neither made nor lost")?;
            tell_kept(rt, &joined)
        }
    }
}

fn main(rt: HostRuntime) -> Result<()> {
    ask(&rt, rt.alloc(), Manner::Careless)?;
    ask(&rt, rt.alloc(), Manner::Careful)
}
