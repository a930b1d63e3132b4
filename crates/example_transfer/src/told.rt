//! What is printed: a play as the lines of a script, and what purses hold.

use crate::purse::Purse;
use actors::{ActorId, Arg, Event, NoMemory};
use anyhow::Result;
use std::alloc::Global;

/// Arguments as they are submitted, a space before each.
fn args_text(alloc: Global, args: &[Arg]) -> Result<String, NoMemory> {
    let mut text = String::new(alloc);
    for arg in args {
        match arg {
            Arg::Plain(value) => write!(text, " {value}")?,
            Arg::Fut(future) => write!(text, " @{future}")?,
        }
    }
    Ok(text)
}

/// An event as the line of a script.
fn event_text(alloc: Global, event: &Event) -> Result<String, NoMemory> {
    match event {
        Event::Submit(c, a, method, args) => {
            let args = args_text(alloc, args.as_slice())?;
            Ok(format!(in alloc; "submit {c} {a} {method}{args}")?)
        }
        Event::Copy(c, a) => Ok(format!(in alloc; "copy {c} {a}")?),
        Event::Release(c, a) => Ok(format!(in alloc; "release {c} {a}")?),
        Event::AskKill(c, a) => Ok(format!(in alloc; "kill {c} {a}")?),
        Event::Send(c, k) => Ok(format!(in alloc; "send {c} {k}")?),
        Event::Deliver(i) => Ok(format!(in alloc; "deliver {i}")?),
        Event::Run(a, c) => Ok(format!(in alloc; "run {a} {c}")?),
        Event::Collect(j) => Ok(format!(in alloc; "collect {j}")?),
        Event::TakeKill(a) => Ok(format!(in alloc; "take {a}")?),
        Event::Tell(a, c) => Ok(format!(in alloc; "tell {a} {c}")?),
        Event::Retire(a) => Ok(format!(in alloc; "retire {a}")?),
    }
}

/// Prints events.
pub fn tell_events<R: Print>(rt: &R, alloc: Global, events: &[Event]) -> Result<()> {
    for event in events {
        let line = event_text(alloc, event)?;
        println!(rt; "{line}")?;
    }
    Ok(())
}

/// Prints what an actor's purse holds, if it has one.
pub fn tell_purse<R: Print>(rt: &R, a: ActorId, purse: Option<&Purse>) -> Result<()> {
    match purse {
        Some(purse) => {
            let held = purse.held;
            println!(rt; "{a} holds {held}")?;
        }
        None => println!(rt; "{a} has no purse")?,
    }
    Ok(())
}
