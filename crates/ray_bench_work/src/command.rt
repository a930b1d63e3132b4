//! The command line.

use crate::stop::Stop;
use crate::work::{Reach, Style, Work};
use act_types::{ActorId, CallerId, MAX_CALLS};
use std::env;
use std::rt::Env;

/// What the command line asks for.
#[derive(Clone, Copy, Debug, PartialEq, Eq)]
pub struct Order {
    pub work: Work,
    pub turns: u32,
}

fn last_caller(word: &str) -> Option<CallerId> {
    CallerId::new(word.parse().ok()?)
}

fn last_actor(word: &str) -> Option<ActorId> {
    ActorId::new(word.parse().ok()?)
}

fn calls_of(word: &str) -> Option<u32> {
    let calls = word.parse::<u32>().ok()?;
    if calls <= MAX_CALLS {
        Some(calls)
    } else {
        None
    }
}

fn style_of(word: &str) -> Option<Style> {
    match word {
        "wait" => Some(Style::Wait),
        "future" => Some(Style::Future),
        _ => None,
    }
}

fn reach_of(word: &str) -> Option<Reach> {
    match word {
        "own" => Some(Reach::Own),
        "both" => Some(Reach::Both),
        _ => None,
    }
}

/// What the words of the command line ask for, the program's name among them.
fn order_of(words: &[String]) -> Option<Order> {
    let [_, callers, actors, calls, style, reach, turns] = words else {
        return None;
    };
    let work = Work {
        callers: last_caller(callers)?,
        actors: last_actor(actors)?,
        calls: calls_of(calls)?,
        style: style_of(style)?,
        reach: reach_of(reach)?,
    };
    let turns = turns.parse().ok()?;
    Some(Order { work, turns })
}

/// What the command line asks for. Words that are no text are refused as others are.
pub fn read_order(rt: &(impl Env + AllocGlobal)) -> Result<Order, Stop> {
    let args = env::args(rt).map_err(|_| Stop::Usage)?;
    let words: Vec<String> = args.collect(rt.alloc()).map_err(|_| Stop::Memory)?;
    order_of(&words).ok_or(Stop::Usage)
}
