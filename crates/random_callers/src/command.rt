//! The command line.

use crate::stop::Stop;
use act_types::{ActorId, CallerId};
use std::env;
use std::rt::Env;

/// What the command line asks for: callers and actors numbered from 1 to the last one, and how many
/// steps each caller takes.
#[derive(Clone, Copy, Debug, PartialEq, Eq)]
pub(crate) struct Order {
    pub(crate) seed: u64,
    pub(crate) callers: CallerId,
    pub(crate) actors: ActorId,
    pub(crate) steps: u32,
}

fn last_caller(word: &str) -> Option<CallerId> {
    CallerId::new(word.parse().ok()?)
}

fn last_actor(word: &str) -> Option<ActorId> {
    ActorId::new(word.parse().ok()?)
}

/// What the words of the command line ask for, the program's name among them.
fn order_of(words: &[String]) -> Option<Order> {
    let [_, seed, callers, actors, steps] = words else {
        return None;
    };
    Some(Order {
        seed: seed.parse().ok()?,
        callers: last_caller(callers)?,
        actors: last_actor(actors)?,
        steps: steps.parse().ok()?,
    })
}

/// What the command line asks for. Words that are no text are refused as others are.
pub(crate) fn read_order(rt: &(impl Env + AllocGlobal)) -> Result<Order, Stop> {
    let args = env::args(rt).map_err(|_| Stop::Usage)?;
    let words: Vec<String> = args.collect(rt.alloc()).map_err(|_| Stop::Memory)?;
    order_of(&words).ok_or(Stop::Usage)
}
