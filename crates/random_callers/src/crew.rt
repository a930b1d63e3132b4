//! Who takes part in a run: its casts and its callers.

ghost use Rattle.std.specs.Prelude.{◌≡◌, ◌<◌};

use crate::draw::Draw;
use crate::kinds::AnyKind;
use act_actor::Cast;
use act_rules::KindName;
use act_types::{ActorId, CallerId, ListOf, NoMemory};
use std::alloc::Global;

/// Callers and actors, numbered from 1 to the last one.
#[derive(Clone, Copy, Debug, PartialEq, Eq)]
pub(crate) struct Crew {
    pub(crate) callers: CallerId,
    pub(crate) actors: ActorId,
    /// How far the kinds are turned: the actors have one each in turns.
    pub(crate) turn: u32,
    /// Whether kills and ends are drawn, too.
    pub(crate) kills: bool,
    /// How many callers, the first ones, have a plan in the place of code.
    pub(crate) planned: u8,
}

impl Crew {
    /// A crew of so many callers and actors.
    pub(crate) fn draw(draw: &mut Draw, callers: CallerId, actors: ActorId) -> Crew
        ensures callers { result.callers ≡ callers }
        ensures planned { result.planned < callers }
    {
        let planned = if draw.once_in(3) {
            draw.below(callers.number() as u32) as u8
        } else {
            0
        };
        Crew {
            callers,
            actors,
            turn: draw.below(4),
            kills: draw.once_in(4),
            planned,
        }
    }

    /// Whether a caller has a plan in the place of code.
    pub(crate) fn has_plan(&self, caller: CallerId) -> bool {
        caller.number() <= self.planned
    }

    /// The kind of an actor.
    pub(crate) fn kind_of(&self, actor: ActorId) -> KindName {
        match (self.turn % 4 + actor.number() as u32) % 4 {
            0 => KindName::Counter,
            1 => KindName::Table,
            2 => KindName::Account,
            _ => KindName::ListKind,
        }
    }
}

/// The word by which scripts name a kind.
pub(crate) fn word_of(kind: KindName) -> &'static str {
    match kind {
        KindName::Counter => "counter",
        KindName::Table => "table",
        KindName::Account => "account",
        KindName::ListKind => "list",
    }
}

/// The callers of an actor: all of the first one, and of another some.
fn callers_of(
    alloc: Global,
    crew: &Crew,
    draw: &mut Draw,
    actor: ActorId,
) -> Result<ListOf<CallerId>, NoMemory> {
    let mut callers = Vec::new(alloc);
    for before in 0..crew.callers.number() {
        let caller = CallerId::new(before + 1).unwrap();
        if actor.number() == 1 || before == 0 || !draw.once_in(4) {
            callers.push(caller)?;
        }
    }
    Ok(ListOf::from_vec(callers))
}

/// A limit of one to four calls, or mostly none.
fn limit_of(draw: &mut Draw) -> Option<u32> {
    if draw.once_in(3) {
        Some(draw.below(4) + 1)
    } else {
        None
    }
}

/// The cast of each actor.
pub(crate) fn casts_of(
    alloc: Global,
    crew: &Crew,
    draw: &mut Draw,
) -> Result<Vec<Cast<AnyKind>>, NoMemory> {
    let mut casts = Vec::new(alloc);
    for before in 0..crew.actors.number() {
        let actor = ActorId::new(before + 1).unwrap();
        casts.push(Cast {
            actor,
            callers: callers_of(alloc, crew, draw, actor)?,
            kind: AnyKind::open(alloc, crew.kind_of(actor)),
            pending: limit_of(draw),
        })?;
    }
    Ok(casts)
}
