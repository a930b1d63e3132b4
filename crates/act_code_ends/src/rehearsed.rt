//! The rehearsal of a caller's code, from its start to its end, or to where it stops.

ghost use Rattle.std.specs.Prelude.{◌≡◌, [], length, false, IfOk};
ghost use Rattle.act_actor.specs.Cast.{IsFitting};
ghost use Rattle.act_actor.specs.Casts.{limits_that_name};
ghost use Rattle.act_owner.specs.Owner.{opened_with};
ghost use Rattle.act_code_ends.specs.Rehearsals.{HasEnded};
ghost use Rattle.act_code_ends.specs.declared.rehearsed.Standing.TheVariants.{Ended};

use crate::rehearsal::{Pause, Rehearsal};
use act_actor::{Cast, limits_of};
use act_drive::{Code, no_step};
use act_owner::Owner;
use act_rules::Event;
use act_types::{ACTOR_NUMBERS, CallerId, NoMemory, Notice};
use std::alloc::Global;

/// How far a code is.
#[derive(Clone, Copy, Debug, PartialEq, Eq)]
pub(crate) enum Standing {
    Stopped(Pause),
    GaveUp,
    Ended,
}

/// What a rehearsal left: the caller, and what it did until the code stopped.
#[derive(Drop)]
pub(crate) struct Rehearsed {
    pub(crate) owner: Owner,
    pub(crate) events: Vec<Event>,
    pub(crate) standing: Standing,
}

/// A caller with its first handles, and with the limits of its actors.
pub(crate) fn new_owner<K>(alloc: Global, casts: &[Cast<K>], c: CallerId) -> Result<Owner, NoMemory>
    requires fit { IsFitting casts.now }
    ensures { IfOk result (λ owner. owner ≡ opened_with c (limits_that_name c casts.now)) }
{
    let limits = limits_of(alloc, casts, c)?;
    Owner::open_with(alloc, c, limits.as_slice())
}

/// How far a code is that stopped, or that came back so.
fn standing_of(pause: Option<Pause>, has_given_up: bool) -> Standing
    ensures { result ≡ Ended → has_given_up ≡ false }
{
    match pause {
        Some(pause) => Standing::Stopped(pause),
        None if has_given_up => Standing::GaveUp,
        None => Standing::Ended,
    }
}

/// Runs the code, and takes what is known beyond what it waited for.
pub(crate) fn rehearse<C: Code>(
    alloc: Global,
    owner: Owner,
    code: C,
    known: &[(u32, Notice)],
    looks: &[usize],
) -> Rehearsed
    requires calls { owner.calls ≡ [] }
    requires kept { owner.kept ≡ [] }
    ensures ended { result.standing ≡ Ended →
        HasEnded (C.tells code) owner result.owner.calls result.owner.kept }
    ensures places { length result.owner.kept ≡ length result.owner.calls }
{
    let mut code = code;
    let mut rehearsal = Rehearsal {
        alloc,
        owner,
        known,
        looks,
        taken: 0,
        looked: 0,
        kills: [0; ACTOR_NUMBERS],
        did: no_step(),
        events: Vec::new(alloc),
        pause: None,
    };
    let has_given_up = code.run(&mut rehearsal).is_err();
    rehearsal.take_some(known.len());
    let Rehearsal {
        owner,
        events,
        pause,
        ..
    } = rehearsal;
    Rehearsed {
        owner,
        events,
        standing: standing_of(pause, has_given_up),
    }
}
