//! Where an actor is.

ghost use Rattle.std.specs.Prelude.{◌≡◌, ◌<◌, map, length, Some, slice_get, IfOk, OnErr, true, false};
ghost use Rattle.std.specs.Option.{option_map};
ghost use Rattle.act_rules.specs.declared.outcome.Arrival.TheVariants.{New};
ghost use Rattle.act_actor.specs.Actor.{call_arrival_at};
ghost use Rattle.act_actor.specs.StateViews.{live_view};
ghost use Rattle.act_actor.specs.View.{ActorView};
ghost use Rattle.act_world.specs.View.{Runs, slot_view, stage_view, stage_of_slot};
ghost use Rattle.act_world.specs.IsReachedBy.{is_memory};
ghost use Rattle.act_world.specs.Slots.{is_dead_slot, has_next_in_slot, HasTakenCall, IsNewCall, IsBrought, IsRun, IsRetiredIn, dead_slot, take_kill};

use crate::network::{CallKey, MailEntry, MailedNotice, Network};
use act_actor::{Dead, Live, Retired};
use act_kinds::{Actor, Boxed};
use act_rules::{Arrival, Did, HandleRefusal, Outcome, WorldRefusal};
use act_types::{ACTOR_NUMBERS, ActorId, CallerId, NoMemory, Notice};
use std::mem;

/// An actor in one of its states. A slot is vacant where there is no such actor, and while an actor
/// is moved from one state to the next.
#[derive(Drop)]
pub(crate) enum Slot<K = Boxed> {
    Live(Live<K>),
    Dead(Dead),
    Retired(Retired<K>),
    Vacant,
}

/// An actor in one of its states, lent.
#[derive(Clone, Copy)]
pub enum Stage<'a, K = Boxed> {
    Live(&'a Live<K>),
    Dead(&'a Dead),
    Retired(&'a Retired<K>),
}

/// The place of an actor's slot.
pub(crate) fn slot_of(a: ActorId) -> usize
    ensures value { result ≡ a }
    ensures below { result < ACTOR_NUMBERS }
{
    a.number() as usize
}

/// The actor's slot.
pub(crate) fn slot_at<K: Actor>(slots: &[Slot<K>; ACTOR_NUMBERS], a: ActorId) -> &Slot<K>
    ensures { slice_get (map (slot_view K.state) slots.now) a ≡ Some (slot_view K.state result.now) }
{
    &slots[slot_of(a)]
}

impl<K: Actor> Slot<K> {
    /// The actor in the state that it is in, where there is one.
    pub(crate) fn stage(&self) -> Option<Stage<'_, K>>
        ensures { option_map (stage_view K.state) result ≡ stage_of_slot (Some (slot_view K.state self.now)) }
    {
        match self {
            Slot::Live(live) => Some(Stage::Live(live)),
            Slot::Dead(dead) => Some(Stage::Dead(dead)),
            Slot::Retired(retired) => Some(Stage::Retired(retired)),
            Slot::Vacant => None,
        }
    }
}

/// Brings a letter to the actor.
pub(crate) fn bring<K: Actor>(
    network: &Network,
    slot: &mut Slot<K>,
    letter: &MailEntry,
) -> Result<Outcome, NoMemory>
    ensures ok { IfOk result
        (IsBrought network.now.owners letter.now (slot_view K.state slot.old) (slot_view K.state slot.new)) }
    ensures told { IfOk result (λ told. is_memory told ≡ false) }
    ensures refused { IfOk result (λ told. OnErr told (slot.new ≡ slot.old)) }
    // Memory is asked for where the letter is a call that the actor takes in, and there alone.
    ensures memory_last { OnErr result (IsNewCall letter.now (slot_view K.state slot.old)) }
    ensures err { OnErr result (slot.new ≡ slot.old) }
{
    let Slot::Live(live) = slot else {
        return Ok(Err(WorldRefusal::ActorEnded));
    };
    let arrival = match letter {
        MailEntry::Call(call) => take_in(network, live, call)?,
        MailEntry::Note(note) => live.released(*note),
    };
    Ok(Ok(Did::Arrived(arrival)))
}

/// The actor takes a call in. Its packet is made only where it is new.
fn take_in<K: Actor>(
    network: &Network,
    live: &mut Live<K>,
    call: &CallKey,
) -> Result<Arrival, NoMemory>
    ensures ok { IfOk result (λ arrival.
        HasTakenCall network.now.owners call.now arrival (live_view K.state live.old) (live_view K.state live.new)) }
    ensures memory_last { OnErr result
        (call_arrival_at live.old.id live.old.inbox call.now.actor call.now.caller call.now.number ≡ New) }
    ensures err { OnErr result (live.new ≡ live.old) }
{
    let arrival = live.arrival(call.actor, call.caller, call.number);
    let Arrival::New = arrival else {
        return Ok(arrival);
    };
    let packet = network.packet_of(call)?;
    let Ok(()) = live.hold(packet) else {
        return Err(NoMemory);
    };
    Ok(arrival)
}

/// Puts an actor into its slot, and lets what stood there go.
pub(crate) fn put<K: Actor>(slot: &mut Slot<K>, actor: Slot<K>)
    ensures { slot.new ≡ actor }
{
    drop(mem::replace(slot, actor));
}

/// The actor is dead. This takes no memory.
fn bury<K: Actor>(slot: &mut Slot<K>)
    ensures { (live : ActorView) → slot_view K.state slot.old ≡ Runs live →
        slot_view K.state slot.new ≡ dead_slot live }
{
    match mem::replace(slot, Slot::Vacant) {
        Slot::Live(live) => put(slot, Slot::Dead(live.kill())),
        ended => put(slot, ended),
    }
}

/// The actor runs the caller's next call, if it has arrived, and its reply is posted. Where that call
/// ended the actor, it is dead then.
pub(crate) fn run_in<K: Actor>(
    slot: &mut Slot<K>,
    c: CallerId,
    replies: &mut Vec<MailedNotice>,
) -> Result<Outcome, NoMemory>
    requires room { length replies.old.items < 4294967296 }
    ensures ok { IfOk result (IsRun c (slot_view K.state slot.old) (slot_view K.state slot.new)
        replies.old.items replies.new.items) }
    ensures refused { IfOk result (λ told.
        OnErr told ((slot.new ≡ slot.old) × (replies.new.items ≡ replies.old.items))) }
    ensures memory_last { OnErr result (has_next_in_slot c (slot_view K.state slot.old) ≡ true) }
    ensures err { OnErr result ((slot.new ≡ slot.old) × (replies.new.items ≡ replies.old.items)) }
{
    let Slot::Live(live) = slot else {
        return Ok(Err(WorldRefusal::ActorEnded));
    };
    if replies.reserve(1).is_err() {
        return if live.has_next(c) {
            Err(NoMemory)
        } else {
            Ok(Ok(Did::Gap))
        };
    }
    let Some(reply) = live.run(c)? else {
        return Ok(Ok(Did::Gap));
    };
    let place = reply.place;
    let j = replies.len() as u32;
    replies.push_reserved(MailedNotice {
        caller: c,
        notice: Notice::Answered(reply),
    });
    // An actor is moved only at its end, since each run would pay for it.
    if live.terminated() {
        bury(slot);
    }
    Ok(Ok(Did::Ran(place, j)))
}

/// Ends the actor where its kill was asked.
pub(crate) fn kill_in<K: Actor>(slot: &mut Slot<K>, asked: bool) -> Outcome
    ensures killed { (slot_view K.state slot.new, result) ≡ take_kill asked (slot_view K.state slot.old) }
    ensures told { is_memory result ≡ false }
    ensures refused { OnErr result (slot.new ≡ slot.old) }
{
    match mem::replace(slot, Slot::Vacant) {
        Slot::Live(live) => {
            if !asked {
                put(slot, Slot::Live(live));
                return Err(WorldRefusal::NoKill);
            }
            put(slot, Slot::Dead(live.kill()));
            Ok(Did::Dead)
        }
        Slot::Vacant => Err(WorldRefusal::Handle(HandleRefusal::NoActor)),
        ended => {
            put(slot, ended);
            Err(WorldRefusal::ActorEnded)
        }
    }
}

/// Whether the actor died.
pub(crate) fn is_dead_in<K: Actor>(slot: &Slot<K>) -> bool
    ensures { result ≡ is_dead_slot (slot_view K.state slot.now) }
{
    matches!(slot, Slot::Dead(_))
}

/// The actor ends by itself, where it is drained.
pub(crate) fn retire_in<K: Actor>(slot: &mut Slot<K>) -> Outcome
    ensures retired { IsRetiredIn (slot_view K.state slot.old) (slot_view K.state slot.new) result }
    ensures told { is_memory result ≡ false }
    ensures refused { OnErr result (slot.new ≡ slot.old) }
{
    match mem::replace(slot, Slot::Vacant) {
        Slot::Live(live) => match live.retire() {
            Ok(retired) => {
                put(slot, Slot::Retired(retired));
                Ok(Did::Retired)
            }
            Err(live) => {
                put(slot, Slot::Live(live));
                Err(WorldRefusal::NotDrained)
            }
        },
        Slot::Vacant => Err(WorldRefusal::Handle(HandleRefusal::NoActor)),
        ended => {
            put(slot, ended);
            Err(WorldRefusal::ActorEnded)
        }
    }
}
