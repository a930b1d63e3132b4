//! The calls that an actor holds.

ghost use Rattle.std.specs.Prelude.{◌≡◌, ◌↔◌, ◌≢◌, ℕ, None, Some, slice_index_or, ◌≤◌, ◌==◌, All, AllPairs, map, position, is_some, IfOk, OnOk, IfErr, OnErr, IfSome, IfNone, option_copied, IsTrue, ◌<◌, [], find, length, if◌then◌else◌, false};
ghost use Rattle.act_rules.specs.declared.outcome.Arrival.TheVariants.{New};
ghost use Rattle.act_inbox.specs.Inbox.{InboxView, is_lane_of, is_packet_of, lane_at_first, is_listed, handed_of, note_of, waiting_packet, next_of, call_arrival, arrival_of, note_arrival, waiting_after, held_at, held_after, held_without, note_after, with_held, HoldsNone, IsNextToCome, IsOpened, IsTakenIn, IsNextTaken, IsDrained};
ghost use Rattle.act_types.specs.declared.call.Packet.{Packet};

use crate::numbered::Keys;
use act_rules::Arrival;
use act_types::{CALLER_NUMBERS, CallerId, MAX_CALLERS, MAX_CALLS, NoMemory, Packet, ReleaseNote};
use slab::Slab;
use std::alloc::{AllocError, Global};
use std::marker::Model;

/// How many calls of a caller were handed out.
#[derive(Clone, Copy)]
struct Lane {
    caller: CallerId,
    handed: u32,
}

/// The calls that came and were not handed out, for each caller how many were, and by the callers'
/// numbers what their release notes tell.
#[derive(Drop)]
pub struct Inbox {
    lanes: Vec<Lane>,
    held: HeldCalls,
    notes: [Option<u32>; CALLER_NUMBERS],
}

impl Model for Inbox {
    ghost use Rattle.act_inbox.specs.View.{InboxView, IsInbox};

    ghost Value = { InboxView };

    ghost view = { λ inbox. record { lanes = inbox.lanes.items; held = inbox.held; notes = inbox.notes } };

    ghost invariant = { λ inbox. IsInbox inbox.lanes.items inbox.held };
}

/// The place of the caller's lane.
fn place_of_lane(lanes: &[Lane], caller: CallerId) -> Option<usize>
    ensures { result ≡ position (is_lane_of caller) lanes.now }
{
    lanes.iter().position(|lane| lane.caller == caller)
}

/// Whether each lane's caller left a note of as many calls as were handed out.
fn are_done(lanes: &[Lane], notes: &[Option<u32>; CALLER_NUMBERS]) -> bool
    ensures { IsTrue result ↔ (All (λ lane. slice_index_or notes.now lane.caller None ≡ Some lane.handed) lanes.now) }
{
    lanes.iter().all(|lane| notes[lane.caller.number() as usize] == Some(lane.handed))
}

impl Inbox {
    /// An inbox for the calls of these callers.
    pub fn open(alloc: Global, callers: &[CallerId]) -> Result<Inbox, NoMemory>
        requires distinct { AllPairs (λ one other. one ≢ other) callers.now }
        ensures { IfOk result (IsOpened callers.now) }
    {
        let mut lanes = Vec::with_capacity(alloc, callers.len())?;
        for caller in callers {
            // Distinct callers are at most `MAX_CALLERS`.
            prove!(1 <= caller.number() && caller.number() <= MAX_CALLERS);
            lanes.push(Lane {
                caller: *caller,
                handed: 0,
            })?;
        }
        Ok(Inbox {
            lanes,
            held: HeldCalls::new(alloc)?,
            notes: [None; CALLER_NUMBERS],
        })
    }

    /// Takes in a packet. An `Err` hands it back for want of memory.
    pub fn arrive(&mut self, packet: Packet) -> Result<Arrival, Packet>
        ensures arrival { IfOk result (λ arrival. arrival ≡ arrival_of self.old packet) }
        ensures lanes { self.new.lanes ≡ self.old.lanes }
        ensures notes { self.new.notes ≡ self.old.notes }
        ensures waiting { IfOk result (λ arrival.
            (caller number : ℕ) → waiting_packet self.new caller number
            ≡ waiting_after arrival packet self.old caller number) }
        ensures held { IfOk result (λ arrival.
            (caller number : ℕ) → held_at self.new caller number ≡ held_after arrival packet self.old caller number) }
        ensures unless_new { IfOk result (λ arrival. arrival ≢ New → self.new ≡ self.old) }
        // Memory is asked for where the packet is new, and there alone.
        ensures memory_last { OnErr result (arrival_of self.old packet ≡ New) }
        ensures back { IfErr result (λ back. back ≡ packet) }
        ensures err { OnErr result (self.new ≡ self.old) }
    {
        let arrival = self.arrival(packet.caller, packet.number);
        let Arrival::New = arrival else {
            return Ok(arrival);
        };
        self.hold(packet)?;
        Ok(arrival)
    }

    /// Takes in a packet that is new. An `Err` hands it back for want of memory.
    pub fn hold(&mut self, packet: Packet) -> Result<(), Packet>
        requires is_new { arrival_of self.old packet ≡ New }
        ensures taken { OnOk result (IsTakenIn packet New self.old self.new) }
        ensures held { OnOk result ((caller number : ℕ) →
            held_at self.new caller number ≡ held_after New packet self.old caller number) }
        ensures back { IfErr result (λ back. back ≡ packet) }
        ensures err { OnErr result (self.new ≡ self.old) }
    {
        self.held.insert(packet)
    }

    /// What the caller's call of this number is to the inbox, before its packet is taken in: the
    /// names alone tell it. It takes no memory.
    pub fn arrival(&self, caller: CallerId, number: u32) -> Arrival
        ensures value { result ≡ call_arrival self.now caller number }
    {
        let Some(place) = place_of_lane(&self.lanes, caller) else {
            return Arrival::Stranger;
        };
        if number >= MAX_CALLS {
            return Arrival::Stranger;
        }
        if number < self.lanes[place].handed {
            return Arrival::Repeat;
        }
        match self.held.get(caller, number) {
            Some(_) => Arrival::Repeat,
            None => Arrival::New,
        }
    }

    /// Whether the caller is one of those whose calls it takes.
    fn lists(&self, caller: CallerId) -> bool
        ensures { result ≡ is_listed self.now caller }
    {
        place_of_lane(&self.lanes, caller).is_some()
    }

    /// Takes in that a caller's last handle copy is gone. Only its first note counts.
    pub fn released(&mut self, note: ReleaseNote) -> Arrival
        ensures arrival { result ≡ note_arrival self.old note }
        ensures calls { (self.new.lanes ≡ self.old.lanes) × (self.new.held ≡ self.old.held) }
        ensures notes { (caller : ℕ) → note_of self.new caller ≡ note_after result note self.old caller }
        ensures unless_new { result ≢ New → self.new ≡ self.old }
    {
        if !self.lists(note.caller) {
            return Arrival::Stranger;
        }
        let number = note.caller.number() as usize;
        if self.notes[number].is_some() {
            return Arrival::Repeat;
        }
        self.notes[number] = Some(note.after);
        Arrival::New
    }

    /// Whether each caller's note came, and all calls of which it tells were handed out.
    pub fn drained(&self) -> bool
        ensures { IsTrue result ↔ IsDrained self.now }
    {
        are_done(&self.lanes, &self.notes)
    }

    /// Whether the caller's next call came.
    pub fn has_next(&self, caller: CallerId) -> bool
        ensures { result ≡ is_some (next_of self.now caller) }
    {
        self.peek(caller).is_some()
    }

    /// The caller's next call, if it came.
    pub fn peek(&self, caller: CallerId) -> Option<&Packet>
        ensures { option_copied result ≡ next_of self.now caller }
    {
        let place = place_of_lane(&self.lanes, caller)?;
        self.held.get(caller, self.lanes[place].handed)
    }

    /// Hands out the caller's next call, if it came. It takes no memory.
    pub fn next(&mut self, caller: CallerId) -> Option<Packet>
        ensures value { result ≡ next_of self.old caller }
        ensures none { IfNone result (self.new ≡ self.old) }
        ensures taken { IfSome result (λ packet. IsNextTaken caller packet self.old self.new) }
        ensures held { IfSome result (λ packet.
            (other number : ℕ) → held_at self.new other number ≡ held_without packet self.old other number) }
    {
        let place = place_of_lane(&self.lanes, caller)?;
        let packet = self.held.remove(caller, self.lanes[place].handed)?;
        self.lanes[place].handed += 1;
        Some(packet)
    }

    /// Whether no call is held.
    pub fn is_empty(&self) -> bool
        ensures { IsTrue result ↔ HoldsNone self.now }
    {
        self.held.is_empty()
    }

    /// Whether a call is its caller's next and new, where no other is held.
    pub fn is_next(&self, packet: &Packet) -> bool
        requires { HoldsNone self.now }
        ensures { IsTrue result ↔ IsNextToCome packet.now self.now }
    {
        match place_of_lane(&self.lanes, packet.caller) {
            None => false,
            Some(place) => packet.number < MAX_CALLS && self.lanes[place].handed == packet.number,
        }
    }

    /// Takes in the caller's next call and hands it out at once, as `arrive` and then `next` do,
    /// where no other is held. The packet stays with whoever calls.
    pub fn pass_by(&mut self, packet: &Packet)
        requires empty { HoldsNone self.old }
        requires next { IsNextToCome packet.now self.old }
        ensures taken { IsNextTaken packet.now.caller packet.now (with_held packet.now self.old) self.new }
        ensures held { self.new.held ≡ self.old.held }
    {
        let place = place_of_lane(&self.lanes, packet.caller).unwrap();
        let lane = &mut self.lanes[place];
        lane.handed += 1;
    }

    /// How many calls of the caller were handed out.
    pub fn handed(&self, caller: CallerId) -> u32
        ensures value { result ≡ handed_of self.now caller }
        ensures bound { result ≤ MAX_CALLS }
    {
        match place_of_lane(&self.lanes, caller) {
            None => 0,
            Some(place) => self.lanes[place].handed,
        }
    }
}

/// The packets, and by the callers' numbers the key of each of their calls.
#[derive(Drop)]
pub(crate) struct HeldCalls {
    packets: Slab<Packet>,
    keys: Vec<Keys>,
}

impl Model for HeldCalls {
    ghost use Rattle.std.specs.Prelude.{List};
    ghost use Rattle.slab.specs.Slab.{values};
    ghost use Rattle.act_types.specs.declared.call.Packet.{Packet};
    ghost use Rattle.act_inbox.specs.View.{IsHeld};

    ghost Value = { List Packet };

    ghost view = { λ held. values held.packets };

    ghost invariant = { λ held. IsHeld held.packets held.keys.items };
}

impl HeldCalls {
    /// No calls.
    pub(crate) fn new(alloc: Global) -> Result<HeldCalls, AllocError>
        ensures { IfOk result (λ held. held ≡ []) }
    {
        let mut keys = Vec::with_capacity(alloc, CALLER_NUMBERS)?;
        for _ in 0..CALLER_NUMBERS {
            keys.push(Keys::new(alloc))?;
        }
        Ok(HeldCalls {
            packets: Slab::new(alloc),
            keys,
        })
    }

    /// Whether no call is held.
    pub(crate) fn is_empty(&self) -> bool
        ensures { IsTrue result ↔ (self.now ≡ []) }
    {
        self.packets.is_empty()
    }

    /// The caller's call of this number, if it is held.
    pub(crate) fn get(&self, caller: CallerId, number: u32) -> Option<&Packet>
        ensures { option_copied result ≡ find (is_packet_of caller number) self.now }
    {
        let key = self.keys[caller.number() as usize].get(number)?;
        self.packets.get(key)
    }

    /// Holds a call that is not held. An `Err` hands it back for want of memory.
    pub(crate) fn insert(&mut self, packet: Packet) -> Result<(), Packet>
        requires { find (is_packet_of packet.caller packet.number) self.old ≡ None }
        ensures found { OnOk result ((caller number : ℕ) → find (is_packet_of caller number) self.new
            ≡ (if is_packet_of caller number packet then Some packet else find (is_packet_of caller number) self.old)) }
        ensures numbered { packet.number < MAX_CALLS
            → All (λ each. each.number < MAX_CALLS) self.old
            → All (λ each. each.number < MAX_CALLS) self.new }
        ensures back { IfErr result (λ back. back ≡ packet) }
        ensures err { OnErr result (self.new ≡ self.old) }
    {
        if self.packets.reserve(1).is_err() {
            return Err(packet);
        }
        let key = self.packets.vacant_key();
        let index = &mut self.keys[packet.caller.number() as usize];
        if index.insert(packet.number, key).is_err() {
            return Err(packet);
        }
        self.packets.insert_reserved(packet);
        Ok(())
    }

    /// Lets go of the caller's call of this number, if it is held. It takes no memory.
    pub(crate) fn remove(&mut self, caller: CallerId, number: u32) -> Option<Packet>
        ensures value { result ≡ find (is_packet_of caller number) self.old }
        ensures others { IfSome result (λ packet. (other count : ℕ) → is_packet_of other count packet ≡ false
            → find (is_packet_of other count) self.new ≡ find (is_packet_of other count) self.old) }
        ensures gone { find (is_packet_of caller number) self.new ≡ None }
        ensures numbered { All (λ each. each.number < MAX_CALLS) self.old →
            All (λ each. each.number < MAX_CALLS) self.new }
        ensures none { IfNone result (self.new ≡ self.old) }
    {
        let key = self.keys[caller.number() as usize].remove(number)?;
        Some(self.packets.remove(key))
    }
}
