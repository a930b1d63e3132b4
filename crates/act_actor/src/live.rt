//! An actor that runs.
//!
//! `K` is the kind, mostly a box. Where a call is run, a clause names what is seen of an actor by
//! `live_view` at the kind's state.

ghost use Rattle.std.specs.Prelude.{◌≡◌, ◌≢◌, ◌<◌, ◌≤◌, ◌*◌, ◌↔◌, ◌++◌, ℕ, [], length, Some, IfOk, OnOk, IfErr, OnErr, IfSome, IfNone, IsOk, IsSome, is_some, IsTrue, Ok, Err, MatchResult};
ghost use Rattle.std.specs.Option.{option_map};
ghost use Rattle.std.specs.String.{string_bytes};
ghost use Rattle.act_types.specs.KindState.{KindState};
ghost use Rattle.act_types.specs.Texts.{state_text};
ghost use Rattle.act_rules.specs.RunList.{after_item, answer_at, has_terminated, values_of, step_of_reply, call_reply, ends_actor};
ghost use Rattle.act_rules.specs.declared.outcome.Arrival.TheVariants.{New};
ghost use Rattle.act_inbox.specs.Inbox.{IsOpened, note_of, waiting_packet, held_at, note_after, waiting_after, held_after, IsTakenIn, HoldsNone};
ghost use Rattle.act_actor.specs.Cast.{CallersDiffer};
ghost use Rattle.act_actor.specs.Actor.{item_of, reply_of_run, call_arrival_at, arrival_at, note_arrival_at, next_call, with_packet, MayRetire, RunsAtOnce, HasRunCall, HasRunFrom};
ghost use Rattle.act_actor.specs.StateViews.{live_view};
ghost use Rattle.act_types.specs.declared.call.Method.TheVariants.{Terminate};

use crate::{Dead, Retired, RunLog};
use act_inbox::Inbox;
use act_kinds::{Actor, Boxed};
use act_rules::{Arrival, RunItem};
use act_types::{
    ActorId, Answer, CallerId, CopyOf, Fault, FutureId, MAX_CALLERS, MAX_CALLS, Method, NoMemory,
    Packet, ReleaseNote, Reply, Settled, SmallList, Value,
};
use std::alloc::Global;
use std::marker::Model;
use std::slice;

/// An actor that runs: its name, the calls that it holds, those that it ran, and its kind.
#[derive(Drop)]
pub struct Live<K = Boxed, L: RunLog = Vec<RunItem>> {
    id: ActorId,
    inbox: Inbox,
    log: L,
    kind: K,
}

impl<K, L: RunLog> Model for Live<K, L> {
    ghost use Rattle.std.specs.Prelude.{◌≡◌, ◌≤◌, ◌*◌, length};
    ghost use Rattle.act_types.specs.declared.limits.TheConstants.{MAX_CALLERS, MAX_CALLS};
    ghost use Rattle.act_inbox.specs.Inbox.{handed_in_all};
    ghost use Rattle.act_actor.specs.View.{LiveView};

    ghost Value = { LiveView K };

    ghost view = { λ live. record { id = live.id; inbox = live.inbox; log = L.items live.log; state = live.kind } };

    // Each call that was handed out stands in the log, and the inbox hands out no more than that.
    ghost invariant = { λ live.
        (length (L.items live.log) ≡ handed_in_all live.inbox) ×
        (length (L.items live.log) ≤ MAX_CALLERS * MAX_CALLS) };
}

/// The item that a packet becomes in the log.
fn item_of(packet: Packet) -> RunItem
    ensures { result ≡ item_of packet }
{
    RunItem {
        caller: packet.caller,
        number: packet.number,
        future: packet.future,
        method: packet.method,
        args: packet.args,
    }
}

/// Asks the kind, or answers without it: that an argument failed, or to a `terminate`. The copies
/// of the values come first.
fn answer_of<K: Actor>(alloc: Global, kind: &mut K, packet: &Packet) -> Result<Answer, NoMemory>
    ensures answer { IfOk result (λ answer. answer ≡ (after_item (K.state kind.old) (item_of packet.now)).1) }
    ensures moved { OnOk result (K.state kind.new ≡ (after_item (K.state kind.old) (item_of packet.now)).0) }
    ensures err { OnErr result (kind.new ≡ kind.old) }
{
    if let [Settled::Good(value)] = packet.args.as_slice() {
        return match packet.method {
            Method::Terminate => Ok(Err(Fault::BadArgs)),
            _ => kind.ask(&packet.method, slice::from_ref(value)),
        };
    }
    match values_of(alloc, packet.args.as_slice())? {
        Ok(values) => match packet.method {
            Method::Terminate => Ok(answer_to_terminate(values.as_slice())),
            _ => kind.ask(&packet.method, values.as_slice()),
        },
        Err(future) => Ok(Err(Fault::Dependency(future))),
    }
}

/// Room in the log for a call, and the reply to it, which it gets there. The room comes first, and
/// then the kind's answer.
#[inline(always)]
fn log_reply<K: Actor, L: RunLog>(
    log: &mut L,
    id: ActorId,
    kind: &mut K,
    packet: &Packet,
) -> Result<Reply, NoMemory>
    requires few { length (L.items log.old) ≤ MAX_CALLERS * MAX_CALLS }
    ensures reply { IfOk result (λ reply. reply ≡ record {
      actor = id;
      caller = packet.now.caller;
      future = packet.now.future;
      place = length (L.items log.old);
      answer = (after_item (K.state kind.old) (item_of packet.now)).1;
    }) }
    ensures room { OnOk result (L.has_room log.new) }
    ensures log { L.items log.new ≡ L.items log.old }
    ensures moved { OnOk result (K.state kind.new ≡ (after_item (K.state kind.old) (item_of packet.now)).0) }
    ensures err { OnErr result (kind.new ≡ kind.old) }
{
    log.make_room(1)?;
    let answer = answer_of(log.alloc(), kind, packet)?;
    Ok(Reply {
        actor: id,
        caller: packet.caller,
        future: packet.future,
        place: log.count() as u32,
        answer,
    })
}

impl<K: Actor, L: RunLog> Live<K, L> {
    /// An actor that ran nothing, which keeps of the calls that it runs what an `L` keeps.
    pub fn open_keeping(
        alloc: Global,
        id: ActorId,
        callers: &[CallerId],
        kind: K,
    ) -> Result<Live<K, L>, NoMemory>
        requires distinct { CallersDiffer callers.now }
        ensures id { IfOk result (λ live. live.id ≡ id) }
        ensures inbox { IfOk result (λ live. IsOpened callers.now live.inbox) }
        ensures log { IfOk result (λ live. live.log ≡ []) }
        ensures kind { IfOk result (λ live. live.state ≡ kind) }
    {
        Ok(Live {
            id,
            inbox: Inbox::open(alloc, callers)?,
            log: L::open(alloc),
            kind,
        })
    }

    /// Its name.
    pub fn id(&self) -> ActorId
        ensures { result ≡ self.now.id }
    {
        self.id
    }

    /// What is kept of the calls that it ran.
    pub fn run_log(&self) -> &L
        ensures value { L.items result.now ≡ self.now.log }
    {
        &self.log
    }

    /// How many calls it ran.
    pub fn ran(&self) -> usize
        ensures value { result ≡ length self.now.log }
        ensures few { result ≤ MAX_CALLERS * MAX_CALLS }
    {
        self.log.count()
    }

    /// Its kind, to look at. Only a call that it runs changes it.
    pub fn kind(&self) -> &K
        ensures { result.now ≡ self.now.state }
    {
        &self.kind
    }

    /// Makes room for so many calls more among those that it ran, so that memory is asked for once and
    /// not call by call.
    pub fn reserve(&mut self, count: usize) -> Result<(), NoMemory>
        ensures { self.new ≡ self.old }
    {
        self.log.make_room(count)
    }

    /// Appends the state's text, or leaves the text as it was.
    pub fn state_text(&self, text: &mut String) -> Result<(), NoMemory>
        ensures ok { OnOk result
            (string_bytes text.new ≡ string_bytes text.old ++ state_text (K.state self.now.state)) }
        ensures err { OnErr result (string_bytes text.new ≡ string_bytes text.old) }
    {
        self.kind.state_text(text)
    }

    /// Takes in a packet. An `Err` hands it back for want of memory.
    pub fn arrive(&mut self, packet: Packet) -> Result<Arrival, Packet>
        ensures arrival { IfOk result (λ arrival. arrival ≡ arrival_at self.old.id self.old.inbox packet) }
        ensures same { self.new ≡ record self.old { inbox = self.new.inbox } }
        ensures lanes { self.new.inbox.lanes ≡ self.old.inbox.lanes }
        ensures notes { (caller : ℕ) → note_of self.new.inbox caller ≡ note_of self.old.inbox caller }
        ensures waiting { IfOk result (λ arrival. (caller number : ℕ) →
            waiting_packet self.new.inbox caller number ≡ waiting_after arrival packet self.old.inbox caller number) }
        ensures held { IfOk result (λ arrival. (caller number : ℕ) →
            held_at self.new.inbox caller number ≡ held_after arrival packet self.old.inbox caller number) }
        ensures elsewhere { packet.actor ≢ self.old.id → self.new ≡ self.old }
        ensures unless_new { IfOk result (λ arrival. arrival ≢ New → self.new ≡ self.old) }
        ensures memory_last { OnErr result (arrival_at self.old.id self.old.inbox packet ≡ New) }
        ensures back { IfErr result (λ back. back ≡ packet) }
        ensures err { OnErr result (self.new ≡ self.old) }
    {
        if packet.actor != self.id {
            return Ok(Arrival::Stranger);
        }
        self.inbox.arrive(packet)
    }

    /// Takes in a packet that is new to the actor. An `Err` hands it back for want of memory.
    pub fn hold(&mut self, packet: Packet) -> Result<(), Packet>
        requires is_new { arrival_at self.old.id self.old.inbox packet ≡ New }
        ensures same { self.new ≡ record self.old { inbox = self.new.inbox } }
        ensures taken { OnOk result (IsTakenIn packet New self.old.inbox self.new.inbox) }
        ensures held { OnOk result ((caller number : ℕ) →
            held_at self.new.inbox caller number ≡ held_after New packet self.old.inbox caller number) }
        ensures back { IfErr result (λ back. back ≡ packet) }
        ensures err { OnErr result (self.new ≡ self.old) }
    {
        self.inbox.hold(packet)
    }

    /// What the caller's call of this number to an actor is to this one, before its packet is taken
    /// in: the names alone tell it.
    pub fn arrival(&self, actor: ActorId, caller: CallerId, number: u32) -> Arrival
        ensures value { result ≡ call_arrival_at self.now.id self.now.inbox actor caller number }
    {
        if actor != self.id {
            return Arrival::Stranger;
        }
        self.inbox.arrival(caller, number)
    }

    /// Takes in that a caller's last handle copy is gone. Only its first note counts.
    pub fn released(&mut self, note: ReleaseNote) -> Arrival
        ensures arrival { result ≡ note_arrival_at self.old.id self.old.inbox note }
        ensures same { self.new ≡ record self.old { inbox = self.new.inbox } }
        ensures calls { (self.new.inbox.lanes ≡ self.old.inbox.lanes) × (self.new.inbox.held ≡ self.old.inbox.held) }
        ensures notes { (caller : ℕ) → note_of self.new.inbox caller ≡ note_after result note self.old.inbox caller }
        ensures unless_new { result ≢ New → self.new ≡ self.old }
    {
        if note.actor != self.id {
            return Arrival::Stranger;
        }
        self.inbox.released(note)
    }

    /// Whether the last call that ran was a `terminate` that ended the actor: one without
    /// arguments. It runs no call any more, and is to be killed by whoever holds it.
    pub fn terminated(&self) -> bool
        ensures { result ≡ has_terminated self.now.log }
    {
        self.log.has_terminated()
    }

    /// Whether it did not terminate, each caller's note came, and all calls of which it tells were
    /// run.
    pub fn drained(&self) -> bool
        ensures { IsTrue result ↔ MayRetire self.now.log self.now.inbox }
    {
        !self.terminated() && self.inbox.drained()
    }

    /// Whether the caller's next call came, and the actor did not terminate.
    pub fn has_next(&self, caller: CallerId) -> bool
        ensures { result ≡ is_some (next_call self.now.log self.now.inbox caller) }
    {
        !self.terminated() && self.inbox.has_next(caller)
    }

    /// Runs the caller's next call, if it came and the actor did not terminate.
    pub fn run(&mut self, caller: CallerId) -> Result<Option<Reply>, NoMemory>
        ensures reply { IfOk result (λ reply.
            reply ≡ option_map (reply_of_run (live_view K.state self.old))
            (next_call self.old.log self.old.inbox caller)) }
        ensures gap { IfOk result (λ reply. IfNone reply (self.new ≡ self.old)) }
        ensures ran { OnOk result (IfSome (next_call self.old.log self.old.inbox caller) (λ packet.
            HasRunCall caller packet (live_view K.state self.old) (live_view K.state self.new))) }

        // The state is what the log leaves, whatever the kind was when it was opened.
        ensures follows { OnOk result ((opening : KindState) →
            HasRunFrom opening (live_view K.state self.old) → HasRunFrom opening (live_view K.state self.new)) }
        ensures answers { IfOk result (λ reply. IfSome reply (λ reply.
            (opening : KindState) → HasRunFrom opening (live_view K.state self.old) →
            answer_at opening self.new.log reply.place ≡ Some reply.answer)) }
        ensures memory_last { OnErr result (IsSome (next_call self.old.log self.old.inbox caller)) }
        ensures err { OnErr result (self.new ≡ self.old) }
    {
        if self.terminated() {
            return Ok(None);
        }
        let Some(packet) = self.inbox.peek(caller) else {
            return Ok(None);
        };
        // Each growth comes before the kind is asked, and the call leaves the inbox after it.
        let reply = log_reply(&mut self.log, self.id, &mut self.kind, packet)?;
        let packet = self.inbox.next(caller).unwrap();
        self.log.add(item_of(packet));
        Ok(Some(reply))
    }

    /// Whether no call is held.
    pub fn holds_none(&self) -> bool
        ensures { IsTrue result ↔ HoldsNone self.now.inbox }
    {
        self.inbox.is_empty()
    }

    /// Whether the actor did not terminate, no call is held, and this one is its caller's next and
    /// new: if it arrived, it would be the one call to run.
    pub fn runs_at_once(&self, packet: &Packet) -> bool
        ensures { IsTrue result ↔ RunsAtOnce packet.now self.now.id self.now.log self.now.inbox }
    {
        if self.terminated() || !self.inbox.is_empty() {
            return false;
        }
        packet.actor == self.id && self.inbox.is_next(packet)
    }

    /// Runs a call at once, as `arrive` and then `run` do. It never stands in the inbox, each growth
    /// comes before the kind is asked, and the packet is dropped where memory is refused.
    pub fn run_now(&mut self, packet: Packet) -> Result<Reply, NoMemory>
        requires at_once { RunsAtOnce packet self.old.id self.old.log self.old.inbox }
        ensures reply { IfOk result (λ reply.
            reply ≡ reply_of_run (with_packet packet (live_view K.state self.old)) packet) }
        ensures ran { OnOk result (HasRunCall packet.caller packet
            (with_packet packet (live_view K.state self.old)) (live_view K.state self.new)) }
        ensures alone { HoldsNone self.new.inbox }
        ensures err { OnErr result (self.new ≡ self.old) }
    {
        let reply = log_reply(&mut self.log, self.id, &mut self.kind, &packet)?;
        self.inbox.pass_by(&packet);
        self.log.add(item_of(packet));
        Ok(reply)
    }

    /// Ends the actor. Its kind and the calls that it holds are dropped.
    pub fn kill(self) -> Dead<L>
        ensures { result ≡ record { id = self.id; log = self.log } }
    {
        let Live { id, log, .. } = self;
        Dead::new(id, log)
    }

    /// Ends the actor once it is drained; else an `Err` hands it back.
    pub fn retire(self) -> Result<Retired<K, L>, Live<K, L>>
        ensures when { IsOk result ↔ MayRetire self.log self.inbox }
        ensures ok { IfOk result (λ retired. retired ≡ record { id = self.id; log = self.log; state = self.state }) }
        ensures err { IfErr result (λ live. live ≡ self) }
    {
        if !self.drained() {
            return Err(self);
        }
        let Live { id, log, kind, .. } = self;
        Ok(Retired::new(id, log, kind))
    }
}

impl<K: Actor> Live<K> {
    /// An actor that ran nothing.
    pub fn open(
        alloc: Global,
        id: ActorId,
        callers: &[CallerId],
        kind: K,
    ) -> Result<Live<K>, NoMemory>
        requires distinct { CallersDiffer callers.now }
        ensures id { IfOk result (λ live. live.id ≡ id) }
        ensures inbox { IfOk result (λ live. IsOpened callers.now live.inbox) }
        ensures log { IfOk result (λ live. live.log ≡ []) }
        ensures kind { IfOk result (λ live. live.state ≡ kind) }
    {
        Live::open_keeping(alloc, id, callers, kind)
    }

    /// What it ran.
    pub fn log(&self) -> &[RunItem]
        ensures value { result.now ≡ self.now.log }
        ensures few { length result.now ≤ MAX_CALLERS * MAX_CALLS }
    {
        self.log.as_slice()
    }
}

/// Copies of the values of settled arguments, or the future of the first that failed.
#[tactic(auto, using(crate::proofs::Values::scanned))]
pub(crate) fn values_of(
    alloc: Global,
    args: &[Settled],
) -> Result<Result<SmallList<Value>, FutureId>, NoMemory>
    ensures { IfOk result (λ given.
        MatchResult given (λ values. values_of args.now ≡ Ok values) (λ future. values_of args.now ≡ Err future)) }
{
    let mut values = SmallList::with_capacity(alloc, args.len())?;
    for arg in args {
        match arg {
            Settled::Good(value) => values.push(value.copy_of(alloc)?)?,
            Settled::Bad(future) => return Ok(Err(*future)),
        }
    }
    Ok(Ok(values))
}

/// Whether a call ended the actor that ran it.
pub(crate) fn is_end(item: &RunItem) -> bool
    ensures { result ≡ ends_actor (Some item.now) }
{
    match item.method {
        Method::Terminate => item.args.as_slice().is_empty(),
        _ => false,
    }
}

/// What an actor answers to a `terminate`. Its kind isn't asked.
pub(crate) fn answer_to_terminate(values: &[Value]) -> Answer
    ensures { (state : KindState) → (state, result) ≡ step_of_reply state (call_reply state Terminate values.now) }
{
    match values {
        [] => Ok(Value::Unit),
        _ => Err(Fault::BadArgs),
    }
}
