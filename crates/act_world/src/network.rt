//! The callers, and what is on its way between them and the actors.

ghost use Rattle.std.specs.Prelude.{◌≡◌, IfOk, OnErr, IfSome, Some, Ok, Err, find, position, option_copied, slice_get, unwrap_or, false, ◌≢◌, OnOk, IfNone};
ghost use Rattle.std.specs.Option.{option_map};
ghost use Rattle.act_world.specs.Network.{is_owner, naming_refusal, entry_actor, IsReplyNotice, packet_in, named_as, told_collected};
ghost use Rattle.act_world.specs.IsReachedBy.{is_memory, HasRoom, IsUnrefusedThere};
ghost use Rattle.act_types.specs.declared.call.Method.{Method};
ghost use Rattle.act_rules.specs.declared.outcome.SubmitRefusal.TheVariants.{NoMemory as NoRoom};
ghost use Rattle.act_rules.specs.declared.outcome.SendRefusal.{SendRefusal};
ghost use Rattle.act_rules.specs.declared.outcome.WorldRefusal.TheVariants.{Submit, Sending};
ghost use Rattle.act_owner.specs.Owner.{sending_refusal};
ghost use Rattle.act_world.specs.Steps.{StepsThere};
ghost use Rattle.act_rules.specs.declared.event.Event.TheVariants as event;

use act_owner::{Collected, Owner};
use act_rules::{Did, Event, HandleRefusal, Outcome, SubmitRefusal, WorldRefusal};
use act_types::{
    ACTOR_NUMBERS, ActorId, Arg, CALLER_NUMBERS, CallerId, CopyOf, FutureId, ListOf, MAX_CALLS,
    Method, NoMemory, Notice, Packet, ReleaseNote,
};
use std::alloc::Global;
use std::marker::Model;

/// A call that was sent, by its names.
#[derive(Clone, Copy)]
pub(crate) struct CallKey {
    pub(crate) caller: CallerId,
    pub(crate) actor: ActorId,
    pub(crate) number: u32,
    pub(crate) future: FutureId,
}

/// A letter of the mail. A call's packet is the same whenever its caller makes it, so the letter
/// only names the call: one that is sent over and over takes no room for its arguments.
#[derive(Drop)]
pub(crate) enum MailEntry {
    Call(CallKey),
    Note(ReleaseNote),
}

impl MailEntry {
    /// The actor that it is for.
    pub(crate) fn actor(&self) -> ActorId
        ensures { result ≡ entry_actor self.now }
    {
        match self {
            MailEntry::Call(call) => call.actor,
            MailEntry::Note(note) => note.actor,
        }
    }
}

/// A notice, and the caller that it is for.
#[derive(Drop)]
pub(crate) struct MailedNotice {
    pub(crate) caller: CallerId,
    pub(crate) notice: Notice,
}

/// A copy of a notice. That of a death takes no memory.
pub(crate) fn copy_notice(alloc: Global, notice: &Notice) -> Result<Notice, NoMemory>
    ensures ok { IfOk result (λ copy. copy ≡ notice.now) }
    ensures memory_last { OnErr result (IsReplyNotice notice.now) }
{
    match notice {
        Notice::Answered(reply) => Ok(Notice::Answered(reply.copy_of(alloc)?)),
        Notice::Death(a) => Ok(Notice::Death(*a)),
    }
}

/// The callers, all letters that were sent, all notices that were posted, and whether a kill of
/// each actor, by its number, was asked.
#[derive(Drop)]
pub(crate) struct Network {
    pub(crate) owners: Vec<Owner>,
    pub(crate) mail: Vec<MailEntry>,
    pub(crate) replies: Vec<MailedNotice>,
    pub(crate) asked: [bool; ACTOR_NUMBERS],
}

impl Model for Network {
    ghost use Rattle.act_world.specs.Network.{NetworkView};

    ghost Value = { NetworkView };

    ghost view = { λ network. record {
      owners = network.owners.items;
      mail = network.mail.items;
      replies = network.replies.items;
      asked = network.asked;
    } };
}

/// The caller's place among the callers.
pub(crate) fn place_of(owners: &[Owner], c: CallerId) -> Option<usize>
    ensures { result ≡ position (is_owner c) owners.now }
{
    owners.iter().position(|owner| owner.id() == c)
}

/// How many calls the events submit, by the number of the caller.
fn submissions(events: &[Event]) -> [usize; CALLER_NUMBERS] {
    let mut counts: [usize; CALLER_NUMBERS] = [0; CALLER_NUMBERS];
    for event in events {
        if let Event::Submit(c, _, _, _) = event {
            let count = &mut counts[c.number() as usize];
            *count = count.saturating_add(1);
        }
    }
    counts
}

/// Makes room for the calls that events submit. Where memory doesn't serve for so many at once,
/// room is made call by call.
pub(crate) fn make_room_for(owners: &mut [Owner], events: &[Event])
    ensures { owners.new ≡ owners.old }
{
    let counts = submissions(events);
    for owner in owners.iter_mut() {
        let count = counts[owner.id().number() as usize];
        let _ = owner.reserve(count.min(MAX_CALLS as usize));
    }
}

impl Network {
    /// Where it asks for memory.
    pub(crate) fn alloc(&self) -> Global {
        *self.mail.allocator()
    }

    /// A caller, where it is one of these.
    pub(crate) fn owner(&self, c: CallerId) -> Option<&Owner>
        ensures { option_copied result ≡ find (is_owner c) self.now.owners }
    {
        let Some(place) = place_of(&self.owners, c) else {
            return None;
        };
        Some(&self.owners[place])
    }

    /// Why the caller cannot name the actor: it is none of these, or the actor is none of its own.
    pub(crate) fn naming_refusal(&self, c: CallerId, a: ActorId) -> Option<WorldRefusal>
        ensures refusal { result ≡ naming_refusal (find (is_owner c) self.now.owners) a }
        ensures told { IfSome result (λ refusal. is_memory (Err refusal) ≡ false) }
    {
        let Some(owner) = self.owner(c) else {
            return Some(WorldRefusal::NoCaller);
        };
        if !owner.is_listed(a) {
            return Some(WorldRefusal::Handle(HandleRefusal::NoActor));
        }
        None
    }

    /// The letter at a place of the mail.
    pub(crate) fn letter(&self, i: u32) -> Option<&MailEntry>
        ensures { option_copied result ≡ slice_get self.now.mail i }
    {
        self.mail.get(i as usize)
    }

    /// The packet of a call that was sent, which its caller makes. The caller is one of these and
    /// refuses nothing, so only memory is wanting where there is none.
    pub(crate) fn packet_of(&self, call: &CallKey) -> Result<Packet, NoMemory>
        ensures { IfOk result (λ packet.
            option_map (named_as call.now) (packet_in self.now.owners call.now) ≡ Some packet) }
    {
        let Some(owner) = self.owner(call.caller) else {
            return Err(NoMemory);
        };
        let Ok(Packet { method, args, .. }) = owner.packet_of(self.alloc(), call.future) else {
            return Err(NoMemory);
        };
        Ok(Packet {
            caller: call.caller,
            actor: call.actor,
            number: call.number,
            future: call.future,
            method,
            args,
        })
    }

    /// Whether a kill of the actor was asked.
    pub(crate) fn is_asked(&self, a: ActorId) -> bool
        ensures { result ≡ unwrap_or (slice_get self.now.asked a) false }
    {
        self.asked
            .get(a.number() as usize)
            .copied()
            .unwrap_or(false)
    }

    /// The notice at a place of the replies.
    pub(crate) fn notice(&self, j: u32) -> Option<&MailedNotice>
        ensures { option_copied result ≡ slice_get self.now.replies j }
    {
        self.replies.get(j as usize)
    }
}

/// What is told of a notice that a caller took. None is a stray one.
fn collect_outcome(c: CallerId, collected: Collected) -> Outcome
    ensures value { result ≡ told_collected c collected }
    ensures told { is_memory result ≡ false }
{
    match collected {
        Collected::First(k) => Ok(Did::Kept(c, k)),
        Collected::Late(k) => Ok(Did::Late(c, k)),
        Collected::Died(count) => Ok(Did::Died(count)),
        Collected::Stray => Err(WorldRefusal::NoReply),
    }
}

/// What is told of a submission that is refused. Want of memory is no outcome of the rules.
fn told_refused(refusal: SubmitRefusal) -> Result<Outcome, NoMemory>
    ensures outcome { IfOk result (λ told. told ≡ Err (Submit refusal)) }
    ensures other { OnOk result (refusal ≢ NoRoom) }
    ensures memory { OnErr result (refusal ≡ NoRoom) }
{
    match refusal {
        SubmitRefusal::NoMemory => Err(NoMemory),
        _ => Ok(Err(WorldRefusal::Submit(refusal))),
    }
}

/// Why a call isn't sent where its letter has no room: what refuses it comes before want of memory.
fn why_unsent(owner: &Owner, k: FutureId) -> Result<Outcome, NoMemory>
    ensures refused { IfOk result (λ told.
        (refusal : SendRefusal) × (told ≡ Err (Sending refusal)) × (sending_refusal owner.now k ≡ Some refusal)) }
    ensures memory { OnErr result (sending_refusal owner.now k ≡ None) }
{
    match owner.sending_refusal(k) {
        Some(refusal) => Ok(Err(WorldRefusal::Sending(refusal))),
        None => Err(NoMemory),
    }
}

impl Network {
    /// Why a submission of the caller would be refused, memory apart.
    fn submission_refusal(
        &self,
        c: CallerId,
        a: ActorId,
        args: &ListOf<Arg>,
    ) -> Option<WorldRefusal>
        ensures refused { IfSome result (λ refusal. (method : Method) →
            StepsThere (event.Submit c a method args.now) self.now self.now (Ok (Err refusal))) }
        ensures accepted { IfNone result ((method : Method) →
            IsUnrefusedThere (event.Submit c a method args.now) self.now) }
    {
        let Some(place) = place_of(&self.owners, c) else {
            return Some(WorldRefusal::NoCaller);
        };
        let refusal = self.owners[place].submission_refusal(a, args)?;
        Some(WorldRefusal::Submit(refusal))
    }

    /// The caller submits a call, whose arguments are moved to it.
    pub(crate) fn submit(
        &mut self,
        c: CallerId,
        a: ActorId,
        method: Method,
        args: ListOf<Arg>,
    ) -> Result<Outcome, NoMemory>
        ensures { StepsThere (event.Submit c a method args) self.old self.new result }
    {
        let Some(place) = place_of(&self.owners, c) else {
            return Ok(Err(WorldRefusal::NoCaller));
        };
        let k = match self.owners[place].submit(a, method, args) {
            Ok(k) => k,
            Err(refusal) => return told_refused(refusal),
        };
        Ok(Ok(Did::Future(c, k)))
    }

    /// The same with a copy of the arguments, which is made only where nothing refuses the call.
    pub(crate) fn submit_copy(
        &mut self,
        c: CallerId,
        a: ActorId,
        method: Method,
        args: &ListOf<Arg>,
    ) -> Result<Outcome, NoMemory>
        ensures { StepsThere (event.Submit c a method args.now) self.old self.new result }
    {
        if let Some(refusal) = self.submission_refusal(c, a, args) {
            return Ok(Err(refusal));
        }
        let args = args.copy_of(self.alloc())?;
        self.submit(c, a, method, args)
    }

    /// The caller copies its handle.
    pub(crate) fn copy(&mut self, c: CallerId, a: ActorId) -> Outcome
        ensures { StepsThere (event.Copy c a) self.old self.new (Ok result) }
    {
        let Some(place) = place_of(&self.owners, c) else {
            return Err(WorldRefusal::NoCaller);
        };
        let copies = match self.owners[place].copy(a) {
            Ok(copies) => copies,
            Err(refusal) => return Err(WorldRefusal::Handle(refusal)),
        };
        Ok(Did::Copies(copies))
    }

    /// The caller releases a copy of its handle. The last one sends a note.
    pub(crate) fn release(&mut self, c: CallerId, a: ActorId) -> Result<Outcome, NoMemory>
        requires room { HasRoom 1 self.old }
        ensures { StepsThere (event.Release c a) self.old self.new result }
    {
        let Some(place) = place_of(&self.owners, c) else {
            return Ok(Err(WorldRefusal::NoCaller));
        };
        if self.owners[place].holds(a) == 1 {
            self.mail.reserve(1)?;
        }
        let note = match self.owners[place].release(a) {
            Ok(note) => note,
            Err(refusal) => return Ok(Err(WorldRefusal::Handle(refusal))),
        };
        let Some(note) = note else {
            return Ok(Ok(Did::Copies(self.owners[place].holds(a))));
        };
        let i = self.mail.len() as u32;
        self.mail.push_reserved(MailEntry::Note(note));
        Ok(Ok(Did::Mail(i)))
    }

    /// The caller sends a call.
    pub(crate) fn send(&mut self, c: CallerId, k: FutureId) -> Result<Outcome, NoMemory>
        requires room { HasRoom 1 self.old }
        ensures { StepsThere (event.Send c k) self.old self.new result }
    {
        let Some(place) = place_of(&self.owners, c) else {
            return Ok(Err(WorldRefusal::NoCaller));
        };
        if self.mail.reserve(1).is_err() {
            return why_unsent(&self.owners[place], k);
        }
        let (actor, number) = match self.owners[place].send(k) {
            Ok(address) => address,
            Err(refusal) => return Ok(Err(WorldRefusal::Sending(refusal))),
        };
        let i = self.mail.len() as u32;
        let call = CallKey {
            caller: c,
            actor,
            number,
            future: k,
        };
        self.mail.push_reserved(MailEntry::Call(call));
        Ok(Ok(Did::Mail(i)))
    }

    /// The caller asks for the actor's kill.
    pub(crate) fn ask_kill(&mut self, c: CallerId, a: ActorId) -> Outcome
        ensures { StepsThere (event.AskKill c a) self.old self.new (Ok result) }
    {
        let Some(place) = place_of(&self.owners, c) else {
            return Err(WorldRefusal::NoCaller);
        };
        if let Err(refusal) = self.owners[place].ask_kill(a) {
            return Err(WorldRefusal::Handle(refusal));
        }
        self.asked[a.number() as usize] = true;
        Ok(Did::Asked)
    }

    /// A notice is handed to its caller once more.
    pub(crate) fn collect(&mut self, j: u32) -> Result<Outcome, NoMemory>
        ensures { StepsThere (event.Collect j) self.old self.new result }
    {
        let Some(posted) = self.notice(j) else {
            return Ok(Err(WorldRefusal::NoReply));
        };
        let caller = posted.caller;
        let Some(place) = place_of(&self.owners, caller) else {
            return Ok(Err(WorldRefusal::NoReply));
        };
        // A notice that is collected over and over is copied once, where its answer is the first.
        if let Collected::Late(k) = self.owners[place].collected(&posted.notice) {
            return Ok(Ok(Did::Late(caller, k)));
        }
        let notice = copy_notice(self.alloc(), &posted.notice)?;
        let collected = self.owners[place].collect(notice);
        Ok(collect_outcome(caller, collected))
    }
}
