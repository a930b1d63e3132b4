//! One caller and its calls.

ghost use Rattle.std.specs.Prelude.{◌≡◌, ◌≢◌, ◌==◌, ℕ, ◌≤◌, map, length, count_by, All, AllPairs, Option, None, Some, Err, IfOk, OnOk, IfErr, OnErr, IfSome, IfNone, IsSome, option_and_then, option_copied, find, position, unwrap_or, is_some, slice_get, zip, ◌<◌, ◌++◌, ◌∷◌, [], true};
ghost use Rattle.std.specs.List.{list_all, list_any};
ghost use Rattle.act_rules.specs.declared.outcome.SubmitRefusal.TheVariants.{NoMemory as NoRoom};
ghost use Rattle.act_rules.specs.declared.outcome.SendRefusal.TheVariants.{NoMemory as NoRoomToSend};
ghost use Rattle.act_rules.specs.Submissions.{calls_to, copies_held, handle_refusal, limit_refusal, kept_at, settle, is_earlier};
ghost use Rattle.act_handles.specs.Handles.{copies_in, given_in, copy_answer, with_copy, without_copy};
ghost use Rattle.act_owner.specs.Owner.{OwnerView, answers_of, open_owner, opened_under, opened_with, owner_limit, pending, with_handles, release_told, kill_told, refusal_to_submit, with_submission, call_at, is_sent, is_known_dead, sending_refusal, packet_at, address_at, with_sent, is_known_call, first_ready, is_to, is_death, is_of_call, collected_reply, after_reply, collected_death, owner_after_death, collect_result, after_collect, call_waits_for, KnowsDeath, futures_of_args, answered_row, entered_call, KnowsAnswers};
ghost use Rattle.act_types.specs.declared.call.Notice.TheVariants.{Death};
ghost use Rattle.act_replies.specs.Table.{row_waits_for, rows_after_death};

use act_handles::{HandleRefusal, Handles, are_earlier};
use act_replies::ReplyTable;
use act_resolver::{Futures, Resolver};
use act_rules::{SendRefusal, SubmitRefusal};
use act_types::{
    ACTOR_NUMBERS, ActorId, Answer, Arg, CallerId, CopyOf, Fault, FutureId, KillNote, ListOf,
    MAX_ARGS, MAX_CALLS, Method, NoMemory, Notice, Packet, ReleaseNote, Reply, Settled, SmallList,
};
use std::alloc::Global;
use std::marker::Model;

/// A call that was submitted.
#[derive(Drop)]
pub struct Call {
    pub actor: ActorId,
    /// The call's place among the caller's calls to this actor.
    pub number: u32,
    pub method: Method,
    pub args: ListOf<Arg>,
}

/// What became of a notice.
#[derive(Clone, Copy, Debug, PartialEq, Eq)]
pub enum Collected {
    /// The first answer of this future.
    First(FutureId),
    /// This future has an answer already, which stays.
    Late(FutureId),
    /// It is for no call of this caller that was sent, or of no actor of this caller.
    Stray,
    /// How many futures the death answered.
    Died(u32),
}

/// Actors, each with the number of its calls that may have no answer yet.
type Limits = Vec<(ActorId, Option<u32>)>;

/// One caller: its handles, its calls, and the answers that it keeps.
#[derive(Drop)]
pub struct Owner {
    id: CallerId,
    handles: Handles,
    calls: Vec<Call>,
    /// Which calls were sent, and which may be.
    resolver: Resolver,
    table: ReplyTable,
    /// Whether each actor, by its number, is known to be dead.
    dead: [bool; ACTOR_NUMBERS],
    /// How many calls of an actor may have no answer yet, where the caller was opened with limits.
    limits: Limits,
}

impl Model for Owner {
    ghost use Rattle.act_owner.specs.Owner.{OwnerView, submission_of, answers_of, IsOwner};
    ghost use Rattle.std.specs.Prelude.{map};

    ghost Value = { OwnerView };

    ghost view = { λ owner. record {
      id = owner.id;
      handles = owner.handles;
      calls = map submission_of owner.calls.items;
      sent = map (λ call. call.sent) owner.resolver.calls;
      kept = answers_of owner.table.rows;
      dead = owner.dead;
      limits = owner.limits.items;
    } };

    ghost invariant = { λ owner. IsOwner owner.handles owner.calls.items owner.table.rows owner.resolver.calls };
}

/// The actors of a list of actors with their limits.
fn names_of(alloc: Global, actors: &[(ActorId, Option<u32>)]) -> Result<Vec<ActorId>, NoMemory>
    ensures { IfOk result (λ names. names.items ≡ map (λ actor. actor.0) actors.now) }
{
    let names = actors.iter().map(|actor| actor.0).collect(alloc)?;
    Ok(names)
}

/// A copy of a list of actors with their limits.
fn copy_of(alloc: Global, actors: &[(ActorId, Option<u32>)]) -> Result<Limits, NoMemory>
    ensures { IfOk result (λ limits. limits.items ≡ actors.now) }
{
    let limits = actors.iter().copied().collect(alloc)?;
    Ok(limits)
}

/// The actor with its limit in a list of actors with their limits.
fn limit_of(limits: &[(ActorId, Option<u32>)], a: ActorId) -> Option<&(ActorId, Option<u32>)>
    ensures { option_copied result ≡ find (λ limit. limit.0 == a) limits.now }
{
    limits.iter().find(|limit| limit.0 == a)
}

/// What is sent for a call, its arguments settled by the answers kept.
fn packet_with(
    alloc: Global,
    caller: CallerId,
    k: FutureId,
    call: &Call,
    table: &ReplyTable,
) -> Result<Packet, NoMemory>
    ensures { IfOk result (λ packet. packet ≡ record {
      caller = caller;
      actor = call.now.actor;
      number = call.now.number;
      future = k;
      method = call.now.method;
      args = map (settle (answers_of table.now.rows)) call.now.args;
    }) }
{
    let args = settle_all(alloc, &call.args, table)?;
    Ok(Packet {
        caller,
        actor: call.actor,
        number: call.number,
        future: k,
        method: call.method,
        args,
    })
}

impl Owner {
    /// A caller of these actors, which holds one copy of each one's handle and submitted nothing.
    #[tactic(auto, using(crate::proofs::Calls::opened_fine))]
    fn open_under(
        alloc: Global,
        limits: Limits,
        id: CallerId,
        actors: &[ActorId],
    ) -> Result<Owner, NoMemory>
        requires distinct { AllPairs (λ one other. one ≢ other) actors.now }
        ensures { IfOk result (λ owner. owner ≡ opened_under limits.items id actors.now) }
    {
        Ok(Owner {
            id,
            handles: Handles::open(alloc, actors)?,
            calls: Vec::new(alloc),
            resolver: Resolver::new(alloc),
            table: ReplyTable::new(alloc),
            dead: [false; ACTOR_NUMBERS],
            limits,
        })
    }

    /// A caller of these actors, which holds one copy of each one's handle and submitted nothing.
    /// Nothing limits how many of its calls may have no answer yet.
    pub fn open(alloc: Global, id: CallerId, actors: &[ActorId]) -> Result<Owner, NoMemory>
        requires distinct { AllPairs (λ one other. one ≢ other) actors.now }
        ensures { IfOk result (λ owner. owner ≡ open_owner id actors.now) }
    {
        Owner::open_under(alloc, Vec::new(alloc), id, actors)
    }

    /// The same of actors that are each given with the number of its calls that may have no answer
    /// yet, or with none where nothing limits them. A limit of 0 would refuse every call, and a
    /// thread would wait for ever.
    pub fn open_with(
        alloc: Global,
        id: CallerId,
        actors: &[(ActorId, Option<u32>)],
    ) -> Result<Owner, NoMemory>
        requires distinct { AllPairs (λ one other. one.0 ≢ other.0) actors.now }
        requires limits { All (λ actor. actor.1 ≢ Some 0) actors.now }
        ensures { IfOk result (λ owner. owner ≡ opened_with id actors.now) }
    {
        let names = names_of(alloc, actors)?;
        let limits = copy_of(alloc, actors)?;
        Owner::open_under(alloc, limits, id, names.as_slice())
    }

    /// This caller.
    pub fn id(&self) -> CallerId
        ensures { result ≡ self.now.id }
    {
        self.id
    }

    /// How many copies of the actor's handle are held, which is none for an actor that is not one
    /// of this caller's.
    pub fn holds(&self, a: ActorId) -> u32
        ensures { result ≡ copies_held (copies_in a self.now.handles) }
    {
        self.handles.holds(a)
    }

    /// Adds a copy of the actor's handle and gives their number. An `Err` changes nothing.
    pub fn copy(&mut self, a: ActorId) -> Result<u32, HandleRefusal>
        ensures value { result ≡ copy_answer a self.old.handles }
        ensures ok { OnOk result (self.new ≡ with_handles self.old (with_copy a self.old.handles)) }
        ensures err { OnErr result (self.new ≡ self.old) }
    {
        self.handles.copy(a)
    }

    /// Lets a copy of the actor's handle go. After the last one it gives the note that tells how
    /// many calls there were to the actor. An `Err` changes nothing.
    pub fn release(&mut self, a: ActorId) -> Result<Option<ReleaseNote>, HandleRefusal>
        ensures value { result ≡ release_told self.old a }
        // So the number in a note is that of the calls to the actor.
        ensures given { given_in a self.old.handles ≡ length (calls_to a self.old.calls) }
        ensures ok { OnOk result (self.new ≡ with_handles self.old (without_copy a self.old.handles)) }
        ensures err { OnErr result (self.new ≡ self.old) }
    {
        let Some(after) = self.handles.release(a)? else {
            return Ok(None);
        };
        Ok(Some(ReleaseNote {
            caller: self.id,
            actor: a,
            after,
        }))
    }

    /// The note that asks for the actor's kill.
    pub fn ask_kill(&self, a: ActorId) -> Result<KillNote, HandleRefusal>
        ensures { result ≡ kill_told self.now a }
    {
        if let Some(refusal) = self.handles.refusal(a) {
            return Err(refusal);
        }
        Ok(KillNote {
            caller: self.id,
            actor: a,
        })
    }

    /// How many calls were submitted.
    pub fn count(&self) -> u32
        ensures value { result ≡ length self.now.calls }
        ensures limit { result ≤ MAX_CALLS }
    {
        self.calls.len() as u32
    }

    /// A call, by its future.
    pub fn call(&self, k: FutureId) -> Option<&Call>
        ensures { option_copied result ≡ call_at self.now.calls k }
    {
        self.calls.get(k.number() as usize)
    }

    /// The answer that is kept for a future.
    pub fn answer(&self, k: FutureId) -> Option<&Answer>
        ensures { option_copied result ≡ kept_at self.now.kept k }
    {
        self.table.answer(k)
    }

    /// Whether each call has an answer.
    #[tactic(auto, using(crate::proofs::Answers::all_answered))]
    pub fn all_answered(&self) -> bool
        ensures { result ≡ list_all is_some self.now.kept }
    {
        self.table.unanswered() == 0
    }

    /// How many calls of the actor have no answer yet. A call that ran counts until its answer is
    /// kept, and none counts once the actor's death was collected. The number is kept: asking for it
    /// takes constant time, and no memory.
    pub fn pending(&self, a: ActorId) -> u32
        ensures { result ≡ pending self.now a }
    {
        self.table.pending(a)
    }

    /// How many calls of the actor may have no answer yet, as the caller was opened with it. That is
    /// none where nothing limits them, or the actor is not one of this caller's. It takes no memory.
    pub fn limit(&self, a: ActorId) -> Option<u32>
        ensures { result ≡ owner_limit self.now a }
    {
        limit_of(&self.limits, a)?.1
    }

    /// Why the actor's limit would refuse one call more.
    fn limit_refusal(&self, a: ActorId) -> Option<SubmitRefusal>
        ensures { result ≡ limit_refusal (owner_limit self.now a) (pending self.now a) }
    {
        let limit = self.limit(a)?;
        if self.pending(a) < limit {
            return None;
        }
        Some(SubmitRefusal::PendingLimit)
    }

    /// Whether a call of the actor has no answer yet. It is known without a search.
    #[tactic(auto, using(crate::proofs::Answers::any_counted))]
    pub fn awaits(&self, a: ActorId) -> bool
        ensures { result ≡ list_any (call_waits_for a) (zip self.now.calls self.now.kept) }
    {
        self.pending(a) > 0
    }

    /// Whether the actor is one of this caller's.
    pub fn is_listed(&self, a: ActorId) -> bool
        ensures { result ≡ is_some (copies_in a self.now.handles) }
    {
        match self.handles.refusal(a) {
            Some(HandleRefusal::NoActor) => false,
            _ => true,
        }
    }

    /// Whether the actor's death was collected. It never was where the actor is not one of this
    /// caller's.
    pub fn is_dead(&self, a: ActorId) -> bool
        ensures { result ≡ is_known_dead self.now a }
    {
        let number = a.number();
        self.dead[number as usize]
    }

    /// Why a call of the actor would not be submitted, memory apart.
    pub fn submission_refusal(&self, a: ActorId, args: &ListOf<Arg>) -> Option<SubmitRefusal>
        ensures { result ≡ refusal_to_submit self.now a args.now }
    {
        let count = self.calls.len() as u32;
        match self.handles.refusal(a) {
            Some(HandleRefusal::NoActor) => Some(SubmitRefusal::NoActor),
            Some(_) => Some(SubmitRefusal::NoHandle),
            None if args.len() > MAX_ARGS => Some(SubmitRefusal::TooManyArgs),
            None if !are_earlier(args, count) => Some(SubmitRefusal::BadFuture),
            None if count >= MAX_CALLS => Some(SubmitRefusal::TooManyCalls),
            None => self.limit_refusal(a),
        }
    }

    /// Adds a call that nothing refuses.
    fn add(&mut self, a: ActorId, method: Method, args: ListOf<Arg>) -> Result<FutureId, NoMemory>
        requires accepted { refusal_to_submit self.old a args ≡ None }
        ensures future { IfOk result (λ k. k ≡ length self.old.calls) }
        ensures ok { OnOk result (self.new ≡ with_submission self.old a method args) }
        ensures err { OnErr result (self.new ≡ self.old) }
    {
        self.calls.reserve(1)?;
        self.resolver.reserve_one()?;
        self.table.reserve(1)?;
        let is_dead = self.is_dead(a);
        let number = self.handles.number(a).unwrap();
        let k = enter(&mut self.table, a, is_dead);
        enter_call(&mut self.resolver, k, &args, is_dead);
        self.calls.push_reserved(Call {
            actor: a,
            number,
            method,
            args,
        });
        Ok(k)
    }

    /// Makes room for so many calls more, so that memory is asked for once and not call by call. What
    /// calls need to wait for futures comes when they are submitted.
    pub fn reserve(&mut self, count: usize) -> Result<(), NoMemory>
        ensures { self.new ≡ self.old }
    {
        self.calls.reserve(count)?;
        self.resolver.reserve_calls(count)?;
        self.table.reserve(count)
    }

    /// Takes a call and gives its future. An `Err` changes nothing.
    pub fn submit(
        &mut self,
        a: ActorId,
        method: Method,
        args: ListOf<Arg>,
    ) -> Result<FutureId, SubmitRefusal>
        ensures future { IfOk result (λ k. k ≡ length self.old.calls) }
        ensures accepted { OnOk result (refusal_to_submit self.old a args ≡ None) }
        ensures ok { OnOk result (self.new ≡ with_submission self.old a method args) }
        ensures refusal { IfErr result (λ refusal. refusal ≡ unwrap_or (refusal_to_submit self.old a args) NoRoom) }
        ensures err { OnErr result (self.new ≡ self.old) }
    {
        if let Some(refusal) = self.submission_refusal(a, &args) {
            return Err(refusal);
        }
        let Ok(k) = self.add(a, method, args) else {
            return Err(SubmitRefusal::NoMemory);
        };
        Ok(k)
    }

    /// A call that may be sent, or why it may not, memory apart.
    fn sendable(&self, k: FutureId) -> Result<&Call, SendRefusal>
        ensures call { IfOk result (λ call. call_at self.now.calls k ≡ Some call.now) }
        ensures accepted { OnOk result (sending_refusal self.now k ≡ None) }
        ensures refusal { IfErr result (λ refusal. sending_refusal self.now k ≡ Some refusal) }
    {
        let Some(call) = self.call(k) else {
            return Err(SendRefusal::NoFuture);
        };
        if !self.is_known(k) {
            return Err(SendRefusal::NotReady);
        }
        if !self.resolver.is_sent(k) && self.answer(k).is_some() {
            return Err(SendRefusal::Answered);
        }
        Ok(call)
    }

    /// Why a call would not be sent, memory apart.
    pub fn sending_refusal(&self, k: FutureId) -> Option<SendRefusal>
        ensures { result ≡ sending_refusal self.now k }
    {
        self.sendable(k).err()
    }

    /// The packet of a call, memory permitting, or why it is not sent. It marks nothing, so it serves
    /// a call that was sent before, whose packet is the same each time.
    pub fn packet_of(&self, alloc: Global, k: FutureId) -> Result<Packet, SendRefusal>
        ensures value { IfOk result (λ packet. packet_at self.now k ≡ Some packet) }
        ensures accepted { OnOk result (sending_refusal self.now k ≡ None) }
        ensures refusal { IfErr result (λ refusal. refusal ≡ unwrap_or (sending_refusal self.now k) NoRoomToSend) }
    {
        let call = self.sendable(k)?;
        let Ok(packet) = packet_with(alloc, self.id, k, call, &self.table) else {
            return Err(SendRefusal::NoMemory);
        };
        Ok(packet)
    }

    /// The packet of a call, which is marked sent. It is the same each time. An `Err` changes
    /// nothing.
    pub fn packet(&mut self, alloc: Global, k: FutureId) -> Result<Packet, SendRefusal>
        ensures value { IfOk result (λ packet. packet_at self.old k ≡ Some packet) }
        ensures accepted { OnOk result (sending_refusal self.old k ≡ None) }
        ensures ok { OnOk result (self.new ≡ with_sent self.old k) }
        ensures refusal { IfErr result (λ refusal. refusal ≡ unwrap_or (sending_refusal self.old k) NoRoomToSend) }
        ensures err { OnErr result (self.new ≡ self.old) }
    {
        let packet = self.packet_of(alloc, k)?;
        self.resolver.mark_sent(k);
        Ok(packet)
    }

    /// The packet of the least call that may be sent, if there is one, which is marked sent. An `Err`
    /// changes nothing, and comes only where there is such a call.
    pub fn next_packet(&mut self, alloc: Global) -> Result<Option<Packet>, NoMemory>
        ensures ready { IfOk result (λ sent. IfSome sent (λ packet. first_ready self.old ≡ Some packet.future)) }
        ensures value { IfOk result (λ sent. IfSome sent (λ packet. packet_at self.old packet.future ≡ Some packet)) }
        ensures ok { IfOk result (λ sent. IfSome sent (λ packet. self.new ≡ with_sent self.old packet.future)) }
        ensures none { IfOk result (λ sent. IfNone sent (first_ready self.old ≡ None)) }
        ensures same { IfOk result (λ sent. IfNone sent (self.new ≡ self.old)) }
        ensures memory { OnErr result (IsSome (first_ready self.old)) }
        ensures err { OnErr result (self.new ≡ self.old) }
    {
        let Some(k) = self.ready() else {
            return Ok(None);
        };
        let Some(call) = self.call(k) else {
            unreachable!()
        };
        let packet = packet_with(alloc, self.id, k, call, &self.table)?;
        self.resolver.mark_sent(k);
        Ok(Some(packet))
    }

    /// Marks a call sent without its packet, and gives the actor that it goes to and its number
    /// there. It takes no memory. An `Err` changes nothing.
    pub fn send(&mut self, k: FutureId) -> Result<(ActorId, u32), SendRefusal>
        ensures value { IfOk result (λ address. address_at self.old.calls k ≡ Some address) }
        ensures accepted { OnOk result (sending_refusal self.old k ≡ None) }
        ensures ok { OnOk result (self.new ≡ with_sent self.old k) }
        ensures refusal { IfErr result (λ refusal. sending_refusal self.old k ≡ Some refusal) }
        ensures err { OnErr result (self.new ≡ self.old) }
    {
        let call = self.sendable(k)?;
        let address = (call.actor, call.number);
        self.resolver.mark_sent(k);
        Ok(address)
    }

    /// Whether the call's arguments all have their answers.
    #[tactic(auto, using(crate::proofs::Waiting::known_same))]
    fn is_known(&self, k: FutureId) -> bool
        ensures { result ≡ is_known_call self.now (slice_get self.now.calls k) }
    {
        self.resolver.is_known(k)
    }

    /// The least call that is neither sent nor answered and whose future arguments all have their
    /// answers.
    pub fn ready(&self) -> Option<FutureId>
        ensures { result ≡ first_ready self.now }
    {
        self.resolver.ready()
    }

    /// Whether the reply is that of a call which this caller sent.
    fn is_of_call(&self, reply: &Reply) -> bool
        ensures { result ≡ is_of_call self.now reply.now }
    {
        let Some(call) = self.call(reply.future) else {
            return false;
        };
        reply.caller == self.id
            && call.actor == reply.actor
            && self.resolver.is_sent(reply.future)
            && !matches!(reply.answer, Err(Fault::ActorDied))
    }

    /// What a notice would become. It takes no memory.
    pub fn collected(&self, notice: &Notice) -> Collected
        ensures { result ≡ collect_result self.now notice.now }
    {
        match notice {
            Notice::Answered(reply) if !self.is_of_call(reply) => Collected::Stray,
            Notice::Answered(reply) if self.answer(reply.future).is_some() => {
                Collected::Late(reply.future)
            }
            Notice::Answered(reply) => Collected::First(reply.future),
            Notice::Death(a) if !self.is_listed(*a) => Collected::Stray,
            Notice::Death(a) => Collected::Died(self.pending(*a)),
        }
    }

    /// Takes what an actor's side tells. A reply's answer is kept where its future has none yet,
    /// and a death is the answer of each of its actor's futures that has none. It takes no memory.
    pub fn collect(&mut self, notice: Notice) -> Collected
        ensures value { result ≡ collect_result self.old notice }
        ensures after { self.new ≡ after_collect self.old notice }
        ensures known { KnowsDeath notice self.old self.new }
    {
        let told = self.collected(&notice);
        match notice {
            Notice::Answered(reply) => {
                if let Collected::First(k) = told {
                    self.table.keep(k, reply.answer);
                    self.resolver.told(k);
                }
            }
            Notice::Death(a) => {
                if let Collected::Died(_) = told {
                    self.dead[a.number() as usize] = true;
                    answer_death(&mut self.table, &mut self.resolver, a);
                }
            }
        }
        told
    }
}

/// The futures among the arguments of a call.
fn futures_of(args: &ListOf<Arg>) -> Futures
    requires { length args.now ≤ MAX_ARGS }
    ensures { result ≡ futures_of_args args.now }
{
    let mut futures = Futures::new(&[]);
    for arg in args.as_slice() {
        if let Arg::Fut(future) = arg {
            futures.push(*future);
        }
    }
    futures
}

/// Enters the next call, which waits for the futures among its arguments. It is told at once where
/// its actor is dead.
pub(crate) fn enter_call(resolver: &mut Resolver, k: FutureId, args: &ListOf<Arg>, is_dead: bool)
    requires room { 1 ≤ resolver.old.spare }
    requires next { k ≡ length resolver.old.calls }
    requires few { length args.now ≤ MAX_ARGS }
    requires earlier { list_all (is_earlier k) args.now ≡ true }
    ensures { resolver.new.calls ≡ resolver.old.calls ++ entered_call args.now is_dead ∷ [] }
{
    let futures = futures_of(args);
    resolver.enter_reserved(k, futures.as_slice());
    if is_dead {
        resolver.told(k);
    }
}

/// Adds a future of the actor, which is answered at once where the actor is dead.
pub(crate) fn enter(table: &mut ReplyTable, a: ActorId, is_dead: bool) -> FutureId
    requires room { 1 ≤ table.old.spare }
    requires limit { length table.old.rows < MAX_CALLS }
    ensures value { result ≡ length table.old.rows }
    ensures rows { table.new.rows ≡ table.old.rows ++ answered_row a is_dead ∷ [] }
{
    let k = table.enter_reserved(a);
    if is_dead {
        table.keep(k, Err(Fault::ActorDied));
    }
    k
}

/// Answers each future of the actor that has no answer yet with `ActorDied`, and tells the resolver
/// of it. It passes over no other call.
fn answer_death(table: &mut ReplyTable, resolver: &mut Resolver, a: ActorId)
    requires told { KnowsAnswers resolver.old.calls table.old.rows }
    ensures rows { table.new.rows ≡ rows_after_death a table.old.rows }
    ensures told { KnowsAnswers resolver.new.calls (rows_after_death a table.old.rows) }
    ensures futures { map (λ call. call.futures) resolver.new.calls ≡ map (λ call. call.futures) resolver.old.calls }
    ensures sent { map (λ call. call.sent) resolver.new.calls ≡ map (λ call. call.sent) resolver.old.calls }
{
    while let Some(future) = table.waiting_of(a) {
        table.keep(future, Err(Fault::ActorDied));
        resolver.told(future);
    }
}

/// What is sent for an argument that has its answer.
#[inline(always)]
fn settle_arg(alloc: Global, arg: &Arg, table: &ReplyTable) -> Result<Settled, NoMemory>
    ensures { IfOk result (λ sent. sent ≡ settle (answers_of table.now.rows) arg.now) }
{
    match arg {
        Arg::Plain(value) => Ok(Settled::Good(value.copy_of(alloc)?)),
        Arg::Fut(future) => match table.answer(*future) {
            Some(Ok(value)) => Ok(Settled::Good(value.copy_of(alloc)?)),
            _ => Ok(Settled::Bad(*future)),
        },
    }
}

/// What is sent for the arguments of a call.
pub(crate) fn settle_all(
    alloc: Global,
    args: &ListOf<Arg>,
    table: &ReplyTable,
) -> Result<SmallList<Settled>, NoMemory>
    ensures { IfOk result (λ sent. sent ≡ map (settle (answers_of table.now.rows)) args.now) }
{
    if let [arg] = args.as_slice() {
        return Ok(SmallList::one(alloc, settle_arg(alloc, arg, table)?));
    }
    let mut sent = SmallList::with_capacity(alloc, args.len())?;
    for arg in args.as_slice() {
        sent.push(settle_arg(alloc, arg, table)?)?;
    }
    Ok(sent)
}
