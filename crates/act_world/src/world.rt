//! Callers, actors, and the events between them.
//!
//! `K` is the kind, mostly a box. Where a clause speaks of the rules, it names what is seen of a world
//! by `world_view` at the kind's state.

ghost use Rattle.std.specs.Prelude.{◌≡◌, ◌↔◌, ◌<◌, ◌++◌, ◌∷◌, [], ℕ, List, Option, Some, Ok, Err, ◌≤◌, ◌+◌, IfOk, IfErr, OnOk, OnErr, true, false, length, take, find, option_copied, vec_len, vec_capacity, IsTrue, map, replicate, slice_get, ◌==◌, if◌then◌else◌, drop};
ghost use Rattle.std.specs.Option.{option_map};
ghost use Rattle.act_rules.specs.declared.event.Event.{Event as Happening};
ghost use Rattle.act_rules.specs.History.{ActorSpec, opening};
ghost use Rattle.act_rules.specs.Laws.{history};
ghost use Rattle.act_rules.specs.Rules.{outcome_of};
ghost use Rattle.act_world.specs.View.{world_view, stage_view, is_owner, stage_in, Runs, Vacant, slot_view};
ghost use Rattle.act_world.specs.Refines.{IsOwnerAt, IsStage};
ghost use Rattle.act_world.specs.Headline.{IsConsistent};
ghost use Rattle.act_world.specs.Steps.{Steps};
ghost use Rattle.act_world.specs.Memory.{TakesMemory, TakesMemoryAt};
ghost use Rattle.act_world.specs.IsReachedBy.{IsReachedBy, is_memory, HasRoom, IsGrown, IsGrownBy, IsUnrefused, IsUnrefusedAt, HasPlayed};
ghost use Rattle.act_world.specs.Shown.{ShowsWhatIsTold, ShowsNothing};
ghost use Rattle.act_actor.specs.Cast.{IsFitting};
ghost use Rattle.act_actor.specs.Casts.{actor_spec, callers_named, limits_that_name};
ghost use Rattle.act_actor.specs.StateViews.{live_view};
ghost use Rattle.act_owner.specs.Owner.{opened_with};
ghost use Rattle.act_world.specs.Openings.{HasOwners};
ghost use Rattle.act_rules.specs.declared.event.Event.TheVariants as event;

use crate::network::{MailedNotice, Network, make_room_for, place_of};
use crate::slot::{
    Slot, Stage, bring, is_dead_in, kill_in, put, retire_in, run_in, slot_at, slot_of,
};
use act_actor::{Cast, Live, limits_of};
use act_kinds::{Actor, Boxed};
use act_owner::Owner;
use act_rules::{Did, Event, Outcome, WorldRefusal};
use act_types::{ACTOR_NUMBERS, ActorId, CallerId, CopyOf, NoMemory, Notice};
use std::alloc::Global;
use std::marker::Model;

/// A world of callers and actors.
#[derive(Drop)]
pub struct World<K = Boxed> {
    pub(crate) network: Network,
    /// The actors, by their numbers.
    pub(crate) slots: [Slot<K>; ACTOR_NUMBERS],
}

impl<K> Model for World<K> {
    ghost use Rattle.act_world.specs.View.{WorldOf};
    ghost use Rattle.act_world.specs.declared.slot.Slot.{Slot};

    ghost Value = { WorldOf (Slot K) };

    ghost view = { λ world. record { network = world.network; slots = world.slots } };
}

/// A world has fewer letters and notices than this: each has a place that a `u32` holds.
const MAX_PLACES: usize = 4_294_967_296;

/// Whether memory was refused, which is the one outcome that is not the rules'.
pub fn is_memory(told: &Outcome) -> bool
    ensures { result ≡ is_memory told.now }
{
    matches!(told, Err(WorldRefusal::NoMemory))
}

impl<K: Actor> World<K> {
    /// A letter is brought to its actor once more.
    fn deliver(&mut self, i: u32) -> Result<Outcome, NoMemory>
        ensures { Steps (world_view K.state) (event.Deliver i) self.old self.new result }
    {
        let World { network, slots } = self;
        let Some(letter) = network.letter(i) else {
            return Ok(Err(WorldRefusal::NoMail));
        };
        bring(network, &mut slots[slot_of(letter.actor())], letter)
    }

    /// The actor runs the caller's next call, if it has arrived, and tells the caller. Where that
    /// call ended the actor, it is dead from here on.
    fn run(&mut self, a: ActorId, c: CallerId) -> Result<Outcome, NoMemory>
        requires room { HasRoom 1 self.old.network }
        ensures { Steps (world_view K.state) (event.Run a c) self.old self.new result }
    {
        if let Some(refusal) = self.network.naming_refusal(c, a) {
            return Ok(Err(refusal));
        }
        let World { network, slots } = self;
        run_in(&mut slots[slot_of(a)], c, &mut network.replies)
    }

    /// The actor takes a kill, if one was asked.
    fn take_kill(&mut self, a: ActorId) -> Outcome
        ensures { Steps (world_view K.state) (event.TakeKill a) self.old self.new (Ok result) }
    {
        let asked = self.network.is_asked(a);
        kill_in(&mut self.slots[slot_of(a)], asked)
    }

    /// The dead actor tells the caller its death.
    fn tell(&mut self, a: ActorId, c: CallerId) -> Result<Outcome, NoMemory>
        requires room { HasRoom 1 self.old.network }
        ensures { Steps (world_view K.state) (event.Tell a c) self.old self.new result }
    {
        if let Some(refusal) = self.network.naming_refusal(c, a) {
            return Ok(Err(refusal));
        }
        if !is_dead_in(slot_at(&self.slots, a)) {
            return Ok(Err(WorldRefusal::NotDead));
        }
        self.network.replies.reserve(1)?;
        let j = self.network.replies.len() as u32;
        self.network.replies.push_reserved(MailedNotice {
            caller: c,
            notice: Notice::Death(a),
        });
        Ok(Ok(Did::Told(j)))
    }

    /// The actor ends by itself, where it is drained.
    fn retire(&mut self, a: ActorId) -> Outcome
        ensures { Steps (world_view K.state) (event.Retire a) self.old self.new (Ok result) }
    {
        retire_in(&mut self.slots[slot_of(a)])
    }

    /// One event. An `Err` leaves the world as it was.
    fn step(&mut self, event: &Event) -> Result<Outcome, NoMemory>
        requires room { HasRoom 1 self.old.network }
        ensures { Steps (world_view K.state) event.now self.old self.new result }
    {
        match event {
            Event::Submit(c, a, method, args) => self.network.submit_copy(*c, *a, *method, args),
            Event::Copy(c, a) => Ok(self.network.copy(*c, *a)),
            Event::Release(c, a) => self.network.release(*c, *a),
            Event::Send(c, k) => self.network.send(*c, *k),
            Event::Deliver(i) => self.deliver(*i),
            Event::Run(a, c) => self.run(*a, *c),
            Event::Collect(j) => self.network.collect(*j),
            Event::AskKill(c, a) => Ok(self.network.ask_kill(*c, *a)),
            Event::TakeKill(a) => Ok(self.take_kill(*a)),
            Event::Tell(a, c) => self.tell(*a, *c),
            Event::Retire(a) => Ok(self.retire(*a)),
        }
    }

    /// Whether there is room for so many events more: each adds one letter or notice at most.
    pub fn has_room(&self, count: usize) -> bool
        ensures { IsTrue result ↔ HasRoom count self.now.network }
    {
        let letters = self.network.mail.len();
        let notices = self.network.replies.len();
        letters < MAX_PLACES
            && notices < MAX_PLACES
            && count < MAX_PLACES
            && letters + notices + count < MAX_PLACES
    }

    /// Makes room for the calls that events submit, so that memory is asked for once and not call by
    /// call. It refuses nothing: where memory doesn't serve for so many, room is made call by call.
    pub fn make_room(&mut self, events: &[Event])
        ensures { self.new ≡ self.old }
    {
        make_room_for(&mut self.network.owners, events);
    }

    /// Does an event, and tells what it did or the first refusal that met it.
    pub fn apply(&mut self, event: &Event) -> Result<Did, WorldRefusal>
        requires room { HasRoom 1 self.old.network }
        ensures outcome { is_memory result ≡ false → (casts : List ActorSpec) (before : List Happening) →
            IsReachedBy casts before (world_view K.state self.old) →
            result ≡ outcome_of (history casts before) event.now }
        ensures reached { is_memory result ≡ false → (casts : List ActorSpec) (before : List Happening) →
            IsReachedBy casts before (world_view K.state self.old) →
            IsReachedBy casts (before ++ event.now ∷ []) (world_view K.state self.new) }
        ensures shown { (casts : List ActorSpec) (before : List Happening) →
            IsReachedBy casts before (world_view K.state self.old) →
            ShowsWhatIsTold (event.now ∷ []) (result ∷ []) (world_view K.state self.old) (world_view K.state self.new) }
        ensures grown { IsGrown self.old.network self.new.network }
        // Want of memory comes last.
        ensures memory_last { is_memory result ≡ true → IsUnrefused event.now (world_view K.state self.old) }
        // It comes for no event that takes none.
        ensures memory { is_memory result ≡ true → TakesMemory event.now (world_view K.state self.old) }
        ensures err { OnErr result (self.new ≡ self.old) }
    {
        self.step(event).unwrap_or(Err(WorldRefusal::NoMemory))
    }

    /// Does an event that is handed over, as `apply` does: the arguments of a submission are moved to
    /// its caller, and none is copied.
    pub fn apply_owned(&mut self, event: Event) -> Result<Did, WorldRefusal>
        requires room { HasRoom 1 self.old.network }
        ensures outcome { is_memory result ≡ false → (casts : List ActorSpec) (before : List Happening) →
            IsReachedBy casts before (world_view K.state self.old) →
            result ≡ outcome_of (history casts before) event }
        ensures reached { is_memory result ≡ false → (casts : List ActorSpec) (before : List Happening) →
            IsReachedBy casts before (world_view K.state self.old) →
            IsReachedBy casts (before ++ event ∷ []) (world_view K.state self.new) }
        ensures shown { (casts : List ActorSpec) (before : List Happening) →
            IsReachedBy casts before (world_view K.state self.old) →
            ShowsWhatIsTold (event ∷ []) (result ∷ []) (world_view K.state self.old) (world_view K.state self.new) }
        ensures grown { IsGrown self.old.network self.new.network }
        // Want of memory comes last.
        ensures memory_last { is_memory result ≡ true → IsUnrefused event (world_view K.state self.old) }
        // It comes for no event that takes none.
        ensures memory { is_memory result ≡ true → TakesMemory event (world_view K.state self.old) }
        ensures err { OnErr result (self.new ≡ self.old) }
    {
        match event {
            Event::Submit(c, a, method, args) => self
                .network
                .submit(c, a, method, args)
                .unwrap_or(Err(WorldRefusal::NoMemory)),
            other => self.apply(&other),
        }
    }

    /// Does events in order, and adds what is told of each. It stops only where memory is refused,
    /// and tells at which place. Room for all outcomes is asked for first, and where it is refused,
    /// the place is 0.
    pub fn play(&mut self, events: &[Event], told: &mut Vec<Outcome>) -> Result<(), u32>
        requires room { HasRoom (length events.now) self.old.network }
        ensures ok { OnOk result (HasPlayed events.now (world_view K.state self.old)
            (world_view K.state self.new) told.old.items told.new.items) }
        ensures grown { IsGrownBy (length events.now) self.old.network self.new.network }
        ensures place { IfErr result (λ i. i < length events.now) }
        ensures err { IfErr result (λ i. HasPlayed (take i events.now) (world_view K.state self.old)
            (world_view K.state self.new) told.old.items told.new.items) }
        ensures shown { (casts : List ActorSpec) (before : List Happening) →
            IsReachedBy casts before (world_view K.state self.old) →
            ShowsWhatIsTold events.now (drop (length told.old.items) told.new.items)
            (world_view K.state self.old) (world_view K.state self.new) }
        ensures first { result ≡ Err 0 → (self.new ≡ self.old) × (told.new.items ≡ told.old.items) }

        // Nothing refuses the event of a later stop, nor that of any stop where there is room for
        // all outcomes.
        ensures memory_last { IfErr result (λ i. 0 < i → IsUnrefusedAt i events.now (world_view K.state self.new)) }
        ensures last_with_room { vec_len told.old + length events.now ≤ vec_capacity told.new →
            IfErr result (λ i. IsUnrefusedAt i events.now (world_view K.state self.new)) }

        // And that event takes memory.
        ensures memory { IfErr result (λ i. 0 < i → TakesMemoryAt i events.now (world_view K.state self.new)) }
        ensures memory_with_room { vec_len told.old + length events.now ≤ vec_capacity told.new →
            IfErr result (λ i. TakesMemoryAt i events.now (world_view K.state self.new)) }
        ensures capacity { vec_capacity told.old ≤ vec_capacity told.new }
    {
        let Ok(()) = told.reserve(events.len()) else {
            return Err(0);
        };
        self.play_reserved(events, told)
    }

    /// Does events in order, as `play` does, where the list has room for what is told of them. So it
    /// stops only at an event that wants memory.
    #[tactic(auto, using(crate::proofs::Playing::unrefused_at, crate::proofs::Playing::memory_at, crate::proofs::Playing::grown_within))]
    pub fn play_reserved(&mut self, events: &[Event], told: &mut Vec<Outcome>) -> Result<(), u32>
        requires room { HasRoom (length events.now) self.old.network }
        requires reserved { vec_len told.old + length events.now ≤ vec_capacity told.old }
        ensures ok { OnOk result (HasPlayed events.now (world_view K.state self.old)
            (world_view K.state self.new) told.old.items told.new.items) }
        ensures grown { IsGrownBy (length events.now) self.old.network self.new.network }
        ensures place { IfErr result (λ i. i < length events.now) }
        ensures err { IfErr result (λ i. HasPlayed (take i events.now) (world_view K.state self.old)
            (world_view K.state self.new) told.old.items told.new.items) }
        ensures shown { (casts : List ActorSpec) (before : List Happening) →
            IsReachedBy casts before (world_view K.state self.old) →
            ShowsWhatIsTold events.now (drop (length told.old.items) told.new.items)
            (world_view K.state self.old) (world_view K.state self.new) }
        ensures first { result ≡ Err 0 → (self.new ≡ self.old) × (told.new.items ≡ told.old.items) }

        // Nothing refuses the event that it stops at, and that event takes memory.
        ensures memory_last { IfErr result (λ i. IsUnrefusedAt i events.now (world_view K.state self.new)) }
        ensures memory { IfErr result (λ i. TakesMemoryAt i events.now (world_view K.state self.new)) }
        ensures capacity { vec_capacity told.old ≤ vec_capacity told.new }
    {
        for (i, event) in events.iter().enumerate() {
            let Ok(outcome) = self.step(event) else {
                return Err(i as u32);
            };
            told.push_reserved(outcome);
        }
        Ok(())
    }

    /// A standing world is consistent. Each actor ran a prefix of what each of its callers submitted
    /// to it, in order, each call once. Each answer kept is that of the call's place in a run list, or
    /// a dead actor's fault.
    pub fn consistent(&self)
        ensures { (casts : List ActorSpec) (events : List Happening) →
            IsReachedBy casts events (world_view K.state self.now) →
            IsConsistent casts (world_view K.state self.now) }
    {}

    /// A caller, where some cast names it.
    pub fn owner(&self, c: CallerId) -> Option<&Owner>
        ensures shown { option_copied result ≡ find (is_owner c) self.now.network.owners }
        ensures reached { (casts : List ActorSpec) (events : List Happening) →
            IsReachedBy casts events (world_view K.state self.now) →
            IsOwnerAt (history casts events) c (option_copied result) }
    {
        self.network.owner(c)
    }

    /// An actor in the state that it is in, where it has a cast.
    pub fn stage(&self, a: ActorId) -> Option<Stage<'_, K>>
        ensures shown { option_map (stage_view K.state) result ≡ stage_in (world_view K.state self.now) a }
        ensures reached { (casts : List ActorSpec) (events : List Happening) →
            IsReachedBy casts events (world_view K.state self.now) →
            IsStage (history casts events) a (option_map (stage_view K.state) result) }
    {
        slot_at(&self.slots, a).stage()
    }
}

/// Adds a caller that isn't there yet, with its first handles and the limits of its actors.
fn add_owner<K>(
    alloc: Global,
    owners: &mut Vec<Owner>,
    casts: &[Cast<K>],
    c: CallerId,
) -> Result<(), NoMemory>
    requires fit { IsFitting casts.now }
    ensures { OnOk result ((callers : List ℕ) → HasOwners casts.now callers owners.old.items →
        HasOwners casts.now (callers ++ c ∷ []) owners.new.items) }
{
    if place_of(owners.as_slice(), c).is_some() {
        return Ok(());
    }
    let limits = limits_of(alloc, casts, c)?;
    let owner = Owner::open_with(alloc, c, limits.as_slice())?;
    owners.push(owner)?;
    Ok(())
}

/// Adds those of these callers that aren't there yet.
fn add_owners<K>(
    alloc: Global,
    owners: &mut Vec<Owner>,
    casts: &[Cast<K>],
    these: &[CallerId],
) -> Result<(), NoMemory>
    requires fit { IsFitting casts.now }
    ensures { OnOk result ((callers : List ℕ) → HasOwners casts.now callers owners.old.items →
        HasOwners casts.now (callers ++ these.now) owners.new.items) }
{
    for c in these {
        add_owner(alloc, owners, casts, *c)?;
    }
    Ok(())
}

/// The callers that the casts name.
fn owners_of<K>(alloc: Global, casts: &[Cast<K>]) -> Result<Vec<Owner>, NoMemory>
    requires fit { IsFitting casts.now }
    ensures { IfOk result (λ owners. HasOwners casts.now (callers_named casts.now) owners.items) }
{
    let mut owners = Vec::new(alloc);
    for cast in casts {
        add_owners(alloc, &mut owners, casts, cast.callers.as_slice())?;
    }
    Ok(owners)
}

/// Slots with no actors.
fn vacant_slots<K: Actor>() -> [Slot<K>; ACTOR_NUMBERS]
    ensures { map (slot_view K.state) result ≡ replicate ACTOR_NUMBERS Vacant }
{
    [
        Slot::Vacant,
        Slot::Vacant,
        Slot::Vacant,
        Slot::Vacant,
        Slot::Vacant,
        Slot::Vacant,
        Slot::Vacant,
        Slot::Vacant,
        Slot::Vacant,
    ]
}

/// Puts an actor in its slot.
fn fill_slot<K: Actor>(slots: &mut [Slot<K>; ACTOR_NUMBERS], a: ActorId, live: Live<K>)
    ensures { (b : ℕ) → slice_get (map (slot_view K.state) slots.new) b ≡
        (if a == b then Some (Runs (live_view K.state live)) else slice_get (map (slot_view K.state) slots.old) b) }
{
    put(&mut slots[slot_of(a)], Slot::Live(live));
}

/// The actors, each in its opening state.
fn slots_of<K: Actor>(
    alloc: Global,
    casts: Vec<Cast<K>>,
) -> Result<[Slot<K>; ACTOR_NUMBERS], NoMemory>
    requires fit { IsFitting casts.items }
    ensures { IfOk result (λ slots.
        (a : ℕ) → IsStage (opening (map (actor_spec K.state) casts.items)) a
        (slice_get (map (slot_view K.state) slots) a)) }
{
    let mut slots = vacant_slots();
    for cast in casts {
        let Cast {
            actor,
            callers,
            kind,
            pending: _,
        } = cast;
        let live = Live::open_keeping(alloc, actor, callers.as_slice(), kind)?;
        fill_slot(&mut slots, actor, live);
    }
    Ok(slots)
}

impl<K: Actor> World<K> {
    /// A world of these actors, each in its opening state, and of the callers that they name. Each has
    /// one copy of the handle of every actor that names it, and each one's limit.
    pub fn open(alloc: Global, casts: Vec<Cast<K>>) -> Result<World<K>, NoMemory>
        requires fit { IsFitting casts.items }
        ensures reached { IfOk result (λ world.
            IsReachedBy (map (actor_spec K.state) casts.items) [] (world_view K.state world)) }
        ensures shown { IfOk result (λ world. ShowsNothing (world_view K.state world)) }
        // The room that events ask for is there.
        ensures empty { IfOk result (λ world. length world.network.mail + length world.network.replies ≡ 0) }
    {
        let owners = owners_of(alloc, casts.as_slice())?;
        let slots = slots_of(alloc, casts)?;
        Ok(World {
            network: Network {
                owners,
                mail: Vec::new(alloc),
                replies: Vec::new(alloc),
                asked: [false; ACTOR_NUMBERS],
            },
            slots,
        })
    }
}
