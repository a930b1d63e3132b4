//! The calls of one caller, and which of them may be sent next.

ghost use Rattle.std.specs.Prelude.{◌≡◌, ℕ, ◌+◌, ◌-◌, ◌<◌, ◌≤◌, ◌==◌, ◌&&◌, not, false, Some, None, [], ◌∷◌, ◌++◌, if◌then◌else◌, length, All, IsOk, OnOk, OnErr, slice_get, slice_set, slice_index_or, ◌*◌, drop};
ghost use Rattle.std.specs.Option.{option_copied};
ghost use Rattle.act_resolver.specs.Resolver.{new_call, is_answered, is_marked_sent, is_told, least_ready, with_told, with_mark};
ghost use Rattle.act_resolver.specs.Counts.{calls_of, is_free, count_number, missing_at, missing_of, with_one_less};
ghost use Rattle.act_resolver.specs.Waiters.{waiters_of};

use crate::least::LeastSet;
use act_types::{FutureId, MAX_ARGS, NoMemory};
use std::alloc::Global;
use std::marker::Model;
use std::snapshot::Snapshot;

/// A call that was entered. Its futures are known to contracts alone.
#[derive(Drop)]
struct Call {
    futures: Snapshot<Futures>,
    /// How many places among its arguments wait for an answer.
    missing: u8,
    answered: bool,
    sent: bool,
}

impl Model for Call {
    ghost use Rattle.act_resolver.specs.Counts.{Row};

    ghost Value = { Row };

    ghost view = { λ call. record {
      call = record { futures = call.futures.value; answered = call.answered; sent = call.sent };
      missing = call.missing;
    } };
}

/// The calls of one caller, numbered from 0 as their futures are. Each names the futures that it
/// waits for, and it may be sent once they are all answered.
#[derive(Drop)]
pub struct Resolver {
    calls: Vec<Call>,
    waiters: Waiters,
    ready: LeastSet,
}

impl Model for Resolver {
    ghost use Rattle.std.specs.Prelude.{◌-◌, ◌/◌, min, length, vec_len, vec_capacity};
    ghost use Rattle.act_types.specs.declared.limits.TheConstants.{MAX_ARGS};
    ghost use Rattle.act_resolver.specs.Counts.{IsResolver, calls_of};
    ghost use Rattle.act_resolver.specs.Resolver.{ResolverView};

    ghost Value = { ResolverView };

    ghost view = { λ resolver. record {
      calls = calls_of resolver.calls.items;
      spare = min (vec_capacity resolver.calls - vec_len resolver.calls)
          (min (min resolver.waiters.future_room (resolver.waiters.place_room / MAX_ARGS))
          (length resolver.ready - vec_len resolver.calls));
    } };

    ghost invariant = { λ resolver. IsResolver resolver.calls.items resolver.waiters.lists resolver.ready };
}

impl Resolver {
    /// No calls.
    pub fn new(alloc: Global) -> Resolver
        ensures { result.calls ≡ [] }
    {
        Resolver {
            calls: Vec::new(alloc),
            waiters: Waiters::new(alloc),
            ready: LeastSet::new(alloc),
        }
    }

    /// Makes room for one more call. Where there is room it takes no memory.
    pub fn reserve_one(&mut self) -> Result<(), NoMemory>
        ensures calls { self.new.calls ≡ self.old.calls }
        ensures ok { OnOk result (1 ≤ self.new.spare) }
        ensures room { 1 ≤ self.old.spare → IsOk result }
        ensures spare { self.old.spare ≤ self.new.spare }
    {
        self.calls.reserve(1)?;
        self.waiters.reserve(1)?;
        self.ready.make_room(self.calls.len() + 1)?;
        Ok(())
    }

    /// Makes room for so many calls more, each with as many futures as it may name. Where there is as
    /// much room it takes no memory.
    pub fn reserve(&mut self, count: usize) -> Result<(), NoMemory>
        ensures calls { self.new.calls ≡ self.old.calls }
        ensures ok { OnOk result (count ≤ self.new.spare) }
        ensures room { count ≤ self.old.spare → IsOk result }
        ensures spare { self.old.spare ≤ self.new.spare }
    {
        self.calls.reserve(count)?;
        self.waiters.reserve(count)?;
        self.ready.make_room(self.calls.len() + count)?;
        Ok(())
    }

    /// Makes room for so many calls more, but not for the futures that they name: that comes call by
    /// call, since most calls name none.
    pub fn reserve_calls(&mut self, calls: usize) -> Result<(), NoMemory>
        ensures calls { self.new.calls ≡ self.old.calls }
        ensures spare { self.old.spare ≤ self.new.spare }
    {
        self.calls.reserve(calls)?;
        self.waiters.reserve_futures(calls)?;
        self.ready.make_room(self.calls.len() + calls)?;
        Ok(())
    }

    /// Enters call `k`, the next, with the futures among its arguments. It waits for those that
    /// aren't answered yet. Where there is room it takes no memory.
    pub fn enter(&mut self, k: FutureId, futures: &[FutureId]) -> Result<(), NoMemory>
        requires next { k ≡ length self.old.calls }
        requires at_most_four { length futures.now ≤ MAX_ARGS }
        requires earlier { All (λ future. future < k) futures.now }

        ensures ok { OnOk result (self.new.calls ≡ self.old.calls ++ new_call futures.now ∷ []) }
        ensures err { OnErr result (self.new.calls ≡ self.old.calls) }
        ensures room { 1 ≤ self.old.spare → IsOk result }
        ensures spare { self.old.spare ≤ self.new.spare + 1 }
    {
        self.reserve_one()?;
        self.enter_reserved(k, futures);
        Ok(())
    }

    /// The same, where room was made before.
    pub fn enter_reserved(&mut self, k: FutureId, futures: &[FutureId])
        requires room { 1 ≤ self.old.spare }
        requires next { k ≡ length self.old.calls }
        requires at_most_four { length futures.now ≤ MAX_ARGS }
        requires earlier { All (λ future. future < k) futures.now }

        ensures calls { self.new.calls ≡ self.old.calls ++ new_call futures.now ∷ [] }
        ensures spare { self.old.spare ≤ self.new.spare + 1 }
    {
        prove_eq!(k.number() as usize, self.calls.len());
        self.waiters.add_future();
        let missing = add_places(&self.calls, &mut self.waiters, k, futures);
        self.calls.push_reserved(Call {
            futures: Snapshot::of(&Futures::new(futures)),
            missing,
            answered: false,
            sent: false,
        });
        self.ready.set(k.number() as usize, missing == 0);
    }

    /// Call `k` is answered, so it is never ready again, and no call waits for it. It costs a few steps
    /// for each place that waited for it.
    #[inline(always)]
    pub fn told(&mut self, k: FutureId)
        requires { k < length self.old.calls }
        ensures calls { self.new.calls ≡ with_told self.old.calls k }
        ensures spare { self.old.spare ≤ self.new.spare }
    {
        let place = k.number() as usize;
        let call = &mut self.calls[place];
        let may_be_ready = !call.sent && !call.answered;
        call.answered = true;
        take_out(&mut self.ready, place, may_be_ready);
        while let Some(waiter) = self.waiters.pop(k) {
            tell_place(&mut self.calls, &mut self.ready, waiter);
        }
    }

    /// Call `k` was sent, so it is never ready again.
    pub fn mark_sent(&mut self, k: FutureId)
        requires { k < length self.old.calls }
        ensures calls { self.new.calls ≡ with_mark self.old.calls k }
        ensures spare { self.old.spare ≤ self.new.spare }
    {
        let place = k.number() as usize;
        let call = &mut self.calls[place];
        call.sent = true;
        self.ready.set(place, false);
    }

    /// The least call that may be sent: every future among its arguments is answered, and it was
    /// neither sent nor answered itself.
    pub fn ready(&self) -> Option<FutureId>
        ensures { result ≡ least_ready self.now.calls }
    {
        self.ready.least().map(FutureId::new)
    }

    /// Whether call `k` was entered and sent.
    pub fn is_sent(&self, k: FutureId) -> bool
        ensures { result ≡ is_marked_sent self.now.calls k }
    {
        call_at(&self.calls, k).is_some_and(|call| call.sent)
    }

    /// Whether call `k` was entered and every future among its arguments is answered.
    pub fn is_known(&self, k: FutureId) -> bool
        ensures { result ≡ is_told self.now.calls k }
    {
        call_at(&self.calls, k).is_some_and(|call| call.missing == 0)
    }
}

/// Takes a number out of the set. Where it can't be in the set there is nothing to write.
fn take_out(set: &mut LeastSet, k: usize, may_be_in: bool)
    requires below { k < length set.old }
    requires out { may_be_in ≡ false → slice_index_or set.old k false ≡ false }
    ensures { set.new ≡ slice_set set.old k false }
{
    if may_be_in {
        set.set(k, false);
    }
}

/// Has call `k` wait at each place for whose future there is no answer yet, and counts them.
fn add_places(calls: &[Call], waiters: &mut Waiters, k: FutureId, futures: &[FutureId]) -> u8
    requires at_most_four { length futures.now ≤ MAX_ARGS }
    requires earlier { All (λ future. future < length waiters.old.lists) futures.now }
    requires room { MAX_ARGS ≤ waiters.old.place_room }

    ensures count { result ≡ missing_of (calls_of calls.now) futures.now }
    ensures lists { (future call : ℕ) →
        count_number call (waiters_of waiters.new.lists future)
        ≡ count_number call (waiters_of waiters.old.lists future)
        + (if (call == k) && not (is_answered (calls_of calls.now) future) then count_number future futures.now
        else 0) }
    ensures length { length waiters.new.lists ≡ length waiters.old.lists }
    ensures future_room { waiters.new.future_room ≡ waiters.old.future_room }
    ensures place_room { waiters.old.place_room ≤ waiters.new.place_room + MAX_ARGS }
{
    let mut missing = 0;
    for future in futures {
        if !is_answered(calls, *future) {
            waiters.add(*future, k);
            missing += 1;
        }
    }
    missing
}

fn is_answered(calls: &[Call], k: FutureId) -> bool
    ensures { result ≡ is_answered (calls_of calls.now) k }
{
    call_at(calls, k).is_some_and(|call| call.answered)
}

fn call_at(calls: &[Call], k: FutureId) -> Option<&Call>
    ensures { option_copied result ≡ slice_get calls.now k }
{
    calls.get(k.number() as usize)
}

/// One place of call `k` waits no more.
fn tell_place(calls: &mut [Call], ready: &mut LeastSet, k: FutureId)
    requires entered { k < length calls.old }
    requires waits { 1 ≤ missing_at calls.old k }
    requires room { length calls.old ≤ length ready.old }

    ensures calls { calls.new ≡ with_one_less calls.old k }
    ensures ready { ready.new ≡ slice_set ready.old k (is_free calls.new k) }
{
    let place = k.number() as usize;
    let call = &mut calls[place];
    call.missing -= 1;
    let is_free = call.missing == 0 && !call.sent && !call.answered;
    ready.set(place, is_free);
}

/// The place of a place, or none: four bytes, where an `Option<u32>` has eight.
#[derive(Clone, Copy)]
struct Link {
    /// One more than the place, and 0 for none.
    number: u32,
}

impl Model for Link {
    ghost use Rattle.std.specs.Prelude.{◌≡◌, ℕ, zero, suc, refl, Option};
    ghost use Rattle.act_resolver.specs.Links.{link_of, number_of};

    ghost Value = { Option ℕ };

    ghost view = { λ link. link_of link.number };

    ghost inverse = { λ place. record { number = number_of place } };

    ghost inverse_ok = { λ link is_in i. record {
      number = (elim link.number as (λ n. number_of (link_of n) ≡ n) [ zero ↦ refl | suc n ↦ refl ]) i;
    } };
}

impl Link {
    fn to(place: u32) -> Link
        requires { place < 4294967295 }
        ensures { result ≡ Some place }
    {
        Link { number: place + 1 }
    }

    fn place(self) -> Option<u32>
        ensures { result ≡ self }
    {
        let Link { number } = self;
        if number == 0 {
            return None;
        }
        Some(number - 1)
    }
}

/// A place among a call's arguments that waits for a future, and the next place that waits for the
/// same one.
#[derive(Clone, Copy)]
struct Place {
    call: FutureId,
    next: Link,
}

/// For each future the calls that wait for it, the latest first. A call stands there once for each
/// place among its arguments.
#[derive(Drop)]
pub struct Waiters {
    firsts: Vec<Link>,
    places: Vec<Place>,
}

impl Model for Waiters {
    ghost use Rattle.std.specs.Prelude.{◌-◌, min, vec_len, vec_capacity};
    ghost use Rattle.act_resolver.specs.Waiters.{WaitersView, AreWaiters, chains_of};

    ghost Value = { WaitersView };

    ghost view = { λ waiters. record {
      lists = chains_of waiters.firsts.items waiters.places.items;
      future_room = vec_capacity waiters.firsts - vec_len waiters.firsts;
      place_room = min (vec_capacity waiters.places) 4294967295 - vec_len waiters.places;
    } };

    ghost invariant = { λ waiters. AreWaiters waiters.firsts.items waiters.places.items };
}

impl Waiters {
    /// No futures.
    pub fn new(alloc: Global) -> Waiters
        ensures { result.lists ≡ [] }
    {
        Waiters {
            firsts: Vec::new(alloc),
            places: Vec::new(alloc),
        }
    }

    /// Makes room for so many futures more, and for the places of as many calls, whose numbers are
    /// below 2^32.
    pub fn reserve(&mut self, count: usize) -> Result<(), NoMemory>
        ensures lists { self.new.lists ≡ self.old.lists }
        ensures future_room { OnOk result (count ≤ self.new.future_room) }
        ensures place_room { OnOk result (MAX_ARGS * count ≤ self.new.place_room) }
        ensures room { count ≤ self.old.future_room → MAX_ARGS * count ≤ self.old.place_room → IsOk result }
        ensures future_room_stays { self.old.future_room ≤ self.new.future_room }
        ensures place_room_stays { self.old.place_room ≤ self.new.place_room }
    {
        let places_left = (u32::MAX as usize).saturating_sub(self.places.len());
        if count > places_left / MAX_ARGS {
            return Err(NoMemory);
        }
        self.firsts.reserve(count)?;
        self.places.reserve(MAX_ARGS * count)?;
        Ok(())
    }

    /// Makes room for so many futures more, and for no places.
    pub fn reserve_futures(&mut self, futures: usize) -> Result<(), NoMemory>
        ensures lists { self.new.lists ≡ self.old.lists }
        ensures future_room { OnOk result (futures ≤ self.new.future_room) }
        ensures room { futures ≤ self.old.future_room → IsOk result }
        ensures future_room_stays { self.old.future_room ≤ self.new.future_room }
        ensures place_room { self.new.place_room ≡ self.old.place_room }
    {
        self.firsts.reserve(futures)?;
        Ok(())
    }

    /// Adds the next future, for which no call waits.
    pub fn add_future(&mut self)
        requires { 1 ≤ self.old.future_room }
        ensures lists { self.new.lists ≡ self.old.lists ++ [] ∷ [] }
        ensures future_room { self.old.future_room ≡ self.new.future_room + 1 }
        ensures place_room { self.new.place_room ≡ self.old.place_room }
    {
        self.firsts.push_reserved(Link { number: 0 });
    }

    /// Puts the call in front of those that wait for the future.
    pub fn add(&mut self, future: FutureId, call: FutureId)
        requires entered { future < length self.old.lists }
        requires room { 1 ≤ self.old.place_room }
        ensures lists { self.new.lists
            ≡ slice_set self.old.lists future (call ∷ waiters_of self.old.lists future) }
        ensures future_room { self.new.future_room ≡ self.old.future_room }
        ensures place_room { self.old.place_room ≡ self.new.place_room + 1 }
    {
        let future = future.number() as usize;
        let next = self.firsts[future];
        let place = self.places.len() as u32;
        self.places.push_reserved(Place { call, next });
        self.firsts[future] = Link::to(place);
    }

    /// Takes the first of the calls that wait for the future.
    pub fn pop(&mut self, future: FutureId) -> Option<FutureId>
        requires { future < length self.old.lists }
        ensures value { result ≡ slice_get (waiters_of self.old.lists future) 0 }
        ensures lists { self.new.lists
            ≡ slice_set self.old.lists future (drop 1 (waiters_of self.old.lists future)) }
        ensures future_room { self.new.future_room ≡ self.old.future_room }
        ensures place_room { self.new.place_room ≡ self.old.place_room }
    {
        let future = future.number() as usize;
        let first = self.firsts[future].place()?;
        let place = self.places[first as usize];
        self.firsts[future] = place.next;
        Some(place.call)
    }
}

/// At most four futures, kept without memory of their own.
#[derive(Drop)]
pub struct Futures {
    places: [FutureId; MAX_ARGS],
    count: u8,
}

impl Model for Futures {
    ghost use Rattle.std.specs.Prelude.{ℕ, ◌≤◌, List, take};
    ghost use Rattle.act_types.specs.declared.limits.TheConstants.{MAX_ARGS};

    ghost Value = { List ℕ };

    ghost view = { λ futures. take futures.count futures.places };

    ghost invariant = { λ futures. futures.count ≤ MAX_ARGS };
}

impl Futures {
    /// These futures.
    pub fn new(futures: &[FutureId]) -> Futures
        requires { length futures.now ≤ MAX_ARGS }
        ensures { result ≡ futures.now }
    {
        let mut places = [FutureId::new(0); MAX_ARGS];
        let count = futures.len();
        places[..count].copy_from_slice(futures);
        Futures {
            places,
            count: count as u8,
        }
    }

    /// Adds a future at the end.
    pub fn push(&mut self, future: FutureId)
        requires { length self.old < MAX_ARGS }
        ensures { self.new ≡ self.old ++ future ∷ [] }
    {
        self.places[self.count as usize] = future;
        self.count += 1;
    }

    /// The futures as a slice.
    pub fn as_slice(&self) -> &[FutureId]
        ensures { result.now ≡ self.now }
    {
        &self.places[..self.count as usize]
    }
}
