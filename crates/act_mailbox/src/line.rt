//! A queue with many putters and one taker.
//!
//! What was taken of a putter, and then what the queue holds of it, is what it put, in order.

ghost use Rattle.std.specs.Prelude.{◌≡◌, ◌≢◌, ℕ, ◌≤◌, ◌<◌, [], ◌∷◌, ◌++◌, map, zip, AllPairs, Contains, IfOk, OnOk, IfErr, OnErr, IfSome, IfNone, List, ◌+◌, min};
ghost use Rattle.act_rules.specs.Consistent.{IsPrefix};
ghost use Rattle.act_mailbox.specs.Lines.{items_from, taking};
ghost use Rattle.act_mailbox.specs.Passes.{new_putter, new_taker};
ghost use Rattle.act_mailbox.specs.declared.thread.TheConstants.{SHORT_PAUSES};
ghost use Rattle.crossbeam_queue.specs.Passes.{view as known};

use crate::bell::Bell;
use crate::thread::IdleBackoff;
use act_types::{CallerId, NoMemory};
use crossbeam_queue::protocol::{Join, Lesson, Outcome, Protocol, Split};
use crossbeam_queue::{Pass, RuledArrayQueue};
use std::alloc::Global;
use std::collections::LinkedList;
use std::marker::{Brand, Model, PhantomData};
use std::sync::Wait;

/// A queue under the rule of its putters and its taker.
#[derive(Drop)]
pub(crate) struct Line<T: Item, N> {
    queue: RuledArrayQueue<T, View<(T, u64), N>, InOrder>,
    bell: Bell,
}

impl<T: Item, N> Model for Line<T, N> {
    ghost use Rattle.atomic_table.specs.Seated.{TableId, table_id_coded};

    ghost Value = { TableId };

    ghost coded = { table_id_coded };

    ghost view = { λ line. line.queue.table.shared.table_id };
}

impl<T: Item, N> Line<T, N> {
    /// An empty line, and the taker's pass.
    pub(crate) fn open(
        alloc: Global,
        capacity: usize,
    ) -> Result<(Line<T, N>, Taker<T, N>), NoMemory>
        requires room { 0 < capacity }
        ensures taker { IfOk result (λ opened. opened.1 ≡ new_taker opened.0 []) }
    {
        let (queue, pass) = RuledArrayQueue::ruled(alloc, capacity)?;
        let bell = Bell::new();
        Ok((Line { queue, bell }, Taker::of(pass)))
    }

    /// The pass of one more putter.
    pub(crate) fn deal(&self, taker: &mut Taker<T, N>, number: u8) -> Putter<T, N>
        requires line { taker.old.line ≡ self.now }
        requires new { Contains taker.old.putters number → ⊥ }
        ensures taker { taker.new ≡ record taker.old { putters = taker.old.putters ++ number ∷ [] } }
        ensures putter { result ≡ new_putter self.now number }
    {
        self.deal_as::<Brand>(taker, number)
    }

    /// The same, where `P` names the putter.
    fn deal_as<P: Named>(&self, taker: &mut Taker<T, N>, number: u8) -> Putter<T, N>
        requires line { taker.old.line ≡ self.now }
        requires new { Contains taker.old.putters number → ⊥ }
        requires name { P.name ≡ number }
        ensures taker { taker.new ≡ record taker.old { putters = taker.old.putters ++ number ∷ [] } }
        ensures putter { result ≡ new_putter self.now number }
    {
        let pass = self.queue.another::<Deals<P>>(&mut taker.pass);
        Putter { number, pass }
    }

    /// A pass for each caller, in the order of the list.
    pub(crate) fn deal_all(
        &self,
        alloc: Global,
        taker: &mut Taker<T, N>,
        callers: &[CallerId],
    ) -> Result<Vec<Putter<T, N>>, NoMemory>
    where
        T: Drop,
        N: Drop,
        requires line { taker.old.line ≡ self.now }
        requires distinct { AllPairs (λ one other. one ≢ other) callers.now }
        requires new { (number : ℕ) → 1 ≤ number → Contains taker.old.putters number → ⊥ }
        ensures taker { OnOk result (taker.new ≡ record taker.old { putters = taker.old.putters ++ callers.now }) }
        ensures putters { IfOk result (λ putters. putters.items ≡ map (new_putter self.now) callers.now) }
    {
        let mut putters = Vec::with_capacity(alloc, callers.len())?;
        for caller in callers {
            putters.push(self.deal(taker, caller.number()))?;
        }
        Ok(putters)
    }

    /// Puts an item with the stamp `S`, and `L` is the putter's label from then on. Hands the item
    /// back where the line is full.
    pub(crate) fn put<L: Labelled<N>, S: Stamped, R: Wait>(
        &self,
        rt: &R,
        putter: &mut Putter<T, N>,
        item: T,
    ) -> Result<(), T>
        requires line { putter.old.line ≡ self.now }
        requires number { T.putter item ≡ putter.old.number }
        ensures ok { OnOk result
            (putter.new ≡ record putter.old {
              put = putter.old.put ++ item ∷ [];
              stamps = putter.old.stamps ++ S.stamp ∷ [];
              label = L.label;
            }) }
        ensures err { OnErr result (putter.new ≡ putter.old) }
        ensures back { IfErr result (λ back. back ≡ item) }
    {
        let put = self
            .queue
            .push_as::<Puts<L, S>, R>(rt, &mut putter.pass, item);
        self.bell.ring();
        put
    }

    /// The taker found nothing to do: a pause, which ends where something is put, if it is long.
    pub(crate) fn pause<R: Wait>(&self, rt: &R, idle_backoff: &mut IdleBackoff)
        ensures { idle_backoff.new ≡ min (idle_backoff.old + 1) SHORT_PAUSES }
    {
        idle_backoff.pause_at(rt, &self.bell);
    }

    /// Ends such a pause.
    pub(crate) fn wake(&self) {
        self.bell.ring();
    }

    /// Takes an item, and `L` is the taker's label from then on. `None` where the line is empty.
    pub(crate) fn take<L: Labelled<N>, R: Wait>(&self, rt: &R, taker: &mut Taker<T, N>) -> Option<T>
        requires line { taker.old.line ≡ self.now }
        ensures taken { IfSome result (λ item.
            taker.new ≡ record taker.old {
              taken = taker.old.taken ++ item ∷ [];
              stamps = taker.new.stamps;
              label = L.label;
            }) }
        ensures stamped { IfSome result (λ item. (n : ℕ) × (taker.new.stamps ≡ taker.old.stamps ++ n ∷ [])) }
        ensures none { IfNone result (taker.new ≡ taker.old) }
        ensures known { IfSome result (λ item. Contains taker.old.putters (T.putter item)) }
    {
        self.queue.pop_as::<Takes<L>, R>(rt, &mut taker.pass)
    }

    /// One attempt to take. `None` where the first item isn't there yet: also while the put of an
    /// item before others isn't finished. It leaves alone the word that every put changes.
    pub(crate) fn try_take<L: Labelled<N>>(&self, taker: &mut Taker<T, N>) -> Option<T>
        requires line { taker.old.line ≡ self.now }
        ensures taken { IfSome result (λ item.
            taker.new ≡ record taker.old {
              taken = taker.old.taken ++ item ∷ [];
              stamps = taker.new.stamps;
              label = L.label;
            }) }
        ensures stamped { IfSome result (λ item. (n : ℕ) × (taker.new.stamps ≡ taker.old.stamps ++ n ∷ [])) }
        ensures none { IfNone result (taker.new ≡ taker.old) }
        ensures known { IfSome result (λ item. Contains taker.old.putters (T.putter item)) }
    {
        self.queue.try_pop_as::<Takes<L>>(&mut taker.pass)
    }

    /// The length of the line. The putter sees a copy of what was taken, so it learns that its own
    /// part of that begins what it put.
    pub(crate) fn audit<R: Wait>(
        &self,
        rt: &R,
        putter: &mut Putter<T, N>,
        taker: &mut Taker<T, N>,
    ) -> usize
        requires lines { (putter.old.line ≡ self.now) × (taker.old.line ≡ self.now) }
        ensures same { (putter.new ≡ putter.old) × (taker.new ≡ taker.old) }
        ensures prefix { IsPrefix (items_from T.putter putter.old.number taker.old.taken) putter.old.put }
        ensures stamps { IsPrefix
            (items_from (λ x. T.putter x.0) putter.old.number (zip taker.old.taken taker.old.stamps))
            (zip putter.old.put putter.old.stamps) }
    {
        let copy = self.queue.another::<Copies>(&mut taker.pass);
        self.queue.absorb::<Sees>(&mut putter.pass, copy);
        self.queue.len_as::<Audits, R>(rt, &mut putter.pass)
    }
}

/// The pass of one putter.
#[derive(Drop)]
pub struct Putter<T, N> {
    number: u8,
    pass: Pass<T, View<(T, u64), N>>,
}

impl<T, N> Model for Putter<T, N> {
    ghost use Rattle.std.specs.Prelude.{◌≡◌, ℕ, [], List};
    ghost use Rattle.crossbeam_queue.specs.Passes.{view as known};
    ghost use Rattle.act_mailbox.specs.Lines.{putting, put_of, label_of, items_alone, stamps_alone};
    ghost use Rattle.act_mailbox.specs.Passes.{PutterView};

    ghost Value = { PutterView T N };

    ghost view = { λ p. record {
      line = p.pass.table_id;
      number = p.number;
      put = items_alone (put_of (known p.pass));
      stamps = stamps_alone (put_of (known p.pass));
      label = label_of (known p.pass);
    } };

    // It is at rest, and its view is a putter's.
    ghost invariant = { λ p. (p.pass.me.1 ≡ []) ×
        ((seen : List (T × ℕ)) ×
        (known p.pass ≡ putting p.number (put_of (known p.pass)) (label_of (known p.pass)) seen)) };
}

impl<T, N> Putter<T, N> {
    /// The putter's number.
    pub fn number(&self) -> u8
        ensures { result ≡ self.now.number }
    {
        self.number
    }
}

/// The pass of the taker.
#[derive(Drop)]
pub struct Taker<T, N> {
    pass: Pass<T, View<(T, u64), N>>,
}

impl<T, N> Model for Taker<T, N> {
    ghost use Rattle.std.specs.Prelude.{◌≡◌, []};
    ghost use Rattle.crossbeam_queue.specs.Passes.{view as known};
    ghost use Rattle.act_mailbox.specs.Lines.{taking, taken_of, label_of, putters_of, items_alone, stamps_alone};
    ghost use Rattle.act_mailbox.specs.Passes.{TakerView};

    ghost Value = { TakerView T N };

    ghost view = { λ p. record {
      line = p.pass.table_id;
      putters = putters_of (known p.pass);
      taken = items_alone (taken_of (known p.pass));
      stamps = stamps_alone (taken_of (known p.pass));
      label = label_of (known p.pass);
    } };

    // It is at rest, and its view is the taker's.
    ghost invariant = { λ p. (p.pass.me.1 ≡ []) ×
        (known p.pass ≡ taking (putters_of (known p.pass)) (taken_of (known p.pass)) (label_of (known p.pass))) };
}

impl<T, N> Taker<T, N> {
    /// The first pass of a line.
    fn of(pass: Pass<T, View<(T, u64), N>>) -> Taker<T, N>
        requires first { (pass.me.1 ≡ []) × (known pass ≡ taking [] [] []) }
        ensures { result ≡ new_taker pass.table_id [] }
    {
        Taker { pass }
    }
}

/// What a line carries: an item names its putter.
pub(crate) trait Item {
    ghost putter: { Self → ℕ };
}

/// The label of a pass after a step. Each call of a program picks it.
pub(crate) trait Labelled<N> {
    ghost label: { List N };
}

impl<N> Labelled<N> for Brand {
    ghost use Rattle.std.specs.Prelude.{[]};

    ghost label = { [] };
}

/// The stamp of an item: a number that proofs alone speak of. Each call of a program picks it.
pub trait Stamped {
    ghost stamp: { ℕ };
}

impl Stamped for Brand {
    ghost stamp = { 0 };
}

/// The number of a putter. Each call of a program picks it.
trait Named {
    ghost name: { ℕ };
}

impl Named for Brand {
    ghost name = { 0 };
}

struct InOrder;

impl<T: Item, N> Protocol<T, View<(T, u64), N>> for InOrder {
    ghost use Rattle.std.specs.Prelude.{[]};
    ghost use Rattle.act_mailbox.specs.Lines.{LinedByStamps, taking};

    ghost holds = { LinedByStamps T.putter };

    ghost first = { taking [] [] [] };
}

/// The taker makes the pass of the putter P.
struct Deals<P>(PhantomData<P>);

impl<T, N, P: Named> Split<View<T, N>> for Deals<P> {
    ghost use Rattle.std.specs.Prelude.{[]};
    ghost use Rattle.act_mailbox.specs.Lines.{after_deal, putting};

    ghost left = { after_deal P.name };

    ghost right = { λ v. putting P.name [] [] [] };
}

/// A copy of what the taker took.
struct Copies;

impl<T, N> Split<View<T, N>> for Copies {
    ghost use Rattle.act_mailbox.specs.Lines.{copied};

    ghost left = { λ v. v };

    ghost right = { copied };
}

/// A putter sees such a copy, which is spent.
struct Sees;

impl<T, N> Join<View<T, N>> for Sees {
    ghost use Rattle.act_mailbox.specs.Lines.{shown};
    ghost use Rattle.act_mailbox.specs.declared.line.View.TheVariants.{Spent};

    ghost both = { shown };

    ghost spent = { Spent };
}

/// A putter puts an item with the stamp S, and L is its label from then on.
struct Puts<L, S>(PhantomData<(L, S)>);

impl<T, N, L: Labelled<N>, S: Stamped> Outcome<T, View<(T, u64), N>> for Puts<L, S> {
    ghost use Rattle.std.specs.Prelude.{◌≡◌};
    ghost use Rattle.act_mailbox.specs.Lines.{after_put};

    ghost then = { λ v x w. w ≡ after_put (x, S.stamp) L.label v };
}

impl<T, N, L: Labelled<N>, S: Stamped> Lesson<T, View<(T, u64), N>> for Puts<L, S> {
    ghost use Rattle.std.specs.Prelude.{⊤};

    ghost fact = { λ v items. ⊤ };
}

/// The taker takes an item of a putter that has a pass, with its stamp, and L is its label from then on.
struct Takes<L>(PhantomData<L>);

impl<T: Item, N, L: Labelled<N>> Outcome<T, View<(T, u64), N>> for Takes<L> {
    ghost use Rattle.act_mailbox.specs.Lines.{Took};

    ghost then = { Took T.putter L.label };
}

impl<T: Item, N, L: Labelled<N>> Lesson<T, View<(T, u64), N>> for Takes<L> {
    ghost use Rattle.std.specs.Prelude.{⊤};

    ghost fact = { λ v items. ⊤ };
}

/// What was taken of a putter, with its stamps, begins what it put.
struct Audits;

impl<T: Item, N> Lesson<T, View<(T, u64), N>> for Audits {
    ghost use Rattle.act_mailbox.specs.Lines.{Audited};

    ghost fact = { λ v items. Audited (λ x. T.putter x.0) v };
}

/// A putter's number, what it put, its label, and what it saw taken.
pub struct Putting<T, N> {
    pub number: u8,
    pub put: LinkedList<T>,
    pub label: LinkedList<N>,
    pub seen: LinkedList<T>,
}

/// The putters that have passes, what was taken, and the taker's label.
pub struct Taking<T, N> {
    pub putters: LinkedList<u8>,
    pub taken: LinkedList<T>,
    pub label: LinkedList<N>,
}

/// A pass is a putter's, the taker's, a copy of what was taken, or spent.
pub enum View<T, N> {
    Puts(Putting<T, N>),
    Takes(Taking<T, N>),
    Saw(LinkedList<T>),
    Spent,
}
