//! The search for an order: from each happening to its causes, depth first.

ghost use Rattle.std.specs.Prelude.{◌≡◌, ◌<◌, ◌≤◌, ◌+◌, ◌-◌, ◌*◌, ◌^◌, ◌++◌, ◌∷◌, ℕ, [], List, length, take, drop, replicate, slice_set, slice_get, slice_index, Some, Contains, IfOk, IfErr, OnOk};
ghost use Rattle.act_orders.specs.Order.{Happened};
ghost use Rattle.act_orders.specs.Causes.{IsWhole, HasPlaces, call_in, number_of, graph_of};
ghost use Rattle.act_orders.specs.Search.{Standing, Steps, AtRest, GoesOn, OrdersNodes, mark, left};
ghost use Rattle.act_orders.specs.Stuck.{TellsCircle};
ghost use Rattle.act_orders.specs.Nexts.{IsAtCause, IsNext};

use crate::causes::{has_happened, slot_of};
use crate::{Happening, Told};
use act_types::{ListOf, NoMemory};
use std::alloc::Global;

/// Why no order was found.
#[derive(Drop)]
pub(crate) enum Stuck {
    /// Each of these must come after the next, and the last one is the first again.
    Circle(ListOf<Happening>),
    NoMemory,
}

impl From<NoMemory> for Stuck {
    ghost use Rattle.std.specs.Prelude.{◌≡◌};
    ghost use Rattle.act_orders.specs.declared.search.Stuck.TheVariants as stuck;

    ghost from_gives = { λ _ result. result ≡ stuck.NoMemory };

    fn from(_error: NoMemory) -> Stuck {
        Stuck::NoMemory
    }
}

/// What to do at a happening.
#[derive(Clone, Copy)]
enum Next {
    /// It goes to the order.
    Finish,
    /// It goes past the slot.
    Pass,
    /// This cause is begun.
    Enter(Happening),
    /// This cause is on the path already.
    Close(Happening),
}

/// The mark of what stands in the order.
const DONE: usize = usize::MAX;

/// The number of a happening among all that calls can have.
fn number_of(happening: Happening) -> usize
    requires { call_in happening < 2 ^ 32 }
    ensures { result ≡ number_of happening }
{
    match happening {
        Happening::Submitted(call) => 3 * call,
        Happening::Ran(call) => 3 * call + 1,
        Happening::Answered(call) => 3 * call + 2,
    }
}

/// The place of a happening that is among these.
fn place_in(path: &[Happening], happening: Happening) -> usize
    requires few { (h : Happening) → Contains path.now h → call_in h < 2 ^ 32 }
    requires there { Contains path.now happening }
    ensures { slice_get path.now result ≡ Some happening }
{
    let number = number_of(happening);
    for (place, other) in path.iter().enumerate() {
        if number_of(*other) == number {
            return place;
        }
    }
    path.len()
}

/// A search. A mark is 0 where a happening wasn't begun, `DONE` where it stands in the order, and
/// else one more than the slots that were passed.
#[derive(Drop)]
pub(crate) struct Search {
    marks: Vec<usize>,
    path: Vec<Happening>,
    order: Vec<Happening>,
}

impl Search {
    /// Nothing is begun, and there is room for all that can happen to so many calls.
    fn new(alloc: Global, count: usize) -> Result<Search, NoMemory>
        requires few { count < 2 ^ 32 }
        ensures marks { IfOk result (λ search. search.marks.items ≡ replicate (3 * count) 0) }
        ensures path { IfOk result (λ search. search.path.items ≡ []) }
        ensures order { IfOk result (λ search. search.order.items ≡ []) }
    {
        Ok(Search {
            marks: vec![in alloc; 0; 3 * count]?,
            path: Vec::new(alloc),
            order: Vec::with_capacity(alloc, 3 * count)?,
        })
    }

    /// The mark of a happening.
    fn mark(&self, happening: Happening) -> usize
        requires few { call_in happening < 2 ^ 32 }
        requires room { number_of happening < length self.now.marks.items }
        ensures { result ≡ slice_index self.now.marks.items (number_of happening) }
    {
        self.marks[number_of(happening)]
    }

    /// Begins a happening.
    fn enter(&mut self, happening: Happening) -> Result<(), NoMemory>
        requires few { call_in happening < 2 ^ 32 }
        requires room { number_of happening < length self.old.marks.items }
        ensures marks { OnOk result (self.new.marks.items ≡ slice_set self.old.marks.items (number_of happening) 1) }
        ensures path { OnOk result (self.new.path.items ≡ self.old.path.items ++ happening ∷ []) }
        ensures order { OnOk result (self.new.order.items ≡ self.old.order.items) }
    {
        self.path.push(happening)?;
        self.marks[number_of(happening)] = 1;
        Ok(())
    }

    /// Passes a slot of the last happening that was begun.
    fn pass(&mut self, happening: Happening, mark: usize)
        requires few { call_in happening < 2 ^ 32 }
        requires room { number_of happening < length self.old.marks.items }
        requires high { mark + 1 < 2 ^ 64 }
        ensures marks { self.new.marks.items ≡ slice_set self.old.marks.items (number_of happening) (mark + 1) }
        ensures path { self.new.path.items ≡ self.old.path.items }
        ensures order { self.new.order.items ≡ self.old.order.items }
    {
        self.marks[number_of(happening)] = mark + 1;
    }

    /// The last happening that was begun goes to the order.
    fn finish(&mut self, happening: Happening) -> Result<(), NoMemory>
        requires few { call_in happening < 2 ^ 32 }
        requires room { number_of happening < length self.old.marks.items }
        ensures marks { OnOk result (self.new.marks.items ≡ slice_set self.old.marks.items (number_of happening) DONE) }
        ensures path { OnOk result
            (self.new.path.items ≡ take (length self.old.path.items - 1) self.old.path.items) }
        ensures order { OnOk result (self.new.order.items ≡ self.old.order.items ++ happening ∷ []) }
    {
        self.order.push(happening)?;
        self.path.truncate(self.path.len().saturating_sub(1));
        self.marks[number_of(happening)] = DONE;
        Ok(())
    }

    /// The circle that the path closes where its last happening needs one that is on it.
    fn circle(&self, alloc: Global, cause: Happening) -> Result<ListOf<Happening>, NoMemory>
        requires few { (h : Happening) → Contains self.now.path.items h → call_in h < 2 ^ 32 }
        requires there { Contains self.now.path.items cause }
        ensures { IfOk result (λ circle. (k : ℕ) × (slice_get self.now.path.items k ≡ Some cause) ×
            (circle ≡ drop k self.now.path.items ++ cause ∷ [])) }
    {
        let from = place_in(&self.path, cause);
        let mut circle = Vec::from_slice(alloc, &self.path[from..])?;
        circle.push(cause)?;
        Ok(ListOf::from_vec(circle))
    }

    /// What to do where a slot has this cause.
    fn at_cause(&self, told: &Told, places: &[Option<usize>], cause: Happening) -> Next
        requires whole { IsWhole told.now }
        requires places { HasPlaces told.now told.now.runs places.now }
        requires standing { Standing (graph_of told.now places.now) DONE
            self.now.marks.items self.now.path.items self.now.order.items }
        requires within { call_in cause < length told.now.calls }
        ensures { IsAtCause (graph_of told.now places.now)
            self.now.marks.items self.now.path.items self.now.order.items cause result }
    {
        if !has_happened(told, places, cause) {
            return Next::Pass;
        }
        let mark = self.mark(cause);
        if mark == 0 {
            return Next::Enter(cause);
        }
        if mark < DONE {
            return Next::Close(cause);
        }
        Next::Pass
    }

    /// What to do at the last happening that was begun.
    fn next(&self, told: &Told, places: &[Option<usize>], top: Happening, mark: usize) -> Next
        requires whole { IsWhole told.now }
        requires places { HasPlaces told.now told.now.runs places.now }
        requires standing { Standing (graph_of told.now places.now) DONE
            self.now.marks.items self.now.path.items self.now.order.items }
        requires happened { Happened told.now top }
        requires low { 1 ≤ mark }
        ensures { IsNext (graph_of told.now places.now)
            self.now.marks.items self.now.path.items self.now.order.items top mark result }
    {
        match slot_of(told, places, top, mark - 1) {
            None => Next::Finish,
            Some(slot) => match slot {
                None => Next::Pass,
                Some(cause) => self.at_cause(told, places, cause),
            },
        }
    }

    /// Goes on at the last happening that was begun.
    fn step(
        &mut self,
        alloc: Global,
        told: &Told,
        places: &[Option<usize>],
        top: Happening,
    ) -> Result<(), Stuck>
        requires whole { IsWhole told.now }
        requires places { HasPlaces told.now told.now.runs places.now }
        requires standing { Standing (graph_of told.now places.now) DONE
            self.old.marks.items self.old.path.items self.old.order.items }
        requires last { slice_get self.old.path.items (length self.old.path.items - 1) ≡ Some top }
        ensures steps { OnOk result (Steps (graph_of told.now places.now) DONE
            self.old.marks.items self.new.marks.items self.new.path.items
            self.old.order.items self.new.order.items) }
        ensures circle { IfErr result (TellsCircle told.now) }
    {
        let mark = self.mark(top);
        match self.next(told, places, top, mark) {
            Next::Finish => {
                self.finish(top)?;
                Ok(())
            }
            Next::Pass => {
                self.pass(top, mark);
                Ok(())
            }
            Next::Enter(cause) => {
                self.enter(cause)?;
                Ok(())
            }
            Next::Close(cause) => {
                let circle = self.circle(alloc, cause)?;
                Err(Stuck::Circle(circle))
            }
        }
    }

    /// From a happening that wasn't begun to all its causes.
    fn visit(
        &mut self,
        alloc: Global,
        told: &Told,
        places: &[Option<usize>],
        root: Happening,
    ) -> Result<(), Stuck>
        requires whole { IsWhole told.now }
        requires places { HasPlaces told.now told.now.runs places.now }
        requires rests { AtRest (graph_of told.now places.now) DONE
            self.old.marks.items self.old.path.items self.old.order.items }
        requires happened { Happened told.now root }
        requires fresh { mark (graph_of told.now places.now) self.old.marks.items root ≡ 0 }
        ensures rests { OnOk result (AtRest (graph_of told.now places.now) DONE
            self.new.marks.items self.new.path.items self.new.order.items) }
        ensures goes_on { OnOk result (GoesOn (graph_of told.now places.now)
            self.old.marks.items self.new.marks.items self.old.order.items self.new.order.items) }
        ensures there { OnOk result (Contains self.new.order.items root) }
        ensures circle { IfErr result (TellsCircle told.now) }
    {
        self.enter(root)?;
        while let Some(top) = self.path.last() {
            let top = *top;
            self.step(alloc, told, places, top)?;
        }
        Ok(())
    }

    /// Sees that a happening stands in the order, if it happened.
    fn cover(
        &mut self,
        alloc: Global,
        told: &Told,
        places: &[Option<usize>],
        happening: Happening,
    ) -> Result<(), Stuck>
        requires whole { IsWhole told.now }
        requires places { HasPlaces told.now told.now.runs places.now }
        requires within { call_in happening < length told.now.calls }
        requires rests { AtRest (graph_of told.now places.now) DONE
            self.old.marks.items self.old.path.items self.old.order.items }
        ensures rests { OnOk result (AtRest (graph_of told.now places.now) DONE
            self.new.marks.items self.new.path.items self.new.order.items) }
        ensures goes_on { OnOk result (GoesOn (graph_of told.now places.now)
            self.old.marks.items self.new.marks.items self.old.order.items self.new.order.items) }
        ensures there { OnOk result (Happened told.now happening → Contains self.new.order.items happening) }
        ensures circle { IfErr result (TellsCircle told.now) }
    {
        if !has_happened(told, places, happening) {
            return Ok(());
        }
        if self.mark(happening) > 0 {
            return Ok(());
        }
        self.visit(alloc, told, places, happening)?;
        Ok(())
    }
}

/// An order of all that happened, in which causes come first.
pub(crate) fn order_of(
    alloc: Global,
    told: &Told,
    places: &[Option<usize>],
) -> Result<Vec<Happening>, Stuck>
    requires whole { IsWhole told.now }
    requires places { HasPlaces told.now told.now.runs places.now }
    ensures order { IfOk result (λ order. OrdersNodes (graph_of told.now places.now) order.items) }
    ensures circle { IfErr result (TellsCircle told.now) }
{
    let count = told.calls.len();
    let mut search = Search::new(alloc, count)?;
    for call in 0..count {
        search.cover(alloc, told, places, Happening::Submitted(call))?;
        search.cover(alloc, told, places, Happening::Ran(call))?;
        search.cover(alloc, told, places, Happening::Answered(call))?;
    }
    Ok(search.order)
}
