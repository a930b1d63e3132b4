//! Lists that contracts see as lists.

ghost use Rattle.std.specs.Prelude.{◌≡◌, ◌↔◌, List, [], ◌∷◌, ◌++◌, IfOk, IfErr, IsTrue, OnOk, OnErr, IsOk, length, ◌≤◌};
ghost use Rattle.std.specs.Cmp.Lexicographic.{pointwise, lists_per, lists_equiv};

use crate::{CopyOf, NoMemory};
use smallvec::SmallVec;
use std::alloc::{AllocFailed, Global};
use std::default::MadeWith;
use std::marker::Model;

/// A list of items. Contracts see the list, and not how much room it has.
#[derive(Debug, Drop)]
pub struct ListOf<T> {
    vec: Vec<T>,
}

impl<T> Model for ListOf<T> {
    ghost Value = { List T };

    ghost view = { λ a. a.vec.items };
}

impl<T> ListOf<T> {
    /// No items.
    pub fn new(alloc: Global) -> ListOf<T>
        ensures { result ≡ [] }
    {
        ListOf {
            vec: Vec::new(alloc),
        }
    }

    /// No items, with room for so many. For none it takes no memory.
    pub fn with_capacity(alloc: Global, capacity: usize) -> Result<ListOf<T>, NoMemory>
        ensures none { IfOk result (λ list. list ≡ []) }
        ensures free { capacity ≡ 0 → IsOk result }
    {
        Ok(ListOf {
            vec: Vec::with_capacity(alloc, capacity)?,
        })
    }

    /// The items of a vector.
    pub fn from_vec(vec: Vec<T>) -> ListOf<T>
        ensures { result ≡ vec.items }
    {
        ListOf { vec }
    }

    /// The items as a vector.
    pub fn into_vec(self) -> Vec<T>
        ensures { result.items ≡ self }
    {
        let ListOf { vec } = self;
        vec
    }

    /// The items as a slice.
    pub fn as_slice(&self) -> &[T]
        ensures { result.now ≡ self.now }
    {
        self.vec.as_slice()
    }

    /// How many there are.
    pub fn len(&self) -> usize
        ensures { result ≡ length self.now }
    {
        self.vec.len()
    }

    /// Whether there are none.
    pub fn is_empty(&self) -> bool
        ensures { IsTrue result ↔ (self.now ≡ []) }
    {
        self.vec.is_empty()
    }

    /// Adds an item at the end.
    pub fn push(&mut self, item: T) -> Result<(), AllocFailed<T>>
        ensures ok { OnOk result (self.new ≡ self.old ++ item ∷ []) }
        ensures err { OnErr result (self.new ≡ self.old) }
        ensures item_back { IfErr result (λ failed. failed.value ≡ item) }
    {
        self.vec.push(item)
    }
}

impl<T: CopyOf> CopyOf for ListOf<T> {
    fn copy_of(&self, alloc: Global) -> Result<ListOf<T>, NoMemory> {
        let mut copies = ListOf::with_capacity(alloc, self.len())?;
        for item in self.vec.as_slice() {
            copies.push(item.copy_of(alloc)?)?;
        }
        Ok(copies)
    }
}

impl<T: PartialEq> PartialEq for ListOf<T> {
    ghost eq = { pointwise T.eq };

    ghost laws = { lists_per T.laws };

    fn eq(&self, other: &ListOf<T>) -> bool {
        self.vec == other.vec
    }
}

impl<T: Eq> Eq for ListOf<T> {
    ghost laws = { lists_equiv T.Eq.laws };
}

/// A list of items of which there is mostly one at most. The first lies in the value itself, so
/// that only a second one asks for memory.
#[derive(Debug, Drop)]
pub struct SmallList<T> {
    few: SmallVec<T, 1>,
}

impl<T> Model for SmallList<T> {
    ghost use Rattle.std.specs.Prelude.{◌≤◌, List};

    ghost Value = { List T };

    ghost view = { λ a. a.few.items };

    // The place of the first item.
    ghost invariant = { λ a. 1 ≤ a.few.capacity };
}

impl<T: MadeWith<Global> + Drop> SmallList<T> {
    /// No items.
    pub fn new(alloc: Global) -> SmallList<T>
        ensures { result ≡ [] }
    {
        SmallList {
            few: SmallVec::new(alloc),
        }
    }

    /// No items, with room for so many. For one it takes no memory.
    pub fn with_capacity(alloc: Global, capacity: usize) -> Result<SmallList<T>, NoMemory>
        ensures none { IfOk result (λ few. few ≡ []) }
        ensures free { capacity ≤ 1 → IsOk result }
    {
        Ok(SmallList {
            few: SmallVec::with_capacity(alloc, capacity)?,
        })
    }

    /// One item. It takes no memory.
    pub fn one(alloc: Global, item: T) -> SmallList<T>
        ensures { result ≡ item ∷ [] }
    {
        SmallList {
            few: SmallVec::from_buf(alloc, [item]),
        }
    }

    /// The items as a slice.
    pub fn as_slice(&self) -> &[T]
        ensures { result.now ≡ self.now }
    {
        self.few.as_slice()
    }

    /// How many there are.
    pub fn len(&self) -> usize
        ensures { result ≡ length self.now }
    {
        self.few.len()
    }

    /// Whether there are none.
    pub fn is_empty(&self) -> bool
        ensures { IsTrue result ↔ (self.now ≡ []) }
    {
        self.few.is_empty()
    }

    /// Adds an item at the end.
    pub fn push(&mut self, item: T) -> Result<(), AllocFailed<T>>
        ensures ok { OnOk result (self.new ≡ self.old ++ item ∷ []) }
        ensures err { OnErr result (self.new ≡ self.old) }
        ensures item_back { IfErr result (λ failed. failed.value ≡ item) }
        ensures free { self.old ≡ [] → IsOk result }
    {
        self.few.push(item)
    }
}

impl<T: CopyOf + MadeWith<Global>> CopyOf for SmallList<T> {
    fn copy_of(&self, alloc: Global) -> Result<SmallList<T>, NoMemory> {
        let mut few = SmallList::with_capacity(alloc, self.len())?;
        for item in self.few.as_slice() {
            few.push(item.copy_of(alloc)?)?;
        }
        Ok(few)
    }
}

impl<T: PartialEq> PartialEq for SmallList<T> {
    ghost eq = { pointwise T.eq };

    ghost laws = { lists_per T.laws };

    fn eq(&self, other: &SmallList<T>) -> bool {
        self.few == other.few
    }
}

impl<T: Eq> Eq for SmallList<T> {
    ghost laws = { lists_equiv T.Eq.laws };
}
