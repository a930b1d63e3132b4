//! The keys of a caller's calls, by their numbers.

ghost use Rattle.std.specs.Prelude.{◌≡◌, ◌<◌, ◌==◌, ℕ, List, [], Some, None, OnOk, OnErr, IfNone, length, if◌then◌else◌};
ghost use Rattle.act_inbox.specs.View.{key_in};

use act_types::NoMemory;
use std::alloc::Global;
use std::marker::Model;

/// At the number of each call, one more than its key, and 0 where there is none.
///
/// A caller's numbers count up, so a place is found by its number at less cost than by a search. The table reaches to
/// the highest number that came, and keeps its places.
#[derive(Drop)]
pub(crate) struct Keys {
    places: Vec<u32>,
}

impl Model for Keys {
    ghost Value = { List ℕ };

    ghost view = { λ keys. keys.places.items };
}

impl Keys {
    /// No keys.
    pub(crate) fn new(alloc: Global) -> Keys
        ensures { result ≡ [] }
    {
        Keys {
            places: Vec::new(alloc),
        }
    }

    /// The key of the call of this number, if it has one.
    pub(crate) fn get(&self, number: u32) -> Option<usize>
        ensures value { result ≡ key_in self.now number }
    {
        match self.places.get(number as usize) {
            None => None,
            Some(0) => None,
            Some(place) => Some(*place as usize - 1),
        }
    }

    /// Gives the call of this number its key. An `Err` changes nothing.
    #[tactic(auto, using(crate::proofs::Places::key_in_filled, crate::proofs::Places::key_in_set))]
    pub(crate) fn insert(&mut self, number: u32, key: usize) -> Result<(), NoMemory>
        ensures updates { OnOk result ((count : ℕ) →
            key_in self.new count ≡ (if number == count then Some key else key_in self.old count)) }
        ensures err { OnErr result (self.new ≡ self.old) }
    {
        if key >= u32::MAX as usize {
            return Err(NoMemory);
        }
        let at = number as usize;
        if at >= self.places.len() {
            self.places.resize(at + 1, 0)?;
        }
        self.places[at] = key as u32 + 1;
        Ok(())
    }

    /// Takes the key of the call of this number, if it has one.
    #[tactic(auto, using(crate::proofs::Places::key_in_set))]
    pub(crate) fn remove(&mut self, number: u32) -> Option<usize>
        ensures value { result ≡ key_in self.old number }
        ensures unchanged { IfNone result (self.new ≡ self.old) }
        ensures updates { (count : ℕ) →
            key_in self.new count ≡ (if number == count then None else key_in self.old count) }
    {
        let key = self.get(number)?;
        self.places[number as usize] = 0;
        Some(key)
    }
}
