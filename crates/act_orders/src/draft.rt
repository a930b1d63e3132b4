//! A history as its lines come: calls of all callers, mixed.

use crate::Wrongly;
use crate::mistake::Untaken;
use crate::words::{MAX_NUMBER, cut, cut_method, name_of, number_of};
use act_types::ListOf;
use std::alloc::{AllocError, Global};
use std::mem;

/// A call whose numbers are those among its caller's calls.
#[derive(Drop)]
pub(crate) struct DraftCall<'a> {
    pub(crate) caller: usize,
    pub(crate) number: usize,
    pub(crate) actor: usize,
    /// Its method, where that is told.
    pub(crate) method: Option<&'a [u8]>,
    pub(crate) waits: Vec<DraftWait>,
    pub(crate) takes: Vec<usize>,
    pub(crate) line: u32,
}

/// An await: for the answer of which of its caller's calls, and its line.
#[derive(Clone, Copy)]
pub(crate) struct DraftWait {
    pub(crate) number: usize,
    pub(crate) line: u32,
}

/// What is known of a caller: how many calls it has, and for which answers it waited since the last one.
#[derive(Drop)]
pub(crate) struct DraftCaller {
    pub(crate) count: usize,
    pub(crate) waits: Vec<DraftWait>,
}

/// An actor's role.
#[derive(Drop)]
pub(crate) struct DraftActor {
    pub(crate) number: usize,
    pub(crate) callers: ListOf<usize>,
}

/// The lines of roles and of calls.
#[derive(Drop)]
pub(crate) struct Draft<'a> {
    pub(crate) alloc: Global,
    pub(crate) actors: Vec<DraftActor>,
    /// The place of each actor's role, by its number.
    pub(crate) places: Vec<Option<usize>>,
    /// By the callers' numbers.
    pub(crate) callers: Vec<DraftCaller>,
    pub(crate) calls: Vec<DraftCall<'a>>,
}

impl<'a> Draft<'a> {
    /// No lines.
    pub(crate) fn new(alloc: Global) -> Result<Draft<'a>, AllocError> {
        let places = vec![in alloc; None; MAX_NUMBER + 1]?;
        let mut callers = Vec::with_capacity(alloc, MAX_NUMBER + 1)?;
        for _ in 0..MAX_NUMBER + 1 {
            callers.push(DraftCaller {
                count: 0,
                waits: Vec::new(alloc),
            })?;
        }
        Ok(Draft {
            alloc,
            actors: Vec::new(alloc),
            places,
            callers,
            calls: Vec::new(alloc),
        })
    }

    /// The place of an actor's role.
    pub(crate) fn place_of(&self, number: usize) -> Result<usize, Wrongly> {
        match self.places.get(number) {
            Some(Some(place)) => Ok(*place),
            _ => Err(Wrongly::NoRole),
        }
    }

    /// Takes the line of a role, from the words after its first.
    pub(crate) fn take_role(&mut self, words: &[u8]) -> Result<(), Untaken> {
        if !self.calls.is_empty() {
            return Err(Untaken::Wrong(Wrongly::OutOfOrder));
        }
        let (name, rest) = cut(words);
        let number = name_of(b'a', name)?;
        let Some(names) = rest else {
            return Err(Untaken::Wrong(Wrongly::NoCaller));
        };
        let mut callers = Vec::new(self.alloc);
        for name in names.split(|byte| *byte == b' ') {
            callers.push(name_of(b'c', name)?)?;
        }
        callers.sort()?;
        self.add_role(number, callers)
    }

    fn add_role(&mut self, number: usize, callers: Vec<usize>) -> Result<(), Untaken> {
        if self.place_of(number).is_ok() {
            return Err(Untaken::Wrong(Wrongly::BadLine));
        }
        let place = self.actors.len();
        let callers = ListOf::from_vec(callers);
        self.actors.push(DraftActor { number, callers })?;
        if let Some(slot) = self.places.get_mut(number) {
            *slot = Some(place);
        }
        Ok(())
    }

    /// Takes the line of a call, from the words after its first.
    pub(crate) fn take_call(&mut self, words: &'a [u8], line: u32) -> Result<(), Untaken> {
        let (name, rest) = cut(words);
        let caller = name_of(b'c', name)?;
        let Some(words) = rest else {
            return Err(Untaken::Wrong(Wrongly::BadLine));
        };
        let (name, rest) = cut(words);
        let actor = self.place_of(name_of(b'a', name)?)?;
        let number = match self.callers.get(caller) {
            Some(known) => known.count,
            None => return Err(Untaken::Wrong(Wrongly::BadLine)),
        };
        let (method, rest) = cut_method(rest);
        let takes = futures_of(self.alloc, rest, number)?;
        self.add_call(DraftCall {
            caller,
            number,
            actor,
            method,
            waits: Vec::new(self.alloc),
            takes,
            line,
        })
    }

    /// Adds a call, which comes after the answers for which its caller waited.
    fn add_call(&mut self, mut call: DraftCall<'a>) -> Result<(), Untaken> {
        if let Some(known) = self.callers.get_mut(call.caller) {
            known.count = known.count.saturating_add(1);
            mem::swap(&mut known.waits, &mut call.waits);
        }
        self.calls.push(call)?;
        Ok(())
    }

    /// Takes the line of an await, from the words after its first.
    pub(crate) fn take_await(&mut self, words: &[u8], line: u32) -> Result<(), Untaken> {
        let (name, rest) = cut(words);
        let caller = name_of(b'c', name)?;
        let Some(word) = rest else {
            return Err(Untaken::Wrong(Wrongly::BadLine));
        };
        let number = number_of(word)?;
        match self.callers.get_mut(caller) {
            Some(known) => {
                if number >= known.count {
                    return Err(Untaken::Wrong(Wrongly::NotSubmitted));
                }
                known.waits.push(DraftWait { number, line })?;
                Ok(())
            }
            None => Err(Untaken::Wrong(Wrongly::BadLine)),
        }
    }
}

/// The numbers of earlier calls that words name, as `@0`.
fn futures_of(alloc: Global, words: Option<&[u8]>, count: usize) -> Result<Vec<usize>, Untaken> {
    let mut takes = Vec::new(alloc);
    if let Some(words) = words {
        for word in words.split(|byte| *byte == b' ') {
            let number = future_of(word)?;
            if number >= count {
                return Err(Untaken::Wrong(Wrongly::NotSubmitted));
            }
            takes.push(number)?;
        }
    }
    Ok(takes)
}

fn future_of(word: &[u8]) -> Result<usize, Wrongly> {
    match word {
        [b'@', digits @ ..] => number_of(digits),
        _ => Err(Wrongly::BadLine),
    }
}
