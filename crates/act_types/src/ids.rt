//! The names of callers, actors and futures, which contracts see as numbers.

ghost use Rattle.std.specs.Prelude.{◌≡◌, ℕ, ◌≤◌, ◌↔◌, IsSome, IfSome, Some, decimal};
ghost use Rattle.act_types.specs.Texts.{caller_text, actor_text};

use crate::{MAX_ACTORS, MAX_CALLERS};
use std::fmt;
use std::marker::Model;

/// A caller, from 1 to 16.
#[derive(Clone, Copy, Debug, PartialEq, Eq, PartialOrd, Ord, Hash)]
pub struct CallerId {
    number: u8,
}

impl Model for CallerId {
    ghost use Rattle.std.specs.Prelude.{ℕ, ◌≤◌};
    ghost use Rattle.act_types.specs.declared.limits.TheConstants.{MAX_CALLERS};

    ghost Value = { ℕ };

    ghost view = { λ id. id.number };

    ghost invariant = { λ id. (1 ≤ id.number) × (id.number ≤ MAX_CALLERS) };

    ghost inverse = { λ number. record { number = number } };
}

impl CallerId {
    /// The caller of a number from 1 to 16.
    pub fn new(number: u8) -> Option<CallerId>
        ensures valid { IsSome result ↔ ((1 ≤ number) × (number ≤ MAX_CALLERS)) }
        ensures value { IfSome result (λ id. id ≡ number) }
    {
        match number {
            1..=MAX_CALLERS => Some(CallerId { number }),
            _ => None,
        }
    }

    /// The caller's number.
    pub fn number(self) -> u8
        ensures value { result ≡ self }
        ensures valid { (1 ≤ self) × (self ≤ MAX_CALLERS) }
    {
        let CallerId { number } = self;
        number
    }
}

impl fmt::Display for CallerId {
    ghost output = { λ id. Some (caller_text id) };

    fn fmt<W: fmt::Write>(&self, f: &mut fmt::Formatter<W>) -> fmt::Result {
        let number = self.number;
        write!(f, "c{number}")
    }
}

/// An actor, from 1 to 8.
#[derive(Clone, Copy, Debug, PartialEq, Eq, PartialOrd, Ord, Hash)]
pub struct ActorId {
    number: u8,
}

impl Model for ActorId {
    ghost use Rattle.std.specs.Prelude.{ℕ, ◌≤◌};
    ghost use Rattle.act_types.specs.declared.limits.TheConstants.{MAX_ACTORS};

    ghost Value = { ℕ };

    ghost view = { λ id. id.number };

    ghost invariant = { λ id. (1 ≤ id.number) × (id.number ≤ MAX_ACTORS) };

    ghost inverse = { λ number. record { number = number } };
}

impl ActorId {
    /// The actor of a number from 1 to 8.
    pub fn new(number: u8) -> Option<ActorId>
        ensures valid { IsSome result ↔ ((1 ≤ number) × (number ≤ MAX_ACTORS)) }
        ensures value { IfSome result (λ id. id ≡ number) }
    {
        match number {
            1..=MAX_ACTORS => Some(ActorId { number }),
            _ => None,
        }
    }

    /// The actor's number.
    pub fn number(self) -> u8
        ensures value { result ≡ self }
        ensures valid { (1 ≤ self) × (self ≤ MAX_ACTORS) }
    {
        let ActorId { number } = self;
        number
    }
}

impl fmt::Display for ActorId {
    ghost output = { λ id. Some (actor_text id) };

    fn fmt<W: fmt::Write>(&self, f: &mut fmt::Formatter<W>) -> fmt::Result {
        let number = self.number;
        write!(f, "a{number}")
    }
}

/// A future of a caller, by its number.
#[derive(Clone, Copy, Debug, PartialEq, Eq, PartialOrd, Ord, Hash)]
pub struct FutureId {
    number: u32,
}

impl Model for FutureId {
    ghost use Rattle.std.specs.Prelude.{ℕ};

    ghost Value = { ℕ };

    ghost view = { λ id. id.number };

    ghost inverse = { λ number. record { number = number } };
}

impl FutureId {
    /// The future of a number.
    pub fn new(number: u32) -> FutureId
        ensures { result ≡ number }
    {
        FutureId { number }
    }

    /// The future's number.
    pub fn number(self) -> u32
        ensures { result ≡ self }
    {
        let FutureId { number } = self;
        number
    }
}

impl fmt::Display for FutureId {
    ghost output = { λ id. Some (decimal id) };

    fn fmt<W: fmt::Write>(&self, f: &mut fmt::Formatter<W>) -> fmt::Result {
        let number = self.number;
        write!(f, "{number}")
    }
}
