//! The end of a line of the report, as it is made.

ghost use Rattle.std.specs.Prelude.{◌≡◌, ◌+◌, ◌≤◌, ◌<◌, true, ℕ, List, [], ◌∷◌, ◌++◌, length, drop, decimal};
ghost use Rattle.std.specs.Str.{IsAscii};
ghost use Rattle.std.specs.Fmt.{signed_decimal};
ghost use Rattle.act_types.specs.Texts.{actor_text};
ghost use Rattle.act_rules.specs.Report.{future_text};

use act_types::{ActorId, CallerId, FutureId};
use itoa::write_digits;
use std::marker::Model;

/// The most bytes that there is room for.
pub(crate) const ROOM: usize = 128;

/// The end of a line. It grows at its front, as the digits of a number are found from the last one on.
/// So a line costs its text one push.
#[derive(Drop)]
pub(crate) struct Tail {
    bytes: [u8; ROOM],
    start: usize,
}

impl Model for Tail {
    ghost Value = { List ℕ };

    ghost view = { λ t. drop t.start t.bytes };

    ghost invariant = { λ t. (t.start ≤ 128) × IsAscii (drop t.start t.bytes) };
}

impl Tail {
    /// Nothing yet.
    #[inline(always)]
    pub(crate) fn new() -> Tail
        ensures { result ≡ [] }
    {
        Tail {
            bytes: [0; ROOM],
            start: ROOM,
        }
    }

    /// Lets go what it has, so that another line can be made in its place.
    #[inline(always)]
    pub(crate) fn clear(&mut self)
        ensures { self.new ≡ [] }
    {
        self.start = ROOM;
    }

    /// All of it.
    #[inline(always)]
    pub(crate) fn as_str(&self) -> &str
        ensures { result.now ≡ self.now }
    {
        unsafe { str::from_utf8_unchecked(&self.bytes[self.start..]) }
    }

    /// Whether it is so short that there is room for what stands before a call's arguments.
    #[inline(always)]
    pub(crate) fn is_short(&self) -> bool
        ensures { result ≡ true → length self.now ≤ 33 }
    {
        self.start >= ROOM - 33
    }

    /// Puts one byte before it.
    #[inline(always)]
    pub(crate) fn put(&mut self, byte: u8)
        requires ascii { byte < 128 }
        requires room { length self.old < 128 }
        ensures { self.new ≡ byte ∷ self.old }
    {
        self.start -= 1;
        self.bytes[self.start] = byte;
    }

    /// Puts a word before it.
    #[inline(always)]
    pub(crate) fn put_word(&mut self, word: &str)
        requires ascii { IsAscii word.now }
        requires room { length word.now + length self.old ≤ 128 }
        ensures { self.new ≡ word.now ++ self.old }
    {
        let end = self.start;
        self.start -= word.len();
        self.bytes[self.start..end].copy_from_slice(word.as_bytes());
    }

    /// Puts a number before it.
    #[inline(always)]
    pub(crate) fn put_number(&mut self, number: u64)
        requires room { length self.old + 20 ≤ 128 }
        ensures text { self.new ≡ decimal number ++ self.old }
        ensures short { length self.new ≤ length self.old + 20 }
    {
        self.start = write_digits(number, &mut self.bytes, self.start);
    }

    /// Puts a signed number before it.
    #[inline(always)]
    #[tactic(auto, using(crate::proofs::Signs::signed_below, crate::proofs::Signs::signed_other))]
    pub(crate) fn put_int(&mut self, number: i64)
        requires room { length self.old + 21 ≤ 128 }
        ensures text { self.new ≡ signed_decimal number ++ self.old }
        ensures short { length self.new ≤ length self.old + 21 }
    {
        self.put_number(number.unsigned_abs());
        if number.is_negative() {
            self.put(b'-');
        }
    }

    /// Puts the number of a caller or an actor before it. Most have one digit.
    #[inline(always)]
    #[tactic(auto, using(std::proofs::lemmas::Fmt::decimal_digit))]
    fn put_small(&mut self, number: u8)
        requires room { length self.old + 20 ≤ 128 }
        ensures text { self.new ≡ decimal number ++ self.old }
        ensures short { length self.new ≤ length self.old + 20 }
    {
        match number {
            0..=9 => self.put(b'0' + number),
            _ => self.put_number(number as u64),
        }
    }

    /// Puts the name of a caller's future before it.
    #[inline(always)]
    pub(crate) fn put_future(&mut self, caller: CallerId, k: FutureId)
        requires room { length self.old + 42 ≤ 128 }
        ensures text { self.new ≡ future_text caller k ++ self.old }
        ensures short { length self.new ≤ length self.old + 42 }
    {
        self.put_number(k.number() as u64);
        self.put(b'.');
        self.put_small(caller.number());
        self.put(b'c');
    }

    /// Puts the name of an actor before it.
    #[inline(always)]
    pub(crate) fn put_actor(&mut self, actor: ActorId)
        requires room { length self.old + 21 ≤ 128 }
        ensures text { self.new ≡ actor_text actor ++ self.old }
        ensures short { length self.new ≤ length self.old + 21 }
    {
        self.put_small(actor.number());
        self.put(b'a');
    }
}
