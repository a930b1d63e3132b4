//! The names of a kind's own methods and faults.

ghost use Rattle.std.specs.Prelude.{◌≡◌, ◌≤◌, ◌-◌, ◌++◌, ◌↔◌, true, IsTrue, IsSome, IfSome, Some, length, replicate};
ghost use Rattle.std.specs.List.{list_all};
ghost use Rattle.act_types.specs.Names.{is_name as is_good, is_taken, is_one_of, is_name_byte, begins_with_letter, method_words, answer_words, script_words, kind_words};

use crate::MAX_NAME_BYTES;
use std::marker::Model;
use std::{fmt, str};

/// A name, which contracts see as the list of its bytes. It lies in the value itself, so copies take no memory.
#[derive(Clone, Copy, PartialEq, Eq)]
pub struct Name {
    /// The name's bytes, and zeros behind them.
    bytes: [u8; MAX_NAME_BYTES],
    len: u8,
}

impl Model for Name {
    ghost use Rattle.std.specs.Prelude.{ℕ, List, ◌-◌, ◌++◌, take, length, replicate};
    ghost use Rattle.std.proofs.Common.{ap, ◌∙◌};
    ghost use Rattle.act_types.specs.declared.limits.TheConstants.{MAX_NAME_BYTES};
    ghost use Rattle.act_types.specs.Names.{IsNameIn};

    ghost Value = { List ℕ };

    ghost view = { λ name. take name.len name.bytes };

    ghost invariant = { λ name. IsNameIn name.len name.bytes };

    ghost inverse = { λ text.
        record { bytes = text ++ replicate (MAX_NAME_BYTES - length text) 0; len = length text } };

    ghost inverse_ok = { λ name is_in i. record {
      bytes = (ap (λ len. take name.len name.bytes ++ replicate (MAX_NAME_BYTES - len) 0) is_in.whole ∙ is_in.zeros) i;
      len = is_in.whole i;
    } };
}

fn is_method_word(text: &str) -> bool
    ensures { result ≡ is_one_of method_words text.now }
{
    matches!(
        text,
        "add"
            | "get"
            | "put"
            | "del"
            | "size"
            | "deposit"
            | "withdraw"
            | "balance"
            | "push"
            | "pop"
            | "at"
            | "len"
            | "terminate"
    )
}

fn is_answer_word(text: &str) -> bool
    ensures { result ≡ is_one_of answer_words text.now }
{
    matches!(
        text,
        "NoMethod"
            | "BadArgs"
            | "Overflow"
            | "NoKey"
            | "BadAmount"
            | "Insufficient"
            | "NoItems"
            | "NoItem"
            | "KindFull"
            | "Dependency"
            | "ActorDied"
            | "unit"
    )
}

fn is_script_word(text: &str) -> bool
    ensures { result ≡ is_one_of script_words text.now }
{
    matches!(
        text,
        "actor"
            | "submit"
            | "copy"
            | "release"
            | "kill"
            | "send"
            | "deliver"
            | "run"
            | "collect"
            | "take"
            | "tell"
            | "retire"
            | "await"
            | "max"
    )
}

fn is_kind_word(text: &str) -> bool
    ensures { result ≡ is_one_of kind_words text.now }
{
    matches!(text, "counter" | "table" | "account" | "list")
}

/// Scripts and reports have the word already.
fn is_taken_word(text: &str) -> bool
    ensures { result ≡ is_taken text.now }
{
    is_method_word(text) || is_answer_word(text) || is_script_word(text) || is_kind_word(text)
}

fn starts_with_letter(bytes: &[u8]) -> bool
    ensures { result ≡ begins_with_letter bytes.now }
{
    match bytes {
        [first, ..] => first.is_ascii_alphabetic(),
        [] => false,
    }
}

fn are_name_bytes(bytes: &[u8]) -> bool
    ensures { result ≡ list_all is_name_byte bytes.now }
{
    bytes
        .iter()
        .all(|byte| byte.is_ascii_alphanumeric() || *byte == b'_')
}

/// Whether a text can name a method or a fault of a kind of one's own. That is 1 to 18 ASCII letters, digits and
/// `_`, a letter first, and no word that scripts and reports have already.
pub fn is_name(text: &str) -> bool
    ensures { result ≡ is_good text.now }
{
    let bytes = text.as_bytes();
    starts_with_letter(bytes)
        && are_name_bytes(bytes)
        && bytes.len() <= MAX_NAME_BYTES
        && !is_taken_word(text)
}

/// The bytes of a text, and zeros behind them.
fn padded_bytes(text: &[u8]) -> [u8; MAX_NAME_BYTES]
    requires { length text.now ≤ 18 }
    ensures { result ≡ text.now ++ replicate (18 - length text.now) 0 }
{
    let mut bytes = [0; MAX_NAME_BYTES];
    bytes[..text.len()].copy_from_slice(text);
    bytes
}

impl Name {
    /// The name that a text is, where `is_name` says so. Of a literal the prover sees it, so `unwrap` serves there.
    pub fn new(text: &str) -> Option<Name>
        ensures valid { IsSome result ↔ IsTrue (is_good text.now) }
        ensures value { IfSome result (λ name. name ≡ text.now) }
    {
        if !is_name(text) {
            return None;
        }
        Some(Name {
            bytes: padded_bytes(text.as_bytes()),
            len: text.len() as u8,
        })
    }

    /// The name's text.
    pub fn as_str(&self) -> &str
        ensures value { result.now ≡ self.now }
        ensures valid { is_good self.now ≡ true }
    {
        match str::from_utf8(&self.bytes[..self.len as usize]) {
            Ok(text) => text,
            Err(_) => unreachable!(),
        }
    }
}

impl fmt::Display for Name {
    ghost output = { Some };

    fn fmt<W: fmt::Write>(&self, f: &mut fmt::Formatter<W>) -> fmt::Result {
        f.write_str(self.as_str())
    }
}

/// As `Display`: a name reads as itself in what is printed for people.
impl fmt::Debug for Name {
    fn fmt<W: fmt::Write>(&self, f: &mut fmt::Formatter<W>) -> fmt::Result {
        f.write_str(self.as_str())
    }
}
