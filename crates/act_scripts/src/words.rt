//! The words of a line.

ghost use Rattle.std.specs.Prelude.{◌≡◌, ◌<◌, List, [], ◌∷◌, Some, IfOk};
ghost use Rattle.std.specs.List.{list_all};
ghost use Rattle.std.specs.Char.{is_ascii_digit};
ghost use Rattle.act_scripts.specs.Gives.{Gives};
ghost use Rattle.act_scripts.specs.Numerals.{begins_numeral};
ghost use Rattle.act_rules.specs.Submissions.{IsLimit};
ghost use Rattle.act_rules.specs.Words.{named_by, kind_text, all_kinds, method_at, number_at, limit_at, is_numeral, is_integer, int_at, marked_at, closed_at, caller_at, actor_at, text_at, value_at, arg_at};

use crate::line::{BAD_LINE, LineFault};
use act_rules::KindName;
use act_types::{
    ActorId, Arg, CallerId, FutureId, MAX_ACTORS, MAX_CALLERS, MAX_CALLS, Method, Text, Value,
    is_good_text,
};
use std::alloc::Global;

/// The kind that a word names.
pub fn kind_of(word: &str) -> Result<KindName, LineFault>
    ensures { Gives (λ x. x) result (named_by kind_text all_kinds word.now) }
{
    match word {
        "counter" => Ok(KindName::Counter),
        "table" => Ok(KindName::Table),
        "account" => Ok(KindName::Account),
        "list" => Ok(KindName::ListKind),
        _ => Err(BAD_LINE),
    }
}

/// The method that a word names.
#[tactic(auto, unfolding(act_rules::specs::Words::method_at))]
pub fn method_of(word: &str) -> Result<Method, LineFault>
    ensures { Gives (λ x. x) result (method_at word.now) }
{
    // The first letter leaves few methods to compare with.
    match word.as_bytes() {
        [b'a', ..] => match word {
            "add" => Ok(Method::Add),
            "at" => Ok(Method::At),
            _ => Err(BAD_LINE),
        },
        [b'd', ..] => match word {
            "del" => Ok(Method::Del),
            "deposit" => Ok(Method::Deposit),
            _ => Err(BAD_LINE),
        },
        [b'p', ..] => match word {
            "put" => Ok(Method::Put),
            "push" => Ok(Method::Push),
            "pop" => Ok(Method::Pop),
            _ => Err(BAD_LINE),
        },
        _ => match word {
            "get" => Ok(Method::Get),
            "len" => Ok(Method::Len),
            "size" => Ok(Method::Size),
            "withdraw" => Ok(Method::Withdraw),
            "balance" => Ok(Method::Balance),
            "terminate" => Ok(Method::Terminate),
            _ => Err(BAD_LINE),
        },
    }
}

/// Whether these are digits.
fn are_digits(bytes: &[u8]) -> bool
    ensures { result ≡ list_all is_ascii_digit bytes.now }
{
    bytes.iter().all(|byte| byte.is_ascii_digit())
}

/// Whether these are digits, with no 0 before another one.
fn is_numeral_text(digits: &[u8]) -> bool
    ensures { result ≡ is_numeral digits.now }
{
    if digits.is_empty() {
        return false;
    }
    if digits[0] == b'0' {
        return digits.len() == 1;
    }
    are_digits(digits)
}

/// Whether a numeral of more than one digit begins so: with a digit that isn't 0.
fn begins_numeral(word: &[u8]) -> bool
    ensures { result ≡ begins_numeral word.now }
{
    if word.is_empty() {
        return false;
    }
    b'1' <= word[0] && word[0] <= b'9'
}

/// The number that a word spells, in its one spelling.
#[tactic(auto, using(crate::proofs::Numbers::number_from_parse, crate::proofs::Numbers::number_from_none), unfolding(act_rules::specs::Words::number_at))]
pub fn number_of(word: &str) -> Result<u32, LineFault>
    ensures { Gives (λ x. x) result (number_at word.now) }
{
    // Names and many futures have one digit, which wants no parser.
    if let [digit] = word.as_bytes() {
        return match digit {
            b'0'..=b'9' => Ok((*digit - b'0') as u32),
            _ => Err(BAD_LINE),
        };
    }
    // The parser looks at the other digits.
    if !begins_numeral(word.as_bytes()) {
        return Err(BAD_LINE);
    }
    match word.parse() {
        Ok(number) => Ok(number),
        Err(_) => Err(BAD_LINE),
    }
}

/// The limit that a word spells: a number from 1 to 65,536.
#[tactic(auto, unfolding(act_rules::specs::Words::limit_at))]
pub(crate) fn limit_of(word: &str) -> Result<u32, LineFault>
    ensures said { Gives (λ x. x) result (limit_at word.now) }
    ensures limit { IfOk result (λ limit. IsLimit (Some limit)) }
{
    let number = number_of(word)?;
    if number < 1 || number > MAX_CALLS {
        return Err(BAD_LINE);
    }
    Ok(number)
}

/// Whether this is a numeral, or a `-` and one that does not begin with 0.
fn is_integer_text(word: &[u8]) -> bool
    ensures { result ≡ is_integer word.now }
{
    match word {
        [b'-', b'0', ..] => false,
        [b'-', digits @ ..] => is_numeral_text(digits),
        digits => is_numeral_text(digits),
    }
}

/// The signed number that a word spells, in its one spelling.
#[tactic(auto, using(crate::proofs::Integers::int_from_parse), unfolding(act_rules::specs::Words::int_at))]
pub(crate) fn int_of(word: &str) -> Result<i64, LineFault>
    ensures { Gives (λ x. x) result (int_at word.now) }
{
    if !is_integer_text(word.as_bytes()) {
        return Err(BAD_LINE);
    }
    match word.parse() {
        Ok(number) => Ok(number),
        Err(_) => Err(BAD_LINE),
    }
}

/// What stands in a word after its first character, which is the mark.
fn after_mark(word: &str, mark: char) -> Result<&str, LineFault>
    requires { mark < 128 }
    ensures { Gives (λ x. x.now) result (marked_at word.now mark) }
{
    match word.strip_prefix(mark) {
        Some(rest) => Ok(rest),
        None => Err(BAD_LINE),
    }
}

/// What stands in a word before its last character, which is the mark.
fn before_mark(word: &str, mark: char) -> Result<&str, LineFault>
    requires { mark < 128 }
    ensures { Gives (λ x. x.now) result (closed_at word.now mark) }
{
    match word.strip_suffix(mark) {
        Some(front) => Ok(front),
        None => Err(BAD_LINE),
    }
}

/// The caller that a word names.
#[tactic(auto, unfolding(act_rules::specs::Words::caller_at))]
pub fn caller_of(word: &str) -> Result<CallerId, LineFault>
    ensures { Gives (λ x. x) result (caller_at word.now) }
{
    let number = number_of(after_mark(word, 'c')?)?;
    if number < 1 || number > MAX_CALLERS as u32 {
        return Err(BAD_LINE);
    }
    match CallerId::new(number as u8) {
        Some(caller) => Ok(caller),
        None => Err(BAD_LINE),
    }
}

/// The actor that a word names.
#[tactic(auto, unfolding(act_rules::specs::Words::actor_at))]
pub fn actor_of(word: &str) -> Result<ActorId, LineFault>
    ensures { Gives (λ x. x) result (actor_at word.now) }
{
    let number = number_of(after_mark(word, 'a')?)?;
    if number < 1 || number > MAX_ACTORS as u32 {
        return Err(BAD_LINE);
    }
    match ActorId::new(number as u8) {
        Some(actor) => Ok(actor),
        None => Err(BAD_LINE),
    }
}

/// The text that a word spells between quotes.
#[tactic(auto, unfolding(act_rules::specs::Words::text_at))]
fn text_of(alloc: Global, word: &str) -> Result<Text, LineFault>
    ensures { Gives (λ x. x) result (text_at word.now) }
{
    let opened = after_mark(word, '"')?;
    let text = before_mark(opened, '"')?;
    if !is_good_text(text) {
        return Err(BAD_LINE);
    }
    Ok(Text::copied(alloc, text)?)
}

/// The value that a word spells.
#[tactic(auto, unfolding(act_rules::specs::Words::value_at))]
pub fn value_of(alloc: Global, word: &str) -> Result<Value, LineFault>
    ensures { Gives (λ x. x) result (value_at word.now) }
{
    if word == "unit" {
        return Ok(Value::Unit);
    }
    match word.as_bytes() {
        [b'"', ..] => Ok(Value::Text(text_of(alloc, word)?)),
        _ => Ok(Value::Int(int_of(word)?)),
    }
}

/// The argument that a word spells.
#[tactic(auto, unfolding(act_rules::specs::Words::arg_at))]
pub(crate) fn arg_of(alloc: Global, word: &str) -> Result<Arg, LineFault>
    ensures { Gives (λ x. x) result (arg_at word.now) }
{
    match word.as_bytes() {
        [b'@', ..] => Ok(Arg::Fut(FutureId::new(number_of(after_mark(word, '@')?)?))),
        _ => Ok(Arg::Plain(value_of(alloc, word)?)),
    }
}
