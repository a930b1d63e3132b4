//! What the rows of tables are written in. A `static` costs no proof where it is used, and holds no
//! type that has a model, as methods, faults and the names of actors do.

use act_types::{ActorId, Answer, CallerId, Fault, FutureId, Method, NoMemory, Text, Value};
use std::alloc::Global;
use std::fmt::Debug;
use std::process::Abort;

/// A value.
#[derive(Clone, Copy)]
pub enum Word {
    Unit,
    Int(i64),
    Txt(&'static str),
}

pub fn value_of(alloc: Global, word: Word) -> Result<Value, NoMemory> {
    match word {
        Word::Unit => Ok(Value::Unit),
        Word::Int(number) => Ok(Value::Int(number)),
        Word::Txt(letters) => Ok(Value::Text(Text::copied(alloc, letters)?)),
    }
}

/// A method of a known kind.
#[derive(Clone, Copy)]
pub enum Verb {
    Add,
    At,
    Balance,
    Del,
    Deposit,
    Get,
    Len,
    Pop,
    Push,
    Put,
    Size,
    Terminate,
    Withdraw,
}

pub fn method(verb: Verb) -> Method {
    match verb {
        Verb::Add => Method::Add,
        Verb::At => Method::At,
        Verb::Balance => Method::Balance,
        Verb::Del => Method::Del,
        Verb::Deposit => Method::Deposit,
        Verb::Get => Method::Get,
        Verb::Len => Method::Len,
        Verb::Pop => Method::Pop,
        Verb::Push => Method::Push,
        Verb::Put => Method::Put,
        Verb::Size => Method::Size,
        Verb::Terminate => Method::Terminate,
        Verb::Withdraw => Method::Withdraw,
    }
}

/// A fault, of which a future is known by its number.
#[derive(Clone, Copy)]
pub enum Why {
    BadAmount,
    BadArgs,
    Dependency(u32),
    Insufficient,
    KindFull,
    NoItem,
    NoItems,
    NoKey,
    NoMethod,
    Overflow,
}

fn fault(why: Why) -> Fault {
    match why {
        Why::BadAmount => Fault::BadAmount,
        Why::BadArgs => Fault::BadArgs,
        Why::Dependency(future) => Fault::Dependency(FutureId::new(future)),
        Why::Insufficient => Fault::Insufficient,
        Why::KindFull => Fault::KindFull,
        Why::NoItem => Fault::NoItem,
        Why::NoItems => Fault::NoItems,
        Why::NoKey => Fault::NoKey,
        Why::NoMethod => Fault::NoMethod,
        Why::Overflow => Fault::Overflow,
    }
}

pub fn answer_of(alloc: Global, answer: &Result<Word, Why>) -> Result<Answer, NoMemory> {
    match *answer {
        Ok(word) => Ok(Ok(value_of(alloc, word)?)),
        Err(why) => Ok(Err(fault(why))),
    }
}

/// The actor of this number.
pub fn actor(rt: &impl Abort, number: u8) -> ActorId {
    ActorId::new(number).expect(rt, "no actor has this number")
}

/// The caller of this number.
pub fn caller(rt: &impl Abort, number: u8) -> CallerId {
    CallerId::new(number).expect(rt, "no caller has this number")
}

/// The next of a row of random words, by a xorshift generator.
pub fn word_after(word: u32) -> u32 {
    let word = word ^ (word << 13);
    let word = word ^ (word >> 17);
    word ^ (word << 5)
}

/// Compares what a case gave with what it is to give. An assertion is dear to prove, and this one
/// is proved once, for every type.
pub fn assert_is<T: PartialEq + Debug>(rt: &impl Abort, name: &str, got: &T, wanted: &T) {
    assert_eq!(rt; *got, *wanted, "{name}");
}

/// The same of texts.
pub fn assert_reads(rt: &impl Abort, name: &str, got: &str, wanted: &str) {
    assert_eq!(rt; got, wanted, "{name}");
}
