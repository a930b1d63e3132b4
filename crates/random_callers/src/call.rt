//! Calls as they are drawn.

ghost use Rattle.std.specs.Prelude.{◌≡◌};

use crate::draw::Draw;
use act_rules::KindName;
use act_types::{ActorId, Arg, FutureId, ListOf, Method, NoMemory, Text, Value};
use std::alloc::Global;
use std::fmt;

/// A call that is to be submitted, written as scripts have it.
#[derive(Debug, Drop)]
pub(crate) struct Wanted {
    pub(crate) actor: ActorId,
    pub(crate) method: Method,
    pub(crate) args: ListOf<Arg>,
}

impl Wanted {
    pub(crate) fn new(actor: ActorId, method: Method, args: ListOf<Arg>) -> Wanted
        ensures { result ≡ record { actor = actor; method = method; args = args } }
    {
        Wanted {
            actor,
            method,
            args,
        }
    }
}

impl fmt::Display for Wanted {
    fn fmt<W: fmt::Write>(&self, f: &mut fmt::Formatter<W>) -> fmt::Result {
        let actor = self.actor;
        let method = self.method;
        write!(f, "{actor} {method}")?;
        for arg in self.args.as_slice() {
            match arg {
                Arg::Plain(value) => write!(f, " {value}")?,
                Arg::Fut(future) => write!(f, " @{future}")?,
            }
        }
        Ok(())
    }
}

/// What stands at a place of a call's arguments.
#[derive(Clone, Copy, Debug, PartialEq, Eq)]
pub(crate) enum Place {
    Number,
    Key,
    Any,
}

/// What a method of a kind takes, where it takes any.
pub(crate) fn places_of(kind: KindName, method: Method) -> &'static [Place] {
    match method {
        Method::Add | Method::Deposit | Method::Withdraw | Method::At => &[Place::Number],
        Method::Put => &[Place::Key, Place::Any],
        Method::Del => &[Place::Key],
        Method::Push => &[Place::Any],
        Method::Get => if kind == KindName::Table {
            &[Place::Key]
        } else {
            &[]
        },
        _ => &[],
    }
}

/// The method by which a kind tells what it holds.
pub(crate) fn reading_of(kind: KindName) -> Method {
    match kind {
        KindName::Counter => Method::Get,
        KindName::Table => Method::Size,
        KindName::Account => Method::Balance,
        KindName::ListKind => Method::Len,
    }
}

/// A method of the kind or, where ends are drawn, now and then the actor's end.
pub(crate) fn method_of(draw: &mut Draw, kind: KindName, ends: bool) -> Method {
    if ends && draw.once_in(60) {
        return Method::Terminate;
    }
    let turn = draw.below(4);
    match kind {
        KindName::Counter => if turn == 0 { Method::Get } else { Method::Add },
        KindName::Table => match turn {
            0 => Method::Get,
            1 => Method::Del,
            _ => Method::Put,
        },
        KindName::Account => if turn == 0 {
            Method::Withdraw
        } else {
            Method::Deposit
        },
        KindName::ListKind => match turn {
            0 => Method::Pop,
            1 => Method::At,
            _ => Method::Push,
        },
    }
}

/// A text that is one of three.
pub(crate) fn key(alloc: Global, draw: &mut Draw) -> Result<Value, NoMemory> {
    let key = match draw.below(3) {
        0 => "one",
        1 => "two",
        _ => "three",
    };
    Ok(Value::Text(Text::copied(alloc, key)?))
}

/// A future of the caller or, where it is the last that can be drawn, the next one.
pub(crate) fn future(draw: &mut Draw, count: u32) -> FutureId {
    FutureId::new(draw.below(count.saturating_add(1)))
}
