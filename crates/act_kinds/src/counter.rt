//! A counter.

ghost use Rattle.std.specs.Prelude.{◌≡◌, [], ◌∷◌, pos, Some, IfOk, OnOk, OnErr, IsOk, IsTrue};
ghost use Rattle.act_types.specs.KindState.{CounterAt};
ghost use Rattle.act_types.specs.Texts.{state_text};
ghost use Rattle.act_types.specs.declared.call.Method.TheVariants.{Add};
ghost use Rattle.act_types.specs.declared.call.Value.TheVariants.{Int};
ghost use Rattle.act_rules.specs.Kinds.{reply_of};
ghost use Rattle.act_rules.specs.RunList.{step_of_reply};
ghost use Rattle.act_kinds.specs.Memory.{takes_memory_of};

use crate::Actor;
use crate::actor::append;
use act_types::{Answer, Fault, Method, NoMemory, Value};
use std::fmt;
use std::marker::Model;

/// A counter, which contracts see as its number.
#[derive(Debug, Drop)]
pub struct Counter {
    number: i64,
}

impl Model for Counter {
    ghost use Rattle.std.specs.Prelude.{ℤ};

    ghost Value = { ℤ };

    ghost view = { λ counter. counter.number };
}

impl Counter {
    /// A counter at 0.
    pub fn open() -> Counter
        ensures { result ≡ pos 0 }
    {
        Counter { number: 0 }
    }

    /// Adds a number, where the sum is one of 64 bits.
    fn add(&mut self, number: i64) -> Answer
        ensures { (CounterAt self.new, result)
            ≡ step_of_reply (CounterAt self.old) (reply_of (CounterAt self.old) Add (Int number ∷ [])) }
    {
        let Some(sum) = self.number.checked_add(number) else {
            return Err(Fault::Overflow);
        };
        self.number = sum;
        Ok(Value::Int(sum))
    }
}

impl Actor for Counter {
    ghost state = { CounterAt };

    fn ask(&mut self, method: &Method, args: &[Value]) -> Result<Answer, NoMemory>
        ensures answer { IfOk result (λ answer. answer
            ≡ (step_of_reply (CounterAt self.old) (reply_of (CounterAt self.old) method.now args.now)).1) }
        ensures moved { OnOk result (CounterAt self.new
            ≡ (step_of_reply (CounterAt self.old) (reply_of (CounterAt self.old) method.now args.now)).0) }
        ensures err { OnErr result (self.new ≡ self.old) }
        ensures memory_last { OnErr result (IsOk (reply_of (CounterAt self.old) method.now args.now)) }
        ensures memory { OnErr result (IsTrue (takes_memory_of (CounterAt self.old) method.now)) }
    {
        match (method, args) {
            (Method::Add, [Value::Int(number)]) => Ok(self.add(*number)),
            (Method::Get, []) => Ok(Ok(Value::Int(self.number))),
            (Method::Add | Method::Get, _) => Ok(Err(Fault::BadArgs)),
            _ => Ok(Err(Fault::NoMethod)),
        }
    }

    fn state_text(&self, text: &mut String) -> Result<(), NoMemory> {
        append(text, self)
    }
}

impl fmt::Display for Counter {
    ghost output = { λ number. Some (state_text (CounterAt number)) };

    fn fmt<W: fmt::Write>(&self, f: &mut fmt::Formatter<W>) -> fmt::Result {
        write!(f, "counter {}", self.number)
    }
}
