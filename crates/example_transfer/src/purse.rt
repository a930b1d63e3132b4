//! A purse: what is paid in, less what is paid out.

ghost use Rattle.std.specs.Prelude.{◌≡◌};
ghost use Rattle.actors.specs.Kinds.{next_state, step_answer};
ghost use Rattle.example_transfer.specs.Purse.{purse_at, purse_call, purse_does};
ghost use Rattle.example_transfer.specs.declared.purse.PurseCall.TheVariants.{PayIn, PayOut};

use actors::{Actor, Answer, Fault, Method, NoMemory, Value, append_line};
use std::alloc::Global;

/// What a purse can be asked.
#[derive(Clone, Copy, Debug, PartialEq, Eq)]
pub enum PurseCall {
    /// Adds an amount.
    PayIn(i64),
    /// Takes an amount out, where there is so much, and answers it.
    PayOut(i64),
}

impl PurseCall {
    /// What a method and its values ask for.
    pub fn read(method: &Method, args: &[Value]) -> Result<PurseCall, Fault>
        ensures { result ≡ purse_call method.now args.now }
    {
        match (method.word(), args) {
            ("pay_in", [Value::Int(amount)]) => Ok(PurseCall::PayIn(*amount)),
            ("pay_out", [Value::Int(amount)]) => Ok(PurseCall::PayOut(*amount)),
            ("pay_in" | "pay_out", _) => Err(Fault::BadArgs),
            _ => Err(Fault::NoMethod),
        }
    }
}

/// A purse.
#[derive(Debug, Drop)]
pub struct Purse {
    pub held: u64,
}

impl Purse {
    /// Adds an amount.
    fn pay_in(&mut self, amount: i64) -> Answer
        ensures answer { result ≡ step_answer (purse_does self.old (PayIn amount)) }
        ensures moved { self.new ≡ next_state self.old (purse_does self.old (PayIn amount)) }
    {
        if amount <= 0 {
            return Err(Fault::BadAmount);
        }
        let Some(held) = self.held.checked_add(amount.unsigned_abs()) else {
            return Err(Fault::Overflow);
        };
        self.held = held;
        Ok(Value::Unit)
    }

    /// Takes an amount out, where there is so much.
    fn pay_out(&mut self, amount: i64) -> Answer
        ensures answer { result ≡ step_answer (purse_does self.old (PayOut amount)) }
        ensures moved { self.new ≡ next_state self.old (purse_does self.old (PayOut amount)) }
    {
        if amount <= 0 {
            return Err(Fault::BadAmount);
        }
        let Some(held) = self.held.checked_sub(amount.unsigned_abs()) else {
            return Err(Fault::Insufficient);
        };
        self.held = held;
        Ok(Value::Int(amount))
    }

    /// Does a call.
    fn does(&mut self, call: PurseCall) -> Answer
        ensures answer { result ≡ step_answer (purse_does self.old call) }
        ensures moved { self.new ≡ next_state self.old (purse_does self.old call) }
    {
        match call {
            PurseCall::PayIn(amount) => self.pay_in(amount),
            PurseCall::PayOut(amount) => self.pay_out(amount),
        }
    }
}

impl Actor for Purse {
    ghost state = { purse_at };

    fn ask(&mut self, method: &Method, args: &[Value]) -> Result<Answer, NoMemory> {
        match PurseCall::read(method, args) {
            Ok(call) => Ok(self.does(call)),
            Err(fault) => Ok(Err(fault)),
        }
    }

    fn state_text(&self, text: &mut String) -> Result<(), NoMemory> {
        let alloc: Global = *text.allocator();
        let line = format!(in alloc; "purse {}", self.held)?;
        append_line(text, line.as_str())
    }
}
