//! An account.

ghost use Rattle.std.specs.Prelude.{◌≡◌, [], ◌∷◌, pos, Some, IfOk, OnOk, OnErr, IsOk, IsTrue};
ghost use Rattle.act_types.specs.KindState.{AccountAt};
ghost use Rattle.act_types.specs.Texts.{state_text};
ghost use Rattle.act_types.specs.declared.call.Method.TheVariants.{Deposit, Withdraw};
ghost use Rattle.act_types.specs.declared.call.Value.TheVariants.{Int};
ghost use Rattle.act_rules.specs.Kinds.{reply_of};
ghost use Rattle.act_rules.specs.RunList.{step_of_reply};
ghost use Rattle.act_kinds.specs.Memory.{takes_memory_of};

use crate::Actor;
use crate::actor::append;
use act_types::{Answer, Fault, Method, NoMemory, Value};
use std::fmt;
use std::marker::Model;

/// An account, which contracts see as its balance.
#[derive(Debug, Drop)]
pub struct Account {
    balance: i64,
}

impl Model for Account {
    ghost use Rattle.std.specs.Prelude.{ℤ, pos, ◌≤ℤ◌};

    ghost Value = { ℤ };

    ghost view = { λ account. account.balance };

    ghost invariant = { λ account. pos 0 ≤ℤ account.balance };
}

impl Account {
    /// An account with nothing in it.
    pub fn open() -> Account
        ensures { result ≡ pos 0 }
    {
        Account { balance: 0 }
    }

    /// Pays an amount in.
    fn deposit(&mut self, amount: i64) -> Answer
        ensures { (AccountAt self.new, result)
            ≡ step_of_reply (AccountAt self.old) (reply_of (AccountAt self.old) Deposit (Int amount ∷ [])) }
    {
        if amount <= 0 {
            return Err(Fault::BadAmount);
        }
        let Some(balance) = self.balance.checked_add(amount) else {
            return Err(Fault::Overflow);
        };
        self.balance = balance;
        Ok(Value::Int(balance))
    }

    /// Pays an amount out.
    fn withdraw(&mut self, amount: i64) -> Answer
        ensures { (AccountAt self.new, result)
            ≡ step_of_reply (AccountAt self.old) (reply_of (AccountAt self.old) Withdraw (Int amount ∷ [])) }
    {
        if amount <= 0 {
            return Err(Fault::BadAmount);
        }
        if self.balance < amount {
            return Err(Fault::Insufficient);
        }
        self.balance -= amount;
        Ok(Value::Int(self.balance))
    }
}

impl Actor for Account {
    ghost state = { AccountAt };

    fn ask(&mut self, method: &Method, args: &[Value]) -> Result<Answer, NoMemory>
        ensures answer { IfOk result (λ answer. answer
            ≡ (step_of_reply (AccountAt self.old) (reply_of (AccountAt self.old) method.now args.now)).1) }
        ensures moved { OnOk result (AccountAt self.new
            ≡ (step_of_reply (AccountAt self.old) (reply_of (AccountAt self.old) method.now args.now)).0) }
        ensures err { OnErr result (self.new ≡ self.old) }
        ensures memory_last { OnErr result (IsOk (reply_of (AccountAt self.old) method.now args.now)) }
        ensures memory { OnErr result (IsTrue (takes_memory_of (AccountAt self.old) method.now)) }
    {
        match (method, args) {
            (Method::Deposit, [Value::Int(amount)]) => Ok(self.deposit(*amount)),
            (Method::Withdraw, [Value::Int(amount)]) => Ok(self.withdraw(*amount)),
            (Method::Balance, []) => Ok(Ok(Value::Int(self.balance))),
            (Method::Deposit | Method::Withdraw | Method::Balance, _) => Ok(Err(Fault::BadArgs)),
            _ => Ok(Err(Fault::NoMethod)),
        }
    }

    fn state_text(&self, text: &mut String) -> Result<(), NoMemory> {
        append(text, self)
    }
}

impl fmt::Display for Account {
    ghost output = { λ balance. Some (state_text (AccountAt balance)) };

    fn fmt<W: fmt::Write>(&self, f: &mut fmt::Formatter<W>) -> fmt::Result {
        write!(f, "account {}", self.balance)
    }
}
