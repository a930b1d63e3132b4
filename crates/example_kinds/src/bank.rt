//! A bank: accounts that can be paid into and out of, and transfers between them.

ghost use Rattle.std.specs.Prelude.{◌≡◌, ◌+◌, ◌-◌, ◌^◌, ◌<◌, ◌≤◌, ℕ, List, IfOk, Ok, codes, length, pos, replicate, slice_index, slice_set};
ghost use Rattle.std.specs.List.{sum};
ghost use Rattle.std.specs.String.{string_bytes};
ghost use Rattle.actors.specs.Fault.TheVariants.{Own};
ghost use Rattle.actors.specs.Value.TheVariants.{Int};
ghost use Rattle.actors.specs.Kinds.{OwnAt, behaves, next_state, step_answer};
ghost use Rattle.actors.specs.RunItem.{RunItem as Item};
ghost use Rattle.example_kinds.specs.Bank.{bank_call, bank_does, bank_step, bank_text, funds_at, has_account, pay_in_at, pay_out_at, total_at, transfer_at, HoldsItsMoney, MoneyIsKept};
ghost use Rattle.example_kinds.specs.declared.bank.TheConstants.{MAX_ACCOUNTS};
ghost use Rattle.example_kinds.specs.declared.bank.BankCall.TheVariants.{PayIn, PayOut, Transfer, Funds};

use actors::{Actor, Answer, Fault, Meaning, Method, Name, NoMemory, Value, append_line};
use std::alloc::Global;
use std::marker::Model;

/// A bank has at most this many accounts.
pub const MAX_ACCOUNTS: usize = 1_024;

/// The total stays below this, so that each balance is a value.
const LIMIT: u64 = 1 << 63;

/// What a bank can be asked. Accounts are numbered from 0.
#[derive(Clone, Copy, Debug, PartialEq, Eq)]
pub enum BankCall {
    /// Raises an account by an amount, and answers what it then holds.
    PayIn(i64, i64),
    /// Lowers an account by an amount, and answers what it then holds.
    PayOut(i64, i64),
    /// Moves an amount from the first account to the second, and answers what the first then holds.
    Transfer(i64, i64, i64),
    /// Answers what an account holds.
    Funds(i64),
    /// Answers what all accounts hold.
    Total,
}

impl BankCall {
    fn pay_in_at(args: &[Value]) -> Result<BankCall, Fault>
        ensures { result ≡ pay_in_at args.now }
    {
        match args {
            [Value::Int(account), Value::Int(amount)] => Ok(BankCall::PayIn(*account, *amount)),
            _ => Err(Fault::BadArgs),
        }
    }

    fn pay_out_at(args: &[Value]) -> Result<BankCall, Fault>
        ensures { result ≡ pay_out_at args.now }
    {
        match args {
            [Value::Int(account), Value::Int(amount)] => Ok(BankCall::PayOut(*account, *amount)),
            _ => Err(Fault::BadArgs),
        }
    }

    fn transfer_at(args: &[Value]) -> Result<BankCall, Fault>
        ensures { result ≡ transfer_at args.now }
    {
        match args {
            [Value::Int(from), Value::Int(to), Value::Int(amount)] => {
                Ok(BankCall::Transfer(*from, *to, *amount))
            }
            _ => Err(Fault::BadArgs),
        }
    }

    fn funds_at(args: &[Value]) -> Result<BankCall, Fault>
        ensures { result ≡ funds_at args.now }
    {
        match args {
            [Value::Int(account)] => Ok(BankCall::Funds(*account)),
            _ => Err(Fault::BadArgs),
        }
    }

    fn total_at(args: &[Value]) -> Result<BankCall, Fault>
        ensures { result ≡ total_at args.now }
    {
        match args {
            [] => Ok(BankCall::Total),
            _ => Err(Fault::BadArgs),
        }
    }

    /// What a method and its values ask for.
    pub fn read(method: &Method, args: &[Value]) -> Result<BankCall, Fault>
        ensures { result ≡ bank_call method.now args.now }
    {
        match method.word() {
            "pay_in" => BankCall::pay_in_at(args),
            "pay_out" => BankCall::pay_out_at(args),
            "transfer" => BankCall::transfer_at(args),
            "funds" => BankCall::funds_at(args),
            "total" => BankCall::total_at(args),
            _ => Err(Fault::NoMethod),
        }
    }
}

/// A bank, which contracts see as the balances of its accounts.
#[derive(Debug, Drop)]
pub struct Bank {
    balances: Vec<u64>,
    total: u64,
}

impl Model for Bank {
    ghost use Rattle.std.specs.Prelude.{ℕ, List};
    ghost use Rattle.example_kinds.specs.Banks.{IsBank};

    ghost Value = { List ℕ };

    ghost view = { λ bank. bank.balances.items };

    ghost invariant = { λ bank. IsBank bank.balances.items bank.total };
}

/// There is no account of that number.
fn no_account() -> Fault
    ensures { result ≡ Own (codes "NoAccount") }
{
    Fault::Own(Name::new("NoAccount").unwrap())
}

/// The account holds less.
fn too_little() -> Fault
    ensures { result ≡ Own (codes "TooLittle") }
{
    Fault::Own(Name::new("TooLittle").unwrap())
}

/// The total would reach the limit.
fn bank_full() -> Fault
    ensures { result ≡ Own (codes "BankFull") }
{
    Fault::Own(Name::new("BankFull").unwrap())
}

impl Bank {
    /// A bank with nothing in so many accounts.
    pub fn open(alloc: Global, accounts: usize) -> Result<Bank, NoMemory>
        requires { accounts ≤ MAX_ACCOUNTS }
        ensures { IfOk result (λ bank. bank ≡ replicate accounts 0) }
    {
        let mut balances = Vec::new(alloc);
        balances.resize(accounts, 0)?;
        Ok(Bank { balances, total: 0 })
    }

    /// There is an account of that number.
    fn has_account(&self, account: i64) -> bool
        ensures { result ≡ has_account self.now account }
    {
        account >= 0 && account.unsigned_abs() < self.balances.len() as u64
    }

    /// What the account at a place holds.
    fn balance(&self, place: usize) -> u64
        requires { place < length self.now }
        ensures { result ≡ slice_index self.now place }
    {
        self.balances[place]
    }

    /// What the account at a place holds, as an answer.
    fn funds_at(&self, place: usize) -> Answer
        requires { place < length self.now }
        ensures { result ≡ Ok (Int (pos (slice_index self.now place))) }
    {
        Ok(Value::Int(self.balances[place] as i64))
    }

    /// Adds an amount to the account at a place.
    fn give(&mut self, place: usize, amount: u64)
        requires there { place < length self.old }
        requires room { sum self.old + amount < 2 ^ 63 }
        ensures { self.new ≡ slice_set self.old place (slice_index self.old place + amount) }
    {
        self.balances[place] += amount;
        self.total += amount;
    }

    /// Takes an amount from the account at a place, which leaves room to give it to another.
    #[tactic(auto, using(crate::proofs::Money::sum_taken))]
    fn take(&mut self, place: usize, amount: u64)
        requires there { place < length self.old }
        requires enough { amount ≤ slice_index self.old place }
        ensures taken { self.new ≡ slice_set self.old place (slice_index self.old place - amount) }
        ensures room { sum self.new + amount < 2 ^ 63 }
    {
        self.balances[place] -= amount;
        self.total -= amount;
    }

    /// Pays an amount into an account.
    fn pay_in(&mut self, account: i64, amount: i64) -> Answer
        ensures answer { result ≡ step_answer (bank_does self.old (PayIn account amount)) }
        ensures moved { self.new ≡ next_state self.old (bank_does self.old (PayIn account amount)) }
    {
        if !self.has_account(account) {
            return Err(no_account());
        }
        if amount <= 0 {
            return Err(Fault::BadAmount);
        }
        let amount = amount.unsigned_abs();
        if self.total + amount >= LIMIT {
            return Err(bank_full());
        }
        let place = account as usize;
        self.give(place, amount);
        self.funds_at(place)
    }

    /// Pays an amount out of an account.
    fn pay_out(&mut self, account: i64, amount: i64) -> Answer
        ensures answer { result ≡ step_answer (bank_does self.old (PayOut account amount)) }
        ensures moved { self.new ≡ next_state self.old (bank_does self.old (PayOut account amount)) }
    {
        if !self.has_account(account) {
            return Err(no_account());
        }
        if amount <= 0 {
            return Err(Fault::BadAmount);
        }
        let amount = amount.unsigned_abs();
        let place = account as usize;
        if self.balance(place) < amount {
            return Err(too_little());
        }
        self.take(place, amount);
        self.funds_at(place)
    }

    /// Moves an amount between accounts; where they are one, all stays as it is.
    fn transfer(&mut self, from: i64, to: i64, amount: i64) -> Answer
        ensures answer { result ≡ step_answer (bank_does self.old (Transfer from to amount)) }
        ensures moved { self.new ≡ next_state self.old (bank_does self.old (Transfer from to amount)) }
    {
        if !self.has_account(from) || !self.has_account(to) {
            return Err(no_account());
        }
        if amount <= 0 {
            return Err(Fault::BadAmount);
        }
        let amount = amount.unsigned_abs();
        let source = from as usize;
        if self.balance(source) < amount {
            return Err(too_little());
        }
        self.take(source, amount);
        self.give(to as usize, amount);
        self.funds_at(source)
    }

    /// What an account holds.
    fn funds(&self, account: i64) -> Answer
        ensures { result ≡ step_answer (bank_does self.now (Funds account)) }
    {
        if !self.has_account(account) {
            return Err(no_account());
        }
        self.funds_at(account as usize)
    }

    /// Does a call.
    fn does(&mut self, call: BankCall) -> Answer
        ensures answer { result ≡ step_answer (bank_does self.old call) }
        ensures moved { self.new ≡ next_state self.old (bank_does self.old call) }
    {
        match call {
            BankCall::PayIn(account, amount) => self.pay_in(account, amount),
            BankCall::PayOut(account, amount) => self.pay_out(account, amount),
            BankCall::Transfer(from, to, amount) => self.transfer(from, to, amount),
            BankCall::Funds(account) => self.funds(account),
            BankCall::Total => Ok(Value::Int(self.total as i64)),
        }
    }

    /// How the bank is written.
    fn line(&self, alloc: Global) -> Result<String, NoMemory>
        ensures { IfOk result (λ line. string_bytes line ≡ bank_text self.now) }
    {
        let mut line = String::from_str(alloc, "bank")?;
        for balance in self.balances.as_slice() {
            let part = format!(in alloc; " {balance}")?;
            line.push_str(part.as_str())?;
        }
        Ok(line)
    }
}

impl Actor for Bank {
    ghost state = { λ bank. OwnAt (behaves bank_step bank_text bank) };

    fn ask(&mut self, method: &Method, args: &[Value]) -> Result<Answer, NoMemory> {
        match BankCall::read(method, args) {
            Ok(call) => Ok(self.does(call)),
            Err(fault) => Ok(Err(fault)),
        }
    }

    fn state_text(&self, text: &mut String) -> Result<(), NoMemory> {
        let line = self.line(*text.allocator())?;
        append_line(text, line.as_str())
    }
}

/// What a bank means.
pub struct BankMeaning;

impl Meaning for BankMeaning {
    ghost State = { List ℕ };

    ghost step = { bank_step };

    ghost written = { bank_text };

    ghost holds = { HoldsItsMoney };
}

/// Money is neither made nor lost. After every run list of a bank that opened with nothing in it, the sum of
/// its balances is what was paid in less what was paid out. Only calls that were answered with a value count.
/// A `total` that is asked next answers just that.
#[tactic(none)]
pub fn money_is_kept()
    ensures { (accounts : ℕ) (items : List Item) → MoneyIsKept accounts items }
{}
