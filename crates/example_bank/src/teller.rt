//! A teller: a caller that asks what its requests ask, in their order.

ghost use Rattle.std.specs.Prelude.{◌≡◌, IfOk, Ok, map, codes};
ghost use Rattle.actors.specs.Arg.TheVariants.{Plain};
ghost use Rattle.actors.specs.Method.TheVariants.{Own};
ghost use Rattle.example_kinds.specs.Bank.{bank_call};
ghost use Rattle.example_bank.specs.Tellers.{call_word, call_values};

use crate::request::Request;
use actors::{Arg, Code, FutureId, GaveUp, ListOf, Method, Name, NoMemory, Session, args_of};
use example_kinds::BankCall;
use std::alloc::Global;

/// Asks what its requests ask, in their order, and waits for the answers.
#[derive(Debug, Drop)]
pub(crate) struct Teller {
    pub(crate) requests: Vec<Request>,
}

/// The method of a call, by which the bank knows it again.
fn method_of(call: &BankCall) -> Method
    ensures word { result ≡ Own (call_word call.now) }
    ensures back { bank_call result (call_values call.now) ≡ Ok call.now }
{
    let word = match call {
        BankCall::PayIn(_, _) => "pay_in",
        BankCall::PayOut(_, _) => "pay_out",
        BankCall::Transfer(_, _, _) => "transfer",
        BankCall::Funds(_) => "funds",
        BankCall::Total => "total",
    };
    Method::Own(Name::new(word).unwrap())
}

/// The arguments of a call.
fn call_args(alloc: Global, call: &BankCall) -> Result<ListOf<Arg>, NoMemory>
    ensures { IfOk result (λ args. args ≡ map Plain (call_values call.now)) }
{
    match call {
        BankCall::PayIn(account, amount) => args_of(alloc, &[*account, *amount]),
        BankCall::PayOut(account, amount) => args_of(alloc, &[*account, *amount]),
        BankCall::Transfer(from, to, amount) => args_of(alloc, &[*from, *to, *amount]),
        BankCall::Funds(account) => args_of(alloc, &[*account]),
        BankCall::Total => args_of(alloc, &[]),
    }
}

impl Code for Teller {
    ghost use Rattle.example_bank.specs.Tellers.{teller_tells};

    ghost tells = { teller_tells };

    fn calls(&self) -> usize {
        self.requests.len()
    }

    fn run<S: Session>(&mut self, session: &mut S) -> Result<(), GaveUp> {
        let alloc = session.alloc();
        let mut futures = Vec::with_capacity(alloc, self.requests.len())?;
        for request in &self.requests {
            let method = method_of(&request.call);
            let args = call_args(alloc, &request.call)?;
            futures.push(session.submit(request.branch, method, args)?)?;
        }
        session.wait_all(&futures)?;
        Ok(())
    }
}
