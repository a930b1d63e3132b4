//! A transfer: a caller that moves an amount from one account to another.

use actors::{ActorId, Code, GaveUp, ListOf, Method, Session, Value, args_of};

/// Moves an amount from one account to another, if the first one holds as much.
#[derive(Clone, Copy, Debug)]
pub struct Transfer {
    pub from: ActorId,
    pub to: ActorId,
    pub amount: i64,
}

impl Code for Transfer {
    ghost use Rattle.example_callers.specs.Transfer.{transfer_tells};

    ghost tells = { transfer_tells };

    fn calls(&self) -> usize {
        3
    }

    fn run<S: Session>(&mut self, session: &mut S) -> Result<(), GaveUp> {
        let alloc = session.alloc();
        let asked = session.ask(self.from, Method::Balance, ListOf::new(alloc))?;
        let Some(Ok(Value::Int(balance))) = session.answer(asked) else {
            return Ok(());
        };
        if *balance < self.amount {
            return Ok(());
        }
        let taken = session.ask(self.from, Method::Withdraw, args_of(alloc, &[self.amount])?)?;
        let Some(Ok(Value::Int(_))) = session.answer(taken) else {
            return Ok(());
        };
        session.ask(self.to, Method::Deposit, args_of(alloc, &[self.amount])?)?;
        Ok(())
    }
}
