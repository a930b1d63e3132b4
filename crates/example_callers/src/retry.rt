//! A retry: a caller that makes a call again after a fault that may pass.

use actors::{ActorId, Code, Fault, GaveUp, Method, Session, args_of};

/// Withdraws an amount, and tries again where the account holds too little, so many times at most.
#[derive(Clone, Copy, Debug)]
pub struct Retry {
    pub account: ActorId,
    pub amount: i64,
    pub most: u32,
}

impl Code for Retry {
    ghost use Rattle.example_callers.specs.Retry.{retry_tells};

    ghost tells = { retry_tells };

    fn calls(&self) -> usize {
        1
    }

    fn run<S: Session>(&mut self, session: &mut S) -> Result<(), GaveUp> {
        for _ in 0..self.most {
            let args = args_of(session.alloc(), &[self.amount])?;
            let k = session.ask(self.account, Method::Withdraw, args)?;
            let Some(Err(Fault::Insufficient)) = session.answer(k) else {
                return Ok(());
            };
        }
        Ok(())
    }
}
