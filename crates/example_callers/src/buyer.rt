//! A buyer: a caller that orders a thing only once it is paid for.

use actors::{ActorId, Code, GaveUp, Method, Session, Value, args_of};

/// Pays a price out of a purse, which is an account, and notes it in a shop's list.
#[derive(Clone, Copy, Debug)]
pub struct Buyer {
    pub purse: ActorId,
    pub shop: ActorId,
    pub price: i64,
}

impl Code for Buyer {
    ghost use Rattle.example_callers.specs.Buyer.{buyer_tells};

    ghost tells = { buyer_tells };

    fn run<S: Session>(&mut self, session: &mut S) -> Result<(), GaveUp> {
        let alloc = session.alloc();
        let paid = session.ask(self.purse, Method::Withdraw, args_of(alloc, &[self.price])?)?;
        if let Some(Ok(Value::Int(_))) = session.answer(paid) {
            session.submit(self.shop, Method::Push, args_of(alloc, &[self.price])?)?;
        }
        Ok(())
    }
}
