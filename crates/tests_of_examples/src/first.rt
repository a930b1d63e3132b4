//! A caller that puts something first, and then goes on as a clerk, or as a buyer.

use crate::callers_scene::actor;
use act_executor::{Code, GaveUp, Session};
use act_short::args_of;
use act_types::{Method, Name};
use example_callers::{Buyer, Clerk, Retry, Transfer, Worker};

/// What is put into actor 1.
#[derive(Clone, Copy)]
pub enum Put {
    /// A number into an account.
    Deposit,
    /// A job into a queue.
    Enqueue,
}

/// What the clerk or the buyer does then.
#[derive(Clone, Copy)]
pub enum Then {
    /// Moves so much from actor 1 to actor 2.
    Move(i64),
    /// Tries at most three times to withdraw so much from actor 1.
    Withdraw(i64),
    /// Works at queue 1, and adds its jobs to counter 2.
    Work,
    /// Pays so much out of actor 1, and orders at actor 2.
    Buy(i64),
}

/// First calls of one number, each awaited, and then the clerk or the buyer.
#[derive(Clone, Copy)]
pub struct First {
    pub put: Put,
    pub number: i64,
    pub times: u32,
    pub then: Then,
}

fn method_of(put: Put) -> Method {
    match put {
        Put::Deposit => Method::Deposit,
        Put::Enqueue => Method::Own(Name::new("enqueue").unwrap()),
    }
}

/// Goes on with a session as a clerk, or as a buyer.
fn go_on<S: Session>(then: Then, session: &mut S) -> Result<(), GaveUp> {
    let [one, two] = [actor(1), actor(2)];
    let mut clerk = match then {
        Then::Move(amount) => Clerk::Transfer(Transfer {
            from: one,
            to: two,
            amount,
        }),
        Then::Withdraw(amount) => Clerk::Retry(Retry {
            account: one,
            amount,
            most: 3,
        }),
        Then::Work => Clerk::Worker(Worker {
            queue: one,
            counter: two,
        }),
        Then::Buy(price) => {
            let mut buyer = Buyer {
                purse: one,
                shop: two,
                price,
            };
            return buyer.run(session);
        }
    };
    clerk.run(session)
}

impl Code for First {
    ghost tells = { λ _ _ _. Unit {0} };

    fn run<S: Session>(&mut self, session: &mut S) -> Result<(), GaveUp> {
        for _ in 0..self.times {
            let args = args_of(session.alloc(), &[self.number])?;
            session.ask(actor(1), method_of(self.put), args)?;
        }
        go_on(self.then, session)
    }
}
