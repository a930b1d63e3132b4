//! A clerk: callers of different code in one run.

use crate::retry::Retry;
use crate::transfer::Transfer;
use crate::worker::Worker;
use actors::{Code, GaveUp, Session};

/// What a caller does: a run takes codes of one type, so those of several kinds are an enum.
#[derive(Clone, Copy, Debug)]
pub enum Clerk {
    Transfer(Transfer),
    Worker(Worker),
    Retry(Retry),
}

impl Code for Clerk {
    ghost use Rattle.example_callers.specs.Clerk.{clerk_tells};

    ghost tells = { clerk_tells };

    fn calls(&self) -> usize {
        match self {
            Clerk::Transfer(transfer) => transfer.calls(),
            Clerk::Worker(worker) => worker.calls(),
            Clerk::Retry(retry) => retry.calls(),
        }
    }

    fn run<S: Session>(&mut self, session: &mut S) -> Result<(), GaveUp> {
        match self {
            Clerk::Transfer(transfer) => transfer.run(session),
            Clerk::Worker(worker) => worker.run(session),
            Clerk::Retry(retry) => retry.run(session),
        }
    }
}
