//! Which accounts one teller has to serve, so that their requests keep their order.

ghost use Rattle.std.specs.Prelude.{◌<◌};

use crate::request::Request;
use actors::{ActorId, CallerId, MAX_ACTORS};
use example_kinds::BankCall;

/// So many places a branch may have.
const PLACES: usize = 256;

/// How many tellers a branch has.
const TELLERS: u8 = 2;

/// Accounts in groups, by a label for each place of each branch. A transfer joins its two accounts into one group, and
/// a total joins all of a branch.
#[derive(Drop)]
pub(crate) struct Groups {
    labels: [[u8; PLACES]; MAX_ACTORS as usize],
}

/// The place of an account in a table of labels.
fn place(account: i64) -> usize
    ensures { result < PLACES }
{
    (account.unsigned_abs() % PLACES as u64) as usize
}

/// The branch's place in a table of branches.
fn row(branch: ActorId) -> usize
    ensures { result < MAX_ACTORS }
{
    branch.number() as usize - 1
}

impl Groups {
    /// Each account is a group of its own.
    pub(crate) fn open() -> Groups {
        let mut labels = [0; PLACES];
        for label in 0..=u8::MAX {
            labels[label as usize] = label;
        }
        Groups {
            labels: [labels; MAX_ACTORS as usize],
        }
    }

    /// Joins the groups of two accounts.
    fn join(&mut self, branch: ActorId, one: i64, other: i64) {
        let labels = &mut self.labels[row(branch)];
        let (kept, left) = (labels[place(one)], labels[place(other)]);
        if kept == left {
            return;
        }
        for label in labels {
            if *label == left {
                *label = kept;
            }
        }
    }

    /// Joins what a request speaks of.
    pub(crate) fn join_by(&mut self, request: &Request) {
        match request.call {
            BankCall::Transfer(from, to, _) => self.join(request.branch, from, to),
            BankCall::Total => self.labels[row(request.branch)] = [0; PLACES],
            BankCall::PayIn(_, _) | BankCall::PayOut(_, _) | BankCall::Funds(_) => {}
        }
    }

    /// The teller whose requests are in the order of those that speak of the same accounts.
    pub(crate) fn teller_of(&self, request: &Request) -> CallerId {
        let account = match request.call {
            BankCall::PayIn(account, _)
            | BankCall::PayOut(account, _)
            | BankCall::Transfer(account, _, _)
            | BankCall::Funds(account) => account,
            BankCall::Total => 0,
        };
        let label = self.labels[row(request.branch)][place(account)];
        let first = (request.branch.number() - 1) * TELLERS;
        CallerId::new(first + label % TELLERS + 1).unwrap()
    }
}
