//! Withdrawals that are tried again.

use crate::callers_scene::{alone, two_casts};
use crate::first::{First, Put, Then};
use act_actor::Cast;
use act_kinds::{Account, Boxed, Counter};
use act_types::NoMemory;
use std::alloc::Global;
use std::test::Fail;

fn account_and_counter(alloc: Global) -> Result<Vec<Cast<Boxed>>, NoMemory> {
    let account: Boxed = Box::new(alloc, Account::open())?;
    let counter: Boxed = Box::new(alloc, Counter::open())?;
    two_casts(alloc, &[1], account, counter)
}

/// At most three tries to withdraw this, after a deposit of 5.
fn tries(amount: i64) -> First {
    First {
        put: Put::Deposit,
        number: 5,
        times: 1,
        then: Then::Withdraw(amount),
    }
}

#[test]
fn tries_three_times(rt: HostRuntime) -> Result<(), Fail> {
    let alloc = rt.alloc();
    let report = alone(&rt, alloc, account_and_counter(alloc)?, tries(6))?;
    let wanted =
        "c1.0 a1 = 5\nc1.1 a1 = Insufficient\nc1.2 a1 = Insufficient\nc1.3 a1 = Insufficient\n\
        a1 retired account 5\na1.0 c1.0 deposit 5\na1.1 c1.1 withdraw 6\na1.2 c1.2 withdraw 6\n\
        a1.3 c1.3 withdraw 6\na2 retired counter 0\n";
    assert_eq!(rt; report.as_str(), wanted);
    Ok(())
}

/// It ends at the first answer that isn't that fault: a number, or another fault.
#[test]
fn ends_at_another_answer(rt: HostRuntime) -> Result<(), Fail> {
    let alloc = rt.alloc();
    let report = alone(&rt, alloc, account_and_counter(alloc)?, tries(5))?;
    let wanted = "c1.0 a1 = 5\nc1.1 a1 = 0\na1 retired account 0\na1.0 c1.0 deposit 5\n\
        a1.1 c1.1 withdraw 5\na2 retired counter 0\n";
    assert_eq!(rt; report.as_str(), wanted);
    let report = alone(&rt, alloc, account_and_counter(alloc)?, tries(-1))?;
    let wanted = "c1.0 a1 = 5\nc1.1 a1 = BadAmount\na1 retired account 5\na1.0 c1.0 deposit 5\n\
        a1.1 c1.1 withdraw -1\na2 retired counter 0\n";
    assert_eq!(rt; report.as_str(), wanted);
    Ok(())
}
