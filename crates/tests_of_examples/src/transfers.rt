//! Transfers between two accounts.

use crate::callers_scene::{actor, alone, caller, ends_as, plan_of, report_of, two_casts};
use crate::first::{First, Put, Then};
use act_actor::{Cast, cast_fits};
use act_executor::{codes_fit, plans_fit};
use act_kinds::{Account, Boxed};
use act_types::{Method, NoMemory};
use example_callers::{Transfer, run_transfers};
use std::alloc::Global;
use std::test::Fail;

fn two_accounts(alloc: Global, callers: &[u8]) -> Result<Vec<Cast<Boxed>>, NoMemory> {
    let one: Boxed = Box::new(alloc, Account::open())?;
    let two: Boxed = Box::new(alloc, Account::open())?;
    two_casts(alloc, callers, one, two)
}

/// From actor 1 to actor 2.
fn moving(amount: i64) -> Transfer {
    Transfer {
        from: actor(1),
        to: actor(2),
        amount,
    }
}

/// A transfer after a deposit of as much as this.
fn after(deposit: i64, amount: i64) -> First {
    First {
        put: Put::Deposit,
        number: deposit,
        times: 1,
        then: Then::Move(amount),
    }
}

#[test]
fn moves_what_is_there(rt: HostRuntime) -> Result<(), Fail> {
    let alloc = rt.alloc();
    let report = alone(&rt, alloc, two_accounts(alloc, &[1])?, after(100, 30))?;
    let wanted = "c1.0 a1 = 100\nc1.1 a1 = 100\nc1.2 a1 = 70\nc1.3 a2 = 30\n\
        a1 retired account 70\na1.0 c1.0 deposit 100\na1.1 c1.1 balance\na1.2 c1.2 withdraw 30\n\
        a2 retired account 30\na2.0 c1.3 deposit 30\n";
    assert_eq!(rt; report.as_str(), wanted);
    Ok(())
}

#[test]
fn stops_where_there_is_too_little(rt: HostRuntime) -> Result<(), Fail> {
    let alloc = rt.alloc();
    let report = alone(&rt, alloc, two_accounts(alloc, &[1])?, after(29, 30))?;
    let wanted = "c1.0 a1 = 29\nc1.1 a1 = 29\na1 retired account 29\na1.0 c1.0 deposit 29\n\
        a1.1 c1.1 balance\na2 retired account 0\n";
    assert_eq!(rt; report.as_str(), wanted);
    Ok(())
}

/// The withdrawal of nothing is refused, so nothing is deposited.
#[test]
fn deposits_nothing_after_a_refusal(rt: HostRuntime) -> Result<(), Fail> {
    let alloc = rt.alloc();
    let report = alone(&rt, alloc, two_accounts(alloc, &[1])?, after(10, 0))?;
    let wanted = "c1.0 a1 = 10\nc1.1 a1 = 10\nc1.2 a1 = BadAmount\na1 retired account 10\n\
        a1.0 c1.0 deposit 10\na1.1 c1.1 balance\na1.2 c1.2 withdraw 0\na2 retired account 0\n";
    assert_eq!(rt; report.as_str(), wanted);
    Ok(())
}

/// Which balances two accounts can have at the end, by the lines of a report.
const ENDS: [(&str, &str); 3] = [
    ("a1 retired account 100\n", "a2 retired account 0\n"),
    ("a1 retired account 70\n", "a2 retired account 30\n"),
    ("a1 retired account 90\n", "a2 retired account 10\n"),
];

/// A deposit of 100 and two transfers at once, one each way: whatever the schedule, the sum is 100.
#[test]
fn the_sum_is_kept(rt: HostRuntime) -> Result<(), Fail> {
    let alloc = rt.alloc();
    let casts = two_accounts(alloc, &[1, 2, 3])?;
    let plans = plan_of(alloc, 3, Method::Deposit, &[100])?;
    let back = Transfer {
        from: actor(2),
        to: actor(1),
        amount: 20,
    };
    let mut transfers = Vec::new(alloc);
    transfers.push((caller(1), moving(30)))?;
    transfers.push((caller(2), back))?;
    assert!(rt; cast_fits(&casts));
    assert!(rt; plans_fit(&casts, &plans));
    assert!(rt; codes_fit(&casts, &plans, &transfers));
    let joined = run_transfers(&rt, alloc, casts, plans, transfers)?;
    let report = report_of(alloc, &joined);
    drop(joined);
    let report = report?;
    assert!(rt; ends_as(report.as_str(), &ENDS));
    Ok(())
}
