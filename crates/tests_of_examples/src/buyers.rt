//! Buyers, who order only what is paid for.

use crate::callers_scene::{actor, alone, caller, ends_as, plan_of, report_of, two_casts};
use crate::first::{First, Put, Then};
use act_actor::{Cast, cast_fits};
use act_executor::{codes_fit, plans_fit};
use act_kinds::{Account, Boxed, ListKind};
use act_types::{CallerId, Method, NoMemory};
use example_callers::{Buyer, run_buyers};
use std::alloc::Global;
use std::test::Fail;

/// Actor 1 is the purse, and actor 2 the shop.
fn purse_and_shop(alloc: Global, callers: &[u8]) -> Result<Vec<Cast<Boxed>>, NoMemory> {
    let purse: Boxed = Box::new(alloc, Account::open())?;
    let shop: Boxed = Box::new(alloc, ListKind::open(alloc))?;
    two_casts(alloc, callers, purse, shop)
}

/// A buyer of a thing of 30, after a deposit of as much as this.
fn after(deposit: i64) -> First {
    First {
        put: Put::Deposit,
        number: deposit,
        times: 1,
        then: Then::Buy(30),
    }
}

#[test]
fn orders_what_is_paid_for(rt: HostRuntime) -> Result<(), Fail> {
    let alloc = rt.alloc();
    let report = alone(&rt, alloc, purse_and_shop(alloc, &[1])?, after(100))?;
    let wanted = "c1.0 a1 = 100\nc1.1 a1 = 70\nc1.2 a2 = 1\na1 retired account 70\n\
        a1.0 c1.0 deposit 100\na1.1 c1.1 withdraw 30\na2 retired list 30\na2.0 c1.2 push 30\n";
    assert_eq!(rt; report.as_str(), wanted);
    Ok(())
}

#[test]
fn orders_nothing_that_is_not_paid_for(rt: HostRuntime) -> Result<(), Fail> {
    let alloc = rt.alloc();
    let report = alone(&rt, alloc, purse_and_shop(alloc, &[1])?, after(29))?;
    let wanted = "c1.0 a1 = 29\nc1.1 a1 = Insufficient\na1 retired account 29\n\
        a1.0 c1.0 deposit 29\na1.1 c1.1 withdraw 30\na2 retired list\n";
    assert_eq!(rt; report.as_str(), wanted);
    Ok(())
}

/// What the purse holds, and what the shop notes: of a deposit of 40 one of the two can pay 30, or none.
const ENDS: [(&str, &str); 2] = [
    ("a1 retired account 10\n", "a2 retired list 30\n"),
    ("a1 retired account 40\n", "a2 retired list\n"),
];

/// Buys a thing of 30.
fn buyer() -> Buyer {
    Buyer {
        purse: actor(1),
        shop: actor(2),
        price: 30,
    }
}

/// Callers 1 and 2 buy a thing each, out of one purse.
fn two_buyers(alloc: Global) -> Result<Vec<(CallerId, Buyer)>, NoMemory> {
    let mut buyers = Vec::new(alloc);
    buyers.push((caller(1), buyer()))?;
    buyers.push((caller(2), buyer()))?;
    Ok(buyers)
}

#[test]
fn one_order_for_each_payment(rt: HostRuntime) -> Result<(), Fail> {
    let alloc = rt.alloc();
    let casts = purse_and_shop(alloc, &[1, 2, 3])?;
    let plans = plan_of(alloc, 3, Method::Deposit, &[40])?;
    let buyers = two_buyers(alloc)?;
    assert!(rt; cast_fits(&casts));
    assert!(rt; plans_fit(&casts, &plans));
    assert!(rt; codes_fit(&casts, &plans, &buyers));
    let joined = run_buyers(&rt, alloc, casts, plans, buyers)?;
    let report = report_of(alloc, &joined);
    drop(joined);
    let report = report?;
    assert!(rt; ends_as(report.as_str(), &ENDS));
    Ok(())
}
