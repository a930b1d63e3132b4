//! A bank beside an account: money is neither made nor lost.

use crate::scene::{Call, Given, casts_of, plans_of, played, summary_of, threaded, world_after};
use act_actor::cast_fits;
use act_executor::plans_fit;
use act_kinds::{Account, Boxed};
use act_types::{ActorId, Method, NoMemory};
use act_world::{Cast, Stage, World};
use example_kinds::{Bank, bank_stage, run_banks};
use std::alloc::Global;
use std::test::Fail;

/// A bank of three accounts, and an account.
fn bank_and_account(alloc: Global) -> Result<Vec<Cast<Boxed>>, NoMemory> {
    let own: Boxed = Box::new(alloc, Bank::open(alloc, 3)?)?;
    let known: Boxed = Box::new(alloc, Account::open())?;
    casts_of(alloc, own, known)
}

const CALLS: [Call; 15] = [
    Call::Own(1, "pay_in", Given::Two(0, 10)),
    Call::Own(1, "transfer", Given::Three(0, 1, 4)),
    Call::Own(1, "transfer", Given::Three(1, 1, 2)),
    Call::Own(1, "pay_out", Given::Two(1, 5)),
    Call::Own(1, "pay_out", Given::Two(1, 3)),
    Call::Own(1, "total", Given::Nothing),
    Call::Known(2, Method::Deposit, Given::Answer(5)),
    Call::Own(1, "funds", Given::Int(2)),
    Call::Own(1, "pay_in", Given::Two(3, 1)),
    Call::Own(1, "transfer", Given::Three(0, -1, 1)),
    Call::Own(1, "pay_in", Given::Two(0, 0)),
    Call::Own(1, "pay_in", Given::Two(2, i64::MAX)),
    Call::Own(1, "total", Given::Int(1)),
    Call::Known(1, Method::Get, Given::Nothing),
    Call::Own(1, "funds", Given::Int(0)),
];

const ANSWERS: &str =
    "c1.0 a1 = 10\nc1.1 a1 = 6\nc1.2 a1 = 4\nc1.3 a1 = TooLittle\nc1.4 a1 = 1\nc1.5 a1 = 7\n\
    c1.6 a2 = 7\nc1.7 a1 = 0\nc1.8 a1 = NoAccount\nc1.9 a1 = NoAccount\n\
    c1.10 a1 = BadAmount\nc1.11 a1 = BankFull\nc1.12 a1 = BadArgs\nc1.13 a1 = NoMethod\n\
    c1.14 a1 = 6\n";

const RUNS: &str = "a1.0 c1.0 pay_in 0 10\na1.1 c1.1 transfer 0 1 4\na1.2 c1.2 transfer 1 1 2\n\
    a1.3 c1.3 pay_out 1 5\na1.4 c1.4 pay_out 1 3\na1.5 c1.5 total\na1.6 c1.7 funds 2\n\
    a1.7 c1.8 pay_in 3 1\na1.8 c1.9 transfer 0 -1 1\na1.9 c1.10 pay_in 0 0\n\
    a1.10 c1.11 pay_in 2 9223372036854775807\na1.11 c1.12 total 1\na1.12 c1.13 get\n\
    a1.13 c1.14 funds 0\n";

#[test]
fn played_beside_a_known_kind(rt: HostRuntime) -> Result<(), Fail> {
    let alloc = rt.alloc();
    let report = played(&rt, alloc, bank_and_account(alloc)?, &CALLS)?;
    let wanted = format!(in alloc;
        "{ANSWERS}a1 live bank 6 1 0\n{RUNS}a2 live account 7\na2.0 c1.6 deposit 7\n"
    )?;
    assert_eq!(rt; report.as_str(), wanted.as_str());
    Ok(())
}

#[test]
fn in_threads_beside_a_known_kind(rt: HostRuntime) -> Result<(), Fail> {
    let alloc = rt.alloc();
    let report = threaded(&rt, alloc, bank_and_account(alloc)?, &CALLS)?;
    let wanted = format!(in alloc;
        "{ANSWERS}a1 retired bank 6 1 0\n{RUNS}a2 retired account 7\na2.0 c1.6 deposit 7\n"
    )?;
    assert_eq!(rt; report.as_str(), wanted.as_str());
    Ok(())
}

/// The same run once more, of which the bank's money is said.
#[test]
fn run_of_banks(rt: HostRuntime) -> Result<(), Fail> {
    let alloc = rt.alloc();
    let casts = bank_and_account(alloc)?;
    let plans = plans_of(&rt, alloc, &CALLS)?;
    assert!(rt; cast_fits(&casts));
    assert!(rt; plans_fit(&casts, &plans));
    let joined = run_banks(&rt, alloc, casts, plans)?;
    let report = summary_of(alloc, joined)?;
    let wanted = format!(in alloc;
        "{ANSWERS}a1 retired bank 6 1 0\n{RUNS}a2 retired account 7\na2.0 c1.6 deposit 7\n"
    )?;
    assert_eq!(rt; report.as_str(), wanted.as_str());
    Ok(())
}

/// The text of a live actor's state, and how many calls it ran; of another nothing.
fn live_text(alloc: Global, world: &World<Boxed>, a: ActorId) -> Result<(String, usize), NoMemory> {
    let mut text = String::new(alloc);
    let Some(Stage::Live(live)) = bank_stage(world, a) else {
        return Ok((text, 0));
    };
    live.state_text(&mut text)?;
    Ok((text, live.log().len()))
}

#[test]
fn a_bank_in_a_world(rt: HostRuntime) -> Result<(), Fail> {
    let alloc = rt.alloc();
    let world = world_after(&rt, alloc, bank_and_account(alloc)?, &CALLS)?;
    let shown = live_text(alloc, &world, ActorId::new(1).unwrap());
    let stranger = bank_stage(&world, ActorId::new(3).unwrap()).is_some();
    drop(world);
    let (text, calls) = shown?;
    assert_eq!(rt; text.as_str(), "bank 6 1 0");
    assert_eq!(rt; calls, 14);
    assert!(rt; !stranger);
    Ok(())
}
