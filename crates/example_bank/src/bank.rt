//! The bank: four branches, and two tellers for each.

ghost use Rattle.std.specs.Prelude.{◌≡◌, ◌≤◌, map, IfOk};
ghost use Rattle.actors.specs.Actors.{IsFitting, actor_spec};
ghost use Rattle.example_kinds.specs.Bank.{bank_at};
ghost use Rattle.example_bank.specs.Served.{branch_opened, all_opened, HasServed};

use crate::request::{BRANCH_ACCOUNTS, BRANCHES};
use crate::service::Desk;
use crate::stop::Stop;
use crate::teller::Teller;
use actors::{
    ActorId, CallerId, Cast, EpochFault, NoGate, NoMemory, callers_of, cast_fits,
    epochs_are_consistent, kept_over_epochs, run_epochs,
};
use example_kinds::{Bank, BankMeaning};
use std::alloc::Global;
use std::io::{Read, Write};
use std::sync::Wait;
use std::thread::Threads;

/// A branch that holds nothing yet, and its two tellers.
fn branch(alloc: Global, number: u8) -> Result<Cast<Bank>, NoMemory>
    requires least { 1 ≤ number }
    requires most { number ≤ BRANCHES }
    ensures { IfOk result (λ cast. actor_spec bank_at cast ≡ branch_opened number) }
{
    let one = CallerId::new(2 * number - 1).unwrap();
    let other = CallerId::new(2 * number).unwrap();
    Ok(Cast {
        actor: ActorId::new(number).unwrap(),
        callers: callers_of(alloc, &[one, other])?,
        kind: Bank::open(alloc, BRANCH_ACCOUNTS as usize)?,
        pending: None,
    })
}

/// All branches.
fn branches(alloc: Global) -> Result<Vec<Cast<Bank>>, Stop>
    ensures opened { IfOk result (λ casts. map (actor_spec bank_at) casts.items ≡ all_opened) }
    ensures fit { IfOk result (λ casts. IsFitting casts.items) }
{
    let mut casts = Vec::new(alloc);
    casts.push(branch(alloc, 1)?)?;
    casts.push(branch(alloc, 2)?)?;
    casts.push(branch(alloc, 3)?)?;
    casts.push(branch(alloc, 4)?)?;
    if !cast_fits(&casts) {
        return Err(Stop::Unfit);
    }
    Ok(casts)
}

/// Answers requests until the reader ends, and gives the branches back as they are then.
pub(crate) fn serve<Rt: Threads + Wait + Sync, R: Read + Drop, W: Write + Drop>(
    rt: &Rt,
    alloc: Global,
    reader: &mut R,
    writer: &mut W,
) -> Result<Vec<Cast<Bank>>, EpochFault<Stop>>
    ensures { IfOk result (λ left. HasServed (map (actor_spec bank_at) left.items)) }
{
    let casts = match branches(alloc) {
        Ok(casts) => casts,
        Err(stop) => return Err(EpochFault::Service(stop)),
    };
    let mut desk = Desk::open(alloc, reader, writer);
    let left = run_epochs(rt, alloc, casts, &mut desk, &NoGate)?;
    kept_over_epochs::<Teller, BankMeaning>();
    epochs_are_consistent::<Teller>();
    Ok(left)
}
