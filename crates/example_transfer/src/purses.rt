//! Two purses, and two callers who move money from the first to the second.

ghost use Rattle.std.specs.Prelude.{◌≡◌, ◌≤◌, true, IfOk, map};
ghost use Rattle.actors.specs.Limits.{MAX_ACTORS};
ghost use Rattle.actors.specs.Texts.{is_name};
ghost use Rattle.actors.specs.Actors.{actor_spec};
ghost use Rattle.actors.specs.Threads.{plan_view};
ghost use Rattle.example_transfer.specs.Purse.{purse_at};
ghost use Rattle.example_transfer.specs.Purses.{call_of, casts_of, payment_of, plans_of, purse_cast, together_of, transfer_of};

use crate::purse::Purse;
use crate::together::Together;
use actors::{
    ActorId, Arg, CallerId, Cast, FutureId, Method, Name, NoMemory, Opening, Plan, Step, Value,
    callers_of, list_of,
};
use std::alloc::Global;

/// What the two purses hold at first: that of `a1`, and that of `a2`. `c1` and `c2` may call both.
#[derive(Clone, Copy, Debug)]
pub struct Purses {
    pub first: u32,
    pub second: u32,
}

impl Purses {
    /// What they hold together.
    pub fn together(&self) -> Together
        ensures { result ≡ together_of self.now }
    {
        Together {
            one: ActorId::new(1).unwrap(),
            other: ActorId::new(2).unwrap(),
            sum: u64::from(self.first) + u64::from(self.second),
        }
    }
}

/// The actor of this number, with a purse that holds so much.
fn purse_cast(alloc: Global, number: u8, held: u32) -> Result<Cast<Purse>, NoMemory>
    requires { (1 ≤ number) × (number ≤ MAX_ACTORS) }
    ensures { IfOk result (λ cast. actor_spec purse_at cast ≡ purse_cast number held) }
{
    let c1 = CallerId::new(1).unwrap();
    let c2 = CallerId::new(2).unwrap();
    Ok(Cast {
        actor: ActorId::new(number).unwrap(),
        callers: callers_of(alloc, &[c1, c2])?,
        kind: Purse {
            held: u64::from(held),
        },
        pending: None,
    })
}

impl Opening<Purse> for Purses {
    ghost casts = { casts_of };

    fn open(&self, alloc: Global) -> Result<Vec<Cast<Purse>>, NoMemory> {
        let first = purse_cast(alloc, 1, self.first)?;
        let second = purse_cast(alloc, 2, self.second)?;
        Ok(vec![in alloc; first, second]?)
    }
}

/// A call to the actor of this number, by this name and with this argument.
fn call(alloc: Global, number: u8, name: &str, arg: Arg) -> Result<Step, NoMemory>
    requires number { (1 ≤ number) × (number ≤ MAX_ACTORS) }
    requires name { is_name name.now ≡ true }
    ensures { IfOk result (λ step. step ≡ call_of number name.now arg) }
{
    let actor = ActorId::new(number).unwrap();
    let name = Name::new(name).unwrap();
    let args = list_of(alloc, [arg])?;
    Ok(Step::Submit(actor, Method::Own(name), args))
}

/// Takes 40 out of the first purse, and pays this into the second.
fn transfer(alloc: Global, payment: Arg) -> Result<Plan, NoMemory>
    ensures { IfOk result (λ plan. plan.items ≡ transfer_of payment) }
{
    let forty = Arg::Plain(Value::Int(40));
    let take = call(alloc, 1, "pay_out", forty)?;
    let give = call(alloc, 2, "pay_in", payment)?;
    Ok(vec![in alloc; take, give]?)
}

/// How callers move money.
#[derive(Clone, Copy, Debug, PartialEq, Eq)]
pub enum Manner {
    /// Each pays in 40, whatever came of its payment out.
    Careless,
    /// Each pays in what was paid out to it: its future 0, which fails where nothing was.
    Careful,
}

impl Manner {
    /// What a caller pays in.
    fn payment(self) -> Arg
        ensures { result ≡ payment_of self }
    {
        match self {
            Manner::Careless => Arg::Plain(Value::Int(40)),
            Manner::Careful => Arg::Fut(FutureId::new(0)),
        }
    }

    /// What both callers do.
    pub fn plans(self, alloc: Global) -> Result<Vec<(CallerId, Plan)>, NoMemory>
        ensures { IfOk result (λ plans. map plan_view plans.items ≡ plans_of self) }
    {
        let c1 = CallerId::new(1).unwrap();
        let c2 = CallerId::new(2).unwrap();
        let one = transfer(alloc, self.payment())?;
        let other = transfer(alloc, self.payment())?;
        Ok(vec![in alloc; (c1, one), (c2, other)]?)
    }
}
