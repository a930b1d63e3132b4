//! The judge of a history.

ghost use Rattle.std.specs.Prelude.{IfOk, IfErr};
ghost use Rattle.act_orders.specs.Order.{IsInOrderBy};
ghost use Rattle.act_orders.specs.Causes.{IsWhole};
ghost use Rattle.act_orders.specs.Refused.{TellsFaults};

use crate::ends::note_calls;
use crate::runs::{note, place_runs};
use crate::search::{Stuck, order_of};
use crate::{Fault, Happening, Told};
use act_types::{ListOf, NoMemory};
use std::alloc::Global;

/// Why a history was refused.
#[derive(Debug, Drop)]
pub enum Refused {
    /// It isn't in order.
    Faults(ListOf<Fault>),
    NoMemory,
}

impl From<NoMemory> for Refused {
    ghost use Rattle.std.specs.Prelude.{◌≡◌};
    ghost use Rattle.act_orders.specs.declared.verdict.Refused.TheVariants as refused;

    ghost from_gives = { λ _ result. result ≡ refused.NoMemory };

    fn from(_error: NoMemory) -> Refused {
        Refused::NoMemory
    }
}

/// The order of all that happened, if there is one; or what shows that there is none: all faults of
/// the run lists and of the ends, and one circle.
pub fn judge(alloc: Global, told: &Told) -> Result<Vec<Happening>, Refused>
    requires { IsWhole told.now }
    ensures order { IfOk result (λ order. IsInOrderBy told.now order.items) }
    ensures faults { IfErr result (TellsFaults told.now) }
{
    let mut faults = ListOf::new(alloc);
    let places = place_runs(alloc, told, &mut faults)?;
    note_calls(told, &places, &mut faults)?;
    match order_of(alloc, told, &places) {
        Ok(order) => {
            if faults.is_empty() {
                Ok(order)
            } else {
                Err(Refused::Faults(faults))
            }
        }
        Err(Stuck::Circle(circle)) => {
            note(&mut faults, Some(Fault::Circle(circle)))?;
            Err(Refused::Faults(faults))
        }
        Err(Stuck::NoMemory) => Err(Refused::NoMemory),
    }
}
