//! Arguments that are made before the clock runs, as those of a plan are.

ghost use Rattle.std.specs.Prelude.{◌≡◌, IfOk};
ghost use Rattle.ray_bench_work.specs.Work.{one_more};

use crate::work::one_more;
use act_types::{Arg, ListOf, NoMemory};
use std::alloc::Global;
use std::marker::Model;

/// The arguments of calls that add 1. Contracts see how many are left.
#[derive(Drop)]
pub struct Prepared {
    left: Vec<ListOf<Arg>>,
}

impl Model for Prepared {
    ghost use Rattle.std.specs.Prelude.{◌≡◌, ℕ, length, All};
    ghost use Rattle.ray_bench_work.specs.Work.{one_more};

    ghost Value = { ℕ };

    ghost view = { λ prepared. length prepared.left.items };

    ghost invariant = { λ prepared. All (λ args. args ≡ one_more) prepared.left.items };
}

impl Prepared {
    /// The arguments of so many calls.
    pub fn make(alloc: Global, count: u32) -> Result<Prepared, NoMemory>
        ensures { IfOk result (λ prepared. prepared ≡ count) }
    {
        let mut left = Vec::with_capacity(alloc, count as usize)?;
        for _ in 0..count {
            left.push(one_more(alloc)?)?;
        }
        Ok(Prepared { left })
    }

    /// The arguments of one call: some that are left, or else new ones.
    pub fn take(&mut self, alloc: Global) -> Result<ListOf<Arg>, NoMemory>
        ensures { IfOk result (λ args. args ≡ one_more) }
    {
        match self.left.pop() {
            Some(args) => Ok(args),
            None => one_more(alloc),
        }
    }
}
