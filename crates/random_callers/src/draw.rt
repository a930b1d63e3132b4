//! Draws, which a seed determines.

ghost use Rattle.std.specs.Prelude.{◌<◌};

use rand::rngs::SmallRng;
use rand::{Rng, RngExt, SeedableRng};

/// A stream of draws.
#[derive(Debug, Drop)]
pub(crate) struct Draw {
    random: SmallRng,
}

impl Draw {
    /// The draws of a seed.
    pub(crate) fn new(seed: u64) -> Draw {
        Draw {
            random: SmallRng::seed_from_u64(seed),
        }
    }

    /// The draws of a seed that is drawn.
    pub(crate) fn branch(&mut self) -> Draw {
        Draw::new(self.random.next_u64())
    }

    /// A number from 0 to below the limit.
    pub(crate) fn below(&mut self, limit: u32) -> u32
        requires { 0 < limit }
        ensures { result < limit }
    {
        self.random.random_range(0..limit)
    }

    /// Yes, once in so many draws.
    pub(crate) fn once_in(&mut self, draws: u32) -> bool
        requires { 0 < draws }
    {
        self.below(draws) == 0
    }
}
