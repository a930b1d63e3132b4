//! A gate at which the first runs of two actors wait for each other.

use act_console::Gate;
use act_types::ActorId;
use std::sync::atomic::{AtomicU64, Ordering};
use std::thread;

/// So many times a run looks whether the other one came.
const LOOKS: u32 = 10_000_000;

/// Where the first runs of two actors wait for each other.
#[derive(Drop)]
pub(crate) struct Meeting {
    came: AtomicU64,
    met: AtomicU64,
}

impl Meeting {
    /// Nobody came yet.
    pub(crate) fn new() -> Meeting {
        Meeting {
            came: AtomicU64::new(0),
            met: AtomicU64::new(0),
        }
    }

    /// How many of them saw the other.
    pub(crate) fn count(&self) -> u64 {
        self.met.load(Ordering::SeqCst)
    }
}

impl Gate for Meeting {
    fn pass(&self, _actor: ActorId, place: u32) {
        if place != 0 {
            return;
        }
        self.came.fetch_add(1, Ordering::SeqCst);
        for _ in 0..LOOKS {
            if self.came.load(Ordering::SeqCst) == 2 {
                self.met.fetch_add(1, Ordering::SeqCst);
                return;
            }
            thread::yield_now();
        }
    }
}
