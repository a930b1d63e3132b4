//! A gate that sees which actors run at the same time.

use act_executor::Gate;
use act_types::ActorId;
use std::sync::atomic::{AtomicU64, Ordering};
use std::thread;

/// So many times a run looks whether the others came.
const LOOKS: u32 = 10_000_000;

/// Where the first run of each actor waits for those of all others. The words have a bit for each
/// actor.
#[derive(Drop)]
pub(super) struct Meeting {
    all: u64,
    came: AtomicU64,
    saw_all: AtomicU64,
}

impl Meeting {
    /// Of these actors none ran yet.
    pub(super) fn of(all: u64) -> Meeting {
        Meeting {
            all,
            came: AtomicU64::new(0),
            saw_all: AtomicU64::new(0),
        }
    }

    /// Whether the first run of each actor saw those of all others.
    pub(super) fn have_met(&self) -> bool {
        self.saw_all.load(Ordering::SeqCst) == self.all
    }

    fn wait_for_all(&self) -> bool {
        for _ in 0..LOOKS {
            if self.came.load(Ordering::SeqCst) == self.all {
                return true;
            }
            thread::yield_now();
        }
        false
    }
}

impl Gate for Meeting {
    fn pass(&self, actor: ActorId, place: u32) {
        if place != 0 {
            return;
        }
        let bit = 1u64 << (actor.number() - 1) as u32;
        self.came.fetch_or(bit, Ordering::SeqCst);
        if self.wait_for_all() {
            self.saw_all.fetch_or(bit, Ordering::SeqCst);
        }
    }
}
