//! What wakes a thread that sleeps until something comes into its line.

use std::sync::Wait;
use std::sync::atomic::{AtomicU64, Ordering};
use std::time::Duration;

const AWAKE: u64 = 0;

const LISTENING: u64 = 1;

/// The bell of a line. Its taker listens, looks at its lines once more, and then sleeps. Who puts something into the
/// line rings after that. So either the look finds what was put, or the ring finds the taker listening.
#[derive(Drop)]
pub(crate) struct Bell {
    word: AtomicU64,
}

impl Bell {
    pub(crate) fn new() -> Bell {
        Bell {
            word: AtomicU64::new(AWAKE),
        }
    }

    /// From now on a ring ends the next sleep.
    pub(crate) fn listen(&self) {
        self.word.store(LISTENING, Ordering::SeqCst);
    }

    /// Sleeps until a ring, unless there was one since `listen`. No longer than `longest`.
    pub(crate) fn sleep<R: Wait>(&self, rt: &R, longest: Duration) {
        self.word.park_timeout(rt, LISTENING as u32, longest);
    }

    /// Wakes the taker, if it listens. Else it costs one look.
    pub(crate) fn ring(&self) {
        if self.word.load(Ordering::SeqCst) == LISTENING {
            self.wake();
        }
    }

    #[cold]
    fn wake(&self) {
        if self.word.swap(AWAKE, Ordering::SeqCst) == LISTENING {
            self.word.wake_one();
        }
    }
}
