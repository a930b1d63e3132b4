//! A gate that holds an actor at one place until its kill was asked.

use crate::places::Places;
use act_serve::Gate;
use act_types::{ActorId, NoMemory};
use std::alloc::Global;
use std::sync::atomic::{AtomicBool, Ordering};
use std::thread;

/// How often a thread yields at most before it gives the other one up.
const YIELDS: u32 = 10_000_000;

/// Counts at which places it is passed, and at one of them waits until the kill was asked.
#[derive(Drop)]
pub(super) struct AtPlace {
    pub(super) passed: Places,
    place: Option<u32>,
    is_reached: AtomicBool,
    is_asked: AtomicBool,
    has_ended: AtomicBool,
}

impl AtPlace {
    pub(super) fn new(alloc: Global, place: Option<u32>) -> Result<AtPlace, NoMemory> {
        Ok(AtPlace {
            passed: Places::new(alloc)?,
            place,
            is_reached: AtomicBool::new(false),
            is_asked: AtomicBool::new(false),
            has_ended: AtomicBool::new(false),
        })
    }

    /// Waits for the place, and says whether it is reached. It is not where the actor ends before.
    pub(super) fn wait_until_reached(&self) -> bool {
        for _ in 0..YIELDS {
            if self.is_reached.load(Ordering::SeqCst) {
                return true;
            }
            if self.has_ended.load(Ordering::SeqCst) {
                return false;
            }
            thread::yield_now();
        }
        false
    }

    pub(super) fn asked(&self) {
        self.is_asked.store(true, Ordering::SeqCst);
    }

    pub(super) fn ended(&self) {
        self.has_ended.store(true, Ordering::SeqCst);
    }
}

impl Gate for AtPlace {
    fn pass(&self, actor: ActorId, place: u32) {
        self.passed.pass(actor, place);
        if Some(place) != self.place {
            return;
        }
        self.is_reached.store(true, Ordering::SeqCst);
        for _ in 0..YIELDS {
            if self.is_asked.load(Ordering::SeqCst) {
                return;
            }
            thread::yield_now();
        }
    }
}
