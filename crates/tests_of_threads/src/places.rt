//! A gate that counts at which places of which actors it is passed.

use act_serve::Gate;
use act_types::{ActorId, NoMemory};
use std::alloc::Global;
use std::sync::atomic::{AtomicU64, Ordering};

/// How many places of each of two actors are counted one by one.
const SPAN: usize = 32;

/// Counts how often it is passed at each place of actors 1 and 2, and elsewhere.
#[derive(Drop)]
pub(crate) struct Places {
    first: Vec<AtomicU64>,
    second: Vec<AtomicU64>,
    elsewhere: AtomicU64,
}

fn zeros(alloc: Global) -> Result<Vec<AtomicU64>, NoMemory> {
    let mut zeros = Vec::new(alloc);
    for _ in 0..SPAN {
        zeros.push(AtomicU64::new(0))?;
    }
    Ok(zeros)
}

/// Whether the first so many places were passed once, and no other.
fn each_once(places: &[AtomicU64], runs: usize) -> bool {
    for (place, count) in places.iter().enumerate() {
        if count.load(Ordering::SeqCst) != u64::from(place < runs) {
            return false;
        }
    }
    true
}

impl Places {
    pub(crate) fn new(alloc: Global) -> Result<Places, NoMemory> {
        Ok(Places {
            first: zeros(alloc)?,
            second: zeros(alloc)?,
            elsewhere: AtomicU64::new(0),
        })
    }

    /// Whether it was passed once at each of the first so many places of the actors, and at no other.
    pub(crate) fn has_each_once(&self, runs: [usize; 2]) -> bool {
        each_once(&self.first, runs[0])
            && each_once(&self.second, runs[1])
            && self.elsewhere.load(Ordering::SeqCst) == 0
    }
}

impl Gate for Places {
    fn pass(&self, actor: ActorId, place: u32) {
        let counts = match actor.number() {
            1 => self.first.get(place as usize),
            2 => self.second.get(place as usize),
            _ => None,
        };
        counts
            .unwrap_or(&self.elsewhere)
            .fetch_add(1, Ordering::SeqCst);
    }
}
