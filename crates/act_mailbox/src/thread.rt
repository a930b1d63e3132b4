//! What a thread of either side has beside its lines: places of its passes, pauses, and notes of what it does.

ghost use Rattle.std.specs.Prelude.{◌≡◌, ◌+◌, min};

use crate::bell::Bell;
use act_types::{ActorId, CallerId, FutureId};
use crossbeam_utils::Backoff;
use std::alloc::Global;
use std::marker::Model;
use std::sync::Wait;
use std::thread::{self, Parker};
use std::time::Duration;

/// A pass on the line at a place of a list of lines.
#[derive(Drop)]
pub struct Endpoint<P> {
    pub place: usize,
    pub pass: P,
}

/// So many pauses are short, from the last time on that something was done, where short ones helped
/// before. That is longer than most waits for a thread that runs.
pub const SHORT_PAUSES: u32 = 48;

/// The most trust in short pauses.
const MAX_TRUST: u32 = 8;

/// After so many waits without trust, short pauses are tried again.
const WAITS_BETWEEN_TRIALS: u32 = 16;

/// How earlier waits went. Where threads share a processor, short pauses keep it from the thread that
/// is waited for, so waits outlast them.
#[derive(Clone, Copy)]
struct Habit {
    trust: u32,
    waits: u32,
}

impl Habit {
    fn new() -> Habit {
        Habit {
            trust: MAX_TRUST,
            waits: 0,
        }
    }

    /// Whether the next wait begins with short pauses.
    fn spins(&self) -> bool {
        self.trust > 0 || self.waits == 0
    }

    /// The trust after a wait, which short pauses may have been enough for.
    fn trust_after(&self, was_short: bool) -> u32 {
        if !self.spins() {
            self.trust
        } else if was_short {
            self.trust.saturating_add(1).min(MAX_TRUST)
        } else {
            self.trust.saturating_sub(2)
        }
    }

    fn after(&self, was_short: bool) -> Habit {
        Habit {
            trust: self.trust_after(was_short),
            waits: self.waits.wrapping_add(1) % WAITS_BETWEEN_TRIALS,
        }
    }
}

/// So many pauses give the processor away before the first sleep, where a bell wakes the thread.
const YIELDS_AT_A_BELL: u32 = 64;

/// The same before the first nap, where nobody wakes it.
const YIELDS: u32 = 128;

/// The first nap, and the longest one, in microseconds. What comes in meanwhile is found at its end.
const FIRST_NAP: u32 = 64;

const LONGEST_NAP: u32 = 4_096;

/// The longest sleep at a bell, in milliseconds. A ring ends it, so that this bounds what nobody rings for.
const LONGEST_SLEEP: u64 = 250;

/// How a long wait goes on: the thread gives the processor away, and at last sleeps.
#[derive(Clone, Copy)]
struct Rest {
    yields: u32,
    nap: u32,
    listens: bool,
}

impl Rest {
    fn new() -> Rest {
        Rest {
            yields: 0,
            nap: FIRST_NAP,
            listens: false,
        }
    }

    /// Gives the processor away, while that is enough.
    fn yields(&mut self, most: u32) -> bool {
        if self.yields >= most {
            return false;
        }
        self.yields += 1;
        thread::yield_now();
        true
    }

    /// A nap, each one longer than the last. Nobody wakes the thread.
    fn nap<R: Wait>(&mut self, rt: &R) {
        Parker::new().park_timeout(rt, Duration::from_micros(u64::from(self.nap)));
        self.nap = self.nap.saturating_mul(2).min(LONGEST_NAP);
    }

    /// Listens to the bell, so that the thread looks once more, and then sleeps until it rings.
    fn sleep<R: Wait>(&mut self, rt: &R, bell: &Bell) {
        if self.listens {
            bell.sleep(rt, Duration::from_millis(LONGEST_SLEEP));
        } else {
            bell.listen();
        }
        self.listens = !self.listens;
    }
}

/// Pauses that are short at first, where that helped before. Then they give the processor away, and at last
/// the thread sleeps.
#[derive(Drop)]
pub struct IdleBackoff {
    backoff: Backoff,
    pauses: u32,
    rest: Rest,
    habit: Habit,
}

impl Model for IdleBackoff {
    ghost use Rattle.std.specs.Prelude.{ℕ, ◌≤◌};
    ghost use Rattle.act_mailbox.specs.declared.thread.TheConstants.{SHORT_PAUSES};

    ghost Value = { ℕ };

    ghost view = { λ idle_backoff. idle_backoff.pauses };

    ghost invariant = { λ idle_backoff. idle_backoff.pauses ≤ SHORT_PAUSES };
}

impl IdleBackoff {
    /// Nothing was waited for yet.
    pub fn new() -> IdleBackoff
        ensures { result ≡ 0 }
    {
        IdleBackoff {
            backoff: Backoff::new(),
            pauses: 0,
            rest: Rest::new(),
            habit: Habit::new(),
        }
    }

    /// Something was done, so that the next pauses are short again.
    pub fn reset(&mut self)
        ensures { self.new ≡ 0 }
    {
        if self.pauses > 0 {
            self.habit = self.habit.after(self.pauses < SHORT_PAUSES);
        }
        self.pauses = 0;
        self.rest = Rest::new();
    }

    /// One short pause.
    fn spin(&self) {
        self.backoff.spin();
        self.backoff.reset();
    }

    /// Nothing was done, and no bell rings where that changes.
    pub fn pause<R: Wait>(&mut self, rt: &R)
        ensures { self.new ≡ min (self.old + 1) SHORT_PAUSES }
    {
        if !self.pauses_shortly() && !self.rest.yields(YIELDS) {
            self.rest.nap(rt);
        }
    }

    /// Nothing was done, and the bell rings where that changes.
    pub(crate) fn pause_at<R: Wait>(&mut self, rt: &R, bell: &Bell)
        ensures { self.new ≡ min (self.old + 1) SHORT_PAUSES }
    {
        if !self.pauses_shortly() && !self.rest.yields(YIELDS_AT_A_BELL) {
            self.rest.sleep(rt, bell);
        }
    }

    /// One of the first pauses, if it is one.
    fn pauses_shortly(&mut self) -> bool
        ensures { self.new ≡ min (self.old + 1) SHORT_PAUSES }
    {
        if self.pauses == SHORT_PAUSES {
            return false;
        }
        self.pauses += 1;
        if self.habit.spins() {
            self.spin();
        } else {
            thread::yield_now();
        }
        true
    }
}

/// An action of a caller or an actor (`Action`, act_rules/specs/Actions.antt), as its thread notes it
/// at run time. Each is noted before what it causes in another thread is put.
#[derive(Clone, Copy, Debug, PartialEq, Eq)]
pub enum Mark {
    /// A call was submitted to the actor. Its future is the caller's next.
    Submit(ActorId),
    Copy(ActorId),
    /// A copy was released, and others are left.
    Release(ActorId),
    /// The last copy was released, and its note is to be posted.
    LastRelease(ActorId),
    /// The letter of the call was made, and is to be posted.
    Send(FutureId),
    AskKill(ActorId),
    /// The reply of the call at this place of the actor's run list was collected.
    CollectReply(ActorId, u32),
    CollectDeath(ActorId),
    /// The letter of the call was taken.
    DeliverCall(CallerId, FutureId),
    /// The letter of the caller's last release was taken.
    DeliverNote(CallerId),
    /// The caller's next call ran, and its reply is to be given.
    Run(CallerId),
    TakeKill,
    /// The actor's death is to be given to the caller.
    Tell(CallerId),
    Retire,
}

/// Where a thread notes what it does.
pub trait Notes {
    /// Nothing is noted yet.
    fn open(alloc: Global) -> Self;

    fn note(&mut self, mark: Mark);
}

/// Notes nothing.
#[derive(Drop)]
pub struct NoNotes;

impl Notes for NoNotes {
    fn open(_alloc: Global) -> NoNotes {
        NoNotes
    }

    fn note(&mut self, _mark: Mark) {}
}

/// The marks of one thread, in order.
#[derive(Drop)]
pub struct Page {
    pub marks: Vec<Mark>,
    /// Whether memory served for all marks.
    pub is_whole: bool,
}

impl Notes for Page {
    fn open(alloc: Global) -> Page {
        Page {
            marks: Vec::new(alloc),
            is_whole: true,
        }
    }

    /// A mark for which memory doesn't serve is left out, and the page isn't whole any more.
    fn note(&mut self, mark: Mark) {
        if self.marks.push(mark).is_err() {
            self.is_whole = false;
        }
    }
}
