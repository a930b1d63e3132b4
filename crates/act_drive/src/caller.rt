//! One caller: it does the steps of its plan, and sends and collects meanwhile.

ghost use Rattle.std.specs.Prelude.{◌≡◌, ℕ, List, [], None, OnOk, All, true, false};
ghost use Rattle.act_rules.specs.Plans.{first_bad};
ghost use Rattle.act_rules.specs.Submissions.{copies_held};
ghost use Rattle.act_handles.specs.Handles.{actors_in, copies_in};
ghost use Rattle.act_drive.specs.Driven.{IsCalling, FollowsSteps, Stays, OnlyReleases, IsFreshCaller, DoesWhole, HaveEnded, HasDriven};
ghost use Rattle.act_drive.specs.Tracing.{OnlyWaits, TracesClosing, TracesPlan, TracesWhole};

use crate::driver::{CallerLines, CallerPasses, Driver};
use act_mailbox::{IdleBackoff, NoNotes, Notes};
use act_owner::Owner;
use act_rules::{Plan, Step};
use act_types::{ACTOR_NUMBERS, ActorId, NoMemory};
use std::alloc::Global;
use std::sync::Wait;

/// How many steps are done from one turn to the next. A wait has its own turns.
const STEPS_BETWEEN_TURNS: u32 = 64;

/// What a caller leaves.
#[derive(Drop)]
pub struct Driven {
    pub owner: Owner,
    pub starved: bool,
    pub passes: CallerPasses,
}

/// How many calls a plan submits.
fn submissions(plan: &[Step]) -> usize {
    plan.iter()
        .filter(|step| matches!(step, Step::Submit(..)))
        .count()
}

impl Driver {
    /// Makes room for all calls of a plan at once, so that none of its submissions grows a table.
    fn reserve(&mut self, plan: &[Step]) -> Result<(), NoMemory>
        ensures { self.new ≡ self.old }
    {
        self.owner.reserve(submissions(plan))
    }

    /// A turn after each so many steps, where `since` counts them from one turn to the next.
    pub(crate) fn turn_after<R: Wait, N: Notes>(
        &mut self,
        rt: &R,
        alloc: Global,
        lines: &CallerLines,
        since: &mut u32,
        notes: &mut N,
    ) -> Result<(), NoMemory>
        requires calling { IsCalling lines.now self.old }
        ensures only_waits { OnlyWaits lines.now self.old self.new }
    {
        if *since < STEPS_BETWEEN_TURNS - 1 {
            *since += 1;
            return Ok(());
        }
        *since = 0;
        self.turn(rt, alloc, lines, notes)?;
        Ok(())
    }

    /// Does the steps in order, with a turn after each so many.
    fn steps<R: Wait, N: Notes>(
        &mut self,
        rt: &R,
        alloc: Global,
        lines: &CallerLines,
        plan: Plan,
        notes: &mut N,
    ) -> Result<(), NoMemory>
        requires calling { IsCalling lines.now self.old }
        ensures calling { IsCalling lines.now self.new }
        ensures stays { Stays self.old self.new }
        ensures follows { OnOk result ((actors : List ℕ) → first_bad actors plan.items ≡ None →
            FollowsSteps lines.now actors [] self.old → FollowsSteps lines.now actors plan.items self.new) }
        ensures traced { OnOk result (TracesPlan lines.now plan.items self.old self.new) }
    {
        let mut since = 0;
        let mut idle_backoff = IdleBackoff::new();
        for step in plan {
            self.step(rt, alloc, lines, step, &mut idle_backoff, notes)?;
            self.turn_after(rt, alloc, lines, &mut since, notes)?;
        }
        Ok(())
    }

    /// Lets all copies of an actor's handle go.
    fn let_go<R: Wait, N: Notes>(
        &mut self,
        rt: &R,
        lines: &CallerLines,
        a: ActorId,
        notes: &mut N,
    ) -> Result<(), NoMemory>
        requires calling { IsCalling lines.now self.old }
        ensures calling { IsCalling lines.now self.new }
        ensures only_releases { OnlyReleases self.old self.new }
        ensures none { OnOk result (copies_held (copies_in a self.new.owner.handles) ≡ 0) }
        ensures traced { OnOk result (TracesClosing lines.now self.old self.new) }
    {
        for _gone in 0..self.owner.holds(a) {
            self.release(rt, lines, a, notes)?;
        }
        Ok(())
    }

    /// Lets all handles go.
    pub(crate) fn close<R: Wait, N: Notes>(
        &mut self,
        rt: &R,
        lines: &CallerLines,
        notes: &mut N,
    ) -> Result<(), NoMemory>
        requires calling { IsCalling lines.now self.old }
        ensures calling { IsCalling lines.now self.new }
        ensures only_releases { OnlyReleases self.old self.new }
        ensures none { OnOk result
            (All (λ mail. copies_held (copies_in mail.actor self.new.owner.handles) ≡ 0) lines.now.mails.now) }
        ensures traced { OnOk result (TracesClosing lines.now self.old self.new) }
    {
        for mail in lines.mails {
            self.let_go(rt, lines, mail.actor(), notes)?;
        }
        Ok(())
    }

    /// The whole of a plan.
    fn do_whole_plan<R: Wait, N: Notes>(
        &mut self,
        rt: &R,
        alloc: Global,
        lines: &CallerLines,
        plan: Plan,
        notes: &mut N,
    ) -> Result<(), NoMemory>
        requires calling { IsCalling lines.now self.old }
        ensures calling { IsCalling lines.now self.new }
        ensures stays { Stays self.old self.new }
        ensures done { OnOk result (DoesWhole lines.now plan.items self.old self.new) }
        ensures traced { OnOk result (TracesWhole lines.now plan.items self.old self.new) }
    {
        let reserved = self.reserve(plan.as_slice());
        if reserved.is_err() {
            drop(plan);
            return reserved;
        }
        self.steps(rt, alloc, lines, plan, notes)?;
        self.wind_up(rt, alloc, lines, notes)?;
        Ok(())
    }

    /// The whole of a plan, and else what is left to do without memory. Whether memory was refused.
    fn run<R: Wait, N: Notes>(
        &mut self,
        rt: &R,
        alloc: Global,
        lines: &CallerLines,
        plan: Plan,
        notes: &mut N,
    ) -> bool
        requires calling { IsCalling lines.now self.old }
        ensures calling { IsCalling lines.now self.new }
        ensures stays { Stays self.old self.new }
        ensures done { result ≡ false → DoesWhole lines.now plan.items self.old self.new }
        ensures ended { result ≡ true → HaveEnded lines.now self.new.owner self.new.passes }
        ensures traced { result ≡ false → TracesWhole lines.now plan.items self.old self.new }
    {
        match self.do_whole_plan(rt, alloc, lines, plan, notes) {
            Ok(()) => false,
            Err(_) => {
                self.starve(rt, lines, notes);
                true
            }
        }
    }
}

/// Does the steps of the plan in order, lets all handles go, and ends when all is answered. A call
/// that its actor's limit would refuse is submitted once enough calls before it are answered. A
/// caller that is refused memory asks the kill of each of its actors, and ends when each has told its
/// death or needs nothing more of it. What it does is noted.
pub fn drive_noting<R: Wait, N: Notes>(
    rt: &R,
    alloc: Global,
    owner: Owner,
    plan: Plan,
    lines: &CallerLines,
    passes: CallerPasses,
    notes: &mut N,
) -> Driven
    requires fresh { IsFreshCaller lines.now owner passes }
    requires fits { first_bad (actors_in owner.handles) plan.items ≡ None }
    ensures { HasDriven lines.now owner passes plan.items result }
{
    let mut driver = Driver {
        owner,
        passes,
        outbox: None,
        note_posted: [false; ACTOR_NUMBERS],
    };
    let starved = driver.run(rt, alloc, lines, plan, notes);
    let Driver {
        owner,
        passes,
        outbox,
        ..
    } = driver;
    drop(outbox);
    Driven {
        owner,
        starved,
        passes,
    }
}

/// The same, where nothing is noted.
pub fn drive<R: Wait>(
    rt: &R,
    alloc: Global,
    owner: Owner,
    plan: Plan,
    lines: &CallerLines,
    passes: CallerPasses,
) -> Driven
    requires fresh { IsFreshCaller lines.now owner passes }
    requires fits { first_bad (actors_in owner.handles) plan.items ≡ None }
    ensures { HasDriven lines.now owner passes plan.items result }
{
    drive_noting(rt, alloc, owner, plan, lines, passes, &mut NoNotes)
}
