//! A caller's thread that runs code of its own.

ghost use Rattle.std.specs.Prelude.{◌≡◌, [], OnOk, true, false};
ghost use Rattle.act_drive.specs.declared.driver.CallerLines.{CallerLines as SomeLines};
ghost use Rattle.act_drive.specs.declared.driver.Driver.{Driver as ADriver};
ghost use Rattle.act_drive.specs.Driven.{IsCalling, FollowsSteps, Stays, IsFreshCaller, EndsSteps, HaveEnded};
ghost use Rattle.act_drive.specs.Coded.{HasRunCode};
ghost use Rattle.act_drive.specs.Lent.{HasDrivenCode};
ghost use Rattle.act_drive.specs.Tracing.{TracesClosing};

use crate::caller::Driven;
use crate::code::Code;
use crate::did::no_step;
use crate::driver::{CallerLines, CallerPasses, Driver};
use crate::lent::{Lent, Opening};
use act_mailbox::{IdleBackoff, NoNotes, Notes};
use act_owner::Owner;
use act_types::{ACTOR_NUMBERS, MAX_CALLS, NoMemory};
use std::alloc::Global;
use std::marker::{Brand, PhantomData};
use std::sync::Wait;

impl Opening for Brand {
    ghost actors = { [] };

    ghost began = { λ _ _. Unit {0} };
}

impl Driver {
    /// Lets all handles go, and goes on until all is answered.
    pub(crate) fn wind_up<R: Wait, N: Notes>(
        &mut self,
        rt: &R,
        alloc: Global,
        lines: &CallerLines,
        notes: &mut N,
    ) -> Result<(), NoMemory>
        requires calling { IsCalling lines.now self.old }
        ensures calling { IsCalling lines.now self.new }
        ensures stays { Stays self.old self.new }
        ensures calls { OnOk result (self.new.owner.calls ≡ self.old.owner.calls) }
        ensures done { OnOk result (EndsSteps lines.now self.old self.new) }
        ensures traced { OnOk result (TracesClosing lines.now self.old self.new) }
    {
        // What is ready is posted before the notes of the last handles.
        self.turn(rt, alloc, lines, notes)?;
        self.close(rt, lines, notes)?;
        self.finish(rt, alloc, lines, notes)?;
        Ok(())
    }

    /// The end of a caller whose code came to its end, or gave up. Whether it did, or memory was
    /// refused.
    fn end_code<R: Wait>(
        &mut self,
        rt: &R,
        alloc: Global,
        lines: &CallerLines,
        has_given_up: bool,
    ) -> bool
        requires calling { IsCalling lines.now self.old }
        ensures calling { IsCalling lines.now self.new }
        ensures stays { Stays self.old self.new }
        ensures given_up { result ≡ false → has_given_up ≡ false }
        ensures calls { result ≡ false → self.new.owner.calls ≡ self.old.owner.calls }
        ensures done { result ≡ false → EndsSteps lines.now self.old self.new }
        ensures ended { result ≡ true → HaveEnded lines.now self.new.owner self.new.passes }
        ensures traced { result ≡ false → TracesClosing lines.now self.old self.new }
    {
        if !has_given_up && self.wind_up(rt, alloc, lines, &mut NoNotes).is_ok() {
            return false;
        }
        self.starve(rt, lines, &mut NoNotes);
        true
    }
}

/// Runs the code over a driver.
fn work<R: Wait, O: Opening, C: Code>(
    rt: &R,
    alloc: Global,
    driver: Driver,
    code: C,
    lines: &CallerLines,
) -> Driven
    requires calling { IsCalling lines.now driver }
    requires follows { FollowsSteps lines.now O.actors [] driver }
    requires began { O.began lines.now driver }
    requires only { (at : SomeLines) (other : ADriver) → O.began at other → (at ≡ lines.now) × (other ≡ driver) }
    ensures { HasDrivenCode lines.now O.actors driver (C.tells code) result }
{
    let mut code = code;
    let mut lent: Lent<'_, R, O> = Lent {
        rt,
        alloc,
        lines,
        driver,
        since: 0,
        idle_backoff: IdleBackoff::new(),
        kills: [0; ACTOR_NUMBERS],
        did: no_step(),
        of: PhantomData,
    };
    let has_given_up = code.run(&mut lent).is_err();
    let Lent { mut driver, .. } = lent;
    let starved = driver.end_code(rt, alloc, lines, has_given_up);
    let Driver {
        owner,
        passes,
        outbox,
        ..
    } = driver;
    drop(outbox);
    Driven {
        owner,
        starved,
        passes,
    }
}

/// Makes room for about as many calls as the code will submit. Where memory doesn't serve for so many
/// at once, room is made call by call.
fn make_room<C: Code>(owner: &mut Owner, code: &C)
    ensures { owner.new ≡ owner.old }
{
    let calls = code.calls().min(MAX_CALLS as usize);
    let _ = owner.reserve(calls);
}

/// Runs a caller's code, lets all handles go, and ends when all is answered. A caller whose code gave
/// up, or that is refused memory at its end, asks the kill of each of its actors, and ends when each
/// has told its death or needs nothing more of it.
pub fn drive_code<R: Wait, C: Code>(
    rt: &R,
    alloc: Global,
    owner: Owner,
    code: C,
    lines: &CallerLines,
    passes: CallerPasses,
) -> Driven
    requires fresh { IsFreshCaller lines.now owner passes }
    ensures { HasRunCode lines.now owner passes (C.tells code) result }
{
    let mut owner = owner;
    make_room(&mut owner, &code);
    let driver = Driver {
        owner,
        passes,
        outbox: None,
        note_posted: [false; ACTOR_NUMBERS],
    };
    work::<R, Brand, C>(rt, alloc, driver, code, lines)
}
