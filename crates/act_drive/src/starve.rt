//! A caller that was refused memory: it asks for the end of its actors, and takes no more memory.

ghost use Rattle.std.specs.Prelude.{◌≡◌, ℕ, ◌<◌, length, slice_index_or, true};
ghost use Rattle.act_mailbox.specs.Passes.{PutterView};
ghost use Rattle.act_mailbox.specs.declared.control.Asked.{Asked};
ghost use Rattle.act_mailbox.specs.declared.thread.Endpoint.{Endpoint};
ghost use Rattle.act_drive.specs.declared.driver.CallerLines.{CallerLines};
ghost use Rattle.act_drive.specs.Driven.{IsCalling, IsAtKillEndpoint, Stays, IsThrough, HasEndedAt, HaveEnded};

use crate::driver::{CallerLines, Driver};
use act_mailbox::{IdleBackoff, Notes};
use act_types::{ACTOR_NUMBERS, ActorId};
use std::sync::Wait;

impl Driver {
    /// Whether the caller is through with an actor: its death was collected, or its note was posted
    /// and all its calls are answered.
    fn is_through(&self, a: ActorId) -> bool
        ensures { (lines : CallerLines) → IsCalling lines self.now → result ≡ true →
            IsThrough self.now.owner self.now.passes a }
    {
        if self.owner.is_dead(a) {
            return true;
        }
        self.note_posted[a.number() as usize] && !self.owner.awaits(a)
    }

    /// Asks the kill of an actor, if it wasn't asked.
    fn ask_once<R: Wait>(
        &mut self,
        rt: &R,
        lines: &CallerLines,
        asked: &mut [bool; ACTOR_NUMBERS],
        at: usize,
        a: ActorId,
    )
        requires calling { IsCalling lines.now self.old }
        requires below { at < length self.old.passes.kills.items }
        requires place { IsAtKillEndpoint lines.now.controls.now self.old.passes.kills.items at a }
        ensures calling { IsCalling lines.now self.new }
        ensures stays { Stays self.old self.new }
    {
        let number = a.number() as usize;
        if !asked[number] {
            asked[number] = self.ask(rt, lines, at, a);
        }
    }

    /// Asks the kill of the actor at a place of the list of endpoints, if it wasn't asked, unless the
    /// caller is through with it. Whether it is.
    fn end<R: Wait>(
        &mut self,
        rt: &R,
        lines: &CallerLines,
        asked: &mut [bool; ACTOR_NUMBERS],
        at: usize,
    ) -> bool
        requires calling { IsCalling lines.now self.old }
        requires below { at < length self.old.passes.kills.items }
        ensures calling { IsCalling lines.now self.new }
        ensures stays { Stays self.old self.new }
        ensures same { result ≡ true → self.new ≡ self.old }
        ensures through { result ≡ true →
            (s : Endpoint (PutterView Asked ℕ)) →
            HasEndedAt lines.now.controls.now self.old.owner self.old.passes
            (slice_index_or self.old.passes.kills.items at s) }
    {
        let actor = lines.controls[self.passes.kills[at].place].actor();
        if self.is_through(actor) {
            return true;
        }
        self.ask_once(rt, lines, asked, at, actor);
        false
    }

    /// Asks the kills that weren't asked. Whether the caller is through with all its actors.
    fn end_all<R: Wait>(
        &mut self,
        rt: &R,
        lines: &CallerLines,
        asked: &mut [bool; ACTOR_NUMBERS],
    ) -> bool
        requires calling { IsCalling lines.now self.old }
        ensures calling { IsCalling lines.now self.new }
        ensures stays { Stays self.old self.new }
        ensures through { result ≡ true → HaveEnded lines.now self.new.owner self.new.passes }
    {
        let mut is_through = true;
        for at in 0..self.passes.kills.len() {
            let is_ended = self.end(rt, lines, asked, at);
            is_through = is_through && is_ended;
        }
        is_through
    }

    /// Asks the kill of each actor, and collects until the caller is through with all.
    pub(crate) fn starve<R: Wait, N: Notes>(&mut self, rt: &R, lines: &CallerLines, notes: &mut N)
        requires calling { IsCalling lines.now self.old }
        ensures calling { IsCalling lines.now self.new }
        ensures stays { Stays self.old self.new }
        ensures through { HaveEnded lines.now self.new.owner self.new.passes }
    {
        let mut idle_backoff = IdleBackoff::new();
        let mut asked = [false; ACTOR_NUMBERS];
        for _ in rt.forever() {
            if self.end_all(rt, lines, &mut asked) {
                return;
            }
            let has_heard = self.collect(lines, notes);
            self.rest(rt, lines, &mut idle_backoff, has_heard);
        }
        unreachable!()
    }
}
