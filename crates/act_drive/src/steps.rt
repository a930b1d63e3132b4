//! The steps of a plan.

ghost use Rattle.std.specs.Prelude.{◌≡◌, ◌≢◌, ◌<◌, length, true, false, is_some, All, Some, None, Ok, IfSome, IfNone, OnOk, OnErr};
ghost use Rattle.act_rules.specs.declared.script.Step.TheVariants.{Submit, Copy, Release, Kill, Await};
ghost use Rattle.act_rules.specs.Submissions.{kept_at, handle_refusal};
ghost use Rattle.act_handles.specs.Handles.{copies_in, without_copy};
ghost use Rattle.act_rules.specs.declared.outcome.SubmitRefusal.TheVariants.{PendingLimit};
ghost use Rattle.act_owner.specs.Owner.{release_note, refusal_to_submit};
ghost use Rattle.act_mailbox.specs.declared.mail.Letter.TheVariants.{Note};
ghost use Rattle.act_drive.specs.declared.driver.CallerLines.{CallerLines};
ghost use Rattle.act_drive.specs.Driven.{IsCalling, FollowsBy, IsAtKillEndpoint, IsElsewhere, AsksMore, Stays, Waits, OnlyReleases};
ghost use Rattle.act_drive.specs.Parts.{IsAwaited};
ghost use Rattle.act_drive.specs.CallerTraces.{caller_clock};
ghost use Rattle.act_drive.specs.Tracing.{Traces, TracesStep};
ghost use Rattle.act_drive.specs.Sessions.{session_view, use_refusal, OnlyHears};

use crate::driver::{CallerLines as Lines, Driver, put};
use act_mailbox::{
    Control, ControlCaller, Endpoint, IdleBackoff, Letter, Mail, Mark, Notes, Stamped,
};
use act_rules::Step;
use act_types::{ActorId, Arg, FutureId, KillNote, ListOf, Method, NoMemory};
use std::alloc::Global;
use std::marker::Brand;
use std::sync::Wait;

/// The place in the list of the endpoint at the actor's control line.
fn kill_endpoint(
    controls: &[Control],
    endpoints: &[Endpoint<ControlCaller>],
    actor: ActorId,
) -> Option<usize>
    requires { All (λ endpoint. endpoint.place < length controls.now) endpoints.now }
    ensures some { IfSome result (λ at.
        (at < length endpoints.now) × IsAtKillEndpoint controls.now endpoints.now at actor) }
    ensures none { IfNone result (All (IsElsewhere controls.now actor) endpoints.now) }
{
    for at in 0..endpoints.len() {
        if controls[endpoints[at].place].actor() == actor {
            return Some(at);
        }
    }
    None
}

/// Wakes the actor, for which there is a kill.
fn wake(mails: &[Mail], a: ActorId) {
    for mail in mails {
        if mail.actor() == a {
            mail.wake();
        }
    }
}

impl Driver {
    /// Submits a call that no limit refuses. A refusal is a want of memory, where the plan fits.
    fn submit_in_room<N: Notes>(
        &mut self,
        a: ActorId,
        method: Method,
        args: ListOf<Arg>,
        notes: &mut N,
    ) -> Result<(), NoMemory>
        requires room { refusal_to_submit self.old.owner a args ≢ Some PendingLimit }
        ensures calling { (lines : CallerLines) → IsCalling lines self.old → IsCalling lines self.new }
        ensures stays { Stays self.old self.new }
        ensures follows { OnOk result
            ((lines : CallerLines) → FollowsBy lines (Submit a method args) self.old self.new) }
        ensures traced { OnOk result
            ((lines : CallerLines) → TracesStep lines (Submit a method args) self.old self.new) }
        ensures on_refusal { OnErr result (self.new ≡ self.old) }
    {
        match self.owner.submit(a, method, args) {
            Ok(_) => {
                notes.note(Mark::Submit(a));
                Ok(())
            }
            Err(_) => Err(NoMemory),
        }
    }

    /// Submits a call, once its actor's limit leaves room for it.
    fn submit<R: Wait, N: Notes>(
        &mut self,
        rt: &R,
        alloc: Global,
        lines: &Lines,
        a: ActorId,
        method: Method,
        args: ListOf<Arg>,
        notes: &mut N,
    ) -> Result<(), NoMemory>
        requires calling { IsCalling lines.now self.old }
        ensures calling { IsCalling lines.now self.new }
        ensures stays { Stays self.old self.new }
        ensures follows { OnOk result (FollowsBy lines.now (Submit a method args) self.old self.new) }
        ensures traced { OnOk result (TracesStep lines.now (Submit a method args) self.old self.new) }
        ensures on_refusal { OnErr result (Traces lines.now self.old self.new) }
    {
        self.wait_for_room(rt, alloc, lines, a, &args, notes)?;
        self.submit_in_room(a, method, args, notes)
    }

    /// Copies a handle, which nothing refuses where the plan fits.
    fn copy<N: Notes>(&mut self, a: ActorId, notes: &mut N) -> Result<(), NoMemory>
        ensures calling { (lines : CallerLines) → IsCalling lines self.old → IsCalling lines self.new }
        ensures stays { Stays self.old self.new }
        ensures follows { OnOk result ((lines : CallerLines) → FollowsBy lines (Copy a) self.old self.new) }
        ensures traced { OnOk result ((lines : CallerLines) → TracesStep lines (Copy a) self.old self.new) }
        ensures on_refusal { OnErr result (self.new ≡ self.old) }
    {
        match self.owner.copy(a) {
            Ok(_) => {
                notes.note(Mark::Copy(a));
                Ok(())
            }
            Err(_) => Err(NoMemory),
        }
    }

    /// Lets a copy of a handle go, and takes the note in the outbox after the last one.
    pub(crate) fn release<R: Wait, N: Notes>(
        &mut self,
        rt: &R,
        lines: &Lines,
        a: ActorId,
        notes: &mut N,
    ) -> Result<(), NoMemory>
        requires calling { IsCalling lines.now self.old }
        ensures calling { IsCalling lines.now self.new }
        ensures follows { OnOk result (FollowsBy lines.now (Release a) self.old self.new) }
        ensures note_put { OnOk result (copies_in a self.old.owner.handles ≡ Some 1 →
            self.new.outbox ≡ Some (Note (release_note self.old.owner a))) }
        ensures only_releases { OnlyReleases self.old self.new }
        ensures handles { OnOk result (self.new.owner.handles ≡ without_copy a self.old.owner.handles) }
        ensures accepted { use_refusal (session_view self.old.owner) a ≡ None → result ≡ Ok tt }
        ensures traced { OnOk result (TracesStep lines.now (Release a) self.old self.new) }
        ensures on_refusal { OnErr result (Traces lines.now self.old self.new) }
    {
        self.clear(rt, lines, notes);
        match self.owner.release(a) {
            Ok(Some(note)) => {
                notes.note(Mark::LastRelease(a));
                put(&mut self.outbox, Letter::Note(note));
                Ok(())
            }
            Ok(None) => {
                notes.note(Mark::Release(a));
                Ok(())
            }
            Err(_) => Err(NoMemory),
        }
    }

    /// Goes on when the future is answered.
    fn wait_step<R: Wait, N: Notes>(
        &mut self,
        rt: &R,
        alloc: Global,
        lines: &Lines,
        k: FutureId,
        idle_backoff: &mut IdleBackoff,
        notes: &mut N,
    ) -> Result<(), NoMemory>
        requires calling { IsCalling lines.now self.old }
        ensures calling { IsCalling lines.now self.new }
        ensures stays { Stays self.old self.new }
        ensures answered { OnOk result (is_some (kept_at self.new.owner.kept k) ≡ true) }
        ensures follows { OnOk result (FollowsBy lines.now (Await k) self.old self.new) }
        ensures traced { OnOk result (TracesStep lines.now (Await k) self.old self.new) }
        ensures on_refusal { OnErr result (Traces lines.now self.old self.new) }
    {
        self.wait_for(rt, alloc, lines, k, idle_backoff, notes)?;
        Ok(())
    }

    /// Asks a kill once. A full line refuses it.
    pub(crate) fn ask<R: Wait>(&mut self, rt: &R, lines: &Lines, at: usize, a: ActorId) -> bool
        requires calling { IsCalling lines.now self.old }
        requires below { at < length self.old.passes.kills.items }
        requires place { IsAtKillEndpoint lines.now.controls.now self.old.passes.kills.items at a }
        ensures calling { IsCalling lines.now self.new }
        ensures stays { Stays self.old self.new }
        ensures asked { result ≡ true → AsksMore lines.now.controls.now a self.old self.new }
        ensures refused { result ≡ false → Waits self.old self.new }
        ensures traced { handle_refusal (copies_in a self.old.owner.handles) ≡ None → result ≡ true →
            TracesStep lines.now (Kill a) self.old self.new }
        ensures on_refusal { result ≡ false → Traces lines.now self.old self.new }
    {
        self.ask_at::<Brand, R>(rt, lines, at, a)
    }

    /// The same, where `S` is the kill's stamp.
    fn ask_at<S: Stamped, R: Wait>(&mut self, rt: &R, lines: &Lines, at: usize, a: ActorId) -> bool
        requires calling { IsCalling lines.now self.old }
        requires below { at < length self.old.passes.kills.items }
        requires place { IsAtKillEndpoint lines.now.controls.now self.old.passes.kills.items at a }
        requires stamp { S.stamp ≡ caller_clock self.old.passes }
        ensures calling { IsCalling lines.now self.new }
        ensures stays { Stays self.old self.new }
        ensures asked { result ≡ true → AsksMore lines.now.controls.now a self.old self.new }
        ensures refused { result ≡ false → Waits self.old self.new }
        ensures traced { handle_refusal (copies_in a self.old.owner.handles) ≡ None → result ≡ true →
            TracesStep lines.now (Kill a) self.old self.new }
        ensures on_refusal { result ≡ false → Traces lines.now self.old self.new }
    {
        let note = KillNote {
            caller: self.owner.id(),
            actor: a,
        };
        let endpoint = &mut self.passes.kills[at];
        match lines.controls[endpoint.place].ask_at::<S, R>(rt, &mut endpoint.pass, note) {
            Ok(()) => {
                wake(lines.mails, a);
                true
            }
            Err(_) => false,
        }
    }

    /// Goes on when the kill was asked at this endpoint, or its actor is known dead.
    fn ask_until<R: Wait, N: Notes>(
        &mut self,
        rt: &R,
        alloc: Global,
        lines: &Lines,
        at: usize,
        a: ActorId,
        notes: &mut N,
    ) -> Result<(), NoMemory>
        requires calling { IsCalling lines.now self.old }
        requires below { at < length self.old.passes.kills.items }
        requires place { IsAtKillEndpoint lines.now.controls.now self.old.passes.kills.items at a }
        ensures calling { IsCalling lines.now self.new }
        ensures stays { Stays self.old self.new }
        ensures follows { OnOk result (FollowsBy lines.now (Kill a) self.old self.new) }
        ensures hears { OnlyHears (session_view self.old.owner) (session_view self.new.owner) }
        ensures waits { OnErr result (Waits self.old self.new) }
        ensures traced { OnOk result (handle_refusal (copies_in a self.old.owner.handles) ≡ None →
            TracesStep lines.now (Kill a) self.old self.new) }
        ensures on_refusal { OnErr result (Traces lines.now self.old self.new) }
    {
        let mut idle_backoff = IdleBackoff::new();
        for _ in rt.forever() {
            if self.owner.is_dead(a) {
                return Ok(());
            }
            if self.ask(rt, lines, at, a) {
                return Ok(());
            }
            self.wait_turn(rt, alloc, lines, &mut idle_backoff, notes)?;
        }
        unreachable!()
    }

    /// Goes on when the kill was asked, or its actor is known dead.
    pub(crate) fn kill<R: Wait, N: Notes>(
        &mut self,
        rt: &R,
        alloc: Global,
        lines: &Lines,
        a: ActorId,
        notes: &mut N,
    ) -> Result<(), NoMemory>
        requires calling { IsCalling lines.now self.old }
        ensures calling { IsCalling lines.now self.new }
        ensures stays { Stays self.old self.new }
        ensures follows { OnOk result (FollowsBy lines.now (Kill a) self.old self.new) }
        ensures hears { OnlyHears (session_view self.old.owner) (session_view self.new.owner) }
        ensures waits { OnErr result (Waits self.old self.new) }
        ensures traced { OnOk result (TracesStep lines.now (Kill a) self.old self.new) }
        ensures on_refusal { OnErr result (Traces lines.now self.old self.new) }
    {
        match self.owner.ask_kill(a) {
            Err(_) => Err(NoMemory),
            Ok(_) => match kill_endpoint(lines.controls, self.passes.kills.as_slice(), a) {
                None => Err(NoMemory),
                Some(at) => {
                    notes.note(Mark::AskKill(a));
                    self.ask_until(rt, alloc, lines, at, a, notes)
                }
            },
        }
    }

    /// Does a step.
    pub(crate) fn step<R: Wait, N: Notes>(
        &mut self,
        rt: &R,
        alloc: Global,
        lines: &Lines,
        step: Step,
        idle_backoff: &mut IdleBackoff,
        notes: &mut N,
    ) -> Result<(), NoMemory>
        requires calling { IsCalling lines.now self.old }
        ensures calling { IsCalling lines.now self.new }
        ensures stays { Stays self.old self.new }
        ensures awaited { OnOk result (IsAwaited step self.new.owner) }
        ensures follows { OnOk result (FollowsBy lines.now step self.old self.new) }
        ensures traced { OnOk result (TracesStep lines.now step self.old self.new) }
        ensures on_refusal { OnErr result (Traces lines.now self.old self.new) }
    {
        match step {
            Step::Submit(a, method, args) => self.submit(rt, alloc, lines, a, method, args, notes),
            Step::Copy(a) => self.copy(a, notes),
            Step::Release(a) => self.release(rt, lines, a, notes),
            Step::Kill(a) => self.kill(rt, alloc, lines, a, notes),
            Step::Await(k) => self.wait_step(rt, alloc, lines, k, idle_backoff, notes),
        }
    }
}
