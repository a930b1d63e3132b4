//! The steps of a caller's own code, each with what is told of it.

ghost use Rattle.std.specs.Prelude.{◌≡◌, ◌≢◌, ◌⊎◌, length, None, Some, IfOk, OnOk, IfErr, OnErr, unwrap_or};
ghost use Rattle.act_rules.specs.declared.script.Step.TheVariants.{Submit, Copy};
ghost use Rattle.act_rules.specs.declared.outcome.SubmitRefusal.TheVariants.{PendingLimit, NoMemory as NoRoom};
ghost use Rattle.act_handles.specs.Handles.{copy_answer, with_copy};
ghost use Rattle.act_owner.specs.Owner.{refusal_to_submit, with_submission, with_handles};
ghost use Rattle.act_drive.specs.declared.driver.CallerLines.{CallerLines};
ghost use Rattle.act_drive.specs.Driven.{IsCalling, Stays, Waits};
ghost use Rattle.act_drive.specs.Tracing.{OnlyWaits, Traces, TracesStep};
ghost use Rattle.act_drive.specs.Sessions.{session_view, call_refusal, use_refusal, Submits};
ghost use Rattle.act_drive.specs.Lent.{Does};

use crate::driver::{CallerLines as Lines, Driver};
use act_handles::HandleRefusal;
use act_mailbox::NoNotes;
use act_rules::SubmitRefusal;
use act_types::{ActorId, Arg, FutureId, ListOf, Method, NoMemory};
use std::alloc::Global;
use std::sync::Wait;

impl Driver {
    /// Submits a call.
    fn enter(
        &mut self,
        a: ActorId,
        method: Method,
        args: ListOf<Arg>,
    ) -> Result<FutureId, SubmitRefusal>
        ensures calling { (lines : CallerLines) → IsCalling lines self.old → IsCalling lines self.new }
        ensures stays { Stays self.old self.new }
        ensures passes { self.new.passes ≡ self.old.passes }
        ensures future { IfOk result (λ k. k ≡ length self.old.owner.calls) }
        ensures accepted { OnOk result (refusal_to_submit self.old.owner a args ≡ None) }
        ensures ok { OnOk result (self.new.owner ≡ with_submission self.old.owner a method args) }
        ensures refusal { IfErr result (λ refusal.
            refusal ≡ unwrap_or (refusal_to_submit self.old.owner a args) NoRoom) }
        ensures err { OnErr result (self.new ≡ self.old) }
        ensures traced { OnOk result
            ((lines : CallerLines) → TracesStep lines (Submit a method args) self.old self.new) }
    {
        let k = self.owner.submit(a, method, args)?;
        Ok(k)
    }

    /// Waits where the actor's limit refuses the call. A limit's refusal is the last of all.
    fn wait_if_full<R: Wait>(
        &mut self,
        rt: &R,
        alloc: Global,
        lines: &Lines,
        a: ActorId,
        args: &ListOf<Arg>,
    ) -> Result<(), NoMemory>
        requires calling { IsCalling lines.now self.old }
        ensures only_waits { OnlyWaits lines.now self.old self.new }
        ensures room { OnOk result (refusal_to_submit self.new.owner a args.now ≢ Some PendingLimit) }
        ensures full { OnErr result (call_refusal (session_view self.old.owner) a args.now ≡ None) }
        ensures same { (self.new ≡ self.old) ⊎ (call_refusal (session_view self.old.owner) a args.now ≡ None) }
    {
        if self.has_room(a, args) {
            return Ok(());
        }
        self.wait_for_room(rt, alloc, lines, a, args, &mut NoNotes)?;
        Ok(())
    }

    /// Submits a call, once its actor's limit leaves room for it, and gives its future.
    pub(crate) fn try_submit<R: Wait>(
        &mut self,
        rt: &R,
        alloc: Global,
        lines: &Lines,
        a: ActorId,
        method: Method,
        args: ListOf<Arg>,
    ) -> Result<FutureId, SubmitRefusal>
        requires calling { IsCalling lines.now self.old }
        ensures calling { IsCalling lines.now self.new }
        ensures stays { Stays self.old self.new }
        ensures does { OnOk result (Does lines.now (Submit a method args) self.old self.new) }
        ensures waits { OnErr result (Waits self.old self.new) }
        ensures future { IfOk result (λ k. k ≡ length self.old.owner.calls) }
        ensures accepted { OnOk result (call_refusal (session_view self.old.owner) a args ≡ None) }
        ensures submits { OnOk result (Submits (record { actor = a; method = method; args = args })
            (session_view self.old.owner) (session_view self.new.owner)) }
        ensures refusal { IfErr result (λ refusal.
            refusal ≡ unwrap_or (call_refusal (session_view self.old.owner) a args) NoRoom) }
        ensures refused { IfErr result (λ refusal. refusal ≢ NoRoom → self.new ≡ self.old) }
        ensures traced { OnOk result (TracesStep lines.now (Submit a method args) self.old self.new) }
        ensures on_refusal { OnErr result (Traces lines.now self.old self.new) }
    {
        self.wait_if_full(rt, alloc, lines, a, &args)?;
        let k = self.enter(a, method, args)?;
        Ok(k)
    }

    /// Copies a handle, and gives how many copies are held.
    pub(crate) fn try_copy(&mut self, a: ActorId) -> Result<u32, HandleRefusal>
        ensures calling { (lines : CallerLines) → IsCalling lines self.old → IsCalling lines self.new }
        ensures stays { Stays self.old self.new }
        ensures does { OnOk result ((lines : CallerLines) → Does lines (Copy a) self.old self.new) }
        ensures value { result ≡ copy_answer a self.old.owner.handles }
        ensures ok { OnOk result (self.new.owner ≡ with_handles self.old.owner (with_copy a self.old.owner.handles)) }
        ensures err { OnErr result (self.new ≡ self.old) }
        ensures traced { OnOk result ((lines : CallerLines) → TracesStep lines (Copy a) self.old self.new) }
    {
        let copies = self.owner.copy(a)?;
        Ok(copies)
    }

    /// Why a handle would not be let go, or a kill not be asked.
    pub(crate) fn use_refusal(&self, a: ActorId) -> Option<HandleRefusal>
        ensures { result ≡ use_refusal (session_view self.now.owner) a }
    {
        match self.owner.ask_kill(a) {
            Ok(_) => None,
            Err(refusal) => Some(refusal),
        }
    }
}
