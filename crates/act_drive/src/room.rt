//! The waiting for room where an actor has a limit of calls without an answer.

ghost use Rattle.std.specs.Prelude.{◌≡◌, ◌≢◌, true, false, None, Some, OnOk};
ghost use Rattle.act_rules.specs.declared.outcome.SubmitRefusal.TheVariants.{PendingLimit};
ghost use Rattle.act_rules.specs.Submissions.{limit_refusal};
ghost use Rattle.act_owner.specs.Owner.{owner_limit, pending, refusal_to_submit};
ghost use Rattle.act_drive.specs.Driven.{IsCalling};
ghost use Rattle.act_drive.specs.Tracing.{OnlyWaits};

use crate::driver::{CallerLines, Driver};
use act_mailbox::{IdleBackoff, Notes};
use act_rules::SubmitRefusal;
use act_types::{ActorId, Arg, ListOf, NoMemory};
use std::alloc::Global;
use std::sync::Wait;

impl Driver {
    /// Whether the actor's limit leaves room for one call more.
    fn is_below_limit(&self, a: ActorId) -> bool
        ensures { result ≡ true → limit_refusal (owner_limit self.now.owner a) (pending self.now.owner a) ≡ None }
    {
        match self.owner.limit(a) {
            None => true,
            Some(limit) => self.owner.pending(a) < limit,
        }
    }

    /// Whether the actor's limit doesn't refuse the call. It doesn't where something else does.
    pub(crate) fn has_room(&self, a: ActorId, args: &ListOf<Arg>) -> bool
        ensures room { result ≡ true → refusal_to_submit self.now.owner a args.now ≢ Some PendingLimit }
        ensures full { result ≡ false → refusal_to_submit self.now.owner a args.now ≡ Some PendingLimit }
    {
        // Below the limit the arguments need no look: the submission itself asks what else refuses it.
        if self.is_below_limit(a) {
            return true;
        }
        match self.owner.submission_refusal(a, args) {
            Some(SubmitRefusal::PendingLimit) => false,
            _ => true,
        }
    }

    /// Goes on when the actor's limit doesn't refuse the call.
    pub(crate) fn wait_for_room<R: Wait, N: Notes>(
        &mut self,
        rt: &R,
        alloc: Global,
        lines: &CallerLines,
        a: ActorId,
        args: &ListOf<Arg>,
        notes: &mut N,
    ) -> Result<(), NoMemory>
        requires calling { IsCalling lines.now self.old }
        ensures only_waits { OnlyWaits lines.now self.old self.new }
        ensures room { OnOk result (refusal_to_submit self.new.owner a args.now ≢ Some PendingLimit) }
    {
        let mut idle_backoff = IdleBackoff::new();
        for _ in rt.forever() {
            if self.has_room(a, args) {
                return Ok(());
            }
            self.wait_turn(rt, alloc, lines, &mut idle_backoff, notes)?;
        }
        unreachable!()
    }
}
