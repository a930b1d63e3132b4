//! The waiting for one of several futures.

ghost use Rattle.std.specs.Prelude.{◌≡◌, Some, position, is_some, true, nat_lt, IfOk, IsOk};
ghost use Rattle.std.specs.List.{list_all};
ghost use Rattle.act_rules.specs.Submissions.{kept_at};
ghost use Rattle.act_drive.specs.Driven.{IsCalling};
ghost use Rattle.act_drive.specs.Tracing.{OnlyWaits};

use crate::driver::{CallerLines, Driver};
use act_mailbox::{IdleBackoff, Notes};
use act_types::{FutureId, NoMemory};
use std::alloc::Global;
use std::sync::Wait;

/// Whether each of these futures is one of the first `count`.
pub(crate) fn are_below(futures: &[FutureId], count: u32) -> bool
    ensures { result ≡ list_all (λ k. nat_lt k count) futures.now }
{
    futures.iter().all(|k| k.number() < count)
}

impl Driver {
    /// The place of the first of these futures that has an answer.
    fn first_answered(&self, futures: &[FutureId]) -> Option<usize>
        ensures { result ≡ position (λ k. is_some (kept_at self.now.owner.kept k)) futures.now }
    {
        futures.iter().position(|k| self.owner.answer(*k).is_some())
    }

    /// Goes on when one of these futures has an answer, and gives the place of the first that has.
    /// They are looked through again only after a turn in which something went or came.
    pub(crate) fn wait_for_any<R: Wait, N: Notes>(
        &mut self,
        rt: &R,
        alloc: Global,
        lines: &CallerLines,
        futures: &[FutureId],
        idle_backoff: &mut IdleBackoff,
        notes: &mut N,
    ) -> Result<usize, NoMemory>
        requires calling { IsCalling lines.now self.old }
        ensures only_waits { OnlyWaits lines.now self.old self.new }
        ensures first { IfOk result (λ at.
            position (λ k. is_some (kept_at self.new.owner.kept k)) futures.now ≡ Some at) }
        ensures kept { is_some (position (λ k. is_some (kept_at self.old.owner.kept k)) futures.now) ≡ true →
            IsOk result }
    {
        if let Some(at) = self.first_answered(futures) {
            return Ok(at);
        }
        idle_backoff.reset();
        for _ in rt.forever() {
            let has_moved = self.turn(rt, alloc, lines, notes)?;
            self.rest(rt, lines, idle_backoff, has_moved);
            if !has_moved {
                continue;
            }
            if let Some(at) = self.first_answered(futures) {
                return Ok(at);
            }
        }
        unreachable!()
    }
}
