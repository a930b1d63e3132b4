//! The reply line of a caller: the notices of its actors.

ghost use Rattle.std.specs.Prelude.{◌≡◌, ◌≢◌, ℕ, [], ◌∷◌, ◌++◌, map, zip, All, AllPairs, Contains, IfOk, OnOk, IfErr, OnErr, IfSome, IfNone, ◌+◌, min};
ghost use Rattle.act_rules.specs.Consistent.{IsPrefix};
ghost use Rattle.act_mailbox.specs.Lines.{items_from};
ghost use Rattle.act_mailbox.specs.Passes.{new_taker};
ghost use Rattle.act_mailbox.specs.Notices.{notice_actor, IsNoDeath, NamesPlace, new_exec, IsGiven};
ghost use Rattle.act_mailbox.specs.declared.thread.TheConstants.{SHORT_PAUSES};

use crate::line::{Item, Labelled, Line, Putter, Stamped, Taker};
use crate::thread::IdleBackoff;
use act_actor::RunLog;
use act_rules::RunItem;
use act_types::{ActorId, CallerId, NoMemory, Notice};
use std::alloc::Global;
use std::marker::{Brand, Model};
use std::sync::Wait;

/// How many notices a reply line holds.
const REPLY_CAPACITY: usize = 64;

impl Item for Notice {
    ghost use Rattle.act_mailbox.specs.Notices.{notice_actor};

    ghost putter = { notice_actor };
}

/// The caller's pass on a reply line.
pub type ReplyCaller = Taker<Notice, RunItem>;

/// A caller's reply line.
#[derive(Drop)]
pub struct Replies {
    caller: CallerId,
    line: Line<Notice, RunItem>,
}

impl Model for Replies {
    ghost use Rattle.act_mailbox.specs.Notices.{RepliesView};

    ghost Value = { RepliesView };

    ghost view = { λ replies. record { line = replies.line; caller = replies.caller } };
}

/// A pass for each actor's executor, in the order of the list.
fn deal_all(
    alloc: Global,
    line: &Line<Notice, RunItem>,
    collector: &mut ReplyCaller,
    actors: &[ActorId],
) -> Result<Vec<ReplyExec>, NoMemory>
    requires line { collector.old.line ≡ line.now }
    requires distinct { AllPairs (λ one other. one ≢ other) actors.now }
    requires first { collector.old.putters ≡ [] }
    ensures collector { OnOk result (collector.new ≡ record collector.old { putters = actors.now }) }
    ensures executors { IfOk result (λ executors. executors.items ≡ map (new_exec line.now) actors.now) }
{
    let mut executors = Vec::with_capacity(alloc, actors.len())?;
    for actor in actors {
        let pass = line.deal(collector, actor.number());
        executors.push(ReplyExec::new(*actor, pass))?;
    }
    Ok(executors)
}

impl Replies {
    /// An empty line, a pass for each actor's executor in the order of the list, and the caller's.
    pub fn open(
        alloc: Global,
        caller: CallerId,
        actors: &[ActorId],
    ) -> Result<(Replies, Vec<ReplyExec>, ReplyCaller), NoMemory>
        requires distinct { AllPairs (λ one other. one ≢ other) actors.now }
        ensures caller { IfOk result (λ opened. opened.0.caller ≡ caller) }
        ensures executors { IfOk result (λ opened. opened.1.items ≡ map (new_exec opened.0.line) actors.now) }
        ensures collector { IfOk result (λ opened. opened.2 ≡ new_taker opened.0.line actors.now) }
    {
        let (line, mut collector) = Line::open(alloc, REPLY_CAPACITY)?;
        let executors = deal_all(alloc, &line, &mut collector, actors)?;
        Ok((Replies { caller, line }, executors, collector))
    }

    /// The caller whose line it is.
    pub fn caller(&self) -> CallerId
        ensures { result ≡ self.now.caller }
    {
        self.caller
    }

    /// Hands the notice back where the line is full.
    pub fn give<R: Wait>(
        &self,
        rt: &R,
        pass: &mut ReplyExec,
        log: &[RunItem],
        notice: Notice,
    ) -> Result<(), Notice>
        requires pass { pass.old.line ≡ self.now.line }
        requires actor { notice_actor notice ≡ pass.old.actor }
        requires grown { IsPrefix pass.old.seen log.now }
        requires place { NamesPlace log.now notice }
        requires alive { All IsNoDeath pass.old.given }
        ensures ok { OnOk result (pass.new ≡ record pass.old {
          given = pass.old.given ++ notice ∷ [];
          stamps = pass.old.stamps ++ 0 ∷ [];
          seen = log.now;
        }) }
        ensures err { OnErr result (pass.new ≡ pass.old) }
        ensures back { IfErr result (λ back. back ≡ notice) }
    {
        self.give_showing::<Brand, Brand, R, &[RunItem]>(rt, pass, &log, notice)
    }

    /// The same, where `S` is the notice's stamp, and the log may be one that a run doesn't keep.
    pub fn give_at<S: Stamped, R: Wait, L: RunLog>(
        &self,
        rt: &R,
        pass: &mut ReplyExec,
        log: &L,
        notice: Notice,
    ) -> Result<(), Notice>
        requires pass { pass.old.line ≡ self.now.line }
        requires actor { notice_actor notice ≡ pass.old.actor }
        requires grown { IsPrefix pass.old.seen (L.items log.now) }
        requires place { NamesPlace (L.items log.now) notice }
        requires alive { All IsNoDeath pass.old.given }
        ensures ok { OnOk result (pass.new ≡ record pass.old {
          given = pass.old.given ++ notice ∷ [];
          stamps = pass.old.stamps ++ S.stamp ∷ [];
          seen = L.items log.now;
        }) }
        ensures err { OnErr result (pass.new ≡ pass.old) }
        ensures back { IfErr result (λ back. back ≡ notice) }
    {
        self.give_showing::<Brand, S, R, L>(rt, pass, log, notice)
    }

    /// Gives a notice with the stamp `S`, and `N` is the log that the pass has seen from then on. It is
    /// picked by what is lent as the log.
    fn give_showing<N: Labelled<RunItem>, S: Stamped, R: Wait, L>(
        &self,
        rt: &R,
        pass: &mut ReplyExec,
        _log: &L,
        notice: Notice,
    ) -> Result<(), Notice>
        requires pass { pass.old.line ≡ self.now.line }
        requires actor { notice_actor notice ≡ pass.old.actor }
        requires grown { IsPrefix pass.old.seen N.label }
        requires place { NamesPlace N.label notice }
        requires alive { All IsNoDeath pass.old.given }
        ensures ok { OnOk result (pass.new ≡ record pass.old {
          given = pass.old.given ++ notice ∷ [];
          stamps = pass.old.stamps ++ S.stamp ∷ [];
          seen = N.label;
        }) }
        ensures err { OnErr result (pass.new ≡ pass.old) }
        ensures back { IfErr result (λ back. back ≡ notice) }
    {
        self.line.put::<N, S, R>(rt, &mut pass.pass, notice)
    }

    /// `None` where the line is empty.
    pub fn collect<R: Wait>(&self, rt: &R, pass: &mut ReplyCaller) -> Option<Notice>
        requires pass { pass.old.line ≡ self.now.line }
        ensures taken { IfSome result (λ notice.
            pass.new ≡ record pass.old { taken = pass.old.taken ++ notice ∷ []; stamps = pass.new.stamps }) }
        ensures stamped { IfSome result (λ notice. (n : ℕ) × (pass.new.stamps ≡ pass.old.stamps ++ n ∷ [])) }
        ensures none { IfNone result (pass.new ≡ pass.old) }
        ensures known { IfSome result (λ notice. Contains pass.old.putters (notice_actor notice)) }
    {
        self.line.take::<Brand, R>(rt, pass)
    }

    /// One attempt to collect, which costs less than `collect` where nothing is there. `None` where
    /// the first notice isn't there yet: the line is empty, or that notice isn't given to its end.
    pub fn try_collect(&self, pass: &mut ReplyCaller) -> Option<Notice>
        requires pass { pass.old.line ≡ self.now.line }
        ensures taken { IfSome result (λ notice.
            pass.new ≡ record pass.old { taken = pass.old.taken ++ notice ∷ []; stamps = pass.new.stamps }) }
        ensures stamped { IfSome result (λ notice. (n : ℕ) × (pass.new.stamps ≡ pass.old.stamps ++ n ∷ [])) }
        ensures none { IfNone result (pass.new ≡ pass.old) }
        ensures known { IfSome result (λ notice. Contains pass.old.putters (notice_actor notice)) }
    {
        self.line.try_take::<Brand>(pass)
    }

    /// The caller found nothing to do: a pause. A long one ends where a notice is given.
    pub fn pause<R: Wait>(&self, rt: &R, idle_backoff: &mut IdleBackoff)
        ensures { idle_backoff.new ≡ min (idle_backoff.old + 1) SHORT_PAUSES }
    {
        self.line.pause(rt, idle_backoff);
    }

    /// The line's length. The notices of the actor that were collected, with their stamps, begin those
    /// that it gave.
    pub fn audit<R: Wait>(
        &self,
        rt: &R,
        executor: &mut ReplyExec,
        caller: &mut ReplyCaller,
    ) -> usize
        requires passes { (executor.old.line ≡ self.now.line) × (caller.old.line ≡ self.now.line) }
        ensures same { (executor.new ≡ executor.old) × (caller.new ≡ caller.old) }
        ensures prefix { IsPrefix (items_from notice_actor executor.old.actor caller.old.taken) executor.old.given }
        ensures stamps { IsPrefix
            (items_from (λ x. notice_actor x.0) executor.old.actor (zip caller.old.taken caller.old.stamps))
            (zip executor.old.given executor.old.stamps) }
    {
        self.line.audit(rt, &mut executor.pass, caller)
    }
}

/// It keeps what was given and the log last shown.
#[derive(Drop)]
pub struct ReplyExec {
    actor: ActorId,
    pass: Putter<Notice, RunItem>,
}

impl Model for ReplyExec {
    ghost use Rattle.std.specs.Prelude.{◌≡◌};
    ghost use Rattle.act_mailbox.specs.Notices.{ReplyExecView, IsGiven};

    ghost Value = { ReplyExecView };

    ghost view = { λ p. record {
      line = p.pass.line;
      actor = p.actor;
      given = p.pass.put;
      stamps = p.pass.stamps;
      seen = p.pass.label;
    } };

    ghost invariant = { λ p. (p.pass.number ≡ p.actor) × IsGiven p.actor p.pass.label p.pass.put };
}

impl ReplyExec {
    /// The pass of an executor that gave nothing.
    fn new(actor: ActorId, pass: Putter<Notice, RunItem>) -> ReplyExec
        requires number { pass.number ≡ actor }
        requires first { (pass.put ≡ []) × (pass.stamps ≡ []) × (pass.label ≡ []) }
        ensures { result ≡ new_exec pass.line actor }
    {
        ReplyExec { actor, pass }
    }

    /// The actor whose executor's pass it is.
    pub fn actor(&self) -> ActorId
        ensures { result ≡ self.now.actor }
    {
        self.actor
    }

    /// Shows that each notice which was given kept the conditions of `Replies::give`.
    pub fn shows(&self)
        ensures { IsGiven self.now.actor self.now.seen self.now.given }
    {
        let _ = &self.pass;
    }
}
