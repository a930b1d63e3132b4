//! The control line of an actor: kills, each with its asker.

ghost use Rattle.std.specs.Prelude.{◌≡◌, ◌≢◌, ℕ, [], ◌∷◌, ◌++◌, length, map, zip, AllPairs, Contains, IfOk, OnOk, IfErr, OnErr, IfSome, IfNone, ◌<◌, ◌^◌};
ghost use Rattle.act_rules.specs.Consistent.{IsPrefix};
ghost use Rattle.act_mailbox.specs.Lines.{items_from};
ghost use Rattle.act_mailbox.specs.Passes.{new_putter};
ghost use Rattle.act_mailbox.specs.Controls.{asker_of, kill_by, looked_after, starter, HasTakenKill};

use crate::line::{Item, Labelled, Line, Putter, Stamped, Taker};
use act_actor::{Live, RunLog};
use act_kinds::Actor;
use act_types::{ActorId, CallerId, KillNote, NoMemory};
use std::alloc::Global;
use std::marker::{Brand, Model};
use std::sync::Wait;

/// How many kills a control line holds.
const CONTROL_CAPACITY: usize = 16;

/// The starter's number among the askers. The callers have theirs from 1 on.
const STARTER: u8 = 0;

/// A kill and who asked it: a caller by its number, or the starter by 0.
#[derive(Clone, Copy, Debug, PartialEq, Eq)]
pub struct Asked {
    pub asker: u8,
    pub note: KillNote,
}

impl Item for Asked {
    ghost use Rattle.act_mailbox.specs.Controls.{asker_of};

    ghost putter = { asker_of };
}

/// An asker's pass on a control line.
pub type ControlCaller = Putter<Asked, u64>;

/// An actor's control line.
#[derive(Drop)]
pub struct Control {
    actor: ActorId,
    line: Line<Asked, u64>,
}

impl Model for Control {
    ghost use Rattle.act_mailbox.specs.Controls.{ControlView};

    ghost Value = { ControlView };

    ghost view = { λ control. record { line = control.line; actor = control.actor } };
}

impl Control {
    /// An empty line, a pass for each caller in the order of the list, the starter's, and the
    /// executor's.
    pub fn open(
        alloc: Global,
        actor: ActorId,
        callers: &[CallerId],
    ) -> Result<(Control, Vec<ControlCaller>, ControlCaller, ControlExec), NoMemory>
        requires distinct { AllPairs (λ one other. one ≢ other) callers.now }
        ensures actor { IfOk result (λ opened. opened.0.actor ≡ actor) }
        ensures callers { IfOk result (λ opened. opened.1.items ≡ map (new_putter opened.0.line) callers.now) }
        ensures starter { IfOk result (λ opened. opened.2 ≡ new_putter opened.0.line starter) }
        ensures executor { IfOk result (λ opened.
            opened.3 ≡ record {
              line = opened.0.line;
              actor = actor;
              askers = starter ∷ callers.now;
              taken = [];
              stamps = [];
              lengths = [];
              looked = 0;
            }) }
    {
        let (line, mut executor) = Line::open(alloc, CONTROL_CAPACITY)?;
        let starter = line.deal(&mut executor, STARTER);
        let passes = line.deal_all(alloc, &mut executor, callers)?;
        let executor = ControlExec::new(actor, executor);
        Ok((Control { actor, line }, passes, starter, executor))
    }

    /// The actor whose line it is.
    pub fn actor(&self) -> ActorId
        ensures { result ≡ self.now.actor }
    {
        self.actor
    }

    /// Hands the note back where the line is full.
    pub fn ask<R: Wait>(
        &self,
        rt: &R,
        pass: &mut ControlCaller,
        note: KillNote,
    ) -> Result<(), KillNote>
        requires pass { pass.old.line ≡ self.now.line }
        ensures ok { OnOk result (pass.new ≡ record pass.old {
          put = pass.old.put ++ kill_by pass.old.number note ∷ [];
          stamps = pass.old.stamps ++ 0 ∷ [];
        }) }
        ensures err { OnErr result (pass.new ≡ pass.old) }
        ensures back { IfErr result (λ back. back ≡ note) }
    {
        self.ask_at::<Brand, R>(rt, pass, note)
    }

    /// The same, where `S` is the kill's stamp.
    pub fn ask_at<S: Stamped, R: Wait>(
        &self,
        rt: &R,
        pass: &mut ControlCaller,
        note: KillNote,
    ) -> Result<(), KillNote>
        requires pass { pass.old.line ≡ self.now.line }
        ensures ok { OnOk result (pass.new ≡ record pass.old {
          put = pass.old.put ++ kill_by pass.old.number note ∷ [];
          stamps = pass.old.stamps ++ S.stamp ∷ [];
        }) }
        ensures err { OnErr result (pass.new ≡ pass.old) }
        ensures back { IfErr result (λ back. back ≡ note) }
    {
        let asker = pass.number();
        self.line
            .put::<Brand, S, R>(rt, pass, Asked { asker, note })
            .map_err(|kill| kill.note)
    }

    /// `None` where the line is empty. With a kill the pass notes the length of the log.
    pub fn take<K: Actor, R: Wait, L: RunLog>(
        &self,
        rt: &R,
        pass: &mut ControlExec,
        live: &Live<K, L>,
    ) -> Option<KillNote>
        requires pass { pass.old.line ≡ self.now.line }
        requires actor { live.now.id ≡ pass.old.actor }
        ensures looked { pass.new.looked ≡ looked_after pass.old.looked (length live.now.log) }
        ensures taken { IfSome result (λ note.
            HasTakenKill note (length live.now.log) pass.old pass.new) }
        ensures stamped { IfSome result (λ note. (n : ℕ) × (pass.new.stamps ≡ pass.old.stamps ++ n ∷ [])) }
        ensures none { IfNone result (pass.new ≡ record pass.old { looked = pass.new.looked }) }
    {
        let long = live.ran();
        pass.look(long);
        let kill = self.take_at::<Brand, R>(rt, pass, long)?;
        Some(kill.note)
    }

    /// Takes a kill, and `L` is the taker's label from then on.
    fn take_at<L: Labelled<u64>, R: Wait>(
        &self,
        rt: &R,
        pass: &mut ControlExec,
        long: usize,
    ) -> Option<Asked>
        requires pass { pass.old.line ≡ self.now.line }
        requires label { L.label ≡ pass.old.lengths ++ long ∷ [] }
        ensures taken { IfSome result (λ kill.
            pass.new ≡ record pass.old {
              taken = pass.old.taken ++ kill ∷ [];
              stamps = pass.new.stamps;
              lengths = pass.old.lengths ++ long ∷ [];
            }) }
        ensures stamped { IfSome result (λ kill. (n : ℕ) × (pass.new.stamps ≡ pass.old.stamps ++ n ∷ [])) }
        ensures none { IfNone result (pass.new ≡ pass.old) }
        ensures known { IfSome result (λ kill. Contains pass.old.askers kill.asker) }
    {
        self.line.take::<L, R>(rt, &mut pass.pass)
    }

    /// The line's length. The kills of the asker that were taken, with their stamps, begin those that it
    /// asked.
    pub fn audit<R: Wait>(
        &self,
        rt: &R,
        asker: &mut ControlCaller,
        executor: &mut ControlExec,
    ) -> usize
        requires passes { (asker.old.line ≡ self.now.line) × (executor.old.line ≡ self.now.line) }
        ensures same { (asker.new ≡ asker.old) × (executor.new ≡ executor.old) }
        ensures prefix { IsPrefix (items_from asker_of asker.old.number executor.old.taken) asker.old.put }
        ensures stamps { IsPrefix
            (items_from (λ x. asker_of x.0) asker.old.number (zip executor.old.taken executor.old.stamps))
            (zip asker.old.put asker.old.stamps) }
    {
        self.line.audit(rt, asker, &mut executor.pass)
    }
}

/// It counts the lengths of the log, from 0 on, at which a kill was looked for.
#[derive(Drop)]
pub struct ControlExec {
    pass: Taker<Asked, u64>,
    actor: ActorId,
    looked: u64,
}

impl Model for ControlExec {
    ghost use Rattle.act_mailbox.specs.Controls.{ControlExecView};

    ghost Value = { ControlExecView };

    ghost view = { λ p. record {
      line = p.pass.line;
      actor = p.actor;
      askers = p.pass.putters;
      taken = p.pass.taken;
      stamps = p.pass.stamps;
      lengths = p.pass.label;
      looked = p.looked;
    } };
}

impl ControlExec {
    /// The pass of an actor's executor, which looked at no length.
    fn new(actor: ActorId, pass: Taker<Asked, u64>) -> ControlExec
        ensures { result ≡ record {
          line = pass.line;
          actor = actor;
          askers = pass.putters;
          taken = pass.taken;
          stamps = pass.stamps;
          lengths = pass.label;
          looked = 0;
        } }
    {
        ControlExec {
            pass,
            actor,
            looked: 0,
        }
    }

    /// A kill is looked for at this length of the log.
    fn look(&mut self, long: usize)
        requires long { long < 2 ^ 63 }
        ensures { self.new ≡ record self.old { looked = looked_after self.old.looked long } }
    {
        if self.looked == long as u64 {
            self.looked += 1;
        }
    }
}
