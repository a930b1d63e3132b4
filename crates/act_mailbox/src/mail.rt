//! The mail line of an actor: the letters of its callers.

ghost use Rattle.std.specs.Prelude.{◌≡◌, ◌≢◌, ℕ, [], ◌∷◌, ◌++◌, map, zip, AllPairs, Contains, IfOk, OnOk, IfErr, OnErr, IfSome, IfNone, ◌+◌, min};
ghost use Rattle.act_rules.specs.Consistent.{IsPrefix};
ghost use Rattle.act_mailbox.specs.Lines.{items_from};
ghost use Rattle.act_mailbox.specs.Passes.{new_putter, new_taker};
ghost use Rattle.act_mailbox.specs.Mails.{caller_of};
ghost use Rattle.act_mailbox.specs.declared.thread.TheConstants.{SHORT_PAUSES};

use crate::line::{Item, Line, Putter, Stamped, Taker};
use crate::thread::IdleBackoff;
use act_types::{ActorId, CallerId, NoMemory, Packet, ReleaseNote};
use std::alloc::Global;
use std::marker::{Brand, Model};
use std::sync::Wait;

/// How many letters a mail line holds.
const MAIL_CAPACITY: usize = 64;

/// What a caller posts to an actor.
#[derive(Debug, Drop, PartialEq, Eq)]
pub enum Letter {
    Call(Packet),
    Note(ReleaseNote),
}

impl Item for Letter {
    ghost use Rattle.act_mailbox.specs.Mails.{caller_of};

    ghost putter = { caller_of };
}

/// A caller's pass on a mail line.
pub type MailCaller = Putter<Letter, ()>;

/// The executor's pass on a mail line.
pub type MailExec = Taker<Letter, ()>;

/// An actor's mail line.
#[derive(Drop)]
pub struct Mail {
    actor: ActorId,
    line: Line<Letter, ()>,
}

impl Model for Mail {
    ghost use Rattle.act_mailbox.specs.Mails.{MailView};

    ghost Value = { MailView };

    ghost view = { λ mail. record { line = mail.line; actor = mail.actor } };
}

impl Mail {
    /// An empty line, a pass for each caller in the order of the list, and the executor's pass.
    pub fn open(
        alloc: Global,
        actor: ActorId,
        callers: &[CallerId],
    ) -> Result<(Mail, Vec<MailCaller>, MailExec), NoMemory>
        requires distinct { AllPairs (λ one other. one ≢ other) callers.now }
        ensures actor { IfOk result (λ opened. opened.0.actor ≡ actor) }
        ensures callers { IfOk result (λ opened. opened.1.items ≡ map (new_putter opened.0.line) callers.now) }
        ensures executor { IfOk result (λ opened. opened.2 ≡ new_taker opened.0.line callers.now) }
    {
        let (line, mut executor) = Line::open(alloc, MAIL_CAPACITY)?;
        let passes = line.deal_all(alloc, &mut executor, callers)?;
        Ok((Mail { actor, line }, passes, executor))
    }

    /// The actor whose line it is.
    pub fn actor(&self) -> ActorId
        ensures { result ≡ self.now.actor }
    {
        self.actor
    }

    /// Hands the letter back where the line is full.
    pub fn post<R: Wait>(&self, rt: &R, pass: &mut MailCaller, letter: Letter) -> Result<(), Letter>
        requires pass { pass.old.line ≡ self.now.line }
        requires caller { caller_of letter ≡ pass.old.number }
        ensures ok { OnOk result
            (pass.new ≡ record pass.old { put = pass.old.put ++ letter ∷ []; stamps = pass.old.stamps ++ 0 ∷ [] }) }
        ensures err { OnErr result (pass.new ≡ pass.old) }
        ensures back { IfErr result (λ back. back ≡ letter) }
    {
        self.post_at::<Brand, R>(rt, pass, letter)
    }

    /// The same, where `S` is the letter's stamp.
    pub fn post_at<S: Stamped, R: Wait>(
        &self,
        rt: &R,
        pass: &mut MailCaller,
        letter: Letter,
    ) -> Result<(), Letter>
        requires pass { pass.old.line ≡ self.now.line }
        requires caller { caller_of letter ≡ pass.old.number }
        ensures ok { OnOk result (pass.new ≡ record pass.old {
          put = pass.old.put ++ letter ∷ [];
          stamps = pass.old.stamps ++ S.stamp ∷ [];
        }) }
        ensures err { OnErr result (pass.new ≡ pass.old) }
        ensures back { IfErr result (λ back. back ≡ letter) }
    {
        self.line.put::<Brand, S, R>(rt, pass, letter)
    }

    /// `None` where the line is empty.
    pub fn take<R: Wait>(&self, rt: &R, pass: &mut MailExec) -> Option<Letter>
        requires pass { pass.old.line ≡ self.now.line }
        ensures taken { IfSome result (λ letter.
            pass.new ≡ record pass.old { taken = pass.old.taken ++ letter ∷ []; stamps = pass.new.stamps }) }
        ensures stamped { IfSome result (λ letter. (n : ℕ) × (pass.new.stamps ≡ pass.old.stamps ++ n ∷ [])) }
        ensures none { IfNone result (pass.new ≡ pass.old) }
        ensures known { IfSome result (λ letter. Contains pass.old.putters (caller_of letter)) }
    {
        self.line.take::<Brand, R>(rt, pass)
    }

    /// One attempt to take, which costs less than `take` where nothing is there. `None` where the
    /// first letter isn't there yet: the line is empty, or the post of that letter isn't finished.
    pub fn try_take(&self, pass: &mut MailExec) -> Option<Letter>
        requires pass { pass.old.line ≡ self.now.line }
        ensures taken { IfSome result (λ letter.
            pass.new ≡ record pass.old { taken = pass.old.taken ++ letter ∷ []; stamps = pass.new.stamps }) }
        ensures stamped { IfSome result (λ letter. (n : ℕ) × (pass.new.stamps ≡ pass.old.stamps ++ n ∷ [])) }
        ensures none { IfNone result (pass.new ≡ pass.old) }
        ensures known { IfSome result (λ letter. Contains pass.old.putters (caller_of letter)) }
    {
        self.line.try_take::<Brand>(pass)
    }

    /// The executor found nothing to do: a pause. A long one ends where a letter is posted, or by `wake`.
    pub fn pause<R: Wait>(&self, rt: &R, idle_backoff: &mut IdleBackoff)
        ensures { idle_backoff.new ≡ min (idle_backoff.old + 1) SHORT_PAUSES }
    {
        self.line.pause(rt, idle_backoff);
    }

    /// Ends a long pause of the executor, for which there is something else than a letter.
    pub fn wake(&self) {
        self.line.wake();
    }

    /// The line's length. The letters of the caller that were taken, with their stamps, begin those that
    /// it posted.
    pub fn audit<R: Wait>(&self, rt: &R, caller: &mut MailCaller, executor: &mut MailExec) -> usize
        requires passes { (caller.old.line ≡ self.now.line) × (executor.old.line ≡ self.now.line) }
        ensures same { (caller.new ≡ caller.old) × (executor.new ≡ executor.old) }
        ensures prefix { IsPrefix (items_from caller_of caller.old.number executor.old.taken) caller.old.put }
        ensures stamps { IsPrefix
            (items_from (λ x. caller_of x.0) caller.old.number (zip executor.old.taken executor.old.stamps))
            (zip caller.old.put caller.old.stamps) }
    {
        self.line.audit(rt, caller, executor)
    }
}
