//! A caller at work.

ghost use Rattle.std.specs.Prelude.{◌≡◌, ◌<◌, length, slice_index_or, slice_set, if◌then◌else◌, All, None, Some, Ok, IfSome, IfNone, OnOk, is_some, true};
ghost use Rattle.std.specs.List.{list_all};
ghost use Rattle.act_rules.specs.Submissions.{kept_at};
ghost use Rattle.act_drive.specs.Driven.{IsCalling, Waits, IsApart, IsAtEndpoint, actor_of_letter, is_note_letter};
ghost use Rattle.act_drive.specs.Parts.{IsHeard};
ghost use Rattle.act_drive.specs.CallerTraces.{caller_clock};
ghost use Rattle.act_drive.specs.Tracing.{OnlyWaits, Traces};

use act_mailbox::{
    Control, ControlCaller, Endpoint, IdleBackoff, Letter, Mail, MailCaller, Mark, Notes, Replies,
    ReplyCaller, Stamped,
};
use act_owner::Owner;
use act_types::{ACTOR_NUMBERS, ActorId, FutureId, NoMemory, Notice};
use std::alloc::Global;
use std::marker::Brand;
use std::sync::Wait;

/// The lines of one caller. Those of its actors are found by the places of its endpoints.
#[derive(Clone, Copy)]
pub struct CallerLines<'a> {
    pub mails: &'a [Mail],
    pub controls: &'a [Control],
    pub replies: &'a Replies,
}

/// A caller's passes on its lines.
#[derive(Drop)]
pub struct CallerPasses {
    pub letters: Vec<Endpoint<MailCaller>>,
    pub kills: Vec<Endpoint<ControlCaller>>,
    pub collects: ReplyCaller,
}

/// How many letters are posted, and how many notices collected, in one turn at most. It is as many
/// as a line holds, so that a turn can fill a line and empty one.
const MAX_IN_A_TURN: u32 = 64;

/// A caller at work: the letter that its line didn't take yet, and whether the note was posted, by
/// the actors' numbers.
#[derive(Drop)]
pub(crate) struct Driver {
    pub(crate) owner: Owner,
    pub(crate) passes: CallerPasses,
    pub(crate) outbox: Option<Letter>,
    pub(crate) note_posted: [bool; ACTOR_NUMBERS],
}

/// To whom a letter goes.
fn actor_of(letter: &Letter) -> ActorId
    ensures { result ≡ actor_of_letter letter.now }
{
    match letter {
        Letter::Call(packet) => packet.actor,
        Letter::Note(note) => note.actor,
    }
}

fn is_note(letter: &Letter) -> bool
    ensures { result ≡ is_note_letter letter.now }
{
    match letter {
        Letter::Call(_) => false,
        Letter::Note(_) => true,
    }
}

/// What is noted of a notice that is collected.
fn mark_of(notice: &Notice) -> Mark {
    match notice {
        Notice::Answered(reply) => Mark::CollectReply(reply.actor, reply.place),
        Notice::Death(actor) => Mark::CollectDeath(*actor),
    }
}

/// Marks the actor whose note was posted.
fn set_note_posted(note_posted: &mut [bool; ACTOR_NUMBERS], actor: ActorId, is_note: bool)
    ensures { note_posted.new ≡ (if is_note then slice_set note_posted.old actor true else note_posted.old) }
{
    if is_note {
        note_posted[actor.number() as usize] = true;
    }
}

/// Puts a letter in an outbox.
pub(crate) fn put(outbox: &mut Option<Letter>, letter: Letter)
    ensures { outbox.new ≡ Some letter }
{
    drop(outbox.replace(letter));
}

/// The place in the list of the first endpoint at the actor's mail line.
fn letter_endpoint(
    mails: &[Mail],
    endpoints: &[Endpoint<MailCaller>],
    actor: ActorId,
) -> Option<usize>
    requires { All (λ endpoint. endpoint.place < length mails.now) endpoints.now }
    ensures some { IfSome result (λ at. (at < length endpoints.now) × IsAtEndpoint mails.now endpoints.now at actor) }
    ensures none { IfNone result (All (IsApart mails.now actor) endpoints.now) }
{
    for at in 0..endpoints.len() {
        if mails[endpoints[at].place].actor() == actor {
            return Some(at);
        }
    }
    None
}

impl Driver {
    /// Waits a little where nothing was done. For room in a line no bell rings.
    pub(crate) fn rest<R: Wait>(
        &self,
        rt: &R,
        lines: &CallerLines,
        idle_backoff: &mut IdleBackoff,
        has_moved: bool,
    ) {
        if has_moved {
            idle_backoff.reset();
        } else if self.outbox.is_some() {
            idle_backoff.pause(rt);
        } else {
            lines.replies.pause(rt, idle_backoff);
        }
    }

    /// Collects a notice, if there is one.
    pub(crate) fn collect<N: Notes>(&mut self, lines: &CallerLines, notes: &mut N) -> bool
        requires calling { IsCalling lines.now self.old }
        ensures only_waits { OnlyWaits lines.now self.old self.new }
        ensures heard { IsHeard self.old self.new }
    {
        match lines.replies.try_collect(&mut self.passes.collects) {
            None => false,
            Some(notice) => {
                notes.note(mark_of(&notice));
                self.owner.collect(notice);
                true
            }
        }
    }

    /// Posts what is in the outbox, unless its actor is known dead. A full line leaves it there.
    pub(crate) fn send<R: Wait>(&mut self, rt: &R, lines: &CallerLines) -> bool
        requires calling { IsCalling lines.now self.old }
        ensures only_waits { OnlyWaits lines.now self.old self.new }
    {
        self.send_at::<Brand, R>(rt, lines)
    }

    /// The same, where `S` is the letter's stamp.
    fn send_at<S: Stamped, R: Wait>(&mut self, rt: &R, lines: &CallerLines) -> bool
        requires calling { IsCalling lines.now self.old }
        requires stamp { S.stamp ≡ caller_clock self.old.passes }
        ensures calling { IsCalling lines.now self.new }
        ensures waits { Waits self.old self.new }
        ensures traced { Traces lines.now self.old self.new }
    {
        let Some(letter) = self.outbox.take() else {
            return false;
        };
        self.post_letter::<S, R>(rt, lines, letter)
    }

    /// Posts a letter as if it were in the outbox, which is empty. A full line has it put there.
    fn post_letter<S: Stamped, R: Wait>(
        &mut self,
        rt: &R,
        lines: &CallerLines,
        letter: Letter,
    ) -> bool
        requires empty { self.old.outbox ≡ None }
        requires calling { IsCalling lines.now (record self.old { outbox = Some letter }) }
        requires stamp { S.stamp ≡ caller_clock self.old.passes }
        ensures calling { IsCalling lines.now self.new }
        ensures waits { Waits (record self.old { outbox = Some letter }) self.new }
        ensures traced { Traces lines.now (record self.old { outbox = Some letter }) self.new }
    {
        let actor = actor_of(&letter);
        if self.owner.is_dead(actor) {
            drop(letter);
            return true;
        }
        let Some(at) = letter_endpoint(lines.mails, self.passes.letters.as_slice(), actor) else {
            drop(letter);
            return true;
        };
        let is_note = is_note(&letter);
        let endpoint = &mut self.passes.letters[at];
        let mail = &lines.mails[endpoint.place];
        match mail.post_at::<S, R>(rt, &mut endpoint.pass, letter) {
            Ok(()) => {
                set_note_posted(&mut self.note_posted, actor, is_note);
                true
            }
            Err(back) => {
                put(&mut self.outbox, back);
                false
            }
        }
    }

    /// Posts what is in the outbox, or else the letter of the next ready call, if memory serves. Whether a
    /// letter went.
    fn send_next<R: Wait, N: Notes>(
        &mut self,
        rt: &R,
        alloc: Global,
        lines: &CallerLines,
        notes: &mut N,
    ) -> Result<bool, NoMemory>
        requires calling { IsCalling lines.now self.old }
        ensures only_waits { OnlyWaits lines.now self.old self.new }
    {
        if self.outbox.is_some() {
            return Ok(self.send(rt, lines));
        }
        let Some(packet) = self.owner.next_packet(alloc)? else {
            return Ok(false);
        };
        notes.note(Mark::Send(packet.future));
        Ok(self.post_letter::<Brand, R>(rt, lines, Letter::Call(packet)))
    }

    /// Sends letters while there are some and their line has room. Whether any went.
    fn send_some<R: Wait, N: Notes>(
        &mut self,
        rt: &R,
        alloc: Global,
        lines: &CallerLines,
        notes: &mut N,
    ) -> Result<bool, NoMemory>
        requires calling { IsCalling lines.now self.old }
        ensures only_waits { OnlyWaits lines.now self.old self.new }
    {
        for sent in 0..MAX_IN_A_TURN {
            if !self.send_next(rt, alloc, lines, notes)? {
                return Ok(sent > 0);
            }
        }
        Ok(true)
    }

    /// Collects notices while there are some. Whether any came.
    fn collect_some<N: Notes>(&mut self, lines: &CallerLines, notes: &mut N) -> bool
        requires calling { IsCalling lines.now self.old }
        ensures only_waits { OnlyWaits lines.now self.old self.new }
    {
        for heard in 0..MAX_IN_A_TURN {
            if !self.collect(lines, notes) {
                return heard > 0;
            }
        }
        true
    }

    /// Sends letters and collects notices, where there are some, and says whether there were.
    pub(crate) fn turn<R: Wait, N: Notes>(
        &mut self,
        rt: &R,
        alloc: Global,
        lines: &CallerLines,
        notes: &mut N,
    ) -> Result<bool, NoMemory>
        requires calling { IsCalling lines.now self.old }
        ensures only_waits { OnlyWaits lines.now self.old self.new }
    {
        let has_sent = self.send_some(rt, alloc, lines, notes)?;
        let has_heard = self.collect_some(lines, notes);
        Ok(has_sent || has_heard)
    }

    /// A turn of a loop that waits.
    pub(crate) fn wait_turn<R: Wait, N: Notes>(
        &mut self,
        rt: &R,
        alloc: Global,
        lines: &CallerLines,
        idle_backoff: &mut IdleBackoff,
        notes: &mut N,
    ) -> Result<(), NoMemory>
        requires calling { IsCalling lines.now self.old }
        ensures only_waits { OnlyWaits lines.now self.old self.new }
    {
        let has_moved = self.turn(rt, alloc, lines, notes)?;
        self.rest(rt, lines, idle_backoff, has_moved);
        Ok(())
    }

    /// Goes on when nothing is in the outbox.
    pub(crate) fn clear<R: Wait, N: Notes>(&mut self, rt: &R, lines: &CallerLines, notes: &mut N)
        requires calling { IsCalling lines.now self.old }
        ensures only_waits { OnlyWaits lines.now self.old self.new }
        ensures empty { self.new.outbox ≡ None }
    {
        let mut idle_backoff = IdleBackoff::new();
        for _ in rt.forever() {
            if self.outbox.is_none() {
                return;
            }
            let has_sent = self.send(rt, lines);
            let has_heard = self.collect(lines, notes);
            self.rest(rt, lines, &mut idle_backoff, has_sent || has_heard);
        }
        unreachable!()
    }

    /// Goes on when the future is answered.
    pub(crate) fn wait_for<R: Wait, N: Notes>(
        &mut self,
        rt: &R,
        alloc: Global,
        lines: &CallerLines,
        k: FutureId,
        idle_backoff: &mut IdleBackoff,
        notes: &mut N,
    ) -> Result<(), NoMemory>
        requires calling { IsCalling lines.now self.old }
        ensures only_waits { OnlyWaits lines.now self.old self.new }
        ensures answered { OnOk result (is_some (kept_at self.new.owner.kept k) ≡ true) }
        ensures kept { is_some (kept_at self.old.owner.kept k) ≡ true → result ≡ Ok tt }
    {
        idle_backoff.reset();
        for _ in rt.forever() {
            if self.owner.answer(k).is_some() {
                return Ok(());
            }
            self.wait_turn(rt, alloc, lines, idle_backoff, notes)?;
        }
        unreachable!()
    }

    /// Goes on when all is answered and posted.
    pub(crate) fn finish<R: Wait, N: Notes>(
        &mut self,
        rt: &R,
        alloc: Global,
        lines: &CallerLines,
        notes: &mut N,
    ) -> Result<(), NoMemory>
        requires calling { IsCalling lines.now self.old }
        ensures only_waits { OnlyWaits lines.now self.old self.new }
        ensures answered { OnOk result (list_all is_some self.new.owner.kept ≡ true) }
        ensures empty { OnOk result (self.new.outbox ≡ None) }
    {
        let mut idle_backoff = IdleBackoff::new();
        for _ in rt.forever() {
            if self.owner.all_answered() && self.outbox.is_none() {
                return Ok(());
            }
            self.wait_turn(rt, alloc, lines, &mut idle_backoff, notes)?;
        }
        unreachable!()
    }
}
