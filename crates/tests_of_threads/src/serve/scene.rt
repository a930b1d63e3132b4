//! The lines between one actor and two callers.

ghost use Rattle.std.specs.Prelude.{◌≡◌, ◌+◌, ◌≤◌, [], ◌∷◌, slice_index_or, vec_len, vec_capacity, IfOk};
ghost use Rattle.act_mailbox.specs.Notices.{RepliesView, new_exec};
ghost use Rattle.act_mailbox.specs.Passes.{new_putter, new_taker};
ghost use Rattle.act_mailbox.specs.Mails.{caller_of};
ghost use Rattle.act_serve.specs.Turns.{PassesFit, IsUnusedExec};

use crate::lines::{Lines, OpenedReplies, actor, caller, opened_lines, opened_replies, second};
use act_mailbox::{
    Control, ControlCaller, Endpoint, Letter, Mail, MailCaller, Replies, ReplyCaller, ReplyExec,
};
use act_serve::ExecPasses;
use act_types::{
    ActorId, CallerId, FutureId, KillNote, Method, NoMemory, Packet, ReleaseNote, Settled,
    SmallList, Value,
};
use std::alloc::Global;
use std::sync::Wait;

/// The lines of actor 1 and callers 1 and 2, and the callers' passes.
#[derive(Drop)]
pub(super) struct Scene {
    pub(super) mail: Mail,
    pub(super) control: Control,
    pub(super) replies: [Replies; 2],
    pub(super) first: MailCaller,
    pub(super) second: MailCaller,
    pub(super) ask: ControlCaller,
    pub(super) first_collector: ReplyCaller,
    pub(super) second_collector: ReplyCaller,
}

/// All of them, from what was opened.
fn put_together(
    mut notices: Vec<Endpoint<ReplyExec>>,
    lines: Lines,
    one: OpenedReplies,
    two: OpenedReplies,
) -> (Scene, ExecPasses)
    requires room { (notices.items ≡ []) × (vec_len notices + 2 ≤ vec_capacity notices) }
    requires posts { (lines.post ≡ new_putter lines.mail.line 1) × (lines.second_post ≡ new_putter lines.mail.line 2) }
    requires ask { lines.ask ≡ new_putter lines.control.line 1 }
    requires letters { lines.letters ≡ new_taker lines.mail.line (1 ∷ 2 ∷ []) }
    requires kills { (lines.kills.line ≡ lines.control.line) × (lines.kills.actor ≡ 1) }
    requires unused { (lines.kills.taken ≡ []) × (lines.kills.stamps ≡ []) × (lines.kills.lengths ≡ []) }
    requires callers { (one.0.caller ≡ 1) × (two.0.caller ≡ 2) }
    requires gives { (one.1 ≡ new_exec one.0.line 1) × (two.1 ≡ new_exec two.0.line 1) }
    requires collectors { (one.3 ≡ new_taker one.0.line (1 ∷ 2 ∷ [])) × (two.3 ≡ new_taker two.0.line (1 ∷ 2 ∷ [])) }
    ensures first { (result.0.first.line ≡ result.0.mail.line) × (result.0.first.number ≡ 1) }
    ensures second { (result.0.second.line ≡ result.0.mail.line) × (result.0.second.number ≡ 2) }
    ensures ask { result.0.ask.line ≡ result.0.control.line }
    ensures first_collector { (r : RepliesView) →
        result.0.first_collector.line ≡ (slice_index_or result.0.replies 0 r).line }
    ensures second_collector { (r : RepliesView) →
        result.0.second_collector.line ≡ (slice_index_or result.0.replies 1 r).line }
    ensures fit { PassesFit result.0.mail.line result.0.control.line result.0.replies 1 [] result.1 }
    ensures fresh { IsUnusedExec result.0.replies (1 ∷ 2 ∷ []) result.1 }
{
    let (first, first_pass, unused, first_collector) = one;
    drop(unused);
    let (other, other_pass, unused, second_collector) = two;
    drop(unused);
    notices.push_reserved(Endpoint {
        place: 0,
        pass: first_pass,
    });
    notices.push_reserved(Endpoint {
        place: 1,
        pass: other_pass,
    });
    let scene = Scene {
        mail: lines.mail,
        control: lines.control,
        replies: [first, other],
        first: lines.post,
        second: lines.second_post,
        ask: lines.ask,
        first_collector,
        second_collector,
    };
    let passes = ExecPasses {
        letters: lines.letters,
        kills: lines.kills,
        notices,
    };
    (scene, passes)
}

/// The lines, and the passes of the callers and of the executor.
pub(super) fn opened(alloc: Global) -> Result<(Scene, ExecPasses), NoMemory>
    ensures first { IfOk result (λ opened. (opened.0.first.line ≡ opened.0.mail.line) × (opened.0.first.number ≡ 1)) }
    ensures second { IfOk result (λ opened.
        (opened.0.second.line ≡ opened.0.mail.line) × (opened.0.second.number ≡ 2)) }
    ensures ask { IfOk result (λ opened. opened.0.ask.line ≡ opened.0.control.line) }
    ensures first_collector { IfOk result (λ opened. (r : RepliesView) →
        opened.0.first_collector.line ≡ (slice_index_or opened.0.replies 0 r).line) }
    ensures second_collector { IfOk result (λ opened. (r : RepliesView) →
        opened.0.second_collector.line ≡ (slice_index_or opened.0.replies 1 r).line) }
    ensures fit { IfOk result (λ opened.
        PassesFit opened.0.mail.line opened.0.control.line opened.0.replies 1 [] opened.1) }
    ensures fresh { IfOk result (λ opened. IsUnusedExec opened.0.replies (1 ∷ 2 ∷ []) opened.1) }
{
    let notices = Vec::with_capacity(alloc, 2)?;
    let lines = match opened_lines(alloc, actor()) {
        Ok(lines) => lines,
        Err(refused) => {
            drop(notices);
            return Err(refused);
        }
    };
    let one = match opened_replies(alloc, caller()) {
        Ok(one) => one,
        Err(refused) => {
            drop(notices);
            drop(lines);
            return Err(refused);
        }
    };
    match opened_replies(alloc, second()) {
        Ok(two) => Ok(put_together(notices, lines, one, two)),
        Err(refused) => {
            drop(notices);
            drop(lines);
            drop(one);
            Err(refused)
        }
    }
}

/// What a letter has, which names its actor by the number: a call's number, or after how many calls
/// a note comes.
#[derive(Clone, Copy)]
pub(super) enum Sent {
    /// The call `add 1`.
    Call(u8, u32),
    /// The call `terminate`.
    Terminate(u8, u32),
    Note(u8, u32),
}

/// A letter of caller 1 or 2.
pub(super) type Posted = (u8, Sent);

fn actor_of(number: u8) -> ActorId {
    ActorId::new(number).unwrap_or(actor())
}

/// A caller's call of this method, with this argument if there is one.
fn call(
    alloc: Global,
    caller: CallerId,
    to: (u8, u32),
    method: Method,
    number: Option<i64>,
) -> Result<Letter, NoMemory>
    ensures { IfOk result (λ letter. caller_of letter ≡ caller) }
{
    let mut args = SmallList::new(alloc);
    if let Some(number) = number {
        args.push(Settled::Good(Value::Int(number)))?;
    }
    Ok(Letter::Call(Packet {
        caller,
        actor: actor_of(to.0),
        number: to.1,
        future: FutureId::new(to.1),
        method,
        args,
    }))
}

fn letter_of(alloc: Global, caller: CallerId, sent: Sent) -> Result<Letter, NoMemory>
    ensures { IfOk result (λ letter. caller_of letter ≡ caller) }
{
    match sent {
        Sent::Call(a, number) => call(alloc, caller, (a, number), Method::Add, Some(1)),
        Sent::Terminate(a, number) => call(alloc, caller, (a, number), Method::Terminate, None),
        Sent::Note(a, after) => Ok(Letter::Note(ReleaseNote {
            caller,
            actor: actor_of(a),
            after,
        })),
    }
}

/// Posts a letter of the pass's caller, and whether the line took it.
fn post<R: Wait>(
    rt: &R,
    alloc: Global,
    mail: &Mail,
    pass: &mut MailCaller,
    caller: CallerId,
    sent: Sent,
) -> Result<bool, NoMemory>
    requires pass { (pass.old.line ≡ mail.now.line) × (pass.old.number ≡ caller) }
    ensures { (pass.new.line ≡ pass.old.line) × (pass.new.number ≡ pass.old.number) }
{
    let letter = letter_of(alloc, caller, sent)?;
    let posted = mail.post(rt, pass, letter);
    let is_taken = posted.is_ok();
    drop(posted);
    Ok(is_taken)
}

/// Posts these letters, and whether the line took them all.
pub(super) fn post_all<R: Wait>(
    rt: &R,
    alloc: Global,
    mail: &Mail,
    first: &mut MailCaller,
    other: &mut MailCaller,
    letters: &[Posted],
) -> Result<bool, NoMemory>
    requires first { (first.old.line ≡ mail.now.line) × (first.old.number ≡ 1) }
    requires other { (other.old.line ≡ mail.now.line) × (other.old.number ≡ 2) }
{
    let mut are_taken = true;
    for (from, sent) in letters {
        let is_taken = if *from == 1 {
            post(rt, alloc, mail, first, caller(), *sent)?
        } else {
            post(rt, alloc, mail, other, second(), *sent)?
        };
        are_taken = are_taken && is_taken;
    }
    Ok(are_taken)
}

/// Asks the kill of actor 1, and whether the line took it.
pub(super) fn ask_kill<R: Wait>(rt: &R, control: &Control, ask: &mut ControlCaller) -> bool
    requires { ask.old.line ≡ control.now.line }
    ensures { ask.new.line ≡ ask.old.line }
{
    let kill = KillNote {
        caller: caller(),
        actor: actor(),
    };
    control.ask(rt, ask, kill).is_ok()
}
