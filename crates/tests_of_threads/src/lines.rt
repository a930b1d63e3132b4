//! The lines between an actor and its callers, of which there are two of each at most, and the passes on them.

ghost use Rattle.std.specs.Prelude.{◌≡◌, [], ◌∷◌, IfOk};
ghost use Rattle.act_mailbox.specs.Notices.{new_exec};
ghost use Rattle.act_mailbox.specs.Passes.{new_putter, new_taker};

use act_mailbox::{
    Control, ControlCaller, ControlExec, Mail, MailCaller, MailExec, Replies, ReplyCaller,
    ReplyExec,
};
use act_types::{ActorId, CallerId, NoMemory};
use std::alloc::Global;

pub(crate) fn actor() -> ActorId
    ensures { result ≡ 1 }
{
    ActorId::new(1).unwrap()
}

pub(crate) fn other() -> ActorId
    ensures { result ≡ 2 }
{
    ActorId::new(2).unwrap()
}

pub(crate) fn caller() -> CallerId
    ensures { result ≡ 1 }
{
    CallerId::new(1).unwrap()
}

pub(crate) fn second() -> CallerId
    ensures { result ≡ 2 }
{
    CallerId::new(2).unwrap()
}

/// The mail and control lines of an actor and callers 1 and 2, and the passes on them. Only caller 1
/// asks kills.
#[derive(Drop)]
pub(crate) struct Lines {
    pub(crate) mail: Mail,
    pub(crate) post: MailCaller,
    pub(crate) second_post: MailCaller,
    pub(crate) letters: MailExec,
    pub(crate) control: Control,
    pub(crate) ask: ControlCaller,
    pub(crate) kills: ControlExec,
}

type OpenedMail = (Mail, MailCaller, MailCaller, MailExec);

fn opened_mail(alloc: Global, a: ActorId) -> Result<OpenedMail, NoMemory>
    ensures actor { IfOk result (λ opened. opened.0.actor ≡ a) }
    ensures first { IfOk result (λ opened. opened.1 ≡ new_putter opened.0.line 1) }
    ensures second { IfOk result (λ opened. opened.2 ≡ new_putter opened.0.line 2) }
    ensures exec { IfOk result (λ opened. opened.3 ≡ new_taker opened.0.line (1 ∷ 2 ∷ [])) }
{
    let (mail, mut posts, letters) = Mail::open(alloc, a, &[caller(), second()])?;
    let two = posts.pop().unwrap();
    let one = posts.pop().unwrap();
    Ok((mail, one, two, letters))
}

fn opened_control(
    alloc: Global,
    a: ActorId,
) -> Result<(Control, ControlCaller, ControlExec), NoMemory>
    ensures actor { IfOk result (λ opened. opened.0.actor ≡ a) }
    ensures caller { IfOk result (λ opened. opened.1 ≡ new_putter opened.0.line 1) }
    ensures exec { IfOk result (λ opened. (opened.2.line ≡ opened.0.line) × (opened.2.actor ≡ a)) }
    ensures unused { IfOk result (λ opened. (opened.2.taken ≡ []) × (opened.2.stamps ≡ []) × (opened.2.lengths ≡ [])) }
{
    let (control, mut asks, starter, kills) = Control::open(alloc, a, &[caller(), second()])?;
    drop(starter);
    drop(asks.pop().unwrap());
    let ask = asks.pop().unwrap();
    Ok((control, ask, kills))
}

pub(crate) fn opened_lines(alloc: Global, a: ActorId) -> Result<Lines, NoMemory>
    ensures mail { IfOk result (λ opened. opened.mail.actor ≡ a) }
    ensures actor { IfOk result (λ opened. opened.control.actor ≡ a) }
    ensures post { IfOk result (λ opened. opened.post ≡ new_putter opened.mail.line 1) }
    ensures second_post { IfOk result (λ opened. opened.second_post ≡ new_putter opened.mail.line 2) }
    ensures ask { IfOk result (λ opened. opened.ask ≡ new_putter opened.control.line 1) }
    ensures letters { IfOk result (λ opened. opened.letters ≡ new_taker opened.mail.line (1 ∷ 2 ∷ [])) }
    ensures kills { IfOk result (λ opened. (opened.kills.line ≡ opened.control.line) × (opened.kills.actor ≡ a)) }
    ensures unused { IfOk result (λ opened. (opened.kills.taken ≡ []) × (opened.kills.stamps ≡ []) ×
        (opened.kills.lengths ≡ [])) }
{
    let mails = opened_mail(alloc, a)?;
    match opened_control(alloc, a) {
        Ok((control, ask, kills)) => {
            let (mail, post, second_post, letters) = mails;
            Ok(Lines {
                mail,
                post,
                second_post,
                letters,
                control,
                ask,
                kills,
            })
        }
        Err(refused) => {
            drop(mails);
            Err(refused)
        }
    }
}

/// A caller's line of notices, the passes of actors 1 and 2, and its own.
pub(crate) type OpenedReplies = (Replies, ReplyExec, ReplyExec, ReplyCaller);

pub(crate) fn opened_replies(alloc: Global, caller: CallerId) -> Result<OpenedReplies, NoMemory>
    ensures caller { IfOk result (λ opened. opened.0.caller ≡ caller) }
    ensures first { IfOk result (λ opened. opened.1 ≡ new_exec opened.0.line 1) }
    ensures second { IfOk result (λ opened. opened.2 ≡ new_exec opened.0.line 2) }
    ensures collector { IfOk result (λ opened. opened.3 ≡ new_taker opened.0.line (1 ∷ 2 ∷ [])) }
{
    let (replies, mut gives, collector) = Replies::open(alloc, caller, &[actor(), other()])?;
    let two = gives.pop().unwrap();
    let one = gives.pop().unwrap();
    Ok((replies, one, two, collector))
}
