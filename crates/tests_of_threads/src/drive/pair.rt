//! The lines between two actors and one caller.

ghost use Rattle.std.specs.Prelude.{◌≡◌, ◌+◌, ◌≤◌, [], ◌∷◌, slice_index_or, vec_len, vec_capacity, IfOk};
ghost use Rattle.act_mailbox.specs.Mails.{MailView};
ghost use Rattle.act_mailbox.specs.Controls.{ControlView};
ghost use Rattle.act_mailbox.specs.Notices.{new_exec};
ghost use Rattle.act_mailbox.specs.Passes.{new_putter, new_taker};
ghost use Rattle.act_drive.specs.Driven.{IsUnusedCaller};

use super::executor::ExecPasses;
use crate::lines::{Lines, OpenedReplies, actor, caller, opened_lines, opened_replies, other};
use act_drive::CallerPasses;
use act_mailbox::{Control, ControlCaller, Endpoint, Mail, MailCaller, Replies, ReplyCaller};
use act_types::NoMemory;
use std::alloc::Global;

/// Room for the endpoints of the caller's passes.
#[derive(Drop)]
struct Room {
    letters: Vec<Endpoint<MailCaller>>,
    kills: Vec<Endpoint<ControlCaller>>,
}

fn make_room(alloc: Global) -> Result<Room, NoMemory>
    ensures empty { IfOk result (λ room. (room.letters.items ≡ []) × (room.kills.items ≡ [])) }
    ensures room { IfOk result (λ room.
        (vec_len room.letters + 2 ≤ vec_capacity room.letters) × (vec_len room.kills + 2 ≤ vec_capacity room.kills)) }
{
    let letters = Vec::with_capacity(alloc, 2)?;
    let kills = Vec::with_capacity(alloc, 2)?;
    Ok(Room { letters, kills })
}

/// The caller's passes, by the places of its actors.
fn endpoints_at(
    room: Room,
    posts: (MailCaller, MailCaller),
    asks: (ControlCaller, ControlCaller),
    collects: ReplyCaller,
) -> CallerPasses
    requires empty { (room.letters.items ≡ []) × (room.kills.items ≡ []) }
    requires room { (vec_len room.letters + 2 ≤ vec_capacity room.letters)
        × (vec_len room.kills + 2 ≤ vec_capacity room.kills) }
    ensures letters { result.letters.items
        ≡ record { place = 0; pass = posts.0 } ∷ record { place = 1; pass = posts.1 } ∷ [] }
    ensures kills { result.kills.items
        ≡ record { place = 0; pass = asks.0 } ∷ record { place = 1; pass = asks.1 } ∷ [] }
    ensures collects { result.collects ≡ collects }
{
    let Room {
        mut letters,
        mut kills,
    } = room;
    letters.push_reserved(Endpoint {
        place: 0,
        pass: posts.0,
    });
    letters.push_reserved(Endpoint {
        place: 1,
        pass: posts.1,
    });
    kills.push_reserved(Endpoint {
        place: 0,
        pass: asks.0,
    });
    kills.push_reserved(Endpoint {
        place: 1,
        pass: asks.1,
    });
    CallerPasses {
        letters,
        kills,
        collects,
    }
}

/// The lines of actors 1 and 2 and caller 1.
#[derive(Drop)]
pub(super) struct Pair {
    pub(super) mails: [Mail; 2],
    pub(super) controls: [Control; 2],
    pub(super) replies: Replies,
}

/// The passes of the caller and of both executors.
#[derive(Drop)]
pub(super) struct Passes {
    pub(super) caller: CallerPasses,
    pub(super) exec: ExecPasses,
    pub(super) other_exec: ExecPasses,
}

fn paired(room: Room, one: Lines, two: Lines, replies: OpenedReplies) -> (Pair, Passes)
    requires empty { (room.letters.items ≡ []) × (room.kills.items ≡ []) }
    requires room { (vec_len room.letters + 2 ≤ vec_capacity room.letters)
        × (vec_len room.kills + 2 ≤ vec_capacity room.kills) }
    requires mails { (one.mail.actor ≡ 1) × (two.mail.actor ≡ 2) }
    requires actors { (one.control.actor ≡ 1) × (two.control.actor ≡ 2) }
    requires posts { (one.post ≡ new_putter one.mail.line 1) × (two.post ≡ new_putter two.mail.line 1) }
    requires asks { (one.ask ≡ new_putter one.control.line 1) × (two.ask ≡ new_putter two.control.line 1) }
    requires collects { replies.3 ≡ new_taker replies.0.line (1 ∷ 2 ∷ []) }
    ensures caller { IsUnusedCaller result.0.mails result.0.controls result.0.replies 1 result.1.caller }
    ensures mails { result.0.mails ≡ one.mail ∷ two.mail ∷ [] }
    ensures controls { result.0.controls ≡ one.control ∷ two.control ∷ [] }
    ensures replies { result.0.replies ≡ replies.0 }
    ensures exec { result.1.exec ≡ record { letters = one.letters; kills = one.kills; gives = replies.1 } }
    ensures other_exec { result.1.other_exec ≡ record { letters = two.letters; kills = two.kills; gives = replies.2 } }
{
    let (replies, gives, other_gives, collects) = replies;
    let caller = endpoints_at(room, (one.post, two.post), (one.ask, two.ask), collects);
    let exec = ExecPasses {
        letters: one.letters,
        kills: one.kills,
        gives,
    };
    let other_exec = ExecPasses {
        letters: two.letters,
        kills: two.kills,
        gives: other_gives,
    };
    let pair = Pair {
        mails: [one.mail, two.mail],
        controls: [one.control, two.control],
        replies,
    };
    let passes = Passes {
        caller,
        exec,
        other_exec,
    };
    (pair, passes)
}

/// The lines, and the passes of the caller and of both executors.
pub(super) fn opened_pair(alloc: Global) -> Result<(Pair, Passes), NoMemory>
    ensures caller { IfOk result (λ opened.
        IsUnusedCaller opened.0.mails opened.0.controls opened.0.replies 1 opened.1.caller) }
    ensures exec { IfOk result (λ opened.
        let mails = opened.0.mails in let controls = opened.0.controls in let exec = opened.1.exec in
        (m : MailView) (k : ControlView) → (exec.letters.line ≡ (slice_index_or mails 0 m).line) ×
        (exec.kills.line ≡ (slice_index_or controls 0 k).line) × (exec.kills.actor ≡ 1) ×
        (exec.gives ≡ new_exec opened.0.replies.line 1)) }
    ensures other_exec { IfOk result (λ opened.
        let mails = opened.0.mails in let controls = opened.0.controls in let exec = opened.1.other_exec in
        (m : MailView) (k : ControlView) → (exec.letters.line ≡ (slice_index_or mails 1 m).line) ×
        (exec.kills.line ≡ (slice_index_or controls 1 k).line) × (exec.kills.actor ≡ 2) ×
        (exec.gives ≡ new_exec opened.0.replies.line 2)) }
{
    let room = make_room(alloc)?;
    let one = match opened_lines(alloc, actor()) {
        Ok(one) => one,
        Err(refused) => {
            drop(room);
            return Err(refused);
        }
    };
    let two = match opened_lines(alloc, other()) {
        Ok(two) => two,
        Err(refused) => {
            drop(room);
            drop(one);
            return Err(refused);
        }
    };
    match opened_replies(alloc, caller()) {
        Ok(replies) => Ok(paired(room, one, two, replies)),
        Err(refused) => {
            drop(room);
            drop(one);
            drop(two);
            Err(refused)
        }
    }
}
