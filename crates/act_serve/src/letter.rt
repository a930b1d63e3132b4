//! What a letter comes to: a call runs at once where it would be the first to run, and all else is
//! taken into the actor's inbox.

ghost use Rattle.std.specs.Prelude.{◌≡◌, ℕ, ◌<◌, List, [], ◌∷◌, ◌++◌, false, length, map, position, Some, All, IfOk, OnErr, OnOk, IfSome};
ghost use Rattle.act_types.specs.KindState.{KindState};
ghost use Rattle.act_mailbox.specs.declared.mail.Letter.{Letter};
ghost use Rattle.act_mailbox.specs.declared.mail.Letter.TheVariants.{Call};
ghost use Rattle.act_actor.specs.Actor.{RunsAtOnce, with_packet};
ghost use Rattle.act_serve.specs.Turns.{EndpointsFit, EndpointsStay, TakesLetters, HasReplied, ActorGoesOn, IsFed, IsIn, IsServing, KeepsServing, HasCome, KeepsTrace, TracesTurn, is_endpoint_of};
ghost use Rattle.act_serve.specs.declared.letter.Received.TheVariants.{Nothing};

use crate::turn::{ExecLines, ExecPasses, GatePassed, give_reply, pass_gate};
use act_actor::{Live, RunLog};
use act_kinds::Actor;
use act_mailbox::{Endpoint, Letter, Mark, Notes, Replies, ReplyExec};
use act_types::{ActorId, CallerId, NoMemory, Packet, Reply};
use std::marker::Brand;
use std::sync::Wait;

/// What a look for a letter came to.
pub(crate) enum Received {
    /// There was none.
    Nothing,
    /// It is in the inbox.
    Held,
    /// It was a call, and it ran.
    Ran,
}

/// Has a call arrive.
fn hold<K: Actor, L: RunLog>(live: &mut Live<K, L>, packet: Packet) -> Result<(), NoMemory>
    ensures same { live.new ≡ record live.old { inbox = live.new.inbox } }
    ensures came { OnOk result (IsIn (Call packet) live.old live.new) }
    ensures fed { (callers : List ℕ) (letters : List Letter) →
        IsFed callers letters live.old → IsFed callers (letters ++ Call packet ∷ []) live.new }
{
    match live.arrive(packet) {
        Ok(_) => Ok(()),
        Err(_) => Err(NoMemory),
    }
}

/// The caller's endpoint.
fn endpoint_of(
    replies: &[Replies],
    notices: &[Endpoint<ReplyExec>],
    caller: CallerId,
) -> Option<usize>
    requires { All (λ endpoint. endpoint.place < length replies.now) notices.now }
    ensures { result ≡ position (is_endpoint_of replies.now caller) notices.now }
{
    for (at, endpoint) in notices.iter().enumerate() {
        if replies[endpoint.place].caller() == caller {
            return Some(at);
        }
    }
    None
}

/// The endpoint of a call's caller, where the call can run at once.
fn endpoint_at_once<K: Actor, L: RunLog>(
    live: &Live<K, L>,
    replies: &[Replies],
    notices: &[Endpoint<ReplyExec>],
    packet: &Packet,
) -> Option<usize>
    requires { All (λ endpoint. endpoint.place < length replies.now) notices.now }
    ensures at_once { IfSome result (λ _. RunsAtOnce packet.now live.now.id live.now.log live.now.inbox) }
    ensures endpoint { IfSome result (λ at.
        position (is_endpoint_of replies.now packet.now.caller) notices.now ≡ Some at) }
{
    if live.runs_at_once(packet) {
        endpoint_of(replies, notices, packet.caller)
    } else {
        None
    }
}

/// Runs a call at once, for which the gate was passed.
fn run_now<K: Actor, L: RunLog>(
    live: &mut Live<K, L>,
    packet: Packet,
    passed: GatePassed,
) -> Result<Reply, NoMemory>
    requires passed { passed.place ≡ length live.old.log }
    requires at_once { RunsAtOnce packet live.old.id live.old.log live.old.inbox }
    ensures ran { IfOk result (λ reply.
        HasReplied K.state packet.caller reply (with_packet packet live.old) live.new) }
    ensures err { OnErr result (live.new ≡ live.old) }
{
    let _ = passed;
    live.run_now(packet)
}

/// Runs a call at once and gives its reply, where that can be, and has it arrive else.
fn take_call<R: Wait, K: Actor, F: Fn(ActorId, u32), N: Notes, L: RunLog>(
    rt: &R,
    live: &mut Live<K, L>,
    replies: &[Replies],
    passes: &mut ExecPasses,
    packet: Packet,
    pass: &F,
    notes: &mut N,
) -> Result<Received, NoMemory>
    requires callable { F.IsAlwaysCallable pass.now }
    requires fit { EndpointsFit replies.now live.old passes.old }
    ensures endpoints { EndpointsStay replies.now live.new passes.old passes.new }
    ensures on { ActorGoesOn live.old live.new }
    ensures taken { (passes.new.letters ≡ passes.old.letters) × (passes.new.kills ≡ passes.old.kills) }
    ensures came { (letters : List Letter) →
        IfOk result (λ came.
        HasCome came letters (letters ++ Call packet ∷ []) passes.old.notices.items passes.new.notices.items
        live.old live.new) }
    ensures err { OnErr result (live.new.log ≡ live.old.log) }
    ensures serving { (opening : KindState) (callers : List ℕ) (letters : List Letter) →
        IsServing K.state opening callers replies.now letters live.old passes.old.notices.items →
        IsServing K.state opening callers replies.now (letters ++ Call packet ∷ [])
        live.new passes.new.notices.items }
    ensures traced { (opening : KindState) (callers : List ℕ) (letters : List Letter) →
        IsServing K.state opening callers replies.now letters live.old passes.old.notices.items →
        letters ++ Call packet ∷ [] ≡ passes.old.letters.taken →
        KeepsTrace replies.now live.old live.new passes.old passes.new }
{
    let Some(at) = endpoint_at_once(live, replies, passes.notices.as_slice(), &packet) else {
        hold(live, packet)?;
        return Ok(Received::Held);
    };
    let passed = pass_gate(live, pass);
    let reply = run_now(live, packet, passed)?;
    notes.note(Mark::Run(reply.caller));
    give_reply::<Brand, R, K, L>(rt, live, replies, passes, at, reply);
    Ok(Received::Ran)
}

/// Takes the next letter, if it is there. The attempt may miss one that is being put.
pub(crate) fn take_letter<R: Wait, K: Actor, F: Fn(ActorId, u32), N: Notes, L: RunLog>(
    rt: &R,
    live: &mut Live<K, L>,
    lines: &ExecLines,
    passes: &mut ExecPasses,
    pass: &F,
    notes: &mut N,
) -> Result<Received, NoMemory>
    requires callable { F.IsAlwaysCallable pass.now }
    requires mail { passes.old.letters.line ≡ lines.now.mail.now.line }
    requires fit { EndpointsFit lines.now.replies.now live.old passes.old }
    ensures passes { TakesLetters passes.old passes.new }
    ensures still { IfOk result (λ came. came ≡ Nothing → passes.new.letters ≡ passes.old.letters) }
    ensures endpoints { EndpointsStay lines.now.replies.now live.new passes.old passes.new }
    ensures on { ActorGoesOn live.old live.new }
    ensures came { IfOk result (λ came.
        HasCome came passes.old.letters.taken passes.new.letters.taken passes.old.notices.items passes.new.notices.items
        live.old live.new) }
    ensures err { OnErr result (live.new.log ≡ live.old.log) }
    ensures serving { KeepsServing K.state lines.now.replies.now live.old live.new
        passes.old passes.new }
    ensures traced { TracesTurn K.state lines.now.replies.now live.old live.new
        passes.old passes.new }
{
    match lines.mail.try_take(&mut passes.letters) {
        None => Ok(Received::Nothing),
        Some(Letter::Call(packet)) => {
            notes.note(Mark::DeliverCall(packet.caller, packet.future));
            take_call(rt, live, lines.replies, passes, packet, pass, notes)
        }
        Some(Letter::Note(note)) => {
            notes.note(Mark::DeliverNote(note.caller));
            live.released(note);
            Ok(Received::Held)
        }
    }
}
