//! One turn of an actor.

ghost use Rattle.std.specs.Prelude.{◌≡◌, ℕ, ◌+◌, ◌<◌, ◌≤◌, true, false, List, [], ◌∷◌, ◌++◌, length, map, get_or, slice_set, position, is_some, All, IfOk, OnOk, OnErr, IfSome, IsSome, IfNone};
ghost use Rattle.act_types.specs.KindState.{KindState};
ghost use Rattle.act_mailbox.specs.declared.mail.Letter.{Letter};
ghost use Rattle.act_actor.specs.Actor.{next_call};
ghost use Rattle.act_rules.specs.Consistent.{IsPrefix};
ghost use Rattle.act_rules.specs.RunList.{has_terminated};
ghost use Rattle.act_types.specs.declared.call.Notice.TheVariants.{Answered};
ghost use Rattle.act_mailbox.specs.Notices.{ReplyExecView, notice_actor, IsNoDeath, NamesPlace};
ghost use Rattle.act_mailbox.specs.declared.thread.Endpoint.{Endpoint};
ghost use Rattle.act_serve.specs.Turns.{IsAtItsEndpoint, EndpointsFit, EndpointsStay, TakesLetters, PassesOf, HasReplied, ActorGoesOn, IsServing, KeepsServing, IsFreshExec, has_next, HasGone, RanFirst, HasLooked, KeepsTrace, TracesTurn, replied_to, with_death_given};
ghost use Rattle.act_serve.specs.declared.turn.Turn.TheVariants.{Moved, Idle, Starved};
ghost use Rattle.act_serve.specs.Served.{end_view, end_id, end_log, IsUntaken, HasServed};

use crate::letter::{Received, take_letter};
use act_actor::{Dead, Live, Retired, RunItem, RunLog};
use act_kinds::{Actor, Boxed};
use act_mailbox::{
    Control, ControlExec, Endpoint, IdleBackoff, Mail, MailExec, Mark, NoNotes, Notes, Replies,
    ReplyExec, Stamped,
};
use act_types::{ActorId, CallerId, NoMemory, Notice, Reply};
use std::marker::Brand;
use std::sync::Wait;

/// Gives a notice with the stamp `S`, and tries again while the line is full.
fn give<S: Stamped, R: Wait, L: RunLog>(
    rt: &R,
    line: &Replies,
    pass: &mut ReplyExec,
    log: &L,
    mut notice: Notice,
)
    requires pass { pass.old.line ≡ line.now.line }
    requires actor { notice_actor notice ≡ pass.old.actor }
    requires grown { IsPrefix pass.old.seen (L.items log.now) }
    requires place { NamesPlace (L.items log.now) notice }
    requires alive { All IsNoDeath pass.old.given }
    ensures { pass.new ≡ record pass.old {
      given = pass.old.given ++ notice ∷ [];
      stamps = pass.old.stamps ++ S.stamp ∷ [];
      seen = L.items log.now;
    } }
{
    let mut idle_backoff = IdleBackoff::new();
    for _ in rt.forever() {
        match line.give_at::<S, R, L>(rt, pass, log, notice) {
            Ok(()) => return,
            Err(back) => notice = back,
        }
        idle_backoff.pause(rt);
    }
    unreachable!()
}

/// Gives the reply of a call that ran to the caller whose endpoint this is, with the stamp `S`.
pub(crate) fn give_reply<S: Stamped, R: Wait, K: Actor, L: RunLog>(
    rt: &R,
    live: &Live<K, L>,
    replies: &[Replies],
    passes: &mut ExecPasses,
    at: usize,
    reply: Reply,
)
    requires at { at < length passes.old.notices.items }
    requires endpoints { All (IsAtItsEndpoint replies.now live.now.id live.now.log) passes.old.notices.items }
    requires actor { reply.actor ≡ live.now.id }
    requires place { NamesPlace live.now.log (Answered reply) }
    ensures taken { (passes.new.letters ≡ passes.old.letters) × (passes.new.kills ≡ passes.old.kills) }
    ensures given { (endpoint : Endpoint ReplyExecView) → endpoint ≡ get_or passes.old.notices.items at endpoint →
        passes.new.notices.items ≡ slice_set passes.old.notices.items at
        (replied_to live.now.log reply S.stamp endpoint) }
{
    let endpoint = &mut passes.notices[at];
    give::<S, R, L>(
        rt,
        &replies[endpoint.place],
        &mut endpoint.pass,
        live.run_log(),
        Notice::Answered(reply),
    );
}

/// The first endpoint whose caller's next call came.
fn next_endpoint<K: Actor, L: RunLog>(
    live: &Live<K, L>,
    replies: &[Replies],
    notices: &[Endpoint<ReplyExec>],
) -> Option<usize>
    requires { All (λ endpoint. endpoint.place < length replies.now) notices.now }
    ensures { result ≡ position (has_next replies.now live.now) notices.now }
{
    if live.holds_none() {
        return None;
    }
    for (at, endpoint) in notices.iter().enumerate() {
        if live.has_next(replies[endpoint.place].caller()) {
            return Some(at);
        }
    }
    None
}

/// Runs the caller's next call, for which the gate was passed, if it came and the actor did not
/// terminate.
fn run_next<K: Actor, L: RunLog>(
    live: &mut Live<K, L>,
    caller: CallerId,
    passed: GatePassed,
) -> Result<Option<Reply>, NoMemory>
    requires { passed.place ≡ length live.old.log }
    ensures ran { IfOk result (λ reply.
        IfSome reply (λ reply. HasReplied K.state caller reply live.old live.new)) }
    ensures none { IfOk result (λ reply. IfNone reply (live.new ≡ live.old)) }
    ensures next { IfOk result (λ reply. is_some reply ≡ is_some (next_call live.old.log live.old.inbox caller)) }
    ensures memory_last { OnErr result (IsSome (next_call live.old.log live.old.inbox caller)) }
    ensures err { OnErr result (live.new ≡ live.old) }
{
    let _ = passed;
    live.run(caller)
}

/// Runs the next call of the first caller that has one, and gives its reply. Whether there was one.
fn run_one<R: Wait, K: Actor, F: Fn(ActorId, u32), N: Notes, L: RunLog>(
    rt: &R,
    live: &mut Live<K, L>,
    replies: &[Replies],
    passes: &mut ExecPasses,
    pass: &F,
    notes: &mut N,
) -> Result<bool, NoMemory>
    requires callable { F.IsAlwaysCallable pass.now }
    requires fit { EndpointsFit replies.now live.old passes.old }
    ensures endpoints { EndpointsStay replies.now live.new passes.old passes.new }
    ensures on { ActorGoesOn live.old live.new }
    ensures taken { (passes.new.letters ≡ passes.old.letters) × (passes.new.kills ≡ passes.old.kills) }
    ensures gone { IfOk result (λ ran. HasGone ran replies.now passes.old.notices.items live.old live.new) }
    ensures first { IfOk result (λ ran.
        ran ≡ true → RanFirst replies.now passes.old.notices.items live.old live.new) }
    ensures err { OnErr result (live.new ≡ live.old) }
    ensures serving { (opening : KindState) (callers : List ℕ) (letters : List Letter) →
        IsServing K.state opening callers replies.now letters live.old passes.old.notices.items →
        IsServing K.state opening callers replies.now letters live.new passes.new.notices.items }
    ensures traced { (opening : KindState) (callers : List ℕ) →
        IsServing K.state opening callers replies.now passes.old.letters.taken live.old
        passes.old.notices.items → KeepsTrace replies.now live.old live.new
        passes.old passes.new }
{
    let Some(at) = next_endpoint(live, replies, passes.notices.as_slice()) else {
        return Ok(false);
    };
    let passed = pass_gate(live, pass);
    let place = passes.notices[at].place;
    match run_next(live, replies[place].caller(), passed) {
        Ok(Some(reply)) => {
            notes.note(Mark::Run(reply.caller));
            give_reply::<Brand, R, K, L>(rt, live, replies, passes, at, reply);
            Ok(true)
        }
        Ok(None) => Ok(false),
        Err(NoMemory) => Err(NoMemory),
    }
}

/// What a turn came to.
#[derive(Drop)]
enum Turn {
    Moved,
    Idle,
    Starved,
}

/// A turn after the look for a kill: a letter is taken, and a call is run.
fn take_turn<R: Wait, K: Actor, F: Fn(ActorId, u32), N: Notes, L: RunLog>(
    rt: &R,
    live: &mut Live<K, L>,
    lines: &ExecLines,
    passes: &mut ExecPasses,
    pass: &F,
    notes: &mut N,
) -> Turn
    requires callable { F.IsAlwaysCallable pass.now }
    requires mail { passes.old.letters.line ≡ lines.now.mail.now.line }
    requires fit { EndpointsFit lines.now.replies.now live.old passes.old }
    ensures passes { TakesLetters passes.old passes.new }
    ensures endpoints { EndpointsStay lines.now.replies.now live.new passes.old passes.new }
    ensures on { ActorGoesOn live.old live.new }
    ensures moved { result ≡ Moved →
        length passes.old.letters.taken + length live.old.log < length passes.new.letters.taken + length live.new.log }
    ensures starved { result ≡ Starved → live.new.log ≡ live.old.log }
    ensures idle { result ≡ Idle → (passes.new.letters ≡ passes.old.letters) ×
        HasGone false lines.now.replies.now passes.old.notices.items live.old live.new }
    ensures serving { KeepsServing K.state lines.now.replies.now live.old live.new
        passes.old passes.new }
    ensures traced { TracesTurn K.state lines.now.replies.now live.old live.new
        passes.old passes.new }
{
    match take_letter(rt, live, lines, passes, pass, notes) {
        Err(_) => Turn::Starved,
        Ok(Received::Ran) => Turn::Moved,
        Ok(Received::Held) => match run_one(rt, live, lines.replies, passes, pass, notes) {
            Err(_) => Turn::Starved,
            Ok(_) => Turn::Moved,
        },
        Ok(Received::Nothing) => match run_one(rt, live, lines.replies, passes, pass, notes) {
            Err(_) => Turn::Starved,
            Ok(ran) => { if ran { Turn::Moved } else { Turn::Idle } }
        },
    }
}

/// Whether the actor's end came: it terminated, and then no kill is looked for, or a kill is taken.
fn is_over<R: Wait, K: Actor, L: RunLog>(
    rt: &R,
    live: &Live<K, L>,
    control: &Control,
    kills: &mut ControlExec,
) -> bool
    requires line { kills.old.line ≡ control.now.line }
    requires actor { live.now.id ≡ kills.old.actor }
    requires untaken { IsUntaken kills.old }
    requires looked { length live.now.log ≤ kills.old.looked }
    ensures pass { kills.new ≡ record kills.old {
      taken = kills.new.taken;
      stamps = kills.new.stamps;
      lengths = kills.new.lengths;
      looked = kills.new.looked;
    } }
    ensures looked { length live.now.log ≤ kills.new.looked }
    ensures told { HasLooked result live.now.log kills.old kills.new }
    ensures ended { has_terminated live.now.log ≡ true → kills.new ≡ kills.old }
    ensures stamped { has_terminated live.now.log ≡ false → result ≡ true →
        (n : ℕ) × (kills.new.stamps ≡ kills.old.stamps ++ n ∷ []) }
{
    live.terminated() || control.take(rt, kills, live).is_some()
}

/// Notes the kill that was taken. An actor that terminated looked for none.
fn note_kill<K: Actor, N: Notes, L: RunLog>(live: &Live<K, L>, notes: &mut N) {
    if !live.terminated() {
        notes.note(Mark::TakeKill);
    }
}

/// Gives the actor's death to each caller, with the stamp `S`.
fn tell_deaths<S: Stamped, R: Wait, N: Notes, L: RunLog>(
    rt: &R,
    replies: &[Replies],
    passes: &mut ExecPasses,
    dead: &Dead<L>,
    notes: &mut N,
)
    requires endpoints { All (IsAtItsEndpoint replies.now dead.now.id dead.now.log) passes.old.notices.items }
    ensures taken { (passes.new.letters ≡ passes.old.letters) × (passes.new.kills ≡ passes.old.kills) }
    ensures given { passes.new.notices.items ≡
        map (with_death_given dead.now.id dead.now.log S.stamp) passes.old.notices.items }
{
    for endpoint in passes.notices.iter_mut() {
        notes.note(Mark::Tell(replies[endpoint.place].caller()));
        give::<S, R, L>(
            rt,
            &replies[endpoint.place],
            &mut endpoint.pass,
            dead.run_log(),
            Notice::Death(dead.id()),
        );
    }
}

/// Serves until the actor terminated, a kill is taken, all is drained, or memory is refused, and notes
/// what is done.
pub fn serve_by<R: Wait, K: Actor, F: Fn(ActorId, u32), N: Notes, L: RunLog>(
    rt: &R,
    mut live: Live<K, L>,
    lines: &ExecLines,
    mut passes: ExecPasses,
    pass: &F,
    notes: &mut N,
) -> Finished<K, L>
    requires callable { F.IsAlwaysCallable pass.now }
    requires passes { PassesOf lines.now live.id live.log passes }
    requires fresh { IsFreshExec lines.now.replies.now live passes }
    ensures { HasServed (K.state live.state) live.id lines.now.replies.now passes (end_view K.state result.ended)
        result.passes }
{
    let mut idle_backoff = IdleBackoff::new();
    for _ in rt.forever() {
        if is_over(rt, &live, lines.control, &mut passes.kills) {
            note_kill(&live, notes);
            let dead = live.kill();
            tell_deaths::<Brand, R, N, L>(rt, lines.replies, &mut passes, &dead, notes);
            return Finished {
                ended: Ended::Killed(dead),
                passes,
            };
        }
        match take_turn(rt, &mut live, lines, &mut passes, pass, notes) {
            Turn::Moved => idle_backoff.reset(),
            Turn::Starved => {
                let dead = live.kill();
                tell_deaths::<Brand, R, N, L>(rt, lines.replies, &mut passes, &dead, notes);
                return Finished {
                    ended: Ended::Starved(dead),
                    passes,
                };
            }
            Turn::Idle => match live.retire() {
                Ok(retired) => {
                    notes.note(Mark::Retire);
                    return Finished {
                        ended: Ended::Retired(retired),
                        passes,
                    };
                }
                Err(back) => {
                    live = back;
                    lines.mail.pause(rt, &mut idle_backoff);
                }
            },
        }
    }
    unreachable!()
}

/// The same, where a gate is passed before each run, and nothing is noted.
pub fn serve<R: Wait, K: Actor, G: Gate, L: RunLog>(
    rt: &R,
    live: Live<K, L>,
    lines: &ExecLines,
    passes: ExecPasses,
    gate: &G,
) -> Finished<K, L>
    requires passes { PassesOf lines.now live.id live.log passes }
    requires fresh { IsFreshExec lines.now.replies.now live passes }
    ensures { HasServed (K.state live.state) live.id lines.now.replies.now passes (end_view K.state result.ended)
        result.passes }
{
    serve_by(
        rt,
        live,
        lines,
        passes,
        &|actor, place| gate.pass(actor, place),
        &mut NoNotes,
    )
}

/// What an executor passes before it runs a call at a place of its log.
pub trait Gate: Sync {
    /// It is passed before the actor runs the call at this place of its log.
    fn pass(&self, actor: ActorId, place: u32);
}

/// Lets everything through.
#[derive(Drop)]
pub struct NoGate;

impl Gate for NoGate {
    fn pass(&self, _actor: ActorId, _place: u32) {}
}

/// That the gate was passed for the run at a place of the log. A run takes one of its place, which
/// `pass_gate` alone can make.
#[derive(Drop)]
pub(crate) struct GatePassed {
    place: usize,
}

/// Passes the gate for the next run.
pub(crate) fn pass_gate<K: Actor, F: Fn(ActorId, u32), L: RunLog>(
    live: &Live<K, L>,
    pass: &F,
) -> GatePassed
    requires { F.IsAlwaysCallable pass.now }
    ensures { result.place ≡ length live.now.log }
{
    let place = live.ran();
    pass(live.id(), place as u32);
    GatePassed { place }
}

/// The lines of one executor. Its callers' lines are found by the places of its endpoints.
#[derive(Clone, Copy)]
pub struct ExecLines<'a> {
    pub mail: &'a Mail,
    pub control: &'a Control,
    pub replies: &'a [Replies],
}

/// An executor's passes on its lines.
#[derive(Drop)]
pub struct ExecPasses {
    pub letters: MailExec,
    pub kills: ControlExec,
    pub notices: Vec<Endpoint<ReplyExec>>,
}

/// How an actor ended.
#[derive(Drop)]
pub enum Ended<K = Boxed, L: RunLog = Vec<RunItem>> {
    Killed(Dead<L>),
    Retired(Retired<K, L>),
    Starved(Dead<L>),
}

impl<K: Actor, L: RunLog> Ended<K, L> {
    /// The actor that ended.
    pub fn id(&self) -> ActorId
        ensures { result ≡ end_id (end_view K.state self.now) }
    {
        match self {
            Ended::Killed(dead) | Ended::Starved(dead) => dead.id(),
            Ended::Retired(retired) => retired.id(),
        }
    }

    /// What is kept of the calls that it ran, however it ended.
    pub fn run_log(&self) -> &L
        ensures { L.items result.now ≡ end_log (end_view K.state self.now) }
    {
        match self {
            Ended::Killed(dead) | Ended::Starved(dead) => dead.run_log(),
            Ended::Retired(retired) => retired.run_log(),
        }
    }
}

impl<K: Actor> Ended<K> {
    /// What it ran, however it ended.
    pub fn log(&self) -> &[RunItem]
        ensures { result.now ≡ end_log (end_view K.state self.now) }
    {
        match self {
            Ended::Killed(dead) | Ended::Starved(dead) => dead.log(),
            Ended::Retired(retired) => retired.log(),
        }
    }
}

/// What an executor leaves.
#[derive(Drop)]
pub struct Finished<K = Boxed, L: RunLog = Vec<RunItem>> {
    pub ended: Ended<K, L>,
    pub passes: ExecPasses,
}
