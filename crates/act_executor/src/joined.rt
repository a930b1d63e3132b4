//! What is left of a run.

ghost use Rattle.std.specs.Prelude.{◌≡◌, map, All, IfOk, false, OnOk};
ghost use Rattle.std.specs.List.{list_any};
ghost use Rattle.act_serve.specs.Served.{end_view};
ghost use Rattle.act_executor.specs.Audits.{SitsAt, SitsAtControl, SitsAtReplies, HasEndpoints, IsToldAt, NoticeTold, CallerTold, left_of};
ghost use Rattle.act_executor.specs.Joined.{is_starved};
ghost use Rattle.act_executor.specs.Joins.{AreCompared};

use crate::open::Lines;
use act_actor::{RunItem, RunLog};
use act_drive::Driven;
use act_kinds::{Actor, Boxed};
use act_mailbox::{Control, ControlCaller, Endpoint, Mail, MailCaller, Replies, ReplyExec};
use act_owner::Owner;
use act_serve::{Ended, Finished};
use act_types::NoMemory;
use std::alloc::Global;
use std::sync::Wait;

/// Callers and actors at their end, each by rising number.
#[derive(Drop)]
pub struct Joined<K = Boxed, L: RunLog = Vec<RunItem>> {
    pub owners: Vec<Owner>,
    pub actors: Vec<Finished<K, L>>,
}

/// What the threads gave back, and the starter's passes.
#[derive(Drop)]
pub(crate) struct Ends<K, L: RunLog> {
    pub(crate) actors: Vec<Finished<K, L>>,
    pub(crate) callers: Vec<Driven>,
    pub(crate) starters: Vec<Endpoint<ControlCaller>>,
}

/// Whether an actor was refused memory.
fn has_starved_actor<K: Actor, L: RunLog>(actors: &[Finished<K, L>]) -> bool
    ensures { result ≡ list_any (λ actor. is_starved (end_view K.state actor.ended)) actors.now }
{
    actors
        .iter()
        .any(|actor| matches!(actor.ended, Ended::Starved(_)))
}

/// Whether a caller was refused memory.
fn has_starved_caller(callers: &[Driven]) -> bool
    ensures { result ≡ list_any (λ caller. caller.starved) callers.now }
{
    callers.iter().any(|caller| caller.starved)
}

/// Compares the two sides of each line, where nobody was refused memory.
pub(crate) fn compare_ends<K: Actor, R: Wait, L: RunLog>(
    rt: &R,
    alloc: Global,
    lines: &Lines,
    ends: Ends<K, L>,
) -> Result<Joined<K, L>, NoMemory>
    requires mails { map (λ mail. mail.line) lines.now.mails.items
        ≡ map (λ actor. actor.passes.letters.line) ends.actors.items }
    requires controls { map (λ control. control.line) lines.now.controls.items
        ≡ map (λ actor. actor.passes.kills.line) ends.actors.items }
    requires replies { map (λ line. line.line) lines.now.replies.items
        ≡ map (λ caller. caller.passes.collects.line) ends.callers.items }
    requires actors { All (λ actor.
        All (SitsAtReplies lines.now.replies.items) actor.passes.notices.items) ends.actors.items }
    requires callers { All (HasEndpoints lines.now) ends.callers.items }
    requires starters { All (SitsAtControl lines.now.controls.items) ends.starters.items }
    ensures { IfOk result (λ joined. AreCompared K.state ends joined) }
{
    let Ends {
        mut actors,
        mut callers,
        mut starters,
    } = ends;
    if has_starved_actor(actors.as_slice()) || has_starved_caller(callers.as_slice()) {
        return Err(NoMemory);
    }
    audit_actors(rt, lines.replies.as_slice(), &mut actors, &mut callers);
    audit_all(rt, lines.controls.as_slice(), &mut starters, &mut actors);
    drop(starters);
    let owners = audit_callers(rt, alloc, lines, callers, &mut actors)?;
    Ok(Joined { owners, actors })
}

/// A line with a pass on it, whose other side a `T` has.
trait Compares<T> {
    ghost use Rattle.std.specs.Prelude.{◌≡◌};
    ghost use Rattle.atomic_table.specs.Seated.{TableId};

    type Pass;

    ghost id: { Self → TableId };

    ghost pass_id: { Self.Pass → TableId };

    ghost end_id: { T → TableId };

    ghost Told: { T → Self.Pass → Type 0 };

    fn audit_end<R: Wait>(&self, rt: &R, pass: &mut Self::Pass, end: &mut T)
        requires pass { pass_id pass.old ≡ id self.now }
        requires end { end_id end.old ≡ id self.now }
        ensures same_pass { pass.new ≡ pass.old }
        ensures same_end { end.new ≡ end.old }
        ensures told { Told end.old pass.old };
}

impl<K, L: RunLog> Compares<Finished<K, L>> for Mail {
    ghost use Rattle.act_executor.specs.Audits.{IsLetterTold};

    type Pass = MailCaller;

    ghost id = { λ mail. mail.line };

    ghost pass_id = { λ pass. pass.line };

    ghost end_id = { λ actor. actor.passes.letters.line };

    ghost Told = { IsLetterTold };

    fn audit_end<R: Wait>(&self, rt: &R, pass: &mut MailCaller, actor: &mut Finished<K, L>) {
        self.audit(rt, pass, &mut actor.passes.letters);
    }
}

impl<K, L: RunLog> Compares<Finished<K, L>> for Control {
    ghost use Rattle.act_executor.specs.Audits.{IsKillTold};

    type Pass = ControlCaller;

    ghost id = { λ control. control.line };

    ghost pass_id = { λ pass. pass.line };

    ghost end_id = { λ actor. actor.passes.kills.line };

    ghost Told = { IsKillTold };

    fn audit_end<R: Wait>(&self, rt: &R, pass: &mut ControlCaller, actor: &mut Finished<K, L>) {
        self.audit(rt, pass, &mut actor.passes.kills);
    }
}

impl Compares<Driven> for Replies {
    ghost use Rattle.act_executor.specs.Audits.{IsNoticeTold};

    type Pass = ReplyExec;

    ghost id = { λ line. line.line };

    ghost pass_id = { λ pass. pass.line };

    ghost end_id = { λ caller. caller.passes.collects.line };

    ghost Told = { IsNoticeTold };

    fn audit_end<R: Wait>(&self, rt: &R, pass: &mut ReplyExec, caller: &mut Driven) {
        self.audit(rt, pass, &mut caller.passes.collects);
    }
}

/// Compares what was put with these passes with what was taken at the other ends of their lines.
fn audit_all<T, A: Compares<T>, R: Wait>(
    rt: &R,
    lines: &[A],
    endpoints: &mut Vec<Endpoint<A::Pass>>,
    ends: &mut Vec<T>,
)
    requires lines { map A.id lines.now ≡ map A.end_id ends.old.items }
    requires sit { All (SitsAt A.id A.pass_id lines.now) endpoints.old.items }
    ensures same_endpoints { endpoints.new.items ≡ endpoints.old.items }
    ensures same { ends.new.items ≡ ends.old.items }
    ensures told { All (IsToldAt A.Told ends.old.items) endpoints.old.items }
{
    for at in 0..endpoints.len() {
        let endpoint = &mut endpoints[at];
        let place = endpoint.place;
        lines[place].audit_end(rt, &mut endpoint.pass, &mut ends[place]);
    }
}

/// Compares what the actors gave with what the callers collected.
fn audit_actors<K, R: Wait, L: RunLog>(
    rt: &R,
    replies: &[Replies],
    actors: &mut Vec<Finished<K, L>>,
    callers: &mut Vec<Driven>,
)
    requires lines { map (λ line. line.line) replies.now
        ≡ map (λ caller. caller.passes.collects.line) callers.old.items }
    requires sit { All (λ actor. All (SitsAtReplies replies.now) actor.passes.notices.items) actors.old.items }
    ensures same_actors { map left_of actors.new.items ≡ map left_of actors.old.items }
    ensures same { callers.new.items ≡ callers.old.items }
    ensures told { All (λ actor. All (NoticeTold callers.old.items) actor.passes.notices.items) actors.old.items }
{
    for at in 0..actors.len() {
        let actor = &mut actors[at];
        audit_all(rt, replies, &mut actor.passes.notices, callers);
    }
}

/// Compares what the callers posted and asked with what the actors took. The owners are left.
fn audit_callers<K, R: Wait, L: RunLog>(
    rt: &R,
    alloc: Global,
    lines: &Lines,
    callers: Vec<Driven>,
    actors: &mut Vec<Finished<K, L>>,
) -> Result<Vec<Owner>, NoMemory>
    requires mails { map (λ mail. mail.line) lines.now.mails.items
        ≡ map (λ actor. actor.passes.letters.line) actors.old.items }
    requires controls { map (λ control. control.line) lines.now.controls.items
        ≡ map (λ actor. actor.passes.kills.line) actors.old.items }
    requires sit { All (HasEndpoints lines.now) callers.items }
    ensures same { actors.new.items ≡ actors.old.items }
    ensures told { OnOk result (All (CallerTold actors.old.items) callers.items) }
    ensures owners { IfOk result (λ owners. owners.items ≡ map (λ caller. caller.owner) callers.items) }
{
    let mut owners = Vec::new(alloc);
    for caller in callers {
        let Driven {
            owner,
            mut passes,
            ..
        } = caller;
        audit_all(rt, lines.mails.as_slice(), &mut passes.letters, actors);
        audit_all(rt, lines.controls.as_slice(), &mut passes.kills, actors);
        drop(passes);
        owners.push(owner)?;
    }
    Ok(owners)
}
