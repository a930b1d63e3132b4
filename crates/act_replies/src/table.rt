//! The table of a caller's futures.

ghost use Rattle.std.specs.Prelude.{◌≡◌, ◌+◌, ◌<◌, ◌≤◌, [], ◌∷◌, ◌++◌, length, drop, count_by, true, IfOk, IfNone, IfSome, OnOk, OnErr, IsOk, option_copied, slice_set, None, Some};
ghost use Rattle.act_replies.specs.Table.{is_open, row_waits_for, waits_at, unanswered_row, answer_in_table, keep_result, after_keep, rows_after_death};
ghost use Rattle.act_replies.specs.Chains.{with_found, is_for, linked_actors, before_of, after_of, IsLastBelow};

use act_types::{ACTOR_NUMBERS, ActorId, Answer, Fault, FutureId, MAX_CALLS, NoMemory};
use std::alloc::Global;
use std::marker::Model;

/// What became of an answer.
#[derive(Clone, Copy, Debug, PartialEq, Eq)]
pub enum Kept {
    /// It is the first one of its future, and stays.
    First,
    /// Its future has an answer already, which stays.
    Late,
    /// There is no such future.
    Stray,
}

/// A future: the actor that it was asked of, and its answer once there is one.
#[derive(Drop)]
pub struct Row {
    pub actor: ActorId,
    pub answer: Option<Answer>,
}

/// The futures of one caller, in the order of their submission.
#[derive(Drop)]
pub struct ReplyTable {
    rows: Vec<Row>,
    waiting: Waiting,
    unanswered: u32,
}

impl Model for ReplyTable {
    ghost use Rattle.std.specs.Prelude.{◌-◌, min, vec_len, vec_capacity};
    ghost use Rattle.act_replies.specs.Table.{TableView, IsTable, IsKnown};

    ghost Value = { TableView };

    ghost view = { λ table. record {
      rows = table.rows.items;
      spare = min (vec_capacity table.rows - vec_len table.rows) table.waiting.spare;
    } };

    ghost invariant = { λ table.
        IsTable table.rows.items table.unanswered × IsKnown table.rows.items table.waiting.actors };
}

impl ReplyTable {
    /// No futures.
    pub fn new(alloc: Global) -> ReplyTable
        ensures { result.rows ≡ [] }
    {
        ReplyTable {
            rows: Vec::new(alloc),
            waiting: Waiting::new(alloc),
            unanswered: 0,
        }
    }

    /// Makes room for one more future, unless there is some.
    pub fn reserve_one(&mut self) -> Result<(), NoMemory>
        ensures room { OnOk result (1 ≤ self.new.spare) }
        ensures enough { 1 ≤ self.old.spare → IsOk result }
        ensures rows { self.new.rows ≡ self.old.rows }
        ensures spare { self.old.spare ≤ self.new.spare }
    {
        self.rows.reserve(1)?;
        self.waiting.reserve(1)?;
        Ok(())
    }

    /// Makes room for so many futures more, unless there is as much.
    pub fn reserve(&mut self, count: usize) -> Result<(), NoMemory>
        ensures room { OnOk result (count ≤ self.new.spare) }
        ensures enough { count ≤ self.old.spare → IsOk result }
        ensures rows { self.new.rows ≡ self.old.rows }
        ensures spare { self.old.spare ≤ self.new.spare }
    {
        self.rows.reserve(count)?;
        self.waiting.reserve(count)?;
        Ok(())
    }

    /// Adds a future of this actor, which has no answer yet. Where there is room it can't fail.
    pub fn enter(&mut self, actor: ActorId) -> Result<FutureId, NoMemory>
        requires { length self.old.rows < MAX_CALLS }
        ensures future { IfOk result (λ k. k ≡ length self.old.rows) }
        ensures ok { OnOk result (self.new.rows ≡ self.old.rows ++ unanswered_row actor ∷ []) }
        ensures err { OnErr result (self.new.rows ≡ self.old.rows) }
        ensures room { 1 ≤ self.old.spare → IsOk result }
        ensures spare { self.old.spare ≤ self.new.spare + 1 }
    {
        self.reserve_one()?;
        Ok(self.enter_reserved(actor))
    }

    /// The same, where room was made before.
    pub fn enter_reserved(&mut self, actor: ActorId) -> FutureId
        requires few { length self.old.rows < MAX_CALLS }
        requires room { 1 ≤ self.old.spare }
        ensures future { result ≡ length self.old.rows }
        ensures rows { self.new.rows ≡ self.old.rows ++ unanswered_row actor ∷ [] }
        ensures spare { self.old.spare ≤ self.new.spare + 1 }
    {
        let number = self.rows.len();
        self.rows.push_reserved(Row {
            actor,
            answer: None,
        });
        self.waiting.push(actor);
        self.unanswered += 1;
        FutureId::new(number as u32)
    }

    /// Keeps the answer where its future has none yet.
    #[inline(always)]
    pub fn keep(&mut self, future: FutureId, answer: Answer) -> Kept
        ensures value { result ≡ keep_result future self.old.rows }
        ensures rows { self.new.rows ≡ after_keep future answer self.old.rows }
        ensures spare { self.new.spare ≡ self.old.spare }
    {
        let place = future.number() as usize;
        if place >= self.rows.len() {
            return Kept::Stray;
        }
        if self.rows[place].answer.is_some() {
            return Kept::Late;
        }
        self.rows[place].answer = Some(answer);
        self.waiting.remove(future);
        self.unanswered -= 1;
        Kept::First
    }

    /// Answers each future of the actor that has no answer yet with `ActorDied`, and gives their
    /// number. It passes over no other future.
    pub fn died(&mut self, actor: ActorId) -> u32
        ensures value { result ≡ count_by (row_waits_for actor) self.old.rows }
        ensures rows { self.new.rows ≡ rows_after_death actor self.old.rows }
        ensures spare { self.new.spare ≡ self.old.spare }
    {
        let count = self.pending(actor);
        while let Some(future) = self.waiting_of(actor) {
            self.keep(future, Err(Fault::ActorDied));
        }
        count
    }

    /// The last future of the actor that has no answer yet. It is known without a search.
    pub fn waiting_of(&self, actor: ActorId) -> Option<FutureId>
        ensures waits { IfSome result (λ k. waits_at actor self.now.rows k ≡ true) }
        ensures last { IfSome result (λ k. count_by (row_waits_for actor) (drop (k + 1) self.now.rows) ≡ 0) }
        ensures none { IfNone result (count_by (row_waits_for actor) self.now.rows ≡ 0) }
    {
        self.waiting.last_of(actor)
    }

    /// The answer that is kept for a future.
    pub fn answer(&self, future: FutureId) -> Option<&Answer>
        ensures { option_copied result ≡ answer_in_table future self.now.rows }
    {
        self.rows.get(future.number() as usize)?.answer.as_ref()
    }

    /// How many futures of the actor have no answer yet. A call that ran counts until its answer is
    /// kept, and a death leaves none. The number is kept: asking for it takes constant time, and no
    /// memory.
    pub fn pending(&self, a: ActorId) -> u32
        ensures { result ≡ count_by (row_waits_for a) self.now.rows }
    {
        self.waiting.count_of(a)
    }

    /// How many futures have no answer yet.
    pub fn unanswered(&self) -> u32
        ensures { result ≡ count_by is_open self.now.rows }
    {
        self.unanswered
    }

    /// How many futures there are.
    pub fn count(&self) -> u32
        ensures value { result ≡ length self.now.rows }
        ensures limit { result ≤ MAX_CALLS }
    {
        self.rows.len() as u32
    }
}

/// A future: the actor that it waits for, none once it has its answer, and the nearest futures of
/// that actor that wait too.
#[derive(Clone, Copy)]
struct Link {
    actor: Option<ActorId>,
    before: Option<FutureId>,
    after: Option<FutureId>,
}

/// The futures of one caller, and which of them wait for an answer.
#[derive(Drop)]
pub(crate) struct Waiting {
    links: Vec<Link>,
    /// The last future that waits for each actor, by the actor's number.
    last: [Option<FutureId>; ACTOR_NUMBERS],
    /// How many futures wait for each actor, by the actor's number.
    counts: [u32; ACTOR_NUMBERS],
}

impl Model for Waiting {
    ghost use Rattle.std.specs.Prelude.{◌-◌, vec_len, vec_capacity};
    ghost use Rattle.act_replies.specs.Chains.{WaitingView, linked_actors, IsLinked, IsCounted};

    ghost Value = { WaitingView };

    ghost view = { λ waiting. record {
      actors = linked_actors waiting.links.items;
      spare = vec_capacity waiting.links - vec_len waiting.links;
    } };

    ghost invariant = { λ waiting.
        IsLinked waiting.links.items waiting.last × IsCounted (linked_actors waiting.links.items) waiting.counts };
}

/// Writes what stands before a future, where there is one.
fn set_before(links: &mut [Link], future: Option<FutureId>, before: Option<FutureId>)
    requires { IfSome future (λ k. k < length links.old) }
    ensures actors { linked_actors links.new ≡ linked_actors links.old }
    ensures before { before_of links.new ≡ with_found (before_of links.old) future before }
    ensures after { after_of links.new ≡ after_of links.old }
{
    if let Some(k) = future {
        links[k.number() as usize].before = before;
    }
}

/// Writes what stands after a future, where there is one.
fn set_after(links: &mut [Link], future: Option<FutureId>, after: Option<FutureId>)
    requires { IfSome future (λ k. k < length links.old) }
    ensures actors { linked_actors links.new ≡ linked_actors links.old }
    ensures before { before_of links.new ≡ before_of links.old }
    ensures after { after_of links.new ≡ with_found (after_of links.old) future after }
{
    if let Some(k) = future {
        links[k.number() as usize].after = after;
    }
}

/// Links the futures on the two sides of this one to each other, as far as there are two.
fn bypass(links: &mut [Link], link: &Link)
    requires before { IfSome link.now.before (λ k. k < length links.old) }
    requires after { IfSome link.now.after (λ k. k < length links.old) }
    ensures actors { linked_actors links.new ≡ linked_actors links.old }
    ensures before { before_of links.new ≡ with_found (before_of links.old) link.now.after link.now.before }
    ensures after { after_of links.new ≡ with_found (after_of links.old) link.now.before link.now.after }
{
    set_after(links, link.before, link.after);
    set_before(links, link.after, link.before);
}

impl Waiting {
    /// No futures.
    pub(crate) fn new(alloc: Global) -> Waiting
        ensures { result.actors ≡ [] }
    {
        Waiting {
            links: Vec::new(alloc),
            last: [None; ACTOR_NUMBERS],
            counts: [0; ACTOR_NUMBERS],
        }
    }

    /// Makes room for so many futures more, unless there is as much.
    pub(crate) fn reserve(&mut self, count: usize) -> Result<(), NoMemory>
        ensures room { OnOk result (count ≤ self.new.spare) }
        ensures enough { count ≤ self.old.spare → IsOk result }
        ensures actors { self.new.actors ≡ self.old.actors }
        ensures spare { self.old.spare ≤ self.new.spare }
    {
        self.links.reserve(count)?;
        Ok(())
    }

    /// Adds a future that waits for this actor.
    pub(crate) fn push(&mut self, actor: ActorId)
        requires room { 1 ≤ self.old.spare }
        requires limit { length self.old.actors < MAX_CALLS }
        ensures actors { self.new.actors ≡ self.old.actors ++ Some actor ∷ [] }
        ensures spare { self.old.spare ≡ self.new.spare + 1 }
    {
        let future = FutureId::new(self.links.len() as u32);
        let link = Link {
            actor: Some(actor),
            before: self.last[actor.number() as usize],
            after: None,
        };
        set_after(&mut self.links, link.before, Some(future));
        self.links.push_reserved(link);
        self.last[actor.number() as usize] = Some(future);
        self.counts[actor.number() as usize] += 1;
    }

    /// The future waits no more.
    pub(crate) fn remove(&mut self, future: FutureId)
        requires { future < length self.old.actors }
        ensures actors { self.new.actors ≡ slice_set self.old.actors future None }
        ensures spare { self.new.spare ≡ self.old.spare }
    {
        let place = future.number() as usize;
        let link = self.links[place];
        let Some(actor) = link.actor else {
            return;
        };
        self.counts[actor.number() as usize] -= 1;
        self.links[place].actor = None;
        bypass(&mut self.links, &link);
        if link.after.is_none() {
            self.last[actor.number() as usize] = link.before;
        }
    }

    /// The last future that waits for the actor.
    pub(crate) fn last_of(&self, actor: ActorId) -> Option<FutureId>
        ensures { IsLastBelow self.now.actors actor (length self.now.actors) result }
    {
        self.last[actor.number() as usize]
    }

    /// How many futures wait for the actor.
    pub(crate) fn count_of(&self, actor: ActorId) -> u32
        ensures { result ≡ count_by (is_for actor) self.now.actors }
    {
        self.counts[actor.number() as usize]
    }
}
