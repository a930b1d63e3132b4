//! A reply line that is filled and emptied.

ghost use Rattle.std.specs.Prelude.{◌≡◌, [], ◌∷◌, All, IfOk};
ghost use Rattle.act_rules.specs.Consistent.{IsPrefix};
ghost use Rattle.act_mailbox.specs.Notices.{IsNoDeath, NamesPlace, notice_actor, new_exec};

use act_mailbox::{Replies, ReplyCaller, ReplyExec};
use act_rules::RunItem;
use act_types::{ActorId, CallerId, FutureId, Method, NoMemory, Notice, Reply, SmallList, Value};
use std::alloc::Global;
use std::process::Abort;
use std::sync::Wait;
use std::test::Fail;

/// A reply of actor 8 to caller 1 at the first place, told from others by its answer.
fn reply(number: u32) -> Notice
    ensures actor { notice_actor result ≡ 8 }
    ensures reply { IsNoDeath result }
    ensures place { (item : RunItem) → item.caller ≡ 1 → item.future ≡ 0 → NamesPlace (item ∷ []) result }
{
    Notice::Answered(Reply {
        actor: ActorId::new(8).unwrap(),
        caller: CallerId::new(1).unwrap(),
        future: FutureId::new(0),
        place: 0,
        answer: Ok(Value::Int(i64::from(number))),
    })
}

fn is_same(one: Notice, other: Notice) -> bool {
    let is_same = one == other;
    drop(one);
    drop(other);
    is_same
}

/// Gives replies from this number on, until one is handed back, and tells which one that is.
fn handed_back<R: Wait>(
    rt: &R,
    replies: &Replies,
    pass: &mut ReplyExec,
    log: &[RunItem],
    from: u32,
) -> Option<u32>
    requires pass { (pass.old.line ≡ replies.now.line) × (pass.old.actor ≡ 8) }
    requires log { (item : RunItem) × (log.now ≡ item ∷ []) × (item.caller ≡ 1) × (item.future ≡ 0) }
    requires alive { All IsNoDeath pass.old.given }
    requires grown { IsPrefix pass.old.seen log.now }
    ensures pass { (pass.new.line ≡ replies.now.line) × (pass.new.actor ≡ 8) }
    ensures alive { All IsNoDeath pass.new.given }
    ensures grown { IsPrefix pass.new.seen log.now }
{
    for number in from..1000 {
        if let Err(back) = replies.give(rt, pass, log, reply(number)) {
            return is_same(back, reply(number)).then_some(number);
        }
    }
    None
}

fn is_wanted(collected: Option<Notice>, wanted: Option<Notice>) -> bool {
    let is_wanted = collected == wanted;
    drop(collected);
    drop(wanted);
    is_wanted
}

/// Whether the next notice is this one, or there is none.
fn is_next<R: Wait>(
    rt: &R,
    replies: &Replies,
    pass: &mut ReplyCaller,
    wanted: Option<Notice>,
) -> bool
    requires { pass.old.line ≡ replies.now.line }
    ensures { pass.new.line ≡ replies.now.line }
{
    is_wanted(replies.collect(rt, pass), wanted)
}

/// The same, by an attempt. One thread alone is never before a notice that isn't given to its end.
fn is_next_at_once(replies: &Replies, pass: &mut ReplyCaller, wanted: Option<Notice>) -> bool
    requires { pass.old.line ≡ replies.now.line }
    ensures { pass.new.line ≡ replies.now.line }
{
    is_wanted(replies.try_collect(pass), wanted)
}

/// Whether the next replies are those of these numbers, in order.
fn are_next<R: Wait>(rt: &R, replies: &Replies, pass: &mut ReplyCaller, from: u32, end: u32) -> bool
    requires { pass.old.line ≡ replies.now.line }
    ensures { pass.new.line ≡ replies.now.line }
{
    for number in from..end {
        if !is_next(rt, replies, pass, Some(reply(number))) {
            return false;
        }
    }
    true
}

/// The reply line of caller 1, the pass of actor 8 and the caller's.
fn opened(alloc: Global) -> Result<(Replies, ReplyExec, ReplyCaller), NoMemory>
    ensures executor { IfOk result (λ opened. opened.1 ≡ new_exec opened.0.line 8) }
    ensures collector { IfOk result (λ opened. opened.2.line ≡ opened.0.line) }
{
    let actors = [ActorId::new(1).unwrap(), ActorId::new(8).unwrap()];
    let (replies, mut passes, collector) = Replies::open(
        alloc,
        CallerId::new(1).unwrap(),
        &actors,
    )?;
    Ok((replies, passes.pop().unwrap(), collector))
}

/// The line takes replies from the first of these numbers on, and hands back the second, since it is
/// full.
fn assert_filled<R: Wait + Abort>(
    rt: &R,
    replies: &Replies,
    pass: &mut ReplyExec,
    collector: &mut ReplyCaller,
    log: &[RunItem],
    numbers: (u32, u32),
)
    requires pass { (pass.old.line ≡ replies.now.line) × (pass.old.actor ≡ 8) }
    requires log { (item : RunItem) × (log.now ≡ item ∷ []) × (item.caller ≡ 1) × (item.future ≡ 0) }
    requires alive { All IsNoDeath pass.old.given }
    requires grown { IsPrefix pass.old.seen log.now }
    requires collector { collector.old.line ≡ replies.now.line }
    ensures pass { (pass.new.line ≡ replies.now.line) × (pass.new.actor ≡ 8) }
    ensures alive { All IsNoDeath pass.new.given }
    ensures grown { IsPrefix pass.new.seen log.now }
    ensures collector { collector.new ≡ collector.old }
{
    let (from, end) = numbers;
    assert_eq!(rt; handed_back(rt, replies, pass, log, from), Some(end));
    assert_eq!(rt; replies.audit(rt, pass, collector), 64);
}

/// The replies of these numbers come in order, and leave so many notices in the line.
fn assert_next<R: Wait + Abort>(
    rt: &R,
    replies: &Replies,
    pass: &mut ReplyExec,
    collector: &mut ReplyCaller,
    numbers: (u32, u32),
    left: usize,
)
    requires pass { pass.old.line ≡ replies.now.line }
    requires collector { collector.old.line ≡ replies.now.line }
    ensures pass { pass.new ≡ pass.old }
    ensures collector { collector.new.line ≡ replies.now.line }
{
    let (from, end) = numbers;
    assert!(rt; are_next(rt, replies, collector, from, end), "from {from}");
    assert_eq!(rt; replies.audit(rt, pass, collector), left, "from {from}");
}

/// A full line gives its first reply, has room for one more then, and gives the next.
fn assert_fills<R: Wait + Abort>(
    rt: &R,
    replies: &Replies,
    pass: &mut ReplyExec,
    collector: &mut ReplyCaller,
    log: &[RunItem],
)
    requires opened { pass.old ≡ new_exec replies.now.line 8 }
    requires log { (item : RunItem) × (log.now ≡ item ∷ []) × (item.caller ≡ 1) × (item.future ≡ 0) }
    requires collector { collector.old.line ≡ replies.now.line }
    ensures pass { (pass.new.line ≡ replies.now.line) × (pass.new.actor ≡ 8) }
    ensures alive { All IsNoDeath pass.new.given }
    ensures grown { IsPrefix pass.new.seen log.now }
    ensures collector { collector.new.line ≡ replies.now.line }
{
    assert!(rt; is_next(rt, replies, collector, None));
    assert_filled(rt, replies, pass, collector, log, (0, 64));
    assert_next(rt, replies, pass, collector, (0, 1), 63);
    assert_filled(rt, replies, pass, collector, log, (64, 65));
    assert_next(rt, replies, pass, collector, (1, 2), 63);
}

/// The death of actor 8 comes last.
fn assert_empties<R: Wait + Abort>(
    rt: &R,
    replies: &Replies,
    pass: &mut ReplyExec,
    collector: &mut ReplyCaller,
)
    requires pass { pass.old.line ≡ replies.now.line }
    requires collector { collector.old.line ≡ replies.now.line }
{
    let death = Notice::Death(ActorId::new(8).unwrap());
    assert_next(rt, replies, pass, collector, (2, 34), 32);
    assert!(rt; are_next(rt, replies, collector, 34, 65));
    assert!(rt; is_next_at_once(replies, collector, Some(death)));
    assert!(rt; is_next_at_once(replies, collector, None));
    assert!(rt; is_next(rt, replies, collector, None));
    assert_next(rt, replies, pass, collector, (65, 65), 0);
}

#[test]
fn full_and_empty(rt: HostRuntime) -> Result<(), Fail> {
    let (replies, mut pass, mut collector) = opened(rt.alloc())?;
    let log = [RunItem {
        caller: CallerId::new(1).unwrap(),
        number: 0,
        future: FutureId::new(0),
        method: Method::Get,
        args: SmallList::new(rt.alloc()),
    }];
    let death = ActorId::new(8).unwrap();
    assert_eq!(rt; (replies.caller().number(), pass.actor()), (1, death));
    assert_fills(&rt, &replies, &mut pass, &mut collector, &log);
    let given = replies.give(&rt, &mut pass, &log, Notice::Death(death));
    assert!(rt; given.is_ok());
    drop(given);
    drop(log);
    pass.shows();
    assert_empties(&rt, &replies, &mut pass, &mut collector);
    drop(replies);
    drop(pass);
    drop(collector);
    Ok(())
}
