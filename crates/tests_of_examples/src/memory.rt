//! Want of memory at a kind of one's own.

use act_kinds::Actor;
use act_types::{NoMemory, Text, Value};
use example_kinds::{QueueCall, WorkQueue};
use std::process::Abort;
use std::test::Fail;

/// Puts a value, once more where memory was refused, which must have changed nothing.
fn put<R: Abort>(
    rt: &R,
    queue: &mut WorkQueue,
    args: &[Value],
    alloc: std::alloc::Global,
) -> Result<(), NoMemory> {
    let (enqueue, _) = QueueCall::Dequeue.spell(alloc)?;
    let (waiting, _) = QueueCall::Waiting.spell(alloc)?;
    assert!(rt; queue.ask(&enqueue, &[])?.is_err());
    let Some(value) = args.first() else {
        return Ok(());
    };
    let (enqueue, _) = QueueCall::Enqueue(value).spell(alloc)?;
    let answer = match queue.ask(&enqueue, args) {
        Ok(answer) => answer,
        Err(NoMemory) => {
            assert!(rt; queue.ask(&waiting, &[])? == Ok(Value::Int(0)));
            queue.ask(&enqueue, args)?
        }
    };
    assert!(rt; answer == Ok(Value::Int(1)));
    Ok(())
}

/// Where memory is refused the queue and the text stay, and the call succeeds when it is made again.
#[test]
fn refused_memory_changes_nothing(rt: HostRuntime) -> Result<(), Fail> {
    let alloc = rt.alloc();
    let mut queue = WorkQueue::open(alloc);
    let args = [Value::Text(Text::copied(alloc, "job")?)];
    put(&rt, &mut queue, &args, alloc)?;
    let mut text = String::new(alloc);
    if queue.state_text(&mut text).is_err() {
        assert!(rt; text.is_empty());
        queue.state_text(&mut text)?;
    }
    assert_eq!(rt; text.as_str(), "queue \"job\"");
    Ok(())
}
