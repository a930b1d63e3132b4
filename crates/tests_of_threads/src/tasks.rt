//! Tasks of two kinds, each in a thread of its own.

ghost use Rattle.std.specs.Prelude.{◌≡◌, ◌*◌, ⊤, length};

use act_tasks::{Stop, Task, run_both};
use std::sync::Wait;
use std::test::Fail;

/// Twice a number.
#[derive(Drop)]
struct Double(u32);

impl Task for Double {
    type Output = u64;

    ghost ready = { λ _. ⊤ };

    ghost done = { λ task doubled. doubled ≡ 2 * task.0 };

    fn run<R: Wait>(self, _rt: &R) -> u64 {
        2 * self.0 as u64
    }
}

/// How many bytes a word has.
#[derive(Drop)]
struct Length(&'static str);

impl Task for Length {
    type Output = usize;

    ghost ready = { λ _. ⊤ };

    ghost done = { λ task bytes. bytes ≡ length task.0.now };

    fn run<R: Wait>(self, _rt: &R) -> usize {
        self.0.len()
    }
}

/// Nothing waits for these tasks.
#[derive(Debug, Drop)]
struct NoStop;

impl Stop for NoStop {
    type Stopped = ();

    ghost can_stop = { λ _. ⊤ };

    ghost has_stopped = { λ _ _. ⊤ };

    fn stop<R: Wait>(self, _rt: &R) {}
}

#[test]
fn each_task_gives_its_result(rt: HostRuntime) -> Result<(), Fail> {
    let alloc = rt.alloc();
    let numbers = vec![in alloc; Double(3), Double(0), Double(21)]?;
    let words = vec![in alloc; Length("actor"), Length("")]?;
    let (doubled, bytes, _) = run_both(&rt, alloc, numbers, words, NoStop)?;
    assert_eq!(rt; doubled.as_slice(), [6, 0, 42].as_slice());
    assert_eq!(rt; bytes.as_slice(), [5, 0].as_slice());
    Ok(())
}
