//! The door that the runs pass.

use act_executor::Gate;
use act_types::ActorId;

/// Before the first run of the first actor a line of standard input is waited for. Before the first run of
/// the second actor a line is written.
#[derive(Drop)]
pub(crate) struct Door<'a, R> {
    pub(crate) rt: &'a R,
}

/// Waits for a line, or for the end of the input.
fn wait_for_line<R: AllocGlobal + Input>(rt: &R) {
    let mut line = String::new(rt.alloc());
    let _ = rt.read_line(&mut line);
}

fn tell<R: AllocGlobal + Print>(rt: &R) {
    let _ = println!(rt; "called");
}

impl<'a, R: AllocGlobal + Input + Print + Sync> Gate for Door<'a, R> {
    fn pass(&self, actor: ActorId, place: u32) {
        match (actor.number(), place) {
            (1, 0) => wait_for_line(self.rt),
            (2, 0) => tell(self.rt),
            _ => {}
        }
    }
}
