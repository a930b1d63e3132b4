//! A worker: a caller that takes jobs from a queue until it gives none.

ghost use Rattle.std.specs.Prelude.{◌≡◌, codes};
ghost use Rattle.actors.specs.Method.TheVariants.{Own};

use actors::{ActorId, Code, GaveUp, ListOf, MAX_CALLS, Method, Name, Session, args_of};

/// Takes jobs from a queue until it gives none, and adds their number to a counter.
#[derive(Clone, Copy, Debug)]
pub struct Worker {
    pub queue: ActorId,
    pub counter: ActorId,
}

/// The method that takes a job from a queue.
fn dequeue() -> Method
    ensures { result ≡ Own (codes "dequeue") }
{
    Method::Own(Name::new("dequeue").unwrap())
}

impl Code for Worker {
    ghost use Rattle.example_callers.specs.Worker.{worker_tells};

    ghost tells = { worker_tells };

    fn run<S: Session>(&mut self, session: &mut S) -> Result<(), GaveUp> {
        let alloc = session.alloc();
        for jobs in 0..MAX_CALLS {
            let k = session.ask(self.queue, dequeue(), ListOf::new(alloc))?;
            let Some(Ok(_)) = session.answer(k) else {
                session.ask(
                    self.counter,
                    Method::Add,
                    args_of(alloc, &[i64::from(jobs)])?,
                )?;
                return Ok(());
            };
        }
        Err(GaveUp)
    }
}
