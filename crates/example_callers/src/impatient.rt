//! An impatient caller: it polls for an answer, and asks for the actor's kill where none comes.

use actors::{ActorId, Code, GaveUp, ListOf, Method, Session};

/// Takes what is at the end of a list, and looks for the answer in so many turns. Where none came by
/// then, it asks for the actor's kill. `answer` makes no progress by itself: `turn` does.
#[derive(Clone, Copy, Debug)]
pub struct Impatient {
    pub list: ActorId,
    pub turns: u32,
}

impl Code for Impatient {
    ghost use Rattle.example_callers.specs.Impatient.{impatient_tells};

    ghost tells = { impatient_tells };

    fn calls(&self) -> usize {
        1
    }

    fn run<S: Session>(&mut self, session: &mut S) -> Result<(), GaveUp> {
        let alloc = session.alloc();
        let popped = session.submit(self.list, Method::Pop, ListOf::new(alloc))?;
        for _ in 0..self.turns {
            session.turn()?;
            if session.answer(popped).is_some() {
                return Ok(());
            }
        }
        session.kill(self.list)?;
        Ok(())
    }
}
