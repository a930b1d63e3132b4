//! The code of a caller: its steps, one after another.

use crate::call::future;
use crate::crew::Crew;
use crate::draw::Draw;
use crate::trace::Trace;
use crate::walker::{Next, Walker};
use act_drive::{Code, GaveUp, Session};
use act_types::{CallerId, NoMemory};
use std::alloc::Global;

impl<'a, R: Print> Walker<'a, R> {
    /// A step that is drawn.
    fn do_drawn_step<S: Session>(&mut self, session: &mut S) -> Result<(), GaveUp> {
        let count = session.count();
        match self.draw.below(100) {
            0..=39 => {
                let wanted = self.call(session.alloc(), count)?;
                self.submit(session, wanted)
            }
            40..=64 => {
                let wanted = self.call(session.alloc(), count)?;
                self.ask(session, wanted)
            }
            65..=76 => {
                let k = future(&mut self.draw, count);
                self.wait(session, k)
            }
            77..=86 => {
                let k = future(&mut self.draw, count);
                self.trace.write_ask("look", k)?;
                self.hear(session, k)
            }
            choice => self.do_step_of_handles(session, choice),
        }
    }

    /// A step that a draw from 87 on chose: one of handles, or a look at what is open.
    fn do_step_of_handles<S: Session>(
        &mut self,
        session: &mut S,
        choice: u32,
    ) -> Result<(), GaveUp> {
        let actor = self.actor();
        match choice {
            87..=90 => self.copy(session, actor),
            91..=93 => self.release(session, actor),
            94..=95 if self.crew.kills => self.kill(session, actor),
            _ => self.count(session, actor),
        }
    }

    /// The next step, as the last answer decided.
    fn step<S: Session>(&mut self, session: &mut S) -> Result<(), GaveUp> {
        let next = self.next;
        self.next = Next::Draw;
        match next {
            Next::Draw => self.do_drawn_step(session),
            Next::LetGo(actor) => self.release(session, actor),
            Next::Look(actor) => {
                let wanted = self.look(session.alloc(), actor);
                self.ask(session, wanted)
            }
        }
    }
}

impl<'a, R: Print> Code for Walker<'a, R> {
    ghost use Rattle.random_callers.specs.Walks.{any_walk};

    ghost tells = { any_walk };

    fn calls(&self) -> usize {
        self.steps as usize
    }

    fn run<S: Session>(&mut self, session: &mut S) -> Result<(), GaveUp> {
        for _ in 0..self.steps {
            self.step(session)?;
        }
        if self.gives_up {
            self.trace.write_end("give_up")?;
            return Err(GaveUp);
        }
        self.trace.write_end("end")
    }
}

/// The code of each caller that has no plan. Now and then one of them gives up at its end.
pub(crate) fn walkers_of<'a, Rt>(
    rt: &'a Rt,
    alloc: Global,
    crew: &Crew,
    draw: &mut Draw,
    steps: u32,
) -> Result<Vec<(CallerId, Walker<'a, Rt>)>, NoMemory> {
    let last = crew.callers.number();
    let quitter = if draw.once_in(8) { last } else { 0 };
    let mut walkers = Vec::new(alloc);
    for before in crew.planned..last {
        let me = CallerId::new(before + 1).unwrap();
        walkers.push((
            me,
            Walker {
                trace: Trace { rt, me },
                crew: *crew,
                draw: draw.branch(),
                steps,
                gives_up: me.number() == quitter,
                next: Next::Draw,
                purse: None,
                called: Vec::new(alloc),
            },
        ))?;
    }
    Ok(walkers)
}
