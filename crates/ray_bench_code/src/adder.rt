//! The code of a measured caller.

ghost use Rattle.std.specs.Prelude.{◌≡◌, ◌++◌, IfOk, OnOk, map};
ghost use Rattle.act_rules.specs.Report.{one_to};
ghost use Rattle.ray_bench_code.specs.Calls.{adder_of, calls_of_code};

use act_drive::{Code, GaveUp, Session};
use act_types::{CallerId, FutureId, Method, NoMemory};
use ray_bench_work::{Prepared, Style, Work};
use std::alloc::Global;

/// What a caller does.
#[derive(Clone, Copy, Debug, PartialEq, Eq)]
pub(crate) struct Task {
    pub(crate) work: Work,
    pub(crate) me: CallerId,
}

impl Task {
    /// Waits for an answer, and goes on where it is a value.
    fn take<S: Session>(&self, session: &mut S, k: FutureId) -> Result<(), GaveUp>
        ensures { OnOk result ((S.seen session.new).calls ≡ (S.seen session.old).calls) }
    {
        session.wait(k)?;
        match session.answer(k) {
            Some(Ok(_)) => Ok(()),
            _ => Err(GaveUp),
        }
    }

    /// Submits all calls and, where each is awaited, takes its answer before the next one.
    fn submit_all<S: Session>(&self, session: &mut S, prepared: &mut Prepared) -> Result<(), GaveUp>
        ensures { OnOk result ((S.seen session.new).calls ≡
            (S.seen session.old).calls ++ calls_of_code self.now.work self.now.me self.now.work.calls) }
    {
        for place in 0..self.work.calls {
            let actor = self.work.actor_at(self.me, place);
            let args = prepared.take(session.alloc())?;
            let k = session.submit(actor, Method::Add, args)?;
            if self.work.style == Style::Wait {
                self.take(session, k)?;
            }
        }
        Ok(())
    }

    /// Takes the answers of all calls.
    fn take_all<S: Session>(&self, session: &mut S) -> Result<(), GaveUp>
        ensures { OnOk result ((S.seen session.new).calls ≡ (S.seen session.old).calls) }
    {
        for place in 0..self.work.calls {
            self.take(session, FutureId::new(place))?;
        }
        Ok(())
    }
}

/// A caller of the work, with its calls' arguments. It gives up where a call has no number as its answer.
#[derive(Drop)]
pub(crate) struct Adder {
    pub(crate) task: Task,
    pub(crate) prepared: Prepared,
}

impl Code for Adder {
    ghost use Rattle.ray_bench_code.specs.Calls.{adder_tells};

    ghost tells = { adder_tells };

    fn calls(&self) -> usize {
        self.task.work.calls as usize
    }

    fn run<S: Session>(&mut self, session: &mut S) -> Result<(), GaveUp> {
        let task = self.task;
        task.submit_all(session, &mut self.prepared)?;
        if task.work.style == Style::Future {
            task.take_all(session)?;
        }
        Ok(())
    }
}

/// The code of each caller.
pub(crate) fn adders_of(alloc: Global, work: &Work) -> Result<Vec<(CallerId, Adder)>, NoMemory>
    ensures { IfOk result (λ codes. codes.items ≡ map (adder_of work.now) (one_to work.now.callers)) }
{
    let mut adders = Vec::new(alloc);
    for before in 0..work.callers.number() {
        let me = CallerId::new(before + 1).unwrap();
        let task = Task { work: *work, me };
        let prepared = Prepared::make(alloc, work.calls)?;
        adders.push((me, Adder { task, prepared }))?;
    }
    Ok(adders)
}
