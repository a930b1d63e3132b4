//! What a caller can ask its session, each with the lines that tell of it.

use crate::call::Wanted;
use crate::trace::Trace;
use crate::walker::Walker;
use act_drive::{GaveUp, Session};
use act_types::{ActorId, FutureId};

impl<'a, R: Print> Walker<'a, R> {
    /// Tells the answer that is kept for a future, if one is, and decides by it.
    pub(crate) fn hear<S: Session>(&mut self, session: &S, k: FutureId) -> Result<(), GaveUp> {
        match session.answer(k) {
            None => self.trace.write_told(format_args!("open {k}")),
            Some(answer) => {
                self.decide(k, answer);
                match answer {
                    Ok(value) => self.trace.write_told(format_args!("answer {k} {value}")),
                    Err(fault) => self.trace.write_told(format_args!("answer {k} {fault}")),
                }
            }
        }
    }

    pub(crate) fn submit<S: Session>(
        &mut self,
        session: &mut S,
        wanted: Wanted,
    ) -> Result<(), GaveUp> {
        self.trace.write_ask("submit", &wanted)?;
        let Wanted {
            actor,
            method,
            args,
        } = wanted;
        match session.submit(actor, method, args) {
            Ok(k) => {
                self.called.push(actor)?;
                self.trace.write_told(format_args!("future {k}"))
            }
            Err(refusal) => self.trace.write_refusal(refusal),
        }
    }

    pub(crate) fn ask<S: Session>(
        &mut self,
        session: &mut S,
        wanted: Wanted,
    ) -> Result<(), GaveUp> {
        self.trace.write_ask("ask", &wanted)?;
        let Wanted {
            actor,
            method,
            args,
        } = wanted;
        match session.ask(actor, method, args) {
            Ok(k) => {
                self.called.push(actor)?;
                self.trace.write_told(format_args!("future {k}"))?;
                self.hear(session, k)
            }
            Err(refusal) => self.trace.write_refusal(refusal),
        }
    }

    pub(crate) fn wait<S: Session>(&mut self, session: &mut S, k: FutureId) -> Result<(), GaveUp> {
        self.trace.write_ask("await", k)?;
        match session.wait(k) {
            Ok(()) => self.hear(session, k),
            Err(refusal) => self.trace.write_refusal(refusal),
        }
    }

    pub(crate) fn copy<S: Session>(
        &mut self,
        session: &mut S,
        actor: ActorId,
    ) -> Result<(), GaveUp> {
        self.trace.write_ask("copy", actor)?;
        match session.copy(actor) {
            Ok(copies) => self.trace.write_told(format_args!("copies {copies}")),
            Err(refusal) => self.trace.write_refusal(refusal),
        }
    }

    pub(crate) fn release<S: Session>(
        &mut self,
        session: &mut S,
        actor: ActorId,
    ) -> Result<(), GaveUp> {
        self.trace.write_ask("release", actor)?;
        match session.release(actor) {
            Ok(()) => {
                let copies = session.holds(actor);
                self.trace.write_told(format_args!("copies {copies}"))
            }
            Err(refusal) => self.trace.write_refusal(refusal),
        }
    }

    pub(crate) fn kill<S: Session>(
        &mut self,
        session: &mut S,
        actor: ActorId,
    ) -> Result<(), GaveUp> {
        self.trace.write_ask("kill", actor)?;
        match session.kill(actor) {
            Ok(()) => self.trace.write_told("asked"),
            Err(refusal) => self.trace.write_refusal(refusal),
        }
    }

    /// Tells how many calls of an actor have no answer, and how many may have none.
    pub(crate) fn count<S: Session>(&mut self, session: &S, actor: ActorId) -> Result<(), GaveUp> {
        self.trace.write_ask("count", actor)?;
        let pending = session.pending(actor);
        match session.limit(actor) {
            None => self.trace.write_told(format_args!("pending {pending}")),
            Some(limit) => self
                .trace
                .write_told(format_args!("pending {pending} of {limit}")),
        }
    }
}
