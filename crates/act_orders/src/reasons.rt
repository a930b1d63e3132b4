//! What is told of a history: its order, and why it isn't in order.

use crate::{Fault, Happening, History, Outcome};
use std::alloc::{AllocError, Global};

/// A history, and where each of its calls ran.
#[derive(Debug, Drop)]
pub struct Teller {
    history: History,
    places: Vec<Option<usize>>,
}

/// The item at a place, or 0.
fn at(lines: &[u32], place: usize) -> u32 {
    match lines.get(place) {
        Some(line) => *line,
        None => 0,
    }
}

fn number_at(numbers: &[usize], place: usize) -> usize {
    match numbers.get(place) {
        Some(number) => *number,
        None => 0,
    }
}

impl Teller {
    /// Looks where calls ran.
    pub fn new(alloc: Global, history: History) -> Result<Teller, AllocError> {
        let mut places = vec![in alloc; None; history.told.calls.len()]?;
        for (place, run) in history.told.runs.as_slice().iter().enumerate() {
            if let Some(known) = places.get_mut(run.call) {
                *known = Some(place);
            }
        }
        Ok(Teller { history, places })
    }

    /// Adds the name of a call, as `c1.0`.
    fn push_call(&self, text: &mut String, place: usize) -> Result<(), AllocError> {
        let caller = match self.history.told.calls.as_slice().get(place) {
            Some(call) => call.caller,
            None => 0,
        };
        let start = number_at(&self.history.lines.starts, caller);
        let number = place.saturating_sub(start);
        write!(text, "c{caller}.{number}")
    }

    /// Adds the name of a place in a run list, as `a1.0`.
    fn push_run(&self, text: &mut String, place: usize) -> Result<(), AllocError> {
        let actor = match self.history.told.runs.as_slice().get(place) {
            Some(run) => run.actor,
            None => 0,
        };
        let first = number_at(&self.history.lines.first_runs, actor);
        let number = place.saturating_sub(first);
        let name = number_at(&self.history.lines.actors, actor);
        write!(text, "a{name}.{number}")
    }

    /// Adds the name of a call's actor.
    fn push_actor(&self, text: &mut String, call: usize) -> Result<(), AllocError> {
        let name = number_at(&self.history.lines.actors, self.actor_of(call));
        write!(text, "a{name}")
    }

    fn actor_of(&self, call: usize) -> usize {
        match self.history.told.calls.as_slice().get(call) {
            Some(call) => call.actor,
            None => 0,
        }
    }

    /// The call of a run.
    fn call_of(&self, place: usize) -> usize {
        match self.history.told.runs.as_slice().get(place) {
            Some(run) => run.call,
            None => 0,
        }
    }

    /// The line of a call's run, if it ran.
    fn run_line(&self, call: usize) -> u32 {
        match self.places.get(call) {
            Some(Some(place)) => at(&self.history.lines.runs, *place),
            _ => 0,
        }
    }

    /// The line that tells of a happening.
    fn line_of(&self, happening: Happening) -> u32 {
        match happening {
            Happening::Submitted(call) => at(&self.history.lines.calls, call),
            Happening::Ran(call) => self.run_line(call),
            Happening::Answered(call) => at(&self.history.lines.outcomes, call),
        }
    }

    /// The line of an await, by the call before which it stands.
    fn await_line(&self, next: usize, answer: usize) -> u32 {
        let awaits = &self.history.lines.awaits;
        let place = awaits.partition_point(|known| (known.next, known.answer) < (next, answer));
        match awaits.get(place) {
            Some(known) => known.line,
            None => 0,
        }
    }

    /// The line that tells that one comes after the other.
    fn line_of_cause(&self, one: Happening, other: Happening) -> u32 {
        match (one, other) {
            (Happening::Submitted(next), Happening::Answered(answer)) => {
                self.await_line(next, answer)
            }
            _ => self.line_of(one),
        }
    }

    /// The line of the other, which comes before the one. A call may have run twice.
    fn line_before(&self, one: Happening, other: Happening) -> u32 {
        match (one, other) {
            (Happening::Ran(next), Happening::Ran(_)) => self.line_of_run_before(next),
            (Happening::Answered(call), Happening::Ran(_)) if self.has_died(call) => {
                self.line_of_last_run(self.actor_of(call))
            }
            _ => self.line_of(other),
        }
    }

    /// The line of what ran just before a call.
    fn line_of_run_before(&self, call: usize) -> u32 {
        match self.places.get(call) {
            Some(Some(place)) => at(&self.history.lines.runs, place.saturating_sub(1)),
            _ => 0,
        }
    }

    /// The line of what an actor ran last.
    fn line_of_last_run(&self, actor: usize) -> u32 {
        let lines = &self.history.lines;
        let end = match lines.first_runs.get(actor.saturating_add(1)) {
            Some(next) => *next,
            None => lines.runs.len(),
        };
        at(&lines.runs, end.saturating_sub(1))
    }

    /// Adds what happens.
    fn push_happening(&self, text: &mut String, happening: Happening) -> Result<(), AllocError> {
        let (word, call) = match happening {
            Happening::Submitted(call) => ("submission", call),
            Happening::Ran(call) => ("run", call),
            Happening::Answered(call) => ("answer", call),
        };
        write!(text, "the {word} of ")?;
        self.push_call(text, call)
    }

    /// Adds that one must come after the other.
    fn push_cause(
        &self,
        text: &mut String,
        one: Happening,
        other: Happening,
    ) -> Result<(), AllocError> {
        let line = self.line_of_cause(one, other);
        write!(text, "line {line}: ")?;
        self.push_happening(text, one)?;
        text.push_str(" comes after ")?;
        self.push_happening(text, other)?;
        self.push_why(text, one, other)
    }

    /// Adds why, where the two don't tell it.
    fn push_why(
        &self,
        text: &mut String,
        one: Happening,
        other: Happening,
    ) -> Result<(), AllocError> {
        match (one, other) {
            (Happening::Submitted(_), Happening::Answered(_)) => text.push_str(", by this await"),
            (Happening::Answered(call), Happening::Ran(_)) if self.has_died(call) => {
                text.push_str(", the last one of ")?;
                self.push_actor(text, call)
            }
            _ => Ok(()),
        }
    }

    fn has_died(&self, call: usize) -> bool {
        match self.history.told.calls.as_slice().get(call) {
            Some(call) => call.outcome == Outcome::Died,
            None => false,
        }
    }

    /// Adds which line is meant, and the end of this one.
    fn push_line(&self, text: &mut String, line: u32) -> Result<(), AllocError> {
        writeln!(text, " (line {line})")
    }

    /// Adds the line and the place of a run.
    fn push_at_run(&self, text: &mut String, place: usize) -> Result<(), AllocError> {
        let line = at(&self.history.lines.runs, place);
        write!(text, "line {line}: ")?;
        self.push_run(text, place)
    }

    fn push_strays(&self, text: &mut String, place: usize) -> Result<(), AllocError> {
        let call = self.call_of(place);
        self.push_at_run(text, place)?;
        text.push_str(" runs ")?;
        self.push_call(text, call)?;
        text.push_str(", which was submitted to ")?;
        self.push_actor(text, call)?;
        self.push_line(text, at(&self.history.lines.calls, call))
    }

    fn push_again(&self, text: &mut String, place: usize, first: usize) -> Result<(), AllocError> {
        self.push_at_run(text, place)?;
        text.push_str(" runs ")?;
        self.push_call(text, self.call_of(place))?;
        text.push_str(" again, after ")?;
        self.push_run(text, first)?;
        self.push_line(text, at(&self.history.lines.runs, first))
    }

    fn push_skips(&self, text: &mut String, place: usize, call: usize) -> Result<(), AllocError> {
        self.push_at_run(text, place)?;
        text.push_str(" skips ")?;
        self.push_call(text, call)?;
        match self.places.get(call) {
            Some(Some(later)) => {
                text.push_str(", which runs at ")?;
                self.push_run(text, *later)?;
                self.push_line(text, at(&self.history.lines.runs, *later))
            }
            _ => {
                text.push_str(", which doesn't run")?;
                self.push_line(text, at(&self.history.lines.calls, call))
            }
        }
    }

    fn push_no_role(&self, text: &mut String, call: usize) -> Result<(), AllocError> {
        let line = at(&self.history.lines.calls, call);
        write!(text, "line {line}: ")?;
        self.push_call(text, call)?;
        text.push_str(" is submitted to ")?;
        self.push_actor(text, call)?;
        text.push_str(", whose role doesn't name its caller\n")
    }

    fn push_alive(&self, text: &mut String, call: usize) -> Result<(), AllocError> {
        let line = at(&self.history.lines.outcomes, call);
        write!(text, "line {line}: ")?;
        self.push_call(text, call)?;
        text.push_str(" died, and ")?;
        self.push_actor(text, call)?;
        text.push_str(" isn't dead")?;
        self.push_line(text, at(&self.history.lines.ends, self.actor_of(call)))
    }

    fn push_left_out(&self, text: &mut String, call: usize) -> Result<(), AllocError> {
        let line = at(&self.history.lines.ends, self.actor_of(call));
        write!(text, "line {line}: ")?;
        self.push_actor(text, call)?;
        text.push_str(" retired, and didn't run ")?;
        self.push_call(text, call)?;
        self.push_line(text, at(&self.history.lines.calls, call))
    }

    fn push_spoiled(&self, text: &mut String, call: usize, taken: usize) -> Result<(), AllocError> {
        let line = at(&self.history.lines.outcomes, call);
        write!(text, "line {line}: ")?;
        self.push_call(text, call)?;
        text.push_str(" is answered, and takes the answer of ")?;
        self.push_call(text, taken)?;
        let why = if self.has_died(taken) {
            ", which died"
        } else {
            ", which failed"
        };
        text.push_str(why)?;
        self.push_line(text, at(&self.history.lines.outcomes, taken))
    }

    fn push_lacks(
        &self,
        text: &mut String,
        one: Happening,
        other: Happening,
    ) -> Result<(), AllocError> {
        self.push_cause(text, one, other)?;
        match other {
            Happening::Answered(call) => {
                text.push_str(", which is open")?;
                self.push_line(text, at(&self.history.lines.outcomes, call))
            }
            Happening::Submitted(call) | Happening::Ran(call) => {
                text.push_str(", which isn't told")?;
                self.push_line(text, at(&self.history.lines.calls, call))
            }
        }
    }

    fn push_no_answer(&self, text: &mut String, call: usize) -> Result<(), AllocError> {
        let line = at(&self.history.lines.outcomes, call);
        write!(text, "line {line}: ")?;
        self.push_call(text, call)?;
        text.push_str(" is open, and its caller waited for its answer")?;
        self.push_line(text, self.await_line(self.history.told.calls.len(), call))
    }

    fn push_circle(&self, text: &mut String, circle: &[Happening]) -> Result<(), AllocError> {
        for pair in circle.windows(2) {
            if let [one, other] = pair {
                self.push_cause(text, *one, *other)?;
                self.push_line(text, self.line_before(*one, *other))?;
            }
        }
        Ok(())
    }

    /// Adds the lines of a fault.
    pub fn push_fault(&self, text: &mut String, fault: &Fault) -> Result<(), AllocError> {
        match fault {
            Fault::Strays(place) => self.push_strays(text, *place),
            Fault::Again(place, first) => self.push_again(text, *place, *first),
            Fault::Skips(place, call) => self.push_skips(text, *place, *call),
            Fault::NoRole(call) => self.push_no_role(text, *call),
            Fault::Alive(call) => self.push_alive(text, *call),
            Fault::LeftOut(call) => self.push_left_out(text, *call),
            Fault::Spoiled(call, taken) => self.push_spoiled(text, *call, *taken),
            Fault::Lacks(one, other) => self.push_lacks(text, *one, *other),
            Fault::NoAnswer(call) => self.push_no_answer(text, *call),
            Fault::Circle(circle) => self.push_circle(text, circle.as_slice()),
        }
    }

    /// Adds the line of a run that tells another method than its call.
    pub fn push_renamed(&self, text: &mut String, place: usize) -> Result<(), AllocError> {
        let call = self.call_of(place);
        self.push_at_run(text, place)?;
        text.push_str(" isn't ")?;
        self.push_call(text, call)?;
        text.push_str(" as it was submitted")?;
        self.push_line(text, at(&self.history.lines.calls, call))
    }

    /// Adds the line of a happening in an order.
    pub fn push_in_order(&self, text: &mut String, happening: Happening) -> Result<(), AllocError> {
        let (word, call) = match happening {
            Happening::Submitted(call) => ("submitted", call),
            Happening::Ran(call) => ("ran", call),
            Happening::Answered(call) => ("answered", call),
        };
        self.push_call(text, call)?;
        writeln!(text, " {word}")
    }

    /// The history.
    pub fn history(&self) -> &History {
        &self.history
    }
}
