//! What is written of a round.

use crate::request::Wrong;
use crate::round::{Line, Round};
use actors::{Answer, CallerId, FutureId, MAX_CALLERS, NoMemory, Owner};
use std::alloc::{AllocError, Global};

/// How many answers of each teller were written.
#[derive(Drop)]
struct Written {
    by_teller: [u32; MAX_CALLERS as usize + 1],
}

impl Written {
    /// The teller's next future.
    fn next(&mut self, teller: CallerId) -> FutureId {
        let next = &mut self.by_teller[teller.number() as usize];
        let future = FutureId::new(*next);
        *next = next.saturating_add(1);
        future
    }
}

/// The answer that a caller keeps for a future.
fn answer_of(owners: &[Owner], caller: CallerId, future: FutureId) -> Option<&Answer> {
    let owner = owners.iter().find(|owner| owner.id() == caller)?;
    owner.answer(future)
}

fn write_answer(text: &mut String, answer: Option<&Answer>) -> Result<(), AllocError> {
    match answer {
        Some(Ok(value)) => writeln!(text, "= {value}"),
        Some(Err(fault)) => writeln!(text, "! {fault}"),
        None => writeln!(text, "! no answer"),
    }
}

fn write_wrong(text: &mut String, wrong: Wrong) -> Result<(), AllocError> {
    writeln!(text, "? {wrong}")
}

/// A line for each line of a round, in their order, by what the tellers' callers keep.
pub(crate) fn answers(alloc: Global, round: &Round, owners: &[Owner]) -> Result<String, NoMemory> {
    let mut text = String::new(alloc);
    let mut written = Written {
        by_teller: [0; MAX_CALLERS as usize + 1],
    };
    for line in &round.lines {
        match line {
            Line::Asked(teller, _) => {
                let future = written.next(*teller);
                write_answer(&mut text, answer_of(owners, *teller, future))?;
            }
            Line::Wrong(wrong) => write_wrong(&mut text, *wrong)?,
        }
    }
    Ok(text)
}
