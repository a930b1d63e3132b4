//! The service: rounds of lines, until the input ends.

use crate::answers::answers;
use crate::feed::Feed;
use crate::round::Round;
use crate::stop::Stop;
use crate::teller::Teller;
use actors::{CallerId, Cast, Joined, NoMemory, Past, Service};
use example_kinds::Bank;
use std::alloc::Global;
use std::io::{Read, Write};

/// The tellers are numbered from 1.
pub(crate) const TELLERS: u8 = 8;

/// A desk, which takes lines in and gives answers out.
#[derive(Drop)]
pub(crate) struct Desk<'a, R, W> {
    alloc: Global,
    reader: &'a mut R,
    writer: &'a mut W,
    feed: Feed,
    round: Round,
}

impl<'a, R, W> Desk<'a, R, W> {
    /// A desk that took nothing in.
    pub(crate) fn open(alloc: Global, reader: &'a mut R, writer: &'a mut W) -> Desk<'a, R, W> {
        Desk {
            alloc,
            reader,
            writer,
            feed: Feed::open(alloc),
            round: Round::open(alloc),
        }
    }
}

/// Each teller with what it is to ask.
fn tellers(alloc: Global, round: &Round) -> Result<Vec<(CallerId, Teller)>, NoMemory> {
    let mut tellers = Vec::with_capacity(alloc, TELLERS as usize)?;
    for number in 1..=TELLERS {
        let caller = CallerId::new(number).unwrap();
        let requests = round.requests_of(alloc, caller)?;
        tellers.push((caller, Teller { requests }))?;
    }
    Ok(tellers)
}

/// Writes a text, and sees to it that it is read.
fn write_out<W: Write>(writer: &mut W, text: &str) -> Result<(), Stop> {
    if writer.write_all(text.as_bytes()).is_err() || writer.flush().is_err() {
        return Err(Stop::Writing);
    }
    Ok(())
}

impl<'a, R: Read + Drop, W: Write + Drop> Service<Bank> for Desk<'a, R, W> {
    type One = Teller;

    // Its answers are all that it looks at.
    type Log = Past;

    type Fault = Stop;

    fn codes(&mut self, _casts: &[Cast<Bank>]) -> Result<Option<Vec<(CallerId, Teller)>>, Stop> {
        let Some(lines) = self.feed.next(self.alloc, self.reader)? else {
            return Ok(None);
        };
        self.round = Round::read(self.alloc, &lines)?;
        Ok(Some(tellers(self.alloc, &self.round)?))
    }

    fn look(&mut self, joined: &Joined<Bank, Past>) -> Result<(), Stop> {
        let text = answers(self.alloc, &self.round, &joined.owners)?;
        write_out(self.writer, text.as_str())
    }
}
