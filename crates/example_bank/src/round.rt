//! A round: the lines that are answered together.

use crate::groups::Groups;
use crate::request::{Request, Wrong, request_of};
use actors::{CallerId, NoMemory};
use std::alloc::Global;
use std::str;

/// A longer line is no request.
pub(crate) const MAX_LINE: usize = 80;

/// What becomes of a line.
#[derive(Clone, Copy, Debug)]
pub(crate) enum Line {
    /// A teller asks what it asks for.
    Asked(CallerId, Request),
    Wrong(Wrong),
}

/// The lines that are answered together, in their order.
#[derive(Drop)]
pub(crate) struct Round {
    pub(crate) lines: Vec<Line>,
}

/// What a line asks for. The words of the line before make room for its words.
fn read_line<'a>(
    words: &mut Vec<&'a str>,
    line: &'a [u8],
) -> Result<Result<Request, Wrong>, NoMemory> {
    if line.len() > MAX_LINE {
        return Ok(Err(Wrong::TooLong));
    }
    let Ok(text) = str::from_utf8(line) else {
        return Ok(Err(Wrong::NoText));
    };
    words.clear();
    for word in text.split(' ') {
        words.push(word)?;
    }
    Ok(request_of(words))
}

/// What each line asks for.
fn read_lines(alloc: Global, bytes: &[u8]) -> Result<Vec<Result<Request, Wrong>>, NoMemory> {
    let mut read = Vec::new(alloc);
    let mut words = Vec::new(alloc);
    for line in bytes.split(|byte| *byte == b'\n') {
        read.push(read_line(&mut words, line)?)?;
    }
    Ok(read)
}

/// The groups that requests make.
fn groups_of(read: &[Result<Request, Wrong>]) -> Groups {
    let mut groups = Groups::open();
    for each in read {
        if let Ok(request) = each {
            groups.join_by(request);
        }
    }
    groups
}

impl Round {
    /// No lines.
    pub(crate) fn open(alloc: Global) -> Round {
        Round {
            lines: Vec::new(alloc),
        }
    }

    /// Lines, which newlines part, dealt to the tellers.
    pub(crate) fn read(alloc: Global, bytes: &[u8]) -> Result<Round, NoMemory> {
        let read = read_lines(alloc, bytes)?;
        let groups = groups_of(&read);
        let mut lines = Vec::with_capacity(alloc, read.len())?;
        for each in &read {
            lines.push(match each {
                Ok(request) => Line::Asked(groups.teller_of(request), *request),
                Err(wrong) => Line::Wrong(*wrong),
            })?;
        }
        Ok(Round { lines })
    }

    /// What a teller is to ask, in order.
    pub(crate) fn requests_of(
        &self,
        alloc: Global,
        teller: CallerId,
    ) -> Result<Vec<Request>, NoMemory> {
        let mut requests = Vec::new(alloc);
        for line in &self.lines {
            if let Line::Asked(asked, request) = line {
                if *asked == teller {
                    requests.push(*request)?;
                }
            }
        }
        Ok(requests)
    }
}
