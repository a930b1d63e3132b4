//! Lines as they come in.

use crate::round::MAX_LINE;
use crate::stop::Stop;
use std::alloc::Global;
use std::io::Read;
use std::mem::replace;

/// How many bytes are read at once: about three thousand requests.
const CHUNK: usize = 65_536;

/// Bytes that were read, and of which no line is complete.
#[derive(Drop)]
pub(crate) struct Feed {
    held: Vec<u8>,
    ended: bool,
}

impl Feed {
    /// Nothing was read.
    pub(crate) fn open(alloc: Global) -> Feed {
        Feed {
            held: Vec::new(alloc),
            ended: false,
        }
    }

    /// Reads what is there, and waits where nothing is. Of a line that is too long it keeps so much as shows that.
    fn read<R: Read>(&mut self, reader: &mut R) -> Result<(), Stop> {
        self.held.truncate(MAX_LINE + 1);
        let start = self.held.len();
        self.held.resize(start + CHUNK, 0)?;
        let Ok(count) = reader.read(&mut self.held[start..]) else {
            return Err(Stop::Reading);
        };
        self.held.truncate(start + count);
        if count == 0 {
            self.ended = true;
            if start > 0 {
                self.held.push(b'\n')?;
            }
        }
        Ok(())
    }

    /// The held lines that are complete, without the last newline.
    fn cut(&mut self, alloc: Global) -> Result<Option<Vec<u8>>, Stop> {
        let Some(end) = self.held.iter().rposition(|byte| *byte == b'\n') else {
            return Ok(None);
        };
        let mut rest = Vec::new(alloc);
        rest.extend_from_slice(&self.held[end + 1..])?;
        self.held.truncate(end);
        Ok(Some(replace(&mut self.held, rest)))
    }

    /// The next lines, as many as are there, and none once the input has ended.
    pub(crate) fn next<R: Read>(
        &mut self,
        alloc: Global,
        reader: &mut R,
    ) -> Result<Option<Vec<u8>>, Stop> {
        for _ in 0..u64::MAX {
            let lines = self.cut(alloc)?;
            if lines.is_some() || self.ended {
                return Ok(lines);
            }
            self.read(reader)?;
        }
        Ok(None)
    }
}
