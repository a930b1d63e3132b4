//! What a caller does and is told, a line for each.

use act_drive::GaveUp;
use act_types::CallerId;
use std::fmt::Display;

/// Where a caller's lines are written.
#[derive(Clone, Copy)]
pub(crate) struct Trace<'a, R> {
    pub(crate) rt: &'a R,
    pub(crate) me: CallerId,
}

impl<'a, R: Print> Trace<'a, R> {
    /// Writes what the caller asks for.
    pub(crate) fn write_ask<D: Display + Drop>(&self, verb: &str, what: D) -> Result<(), GaveUp> {
        let me = self.me;
        println!(self.rt; "{verb} {me} {what}").map_err(|_| GaveUp)
    }

    /// Writes that its code comes to an end.
    pub(crate) fn write_end(&self, verb: &str) -> Result<(), GaveUp> {
        let me = self.me;
        println!(self.rt; "{verb} {me}").map_err(|_| GaveUp)
    }

    /// Writes what it is told.
    pub(crate) fn write_told<D: Display + Drop>(&self, what: D) -> Result<(), GaveUp> {
        self.write_ask("told", what)
    }

    /// Writes why what it asked for is not done.
    pub(crate) fn write_refusal<D: Display + Drop>(&self, why: D) -> Result<(), GaveUp> {
        let me = self.me;
        println!(self.rt; "told {me} refused {why}").map_err(|_| GaveUp)
    }
}
