//! An answer as a report has it.

ghost use Rattle.std.specs.Prelude.{◌≡◌, ◌++◌, Some, OnOk, OnErr, string_bytes};
ghost use Rattle.act_types.specs.Texts.{answer_text as written};

use act_types::{Answer, NoMemory};
use std::fmt;

/// Prints an answer as a report has it: its value, as `5`, `"k"` or `unit`, or the word of its fault, as `NoKey`.
#[derive(Clone, Copy, Debug)]
pub struct Shown<'a>(pub &'a Answer);

impl fmt::Display for Shown<'_> {
    ghost output = { λ shown. Some (written shown.0.now) };

    fn fmt<W: fmt::Write>(&self, f: &mut fmt::Formatter<W>) -> fmt::Result {
        match self.0 {
            Ok(value) => write!(f, "{value}"),
            Err(fault) => write!(f, "{fault}"),
        }
    }
}

/// Adds an answer as a report has it to a text, which refused memory leaves as it was.
pub fn answer_text(answer: &Answer, text: &mut String) -> Result<(), NoMemory>
    ensures ok { OnOk result (string_bytes text.new ≡ string_bytes text.old ++ written answer.now) }
    ensures err { OnErr result (string_bytes text.new ≡ string_bytes text.old) }
{
    let shown = Shown(answer).to_string(*text.allocator())?;
    text.push_str(shown.as_str())?;
    Ok(())
}
