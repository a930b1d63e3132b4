//! What is told of ends.

ghost use Rattle.std.specs.Prelude.{◌≡◌, ◌++◌, true, codes, IfOk, string_bytes};
ghost use Rattle.ray_explore.specs.Told.{IsEndText};

use act_ends::End;
use std::alloc::{AllocError, Global};

/// The lines of an end and those of its play, each below a line that says so.
pub(crate) fn end_text(alloc: Global, number: u64, end: &End) -> Result<Vec<u8>, AllocError>
    ensures { IfOk result (λ text. IsEndText (string_bytes end.now.lines) end.now.play.items text.items) }
{
    let head = format!(in alloc; "end {number}\n")?;
    let mut text = Vec::from_slice(alloc, head.as_bytes())?;
    text.extend_from_slice(end.lines.as_bytes())?;
    text.extend_from_slice(b"play\n")?;
    text.extend_from_slice(&end.play)?;
    Ok(text)
}

/// Says `whole` only where all was searched.
pub(crate) fn word_of(is_whole: bool) -> &'static str
    ensures { result.now ≡ codes "whole" → is_whole ≡ true }
{
    if is_whole { "whole" } else { "part" }
}

/// The last line: whether all was searched, and how many ends there were.
pub(crate) fn closing_line(alloc: Global, word: &str, ends: u64) -> Result<String, AllocError> {
    format!(in alloc; "{word}: {ends} ends\n")
}

/// The same, with how many states there were.
pub(crate) fn closing_states(
    alloc: Global,
    word: &str,
    ends: u64,
    states: usize,
) -> Result<String, AllocError> {
    format!(in alloc; "{word}: {ends} ends, {states} states\n")
}
