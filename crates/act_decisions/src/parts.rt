//! The lines of what was left, beside those that a world shows.

ghost use Rattle.std.specs.Prelude.{◌≡◌, ◌≢◌, ◌≤◌, ◌++◌, ◌∷◌, ◌⊎◌, ◌==◌, ℕ, List, [], All, length, position, IsTrue, IfOk, OnOk};
ghost use Rattle.act_rules.specs.Grammar.{is_skipped};
ghost use Rattle.act_summaries.specs.Lines.{told_line, is_open, IsFilledIn, IsToldAs, AreTold};

use act_types::NoMemory;
use std::alloc::{AllocError, Global};

/// Adds a line and its end, unless it is skipped.
fn push_told(text: &mut Vec<u8>, line: &[u8]) -> Result<(), AllocError>
    ensures { OnOk result (text.new.items ≡ text.old.items ++ told_line line.now) }
{
    match line {
        [] | [b'#', ..] => {}
        _ => {
            text.extend_from_slice(line)?;
            text.push(b'\n')?;
        }
    }
    Ok(())
}

/// Whether a line leaves an answer or a state open.
fn is_open(line: &[u8]) -> bool
    ensures { result ≡ is_open line.now }
{
    line.ends_with(b" = *") || line.ends_with(b" live ?") || line.ends_with(b" retired ?")
}

/// Whether the bytes are of one line.
fn is_of_one_line(bytes: &[u8]) -> bool
    ensures plain { IsTrue result → All (λ b. b ≢ 10) bytes.now }
    ensures exact { All (λ b. b ≢ 10) bytes.now → IsTrue result }
{
    for byte in bytes {
        if *byte == b'\n' {
            return false;
        }
    }
    true
}

/// Whether a line that leaves its end open is this one, with its mark filled in.
pub fn is_filled_in(line: &[u8], shown: &[u8]) -> bool
    ensures filled { IsTrue result → IsFilledIn line.now shown.now }
    ensures exact { IsFilledIn line.now shown.now → IsTrue result }
{
    if !is_open(line) {
        return false;
    }
    let (front, _) = line.split_at(line.len() - 1);
    if !shown.starts_with(front) {
        return false;
    }
    let (_, what) = shown.split_at(front.len());
    is_of_one_line(what)
}

/// Where the first line ends, if anything ends it.
fn end_of_line(bytes: &[u8]) -> Option<usize>
    ensures { result ≡ position (λ b. b == 10) bytes.now }
{
    bytes.iter().position(|byte| *byte == b'\n')
}

/// The first line, and what stands below it.
pub fn split_line(bytes: &[u8]) -> (&[u8], &[u8])
    ensures of_one_line { All (λ b. b ≢ 10) result.0.now }
    ensures whole { (bytes.now ≡ result.0.now ++ 10 ∷ result.1.now) ⊎
        ((bytes.now ≡ result.0.now) × (result.1.now ≡ [])) }
{
    match end_of_line(bytes) {
        Some(at) => (&bytes[..at], &bytes[at + 1..]),
        None => (bytes, &[]),
    }
}

/// Adds a line that isn't skipped, filled in as the one that is shown, if it can be.
fn push_filled_in(text: &mut Vec<u8>, line: &[u8], shown: &[u8]) -> Result<(), AllocError>
    ensures made { OnOk result ((told : List ℕ) × IsToldAs line.now told ×
        (text.new.items ≡ text.old.items ++ told_line told)) }
    ensures exact { OnOk result (IsToldAs line.now shown.now → text.new.items ≡ text.old.items ++ told_line shown.now) }
{
    if is_filled_in(line, shown) {
        push_told(text, shown)
    } else {
        push_told(text, line)
    }
}

/// Whether a line of the second part is skipped.
pub(crate) fn is_skipped(line: &[u8]) -> bool
    ensures { result ≡ is_skipped line.now }
{
    matches!(line, [] | [b'#', ..])
}

/// Adds a line, unless it is skipped, filled in as the first of those that are shown, if it can be.
/// What is shown below that is left.
fn push_beside<'a>(text: &mut Vec<u8>, line: &[u8], shown: &'a [u8]) -> Result<&'a [u8], AllocError>
    ensures made { OnOk result ((told : List ℕ) × IsToldAs line.now told ×
        (text.new.items ≡ text.old.items ++ told_line told)) }
    ensures exact { IfOk result (λ left. (told more : List ℕ) → All (λ b. b ≢ 10) line.now → IsToldAs line.now told →
        shown.now ≡ told_line told ++ more →
        (text.new.items ≡ text.old.items ++ told_line told) × (left.now ≡ more)) }
{
    if is_skipped(line) {
        return Ok(shown);
    }
    let (first, left) = split_line(shown);
    push_filled_in(text, line, first)?;
    Ok(left)
}

/// The lines of the second part, without those that are skipped, and with what they leave open filled
/// in from these. Where these are what the lines tell, the text is the same.
pub(crate) fn second_part(alloc: Global, rest: &[u8], shown: &[u8]) -> Result<Vec<u8>, NoMemory>
    ensures told { IfOk result (λ text. AreTold rest.now text.items) }
    ensures exact { IfOk result (λ text. AreTold rest.now shown.now → text.items ≡ shown.now) }
{
    let mut text = Vec::new(alloc);
    let mut left = shown;
    for line in rest.split(|byte| *byte == b'\n') {
        left = push_beside(&mut text, line, left)?;
    }
    Ok(text)
}
