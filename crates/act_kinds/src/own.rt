//! Kinds of one's own: what they mean, and what helps to write one.

ghost use Rattle.std.specs.Prelude.{◌≡◌, [], ◌∷◌, ◌++◌, ℕ, List, map, IfOk, OnOk, OnErr};
ghost use Rattle.std.specs.String.{string_bytes};
ghost use Rattle.act_types.specs.Own.{Ask, StepOf};
ghost use Rattle.act_types.specs.Texts.{one_line, shown_byte};
ghost use Rattle.act_rules.specs.RunList.{Answer};
ghost use Rattle.act_rules.specs.OwnRuns.{RunsByItsSteps, HoldsInEachRun};

use act_types::NoMemory;
use std::alloc::{AllocError, Global};

/// What a kind of one's own means: its states, what a call does, and how a state is written.
pub trait Meaning {
    ghost State: { Type 0 };

    ghost step: { StepOf State };

    ghost written: { State → List ℕ };

    /// A property of what was told so far, and of the state.
    ghost holds: { List (Ask × Answer) → State → Type 0 };
}

/// The runs of such a kind answer by its steps, and what each step keeps holds after each of them.
#[tactic(none)]
pub fn runs_by_its_steps<M: Meaning>()
    ensures steps { RunsByItsSteps M.step M.written }
    ensures kept { HoldsInEachRun M.step M.written M.holds }
{}

/// Appends a byte, or a `?` where it is neither printed nor a space.
fn push_shown(line: &mut String, byte: u8) -> Result<(), AllocError>
    ensures { OnOk result (string_bytes line.new ≡ string_bytes line.old ++ shown_byte byte ∷ []) }
{
    let shown = if (32..=126).contains(&byte) {
        byte
    } else {
        b'?'
    };
    line.push(shown as char)
}

/// The text with a `?` for each byte that is neither printed nor a space.
fn shown_text(alloc: Global, text: &[u8]) -> Result<String, NoMemory>
    ensures { IfOk result (λ line. string_bytes line ≡ map shown_byte text.now) }
{
    let mut line = String::new(alloc);
    for byte in text {
        push_shown(&mut line, *byte)?;
    }
    Ok(line)
}

/// The text as a part of one line.
fn as_one_line(alloc: Global, text: &str) -> Result<String, NoMemory>
    ensures { IfOk result (λ line. string_bytes line ≡ one_line text.now) }
{
    match text.as_bytes() {
        [] => Ok(String::from_str(alloc, "?")?),
        bytes => shown_text(alloc, bytes),
    }
}

/// Appends a state's text as a part of one line, or leaves the text as it was. A byte that is neither printed nor a
/// space is written as `?`, and so is a text without bytes.
pub fn append_line(text: &mut String, line: &str) -> Result<(), NoMemory>
    ensures ok { OnOk result (string_bytes text.new ≡ string_bytes text.old ++ one_line line.now) }
    ensures err { OnErr result (string_bytes text.new ≡ string_bytes text.old) }
{
    let line = as_one_line(*text.allocator(), line)?;
    text.push_str(line.as_str())?;
    Ok(())
}
