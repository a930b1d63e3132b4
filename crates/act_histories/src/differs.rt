//! What is said where the rules give other arguments or another answer than a history tells.

use crate::printed::push_behind;
use crate::reason::ToldPlace;
use act_types::{Answer, Settled};
use std::alloc::AllocError;

fn push_args(text: &mut String, args: &[Settled]) -> Result<(), AllocError> {
    if args.is_empty() {
        return text.push_str(" none");
    }
    for arg in args {
        push_behind(text, " ", arg)?;
    }
    Ok(())
}

fn push_answer(text: &mut String, answer: &Answer) -> Result<(), AllocError> {
    match answer {
        Ok(value) => push_behind(text, "", value),
        Err(fault) => push_behind(text, "", fault),
    }
}

/// Tells that the call at a place had other arguments.
pub(crate) fn push_other_args(
    text: &mut String,
    told: &ToldPlace,
    by_rules: &[Settled],
    args: &[Settled],
) -> Result<(), AllocError> {
    let ToldPlace { at, line } = *told;
    write!(text, "line {line}: the arguments at {at} are")?;
    push_args(text, by_rules)?;
    text.push_str(" by the rules, and the history tells")?;
    push_args(text, args)?;
    text.push('\n')
}

/// Tells that the call at a place had another answer, which this line tells.
pub(crate) fn push_other_answer(
    text: &mut String,
    told: &ToldPlace,
    by_rules: &Answer,
    answer: &Answer,
    of_answer: u32,
) -> Result<(), AllocError> {
    let ToldPlace { at, line } = *told;
    write!(text, "line {line}: the answer at {at} is ")?;
    push_answer(text, by_rules)?;
    text.push_str(" by the rules, and the history tells ")?;
    push_answer(text, answer)?;
    writeln!(text, " (line {of_answer})")
}
