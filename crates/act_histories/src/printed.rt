//! A play as the lines of a script.

use act_rules::{Event, KindName, Role};
use act_types::{Arg, CallerId};
use std::alloc::{AllocError, Global};
use std::fmt::Display;

/// The word of a kind.
fn kind_word(kind: KindName) -> &'static str {
    match kind {
        KindName::Counter => "counter",
        KindName::Table => "table",
        KindName::Account => "account",
        KindName::ListKind => "list",
    }
}

/// Adds a thing, and what stands before it. All that `write!` does would stand in the proof at each call.
pub(crate) fn push_behind<T: Display>(
    text: &mut String,
    before: &str,
    one: &T,
) -> Result<(), AllocError> {
    write!(text, "{before}{one}")
}

/// Adds callers, a space before each.
fn push_callers(text: &mut String, callers: &[CallerId]) -> Result<(), AllocError> {
    for caller in callers {
        push_behind(text, " ", caller)?;
    }
    Ok(())
}

/// Adds the line of a role.
fn push_role(text: &mut String, role: &Role) -> Result<(), AllocError> {
    let actor = role.actor;
    let kind = kind_word(role.kind);
    write!(text, "actor {actor} {kind}")?;
    if let Some(limit) = role.pending {
        push_behind(text, " max ", &limit)?;
    }
    push_callers(text, role.callers.as_slice())?;
    text.push('\n')
}

/// Adds arguments as they are submitted, a space before each.
fn push_args(text: &mut String, args: &[Arg]) -> Result<(), AllocError> {
    for arg in args {
        match arg {
            Arg::Plain(value) => push_behind(text, " ", value)?,
            Arg::Fut(future) => push_behind(text, " @", future)?,
        }
    }
    Ok(())
}

/// Adds the word of an event, and whom or what it is about.
fn push_word<T: Display>(text: &mut String, word: &str, of: &T) -> Result<(), AllocError> {
    write!(text, "{word} {of}")
}

/// Adds the word of an event, and the two that it is about.
fn push_words<T: Display, U: Display>(
    text: &mut String,
    word: &str,
    one: &T,
    other: &U,
) -> Result<(), AllocError> {
    write!(text, "{word} {one} {other}")
}

/// Adds an event, without the end of its line.
pub(crate) fn push_event(text: &mut String, event: &Event) -> Result<(), AllocError> {
    match event {
        Event::Submit(c, a, method, args) => {
            write!(text, "submit {c} {a} {method}")?;
            push_args(text, args.as_slice())
        }
        Event::Copy(c, a) => push_words(text, "copy", c, a),
        Event::Release(c, a) => push_words(text, "release", c, a),
        Event::AskKill(c, a) => push_words(text, "kill", c, a),
        Event::Send(c, k) => push_words(text, "send", c, k),
        Event::Deliver(i) => push_word(text, "deliver", i),
        Event::Run(a, c) => push_words(text, "run", a, c),
        Event::Collect(j) => push_word(text, "collect", j),
        Event::TakeKill(a) => push_word(text, "take", a),
        Event::Tell(a, c) => push_words(text, "tell", a, c),
        Event::Retire(a) => push_word(text, "retire", a),
    }
}

/// The lines of roles and events.
pub(crate) fn play_text(
    alloc: Global,
    roles: &[Role],
    events: &[Event],
) -> Result<String, AllocError> {
    let mut text = String::new(alloc);
    for role in roles {
        push_role(&mut text, role)?;
    }
    for event in events {
        push_event(&mut text, event)?;
        text.push('\n')?;
    }
    Ok(text)
}
