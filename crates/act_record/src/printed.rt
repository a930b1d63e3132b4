//! Roles and events as a script of events spells them.
//!
//! No contract says so: what was written here is read again, and compared.

use act_rules::{Event, KindName, Role};
use act_types::{ActorId, Arg, CallerId, ListOf, Method, NoMemory};
use std::alloc::{AllocError, Global};
use std::fmt::Display;

/// The word of a kind.
fn kind_word(kind: KindName) -> &'static str {
    match kind {
        KindName::Counter => "counter",
        KindName::Table => "table",
        KindName::Account => "account",
        KindName::ListKind => "list",
    }
}

/// Adds the line of a role.
fn push_role(text: &mut String, role: &Role) -> Result<(), AllocError> {
    let kind = kind_word(role.kind);
    write!(text, "actor {} {kind}", role.actor)?;
    if let Some(limit) = role.pending {
        write!(text, " max {limit}")?;
    }
    for caller in role.callers.as_slice() {
        write!(text, " {caller}")?;
    }
    text.push('\n')
}

/// Adds an argument, after a space.
fn push_arg(text: &mut String, arg: &Arg) -> Result<(), AllocError> {
    match arg {
        Arg::Plain(value) => write!(text, " {value}"),
        Arg::Fut(future) => write!(text, " @{future}"),
    }
}

/// Adds the line of a call that is submitted.
fn push_submit(
    text: &mut String,
    caller: CallerId,
    actor: ActorId,
    method: &Method,
    args: &ListOf<Arg>,
) -> Result<(), AllocError> {
    write!(text, "submit {caller} {actor} {method}")?;
    for arg in args.as_slice() {
        push_arg(text, arg)?;
    }
    text.push('\n')
}

/// Adds the line of an event: its word, and whom or what it is about.
fn push_word<T: Display>(text: &mut String, word: &str, of: &T) -> Result<(), AllocError> {
    writeln!(text, "{word} {of}")
}

/// Adds the line of an event: its word, and the two that it is about.
fn push_words<T: Display, U: Display>(
    text: &mut String,
    word: &str,
    one: &T,
    other: &U,
) -> Result<(), AllocError> {
    writeln!(text, "{word} {one} {other}")
}

/// Adds the line of an event.
fn push_event(text: &mut String, event: &Event) -> Result<(), AllocError> {
    match event {
        Event::Submit(caller, actor, method, args) => {
            push_submit(text, *caller, *actor, method, args)
        }
        Event::Copy(caller, actor) => push_words(text, "copy", caller, actor),
        Event::Release(caller, actor) => push_words(text, "release", caller, actor),
        Event::Send(caller, future) => push_words(text, "send", caller, future),
        Event::Deliver(place) => push_word(text, "deliver", place),
        Event::Run(actor, caller) => push_words(text, "run", actor, caller),
        Event::Collect(place) => push_word(text, "collect", place),
        Event::AskKill(caller, actor) => push_words(text, "kill", caller, actor),
        Event::TakeKill(actor) => push_word(text, "take", actor),
        Event::Tell(actor, caller) => push_words(text, "tell", actor, caller),
        Event::Retire(actor) => push_word(text, "retire", actor),
    }
}

/// The script of these roles and events.
pub(crate) fn play_text(
    alloc: Global,
    roles: &[Role],
    events: &[Event],
) -> Result<String, NoMemory> {
    let mut text = String::new(alloc);
    for role in roles {
        push_role(&mut text, role)?;
    }
    for event in events {
        push_event(&mut text, event)?;
    }
    Ok(text)
}
