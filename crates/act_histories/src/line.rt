//! What a line tells of a future, of an actor or of a run.

use crate::history::{Ending, Kept};
use act_rules::{KindName, RunItem};
use act_scripts::{
    BAD_LINE, LineFault, actor_of, caller_of, kind_of, method_of, number_of, value_of,
};
use act_types::{ActorId, Answer, CallerId, Fault, FutureId, Settled, SmallList};
use std::alloc::Global;

/// What a line tells.
#[derive(Drop)]
pub(crate) enum Told {
    /// What the caller keeps of its call to the actor.
    Future(CallerId, FutureId, ActorId, Kept),
    /// How the actor is left, and of which kind it is, where that is told.
    End(ActorId, Ending, Option<KindName>),
    /// The call that stands at this place of the actor's run list.
    Run(ActorId, u32, RunItem),
}

/// The caller's future that a word names, as `c1.0`.
fn future_of(word: &str) -> Result<(CallerId, FutureId), LineFault> {
    match word.split_once('.') {
        None => Err(BAD_LINE),
        Some((caller, number)) => {
            let caller = caller_of(caller)?;
            let future = FutureId::new(number_of(number)?);
            Ok((caller, future))
        }
    }
}

/// The future of `Dependency(0)`.
fn dependency_of(word: &str) -> Result<Fault, LineFault> {
    if let Some(opened) = word.strip_prefix("Dependency(")
        && let Some(number) = opened.strip_suffix(')')
    {
        return Ok(Fault::Dependency(FutureId::new(number_of(number)?)));
    }
    Err(BAD_LINE)
}

/// The fault that a word names.
fn fault_of(word: &str) -> Result<Fault, LineFault> {
    match word {
        "NoMethod" => Ok(Fault::NoMethod),
        "BadArgs" => Ok(Fault::BadArgs),
        "Overflow" => Ok(Fault::Overflow),
        "NoKey" => Ok(Fault::NoKey),
        "BadAmount" => Ok(Fault::BadAmount),
        "Insufficient" => Ok(Fault::Insufficient),
        "NoItems" => Ok(Fault::NoItems),
        "NoItem" => Ok(Fault::NoItem),
        "KindFull" => Ok(Fault::KindFull),
        "ActorDied" => Ok(Fault::ActorDied),
        _ => dependency_of(word),
    }
}

/// The answer that a word spells.
fn answer_of(alloc: Global, word: &str) -> Result<Answer, LineFault> {
    match word.as_bytes() {
        [b'A'..=b'Z', ..] => Ok(Err(fault_of(word)?)),
        _ => Ok(Ok(value_of(alloc, word)?)),
    }
}

/// The argument of a call that ran, which a word spells.
fn settled_of(alloc: Global, word: &str) -> Result<Settled, LineFault> {
    match word.strip_prefix('!') {
        Some(number) => Ok(Settled::Bad(FutureId::new(number_of(number)?))),
        None => Ok(Settled::Good(value_of(alloc, word)?)),
    }
}

/// What the line of a future tells, from its words.
fn read_future(alloc: Global, words: &[&str]) -> Result<Told, LineFault> {
    match words {
        [name, actor, rest @ ..] => {
            let (caller, future) = future_of(name)?;
            let actor = actor_of(actor)?;
            let kept = kept_of(alloc, rest)?;
            Ok(Told::Future(caller, future, actor, kept))
        }
        _ => Err(BAD_LINE),
    }
}

/// What is kept, from the words after a future and its actor.
fn kept_of(alloc: Global, words: &[&str]) -> Result<Kept, LineFault> {
    match words {
        [mark] if *mark == "?" => Ok(Kept::Nothing),
        [mark, answer] if *mark == "=" && *answer == "*" => Ok(Kept::Something),
        [mark, answer] if *mark == "=" => Ok(Kept::Answer(answer_of(alloc, answer)?)),
        _ => Err(BAD_LINE),
    }
}

/// Looks whether each word is a value.
fn check_values(alloc: Global, words: &[&str]) -> Result<(), LineFault> {
    for word in words {
        value_of(alloc, word)?;
    }
    Ok(())
}

/// What the line of an actor tells, from the words after its name.
fn read_end(alloc: Global, actor: ActorId, words: &[&str]) -> Result<Told, LineFault> {
    match words {
        [word] if *word == "dead" => Ok(Told::End(actor, Ending::Dead, None)),
        [word, mark] if *mark == "?" => Ok(Told::End(actor, ending_of(word)?, None)),
        [word, kind, state @ ..] => {
            let ending = ending_of(word)?;
            let kind = kind_of(kind)?;
            check_values(alloc, state)?;
            Ok(Told::End(actor, ending, Some(kind)))
        }
        _ => Err(BAD_LINE),
    }
}

/// How an actor is left that has a state.
fn ending_of(word: &str) -> Result<Ending, LineFault> {
    match word {
        "live" => Ok(Ending::Live),
        "retired" => Ok(Ending::Retired),
        _ => Err(BAD_LINE),
    }
}

/// The arguments of a call that ran.
fn settled_args(alloc: Global, words: &[&str]) -> Result<SmallList<Settled>, LineFault> {
    let mut args = SmallList::with_capacity(alloc, words.len())?;
    for word in words {
        args.push(settled_of(alloc, word)?)?;
    }
    Ok(args)
}

/// What the line of a run tells, from the words after its place.
fn read_run(alloc: Global, actor: ActorId, place: u32, words: &[&str]) -> Result<Told, LineFault> {
    match words {
        [name, method, args @ ..] => {
            let (caller, future) = future_of(name)?;
            let method = method_of(method)?;
            let args = settled_args(alloc, args)?;
            let item = RunItem {
                caller,
                number: 0,
                future,
                method,
                args,
            };
            Ok(Told::Run(actor, place, item))
        }
        _ => Err(BAD_LINE),
    }
}

/// What a line tells whose first word begins as an actor's name does.
fn read_actor_line(alloc: Global, name: &str, words: &[&str]) -> Result<Told, LineFault> {
    match name.split_once('.') {
        None => read_end(alloc, actor_of(name)?, words),
        Some((actor, place)) => read_run(alloc, actor_of(actor)?, number_of(place)?, words),
    }
}

/// What the words of a line tell.
pub(crate) fn read_words(alloc: Global, words: &[&str]) -> Result<Told, LineFault> {
    let [name, rest @ ..] = words else {
        return Err(BAD_LINE);
    };
    match name.as_bytes() {
        [b'c', ..] => read_future(alloc, words),
        _ => read_actor_line(alloc, name, rest),
    }
}
