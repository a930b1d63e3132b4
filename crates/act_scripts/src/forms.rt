//! The forms of line.

ghost use Rattle.std.specs.Prelude.{◌≡◌, ℕ, List, map, IfOk};
ghost use Rattle.act_scripts.specs.Gives.{Gives};
ghost use Rattle.act_rules.specs.Submissions.{IsLimit};
ghost use Rattle.act_scripts.specs.Spelled.{IsLineOf};
ghost use Rattle.act_rules.specs.declared.script.Mode.TheVariants.{Play, Threads};
ghost use Rattle.act_rules.specs.Words.{all_kinds, caller_at, actor_at, number_at};
ghost use Rattle.act_rules.specs.Grammar.{args_at, callers_at, some_callers_at, limited_at, naming_at, role_at, submit_at, one_at, two_at, play_forms, thread_forms, forms_of, form_at};

use crate::line::{BAD_LINE, LineFault};
use crate::words::{actor_of, arg_of, caller_of, kind_of, limit_of, method_of, number_of};
use act_rules::{Event, Line, Mode, Role, Step};
use act_types::{ActorId, Arg, CallerId, FutureId, ListOf, Method};
use std::alloc::Global;

/// The arguments that words spell.
fn args_of(alloc: Global, words: &[&str]) -> Result<ListOf<Arg>, LineFault>
    ensures { Gives (λ x. x) result (args_at (map (λ w. w.now) words.now)) }
{
    let mut args = ListOf::with_capacity(alloc, words.len())?;
    for word in words {
        args.push(arg_of(alloc, word)?)?;
    }
    Ok(args)
}

/// The callers that one or more words spell.
fn callers_of(alloc: Global, words: &[&str]) -> Result<ListOf<CallerId>, LineFault>
    ensures { Gives (λ x. x) result (some_callers_at (map (λ w. w.now) words.now)) }
{
    if words.is_empty() {
        return Err(BAD_LINE);
    }
    let mut callers = ListOf::with_capacity(alloc, words.len())?;
    for word in words {
        callers.push(caller_of(word)?)?;
    }
    Ok(callers)
}

/// A limit and the callers, from the words after `max`.
fn limited_of(alloc: Global, words: &[&str]) -> Result<(Option<u32>, ListOf<CallerId>), LineFault>
    ensures said { Gives (λ x. x) result (limited_at (map (λ w. w.now) words.now)) }
    ensures limit { IfOk result (λ naming. IsLimit naming.0) }
{
    match words {
        [number, callers @ ..] => {
            let limit = limit_of(number)?;
            let callers = callers_of(alloc, callers)?;
            Ok((Some(limit), callers))
        }
        _ => Err(BAD_LINE),
    }
}

/// The limit, if there is one, and the callers, from the words after an actor's kind.
#[tactic(auto, unfolding(act_rules::specs::Grammar::naming_at))]
fn naming_of(alloc: Global, words: &[&str]) -> Result<(Option<u32>, ListOf<CallerId>), LineFault>
    ensures said { Gives (λ x. x) result (naming_at (map (λ w. w.now) words.now)) }
    ensures limit { IfOk result (λ naming. IsLimit naming.0) }
{
    let [head, rest @ ..] = words else {
        return Err(BAD_LINE);
    };
    if *head == "max" {
        return limited_of(alloc, rest);
    }
    let callers = callers_of(alloc, words)?;
    Ok((None, callers))
}

/// A role, from the words after `actor`.
#[tactic(auto, unfolding(act_rules::specs::Grammar::role_at))]
fn role_of(alloc: Global, words: &[&str]) -> Result<Role, LineFault>
    ensures said { Gives (λ x. x) result (role_at all_kinds (map (λ w. w.now) words.now)) }
    ensures limit { IfOk result (λ role. IsLimit role.pending) }
{
    match words {
        [actor, kind, naming @ ..] => {
            let actor = actor_of(actor)?;
            let kind = kind_of(kind)?;
            let (pending, callers) = naming_of(alloc, naming)?;
            Ok(Role {
                actor,
                callers,
                kind,
                pending,
            })
        }
        _ => Err(BAD_LINE),
    }
}

/// What a submission names, from the words after `submit`.
#[tactic(auto, unfolding(act_rules::specs::Grammar::submit_at))]
fn call_of(
    alloc: Global,
    words: &[&str],
) -> Result<(CallerId, ActorId, Method, ListOf<Arg>), LineFault>
    ensures { (f : ℕ → ℕ → Method → List Arg → Line) →
        Gives (λ call. f call.0 call.1 call.2 call.3) result (submit_at f (map (λ w. w.now) words.now)) }
{
    match words {
        [caller, actor, method, args @ ..] => {
            let caller = caller_of(caller)?;
            let actor = actor_of(actor)?;
            let method = method_of(method)?;
            let args = args_of(alloc, args)?;
            Ok((caller, actor, method, args))
        }
        _ => Err(BAD_LINE),
    }
}

/// The caller and the actor of a form that has these two words.
fn caller_and_actor(words: &[&str]) -> Result<(CallerId, ActorId), LineFault>
    ensures { (f : ℕ → ℕ → Line) →
        Gives (λ pair. f pair.0 pair.1) result (two_at f caller_at actor_at (map (λ w. w.now) words.now)) }
{
    match words {
        [caller, actor] => {
            let caller = caller_of(caller)?;
            let actor = actor_of(actor)?;
            Ok((caller, actor))
        }
        _ => Err(BAD_LINE),
    }
}

/// The actor and the caller of a form that has these two words.
fn actor_and_caller(words: &[&str]) -> Result<(ActorId, CallerId), LineFault>
    ensures { (f : ℕ → ℕ → Line) →
        Gives (λ pair. f pair.0 pair.1) result (two_at f actor_at caller_at (map (λ w. w.now) words.now)) }
{
    match words {
        [actor, caller] => {
            let actor = actor_of(actor)?;
            let caller = caller_of(caller)?;
            Ok((actor, caller))
        }
        _ => Err(BAD_LINE),
    }
}

/// The number of a form that has this one word.
fn only_number(words: &[&str]) -> Result<u32, LineFault>
    ensures { (f : ℕ → Line) → Gives f result (one_at f number_at (map (λ w. w.now) words.now)) }
{
    match words {
        [number] => number_of(number),
        _ => Err(BAD_LINE),
    }
}

/// The actor of a form that has this one word.
fn only_actor(words: &[&str]) -> Result<ActorId, LineFault>
    ensures { (f : ℕ → Line) → Gives f result (one_at f actor_at (map (λ w. w.now) words.now)) }
{
    match words {
        [actor] => actor_of(actor),
        _ => Err(BAD_LINE),
    }
}

/// A copy, from the words after `copy`.
fn copy_of(words: &[&str]) -> Result<Line, LineFault>
    ensures { Gives (λ x. x) result
        (two_at (λ c a. Line.Event (Event.Copy c a)) caller_at actor_at (map (λ w. w.now) words.now)) }
{
    let (caller, actor) = caller_and_actor(words)?;
    Ok(Line::Event(Event::Copy(caller, actor)))
}

/// A release, from the words after `release`.
fn release_of(words: &[&str]) -> Result<Line, LineFault>
    ensures { Gives (λ x. x) result
        (two_at (λ c a. Line.Event (Event.Release c a)) caller_at actor_at (map (λ w. w.now) words.now)) }
{
    let (caller, actor) = caller_and_actor(words)?;
    Ok(Line::Event(Event::Release(caller, actor)))
}

/// The asking for a kill, from the words after `kill`.
fn kill_of(words: &[&str]) -> Result<Line, LineFault>
    ensures { Gives (λ x. x) result
        (two_at (λ c a. Line.Event (Event.AskKill c a)) caller_at actor_at (map (λ w. w.now) words.now)) }
{
    let (caller, actor) = caller_and_actor(words)?;
    Ok(Line::Event(Event::AskKill(caller, actor)))
}

/// The caller and the future of a form that has these two words.
fn caller_and_future(words: &[&str]) -> Result<(CallerId, FutureId), LineFault>
    ensures { (f : ℕ → ℕ → Line) →
        Gives (λ pair. f pair.0 pair.1) result (two_at f caller_at number_at (map (λ w. w.now) words.now)) }
{
    match words {
        [caller, future] => {
            let caller = caller_of(caller)?;
            let future = FutureId::new(number_of(future)?);
            Ok((caller, future))
        }
        _ => Err(BAD_LINE),
    }
}

/// A step that copies, from the words after `copy`.
fn copy_step_of(words: &[&str]) -> Result<Line, LineFault>
    ensures { Gives (λ x. x) result
        (two_at (λ c a. Line.Step c (Step.Copy a)) caller_at actor_at (map (λ w. w.now) words.now)) }
{
    let (caller, actor) = caller_and_actor(words)?;
    Ok(Line::Step(caller, Step::Copy(actor)))
}

/// A step that releases, from the words after `release`.
fn release_step_of(words: &[&str]) -> Result<Line, LineFault>
    ensures { Gives (λ x. x) result
        (two_at (λ c a. Line.Step c (Step.Release a)) caller_at actor_at (map (λ w. w.now) words.now)) }
{
    let (caller, actor) = caller_and_actor(words)?;
    Ok(Line::Step(caller, Step::Release(actor)))
}

/// A step that asks for a kill, from the words after `kill`.
fn kill_step_of(words: &[&str]) -> Result<Line, LineFault>
    ensures { Gives (λ x. x) result
        (two_at (λ c a. Line.Step c (Step.Kill a)) caller_at actor_at (map (λ w. w.now) words.now)) }
{
    let (caller, actor) = caller_and_actor(words)?;
    Ok(Line::Step(caller, Step::Kill(actor)))
}

/// What the words of a line say in a play, by the form that the first word names.
#[tactic(auto, unfolding(act_rules::specs::Grammar::form_at, act_rules::specs::Grammar::play_forms))]
fn event_form_of(alloc: Global, words: &[&str]) -> Result<Line, LineFault>
    ensures said { Gives (λ x. x) result (form_at play_forms (map (λ w. w.now) words.now)) }
    ensures of_mode { IfOk result (IsLineOf Play) }
{
    let [head, words @ ..] = words else {
        return Err(BAD_LINE);
    };
    // Those that most lines of a play have come first.
    match *head {
        "submit" => {
            let (caller, actor, method, args) = call_of(alloc, words)?;
            Ok(Line::Event(Event::Submit(caller, actor, method, args)))
        }
        "send" => {
            let (caller, future) = caller_and_future(words)?;
            Ok(Line::Event(Event::Send(caller, future)))
        }
        "deliver" => Ok(Line::Event(Event::Deliver(only_number(words)?))),
        "run" => {
            let (actor, caller) = actor_and_caller(words)?;
            Ok(Line::Event(Event::Run(actor, caller)))
        }
        "collect" => Ok(Line::Event(Event::Collect(only_number(words)?))),
        "actor" => Ok(Line::Role(role_of(alloc, words)?)),
        "copy" => copy_of(words),
        "release" => release_of(words),
        "kill" => kill_of(words),
        "take" => Ok(Line::Event(Event::TakeKill(only_actor(words)?))),
        "tell" => {
            let (actor, caller) = actor_and_caller(words)?;
            Ok(Line::Event(Event::Tell(actor, caller)))
        }
        "retire" => Ok(Line::Event(Event::Retire(only_actor(words)?))),
        _ => Err(BAD_LINE),
    }
}

/// What the words of a line say in threads, by the form that the first word names.
#[tactic(auto, unfolding(act_rules::specs::Grammar::form_at, act_rules::specs::Grammar::thread_forms))]
fn step_form_of(alloc: Global, words: &[&str]) -> Result<Line, LineFault>
    ensures said { Gives (λ x. x) result (form_at thread_forms (map (λ w. w.now) words.now)) }
    ensures of_mode { IfOk result (IsLineOf Threads) }
{
    let [head, words @ ..] = words else {
        return Err(BAD_LINE);
    };
    match *head {
        "actor" => Ok(Line::Role(role_of(alloc, words)?)),
        "submit" => {
            let (caller, actor, method, args) = call_of(alloc, words)?;
            Ok(Line::Step(caller, Step::Submit(actor, method, args)))
        }
        "copy" => copy_step_of(words),
        "release" => release_step_of(words),
        "kill" => kill_step_of(words),
        "await" => {
            let (caller, future) = caller_and_future(words)?;
            Ok(Line::Step(caller, Step::Await(future)))
        }
        _ => Err(BAD_LINE),
    }
}

/// What the words of a line say in this mode, by the form that the first word names.
pub(crate) fn form_of(alloc: Global, mode: Mode, words: &[&str]) -> Result<Line, LineFault>
    ensures said { Gives (λ x. x) result (form_at (forms_of mode) (map (λ w. w.now) words.now)) }
    ensures of_mode { IfOk result (IsLineOf mode) }
{
    match mode {
        Mode::Play => event_form_of(alloc, words),
        Mode::Threads => step_form_of(alloc, words),
    }
}
