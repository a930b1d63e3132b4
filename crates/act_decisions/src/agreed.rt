//! Whether the lines of what was left are those of a told end, one by one.

ghost use Rattle.std.specs.Prelude.{◌≡◌, ◌↔◌, ◌≤◌, ◌<◌, ◌^◌, ◌++◌, ◌∷◌, ℕ, List, [], map, true, None, Some, Option, IfOk, IfSome, IsTrue, All, string_bytes, OnOk, decimal, codes};
ghost use Rattle.std.specs.List.{flat_map};
ghost use Rattle.std.specs.Option.{MatchOption};
ghost use Rattle.act_types.specs.Texts.{space, with_spaces, actor_text, method_text, settled_text};
ghost use Rattle.act_rules.specs.Kinds.{is_in_range};
ghost use Rattle.act_rules.specs.Laws.{is_sayable, is_sayable_method};
ghost use Rattle.act_rules.specs.Report.{future_text, one_to};
ghost use Rattle.act_summaries.specs.Stems.{Begins, IsReply, AgreesKept, AgreesEnd, AgreesRan, Agrees, IsReadable, OfCall, OfEnd, OfRun, placed, stems_of_actor};
ghost use Rattle.act_decisions.specs.Agreed.{kept_told, call_told, calls_told, ran_told, end_told, ends_told, lines_told, AgreeUpTo, AgreesWith};

use crate::parts::{is_skipped, split_line};
use act_types::{
    ActorId, CallerId, FutureId, MAX_ACTORS, MAX_CALLERS, Method, NoMemory, Settled, Value,
};
use act_walks::{Left, ToldActor, ToldCall, ToldEnd, ToldRun};
use std::alloc::{AllocError, Global};

/// The first line that isn't skipped, and what stands below it.
fn next_line(bytes: &[u8]) -> Option<(&[u8], &[u8])>
    ensures { MatchOption result (lines_told bytes.now ≡ [])
        (λ first. lines_told bytes.now ≡ first.0.now ∷ lines_told first.1.now) }
{
    let mut left = bytes;
    while !left.is_empty() {
        let (line, below) = split_line(left);
        if !is_skipped(line) {
            return Some((line, below));
        }
        left = below;
    }
    None
}

/// What stands behind this front in a line that begins with it.
fn behind<'a>(line: &'a [u8], front: &[u8]) -> Option<&'a [u8]>
    ensures { IfSome result (λ rest. line.now ≡ front.now ++ rest.now) }
{
    if !line.starts_with(front) {
        return None;
    }
    let (_, rest) = line.split_at(front.len());
    Some(rest)
}

/// Whether the bytes are these words.
fn are_words(bytes: &[u8], words: &[u8]) -> bool
    ensures { IsTrue result ↔ (bytes.now ≡ words.now) }
{
    bytes == words
}

/// Whether a line begins so.
fn begins(line: &[u8], front: &[u8]) -> bool
    ensures { IsTrue result → Begins front.now line.now }
{
    behind(line, front).is_some()
}

/// Whether the words behind a future and its actor tell a reply.
fn is_reply(words: &[u8]) -> bool
    ensures { (front : List ℕ) → IsTrue result → IsReply front (front ++ words.now) }
{
    match behind(words, b" = ") {
        Some(what) => !are_words(what, b"*") && !are_words(what, b"ActorDied"),
        None => false,
    }
}

/// Whether the words behind a future and its actor tell what is kept of the call.
fn agrees_kept(left: &Left, is_open: bool, words: &[u8]) -> bool
    ensures { (front : List ℕ) → IsTrue result → AgreesKept (kept_told left.now is_open) front (front ++ words.now) }
{
    match left {
        Left::Open => are_words(words, b" ?"),
        Left::Reply => {
            if is_open {
                are_words(words, b" = *")
            } else {
                is_reply(words)
            }
        }
        Left::Death => {
            if is_open {
                are_words(words, b" = *")
            } else {
                are_words(words, b" = ActorDied")
            }
        }
    }
}

/// The front of the line of a caller's future.
fn future_front(alloc: Global, c: CallerId, k: usize, actor: ActorId) -> Result<String, AllocError>
    ensures front { IfOk result (λ text. string_bytes text ≡ future_text c k ++ space ++ actor_text actor) }
    ensures small { actor < 2 ^ 64 }
{
    let front = format!(in alloc; "{c}.{k} {actor}")?;
    Ok(front)
}

/// Whether the line is that of the caller's call.
fn agrees_call(
    alloc: Global,
    c: CallerId,
    k: usize,
    call: &ToldCall,
    line: &[u8],
) -> Result<bool, NoMemory>
    ensures { IfOk result (λ is. IsTrue is → Agrees (OfCall c k (call_told call.now)) line.now) }
{
    let front = future_front(alloc, c, k, call.actor)?;
    match behind(line, front.as_bytes()) {
        Some(words) => Ok(agrees_kept(&call.left, call.is_open, words)),
        None => Ok(false),
    }
}

/// Whether the words behind an actor tell that it ended so.
fn agrees_ended(is_dead: bool, is_retired: bool, words: &[u8]) -> bool
    ensures { (front : List ℕ) → IsTrue result → AgreesEnd is_dead is_retired front (front ++ words.now) }
{
    if is_dead {
        !is_retired && are_words(words, b" dead")
    } else if is_retired {
        begins(words, b" retired ")
    } else {
        begins(words, b" live ")
    }
}

/// Whether the line is that of the actor's end.
fn agrees_end(alloc: Global, a: ActorId, actor: &ToldActor, line: &[u8]) -> Result<bool, NoMemory>
    ensures { IfOk result (λ is. IsTrue is → Agrees (OfEnd a actor.now.is_dead actor.now.is_retired) line.now) }
{
    let front = format!(in alloc; "{a}")?;
    match behind(line, front.as_bytes()) {
        Some(words) => Ok(agrees_ended(actor.is_dead, actor.is_retired, words)),
        None => Ok(false),
    }
}

/// Whether a script can write the number. It can write any that an `i64` holds.
fn is_in_range(number: i64) -> bool
    ensures { IsTrue result → is_in_range number ≡ true }
{
    (i64::MIN..=i64::MAX).contains(&number)
}

/// Whether a script can write the value.
pub(crate) fn is_sayable(value: &Value) -> bool
    ensures { IsTrue result → is_sayable value.now ≡ true }
{
    match value {
        Value::Unit => true,
        Value::Int(number) => is_in_range(*number),
        Value::Text(text) => text.is_good(),
    }
}

/// Whether the argument can be read back.
fn is_readable(arg: &Settled) -> bool
    ensures { IsTrue result → IsReadable arg.now }
{
    match arg {
        Settled::Good(value) => is_sayable(value),
        Settled::Bad(future) => u64::from(future.number()) < u64::MAX,
    }
}

/// Whether all arguments can be read back.
fn are_readable(args: &[Settled]) -> bool
    ensures { IsTrue result → All IsReadable args.now }
{
    for arg in args {
        if !is_readable(arg) {
            return false;
        }
    }
    true
}

/// Whether a script can write the method.
pub(crate) fn is_sayable_method(method: &Method) -> bool
    ensures { IsTrue result → is_sayable_method method.now ≡ true }
{
    !matches!(method, Method::Own(_))
}

/// Adds an argument, after a space.
fn push_arg(text: &mut String, arg: &Settled) -> Result<(), AllocError>
    ensures { OnOk result (string_bytes text.new ≡ string_bytes text.old ++ (space ++ settled_text arg.now)) }
{
    write!(text, " {arg}")
}

/// Adds arguments, a space before each.
fn push_args(text: &mut String, args: &[Settled]) -> Result<(), AllocError>
    ensures { OnOk result (string_bytes text.new
        ≡ string_bytes text.old ++ flat_map (λ arg. space ++ settled_text arg) args.now) }
{
    for arg in args {
        push_arg(text, arg)?;
    }
    Ok(())
}

/// The words of a call that ran.
fn run_words(alloc: Global, run: &ToldRun) -> Result<String, NoMemory>
    ensures { IfOk result (λ text. string_bytes text
        ≡ method_text run.now.method ++ with_spaces (map settled_text run.now.args)) }
{
    let mut text = String::from_str(alloc, run.method.word())?;
    push_args(&mut text, run.args.as_slice())?;
    Ok(text)
}

/// Whether the words are those of this call, as it ran.
fn agrees_words(alloc: Global, run: &ToldRun, words: &[u8]) -> Result<bool, NoMemory>
    ensures { IfOk result (λ is. (front : List ℕ) → IsTrue is →
        AgreesRan (Some (run.now.method, run.now.args)) front (front ++ words.now)) }
{
    if !is_sayable_method(&run.method) {
        return Ok(false);
    }
    if !are_readable(run.args.as_slice()) {
        return Ok(false);
    }
    let told = run_words(alloc, run)?;
    Ok(are_words(words, told.as_bytes()))
}

/// The front of the line of a call that an actor ran.
fn run_front(
    alloc: Global,
    a: ActorId,
    place: usize,
    c: CallerId,
    k: FutureId,
) -> Result<String, AllocError>
    ensures small { (c < 2 ^ 64) × (k < 2 ^ 64) }
    ensures front { IfOk result (λ text. string_bytes text ≡
        actor_text a ++ codes "." ++ decimal place ++ space ++ future_text c k ++ space) }
{
    let front = format!(in alloc; "{a}.{place} {c}.{k} ")?;
    Ok(front)
}

/// Whether the line is that of a call that the actor ran at this place.
fn agrees_run(
    alloc: Global,
    a: ActorId,
    place: usize,
    run: &ToldRun,
    line: &[u8],
) -> Result<bool, NoMemory>
    ensures { IfOk result (λ is. IsTrue is → Agrees (OfRun a place (ran_told run.now)) line.now) }
{
    let front = run_front(alloc, a, place, run.caller, run.future)?;
    let Some(words) = behind(line, front.as_bytes()) else {
        return Ok(false);
    };
    agrees_words(alloc, run, words)
}

/// What is left behind the line of the caller's call, where it comes next.
fn after_call<'a>(
    alloc: Global,
    c: CallerId,
    k: usize,
    call: &ToldCall,
    rest: &'a [u8],
) -> Result<Option<&'a [u8]>, NoMemory>
    ensures { IfOk result (λ left. IfSome left (λ left.
        AgreeUpTo (OfCall c k (call_told call.now) ∷ []) rest.now left.now)) }
{
    let Some((line, left)) = next_line(rest) else {
        return Ok(None);
    };
    if agrees_call(alloc, c, k, call, line)? {
        Ok(Some(left))
    } else {
        Ok(None)
    }
}

/// What is left behind the lines of the caller's calls, where they come next.
fn after_calls<'a>(
    alloc: Global,
    c: CallerId,
    calls: &[ToldCall],
    rest: &'a [u8],
) -> Result<Option<&'a [u8]>, NoMemory>
    ensures { IfOk result (λ left. IfSome left (λ left.
        AgreeUpTo (placed (OfCall c) 0 (map call_told calls.now)) rest.now left.now)) }
{
    let mut left = rest;
    for (k, call) in calls.iter().enumerate() {
        match after_call(alloc, c, k, call, left)? {
            Some(next) => left = next,
            None => return Ok(None),
        }
    }
    Ok(Some(left))
}

/// The same of the caller of this number, if anything is told of it.
fn after_caller<'a>(
    alloc: Global,
    end: &ToldEnd,
    number: u8,
    rest: &'a [u8],
) -> Result<Option<&'a [u8]>, NoMemory>
    requires { (1 ≤ number) × (number ≤ MAX_CALLERS) }
    ensures { IfOk result (λ left. IfSome left (λ left.
        AgreeUpTo (placed (OfCall number) 0 (calls_told end.now number)) rest.now left.now)) }
{
    let c = CallerId::new(number).unwrap();
    match end.callers.get(number as usize) {
        Some(caller) => after_calls(alloc, c, &caller.calls, rest),
        None => Ok(Some(rest)),
    }
}

/// The same of all callers.
fn after_callers<'a>(
    alloc: Global,
    end: &ToldEnd,
    rest: &'a [u8],
) -> Result<Option<&'a [u8]>, NoMemory>
    ensures { IfOk result (λ left. IfSome left (λ left.
        AgreeUpTo (flat_map (λ c. placed (OfCall c) 0 (calls_told end.now c)) (one_to MAX_CALLERS)) rest.now
        left.now)) }
{
    let mut left = rest;
    for before in 0..MAX_CALLERS {
        match after_caller(alloc, end, before + 1, left)? {
            Some(next) => left = next,
            None => return Ok(None),
        }
    }
    Ok(Some(left))
}

/// What is left behind the line of a call that the actor ran, where it comes next.
fn after_run<'a>(
    alloc: Global,
    a: ActorId,
    place: usize,
    run: &ToldRun,
    rest: &'a [u8],
) -> Result<Option<&'a [u8]>, NoMemory>
    ensures { IfOk result (λ left. IfSome left (λ left.
        AgreeUpTo (OfRun a place (ran_told run.now) ∷ []) rest.now left.now)) }
{
    let Some((line, left)) = next_line(rest) else {
        return Ok(None);
    };
    if agrees_run(alloc, a, place, run, line)? {
        Ok(Some(left))
    } else {
        Ok(None)
    }
}

/// What is left behind the lines of the actor's run list, where they come next.
fn after_runs<'a>(
    alloc: Global,
    a: ActorId,
    runs: &[ToldRun],
    rest: &'a [u8],
) -> Result<Option<&'a [u8]>, NoMemory>
    ensures { IfOk result (λ left. IfSome left (λ left.
        AgreeUpTo (placed (OfRun a) 0 (map ran_told runs.now)) rest.now left.now)) }
{
    let mut left = rest;
    for (place, run) in runs.iter().enumerate() {
        match after_run(alloc, a, place, run, left)? {
            Some(next) => left = next,
            None => return Ok(None),
        }
    }
    Ok(Some(left))
}

/// What is left behind the line of the actor's end, where it comes next.
fn after_end<'a>(
    alloc: Global,
    a: ActorId,
    actor: &ToldActor,
    rest: &'a [u8],
) -> Result<Option<&'a [u8]>, NoMemory>
    ensures { IfOk result (λ left. IfSome left (λ left.
        AgreeUpTo (OfEnd a actor.now.is_dead actor.now.is_retired ∷ []) rest.now left.now)) }
{
    let Some((line, left)) = next_line(rest) else {
        return Ok(None);
    };
    if agrees_end(alloc, a, actor, line)? {
        Ok(Some(left))
    } else {
        Ok(None)
    }
}

/// What is left behind the lines of an actor, where they come next. One that nobody calls has none.
fn after_told<'a>(
    alloc: Global,
    a: ActorId,
    actor: &ToldActor,
    rest: &'a [u8],
) -> Result<Option<&'a [u8]>, NoMemory>
    ensures { IfOk result (λ left. IfSome left (λ left.
        AgreeUpTo (stems_of_actor a (end_told actor.now)) rest.now left.now)) }
{
    if actor.callers.is_empty() {
        return Ok(Some(rest));
    }
    let Some(left) = after_end(alloc, a, actor, rest)? else {
        return Ok(None);
    };
    let below = after_runs(alloc, a, &actor.runs, left)?;
    Ok(below)
}

/// The same of the actor of this number, if anything is told of it.
fn after_actor<'a>(
    alloc: Global,
    end: &ToldEnd,
    number: u8,
    rest: &'a [u8],
) -> Result<Option<&'a [u8]>, NoMemory>
    requires { (1 ≤ number) × (number ≤ MAX_ACTORS) }
    ensures { IfOk result (λ left. IfSome left (λ left.
        AgreeUpTo (stems_of_actor number (ends_told end.now number)) rest.now left.now)) }
{
    let a = ActorId::new(number).unwrap();
    match end.actors.get(number as usize) {
        Some(actor) => after_told(alloc, a, actor, rest),
        None => Ok(Some(rest)),
    }
}

/// The same of all actors.
fn after_actors<'a>(
    alloc: Global,
    end: &ToldEnd,
    rest: &'a [u8],
) -> Result<Option<&'a [u8]>, NoMemory>
    ensures { IfOk result (λ left. IfSome left (λ left.
        AgreeUpTo (flat_map (λ a. stems_of_actor a (ends_told end.now a)) (one_to MAX_ACTORS)) rest.now left.now)) }
{
    let mut left = rest;
    for before in 0..MAX_ACTORS {
        match after_actor(alloc, end, before + 1, left)? {
            Some(next) => left = next,
            None => return Ok(None),
        }
    }
    Ok(Some(left))
}

/// Whether the lines of these bytes that aren't skipped are those of the told end, one by one.
pub(crate) fn agree(alloc: Global, end: &ToldEnd, rest: &[u8]) -> Result<bool, NoMemory>
    ensures { IfOk result (λ is. IsTrue is → AgreesWith end.now rest.now) }
{
    let Some(left) = after_callers(alloc, end, rest)? else {
        return Ok(false);
    };
    let Some(left) = after_actors(alloc, end, left)? else {
        return Ok(false);
    };
    match next_line(left) {
        None => Ok(true),
        Some(_) => Ok(false),
    }
}
