//! A check of a history, from bytes to bytes.

ghost use Rattle.std.specs.Prelude.{◌≡◌, ◌<◌, ◌≤◌, ◌+◌, ◌^◌, ℕ, List, Ok, length, map, IfOk, IfErr, IsTrue, OnOk, OnErr, string_bytes};
ghost use Rattle.std.specs.List.{list_all};
ghost use Rattle.std.specs.Io.KnownBytes.{Appends};
ghost use Rattle.act_rules.specs.declared.script.Mode.TheVariants.{Play, Threads};
ghost use Rattle.act_rules.specs.declared.script.Step.{Step as Line};
ghost use Rattle.act_rules.specs.Grammar.{Script as Spelled, spelled};
ghost use Rattle.act_rules.specs.Scripts.{actor_spec_of};
ghost use Rattle.act_scripts.specs.Roles.{AreFitting};
ghost use Rattle.act_scripts.specs.Spelled.{mode_of, count_of, spelled_script};
ghost use Rattle.act_summaries.specs.Summaries.{is_sayable_role};
ghost use Rattle.act_console.specs.Input.{IsWholeInput};
ghost use Rattle.act_console.specs.Output.{AppendsPrefix};
ghost use Rattle.act_console.specs.Plans.{script_of};
ghost use Rattle.act_console.specs.Stock.{IsReady};
ghost use Rattle.act_decisions.specs.Decided.{IsWalkAfter};
ghost use Rattle.act_decisions.specs.Play.{EndsSo, play_of};
ghost use Rattle.act_histories.specs.Checked.{IsVerdict, IsVerdictOf, IsBeforeVerdict, WroteVerdict, Checked};

use crate::copied::copied_roles;
use crate::cut::{Cut, cut_of};
use crate::fault::CheckFault;
use crate::history::{History, Lines};
use crate::mistake::{Mistake, Wrongly};
use crate::printed::play_text;
use crate::reading::read_history;
use crate::reason::Reasons;
use crate::refusing::{line_of_step, why_refused};
use crate::told_end::told_end;
use act_compare::{same_events, same_roles};
use act_console::{ConsoleFault, Stock, casts_of, read_whole, write_whole};
use act_decisions::{Decision, decide};
use act_kinds::{Actor, Boxed};
use act_rules::{Event, Mode, Role, Wrong};
use act_scripts::{Items, Script, ScriptFault, read_script};
use act_types::{MAX_SCRIPT_BYTES, NoMemory};
use act_walks::{ToldEnd, WalkFault, Walked, walk};
use act_world::World;
use std::alloc::{AllocError, Global};
use std::io::{Read, Write};

/// What is to be written of a history.
#[derive(Drop)]
pub(crate) enum Verdict {
    /// A play that ends so.
    Play(String),
    /// Where none can go on, and why.
    Refused(String),
    /// The line that isn't one of a history, and what is wrong with it.
    Mistake(String),
}

fn mistake_of(alloc: Global, line: u32, wrong: Wrongly) -> Result<Verdict, AllocError>
    ensures of_bytes { (bytes : List ℕ) → IfOk result (IsVerdict bytes) }
    ensures of_script { (script : Spelled) (rest : List ℕ) → IfOk result (IsVerdictOf script rest) }
{
    let text = format!(in alloc; "line {line}: {wrong}\n")?;
    Ok(Verdict::Mistake(text))
}

/// Whether a script that was read has these roles and events.
fn is_script(script: &Script, roles: &[Role], events: &[Event]) -> bool
    ensures { IsTrue result → spelled_script script.now ≡ play_of roles.now events.now }
{
    match &script.items {
        Items::Events(read) => {
            same_roles(script.casts.as_slice(), roles) && same_events(read.as_slice(), events)
        }
        Items::Steps(_) => false,
    }
}

/// Whether a text is read as a play of these roles and events, unless it is too long to be read.
fn reads_so(alloc: Global, text: &str, roles: &[Role], events: &[Event]) -> Result<bool, NoMemory>
    ensures { IfOk result (λ is. IsTrue is → length text.now ≤ MAX_SCRIPT_BYTES →
        spelled Play text.now ≡ Ok (play_of roles.now events.now)) }
{
    if text.len() > MAX_SCRIPT_BYTES {
        return Ok(true);
    }
    match read_script(alloc, text.as_bytes(), Mode::Play) {
        Ok(script) => Ok(is_script(&script, roles, events)),
        Err(ScriptFault::NoMemory) => Err(NoMemory),
        Err(ScriptFault::Line(_, _)) => Ok(false),
    }
}

/// The verdict of events that end so: the play's text, once it was read again.
fn verdict_of_play(alloc: Global, roles: &[Role], events: &[Event]) -> Result<Verdict, NoMemory>
    ensures { IfOk result (λ verdict. (steps : List (ℕ × Line × ℕ)) (rest : List ℕ) →
        EndsSo (map actor_spec_of roles.now) steps events.now rest →
        IsVerdictOf (script_of roles.now steps) rest verdict) }
{
    let text = play_text(alloc, roles, events)?;
    if reads_so(alloc, &text, roles, events)? {
        return Ok(Verdict::Play(text));
    }
    drop(text);
    Ok(mistake_of(alloc, 0, Wrongly::OtherPlay)?)
}

/// The verdict of a history, by what a walk decides of it.
fn verdict_of_walk(
    alloc: Global,
    reasons: Reasons,
    roles: &[Role],
    history: &History,
    end: &ToldEnd,
    walked: &Walked,
    lines: Lines<'_>,
) -> Result<Verdict, NoMemory>
    requires roles { AreFitting (map actor_spec_of roles.now) }
    requires sayable { IsTrue (list_all is_sayable_role roles.now) }
    requires few { length lines.steps.now < 2 ^ 32 }
    requires walk { IsWalkAfter ⟦<Boxed as Actor>⟧.state end.now (map actor_spec_of roles.now) walked.now }
    ensures { IfOk result (IsVerdictOf (script_of roles.now lines.entry.steps.now) lines.entry.rest.now) }
{
    match decide(alloc, walked, roles, lines.steps, lines.rest, end)? {
        Decision::Ends => verdict_of_play(alloc, roles, &walked.events),
        Decision::Nowhere => {
            let why = why_refused(alloc, history, reasons, walked, lines)?;
            Ok(Verdict::Refused(why))
        }
        Decision::BadStep(c, place) => {
            let line = line_of_step(lines.steps, c, place);
            Ok(mistake_of(alloc, line, Wrongly::Script(Wrong::BadPlan))?)
        }
        Decision::Open => Ok(mistake_of(alloc, 0, Wrongly::Undecided)?),
    }
}

/// A walk after what was read, in a world with kinds of the stock.
fn walk_after(
    alloc: Global,
    stock: Stock,
    roles: &[Role],
    end: &ToldEnd,
) -> Result<Walked, WalkFault>
    requires ready { IsReady ⟦<Boxed as Actor>⟧.state stock }
    requires roles { AreFitting (map actor_spec_of roles.now) }
    ensures { IfOk result (IsWalkAfter ⟦<Boxed as Actor>⟧.state end.now (map actor_spec_of roles.now)) }
{
    let copies = copied_roles(alloc, roles)?;
    let casts = casts_of(alloc, stock, copies)?;
    let world = World::open(alloc, casts)?;
    walk(alloc, world, end)
}

/// The verdict of a history, by what is told of its end.
fn verdict_of_end(
    alloc: Global,
    stock: Stock,
    reasons: Reasons,
    roles: &[Role],
    history: &History,
    end: &ToldEnd,
    lines: Lines<'_>,
) -> Result<Verdict, NoMemory>
    requires ready { IsReady ⟦<Boxed as Actor>⟧.state stock }
    requires roles { AreFitting (map actor_spec_of roles.now) }
    requires sayable { IsTrue (list_all is_sayable_role roles.now) }
    requires few { length lines.steps.now < 2 ^ 32 }
    ensures { IfOk result (IsVerdictOf (script_of roles.now lines.entry.steps.now) lines.entry.rest.now) }
{
    match walk_after(alloc, stock, roles, end) {
        Ok(walked) => {
            let verdict = verdict_of_walk(alloc, reasons, roles, history, end, &walked, lines);
            drop(walked);
            verdict
        }
        Err(WalkFault::Stuck) => Ok(mistake_of(alloc, 0, Wrongly::Undecided)?),
        Err(WalkFault::NoMemory) => Err(NoMemory),
    }
}

/// The verdict of a history, which was read.
fn verdict_of_history(
    alloc: Global,
    stock: Stock,
    reasons: Reasons,
    roles: &[Role],
    history: &History,
    lines: Lines<'_>,
) -> Result<Verdict, NoMemory>
    requires ready { IsReady ⟦<Boxed as Actor>⟧.state stock }
    requires roles { AreFitting (map actor_spec_of roles.now) }
    requires sayable { IsTrue (list_all is_sayable_role roles.now) }
    requires few { length lines.steps.now < 2 ^ 32 }
    ensures { IfOk result (IsVerdictOf (script_of roles.now lines.entry.steps.now) lines.entry.rest.now) }
{
    let end = told_end(alloc, history, lines.steps)?;
    let verdict = verdict_of_end(alloc, stock, reasons, roles, history, &end, lines);
    drop(end);
    verdict
}

/// The verdict of a script for threads, and of the lines after it.
fn verdict_of_script(
    alloc: Global,
    stock: Stock,
    reasons: Reasons,
    script: Script,
    rest: &[u8],
    before: u32,
) -> Result<Verdict, NoMemory>
    requires ready { IsReady ⟦<Boxed as Actor>⟧.state stock }
    requires mode { mode_of script.items ≡ Threads }
    requires roles { AreFitting (map actor_spec_of script.casts) }
    requires sayable { IsTrue (list_all is_sayable_role script.casts) }
    requires few { count_of script.items < 2 ^ 32 }
    ensures { IfOk result (IsVerdictOf (spelled_script script) rest.now) }
{
    let Script {
        casts: roles,
        items,
    } = script;
    let Items::Steps(steps) = items else {
        unreachable!()
    };
    let lines = Lines {
        steps: steps.as_slice(),
        rest,
        before,
    };
    match read_history(alloc, roles.as_slice(), lines) {
        Ok(history) => {
            let verdict = verdict_of_history(
                alloc,
                stock,
                reasons,
                roles.as_slice(),
                &history,
                lines,
            );
            drop(history);
            verdict
        }
        Err(Mistake::NoMemory) => Err(NoMemory),
        Err(Mistake::Line(line, wrong)) => Ok(mistake_of(alloc, line, wrong)?),
    }
}

/// The verdict of the bytes of a history.
fn verdict_of(
    alloc: Global,
    stock: Stock,
    reasons: Reasons,
    bytes: &[u8],
) -> Result<Verdict, NoMemory>
    requires ready { IsReady ⟦<Boxed as Actor>⟧.state stock }
    ensures { IfOk result (IsVerdict bytes.now) }
{
    if bytes.len() > MAX_SCRIPT_BYTES {
        return Ok(mistake_of(alloc, 0, Wrongly::Script(Wrong::TooLong))?);
    }
    let Cut { at, lines } = cut_of(bytes);
    let (front, rest) = bytes.split_at(at);
    match read_script(alloc, front, Mode::Threads) {
        Ok(script) => verdict_of_script(alloc, stock, reasons, script, rest, lines),
        Err(ScriptFault::NoMemory) => Err(NoMemory),
        Err(ScriptFault::Line(line, wrong)) => {
            Ok(mistake_of(alloc, line, Wrongly::Script(wrong))?)
        }
    }
}

/// Writes a verdict, and tells which it was.
fn write_verdict<W: Write>(writer: &mut W, verdict: Verdict) -> Result<(), CheckFault>
    ensures { WroteVerdict (W.contents writer.old) (W.contents writer.new) verdict result }
{
    match verdict {
        Verdict::Play(text) => write_text(writer, &text),
        Verdict::Refused(text) => {
            write_text(writer, &text)?;
            Err(CheckFault::Refused)
        }
        Verdict::Mistake(text) => {
            write_text(writer, &text)?;
            Err(CheckFault::Mistake)
        }
    }
}

/// Writes a text whole, or a prefix of it and then fails.
fn write_text<W: Write>(writer: &mut W, text: &str) -> Result<(), CheckFault>
    ensures ok { OnOk result (Appends (W.contents writer.old) (W.contents writer.new) text.now) }
    ensures fault { IfErr result (λ fault. fault ≡ CheckFault.Writing) }
    ensures err { OnErr result (AppendsPrefix (W.contents writer.old) (W.contents writer.new) text.now) }
{
    match write_whole(writer, text) {
        Ok(()) => Ok(()),
        Err(_) => Err(CheckFault::Writing),
    }
}

/// All that the reader has.
fn read_bytes<R: Read>(alloc: Global, reader: &mut R) -> Result<Vec<u8>, CheckFault>
    ensures ok { IfOk result (λ bytes.
        IsWholeInput (MAX_SCRIPT_BYTES + 1) (R.remaining reader.old) (R.remaining reader.new) bytes.items) }
    ensures err { IfErr result IsBeforeVerdict }
{
    match read_whole(alloc, reader) {
        Ok(bytes) => Ok(bytes),
        Err(ConsoleFault::Reading) => Err(CheckFault::Reading),
        Err(_) => Err(CheckFault::Memory),
    }
}

/// Reads a history to its end, and writes a play that ends so; or where none can go on, and why; or
/// the line of its first mistake.
///
/// A history begins as a script for threads does, with roles, and with steps or without. Below them
/// stands what was left, as a report tells it: futures, and actors with their run lists. A caller that
/// awaits an answer does its steps in their order; of the others, steps that submit nothing are passed
/// over. Where no step submits calls of a caller, these had the arguments with which they ran. The
/// kinds are taken from the stock. Where no play ends so, the reasons are told as asked.
pub fn check_history<R: Read, W: Write>(
    alloc: Global,
    stock: Stock,
    reasons: Reasons,
    reader: &mut R,
    writer: &mut W,
) -> Result<(), CheckFault>
    requires ready { IsReady ⟦<Boxed as Actor>⟧.state stock }
    ensures { Checked (R.remaining reader.old) (R.remaining reader.new) (W.contents writer.old)
        (W.contents writer.new) result }
{
    let bytes = read_bytes(alloc, reader)?;
    match verdict_of(alloc, stock, reasons, &bytes) {
        Ok(verdict) => write_verdict(writer, verdict),
        Err(_) => Err(CheckFault::Memory),
    }
}
