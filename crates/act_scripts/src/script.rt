//! Lines and scripts.

ghost use Rattle.std.specs.Prelude.{◌≡◌, ◌==◌, true, ◌≤◌, ◌<◌, ◌^◌, ◌+◌, ◌++◌, ◌∷◌, [], List, ℕ, map, take, drop, Ok, IfOk, OnOk, IfErr, length};
ghost use Rattle.std.specs.List.{list_all, list_any};
ghost use Rattle.act_scripts.specs.Gives.{Gives, Fails};
ghost use Rattle.act_scripts.specs.Spelled.{IsLineOf, LeavesScript, GivesScript, mode_of, count_of, spelled_script, fault_at_line};
ghost use Rattle.act_rules.specs.Submissions.{IsLimit};
ghost use Rattle.act_rules.specs.Scripts.{actor_spec_of};
ghost use Rattle.act_scripts.specs.Roles.{AreFitting, AreSound};
ghost use Rattle.act_rules.specs.declared.script.Mode.TheVariants.{Play, Threads};
ghost use Rattle.act_rules.specs.Grammar.{is_plain_byte, plain_at, words_in, line_at, forms_of, no_lines, has_twice, role_fault, add_line, line_added, lines_in, spelled_from, spelled};

use crate::forms::form_of;
use crate::line::{BAD_LINE, LineFault, ScriptFault};
use act_rules::{Event, Line, Mode, Role, Step, Wrong};
use act_types::{ActorId, CallerId, ListOf, MAX_ACTORS, MAX_LINE_BYTES, MAX_SCRIPT_BYTES};
use std::alloc::{AllocError, Global};

/// What a script spells beside its roles.
#[derive(Debug, Drop)]
pub enum Items {
    /// The events of a play, in the order of their lines.
    Events(ListOf<Event>),
    /// The steps of the callers' plans, in the order of their lines: each with its caller, and with
    /// the number of its line, from 1.
    Steps(ListOf<(CallerId, Step, u32)>),
}

/// What a script spells.
#[derive(Debug, Drop)]
pub struct Script {
    /// Its actors, in the order of their lines.
    pub casts: ListOf<Role>,
    pub items: Items,
}

/// Adds a word of plain bytes.
fn push_word<'a>(words: &mut Vec<&'a str>, word: &'a [u8]) -> Result<(), AllocError>
    requires { list_all is_plain_byte word.now ≡ true }
    ensures { OnOk result (map (λ w. w.now) words.new.items ≡ map (λ w. w.now) words.old.items ++ word.now ∷ []) }
{
    // Plain bytes are text.
    words.push(unsafe { str::from_utf8_unchecked(word) })?;
    Ok(())
}

/// Where the first line ends, if it is short and plain. Its words, which single spaces part, take the place of those
/// of the line before: all lines share one vector, so that a line asks for no memory of its own. Each byte is looked
/// at once.
fn cut<'a>(words: &mut Vec<&'a str>, bytes: &'a [u8]) -> Result<usize, LineFault>
    ensures within { IfOk result (λ end. end ≤ length bytes.now) }
    ensures plain { IfOk result (λ end. plain_at (take end bytes.now) ≡ Ok (take end bytes.now)) }
    ensures words { IfOk result (λ end. map (λ w. w.now) words.new.items ≡ words_in (take end bytes.now)) }
    ensures last { IfOk result (λ end. end ≡ length bytes.now → lines_in bytes.now ≡ take end bytes.now ∷ []) }
    ensures more { IfOk result (λ end. end < length bytes.now →
        lines_in bytes.now ≡ take end bytes.now ∷ lines_in (drop (end + 1) bytes.now)) }
    ensures fault { IfErr result (λ fault. (line : List ℕ) (lines : List (List ℕ)) →
        lines_in bytes.now ≡ line ∷ lines → Fails fault (plain_at line)) }
{
    words.clear();
    let mut word = 0;
    for at in 0..bytes.len().min(MAX_LINE_BYTES + 1) {
        let byte = bytes[at];
        if byte <= b' ' {
            if byte == b'\n' {
                push_word(words, &bytes[word..at])?;
                return Ok(at);
            }
            if byte != b' ' {
                return Err(BAD_LINE);
            }
            push_word(words, &bytes[word..at])?;
            word = at + 1;
        } else if byte > b'~' {
            return Err(BAD_LINE);
        }
    }
    if bytes.len() > MAX_LINE_BYTES {
        return Err(BAD_LINE);
    }
    push_word(words, &bytes[word..])?;
    Ok(bytes.len())
}

/// Whether a caller stands twice.
fn names_twice(callers: &[CallerId]) -> bool
    ensures { result ≡ has_twice callers.now }
{
    for (at, caller) in callers.iter().enumerate() {
        if callers[at + 1..].contains(caller) {
            return true;
        }
    }
    false
}

/// Whether an actor has one of these roles.
fn has_role(actor: ActorId, roles: &[Role]) -> bool
    ensures { result ≡ list_any (λ role. role.actor == actor) roles.now }
{
    roles.iter().any(|role| role.actor == actor)
}

/// Why a role is refused.
#[tactic(auto, unfolding(act_rules::specs::Grammar::role_fault))]
fn fault_of(script: &Script, role: &Role) -> Option<Wrong>
    ensures { result ≡ role_fault (spelled_script script.now) role.now }
{
    let late = match &script.items {
        Items::Events(events) => !events.as_slice().is_empty(),
        Items::Steps(steps) => !steps.as_slice().is_empty(),
    };
    if late {
        return Some(Wrong::LateActor);
    }
    if has_role(role.actor, script.casts.as_slice()) {
        return Some(Wrong::TwiceActor);
    }
    if names_twice(role.callers.as_slice()) {
        return Some(Wrong::TwiceCaller);
    }
    None
}

/// The script of no lines.
fn empty_script(alloc: Global, mode: Mode) -> Script
    ensures spelled { spelled_script result ≡ no_lines }
    ensures mode { mode_of result.items ≡ mode }
    ensures none { count_of result.items ≡ 0 }
{
    let items = match mode {
        Mode::Play => Items::Events(ListOf::new(alloc)),
        Mode::Threads => Items::Steps(ListOf::new(alloc)),
    };
    Script {
        casts: ListOf::new(alloc),
        items,
    }
}

/// Adds a role, unless something refuses it.
fn add_role(script: &mut Script, role: Role) -> Result<(), LineFault>
    requires { IsLimit role.pending }
    ensures sound { AreSound (map actor_spec_of script.old.casts) → AreSound (map actor_spec_of script.new.casts) }
    ensures read { LeavesScript result script.new (add_line (spelled_script script.old) 0 (Line.Role role)) }
    ensures items { script.new.items ≡ script.old.items }
{
    // A script has no more actors than there are numbers for them.
    prove!(1 <= role.actor.number() && role.actor.number() <= MAX_ACTORS);
    if let Some(wrong) = fault_of(script, &role) {
        return Err(LineFault::Wrong(wrong));
    }
    script.casts.push(role)?;
    Ok(())
}

/// Adds an event to a play.
fn add_event(script: &mut Script, event: Event) -> Result<(), LineFault>
    requires { mode_of script.old.items ≡ Play }
    ensures casts { script.new.casts ≡ script.old.casts }
    ensures mode { mode_of script.new.items ≡ Play }
    ensures read { LeavesScript result script.new (add_line (spelled_script script.old) 0 (Line.Event event)) }
    ensures few { count_of script.new.items ≤ count_of script.old.items + 1 }
{
    let Items::Events(events) = &mut script.items else {
        unreachable!()
    };
    events.push(event)?;
    Ok(())
}

/// Adds a step of a caller's plan, which the line of this number says.
fn add_step(script: &mut Script, caller: CallerId, step: Step, number: u32) -> Result<(), LineFault>
    requires { mode_of script.old.items ≡ Threads }
    ensures casts { script.new.casts ≡ script.old.casts }
    ensures mode { mode_of script.new.items ≡ Threads }
    ensures read { LeavesScript result script.new
        (add_line (spelled_script script.old) number (Line.Step caller step)) }
    ensures few { count_of script.new.items ≤ count_of script.old.items + 1 }
{
    let Items::Steps(steps) = &mut script.items else {
        unreachable!()
    };
    steps.push((caller, step, number))?;
    Ok(())
}

/// Adds what the short and plain line of this number says, whose words these are, if it isn't skipped.
#[tactic(auto, unfolding(act_rules::specs::Grammar::line_at))]
fn add_line(
    alloc: Global,
    mode: Mode,
    script: &mut Script,
    words: &[&str],
    line: &[u8],
    number: u32,
) -> Result<(), LineFault>
    requires mode { mode_of script.old.items ≡ mode }
    requires plain { plain_at line.now ≡ Ok line.now }
    requires words { map (λ w. w.now) words.now ≡ words_in line.now }
    ensures sound { AreSound (map actor_spec_of script.old.casts) → AreSound (map actor_spec_of script.new.casts) }
    ensures mode { mode_of script.new.items ≡ mode }
    ensures read { LeavesScript result script.new
        (line_added (forms_of mode) (spelled_script script.old) number line.now) }
    ensures few { count_of script.new.items ≤ count_of script.old.items + 1 }
{
    match line {
        [] | [b'#', ..] => Ok(()),
        _ => match form_of(alloc, mode, words)? {
            Line::Role(role) => add_role(script, role),
            Line::Event(event) => add_event(script, event),
            Line::Step(caller, step) => add_step(script, caller, step, number),
        },
    }
}

/// A line's fault, as the script's.
fn fault_in(line: u32, fault: LineFault) -> ScriptFault
    ensures { result ≡ fault_at_line line fault }
{
    match fault {
        LineFault::Wrong(wrong) => ScriptFault::Line(line, wrong),
        LineFault::Memory => ScriptFault::NoMemory,
    }
}

/// What the lines of a script of this mode spell, or their first fault.
fn read_lines(alloc: Global, bytes: &[u8], mode: Mode) -> Result<Script, ScriptFault>
    requires { length bytes.now ≤ MAX_SCRIPT_BYTES }
    ensures sound { IfOk result (λ script. AreSound (map actor_spec_of script.casts)) }
    ensures spelled { GivesScript spelled_script result (spelled_from (forms_of mode) 1 no_lines (lines_in bytes.now)) }
    ensures mode { IfOk result (λ script. mode_of script.items ≡ mode) }
    ensures few { IfOk result (λ script. count_of script.items < 2 ^ 32) }
{
    let mut script = empty_script(alloc, mode);
    let mut words = Vec::new(alloc);
    let mut number = 0;
    let mut rest = bytes;
    'lines: loop {
        number += 1;
        let end = match cut(&mut words, rest) {
            Ok(end) => end,
            Err(fault) => return Err(fault_in(number, fault)),
        };
        match add_line(
            alloc,
            mode,
            &mut script,
            words.as_slice(),
            &rest[..end],
            number,
        ) {
            Ok(()) => {}
            Err(fault) => return Err(fault_in(number, fault)),
        }
        if end == rest.len() {
            return Ok(script);
        }
        rest = &rest[end + 1..];
    }
}

/// What a script of this mode spells, or its first fault. What only a run of threads refuses,
/// `TooMany` and `BadPlan`, isn't looked for.
#[tactic(auto, using(crate::proofs::Roles::sound_fit), unfolding(act_rules::specs::Grammar::spelled_by))]
pub fn read_script(alloc: Global, bytes: &[u8], mode: Mode) -> Result<Script, ScriptFault>
    ensures spelled { GivesScript spelled_script result (spelled mode bytes.now) }
    // The items are those of the mode: events of a play, steps in threads.
    ensures mode { IfOk result (λ script. mode_of script.items ≡ mode) }
    // The roles can be opened: their actors are distinct, and the callers of each; the limits are good.
    ensures roles { IfOk result (λ script. AreFitting (map actor_spec_of script.casts)) }
    ensures few { IfOk result (λ script. count_of script.items < 2 ^ 32) }
{
    if bytes.len() > MAX_SCRIPT_BYTES {
        return Err(ScriptFault::Line(0, Wrong::TooLong));
    }
    read_lines(alloc, bytes, mode)
}
