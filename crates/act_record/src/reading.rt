//! What was written, read again.

ghost use Rattle.std.specs.Prelude.{◌≡◌, IfOk, IfErr, IsTrue};
ghost use Rattle.act_scripts.specs.Spelled.{spelled_script};
ghost use Rattle.act_record.specs.Output.{IsMissing, IsReadAs, IsTextOf};

use crate::fault::RecordingFault;
use crate::output::{PlayText, Written};
use crate::printed::play_text;
use act_compare::{same_events, same_roles};
use act_console::{Items, Script, ScriptFault, read_script};
use act_replay::Source;
use act_rules::{Event, Mode, Role};
use act_types::{MAX_SCRIPT_BYTES, NoMemory};
use std::alloc::Global;

/// Whether a script has these roles and these events.
fn is_script_of(script: &Script, roles: &[Role], events: &[Event]) -> bool
    ensures roles { IsTrue result → (spelled_script script.now).roles ≡ roles.now }
    ensures events { IsTrue result → (spelled_script script.now).events ≡ events.now }
{
    let Items::Events(found) = &script.items else {
        return false;
    };
    same_roles(script.casts.as_slice(), roles) && same_events(found.as_slice(), events)
}

/// Whether bytes are read as a script of these roles and events.
fn is_read_as(
    alloc: Global,
    bytes: &[u8],
    roles: &[Role],
    events: &[Event],
) -> Result<bool, NoMemory>
    ensures { IfOk result (λ is. IsTrue is → IsReadAs roles.now events.now bytes.now) }
{
    match read_script(alloc, bytes, Mode::Play) {
        Ok(script) => Ok(is_script_of(&script, roles, events)),
        Err(ScriptFault::NoMemory) => Err(NoMemory),
        Err(ScriptFault::Line(_, _)) => Ok(false),
    }
}

/// The script of these roles and events. It is read again, unless it is too long for a script.
pub(crate) fn text_of(
    alloc: Global,
    roles: &[Role],
    events: &[Event],
    source: Source,
) -> Result<PlayText, RecordingFault>
    ensures text { IfOk result (IsTextOf roles.now events.now) }
    ensures fault { IfErr result IsMissing }
{
    let text = play_text(alloc, roles, events)?;
    if text.len() > MAX_SCRIPT_BYTES {
        let written = Written::LongPlay(source);
        return Ok(PlayText { text, written });
    }
    if !is_read_as(alloc, text.as_bytes(), roles, events)? {
        return Err(RecordingFault::Unplayed);
    }
    let written = Written::Play(source);
    Ok(PlayText { text, written })
}
