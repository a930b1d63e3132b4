//! A run of a script's plans in threads, recorded, from bytes to bytes.

ghost use Rattle.std.specs.Prelude.{◌≡◌, ◌<◌, ◌^◌, ℕ, Result, Ok, Err, None, length, map};
ghost use Rattle.act_rules.specs.declared.script.Wrong.{Wrong};
ghost use Rattle.act_rules.specs.declared.script.Mode.TheVariants.{Threads};
ghost use Rattle.act_rules.specs.Grammar.{Script as Spelled};
ghost use Rattle.act_rules.specs.Scripts.{actor_spec_of, with_good_plans};
ghost use Rattle.act_scripts.specs.Roles.{AreFitting};
ghost use Rattle.act_scripts.specs.Spelled.{mode_of, count_of, spelled_script};
ghost use Rattle.act_console.specs.Plans.{HasLine, Explains, first_stranger, script_of};
ghost use Rattle.act_console.specs.Stock.{IsReady};
ghost use Rattle.act_console.specs.Threads.{spelled_threads};
ghost use Rattle.act_record.specs.Record.{IsPlay, IsRecorded};
ghost use Rattle.act_record.specs.Output.{HasLineOf, IsOutput, IsExplained, WroteRecord};

use crate::copied::copy_of_roles;
use crate::fault::RecordingFault;
use crate::output::{Output, PlayText, Written};
use crate::reading::text_of;
use act_console::{
    ConsoleFault, Gate, Items, Script, ScriptFault, Sorted, StepAt, Stock, casts_of,
    first_stranger, line_of, read_script, read_whole, refusal_of, sort, write_whole,
};
use act_executor::RunFault;
use act_kinds::{Actor, Boxed};
use act_replay::{RecordFault, Recorded, Source, run_recorded};
use act_rules::{Event, Mode, Role, Step, Wrong};
use act_types::{CallerId, ListOf, MAX_ACTORS, MAX_CALLERS};
use std::alloc::Global;
use std::io::{Read, Write};
use std::sync::Wait;
use std::thread::Threads;

/// What there is to be written of a run that has no end to show, or why nothing is.
fn output_of_fault(
    alloc: Global,
    fault: RunFault,
    step_lines: &[StepAt],
) -> Result<Output, RecordingFault>
    requires { HasLine step_lines.now fault }
    ensures { (read : Result Spelled (ℕ × Wrong)) → Explains step_lines.now fault read → IsOutput result read }
{
    match fault {
        RunFault::TooMany => Ok(Output::Refusal(refusal_of(alloc, 0, Wrong::TooMany)?)),
        RunFault::BadPlan(caller, place) => {
            let line = line_of(step_lines, caller, place).unwrap();
            Ok(Output::Refusal(refusal_of(alloc, line, Wrong::BadPlan)?))
        }
        RunFault::NoThread => Err(RecordingFault::Console(ConsoleFault::Thread)),
        RunFault::NoMemory => Err(RecordingFault::Console(ConsoleFault::Memory)),
    }
}

/// What there is to be written where a run has no play to show, or why nothing is.
fn output_of_no_play(
    alloc: Global,
    fault: RecordFault,
    step_lines: &[StepAt],
) -> Result<Output, RecordingFault>
    requires { HasLineOf step_lines.now fault }
    ensures { (read : Result Spelled (ℕ × Wrong)) → IsExplained step_lines.now fault read → IsOutput result read }
{
    match fault {
        RecordFault::Run(fault) => output_of_fault(alloc, fault, step_lines),
        RecordFault::Unplayed => Err(RecordingFault::Unplayed),
    }
}

/// What there is to be written of roles and events that are a play.
fn output_of_play(
    alloc: Global,
    roles: &[Role],
    events: &[Event],
    source: Source,
) -> Result<Output, RecordingFault>
    ensures { (script : Spelled) → script.roles ≡ roles.now → IsPlay script events.now → IsOutput result (Ok script) }
{
    match text_of(alloc, roles, events, source) {
        Ok(play) => Ok(Output::Play(play)),
        Err(fault) => Err(fault),
    }
}

/// What there is to be written of roles and steps, all of whose callers have a role.
fn output_of_steps<Rt: Threads + Wait + Sync, G: Gate>(
    rt: &Rt,
    alloc: Global,
    stock: Stock,
    twins: Stock,
    roles: ListOf<Role>,
    steps: ListOf<(CallerId, Step, u32)>,
    gate: &G,
) -> Result<Output, RecordingFault>
    requires ready { IsReady ⟦<Boxed as Actor>⟧.state stock }
    requires twins { IsReady ⟦<Boxed as Actor>⟧.state twins }
    requires roles { AreFitting (map actor_spec_of roles) }
    requires few { length steps < 2 ^ 32 }
    requires known { first_stranger roles steps ≡ None }
    ensures { IsOutput result (with_good_plans MAX_CALLERS MAX_ACTORS (Ok (script_of roles steps))) }
{
    let sorted = sort(alloc, roles.as_slice(), steps)?;
    let Sorted { plans, step_lines } = sorted;
    let one = copy_of_roles(alloc, roles.as_slice())?;
    let other = copy_of_roles(alloc, roles.as_slice())?;
    let casts = casts_of(alloc, stock, one)?;
    let twins = casts_of(alloc, twins, other)?;
    match run_recorded(rt, alloc, casts, twins, plans, gate) {
        Ok(recorded) => {
            let Recorded {
                joined,
                events,
                source,
            } = recorded;
            drop(joined);
            output_of_play(alloc, roles.as_slice(), &events, source)
        }
        Err(fault) => output_of_no_play(alloc, fault, &step_lines),
    }
}

/// What there is to be written of a script that was read.
fn output_of_script<Rt: Threads + Wait + Sync, G: Gate>(
    rt: &Rt,
    alloc: Global,
    stock: Stock,
    twins: Stock,
    script: Script,
    gate: &G,
) -> Result<Output, RecordingFault>
    requires ready { IsReady ⟦<Boxed as Actor>⟧.state stock }
    requires twins { IsReady ⟦<Boxed as Actor>⟧.state twins }
    requires mode { mode_of script.items ≡ Threads }
    requires roles { AreFitting (map actor_spec_of script.casts) }
    requires few { count_of script.items < 2 ^ 32 }
    ensures { IsOutput result (with_good_plans MAX_CALLERS MAX_ACTORS (Ok (spelled_script script))) }
{
    let Script {
        casts: roles,
        items,
    } = script;
    let Items::Steps(steps) = items else {
        unreachable!()
    };
    if let Some(line) = first_stranger(roles.as_slice(), steps.as_slice()) {
        return Ok(Output::Refusal(refusal_of(alloc, line, Wrong::BadPlan)?));
    }
    output_of_steps(rt, alloc, stock, twins, roles, steps, gate)
}

/// What there is to be written of the script that bytes spell, or why nothing is.
fn output_of<Rt: Threads + Wait + Sync, G: Gate>(
    rt: &Rt,
    alloc: Global,
    stock: Stock,
    twins: Stock,
    bytes: &[u8],
    gate: &G,
) -> Result<Output, RecordingFault>
    requires ready { IsReady ⟦<Boxed as Actor>⟧.state stock }
    requires twins { IsReady ⟦<Boxed as Actor>⟧.state twins }
    ensures { IsOutput result (spelled_threads bytes.now) }
{
    match read_script(alloc, bytes, Mode::Threads) {
        Ok(script) => output_of_script(rt, alloc, stock, twins, script, gate),
        Err(ScriptFault::NoMemory) => Err(RecordingFault::Console(ConsoleFault::Memory)),
        Err(ScriptFault::Line(line, wrong)) => {
            Ok(Output::Refusal(refusal_of(alloc, line, wrong)?))
        }
    }
}

/// Writes what there is to be written of a script. A refusal is told as the script's fault.
fn write_output<W: Write>(writer: &mut W, output: Output) -> Result<Written, RecordingFault>
    ensures { WroteRecord (W.contents writer.old) (W.contents writer.new) output result }
{
    match output {
        Output::Play(PlayText { text, written }) => {
            write_whole(writer, &text)?;
            Ok(written)
        }
        Output::Refusal(text) => {
            write_whole(writer, &text)?;
            Err(RecordingFault::Console(ConsoleFault::Script))
        }
    }
}

/// Reads a script for threads to its end, runs each caller's plan and each actor in a thread of its
/// own, and writes a script of events: a play that ends as the threads did. Of a script with a fault
/// it writes the line of the first one.
///
/// The play is made whole before it is written, and read again: a play with more bytes than a script
/// may have is written all the same, and told as a `LongPlay`. The threads' kinds are taken from the
/// stock, and those of the world that plays the events from the twins. The gate is passed before
/// each run of a call. That the threads end is not promised.
pub fn record_script<Rt: Threads + Wait + Sync, R: Read, W: Write, G: Gate>(
    rt: &Rt,
    alloc: Global,
    stock: Stock,
    twins: Stock,
    reader: &mut R,
    writer: &mut W,
    gate: &G,
) -> Result<Written, RecordingFault>
    requires ready { IsReady ⟦<Boxed as Actor>⟧.state stock }
    requires twins { IsReady ⟦<Boxed as Actor>⟧.state twins }
    ensures { IsRecorded (R.remaining reader.old) (R.remaining reader.new) (W.contents writer.old)
        (W.contents writer.new) result }
{
    let bytes = read_whole(alloc, reader)?;
    match output_of(rt, alloc, stock, twins, &bytes, gate) {
        Ok(output) => write_output(writer, output),
        Err(fault) => Err(fault),
    }
}
