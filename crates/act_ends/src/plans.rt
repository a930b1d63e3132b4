//! Plans, read from the bytes of a script for threads.

ghost use Rattle.std.specs.Prelude.{IfOk};
ghost use Rattle.act_ends.specs.Frontier.{Extends};

use crate::fault::PlansFault;
use act_actor::{Cast, cast_fits};
use act_console::{Sorted, StepAt, first_stranger, line_of, sort};
use act_plans::{CallerSetup, Plan, Prepared, first_bad_setup, plans_fit, prepare};
use act_rules::{KindName, Mode, Role, Step, Wrong};
use act_scripts::{Items, Script, ScriptFault, read_script};
use act_types::{ActorId, CallerId, ListOf, NoMemory};
use std::alloc::{AllocError, Global};

/// The actors and the callers of a script, by rising number, each caller with its plan.
pub(crate) type Plans = Prepared<KindName>;

/// The roles as casts, whose kinds are names.
fn casts_of(alloc: Global, roles: ListOf<Role>) -> Result<Vec<Cast<KindName>>, NoMemory> {
    let mut casts = Vec::new(alloc);
    for role in roles.into_vec() {
        casts.push(Cast {
            actor: role.actor,
            callers: role.callers,
            kind: role.kind,
            pending: role.pending,
        })?;
    }
    Ok(casts)
}

/// The plans, where no step of one would be refused.
fn good_plans(
    alloc: Global,
    casts: Vec<Cast<KindName>>,
    plans: Vec<(CallerId, Plan)>,
    step_lines: &[StepAt],
) -> Result<Plans, PlansFault> {
    if !cast_fits(&casts) || !plans_fit(&casts, &plans) {
        drop(casts);
        drop(plans);
        return Err(PlansFault::Line(0, Wrong::TooMany));
    }
    let prepared = prepare(alloc, casts, plans)?;
    match first_bad_setup(alloc, prepared.setups.as_slice()) {
        Ok(None) => Ok(prepared),
        Ok(Some((caller, place))) => {
            drop(prepared);
            let line = line_of(step_lines, caller, place).unwrap_or(0);
            Err(PlansFault::Line(line, Wrong::BadPlan))
        }
        Err(error) => {
            drop(prepared);
            Err(error.into())
        }
    }
}

/// The plans of roles and steps.
fn plans_of(
    alloc: Global,
    roles: ListOf<Role>,
    steps: ListOf<(CallerId, Step, u32)>,
) -> Result<Plans, PlansFault> {
    if let Some(line) = first_stranger(roles.as_slice(), steps.as_slice()) {
        drop(roles);
        drop(steps);
        return Err(PlansFault::Line(line, Wrong::BadPlan));
    }
    let Sorted { plans, step_lines } = sort(alloc, roles.as_slice(), steps)?;
    let casts = casts_of(alloc, roles)?;
    good_plans(alloc, casts, plans, &step_lines)
}

/// The plans that a script for threads spells.
pub(crate) fn read_plans(alloc: Global, bytes: &[u8]) -> Result<Plans, PlansFault> {
    match read_script(alloc, bytes, Mode::Threads) {
        Ok(Script { casts, items }) => match items {
            Items::Steps(steps) => plans_of(alloc, casts, steps),
            Items::Events(_) => Err(PlansFault::Line(0, Wrong::BadLine)),
        },
        Err(ScriptFault::NoMemory) => Err(PlansFault::Memory),
        Err(ScriptFault::Line(line, wrong)) => Err(PlansFault::Line(line, wrong)),
    }
}

/// The limit that a caller of the actor has, if any.
pub(crate) fn limit_of(setup: &CallerSetup, a: ActorId) -> Option<u32> {
    for (actor, limit) in &setup.limits {
        if *actor == a {
            return *limit;
        }
    }
    None
}

/// How many calls a plan submits, where it awaits nothing.
fn unawaited_calls(plan: &[Step]) -> usize {
    let mut calls = 0usize;
    for step in plan {
        match step {
            Step::Await(_) => return 0,
            Step::Submit(..) => calls = calls.wrapping_add(1),
            _ => {}
        }
    }
    calls
}

/// The lines by which each caller that awaits nothing awaits its last call.
fn closing_lines(alloc: Global, plans: &Plans) -> Result<String, AllocError> {
    let mut text = String::new(alloc);
    for setup in &plans.setups {
        let calls = unawaited_calls(&setup.plan);
        if calls > 0 {
            let caller = setup.caller;
            let last = calls.saturating_sub(1);
            writeln!(text, "await {caller} {last}")?;
        }
    }
    Ok(text)
}

/// The script, and after it an await at the end of each plan that has none.
pub(crate) fn closed_script(
    alloc: Global,
    script: &[u8],
    plans: &Plans,
) -> Result<Vec<u8>, AllocError>
    ensures { IfOk result (λ closed. Extends script.now closed.items) }
{
    let lines = closing_lines(alloc, plans)?;
    let mut closed = Vec::from_slice(alloc, script)?;
    closed.push(b'\n')?;
    closed.extend_from_slice(lines.as_bytes())?;
    Ok(closed)
}
