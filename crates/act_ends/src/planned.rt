//! The roles and the plans that a script for threads spells.

ghost use Rattle.std.specs.Prelude.{◌≡◌, map, IfOk};
ghost use Rattle.act_rules.specs.declared.script.Mode.TheVariants.{Threads};
ghost use Rattle.act_rules.specs.Scripts.{actor_spec_of};
ghost use Rattle.act_scripts.specs.Roles.{AreFitting};
ghost use Rattle.act_scripts.specs.Spelled.{mode_of, spelled_script};
ghost use Rattle.act_ends.specs.Frontier.{Extends};
ghost use Rattle.act_ends.specs.Scripted.{AreOf, AreSpelled};

use crate::fault::PlansFault;
use crate::plans::{closed_script, read_plans};
use crate::roles::Roles;
use act_console::{Sorted, sort};
use act_plans::Plan;
use act_rules::Mode;
use act_scripts::{Items, Script, ScriptFault, read_script};
use act_types::{CallerId, NoMemory};
use std::alloc::Global;

/// The roles of a script for threads, and the plan of each caller that they name.
#[derive(Drop)]
pub struct Planned {
    pub roles: Roles,
    pub plans: Vec<(CallerId, Plan)>,
}

/// The script, and after it an await of the last call of each caller whose plan awaits nothing, as
/// `Search::script` has it. A script that has bad plans has none.
pub fn read_closed(alloc: Global, bytes: &[u8]) -> Result<Vec<u8>, PlansFault>
    ensures { IfOk result (λ closed. Extends bytes.now closed.items) }
{
    let plans = read_plans(alloc, bytes)?;
    let closed = closed_script(alloc, bytes, &plans)?;
    drop(plans);
    Ok(closed)
}

/// The roles and the plans of a script that was read.
fn planned_of(alloc: Global, script: Script) -> Result<Planned, NoMemory>
    requires mode { mode_of script.items ≡ Threads }
    requires roles { AreFitting (map actor_spec_of script.casts) }
    ensures { IfOk result (AreOf (spelled_script script)) }
{
    let Script {
        casts: roles,
        items,
    } = script;
    let Items::Steps(steps) = items else {
        unreachable!()
    };
    let Sorted { plans, .. } = sort(alloc, roles.as_slice(), steps)?;
    Ok(Planned {
        roles: Roles::new(roles),
        plans,
    })
}

/// The roles and the plans that the bytes of a script for threads spell.
pub fn read_planned(alloc: Global, bytes: &[u8]) -> Result<Planned, PlansFault>
    ensures { IfOk result (AreSpelled bytes.now) }
{
    match read_script(alloc, bytes, Mode::Threads) {
        Ok(script) => Ok(planned_of(alloc, script)?),
        Err(ScriptFault::NoMemory) => Err(PlansFault::Memory),
        Err(ScriptFault::Line(line, wrong)) => Err(PlansFault::Line(line, wrong)),
    }
}
