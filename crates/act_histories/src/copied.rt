//! Roles, copied: a world takes its own.

ghost use Rattle.std.specs.Prelude.{◌≡◌, IfOk};

use act_rules::Role;
use act_types::{CallerId, ListOf, NoMemory};
use std::alloc::Global;

fn copied_callers(alloc: Global, callers: &[CallerId]) -> Result<ListOf<CallerId>, NoMemory>
    ensures { IfOk result (λ copy. copy ≡ callers.now) }
{
    let mut copy = ListOf::new(alloc);
    for caller in callers {
        copy.push(*caller)?;
    }
    Ok(copy)
}

fn copied_role(alloc: Global, role: &Role) -> Result<Role, NoMemory>
    ensures { IfOk result (λ copy. copy ≡ role.now) }
{
    let callers = copied_callers(alloc, role.callers.as_slice())?;
    Ok(Role {
        actor: role.actor,
        callers,
        kind: role.kind,
        pending: role.pending,
    })
}

/// The same roles once more.
pub(crate) fn copied_roles(alloc: Global, roles: &[Role]) -> Result<ListOf<Role>, NoMemory>
    ensures { IfOk result (λ copy. copy ≡ roles.now) }
{
    let mut copy = ListOf::new(alloc);
    for role in roles {
        copy.push(copied_role(alloc, role)?)?;
    }
    Ok(copy)
}
