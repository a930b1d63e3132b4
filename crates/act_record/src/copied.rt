//! Roles once more.

ghost use Rattle.std.specs.Prelude.{◌≡◌, IfOk};

use act_rules::Role;
use act_types::{CallerId, ListOf, NoMemory};
use std::alloc::Global;

/// The same callers.
fn copy_of_callers(alloc: Global, callers: &[CallerId]) -> Result<ListOf<CallerId>, NoMemory>
    ensures { IfOk result (λ copies. copies ≡ callers.now) }
{
    let mut copies = ListOf::new(alloc);
    for caller in callers {
        copies.push(*caller)?;
    }
    Ok(copies)
}

/// The same role.
fn copy_of_role(alloc: Global, role: &Role) -> Result<Role, NoMemory>
    ensures { IfOk result (λ copy. copy ≡ role.now) }
{
    Ok(Role {
        actor: role.actor,
        callers: copy_of_callers(alloc, role.callers.as_slice())?,
        kind: role.kind,
        pending: role.pending,
    })
}

/// The same roles.
pub(crate) fn copy_of_roles(alloc: Global, roles: &[Role]) -> Result<ListOf<Role>, NoMemory>
    ensures { IfOk result (λ copies. copies ≡ roles.now) }
{
    let mut copies = ListOf::new(alloc);
    for role in roles {
        copies.push(copy_of_role(alloc, role)?)?;
    }
    Ok(copies)
}
