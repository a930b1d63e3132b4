//! The roles of a script, opened.

ghost use Rattle.std.specs.Prelude.{◌≡◌, map, IfOk};
ghost use Rattle.act_rules.specs.Scripts.{actor_spec_of};
ghost use Rattle.act_actor.specs.Casts.{actor_spec};
ghost use Rattle.act_scripts.specs.Roles.{AreFitting};
ghost use Rattle.act_ends.specs.Kinds.{state_of};

use crate::kind::Kind;
use act_actor::Cast;
use act_explore::Opening;
use act_rules::Role;
use act_types::{ListOf, NoMemory};
use std::alloc::Global;
use std::marker::Model;

/// The roles of a script, which fit. A search opens their actors, for each state anew.
#[derive(Drop)]
pub struct Roles {
    roles: ListOf<Role>,
}

impl Model for Roles {
    ghost use Rattle.std.specs.Prelude.{List, map};
    ghost use Rattle.act_rules.specs.declared.script.Role.{Role};
    ghost use Rattle.act_rules.specs.Scripts.{actor_spec_of};
    ghost use Rattle.act_scripts.specs.Roles.{AreFitting};

    ghost Value = { List Role };

    ghost view = { λ roles. roles.roles };

    ghost invariant = { λ roles. AreFitting (map actor_spec_of roles.roles) };
}

impl Roles {
    /// Roles that fit.
    pub fn new(roles: ListOf<Role>) -> Roles
        requires fit { AreFitting (map actor_spec_of roles) }
        ensures { result ≡ roles }
    {
        Roles { roles }
    }
}

/// A role's cast, with its kind in its opening state.
fn cast_of(alloc: Global, role: &Role) -> Result<Cast<Kind>, NoMemory>
    ensures { IfOk result (λ cast. actor_spec state_of cast ≡ actor_spec_of role.now) }
{
    let callers = Vec::from_slice(alloc, role.callers.as_slice())?;
    Ok(Cast {
        actor: role.actor,
        callers: ListOf::from_vec(callers),
        kind: Kind::open(alloc, role.kind),
        pending: role.pending,
    })
}

/// The casts of roles, with their kinds in their opening states.
fn casts_of(alloc: Global, roles: &[Role]) -> Result<Vec<Cast<Kind>>, NoMemory>
    ensures { IfOk result (λ casts. map (actor_spec state_of) casts.items ≡ map actor_spec_of roles.now) }
{
    let mut casts = Vec::new(alloc);
    for role in roles {
        casts.push(cast_of(alloc, role)?)?;
    }
    Ok(casts)
}

impl Opening<Kind> for Roles {
    ghost use Rattle.std.specs.Prelude.{map};
    ghost use Rattle.act_rules.specs.Scripts.{actor_spec_of};

    ghost casts = { λ roles. map actor_spec_of roles };

    fn open(&self, alloc: Global) -> Result<Vec<Cast<Kind>>, NoMemory> {
        let casts = casts_of(alloc, self.roles.as_slice())?;
        Ok(casts)
    }
}
