//! The steps that a session did, one after another. Contracts alone know them: they have no bytes.

ghost use Rattle.std.specs.Prelude.{◌≡◌, [], ◌∷◌, ◌++◌};
ghost use Rattle.act_drive.specs.Doing.{step_of};

use crate::doing::Doing;
use std::marker::Model;
use std::mem;
use std::snapshot::Snapshot;

/// No step, or the last one after those before it.
#[derive(Drop)]
#[cycle(did)]
pub struct Did {
    last: Option<Last>,
}

#[derive(Drop)]
#[cycle(did)]
struct Last {
    before: Snapshot<Did>,
    step: Doing,
}

impl Model for Did {
    ghost use Rattle.std.specs.Prelude.{List, [], ◌∷◌, ◌++◌, length};
    ghost use Rattle.std.specs.Option.{option_map_or};
    ghost use Rattle.std.proofs.Common.{arith, length-append};
    ghost use Rattle.act_rules.specs.declared.script.Step.{Step};
    ghost use Rattle.act_drive.specs.Doing.{step_of};

    ghost Value = { List Step };

    ghost view = { λ did. option_map_or (λ last. last.before.value ++ step_of last.step ∷ []) did.last [] };

    ghost size = { length };

    ghost size_decreases = { λ did h. Prim.grind (arith, length-append) };
}

/// No step.
pub fn no_step() -> Snapshot<Did>
    ensures { result.value ≡ [] }
{
    Snapshot::of(&Did { last: None })
}

/// Adds a step. It is let go.
pub fn add_step(did: &mut Snapshot<Did>, step: Doing)
    ensures { did.new.value ≡ did.old.value ++ step_of step ∷ [] }
{
    let before = mem::replace(did, no_step());
    *did = Snapshot::of(&Did {
        last: Some(Last { before, step }),
    });
}
