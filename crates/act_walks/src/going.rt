//! All that is told, done in rounds.

ghost use Rattle.std.specs.Prelude.{IfOk, OnOk};
ghost use Rattle.act_walks.specs.Walking.{parts_of, Moves, NoMove, ComesThrough};

use crate::acting::act_all;
use crate::fault::WalkFault;
use crate::hearing::hear_all;
use crate::played::Walked;
use crate::serving::serve_all;
use crate::told::ToldEnd;
use act_kinds::Actor;

/// All go on as far as they can. Only where nobody can, callers hear of deaths.
fn round<K: Actor>(walk: &mut Walked<K>, end: &ToldEnd) -> Result<bool, WalkFault>
    ensures { IfOk result
        (Moves end.now (NoMove end.now) (parts_of K.state walk.old) (parts_of K.state walk.new)) }
{
    let mut moved = act_all(walk, end)?;
    moved |= serve_all(walk, end)?;
    if moved {
        return Ok(true);
    }
    let has_heard = hear_all(walk, end)?;
    Ok(has_heard)
}

/// The walk goes on until it can't.
pub(crate) fn go<K: Actor>(walk: &mut Walked<K>, end: &ToldEnd) -> Result<(), WalkFault>
    ensures { OnOk result
        (ComesThrough end.now (parts_of K.state walk.old) (parts_of K.state walk.new)) }
{
    for _ in 0..u32::MAX {
        if !round(walk, end)? {
            return Ok(());
        }
    }
    Err(WalkFault::Stuck)
}
