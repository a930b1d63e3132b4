//! Lists that clients write again and again: arguments of a call, callers of an actor, the cast of one actor.

ghost use Rattle.std.specs.Prelude.{◌≡◌, ◌∷◌, [], IfOk, map};
ghost use Rattle.act_short.specs.Short.{number_arg, one_cast};

use act_actor::Cast;
use act_types::{ActorId, Arg, CallerId, ListOf, NoMemory, Value};
use std::alloc::Global;

/// The list of these items.
pub fn list_of<T: Drop, const N: usize>(alloc: Global, items: [T; N]) -> Result<ListOf<T>, NoMemory>
    ensures { IfOk result (λ list. list ≡ items) }
{
    Ok(ListOf::from_vec(Vec::from_array(alloc, items)?))
}

/// These numbers, as the arguments of a call.
pub fn args_of(alloc: Global, numbers: &[i64]) -> Result<ListOf<Arg>, NoMemory>
    ensures { IfOk result (λ args. args ≡ map number_arg numbers.now) }
{
    let mut args = ListOf::with_capacity(alloc, numbers.len())?;
    for number in numbers {
        args.push(Arg::Plain(Value::Int(*number)))?;
    }
    Ok(args)
}

/// The list of these callers.
pub fn callers_of(alloc: Global, callers: &[CallerId]) -> Result<ListOf<CallerId>, NoMemory>
    ensures { IfOk result (λ list. list ≡ callers.now) }
{
    Ok(ListOf::from_vec(Vec::from_slice(alloc, callers)?))
}

/// The casts of one actor alone.
pub fn casts_of_one<K: Drop>(
    alloc: Global,
    actor: ActorId,
    callers: &[CallerId],
    kind: K,
    pending: Option<u32>,
) -> Result<Vec<Cast<K>>, NoMemory>
    ensures { IfOk result (λ casts. casts.items ≡ one_cast actor callers.now kind pending ∷ []) }
{
    let callers = callers_of(alloc, callers)?;
    let mut casts = Vec::new(alloc);
    casts.push(Cast {
        actor,
        callers,
        kind,
        pending,
    })?;
    Ok(casts)
}
