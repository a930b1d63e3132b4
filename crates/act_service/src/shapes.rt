//! What is kept of casts beside a run that uses them up, and the casts that the run leaves.

ghost use Rattle.std.specs.Prelude.{◌≡◌, ◌==◌, map, filter_map, position, option_map, IfOk};
ghost use Rattle.act_actor.specs.Casts.{actor_spec};
ghost use Rattle.act_actor.specs.StateViews.{retired_view};
ghost use Rattle.act_serve.specs.Served.{end_view};
ghost use Rattle.act_service.specs.Shapes.{shape_of, cast_of_shape, cast_left_by};

use act_actor::{Cast, Retired, RunLog};
use act_kinds::Actor;
use act_serve::{Ended, Finished};
use act_types::{ActorId, CallerId, ListOf, NoMemory};
use std::alloc::Global;

/// A cast without its kind.
#[derive(Drop)]
pub(crate) struct Shape {
    actor: ActorId,
    callers: ListOf<CallerId>,
    pending: Option<u32>,
}

/// The callers once more.
fn copy_callers(alloc: Global, callers: &[CallerId]) -> Result<ListOf<CallerId>, NoMemory>
    ensures { IfOk result (λ copied. copied ≡ callers.now) }
{
    let mut copied = Vec::new(alloc);
    copied.extend_from_slice(callers)?;
    Ok(ListOf::from_vec(copied))
}

/// A copy of a cast's shape.
fn copy_shape<K>(alloc: Global, cast: &Cast<K>) -> Result<Shape, NoMemory>
    ensures { IfOk result (λ shape. shape ≡ shape_of cast.now) }
{
    Ok(Shape {
        actor: cast.actor,
        callers: copy_callers(alloc, cast.callers.as_slice())?,
        pending: cast.pending,
    })
}

/// The shapes of casts, in their order.
pub(crate) fn copy_shapes<K>(alloc: Global, casts: &[Cast<K>]) -> Result<Vec<Shape>, NoMemory>
    ensures { IfOk result (λ shapes. shapes.items ≡ map shape_of casts.now) }
{
    let mut shapes = Vec::new(alloc);
    for cast in casts {
        shapes.push(copy_shape(alloc, cast)?)?;
    }
    Ok(shapes)
}

/// The place of the actor's shape.
fn place_of_shape(shapes: &[Shape], actor: ActorId) -> Option<usize>
    ensures { result ≡ position (λ shape. shape.actor == actor) shapes.now }
{
    shapes.iter().position(|shape| shape.actor == actor)
}

/// The cast of a retired actor: its shape, and the kind that it left.
fn cast_of_retired<K: Actor, L: RunLog>(
    alloc: Global,
    shapes: &[Shape],
    retired: Retired<K, L>,
) -> Result<Option<Cast<K>>, NoMemory>
    ensures { IfOk result (λ cast.
        option_map (actor_spec K.state) cast ≡ cast_of_shape shapes.now (retired_view K.state retired)) }
{
    let Some(place) = place_of_shape(shapes, retired.id()) else {
        return Ok(None);
    };
    let shape = &shapes[place];
    let callers = copy_callers(alloc, shape.callers.as_slice())?;
    Ok(Some(Cast {
        actor: shape.actor,
        callers,
        kind: retired.into_kind(),
        pending: shape.pending,
    }))
}

/// The cast that an actor leaves: none where it died.
fn cast_left<K: Actor, L: RunLog>(
    alloc: Global,
    shapes: &[Shape],
    ended: Ended<K, L>,
) -> Result<Option<Cast<K>>, NoMemory>
    ensures { IfOk result (λ cast.
        option_map (actor_spec K.state) cast ≡ cast_left_by shapes.now (end_view K.state ended)) }
{
    match ended {
        Ended::Retired(retired) => cast_of_retired(alloc, shapes, retired),
        Ended::Killed(_) => Ok(None),
        Ended::Starved(_) => Ok(None),
    }
}

/// The casts of the actors that retired, in their order, each with the kind that it left.
pub(crate) fn casts_left<K: Actor, L: RunLog>(
    alloc: Global,
    shapes: &[Shape],
    actors: Vec<Finished<K, L>>,
) -> Result<Vec<Cast<K>>, NoMemory>
    ensures { IfOk result (λ left. map (actor_spec K.state) left.items
        ≡ filter_map (cast_left_by shapes.now) (map (λ actor. end_view K.state actor.ended) actors.items)) }
{
    let mut left = Vec::new(alloc);
    for actor in actors {
        let Finished { ended, passes } = actor;
        drop(passes);
        if let Some(cast) = cast_left(alloc, shapes, ended)? {
            left.push(cast)?;
        }
    }
    Ok(left)
}
