//! The history of a run in threads.

ghost use Rattle.std.specs.Prelude.{◌≡◌, IfOk, map};
ghost use Rattle.act_serve.specs.Served.{end_view, end_id};
ghost use Rattle.act_told.specs.Told.{told_by};

use crate::actors::{actors_of, numbers_of};
use crate::calls::push_all_calls;
use crate::runs::runs_of;
use act_executor::Joined;
use act_kinds::Actor;
use act_orders::Told;
use act_types::{ListOf, NoMemory};
use std::alloc::Global;

/// The number of each actor that a run left, by its place: by these a history is written.
pub fn names_of<K: Actor>(alloc: Global, joined: &Joined<K>) -> Result<Vec<usize>, NoMemory>
    ensures { IfOk result (λ names.
        names.items ≡ map (λ actor. end_id (end_view K.state actor.ended)) joined.now.actors.items) }
{
    numbers_of(alloc, joined.actors.as_slice())
}

/// The history that a run in threads left, for actors of any kind: what callers submitted and were
/// answered, and what each actor ran. `judge` tells whether it is in order, and `write_history` writes
/// it for `./check`. For which answers a caller waited is not told, since a run doesn't keep it.
pub fn told_of<K: Actor>(alloc: Global, joined: &Joined<K>) -> Result<Told, NoMemory>
    ensures { IfOk result (λ told. told ≡ told_by joined.now.owners.items
        (map (λ actor. end_view K.state actor.ended) joined.now.actors.items)) }
{
    let owners = joined.owners.as_slice();
    let actors = joined.actors.as_slice();
    let mut calls = ListOf::new(alloc);
    let starts = push_all_calls(alloc, actors, owners, &mut calls)?;
    let all = calls.as_slice().len();
    let runs = runs_of(alloc, starts.as_slice(), all, actors)?;
    let actors = actors_of(alloc, owners, actors)?;
    Ok(Told {
        calls,
        runs,
        actors,
        waits: ListOf::new(alloc),
    })
}
