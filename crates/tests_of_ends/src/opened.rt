//! What is explored: one actor of two callers, and what is asked of it.

ghost use Rattle.std.specs.Prelude.{◌≡◌, map, IfOk};
ghost use Rattle.act_actor.specs.Cast.{IsFitting};
ghost use Rattle.act_actor.specs.Casts.{actor_spec};
ghost use Rattle.tests_of_ends.specs.Examples.{one_spec};

use act_actor::{Cast, cast_fits};
use act_explore::{Check, Opening};
use act_kinds::{Actor, Counter, Table};
use act_types::{ActorId, Arg, CallerId, ListOf, NoMemory, Value};
use act_world::{Stage, World};
use std::alloc::Global;

/// One actor of two callers.
fn shared<K: Actor>(alloc: Global, kind: K) -> Result<Vec<Cast<K>>, NoMemory>
    ensures fit { IfOk result (λ casts. IsFitting casts.items) }
    ensures specs { IfOk result (λ casts. map (actor_spec K.state) casts.items ≡ one_spec (K.state kind)) }
{
    let mut callers = ListOf::new(alloc);
    callers.push(CallerId::new(1).unwrap())?;
    callers.push(CallerId::new(2).unwrap())?;
    let mut casts = Vec::new(alloc);
    casts.push(Cast {
        actor: ActorId::new(1).unwrap(),
        callers,
        kind,
        pending: None,
    })?;
    if !cast_fits(&casts) {
        return Err(NoMemory);
    }
    Ok(casts)
}

#[derive(Clone, Copy)]
pub(crate) struct Counters;

impl Opening<Counter> for Counters {
    ghost use Rattle.std.specs.Prelude.{pos};
    ghost use Rattle.act_types.specs.KindState.{CounterAt};
    ghost use Rattle.tests_of_ends.specs.Examples.{one_spec};

    ghost casts = { λ _. one_spec (CounterAt (pos 0)) };

    fn open(&self, alloc: Global) -> Result<Vec<Cast<Counter>>, NoMemory> {
        shared(alloc, Counter::open())
    }
}

#[derive(Clone, Copy)]
pub(crate) struct Tables;

impl Opening<Table> for Tables {
    ghost use Rattle.std.specs.Prelude.{[]};
    ghost use Rattle.act_types.specs.KindState.{TableOf};
    ghost use Rattle.tests_of_ends.specs.Examples.{one_spec};

    ghost casts = { λ _. one_spec (TableOf []) };

    fn open(&self, alloc: Global) -> Result<Vec<Cast<Table>>, NoMemory> {
        shared(alloc, Table::open(alloc))
    }
}

pub(crate) fn adding(alloc: Global, number: i64) -> Result<ListOf<Arg>, NoMemory> {
    let mut args = ListOf::new(alloc);
    args.push(Arg::Plain(Value::Int(number)))?;
    Ok(args)
}

/// That the actor is in a state of this text.
#[derive(Clone, Copy)]
pub(crate) struct Shows {
    alloc: Global,
    text: &'static str,
}

pub(crate) fn with_text(alloc: Global, text: &'static str) -> Shows {
    Shows { alloc, text }
}

impl<K: Actor> Check<K> for Shows {
    ghost use Rattle.tests_of_ends.specs.Examples.{any_answer};

    ghost holds = { any_answer };

    fn check(&self, world: &World<K>) -> Result<bool, NoMemory> {
        let mut text = String::new(self.alloc);
        if let Some(Stage::Live(live)) = world.stage(ActorId::new(1).unwrap()) {
            live.state_text(&mut text)?;
        }
        Ok(text.as_str() == self.text)
    }
}
