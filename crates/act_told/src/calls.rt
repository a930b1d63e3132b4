//! Calls as they are told.

ghost use Rattle.std.specs.Prelude.{◌≡◌, ◌<◌, ◌^◌, [], ◌∷◌, ◌++◌, IfOk, OnOk, map, length, option_copied};
ghost use Rattle.act_serve.specs.Served.{end_view};
ghost use Rattle.act_owner.specs.Owner.{submission_of};
ghost use Rattle.act_told.specs.Told.{calls_from, calls_told, call_told, outcome_of, takes_told};
ghost use Rattle.act_told.specs.Starts.{starts_from, AreSmall};

use crate::actors::actor_place;
use act_kinds::Actor;
use act_orders::{Call, Outcome};
use act_owner::Owner;
use act_serve::Finished;
use act_types::{Answer, Arg, CallerId, Fault, FutureId, ListOf, NoMemory};
use std::alloc::Global;

/// What became of a call, by the answer that is kept of it.
fn outcome_of(answer: Option<&Answer>) -> Outcome
    ensures { result ≡ outcome_of (option_copied answer.entry) }
{
    match answer {
        None => Outcome::Open,
        Some(Ok(_)) => Outcome::Answered,
        Some(Err(Fault::ActorDied)) => Outcome::Died,
        Some(Err(_)) => Outcome::Failed,
    }
}

/// Adds the place of the call whose answer an argument is, if it is one.
fn push_take(takes: &mut ListOf<usize>, arg: &Arg, start: usize) -> Result<(), NoMemory>
    requires { start < 2 ^ 63 }
    ensures { OnOk result (takes.new ≡ takes.old ++ takes_told start (arg.now ∷ [])) }
{
    if let Arg::Fut(k) = arg {
        takes.push(start + k.number() as usize)?;
    }
    Ok(())
}

/// The places of the calls whose answers a call takes, where its caller's calls begin at this place.
fn takes_of(alloc: Global, args: &[Arg], start: usize) -> Result<ListOf<usize>, NoMemory>
    requires { start < 2 ^ 63 }
    ensures { IfOk result (λ takes. takes ≡ takes_told start args.now) }
{
    let mut takes = ListOf::new(alloc);
    for arg in args {
        push_take(&mut takes, arg, start)?;
    }
    Ok(takes)
}

/// A call of a caller, whose calls begin at this place.
fn call_of<K: Actor>(
    alloc: Global,
    actors: &[Finished<K>],
    owner: &Owner,
    start: usize,
    k: FutureId,
    call: &act_owner::Call,
) -> Result<Call, NoMemory>
    requires { start < 2 ^ 63 }
    ensures { IfOk result (λ told. told ≡
        call_told (map (λ actor. end_view K.state actor.ended) actors.now) owner.now start k
        (submission_of call.now)) }
{
    Ok(Call {
        caller: owner.id().number() as usize,
        actor: actor_place(actors, call.actor),
        waits: ListOf::new(alloc),
        takes: takes_of(alloc, call.args.as_slice(), start)?,
        outcome: outcome_of(owner.answer(k)),
    })
}

/// Adds the calls of a caller.
fn push_calls<K: Actor>(
    alloc: Global,
    actors: &[Finished<K>],
    owner: &Owner,
    start: usize,
    calls: &mut ListOf<Call>,
) -> Result<(), NoMemory>
    requires { start < 2 ^ 63 }
    ensures { OnOk result (calls.new ≡ calls.old ++
        calls_from (map (λ actor. end_view K.state actor.ended) actors.now) owner.now start 0 owner.now.calls) }
{
    for number in 0..owner.count() {
        let k = FutureId::new(number);
        let Some(call) = owner.call(k) else {
            unreachable!()
        };
        calls.push(call_of(alloc, actors, owner, start, k, call)?)?;
    }
    Ok(())
}

/// Where each caller's calls begin.
pub(crate) type Starts = Vec<(CallerId, usize)>;

/// Adds the calls of each caller, and gives where they begin.
pub(crate) fn push_all_calls<K: Actor>(
    alloc: Global,
    actors: &[Finished<K>],
    owners: &[Owner],
    calls: &mut ListOf<Call>,
) -> Result<Starts, NoMemory>
    ensures calls { OnOk result (calls.new ≡ calls.old ++
        calls_told (map (λ actor. end_view K.state actor.ended) actors.now) (length calls.old) owners.now) }
    ensures starts { IfOk result (λ starts. starts.items ≡ starts_from (length calls.old) owners.now) }
    ensures small { IfOk result (λ starts. AreSmall starts.items) }
{
    let mut starts = Vec::new(alloc);
    for owner in owners {
        let start = calls.as_slice().len();
        starts.push((owner.id(), start))?;
        push_calls(alloc, actors, owner, start, calls)?;
    }
    Ok(starts)
}
