//! Keys of paths: paths with the same key have the same choices at each actor.

ghost use Rattle.std.specs.Prelude.{◌≡◌, ◌++◌, ◌∷◌, [], map, All, Contains, IfOk, OnOk, string_bytes};
ghost use Rattle.act_types.specs.declared.limits.TheConstants.{MAX_ACTORS};
ghost use Rattle.act_rules.specs.Report.{one_to};
ghost use Rattle.act_explore.specs.Paths.{run_at, is_take, runs_in, takes_in, letter_of, part_of, key_of, HasNumber};

use act_plan_plays::Choice;
use act_types::{ActorId, CallerId, MAX_ACTORS, NoMemory};
use std::alloc::Global;

/// Whose call the choice has the actor run.
fn run_at(choice: &Choice, actor: ActorId) -> Option<CallerId>
    ensures { result ≡ run_at actor choice.now }
{
    match choice {
        Choice::Run(a, c) => { if *a == actor { Some(*c) } else { None } }
        Choice::Take(_) => None,
    }
}

/// Whether by the choice the actor takes a kill.
fn is_take(choice: &Choice, actor: ActorId) -> bool
    ensures { result ≡ is_take actor choice.now }
{
    match choice {
        Choice::Run(_, _) => false,
        Choice::Take(a) => *a == actor,
    }
}

/// Whether the actor takes a kill on the path.
fn takes(path: &[Choice], actor: ActorId) -> bool
    ensures { result ≡ takes_in actor path.now }
{
    path.iter().any(|choice| is_take(choice, actor))
}

/// Adds the letter of a caller.
fn push_caller(key: &mut String, caller: CallerId) -> Result<(), NoMemory>
    ensures { OnOk result (string_bytes key.new ≡ string_bytes key.old ++ letter_of caller ∷ []) }
{
    let number = caller.number();
    Ok(key.push(char::from(b'`' + number))?)
}

/// Adds the letters of the callers whose calls the actor runs on the path.
fn push_runs(key: &mut String, path: &[Choice], actor: ActorId) -> Result<(), NoMemory>
    ensures { OnOk result (string_bytes key.new ≡ string_bytes key.old ++ map letter_of (runs_in actor path.now)) }
{
    for choice in path {
        if let Some(caller) = run_at(choice, actor) {
            push_caller(key, caller)?;
        }
    }
    Ok(())
}

/// Adds an actor's part.
fn push_part(key: &mut String, path: &[Choice], actor: ActorId) -> Result<(), NoMemory>
    ensures { OnOk result (string_bytes key.new ≡ string_bytes key.old ++ part_of path.now actor) }
{
    let mark = if takes(path, actor) { '!' } else { '.' };
    key.push(mark)?;
    push_runs(key, path, actor)?;
    key.push('\n')?;
    Ok(())
}

/// The key of a path.
pub(crate) fn key_of(alloc: Global, path: &[Choice]) -> Result<String, NoMemory>
    ensures { IfOk result (λ key. string_bytes key ≡ key_of path.now) }
{
    let mut key = String::new(alloc);
    for before in 0..MAX_ACTORS {
        let actor = ActorId::new(before + 1).unwrap();
        push_part(&mut key, path, actor)?;
    }
    Ok(key)
}

/// Makes known that an actor's number is within the limit.
fn know_actor(actor: ActorId)
    ensures { Contains (one_to MAX_ACTORS) actor }
{
    prove!(1 <= actor.number() && actor.number() <= MAX_ACTORS);
}

/// Makes known that the choice is one of an actor.
fn know_number(choice: &Choice)
    ensures { HasNumber choice.now }
{
    match choice {
        Choice::Run(a, _) => know_actor(*a),
        Choice::Take(a) => know_actor(*a),
    }
}

/// Makes known that each choice of a path is one of an actor.
pub(crate) fn know_numbers(path: &[Choice])
    ensures { All HasNumber path.now }
{
    for choice in path {
        know_number(choice);
    }
}
