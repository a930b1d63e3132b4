//! The report of a run of threads.

ghost use Rattle.std.specs.Prelude.{◌≡◌, ◌≤◌, ◌==◌, ◌++◌, OnOk, OnErr, IfOk, map, position, string_bytes, option_copied, option_map};
ghost use Rattle.std.specs.List.{flat_map};
ghost use Rattle.act_types.specs.Texts.{space, actor_text};
ghost use Rattle.act_rules.specs.Report.{line, one_to};
ghost use Rattle.act_serve.specs.Served.{end_view, end_id};
ghost use Rattle.act_executor.specs.Joined.{owner_of, end_of};
ghost use Rattle.act_console.specs.Threads.{end_text, owner_lines_in, end_lines_in, joined_summary};

use crate::report::{push_futures, push_items};
use act_executor::{Ended, Finished, Joined};
use act_kinds::Actor;
use act_owner::Owner;
use act_types::{ActorId, CallerId, MAX_ACTORS, MAX_CALLERS, NoMemory};
use std::alloc::Global;

/// The place of the caller of this number, if it is there.
fn place_of_owner(owners: &[Owner], caller: CallerId) -> Option<usize>
    ensures { result ≡ position (λ owner. owner.id == caller) owners.now }
{
    owners.iter().position(|owner| owner.id() == caller)
}

/// The caller of this number, if it is there.
fn owner_of(owners: &[Owner], caller: CallerId) -> Option<&Owner>
    ensures { option_copied result ≡ owner_of caller owners.now }
{
    let place = place_of_owner(owners, caller)?;
    Some(&owners[place])
}

/// The place of the actor of this number, if it is there.
fn place_of_end<K: Actor>(actors: &[Finished<K>], actor: ActorId) -> Option<usize>
    ensures { result ≡ position (λ one. end_id (end_view K.state one.ended) == actor) actors.now }
{
    actors.iter().position(|one| one.ended.id() == actor)
}

/// The actor of this number, if it is there.
fn end_of<K: Actor>(actors: &[Finished<K>], actor: ActorId) -> Option<&Ended<K>>
    ensures { option_map (end_view K.state) (option_copied result)
        ≡ end_of actor (map (λ actor. end_view K.state actor.ended) actors.now) }
{
    let place = place_of_end(actors, actor)?;
    Some(&actors[place].ended)
}

/// Adds how an actor ended.
fn push_end<K: Actor>(text: &mut String, ended: &Ended<K>) -> Result<(), NoMemory>
    ensures { OnOk result (string_bytes text.new ≡ string_bytes text.old ++ end_text (end_view K.state ended.now)) }
{
    match ended {
        Ended::Killed(_) | Ended::Starved(_) => text.push_str("dead")?,
        Ended::Retired(retired) => {
            text.push_str("retired ")?;
            retired.state_text(text)?;
        }
    }
    Ok(())
}

/// Adds the line of an actor.
fn push_actor<K: Actor>(text: &mut String, actor: ActorId, ended: &Ended<K>) -> Result<(), NoMemory>
    ensures { OnOk result (string_bytes text.new ≡
        string_bytes text.old ++ line (actor_text actor ++ space ++ end_text (end_view K.state ended.now))) }
{
    write!(text, "{actor} ")?;
    push_end(text, ended)?;
    text.push_str("\n")?;
    Ok(())
}

/// Adds a line for each future, callers by rising number.
fn push_owners(text: &mut String, owners: &[Owner]) -> Result<(), NoMemory>
    ensures { OnOk result (string_bytes text.new
        ≡ string_bytes text.old ++ flat_map (owner_lines_in owners.now) (one_to MAX_CALLERS)) }
{
    for before in 0..MAX_CALLERS {
        let caller = CallerId::new(before + 1).unwrap();
        if let Some(owner) = owner_of(owners, caller) {
            push_futures(text, owner)?;
        }
    }
    Ok(())
}

/// Adds the lines of each actor, by rising number.
fn push_ends<K: Actor>(text: &mut String, actors: &[Finished<K>]) -> Result<(), NoMemory>
    ensures { OnOk result (string_bytes text.new ≡
        string_bytes text.old ++ flat_map (end_lines_in (map (λ actor. end_view K.state actor.ended) actors.now))
        (one_to MAX_ACTORS)) }
{
    for before in 0..MAX_ACTORS {
        let actor = ActorId::new(before + 1).unwrap();
        if let Some(ended) = end_of(actors, actor) {
            push_actor(text, actor, ended)?;
            push_items(text, actor, ended.log())?;
        }
    }
    Ok(())
}

/// The summary of a run.
pub(crate) fn summary_of<K: Actor>(alloc: Global, joined: &Joined<K>) -> Result<String, NoMemory>
    ensures { IfOk result (λ text.
        string_bytes text ≡ joined_summary joined.now.owners.items
        (map (λ actor. end_view K.state actor.ended) joined.now.actors.items)) }
{
    let mut text = String::new(alloc);
    push_owners(&mut text, joined.owners.as_slice())?;
    push_ends(&mut text, joined.actors.as_slice())?;
    Ok(text)
}

/// Adds the summary of a run of threads: a line for each future, and the actors with what they ran,
/// all by rising number. An `Err` leaves the text as it was.
pub fn joined_report<K: Actor>(
    alloc: Global,
    joined: &Joined<K>,
    text: &mut String,
) -> Result<(), NoMemory>
    ensures ok { OnOk result (string_bytes text.new ≡
        string_bytes text.old ++ joined_summary joined.now.owners.items
        (map (λ actor. end_view K.state actor.ended) joined.now.actors.items)) }
    ensures err { OnErr result (string_bytes text.new ≡ string_bytes text.old) }
{
    let report = summary_of(alloc, joined)?;
    text.push_str(&report)?;
    Ok(())
}
