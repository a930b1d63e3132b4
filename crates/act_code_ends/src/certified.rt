//! A play that was found, played in a world and compared with what the codes left.

ghost use Rattle.std.specs.Prelude.{◌≡◌, ◌↔◌, ◌<◌, ◌≤◌, ℕ, List, [], length, map, true, is_some, IfOk, IsOk, IsTrue, All};
ghost use Rattle.std.specs.List.{list_all};
ghost use Rattle.act_types.specs.declared.limits.TheConstants.{MAX_CALLERS};
ghost use Rattle.act_rules.specs.History.{ActorSpec, opening as at_first};
ghost use Rattle.act_rules.specs.Rules.{outcomes};
ghost use Rattle.act_actor.specs.Cast.{IsFitting};
ghost use Rattle.act_actor.specs.Casts.{actor_spec};
ghost use Rattle.act_world.specs.IsReachedBy.{IsReachedBy};
ghost use Rattle.act_world.specs.View.{world_view};
ghost use Rattle.act_compare.specs.Same.{AreSame};
ghost use Rattle.act_code_ends.specs.declared.rehearsed.Standing.TheVariants.{Ended};
ghost use Rattle.act_code_ends.specs.Ends.{IsLeft, IsEnd};

use crate::choices::rehearse_again;
use crate::fault::CodeFault;
use crate::opening::Codes;
use crate::play::{Play, Player};
use crate::rehearsed::{Rehearsed, Standing};
use act_actor::Cast;
use act_compare::{play_in, same_owner};
use act_drive::Code;
use act_explore::Opening;
use act_kinds::Actor;
use act_owner::Owner;
use act_rules::Event;
use act_types::{CallerId, MAX_CALLERS, NoMemory};
use act_world::World;
use std::alloc::Global;

/// More events than a world takes.
const MAX_EVENTS: usize = 4_294_967_296;

/// Events, and the world that played them.
#[derive(Drop)]
pub struct Played<K> {
    pub events: Vec<Event>,
    pub world: World<K>,
}

/// A world that played these events, each of which was accepted.
fn world_of<K: Actor, O: Opening<K>>(
    alloc: Global,
    opening: &O,
    events: &[Event],
) -> Result<World<K>, CodeFault>
    ensures accepted { IfOk result (λ _. All IsOk (outcomes (at_first (O.casts opening.now)) events.now)) }
    ensures reached { IfOk result (λ world. IsReachedBy (O.casts opening.now) events.now (world_view K.state world)) }
{
    if events.len() >= MAX_EVENTS {
        return Err(CodeFault::Unplayed);
    }
    let mut world = World::open(alloc, opening.open(alloc)?)?;
    let accepted = play_in(alloc, &mut world, events)?;
    if !accepted {
        return Err(CodeFault::Unplayed);
    }
    Ok(world)
}

/// Whether a code came to its end, and left its caller so, with an answer of each call.
fn has_left(rehearsed: &Rehearsed, owner: &Owner) -> bool
    ensures ended { result ≡ true → rehearsed.now.standing ≡ Ended }
    ensures same { result ≡ true → AreSame rehearsed.now.owner owner.now }
    ensures answered { result ≡ true → list_all is_some owner.now.kept ≡ true }
{
    rehearsed.standing == Standing::Ended
        && owner.all_answered()
        && same_owner(&rehearsed.owner, owner)
}

/// Whether the code of a caller, run once more, left the caller as the world has it.
fn is_through<K: Actor, C: Code, M: Codes<C>>(
    alloc: Global,
    casts: &[Cast<K>],
    codes: &M,
    world: &World<K>,
    player: &Player,
    c: CallerId,
) -> Result<bool, NoMemory>
    requires fit { IsFitting casts.now }
    ensures { IfOk result (λ is. IsTrue is → IsLeft (M.makes codes.now) C.tells (map (actor_spec K.state) casts.now) c
        (world_view K.state world.now)) }
{
    let Some(owner) = world.owner(c) else {
        return Ok(true);
    };
    let rehearsed = rehearse_again(alloc, casts, codes, c, &player.known, &player.looks)?;
    let is = has_left(&rehearsed, owner);
    drop(rehearsed);
    Ok(is)
}

/// The caller of a number, among those of a play.
fn player_of(players: &[Player], c: CallerId) -> Option<&Player> {
    players.iter().find(|player| player.owner.id() == c)
}

/// Whether the code of a caller that some cast names left the caller as the world has it.
fn is_left<K: Actor, C: Code, M: Codes<C>>(
    alloc: Global,
    casts: &[Cast<K>],
    codes: &M,
    world: &World<K>,
    players: &[Player],
    c: CallerId,
) -> Result<bool, NoMemory>
    requires fit { IsFitting casts.now }
    ensures { IfOk result (λ is. IsTrue is → IsLeft (M.makes codes.now) C.tells (map (actor_spec K.state) casts.now) c
        (world_view K.state world.now)) }
{
    let Some(player) = player_of(players, c) else {
        return Ok(world.owner(c).is_none());
    };
    is_through(alloc, casts, codes, world, player, c)
}

/// Whether the code of each caller left the caller as the world has it.
fn all_left<K: Actor, C: Code, M: Codes<C>>(
    alloc: Global,
    casts: &[Cast<K>],
    codes: &M,
    world: &World<K>,
    players: &[Player],
) -> Result<bool, NoMemory>
    requires fit { IsFitting casts.now }
    ensures { IfOk result (λ is. IsTrue is → (c : ℕ) → 1 ≤ c → c ≤ MAX_CALLERS →
        IsLeft (M.makes codes.now) C.tells (map (actor_spec K.state) casts.now) c (world_view K.state world.now)) }
{
    for before in 0..MAX_CALLERS {
        let c = CallerId::new(before + 1).unwrap();
        if !is_left(alloc, casts, codes, world, players, c)? {
            return Ok(false);
        }
    }
    Ok(true)
}

/// An end, once a world played its events, and each code was run once more and left its caller as the
/// world has it.
pub(crate) fn certified<K: Actor, C: Code, O: Opening<K>, M: Codes<C>>(
    alloc: Global,
    opening: &O,
    codes: &M,
    casts: &[Cast<K>],
    play: Play<K>,
) -> Result<Played<K>, CodeFault>
    requires fit { IsFitting casts.now }
    requires same { map (actor_spec K.state) casts.now ≡ O.casts opening.now }
    ensures { IfOk result (λ found. IsEnd (M.makes codes.now) C.tells (O.casts opening.now) found.events.items
        (world_view K.state found.world)) }
{
    let Play {
        players,
        servers,
        events,
        ..
    } = play;
    drop(servers);
    let world = world_of(alloc, opening, &events)?;
    if !all_left(alloc, casts, codes, &world, &players)? {
        return Err(CodeFault::Unplayed);
    }
    drop(players);
    Ok(Played { events, world })
}
