//! The ends of codes that are found, state by state.

ghost use Rattle.std.specs.Prelude.{◌≡◌, ◌++◌, [], map, option_to_list, IfOk, OnOk, IfSome, IfNone, All, Contains};
ghost use Rattle.act_actor.specs.Cast.{IsFitting};
ghost use Rattle.act_actor.specs.Casts.{actor_spec};
ghost use Rattle.act_world.specs.View.{world_view};
ghost use Rattle.act_world.specs.IsReachedBy.{IsReachedBy};
ghost use Rattle.act_code_ends.specs.Ends.{IsEnd, SaysAt};
ghost use Rattle.act_code_ends.specs.FoundEnds.{AreEnds};

use crate::certified::{Played, certified};
use crate::choices::Choice;
use crate::fault::CodeFault;
use crate::opening::Codes;
use crate::play::Play;
use act_actor::Cast;
use act_drive::Code;
use act_explore::{Check, Opening};
use act_kinds::Actor;
use act_types::NoMemory;
use act_world::World;
use std::alloc::Global;
use std::collections::BTreeSet;

/// The ends that were found.
#[derive(Drop)]
pub struct CodeEnds<K> {
    /// No events, and the world as it opens.
    pub opened: Played<K>,
    pub found: Vec<Played<K>>,
    /// Whether each state that the search came to was looked at.
    pub is_whole: bool,
}

/// The choices that lead to the states that wait, and the keys of those that were looked at.
#[derive(Drop)]
struct Search {
    waiting: Vec<Vec<Choice>>,
    seen: BTreeSet<String>,
}

/// The choices, and one more.
fn path_after(alloc: Global, path: &[Choice], choice: Choice) -> Result<Vec<Choice>, NoMemory> {
    let mut after = Vec::with_capacity(alloc, path.len().saturating_add(1))?;
    after.extend_from_slice(path)?;
    after.push(choice)?;
    Ok(after)
}

impl Search {
    fn new(alloc: Global) -> Result<Search, NoMemory> {
        let mut waiting = Vec::new(alloc);
        waiting.push(Vec::new(alloc))?;
        Ok(Search {
            waiting,
            seen: BTreeSet::new(alloc),
        })
    }

    /// Adds the states that come after the one that the path leads to.
    fn add_next(
        &mut self,
        alloc: Global,
        path: &[Choice],
        choices: &[Choice],
    ) -> Result<(), NoMemory> {
        for choice in choices {
            self.waiting.push(path_after(alloc, path, *choice)?)?;
        }
        Ok(())
    }
}

/// The play that choices lead to.
fn play_after<K: Actor, C: Code, O: Opening<K>, M: Codes<C>>(
    alloc: Global,
    opening: &O,
    codes: &M,
    casts: &[Cast<K>],
    path: &[Choice],
) -> Result<Play<K>, CodeFault>
    requires fit { IsFitting casts.now }
{
    let mut play = Play::open(alloc, opening.open(alloc)?)?;
    play.go_on(casts, codes)?;
    for choice in path {
        play.choose(*choice)?;
        play.go_on(casts, codes)?;
    }
    Ok(play)
}

/// Looks at the state that these choices lead to, where none like it was looked at.
fn look_at<K: Actor, C: Code, O: Opening<K>, M: Codes<C>>(
    alloc: Global,
    opening: &O,
    codes: &M,
    casts: &[Cast<K>],
    search: &mut Search,
    path: &[Choice],
) -> Result<Option<Played<K>>, CodeFault>
    requires fit { IsFitting casts.now }
    requires same { map (actor_spec K.state) casts.now ≡ O.casts opening.now }
    ensures { IfOk result (λ found. IfSome found (λ end. IsEnd (M.makes codes.now) C.tells (O.casts opening.now)
        end.events.items (world_view K.state end.world))) }
{
    let play = play_after(alloc, opening, codes, casts, path)?;
    if !search.seen.insert(play.key()?)? {
        return Ok(None);
    }
    let choices = play.choices()?;
    search.add_next(alloc, path, &choices)?;
    if !play.is_end() {
        return Ok(None);
    }
    let end = certified(alloc, opening, codes, casts, play)?;
    Ok(Some(end))
}

/// Adds an item, where there is one.
fn add_some<T: Drop>(items: &mut Vec<T>, item: Option<T>) -> Result<(), NoMemory>
    ensures { OnOk result (items.new.items ≡ items.old.items ++ option_to_list item) }
{
    if let Some(item) = item {
        items.push(item)?;
    }
    Ok(())
}

/// Looks at one state after another, and adds the ends among them.
fn explore<K: Actor, C: Code, O: Opening<K>, M: Codes<C>>(
    alloc: Global,
    opening: &O,
    codes: &M,
    casts: &[Cast<K>],
    most: usize,
    ends: CodeEnds<K>,
) -> Result<CodeEnds<K>, CodeFault>
    requires fit { IsFitting casts.now }
    requires same { map (actor_spec K.state) casts.now ≡ O.casts opening.now }
    requires none { ends.found.items ≡ [] }
    ensures opened { IfOk result (λ after. after.opened ≡ ends.opened) }
    ensures found { IfOk result (λ after.
        AreEnds K.state (M.makes codes.now) C.tells (O.casts opening.now) after.found.items) }
{
    let mut ends = ends;
    let mut search = Search::new(alloc)?;
    for _ in 0..most {
        let Some(path) = search.waiting.pop() else {
            break;
        };
        let end = look_at(alloc, opening, codes, casts, &mut search, &path)?;
        add_some(&mut ends.found, end)?;
    }
    ends.is_whole = search.waiting.is_empty();
    Ok(ends)
}

/// Ends of these codes over these casts, each with the events that lead there. At most so many states are
/// looked at. No clause says that an end is never left out, since none says that a code is a function of
/// what it is told.
pub fn explore_codes<K: Actor, C: Code, O: Opening<K>, M: Codes<C>>(
    alloc: Global,
    opening: &O,
    codes: &M,
    most: usize,
) -> Result<CodeEnds<K>, CodeFault>
    ensures opened { IfOk result (λ ends. IsReachedBy (O.casts opening.now) [] (world_view K.state ends.opened.world)) }
    ensures sound { IfOk result (λ ends.
        AreEnds K.state (M.makes codes.now) C.tells (O.casts opening.now) ends.found.items) }
{
    let casts = opening.open(alloc)?;
    let world = World::open(alloc, opening.open(alloc)?)?;
    let ends = CodeEnds {
        opened: Played {
            events: Vec::new(alloc),
            world,
        },
        found: Vec::new(alloc),
        is_whole: false,
    };
    let ends = explore(alloc, opening, codes, &casts, most, ends)?;
    drop(casts);
    Ok(ends)
}

/// The first end at which the answer is no.
pub fn first_bad<'a, K: Actor, H: Check<K>>(
    ends: &'a [Played<K>],
    check: &H,
) -> Result<Option<&'a Played<K>>, NoMemory>
    ensures is_one { IfOk result (λ bad. IfSome bad (λ bad. Contains ends.now bad.now)) }
    ensures bad { IfOk result (λ bad. IfSome bad (λ bad.
        SaysAt (H.breaks check.now) (world_view K.state bad.now.world))) }
    ensures none { IfOk result (λ bad. IfNone bad
        (All (λ end. SaysAt (H.holds check.now) (world_view K.state end.world)) ends.now)) }
{
    for end in ends {
        if !check.check(&end.world)? {
            return Ok(Some(end));
        }
    }
    Ok(None)
}
