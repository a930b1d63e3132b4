//! The search: each state of plans that is quiescent, and nothing left to it but choices.

ghost use Rattle.std.specs.Prelude.{◌≡◌, ◌∷◌, ◌++◌, [], ℕ, List, Ok, map, IfOk, OnOk};
ghost use Rattle.act_rules.specs.declared.event.Event.{Event as Happening};
ghost use Rattle.act_rules.specs.declared.script.Step.{Step};
ghost use Rattle.act_rules.specs.History.{ActorSpec};
ghost use Rattle.act_early.specs.Plays.{At};
ghost use Rattle.act_early.specs.Early.{IsQuiescent};
ghost use Rattle.act_actor.specs.Cast.{IsFitting};
ghost use Rattle.act_actor.specs.Casts.{actor_spec};
ghost use Rattle.act_world.specs.View.{world_view};
ghost use Rattle.act_world.specs.IsReachedBy.{IsReachedBy};
ghost use Rattle.act_plan_plays.specs.Play.{HoldPlans, StandsAt, play_view};
ghost use Rattle.act_explore.specs.Ends.{LeadsToEnd, IsDone, HasPassed};
ghost use Rattle.act_explore.specs.Paths.{HasMade};
ghost use Rattle.act_explore.specs.Searches.{left_of, with_path, IsOpened, HasPut, HasAdded, HasSearched, HasSearchedAll};
ghost use Rattle.act_explore.specs.declared.search.Visited.TheVariants.{GoOn, Stop};
ghost use Rattle.act_explore.specs.declared.search.Looked.TheVariants.{On, Stopped as LookedStopped};
ghost use Rattle.act_explore.specs.declared.search.Searched.TheVariants.{Whole, Stopped};

use crate::key::{key_of, know_numbers};
use crate::opening::{End, Opening, Plays};
use act_actor::Cast;
use act_kinds::Actor;
use act_plan_plays::{Choice, PlanPlay, PlayFault};
use act_plans::CallerSetup;
use act_types::NoMemory;
use std::alloc::Global;
use std::collections::BTreeSet;

/// Whether a search goes on after an end.
#[derive(Clone, Copy, Debug, PartialEq, Eq)]
pub enum Visited {
    GoOn,
    Stop,
}

/// What is done at each end of plans.
pub trait Visit<K: Actor> {
    /// What holds of an end that was passed, to which these events of these casts lead.
    ghost passed: { Self → List ActorSpec → List Happening → Type 0 };

    /// What it keeps of what it was at first, where each end is one of these casts and plans.
    ghost keeps: { Self → Self → List ActorSpec → (ℕ → List Step) → Type 0 };

    /// What holds where it stopped the search.
    ghost has_stopped: { Self → Type 0 };

    /// Looks at an end.
    fn visit(&mut self, end: End<K>) -> Result<Visited, NoMemory>
        ensures passed { result ≡ Ok GoOn → (casts : List ActorSpec) →
            IsReachedBy casts end.events.items (world_view K.state end.world) →
            passed self.new casts end.events.items }
        ensures earlier { IfOk result (λ _. (casts : List ActorSpec) (events : List Happening) →
            passed self.old casts events → passed self.new casts events) }
        ensures keeps { IfOk result (λ _. (first : Self) (casts : List ActorSpec) (plans : ℕ → List Step) →
            LeadsToEnd casts plans end.events.items →
            IsReachedBy casts end.events.items (world_view K.state end.world) →
            keeps first self.old casts plans → keeps first self.new casts plans) }
        ensures stopped { result ≡ Ok Stop → has_stopped self.new };
}

/// The play that the choices of a path lead to.
fn replay<'a, K: Actor>(
    alloc: Global,
    casts: Vec<Cast<K>>,
    setups: &'a [CallerSetup],
    path: &[Choice],
) -> Result<PlanPlay<'a, K>, PlayFault>
    requires fit { IsFitting casts.items }
    ensures { IfOk result (λ play. (plans : ℕ → List Step) →
        HoldPlans (map (actor_spec K.state) casts.items) plans setups.now →
        (at : At) × StandsAt (map (actor_spec K.state) casts.items) plans at (play_view K.state play)
        × IsQuiescent plans at × HasMade path.now at.history) }
{
    let mut play = PlanPlay::open(alloc, casts, setups)?;
    for choice in path {
        if let Err(fault) = play.choose(*choice) {
            drop(play);
            return Err(fault);
        }
    }
    Ok(play)
}

/// Visits a play, if it is an end.
fn visit_end<K: Actor, V: Visit<K>>(
    _plays: Plays<'_, K>,
    play: PlanPlay<'_, K>,
    visit: &mut V,
) -> Result<Visited, NoMemory>
    ensures passed { result ≡ Ok GoOn → (casts : List ActorSpec) (plans : ℕ → List Step) (at : At) →
        StandsAt casts plans at (play_view K.state play.entry) → IsDone plans at →
        HasPassed casts (V.passed visit.new casts) at.history }
    ensures earlier { IfOk result (λ _. (casts : List ActorSpec) (events : List Happening) →
        V.passed visit.old casts events → V.passed visit.new casts events) }
    ensures keeps { IfOk result (λ _. (first : V) (casts : List ActorSpec) (plans : ℕ → List Step) (at : At) →
        StandsAt casts plans at (play_view K.state play.entry) →
        V.keeps first visit.old casts plans → V.keeps first visit.new casts plans) }
    ensures stopped { result ≡ Ok Stop → V.has_stopped visit.new }
{
    if play.is_ended() {
        let (world, events) = play.into_parts();
        visit.visit(End { world, events })
    } else {
        drop(play);
        Ok(Visited::GoOn)
    }
}

/// The choices of a path, and one more.
fn path_after(alloc: Global, path: &[Choice], choice: Choice) -> Result<Vec<Choice>, NoMemory>
    ensures { IfOk result (λ after. after.items ≡ path.now ++ choice ∷ []) }
{
    let mut after = Vec::with_capacity(alloc, path.len().saturating_add(1))?;
    after.extend_from_slice(path)?;
    after.push(choice)?;
    Ok(after)
}

/// What looking at a state came to.
#[derive(Clone, Copy, Debug, PartialEq, Eq)]
enum Looked {
    /// All that comes after it is known.
    On,
    /// It is an end, at which the search was stopped.
    Stopped,
    /// A world doesn't hold as many letters.
    Stuck,
}

/// How far a search came.
#[derive(Clone, Copy, Debug, PartialEq, Eq)]
pub enum Searched {
    /// Each state was looked at.
    Whole,
    /// It was stopped at an end.
    Stopped,
    /// There are more states than were to be looked at, or a play is longer than a world holds.
    Cut,
}

/// The paths that wait to be looked at, and the keys of all paths that ever waited.
#[derive(Drop)]
pub(crate) struct Search {
    waiting: Vec<Vec<Choice>>,
    known: BTreeSet<String>,
}

impl Search {
    /// Puts a path there, if its key isn't known.
    fn put(&mut self, alloc: Global, path: Vec<Choice>) -> Result<(), NoMemory>
        ensures { OnOk result (HasPut path.items (left_of self.old) (left_of self.new)) }
    {
        know_numbers(path.as_slice());
        let key = key_of(alloc, path.as_slice())?;
        if self.known.insert(key)? {
            self.waiting.push(path)?;
        }
        Ok(())
    }

    /// A search at its beginning: the path without a choice waits.
    fn open(alloc: Global) -> Result<Search, NoMemory>
        ensures { IfOk result (λ search. IsOpened (left_of search)) }
    {
        let mut search = Search {
            waiting: Vec::new(alloc),
            known: BTreeSet::new(alloc),
        };
        search.put(alloc, Vec::new(alloc))?;
        Ok(search)
    }

    /// Adds what comes after a path by each of the choices.
    fn add_all(
        &mut self,
        alloc: Global,
        path: &[Choice],
        choices: &[Choice],
    ) -> Result<(), NoMemory>
        ensures { OnOk result (HasAdded path.now choices.now (left_of self.old) (left_of self.new)) }
    {
        for choice in choices {
            let after = path_after(alloc, path, *choice)?;
            self.put(alloc, after)?;
        }
        Ok(())
    }

    /// Looks at the state that a path leads to, and adds what comes after it.
    fn look<K: Actor, V: Visit<K>>(
        &mut self,
        alloc: Global,
        plays: Plays<'_, K>,
        play: PlanPlay<'_, K>,
        path: &[Choice],
        visit: &mut V,
    ) -> Result<Looked, NoMemory>
        ensures on { result ≡ Ok On →
            (casts : List ActorSpec) (plans : ℕ → List Step) (at : At) (seen : List At) →
            StandsAt casts plans at (play_view K.state play.entry) → IsQuiescent plans at →
            HasMade path.now at.history →
            HasSearched casts plans (V.passed visit.old casts) (with_path path.now (left_of self.old)) seen →
            (next : List At) × HasSearched casts plans (V.passed visit.new casts) (left_of self.new) next }
        ensures keeps { IfOk result (λ _. (first : V) (casts : List ActorSpec) (plans : ℕ → List Step) (at : At) →
            StandsAt casts plans at (play_view K.state play.entry) →
            V.keeps first visit.old casts plans → V.keeps first visit.new casts plans) }
        ensures stopped { result ≡ Ok LookedStopped → V.has_stopped visit.new }
    {
        let choices = play.choices(alloc)?;
        know_numbers(path);
        match visit_end(plays, play, visit)? {
            Visited::GoOn => {}
            Visited::Stop => return Ok(Looked::Stopped),
        }
        self.add_all(alloc, path, choices.as_slice())?;
        Ok(Looked::On)
    }

    /// Opens the actors anew, replays a path, and looks at the state that it leads to.
    fn follow<K: Actor, O: Opening<K>, V: Visit<K>>(
        &mut self,
        alloc: Global,
        plays: Plays<'_, K>,
        opening: &O,
        setups: &[CallerSetup],
        path: &[Choice],
        visit: &mut V,
    ) -> Result<Looked, NoMemory>
        ensures on { result ≡ Ok On → (plans : ℕ → List Step) (seen : List At) →
            HoldPlans (O.casts opening.now) plans setups.now →
            HasSearched (O.casts opening.now) plans (V.passed visit.old (O.casts opening.now))
            (with_path path.now (left_of self.old)) seen →
            (next : List At) × HasSearched (O.casts opening.now) plans (V.passed visit.new (O.casts opening.now))
            (left_of self.new) next }
        ensures keeps { IfOk result (λ _. (first : V) (plans : ℕ → List Step) →
            HoldPlans (O.casts opening.now) plans setups.now →
            V.keeps first visit.old (O.casts opening.now) plans →
            V.keeps first visit.new (O.casts opening.now) plans) }
        ensures stopped { result ≡ Ok LookedStopped → V.has_stopped visit.new }
    {
        let casts = opening.open(alloc)?;
        match replay(alloc, casts, setups, path) {
            Ok(play) => self.look(alloc, plays, play, path, visit),
            Err(PlayFault::Stuck) => Ok(Looked::Stuck),
            Err(PlayFault::NoMemory) => Err(NoMemory),
        }
    }
}

/// Looks at states until none is left, the visit stops it, or so many were looked at.
pub(crate) fn search_all<K: Actor, O: Opening<K>, V: Visit<K>>(
    alloc: Global,
    plays: Plays<'_, K>,
    opening: &O,
    setups: &[CallerSetup],
    most: usize,
    visit: &mut V,
) -> Result<Searched, NoMemory>
    ensures whole { result ≡ Ok Whole → (plans : ℕ → List Step) →
        HoldPlans (O.casts opening.now) plans setups.now →
        (seen : List At) × HasSearchedAll (O.casts opening.now) plans (V.passed visit.new (O.casts opening.now)) seen }
    ensures keeps { IfOk result (λ _. (first : V) (plans : ℕ → List Step) →
        HoldPlans (O.casts opening.now) plans setups.now →
        V.keeps first visit.old (O.casts opening.now) plans → V.keeps first visit.new (O.casts opening.now) plans) }
    ensures stopped { result ≡ Ok Stopped → V.has_stopped visit.new }
{
    let mut search = Search::open(alloc)?;
    for _ in 0..most {
        let Some(path) = search.waiting.pop() else {
            return Ok(Searched::Whole);
        };
        match search.follow(alloc, plays, opening, setups, path.as_slice(), visit)? {
            Looked::On => {}
            Looked::Stopped => return Ok(Searched::Stopped),
            Looked::Stuck => return Ok(Searched::Cut),
        }
    }
    if search.waiting.is_empty() {
        Ok(Searched::Whole)
    } else {
        Ok(Searched::Cut)
    }
}
