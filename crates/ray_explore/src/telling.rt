//! All ends of a script's plans, each told as soon as it is found.

ghost use Rattle.std.specs.Prelude.{◌≡◌, ℕ, List, Ok, true, map, IfOk, OnOk};
ghost use Rattle.std.specs.BTreeSet.{contains_text};
ghost use Rattle.std.specs.Io.KnownBytes.{Appends};
ghost use Rattle.act_rules.specs.declared.event.Event.{Event as Happening};
ghost use Rattle.act_rules.specs.History.{ActorSpec};
ghost use Rattle.act_rules.specs.Laws.{history};
ghost use Rattle.act_rules.specs.Scripts.{actor_spec_of};
ghost use Rattle.act_world.specs.View.{world_view};
ghost use Rattle.act_world.specs.IsReachedBy.{IsReachedBy};
ghost use Rattle.act_early.specs.Told.{told_at_rest};
ghost use Rattle.act_executor.specs.Runs.{plan_view};
ghost use Rattle.act_ends.specs.Kinds.{state_of};
ghost use Rattle.act_rules.specs.declared.script.Step.{Step};
ghost use Rattle.act_explore.specs.Ends.{LeadsToEnd};
ghost use Rattle.act_explore.specs.declared.search.Visited.TheVariants.{GoOn, Stop as StopVisit};
ghost use Rattle.act_explore.specs.declared.search.Searched.TheVariants.{Whole};
ghost use Rattle.ray_explore.specs.declared.telling.Telling.{Telling as TellingOf};
ghost use Rattle.ray_explore.specs.Telling.{HasToldMore, HasToldSome};
ghost use Rattle.ray_explore.specs.All.{TellsAll, TellsEach, TellsEachAndCloses};

use crate::status::Stop;
use crate::told::{closing_line, word_of};
use crate::writing::{refuse, tell_end};
use act_console::write_whole;
use act_ends::{Ends, Kind, Planned, lines_at_rest, read_closed, read_planned};
use act_explore::{End, ExploreFault, Searched, Visit, Visited, visit_ends};
use act_types::NoMemory;
use act_world::World;
use std::alloc::Global;
use std::io::Write;
use std::marker::PhantomData;

/// What is told of the ends of a script.
#[derive(Drop)]
struct Telling<'a, W> {
    alloc: Global,
    script: &'a [u8],
    ends: Ends,
    count: u64,
    writer: W,
    /// Why an end wasn't told.
    fault: Option<Stop>,
}

/// Tells an end that a world stands at, after so many. How many there are then.
fn tell_world<W: Write>(
    alloc: Global,
    ends: &mut Ends,
    script: &[u8],
    world: &mut World<Kind>,
    count: u64,
    writer: &mut W,
) -> Result<u64, Stop>
    ensures seen { IfOk result (λ _. (casts : List ActorSpec) (events : List Happening) →
        IsReachedBy casts events (world_view state_of world.old) →
        contains_text ends.new (told_at_rest (history casts events)) ≡ true) }
    ensures earlier { OnOk result ((lines : List ℕ) →
        contains_text ends.old lines ≡ true → contains_text ends.new lines ≡ true) }
    ensures keeps { OnOk result (HasToldMore script.now ends.old ends.new
        (W.contents writer.old) (W.contents writer.new)) }
{
    let lines = lines_at_rest(alloc, world)?;
    let number = count.wrapping_add(1);
    if tell_end(alloc, ends, script, lines, number, writer)? {
        Ok(number)
    } else {
        Ok(count)
    }
}

impl<'a, W: Write + Drop> Visit<Kind> for Telling<'a, W> {
    ghost use Rattle.std.specs.Prelude.{◌≡◌, true};
    ghost use Rattle.std.specs.BTreeSet.{contains_text};
    ghost use Rattle.act_rules.specs.Laws.{history};
    ghost use Rattle.act_early.specs.Told.{told_at_rest};
    ghost use Rattle.ray_explore.specs.Telling.{HasToldSome};

    ghost passed = { λ telling casts events. contains_text telling.ends (told_at_rest (history casts events)) ≡ true };

    ghost keeps = { λ first telling casts plans. (telling.script.now ≡ first.script.now)
        × HasToldSome first.script.now telling.ends (W.contents first.writer) (W.contents telling.writer) };

    ghost has_stopped = { λ telling. Unit {0} };

    fn visit(&mut self, end: End<Kind>) -> Result<Visited, NoMemory>
        ensures passed { result ≡ Ok GoOn → (casts : List ActorSpec) →
            IsReachedBy casts end.events.items (world_view state_of end.world) →
            contains_text self.new.ends (told_at_rest (history casts end.events.items)) ≡ true }
        ensures earlier { IfOk result (λ _. (casts : List ActorSpec) (events : List Happening) →
            contains_text self.old.ends (told_at_rest (history casts events)) ≡ true →
            contains_text self.new.ends (told_at_rest (history casts events)) ≡ true) }
        ensures keeps { IfOk result (λ _. (first : TellingOf W) (casts : List ActorSpec) (plans : ℕ → List Step) →
            LeadsToEnd casts plans end.events.items →
            IsReachedBy casts end.events.items (world_view state_of end.world) →
            (self.old.script.now ≡ first.script.now)
            × HasToldSome first.script.now self.old.ends (W.contents first.writer) (W.contents self.old.writer) →
            (self.new.script.now ≡ first.script.now)
            × HasToldSome first.script.now self.new.ends (W.contents first.writer) (W.contents self.new.writer)) }
        ensures stopped { result ≡ Ok StopVisit → Unit {0} }
    {
        let End { world, events } = end;
        drop(events);
        let mut world = world;
        let told = tell_world(
            self.alloc,
            &mut self.ends,
            self.script,
            &mut world,
            self.count,
            &mut self.writer,
        );
        drop(world);
        match told {
            Ok(count) => {
                self.count = count;
                Ok(Visited::GoOn)
            }
            Err(stop) => {
                self.fault = Some(stop);
                Err(NoMemory)
            }
        }
    }
}

/// What a search came to.
#[derive(Clone, Copy, Debug, PartialEq, Eq)]
struct Told {
    is_whole: bool,
    ends: u64,
}

/// Why nothing was searched.
fn stop_of(fault: ExploreFault) -> Stop {
    match fault {
        ExploreFault::NoMemory => Stop::Memory,
        ExploreFault::Cut => Stop::Cut,
        ExploreFault::Unfit | ExploreFault::BadPlan(..) => Stop::Unplayed,
    }
}

/// Whether a search was whole.
fn is_whole(searched: Searched) -> bool
    ensures { result ≡ true → searched ≡ Whole }
{
    match searched {
        Searched::Whole => true,
        Searched::Stopped | Searched::Cut => false,
    }
}

/// What a search came to, where no end made it fail.
fn told_of(
    looked: Result<Searched, ExploreFault>,
    ends: u64,
    fault: Option<Stop>,
) -> Result<Told, Stop>
    ensures { IfOk result (λ told. told.is_whole ≡ true → looked ≡ Ok Whole) }
{
    if let Some(stop) = fault {
        return Err(stop);
    }
    match looked {
        Ok(searched) => Ok(Told {
            is_whole: is_whole(searched),
            ends,
        }),
        Err(fault) => Err(stop_of(fault)),
    }
}

/// Tells each end of plans, and gives the writer back.
fn tell_each<W: Write + Drop>(
    alloc: Global,
    planned: Planned,
    script: &[u8],
    most: usize,
    writer: W,
) -> (Result<Told, Stop>, W)
    ensures { IfOk result.0 (λ told. told.is_whole ≡ true →
        TellsEach (map actor_spec_of planned.roles) (map plan_view planned.plans.items) script.now
        (W.contents writer) (W.contents result.1)) }
{
    let Planned { roles, plans } = planned;
    let mut telling = Telling {
        alloc,
        script,
        ends: Ends::new(alloc),
        count: 0,
        writer,
        fault: None,
    };
    let looked = visit_ends(alloc, PhantomData, &roles, plans, most, &mut telling);
    drop(roles);
    let Telling {
        ends,
        count,
        writer,
        fault,
        ..
    } = telling;
    drop(ends);
    (told_of(looked, count, fault), writer)
}

/// Writes the last line, and says whether there may be another end.
fn close<W: Write>(alloc: Global, told: Told, writer: &mut W) -> Result<(), Stop>
    ensures whole { OnOk result (told.is_whole ≡ true) }
    ensures closing { OnOk result ((last : List ℕ) × Appends (W.contents writer.old) (W.contents writer.new) last) }
{
    let line = closing_line(alloc, word_of(told.is_whole), told.ends)?;
    write_whole(writer, &line)?;
    if told.is_whole {
        Ok(())
    } else {
        Err(Stop::Cut)
    }
}

/// Tells each end of the plans that were read, and whether there may be another.
fn tell_planned<W: Write + Drop>(
    alloc: Global,
    planned: Planned,
    script: &[u8],
    most: usize,
    writer: W,
) -> (Result<(), Stop>, W)
    ensures { OnOk result.0 (TellsEachAndCloses (map actor_spec_of planned.roles) (map plan_view planned.plans.items)
        script.now (W.contents writer) (W.contents result.1)) }
{
    let (told, mut writer) = tell_each(alloc, planned, script, most, writer);
    match told {
        Ok(told) => {
            let closed = close(alloc, told, &mut writer);
            (closed, writer)
        }
        Err(stop) => (Err(stop), writer),
    }
}

/// Tells each end of the plans that bytes spell, and then that there is no other; or what is wrong with
/// the script, or that there may be others. Gives the writer back.
pub(crate) fn tell_all<W: Write + Drop>(
    alloc: Global,
    bytes: &[u8],
    most: usize,
    writer: W,
) -> (Result<(), Stop>, W)
    ensures { OnOk result.0 (TellsAll bytes.now (W.contents writer) (W.contents result.1)) }
{
    let mut writer = writer;
    let script = match read_closed(alloc, bytes) {
        Ok(script) => script,
        Err(fault) => {
            let stop = refuse(alloc, fault, &mut writer);
            return (Err(stop), writer);
        }
    };
    match read_planned(alloc, bytes) {
        Ok(planned) => {
            let told = tell_planned(alloc, planned, &script, most, writer);
            drop(script);
            told
        }
        Err(fault) => {
            drop(script);
            let stop = refuse(alloc, fault, &mut writer);
            (Err(stop), writer)
        }
    }
}
