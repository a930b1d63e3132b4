//! One run of a crew.

ghost use Rattle.std.specs.Prelude.{◌≡◌, IfOk, map, true};
ghost use Rattle.act_actor.specs.Cast.{IsFitting};
ghost use Rattle.act_actor.specs.Casts.{actor_spec};
ghost use Rattle.act_serve.specs.Served.{end_view};
ghost use Rattle.act_plans.specs.Setups.{PlansFit};
ghost use Rattle.act_executor.specs.ByCode.{IsJoinedBy};
ghost use Rattle.act_executor.specs.Conducts.{CodesFit};
ghost use Rattle.act_executor.specs.Runs.{plan_view};

use crate::coded::walkers_of;
use crate::command::Order;
use crate::crew::{Crew, casts_of, word_of};
use crate::draw::Draw;
use crate::plans::plans_of;
use crate::stop::Stop;
use act_actor::{Cast, cast_fits};
use act_console::joined_report;
use act_executor::{Code, Joined, NoGate, Plan, RunFault, codes_fit, plans_fit, run_callers};
use act_kinds::Actor;
use act_orders::{Refused, is_whole, judge};
use act_told::told_of;
use act_types::CallerId;
use std::alloc::Global;
use std::io;
use std::sync::Wait;
use std::thread::Threads;

/// Prints the line of a cast, as scripts have it.
fn print_cast<Rt: Print, K>(rt: &Rt, crew: &Crew, cast: &Cast<K>) -> io::Result<()> {
    let actor = cast.actor;
    let kind = word_of(crew.kind_of(actor));
    print!(rt; "actor {actor} {kind}")?;
    if let Some(limit) = cast.pending {
        print!(rt; " max {limit}")?;
    }
    for caller in cast.callers.as_slice() {
        print!(rt; " {caller}")?;
    }
    println!(rt)
}

/// What is to be run.
#[derive(Drop)]
struct Scene<K, C> {
    casts: Vec<Cast<K>>,
    plans: Vec<(CallerId, Plan)>,
    codes: Vec<(CallerId, C)>,
}

/// Runs a scene in threads.
fn run_scene<Rt: Threads + Wait + Sync, K: Actor + Send, C: Code + Send>(
    rt: &Rt,
    alloc: Global,
    scene: Scene<K, C>,
) -> Result<Joined<K>, RunFault>
    requires fit { IsFitting scene.casts.items }
    requires plans { PlansFit scene.casts.items scene.plans.items }
    requires codes { CodesFit scene.casts.items scene.plans.items scene.codes.items }
    ensures { IfOk result (λ joined.
        IsJoinedBy C.tells (map (actor_spec K.state) scene.casts.items) (map plan_view scene.plans.items)
        scene.codes.items joined.owners.items (map (λ actor. end_view K.state actor.ended) joined.actors.items)) }
{
    let Scene {
        casts,
        plans,
        codes,
    } = scene;
    let joined = run_callers(rt, alloc, casts, plans, codes, &NoGate)?;
    Ok(joined)
}

/// Whether a scene can be run.
fn scene_fits<K, C>(scene: &Scene<K, C>) -> bool
    ensures fit { result ≡ true → IsFitting scene.now.casts.items }
    ensures plans { result ≡ true → PlansFit scene.now.casts.items scene.now.plans.items }
    ensures codes { result ≡ true → CodesFit scene.now.casts.items scene.now.plans.items scene.now.codes.items }
{
    let casts = scene.casts.as_slice();
    let plans = scene.plans.as_slice();
    cast_fits(casts) && plans_fit(casts, plans) && codes_fit(casts, plans, scene.codes.as_slice())
}

/// Prints what all left.
fn print_joined<Rt: Print, K: Actor>(
    rt: &Rt,
    alloc: Global,
    joined: &Joined<K>,
) -> Result<(), Stop> {
    let mut report = String::new(alloc);
    joined_report(alloc, joined, &mut report)?;
    println!(rt; "joined")?;
    print!(rt; "{report}")?;
    Ok(())
}

/// Judges the history of a run by its order alone.
fn judge_joined<K: Actor>(alloc: Global, joined: &Joined<K>) -> Result<(), Stop> {
    let told = told_of(alloc, joined)?;
    if !is_whole(&told) {
        return Err(Stop::Order);
    }
    match judge(alloc, &told) {
        Ok(_) => Ok(()),
        Err(Refused::Faults(_)) => Err(Stop::Order),
        Err(Refused::NoMemory) => Err(Stop::Memory),
    }
}

/// Prints what all left, and judges it.
fn finish<Rt: Print, K: Actor>(rt: &Rt, alloc: Global, joined: &Joined<K>) -> Result<(), Stop> {
    print_joined(rt, alloc, joined)?;
    judge_joined(alloc, joined)
}

/// Runs a scene, and prints what all left, or that a code gave up.
fn print_scene<Rt: Print + Threads + Wait + Sync, K: Actor + Send, C: Code + Send>(
    rt: &Rt,
    alloc: Global,
    scene: Scene<K, C>,
) -> Result<(), Stop> {
    if !scene_fits(&scene) {
        return Err(Stop::Unfit);
    }
    match run_scene(rt, alloc, scene) {
        Ok(joined) => finish(rt, alloc, &joined),
        Err(RunFault::NoMemory) => Ok(println!(rt; "no memory")?),
        Err(RunFault::NoThread) => Err(Stop::Thread),
        Err(_) => Err(Stop::Unfit),
    }
}

/// Runs the crew that an order asks for.
pub(crate) fn run_crew<Rt: Print + Threads + Wait + Sync>(
    rt: &Rt,
    alloc: Global,
    order: &Order,
) -> Result<(), Stop> {
    let mut draw = Draw::new(order.seed);
    let crew = Crew::draw(&mut draw, order.callers, order.actors);
    let casts = casts_of(alloc, &crew, &mut draw)?;
    for cast in &casts {
        print_cast(rt, &crew, cast)?;
    }
    let plans = plans_of(rt, alloc, &crew, &mut draw)?;
    let codes = walkers_of(rt, alloc, &crew, &mut draw, order.steps)?;
    print_scene(
        rt,
        alloc,
        Scene {
            casts,
            plans,
            codes,
        },
    )
}
