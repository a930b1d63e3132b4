//! Plans that fit and others that don't, steps that would be refused, and casts and plans that are
//! given out of order.

use super::rows::assert_is;
use act_actor::{Cast, cast_fits};
use act_kinds::Counter;
use act_plans::{CallerSetup, MAX_STEPS, Plan, bad_step, first_bad_setup, plans_fit, prepare};
use act_rules::Step;
use act_types::{ActorId, Arg, CallerId, FutureId, ListOf, Method, NoMemory};
use std::alloc::Global;
use std::process::Abort;
use std::test::Fail;

/// An actor and its callers.
type Role = (ActorId, [CallerId; 2]);

fn casts_of(alloc: Global, roles: &[Role]) -> Result<Vec<Cast<Counter>>, NoMemory> {
    let mut casts = Vec::new(alloc);
    for (actor, names) in roles {
        let mut callers = ListOf::new(alloc);
        for caller in names {
            callers.push(*caller)?;
        }
        casts.push(Cast {
            actor: *actor,
            callers,
            kind: Counter::open(),
            pending: None,
        })?;
    }
    Ok(casts)
}

/// The step `get` with a future among its arguments.
fn get(alloc: Global, actor: ActorId, future: Option<u32>) -> Result<Step, NoMemory> {
    let mut args = ListOf::new(alloc);
    if let Some(number) = future {
        args.push(Arg::Fut(FutureId::new(number)))?;
    }
    Ok(Step::Submit(actor, Method::Get, args))
}

/// A plan that releases the handles of these actors.
fn releases(alloc: Global, actors: &[ActorId]) -> Result<Plan, NoMemory> {
    let mut plan = Vec::new(alloc);
    for actor in actors {
        plan.push(Step::Release(*actor))?;
    }
    Ok(plan)
}

#[test]
fn plans_that_fit(rt: HostRuntime) -> Result<(), Fail> {
    let alloc = rt.alloc();
    let a1 = ActorId::new(1).unwrap();
    let a2 = ActorId::new(2).unwrap();
    let c1 = CallerId::new(1).unwrap();
    let c2 = CallerId::new(2).unwrap();
    let c3 = CallerId::new(3).unwrap();
    let c4 = CallerId::new(4).unwrap();
    let casts = casts_of(alloc, &[(a2, [c3, c1]), (a1, [c1, c2])])?;
    let rows: [([CallerId; 3], bool); 4] = [
        ([c1, c2, c3], true),
        ([c3, c1, c2], true),
        ([c1, c3, c1], false),
        ([c1, c2, c4], false),
    ];
    for (callers, fit) in rows {
        let mut plans = Vec::new(alloc);
        for caller in callers {
            plans.push((caller, Vec::new(alloc)))?;
        }
        assert_eq!(rt; plans_fit(casts.as_slice(), plans.as_slice()), fit);
    }
    Ok(())
}

/// Compares the step of a plan that would be refused, of a caller of actor 1 alone.
fn assert_bad_at(
    rt: &impl Abort,
    alloc: Global,
    plan: &[Step],
    wanted: Option<u32>,
) -> Result<(), NoMemory> {
    assert!(rt; plan.len() < MAX_STEPS);
    let bad = bad_step(alloc, &[ActorId::new(1).unwrap()], plan)?;
    assert_eq!(rt; bad, wanted);
    Ok(())
}

/// Plans of calls.
#[test]
fn calls_that_would_be_refused(rt: HostRuntime) -> Result<(), Fail> {
    let alloc = rt.alloc();
    let a1 = ActorId::new(1).unwrap();
    let no_handle = vec![in alloc; Step::Release(a1), get(alloc, a1, None)?]?;
    assert_bad_at(&rt, alloc, no_handle.as_slice(), Some(1))?;
    let its_own = vec![in alloc; get(alloc, a1, None)?, get(alloc, a1, Some(1))?]?;
    assert_bad_at(&rt, alloc, its_own.as_slice(), Some(1))?;
    let copied = vec![in alloc; Step::Copy(a1), Step::Release(a1), get(alloc, a1, None)?]?;
    assert_bad_at(&rt, alloc, copied.as_slice(), None)?;
    Ok(())
}

/// Plans of other steps, and of all.
#[test]
fn steps_that_would_be_refused(rt: HostRuntime) -> Result<(), Fail> {
    let alloc = rt.alloc();
    let a1 = ActorId::new(1).unwrap();
    let a2 = ActorId::new(2).unwrap();
    let first = FutureId::new(0);
    assert_bad_at(&rt, alloc, &[Step::Await(first)], Some(0))?;
    assert_bad_at(
        &rt,
        alloc,
        &[Step::Kill(a1), Step::Copy(a1), Step::Kill(a2)],
        Some(2),
    )?;
    let good = vec![in alloc;
        get(alloc, a1, None)?,
        get(alloc, a1, Some(0))?,
        Step::Await(first),
    ]?;
    assert_bad_at(&rt, alloc, good.as_slice(), None)?;
    Ok(())
}

/// Compares the actors of casts.
fn assert_actors(rt: &impl Abort, casts: &[Cast<Counter>], actors: &[ActorId]) {
    assert_is(rt, "casts", &casts.len(), &actors.len());
    for (cast, actor) in casts.iter().zip(actors.iter()) {
        assert_is(rt, "an actor", &cast.actor, actor);
    }
}

/// Compares the callers of parts, their actors, and how many steps they have.
fn assert_setups(
    rt: &impl Abort,
    setups: &[CallerSetup],
    wanted: &[(CallerId, [ActorId; 2], usize)],
) {
    assert_is(rt, "parts", &setups.len(), &wanted.len());
    for (setup, wanted) in setups.iter().zip(wanted.iter()) {
        let seen = (setup.caller, setup.actors.as_slice(), setup.plan.len());
        assert_is(rt, "a part", &seen, &(wanted.0, &wanted.1[..], wanted.2));
    }
}

#[test]
fn a_run_is_prepared(rt: HostRuntime) -> Result<(), Fail> {
    let alloc = rt.alloc();
    let a1 = ActorId::new(1).unwrap();
    let a2 = ActorId::new(2).unwrap();
    let a3 = ActorId::new(3).unwrap();
    let c2 = CallerId::new(2).unwrap();
    let c5 = CallerId::new(5).unwrap();
    let c9 = CallerId::new(9).unwrap();
    let casts = casts_of(alloc, &[(a3, [c5, c2]), (a1, [c2, c9]), (a2, [c9, c5])])?;
    let nine = releases(alloc, &[a1, a1])?;
    let five = releases(alloc, &[a2, a3, a1])?;
    let plans = vec![in alloc; (c9, nine), (c5, five)]?;
    assert!(rt; cast_fits(casts.as_slice()) && plans_fit(casts.as_slice(), plans.as_slice()));
    let prepared = prepare(alloc, casts, plans)?;
    assert_actors(&rt, prepared.casts.as_slice(), &[a1, a2, a3]);
    let wanted = [(c2, [a3, a1], 0), (c5, [a3, a2], 3), (c9, [a1, a2], 2)];
    assert_setups(&rt, prepared.setups.as_slice(), &wanted);
    let bad = first_bad_setup(alloc, prepared.setups.as_slice())?;
    assert_eq!(rt; bad, Some((c5, 2)));
    Ok(())
}
