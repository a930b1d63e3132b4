//! Each caller once, where memory is there.

use act_actor::cast_fits;
use act_executor::Plan;
use act_kinds::{Account, Boxed, Counter, ListKind, Table};
use act_owner::Owner;
use act_rules::{Arrival, Step};
use act_types::{ActorId, Answer, Arg, CallerId, FutureId, ListOf, Method, NoMemory, Value};
use act_world::{Cast, Did, Event, Outcome, World};
use example_uses::{
    Kinds, PeaceFault, ask_once, play_part, play_patiently, ran_of, run_in_peace, serve_each_kind,
    world_after,
};
use std::alloc::Global;
use std::process::Abort;
use std::test::Fail;

/// A caller deposits 10, and hears of it.
fn deposit(alloc: Global, a: ActorId, c: CallerId) -> Result<Vec<Event>, NoMemory> {
    let events = vec![in alloc;
        Event::Submit(c, a, Method::Deposit, number(alloc, 10)?),
        Event::Send(c, FutureId::new(0)),
        Event::Deliver(0),
        Event::Run(a, c),
        Event::Collect(0),
    ]?;
    Ok(events)
}

/// An account that one caller may pay into.
fn account(alloc: Global, a: ActorId, c: CallerId) -> Result<Vec<Cast<Account>>, NoMemory> {
    let mut callers = ListOf::new(alloc);
    callers.push(c)?;
    let kind = Account::open();
    let mut casts = Vec::new(alloc);
    casts.push(Cast {
        actor: a,
        callers,
        kind,
        pending: Some(1),
    })?;
    Ok(casts)
}

#[test]
fn one_call_is_heard(rt: HostRuntime) -> Result<(), Fail> {
    let heard = ask_once(rt.alloc(), Counter::open(), Method::Add, Value::Int(5))?;
    let answer = heard.owner.answer(FutureId::new(0));
    assert!(rt; matches!(answer, Some(Ok(Value::Int(5)))));
    drop(heard);
    Ok(())
}

#[test]
fn a_front_is_read_off(rt: HostRuntime) -> Result<(), Fail> {
    let alloc = rt.alloc();
    let a1 = ActorId::new(1).unwrap();
    let c1 = CallerId::new(1).unwrap();
    let casts = account(alloc, a1, c1)?;
    assert!(rt; cast_fits(casts.as_slice()));
    let events = deposit(alloc, a1, c1)?;
    let world = world_after(alloc, casts, events.as_slice());
    drop(events);
    let world = world?;
    let ran = ran_of(alloc, &world, a1, c1);
    drop(world);
    assert_eq!(rt; ran?.as_slice(), [(0, FutureId::new(0))].as_slice());
    Ok(())
}

#[test]
fn a_play_goes_to_its_end(rt: HostRuntime) -> Result<(), Fail> {
    let alloc = rt.alloc();
    let a1 = ActorId::new(1).unwrap();
    let c1 = CallerId::new(1).unwrap();
    let casts = account(alloc, a1, c1)?;
    assert!(rt; cast_fits(casts.as_slice()));
    let events = deposit(alloc, a1, c1)?;
    let mut world = World::open(alloc, casts)?;
    let mut told = Vec::new(alloc);
    assert_eq!(rt;
        play_patiently(&mut world, events.as_slice(), &mut told, 3),
        Ok(())
    );
    let k0 = FutureId::new(0);
    let wanted: [Outcome; 5] = [
        Ok(Did::Future(c1, k0)),
        Ok(Did::Mail(0)),
        Ok(Did::Arrived(Arrival::New)),
        Ok(Did::Ran(0, 0)),
        Ok(Did::Kept(c1, k0)),
    ];
    assert_eq!(rt; told.as_slice(), wanted.as_slice());
    drop(told);
    drop(world);
    drop(events);
    Ok(())
}

#[test]
fn a_part_of_a_script_is_played(rt: HostRuntime) -> Result<(), Fail> {
    let alloc = rt.alloc();
    let a1 = ActorId::new(1).unwrap();
    let c1 = CallerId::new(1).unwrap();
    let casts = account(alloc, a1, c1)?;
    assert!(rt; cast_fits(casts.as_slice()));
    let mut world = World::open(alloc, casts)?;
    let script = b"actor a1 account c1\nsubmit c1 a1 deposit 10\nsend c1 0\ndeliver 0\n";
    let mut told = Vec::new(alloc);
    assert_eq!(rt; play_part(alloc, &mut world, script, 2, &mut told), Ok(()));
    let wanted: [Outcome; 2] = [Ok(Did::Future(c1, FutureId::new(0))), Ok(Did::Mail(0))];
    assert_eq!(rt; told.as_slice(), wanted.as_slice());
    drop(told);
    drop(world);
    Ok(())
}

/// A kind of each sort, in a box.
fn boxes(alloc: Global) -> Result<Kinds, NoMemory> {
    let counter: Boxed = Box::new(alloc, Counter::open())?;
    let table: Boxed = Box::new(alloc, Table::open(alloc))?;
    let account: Boxed = Box::new(alloc, Account::open())?;
    let list: Boxed = Box::new(alloc, ListKind::open(alloc))?;
    Ok(Kinds {
        counter,
        table,
        account,
        list,
    })
}

fn number(alloc: Global, number: i64) -> Result<ListOf<Arg>, NoMemory> {
    let mut args = ListOf::new(alloc);
    args.push(Arg::Plain(Value::Int(number)))?;
    Ok(args)
}

/// A call for each of the four kinds.
fn four_calls(alloc: Global) -> Result<Plan, NoMemory> {
    let a1 = ActorId::new(1).unwrap();
    let a2 = ActorId::new(2).unwrap();
    let a3 = ActorId::new(3).unwrap();
    let a4 = ActorId::new(4).unwrap();
    let mut plan = Vec::new(alloc);
    plan.push(Step::Submit(a1, Method::Add, number(alloc, 5)?))?;
    plan.push(Step::Submit(a2, Method::Size, ListOf::new(alloc)))?;
    plan.push(Step::Submit(a3, Method::Deposit, number(alloc, 10)?))?;
    plan.push(Step::Submit(a4, Method::Push, number(alloc, 7)?))?;
    Ok(plan)
}

/// The caller's first futures have these numbers for answers.
fn assert_answers(rt: &impl Abort, owner: &Owner, numbers: [i64; 4]) {
    for (k, number) in (0..4).zip(numbers) {
        let wanted: Answer = Ok(Value::Int(number));
        assert_eq!(rt; owner.answer(FutureId::new(k)), Some(&wanted));
    }
}

#[test]
fn each_kind_answers_in_its_box(rt: HostRuntime) -> Result<(), Fail> {
    let alloc = rt.alloc();
    let c1 = CallerId::new(1).unwrap();
    let joined = serve_each_kind(&rt, alloc, c1, boxes(alloc)?, four_calls(alloc)?)?;
    assert_eq!(rt; joined.owners.len(), 1);
    for owner in &joined.owners {
        assert_answers(&rt, owner, [5, 0, 10, 1]);
    }
    drop(joined);
    Ok(())
}

#[test]
fn a_plan_with_a_kill_is_no_peace(rt: HostRuntime) -> Result<(), Fail> {
    let alloc = rt.alloc();
    let c1 = CallerId::new(1).unwrap();
    let mut plan = four_calls(alloc)?;
    plan.push(Step::Kill(ActorId::new(3).unwrap()))?;
    let refused = serve_each_kind(&rt, alloc, c1, boxes(alloc)?, plan).err();
    assert_eq!(rt; refused, Some(PeaceFault::EndsAnActor));
    Ok(())
}

#[test]
fn a_plan_of_a_stranger_is_unfit(rt: HostRuntime) -> Result<(), Fail> {
    let alloc = rt.alloc();
    let a1 = ActorId::new(1).unwrap();
    let c1 = CallerId::new(1).unwrap();
    let c2 = CallerId::new(2).unwrap();
    let mut plans = Vec::new(alloc);
    plans.push((c2, Vec::new(alloc)))?;
    let refused = run_in_peace(&rt, alloc, account(alloc, a1, c1)?, plans).err();
    assert_eq!(rt; refused, Some(PeaceFault::Unfit));
    Ok(())
}
