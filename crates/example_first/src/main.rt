//! A counter, a caller with a limit, and the five events of one call.
#![tactic(auto)]

use actors::{
    ActorId, CallerId, Counter, Event, FutureId, Method, Shown, Stage, World, args_of, cast_fits,
    casts_of_one,
};
use anyhow::{Result, ensure};

fn main(rt: HostRuntime) -> Result<()> {
    let alloc = rt.alloc();
    let a1 = ActorId::new(1).unwrap();
    let c1 = CallerId::new(1).unwrap();
    let first = FutureId::new(0);

    let casts = casts_of_one(alloc, a1, &[c1], Counter::open(), Some(2))?;
    ensure!(cast_fits(&casts), "the casts don't fit");
    let mut world = World::open(alloc, casts)?;

    let events = vec![in alloc;
        Event::Submit(c1, a1, Method::Add, args_of(alloc, &[5])?),
        Event::Send(c1, first),
        Event::Deliver(0),
        Event::Run(a1, c1),
        Event::Collect(0),
    ]?;
    for event in &events {
        ensure!(world.has_room(1), "the world is full");
        let did = world.apply(event)?;
        println!(rt; "{did}")?;
    }
    if let Some(owner) = world.owner(c1)
        && let Some(answer) = owner.answer(first)
    {
        println!(rt; "{c1}.{first} {a1} = {}", Shown(answer))?;
    }
    if let Some(Stage::Live(live)) = world.stage(a1) {
        let counter = live.kind();
        println!(rt; "{a1} live {counter}")?;
    }
    Ok(())
}
