//! A call is played, and its caller is answered.

use actors::{
    ActorId, CallerId, Counter, Event, FutureId, Method, Shown, World, args_of, cast_fits,
    casts_of_one,
};
use std::test::Fail;

#[test]
fn a_counter_answers_its_sum(rt: HostRuntime) -> Result<(), Fail> {
    let alloc = rt.alloc();
    let a1 = ActorId::new(1).unwrap();
    let c1 = CallerId::new(1).unwrap();
    let first = FutureId::new(0);
    let casts = casts_of_one(alloc, a1, &[c1], Counter::open(), None)?;
    assert!(rt; cast_fits(&casts));
    let mut world = World::open(alloc, casts)?;
    let events = vec![in alloc;
        Event::Submit(c1, a1, Method::Add, args_of(alloc, &[5])?),
        Event::Send(c1, first),
        Event::Deliver(0),
        Event::Run(a1, c1),
        Event::Collect(0),
    ]?;
    for event in &events {
        assert!(rt; world.has_room(1));
        world.apply(event)?;
    }
    let owner = world.owner(c1).expect(&rt, "a caller");
    let answer = owner.answer(first).expect(&rt, "an answer");
    let text = Shown(answer).to_string(alloc)?;
    assert_eq!(rt; text.as_str(), "5");
    Ok(())
}
