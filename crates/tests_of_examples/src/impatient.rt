//! An impatient caller of a list.

use crate::callers_scene::{actor, alone, cast_of, ends_as};
use act_actor::Cast;
use act_kinds::{Boxed, ListKind};
use act_types::NoMemory;
use example_callers::Impatient;
use std::alloc::Global;
use std::test::Fail;

fn one_list(alloc: Global) -> Result<Vec<Cast<Boxed>>, NoMemory> {
    let list: Boxed = Box::new(alloc, ListKind::open(alloc))?;
    let mut casts = Vec::new(alloc);
    casts.push(cast_of(alloc, 1, &[1], list)?)?;
    Ok(casts)
}

fn after(turns: u32) -> Impatient {
    Impatient {
        list: actor(1),
        turns,
    }
}

#[test]
fn is_answered_and_asks_no_kill(rt: HostRuntime) -> Result<(), Fail> {
    let alloc = rt.alloc();
    let report = alone(&rt, alloc, one_list(alloc)?, after(u32::MAX))?;
    let wanted = "c1.0 a1 = NoItems\na1 retired list\na1.0 c1.0 pop\n";
    assert_eq!(rt; report.as_str(), wanted);
    Ok(())
}

/// The kill comes before the call, or after it.
const ENDS: [(&str, &str); 2] = [
    ("c1.0 a1 = ActorDied\n", "a1 dead\n"),
    ("c1.0 a1 = NoItems\n", "a1 dead\na1.0 c1.0 pop\n"),
];

#[test]
fn asks_a_kill_without_a_turn(rt: HostRuntime) -> Result<(), Fail> {
    let alloc = rt.alloc();
    let report = alone(&rt, alloc, one_list(alloc)?, after(0))?;
    assert!(rt; ends_as(report.as_str(), &ENDS));
    Ok(())
}
