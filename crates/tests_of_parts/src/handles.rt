//! One handle from its opening to its last release, the most copies of it, and refused memory.

ghost use Rattle.std.specs.Prelude.{◌≢◌, AllPairs};

use act_handles::{HandleRefusal, Handles};
use act_types::{ActorId, NoMemory};
use std::alloc::Global;
use std::process::Abort;
use std::test::Fail;

/// What a row of the table asks for.
#[derive(Clone, Copy, Debug)]
enum Ask {
    Number(ActorId),
    Copy(ActorId),
    Release(ActorId),
}

/// What the handles tell of it.
fn told(handles: &mut Handles, ask: Ask) -> Result<Option<u32>, HandleRefusal> {
    match ask {
        Ask::Number(actor) => Ok(Some(handles.number(actor)?)),
        Ask::Copy(actor) => Ok(Some(handles.copy(actor)?)),
        Ask::Release(actor) => handles.release(actor),
    }
}

#[test]
fn from_the_opening_to_the_last_release(rt: HostRuntime) -> Result<(), Fail> {
    let a1 = ActorId::new(1).unwrap();
    let a2 = ActorId::new(2).unwrap();
    let mut handles = Handles::open(rt.alloc(), &[a1])?;
    for (ask, want) in [
        (Ask::Number(a1), Ok(Some(0))),
        (Ask::Copy(a1), Ok(Some(2))),
        (Ask::Release(a1), Ok(None)),
        (Ask::Release(a1), Ok(Some(1))),
        (Ask::Release(a1), Err(HandleRefusal::NoHandle)),
        (Ask::Number(a1), Err(HandleRefusal::NoHandle)),
        (Ask::Copy(a1), Err(HandleRefusal::NoHandle)),
        (Ask::Release(a2), Err(HandleRefusal::NoActor)),
    ] {
        assert_eq!(rt; told(&mut handles, ask), want, "at {ask:?}");
    }
    assert_eq!(rt; handles.holds(a1), 0);
    for (actor, want) in [(a1, HandleRefusal::NoHandle), (a2, HandleRefusal::NoActor)] {
        assert_eq!(rt; handles.refusal(actor), Some(want));
    }
    drop(handles);
    Ok(())
}

#[test]
fn the_most_copies(rt: HostRuntime) -> Result<(), Fail> {
    let a1 = ActorId::new(1).unwrap();
    let mut handles = Handles::open(rt.alloc(), &[a1])?;
    let mut last = 1;
    for _ in 0..65_534 {
        let Ok(copies) = handles.copy(a1) else {
            break;
        };
        last = copies;
    }
    assert_eq!(rt; last, 65_535);
    assert_eq!(rt; handles.copy(a1), Err(HandleRefusal::TooManyCopies));
    drop(handles);
    Ok(())
}

/// The handles of these actors, which are opened once more where memory is refused.
fn opened_again(rt: &impl Abort, alloc: Global, actors: &[ActorId]) -> Result<Handles, NoMemory>
    requires { AllPairs (λ one other. one ≢ other) actors.now }
{
    let handles = Handles::open(alloc, actors);
    if handles.is_ok() {
        return handles;
    }
    drop(handles);
    let again = Handles::open(alloc, actors);
    assert!(rt; again.is_ok());
    again
}

/// Memory is refused from outside, at most once.
#[test]
fn refused_memory_changes_nothing(rt: HostRuntime) -> Result<(), Fail> {
    let a1 = ActorId::new(1).unwrap();
    let a8 = ActorId::new(8).unwrap();
    let mut handles = opened_again(&rt, rt.alloc(), &[a1, a8])?;
    for actor in [a1, a8] {
        assert_eq!(rt; (handles.holds(actor), handles.number(actor)), (1, Ok(0)));
    }
    drop(handles);
    Ok(())
}
