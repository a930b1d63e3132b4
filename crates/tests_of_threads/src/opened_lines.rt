//! The lines of two casts with three callers, of which they share one.

ghost use Rattle.std.specs.Prelude.{◌≡◌, ◌≤◌, [], ◌∷◌, IfOk};
ghost use Rattle.act_plans.specs.Setups.{AreMatched};

use act_actor::Cast;
use act_drive::CallerPasses;
use act_executor::{Opened, open_lines};
use act_mailbox::Endpoint;
use act_plans::CallerSetup;
use act_serve::ExecPasses;
use act_types::{ActorId, CallerId, ListOf, NoMemory};
use std::alloc::{AllocError, Global};
use std::process::Abort;
use std::test::Fail;

fn actor(number: u8) -> ActorId
    requires { (1 ≤ number) × (number ≤ 8) }
    ensures { result ≡ number }
{
    ActorId::new(number).unwrap()
}

fn caller(number: u8) -> CallerId
    requires { (1 ≤ number) × (number ≤ 16) }
    ensures { result ≡ number }
{
    CallerId::new(number).unwrap()
}

/// A cast of an actor and two callers.
fn cast(
    alloc: Global,
    actor: ActorId,
    first: CallerId,
    second: CallerId,
) -> Result<Cast<()>, NoMemory>
    ensures actor { IfOk result (λ cast. cast.actor ≡ actor) }
    ensures callers { IfOk result (λ cast. cast.callers ≡ first ∷ second ∷ []) }
{
    let callers = ListOf::from_vec(vec![in alloc; first, second]?);
    Ok(Cast {
        actor,
        callers,
        kind: (),
        pending: None,
    })
}

/// A part without limits and with an empty plan.
fn setup(alloc: Global, caller: CallerId, actors: Vec<ActorId>) -> CallerSetup
    ensures caller { result.caller ≡ caller }
    ensures actors { result.actors.items ≡ actors.items }
{
    CallerSetup {
        caller,
        actors,
        limits: Vec::new(alloc),
        plan: Vec::new(alloc),
    }
}

/// Actor 5 with callers 2 and 7, and actor 3 with callers 7 and 1; and the parts of 7, 1 and 2.
fn matched(alloc: Global) -> Result<(Vec<Cast<()>>, Vec<CallerSetup>), NoMemory>
    ensures { IfOk result (λ made. AreMatched made.0.items made.1.items) }
{
    let one = cast(alloc, actor(5), caller(2), caller(7))?;
    let two = cast(alloc, actor(3), caller(7), caller(1))?;
    let both = setup(alloc, caller(7), vec![in alloc; actor(5), actor(3)]?);
    let last = setup(alloc, caller(1), vec![in alloc; actor(3)]?);
    let first = setup(alloc, caller(2), vec![in alloc; actor(5)]?);
    let casts = vec![in alloc; one, two]?;
    let setups = vec![in alloc; both, last, first]?;
    Ok((casts, setups))
}

fn places<P>(alloc: Global, endpoints: &[Endpoint<P>]) -> Result<Vec<usize>, AllocError> {
    endpoints
        .iter()
        .map(|endpoint| endpoint.place)
        .collect(alloc)
}

/// Each executor gives notices at the lines of these places.
fn assert_execs(
    rt: &impl Abort,
    alloc: Global,
    execs: &[Endpoint<ExecPasses>],
    wanted: &[&[usize]],
) -> Result<(), AllocError> {
    assert_eq!(rt; execs.len(), wanted.len());
    for (exec, wanted) in execs.iter().zip(wanted) {
        let notices = places(alloc, exec.pass.notices.as_slice())?;
        assert_eq!(rt; notices.as_slice(), *wanted);
    }
    Ok(())
}

/// Each caller posts letters and asks kills at the lines of these places.
fn assert_callers(
    rt: &impl Abort,
    alloc: Global,
    callers: &[Endpoint<CallerPasses>],
    wanted: &[&[usize]],
) -> Result<(), AllocError> {
    assert_eq!(rt; callers.len(), wanted.len());
    for (caller, wanted) in callers.iter().zip(wanted) {
        let letters = places(alloc, caller.pass.letters.as_slice())?;
        assert_eq!(rt; letters.as_slice(), *wanted);
        let kills = places(alloc, caller.pass.kills.as_slice())?;
        assert_eq!(rt; kills.as_slice(), *wanted);
    }
    Ok(())
}

/// So many lines of each sort, and passes of each starter.
fn assert_counts(rt: &impl Abort, opened: &Opened) {
    assert_eq!(rt;
        (
            opened.lines.mails.len(),
            opened.lines.controls.len(),
            opened.lines.replies.len(),
            opened.starters.len()
        ),
        (2, 2, 3, 2)
    );
}

fn assert_opened(rt: &impl Abort, alloc: Global, opened: &Opened) -> Result<(), AllocError> {
    assert_counts(rt, opened);
    assert_execs(rt, alloc, opened.execs.as_slice(), &[&[0, 2], &[0, 1]])?;
    assert_callers(rt, alloc, opened.callers.as_slice(), &[&[0, 1], &[1], &[0]])
}

#[test]
fn two_casts_and_three_callers(rt: HostRuntime) -> Result<(), Fail> {
    let alloc = rt.alloc();
    let (casts, setups) = matched(alloc)?;
    let opened = open_lines(alloc, casts.as_slice(), setups.as_slice());
    drop(casts);
    drop(setups);
    let opened = opened?;
    let done = assert_opened(&rt, alloc, &opened);
    drop(opened);
    done?;
    Ok(())
}
