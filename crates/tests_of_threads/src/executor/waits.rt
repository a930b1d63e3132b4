//! Code that tells which steps it did: a wait is one of them.

use super::scene::{Case, Kind, actor, caller, ran_by_code};
use crate::rows::assert_is;
use crate::told::text_of;
use act_executor::{Code, GaveUp, NoGate, RunFault, Session};
use act_types::{ActorId, ListOf, Method};
use std::alloc::Global;
use std::process::Abort;
use std::sync::Wait;
use std::test::Fail;
use std::thread::Threads;

/// Calls one actor, waits for the answer, and calls the other.
#[derive(Clone, Copy)]
struct OneAfterAnother {
    one: ActorId,
    other: ActorId,
}

impl Code for OneAfterAnother {
    ghost use Rattle.std.specs.Prelude.{◌≡◌, [], ◌∷◌, ◌++◌, length};
    ghost use Rattle.act_types.specs.declared.call.Method.TheVariants.{Get};
    ghost use Rattle.act_rules.specs.declared.script.Step.TheVariants.{Submit, Await};

    ghost tells = { λ code old new. new.did ≡
        old.did ++ Submit code.one Get [] ∷ Await (length old.calls) ∷ Submit code.other Get [] ∷ [] };

    fn run<S: Session>(&mut self, session: &mut S) -> Result<(), GaveUp> {
        let alloc = session.alloc();
        let k = session.submit(self.one, Method::Get, ListOf::new(alloc))?;
        session.wait(k)?;
        session.submit(self.other, Method::Get, ListOf::new(alloc))?;
        Ok(())
    }
}

/// Calls one actor and waits, and then the other and waits, by `ask`.
#[derive(Clone, Copy)]
struct AsksBoth {
    one: ActorId,
    other: ActorId,
}

impl Code for AsksBoth {
    ghost use Rattle.std.specs.Prelude.{◌≡◌, [], ◌∷◌, ◌++◌, ◌+◌, length};
    ghost use Rattle.act_types.specs.declared.call.Method.TheVariants.{Get};
    ghost use Rattle.act_rules.specs.declared.script.Step.TheVariants.{Submit, Await};

    ghost tells = { λ code old new. new.did ≡
        old.did ++ Submit code.one Get [] ∷ Await (length old.calls) ∷ Submit code.other Get [] ∷
        Await (length old.calls + 1) ∷ [] };

    fn run<S: Session>(&mut self, session: &mut S) -> Result<(), GaveUp> {
        let alloc = session.alloc();
        session.ask(self.one, Method::Get, ListOf::new(alloc))?;
        session.ask(self.other, Method::Get, ListOf::new(alloc))?;
        Ok(())
    }
}

/// Calls both actors, and then waits for both answers, by `wait_all`.
#[derive(Clone, Copy)]
struct WaitsForBoth {
    one: ActorId,
    other: ActorId,
}

impl Code for WaitsForBoth {
    ghost use Rattle.std.specs.Prelude.{◌≡◌, [], ◌∷◌, ◌++◌, ◌+◌, length};
    ghost use Rattle.act_types.specs.declared.call.Method.TheVariants.{Get};
    ghost use Rattle.act_rules.specs.declared.script.Step.TheVariants.{Submit, Await};

    ghost tells = { λ code old new. new.did ≡
        old.did ++ Submit code.one Get [] ∷ Submit code.other Get [] ∷ Await (length old.calls) ∷
        Await (length old.calls + 1) ∷ [] };

    fn run<S: Session>(&mut self, session: &mut S) -> Result<(), GaveUp> {
        let alloc = session.alloc();
        let k = session.submit(self.one, Method::Get, ListOf::new(alloc))?;
        let j = session.submit(self.other, Method::Get, ListOf::new(alloc))?;
        session.turn()?;
        session.wait_all(&[k, j])?;
        Ok(())
    }
}

/// Two counters of caller 1, each of whose two calls is answered 0.
#[rattlefmt::skip]
static TWO_GETS: Case = Case { name: "codes that wait", planned: &[], steps: &[], codes: &[],
    roles: &[(1, &[1], Kind::ACounter, None), (2, &[1], Kind::ACounter, None)],
    ends: &["c1: 0 0\na1 retired counter 0: c1.0\na2 retired counter 0: c1.1\n"] };

fn runs<R: Threads + Wait + Sync + Abort, C: Code + Send>(
    rt: &R,
    alloc: Global,
    name: &str,
    code: C,
) -> Result<(), RunFault> {
    let mut codes = Vec::new(alloc);
    codes.push((caller(1), code))?;
    let joined = ran_by_code(rt, alloc, &TWO_GETS, codes, &NoGate)?;
    let text = text_of(alloc, &joined);
    drop(joined);
    let text = text?;
    let is_left = TWO_GETS.ends.contains(&text.as_str());
    drop(text);
    assert_is(rt, name, &is_left, &true);
    Ok(())
}

#[test]
fn codes_that_wait(rt: HostRuntime) -> Result<(), Fail> {
    let alloc = rt.alloc();
    let [one, other] = [actor(1), actor(2)];
    runs(
        &rt,
        alloc,
        "a_code_that_waits",
        OneAfterAnother { one, other },
    )?;
    runs(
        &rt,
        alloc,
        "a_code_that_waits_for_both",
        WaitsForBoth { one, other },
    )?;
    runs(
        &rt,
        alloc,
        "a_code_that_asks_twice",
        AsksBoth { one, other },
    )?;
    Ok(())
}
