//! What the threads are given.

ghost use Rattle.std.specs.Prelude.{◌≡◌, ◌≢◌, [], ◌∷◌, ◌++◌, map, zip, All, AllPairs, None, IfOk, ◌==◌, ℕ, Option, position};
ghost use Rattle.act_rules.specs.Plans.{first_bad};
ghost use Rattle.act_tasks.specs.Each.{Each, EachReady};
ghost use Rattle.act_executor.specs.Work.{MayServe, MayDrive, CanServe, IsServedBy, CanDrive, IsDrivenTo, serving_start, cast_start, driving_start, setup_start};
ghost use Rattle.act_handles.specs.Handles.{actors_in};
ghost use Rattle.act_drive.specs.Driven.{IsFreshCaller};
ghost use Rattle.act_executor.specs.ByCode.{code_of};
ghost use Rattle.act_executor.specs.Conducts.{Doing, does_plan, does_code, HasConducted};

use crate::open::Lines;
use act_actor::{Cast, Live, RunLog};
use act_drive::{CallerLines, CallerPasses, Code, Driven, Plan, drive_code, drive_noting};
use act_kinds::Actor;
use act_mailbox::{Endpoint, Notes};
use act_owner::Owner;
use act_plans::CallerSetup;
use act_rules::Step;
use act_serve::{ExecLines, ExecPasses, Finished, Gate, serve_by};
use act_tasks::Task;
use act_types::{ACTOR_NUMBERS, CallerId, NoMemory};
use std::alloc::Global;
use std::sync::Wait;

/// What an actor's thread is given.
#[derive(Drop)]
pub(crate) struct Serving<'a, K, G, N, L: RunLog> {
    live: Live<K, L>,
    lines: ExecLines<'a>,
    passes: ExecPasses,
    gate: &'a G,
    notes: N,
}

impl<'a, K: Actor + Send, G: Gate, N: Notes + Send + Drop, L: RunLog + Send> Task
    for Serving<'a, K, G, N, L> {
    type Output = (Finished<K, L>, N);

    ghost ready = { CanServe };

    ghost done = { λ serving served. IsServedBy K.state serving served.0 };

    fn run<R: Wait>(self, rt: &R) -> (Finished<K, L>, N) {
        let Serving {
            live,
            lines,
            passes,
            gate,
            mut notes,
        } = self;
        let finished = serve_by(
            rt,
            live,
            &lines,
            passes,
            &|actor, place| { gate.pass(actor, place) },
            &mut notes,
        );
        (finished, notes)
    }
}

/// What a caller's thread is given.
#[derive(Drop)]
pub(crate) struct Driving<'a, D, N> {
    alloc: Global,
    owner: Owner,
    plan: Plan,
    conduct: D,
    lines: CallerLines<'a>,
    passes: CallerPasses,
    notes: N,
}

impl<'a, D: Conduct + Send, N: Notes + Send + Drop> Task for Driving<'a, D, N> {
    type Output = (Driven, N);

    ghost ready = { CanDrive };

    ghost done = { λ driving driven. IsDrivenTo D.does driving driven.0 };

    fn run<R: Wait>(self, rt: &R) -> (Driven, N) {
        let Driving {
            alloc,
            owner,
            plan,
            conduct,
            lines,
            passes,
            mut notes,
        } = self;
        let driven = conduct.drive(rt, alloc, owner, plan, &lines, passes, &mut notes);
        (driven, notes)
    }
}

/// How many calls the plans submit to each actor, by the actors' numbers.
pub(crate) type CallCounts = [usize; ACTOR_NUMBERS];

/// The calls of all plans.
pub(crate) fn calls_of_all(setups: &[CallerSetup]) -> CallCounts {
    let mut counts = [0usize; ACTOR_NUMBERS];
    for step in setups.iter().flat_map(|setup| setup.plan.iter()) {
        if let Step::Submit(actor, ..) = step {
            let count = &mut counts[actor.number() as usize];
            *count = count.saturating_add(1);
        }
    }
    counts
}

/// What the actors' threads are given.
pub(crate) fn servings<'a, K: Actor, G, N: Notes + Drop, L: RunLog>(
    alloc: Global,
    casts: Vec<Cast<K>>,
    lines: &'a Lines,
    execs: Vec<Endpoint<ExecPasses>>,
    gate: &'a G,
    calls: &CallCounts,
) -> Result<Vec<Serving<'a, K, G, N, L>>, NoMemory>
    requires { Each (MayServe lines.now) casts.items execs.items }
    ensures ready { IfOk result (λ servings. All CanServe servings.items) }
    ensures starts { IfOk result (λ servings.
        map (serving_start K.state) servings.items ≡
        map (cast_start K.state lines.now.replies.items) (zip casts.items execs.items)) }
{
    let mut servings = Vec::new(alloc);
    for (cast, exec) in casts.into_iter().zip(execs) {
        let room = calls[cast.actor.number() as usize];
        add_serving(alloc, cast, lines, exec, gate, room, &mut servings)?;
    }
    Ok(servings)
}

/// What one more actor's thread is given, with room for so many calls.
fn add_serving<'a, K: Actor, G, N: Notes + Drop, L: RunLog>(
    alloc: Global,
    cast: Cast<K>,
    lines: &'a Lines,
    exec: Endpoint<ExecPasses>,
    gate: &'a G,
    room: usize,
    servings: &mut Vec<Serving<'a, K, G, N, L>>,
) -> Result<(), NoMemory>
    requires serves { MayServe lines.now cast exec }
    requires ready { All CanServe servings.old.items }
    ensures ready { IfOk result (λ _. All CanServe servings.new.items) }
    ensures starts { IfOk result (λ _.
        map (serving_start K.state) servings.new.items ≡
        map (serving_start K.state) servings.old.items ++
        cast_start K.state lines.now.replies.items (cast, exec) ∷ []) }
{
    let Cast {
        actor,
        callers,
        kind,
        ..
    } = cast;
    let Endpoint { place, pass } = exec;
    let mut live = Live::open_keeping(alloc, actor, callers.as_slice(), kind)?;
    drop(callers);
    // Where memory doesn't serve for all at once, room is made call by call.
    let _ = live.reserve(room);
    let lines = ExecLines {
        mail: &lines.mails[place],
        control: &lines.controls[place],
        replies: lines.replies.as_slice(),
    };
    servings.push(Serving {
        live,
        lines,
        passes: pass,
        gate,
        notes: N::open(alloc),
    })?;
    Ok(())
}

/// What the callers' threads are given.
pub(crate) fn drivings<'a, D: Conducts, N: Notes + Drop>(
    alloc: Global,
    setups: Vec<CallerSetup>,
    conducts: D,
    lines: &'a Lines,
    callers: Vec<Endpoint<CallerPasses>>,
) -> Result<Vec<Driving<'a, D::One, N>>, NoMemory>
    requires differ { AllPairs (λ one other. one.caller ≢ other.caller) setups.items }
    requires each { Each (MayDrive lines.now) setups.items callers.items }
    ensures ready { IfOk result (λ drivings. All CanDrive drivings.items) }
    ensures starts { IfOk result (λ drivings.
        map driving_start drivings.items
        ≡ map (setup_start lines.now (D.of conducts)) (zip setups.items callers.items)) }
{
    let mut conducts = conducts;
    let mut drivings = Vec::new(alloc);
    for (setup, caller) in setups.into_iter().zip(callers) {
        let conduct = conducts.take(setup.caller);
        add_driving(alloc, setup, conduct, lines, caller, &mut drivings)?;
    }
    Ok(drivings)
}

/// What one more caller's thread is given.
fn add_driving<'a, D: Conduct, N: Notes + Drop>(
    alloc: Global,
    setup: CallerSetup,
    conduct: D,
    lines: &'a Lines,
    caller: Endpoint<CallerPasses>,
    drivings: &mut Vec<Driving<'a, D, N>>,
) -> Result<(), NoMemory>
    requires drives { MayDrive lines.now setup caller }
    requires ready { All CanDrive drivings.old.items }
    ensures ready { IfOk result (λ _. All CanDrive drivings.new.items) }
    ensures starts { IfOk result (λ _.
        map driving_start drivings.new.items
        ≡ map driving_start drivings.old.items ++ setup_start lines.now (λ _. conduct) (setup, caller) ∷ []) }
{
    let CallerSetup {
        caller: id,
        limits,
        plan,
        ..
    } = setup;
    let Endpoint { place, pass } = caller;
    let owner = Owner::open_with(alloc, id, limits.as_slice())?;
    let lines = CallerLines {
        mails: lines.mails.as_slice(),
        controls: lines.controls.as_slice(),
        replies: &lines.replies[place],
    };
    drivings.push(Driving {
        alloc,
        owner,
        plan,
        conduct,
        lines,
        passes: pass,
        notes: N::open(alloc),
    })?;
    Ok(())
}

/// What one caller's thread goes by, beside its plan. What its own code does is not noted.
pub(crate) trait Conduct: Drop {
    ghost does: { Self → Doing };

    fn drive<R: Wait, N: Notes>(
        self,
        rt: &R,
        alloc: Global,
        owner: Owner,
        plan: Plan,
        lines: &CallerLines,
        passes: CallerPasses,
        notes: &mut N,
    ) -> Driven
        requires fresh { IsFreshCaller lines.now owner passes }
        requires fits { first_bad (actors_in owner.handles) plan.items ≡ None }
        ensures { HasConducted lines.now owner passes (does self plan.items) result };
}

/// What the threads of all callers go by.
pub(crate) trait Conducts: Drop {
    type One: Conduct + Send;

    /// What is for the caller of this number.
    ghost of: { Self → ℕ → Self.One };

    fn take(&mut self, caller: CallerId) -> Self::One
        ensures taken { result ≡ of self.old caller }
        ensures others { (c : ℕ) → c ≢ caller → of self.new c ≡ of self.old c };
}

/// By plans alone.
#[derive(Clone, Copy)]
pub(crate) struct ByPlan;

impl Conduct for ByPlan {
    ghost does = { λ _. does_plan };

    fn drive<R: Wait, N: Notes>(
        self,
        rt: &R,
        alloc: Global,
        owner: Owner,
        plan: Plan,
        lines: &CallerLines,
        passes: CallerPasses,
        notes: &mut N,
    ) -> Driven {
        drive_noting(rt, alloc, owner, plan, lines, passes, notes)
    }
}

impl Conducts for ByPlan {
    type One = ByPlan;

    ghost of = { λ all _. all };

    fn take(&mut self, _caller: CallerId) -> ByPlan {
        *self
    }
}

/// By a caller's code, or by its plan where it has none.
#[derive(Drop)]
pub(crate) struct Given<C> {
    code: Option<C>,
}

impl<C: Code> Conduct for Given<C> {
    ghost does = { λ given. does_code C.tells given.code };

    fn drive<R: Wait, N: Notes>(
        self,
        rt: &R,
        alloc: Global,
        owner: Owner,
        plan: Plan,
        lines: &CallerLines,
        passes: CallerPasses,
        notes: &mut N,
    ) -> Driven {
        match self.code {
            None => drive_noting(rt, alloc, owner, plan, lines, passes, notes),
            Some(code) => drive_code(rt, alloc, owner, code, lines, passes),
        }
    }
}

/// By codes where there are some, and else by plans.
#[derive(Drop)]
pub(crate) struct ByCode<C> {
    pub(crate) codes: Vec<(CallerId, C)>,
}

/// The place of the caller's code in the list.
fn place_of_code<C>(codes: &[(CallerId, C)], caller: CallerId) -> Option<usize>
    ensures { result ≡ position (λ given. given.0 == caller) codes.now }
{
    codes.iter().position(|given| given.0 == caller)
}

/// Takes the code of this caller out of the list, where it has one.
fn take_code<C: Drop>(codes: &mut Vec<(CallerId, C)>, caller: CallerId) -> Option<C>
    ensures taken { result ≡ code_of caller codes.old.items }
    ensures others { (c : ℕ) → c ≢ caller → code_of c codes.new.items ≡ code_of c codes.old.items }
{
    let place = place_of_code(codes, caller)?;
    Some(codes.remove(place).1)
}

impl<C: Code + Send> Conducts for ByCode<C> {
    type One = Given<C>;

    ghost of = { λ all c. record { code = code_of c all.codes.items } };

    fn take(&mut self, caller: CallerId) -> Given<C> {
        Given {
            code: take_code(&mut self.codes, caller),
        }
    }
}
