//! What actors answer, if they ran as is told.

ghost use Rattle.std.specs.Prelude.{◌≡◌, ◌↔◌, ℕ, false, List, Ok, Err, IfOk, IfSome, IsTrue, MatchResult, OnOk, map, slice_get};
ghost use Rattle.act_types.specs.KindState.{KindState};
ghost use Rattle.act_types.specs.declared.call.Method.TheVariants.{Terminate};
ghost use Rattle.act_rules.specs.History.{ActorSpec};
ghost use Rattle.act_rules.specs.RunList.{after_item, answers_from, call_reply, step_of_reply, values_of};
ghost use Rattle.act_rules.specs.Scripts.{actor_spec_of, opening_state};
ghost use Rattle.act_walks.specs.declared.told.ToldEnd.{ToldEnd as End};
ghost use Rattle.act_walks.specs.Fits.{rans_in};
ghost use Rattle.act_decisions.specs.Answered.{AreAnswers};
ghost use Rattle.act_decisions.specs.Placed.{item_told, answer_told, GaveValue};

use crate::fits_roles::role_at;
use act_kinds::{Account, Actor, Counter, ListKind, Table};
use act_rules::{KindName, Role};
use act_types::{
    ActorId, Answer, CopyOf, Fault, FutureId, Method, NoMemory, Settled, SmallList, Value,
};
use act_walks::{ToldEnd, ToldRun};
use std::alloc::Global;

/// What an actor answers at each place of its run list.
#[derive(Debug, Drop)]
pub(crate) struct Answered {
    pub(crate) answers: Vec<Answer>,
}

/// Copies of the values of settled arguments, or the future of the first that failed.
#[tactic(auto, using(act_actor::proofs::Values::scanned))]
fn values_of(
    alloc: Global,
    args: &[Settled],
) -> Result<Result<SmallList<Value>, FutureId>, NoMemory>
    ensures { IfOk result (λ given.
        MatchResult given (λ values. values_of args.now ≡ Ok values) (λ future. values_of args.now ≡ Err future)) }
{
    let mut values = SmallList::with_capacity(alloc, args.len())?;
    for arg in args {
        match arg {
            Settled::Good(value) => values.push(value.copy_of(alloc)?)?,
            Settled::Bad(future) => return Ok(Err(*future)),
        }
    }
    Ok(Ok(values))
}

/// What an actor answers to a `terminate`. Its kind isn't asked.
fn answer_to_terminate(values: &[Value]) -> Answer
    ensures { (state : KindState) → (state, result) ≡ step_of_reply state (call_reply state Terminate values.now) }
{
    match values {
        [] => Ok(Value::Unit),
        _ => Err(Fault::BadArgs),
    }
}

/// What an actor answers to a call, with the arguments that it is told to have run with.
fn answer_to<K: Actor>(alloc: Global, kind: &mut K, run: &ToldRun) -> Result<Answer, NoMemory>
    ensures answer { IfOk result (λ answer. answer ≡ (after_item (K.state kind.old) (item_told run.now)).1) }
    ensures moved { OnOk result (K.state kind.new ≡ (after_item (K.state kind.old) (item_told run.now)).0) }
{
    match values_of(alloc, run.args.as_slice())? {
        Ok(values) => match run.method {
            Method::Terminate => Ok(answer_to_terminate(values.as_slice())),
            _ => kind.ask(&run.method, values.as_slice()),
        },
        Err(future) => Ok(Err(Fault::Dependency(future))),
    }
}

/// What an actor of this kind answers.
fn answers_by<K: Actor>(alloc: Global, mut kind: K, runs: &[ToldRun]) -> Result<Answered, NoMemory>
    ensures { IfOk result (λ told. told.answers.items ≡ answers_from (K.state kind) (map item_told runs.now)) }
{
    let mut answers = Vec::new(alloc);
    for run in runs {
        answers.push(answer_to(alloc, &mut kind, run)?)?;
    }
    Ok(Answered { answers })
}

/// The same of an actor that is opened with this kind.
fn answers_of_kind(alloc: Global, name: KindName, runs: &[ToldRun]) -> Result<Answered, NoMemory>
    ensures { IfOk result (λ told. told.answers.items ≡ answers_from (opening_state name) (map item_told runs.now)) }
{
    match name {
        KindName::Counter => answers_by(alloc, Counter::open(), runs),
        KindName::Table => answers_by(alloc, Table::open(alloc), runs),
        KindName::Account => answers_by(alloc, Account::open(), runs),
        KindName::ListKind => answers_by(alloc, ListKind::open(alloc), runs),
    }
}

/// The same of the actor of this number, if it has a role.
fn answers_of(
    alloc: Global,
    roles: &[Role],
    a: usize,
    runs: &[ToldRun],
) -> Result<Answered, NoMemory>
    ensures { IfOk result (λ told. (end : End) (p : ℕ) → runs.now ≡ rans_in end a →
        slice_get told.answers.items p ≡ answer_told (map actor_spec_of roles.now) end a p) }
{
    match role_at(roles, a) {
        None => Ok(Answered {
            answers: Vec::new(alloc),
        }),
        Some(role) => answers_of_kind(alloc, role.kind, runs),
    }
}

/// What each actor answers, by its number.
pub(crate) fn all_answers(
    alloc: Global,
    roles: &[Role],
    end: &ToldEnd,
) -> Result<Vec<Answered>, NoMemory>
    ensures { IfOk result (λ all. AreAnswers (map actor_spec_of roles.now) end.now all.items) }
{
    let mut all = Vec::new(alloc);
    for a in 0..end.actors.len() {
        all.push(answers_of(alloc, roles, a, &end.actors[a].runs)?)?;
    }
    Ok(all)
}

/// Whether the actor answers a value there, if that is known.
fn gave_value(all: &[Answered], a: ActorId, p: u32) -> Option<bool>
    ensures { IfSome result (λ is. (casts : List ActorSpec) (end : End) → AreAnswers casts end all.now →
        IsTrue is ↔ GaveValue casts end a p) }
{
    let told = all.get(a.number() as usize)?;
    match told.answers.get(p as usize) {
        Some(Ok(_)) => Some(true),
        Some(Err(_)) => Some(false),
        None => Some(false),
    }
}

/// Whether the actor is known to have answered a value there.
pub(crate) fn is_value(all: &[Answered], a: ActorId, p: u32) -> bool
    ensures { (casts : List ActorSpec) (end : End) → AreAnswers casts end all.now → IsTrue result →
        GaveValue casts end a p }
{
    match gave_value(all, a, p) {
        None => false,
        Some(is) => is,
    }
}

/// Whether the actor may have answered a value there.
pub(crate) fn may_be_value(all: &[Answered], a: ActorId, p: u32) -> bool
    ensures { (casts : List ActorSpec) (end : End) → AreAnswers casts end all.now → result ≡ false →
        GaveValue casts end a p → ⊥ }
{
    match gave_value(all, a, p) {
        None => true,
        Some(is) => is,
    }
}
