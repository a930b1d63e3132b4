//! Tasks, each in a thread of its own.
#![tactic(auto)]

ghost use Rattle.std.specs.Prelude.{◌≡◌, ◌≤◌, [], IfOk, IfErr, IfSome, vec_len, vec_capacity};
ghost use Rattle.act_tasks.specs.Each.{Each, EachReady, Promised, IsRefused};

use std::alloc::Global;
use std::snapshot::Snapshot;
use std::sync::Wait;
use std::thread;
use std::thread::{Promise, PromisedHandle, Scope, Threads};

/// What a thread does with a value that it owns.
pub trait Task {
    type Output: Send + Drop;

    /// When it may be run.
    ghost ready: { Self → Type 0 };

    /// What its result is then.
    ghost done: { Self → Self.Output → Type 0 };

    fn run<R: Wait>(self, rt: &R) -> Self::Output
        requires { ready self }
        ensures { done self result };
}

/// Remembers a task, whose result is what it was to give.
pub struct DoneBy<T> {
    pub task: Snapshot<T>,
}

impl<T> Drop for DoneBy<T> {
    fn drop(self) {
        let DoneBy { task } = self;
        drop(task);
    }
}

impl<T: Task> Promise<T::Output> for DoneBy<T> {
    ghost kept_by = { λ p r. T.done p.task.value r };
}

/// Why not all tasks were run.
#[derive(Debug, Drop)]
pub enum Refusal<S, X> {
    /// A thread could not be started, and this is what the starter did.
    NoThread(X),
    /// Memory was refused before any thread or after all of them, so the starter had nothing to do.
    NoMemory(S),
}

/// What the starter does where a thread cannot be started. It is used up by that.
pub trait Stop {
    type Stopped: Drop;

    /// When it may be done.
    ghost can_stop: { Self → Type 0 };

    /// What was done then.
    ghost has_stopped: { Self → Self.Stopped → Type 0 };

    fn stop<R: Wait>(self, rt: &R) -> Self::Stopped
        requires { can_stop self }
        ensures { has_stopped self result };
}

// Starts a task, or drops it where no thread can be made.
fn start<'s, Env, R, T>(
    scope: &Scope<'s, Env>,
    rt: &'s R,
    task: T,
) -> Option<PromisedHandle<T::Output, DoneBy<T>>>
where
    R: Wait + Sync,
    T: Task + Send + Drop + 's,
    T::Output: 's,
    requires { T.ready task }
    ensures { IfSome result (λ h. h.promise.task.value ≡ task) }
{
    let promise = DoneBy {
        task: Snapshot::of(&task),
    };
    scope.spawn_with(promise, move || task.run(rt)).ok()
}

// Starts all tasks, for whose handles there is room, or stops where a thread is missed.
fn start_all<'s, Env, R, T, S>(
    scope: &Scope<'s, Env>,
    rt: &'s R,
    tasks: Vec<T>,
    mut handles: Vec<PromisedHandle<T::Output, DoneBy<T>>>,
    stop: S,
) -> Result<(Vec<PromisedHandle<T::Output, DoneBy<T>>>, S), S::Stopped>
where
    R: Wait + Sync,
    T: Task + Send + Drop + 's,
    T::Output: 's,
    S: Stop + Drop,
    requires ready { EachReady T.ready tasks.items }
    requires empty { handles.items ≡ [] }
    requires room { vec_len tasks ≤ vec_capacity handles }
    requires stop { S.can_stop stop }
    ensures started { IfOk result (λ r. Promised tasks.items r.0.items × (r.1 ≡ stop)) }
    ensures stopped { IfErr result (S.has_stopped stop) }
{
    for task in tasks {
        let Some(handle) = start(scope, rt, task) else {
            return Err(stop.stop(rt));
        };
        handles.push_reserved(handle);
    }
    Ok((handles, stop))
}

fn join_all<R, T>(
    rt: &R,
    handles: Vec<PromisedHandle<T::Output, DoneBy<T>>>,
    tasks: Snapshot<Vec<T>>,
) -> Option<Vec<T::Output>>
where
    R: Threads,
    T: Task,
    requires { Promised tasks.value.items handles.items }
    ensures { IfSome result (λ v. Each T.done tasks.value.items v.items) }
{
    let _ = tasks;
    thread::join_promised(rt, handles).ok()
}

/// Runs each task in a thread of its own. The first ones are started first. Where a thread cannot be
/// started, `stop` is called, and all are joined. Memory is refused before any thread is started, or
/// after all were joined, and then `stop` comes back as it was.
pub fn run_both<R, E, C, S>(
    rt: &R,
    alloc: Global,
    first: Vec<E>,
    second: Vec<C>,
    stop: S,
) -> Result<(Vec<E::Output>, Vec<C::Output>, S), Refusal<S, S::Stopped>>
where
    R: Threads + Wait + Sync,
    E: Task + Send + Drop,
    C: Task + Send + Drop,
    S: Stop + Drop,
    requires first { EachReady E.ready first.items }
    requires second { EachReady C.ready second.items }
    requires stop { S.can_stop stop }
    ensures first { IfOk result (λ r. Each E.done first.items r.0.items) }
    ensures second { IfOk result (λ r. Each C.done second.items r.1.items) }
    ensures stop { IfOk result (λ r. r.2 ≡ stop) }
    ensures refused { IfErr result (IsRefused S.has_stopped stop) }
{
    thread::scope(
        thread::scope_env(),
        rt,
        |scope| -> Result<(Vec<E::Output>, Vec<C::Output>, S), Refusal<S, S::Stopped>>
            requires { EachReady E.ready first.items × EachReady C.ready second.items × S.can_stop stop }
            ensures first { IfOk result (λ r. Each E.done first.items r.0.items) }
            ensures second { IfOk result (λ r. Each C.done second.items r.1.items) }
            ensures stop { IfOk result (λ r. r.2 ≡ stop) }
            ensures refused { IfErr result (IsRefused S.has_stopped stop) }
        {
            let before = Snapshot::of(&first);
            let after = Snapshot::of(&second);
            let Ok(handles) = Vec::with_capacity(alloc, first.len()) else {
                return Err(Refusal::NoMemory(stop));
            };
            let Ok(others) = Vec::with_capacity(alloc, second.len()) else {
                return Err(Refusal::NoMemory(stop));
            };
            let (handles, stop) = match start_all(scope, rt, first, handles, stop) {
                Ok(started) => started,
                Err(stopped) => return Err(Refusal::NoThread(stopped)),
            };
            let (others, stop) = match start_all(scope, rt, second, others, stop) {
                Ok(started) => started,
                Err(stopped) => return Err(Refusal::NoThread(stopped)),
            };
            let Some(first) = join_all(rt, handles, before) else {
                return Err(Refusal::NoMemory(stop));
            };
            let Some(second) = join_all(rt, others, after) else {
                return Err(Refusal::NoMemory(stop));
            };
            Ok((first, second, stop))
        },
    )
}
