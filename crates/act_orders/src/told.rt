//! What a history tells.

ghost use Rattle.std.specs.Prelude.{◌≡◌, ◌<◌, length};
ghost use Rattle.act_orders.specs.Order.{call_of, actor_of};
ghost use Rattle.act_orders.specs.Causes.{IsWhole, IsUpTo, run_of, last_call};

use act_types::ListOf;

/// What became of a call, for its caller.
#[derive(Clone, Copy, Debug, PartialEq, Eq)]
pub enum Outcome {
    Answered,
    Failed,
    Died,
    Open,
}

/// How an actor stands at the end.
#[derive(Clone, Copy, Debug, PartialEq, Eq)]
pub enum End {
    Live,
    Dead,
    Retired,
}

/// A call.
#[derive(Debug, Drop)]
pub struct Call {
    pub caller: usize,
    pub actor: usize,
    /// The calls for whose answers its caller waited just before it.
    pub waits: ListOf<usize>,
    /// The calls whose answers it takes as arguments.
    pub takes: ListOf<usize>,
    pub outcome: Outcome,
}

/// A call that an actor ran.
#[derive(Clone, Copy, Debug, PartialEq, Eq)]
pub struct Run {
    pub actor: usize,
    pub call: usize,
}

/// An actor: the callers that may call it, by rising numbers, and how it stands at the end.
#[derive(Debug, Drop)]
pub struct Actor {
    pub callers: ListOf<usize>,
    pub end: End,
}

/// A history. A call is named by its place among all calls, and an actor by its place among the actors.
#[derive(Debug, Drop)]
pub struct Told {
    /// By rising callers, and of each caller as it submitted them.
    pub calls: ListOf<Call>,
    /// Of one actor after the other, and of each as it ran them.
    pub runs: ListOf<Run>,
    pub actors: ListOf<Actor>,
    /// The calls for whose answers callers waited after their last calls.
    pub waits: ListOf<usize>,
}

impl Told {
    /// The call at this place.
    pub fn call(&self, place: usize) -> &Call
        requires { place < length self.now.calls }
        ensures { result.now ≡ call_of self.now place }
    {
        &self.calls.as_slice()[place]
    }

    /// The actor at this place.
    pub fn actor(&self, place: usize) -> &Actor
        requires { place < length self.now.actors }
        ensures { result.now ≡ actor_of self.now place }
    {
        &self.actors.as_slice()[place]
    }

    /// The run at this place.
    pub fn run(&self, place: usize) -> Run
        requires { place < length self.now.runs }
        ensures { result ≡ run_of self.now place }
    {
        self.runs.as_slice()[place]
    }

    /// How many runs are of this actor or of an earlier one.
    fn runs_up_to(&self, actor: usize) -> usize
        requires { IsWhole self.now }
        ensures { IsUpTo self.now actor result }
    {
        let runs = self.runs.as_slice();
        runs.partition_point(|run| run.actor <= actor)
    }

    /// The last call that an actor ran, if it ran one.
    pub fn last_run(&self, actor: usize) -> Option<usize>
        requires { IsWhole self.now }
        ensures { result ≡ last_call self.now.runs actor }
    {
        let count = self.runs_up_to(actor);
        if count == 0 {
            return None;
        }
        let run = self.run(count - 1);
        if run.actor == actor {
            Some(run.call)
        } else {
            None
        }
    }
}

/// What happens in a history.
#[derive(Clone, Copy, Debug, PartialEq, Eq)]
pub enum Happening {
    /// The call is submitted.
    Submitted(usize),
    /// It runs.
    Ran(usize),
    /// Its caller takes its answer.
    Answered(usize),
}
