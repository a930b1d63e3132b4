//! A step of a session, as contracts see it.

ghost use Rattle.std.specs.Prelude.{◌≡◌};
ghost use Rattle.act_rules.specs.declared.script.Step.TheVariants.{Submit};
ghost use Rattle.act_drive.specs.Doing.{step_of};

use act_types::{ActorId, Arg, FutureId, ListOf, Method};
use std::snapshot::Snapshot;

/// A step that a session did. The method of a call and its arguments are known to contracts alone.
#[derive(Drop)]
pub enum Doing {
    Submit(ActorId, Snapshot<Method>, Snapshot<ListOf<Arg>>),
    Copy(ActorId),
    Release(ActorId),
    Kill(ActorId),
    Await(FutureId),
}

/// The step that submits a call of this method with these arguments.
pub fn submission(actor: ActorId, method: &Method, args: &ListOf<Arg>) -> Doing
    ensures { step_of result ≡ Submit actor method.now args.now }
{
    Doing::Submit(actor, Snapshot::of(method), Snapshot::of(args))
}
