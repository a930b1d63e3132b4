//! An actor that was killed.

ghost use Rattle.std.specs.Prelude.{◌≡◌};

use crate::RunLog;
use act_rules::RunItem;
use act_types::ActorId;
use std::marker::Model;

/// An actor that was killed.
#[derive(Drop)]
pub struct Dead<L: RunLog = Vec<RunItem>> {
    id: ActorId,
    log: L,
}

impl<L: RunLog> Model for Dead<L> {
    ghost use Rattle.act_actor.specs.View.{DeadView};

    ghost Value = { DeadView };

    ghost view = { λ dead. record { id = dead.id; log = L.items dead.log } };
}

impl<L: RunLog> Dead<L> {
    /// A killed actor of this name, which ran these calls.
    pub(crate) fn new(id: ActorId, log: L) -> Dead<L>
        ensures { result ≡ record { id = id; log = L.items log } }
    {
        Dead { id, log }
    }

    /// Its name.
    pub fn id(&self) -> ActorId
        ensures { result ≡ self.now.id }
    {
        self.id
    }

    /// What is kept of the calls that it ran.
    pub fn run_log(&self) -> &L
        ensures { L.items result.now ≡ self.now.log }
    {
        &self.log
    }
}

impl Dead {
    /// What it ran.
    pub fn log(&self) -> &[RunItem]
        ensures { result.now ≡ self.now.log }
    {
        self.log.as_slice()
    }
}
