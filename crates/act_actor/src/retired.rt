//! An actor that ended once all that was submitted to it had run.

ghost use Rattle.std.specs.Prelude.{◌≡◌, ◌++◌, OnOk, OnErr};
ghost use Rattle.std.specs.String.{string_bytes};
ghost use Rattle.act_types.specs.Texts.{state_text};

use crate::RunLog;
use act_kinds::{Actor, Boxed};
use act_rules::RunItem;
use act_types::{ActorId, NoMemory};
use std::marker::Model;

/// An actor that ended once all that was submitted to it had run.
#[derive(Drop)]
pub struct Retired<K = Boxed, L: RunLog = Vec<RunItem>> {
    id: ActorId,
    log: L,
    kind: K,
}

impl<K, L: RunLog> Model for Retired<K, L> {
    ghost use Rattle.act_actor.specs.View.{LeftView};

    ghost Value = { LeftView K };

    ghost view = { λ retired. record { id = retired.id; log = L.items retired.log; state = retired.kind } };
}

impl<K: Actor, L: RunLog> Retired<K, L> {
    /// A retired actor of this name, which ran these calls and left its kind so.
    pub(crate) fn new(id: ActorId, log: L, kind: K) -> Retired<K, L>
        ensures { result ≡ record { id = id; log = L.items log; state = kind } }
    {
        Retired { id, log, kind }
    }

    /// Its name.
    pub fn id(&self) -> ActorId
        ensures { result ≡ self.now.id }
    {
        self.id
    }

    /// What is kept of the calls that it ran.
    pub fn run_log(&self) -> &L
        ensures { L.items result.now ≡ self.now.log }
    {
        &self.log
    }

    /// Its kind, as its last call left it.
    pub fn kind(&self) -> &K
        ensures { result.now ≡ self.now.state }
    {
        &self.kind
    }

    /// Its kind, given back as its last call left it. Its run list is let go.
    pub fn into_kind(self) -> K
        ensures { result ≡ self.state }
    {
        let Retired { kind, .. } = self;
        kind
    }

    /// Appends the state's text, or leaves the text as it was.
    pub fn state_text(&self, text: &mut String) -> Result<(), NoMemory>
        ensures ok { OnOk result
            (string_bytes text.new ≡ string_bytes text.old ++ state_text (K.state self.now.state)) }
        ensures err { OnErr result (string_bytes text.new ≡ string_bytes text.old) }
    {
        self.kind.state_text(text)
    }
}

impl<K: Actor> Retired<K> {
    /// What it ran.
    pub fn log(&self) -> &[RunItem]
        ensures { result.now ≡ self.now.log }
    {
        self.log.as_slice()
    }
}
