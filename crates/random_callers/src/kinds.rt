//! An actor of any of the four kinds.

ghost use Rattle.std.specs.Prelude.{◌≡◌};
ghost use Rattle.act_rules.specs.Scripts.{opening_state};
ghost use Rattle.random_callers.specs.Kinds.{state_of};

use act_kinds::{Account, Actor, Counter, ListKind, Table};
use act_rules::KindName;
use act_types::{Answer, Method, NoMemory, Value};
use std::alloc::Global;

/// A kind, by its name.
#[derive(Drop)]
pub(crate) enum AnyKind {
    Counting(Counter),
    Tabling(Table),
    Accounting(Account),
    Listing(ListKind),
}

impl AnyKind {
    /// The kind of this name, in its opening state.
    pub(crate) fn open(alloc: Global, kind: KindName) -> AnyKind
        ensures { state_of result ≡ opening_state kind }
    {
        match kind {
            KindName::Counter => AnyKind::Counting(Counter::open()),
            KindName::Table => AnyKind::Tabling(Table::open(alloc)),
            KindName::Account => AnyKind::Accounting(Account::open()),
            KindName::ListKind => AnyKind::Listing(ListKind::open(alloc)),
        }
    }
}

impl Actor for AnyKind {
    ghost use Rattle.random_callers.specs.Kinds.{state_of};

    ghost state = { state_of };

    fn ask(&mut self, method: &Method, args: &[Value]) -> Result<Answer, NoMemory> {
        match self {
            AnyKind::Counting(counter) => counter.ask(method, args),
            AnyKind::Tabling(table) => table.ask(method, args),
            AnyKind::Accounting(account) => account.ask(method, args),
            AnyKind::Listing(list) => list.ask(method, args),
        }
    }

    fn state_text(&self, text: &mut String) -> Result<(), NoMemory> {
        match self {
            AnyKind::Counting(counter) => counter.state_text(text),
            AnyKind::Tabling(table) => table.state_text(text),
            AnyKind::Accounting(account) => account.state_text(text),
            AnyKind::Listing(list) => list.state_text(text),
        }
    }
}
