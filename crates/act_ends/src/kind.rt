//! The kinds of a script, without a box.

ghost use Rattle.std.specs.Prelude.{◌≡◌};
ghost use Rattle.act_rules.specs.Scripts.{opening_state};
ghost use Rattle.act_ends.specs.Kinds.{state_of};

use act_kinds::{Account, Actor, Counter, ListKind, Table};
use act_rules::KindName;
use act_types::{Answer, Method, NoMemory, Value};
use std::alloc::Global;

/// A kind of a script.
#[derive(Drop)]
pub enum Kind {
    Counter(Counter),
    Table(Table),
    Account(Account),
    List(ListKind),
}

impl Kind {
    /// The kind of this name, in its opening state.
    pub fn open(alloc: Global, name: KindName) -> Kind
        ensures { state_of result ≡ opening_state name }
    {
        match name {
            KindName::Counter => Kind::Counter(Counter::open()),
            KindName::Table => Kind::Table(Table::open(alloc)),
            KindName::Account => Kind::Account(Account::open()),
            KindName::ListKind => Kind::List(ListKind::open(alloc)),
        }
    }
}

impl Actor for Kind {
    ghost use Rattle.act_ends.specs.Kinds.{state_of};

    ghost state = { state_of };

    fn ask(&mut self, method: &Method, args: &[Value]) -> Result<Answer, NoMemory> {
        match self {
            Kind::Counter(counter) => counter.ask(method, args),
            Kind::Table(table) => table.ask(method, args),
            Kind::Account(account) => account.ask(method, args),
            Kind::List(list) => list.ask(method, args),
        }
    }

    fn state_text(&self, text: &mut String) -> Result<(), NoMemory> {
        match self {
            Kind::Counter(counter) => counter.state_text(text),
            Kind::Table(table) => table.state_text(text),
            Kind::Account(account) => account.state_text(text),
            Kind::List(list) => list.state_text(text),
        }
    }
}
