//! A run of a script, from bytes to bytes.

ghost use Rattle.std.specs.Prelude.{◌≡◌, ◌<◌, ◌^◌, IfOk, length, map, string_bytes, ◌+◌, ◌≤◌, ℕ, OnOk, OnErr, IfSome, IsSome};
ghost use Rattle.act_rules.specs.declared.script.Mode.TheVariants.{Play};
ghost use Rattle.act_rules.specs.Report.{report};
ghost use Rattle.act_rules.specs.Scripts.{world_of, actor_spec_of, opening_state};
ghost use Rattle.act_rules.specs.Grammar.{spelled};
ghost use Rattle.act_console.specs.Console.{IsPlayOutput, ScriptPlayed};
ghost use Rattle.act_scripts.specs.Roles.{AreFitting};
ghost use Rattle.act_scripts.specs.Spelled.{mode_of, count_of, spelled_script};
ghost use Rattle.act_console.specs.Stock.{IsReady, HasEach, HasOneMore, HasSame};
ghost use Rattle.act_actor.specs.Casts.{actor_spec};
ghost use Rattle.act_rules.specs.declared.script.KindName.TheVariants as kind;

use crate::fault::ConsoleFault;
use crate::report::play_and_report;
use crate::streams::{Output, read_whole, refusal_of, write_output};
use act_actor::Cast;
use act_kinds::{Actor, Boxed};
use act_rules::{Event, KindName, Mode, Role};
use act_scripts::{Items, Script, ScriptFault, read_script};
use act_types::{ListOf, MAX_ACTORS, NoMemory};
use act_world::World;
use std::alloc::Global;
use std::io::{Read, Write};

/// The report of roles and events, played with kinds of the stock.
fn report_on(
    alloc: Global,
    stock: Stock,
    roles: ListOf<Role>,
    events: ListOf<Event>,
) -> Result<String, NoMemory>
    requires ready { IsReady ⟦<Boxed as Actor>⟧.state stock }
    requires roles { AreFitting (map actor_spec_of roles) }
    requires few { length events < 2 ^ 32 }
    ensures { IfOk result (λ text. string_bytes text ≡ report (world_of roles) events) }
{
    let casts = casts_of(alloc, stock, roles)?;
    let mut world = World::open(alloc, casts)?;
    play_and_report(alloc, &mut world, events)
}

/// The report of a script of events.
fn report_of_script(alloc: Global, stock: Stock, script: Script) -> Result<String, NoMemory>
    requires ready { IsReady ⟦<Boxed as Actor>⟧.state stock }
    requires mode { mode_of script.items ≡ Play }
    requires roles { AreFitting (map actor_spec_of script.casts) }
    requires few { count_of script.items < 2 ^ 32 }
    ensures { IfOk result (λ text. string_bytes text ≡ report (world_of script.casts) (spelled_script script).events) }
{
    let Script {
        casts: roles,
        items,
    } = script;
    let Items::Events(events) = items else {
        unreachable!()
    };
    report_on(alloc, stock, roles, events)
}

/// What there is to be written of the script that bytes spell. They are let go once they are read.
fn output_of(alloc: Global, stock: Stock, bytes: Vec<u8>) -> Result<Output, NoMemory>
    requires ready { IsReady ⟦<Boxed as Actor>⟧.state stock }
    ensures { IfOk result (λ answer. IsPlayOutput answer (spelled Play bytes.items)) }
{
    let read = read_script(alloc, bytes.as_slice(), Mode::Play);
    drop(bytes);
    match read {
        Ok(script) => {
            let text = report_of_script(alloc, stock, script)?;
            Ok(Output::Report(text))
        }
        Err(ScriptFault::NoMemory) => Err(NoMemory),
        Err(ScriptFault::Line(line, wrong)) => {
            let text = refusal_of(alloc, line, wrong)?;
            Ok(Output::Refusal(text))
        }
    }
}

/// Reads a script to its end, plays its events in a world of its roles, and writes the report, or the
/// line of the script's first fault.
///
/// The input is read whole before anything is played, and the report is made whole before it is
/// written. At most one byte more is read than a script may have. Any failed read is `Reading`, and
/// any failed write, or one of 0 bytes, is `Writing`. The actors' kinds are taken from the stock.
pub fn play_script<R: Read, W: Write>(
    alloc: Global,
    stock: Stock,
    reader: &mut R,
    writer: &mut W,
) -> Result<(), ConsoleFault>
    requires ready { IsReady ⟦<Boxed as Actor>⟧.state stock }
    ensures { ScriptPlayed (R.remaining reader.old) (R.remaining reader.new) (W.contents writer.old)
        (W.contents writer.new) result }
{
    let bytes = read_whole(alloc, reader)?;
    match output_of(alloc, stock, bytes) {
        Ok(answer) => write_output(writer, answer),
        Err(_) => Err(ConsoleFault::Memory),
    }
}

/// Kinds for the actors of a script, each in its opening state. A play asks for as many of each name
/// as a script may have actors, or more.
#[derive(Drop)]
pub struct Stock<K = Boxed> {
    pub counters: Vec<K>,
    pub tables: Vec<K>,
    pub accounts: Vec<K>,
    pub lists: Vec<K>,
}

impl<K: Actor> Stock<K> {
    /// Adds one kind of each name. An `Err` leaves the lists as they were.
    pub fn add(&mut self, counter: K, table: K, account: K, list: K) -> Result<(), NoMemory>
        requires counter { K.state counter ≡ opening_state kind.Counter }
        requires table { K.state table ≡ opening_state kind.Table }
        requires account { K.state account ≡ opening_state kind.Account }
        requires list { K.state list ≡ opening_state kind.ListKind }
        ensures ok { OnOk result (HasOneMore counter table account list self.old self.new) }
        ensures each { OnOk result ((n : ℕ) → HasEach K.state n self.old → HasEach K.state (n + 1) self.new) }
        ensures err { OnErr result (HasSame self.old self.new) }
    {
        self.counters.reserve(1)?;
        self.tables.reserve(1)?;
        self.accounts.reserve(1)?;
        self.lists.reserve(1)?;
        self.counters.push_reserved(counter);
        self.tables.push_reserved(table);
        self.accounts.push_reserved(account);
        self.lists.push_reserved(list);
        Ok(())
    }
}

/// Takes a kind of this name.
fn kind_for<K: Actor>(stock: &mut Stock<K>, name: KindName) -> Option<K>
    ensures found { (n : ℕ) → HasEach K.state (n + 1) stock.old → IsSome result }
    ensures state { (n : ℕ) → HasEach K.state n stock.old → IfSome result (λ kind. K.state kind ≡ opening_state name) }
    ensures left { (n : ℕ) → HasEach K.state (n + 1) stock.old → HasEach K.state n stock.new }
{
    match name {
        KindName::Counter => stock.counters.pop(),
        KindName::Table => stock.tables.pop(),
        KindName::Account => stock.accounts.pop(),
        KindName::ListKind => stock.lists.pop(),
    }
}

/// A role's cast, with a kind of the stock.
fn cast_for<K: Actor>(stock: &mut Stock<K>, role: Role) -> Option<Cast<K>>
    ensures found { (n : ℕ) → HasEach K.state (n + 1) stock.old → IsSome result }
    ensures cast { (n : ℕ) → HasEach K.state n stock.old →
        IfSome result (λ cast. actor_spec K.state cast ≡ actor_spec_of role) }
    ensures left { (n : ℕ) → HasEach K.state (n + 1) stock.old → HasEach K.state n stock.new }
{
    let Role {
        actor,
        callers,
        kind: name,
        pending,
    } = role;
    let Some(kind) = kind_for(stock, name) else {
        return None;
    };
    Some(Cast {
        actor,
        callers,
        kind,
        pending,
    })
}

/// A cast for each role, with kinds of the stock.
pub fn casts_of<K: Actor>(
    alloc: Global,
    stock: Stock<K>,
    roles: ListOf<Role>,
) -> Result<Vec<Cast<K>>, NoMemory>
    requires ready { IsReady K.state stock }
    requires few { length roles ≤ MAX_ACTORS }
    ensures { IfOk result (λ casts. map (actor_spec K.state) casts.items ≡ map actor_spec_of roles) }
{
    let mut stock = stock;
    let mut casts = Vec::new(alloc);
    for role in roles.into_vec() {
        let cast = cast_for(&mut stock, role).unwrap();
        casts.push(cast)?;
    }
    Ok(casts)
}
