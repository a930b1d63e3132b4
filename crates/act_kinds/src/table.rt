//! A table.

ghost use Rattle.std.specs.Prelude.{◌≡◌, [], ◌∷◌, Some, IfOk, OnErr, IsOk, length, pos, OnOk, IsTrue};
ghost use Rattle.act_types.specs.KindState.{TableOf};
ghost use Rattle.act_types.specs.Texts.{state_text};
ghost use Rattle.act_types.specs.declared.call.Method.TheVariants.{Put, Get, Del};
ghost use Rattle.act_types.specs.declared.call.Value.TheVariants.{Text as TextValue};
ghost use Rattle.act_rules.specs.Kinds.{reply_of};
ghost use Rattle.act_rules.specs.RunList.{step_of_reply};
ghost use Rattle.act_kinds.specs.Memory.{takes_memory_of};

use crate::Actor;
use crate::actor::append;
use crate::storable::is_storable;
use act_types::{Answer, CopyOf, Fault, MAX_KEYS, Method, NoMemory, Text, Value};
use indexmap::IndexMap;
use std::alloc::Global;
use std::fmt;
use std::marker::Model;

/// A table of distinct keys, each with its value, which contracts see as its pairs in order.
#[derive(Drop)]
pub struct Table {
    pairs: IndexMap<Text, Value>,
    alloc: Global,
}

impl Model for Table {
    ghost use Rattle.std.specs.Prelude.{ℕ, List, length, ◌≤◌};
    ghost use Rattle.std.specs.Str.{bytes_eq};
    ghost use Rattle.indexmap.specs.IndexMap.{IsUnique};
    ghost use Rattle.act_types.specs.declared.limits.TheConstants.{MAX_KEYS};
    ghost use Rattle.act_types.specs.declared.call.Value.{Value as Held};

    ghost Value = { List (List ℕ × Held) };

    ghost view = { λ table. table.pairs.entries };

    ghost invariant = { λ table. (length table.pairs.entries ≤ MAX_KEYS) × IsUnique bytes_eq table.pairs };
}

impl Table {
    /// A table of no keys.
    pub fn open(alloc: Global) -> Table
        ensures { result ≡ [] }
    {
        Table {
            pairs: IndexMap::new(alloc),
            alloc,
        }
    }

    /// How many keys there are.
    fn size(&self) -> i64
        ensures { result ≡ pos (length self.now) }
    {
        self.pairs.len() as i64
    }

    /// Puts copies of a key and a value.
    #[tactic(auto, using(crate::proofs::Pairs::lookup_is, crate::proofs::Pairs::insert_is))]
    fn put(&mut self, key: &Text, value: &Value) -> Result<Answer, NoMemory>
        ensures ok { IfOk result (λ answer.
            (TableOf self.new, answer) ≡
            step_of_reply (TableOf self.old) (reply_of (TableOf self.old) Put (TextValue key.now ∷ value.now ∷ []))) }
        ensures err { OnErr result (self.new ≡ self.old) }
        ensures memory_last { OnErr result
            (IsOk (reply_of (TableOf self.old) Put (TextValue key.now ∷ value.now ∷ []))) }
    {
        if !key.is_good() || !is_storable(value) {
            return Ok(Err(Fault::BadArgs));
        }
        if !self.pairs.contains_key(key) && self.pairs.len() >= MAX_KEYS {
            return Ok(Err(Fault::KindFull));
        }
        let key = key.copy_of(self.alloc)?;
        let value = value.copy_of(self.alloc)?;
        self.pairs.insert(key, value)?;
        Ok(Ok(Value::Unit))
    }

    /// A copy of a key's value.
    #[tactic(auto, using(crate::proofs::Pairs::lookup_is))]
    fn get(&self, key: &Text) -> Result<Answer, NoMemory>
        ensures ok { IfOk result (λ answer.
            (TableOf self.now, answer) ≡
            step_of_reply (TableOf self.now) (reply_of (TableOf self.now) Get (TextValue key.now ∷ []))) }
        ensures memory_last { OnErr result (IsOk (reply_of (TableOf self.now) Get (TextValue key.now ∷ []))) }
    {
        if !key.is_good() {
            return Ok(Err(Fault::BadArgs));
        }
        match self.pairs.get(key) {
            Some(value) => Ok(Ok(value.copy_of(self.alloc)?)),
            None => Ok(Err(Fault::NoKey)),
        }
    }

    /// Takes a key's pair out.
    #[tactic(auto, using(crate::proofs::Pairs::lookup_is, crate::proofs::Pairs::remove_is))]
    fn del(&mut self, key: &Text) -> Answer
        ensures { (TableOf self.new, result)
            ≡ step_of_reply (TableOf self.old) (reply_of (TableOf self.old) Del (TextValue key.now ∷ [])) }
    {
        if !key.is_good() {
            return Err(Fault::BadArgs);
        }
        self.pairs.shift_remove(key).ok_or(Fault::NoKey)
    }
}

impl Actor for Table {
    ghost state = { TableOf };

    fn ask(&mut self, method: &Method, args: &[Value]) -> Result<Answer, NoMemory>
        ensures answer { IfOk result (λ answer. answer
            ≡ (step_of_reply (TableOf self.old) (reply_of (TableOf self.old) method.now args.now)).1) }
        ensures moved { OnOk result (TableOf self.new
            ≡ (step_of_reply (TableOf self.old) (reply_of (TableOf self.old) method.now args.now)).0) }
        ensures err { OnErr result (self.new ≡ self.old) }
        ensures memory_last { OnErr result (IsOk (reply_of (TableOf self.old) method.now args.now)) }
        ensures memory { OnErr result (IsTrue (takes_memory_of (TableOf self.old) method.now)) }
    {
        match (method, args) {
            (Method::Put, [Value::Text(key), value]) => self.put(key, value),
            (Method::Get, [Value::Text(key)]) => self.get(key),
            (Method::Del, [Value::Text(key)]) => Ok(self.del(key)),
            (Method::Size, []) => Ok(Ok(Value::Int(self.size()))),
            (Method::Put | Method::Get | Method::Del | Method::Size, _) => Ok(Err(Fault::BadArgs)),
            _ => Ok(Err(Fault::NoMethod)),
        }
    }

    fn state_text(&self, text: &mut String) -> Result<(), NoMemory> {
        append(text, self)
    }
}

impl fmt::Display for Table {
    ghost output = { λ pairs. Some (state_text (TableOf pairs)) };

    fn fmt<W: fmt::Write>(&self, f: &mut fmt::Formatter<W>) -> fmt::Result {
        write!(f, "table")?;
        for (key, value) in self.pairs.iter() {
            write!(f, " \"{key}\" {value}")?;
        }
        Ok(())
    }
}
