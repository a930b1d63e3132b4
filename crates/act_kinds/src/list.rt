//! A list.

ghost use Rattle.std.specs.Prelude.{◌≡◌, [], ◌∷◌, Some, IfOk, OnErr, IsOk, length, pos, OnOk, IsTrue};
ghost use Rattle.act_types.specs.KindState.{ItemsOf};
ghost use Rattle.act_types.specs.Texts.{state_text};
ghost use Rattle.act_types.specs.declared.call.Method.TheVariants.{Push, Pop, At};
ghost use Rattle.act_types.specs.declared.call.Value.TheVariants.{Int};
ghost use Rattle.act_rules.specs.Kinds.{reply_of};
ghost use Rattle.act_rules.specs.RunList.{step_of_reply};
ghost use Rattle.act_kinds.specs.Memory.{takes_memory_of};

use crate::Actor;
use crate::actor::append;
use crate::storable::is_storable;
use act_types::{Answer, CopyOf, Fault, MAX_ITEMS, Method, NoMemory, Value};
use std::alloc::Global;
use std::fmt;
use std::marker::Model;

/// A list, which contracts see as its items.
#[derive(Debug, Drop)]
pub struct ListKind {
    items: Vec<Value>,
    alloc: Global,
}

impl Model for ListKind {
    ghost use Rattle.std.specs.Prelude.{List, length, ◌≤◌};
    ghost use Rattle.act_types.specs.declared.limits.TheConstants.{MAX_ITEMS};
    ghost use Rattle.act_types.specs.declared.call.Value.{Value as Item};

    ghost Value = { List Item };

    ghost view = { λ list. list.items.items };

    ghost invariant = { λ list. length list.items.items ≤ MAX_ITEMS };
}

impl ListKind {
    /// A list of no items.
    pub fn open(alloc: Global) -> ListKind
        ensures { result ≡ [] }
    {
        ListKind {
            items: Vec::new(alloc),
            alloc,
        }
    }

    /// How many items there are.
    fn size(&self) -> i64
        ensures { result ≡ pos (length self.now) }
    {
        self.items.len() as i64
    }

    /// Puts a copy of a value at the end.
    fn push(&mut self, value: &Value) -> Result<Answer, NoMemory>
        ensures ok { IfOk result (λ answer.
            (ItemsOf self.new, answer) ≡
            step_of_reply (ItemsOf self.old) (reply_of (ItemsOf self.old) Push (value.now ∷ []))) }
        ensures err { OnErr result (self.new ≡ self.old) }
        ensures memory_last { OnErr result (IsOk (reply_of (ItemsOf self.old) Push (value.now ∷ []))) }
    {
        if !is_storable(value) {
            return Ok(Err(Fault::BadArgs));
        }
        if self.items.len() >= MAX_ITEMS {
            return Ok(Err(Fault::KindFull));
        }
        self.items.push(value.copy_of(self.alloc)?)?;
        Ok(Ok(Value::Int(self.size())))
    }

    /// Takes the last item.
    fn pop(&mut self) -> Answer
        ensures { (ItemsOf self.new, result) ≡ step_of_reply (ItemsOf self.old) (reply_of (ItemsOf self.old) Pop []) }
    {
        self.items.pop().ok_or(Fault::NoItems)
    }

    /// A copy of the item at a place.
    fn at(&self, place: i64) -> Result<Answer, NoMemory>
        ensures ok { IfOk result (λ answer.
            (ItemsOf self.now, answer)
            ≡ step_of_reply (ItemsOf self.now) (reply_of (ItemsOf self.now) At (Int place ∷ []))) }
        ensures memory_last { OnErr result (IsOk (reply_of (ItemsOf self.now) At (Int place ∷ []))) }
    {
        let Ok(place) = usize::try_from(place) else {
            return Ok(Err(Fault::NoItem));
        };
        match self.items.get(place) {
            Some(item) => Ok(Ok(item.copy_of(self.alloc)?)),
            None => Ok(Err(Fault::NoItem)),
        }
    }
}

impl Actor for ListKind {
    ghost state = { ItemsOf };

    fn ask(&mut self, method: &Method, args: &[Value]) -> Result<Answer, NoMemory>
        ensures answer { IfOk result (λ answer. answer
            ≡ (step_of_reply (ItemsOf self.old) (reply_of (ItemsOf self.old) method.now args.now)).1) }
        ensures moved { OnOk result (ItemsOf self.new
            ≡ (step_of_reply (ItemsOf self.old) (reply_of (ItemsOf self.old) method.now args.now)).0) }
        ensures err { OnErr result (self.new ≡ self.old) }
        ensures memory_last { OnErr result (IsOk (reply_of (ItemsOf self.old) method.now args.now)) }
        ensures memory { OnErr result (IsTrue (takes_memory_of (ItemsOf self.old) method.now)) }
    {
        match (method, args) {
            (Method::Push, [value]) => self.push(value),
            (Method::Pop, []) => Ok(self.pop()),
            (Method::At, [Value::Int(place)]) => self.at(*place),
            (Method::Len, []) => Ok(Ok(Value::Int(self.size()))),
            (Method::Push | Method::Pop | Method::At | Method::Len, _) => Ok(Err(Fault::BadArgs)),
            _ => Ok(Err(Fault::NoMethod)),
        }
    }

    fn state_text(&self, text: &mut String) -> Result<(), NoMemory> {
        append(text, self)
    }
}

impl fmt::Display for ListKind {
    ghost output = { λ items. Some (state_text (ItemsOf items)) };

    fn fmt<W: fmt::Write>(&self, f: &mut fmt::Formatter<W>) -> fmt::Result {
        write!(f, "list")?;
        for item in self.items.as_slice() {
            write!(f, " {item}")?;
        }
        Ok(())
    }
}
