//! A work queue: what is put first is taken first.

ghost use Rattle.std.specs.Prelude.{◌≡◌, [], List, IfErr, IfOk, OnErr, OnOk, IsOk, Err, Ok, Some, codes, map};
ghost use Rattle.actors.specs.Arg.TheVariants.{Plain};
ghost use Rattle.actors.specs.Fault.TheVariants.{Own};
ghost use Rattle.actors.specs.Value.{Value as Item};
ghost use Rattle.actors.specs.Kinds.{next_state, step_answer, count_value, Left};
ghost use Rattle.actors.specs.RunItem.{RunItem};
ghost use Rattle.example_kinds.specs.Queue.{Enqueue, Dequeue, IsInOrder, call_meant, queue_at, queue_call, queue_does};
ghost use Rattle.example_kinds.specs.Queue.{queue_step, queue_text, queue_values};

use actors::{
    Actor, Answer, Arg, CopyOf, Fault, ListOf, Meaning, Method, Name, NoMemory, Value, append_line,
    runs_by_its_steps,
};
use std::alloc::Global;
use std::collections::VecDeque;
use std::fmt;
use std::marker::Model;

/// The most values that wait in a work queue.
pub const MAX_QUEUED: usize = 4_096;

/// What a work queue can be asked.
#[derive(Clone, Copy, Debug, PartialEq, Eq)]
pub enum QueueCall<'a> {
    /// Puts a copy of a value at the end, and answers how many wait then.
    Enqueue(&'a Value),
    /// Takes the first value, and answers it.
    Dequeue,
    /// Answers how many wait.
    Waiting,
}

impl<'a> QueueCall<'a> {
    /// The method and the arguments that ask for it.
    pub fn spell(&self, alloc: Global) -> Result<(Method, ListOf<Arg>), NoMemory>
        ensures args { IfOk result (λ spelled. spelled.1 ≡ map Plain (queue_values (call_meant self.now))) }
        ensures back { IfOk result (λ spelled.
            queue_call spelled.0 (queue_values (call_meant self.now)) ≡ Ok (call_meant self.now)) }
    {
        let mut args = ListOf::new(alloc);
        let word = match self {
            QueueCall::Enqueue(value) => {
                args.push(Arg::Plain(value.copy_of(alloc)?))?;
                "enqueue"
            }
            QueueCall::Dequeue => "dequeue",
            QueueCall::Waiting => "waiting",
        };
        Ok((Method::Own(Name::new(word).unwrap()), args))
    }

    /// What a method and its values ask for.
    pub fn read(method: &Method, args: &'a [Value]) -> Result<QueueCall<'a>, Fault>
        ensures ok { IfOk result (λ call. queue_call method.now args.now ≡ Ok (call_meant call)) }
        ensures err { IfErr result (λ fault. queue_call method.now args.now ≡ Err fault) }
    {
        match (method.word(), args) {
            ("enqueue", [value]) => Ok(QueueCall::Enqueue(value)),
            ("dequeue", []) => Ok(QueueCall::Dequeue),
            ("waiting", []) => Ok(QueueCall::Waiting),
            ("enqueue" | "dequeue" | "waiting", _) => Err(Fault::BadArgs),
            _ => Err(Fault::NoMethod),
        }
    }
}

/// A work queue, which contracts see as the values that wait, the first one first.
#[derive(Debug, Drop)]
pub struct WorkQueue {
    items: VecDeque<Value>,
}

impl Model for WorkQueue {
    ghost use Rattle.std.specs.Prelude.{List, length, ◌≤◌};
    ghost use Rattle.example_kinds.specs.declared.queue.TheConstants.{MAX_QUEUED};
    ghost use Rattle.actors.specs.Value.{Value as Item};

    ghost Value = { List Item };

    ghost view = { λ queue. queue.items.items };

    ghost invariant = { λ queue. length queue.items.items ≤ MAX_QUEUED };
}

/// No further value has room.
fn queue_full() -> Fault
    ensures { result ≡ Own (codes "QueueFull") }
{
    Fault::Own(Name::new("QueueFull").unwrap())
}

/// No value waits.
fn queue_empty() -> Fault
    ensures { result ≡ Own (codes "QueueEmpty") }
{
    Fault::Own(Name::new("QueueEmpty").unwrap())
}

impl WorkQueue {
    /// A queue in which nothing waits.
    pub fn open(alloc: Global) -> WorkQueue
        ensures { result ≡ [] }
    {
        WorkQueue {
            items: VecDeque::new(alloc),
        }
    }

    /// How many wait.
    fn waiting(&self) -> Value
        ensures { result ≡ count_value self.now }
    {
        Value::Int(self.items.len() as i64)
    }

    /// Puts a copy of a value at the end.
    fn enqueue(&mut self, value: &Value) -> Result<Answer, NoMemory>
        ensures answer { IfOk result (λ answer.
            answer ≡ step_answer (queue_does self.old (Enqueue value.now))) }
        ensures moved { OnOk result (
            self.new ≡ next_state self.old (queue_does self.old (Enqueue value.now))) }
        ensures err { OnErr result (self.new ≡ self.old) }
        ensures memory_last { OnErr result (IsOk (queue_does self.old (Enqueue value.now))) }
    {
        if self.items.len() >= MAX_QUEUED {
            return Ok(Err(queue_full()));
        }
        let alloc: Global = *self.items.allocator();
        self.items.push_back(value.copy_of(alloc)?)?;
        Ok(Ok(self.waiting()))
    }

    /// Takes the first value.
    fn dequeue(&mut self) -> Answer
        ensures answer { result ≡ step_answer (queue_does self.old Dequeue) }
        ensures moved { self.new ≡ next_state self.old (queue_does self.old Dequeue) }
    {
        self.items.pop_front().ok_or_else(queue_empty)
    }

    /// Does a call.
    fn does(&mut self, call: QueueCall<'_>) -> Result<Answer, NoMemory>
        ensures answer { IfOk result (λ answer.
            answer ≡ step_answer (queue_does self.old (call_meant call.entry))) }
        ensures moved { OnOk result (
            self.new ≡ next_state self.old (queue_does self.old (call_meant call.entry))) }
        ensures err { OnErr result (self.new ≡ self.old) }
        ensures memory_last { OnErr result (IsOk (queue_does self.old (call_meant call.entry))) }
    {
        match call {
            QueueCall::Enqueue(value) => self.enqueue(value),
            QueueCall::Dequeue => Ok(self.dequeue()),
            QueueCall::Waiting => Ok(Ok(self.waiting())),
        }
    }
}

impl Actor for WorkQueue {
    ghost state = { queue_at };

    fn ask(&mut self, method: &Method, args: &[Value]) -> Result<Answer, NoMemory> {
        match QueueCall::read(method, args) {
            Ok(call) => self.does(call),
            Err(fault) => Ok(Err(fault)),
        }
    }

    fn state_text(&self, text: &mut String) -> Result<(), NoMemory> {
        let line = self.to_string(*text.allocator())?;
        append_line(text, line.as_str())
    }
}

impl fmt::Display for WorkQueue {
    ghost output = { λ items. Some (queue_text items) };

    fn fmt<W: fmt::Write>(&self, f: &mut fmt::Formatter<W>) -> fmt::Result {
        write!(f, "queue")?;
        for item in self.items.iter() {
            write!(f, " {item}")?;
        }
        Ok(())
    }
}

/// What a work queue means, and the order that it keeps.
#[derive(Debug)]
pub struct QueueMeaning;

impl Meaning for QueueMeaning {
    ghost State = { List Item };

    ghost step = { queue_step };

    ghost written = { queue_text };

    ghost holds = { IsInOrder };
}

/// After every run list of a queue that opened empty: what was taken, and then what waits, is what was put,
/// in the same order.
#[tactic(none)]
pub fn first_in_first_out()
    ensures { (items : List RunItem) → Left queue_step queue_text IsInOrder (queue_at []) items }
{
    runs_by_its_steps::<QueueMeaning>();
}
