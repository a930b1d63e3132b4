//! What calls carry: values, faults, methods and arguments, and the messages of a call's way.

ghost use Rattle.std.specs.Prelude.{◌≡◌, Some, IfOk, IfErr};
ghost use Rattle.act_types.specs.Texts.{value_text, fault_text, method_text, settled_text};
ghost use Rattle.act_types.specs.declared.call.Fault.TheVariants.{Dependency};

use crate::{ActorId, CallerId, CopyOf, FutureId, Name, NoMemory, SmallList, Text};
use std::alloc::Global;
use std::fmt;

/// What a call carries, and what it answers.
#[derive(Debug, Default, Drop, PartialEq, Eq)]
pub enum Value {
    #[default]
    Unit,
    Int(i64),
    Text(Text),
}

impl CopyOf for Value {
    fn copy_of(&self, alloc: Global) -> Result<Value, NoMemory> {
        match self {
            Value::Unit => Ok(Value::Unit),
            Value::Int(number) => Ok(Value::Int(*number)),
            Value::Text(text) => Ok(Value::Text(text.copy_of(alloc)?)),
        }
    }
}

impl fmt::Display for Value {
    ghost output = { λ value. Some (value_text value) };

    fn fmt<W: fmt::Write>(&self, f: &mut fmt::Formatter<W>) -> fmt::Result {
        match self {
            Value::Unit => write!(f, "unit"),
            Value::Int(number) => write!(f, "{number}"),
            Value::Text(text) => write!(f, "\"{text}\""),
        }
    }
}

/// Why a call has no value. `ActorDied` is after `ActorDiedError` of Ray; that an argument's fault
/// is the call's is so in Ray, too, which raises the task's own error. The others are those of the
/// kinds here.
#[derive(Clone, Copy, Debug, PartialEq, Eq)]
pub enum Fault {
    /// The kind has no such method.
    NoMethod,
    /// The method doesn't take these arguments.
    BadArgs,
    /// The number would leave the range of an `i64`.
    Overflow,
    /// The table has nothing under this key.
    NoKey,
    /// The amount is not above 0.
    BadAmount,
    /// The account holds less.
    Insufficient,
    /// The list is empty.
    NoItems,
    /// The list has nothing at this place.
    NoItem,
    /// The table or the list holds as much as it may.
    KindFull,
    /// This future was an argument, and has a fault.
    Dependency(FutureId),
    /// The actor was dead before the caller had the answer.
    ActorDied,
    /// A fault of a kind of one's own.
    Own(Name),
}

impl Fault {
    /// The word of the fault, or the future that failed, where it depends on one.
    fn word(&self) -> Result<&str, FutureId>
        ensures word { IfOk result (λ word. word.now ≡ fault_text self.now) }
        ensures future { IfErr result (λ future. self.now ≡ Dependency future) }
    {
        match self {
            Fault::NoMethod => Ok("NoMethod"),
            Fault::BadArgs => Ok("BadArgs"),
            Fault::Overflow => Ok("Overflow"),
            Fault::NoKey => Ok("NoKey"),
            Fault::BadAmount => Ok("BadAmount"),
            Fault::Insufficient => Ok("Insufficient"),
            Fault::NoItems => Ok("NoItems"),
            Fault::NoItem => Ok("NoItem"),
            Fault::KindFull => Ok("KindFull"),
            Fault::Dependency(future) => Err(*future),
            Fault::ActorDied => Ok("ActorDied"),
            Fault::Own(name) => Ok(name.as_str()),
        }
    }
}

impl fmt::Display for Fault {
    ghost output = { λ fault. Some (fault_text fault) };

    fn fmt<W: fmt::Write>(&self, f: &mut fmt::Formatter<W>) -> fmt::Result {
        match self.word() {
            Ok(word) => f.write_str(word),
            Err(future) => write!(f, "Dependency({future})"),
        }
    }
}

/// The value of a call, or its fault.
pub type Answer = Result<Value, Fault>;

/// What an actor can be asked.
#[derive(Clone, Copy, Debug, PartialEq, Eq)]
pub enum Method {
    Add,
    Get,
    Put,
    Del,
    Size,
    Deposit,
    Withdraw,
    Balance,
    Push,
    Pop,
    At,
    Len,
    /// The actor ends in its turn. No kind has this method: the actor answers it.
    Terminate,
    /// A method of a kind of one's own. Scripts can't name it.
    Own(Name),
}

impl Method {
    /// The word by which scripts and reports name the method.
    pub fn word(&self) -> &str
        ensures { result.now ≡ method_text self.now }
    {
        match self {
            Method::Add => "add",
            Method::Get => "get",
            Method::Put => "put",
            Method::Del => "del",
            Method::Size => "size",
            Method::Deposit => "deposit",
            Method::Withdraw => "withdraw",
            Method::Balance => "balance",
            Method::Push => "push",
            Method::Pop => "pop",
            Method::At => "at",
            Method::Len => "len",
            Method::Terminate => "terminate",
            Method::Own(name) => name.as_str(),
        }
    }
}

impl fmt::Display for Method {
    ghost output = { λ method. Some (method_text method) };

    fn fmt<W: fmt::Write>(&self, f: &mut fmt::Formatter<W>) -> fmt::Result {
        f.write_str(self.word())
    }
}

/// An argument as it is submitted: a value, or a future of the same caller.
#[derive(Debug, Drop, PartialEq, Eq)]
pub enum Arg {
    Plain(Value),
    Fut(FutureId),
}

impl CopyOf for Arg {
    fn copy_of(&self, alloc: Global) -> Result<Arg, NoMemory> {
        match self {
            Arg::Plain(value) => Ok(Arg::Plain(value.copy_of(alloc)?)),
            Arg::Fut(future) => Ok(Arg::Fut(*future)),
        }
    }
}

/// An argument as it is sent: a value, or the future that failed.
#[derive(Debug, Drop, PartialEq, Eq)]
pub enum Settled {
    Good(Value),
    Bad(FutureId),
}

/// What an empty place of a `SmallList` holds.
impl Default for Settled {
    fn default() -> Settled {
        Settled::Good(Value::Unit)
    }
}

impl CopyOf for Settled {
    fn copy_of(&self, alloc: Global) -> Result<Settled, NoMemory> {
        match self {
            Settled::Good(value) => Ok(Settled::Good(value.copy_of(alloc)?)),
            Settled::Bad(future) => Ok(Settled::Bad(*future)),
        }
    }
}

impl fmt::Display for Settled {
    ghost output = { λ settled. Some (settled_text settled) };

    fn fmt<W: fmt::Write>(&self, f: &mut fmt::Formatter<W>) -> fmt::Result {
        match self {
            Settled::Good(value) => write!(f, "{value}"),
            Settled::Bad(future) => write!(f, "!{future}"),
        }
    }
}

/// A call on its way to its actor.
#[derive(Debug, Drop, PartialEq, Eq)]
pub struct Packet {
    pub caller: CallerId,
    pub actor: ActorId,
    /// How many of the caller's calls to this actor came before it.
    pub number: u32,
    pub future: FutureId,
    pub method: Method,
    pub args: SmallList<Settled>,
}

impl CopyOf for Packet {
    fn copy_of(&self, alloc: Global) -> Result<Packet, NoMemory> {
        Ok(Packet {
            caller: self.caller,
            actor: self.actor,
            number: self.number,
            future: self.future,
            method: self.method,
            args: self.args.copy_of(alloc)?,
        })
    }
}

/// An answer on its way to its caller.
#[derive(Debug, Drop, PartialEq, Eq)]
pub struct Reply {
    pub actor: ActorId,
    pub caller: CallerId,
    pub future: FutureId,
    /// The call's place in the actor's run list, from 0.
    pub place: u32,
    pub answer: Answer,
}

/// An equal answer.
fn copy_of_answer(answer: &Answer, alloc: Global) -> Result<Answer, NoMemory>
    ensures { IfOk result (λ copy. copy ≡ answer.now) }
{
    match answer {
        Ok(value) => Ok(Ok(value.copy_of(alloc)?)),
        Err(fault) => Ok(Err(*fault)),
    }
}

impl CopyOf for Reply {
    fn copy_of(&self, alloc: Global) -> Result<Reply, NoMemory> {
        Ok(Reply {
            actor: self.actor,
            caller: self.caller,
            future: self.future,
            place: self.place,
            answer: copy_of_answer(&self.answer, alloc)?,
        })
    }
}

/// What an actor's side tells a caller.
#[derive(Debug, Drop, PartialEq, Eq)]
pub enum Notice {
    Answered(Reply),
    /// This actor is dead, and runs nothing more.
    Death(ActorId),
}

impl CopyOf for Notice {
    fn copy_of(&self, alloc: Global) -> Result<Notice, NoMemory> {
        match self {
            Notice::Answered(reply) => Ok(Notice::Answered(reply.copy_of(alloc)?)),
            Notice::Death(actor) => Ok(Notice::Death(*actor)),
        }
    }
}

/// That a caller's last handle copy is gone, after so many calls.
#[derive(Clone, Copy, Debug, PartialEq, Eq)]
pub struct ReleaseNote {
    pub caller: CallerId,
    pub actor: ActorId,
    /// How many calls the caller submitted to the actor in all.
    pub after: u32,
}

/// That a caller wants an actor killed.
#[derive(Clone, Copy, Debug, PartialEq, Eq)]
pub struct KillNote {
    pub caller: CallerId,
    pub actor: ActorId,
}
