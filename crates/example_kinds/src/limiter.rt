//! A rate limiter: never more than so many grants between two resets.

ghost use Rattle.std.specs.Prelude.{◌≡◌, ℕ, List, codes};
ghost use Rattle.actors.specs.Fault.TheVariants.{Own};
ghost use Rattle.actors.specs.Kinds.{OwnAt, behaves, next_state, step_answer, told_in};
ghost use Rattle.actors.specs.RunItem.{RunItem as Item};
ghost use Rattle.example_kinds.specs.Limiter.{limiter_call, limiter_does, limiter_step, limiter_text, limiter_of, limiter_at, NeverAbove};
ghost use Rattle.example_kinds.specs.declared.limiter.LimiterCall.TheVariants.{Acquire};

use actors::{Actor, Answer, Fault, Method, Name, NoMemory, Value, append_line};
use std::alloc::Global;

/// What a rate limiter can be asked.
#[derive(Clone, Copy, Debug, PartialEq, Eq)]
pub enum LimiterCall {
    /// Takes a grant, and answers how many are left.
    Acquire,
    /// Nothing is granted any more.
    Reset,
    /// Answers how many grants are left.
    Left,
}

impl LimiterCall {
    /// What a method and its values ask for.
    pub fn read(method: &Method, args: &[Value]) -> Result<LimiterCall, Fault>
        ensures { result ≡ limiter_call method.now args.now }
    {
        match (method.word(), args) {
            ("acquire", []) => Ok(LimiterCall::Acquire),
            ("reset", []) => Ok(LimiterCall::Reset),
            ("left", []) => Ok(LimiterCall::Left),
            ("acquire" | "reset" | "left", _) => Err(Fault::BadArgs),
            _ => Err(Fault::NoMethod),
        }
    }
}

/// A rate limiter.
#[derive(Debug, Drop)]
pub struct Limiter {
    /// How many grants there were since the last reset.
    granted: u32,
    /// How many there may be.
    most: u32,
}

impl Limiter {
    /// A limiter that has granted nothing.
    pub fn open(most: u32) -> Limiter
        ensures { result ≡ limiter_of most }
    {
        Limiter { granted: 0, most }
    }

    /// Takes a grant, where one is left.
    fn acquire(&mut self) -> Answer
        ensures answer { result ≡ step_answer (limiter_does self.old Acquire) }
        ensures moved { self.new ≡ next_state self.old (limiter_does self.old Acquire) }
    {
        if self.granted >= self.most {
            return Err(Fault::Own(Name::new("RateLimited").unwrap()));
        }
        self.granted += 1;
        Ok(Value::Int(i64::from(self.most - self.granted)))
    }

    /// Does a call.
    fn does(&mut self, call: LimiterCall) -> Answer
        ensures answer { result ≡ step_answer (limiter_does self.old call) }
        ensures moved { self.new ≡ next_state self.old (limiter_does self.old call) }
    {
        match call {
            LimiterCall::Acquire => self.acquire(),
            LimiterCall::Reset => {
                self.granted = 0;
                Ok(Value::Unit)
            }
            LimiterCall::Left => Ok(Value::Int(i64::from(self.most.saturating_sub(self.granted)))),
        }
    }
}

impl Actor for Limiter {
    ghost state = { λ limiter. OwnAt (behaves limiter_step limiter_text limiter) };

    fn ask(&mut self, method: &Method, args: &[Value]) -> Result<Answer, NoMemory> {
        match LimiterCall::read(method, args) {
            Ok(call) => Ok(self.does(call)),
            Err(fault) => Ok(Err(fault)),
        }
    }

    fn state_text(&self, text: &mut String) -> Result<(), NoMemory> {
        let alloc: Global = *text.allocator();
        let line = format!(in alloc; "limiter {} of {}", self.granted, self.most)?;
        append_line(text, line.as_str())
    }
}

/// A limiter never grants more than its rate between two resets, whatever it runs.
#[tactic(none)]
pub fn never_above_its_rate()
    ensures { (most : ℕ) (items : List Item) → NeverAbove most (told_in (limiter_at most) items) }
{}
