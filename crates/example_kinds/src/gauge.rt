//! A gauge: a level that never rises above a top.

ghost use Rattle.std.specs.Prelude.{◌≡◌, IfOk, Ok, codes, map};
ghost use Rattle.actors.specs.Arg.TheVariants.{Plain};
ghost use Rattle.actors.specs.Fault.TheVariants.{Own};
ghost use Rattle.actors.specs.Kinds.{OwnAt, behaves, next_state, step_answer};
ghost use Rattle.example_kinds.specs.Gauge.{gauge_call, gauge_does, gauge_step, gauge_text, gauge_values};
ghost use Rattle.example_kinds.specs.declared.gauge.GaugeCall.TheVariants.{Raise};

use actors::{Actor, Answer, Arg, Fault, ListOf, Method, Name, NoMemory, Value, append_line};
use std::alloc::Global;
use std::mem::replace;

/// What a gauge can be asked.
#[derive(Clone, Copy, Debug, PartialEq, Eq)]
pub enum GaugeCall {
    /// Raises the level by a number, and answers it.
    Raise(i64),
    /// Empties the gauge, and answers what the level was.
    Drain,
    /// Answers the level.
    Read,
}

impl GaugeCall {
    /// The method and the arguments that ask for it.
    pub fn spell(&self, alloc: Global) -> Result<(Method, ListOf<Arg>), NoMemory>
        ensures args { IfOk result (λ spelled. spelled.1 ≡ map Plain (gauge_values self.now)) }
        ensures back { IfOk result (λ spelled. gauge_call spelled.0 (gauge_values self.now) ≡ Ok self.now) }
    {
        let mut args = ListOf::new(alloc);
        let word = match self {
            GaugeCall::Raise(by) => {
                args.push(Arg::Plain(Value::Int(*by)))?;
                "raise"
            }
            GaugeCall::Drain => "drain",
            GaugeCall::Read => "read",
        };
        Ok((Method::Own(Name::new(word).unwrap()), args))
    }

    /// What a method and its values ask for.
    pub fn read(method: &Method, args: &[Value]) -> Result<GaugeCall, Fault>
        ensures { result ≡ gauge_call method.now args.now }
    {
        match (method.word(), args) {
            ("raise", [Value::Int(by)]) => Ok(GaugeCall::Raise(*by)),
            ("drain", []) => Ok(GaugeCall::Drain),
            ("read", []) => Ok(GaugeCall::Read),
            ("raise" | "drain" | "read", _) => Err(Fault::BadArgs),
            _ => Err(Fault::NoMethod),
        }
    }
}

/// A gauge.
#[derive(Debug, Drop)]
pub struct Gauge {
    pub level: i64,
    pub top: i64,
}

/// The level would leave its range.
fn too_high() -> Fault
    ensures { result ≡ Own (codes "TooHigh") }
{
    Fault::Own(Name::new("TooHigh").unwrap())
}

impl Gauge {
    /// Raises the level, where it stays within the top.
    fn raise(&mut self, by: i64) -> Answer
        ensures answer { result ≡ step_answer (gauge_does self.old (Raise by)) }
        ensures moved { self.new ≡ next_state self.old (gauge_does self.old (Raise by)) }
    {
        let Some(level) = self.level.checked_add(by) else {
            return Err(too_high());
        };
        if level > self.top {
            return Err(too_high());
        }
        self.level = level;
        Ok(Value::Int(level))
    }

    /// Does a call.
    fn does(&mut self, call: GaugeCall) -> Answer
        ensures answer { result ≡ step_answer (gauge_does self.old call) }
        ensures moved { self.new ≡ next_state self.old (gauge_does self.old call) }
    {
        match call {
            GaugeCall::Raise(by) => self.raise(by),
            GaugeCall::Drain => Ok(Value::Int(replace(&mut self.level, 0))),
            GaugeCall::Read => Ok(Value::Int(self.level)),
        }
    }
}

impl Actor for Gauge {
    ghost state = { λ gauge. OwnAt (behaves gauge_step gauge_text gauge) };

    fn ask(&mut self, method: &Method, args: &[Value]) -> Result<Answer, NoMemory> {
        match GaugeCall::read(method, args) {
            Ok(call) => Ok(self.does(call)),
            Err(fault) => Ok(Err(fault)),
        }
    }

    fn state_text(&self, text: &mut String) -> Result<(), NoMemory> {
        let alloc: Global = *text.allocator();
        let line = format!(in alloc; "gauge {}", self.level)?;
        append_line(text, line.as_str())
    }
}
