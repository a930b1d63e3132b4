//! Whether what two runs left is the same, part by part.

ghost use Rattle.std.specs.Prelude.{◌≡◌, ◌↔◌, IsTrue, option_copied};
ghost use Rattle.act_rules.specs.Submissions.{kept_at};
ghost use Rattle.act_owner.specs.Owner.{call_at};
ghost use Rattle.act_compare.specs.Same.{AreSame};

use act_owner::{Call, Owner};
use act_rules::RunItem;
use act_types::{Answer, Arg, Fault, FutureId, Method, Name, Settled, Value};

/// Whether two values are the same.
fn same_value(one: &Value, other: &Value) -> bool
    ensures { IsTrue result ↔ (one.now ≡ other.now) }
{
    one == other
}

/// Whether two names are the same.
fn same_name(one: &Name, other: &Name) -> bool
    ensures { IsTrue result ↔ (one.now ≡ other.now) }
{
    one.as_str() == other.as_str()
}

/// Whether two faults are the same.
fn same_fault(one: &Fault, other: &Fault) -> bool
    ensures { IsTrue result ↔ (one.now ≡ other.now) }
{
    match (one, other) {
        (Fault::Own(name), Fault::Own(other)) => same_name(name, other),
        (Fault::Own(_), _) | (_, Fault::Own(_)) => false,
        _ => one == other,
    }
}

/// Whether two answers are the same.
pub fn same_answer(one: &Answer, other: &Answer) -> bool
    ensures { IsTrue result ↔ (one.now ≡ other.now) }
{
    match (one, other) {
        (Ok(value), Ok(other)) => same_value(value, other),
        (Err(fault), Err(other)) => same_fault(fault, other),
        _ => false,
    }
}

/// Whether the same is kept of two futures.
fn same_kept(one: Option<&Answer>, other: Option<&Answer>) -> bool
    ensures { IsTrue result ↔ (option_copied one.entry ≡ option_copied other.entry) }
{
    match (one, other) {
        (None, None) => true,
        (Some(answer), Some(other)) => same_answer(answer, other),
        _ => false,
    }
}

/// Whether two arguments that were settled are the same.
fn same_settled(one: &Settled, other: &Settled) -> bool
    ensures { IsTrue result ↔ (one.now ≡ other.now) }
{
    one == other
}

/// Whether the arguments of two calls that ran are the same.
pub fn same_settled_args(one: &[Settled], other: &[Settled]) -> bool
    ensures { IsTrue result ↔ (one.now ≡ other.now) }
{
    if one.len() != other.len() {
        return false;
    }
    for (place, arg) in one.iter().enumerate() {
        if !same_settled(arg, &other[place]) {
            return false;
        }
    }
    true
}

/// Whether two methods are the same.
pub fn same_method(one: &Method, other: &Method) -> bool
    ensures { IsTrue result ↔ (one.now ≡ other.now) }
{
    match (one, other) {
        (Method::Own(name), Method::Own(other)) => same_name(name, other),
        (Method::Own(_), _) | (_, Method::Own(_)) => false,
        _ => one == other,
    }
}

/// Whether two calls that ran are the same.
fn same_item(one: &RunItem, other: &RunItem) -> bool
    ensures { IsTrue result ↔ (one.now ≡ other.now) }
{
    if one.caller != other.caller || one.number != other.number || one.future != other.future {
        return false;
    }
    if !same_method(&one.method, &other.method) {
        return false;
    }
    same_settled_args(one.args.as_slice(), other.args.as_slice())
}

/// Whether two run lists are the same.
pub fn same_log(one: &[RunItem], other: &[RunItem]) -> bool
    ensures { IsTrue result ↔ (one.now ≡ other.now) }
{
    if one.len() != other.len() {
        return false;
    }
    for (place, item) in one.iter().enumerate() {
        if !same_item(item, &other[place]) {
            return false;
        }
    }
    true
}

/// Whether two arguments are the same.
fn same_arg(one: &Arg, other: &Arg) -> bool
    ensures { IsTrue result ↔ (one.now ≡ other.now) }
{
    one == other
}

/// Whether the arguments of two calls are the same.
pub fn same_args(one: &[Arg], other: &[Arg]) -> bool
    ensures { IsTrue result ↔ (one.now ≡ other.now) }
{
    if one.len() != other.len() {
        return false;
    }
    for (place, arg) in one.iter().enumerate() {
        if !same_arg(arg, &other[place]) {
            return false;
        }
    }
    true
}

/// Whether two calls are the same.
fn same_call(one: &Call, other: &Call) -> bool
    ensures { IsTrue result ↔ (one.now ≡ other.now) }
{
    if one.actor != other.actor || one.number != other.number {
        return false;
    }
    if !same_method(&one.method, &other.method) {
        return false;
    }
    same_args(one.args.as_slice(), other.args.as_slice())
}

/// Whether two calls are the same, or neither is there.
fn same_call_at(one: Option<&Call>, other: Option<&Call>) -> bool
    ensures { IsTrue result ↔ (option_copied one.entry ≡ option_copied other.entry) }
{
    match (one, other) {
        (None, None) => true,
        (Some(call), Some(other)) => same_call(call, other),
        _ => false,
    }
}

/// Whether two callers have the same call and the same answer of it.
fn same_future(one: &Owner, other: &Owner, k: FutureId) -> bool
    ensures { IsTrue result ↔ ((call_at one.now.calls k ≡ call_at other.now.calls k) ×
        (kept_at one.now.kept k ≡ kept_at other.now.kept k)) }
{
    same_call_at(one.call(k), other.call(k)) && same_kept(one.answer(k), other.answer(k))
}

/// Whether two callers have the same calls, and for each the same answer.
pub fn same_owner(one: &Owner, other: &Owner) -> bool
    ensures { IsTrue result ↔ AreSame one.now other.now }
{
    if one.count() != other.count() {
        return false;
    }
    for number in 0..one.count() {
        if !same_future(one, other, FutureId::new(number)) {
            return false;
        }
    }
    true
}
