//! Whether the roles or the events of two scripts are the same.

ghost use Rattle.std.specs.Prelude.{◌≡◌, ◌↔◌, IsTrue};

use crate::same::{same_args, same_method};
use act_rules::{Event, Role};
use act_types::CallerId;

/// Whether two lists of callers are the same.
pub fn same_callers(one: &[CallerId], other: &[CallerId]) -> bool
    ensures { IsTrue result ↔ (one.now ≡ other.now) }
{
    if one.len() != other.len() {
        return false;
    }
    for (place, caller) in one.iter().enumerate() {
        if *caller != other[place] {
            return false;
        }
    }
    true
}

/// Whether two roles are the same.
fn same_role(one: &Role, other: &Role) -> bool
    ensures { IsTrue result ↔ (one.now ≡ other.now) }
{
    if one.actor != other.actor || one.kind != other.kind || one.pending != other.pending {
        return false;
    }
    same_callers(one.callers.as_slice(), other.callers.as_slice())
}

/// Whether two lists of roles are the same.
pub fn same_roles(one: &[Role], other: &[Role]) -> bool
    ensures { IsTrue result ↔ (one.now ≡ other.now) }
{
    if one.len() != other.len() {
        return false;
    }
    for (place, role) in one.iter().enumerate() {
        if !same_role(role, &other[place]) {
            return false;
        }
    }
    true
}

/// Whether two events are the same.
pub fn same_event(one: &Event, other: &Event) -> bool
    ensures { IsTrue result ↔ (one.now ≡ other.now) }
{
    match (one, other) {
        (Event::Submit(c, a, method, args), Event::Submit(d, b, other, others)) => {
            *c == *d
                && *a == *b
                && same_method(method, other)
                && same_args(args.as_slice(), others.as_slice())
        }
        (Event::Copy(c, a), Event::Copy(d, b)) => *c == *d && *a == *b,
        (Event::Release(c, a), Event::Release(d, b)) => *c == *d && *a == *b,
        (Event::Send(c, k), Event::Send(d, l)) => *c == *d && *k == *l,
        (Event::Deliver(i), Event::Deliver(j)) => *i == *j,
        (Event::Run(a, c), Event::Run(b, d)) => *a == *b && *c == *d,
        (Event::Collect(i), Event::Collect(j)) => *i == *j,
        (Event::AskKill(c, a), Event::AskKill(d, b)) => *c == *d && *a == *b,
        (Event::TakeKill(a), Event::TakeKill(b)) => *a == *b,
        (Event::Tell(a, c), Event::Tell(b, d)) => *a == *b && *c == *d,
        (Event::Retire(a), Event::Retire(b)) => *a == *b,
        _ => false,
    }
}

/// Whether two lists of events are the same.
pub fn same_events(one: &[Event], other: &[Event]) -> bool
    ensures { IsTrue result ↔ (one.now ≡ other.now) }
{
    if one.len() != other.len() {
        return false;
    }
    for (place, event) in one.iter().enumerate() {
        if !same_event(event, &other[place]) {
            return false;
        }
    }
    true
}
