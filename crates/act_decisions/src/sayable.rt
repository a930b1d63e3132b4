//! Whether a script can write what was played.

ghost use Rattle.std.specs.Prelude.{◌≡◌, true, IsTrue};
ghost use Rattle.std.specs.List.{list_all};
ghost use Rattle.act_rules.specs.Laws.{is_sayable_arg};
ghost use Rattle.act_summaries.specs.Summaries.{is_sayable_event};
ghost use Rattle.act_decisions.specs.Read.{AreSayable};

use crate::agreed::{is_sayable, is_sayable_method};
use act_rules::Event;
use act_types::Arg;

/// How many futures a script can name.
const FUTURES: u64 = 4_294_967_296;

/// Whether a script can write the argument.
fn is_sayable_arg(arg: &Arg) -> bool
    ensures { IsTrue result → is_sayable_arg arg.now ≡ true }
{
    match arg {
        Arg::Plain(value) => is_sayable(value),
        Arg::Fut(future) => u64::from(future.number()) < FUTURES,
    }
}

/// Whether a script can write the arguments.
fn are_sayable_args(args: &[Arg]) -> bool
    ensures { IsTrue result → list_all is_sayable_arg args.now ≡ true }
{
    for arg in args {
        if !is_sayable_arg(arg) {
            return false;
        }
    }
    true
}

/// Whether a script can write the event.
fn is_sayable_event(event: &Event) -> bool
    ensures { IsTrue result → is_sayable_event event.now ≡ true }
{
    match event {
        Event::Submit(_, _, method, args) => {
            is_sayable_method(method) && are_sayable_args(args.as_slice())
        }
        _ => true,
    }
}

/// Whether a script can write all the events.
pub(crate) fn are_sayable(events: &[Event]) -> bool
    ensures { IsTrue result → AreSayable events.now }
{
    for event in events {
        if !is_sayable_event(event) {
            return false;
        }
    }
    true
}
