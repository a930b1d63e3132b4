//! The calls that are played, and the events of each.

ghost use Rattle.std.specs.Prelude.{◌≡◌};
ghost use Rattle.act_rules.specs.declared.outcome.Did.TheVariants.{Future};
ghost use Rattle.ray_bench_play.specs.Plays.{call_at, event_of, submission_of};

use act_rules::Arrival;
use act_types::{ActorId, Arg, CallerId, FutureId, ListOf, Method};
use act_world::{Did, Event};
use ray_bench_work::Work;

/// What happens to a call that is submitted, in this order.
#[derive(Clone, Copy, Debug, PartialEq, Eq)]
pub(crate) enum Leg {
    Send,
    Deliver,
    Run,
    Collect,
}

/// A call of the work. Callers take turns, and each call is sent once and runs once, in the order of
/// the submissions: so its letter and its notice have the call's number as their place.
#[derive(Clone, Copy, Debug, PartialEq, Eq)]
pub(crate) struct Call {
    number: u32,
    caller: CallerId,
    actor: ActorId,
    future: FutureId,
}

/// The call of a number, from 0.
pub(crate) fn call_at(work: &Work, number: u32) -> Call
    ensures { result ≡ call_at work.now number }
{
    let callers = work.callers.number() as u32;
    let before = (number % callers) as u8;
    let caller = CallerId::new(before + 1).unwrap();
    let place = number / callers;
    Call {
        number,
        caller,
        actor: work.actor_at(caller, place),
        future: FutureId::new(place),
    }
}

impl Call {
    /// The event that submits it, with these arguments.
    pub(crate) fn submission(&self, args: ListOf<Arg>) -> Event
        ensures { result ≡ submission_of self.now args }
    {
        Event::Submit(self.caller, self.actor, Method::Add, args)
    }

    /// What is told of its submission.
    pub(crate) fn submitted(&self) -> Did
        ensures { result ≡ Future self.now.caller self.now.future }
    {
        Did::Future(self.caller, self.future)
    }

    /// The event of a leg.
    pub(crate) fn event(&self, leg: Leg) -> Event
        ensures { result ≡ event_of leg self.now }
    {
        match leg {
            Leg::Send => Event::Send(self.caller, self.future),
            Leg::Deliver => Event::Deliver(self.number),
            Leg::Run => Event::Run(self.actor, self.caller),
            Leg::Collect => Event::Collect(self.number),
        }
    }

    /// Whether what is told of a leg is that it was done.
    pub(crate) fn is_done(&self, leg: Leg, did: &Did) -> bool {
        match (leg, did) {
            (Leg::Send, Did::Mail(place)) => *place == self.number,
            (Leg::Deliver, Did::Arrived(arrival)) => *arrival == Arrival::New,
            (Leg::Run, Did::Ran(_, notice)) => *notice == self.number,
            (Leg::Collect, Did::Kept(caller, future)) => {
                *caller == self.caller && *future == self.future
            }
            _ => false,
        }
    }
}
