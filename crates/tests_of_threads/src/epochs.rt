//! Epochs that follow one another: what each of them leaves, and what is left after all.
//!
//! What is expected was worked by hand:
//!
//!   opened:  a1 counter 0 (callers c1 c2), a2 counter 0 (caller c1, at most 1 pending)
//!   day 0:   c1 adds 5 to a1                        c1: 5; a1 holds 5
//!   day 1:   c1 adds 2 to a2, c2 adds 1 to a1       c1: 2, c2: 6; a1 holds 6, a2 holds 2
//!   day 2:   c1 terminates a1                       c1: unit; a1 is dead, a2 holds 2
//!   day 3:   c1 adds 4 to a2, which alone is left   c1: 6; a2 holds 6, and c2 is nobody's caller
//!   left:    a2 with 6, its caller c1 and its limit 1

use crate::executor::scene::{Kind, Role, actor, caller, casts_of};
use crate::rows::assert_is;
use crate::told::push_joined;
use act_actor::{Cast, RunItem, cast_fits};
use act_drive::{Code, GaveUp, Session};
use act_executor::{Joined, NoGate};
use act_kinds::{Actor, Boxed};
use act_service::{EpochFault, Service, run_epochs};
use act_types::{Arg, CallerId, ListOf, Method, NoMemory, Value};
use std::alloc::Global;
use std::process::Abort;
use std::sync::Wait;
use std::test::Fail;
use std::thread::Threads;

/// What one caller does on a day with an actor.
#[derive(Clone, Copy)]
enum Chore {
    Adds(u8, i64),
    Ends(u8),
}

use Chore::{Adds, Ends};

fn int(alloc: Global, number: i64) -> Result<ListOf<Arg>, NoMemory> {
    let mut args = ListOf::new(alloc);
    args.push(Arg::Plain(Value::Int(number)))?;
    Ok(args)
}

impl Code for Chore {
    ghost tells = { λ _ _ _. Unit {0} };

    fn run<S: Session>(&mut self, session: &mut S) -> Result<(), GaveUp> {
        let alloc = session.alloc();
        let (a, method, args) = match *self {
            Adds(a, n) => (a, Method::Add, int(alloc, n)?),
            Ends(a) => (a, Method::Terminate, ListOf::new(alloc)),
        };
        session.ask(actor(a), method, args)?;
        Ok(())
    }
}

/// Why the days end early.
#[derive(Clone, Copy, Debug, PartialEq, Eq)]
enum DayFault {
    NoMemory,
    Rain,
}

impl From<NoMemory> for DayFault {
    fn from(_error: NoMemory) -> DayFault {
        DayFault::NoMemory
    }
}

/// What callers do on one day.
type Day = &'static [(u8, Chore)];

/// Chores, day after day, and a text of what each day left.
#[derive(Drop)]
struct Days {
    alloc: Global,
    chores: &'static [Day],
    day: usize,
    /// The day on which it rains, if it does.
    rain: Option<usize>,
    told: String,
}

fn chores_of(alloc: Global, chores: Day) -> Result<Vec<(CallerId, Chore)>, NoMemory> {
    let mut codes = Vec::new(alloc);
    for (number, chore) in chores {
        codes.push((caller(*number), *chore))?;
    }
    Ok(codes)
}

impl Service<Boxed> for Days {
    type One = Chore;

    type Log = Vec<RunItem>;

    type Fault = DayFault;

    fn codes(
        &mut self,
        _casts: &[Cast<Boxed>],
    ) -> Result<Option<Vec<(CallerId, Chore)>>, DayFault> {
        match self.chores.get(self.day) {
            None => Ok(None),
            Some(chores) => Ok(Some(chores_of(self.alloc, *chores)?)),
        }
    }

    fn look(&mut self, joined: &Joined<Boxed>) -> Result<(), DayFault> {
        if Some(self.day) == self.rain {
            return Err(DayFault::Rain);
        }
        push_joined(self.alloc, &mut self.told, joined)?;
        self.day = self.day.saturating_add(1);
        Ok(())
    }
}

/// Why the days ended before their last.
#[derive(Clone, Copy, Debug, PartialEq, Eq)]
enum Untold {
    Unfit,
    Refused,
    BadCodes,
    Rain,
}

fn untold_of(fault: EpochFault<DayFault>) -> Untold {
    match fault {
        EpochFault::Run(_) => Untold::Refused,
        EpochFault::BadCodes => Untold::BadCodes,
        EpochFault::Service(DayFault::NoMemory) => Untold::Refused,
        EpochFault::Service(DayFault::Rain) => Untold::Rain,
    }
}

fn push_cast(text: &mut String, cast: &Cast<Boxed>) -> Result<(), NoMemory> {
    let actor = cast.actor;
    write!(text, "{actor}")?;
    for caller in cast.callers.as_slice() {
        write!(text, " {caller}")?;
    }
    if let Some(limit) = cast.pending {
        write!(text, " limit {limit}")?;
    }
    text.push(' ')?;
    cast.kind.state_text(text)?;
    text.push('\n')?;
    Ok(())
}

fn push_casts(text: &mut String, casts: &[Cast<Boxed>]) -> Result<(), NoMemory> {
    for cast in casts {
        push_cast(text, cast)?;
    }
    Ok(())
}

/// Counters 1, of callers 1 and 2, and 2, of caller 1 under a limit.
static COUNTERS: [Role; 2] = [
    (1, &[1, 2], Kind::ACounter, None),
    (2, &[1], Kind::ACounter, Some(1)),
];

/// What is told of the days, and then a line of each actor that is left.
fn tell<R: Threads + Wait + Sync>(rt: &R, alloc: Global, days: &mut Days) -> Result<(), Untold> {
    let Ok(casts) = casts_of(alloc, &COUNTERS) else {
        return Err(Untold::Refused);
    };
    if !cast_fits(&casts) {
        drop(casts);
        return Err(Untold::Unfit);
    }
    match run_epochs(rt, alloc, casts, days, &NoGate) {
        Err(fault) => Err(untold_of(fault)),
        Ok(left) => {
            let pushed = push_casts(&mut days.told, left.as_slice());
            drop(left);
            if pushed.is_ok() {
                Ok(())
            } else {
                Err(Untold::Refused)
            }
        }
    }
}

/// Days by their name: their chores, on which it rains, how they end, and what is told of them.
type Row = (
    &'static str,
    &'static [Day],
    Option<usize>,
    Result<(), Untold>,
    &'static str,
);

#[rattlefmt::skip]
static ROWS: [Row; 4] = [
    // The whole story of this file's head.
    ("days_follow_one_another",
        &[&[(1, Adds(1, 5))], &[(1, Adds(2, 2)), (2, Adds(1, 1))], &[(1, Ends(1))], &[(1, Adds(2, 4))]], None, Ok(()),
        "c1: 5\nc2:\na1 retired counter 5: c1.0\na2 retired counter 0:\n\
        c1: 2\nc2: 6\na1 retired counter 6: c2.0\na2 retired counter 2: c1.0\n\
        c1: unit\nc2:\na1 killed: c1.0\na2 retired counter 2:\n\
        c1: 6\na2 retired counter 6: c1.0\n\
        a2 c1 limit 1 counter 6\n"),
    // A service that comes to its end at once gives back all actors as they were cast.
    ("no_day_at_all", &[], None, Ok(()), "a1 c1 c2 counter 0\na2 c1 limit 1 counter 0\n"),
    // On the day after its only actor died caller 2 is given code.
    ("code_for_nobodys_caller", &[&[(1, Ends(1))], &[(2, Adds(1, 1))]], None, Err(Untold::BadCodes),
        "c1: unit\nc2:\na1 killed: c1.0\na2 retired counter 0:\n"),
    // The service fails when it looks at the second day, and nothing more is run.
    ("it_rains", &[&[(1, Adds(1, 5))], &[(1, Adds(1, 5))], &[(1, Adds(1, 5))]], Some(1), Err(Untold::Rain),
        "c1: 5\nc2:\na1 retired counter 5: c1.0\na2 retired counter 0:\n"),
];

/// Tells of a row's days. Want of memory is an error of the test.
fn play<R: Threads + Wait + Sync + Abort>(rt: &R, alloc: Global, row: &Row) -> Result<(), Untold> {
    let (name, chores, rain, wanted, text) = *row;
    let mut days = Days {
        alloc,
        chores,
        day: 0,
        rain,
        told: String::new(alloc),
    };
    let ended = tell(rt, alloc, &mut days);
    let is_told = days.told.as_str() == text;
    drop(days);
    if ended == Err(Untold::Refused) {
        return ended;
    }
    assert_is(rt, name, &(ended, is_told), &(wanted, true));
    Ok(())
}

#[test]
fn days_follow_one_another(rt: HostRuntime) -> Result<(), Fail> {
    for row in &ROWS {
        play(&rt, rt.alloc(), row)?;
    }
    Ok(())
}
