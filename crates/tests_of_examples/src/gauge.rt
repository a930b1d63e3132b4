//! A gauge beside a counter, played and in threads.

use crate::scene::{Call, Given, casts_of, played, threaded};
use act_kinds::{Boxed, Counter};
use act_types::{Arg, Method, NoMemory, Value};
use act_world::Cast;
use example_kinds::{Gauge, GaugeCall};
use std::alloc::Global;
use std::test::Fail;

/// A gauge with the top 10, and a counter.
fn gauge_and_counter(alloc: Global) -> Result<Vec<Cast<Boxed>>, NoMemory> {
    let gauge: Boxed = Box::new(alloc, Gauge { level: 0, top: 10 })?;
    let counter: Boxed = Box::new(alloc, Counter::open())?;
    casts_of(alloc, gauge, counter)
}

/// Raised twice by 7, read, and what was read is added to the counter; then calls that neither kind takes.
const CALLS: [Call; 8] = [
    Call::Own(1, "raise", Given::Int(7)),
    Call::Own(1, "raise", Given::Int(7)),
    Call::Own(1, "read", Given::Nothing),
    Call::Known(2, Method::Add, Given::Answer(2)),
    Call::Own(1, "raise", Given::Nothing),
    Call::Known(1, Method::Get, Given::Nothing),
    Call::Own(2, "raise", Given::Int(1)),
    Call::Own(1, "raise", Given::Answer(1)),
];

const ANSWERS: &str =
    "c1.0 a1 = 7\nc1.1 a1 = TooHigh\nc1.2 a1 = 7\nc1.3 a2 = 7\nc1.4 a1 = BadArgs\n\
    \
    c1.5 a1 = NoMethod\nc1.6 a2 = NoMethod\nc1.7 a1 = Dependency(1)\n";

const RUNS_OF_GAUGE: &str =
    "a1.0 c1.0 raise 7\na1.1 c1.1 raise 7\na1.2 c1.2 read\na1.3 c1.4 raise\na1.4 c1.5 get\n\
    a1.5 c1.7 raise !1\n";

#[test]
fn beside_a_counter_played(rt: HostRuntime) -> Result<(), Fail> {
    let alloc = rt.alloc();
    let report = played(&rt, alloc, gauge_and_counter(alloc)?, &CALLS)?;
    let wanted = format!(in alloc;
        "{ANSWERS}a1 live gauge 7\n{RUNS_OF_GAUGE}a2 live counter 7\na2.0 c1.3 add 7\na2.1 c1.6 raise 1\n"
    )?;
    assert_eq!(rt; report.as_str(), wanted.as_str());
    Ok(())
}

#[test]
fn beside_a_counter_in_threads(rt: HostRuntime) -> Result<(), Fail> {
    let alloc = rt.alloc();
    let report = threaded(&rt, alloc, gauge_and_counter(alloc)?, &CALLS)?;
    let wanted = format!(in alloc;
        "{ANSWERS}a1 retired gauge 7\n{RUNS_OF_GAUGE}a2 retired counter 7\na2.0 c1.3 add 7\na2.1 c1.6 raise 1\n"
    )?;
    assert_eq!(rt; report.as_str(), wanted.as_str());
    Ok(())
}

#[test]
fn drained_and_raised_again(rt: HostRuntime) -> Result<(), Fail> {
    let alloc = rt.alloc();
    let calls = [
        Call::Own(1, "raise", Given::Int(10)),
        Call::Own(1, "drain", Given::Nothing),
        Call::Own(1, "raise", Given::Int(i64::MIN)),
        Call::Own(1, "raise", Given::Int(-1)),
    ];
    let report = played(&rt, alloc, gauge_and_counter(alloc)?, &calls)?;
    let wanted = "c1.0 a1 = 10\nc1.1 a1 = 10\nc1.2 a1 = -9223372036854775808\nc1.3 a1 = TooHigh\n\
        a1 live gauge -9223372036854775808\na1.0 c1.0 raise 10\na1.1 c1.1 drain\n\
        a1.2 c1.2 raise -9223372036854775808\na1.3 c1.3 raise -1\na2 live counter 0\n";
    assert_eq!(rt; report.as_str(), wanted);
    Ok(())
}

/// A typed call is spelled by a method and its arguments, and read back from them.
#[test]
fn there_and_back(rt: HostRuntime) -> Result<(), Fail> {
    let alloc = rt.alloc();
    let (method, args) = GaugeCall::Raise(-3).spell(alloc)?;
    assert_eq!(rt; args.as_slice(), [Arg::Plain(Value::Int(-3))].as_slice());
    assert_eq!(rt;
        GaugeCall::read(&method, &[Value::Int(-3)]),
        Ok(GaugeCall::Raise(-3))
    );
    for (call, word) in [(GaugeCall::Drain, "drain"), (GaugeCall::Read, "read")] {
        let (method, args) = call.spell(alloc)?;
        assert_eq!(rt; method.word(), word);
        assert!(rt; args.is_empty());
        assert_eq!(rt; GaugeCall::read(&method, &[]), Ok(call));
    }
    Ok(())
}
