//! What short forms make, and answers as reports have them.

use actors::{
    ActorId, Answer, Arg, CallerId, Counter, Fault, FutureId, Name, NoMemory, Text, Value,
    answer_text, args_of, callers_of, casts_of_one, list_of,
};
use std::alloc::Global;
use std::process::Abort;
use std::test::Fail;

#[test]
fn numbers_are_arguments(rt: HostRuntime) -> Result<(), Fail> {
    let args = args_of(rt.alloc(), &[3, -4])?;
    let wanted = [Arg::Plain(Value::Int(3)), Arg::Plain(Value::Int(-4))];
    assert!(rt; args.as_slice() == wanted.as_slice());
    Ok(())
}

#[test]
fn a_list_has_its_items(rt: HostRuntime) -> Result<(), Fail> {
    let args = list_of(rt.alloc(), [Arg::Fut(FutureId::new(7))])?;
    let wanted = [Arg::Fut(FutureId::new(7))];
    assert!(rt; args.as_slice() == wanted.as_slice());
    Ok(())
}

#[test]
fn callers_keep_their_order(rt: HostRuntime) -> Result<(), Fail> {
    let given = [CallerId::new(2).unwrap(), CallerId::new(1).unwrap()];
    let callers = callers_of(rt.alloc(), &given)?;
    assert!(rt; callers.as_slice() == given.as_slice());
    Ok(())
}

#[test]
fn one_cast_has_its_parts(rt: HostRuntime) -> Result<(), Fail> {
    let a3 = ActorId::new(3).unwrap();
    let given = [CallerId::new(2).unwrap(), CallerId::new(1).unwrap()];
    let casts = casts_of_one(rt.alloc(), a3, &given, Counter::open(), Some(9))?;
    assert_eq!(rt; casts.len(), 1);
    assert!(rt; casts[0].actor == a3);
    assert!(rt; casts[0].callers.as_slice() == given.as_slice());
    assert!(rt; casts[0].pending == Some(9));
    drop(casts);
    Ok(())
}

/// Adds an answer to a text, once more where memory was refused, which must have changed nothing.
fn added<R: Abort>(rt: &R, alloc: Global, answer: &Answer) -> Result<String, NoMemory> {
    let mut text = String::from_str(alloc, "= ")?;
    if answer_text(answer, &mut text).is_err() {
        assert!(rt; text.as_str() == "= ");
        answer_text(answer, &mut text)?;
    }
    Ok(text)
}

/// The text of an answer is this one.
fn is_added<R: Abort>(
    rt: &R,
    alloc: Global,
    answer: &Answer,
    wanted: &str,
) -> Result<(), NoMemory> {
    let text = added(rt, alloc, answer)?;
    assert!(rt; text.as_str() == wanted);
    Ok(())
}

#[test]
fn values_are_as_reports_have_them(rt: HostRuntime) -> Result<(), Fail> {
    let alloc = rt.alloc();
    is_added(&rt, alloc, &Ok(Value::Unit), "= unit")?;
    is_added(&rt, alloc, &Ok(Value::Int(-5)), "= -5")?;
    let text = Ok(Value::Text(Text::copied(alloc, "k")?));
    is_added(&rt, alloc, &text, "= \"k\"")?;
    drop(text);
    Ok(())
}

#[test]
fn faults_are_as_reports_have_them(rt: HostRuntime) -> Result<(), Fail> {
    let alloc = rt.alloc();
    let own = Name::new("TooHigh").unwrap();
    is_added(&rt, alloc, &Err(Fault::NoKey), "= NoKey")?;
    is_added(
        &rt,
        alloc,
        &Err(Fault::Dependency(FutureId::new(2))),
        "= Dependency(2)",
    )?;
    is_added(&rt, alloc, &Err(Fault::Own(own)), "= TooHigh")?;
    Ok(())
}
