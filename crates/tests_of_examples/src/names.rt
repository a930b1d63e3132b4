//! Names, and the text of a state.

use act_kinds::append_line;
use act_types::{Fault, Method, Name, is_name};
use std::test::Fail;

const GOOD: [&str; 6] = ["x", "raise", "a_1", "TooHigh", "Add", "eighteen_letters_1"];

const BAD: [&str; 15] = [
    "",
    "1up",
    "_x",
    "a b",
    "a-b",
    "nineteen_letters_19",
    "line\n",
    "é",
    "add",
    "terminate",
    "NoKey",
    "Dependency",
    "unit",
    "counter",
    "submit",
];

#[test]
fn good_names(rt: HostRuntime) -> Result<(), Fail> {
    for text in GOOD {
        assert!(rt; is_name(text), "{text}");
        let name = Name::new(text).expect(&rt, "a name");
        assert_eq!(rt; name.as_str(), text);
    }
    Ok(())
}

#[test]
fn bad_names(rt: HostRuntime) -> Result<(), Fail> {
    for text in BAD {
        assert!(rt; !is_name(text), "{text}");
        assert!(rt; Name::new(text).is_none());
    }
    Ok(())
}

/// A name reads as itself, for people and in reports.
#[test]
fn names_are_read(rt: HostRuntime) -> Result<(), Fail> {
    let alloc = rt.alloc();
    let method = Method::Own(Name::new("raise").unwrap());
    let fault = Fault::Own(Name::new("TooHigh").unwrap());
    let shown = format!(in alloc; "{method} {method:?} {fault} {fault:?}")?;
    assert_eq!(rt; shown.as_str(), "raise Own(raise) TooHigh Own(TooHigh)");
    assert!(rt; Name::new("raise") != Name::new("raised"));
    Ok(())
}

/// A state's text stays a part of one line.
#[test]
fn texts_of_states(rt: HostRuntime) -> Result<(), Fail> {
    let rows = [
        ("gauge 5", "a1 live gauge 5"),
        ("", "a1 live ?"),
        ("two\nlines", "a1 live two?lines"),
        ("é~", "a1 live ??~"),
        ("\u{7f} \t", "a1 live ? ?"),
    ];
    for (state, wanted) in rows {
        let mut text = String::from_str(rt.alloc(), "a1 live ")?;
        append_line(&mut text, state)?;
        assert_eq!(rt; text.as_str(), wanted);
    }
    Ok(())
}
