//! The lists and texts that calls carry: what they hold, and whether they hold anything.

use super::rows::assert_is;
use act_types::{CopyOf, ListOf, NoMemory, SmallList, Text, Value};
use std::alloc::Global;
use std::process::Abort;
use std::test::Fail;

/// A list of few with these numbers.
fn small_list(alloc: Global, numbers: &[i64]) -> Result<SmallList<Value>, NoMemory> {
    let mut few = SmallList::with_capacity(alloc, numbers.len())?;
    for number in numbers {
        few.push(Value::Int(*number))?;
    }
    Ok(few)
}

/// A list with these numbers.
fn list_of(alloc: Global, numbers: &[i64]) -> Result<ListOf<Value>, NoMemory> {
    let mut list = ListOf::with_capacity(alloc, numbers.len())?;
    for number in numbers {
        list.push(Value::Int(*number))?;
    }
    Ok(list)
}

/// Lists that hold these numbers, and nothing else.
fn assert_hold(rt: &impl Abort, few: &SmallList<Value>, list: &ListOf<Value>, numbers: &[i64]) {
    let wanted = (numbers.len(), numbers.is_empty());
    assert_is(rt, "a list of few", &(few.len(), few.is_empty()), &wanted);
    assert_is(rt, "a list", &(list.len(), list.is_empty()), &wanted);
    assert_is(rt, "their items", &few.as_slice(), &list.as_slice());
}

#[test]
fn lists_of_none_to_three(rt: HostRuntime) -> Result<(), Fail> {
    let rows: [&[i64]; 4] = [&[], &[7], &[7, 8], &[7, 8, 9]];
    for numbers in rows {
        let few = small_list(rt.alloc(), numbers)?;
        let list = list_of(rt.alloc(), numbers)?;
        assert_hold(&rt, &few, &list, numbers);
    }
    Ok(())
}

#[test]
fn a_list_of_one(rt: HostRuntime) -> Result<(), Fail> {
    let one = SmallList::one(rt.alloc(), Value::Int(7));
    let list = list_of(rt.alloc(), &[7])?;
    assert_hold(&rt, &one, &list, &[7]);
    Ok(())
}

/// Whether lists of these numbers are equal.
fn are_equal(alloc: Global, one: &[i64], other: &[i64]) -> Result<bool, NoMemory> {
    let one = small_list(alloc, one)?;
    let other = small_list(alloc, other)?;
    Ok(one == other)
}

/// Whether a list of these numbers is equal to its copy.
fn equals_its_copy(alloc: Global, numbers: &[i64]) -> Result<bool, NoMemory> {
    let few = small_list(alloc, numbers)?;
    let copy = few.copy_of(alloc)?;
    Ok(copy == few)
}

#[test]
fn equal_lists(rt: HostRuntime) -> Result<(), Fail> {
    let alloc = rt.alloc();
    assert!(rt; equals_its_copy(alloc, &[7, 8])?);
    assert!(rt; are_equal(alloc, &[7, 8], &[7, 8])?);
    assert!(rt; !are_equal(alloc, &[7, 8], &[7, 9])?);
    assert!(rt; !are_equal(alloc, &[7, 8], &[7])?);
    Ok(())
}

#[test]
fn texts_with_and_without_bytes(rt: HostRuntime) -> Result<(), Fail> {
    for (letters, is_empty) in [("", true), ("k", false)] {
        let text = Text::copied(rt.alloc(), letters)?;
        assert_eq!(rt; (text.len(), text.is_empty()), (letters.len(), is_empty));
    }
    Ok(())
}

/// A string that is made a text comes back with the room that it had.
#[test]
fn a_text_gives_its_string_back(rt: HostRuntime) -> Result<(), Fail> {
    let mut string = String::with_capacity(rt.alloc(), 100)?;
    string.push_str("k v")?;
    let room = string.capacity();
    let text = Text::new(string);
    assert_eq!(rt; text.as_str(), "k v");
    let back = text.into_string();
    assert_eq!(rt; back.as_str(), "k v");
    assert_eq!(rt; back.capacity(), room);
    Ok(())
}
