//! Calls of values, errors, versions and commands that can run out of memory, once with ample memory and an input
//! that they accept. Those of other crates are in the modules of their subjects.

use rustsec_commands::{answer, answer_ranges};
use rustsec_fixtures::{interval, lists, requirements, version};
use rustsec_values::{Error, ErrorKind, Items, SortedMap, Text};
use rustsec_versions::{
    Bound, Requirements, Versions, ranges_for_advisory, requirement_text, successor,
};
use std::alloc::Global;
use std::test::Fail;

/// Returns whether copies of a text, of a list of it and of a map of it are equal to them.
fn items_are_copied(alloc: Global, text: &Text) -> Result<bool, Fail> {
    let mut items = Items::new(alloc);
    items.push(text.clone()?)?;
    let copy = items.clone()?;
    Ok(copy == items && copy.len() == 1 && copy.get(0) == Some(text))
}

fn map_is_copied(alloc: Global, text: &Text) -> Result<bool, Fail> {
    let mut map = SortedMap::new(alloc);
    map.insert(text.clone()?, text.clone()?)?;
    let copy = map.clone()?;
    Ok(copy == map && copy.get(text) == Some(text))
}

/// Returns whether an error without a cause is made, and prints as a text.
fn error_prints(alloc: Global, message: &str, text: &str) -> Result<bool, Fail> {
    let error = Error::new(alloc, ErrorKind::Parse, message);
    let printed = error.to_string(alloc)?;
    let is_made = error.kind() == ErrorKind::Parse && error.message() == message;
    Ok(is_made && error.cause().is_none() && printed.as_str() == text)
}

/// Returns whether an error with a cause is made and copied.
fn error_is_copied(alloc: Global, message: &str, cause: &str) -> Result<bool, Fail> {
    let error = Error::with_source(alloc, ErrorKind::Io, message, cause);
    let copy = error.clone(alloc)?;
    let is_made = copy.kind() == ErrorKind::Io && copy.message() == message;
    Ok(is_made && copy.cause() == Some(cause))
}

/// Each kind of error with its number, and its words.
const KINDS: &[(ErrorKind, u8, &str)] = &[
    (ErrorKind::BadParam, 1, "bad parameter"),
    (ErrorKind::Io, 2, "I/O operation failed"),
    (ErrorKind::NotFound, 3, "not found"),
    (ErrorKind::LockTimeout, 4, LOCK_TIMEOUT),
    (ErrorKind::Parse, 5, "parse error"),
    (ErrorKind::Registry, 6, "registry"),
    (ErrorKind::Repo, 7, "git operation failed"),
    (ErrorKind::Version, 8, "bad version"),
    (ErrorKind::OutOfMemory, 9, "out of memory"),
];

const LOCK_TIMEOUT: &str = "unable to acquire filesystem lock";

#[test]
fn values_with_ample_memory(rt: HostRuntime) -> Result<(), Fail> {
    let text = Text::from_str(rt.alloc(), "base")?;
    assert!(rt; items_are_copied(rt.alloc(), &text)?);
    assert!(rt; map_is_copied(rt.alloc(), &text)?);
    Ok(())
}

#[test]
fn errors_with_ample_memory(rt: HostRuntime) -> Result<(), Fail> {
    assert!(rt; error_prints(rt.alloc(), "no name", "parse error: no name")?);
    assert!(rt; error_is_copied(rt.alloc(), "no file", "it is not there")?);
    for (kind, number, text) in KINDS {
        assert!(rt; *kind as u8 == *number && kind.text() == *text, "of {text}");
    }
    Ok(())
}

/// Returns whether a copy is equal to the value: the bound at a version, a requirement's interval, and requirements.
fn bound_is_copied(alloc: Global, text: &str) -> Result<bool, Fail> {
    let bound = Bound::Inclusive(version(alloc, text)?);
    Ok(bound.clone(alloc)? == bound)
}

fn interval_is_copied(alloc: Global, text: &str) -> Result<bool, Fail> {
    let interval = interval(alloc, text)??;
    Ok(interval.clone(alloc)? == interval)
}

fn requirements_are_copied(alloc: Global, texts: &[&str]) -> Result<bool, Fail> {
    let list = Requirements::from(requirements(alloc, texts)?);
    Ok(list.clone(alloc)? == list)
}

/// Returns whether a copy of lists is equal to them, and empty lists are others, with the least version affected.
fn lists_are_copied(alloc: Global, lists: &Versions) -> Result<bool, Fail> {
    let (copy, none) = (lists.clone(alloc)?, Versions::default(alloc)?);
    let version = version(alloc, "0.0.0-0")?;
    Ok(copy == *lists && none != *lists && none.is_vulnerable(&version))
}

/// Returns whether lists have two ranges, and a copy of the first has only a version that fixes it.
fn have_two_ranges(alloc: Global, lists: &Versions) -> Result<bool, Fail> {
    let ranges = ranges_for_advisory(alloc, lists)?;
    let copy = ranges.first().ok_or("no range")?.clone(alloc)?;
    Ok(ranges.len() == 2 && copy.introduced.is_none() && copy.fixed.is_some())
}

/// Returns whether lists have one patched requirement, and that is written as a text.
fn patched_is_written(alloc: Global, lists: &Versions, text: &str) -> Result<bool, Fail> {
    let [req] = lists.patched() else {
        return Ok(false);
    };
    Ok(requirement_text(alloc, req)?.as_str() == text)
}

fn has_successor(alloc: Global, text: &str) -> Result<bool, Fail> {
    Ok(successor(alloc, &version(alloc, text)?)?.is_some())
}

#[test]
fn versions_with_ample_memory(rt: HostRuntime) -> Result<(), Fail> {
    assert!(rt; bound_is_copied(rt.alloc(), "1.0.0")? && interval_is_copied(rt.alloc(), "^1")?);
    assert!(rt; requirements_are_copied(rt.alloc(), &["^1", "< 2"])?);
    assert!(rt; has_successor(rt.alloc(), "1.0.0")?);
    let both = lists(rt.alloc(), &["^1"], &["< 1.0.0"])??;
    assert!(rt; lists_are_copied(rt.alloc(), &both)?);
    let one = lists(rt.alloc(), &["^1"], &[])??;
    assert!(rt; have_two_ranges(rt.alloc(), &one)? && patched_is_written(rt.alloc(), &one, "^1")?);
    Ok(())
}

/// Returns whether two commands, one after the other, answer what is wanted.
fn commands_answer(alloc: Global, mut input: &[u8], expected: &[u8]) -> Result<bool, Fail> {
    let mut output = Vec::new(alloc);
    let status = answer(alloc, &mut input, &mut output)?;
    let next_status = answer_ranges(alloc, &mut input, &mut output)?;
    Ok(status == 0 && next_status == 0 && output.as_slice() == expected)
}

#[test]
fn commands_with_ample_memory(rt: HostRuntime) -> Result<(), Fail> {
    assert!(rt; commands_answer(rt.alloc(), b"version 1.0.0\n", b"1.0.0 affected\n- -\n")?);
    Ok(())
}
