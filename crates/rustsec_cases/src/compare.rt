//! What a case expects, compared with what a command wrote.

use crate::case::{Case, Expected};
use crate::run::Found;
use anyhow::Result;
use std::alloc::Global;
use std::str;

/// Returns a line as a text.
fn shown<'a>(line: Option<&'a [u8]>) -> &'a str {
    match line {
        Some(bytes) => str::from_utf8(bytes).unwrap_or("(not UTF-8)"),
        None => "(no line)",
    }
}

/// Returns the number of the first line in which two texts differ, from 1 on, and the two lines.
fn first_difference<'a>(expected: &'a [u8], found: &'a [u8]) -> (u64, &'a str, &'a str) {
    let mut number = 1u64;
    let mut lines = found.split(|byte| *byte == b'\n');
    for line in expected.split(|byte| *byte == b'\n') {
        let other = lines.next();
        if other != Some(line) {
            return (number, shown(Some(line)), shown(other));
        }
        number = number.saturating_add(1);
    }
    (number, shown(None), shown(lines.next()))
}

/// Returns the first of some lines that a text does not have after the lines before it.
fn missing_part<'a>(parts: &'a str, text: &str) -> Option<&'a str> {
    let mut rest = text;
    for part in parts.split("\n") {
        match rest.split_once(part) {
            Some((_, after)) => rest = after,
            None => return Some(part),
        }
    }
    None
}

/// Returns how a text differs from what is expected of it.
fn difference_of(
    alloc: Global,
    kind: &str,
    expected: &Expected,
    found: &[u8],
) -> Result<Option<String>> {
    let bytes = expected.bytes.as_slice();
    if expected.is_part {
        let text = str::from_utf8(found).unwrap_or("");
        return match missing_part(str::from_utf8(bytes).unwrap_or(""), text) {
            Some(part) => {
                let why = format!(in alloc; "{kind}: expected {part:?} in order, found {text:?}")?;
                Ok(Some(why))
            }
            None => Ok(None),
        };
    }
    if bytes == found {
        return Ok(None);
    }
    let (number, left, right) = first_difference(bytes, found);
    let why = format!(in alloc; "{kind}, line {number}: expected {left:?}, found {right:?}")?;
    Ok(Some(why))
}

/// Returns how a text differs, if something is expected of it.
fn difference_if(
    alloc: Global,
    kind: &str,
    expected: &Option<Expected>,
    found: &[u8],
) -> Result<Option<String>> {
    match expected {
        Some(expected) => difference_of(alloc, kind, expected, found),
        None => Ok(None),
    }
}

/// Returns how the status differs.
fn status_difference(alloc: Global, expected: u8, found: u8) -> Result<Option<String>> {
    if expected == found {
        return Ok(None);
    }
    let why = format!(in alloc; "status: expected {expected}, found {found}")?;
    Ok(Some(why))
}

/// Returns how what a command wrote differs from its case, or `None` if it does not.
pub fn difference(alloc: Global, case: &Case, found: &Found) -> Result<Option<String>> {
    let expected = case.status.unwrap_or(0);
    if let Some(why) = status_difference(alloc, expected, found.status)? {
        return Ok(Some(why));
    }
    if let Some(why) = difference_if(alloc, "output", &case.output, &found.output)? {
        return Ok(Some(why));
    }
    difference_if(alloc, "notes", &case.notes, &found.notes)
}
