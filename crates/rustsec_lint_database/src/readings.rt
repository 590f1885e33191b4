//! Notes on requirements that Cargo's matching reads differently.

use crate::lines::{KeyIn, after_line};
use rustsec_values::{Items, Text};
use rustsec_versions::{Difference, Versions, find_difference, requirement_text};
use semver::{Comparator, Op, VersionReq};
use std::alloc::{AllocError, Global};

/// Returns a comparator with zeros for the numbers that it leaves out, where its operator reads them so.
fn filled(comparator: &Comparator) -> Result<Comparator, AllocError> {
    let mut copy = comparator.clone()?;
    if matches!(copy.op, Op::Greater | Op::LessEq | Op::Exact) {
        copy.minor = Some(copy.minor.unwrap_or(0));
        copy.patch = Some(copy.patch.unwrap_or(0));
    }
    Ok(copy)
}

/// Returns a requirement with zeros for the numbers that its comparators leave out, as it is read here.
fn filled_requirement(alloc: Global, requirement: &VersionReq) -> Result<VersionReq, AllocError> {
    let mut comparators = Vec::new(alloc);
    for comparator in requirement.comparators.as_slice() {
        comparators.push(filled(comparator)?)?;
    }
    Ok(VersionReq { comparators })
}

/// Returns the text of a requirement.
fn text_of(alloc: Global, requirement: &VersionReq) -> Result<String, AllocError> {
    match requirement_text(alloc, requirement) {
        Ok(text) => Ok(text),
        Err(_) => Err(AllocError),
    }
}

/// Returns the words about a requirement and a release that shows how it is read.
fn words(
    alloc: Global,
    requirement: &VersionReq,
    found: &Difference,
) -> Result<String, AllocError> {
    let text = text_of(alloc, requirement)?;
    let filled = text_of(alloc, &filled_requirement(alloc, requirement)?)?;
    let release = found.release.to_string(alloc)?;
    if found.is_held {
        return format!(in alloc;
            "`{text}` is read as `{filled}`: {release} is held, though Cargo's matching does not hold it"
        );
    }
    format!(in alloc;
        "`{text}` is read as `{filled}`: {release} is not held, though Cargo's matching holds it"
    )
}

/// Returns whether Cargo's matching may read a requirement differently: whether it has a comparator with `>`, `<=` or `=`
/// and without a patch number. If not, `find_difference` finds nothing.
fn may_differ(requirement: &VersionReq) -> bool {
    requirement.comparators.iter().any(|it| it.patch.is_none()
        && matches!(it.op, Op::Greater | Op::LessEq | Op::Exact))
}

/// Returns a note on a requirement of accepted versions, which is admissible, if Cargo's matching reads it differently: how
/// it is read here, and a release that shows the difference.
fn reading_of(alloc: Global, requirement: &VersionReq) -> Result<Option<String>, AllocError> {
    if !may_differ(requirement) {
        return Ok(None);
    }
    match find_difference(alloc, requirement) {
        Ok(Some(found)) => Ok(Some(words(alloc, requirement, &found)?)),
        Ok(None) => Ok(None),
        Err(_) => Err(AllocError),
    }
}

/// Appends the notes on some requirements.
fn push_readings(
    alloc: Global,
    readings: &mut Items<Text>,
    requirements: &[VersionReq],
) -> Result<(), AllocError> {
    for requirement in requirements {
        if let Some(note) = reading_of(alloc, requirement)? {
            readings.push(Text::from(note))?;
        }
    }
    Ok(())
}

/// Returns the notes on the requirements of an advisory that Cargo's matching reads differently: the patched ones, and
/// after them the unaffected ones.
///
/// # Errors
///
/// Out of memory.
pub fn readings_of(alloc: Global, versions: &Versions) -> Result<Items<Text>, AllocError> {
    let mut readings = Items::new(alloc);
    push_readings(alloc, &mut readings, versions.patched())?;
    push_readings(alloc, &mut readings, versions.unaffected())?;
    Ok(readings)
}

/// Appends the notes on the requirements of a key that Cargo's matching reads differently, after the line of the key.
fn push_placed(
    alloc: Global,
    notes: &mut Items<Text>,
    key: KeyIn<'_>,
    requirements: &[VersionReq],
) -> Result<(), AllocError> {
    let mut readings = Items::new(alloc);
    push_readings(alloc, &mut readings, requirements)?;
    if readings.is_empty() {
        return Ok(());
    }
    let line = key.line(alloc)?;
    for reading in readings.as_slice() {
        notes.push(after_line(alloc, line, reading.as_str())?)?;
    }
    Ok(())
}

/// Returns the notes of `readings_of` on an advisory with this text, each after the line of the requirement's list.
///
/// # Errors
///
/// Out of memory.
pub fn reading_notes(
    alloc: Global,
    text: &str,
    versions: &Versions,
) -> Result<Items<Text>, AllocError> {
    let mut notes = Items::new(alloc);
    let patched = KeyIn::versions(text, "patched");
    push_placed(alloc, &mut notes, patched, versions.patched())?;
    let unaffected = KeyIn::versions(text, "unaffected");
    push_placed(alloc, &mut notes, unaffected, versions.unaffected())?;
    Ok(notes)
}
