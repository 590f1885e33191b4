//! Says which requirements of the advisories of findings Cargo's matching reads differently. No contract mentions it.

use rustsec_advisory::Advisory;
use rustsec_check::Finding;
use rustsec_lint_database::readings_of;
use rustsec_values::push_shown;
use std::alloc::{AllocError, Global};

/// The number of bytes from which on a note takes no further advisory.
const ENOUGH: usize = 4000;

/// Appends a line for each requirement of an advisory that Cargo's matching reads differently, unless the note has such a
/// line of this advisory.
fn add_advisory(alloc: Global, note: &mut String, advisory: &Advisory) -> Result<(), AllocError> {
    let readings = readings_of(alloc, &advisory.versions)?;
    if readings.is_empty() {
        return Ok(());
    }
    let id = advisory.metadata.id.as_str();
    let mut start = String::from_str(alloc, "rustsec_audit: advisory ")?;
    push_shown(&mut start, id)?;
    start.push_str(": ")?;
    if note.contains(start.as_str()) {
        return Ok(());
    }
    for reading in readings.as_slice() {
        note.push_str(&start)?;
        push_shown(note, reading.as_str())?;
        note.push_str("\n")?;
    }
    Ok(())
}

/// Returns the note about the requirements of the findings' advisories that Cargo's matching reads differently: a line
/// for each.
pub fn readings_note(alloc: Global, findings: &[Finding<'_>]) -> Result<String, AllocError> {
    let mut note = String::new(alloc);
    for finding in findings {
        if note.len() < ENOUGH {
            add_advisory(alloc, &mut note, finding.advisory)?;
        }
    }
    Ok(note)
}
