//! Describes what others make of an advisory that is accepted: what the Rust crate refuses, and which requirements Cargo's
//! matching reads differently.

use rustsec_advisory::Advisory;
use rustsec_lint_database::{reading_notes, upstream_notes};
use rustsec_values::push_shown;
use std::alloc::{AllocError, Global};

/// Appends a warning, on one line.
fn add_warning(note: &mut String, words: &str) -> Result<(), AllocError> {
    note.push_str("rustsec_audit: warning: ")?;
    push_shown(note, words)?;
    note.push('\n')
}

/// Appends a warning for each part of an advisory that the Rust crate refuses.
fn add_upstream(
    alloc: Global,
    note: &mut String,
    text: &str,
    advisory: &Advisory,
) -> Result<(), AllocError> {
    let refused = upstream_notes(alloc, text, advisory)?;
    for words in refused.as_slice() {
        add_warning(note, words.as_str())?;
    }
    Ok(())
}

/// Appends a warning for each requirement that Cargo's matching reads differently.
fn add_readings(
    alloc: Global,
    note: &mut String,
    text: &str,
    advisory: &Advisory,
) -> Result<(), AllocError> {
    let readings = reading_notes(alloc, text, &advisory.versions)?;
    for reading in readings.as_slice() {
        add_warning(note, reading.as_str())?;
    }
    Ok(())
}

/// Appends the warnings about the advisory of a text: what the Rust crate refuses, which accepts less than this port
/// does, and which requirements Cargo's matching reads differently.
pub fn add_warnings(
    alloc: Global,
    note: &mut String,
    text: &str,
    advisory: &Advisory,
) -> Result<(), AllocError> {
    add_upstream(alloc, note, text, advisory)?;
    add_readings(alloc, note, text, advisory)
}
