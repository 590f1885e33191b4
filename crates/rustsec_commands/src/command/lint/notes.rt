//! Describes the lint errors of an advisory to a person: in which line each is, what is known there, and what is near.

use crate::command::lint::warnings::add_warnings;
use rustsec_advisory::linter::Error;
use rustsec_advisory::{Linter, lint_error_line, placed_errors};
use rustsec_lint_database::lint_help;
use rustsec_values::push_shown;
use std::alloc::{AllocError, Global};
use std::fmt::Write as _;

/// Appends the line about a lint error of an advisory's text.
fn add_line(
    alloc: Global,
    note: &mut String,
    text: &str,
    linter: &Linter,
    error: &Error,
) -> Result<(), AllocError> {
    note.push_str("rustsec_audit: ")?;
    if let Some(line) = lint_error_line(alloc, text, error)? {
        write!(note, "line {line}: ")?;
    }
    let said = error.to_string(alloc)?;
    push_shown(note, &said)?;
    push_shown(note, &lint_help(alloc, linter, error)?)?;
    note.push('\n')
}

/// Returns the note about the lint errors of an advisory's text: a line for each of them, or for the first ones of a very
/// long text and the number of the others, and the warnings about the advisory.
pub fn lint_note(alloc: Global, text: &str, linter: &Linter) -> Result<String, AllocError> {
    let mut note = String::new(alloc);
    let shown = placed_errors(text);
    for error in linter.errors().iter().take(shown) {
        add_line(alloc, &mut note, text, linter, error)?;
    }
    let more = linter.errors().len().saturating_sub(shown);
    if more > 0 {
        writeln!(note, "rustsec_audit: and {more} more lint errors")?;
    }
    add_warnings(alloc, &mut note, text, linter.advisory())?;
    Ok(note)
}
