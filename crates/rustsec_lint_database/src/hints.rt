//! What helps against a lint error, for a person: what is known at its place, and what of it is near.

use rustsec_advisory::linter::{Error, ErrorKind};
use rustsec_advisory::{Linter, Metadata};
use rustsec_policy::nearest_word;
use std::alloc::{AllocError, Global};
use std::fmt::Write as _;

/// The keys of the section `advisory`.
const ADVISORY_KEYS: &[&str] = &[
    "id",
    "package",
    "date",
    "url",
    "title",
    "description",
    "aliases",
    "related",
    "categories",
    "keywords",
    "cvss",
    "informational",
    "references",
    "source",
    "withdrawn",
    "license",
    "expect-deleted",
];

/// The names of the categories.
const CATEGORIES: &[&str] = &[
    "code-execution",
    "crypto-failure",
    "denial-of-service",
    "file-disclosure",
    "format-injection",
    "malicious",
    "memory-corruption",
    "memory-exposure",
    "privilege-escalation",
    "thread-safety",
];

/// Returns the keys that a section knows, or the sections that a document knows.
fn known_keys(section: Option<&str>) -> &'static [&'static str] {
    match section {
        Some("advisory") => ADVISORY_KEYS,
        Some("affected") => &["arch", "os", "functions"],
        Some("versions") => &["patched", "unaffected"],
        _ => &["advisory", "affected", "versions"],
    }
}

/// Returns the values that a key knows; none if it takes others too.
fn known_values(key: &str) -> &'static [&'static str] {
    match key {
        "category" => CATEGORIES,
        "informational" => &["notice", "unmaintained", "unsound"],
        "license" => &["CC0-1.0", "CC-BY-4.0"],
        _ => &[],
    }
}

/// Appends what is known, and what of it is near to a text.
fn add_known(
    alloc: Global,
    note: &mut String,
    known: &[&str],
    text: &str,
) -> Result<(), AllocError> {
    for (index, word) in known.iter().enumerate() {
        note.push_str(if index == 0 { "; known: `" } else { "`, `" })?;
        note.push_str(word)?;
    }
    if !known.is_empty() {
        note.push_str("`")?;
    }
    if let Some(word) = nearest_word(alloc, known, text)? {
        write!(note, "; did you mean `{word}`?")?;
    }
    Ok(())
}

/// Returns whether the year of an advisory's ID is not that of its date.
fn is_of_another_year(metadata: &Metadata) -> bool {
    match metadata.id.year() {
        Some(year) => year != metadata.date.year(),
        None => false,
    }
}

/// Appends what helps against a value that its key does not accept.
fn add_value_help(
    alloc: Global,
    note: &mut String,
    linter: &Linter,
    key: &str,
    value: &str,
) -> Result<(), AllocError> {
    let metadata = &linter.advisory().metadata;
    match key {
        "id" if is_of_another_year(metadata) => {
            let date = metadata.date.as_str();
            write!(note, "; the date is {date}")
        }
        "id" => Ok(()),
        "functions" => {
            let package = metadata.package.as_str();
            write!(note, "; the package is `{package}`, with `_` for `-`")
        }
        key => add_known(alloc, note, known_values(key), value),
    }
}

/// Returns what helps against a lint error of an advisory: what is known at its place, and what of it is near. The text is
/// empty if nothing helps.
///
/// # Errors
///
/// Out of memory.
pub fn lint_help(alloc: Global, linter: &Linter, error: &Error) -> Result<String, AllocError> {
    let mut note = String::new(alloc);
    match error.kind() {
        ErrorKind::Malformed => {}
        ErrorKind::InvalidKey { name } => {
            add_known(alloc, &mut note, known_keys(error.section()), name.as_str())?;
        }
        ErrorKind::InvalidValue { name, value } => {
            add_value_help(alloc, &mut note, linter, name.as_str(), value.as_str())?;
        }
    }
    Ok(note)
}
