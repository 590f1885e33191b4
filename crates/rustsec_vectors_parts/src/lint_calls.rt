//! Lint errors by the library's calls. The command `lint` is in the cases of `rustsec_cases`.

use rustsec_advisory::linter::{self, ErrorKind, Linter};
use rustsec_fixtures::{INVALID, INVALID_ERRORS, VALID, changed, exact_field, prints};
use std::alloc::Global;
use std::fs;
use std::test::Fail;

/// The example; a text of the valid advisory and its replacement; whether the file is a draft's, or this isn't known;
/// and the lint error, or nothing. The example `invalid_advisory_lint` has an advisory of its own.
const EXAMPLES: &[&str] = &[
    "valid_advisory_lint | date | date | no draft | ",
    "valid_advisory_lint | date | date | unknown | ",
    "valid_advisory_lint | date | date | draft | invalid value `\"RUSTSEC-2001-2101\"` for key `id` in [advisory]: advisory ID draft status does not match file name",
    "lint_single_faults | RUSTSEC-2001 | RUSTSEC-2002 | unknown | invalid value `\"RUSTSEC-2002-2101\"` for key `id` in [advisory]: year in advisory ID does not match date",
    "lint_single_faults | date = | license = \"MPL-2.0\"\ndate = | unknown | invalid value `MPL-2.0` for key `license` in [advisory]: Unknown license",
    "lint_single_faults | date = | yanked = true\ndate = | unknown | malformed content in [metadata]: Field `yanked` is deprecated, use `withdrawn` field instead",
    "placeholder_lint | RUSTSEC-2001-2101 | RUSTSEC-0000-0000 | draft | ",
    "placeholder_lint | RUSTSEC-2001-2101 | RUSTSEC-0000-0000 | unknown | ",
    "placeholder_lint | RUSTSEC-2001-2101 | RUSTSEC-0000-0000 | no draft | invalid value `\"RUSTSEC-0000-0000\"` for key `id` in [advisory]: advisory ID draft status does not match file name",
];

/// Returns whether a text has these lint errors.
fn has(alloc: Global, text: &str, draft: Option<bool>, errors: &[&str]) -> Result<bool, Fail> {
    let linter = Linter::lint_string(alloc, text, draft)?;
    for (error, text) in linter.errors().iter().zip(errors) {
        if !prints(alloc, error, text)? {
            return Ok(false);
        }
    }
    Ok(linter.errors().len() == errors.len())
}

/// Returns whether the valid advisory has the lint errors of a row, changed as it says.
fn holds(alloc: Global, row: &str) -> Result<bool, Fail> {
    let text = changed(alloc, VALID, exact_field(row, 1), exact_field(row, 2))?;
    let draft = match exact_field(row, 3) {
        "unknown" => None,
        word => Some(word == "draft"),
    };
    match exact_field(row, 4) {
        "" => has(alloc, &text, draft, &[]),
        error => has(alloc, &text, draft, &[error]),
    }
}

#[test]
fn lint_strings(rt: HostRuntime) -> Result<(), Fail> {
    assert!(rt; has(rt.alloc(), INVALID, Some(false), INVALID_ERRORS)?);
    for row in EXAMPLES {
        assert!(rt; holds(rt.alloc(), row)?, "{row}");
    }
    Ok(())
}

/// Returns whether a lint error is of an unknown key of `versions`, and its copy is equal to it.
fn is_unknown_key(alloc: Global, error: &linter::Error, name: &str) -> Result<bool, Fail> {
    let kind = ErrorKind::key(alloc, name)?;
    let copy = error.clone(alloc)?;
    let is_bare = error.section() == Some("versions") && error.message().is_none();
    Ok(*error.kind() == kind && is_bare && copy == *error)
}

/// Returns whether a file has the valid advisory with one lint error, of an unknown key of `versions`.
fn has_unknown_key(rt: &HostRuntime, path: &str, name: &str) -> Result<bool, Fail> {
    let linter = Linter::lint_file(rt, rt.alloc(), path)?;
    let [error] = linter.errors() else {
        return Ok(false);
    };
    let id = linter.advisory().id();
    Ok(id.as_str() == "RUSTSEC-2001-2101" && is_unknown_key(rt.alloc(), error, name)?)
}

fn key_prints(alloc: Global, name: &str, text: &str) -> Result<bool, Fail> {
    let kind = ErrorKind::key(alloc, name)?;
    let printed = kind.to_string(alloc)?;
    Ok(printed.as_str() == text)
}

/// Returns whether a copy of the kind of an invalid value is equal to it, and it is not that of an unknown key.
fn value_is_copied(alloc: Global, name: &str, value: &str) -> Result<bool, Fail> {
    let kind = ErrorKind::value(alloc, name, value)?;
    let copy = kind.clone(alloc)?;
    let key = ErrorKind::key(alloc, name)?;
    Ok(copy == kind && key != kind)
}

#[test]
fn linters_with_ample_memory(rt: HostRuntime) -> Result<(), Fail> {
    let path = "linters-with-ample-memory.md";
    let text = changed(rt.alloc(), VALID, "[versions]", "[versions]\nother = 1")?;
    fs::write(&rt, path, &text)?;
    assert!(rt; has_unknown_key(&rt, path, "other")?);
    fs::remove_file(&rt, path)?;
    assert!(rt; key_prints(rt.alloc(), "yanked", "invalid key `yanked`")?);
    assert!(rt; value_is_copied(rt.alloc(), "license", "MPL-2.0")?);
    Ok(())
}
