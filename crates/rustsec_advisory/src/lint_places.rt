//! Where the keys of lint errors are in the file of an advisory, for messages.

ghost use Rattle.std.specs.Prelude.{◌≡◌, ◌≢◌, ◌<◌, ◌/◌, [], IfOk, IfSome, None, OnErr, Some, length, max};
ghost use Rattle.rustsec_texts.specs.Parts.{FileParts, parts_of};
ghost use Rattle.rustsec_advisory.specs.Advisory.{IsKeyLine};

use crate::advisory::{first_line, front_place, header_keys};
use crate::linter::{Error, ErrorKind};
use rustsec_texts::Parts;
use std::alloc::{AllocError, Global};

/// The most bytes that the look-ups of the lines of a text's lint errors read together.
const MOST_READ: usize = 1_048_576;

/// The number of lint errors whose lines are looked up however long the text is.
const LEAST: usize = 10;

/// Returns the key that a lint error is about.
fn key_of(error: &Error) -> &str {
    match error.kind() {
        ErrorKind::InvalidKey { name } => name.as_str(),
        ErrorKind::InvalidValue { name, value: _ } => match name.as_str() {
            "category" => "categories",
            key => key,
        },
        ErrorKind::Malformed => match error.section() {
            Some("metadata") => "yanked",
            _ => "collection",
        },
    }
}

/// Returns the keys that lead to a section in a front matter.
fn section_keys(front: &str, section: Option<&str>) -> &'static [&'static str] {
    match section {
        Some("affected") => &["affected"],
        Some("versions") => &["versions"],
        Some(_) => header_keys(front),
        None => &[],
    }
}

/// Returns the path of a function that a lint error is about, if it is about one. The path is a key of its own.
fn function_of(error: &Error) -> Option<&str> {
    match error.kind() {
        ErrorKind::InvalidValue { name, value } if name.as_str() == "functions" => {
            Some(value.as_str())
        }
        _ => None,
    }
}

/// Returns the line of an advisory's text in which the key of a lint error is, from 1 on; none if the text has no front
/// matter. The key of a function is its path.
///
/// # Errors
///
/// `AllocError` alone.
pub fn lint_error_line(
    alloc: Global,
    text: &str,
    error: &Error,
) -> Result<Option<usize>, AllocError>
    // A text without a front matter takes no memory.
    ensures none { OnErr result (parts_of text.now ≢ None) }
    ensures known { IfOk result (λ line. (p : FileParts) → parts_of text.now ≡ Some p → p.front_matter ≢ [] → line ≢ None) }
    ensures line { IfOk result (λ line. IfSome line (IsKeyLine text.now)) }
{
    let Ok(parts) = Parts::parse(alloc, text) else {
        return Ok(None);
    };
    let front = front_place(parts.front_matter, first_line(text));
    if let Some(function) = function_of(error) {
        return front
            .at(&["affected", "functions"])
            .line_of(alloc, function);
    }
    let keys = section_keys(parts.front_matter, error.section());
    front.at(keys).line_of(alloc, key_of(error))
}

/// Returns how many of a text's lint errors a note names with their lines. Each look-up may read the whole text, and all
/// of them together read at most a mebibyte; ten are looked up in any text.
pub fn placed_errors(text: &str) -> usize
    ensures empty { length text.now ≡ 0 → result ≡ 1048576 }
    ensures shared { 0 < length text.now → result ≡ max 10 (1048576 / length text.now) }
{
    MOST_READ
        .checked_div(text.len())
        .unwrap_or(MOST_READ)
        .max(LEAST)
}
