//! Finds the headers of packages.

ghost use Rattle.std.specs.Prelude.{◌≡◌, ◌≤◌, ◌<◌, ◌+◌, ◌++◌, ◌∷◌, ◌↔◌, ◌⊎◌, [], IfErr, IfOk, IsTrue, OnErr, OnOk, codes, length, true};
ghost use Rattle.std.specs.List.{list_all};
ghost use Rattle.toml_parser.specs.Lexical.{is_ws, skip_blank};
ghost use Rattle.toml_parser.specs.Reading.{key_view};
ghost use Rattle.toml_parser.specs.Strings.{quoted, starts_string};
ghost use Rattle.rustsec_values.specs.Failure.{IsMemory};
ghost use Rattle.rustsec_toml.specs.Places.{ArePackages, Closes, IsEnd, IsHeader, after_token, beginning, ends_line, last_line, next_token, place_past, rest_of, skip_mark, up_to};

use crate::place::{Place, place_after};
use rustsec_values::Result;
use std::alloc::{AllocError, Global};
use toml_parser::text::{first, skip, skip_blank, skip_ws, starts_newline};
use toml_parser::{Key, ParseError, dotted_key, quoted, starts_string};

/// Returns the text after the string at its front, and no text if that string does not end.
fn after_string(alloc: Global, text: &str) -> std::result::Result<&str, AllocError>
    requires { starts_string text.now ≡ true }
    ensures value { IfOk result (λ rest. rest.now ≡ rest_of (quoted text.now)) }
    ensures shorter { IfOk result (λ rest. length rest.now < length text.now) }
{
    match quoted(alloc, text) {
        Ok((_, rest)) => Ok(rest),
        Err(ParseError::OutOfMemory) => Err(AllocError),
        Err(ParseError::At(_, _, _)) => Ok(""),
    }
}

/// Returns a text without a byte order mark at its front (RFC 3629, section 6).
pub fn skip_mark(text: &str) -> &str
    ensures { result.now ≡ skip_mark text.now }
{
    match text.strip_prefix("\u{FEFF}") {
        Some(rest) => rest,
        None => text,
    }
}

/// Returns the text after its first token: a string, or else one byte of ASCII. It is empty where no token begins, and
/// after a string that does not end.
///
/// # Errors
///
/// `AllocError` alone.
#[tactic(auto, unfolding(crate::specs::Places::after_token))]
fn after_token(alloc: Global, text: &str) -> std::result::Result<&str, AllocError>
    ensures value { IfOk result (λ rest. rest.now ≡ after_token text.now) }
    ensures within { IfOk result (λ rest. length rest.now ≤ length text.now) }
    ensures shorter { IfOk result (λ rest. 0 < length text.now → length rest.now < length text.now) }

    // Only a string takes memory.
    ensures none { OnErr result (starts_string text.now ≡ true) }
{
    if starts_string(text) {
        return after_string(alloc, text);
    }
    if first(text) > 0 && first(text) < 128 {
        return Ok(skip(text, 1));
    }
    Ok("")
}

/// Returns the text from the next token on: after one token, and after white space, line feeds and comments.
///
/// # Errors
///
/// `AllocError` alone.
fn next_token(alloc: Global, text: &str) -> std::result::Result<&str, AllocError>
    ensures value { IfOk result (λ rest. rest.now ≡ next_token text.now) }
    ensures within { IfOk result (λ rest. length rest.now ≤ length text.now) }
    ensures shorter { IfOk result (λ rest. 0 < length text.now → length rest.now < length text.now) }
    ensures none { OnErr result (starts_string text.now ≡ true) }
{
    let rest = after_token(alloc, text)?;
    Ok(skip_blank(rest, true))
}

/// Returns the front of a text, up to the rest of it; no bytes where the rest is not shorter.
fn up_to<'a>(rest: &str, text: &'a str) -> &'a [u8]
    ensures value { result.now ≡ up_to rest.now text.now }
    ensures len { length rest.now ≤ length text.now → length result.now + length rest.now ≡ length text.now }
{
    &text.as_bytes()[..text.len().saturating_sub(rest.len())]
}

/// Returns whether the bytes since the last line feed are white space.
fn is_alone(before: &[u8]) -> bool
    ensures { result ≡ list_all is_ws (last_line before.now) }
{
    before
        .iter()
        .rev()
        .take_while(|byte| **byte != b'\n')
        .all(|byte| *byte == b' ' || *byte == b'\t')
}

/// Returns whether only white space and a comment are left in the first line of a text.
fn ends_line(text: &str) -> bool
    ensures { result ≡ ends_line text.now }
{
    let rest = skip_ws(text);
    rest.is_empty() || first(rest) == b'#' || starts_newline(rest)
}

/// Returns whether a text begins with two brackets, with nothing else in their line.
fn closes(text: &str) -> bool
    ensures { IsTrue result ↔ Closes text.now }
{
    match text.strip_prefix("]]") {
        Some(after) => ends_line(after),
        None => false,
    }
}

/// Returns whether a key is `package`.
fn is_package(key: &Key) -> bool
    ensures { IsTrue result ↔ (key_view key.now ≡ ([], codes "package")) }
{
    key.path.is_empty() && key.last.as_str() == "package"
}

/// Returns whether, after some bytes, a text begins with the header of a package (TOML 1.0.0, "Array of Tables").
///
/// # Errors
///
/// `AllocError` alone.
fn is_header(alloc: Global, before: &[u8], text: &str) -> std::result::Result<bool, AllocError>
    ensures { IfOk result (λ found. IsTrue found ↔ IsHeader (codes "package") before.now text.now) }
{
    let Some(inside) = text.strip_prefix("[[") else {
        return Ok(false);
    };
    match dotted_key(alloc, skip_ws(inside)) {
        Ok((key, rest)) => Ok(is_package(&key) && closes(rest) && is_alone(before)),
        Err(ParseError::OutOfMemory) => Err(AllocError),
        Err(ParseError::At(_, _, _)) => Ok(false),
    }
}

/// Appends the place of a text, which comes after some bytes, if the header of a package is there.
fn push_header(
    alloc: Global,
    places: &mut Vec<Place>,
    place: Place,
    before: &[u8],
    text: &str,
) -> std::result::Result<(), AllocError>
    ensures { OnOk result (((places.new.items ≡ places.old.items ++ place ∷ []) × IsHeader (codes "package") before.now text.now)
        ⊎ ((places.new.items ≡ places.old.items) × ¬ IsHeader (codes "package") before.now text.now)) }
{
    if is_header(alloc, before, text)? {
        places.push(place)?;
    }
    Ok(())
}

/// Returns the places of the headers of packages of a document, in order.
fn places_of(alloc: Global, text: &str) -> Result<Vec<Place>>
    ensures ok { IfOk result (λ v. ArePackages text.now v.items) }
    ensures err { IfErr result IsMemory }
{
    let mut places = Vec::new(alloc);
    let mut rest = skip_blank(text, true);
    let start = Place { line: 1, column: 1 };
    let mut place = place_after(start, up_to(rest, text));
    'tokens: for _at in 0..text.len() {
        if rest.is_empty() {
            return Ok(places);
        }
        push_header(alloc, &mut places, place, up_to(rest, text), rest)?;
        let next = next_token(alloc, rest)?;
        place = place_after(place, up_to(next, rest));
        rest = next;
    }
    Ok(places)
}

/// Returns the places of the headers of packages of a lockfile's text, in order: of the lines that have `[[package]]`, in any
/// form of its key, and at most a comment after it (TOML 1.0.0, "Array of Tables"). Such a line in a string does not count,
/// and a byte order mark takes no column.
///
/// # Errors
///
/// `OutOfMemory` alone.
pub fn package_places(alloc: Global, text: &str) -> Result<Vec<Place>>
    ensures ok { IfOk result (λ v. ArePackages (skip_mark text.now) v.items) }
    ensures err { IfErr result IsMemory }
{
    places_of(alloc, skip_mark(text))
}
