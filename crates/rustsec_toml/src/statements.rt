//! Where the keys of a document are. The document was read before, so it is known to be TOML.

ghost use Rattle.std.specs.Prelude.{◌≢◌, IfOk, IfSome, None};
ghost use Rattle.rustsec_toml.specs.Places.{StartsKey};

use crate::skip_mark;
use std::alloc::{AllocError, Global};
use toml_parser::text::{first, skip_blank, skip_ws};
use toml_parser::{Key, ParseError, dotted_key, quoted, starts_string};

/// A part of a document that is looked for: none if it is not there.
pub(crate) type Found<T> = Result<Option<T>, AllocError>;

/// Returns the rest of a text after the comment or the character at its beginning.
fn after_character(text: &str) -> Option<&str> {
    if first(text) == b'#' {
        return text.strip_prefix(text.split('\n').next()?);
    }
    let mut rest = text.chars();
    rest.next()?;
    Some(rest.as_str())
}

/// Returns the rest of a text after its first token: a string, a comment or a character.
fn after_token(alloc: Global, text: &str) -> Found<&str> {
    if !starts_string(text) {
        return Ok(after_character(text));
    }
    match quoted(alloc, text) {
        Ok((_, rest)) => Ok(Some(rest)),
        Err(ParseError::OutOfMemory) => Err(AllocError),
        Err(ParseError::At(_, _, _)) => Ok(None),
    }
}

/// Returns whether a byte ends an array or an inline table.
fn is_close(byte: u8) -> bool {
    byte == b']' || byte == b'}'
}

/// Returns the rest of a text from a byte on that is in no string, comment, array or inline table. A comma is not looked for
/// after the array or the table in which the text begins.
fn from_byte(alloc: Global, text: &str, byte: u8) -> Found<&str> {
    let mut rest = text;
    let mut depth = 0usize;
    for _ in text.bytes() {
        let next = first(rest);
        if depth == 0 && next == byte {
            return Ok(Some(rest));
        }
        if depth == 0 && byte == b',' && is_close(next) {
            return Ok(None);
        }
        if next == b'[' || next == b'{' {
            depth = depth.saturating_add(1);
        } else if is_close(next) {
            depth = depth.saturating_sub(1);
        }
        let Some(after) = after_token(alloc, rest)? else {
            return Ok(None);
        };
        rest = after;
    }
    Ok(None)
}

/// Returns the rest of a text after a byte that it begins with.
fn skip_byte(text: &str, byte: u8) -> Option<&str> {
    text.strip_prefix(char::from(byte))
}

/// Returns the rest of a text after the next comma of the array or the inline table in which it begins.
fn after_comma(alloc: Global, text: &str) -> Found<&str> {
    match from_byte(alloc, text, b',')? {
        Some(rest) => Ok(skip_byte(rest, b',')),
        None => Ok(None),
    }
}

/// Returns the rest of a text after the dotted key at its beginning, and after white space.
fn after_key(alloc: Global, text: &str) -> Found<&str> {
    match dotted_key(alloc, text) {
        Ok((_, rest)) => Ok(Some(rest)),
        Err(ParseError::OutOfMemory) => Err(AllocError),
        Err(ParseError::At(_, _, _)) => Ok(None),
    }
}

/// Returns the text after this first byte of the value of a key, if the value begins with it.
fn within_value(alloc: Global, key: &str, open: u8) -> Found<&str> {
    let Some(rest) = after_key(alloc, key)? else {
        return Ok(None);
    };
    match skip_byte(rest, b'=') {
        Some(value) => Ok(skip_byte(skip_ws(value), open)),
        None => Ok(None),
    }
}

/// Returns the part of a dotted key at an index.
fn part_at(key: &Key, index: usize) -> Option<&str> {
    match key.path.get(index) {
        Some(part) => Some(part.as_str()),
        None if index == key.path.len() => Some(key.last.as_str()),
        None => None,
    }
}

/// Returns whether the parts of a key agree with those of a path from an index on, where both have one.
fn agrees(key: &Key, path: &[&str], from: usize) -> bool {
    path.iter().skip(from).enumerate().all(|(index, part)| match part_at(key, index) {
        Some(found) => found == *part,
        None => true,
    })
}

/// Returns how far a path goes with the dotted key at the beginning of a text, if they agree from an index on.
fn reach(alloc: Global, text: &str, path: &[&str], from: Option<usize>) -> Found<usize>
    ensures { IfOk result (λ reached. IfSome reached (λ n. StartsKey text.now)) }
{
    let Some(from) = from else {
        return Ok(None);
    };
    match dotted_key(alloc, text) {
        Ok((key, _)) if agrees(&key, path, from) => Ok(Some(
            from.saturating_add(key.path.len()).saturating_add(1),
        )),
        Err(ParseError::OutOfMemory) => Err(AllocError),
        _ => Ok(None),
    }
}

/// Returns the text from the first key on of an inline table, given from after its brace on, if the key's path agrees with
/// these parts from an index on, and how far they go with it.
fn key_inside<'a>(
    alloc: Global,
    inside: &'a str,
    path: &[&str],
    from: usize,
) -> Found<(&'a str, usize)>
    ensures { IfOk result (λ found. IfSome found (λ f. StartsKey f.0.now)) }
{
    let mut rest = inside;
    for _ in inside.bytes() {
        let start = skip_blank(rest, true);
        if let Some(reached) = reach(alloc, start, path, Some(from))? {
            return Ok(Some((start, reached)));
        }
        let Some(next) = after_comma(alloc, start)? else {
            return Ok(None);
        };
        rest = next;
    }
    Ok(None)
}

/// Returns the text from the first key on in the inline table that is the value of a key, if its path agrees with these parts
/// from an index on, and how far they go with it.
fn key_within<'a>(
    alloc: Global,
    key: &'a str,
    path: &[&str],
    from: usize,
) -> Found<(&'a str, usize)>
    ensures { IfOk result (λ found. IfSome found (λ f. StartsKey f.0.now)) }
{
    match within_value(alloc, key, b'{')? {
        Some(inside) => key_inside(alloc, inside, path, from),
        None => Ok(None),
    }
}

/// Returns the text from a key on, or from the key in its inline table on, or in one within it, to which a path leads that goes
/// with the key so far.
fn key_below<'a>(
    alloc: Global,
    key: &'a str,
    path: &[&str],
    reached: Option<usize>,
) -> Found<&'a str>
    ensures { (reached ≢ None → StartsKey key.now) → IfOk result (λ found. IfSome found (λ k. StartsKey k.now)) }
{
    let Some(mut reached) = reached else {
        return Ok(None);
    };
    let mut key = key;
    for _ in path {
        if reached >= path.len() {
            return Ok(Some(key));
        }
        let Some(within) = key_within(alloc, key, path, reached)? else {
            return Ok(None);
        };
        (key, reached) = within;
    }
    Ok(Some(key))
}

/// Returns the text of a document from the first key on whose path, with the header above it, begins with these parts. The key
/// may be in an inline table.
///
/// # Errors
///
/// `AllocError` alone.
pub fn key_at<'a>(
    alloc: Global,
    document: &'a str,
    path: &[&str],
) -> Result<Option<&'a str>, AllocError>
    ensures { IfOk result (λ found. IfSome found (λ rest. StartsKey rest.now)) }
{
    let mut header = Some(0);
    let mut rest = skip_mark(document);
    for _ in document.bytes() {
        let start = skip_blank(rest, true);
        let is_header = first(start) == b'[';
        let key = skip_ws(start.trim_start_matches('['));
        let reached = reach(alloc, key, path, if is_header { Some(0) } else { header })?;
        if let Some(found) = key_below(alloc, key, path, reached)? {
            return Ok(Some(found));
        }
        if is_header {
            header = reached;
        }
        let Some(next) = from_byte(alloc, key, b'\n')? else {
            return Ok(None);
        };
        rest = next;
    }
    Ok(None)
}

/// Returns the text of a document from the key in the first header on that has exactly these parts.
///
/// # Errors
///
/// `AllocError` alone.
pub(crate) fn header_at<'a>(alloc: Global, document: &'a str, path: &[&str]) -> Found<&'a str> {
    let mut rest = skip_mark(document);
    for _ in document.bytes() {
        let start = skip_blank(rest, true);
        let key = skip_ws(start.trim_start_matches('['));
        let is_header = first(start) == b'[';
        if is_header && reach(alloc, key, path, Some(0))? == Some(path.len()) {
            return Ok(Some(key));
        }
        let Some(next) = from_byte(alloc, key, b'\n')? else {
            return Ok(None);
        };
        rest = next;
    }
    Ok(None)
}

/// Returns the text from the first key on that begins with a part, in a text that begins after the header of a table. The
/// next header ends the table.
///
/// # Errors
///
/// `AllocError` alone.
pub(crate) fn key_of_body<'a>(alloc: Global, body: &'a str, part: &str) -> Found<&'a str> {
    let mut rest = body;
    for _ in body.bytes() {
        let key = skip_blank(rest, true);
        if first(key) == b'[' {
            return Ok(None);
        }
        if reach(alloc, key, &[part], Some(0))?.is_some() {
            return Ok(Some(key));
        }
        let Some(next) = from_byte(alloc, key, b'\n')? else {
            return Ok(None);
        };
        rest = next;
    }
    Ok(None)
}

/// Returns the text from the element at an index of the array that is the value of a key on.
///
/// # Errors
///
/// `AllocError` alone.
pub(crate) fn element_at(
    alloc: Global,
    key: &str,
    index: usize,
) -> Result<Option<&str>, AllocError> {
    let Some(mut rest) = within_value(alloc, key, b'[')? else {
        return Ok(None);
    };
    for _ in 0..index {
        let Some(next) = after_comma(alloc, rest)? else {
            return Ok(None);
        };
        rest = next;
    }
    Ok(Some(skip_blank(rest, true)))
}

/// Returns the text from a key on of the inline table with which a text begins.
///
/// # Errors
///
/// `AllocError` alone.
pub(crate) fn key_of_inline<'a>(alloc: Global, table: &'a str, key: &str) -> Found<&'a str> {
    let Some(inside) = skip_byte(table, b'{') else {
        return Ok(None);
    };
    match key_inside(alloc, inside, &[key], 0)? {
        Some((found, _)) => Ok(Some(found)),
        None => Ok(None),
    }
}
