//! The document of a text, and where its tables and keys are.

ghost use Rattle.std.specs.Prelude.{◌≡◌, ◌≤◌, ◌++◌, ◌↔◌, ℕ, IfErr, IfOk, IfSome, List, None, Some, [], length};
ghost use Rattle.toml.specs.Parse.{parse_document};
ghost use Rattle.toml.specs.View.{table_view};
ghost use Rattle.rustsec_values.specs.Failure.{IsMemory, IsOfKind, IsRefusal};
ghost use Rattle.rustsec_toml.specs.Places.{IsLineOf, IsPlaceOf, beginning, from_line, place_past};
ghost use Rattle.rustsec_toml.specs.Fields.{unmarked};

use crate::lines::shown_line;
use crate::statements::{Found, element_at, header_at, key_at, key_of_body, key_of_inline};
use crate::{Place, skip_mark};
use rustsec_values::{Error, ErrorKind, Result};
use std::alloc::{AllocError, Global};
use toml::Table;

/// Where a table is in a file.
#[derive(Clone, Copy)]
pub struct TablePlace<'a> {
    /// The text of its document; empty if it is unknown.
    pub text: &'a str,
    /// The keys that lead to the table.
    pub path: &'a [&'a str],
    /// The position of the table, from 0 on, if it is in an array of tables.
    pub index: Option<usize>,
    /// The position of an element, from 0 on, if messages are about an element of the array at a key.
    pub element: Option<usize>,
    /// The line of the file in which the text begins, from 1 on.
    pub line: usize,
}

/// Returns the keys that lead to a key of a table.
fn keys_to<'k>(
    alloc: Global,
    path: &[&'k str],
    key: &'k str,
) -> std::result::Result<Vec<&'k str>, AllocError> {
    let mut keys = Vec::new(alloc);
    for part in path {
        keys.push(*part)?;
    }
    keys.push(key)?;
    Ok(keys)
}

/// Returns the text from the key in the header of a table on. The table is at a position in an array of tables, in whose
/// first header the given text begins.
fn table_at<'a>(alloc: Global, first: &'a str, path: &[&str], index: usize) -> Found<&'a str> {
    let mut found = first;
    for _ in 0..index {
        let Some((_, rest)) = found.split_once('\n') else {
            return Ok(None);
        };
        let Some(next) = header_at(alloc, rest, path)? else {
            return Ok(None);
        };
        found = next;
    }
    Ok(Some(found))
}

/// Returns the text from a key on, where the text begins after the header of its table. The key may have a header of its own.
fn key_in_body<'a>(alloc: Global, body: &'a str, path: &[&str], key: &str) -> Found<&'a str> {
    match key_of_body(alloc, body, key)? {
        Some(found) => Ok(Some(found)),
        None => header_at(alloc, body, &keys_to(alloc, path, key)?),
    }
}

/// Returns the text from a key of a table on, where the text begins in the header of the table.
fn key_in_table<'a>(alloc: Global, table: &'a str, path: &[&str], key: &str) -> Found<&'a str> {
    let Some((_, body)) = table.split_once('\n') else {
        return Ok(None);
    };
    let Some(found) = key_in_body(alloc, body, path, key)? else {
        return Ok(None);
    };
    match header_at(alloc, body, path)? {
        // The key is that of the next table.
        Some(next) if next.len() > found.len() => Ok(None),
        _ => Ok(Some(found)),
    }
}

/// Returns the text from a key on of the table at a position in an array of tables that is the value of a key; from the
/// table on if its key is not found.
fn key_in_element<'a>(alloc: Global, array: &'a str, index: usize, key: &str) -> Found<&'a str> {
    let table = element_at(alloc, array, index)?.unwrap_or(array);
    Ok(Some(key_of_inline(alloc, table, key)?.unwrap_or(table)))
}

/// Returns a message with a place before it and the line after it.
fn placed(
    alloc: Global,
    at: TablePlace<'_>,
    place: Place,
    message: &str,
) -> std::result::Result<String, AllocError> {
    let line = shown_line(alloc, at.text, place.line)?;
    let words = place.from_line(at.line).in_words(alloc)?;
    format!(in alloc; "{words}: {message}, at `{line}`")
}

impl<'a> TablePlace<'a> {
    /// Returns the place of a table that is in no known text.
    pub fn unknown() -> TablePlace<'static>
        ensures text { result.text.now ≡ [] }
        ensures path { result.path.now ≡ [] }
        ensures index { result.index ≡ None }
        ensures element { result.element ≡ None }
        ensures line { result.line ≡ 1 }
    {
        TablePlace {
            text: "",
            path: &[],
            index: None,
            element: None,
            line: 1,
        }
    }

    /// Returns the place of a whole document.
    pub fn whole(text: &'a str) -> TablePlace<'a>
        ensures text { result.text.now ≡ text.now }
        ensures path { result.path.now ≡ [] }
        ensures index { result.index ≡ None }
        ensures element { result.element ≡ None }
        ensures line { result.line ≡ 1 }
    {
        TablePlace {
            text,
            path: &[],
            index: None,
            element: None,
            line: 1,
        }
    }

    /// Returns the place of another table of the same document, to which these keys lead.
    pub fn at(self, path: &'a [&'a str]) -> TablePlace<'a>
        ensures text { result.text.now ≡ self.entry.text.now }
        ensures path { result.path.now ≡ path.now }
        ensures index { result.index ≡ None }
        ensures element { result.element ≡ None }
        ensures line { result.line ≡ self.entry.line }
    {
        TablePlace {
            text: self.text,
            path,
            index: None,
            element: None,
            line: self.line,
        }
    }

    /// Returns the place of an element of the array at a key of this table.
    pub fn at_element(self, index: usize) -> TablePlace<'a>
        ensures text { result.text.now ≡ self.entry.text.now }
        ensures path { result.path.now ≡ self.entry.path.now }
        ensures index { result.index ≡ self.entry.index }
        ensures element { result.element ≡ Some index }
        ensures line { result.line ≡ self.entry.line }
    {
        TablePlace {
            text: self.text,
            path: self.path,
            index: self.index,
            element: Some(index),
            line: self.line,
        }
    }

    /// Returns the text without the byte order mark of its file (RFC 3629, section 6), which only its first line can have.
    fn unmarked(self) -> &'a str
        ensures { result.now ≡ unmarked self.entry.line self.entry.text.now }
    {
        if self.line == 1 {
            skip_mark(self.text)
        } else {
            self.text
        }
    }

    /// Returns the place in the text of a part that begins there and goes to the end of the text: its line and column, each
    /// from 1 on. A byte order mark at the beginning of the file takes no column. A part that is not shorter than the text
    /// begins with it.
    pub fn place_of(self, part: &str) -> Place
        ensures inside { (before : List ℕ) → unmarked self.entry.line self.entry.text.now ≡ before ++ part.now → result ≡ place_past before }
        ensures whole { length (unmarked self.entry.line self.entry.text.now) ≤ length part.now → result ≡ beginning }
        ensures within { IsPlaceOf (unmarked self.entry.line self.entry.text.now) result }
    {
        Place::of_end(self.unmarked(), part)
    }

    /// Returns the place in the text of a key of the table, or of an element of the array at the key: its line and column,
    /// each from 1 on. It is that of the table if that part is not found, and the beginning of the text if the table is not
    /// found either.
    ///
    /// # Errors
    ///
    /// `AllocError` alone.
    pub fn place_of_key(self, alloc: Global, key: &str) -> std::result::Result<Place, AllocError>
        ensures { IfOk result (IsPlaceOf (unmarked self.entry.line self.entry.text.now)) }
    {
        let part = self.rest_from(alloc, key)?;
        Ok(self.place_of(part))
    }

    /// Returns the text from a key of the table on, or from an element of the array at the key on. It is the text from the
    /// table on if that part is not found, and the whole text if the table is not found either.
    fn rest_from(self, alloc: Global, key: &str) -> std::result::Result<&'a str, AllocError> {
        let found = self.from_key(alloc, key)?;
        match self.element {
            Some(index) => Ok(element_at(alloc, found, index)?.unwrap_or(found)),
            None => Ok(found),
        }
    }

    /// Returns the text from a key of the table on; from the table's own key on if that one is not found.
    fn from_key(self, alloc: Global, key: &str) -> std::result::Result<&'a str, AllocError> {
        if let Some(index) = self.index {
            return Ok(self.in_array(alloc, index, key)?.unwrap_or(self.text));
        }
        let keys = keys_to(alloc, self.path, key)?;
        if let Some(found) = key_at(alloc, self.text, &keys)? {
            return Ok(found);
        }
        Ok(key_at(alloc, self.text, self.path)?.unwrap_or(self.text))
    }

    /// Returns the text from a key on of the table at a position in an array of tables; from the table on if the key is
    /// not found.
    fn in_array(self, alloc: Global, index: usize, key: &str) -> Found<&'a str> {
        if let Some(first) = header_at(alloc, self.text, self.path)? {
            let Some(table) = table_at(alloc, first, self.path, index)? else {
                return Ok(Some(first));
            };
            let found = key_in_table(alloc, table, self.path, key)?;
            return Ok(Some(found.unwrap_or(table)));
        }
        match key_at(alloc, self.text, self.path)? {
            Some(array) => key_in_element(alloc, array, index, key),
            None => Ok(None),
        }
    }

    /// Returns the line of the file in which a key of the table is, from 1 on, if the text is known; the line of the
    /// table if the key is not there.
    ///
    /// # Errors
    ///
    /// `AllocError` alone.
    pub fn line_of(self, alloc: Global, key: &str) -> std::result::Result<Option<usize>, AllocError>
        ensures none { IfOk result (λ line. (line ≡ None) ↔ (self.entry.text.now ≡ [])) }
        ensures line { IfOk result (λ line. IfSome line (IsLineOf self.entry.line (unmarked self.entry.line self.entry.text.now))) }
    {
        if self.text.is_empty() {
            return Ok(None);
        }
        let place = self.place_of(self.from_key(alloc, key)?);
        Ok(Some(place.from_line(self.line).line))
    }

    /// Adds the place of a key of the table, or of an element of the array at the key, to an error about it, if the text
    /// is known. Out of memory stays as it is.
    pub fn with_place(self, alloc: Global, key: &str, error: Error) -> Error
        ensures kind { IsOfKind error.kind result }
        ensures memory { IsMemory error → IsMemory result }
    {
        if self.text.is_empty() || error.kind() == ErrorKind::OutOfMemory {
            return error;
        }
        match self.rest_from(alloc, key) {
            Ok(part) => self.with_place_of(alloc, part, error),
            Err(refused) => Error::from(refused),
        }
    }

    /// Adds the place from which on a part of the text is given to an error about it. Out of memory stays as it is.
    pub fn with_place_of(self, alloc: Global, part: &str, error: Error) -> Error
        ensures kind { IsOfKind error.kind result }
        ensures memory { IsMemory error → IsMemory result }
    {
        if error.kind() == ErrorKind::OutOfMemory {
            return error;
        }
        let place = self.place_of(part);
        match placed(alloc, self, place, error.message()) {
            Ok(message) => Error::with_cause(alloc, error.kind(), &message, error.cause()),
            Err(refused) => Error::from(refused),
        }
    }
}

/// Returns the message for a text that is not a TOML document from the offset of its fault on. The text ends with the
/// text of the place.
fn no_document_at(
    alloc: Global,
    at: TablePlace<'_>,
    from_end: usize,
    name: &str,
) -> std::result::Result<String, AllocError> {
    let text = at.unmarked();
    let place = Place::of_offset(text, text.len().saturating_sub(from_end));
    let message = format!(in alloc; "{name} is not a TOML document")?;
    placed(alloc, at, place, &message)
}

/// Returns the error for a text that is not a TOML document. Its message has the place of the fault and the line, and
/// its cause is the reason of `toml`.
fn document_error(
    alloc: Global,
    text: &str,
    at: TablePlace<'_>,
    name: &str,
    error: &toml::de::Error,
) -> Error
    ensures { IsOfKind ErrorKind.Parse result }
{
    let offset = error.span().map_or(0, |span| span.start);
    match no_document_at(alloc, at, text.len().saturating_sub(offset), name) {
        Ok(message) => Error::with_source(alloc, ErrorKind::Parse, &message, error.message()),
        Err(refused) => Error::from(refused),
    }
}

/// Parses a document (TOML 1.1.0). For messages, `name` says what the text is, and `at` where it is: the text ends with the
/// text of that place.
///
/// # Errors
///
/// `Parse` if the text is not a TOML document; else `OutOfMemory`. The message has the place of the fault and its line.
pub fn document(alloc: Global, text: &str, at: TablePlace<'_>, name: &str) -> Result<Table>
    ensures ok { IfOk result (λ t. parse_document text.now ≡ Some (table_view t)) }
    ensures err { IfErr result (IsRefusal ErrorKind.Parse (parse_document text.now ≡ None)) }
{
    match toml::table_from_str(alloc, text) {
        Ok(table) => Ok(table),
        Err(e) if e.is_memory() => Err(Error::from(AllocError)),
        Err(e) => Err(document_error(alloc, text, at, name, &e)),
    }
}
