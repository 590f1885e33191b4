//! Errors about JSON trees: they name the path of keys and positions that leads to a value; for a tree of another kind, also what was found
//! and what was expected.

ghost use Rattle.rustsec_values.specs.Failure.{IsMemory, IsOfKind};

use rustsec_values::{Error, ErrorKind, beginning_of, text_error};
use serde_json::Value;
use std::alloc::{AllocError, Global};
use std::fmt;
use std::fmt::Formatter;

/// The number of bytes of a refused tree's text that are kept for its message, which shows less.
const SHOWN: usize = 100;

/// Returns a `Parse` error about a tree.
pub fn parse_error(alloc: Global, message: &str) -> Error
    ensures { IsOfKind ErrorKind.Parse result }
{
    Error::new(alloc, ErrorKind::Parse, message)
}

/// Returns the error for an object without a required key.
pub(crate) fn missing_error(alloc: Global, key: &str) -> Error
    ensures { IsOfKind ErrorKind.Parse result }
{
    match format!(in alloc; "key `{key}` is missing") {
        Ok(message) => parse_error(alloc, &message),
        Err(e) => Error::from(e),
    }
}

/// Returns the name of a tree's kind, for a message.
fn found(tree: &Value) -> &'static str {
    match tree {
        Value::Null => "found",
        Value::Bool(_) => "found the boolean",
        Value::Number(_) => "found the number",
        Value::String(_) => "found the string",
        Value::Array(_) => "found the list",
        Value::Object(_) => "found the object",
    }
}

/// The beginning of a text that is written.
#[derive(Drop)]
struct Beginning {
    text: String,
    /// The number of bytes for which there is still room.
    room: usize,
}

impl fmt::Write for Beginning {
    fn write_str(&mut self, text: &str) -> fmt::Result {
        let part = beginning_of(text, self.room);
        self.text.push_str(part)?;
        self.room = self.room.saturating_sub(part.len());
        if part.len() < text.len() {
            self.room = 0;
            return Err(fmt::Error);
        }
        Ok(())
    }
}

/// Returns the beginning of a tree's text. Writing ends where it is full, so that a large or deep tree takes neither
/// memory nor stack.
fn beginning_of_tree(alloc: Global, tree: &Value) -> Result<String, AllocError> {
    let mut f = Formatter::new(Beginning {
        text: String::new(alloc),
        room: SHOWN,
    });
    let written = fmt::Display::fmt(tree, &mut f);
    let beginning = f.into_inner();
    if written.is_err() && beginning.room > 0 {
        return Err(AllocError);
    }
    Ok(beginning.text)
}

/// Returns the error for a tree that is not of the expected kind. Its message shows the beginning of the tree's text.
pub fn unexpected_error(alloc: Global, tree: &Value, expected: &str) -> Error
    ensures { IsOfKind ErrorKind.Parse result }
{
    match beginning_of_tree(alloc, tree) {
        Ok(text) => text_error(alloc, found(tree), &text, expected),
        Err(refused) => Error::from(refused),
    }
}

/// Returns a message with a step before the path that it begins with, or with the step as its path.
fn below(alloc: Global, step: &str, message: &str) -> Result<String, AllocError> {
    match message.strip_prefix("at `") {
        Some(rest) if rest.starts_with('[') => format!(in alloc; "at `{step}{rest}"),
        Some(rest) => format!(in alloc; "at `{step}.{rest}"),
        None => format!(in alloc; "at `{step}`: {message}"),
    }
}

/// Adds a step before the path to the value that an error is about. Its cause stays.
fn with_step(alloc: Global, step: &str, error: &Error) -> Error
    ensures kind { IsOfKind error.now.kind result }
    ensures memory { IsMemory error.now → IsMemory result }
{
    if error.kind() == ErrorKind::OutOfMemory {
        return Error::from(AllocError);
    }
    match below(alloc, step, error.message()) {
        Ok(message) => Error::with_cause(alloc, error.kind(), &message, error.cause()),
        Err(refused) => Error::from(refused),
    }
}

/// Adds a key before the path to the value that an error is about, as in `affected[0].ranges`. Its cause stays.
pub fn with_key(alloc: Global, key: &str, error: &Error) -> Error
    ensures kind { IsOfKind error.now.kind result }
    ensures memory { IsMemory error.now → IsMemory result }
{
    with_step(alloc, key, error)
}

/// Adds the position in a list, from 0 on, before the path to the value that an error is about. Its cause stays.
pub fn with_index(alloc: Global, index: usize, error: &Error) -> Error
    ensures kind { IsOfKind error.now.kind result }
    ensures memory { IsMemory error.now → IsMemory result }
{
    match format!(in alloc; "[{index}]") {
        Ok(step) => with_step(alloc, &step, error),
        Err(refused) => Error::from(refused),
    }
}
