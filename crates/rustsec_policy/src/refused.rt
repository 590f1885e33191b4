//! A refusal of a policy file, with the key that it is about.

ghost use Rattle.std.specs.Prelude.{◌≡◌, Err, IfErr, IfOk, Ok};

use rustsec_toml::Section;
use rustsec_values::{Error, ErrorKind, FromText, Result};
use std::alloc::{AllocError, Global};
use toml::Value;
use toml::value::Array;

/// A refusal, and the key that it is about.
#[derive(Drop)]
pub(crate) struct Refused<'a> {
    pub(crate) error: Error,
    /// The name of the key's table in messages.
    pub(crate) table: &'a str,
    pub(crate) key: &'a str,
    /// The index of the element that is refused, if the value is a list; an error if there was no memory to look for it.
    pub(crate) entry: std::result::Result<Option<usize>, AllocError>,
    /// The key of that element, if it is about one.
    pub(crate) inner: Option<&'a str>,
}

/// What was read of a policy file, or why it was refused.
pub(crate) type Read<'a, T> = std::result::Result<T, Refused<'a>>;

/// Returns what was read at a key of a table, or the refusal with the key.
pub(crate) fn at_key<'a, T: Drop>(
    section: Section<'a>,
    key: &'a str,
    read: Result<T>,
) -> Read<'a, T>
    ensures ok { IfOk result (λ x. read ≡ Ok x) }
    ensures err { IfErr result (λ r. read ≡ Err r.error) }
{
    match read {
        Ok(value) => Ok(value),
        Err(error) => Err(Refused {
            error,
            table: section.name,
            key,
            entry: Ok(None),
            inner: None,
        }),
    }
}

/// Returns whether what was read is a refusal.
///
/// # Errors
///
/// `AllocError` if memory ran out while it was read.
fn is_refused<T: Drop>(read: Result<T>) -> std::result::Result<bool, AllocError> {
    let Err(error) = read else {
        return Ok(false);
    };
    if error.kind() == ErrorKind::OutOfMemory {
        return Err(AllocError);
    }
    Ok(true)
}

/// Returns the array that a value is, if any.
fn array_in(value: Option<&Value>) -> Option<&Array> {
    value?.as_array()
}

/// Returns whether a value is not a text of a type.
fn is_other<T: FromText>(alloc: Global, value: &Value) -> std::result::Result<bool, AllocError> {
    match value.as_str() {
        Some(text) => is_refused(T::from_text(alloc, text)),
        None => Ok(true),
    }
}

/// Returns the index of the first element of an array that is not a text of a type.
fn first_other<T: FromText>(
    alloc: Global,
    value: Option<&Value>,
) -> std::result::Result<Option<usize>, AllocError> {
    let Some(elements) = array_in(value) else {
        return Ok(None);
    };
    for (index, element) in elements.iter().enumerate() {
        if is_other::<T>(alloc, element)? {
            return Ok(Some(index));
        }
    }
    Ok(None)
}

/// Returns what was read at a key of a table whose value may be a list of texts of a type, or the refusal with the key
/// and the element.
pub(crate) fn at_element<'a, E: FromText, T: Drop>(
    alloc: Global,
    section: Section<'a>,
    key: &'a str,
    read: Result<T>,
) -> Read<'a, T>
    ensures ok { IfOk result (λ x. read ≡ Ok x) }
    ensures err { IfErr result (λ r. read ≡ Err r.error) }
{
    match read {
        Ok(value) => Ok(value),
        Err(error) => Err(Refused {
            error,
            table: section.name,
            key,
            entry: first_other::<E>(alloc, section.get(key)),
            inner: None,
        }),
    }
}
