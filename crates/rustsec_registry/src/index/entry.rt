//! The entry of a version, which is an object of JSON in one line.

ghost use Rattle.std.specs.Prelude.{◌≡◌, IfErr, IfOk, option_map};
ghost use Rattle.serde_json.specs.Find.{get_member};
ghost use Rattle.serde_json.specs.View.{members_view, view};
ghost use Rattle.rustsec_values.specs.Failure.{IsMemory};
ghost use Rattle.rustsec_registry.specs.index.CacheFile.{cut, pair_says};
ghost use Rattle.rustsec_registry.specs.index.IndexLines.{entry_in, line_entry, line_says, text_at, version_for, yanked_of};

use crate::IndexVersion;
use rustsec_values::{Error, Result, Text};
use serde_json::{Map, Value};
use std::alloc::{AllocError, Global};

/// An entry of an index, without the values that nothing here reads.
#[derive(Debug, Drop)]
pub(crate) struct Entry {
    name: Text,
    version: Text,
    yanked: bool,
}

/// What an entry says about a name: a version, or nothing if the entry is for another name. It is `None` if the entry is
/// damaged.
pub(crate) type Said = Option<Option<IndexVersion>>;

/// Returns the value at a key, if any.
fn member<'a>(object: &'a Map<String, Value>, key: &str) -> Option<&'a Value>
    ensures { option_map (λ v. view v.now) result ≡ get_member key.now (members_view object.now.entries) }
{
    object.get(key)
}

/// Returns the text at a key, if any.
fn text_at<'a>(object: &'a Map<String, Value>, key: &str) -> Option<&'a str>
    ensures { option_map (λ t. t.now) result ≡ text_at key.now (members_view object.now.entries) }
{
    match member(object, key) {
        Some(value) => value.as_str(),
        None => None,
    }
}

/// Returns whether a version is yanked, by the value at `yanked`, or `None` if the value is of another type.
fn yanked_of(value: Option<&Value>) -> Option<bool>
    ensures { result ≡ yanked_of (option_map (λ v. view v.now) value.entry) }
{
    match value {
        Some(value) if value.is_null() => Some(false),
        Some(value) => value.as_bool(),
        None => Some(false),
    }
}

/// Returns the entry in an object, or `None` if a value is missing or of another type.
fn entry_in(
    alloc: Global,
    object: &Map<String, Value>,
) -> std::result::Result<Option<Entry>, AllocError>
    ensures { IfOk result (λ e. e ≡ entry_in (members_view object.now.entries)) }
{
    let Some(name) = text_at(object, "name") else {
        return Ok(None);
    };
    let Some(version) = text_at(object, "vers") else {
        return Ok(None);
    };
    let Some(yanked) = yanked_of(member(object, "yanked")) else {
        return Ok(None);
    };
    let name = Text::from_str(alloc, name)?;
    let version = Text::from_str(alloc, version)?;
    Ok(Some(Entry {
        name,
        version,
        yanked,
    }))
}

/// Parses a line, or returns `None` if it is damaged.
fn line_entry(alloc: Global, line: &str) -> std::result::Result<Option<Entry>, AllocError>
    ensures { IfOk result (λ e. e ≡ line_entry line.now) }
{
    match Value::from_str(alloc, line) {
        Ok(tree) => match tree.as_object() {
            Some(object) => entry_in(alloc, object),
            None => Ok(None),
        },
        Err(e) if e.is_memory() => Err(AllocError),
        Err(_) => Ok(None),
    }
}

/// Returns the version of an entry, if the entry is for this name.
fn version_for(entry: Entry, name: &str) -> Option<IndexVersion>
    ensures { result ≡ version_for name.now entry }
{
    let Entry {
        name: found,
        version,
        yanked,
    } = entry;
    if found.as_str() == name {
        Some(IndexVersion { version, yanked })
    } else {
        None
    }
}

/// Returns what a line says about a name. An empty line is ignored.
pub(crate) fn line_says(
    alloc: Global,
    line: &str,
    name: &str,
) -> std::result::Result<Said, AllocError>
    ensures { IfOk result (λ said. said ≡ line_says name.now line.now) }
{
    if line.is_empty() {
        return Ok(Some(None));
    }
    match line_entry(alloc, line)? {
        Some(entry) => Ok(Some(version_for(entry, name))),
        None => Ok(None),
    }
}

/// Cuts a text at its first NUL.
pub(crate) fn cut(text: &str) -> Option<(&str, &str)>
    ensures { option_map (λ p. (p.0.now, p.1.now)) result ≡ cut text.now }
{
    text.split_once('\0')
}

/// Returns what an entry of a cache says about a name, if a text begins with it.
pub(crate) fn pair_says(
    alloc: Global,
    text: &str,
    name: &str,
) -> std::result::Result<Said, AllocError>
    ensures { IfOk result (λ said. said ≡ pair_says name.now text.now) }
{
    let Some((version, rest)) = cut(text) else {
        return Ok(None);
    };
    let Some((line, _)) = cut(rest) else {
        return Ok(None);
    };
    match line_entry(alloc, line)? {
        Some(entry) if entry.version.as_str() == version => Ok(Some(version_for(entry, name))),
        _ => Ok(None),
    }
}
