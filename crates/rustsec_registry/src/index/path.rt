//! Where an index has the file of a package.

ghost use Rattle.std.specs.Prelude.{◌≡◌, ◌<◌, ◌∷◌, [], IfErr, IfOk, OnErr, Some, length, option_map, string_bytes};
ghost use Rattle.std.specs.List.{list_all};
ghost use Rattle.std.specs.Str.{IsAscii};
ghost use Rattle.rustsec_values.specs.Reading.{only_if};
ghost use Rattle.rustsec_values.specs.Failure.{IsMemory};
ghost use Rattle.rustsec_registry.specs.index.IndexPath.{folders_of, index_path, is_name_byte, lower_case};

use rustsec_values::{Items, Result, Text};
use std::alloc::{AllocError, Global};

/// Returns whether a byte may be in a package's name.
fn is_name_byte(byte: u8) -> bool
    ensures { result ≡ is_name_byte byte }
{
    byte.is_ascii_alphanumeric() || byte == b'-' || byte == b'_'
}

/// Returns a name in lower case, or `None` for a text with a byte that no name has.
fn lower_case(alloc: Global, name: &str) -> std::result::Result<Option<String>, AllocError>
    ensures { IfOk result (λ lower. option_map string_bytes lower
        ≡ only_if (list_all is_name_byte name.now) (Some (lower_case name.now))) }
{
    let mut lower = String::new(alloc);
    let bytes = name.as_bytes();
    for byte in bytes {
        if !is_name_byte(*byte) {
            return Ok(None);
        }
        lower.push(char::from(byte.to_ascii_lowercase()))?;
    }
    Ok(Some(lower))
}

/// Returns a list of one name.
fn one(alloc: Global, name: &str) -> std::result::Result<Items<Text>, AllocError>
    ensures { IfOk result (λ names. names ≡ name.now ∷ []) }
{
    let mut names = Items::new(alloc);
    names.push(Text::from_str(alloc, name)?)?;
    Ok(names)
}

/// Returns a list of two names.
fn two(alloc: Global, first: &str, second: &str) -> std::result::Result<Items<Text>, AllocError>
    ensures { IfOk result (λ names. names ≡ first.now ∷ second.now ∷ []) }
{
    let mut names = one(alloc, first)?;
    names.push(Text::from_str(alloc, second)?)?;
    Ok(names)
}

/// Returns the names of the folders of a name's file. The name is in lower case.
fn folders_of(alloc: Global, name: &str) -> std::result::Result<Items<Text>, AllocError>
    requires some { 0 < length name.now }
    requires ascii { IsAscii name.now }
    ensures { IfOk result (λ folders. folders ≡ folders_of name.now) }
{
    match name.len() {
        1 => one(alloc, "1"),
        2 => one(alloc, "2"),
        3 => {
            let (first, _) = name.split_at(1);
            two(alloc, "3", first)
        }
        _ => {
            let (first, rest) = name.split_at(2);
            let (second, _) = rest.split_at(2);
            two(alloc, first, second)
        }
    }
}

/// Returns the names of the folders and of the file that an index has for a package, or `None` if the text is not a
/// package's name: ASCII letters, digits, `-` and `_`. They are in lower case, and `/` joins them to a path below the
/// folder of the index: `1/a`, `2/ab`, `3/a/abc`, `se/rd/serde`.
///
/// # Errors
///
/// `OutOfMemory` alone.
pub fn index_path(alloc: Global, name: &str) -> Result<Option<Items<Text>>>
    ensures ok { IfOk result (λ path. path ≡ index_path name.now) }
    ensures err { IfErr result IsMemory }

    // The empty text takes no memory.
    ensures none { OnErr result (0 < length name.now) }
{
    if name.is_empty() {
        return Ok(None);
    }
    let Some(lower) = lower_case(alloc, name)? else {
        return Ok(None);
    };
    let mut path = folders_of(alloc, &lower)?;
    path.push(Text::from(lower))?;
    Ok(Some(path))
}
