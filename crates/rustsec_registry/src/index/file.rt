//! The versions that the file of a name lists.

ghost use Rattle.std.specs.Prelude.{◌≡◌, ◌-◌, ◌⊎◌, ◌≤◌, ◌++◌, ◌∷◌, [], IfErr, IfOk, MatchResult, OnOk, count_by, length, option_map, string_bytes};
ghost use Rattle.std.specs.List.{after_first, before_first};
ghost use Rattle.rustsec_values.specs.Failure.{IsMemory};
ghost use Rattle.rustsec_registry.specs.index.CacheFile.{after_formats, after_pair, cache_entries};
ghost use Rattle.rustsec_registry.specs.index.IndexFile.{cache_message, checkout_message, IsDamage, IsDamagedEntry, Lists, ListsEntries, after_entry, damage, damage_message, entries_of, first_says, is_newline, line_number, versions_said};

use crate::IndexVersion;
use crate::index::entry::{Said, cut, line_says, pair_says};
use crate::index::form::IndexForm;
use rustsec_files::SourceFile;
use rustsec_values::{Error, ErrorKind, Items, Result};
use std::alloc::{AllocError, Global};

/// The beginning of each file of a cache: 3, the version of the cache's format, and 2, the version of the index's
/// format, in four bytes.
const FORMAT_VERSIONS: &str = "\u{3}\u{2}\0\0\0";

/// Returns the text before the first line feed.
fn first_line(text: &str) -> &str
    ensures { result.now ≡ before_first is_newline text.now }
{
    match text.split_once('\n') {
        Some((line, _)) => line,
        None => text,
    }
}

/// Returns the text after the first line feed.
fn after_line(text: &str) -> &str
    ensures { result.now ≡ after_first is_newline text.now }
{
    match text.split_once('\n') {
        Some((_, rest)) => rest,
        None => "",
    }
}

/// Returns the text after an entry of a cache.
fn after_pair(text: &str) -> &str
    ensures { result.now ≡ after_pair text.now }
{
    let Some((_, rest)) = cut(text) else {
        return "";
    };
    match cut(rest) {
        Some((_, rest)) => rest,
        None => "",
    }
}

/// Returns the text after the versions of the formats of a cache, if these are the known ones.
fn after_formats(file: &str) -> Option<&str>
    ensures { option_map (λ t. t.now) result ≡ after_formats file.now }
{
    file.strip_prefix(FORMAT_VERSIONS)
}

/// Returns the entries of a cache's file, or `None` if the file has another beginning.
fn cache_entries(file: &str) -> Option<&str>
    ensures { option_map (λ t. t.now) result ≡ cache_entries file.now }
{
    let text = after_formats(file)?;
    let (_, rest) = cut(text)?;
    Some(rest)
}

/// Returns the entries of a file, or `None` if the file has another beginning.
fn entries_of(form: IndexForm, file: &str) -> Option<&str>
    ensures { option_map (λ t. t.now) result ≡ entries_of form file.now }
{
    match form {
        IndexForm::Checkout => Some(file),
        IndexForm::Cache => cache_entries(file),
    }
}

/// Returns what the first entry of a text says about a name.
fn first_says(
    alloc: Global,
    form: IndexForm,
    text: &str,
    name: &str,
) -> std::result::Result<Said, AllocError>
    ensures { IfOk result (λ said. said ≡ first_says form name.now text.now) }
{
    match form {
        IndexForm::Checkout => line_says(alloc, first_line(text), name),
        IndexForm::Cache => pair_says(alloc, text, name),
    }
}

/// Returns the text after its first entry.
fn after_entry(form: IndexForm, text: &str) -> &str
    ensures { result.now ≡ after_entry form text.now }
{
    match form {
        IndexForm::Checkout => after_line(text),
        IndexForm::Cache => after_pair(text),
    }
}

/// Appends the version that an entry says, if any.
fn push_said(
    versions: &mut Items<IndexVersion>,
    said: Option<IndexVersion>,
) -> std::result::Result<(), AllocError>
    ensures { OnOk result (versions.new ≡ versions.old ++ versions_said (said ∷ [])) }
{
    match said {
        Some(version) => versions.push(version),
        None => Ok(()),
    }
}

/// Returns the versions that entries list for a name, or, if one is damaged, the number of bytes from its beginning to
/// the end of the text.
fn listed(
    alloc: Global,
    form: IndexForm,
    text: &str,
    name: &str,
) -> std::result::Result<std::result::Result<Items<IndexVersion>, usize>, AllocError>
    ensures { IfOk result (λ r. MatchResult r (ListsEntries form name.now text.now) (IsDamagedEntry form name.now text.now)) }
{
    let mut versions = Items::new(alloc);
    let mut rest = text;
    while !rest.is_empty() {
        let Some(said) = first_says(alloc, form, rest, name)? else {
            return Ok(Err(rest.len()));
        };
        push_said(&mut versions, said)?;
        rest = after_entry(form, rest);
    }
    Ok(Ok(versions))
}

/// Returns the number of line feeds.
fn count_newlines(bytes: &[u8]) -> usize
    ensures count { result ≡ count_by is_newline bytes.now }
    ensures bound { result ≤ length bytes.now }
{
    let mut count = 0;
    for byte in bytes {
        if *byte == b'\n' {
            count += 1;
        }
    }
    count
}

/// Returns the number of the line from whose beginning on this many bytes are left.
fn line_number(text: &str, left: usize) -> u64
    ensures { result ≡ line_number text.now left }
{
    let bytes = text.as_bytes();
    let (before, _) = bytes.split_at(bytes.len().saturating_sub(left));
    count_newlines(before) as u64 + 1
}

/// Returns the number of bytes before the place from which on this many are left.
fn offset(text: &str, left: usize) -> u64
    ensures { result ≡ length text.now - left }
{
    text.len().saturating_sub(left) as u64
}

/// Returns the message for a damaged line of a checkout's file.
fn checkout_message(alloc: Global, path: &str, line: u64) -> std::result::Result<String, AllocError>
    ensures { IfOk result (λ s. string_bytes s ≡ checkout_message path.now line) }
{
    format!(in alloc; "{path}: line {line} is not an entry of a registry's index")
}

/// Returns the message for a damaged entry of a cache's file.
fn cache_message(alloc: Global, path: &str, offset: u64) -> std::result::Result<String, AllocError>
    ensures { IfOk result (λ s. string_bytes s ≡ cache_message path.now offset) }
{
    format!(in alloc; "{path}: byte offset {offset} is not an entry of Cargo's cache")
}

/// Returns the message for a damaged file.
fn damage_message(
    alloc: Global,
    form: IndexForm,
    file: &SourceFile,
    left: usize,
) -> std::result::Result<String, AllocError>
    ensures { IfOk result (λ s. string_bytes s ≡ damage_message form file.now.path file.now.text left) }
{
    let path = file.path.as_str();
    let text = file.text.as_str();
    match form {
        IndexForm::Checkout => checkout_message(alloc, path, line_number(text, left)),
        IndexForm::Cache => cache_message(alloc, path, offset(text, left)),
    }
}

/// Returns the error for a damaged file.
fn damage_error(alloc: Global, form: IndexForm, file: &SourceFile, left: usize) -> Error
    ensures { (result ≡ damage form file.now.path file.now.text left) ⊎ IsMemory result }
{
    match damage_message(alloc, form, file, left) {
        Ok(message) => Error::new(alloc, ErrorKind::Parse, &message),
        Err(refused) => Error::from(refused),
    }
}

/// Returns the versions that the file of a package lists in an index of this form, each with whether it is yanked, in
/// the order of the file. A version that the file lists twice is there twice, and the last one counts. An entry whose
/// name is not exactly the package's is ignored. The file's path is for messages alone.
///
/// # Errors
///
/// `Parse` if an entry is damaged, or if a cache does not begin with the known versions of its format: the message
/// names the path, and the line of a checkout or the byte offset in a cache. Else `OutOfMemory`.
pub fn versions_in(
    alloc: Global,
    form: IndexForm,
    file: &SourceFile,
    name: &str,
) -> Result<Items<IndexVersion>>
    ensures ok { IfOk result (Lists form file.now.text name.now) }
    ensures err { IfErr result (λ e. IsDamage form file.now.path file.now.text name.now e ⊎ IsMemory e) }
{
    let text = file.text.as_str();
    let Some(entries) = entries_of(form, text) else {
        return Err(damage_error(alloc, form, file, text.len()));
    };
    match listed(alloc, form, entries, name)? {
        Ok(versions) => Ok(versions),
        Err(left) => Err(damage_error(alloc, form, file, left)),
    }
}
