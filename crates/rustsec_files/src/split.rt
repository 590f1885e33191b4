//! The names of a folder's entries, from its listing, which has a NUL after each name.

ghost use Rattle.std.specs.Prelude.{◌≡◌, ◌⊎◌, ◌++◌, ◌<◌, IfErr, IfOk, IsOkAnd, IsUtf8, OnErr, OnOk, [], ◌∷◌, filter, length, not, option_map, string_bytes, true};
ghost use Rattle.std.specs.Str.{is_utf8};
ghost use Rattle.std.specs.Str.Lossy.{utf8_lossy, utf8_valid_len};
ghost use Rattle.rustsec_files.specs.ReadFailures.{IsIoFailure, IsReadFailure, KeepsMemory, io_failure, read_message};
ghost use Rattle.rustsec_files.specs.Entries.{ListsNames, entry_names, first_not_utf8, is_entry_name, name_not_utf8_in};
ghost use Rattle.rustsec_values.specs.Failure.{IsMemory, IsOfKind, or_empty, out_of_memory};

use crate::reading;
use rustsec_values::{Error, ErrorKind, Items, Result, Text};
use std::alloc::{AllocError, Global};
use std::io;
use std::io::Read;

/// Returns whether a part of a listing is the name of an entry, and not that of the folder itself or its
/// parent.
fn is_entry_name(name: &str) -> bool
    ensures { result ≡ is_entry_name name.now }
{
    !name.is_empty() && name != "." && name != ".."
}

/// Puts a part of a listing after some names, if it is the name of an entry.
#[tactic(auto, using(crate::proofs::ListFailures::filter_kept, crate::proofs::ListFailures::filter_left))]
fn push_entry_name(alloc: Global, names: &mut Items<Text>, part: &str) -> Result<()>
    ensures ok { OnOk result (names.new ≡ names.old ++ filter is_entry_name (part.now ∷ [])) }
    ensures err { IfErr result IsMemory }
    ensures none { OnErr result (is_entry_name part.now ≡ true) }
{
    if is_entry_name(part) {
        let name = Text::from_str(alloc, part)?;
        names.push(name)?;
    }
    Ok(())
}

/// Returns the names in the text of a listing, all of them, in their order.
///
/// # Errors
///
/// `OutOfMemory` alone, and only if there is a name.
pub fn entry_names(alloc: Global, listing: &str) -> Result<Items<Text>>
    ensures ok { IfOk result (λ names. names ≡ entry_names listing.now) }
    ensures err { IfErr result IsMemory }

    // A listing without names takes no memory.
    ensures none { OnErr result (0 < length (entry_names listing.now)) }
{
    let mut names = Items::new(alloc);
    for part in listing.split('\0') {
        push_entry_name(alloc, &mut names, part)?;
    }
    Ok(names)
}

/// Returns whether a name is not UTF-8.
fn is_not_utf8(name: &[u8]) -> bool
    ensures { result ≡ not (is_utf8 name.now) }
{
    match str::from_utf8(name) {
        Ok(_) => false,
        Err(_) => true,
    }
}

/// Returns the first name in the bytes of a listing that is not UTF-8, if any.
fn first_not_utf8(listing: &[u8]) -> Option<&[u8]>
    ensures { option_map (λ name. name.now) result ≡ first_not_utf8 listing.now }
{
    listing
        .split(|byte| *byte == 0)
        .find(|name| is_not_utf8(name))
}

/// Returns the text of the first name in a listing that is not UTF-8, with U+FFFD for what is not.
fn name_not_utf8(alloc: Global, listing: &[u8]) -> std::result::Result<String, AllocError>
    ensures { IfOk result (λ t. string_bytes t ≡ utf8_lossy (or_empty (first_not_utf8 listing.now))) }
{
    match first_not_utf8(listing) {
        Some(name) => String::from_utf8_lossy(alloc, name),
        None => Ok(String::new(alloc)),
    }
}

/// Returns the reason that a listing is not UTF-8 from an offset on. It names the entry.
fn not_utf8_reason(
    alloc: Global,
    listing: &[u8],
    offset: usize,
) -> std::result::Result<String, AllocError>
    ensures { IfOk result (λ t. string_bytes t ≡ name_not_utf8_in listing.now offset) }
{
    let name = name_not_utf8(alloc, listing)?;
    format!(in alloc;
        "the name of the entry `{name}` is not UTF-8, at byte offset {offset} of the listing"
    )
}

/// Returns the failure of a folder whose listing is not UTF-8 from an offset on.
fn not_utf8_error(alloc: Global, path: &str, listing: &[u8], offset: usize) -> Error
    ensures exact { (result ≡ io_failure (read_message path.now) (name_not_utf8_in listing.now offset)) ⊎ (result ≡ out_of_memory) }
    ensures names { IsIoFailure (read_message path.now) result }
{
    match not_utf8_reason(alloc, listing, offset) {
        Ok(why) => reading::read_error(alloc, path, &why),
        Err(refused) => Error::from(refused),
    }
}

/// Returns the text of a listing of these bytes, with no copy of them. `path` is for the message alone.
fn listing_text(alloc: Global, bytes: Vec<u8>, path: &str) -> Result<String>
    ensures ok { IfOk result (λ s. string_bytes s ≡ bytes.items) }
    ensures none { IfErr result (λ e. ¬ IsUtf8 bytes.items) }
    ensures exact { IfErr result (λ e. (e ≡ io_failure (read_message path.now) (name_not_utf8_in bytes.items (utf8_valid_len bytes.items))) ⊎ (e ≡ out_of_memory)) }
    ensures kind { IfErr result (IsOfKind ErrorKind.Io) }
    ensures names { IfErr result (IsIoFailure (read_message path.now)) }
{
    match String::from_utf8(bytes) {
        Ok(text) => Ok(text),
        Err(e) => {
            let offset = e.utf8_error().valid_up_to();
            Err(not_utf8_error(alloc, path, e.as_bytes(), offset))
        }
    }
}

/// Returns the names in the bytes that reading a listing gave, all of them, in their order. `path` is that
/// of the folder, and for the message alone.
fn names_of_answer(alloc: Global, answer: io::Result<Vec<u8>>, path: &str) -> Result<Items<Text>>
    ensures ok { IfOk result (λ names. IsOkAnd answer (λ bytes. names ≡ entry_names bytes.items)) }
    ensures memory { KeepsMemory answer result }
    ensures none { IfErr result (λ e. IfOk answer (λ bytes. (¬ IsUtf8 bytes.items) ⊎ IsMemory e)) }
    ensures kind { IfErr result (IsOfKind ErrorKind.Io) }
    ensures names { IfErr result (IsIoFailure (read_message path.now)) }
{
    let bytes = reading::read_answer(alloc, answer, path)?;
    let text = listing_text(alloc, bytes, path)?;
    entry_names(alloc, &text)
}

/// Returns the names in the listing that a reader has left, all of them, in their order. `path` is that of
/// the folder, and for the message alone.
///
/// # Errors
///
/// `Io` if a read fails, the listing has not ended after 2^32 reads, or a name is not UTF-8; else
/// `OutOfMemory`. The cause shows such a name, and tells at which byte of the listing it is not UTF-8.
pub fn listed_names<D: Read>(alloc: Global, listing: &mut D, path: &str) -> Result<Items<Text>>
    ensures ok { IfOk result (ListsNames (D.remaining listing.old)) }
    ensures kind { IfErr result (IsOfKind ErrorKind.Io) }
    ensures names { IfErr result (IsIoFailure (read_message path.now)) }
{
    names_of_answer(alloc, reading::bytes_of(alloc, listing), path)
}

/// Returns the names in a listing that the system opened, or refused to open. `path` is that of the folder,
/// and for the message alone.
///
/// # Errors
///
/// `Io` for an error, which the cause tells; then as `listed_names`. The message says whether the folder
/// couldn't be opened or couldn't be read.
pub fn opened_names<D: Read + Drop>(
    alloc: Global,
    opened: io::Result<D>,
    path: &str,
) -> Result<Items<Text>>
    ensures ok { IfOk result (λ names. IsOkAnd opened (λ listing. ListsNames (D.remaining listing) names)) }
    ensures memory { KeepsMemory opened result }
    ensures kind { IfErr result (IsOfKind ErrorKind.Io) }
    ensures names { IfErr result (IsReadFailure path.now) }
{
    let mut listing = reading::open_answer(alloc, opened, path)?;
    listed_names(alloc, &mut listing, path)
}
