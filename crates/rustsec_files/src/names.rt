//! The names that an answer shows, and their order.

ghost use Rattle.std.specs.Prelude.{◌≡◌, IfErr, IfOk, None, filter, string_bytes};
ghost use Rattle.rustsec_files.specs.Allowed.{AllowSame};
ghost use Rattle.rustsec_files.specs.Listed.{ShowsFiles, ShowsFolders};
ghost use Rattle.rustsec_files.specs.Names.{AreInOrder, begins_with_dot, is_shown_name, names_of, under};
ghost use Rattle.rustsec_files.specs.Seen.{listed_from};
ghost use Rattle.rustsec_values.specs.Failure.{IsRefusal};

use crate::entry::FolderEntry;
use crate::folders::Folders;
use rustsec_values::{ErrorKind, Items, Predicate, Result, Text};
use std::alloc::{AllocError, Global};

/// Returns the path of a name in a folder.
pub(crate) fn joined(
    alloc: Global,
    folder: &str,
    name: &str,
) -> std::result::Result<String, AllocError>
    ensures { IfOk result (λ s. string_bytes s ≡ under folder.now name.now) }
{
    format!(in alloc; "{folder}/{name}")
}

/// Returns whether a name begins with a dot.
fn begins_with_dot(name: &str) -> bool
    ensures { result ≡ begins_with_dot name.now }
{
    name.starts_with(".")
}

/// The test of entries whose names begin with no dot.
struct Shown;

impl Predicate<FolderEntry> for Shown {
    ghost use Rattle.rustsec_files.specs.Names.{is_shown};

    ghost holds = { λ _ entry. is_shown entry };

    fn holds(&self, entry: &FolderEntry) -> bool {
        !begins_with_dot(entry.name.as_str())
    }
}

/// The test of names that begin with no dot.
struct ShownName;

impl Predicate<Text> for ShownName {
    ghost use Rattle.rustsec_files.specs.Names.{is_shown_name};

    ghost holds = { λ _ name. is_shown_name name };

    fn holds(&self, name: &Text) -> bool {
        !begins_with_dot(name.as_str())
    }
}

/// The test of entries that are folders.
struct IsFolder;

impl Predicate<FolderEntry> for IsFolder {
    ghost use Rattle.rustsec_files.specs.Names.{is_folder};

    ghost holds = { λ _ entry. is_folder entry };

    fn holds(&self, entry: &FolderEntry) -> bool {
        entry.folder
    }
}

/// Returns the names of entries, in their order.
pub(crate) fn names_of(
    alloc: Global,
    entries: Items<FolderEntry>,
) -> std::result::Result<Vec<Text>, AllocError>
    ensures { IfOk result (λ v. v.items ≡ names_of entries) }
{
    let mut names = Vec::new(alloc);
    for entry in Vec::from(entries) {
        let FolderEntry { name, folder: _ } = entry;
        names.push(name)?;
    }
    Ok(names)
}

/// Returns the names of entries, in the order of their bytes.
fn in_order(
    alloc: Global,
    entries: Items<FolderEntry>,
) -> std::result::Result<Vec<Text>, AllocError>
    ensures { IfOk result (λ v. AreInOrder (names_of entries) v.items) }
{
    let mut names = names_of(alloc, entries)?;
    names.sort()?;
    Ok(names)
}

/// Returns those of some names that begin with no dot, in the order of their bytes.
fn shown_in_order(mut names: Items<Text>) -> std::result::Result<Vec<Text>, AllocError>
    ensures { IfOk result (λ v. AreInOrder (filter is_shown_name names) v.items) }
{
    names.retain(&ShownName);
    let mut ordered = Vec::from(names);
    ordered.sort()?;
    Ok(ordered)
}

/// Returns the names that a package's folder shows, in order.
pub(crate) fn names_in<F: Folders>(
    alloc: Global,
    folders: &mut F,
    folder: &str,
) -> Result<Vec<Text>>
    ensures ok { IfOk result (λ v. ShowsFiles (listed_from F.listed (F.allowed folders.old)) folder.now v.items) }
    ensures err { IfErr result (IsRefusal ErrorKind.Io ((listed_from F.listed (F.allowed folders.old)).lists folder.now None)) }
    ensures same { AllowSame (F.allowed folders.old) (F.allowed folders.new) }
{
    let names = folders.names(alloc, folder)?;
    let ordered = shown_in_order(names)?;
    Ok(ordered)
}

/// Returns the names of the folders that a collection shows, in order.
pub(crate) fn folders_in<F: Folders>(
    alloc: Global,
    folders: &mut F,
    collection: &str,
) -> Result<Vec<Text>>
    ensures ok { IfOk result (λ v. ShowsFolders (listed_from F.listed (F.allowed folders.old)) collection.now v.items) }
    ensures err { IfErr result (IsRefusal ErrorKind.Io ((listed_from F.listed (F.allowed folders.old)).lists collection.now None)) }
    ensures same { AllowSame (F.allowed folders.old) (F.allowed folders.new) }
{
    let mut entries = folders.list(alloc, collection)?;
    entries.retain(&IsFolder);
    entries.retain(&Shown);
    let names = in_order(alloc, entries)?;
    Ok(names)
}
