//! Checks the path of an advisory's file against the advisory, and sets the advisory's collection.

ghost use Rattle.std.specs.Prelude.{◌≡◌, ◌⊎◌, IfErr, IfOk};
ghost use Rattle.rustsec_values.specs.Failure.{IsMemory, IsOfKind};
ghost use Rattle.rustsec_database.specs.Placement.{IsFiled, IsMisfiled, agreed, agrees, collection_at, is_in_folder, is_named, kind_of, path_verdict};

use rustsec_advisory::Advisory;
use rustsec_files::path::FilePath;
use rustsec_texts::Collection;
use rustsec_values::{Error, ErrorKind, Result, from_name};
use std::alloc::{AllocError, Global};

/// A check that the path of an advisory's file fails.
#[derive(Clone, Copy, Debug)]
pub(crate) enum PlacementError {
    /// The extension is not `md`.
    Extension,
    /// The file is not named after the ID, and is not a draft.
    FileName,
    /// The folder is not named after the package.
    Folder,
    /// The folder is in no collection.
    Parent,
    /// The advisory names another collection than that of the folder.
    Collection,
}

/// Returns whether the file is named after an ID, or is a draft.
pub fn is_named(file: &FilePath<'_>, id: &str) -> bool
    ensures { result ≡ is_named file.now.path.now id.now }
{
    file.is_markdown_file_of(id) || file.is_draft()
}

/// Returns whether the file is in a folder of this name.
pub fn is_in_folder(file: &FilePath<'_>, name: &str) -> bool
    ensures { result ≡ is_in_folder file.now.path.now name.now }
{
    match file.folder() {
        Some(folder) => name == folder,
        None => false,
    }
}

/// Returns the collection whose name the parent of the file's folder has, if any.
pub fn collection_at(file: &FilePath<'_>) -> Option<Collection>
    ensures { result ≡ collection_at file.now.path.now }
{
    match file.folder_parent() {
        Some(parent) => from_name(parent),
        None => None,
    }
}

/// Returns whether an advisory names this collection or none.
pub fn agrees(named: Option<Collection>, collection: Collection) -> bool
    ensures { result ≡ agrees named collection }
{
    match named {
        Some(named) => named == collection,
        None => true,
    }
}

/// Returns the folder's collection if the advisory names it or none; otherwise the check that fails.
fn agreed(
    named: Option<Collection>,
    at: Option<Collection>,
) -> std::result::Result<Collection, PlacementError>
    ensures { result ≡ agreed named at }
{
    match at {
        Some(collection) => {
            if agrees(named, collection) {
                Ok(collection)
            } else {
                Err(PlacementError::Collection)
            }
        }
        None => Err(PlacementError::Parent),
    }
}

/// Returns the collection that the file of an advisory is in, or the first check that fails.
fn verdict(path: &str, advisory: &Advisory) -> std::result::Result<Collection, PlacementError>
    ensures { result ≡ path_verdict path.now advisory.now }
{
    let file = FilePath::of(path);
    if !file.is_markdown() {
        return Err(PlacementError::Extension);
    }
    if !is_named(&file, advisory.metadata.id.as_str()) {
        return Err(PlacementError::FileName);
    }
    if !is_in_folder(&file, advisory.metadata.package.as_str()) {
        return Err(PlacementError::Folder);
    }
    agreed(advisory.metadata.collection, collection_at(&file))
}

/// Returns the kind of the error for a check that fails.
fn kind_of(fault: PlacementError) -> ErrorKind
    ensures { result ≡ kind_of fault }
{
    match fault {
        PlacementError::Extension
        | PlacementError::FileName
        | PlacementError::Folder
        | PlacementError::Parent => ErrorKind::Repo,
        PlacementError::Collection => ErrorKind::Parse,
    }
}

/// Returns the message for a check that fails, about the advisory with this ID and package.
fn message(
    alloc: Global,
    fault: PlacementError,
    id: &str,
    package: &str,
) -> std::result::Result<String, AllocError> {
    match fault {
        PlacementError::Extension => format!(in alloc; "another extension, expected `md`"),
        PlacementError::FileName => format!(in alloc; "another file name, expected `{id}.md`"),
        PlacementError::Folder => format!(in alloc;
            "another folder, expected `{package}`, the package"
        ),
        PlacementError::Parent => {
            format!(in alloc; "the folder is in no collection, expected `crates` or `rust`")
        }
        PlacementError::Collection => {
            format!(in alloc; "another `collection` in [advisory], expected that of the folder")
        }
    }
}

/// Makes the error for a file that fails a check.
fn placement_error(alloc: Global, fault: PlacementError, advisory: &Advisory) -> Error
    ensures { IsOfKind (kind_of fault) result }
{
    let id = advisory.metadata.id.as_str();
    match message(alloc, fault, id, advisory.metadata.package.as_str()) {
        Ok(message) => Error::new(alloc, kind_of(fault), &message),
        Err(refused) => Error::from(refused),
    }
}

/// Parses the advisory of a file's text, checks the file's path, and sets the collection to that of the
/// folder.
pub(crate) fn load_placed(alloc: Global, path: &str, text: &str) -> Result<Advisory>
    ensures ok { IfOk result (IsFiled path.now text.now) }
    ensures err { IfErr result (λ e. IsMisfiled path.now text.now e.kind ⊎ IsMemory e) }
{
    let mut advisory = Advisory::from_str(alloc, text)?;
    match verdict(path, &advisory) {
        Ok(collection) => {
            advisory.metadata.collection = Some(collection);
            Ok(advisory)
        }
        Err(fault) => Err(placement_error(alloc, fault, &advisory)),
    }
}
