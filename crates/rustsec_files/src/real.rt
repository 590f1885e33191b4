//! The folders and files of a runtime.

ghost use Rattle.std.specs.Prelude.{◌≡◌, ◌↔◌, IfErr, IfOk, IsOkAnd, IsTrue};
ghost use Rattle.std.specs.Fs.{IsDir, file_type};
ghost use Rattle.rustsec_files.specs.ReadFailures.{IsIoFailure, IsReadFailure, KeepsMemory, open_message};
ghost use Rattle.rustsec_files.specs.Allowed.{AllowSame, IsTextOfFile, every_answer};
ghost use Rattle.rustsec_files.specs.Entries.{IsListFailure};
ghost use Rattle.rustsec_files.specs.Names.{AreNames, names_of};
ghost use Rattle.rustsec_files.specs.Seen.{AreNamesOfListing};
ghost use Rattle.rustsec_values.specs.Failure.{IsOfKind, IsRefusal};

use crate::entry::FolderEntry;
use crate::folders::Folders;
use crate::names::joined;
use crate::reading;
use crate::split::opened_names;
use rustsec_values::{ErrorKind, Items, Result, Text};
use std::alloc::Global;
use std::fs::Metadata;
use std::rt::Files;
use std::{fs, io};

/// Opens a folder, to list it.
fn open_folder<R: Files>(rt: &R, alloc: Global, path: &str) -> io::Result<R::Dir> {
    // The slash has the system follow a link to a folder, and refuse what is not a folder.
    let path = format!(in alloc; "{path}/")?;
    rt.open_dir(&path)
}

/// Returns the names of a folder's entries.
fn names<R: Files>(rt: &R, alloc: Global, path: &str) -> Result<Items<Text>>
    ensures ok { IfOk result (AreNamesOfListing R.Dir.remaining) }
    ensures kind { IfErr result (IsOfKind ErrorKind.Io) }
    ensures names { IfErr result (IsReadFailure path.now) }
{
    opened_names(alloc, open_folder(rt, alloc, path), path)
}

/// Returns whether the system's answer about a path is that of a folder. `path` is for the message alone.
fn is_folder_answer(alloc: Global, answer: io::Result<Metadata>, path: &str) -> Result<bool>
    ensures ok { IfOk result (λ is. IsOkAnd answer (λ m. IsTrue is ↔ IsDir (file_type m))) }
    ensures memory { KeepsMemory answer result }
    ensures kind { IfErr result (IsOfKind ErrorKind.Io) }
    ensures names { IfErr result (IsIoFailure (open_message path.now)) }
{
    let metadata = reading::open_answer(alloc, answer, path)?;
    Ok(metadata.is_dir())
}

/// Returns whether there is a folder at a path, and not a link to one.
fn is_folder_at<R: Files>(rt: &R, alloc: Global, path: &str) -> Result<bool>
    ensures kind { IfErr result (IsOfKind ErrorKind.Io) }
    ensures names { IfErr result (IsIoFailure (open_message path.now)) }
{
    is_folder_answer(alloc, fs::symlink_metadata(rt, path), path)
}

/// Returns whether an entry of a folder is a folder itself. The message of a failure names the entry's own path.
fn is_folder_entry<R: Files>(rt: &R, alloc: Global, folder: &str, name: &str) -> Result<bool>
    ensures kind { IfErr result (IsOfKind ErrorKind.Io) }
    ensures names { IfErr result (IsListFailure folder.now) }
{
    let path = joined(alloc, folder, name)?;
    is_folder_at(rt, alloc, &path)
}

/// Returns the entries of these names in a folder, in their order. Which of them are folders is what the
/// system says.
fn entries_of<R: Files>(
    rt: &R,
    alloc: Global,
    path: &str,
    names: Items<Text>,
) -> Result<Items<FolderEntry>>
    ensures ok { IfOk result (λ entries. names_of entries ≡ names) }
    ensures kind { IfErr result (IsOfKind ErrorKind.Io) }
    ensures names { IfErr result (IsListFailure path.now) }
{
    let mut entries = Items::new(alloc);
    for name in Vec::from(names) {
        let folder = is_folder_entry(rt, alloc, path, name.as_str())?;
        entries.push(FolderEntry { name, folder })?;
    }
    Ok(entries)
}

/// Returns the entries of a folder.
fn entries<R: Files>(rt: &R, alloc: Global, path: &str) -> Result<Items<FolderEntry>>
    ensures ok { IfOk result (λ entries. AreNamesOfListing R.Dir.remaining (names_of entries)) }
    ensures kind { IfErr result (IsOfKind ErrorKind.Io) }
    ensures names { IfErr result (IsListFailure path.now) }
{
    let names = names(rt, alloc, path)?;
    entries_of(rt, alloc, path, names)
}

/// The folders and files of a runtime. Nothing is known of what they hold, so every answer is allowed. The
/// names of a folder are all that its listing has, in the listing's order, except `.` and `..`.
///
/// A link in a folder is not listed as a folder, and is read as the file that it leads to. A path that leads to
/// a pipe, a device or a socket is not opened, and so does not keep a call waiting; opening may wait only where
/// another program puts a pipe at the path after it was looked at. The message of each refusal names the path,
/// that of an entry that cannot be looked at its own, and the cause says why.
#[derive(Drop)]
pub struct RealFolders<'a, R> {
    files: &'a R,
}

impl<'a, R: Files> RealFolders<'a, R> {
    /// Returns the folders and files of this runtime.
    pub fn new(rt: &'a R) -> RealFolders<'a, R>
        ensures { result.files.now ≡ rt.now }
    {
        RealFolders { files: rt }
    }
}

impl<'a, R: Files> Folders for RealFolders<'a, R> {
    ghost use Rattle.rustsec_files.specs.ReadFailures.{IsReadFailure};
    ghost use Rattle.rustsec_files.specs.Allowed.{IsTextOfFile, every_answer};
    ghost use Rattle.rustsec_files.specs.Seen.{AreNamesOfListing};

    ghost allowed = { λ _. every_answer };

    ghost refuses = { λ _ path e. IsReadFailure path e };

    ghost listed = { AreNamesOfListing R.Dir.remaining };

    ghost opened = { IsTextOfFile R.File.remaining };

    fn list(&mut self, alloc: Global, path: &str) -> Result<Items<FolderEntry>>
        ensures ok { IfOk result (λ entries. every_answer.lists path.now (Some entries)) }
        ensures err { IfErr result (IsRefusal ErrorKind.Io (every_answer.lists path.now None)) }
        ensures same { AllowSame every_answer every_answer }
        ensures listed { IfOk result (λ entries. AreNamesOfListing R.Dir.remaining (names_of entries)) }
        ensures names { IfErr result (IsListFailure path.now) }
    {
        entries(self.files, alloc, path)
    }

    // Without asking the system about each entry.
    fn names(&mut self, alloc: Global, path: &str) -> Result<Items<Text>>
        ensures ok { IfOk result (AreNames every_answer path.now) }
        ensures err { IfErr result (IsRefusal ErrorKind.Io (every_answer.lists path.now None)) }
        ensures same { AllowSame every_answer every_answer }
        ensures listed { IfOk result (AreNamesOfListing R.Dir.remaining) }
        ensures names { IfErr result (IsReadFailure path.now) }
    {
        names(self.files, alloc, path)
    }

    fn read(&mut self, alloc: Global, path: &str) -> Result<Text>
        ensures ok { IfOk result (λ text. every_answer.reads path.now (Some text)) }
        ensures err { IfErr result (IsRefusal ErrorKind.Io (every_answer.reads path.now None)) }
        ensures same { AllowSame every_answer every_answer }
        ensures refused { IfErr result (IsReadFailure path.now) }
        ensures opened { IfOk result (IsTextOfFile R.File.remaining) }
    {
        let text = reading::text_of_file(self.files, alloc, path)?;
        Ok(Text::from(text))
    }
}
