//! Lints the files under a root, and finds the IDs that occur twice.

ghost use Rattle.std.specs.Prelude.{◌≡◌, ◌++◌, ◌∷◌, [], IfErr, IfOk, List, None, OnOk, map};
ghost use Rattle.rustsec_files.specs.Allowed.{AllowSame};
ghost use Rattle.rustsec_files.specs.Listed.{Paths};
ghost use Rattle.rustsec_values.specs.Failure.{IsRefusal};
ghost use Rattle.rustsec_lint_database.specs.Entries.{AreEntries, AreLintedAt, first_with};
ghost use Rattle.rustsec_lint_database.specs.Files.{IsLintAt};
ghost use Rattle.rustsec_lint_database.specs.Firsts.{AreFirsts, IsAdded, file_of, path_at};
ghost use Rattle.rustsec_lint_database.specs.declared.file.FileLint.{FileLint};

use crate::file::{FileLint, FileNotes, lint_file};
use crate::lines::{KeyIn, after_line};
use rustsec_files::{Folders, source_paths};
use rustsec_texts::Id;
use rustsec_values::{ErrorKind, Items, Result, Text, exact_copy};
use std::alloc::{AllocError, Global};
use std::collections::BTreeMap;

/// A file of a database with its remarks.
#[derive(Debug, Drop)]
pub struct Entry {
    /// The file with its remarks.
    pub file: FileLint,
    /// The path of the first file before it that has its ID, if any.
    pub first: Option<Text>,
}

/// A file that was linted, among all files.
#[derive(Clone, Copy)]
pub struct Step<'a> {
    /// How many files are linted.
    pub done: usize,
    /// How many files there are.
    pub all: usize,
    /// The path of the last file that was linted.
    pub path: &'a str,
    /// The notes on that file.
    pub notes: &'a FileNotes,
}

/// Someone who is told after each file how far the files are linted.
pub trait Watcher {
    /// Takes note of one more file.
    fn linted(&mut self, step: Step<'_>);
}

/// The files that are linted, and for each ID the index of the first file that has it.
#[derive(Drop)]
struct Linting {
    entries: Items<Entry>,
    firsts: BTreeMap<Id, usize>,
}

/// Returns the path of the file of the entry at an index, if any.
fn path_at(entries: &[Entry], index: usize) -> std::result::Result<Option<Text>, AllocError>
    ensures { IfOk result (λ o. o ≡ path_at entries.now index) }
{
    match entries.get(index) {
        Some(entry) => Ok(Some(exact_copy(&entry.file.path)?)),
        None => Ok(None),
    }
}

impl Linting {
    /// Returns the path of the first file that has the ID of a file, if any. If there is none, keeps
    /// the index that the file gets.
    fn first_with(&mut self, file: &FileLint) -> std::result::Result<Option<Text>, AllocError>
        requires { AreFirsts self.old.firsts (map file_of self.old.entries) }
        ensures first { IfOk result (λ o. o ≡ first_with file.now.id (map file_of self.old.entries)) }
        ensures entries { OnOk result (self.new.entries ≡ self.old.entries) }
        ensures firsts { OnOk result (AreFirsts self.new.firsts (map file_of self.old.entries ++ file.now ∷ [])) }
    {
        let Some(id) = &file.id else {
            return Ok(None);
        };
        let key = exact_copy(id)?;
        let index = self.entries.len();
        let Some(first) = self.firsts.insert(key, index)? else {
            return Ok(None);
        };
        // Few IDs occur twice. The table gets its index back.
        let key = exact_copy(id)?;
        self.firsts.insert(key, first)?;
        path_at(self.entries.as_slice(), first)
    }

    /// Appends a file, with the path of the first file that has its ID.
    fn add(&mut self, file: FileLint) -> std::result::Result<(), AllocError>
        requires { AreFirsts self.old.firsts (map file_of self.old.entries) }
        ensures { OnOk result (IsAdded file self.old.entries self.new.entries self.new.firsts) }
    {
        let first = self.first_with(&file)?;
        self.entries.push(Entry { file, first })
    }

    /// Appends to the notes on the last file, which has this text, that an earlier one has its ID, if so, after the line
    /// of the ID.
    fn note_first(
        &self,
        alloc: Global,
        text: &Option<Text>,
        notes: &mut FileNotes,
    ) -> std::result::Result<(), AllocError> {
        let (Some(entry), Some(text)) = (self.entries.as_slice().last(), text) else {
            return Ok(());
        };
        let Some(first) = &entry.first else {
            return Ok(());
        };
        let path = first.as_str();
        let words = format!(in alloc; "the ID is that of {path}")?;
        let line = KeyIn::advisory(text.as_str(), "id").line(alloc)?;
        notes.words.push(after_line(alloc, line, &words)?)
    }
}

/// Lints the file at a path after others, and returns the notes on it.
fn lint_next<F: Folders>(
    alloc: Global,
    folders: &mut F,
    linting: &mut Linting,
    path: &str,
) -> std::result::Result<FileNotes, AllocError>
    requires { AreFirsts linting.old.firsts (map file_of linting.old.entries) }
    ensures ok { OnOk result ((f : FileLint) × (IsLintAt (F.allowed folders.old) path.now f
        × IsAdded f linting.old.entries linting.new.entries linting.new.firsts)) }
    ensures same { AllowSame (F.allowed folders.old) (F.allowed folders.new) }
{
    let linted = lint_file(alloc, folders, path)?;
    let mut notes = linted.notes;
    linting.add(linted.lint)?;
    linting.note_first(alloc, &linted.text, &mut notes)?;
    Ok(notes)
}

/// Lints the files at some paths. One text is held at a time.
fn lint_paths<F: Folders, W: Watcher>(
    alloc: Global,
    folders: &mut F,
    paths: &[Text],
    watcher: &mut W,
) -> std::result::Result<Items<Entry>, AllocError>
    ensures ok { IfOk result (AreLintedAt (F.allowed folders.old) paths.now) }
    ensures same { AllowSame (F.allowed folders.old) (F.allowed folders.new) }
{
    let mut linting = Linting {
        entries: Items::new(alloc),
        firsts: BTreeMap::new(alloc),
    };
    for path in paths {
        let notes = lint_next(alloc, folders, &mut linting, path.as_str())?;
        watcher.linted(Step {
            done: linting.entries.len(),
            all: paths.len(),
            path: path.as_str(),
            notes: &notes,
        });
    }
    Ok(linting.entries)
}

/// Lints the files under a root: those of `crates` and after them those of `rust`, in the order of their folders' names
/// and then of their own. Nothing that is wrong with a file stops the rest. All folders are listed first; then each file
/// is read and linted, and its text is dropped. The watcher is told after each file.
///
/// # Errors
///
/// `Io` if `crates` or a package's folder cannot be listed; else `OutOfMemory`.
pub fn lint_database<F: Folders, W: Watcher>(
    alloc: Global,
    folders: &mut F,
    root: &str,
    watcher: &mut W,
) -> Result<Items<Entry>>
    ensures ok { IfOk result (AreEntries (F.allowed folders.old) root.now) }
    ensures err { IfErr result (IsRefusal ErrorKind.Io (Paths (F.allowed folders.old) root.now None)) }
    ensures same { AllowSame (F.allowed folders.old) (F.allowed folders.new) }
{
    let paths = source_paths(alloc, folders, root)?;
    let entries = lint_paths(alloc, folders, paths.as_slice(), watcher)?;
    Ok(entries)
}
