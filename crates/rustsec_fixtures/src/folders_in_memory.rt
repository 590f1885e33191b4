//! Folders in memory: a table of paths, with one answer for each path; a call can be made to fail.

ghost use Rattle.std.specs.Option.{option_copied};
ghost use Rattle.std.specs.Prelude.{◌≡◌, ◌≢◌, IfErr, IfOk, None, Some, map, true};
ghost use Rattle.rustsec_files.specs.Allowed.{AllowSame, AnswersOnce};
ghost use Rattle.rustsec_values.specs.Failure.{IsMemory, IsOfKind, IsRefusal};
ghost use Rattle.rustsec_fixtures.specs.FoldersInMemory.{IsHeld, answers_of, entry_of, held_at, listed, read};

use rustsec_files::{FolderEntry, Folders};
use rustsec_values::{Error, ErrorKind, Items, Result, Text};
use std::alloc::{AllocError, Global};

/// The contents of a path: a folder with these entries, each a folder or not, or a file with this text.
#[derive(Clone, Copy)]
pub enum Holds<'a> {
    Entries(&'a [(&'a str, bool)]),
    Text(&'a str),
}

/// The contents of some paths. All others are missing.
pub type Paths<'a> = &'a [(&'a str, Holds<'a>)];

/// Which call fails, and with which kind. Calls count from 1, so none fails at 0.
#[derive(Clone, Copy)]
pub struct Failing {
    pub at: u64,
    pub kind: ErrorKind,
}

/// Folders in memory.
#[derive(Drop)]
pub struct MemoryFolders<'a> {
    paths: Paths<'a>,
    later: Paths<'a>,
    turns_at: u64,
    calls: u64,
    failing: Failing,
}

impl<'a> MemoryFolders<'a> {
    /// Returns folders with these contents.
    #[tactic(auto, using(crate::proofs::FoldersInMemory::answers_once))]
    pub fn new(paths: Paths<'a>, failing: Failing) -> MemoryFolders<'a>
        ensures once { failing.at ≡ 0 → AnswersOnce (answers_of result) }
    {
        MemoryFolders {
            paths,
            later: paths,
            turns_at: 0,
            calls: 0,
            failing,
        }
    }

    /// Returns folders with these contents, and from a call on with others. No call fails.
    pub fn turning(paths: Paths<'a>, later: Paths<'a>, turns_at: u64) -> MemoryFolders<'a> {
        MemoryFolders {
            paths,
            later,
            turns_at,
            calls: 0,
            failing: Failing {
                at: 0,
                kind: ErrorKind::Io,
            },
        }
    }

    /// Returns the contents of a path at the call that is made now.
    fn held_now(&self, path: &str) -> Option<&'a Holds<'a>>
        ensures { IsHeld self.now path.now (option_copied result) }
    {
        if self.turns_at != 0 && self.calls >= self.turns_at {
            held_at(self.later, path)
        } else {
            held_at(self.paths, path)
        }
    }

    /// Returns whether the call that is made now fails.
    fn fails_now(&mut self) -> bool
        ensures fails { result ≡ true → self.new.failing.at ≢ 0 }
        ensures same { AllowSame (answers_of self.old) (answers_of self.new) }
    {
        self.calls = self.calls.saturating_add(1);
        self.calls == self.failing.at
    }
}

/// Returns the contents of a path.
fn held_at<'a>(paths: Paths<'a>, path: &str) -> Option<&'a Holds<'a>>
    ensures { option_copied result ≡ held_at paths.now path.now }
{
    for row in paths {
        let (at, holds) = row;
        if *at == path {
            return Some(holds);
        }
    }
    None
}

/// Returns the failure of a call: out of memory, or else an I/O error.
fn call_error(alloc: Global, kind: ErrorKind) -> Error
    ensures { IsOfKind ErrorKind.Io result }
{
    if kind == ErrorKind::OutOfMemory {
        return Error::from(AllocError);
    }
    Error::new(alloc, ErrorKind::Io, "the folders fail")
}

/// Returns an entry with a name.
fn entry(alloc: Global, name: &str, folder: bool) -> Result<FolderEntry>
    ensures ok { IfOk result (λ e. e ≡ record { name = name.now; folder = folder }) }
    ensures err { IfErr result IsMemory }
{
    let name = Text::from_str(alloc, name)?;
    Ok(FolderEntry { name, folder })
}

/// Returns the entries of rows.
fn entries(alloc: Global, rows: &[(&str, bool)]) -> Result<Items<FolderEntry>>
    ensures ok { IfOk result (λ entries. entries ≡ map entry_of rows.now) }
    ensures err { IfErr result IsMemory }
{
    let mut entries = Items::new(alloc);
    for row in rows {
        let entry = entry(alloc, row.0, row.1)?;
        entries.push(entry)?;
    }
    Ok(entries)
}

/// Returns the answer to a listing of a path with these contents.
fn listed(alloc: Global, held: Option<&Holds<'_>>) -> Result<Items<FolderEntry>>
    ensures ok { IfOk result (λ entries. listed (option_copied held.entry) ≡ Some entries) }
    ensures err { IfErr result (IsRefusal ErrorKind.Io (listed (option_copied held.entry) ≡ None)) }
{
    match held {
        Some(Holds::Entries(rows)) => entries(alloc, rows),
        _ => Err(call_error(alloc, ErrorKind::Io)),
    }
}

/// Returns the answer to a reading of a path with these contents.
fn read(alloc: Global, held: Option<&Holds<'_>>) -> Result<Text>
    ensures ok { IfOk result (λ text. read (option_copied held.entry) ≡ Some text) }
    ensures err { IfErr result (IsRefusal ErrorKind.Io (read (option_copied held.entry) ≡ None)) }
{
    match held {
        Some(Holds::Text(text)) => Ok(Text::from_str(alloc, text)?),
        _ => Err(call_error(alloc, ErrorKind::Io)),
    }
}

impl<'a> Folders for MemoryFolders<'a> {
    ghost use Rattle.rustsec_fixtures.specs.FoldersInMemory.{answers_of};

    ghost allowed = { answers_of };

    fn list(&mut self, alloc: Global, path: &str) -> Result<Items<FolderEntry>> {
        if self.fails_now() {
            return Err(call_error(alloc, self.failing.kind));
        }
        listed(alloc, self.held_now(path))
    }

    fn read(&mut self, alloc: Global, path: &str) -> Result<Text> {
        if self.fails_now() {
            return Err(call_error(alloc, self.failing.kind));
        }
        read(alloc, self.held_now(path))
    }
}
