//! Loads the files under a root, and keeps the advisories that pass a test, beside the IDs and the latest date of all.

ghost use Rattle.std.specs.Prelude.{◌≡◌, ◌++◌, ◌∷◌, ◌+◌, ◌||◌, ◌⊎◌, [], false, if◌then◌else◌, not, IfErr, IfOk, List, None, OnOk, length};
ghost use Rattle.std.specs.List.{list_any};
ghost use Rattle.rustsec_values.specs.Failure.{IsMemory};
ghost use Rattle.rustsec_files.specs.Allowed.{AllowSame, read_from};
ghost use Rattle.rustsec_files.specs.declared.source_file.SourceFile.{SourceFile};
ghost use Rattle.rustsec_texts.specs.IdOrder.{id_eq};
ghost use Rattle.rustsec_texts.specs.Ids.{IdValue};
ghost use Rattle.rustsec_advisory.specs.declared.advisory.Advisory as given;
ghost use Rattle.rustsec_database.specs.Kept.{IsKept, IsKeptLoadOf, IsKeptWith};
ghost use Rattle.rustsec_database.specs.Latest.{later};
ghost use Rattle.rustsec_database.specs.Loaded.{IsAtFault, IsFault, is_known};
ghost use Rattle.rustsec_database.specs.Opened.{AreRead, IsReadRefusal};

use crate::entries::{Entries, duplicate_error};
use crate::placement::load_placed;
use rustsec_advisory::Advisory;
use rustsec_files::Folders;
use rustsec_texts::{Date, Id};
use rustsec_values::{Items, Predicate, Result, Text, exact_copy, file_error};
use std::alloc::{AllocError, Global};
use std::collections::HashSet;
use std::marker::Model;

/// Puts an ID among some. Returns whether it is new.
fn add_id(ids: &mut HashSet<Id>, id: &Id) -> std::result::Result<bool, AllocError>
    ensures fresh { IfOk result (λ fresh. fresh ≡ not (list_any (id_eq id.now) ids.old.keys)) }
    ensures among { OnOk result ((q : IdValue) → list_any (id_eq q) ids.new.keys ≡ (list_any (id_eq q) ids.old.keys || id_eq q id.now)) }
    ensures number { IfOk result (λ fresh. length ids.new.keys ≡ length ids.old.keys + (if fresh then 1 else 0)) }
{
    let id = exact_copy(id)?;
    let fresh = ids.insert(id)?;
    Ok(fresh)
}

/// Returns the later of a date, if any, and another one.
fn later(latest: Option<Date>, date: &Date) -> std::result::Result<Option<Date>, AllocError>
    ensures { IfOk result (λ d. d ≡ later latest date.now) }
{
    match latest {
        Some(other) if *date <= other => Ok(Some(other)),
        _ => {
            let date = exact_copy(date)?;
            Ok(Some(date))
        }
    }
}

/// Stores an advisory if it passes a test. No stored one has its ID.
fn store_if<T: Predicate<Advisory>>(
    alloc: Global,
    entries: Entries,
    advisory: Advisory,
    test: &T,
) -> Result<Entries>
    requires { is_known entries advisory ≡ false }
    ensures ok { IfOk result (λ more. more ≡ (if T.holds test.now advisory then entries ++ advisory ∷ [] else entries)) }
    ensures err { IfErr result IsMemory }
{
    if test.holds(&advisory) {
        entries.with_advisory(alloc, advisory)
    } else {
        Ok(entries)
    }
}

/// What is kept of the files so far: the advisories that pass a test, beside the IDs and the latest date of all.
#[derive(Drop)]
pub(crate) struct Keeping {
    pub(crate) entries: Entries,
    pub(crate) ids: HashSet<Id>,
    pub(crate) last_date: Option<Date>,
}

impl Model for Keeping {
    ghost use Rattle.rustsec_database.specs.Kept.{HaveIdsAmong, KeptValue};

    ghost Value = { KeptValue };

    ghost view = { λ k. record { advisories = k.entries; ids = k.ids.keys; last_date = k.last_date } };

    ghost invariant = { λ k. HaveIdsAmong k.ids.keys k.entries };
}

impl Keeping {
    /// Returns what is kept of no file.
    fn empty(alloc: Global) -> Keeping
        ensures { result ≡ record { advisories = []; ids = []; last_date = None } }
    {
        Keeping {
            entries: Entries::new(alloc),
            ids: HashSet::new(alloc),
            last_date: None,
        }
    }

    /// Adds the advisory of a file, unless its ID is the placeholder: its ID, its date if it is the latest,
    /// and the advisory itself if it passes a test.
    fn added<T: Predicate<Advisory>>(
        self,
        alloc: Global,
        path: &str,
        text: &str,
        test: &T,
    ) -> Result<Keeping>
        ensures ok { IfOk result (λ k. (all : List given.Advisory) → IsKept (T.holds test.now) all self
            → IsKeptWith (T.holds test.now) all path.now text.now k) }
        ensures err { IfErr result (λ e. (all : List given.Advisory) → IsKept (T.holds test.now) all self
            → IsAtFault all path.now text.now e.kind ⊎ IsMemory e) }
    {
        let advisory = load_placed(alloc, path, text)?;
        if advisory.metadata.id.is_placeholder() {
            return Ok(self);
        }
        let Keeping {
            entries,
            mut ids,
            last_date,
        } = self;
        let fresh = add_id(&mut ids, &advisory.metadata.id)?;
        if !fresh {
            return Err(duplicate_error(alloc, &advisory.metadata.id));
        }
        let last_date = later(last_date, &advisory.metadata.date)?;
        let entries = store_if(alloc, entries, advisory, test)?;
        Ok(Keeping {
            entries,
            ids,
            last_date,
        })
    }

    /// Loads one more file, with this path and this text, and returns what is kept.
    fn with_file<T: Predicate<Advisory>>(
        self,
        alloc: Global,
        path: &str,
        text: &str,
        test: &T,
    ) -> Result<Keeping>
        ensures ok { IfOk result (λ k. (all : List given.Advisory) → IsKept (T.holds test.now) all self
            → IsKeptWith (T.holds test.now) all path.now text.now k) }
        ensures err { IfErr result (λ e. (all : List given.Advisory) → IsKept (T.holds test.now) all self
            → IsFault all path.now text.now e) }
    {
        match self.added(alloc, path, text, test) {
            Ok(kept) => Ok(kept),
            Err(e) => Err(file_error(alloc, path, &e)),
        }
    }
}

/// Loads one more file after the files before it. If `before` is an error, that error is returned and
/// the file is not loaded.
fn keep_next<T: Predicate<Advisory>>(
    alloc: Global,
    before: Result<Keeping>,
    path: &str,
    text: &str,
    test: &T,
) -> Result<Keeping>
    ensures { (files : List SourceFile) → IsKeptLoadOf (T.holds test.now) files before
        → IsKeptLoadOf (T.holds test.now) (files ++ record { path = path.now; text = text.now } ∷ []) result }
{
    let kept = before?;
    kept.with_file(alloc, path, text, test)
}

/// Loads the files at some paths. Files after one at fault are read too. One text is held at a time, and a path until its
/// file is loaded.
pub(crate) fn keep_paths<F: Folders, T: Predicate<Advisory>>(
    alloc: Global,
    folders: &mut F,
    paths: Items<Text>,
    test: &T,
) -> Result<Keeping>
    ensures ok { IfOk result (λ k. (all : List given.Advisory) × (AreRead (read_from F.opened (F.allowed folders.old)) paths all × IsKept (T.holds test.now) all k)) }
    ensures err { IfErr result (IsReadRefusal (read_from F.opened (F.allowed folders.old)) paths) }
    ensures same { AllowSame (F.allowed folders.old) (F.allowed folders.new) }
{
    let mut loaded = Ok(Keeping::empty(alloc));
    for path in Vec::from(paths) {
        let text = folders.read(alloc, path.as_str())?;
        loaded = keep_next(alloc, loaded, path.as_str(), text.as_str(), test);
    }
    loaded
}
