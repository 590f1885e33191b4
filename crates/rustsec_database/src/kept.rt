//! The advisories under a root that pass a test, beside the IDs and the latest date of all advisories there.

ghost use Rattle.std.specs.Prelude.{◌≡◌, IfErr, IfOk, MatchResult, length, option_map};
ghost use Rattle.std.specs.List.{list_any};
ghost use Rattle.rustsec_values.specs.Failure.{IsMemory};
ghost use Rattle.rustsec_files.specs.Allowed.{AllowSame};
ghost use Rattle.rustsec_files.specs.Seen.{seen_by};
ghost use Rattle.rustsec_texts.specs.IdOrder.{id_eq};
ghost use Rattle.rustsec_database.specs.Kept.{AreOpenedFor};
ghost use Rattle.rustsec_database.specs.Opened.{IsOpenRefusal};

use crate::database::Database;
use crate::keeping::{Keeping, keep_paths};
use rustsec_advisory::Advisory;
use rustsec_files::{Folders, source_paths};
use rustsec_texts::{Date, Id};
use rustsec_values::{Predicate, Result};
use std::alloc::Global;
use std::collections::HashSet;
use std::marker::Model;

/// A database of the advisories under a root that pass a test, beside the IDs and the latest date of all advisories
/// there.
#[derive(Debug, Drop)]
pub struct KeptDatabase {
    database: Database,
    ids: HashSet<Id>,
    last_date: Option<Date>,
}

impl Model for KeptDatabase {
    ghost use Rattle.rustsec_database.specs.Kept.{HaveIdsAmong, KeptValue};

    ghost Value = { KeptValue };

    ghost view = { λ k. record { advisories = k.database; ids = k.ids.keys; last_date = k.last_date } };

    ghost invariant = { λ k. HaveIdsAmong k.ids.keys k.database };
}

impl KeptDatabase {
    /// Returns the database of what is kept.
    fn of(alloc: Global, keeping: Keeping) -> Result<KeptDatabase>
        ensures ok { IfOk result (λ k. k ≡ keeping) }
        ensures err { IfErr result IsMemory }
    {
        let Keeping {
            entries,
            ids,
            last_date,
        } = keeping;
        let database = Database::of(alloc, entries)?;
        Ok(KeptDatabase {
            database,
            ids,
            last_date,
        })
    }

    /// Returns the advisories that were kept.
    pub fn database(&self) -> &Database
        ensures { result.now ≡ self.now.advisories }
    {
        &self.database
    }

    /// Returns the advisories that were kept, and frees the IDs.
    pub fn into_database(self) -> Database
        ensures { result ≡ self.advisories }
    {
        let KeptDatabase {
            database,
            ids: _,
            last_date: _,
        } = self;
        database
    }

    /// Returns whether an advisory under the root has an ID, also one that was not kept.
    pub fn has_id(&self, id: &Id) -> bool
        ensures { result ≡ list_any (id_eq id.now) self.now.ids }
    {
        self.ids.contains(id)
    }

    /// Returns the number of all advisories under the root.
    pub fn number(&self) -> usize
        ensures { result ≡ length self.now.ids }
    {
        self.ids.len()
    }

    /// Returns the latest date of an advisory under the root, also of one that was not kept.
    pub fn last_date(&self) -> Option<&Date>
        ensures { option_map (λ d. d.now) result ≡ self.now.last_date }
    {
        self.last_date.as_ref()
    }

    /// Opens the files under a root, read through `folders`, as `Database::open_with` does. An advisory that does not
    /// pass a test is dropped as soon as its file was checked. Its ID is kept, and its date if it is the latest.
    ///
    /// # Errors
    ///
    /// As `Database::open_with`.
    pub fn open_with<F: Folders, T: Predicate<Advisory>>(
        alloc: Global,
        folders: &mut F,
        root: &str,
        test: &T,
    ) -> Result<KeptDatabase>
        ensures ok { IfOk result (AreOpenedFor (F.allowed folders.old) root.now (T.holds test.now)) }
        ensures err { IfErr result (IsOpenRefusal (F.allowed folders.old) root.now) }
        ensures same { AllowSame (F.allowed folders.old) (F.allowed folders.new) }
        ensures opened { MatchResult result
            (AreOpenedFor (seen_by F.listed F.opened (F.allowed folders.old)) root.now (T.holds test.now))
            (IsOpenRefusal (seen_by F.listed F.opened (F.allowed folders.old)) root.now) }
    {
        let paths = source_paths(alloc, folders, root)?;
        let keeping = keep_paths(alloc, folders, paths, test)?;
        let kept = KeptDatabase::of(alloc, keeping)?;
        Ok(kept)
    }
}
