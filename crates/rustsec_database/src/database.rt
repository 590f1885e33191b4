//! The database: advisories loaded from files, with indexes by ID and by package.

ghost use Rattle.std.specs.Prelude.{◌≡◌, ◌++◌, ◌⊎◌, ◌<◌, ◌^◌, ℕ, IfErr, IfOk, IfSome, List, OnOk, Some, length, map, nat_eq, option_map, true};
ghost use Rattle.std.specs.Cmp.Lexicographic.{pointwise};
ghost use Rattle.std.specs.Iterator.Adapters.{IterYieldsInOrder};
ghost use Rattle.std.specs.List.{All, filter, find};
ghost use Rattle.std.specs.Option.{option_copied};
ghost use Rattle.std.specs.Slice.Iter.{iter_rest};
ghost use Rattle.semver.specs.Identifiers.{parts_of};
ghost use Rattle.rustsec_values.specs.Failure.{IsMemory};
ghost use Rattle.rustsec_versions.specs.acceptance.Lists.{affected};
ghost use Rattle.rustsec_advisory.specs.declared.advisory.Advisory as given;
ghost use Rattle.rustsec_database.specs.Pairs.{as_vulnerability, is_audited, pairs, pairs_of};
ghost use Rattle.rustsec_database.specs.Query.{crate_scope, of_package};
ghost use Rattle.rustsec_database.specs.Selects.{if_there, selects};
ghost use Rattle.rustsec_database.specs.Loaded.{AreLoaded, IsFirstFault, IsOnlyWithId, has_id};

use crate::entries::Entries;
use crate::name_index::NameIndex;
use crate::pair::{Pair, push_pairs, vulnerabilities_of};
use crate::posting::digest;
use crate::{Matches, MatchesPackage, Query, Vulnerability};
use rustsec_advisory::Advisory;
use rustsec_files::SourceFile;
use rustsec_lock::Lockfile;
use rustsec_lock::package::{Name, Package};
use rustsec_texts::Id;
use rustsec_values::{Predicate, Result};
use semver::Version;
use std::alloc::{AllocError, Global};
use std::marker::Model;
use std::{slice, vec};

/// An iterator over the advisories of a database, in the order in which they were loaded.
pub type Iter<'a> = slice::Iter<'a, Advisory>;

/// The advisories of a database, with indexes that find them by ID and by package.
#[derive(Debug, Drop)]
pub struct Database {
    entries: Entries,
    index: NameIndex,
}

impl Model for Database {
    ghost use Rattle.std.specs.Prelude.{List};
    ghost use Rattle.rustsec_advisory.specs.declared.advisory.Advisory as given;
    ghost use Rattle.rustsec_database.specs.Postings.{IsIndexOf};

    ghost Value = { List given.Advisory };

    ghost view = { λ d. d.entries };

    ghost invariant = { λ d. IsIndexOf d.entries d.index };
}

/// Returns the advisories that pass a test, in the order in which they were loaded.
fn all_matching<'a, T: Predicate<Advisory>>(
    alloc: Global,
    entries: &'a Entries,
    test: &T,
) -> std::result::Result<Vec<&'a Advisory>, AllocError>
    ensures { IfOk result (λ v. map (λ a. a.now) v.items ≡ filter (T.holds test.now) entries.now) }
{
    entries
        .as_slice()
        .iter()
        .filter(|advisory| test.holds(advisory))
        .collect(alloc)
}

/// Returns whether a package is audited: whether its source is one of the two default registries.
fn is_audited(package: &Package) -> bool
    ensures { result ≡ is_audited «package».now }
{
    match &package.source {
        Some(source) => source.is_default_registry(),
        None => false,
    }
}

impl Database {
    /// Returns the database of some entries. All are indexed here, so that the entries of an index are side by side in memory.
    ///
    /// # Errors
    ///
    /// `OutOfMemory` alone.
    pub(crate) fn of(alloc: Global, entries: Entries) -> Result<Database>
        ensures ok { IfOk result (λ d. d ≡ entries) }
        ensures err { IfErr result IsMemory }
    {
        let index = NameIndex::of(alloc, entries.as_slice())?;
        Ok(Database { entries, index })
    }

    /// Loads the database of some files. Advisories whose ID is the placeholder are left out.
    ///
    /// # Errors
    ///
    /// The refusal of the first file that `Entries::load_text` refuses after the files before it are
    /// loaded; else `OutOfMemory`.
    pub fn load(alloc: Global, files: &[SourceFile]) -> Result<Database>
        ensures ok { IfOk result (AreLoaded files.now) }

        // There is no other such list, and none at all if a file is at fault.
        ensures only { IfOk result (λ d. (other : List given.Advisory) → AreLoaded files.now other → other ≡ d) }
        ensures err { IfErr result (λ e. IsFirstFault files.now e ⊎ IsMemory e) }
        ensures none { IfErr result (λ e. ((other : List given.Advisory) → ¬ AreLoaded files.now other) ⊎ IsMemory e) }
    {
        let mut entries = Entries::new(alloc);
        for file in files {
            entries = entries.with_file(alloc, file.path.as_str(), file.text.as_str())?;
        }
        let database = Database::of(alloc, entries)?;
        Ok(database)
    }

    /// Returns the advisory with an ID, or `None` if no advisory has it.
    pub fn get(&self, id: &Id) -> Option<&Advisory>
        ensures found { option_copied result ≡ find (has_id id.now) self.now }
        ensures only { IfSome result (λ a. IsOnlyWithId id.now self.now a.now) }
    {
        self.entries.find_by_id(id)
    }

    /// Returns an iterator over the advisories, in the order in which they were loaded.
    pub fn iter(&self) -> Iter<'_>
        ensures rest { iter_rest result ≡ self.now }
        ensures bound { length (iter_rest result) < 2 ^ 64 }
        ensures runs { IterYieldsInOrder Advisory }
    {
        self.entries.iter()
    }

    /// Uses the index to find the advisories that pass a test, in the order in which they were loaded. Only advisories of
    /// this package name that affect this version, if any, may pass the test. An advisory is read only if its posting has
    /// the digest of the name, and a span that holds the version.
    fn indexed<T: Predicate<Advisory>>(
        &self,
        alloc: Global,
        name: &Name,
        version: Option<&Version>,
        test: &T,
    ) -> std::result::Result<Vec<&Advisory>, AllocError>
        requires named { (a : given.Advisory) → T.holds test.now a ≡ true → pointwise nat_eq name.now a.metadata.«package» ≡ true }
        requires affects { (a : given.Advisory) → T.holds test.now a ≡ true
            → if_there (affected a.versions) (option_map (λ v. parts_of v.now) version) ≡ true }
        ensures { IfOk result (λ v. map (λ a. a.now) v.items ≡ filter (T.holds test.now) self.now) }
    {
        let digest = digest(name);
        let postings = self.index.postings(digest);
        let mut found = Vec::new(alloc);
        for posting in postings {
            if posting.is_near(digest, version) {
                if let Some(advisory) = self.entries.get(posting.slot()) {
                    if test.holds(advisory) {
                        found.push(advisory)?;
                    }
                }
            }
        }
        Ok(found)
    }

    /// Returns the advisories that match a query, in the order in which they were loaded. If the query asks
    /// for a name, only the advisories of that name are looked at.
    ///
    /// # Errors
    ///
    /// `OutOfMemory` alone.
    pub fn query(&self, alloc: Global, query: &Query) -> Result<Vec<&Advisory>>
        ensures ok { IfOk result (λ v. map (λ a. a.now) v.items ≡ filter (selects query.now) self.now) }
        ensures err { IfErr result IsMemory }
    {
        if let Some(name) = query.asked_name() {
            let version = query.asked_version();
            let found = self.indexed(alloc, name, version, &Matches { query })?;
            return Ok(found);
        }
        let found = all_matching(alloc, &self.entries, &Matches { query })?;
        Ok(found)
    }

    /// Returns the advisories that a query selects with the name, the version and the source of a package, whichever
    /// those of the query are; in the order in which they were loaded. The query and the package are not copied.
    ///
    /// # Errors
    ///
    /// Out of memory.
    pub fn query_of_package(
        &self,
        alloc: Global,
        query: &Query,
        package: &Package,
    ) -> std::result::Result<Vec<&Advisory>, AllocError>
        ensures { IfOk result (λ v. map (λ a. a.now) v.items ≡ filter (selects (of_package query.now «package».now)) self.now) }
    {
        let test = MatchesPackage { query, package };
        self.indexed(alloc, &package.name, Some(&package.version), &test)
    }

    /// Appends one pair for each advisory that a query finds for a package. A package that is not audited adds
    /// none.
    fn query_package<'a>(
        &'a self,
        alloc: Global,
        query: &Query,
        package: &'a Package,
        pairs: &mut Vec<Pair<'a>>,
    ) -> std::result::Result<(), AllocError>
        ensures { OnOk result (pairs.new.items ≡ pairs.old.items ++ pairs_of self.now query.now «package».now) }
    {
        if !is_audited(package) {
            return Ok(());
        }
        let found = self.query_of_package(alloc, query, package)?;
        push_pairs(package, &found, pairs)
    }

    /// Returns the pairs of a package of a lockfile and an advisory that a query finds for it, without copies of
    /// either. They are in the lockfile's order of packages, then in the order in which the advisories were loaded. A
    /// package is looked at only if its source is one of the two default registries. The query takes its name, version
    /// and source from the package.
    ///
    /// # Errors
    ///
    /// `OutOfMemory` alone.
    pub fn query_pairs<'a>(
        &'a self,
        alloc: Global,
        lockfile: &'a Lockfile,
        query: &Query,
    ) -> Result<Vec<Pair<'a>>>
        ensures ok { IfOk result (λ v. v.items ≡ pairs self.now lockfile.now.packages query.now) }
        ensures err { IfErr result IsMemory }
    {
        let mut pairs = Vec::new(alloc);
        for package in lockfile.packages.as_slice() {
            self.query_package(alloc, query, package, &mut pairs)?;
        }
        Ok(pairs)
    }

    /// Returns one vulnerability for each pair that `query_pairs` finds, in its order. Each has copies of its package
    /// and of its advisory.
    ///
    /// # Errors
    ///
    /// `OutOfMemory` alone.
    pub fn query_vulnerabilities(
        &self,
        alloc: Global,
        lockfile: &Lockfile,
        query: &Query,
    ) -> Result<Vec<Vulnerability>>
        ensures ok { IfOk result (λ v. v.items ≡ map as_vulnerability (pairs self.now lockfile.now.packages query.now)) }
        ensures err { IfErr result IsMemory }
    {
        let pairs = self.query_pairs(alloc, lockfile, query)?;
        let found = vulnerabilities_of(alloc, &pairs)?;
        Ok(Vec::from(found))
    }

    /// Returns the vulnerabilities that `query_vulnerabilities` finds in a lockfile for
    /// `Query::crate_scope`.
    ///
    /// # Errors
    ///
    /// `OutOfMemory` alone.
    pub fn vulnerabilities(&self, alloc: Global, lockfile: &Lockfile) -> Result<Vec<Vulnerability>>
        ensures ok { IfOk result (λ v. v.items ≡ map as_vulnerability (pairs self.now lockfile.now.packages crate_scope)) }
        ensures err { IfErr result IsMemory }
    {
        self.query_vulnerabilities(alloc, lockfile, &Query::crate_scope(alloc))
    }
}

impl IntoIterator for Database {
    type Item = Advisory;

    type IntoIter = vec::IntoIter<Advisory>;

    ghost use Rattle.std.specs.Prelude.{◌≡◌, ◌^◌, ◌<◌, ℕ};
    ghost use Rattle.std.specs.Global.{Global};
    ghost use Rattle.std.specs.Iterator.Runs.{EveryRun, ItemsAre};
    ghost use Rattle.rustsec_advisory.specs.declared.advisory.Advisory as given;
    ghost use Rattle.std.specs.Vec.Iter.{into_iter_items, into_iter_len, into_iter_steps};

    ghost into_iter_gives = { λ d it. (into_iter_items it ≡ d) × (into_iter_len it < 2 ^ 64)
        × EveryRun (into_iter_steps {X = given.Advisory} {Z = Global}) (λ p. ItemsAre p (into_iter_items p.from)) };

    /// Returns an iterator over the advisories by value, in the order in which they were loaded.
    fn into_iter(self) -> vec::IntoIter<Advisory> {
        let Database { entries, index: _ } = self;
        entries.into_iter()
    }
}
