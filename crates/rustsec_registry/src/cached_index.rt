//! A look-up that keeps its answers.

ghost use Rattle.std.specs.Prelude.{◌≡◌, [], IfErr, IfOk, List, OnOk, map};
ghost use Rattle.rustsec_values.specs.Failure.{IsMemory};
ghost use Rattle.rustsec_lock.specs.Package.{PackageValue};
ghost use Rattle.rustsec_registry.specs.Lookups.{AreAnswers};
ghost use Rattle.rustsec_registry.specs.Packages.{AreDistinctPackages};
ghost use Rattle.rustsec_registry.specs.Yanked.{AreKept, Grows, seen, yanked_answers};

use crate::cache_entry::{CacheEntry, ask_all};
use crate::distinct::distinct;
use crate::lookup::Lookup;
use crate::yanked_status::verdicts;
use rustsec_lock::package::{Name, Package};
use rustsec_values::{Error, Result, SortedMap};
use std::alloc::Global;
use std::marker::Model;

/// A look-up with its answers, at most one for each name. The first answer for a name is kept for good.
#[derive(Debug, Drop)]
pub struct CachedIndex<I: Lookup> {
    index: I,
    kept: SortedMap<Name, CacheEntry>,
}

impl<I: Lookup> Model for CachedIndex<I> {
    ghost use Rattle.rustsec_registry.specs.Lookups.{AreAnswers, Cached};

    ghost Value = { Cached I };

    ghost view = { λ c. record { index = c.index; kept = c.kept } };

    ghost invariant = { λ c. AreAnswers (I.answers c.index) c.kept };
}

/// Finds yanked packages as `find_yanked` does, over a look-up and its kept answers.
fn find<'a, I: Lookup>(
    alloc: Global,
    index: &I,
    kept: &mut SortedMap<Name, CacheEntry>,
    packages: &'a [Package],
) -> Result<Vec<std::result::Result<&'a Package, Error>>>
    ensures ok { IfOk result (λ v. (distinct : List PackageValue) × AreDistinctPackages packages.now distinct
        × (map seen v.items ≡ yanked_answers kept.new distinct)) }
    ensures asked { OnOk result (AreKept packages.now kept.new) }
    ensures grown { Grows packages.now kept.old kept.new }
    ensures given { AreAnswers (I.answers index.now) kept.old → AreAnswers (I.answers index.now) kept.new }
    ensures err { IfErr result IsMemory }
{
    let distinct = distinct(alloc, packages)?;
    ask_all(alloc, index, kept, &distinct)?;
    verdicts(alloc, kept, &distinct)
}

impl<I: Lookup> CachedIndex<I> {
    /// Returns a look-up without kept answers.
    pub fn new(alloc: Global, index: I) -> CachedIndex<I>
        ensures index { result.index ≡ index }
        ensures none { result.kept ≡ [] }
    {
        CachedIndex {
            index,
            kept: SortedMap::new(alloc),
        }
    }

    /// Returns which of some packages are yanked: for each distinct package, in their order, the package itself if
    /// it is yanked, nothing if it is not, `NotFound` if the registry has no such name or version, and the
    /// look-up's error if that was its answer. For a version that is listed twice the last entry counts.
    ///
    /// Each name is looked up once, and its answer is kept for good.
    ///
    /// # Errors
    ///
    /// `OutOfMemory` alone, also if the look-up answers that. The kept answers stay, and
    /// so do those that came before the error.
    pub fn find_yanked<'a>(
        &mut self,
        alloc: Global,
        packages: &'a [Package],
    ) -> Result<Vec<std::result::Result<&'a Package, Error>>>
        ensures ok { IfOk result (λ v. (distinct : List PackageValue) × AreDistinctPackages packages.now distinct
            × (map seen v.items ≡ yanked_answers self.new.kept distinct)) }
        ensures asked { OnOk result (AreKept packages.now self.new.kept) }

        // Even if the call fails, no kept answer is changed, and a new one is for a name of the packages.
        ensures grown { Grows packages.now self.old.kept self.new.kept }

        // Each kept answer is one that the look-up may give for its name.
        ensures given { AreAnswers (I.answers self.new.index) self.new.kept }
        ensures index { self.new.index ≡ self.old.index }
        ensures err { IfErr result IsMemory }
    {
        find(alloc, &self.index, &mut self.kept, packages)
    }
}
