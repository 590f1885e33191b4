//! The cache of a registry's answers.

ghost use Rattle.std.specs.Prelude.{◌≡◌, ◌∷◌, [], if◌then◌else◌, ℕ, List, IfErr, IfOk, IsSome, OnErr, OnOk, Some, is_some, map, nat_eq};
ghost use Rattle.std.specs.Cmp.Lexicographic.{pointwise};
ghost use Rattle.std.specs.Option.{option_copied};
ghost use Rattle.rustsec_values.specs.Failure.{IsMemory};
ghost use Rattle.rustsec_registry.specs.Lookups.{AreAnswers, IsKeptOf, at, listed};
ghost use Rattle.rustsec_registry.specs.Yanked.{AreKept, Grows};

use crate::lookup::{IndexVersion, Lookup};
use rustsec_lock::package::{Name, Package};
use rustsec_values::{Error, ErrorKind, Items, Result, SortedMap, Text};
use std::alloc::{AllocError, Global};

/// The cached form of an answer: for each listed version, whether it is yanked.
pub(crate) type CacheEntry = Result<Option<SortedMap<Text, bool>>>;

/// Returns the versions of a list, by their texts. For a version that is listed twice the last entry counts.
fn by_text(
    alloc: Global,
    versions: Items<IndexVersion>,
) -> std::result::Result<SortedMap<Text, bool>, AllocError>
    ensures { IfOk result (λ m. (text : List ℕ) → at text m ≡ listed text versions) }
{
    let mut entries = SortedMap::new(alloc);
    for entry in Vec::from(versions) {
        let IndexVersion { version, yanked } = entry;
        entries.insert(version, yanked)?;
    }
    Ok(entries)
}

/// Returns the cached form of an answer.
fn kept_of(alloc: Global, answer: Result<Option<Items<IndexVersion>>>) -> Result<CacheEntry>
    ensures ok { IfOk result (IsKeptOf answer) }
    ensures err { IfErr result IsMemory }
{
    match answer {
        Ok(Some(versions)) => {
            let entries = by_text(alloc, versions)?;
            Ok(Ok(Some(entries)))
        }
        Ok(None) => Ok(Ok(None)),
        Err(e) => {
            if e.kind() == ErrorKind::OutOfMemory {
                return Err(Error::from(AllocError));
            }
            Ok(Err(e))
        }
    }
}

/// Returns the cached answer for a name, if any.
pub(crate) fn at_name<'a>(
    kept: &'a SortedMap<Name, CacheEntry>,
    name: &Name,
) -> Option<&'a CacheEntry>
    ensures { option_copied result ≡ at name.now kept.now }
{
    kept.get(name)
}

/// Returns whether an answer is cached for a name.
fn is_kept(kept: &SortedMap<Name, CacheEntry>, name: &Name) -> bool
    ensures { result ≡ is_some (at name.now kept.now) }
{
    match at_name(kept, name) {
        Some(_) => true,
        None => false,
    }
}

/// Caches an answer for a name, or changes nothing.
fn keep(
    kept: &mut SortedMap<Name, CacheEntry>,
    name: Name,
    answer: CacheEntry,
) -> std::result::Result<(), AllocError>
    ensures ok { OnOk result ((q : List ℕ) → at q kept.new ≡ (if pointwise nat_eq q name then Some answer else at q kept.old)) }
    ensures err { OnErr result (kept.new ≡ kept.old) }
{
    kept.insert(name, answer)
}

/// Looks up a package's name, unless an answer is cached.
fn ask<I: Lookup>(
    alloc: Global,
    index: &I,
    kept: &mut SortedMap<Name, CacheEntry>,
    package: &Package,
) -> Result<()>
    ensures grown { Grows («package».now ∷ []) kept.old kept.new }
    ensures asked { OnOk result (IsSome (at «package».now.name kept.new)) }
    ensures given { AreAnswers (I.answers index.now) kept.old → AreAnswers (I.answers index.now) kept.new }
    ensures err { IfErr result IsMemory }
{
    if is_kept(kept, &package.name) {
        return Ok(());
    }
    let answer = kept_of(alloc, index.krate(alloc, &package.name))?;
    let name = package.name.clone(alloc)?;
    keep(kept, name, answer)?;
    Ok(())
}

/// Looks up each name of some packages that has no cached answer, once. An error leaves the cached answers, and those
/// that came before it.
pub(crate) fn ask_all<I: Lookup>(
    alloc: Global,
    index: &I,
    kept: &mut SortedMap<Name, CacheEntry>,
    packages: &[&Package],
) -> Result<()>
    ensures grown { Grows (map (λ p. p.now) packages.now) kept.old kept.new }
    ensures asked { OnOk result (AreKept (map (λ p. p.now) packages.now) kept.new) }
    ensures given { AreAnswers (I.answers index.now) kept.old → AreAnswers (I.answers index.now) kept.new }
    ensures err { IfErr result IsMemory }
{
    for package in packages {
        ask(alloc, index, kept, package)?;
    }
    Ok(())
}
