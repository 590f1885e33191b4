//! Which packages are yanked, by the cached answers.

ghost use Rattle.std.specs.Prelude.{◌≡◌, IfErr, IfOk, Some, map, option_map};
ghost use Rattle.rustsec_values.specs.Failure.{IsMemory};
ghost use Rattle.rustsec_registry.specs.Lookups.{at};
ghost use Rattle.rustsec_registry.specs.Yanked.{by_name, by_version, missing_name, missing_version, not_found, seen, yanked_answers};
ghost use Rattle.semver.specs.Identifiers.{parts_text};

use crate::cache_entry::{CacheEntry, at_name};
use rustsec_lock::package::{Name, Package};
use rustsec_values::{Error, ErrorKind, Items, Result, SortedMap, Text};
use std::alloc::Global;

/// The answer for one package, unless it is skipped: the package, or the error of its look-up.
type YankedStatus<'a> = std::result::Result<&'a Package, Error>;

/// Returns the value at a text, if any.
fn at_text(entries: &SortedMap<Text, bool>, text: &Text) -> Option<bool>
    ensures { result ≡ at text.now entries.now }
{
    entries.get(text).copied()
}

/// Returns an error of kind `NotFound` with this message.
fn not_found(alloc: Global, message: &str) -> Result<Error>
    ensures ok { IfOk result (λ e. e ≡ not_found message.now) }
    ensures err { IfErr result IsMemory }
{
    let error = Error::new(alloc, ErrorKind::NotFound, message);
    if error.kind() == ErrorKind::OutOfMemory {
        return Err(error);
    }
    Ok(error)
}

/// Returns the error for a package whose name is missing.
fn missing_name(alloc: Global, package: &Package) -> Result<Error>
    ensures ok { IfOk result (λ e. e ≡ not_found (missing_name «package».now)) }
    ensures err { IfErr result IsMemory }
{
    let message = format!(in alloc; "no such package in the registry: {}", package.name)?;
    not_found(alloc, message.as_str())
}

/// Returns the error for a package whose version is missing.
fn missing_version(alloc: Global, package: &Package) -> Result<Error>
    ensures ok { IfOk result (λ e. e ≡ not_found (missing_version «package».now)) }
    ensures err { IfErr result IsMemory }
{
    let message = format!(in alloc;
        "no such version in the registry: {} {}",
        package.name, package.version
    )?;
    not_found(alloc, message.as_str())
}

/// Returns whether the list of a name marks a package's version as yanked, or none if the version is not listed. The
/// version is looked up by its printed text.
fn listed(alloc: Global, entries: &SortedMap<Text, bool>, package: &Package) -> Result<Option<bool>>
    ensures ok { IfOk result (λ yanked. yanked ≡ at (parts_text «package».now.version) entries.now) }
    ensures err { IfErr result IsMemory }
{
    let text = Text::from(package.version.to_string(alloc)?);
    Ok(at_text(entries, &text))
}

/// Returns the answer for a package by the list of its name.
fn by_version<'a>(
    alloc: Global,
    entries: &SortedMap<Text, bool>,
    package: &'a Package,
) -> Result<Option<YankedStatus<'a>>>
    ensures ok { IfOk result (λ v. option_map seen v ≡ by_version «package».now (at (parts_text «package».now.version) entries.now)) }
    ensures err { IfErr result IsMemory }
{
    match listed(alloc, entries, package)? {
        Some(true) => Ok(Some(Ok(package))),
        Some(false) => Ok(None),
        None => {
            let missing = missing_version(alloc, package)?;
            Ok(Some(Err(missing)))
        }
    }
}

/// Returns the answer for a package by the cached answer for its name.
fn by_name<'a>(
    alloc: Global,
    kept: Option<&CacheEntry>,
    package: &'a Package,
) -> Result<Option<YankedStatus<'a>>>
    ensures ok { IfOk result (λ v. option_map seen v ≡ by_name «package».now (option_map (λ k. k.now) kept.entry)) }
    ensures err { IfErr result IsMemory }
{
    match kept {
        Some(Ok(Some(entries))) => by_version(alloc, entries, package),
        Some(Err(e)) => {
            let e = e.clone(alloc)?;
            Ok(Some(Err(e)))
        }
        Some(Ok(None)) | None => {
            let missing = missing_name(alloc, package)?;
            Ok(Some(Err(missing)))
        }
    }
}

/// Returns the answer for a package by the cached answers.
fn verdict<'a>(
    alloc: Global,
    kept: &SortedMap<Name, CacheEntry>,
    package: &'a Package,
) -> Result<Option<YankedStatus<'a>>>
    ensures ok { IfOk result (λ v. option_map seen v ≡ by_name «package».now (at «package».now.name kept.now)) }
    ensures err { IfErr result IsMemory }
{
    by_name(alloc, at_name(kept, &package.name), package)
}

/// Returns the answers for packages, in order, by the cached answers.
pub(crate) fn verdicts<'a>(
    alloc: Global,
    kept: &SortedMap<Name, CacheEntry>,
    packages: &[&'a Package],
) -> Result<Vec<YankedStatus<'a>>>
    ensures ok { IfOk result (λ v. map seen v.items ≡ yanked_answers kept.now (map (λ p. p.now) packages.now)) }
    ensures err { IfErr result IsMemory }
{
    let mut answers = Items::new(alloc);
    for &package in packages {
        if let Some(answer) = verdict(alloc, kept, package)? {
            answers.push(answer)?;
        }
    }
    Ok(Vec::from(answers))
}
