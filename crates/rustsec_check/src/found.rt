//! The pairs of a package and an advisory that a check finds.

ghost use Rattle.std.specs.Prelude.{◌≡◌, ◌++◌, IfErr, IfOk, OnOk, filter_map, length, map};
ghost use Rattle.std.specs.List.{filter};
ghost use Rattle.rustsec_values.specs.Failure.{IsMemory};
ghost use Rattle.rustsec_database.specs.Pairs.{finds, is_audited};
ghost use Rattle.rustsec_check.specs.Pairs.{as_unwarned, as_wanted, counted, found, is_ignored, query_of_both};

use rustsec_advisory::Advisory;
use rustsec_database::{Database, Query};
use rustsec_lock::Lockfile;
use rustsec_lock::package::Package;
use rustsec_report::Settings;
use rustsec_texts::{Collection, Id, WarningKind};
use rustsec_values::Result;
use std::alloc::{AllocError, Global};
use std::marker::Model;

/// A package at its place in the lockfile.
#[derive(Drop)]
pub(crate) struct Placed<'a> {
    place: usize,
    package: &'a Package,
}

impl<'a> Model for Placed<'a> {
    ghost use Rattle.std.specs.Prelude.{ℕ};
    ghost use Rattle.rustsec_lock.specs.Package.{PackageValue};

    ghost Value = { ℕ × PackageValue };

    ghost view = { λ p. (p.place, p.«package».now) };
}

/// A package at its place, an advisory that affects it, and the kind of the warning, or `None` for a vulnerability.
#[derive(Drop)]
pub(crate) struct Found<'a> {
    pub(crate) kind: Option<WarningKind>,
    pub(crate) advisory: &'a Advisory,
    pub(crate) package: &'a Package,
    pub(crate) place: usize,
}

impl<'a> Model for Found<'a> {
    ghost use Rattle.rustsec_check.specs.Values.{Found};

    ghost Value = { Found };

    ghost view = { λ f. record { kind = f.kind; advisory = f.advisory.now; «package» = f.«package».now; place = f.place } };
}

impl<'a> Placed<'a> {
    /// Returns a pair of this package.
    fn found(&self, kind: Option<WarningKind>, advisory: &'a Advisory) -> Found<'a>
        ensures { result ≡ record { kind = kind; advisory = advisory.now; «package» = self.now.1; place = self.now.0 } }
    {
        Found {
            kind,
            advisory,
            package: self.package,
            place: self.place,
        }
    }
}

/// Returns whether a package is audited: whether its source is one of the two default registries.
fn is_audited(package: &Package) -> bool
    ensures { result ≡ is_audited «package».now }
{
    match &package.source {
        Some(source) => source.is_default_registry(),
        None => false,
    }
}

/// Returns the advisories that a query finds for a package, in the database's order.
fn advisories_for<'a>(
    alloc: Global,
    database: &'a Database,
    query: &Query,
    package: &Package,
) -> std::result::Result<Vec<&'a Advisory>, AllocError>
    ensures { IfOk result (λ v. map (λ a. a.now) v.items ≡ filter (finds query.now «package».now) database.now) }
{
    if !is_audited(package) {
        return Ok(Vec::new(alloc));
    }
    database.query_of_package(alloc, query, package)
}

/// Returns the vulnerability of a package by an advisory, unless the advisory is informational.
fn vulnerable<'a>(placed: &Placed<'a>, advisory: &'a Advisory) -> Option<Found<'a>>
    ensures { result ≡ as_unwarned placed.now advisory.now }
{
    if advisory.metadata.informational.is_some() {
        None
    } else {
        Some(placed.found(None, advisory))
    }
}

/// Appends vulnerabilities of a package, one for each advisory that is not informational.
fn push_vulnerable<'a>(
    advisories: &[&'a Advisory],
    placed: &Placed<'a>,
    found: &mut Vec<Found<'a>>,
) -> std::result::Result<(), AllocError>
    ensures { OnOk result (found.new.items ≡ found.old.items ++ filter_map (as_unwarned placed.now) (map (λ a. a.now) advisories.now)) }
{
    for advisory in advisories {
        if let Some(pair) = vulnerable(placed, advisory) {
            found.push(pair).map_err(|_| AllocError)?;
        }
    }
    Ok(())
}

/// Returns the warning about a package that an advisory gives, if the settings ask for it.
fn wanted<'a>(settings: &Settings, placed: &Placed<'a>, advisory: &'a Advisory) -> Option<Found<'a>>
    ensures { result ≡ as_wanted settings.now placed.now advisory.now }
{
    match settings.wanted_kind(&advisory.metadata.informational) {
        Some(kind) => Some(placed.found(Some(kind), advisory)),
        None => None,
    }
}

/// Appends warnings about a package, one for each advisory that gives one.
fn push_wanted<'a>(
    advisories: &[&'a Advisory],
    settings: &Settings,
    placed: &Placed<'a>,
    found: &mut Vec<Found<'a>>,
) -> std::result::Result<(), AllocError>
    ensures { OnOk result (found.new.items ≡ found.old.items ++ filter_map (as_wanted settings.now placed.now) (map (λ a. a.now) advisories.now)) }
{
    for advisory in advisories {
        if let Some(pair) = wanted(settings, placed, advisory) {
            found.push(pair).map_err(|_| AllocError)?;
        }
    }
    Ok(())
}

/// Returns the query of settings for vulnerabilities and for informational advisories together.
fn query_of_both(alloc: Global, settings: &Settings) -> Result<Query>
    ensures ok { IfOk result (λ q. q ≡ query_of_both settings.now) }
    ensures err { IfErr result IsMemory }
{
    let arch = Clone::clone(&settings.target_arch)?;
    let os = Clone::clone(&settings.target_os)?;
    let query = Query::new(alloc)
        .collection(Collection::Crates)
        .withdrawn(false)
        .target_arch(Vec::from(arch))
        .target_os(Vec::from(os));
    match settings.severity {
        Some(severity) => Ok(query.severity(severity)),
        None => Ok(query),
    }
}

/// Returns the pairs of a lockfile's packages, package by package: of each the vulnerabilities, and then the warnings.
pub(crate) fn all_found<'a>(
    alloc: Global,
    database: &'a Database,
    lockfile: &'a Lockfile,
    settings: &Settings,
) -> Result<Vec<Found<'a>>>
    ensures ok { IfOk result (λ v. v.items ≡ found database.now lockfile.now.packages settings.now) }
    ensures err { IfErr result IsMemory }
{
    let query = query_of_both(alloc, settings)?;
    let mut found = Vec::new(alloc);
    for (place, package) in lockfile.packages.as_slice().iter().enumerate() {
        let placed = Placed { place, package };
        let advisories = advisories_for(alloc, database, &query, package)?;
        push_vulnerable(&advisories, &placed, &mut found)?;
        push_wanted(&advisories, settings, &placed, &mut found)?;
    }
    Ok(found)
}

/// Returns whether the advisory of a pair is ignored.
pub(crate) fn is_ignored(ids: &[Id], found: &Found<'_>) -> bool
    ensures { result ≡ is_ignored ids.now found.now }
{
    ids.contains(&found.advisory.metadata.id)
}

/// Returns how many pairs have an advisory that is not ignored.
pub(crate) fn count_of(ids: &[Id], found: &[Found<'_>]) -> usize
    ensures { result ≡ length (counted ids.now found.now) }
{
    found.iter().filter(|pair| !is_ignored(ids, pair)).count()
}
