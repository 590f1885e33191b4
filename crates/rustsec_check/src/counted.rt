//! The advisories that count for a package, and how it can be mended by them.

ghost use Rattle.std.specs.Prelude.{◌≡◌, ◌++◌, IfErr, IfOk, List, map, option_map};
ghost use Rattle.std.specs.Bool.{Decides};
ghost use Rattle.std.specs.List.{list_any};
ghost use Rattle.semver.specs.Identifiers.{parts_of};
ghost use Rattle.rustsec_values.specs.Failure.{IsMemory};
ghost use Rattle.rustsec_versions.specs.Equality.{lists_eq};
ghost use Rattle.rustsec_versions.specs.acceptance.Lists.{Lists};
ghost use Rattle.rustsec_versions.specs.order.Precedence.{IsVersion};
ghost use Rattle.rustsec_report.specs.Report.{is_among};
ghost use Rattle.rustsec_check.specs.LeastFree.{AreRangesOfAll};
ghost use Rattle.rustsec_check.specs.Updates.{AreIdsOf, IsMover, IsUpdateFor, about, counting, in_force, lists_of};

use crate::compatible::is_compatible_with;
use crate::moving::Answer;
use crate::ranges::all_ranges;
use crate::update::{Update, copied, sweep};
use rustsec_advisory::Advisory;
use rustsec_database::{Database, Query};
use rustsec_lock::package::Package;
use rustsec_texts::Id;
use rustsec_values::{ExactClone, Result, exact_copy};
use rustsec_versions::{OsvRange, Versions};
use semver::Version;
use std::alloc::{AllocError, Global};
use std::marker::Model;

/// The advisories that count for a package, and the IDs that are ignored.
#[derive(Drop)]
pub(crate) struct Counted<'a> {
    ids: &'a [Id],
    /// Those that count as vulnerabilities, in the database's order.
    others: Vec<&'a Advisory>,
    /// Those of them that are not ignored.
    in_force: Vec<&'a Advisory>,
}

impl<'a> Model for Counted<'a> {
    ghost use Rattle.std.specs.Prelude.{map};
    ghost use Rattle.rustsec_check.specs.Updates.{AreInForce, CountedValue};

    ghost Value = { CountedValue };

    ghost view = { λ c. record { ids = c.ids.now; others = map (λ a. a.now) c.others.items } };

    ghost invariant = { λ c. AreInForce c.ids.now (map (λ a. a.now) c.others.items) (map (λ a. a.now) c.in_force.items) };
}

/// Returns the query for all advisories that count as vulnerabilities of a package.
fn query_about(alloc: Global, package: &Package) -> Result<Query>
    ensures ok { IfOk result (λ q. q ≡ about «package».now) }
    ensures err { IfErr result IsMemory }
{
    let name = exact_copy(&package.name)?;
    let query = Query::crate_scope(alloc).package_name(name);
    match package.source.clone()? {
        Some(source) => Ok(query.package_source(source)),
        None => Ok(query),
    }
}

/// Returns the advisories that count as vulnerabilities of a package, in the database's order.
fn counting<'a>(
    alloc: Global,
    database: &'a Database,
    package: &Package,
) -> Result<Vec<&'a Advisory>>
    ensures ok { IfOk result (λ v. map (λ a. a.now) v.items ≡ counting database.now «package».now) }
    ensures err { IfErr result IsMemory }
{
    let query = query_about(alloc, package)?;
    database.query(alloc, &query)
}

/// Returns whether the ID of an advisory is one of these.
fn is_among(ids: &[Id], advisory: &Advisory) -> bool
    ensures { result ≡ is_among ids.now advisory.now.metadata.id }
{
    ids.contains(&advisory.metadata.id)
}

/// Returns the advisories that are not ignored, in order.
fn in_force<'a>(
    alloc: Global,
    ids: &[Id],
    advisories: &[&'a Advisory],
) -> std::result::Result<Vec<&'a Advisory>, AllocError>
    ensures { IfOk result (λ v. map (λ a. a.now) v.items ≡ in_force ids.now (map (λ a. a.now) advisories.now)) }
{
    let mut kept = Vec::new(alloc);
    for advisory in advisories {
        if !is_among(ids, advisory) {
            kept.push(*advisory)?;
        }
    }
    Ok(kept)
}

/// Returns whether two advisories have the same requirements.
fn has_same(a: &Advisory, b: &Advisory) -> bool
    ensures { result ≡ lists_eq a.now.versions b.now.versions }
{
    a.versions == b.versions
}

/// Returns whether some advisory has the same requirements as another one.
fn some_has_same(advisories: &[&Advisory], advisory: &Advisory) -> bool
    ensures { result ≡ list_any (λ a. lists_eq a.now.versions advisory.now.versions) advisories.now }
{
    advisories.iter().any(|other| has_same(other, advisory))
}

/// Returns the requirements of advisories.
fn lists_of<'a>(
    alloc: Global,
    advisories: &[&'a Advisory],
) -> std::result::Result<Vec<&'a Versions>, AllocError>
    ensures { IfOk result (λ v. map (λ l. l.now) v.items ≡ lists_of (map (λ a. a.now) advisories.now)) }
{
    let mut lists = Vec::new(alloc);
    for advisory in advisories {
        lists.push(&advisory.versions)?;
    }
    Ok(lists)
}

/// Returns the ranges of advisories and of others.
fn ranges_of<'a>(
    alloc: Global,
    own: &[&'a Advisory],
    others: &[&'a Advisory],
) -> Result<Vec<OsvRange>>
    ensures ok { IfOk result (λ v. AreRangesOfAll (lists_of (map (λ a. a.now) own.now ++ map (λ a. a.now) others.now)) v.items) }
    ensures err { IfErr result IsMemory }
{
    let mut lists = lists_of(alloc, own)?;
    let mut more = lists_of(alloc, others)?;
    lists.append(&mut more)?;
    all_ranges(alloc, lists.as_slice())
}

/// Returns whether an advisory is ignored and moves an answer.
fn is_mover(alloc: Global, ids: &[Id], answer: Answer<'_>, advisory: &Advisory) -> Result<bool>
    ensures ok { (all : List Lists) → AreRangesOfAll all answer.entry.in_force.now → IsVersion (parts_of answer.entry.version.now)
        → IfOk result (λ b. Decides b (IsMover ids.now all (parts_of answer.entry.version.now) (option_map parts_of answer.entry.least_free.now) advisory.now)) }
    ensures err { IfErr result IsMemory }
{
    if !is_among(ids, advisory) {
        return Ok(false);
    }
    answer.is_moved_by(alloc, &advisory.versions)
}

/// Returns the IDs of the ignored advisories that move an answer, in order.
fn movers<'a>(
    alloc: Global,
    ids: &[Id],
    answer: Answer<'_>,
    advisories: &[&'a Advisory],
) -> Result<Vec<&'a Id>>
    ensures ok { (all : List Lists) → AreRangesOfAll all answer.entry.in_force.now → IsVersion (parts_of answer.entry.version.now)
        → IfOk result (λ v. AreIdsOf (IsMover ids.now all (parts_of answer.entry.version.now) (option_map parts_of answer.entry.least_free.now))
        (map (λ a. a.now) advisories.now) (map (λ i. i.now) v.items)) }
    ensures err { IfErr result IsMemory }
{
    let mut moving = Vec::new(alloc);
    for advisory in advisories {
        if is_mover(alloc, ids, answer, advisory)? {
            moving.push(&advisory.metadata.id).map_err(|_| AllocError)?;
        }
    }
    Ok(moving)
}

impl<'a> Counted<'a> {
    /// Returns the advisories that count for a package.
    pub(crate) fn about(
        alloc: Global,
        database: &'a Database,
        ids: &'a [Id],
        package: &Package,
    ) -> Result<Counted<'a>>
        ensures ok { IfOk result (λ c. c ≡ record { ids = ids.now; others = counting database.now «package».now }) }
        ensures err { IfErr result IsMemory }
    {
        let others = counting(alloc, database, package)?;
        let in_force = in_force(alloc, ids, others.as_slice())?;
        Ok(Counted {
            ids,
            others,
            in_force,
        })
    }

    /// Returns whether one of those in force has the same requirements as an advisory.
    pub(crate) fn holds(&self, advisory: &Advisory) -> bool
        ensures { result ≡ list_any (λ a. lists_eq a.versions advisory.now.versions) (in_force self.now.ids self.now.others) }
    {
        some_has_same(self.in_force.as_slice(), advisory)
    }

    /// Returns the IDs of the ignored advisories that move the least free version of these and of a finding's own one.
    fn moved_by(
        &self,
        alloc: Global,
        own: &[&'a Advisory],
        version: &Version,
        least_free: &Option<Version>,
    ) -> Result<Vec<&'a Id>>
        ensures ok { IsVersion (parts_of version.now) → IfOk result (λ v.
            AreIdsOf (IsMover self.now.ids (lists_of (map (λ a. a.now) own.now ++ in_force self.now.ids self.now.others)) (parts_of version.now) (option_map parts_of least_free.now))
            self.now.others (map (λ i. i.now) v.items)) }
        ensures err { IfErr result IsMemory }
    {
        if self.in_force.len() == self.others.len() {
            return Ok(Vec::new(alloc));
        }
        let ranges = ranges_of(alloc, own, self.in_force.as_slice())?;
        let answer = Answer {
            version,
            least_free,
            in_force: ranges.as_slice(),
        };
        movers(alloc, self.ids, answer, self.others.as_slice())
    }

    /// Returns how a version of the package can be mended by these advisories and a finding's own one.
    pub(crate) fn update(
        &self,
        alloc: Global,
        own: &[&'a Advisory],
        version: &Version,
    ) -> Result<Update<'a>>
        ensures ok { IsVersion (parts_of version.now) → IfOk result (IsUpdateFor self.now.ids (map (λ a. a.now) own.now) self.now.others (parts_of version.now)) }
        ensures err { IfErr result IsMemory }
    {
        let ranges = ranges_of(alloc, own, self.others.as_slice())?;
        let least_free = copied(sweep(ranges.as_slice(), version))?;
        let is_compatible = is_compatible_with(alloc, version, &least_free)?;
        let moved_by = self.moved_by(alloc, own, version, &least_free)?;
        Ok(Update {
            least_free,
            is_compatible,
            moved_by,
        })
    }
}
