//! Whether a document calls a version of a package affected.

ghost use Rattle.std.specs.Prelude.{◌≡◌, Bool, IfOk, List, map};
ghost use Rattle.std.specs.List.{filter, list_any};
ghost use Rattle.semver.specs.Identifiers.{parts_of, parts_text};
ghost use Rattle.rustsec_files.specs.Listed.{Pairwise};
ghost use Rattle.rustsec_osv_rules.specs.evaluation.Document.{IsAnswer, IsMemberAnswer, IsRangeOfAnswer, are_any, is_about, is_of_versions, is_text, lists, ranges_of, texts_of};

use crate::evaluation::event::events_of;
use crate::evaluation::range::says_affected;
use rustsec_osv::{OsvAdvisory, OsvAffected, OsvJsonRange};
use rustsec_values::Text;
use semver::Version;
use std::alloc::{AllocError, Global};

/// A version of a package.
#[derive(Clone, Copy)]
pub struct PackageVersion<'a> {
    /// The ecosystem of the package, as `crates.io`.
    pub ecosystem: &'a str,
    /// The name of the package.
    pub name: &'a str,
    /// The version.
    pub version: &'a Version,
}

/// Returns whether the events of a range are at versions of packages, not at commits.
fn is_of_versions(range: &OsvJsonRange) -> bool
    ensures { result ≡ is_of_versions range.now }
{
    range.kind.as_str() != "GIT"
}

/// Returns whether a range says that a version is affected.
fn range_says(alloc: Global, range: &OsvJsonRange, version: &Version) -> Result<bool, AllocError>
    ensures { IfOk result (IsRangeOfAnswer (parts_of version.now) range.now) }
{
    if !is_of_versions(range) {
        return Ok(false);
    }
    let events = events_of(alloc, &range.events)?;
    says_affected(events, version)
}

/// Returns whether one of some ranges says that a version is affected.
fn ranges_say(alloc: Global, ranges: &[OsvJsonRange], version: &Version) -> Result<bool, AllocError>
    ensures { IfOk result (λ b. (answers : List Bool) × (Pairwise (IsRangeOfAnswer (parts_of version.now)) ranges.now answers
        × (b ≡ are_any answers))) }
{
    let mut affected = false;
    for range in ranges {
        let says = range_says(alloc, range, version)?;
        affected = affected || says;
    }
    Ok(affected)
}

/// Returns the ranges of a member.
pub(crate) fn ranges_of(member: &OsvAffected) -> &[OsvJsonRange]
    ensures { result.now ≡ ranges_of member.now }
{
    match &member.ranges {
        Some(ranges) => ranges.as_slice(),
        None => &[],
    }
}

/// Returns the versions that a member lists.
fn texts_of(member: &OsvAffected) -> &[Text]
    ensures { result.now ≡ texts_of member.now }
{
    match &member.versions {
        Some(versions) => versions.as_slice(),
        None => &[],
    }
}

/// Returns whether a member lists a version with this text.
fn lists(member: &OsvAffected, text: &str) -> bool
    ensures { result ≡ lists text.now member.now }
{
    let texts = texts_of(member);
    for version in texts {
        if version.as_str() == text {
            return true;
        }
    }
    false
}

/// Returns whether a member says that a version is affected.
fn member_says(alloc: Global, member: &OsvAffected, version: &Version) -> Result<bool, AllocError>
    ensures { IfOk result (IsMemberAnswer (parts_of version.now) member.now) }
{
    let text = version.to_string(alloc)?;
    let in_range = ranges_say(alloc, ranges_of(member), version)?;
    Ok(lists(member, &text) || in_range)
}

/// Returns whether a member is about a package.
fn is_about(member: &OsvAffected, question: &PackageVersion<'_>) -> bool
    ensures { result ≡ is_about question.now.ecosystem.now question.now.name.now member.now }
{
    let package = &member.package;
    package.ecosystem.as_str() == question.ecosystem && package.name.as_str() == question.name
}

/// Returns the members that are about a package, in order.
fn members_about<'d>(
    alloc: Global,
    members: &'d [OsvAffected],
    question: &PackageVersion<'_>,
) -> Result<Vec<&'d OsvAffected>, AllocError>
    ensures { IfOk result (λ v. map (λ m. m.now) v.items ≡ filter (is_about question.now.ecosystem.now question.now.name.now) members.now) }
{
    let mut about = Vec::new(alloc);
    for member in members {
        if is_about(member, question) {
            about.push(member)?;
        }
    }
    Ok(about)
}

/// Returns whether one of some members says that a version is affected.
fn members_say(
    alloc: Global,
    members: &[&OsvAffected],
    version: &Version,
) -> Result<bool, AllocError>
    ensures { IfOk result (λ b. (answers : List Bool) × (Pairwise (IsMemberAnswer (parts_of version.now)) (map (λ m. m.now) members.now) answers
        × (b ≡ are_any answers))) }
{
    let mut affected = false;
    for member in members {
        let says = member_says(alloc, member, version)?;
        affected = affected || says;
    }
    Ok(affected)
}

/// Returns whether a document says that a version of a package is affected, by OSV's evaluation: a member about the
/// package lists the version, or the events of one of its ranges say so. Of two events at one version, the one that is
/// given first comes first.
///
/// # Errors
///
/// Out of memory alone.
pub fn is_affected(
    alloc: Global,
    document: &OsvAdvisory,
    question: &PackageVersion<'_>,
) -> Result<bool, AllocError>
    ensures { IfOk result (IsAnswer question.now.ecosystem.now question.now.name.now (parts_of question.now.version.now) document.now) }
{
    let members = members_about(alloc, document.affected.as_slice(), question)?;
    members_say(alloc, &members, question.version)
}
