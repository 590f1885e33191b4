//! How a finding can be mended: the least version that no advisory leaves affected.

ghost use Rattle.std.specs.Prelude.{◌≡◌, IfErr, IfOk, List, Option, map, option_map};
ghost use Rattle.semver.specs.Identifiers.{parts_of};
ghost use Rattle.semver.specs.Parse.{Parts};
ghost use Rattle.rustsec_values.specs.Failure.{IsMemory};
ghost use Rattle.rustsec_versions.specs.acceptance.Lists.{Lists};
ghost use Rattle.rustsec_versions.specs.order.Precedence.{IsVersion};
ghost use Rattle.rustsec_check.specs.LeastFree.{AreRangesOfAll, IsLeastFree};

use crate::ranges::{all_ranges, holding};
use rustsec_texts::Id;
use rustsec_values::Result;
use rustsec_versions::{OsvRange, Versions};
use semver::Version;
use std::alloc::{AllocError, Global};
use std::marker::Model;

/// How a finding can be mended.
#[derive(Drop)]
pub struct Update<'a> {
    /// The least version, not below the locked one, that neither the finding's advisory nor another one that counts
    /// leaves affected, or `None` if each such version is affected. All vulnerabilities of the package count, of any
    /// platform and severity, ignored ones too.
    pub least_free: Option<Version>,
    /// Whether the interval of the requirement `^LOCKED` holds that version, so that an update within it is enough.
    pub is_compatible: bool,
    /// The IDs of the ignored advisories that move this answer: those that leave affected a version, not below the locked
    /// one and below the answer, if any, that neither the finding's advisory nor another one in force does.
    pub moved_by: Vec<&'a Id>,
}

impl<'a> Model for Update<'a> {
    ghost use Rattle.std.specs.Prelude.{map, option_map};
    ghost use Rattle.semver.specs.Identifiers.{parts_of};
    ghost use Rattle.rustsec_check.specs.Updates.{UpdateValue};

    ghost Value = { UpdateValue };

    ghost view = { λ u. record {
      least_free = option_map parts_of u.least_free;
      is_compatible = u.is_compatible;
      moved_by = map (λ i. i.now) u.moved_by.items;
    } };
}

impl<'a> Update<'a> {
    /// Returns a copy.
    pub(crate) fn copy(&self, alloc: Global) -> std::result::Result<Update<'a>, AllocError>
        ensures { IfOk result (λ u. u ≡ self.now) }
    {
        let least_free = match &self.least_free {
            Some(version) => Some(version.clone()?),
            None => None,
        };
        let moved_by = self.moved_by.as_slice().to_vec(alloc)?;
        Ok(Update {
            least_free,
            is_compatible: self.is_compatible,
            moved_by,
        })
    }
}

/// Goes up from a version, from fix to fix, until no range holds it.
pub(crate) fn sweep<'a>(ranges: &'a [OsvRange], version: &'a Version) -> Option<&'a Version>
    ensures { (all : List Lists) → AreRangesOfAll all ranges.now → IsVersion (parts_of version.now)
        → IsLeastFree all (parts_of version.now) (option_map (λ v. parts_of v.now) result) }
{
    let mut found = version;
    while let Some(range) = holding(ranges, found) {
        let Some(fixed) = &range.fixed else {
            return None;
        };
        found = fixed;
    }
    Some(found)
}

/// Returns a copy of a version, if any.
pub(crate) fn copied(version: Option<&Version>) -> std::result::Result<Option<Version>, AllocError>
    ensures { IfOk result (λ v. option_map parts_of v ≡ option_map (λ v. parts_of v.now) version.entry) }
{
    match version {
        Some(version) => Ok(Some(version.clone()?)),
        None => Ok(None),
    }
}

/// Returns the least valid version, not below a version, that none of several advisories leaves affected (in
/// precedence, SemVer 2.0.0, section 11), or `None` if each such version is affected. If the version itself is free, the
/// answer is that version; else the answer has no build metadata.
///
/// # Errors
///
/// `OutOfMemory` alone.
pub fn least_free(alloc: Global, lists: &[&Versions], version: &Version) -> Result<Option<Version>>
    ensures ok { IsVersion (parts_of version.now) → IfOk result (λ found. IsLeastFree (map (λ l. l.now) lists.now) (parts_of version.now) (option_map parts_of found)) }

    // No other answer meets the definition.
    ensures only { IsVersion (parts_of version.now) → IfOk result (λ found. (other : Option Parts) → IsLeastFree (map (λ l. l.now) lists.now) (parts_of version.now) other
        → other ≡ option_map parts_of found) }
    ensures err { IfErr result IsMemory }
{
    let ranges = all_ranges(alloc, lists)?;
    let found = copied(sweep(ranges.as_slice(), version))?;
    Ok(found)
}
