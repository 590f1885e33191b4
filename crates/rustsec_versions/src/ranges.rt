//! Ranges of affected versions, and the ranges of gaps between intervals.

pub(crate) mod complement;

ghost use Rattle.std.specs.Prelude.{◌≡◌, ◌<◌, ◌⊎◌, IfErr, IfOk, OnErr, Some, is_some, length, map, option_map, true};
ghost use Rattle.std.specs.List.{All};
ghost use Rattle.semver.specs.Identifiers.{parts_of};
ghost use Rattle.rustsec_values.specs.Failure.{IsMemory};
ghost use Rattle.rustsec_versions.specs.ranges.Complement.{HasValidBounds, IsValidBound, cut};
ghost use Rattle.rustsec_versions.specs.acceptance.Lists.{affected, intervals};
ghost use Rattle.rustsec_versions.specs.ranges.Ranges.{Range, affects, affects_from, affects_till, lower_cut, upper_cut};
ghost use Rattle.rustsec_versions.specs.order.Successor.{successor};
ghost use Rattle.rustsec_versions.specs.Views.{endpoint_of, range_of};

use crate::bound::Bound;
use crate::order::next_version::successor;
use crate::ranges::complement::AffectedInterval;
use rustsec_values::{Error, ExactClone, Result};
use semver::Version;
use std::alloc::{AllocError, Global};
use std::marker::Model;

/// A range of affected versions: from the introduction of a fault on, and below its fix (OSV schema, `SEMVER`
/// ranges).
#[derive(Debug, Drop)]
pub struct OsvRange {
    /// The first affected version; none if the range has no lower side.
    pub introduced: Option<Version>,
    /// The first version that is not affected any more; none if the range has no upper side.
    pub fixed: Option<Version>,
}

impl Model for OsvRange {
    ghost use Rattle.rustsec_versions.specs.ranges.Ranges.{Range};
    ghost use Rattle.rustsec_versions.specs.Views.{range_of};

    ghost Value = { Range };

    ghost view = { λ r. range_of r.introduced r.fixed };
}

impl OsvRange {
    /// Returns whether a version is in the range, in the order of `Version`: precedence, then build metadata.
    pub fn affects(&self, version: &Version) -> bool
        ensures { result ≡ affects self.now (parts_of version.now) }
    {
        affects_from(&self.introduced, version) && affects_till(&self.fixed, version)
    }

    /// Returns an equal range.
    ///
    /// # Errors
    ///
    /// `OutOfMemory` alone.
    pub fn clone(&self, _alloc: Global) -> Result<OsvRange>
        ensures ok { IfOk result (λ r. r ≡ self.now) }
        ensures err { IfErr result IsMemory }

        // A range without sides takes no memory.
        ensures none { OnErr result ((is_some self.now.introduced ≡ true) ⊎ (is_some self.now.fixed ≡ true)) }
    {
        let copy = Clone::clone(self)?;
        Ok(copy)
    }
}

/// Returns a copy of a version that may be missing. A missing one takes no memory.
fn copy_of(version: &Option<Version>) -> std::result::Result<Option<Version>, AllocError>
    ensures ok { IfOk result (λ v. option_map parts_of v ≡ option_map parts_of version.now) }
    ensures none { OnErr result (is_some (option_map parts_of version.now) ≡ true) }
{
    match version {
        Some(version) => Ok(Some(version.clone()?)),
        None => Ok(None),
    }
}

impl Clone for OsvRange {
    ghost is_clone = { λ a b. b ≡ a };

    // A range without sides takes no memory.
    fn clone(&self) -> std::result::Result<OsvRange, AllocError>
        ensures ok { IfOk result (λ r. r ≡ self.now) }
        ensures none { OnErr result ((is_some self.now.introduced ≡ true) ⊎ (is_some self.now.fixed ≡ true)) }
    {
        let introduced = copy_of(&self.introduced)?;
        let fixed = copy_of(&self.fixed)?;
        Ok(OsvRange { introduced, fixed })
    }
}

impl ExactClone for OsvRange {
    ghost exact = { λ x y e. e };
}

/// Returns whether a version is at or above the introduction of a range.
fn affects_from(introduced: &Option<Version>, version: &Version) -> bool
    ensures { result ≡ affects_from (option_map parts_of introduced.now) (parts_of version.now) }
{
    match introduced {
        Some(introduced) => introduced.cmp(version).is_le(),
        None => true,
    }
}

/// Returns whether a version is below the fix of a range.
fn affects_till(fixed: &Option<Version>, version: &Version) -> bool
    ensures { result ≡ affects_till (option_map parts_of fixed.now) (parts_of version.now) }
{
    match fixed {
        Some(fixed) => version.cmp(fixed).is_lt(),
        None => true,
    }
}

/// Returns the cut at which an interval with this start begins.
pub(crate) fn lower_cut(alloc: Global, start: &Bound) -> Result<Option<Version>>
    requires { IsValidBound (endpoint_of start.now) }
    ensures ok { IfOk result (λ o. option_map parts_of o ≡ lower_cut (endpoint_of start.now)) }
    ensures err { IfErr result IsMemory }
{
    match start {
        Bound::Unbounded => Ok(None),
        Bound::Inclusive(version) => {
            let cut = version.clone()?;
            Ok(Some(cut))
        }
        Bound::Exclusive(version) => successor(alloc, version),
    }
}

/// Returns the cut at which an interval with this end ends.
pub(crate) fn upper_cut(alloc: Global, end: &Bound) -> Result<Option<Version>>
    requires { IsValidBound (endpoint_of end.now) }
    ensures ok { IfOk result (λ o. option_map parts_of o ≡ upper_cut (endpoint_of end.now)) }
    ensures err { IfErr result IsMemory }
{
    match end {
        Bound::Unbounded => Ok(None),
        Bound::Exclusive(version) => {
            let cut = version.clone()?;
            Ok(Some(cut))
        }
        Bound::Inclusive(version) => successor(alloc, version),
    }
}

/// Returns the ranges of gaps, in order.
pub(crate) fn ranges_of(alloc: Global, complement: &[AffectedInterval]) -> Result<Vec<OsvRange>>
    requires { All HasValidBounds complement.now }
    ensures ok { IfOk result (λ v. v.items ≡ map cut complement.now) }
    ensures none { OnErr result (0 < length complement.now) }
    ensures err { IfErr result IsMemory }
{
    let mut all = Vec::new(alloc);
    for gap in complement {
        let range = gap.range(alloc)?;
        all.push(range).map_err(|_| AllocError)?;
    }
    Ok(all)
}
