//! The ranges of several advisories together.

ghost use Rattle.std.specs.Prelude.{◌≡◌, ◌++◌, ◌∷◌, [], IfErr, IfOk, List, OnOk, map, option_map};
ghost use Rattle.std.specs.Option.{option_copied};
ghost use Rattle.semver.specs.Identifiers.{parts_of};
ghost use Rattle.rustsec_values.specs.Failure.{IsMemory};
ghost use Rattle.rustsec_versions.specs.acceptance.Lists.{Lists};
ghost use Rattle.rustsec_versions.specs.ranges.Ranges.{in_range, is_from, is_until};
ghost use Rattle.rustsec_check.specs.LeastFree.{AreRangesOfAll, holding};

use rustsec_values::Result;
use rustsec_versions::{OsvRange, Versions, ranges_for_advisory};
use semver::Version;
use std::alloc::Global;

/// Returns whether a version is at or above where a range begins, in precedence.
fn is_from(introduced: &Option<Version>, version: &Version) -> bool
    ensures { result ≡ is_from (option_map parts_of introduced.now) (parts_of version.now) }
{
    match introduced {
        Some(introduced) => introduced.cmp_precedence(version).is_le(),
        None => true,
    }
}

/// Returns whether a version is below where a range ends, in precedence.
pub(crate) fn is_until(fixed: &Option<Version>, version: &Version) -> bool
    ensures { result ≡ is_until (option_map parts_of fixed.now) (parts_of version.now) }
{
    match fixed {
        Some(fixed) => version.cmp_precedence(fixed).is_lt(),
        None => true,
    }
}

/// Returns whether a version is in a range, in precedence.
fn is_in(range: &OsvRange, version: &Version) -> bool
    ensures { result ≡ in_range range.now (parts_of version.now) }
{
    is_from(&range.introduced, version) && is_until(&range.fixed, version)
}

/// Returns the first range that holds a version, if any.
pub(crate) fn holding<'a>(ranges: &'a [OsvRange], version: &Version) -> Option<&'a OsvRange>
    ensures { option_copied result ≡ holding ranges.now (parts_of version.now) }
{
    for range in ranges {
        if is_in(range, version) {
            return Some(range);
        }
    }
    None
}

/// Appends the ranges of an advisory's lists.
fn add_ranges(alloc: Global, all: &mut Vec<OsvRange>, lists: &Versions) -> Result<()>
    ensures ok { OnOk result ((before : List Lists) → AreRangesOfAll before all.old.items → AreRangesOfAll (before ++ lists.now ∷ []) all.new.items) }
    ensures err { IfErr result IsMemory }
{
    let mut ranges = ranges_for_advisory(alloc, lists)?;
    all.append(&mut ranges)?;
    Ok(())
}

/// Returns the ranges of several advisories' lists, one after another.
pub(crate) fn all_ranges(alloc: Global, lists: &[&Versions]) -> Result<Vec<OsvRange>>
    ensures ok { IfOk result (λ v. AreRangesOfAll (map (λ l. l.now) lists.now) v.items) }
    ensures err { IfErr result IsMemory }
{
    let mut all = Vec::new(alloc);
    for versions in lists {
        add_ranges(alloc, &mut all, versions)?;
    }
    Ok(all)
}
