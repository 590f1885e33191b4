//! The ranges of affected versions that the requirements of an advisory leave.

ghost use Rattle.std.specs.Prelude.{◌≡◌, ◌↔◌, [], Contains, IfErr, IfOk, List, OnErr, Some, filter_map, true};
ghost use Rattle.std.specs.List.{All, list_any};
ghost use Rattle.semver.specs.Parse.{Parts};
ghost use Rattle.rustsec_values.specs.Failure.{IsMemory};
ghost use Rattle.rustsec_versions.specs.interval.Interval.{Interval};
ghost use Rattle.rustsec_versions.specs.acceptance.Lists.{Lists, accepted_apart, affected, intervals};
ghost use Rattle.rustsec_versions.specs.acceptance.Merged.{AreMerged, IsJoined};
ghost use Rattle.rustsec_versions.specs.order.Precedence.{IsVersion};
ghost use Rattle.rustsec_versions.specs.ranges.Ranges.{AreRanges, HasCuts, Range, SameRequirements, affects, in_ranges};
ghost use Rattle.rustsec_versions.specs.requirement.Requirement.{interval_of};
ghost use Rattle.rustsec_versions.specs.ranges.AcceptedRanges.{AreMergedRanges, HasUnboundedInterval};
ghost use Rattle.rustsec_versions.specs.order.Successor.{IsLeastAbove, successor};

use crate::ranges::OsvRange;
use crate::versions::Versions;
use rustsec_values::Result;
use std::alloc::Global;

/// Returns the ranges of affected versions, in rising order: the gaps between the merged intervals of the
/// requirements, empty ones too. A version is affected exactly if one of the ranges contains it.
///
/// # Errors
///
/// `OutOfMemory` alone.
pub fn ranges_for_advisory(alloc: Global, versions: &Versions) -> Result<Vec<OsvRange>>
    ensures ranges { IfOk result (λ v. AreMergedRanges versions.now v.items) }

    // A cut of an exclusive start or an inclusive end is the successor of its version.
    ensures cuts { (v s : Parts) → successor v ≡ Some s → IsLeastAbove v s }

    // Each merged interval with a start has a lower cut, and each with an end an upper one.
    ensures has_cuts { (ms : List Interval) → AreMerged (intervals versions.now) ms → All HasCuts ms }

    // No chain joins the interval of an unaffected requirement with another interval.
    ensures alone { (i j : Interval) → Contains (filter_map interval_of versions.now.unaffected) i
        → IsJoined (intervals versions.now) i j → j ≡ i }

    // The list is empty exactly if one merged interval is unbounded on both sides.
    ensures empty { IfOk result (λ v. (v.items ≡ []) ↔ HasUnboundedInterval versions.now) }

    // The empty list takes no memory.
    ensures none { OnErr result (¬ HasUnboundedInterval versions.now) }

    // If no two requirements overlap, the list is that of the intervals themselves, and no other list is.
    ensures apart { IfOk result (λ v. accepted_apart versions.now ≡ true → (rs : List Range)
        → AreRanges (intervals versions.now) rs ↔ (rs ≡ v.items)) }

    // A valid version is affected exactly if a range contains it, in precedence and in the order of `Version`.
    ensures agree { IfOk result (λ v. (w : Parts) → IsVersion w → in_ranges v.items w ≡ affected versions.now w) }
    ensures affects { IfOk result (λ v. (w : Parts) → IsVersion w → list_any (λ r. affects r w) v.items ≡ affected versions.now w) }

    // Neither the order of the requirements nor the list that contains one changes the ranges of accepted lists.
    ensures order { IfOk result (λ v. (ls : Lists) (rs : List Range) → SameRequirements versions.now ls
        → AreMergedRanges ls rs → rs ≡ v.items) }
    ensures err { IfErr result IsMemory }
{
    let ranges = versions.ranges(alloc)?;
    Ok(ranges)
}
