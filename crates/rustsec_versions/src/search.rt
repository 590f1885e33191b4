//! Searches sorted gaps by halving.

pub(crate) mod steps;

ghost use Rattle.std.specs.Prelude.{◌≡◌, ◌<◌, ◌≤◌, ◌+◌, ◌-◌, ◌^◌, ℕ, false, length, slice_index_or, true};
ghost use Rattle.std.specs.List.{list_any};
ghost use Rattle.rustsec_versions.specs.ranges.Between.{AreInTurn, EachLaterBegins};
ghost use Rattle.rustsec_versions.specs.interval.Interval.{Interval, has_bound, holds, is_after, is_before};

use crate::bound::Bound;
use crate::ranges::complement::AffectedInterval;
use crate::search::steps::{Sought, Steps};

/// Returns whether a version is after the start of a gap.
fn is_after_start(gap: &AffectedInterval, version: &Sought<'_>, steps: &mut Steps) -> bool
    ensures answer { result ≡ is_after gap.now.start version.now }
    ensures least { has_bound gap.now.start ≡ true → steps.old < 2 ^ 64 - 1 → steps.old < steps.new }
    ensures count { steps.new ≤ steps.old + 1 }
    ensures rises { steps.old ≤ steps.new }
    ensures stays { steps.old ≡ 2 ^ 64 - 1 → steps.new ≡ 2 ^ 64 - 1 }
{
    match &gap.start {
        Bound::Unbounded => true,
        Bound::Exclusive(start) => version.after(start, steps).is_lt(),
        Bound::Inclusive(start) => version.after(start, steps).is_le(),
    }
}

/// Returns whether a version is before the end of a gap.
fn is_before_end(gap: &AffectedInterval, version: &Sought<'_>, steps: &mut Steps) -> bool
    ensures answer { result ≡ is_before gap.now.end version.now }
    ensures count { steps.new ≤ steps.old + 1 }
    ensures rises { steps.old ≤ steps.new }
    ensures stays { steps.old ≡ 2 ^ 64 - 1 → steps.new ≡ 2 ^ 64 - 1 }
{
    match &gap.end {
        Bound::Unbounded => true,
        Bound::Exclusive(end) => version.before(end, steps).is_lt(),
        Bound::Inclusive(end) => version.before(end, steps).is_le(),
    }
}

/// Returns the number of gaps at the front of the list whose start is before a version (as `partition_point` does).
fn partition_point(
    complement: &[AffectedInterval],
    version: &Sought<'_>,
    steps: &mut Steps,
) -> usize
    requires turn { AreInTurn complement.now }
    requires starts { EachLaterBegins complement.now }
    ensures within { result ≤ length complement.now }
    ensures before { (k : ℕ) (d : Interval) → k < result → is_after (slice_index_or complement.now k d).start version.now ≡ true }
    ensures after { (k : ℕ) (d : Interval) → result ≤ k → k < length complement.now → is_after (slice_index_or complement.now k d).start version.now ≡ false }
    ensures count { (d : ℕ) → length complement.now < 2 ^ d → steps.new ≤ steps.old + d }
    ensures least { (d : ℕ) → 2 ^ d ≤ length complement.now → steps.new < 2 ^ 64 - 1 → steps.old + d ≤ steps.new }

    // If the first gap has a start too, each turn asks.
    ensures begins { (d : ℕ) (e : Interval) → has_bound (slice_index_or complement.now 0 e).start ≡ true → 2 ^ d ≤ length complement.now + 1
        → steps.new < 2 ^ 64 - 1 → steps.old + d ≤ steps.new }
    ensures rises { steps.old ≤ steps.new }
    ensures stays { steps.old ≡ 2 ^ 64 - 1 → steps.new ≡ 2 ^ 64 - 1 }
{
    let mut low = 0;
    let mut high = complement.len();
    while low < high {
        let middle = low + (high - low) / 2;
        if is_after_start(&complement[middle], version, steps) {
            low = middle + 1;
        } else {
            high = middle;
        }
    }
    low
}

/// Returns whether a version is in one of the gaps; only the last gap that starts before it can contain it.
pub(crate) fn in_complement(
    complement: &[AffectedInterval],
    version: &Sought<'_>,
    steps: &mut Steps,
) -> bool
    requires turn { AreInTurn complement.now }
    requires starts { EachLaterBegins complement.now }
    ensures answer { result ≡ list_any (λ g. holds g version.now) complement.now }
    ensures count { (d : ℕ) → length complement.now < 2 ^ d → steps.new ≤ steps.old + d + 1 }
    ensures least { (d : ℕ) → 2 ^ d ≤ length complement.now → steps.new < 2 ^ 64 - 1 → steps.old + d ≤ steps.new }
    ensures begins { (d : ℕ) (e : Interval) → has_bound (slice_index_or complement.now 0 e).start ≡ true → 2 ^ d ≤ length complement.now + 1
        → steps.new < 2 ^ 64 - 1 → steps.old + d ≤ steps.new }
    ensures rises { steps.old ≤ steps.new }
    ensures stays { steps.old ≡ 2 ^ 64 - 1 → steps.new ≡ 2 ^ 64 - 1 }
{
    let partition_point = partition_point(complement, version, steps);
    if partition_point == 0 {
        return false;
    }
    is_before_end(&complement[partition_point - 1], version, steps)
}
