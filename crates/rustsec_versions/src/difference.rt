//! Finds a release that the interval of a requirement holds and Cargo's matching does not, or the other way round.

ghost use Rattle.std.specs.Prelude.{◌≡◌, ◌∷◌, ℕ, [], IfErr, IfOk, IfSome, IsSomeAnd, List, None, Ok, OnErr, Some, map, true};
ghost use Rattle.std.specs.List.{All, Any};
ghost use Rattle.semver.specs.EvalViews.{matches_views};
ghost use Rattle.semver.specs.Identifiers.{comparator_view, parts_of};
ghost use Rattle.semver.specs.Parse.{Held, Parts, req_of};
ghost use Rattle.rustsec_values.specs.Failure.{IsRefusal};
ghost use Rattle.rustsec_versions.specs.interval.Interval.{Interval};
ghost use Rattle.rustsec_versions.specs.Memory.{hold_no_text};
ghost use Rattle.rustsec_versions.specs.requirement.Requirement.{interval_of};
ghost use Rattle.rustsec_versions.specs.Views.{comparators_of};
ghost use Rattle.rustsec_versions.specs.Matching.{Agree, IsDifference, IsReadAlike, IsReadAs, IsRelease, IsWhole, LeavesLast, first_patch, is_greater, is_read_differently, with_zeros};

use crate::UnaffectedRange;
use rustsec_values::{ErrorKind, Result};
use semver::{BuildMetadata, Comparator, Prerelease, Version, VersionReq};
use std::alloc::Global;

/// A release on which the interval of a requirement and Cargo's matching differ.
#[derive(Debug, Drop)]
pub struct Difference {
    /// The release.
    pub release: Version,
    /// Whether the interval holds it. If not, Cargo's matching does.
    pub is_held: bool,
}

/// Returns the release of patch number 1 after the numbers that a comparator gives.
fn first_patch(comparator: &Comparator) -> Version
    ensures { parts_of result ≡ first_patch (comparator_view comparator.now) }
{
    Version {
        major: comparator.major,
        minor: comparator.minor.unwrap_or(0),
        patch: 1,
        pre: Prerelease::empty(),
        build: BuildMetadata::empty(),
    }
}

/// Returns whether Cargo's matching takes a version.
fn is_matched(requirement: &VersionReq, version: &Version) -> bool
    ensures { result ≡ matches_views (comparators_of requirement.now) (parts_of version.now) }
{
    requirement.matches(version)
}

/// Returns the first patch of a comparator, if the interval and the matching of the requirement differ on it.
fn difference_at(
    requirement: &VersionReq,
    interval: &UnaffectedRange,
    comparator: &Comparator,
) -> Option<Difference>
    ensures found { IfSome result (λ d. IsDifference (comparators_of requirement.now) interval.now (parts_of d.release) d.is_held) }
    ensures first { IfSome result (λ d. parts_of d.release ≡ first_patch (comparator_view comparator.now)) }
    ensures none { result ≡ None → Agree (comparators_of requirement.now) interval.now (first_patch (comparator_view comparator.now)) }
{
    let release = first_patch(comparator);
    let is_held = interval.holds(&release);
    if is_held == is_matched(requirement, &release) {
        return None;
    }
    Some(Difference { release, is_held })
}

/// Returns the first one of the comparators' first patches on which the interval and the matching differ.
fn first_difference(requirement: &VersionReq, interval: &UnaffectedRange) -> Option<Difference>
    ensures found { IfSome result (λ d. IsDifference (comparators_of requirement.now) interval.now (parts_of d.release) d.is_held) }
    ensures first { IfSome result (λ d. Any (λ c. parts_of d.release ≡ first_patch c) (comparators_of requirement.now)) }
    ensures none { result ≡ None → All (λ c. Agree (comparators_of requirement.now) interval.now (first_patch c)) (comparators_of requirement.now) }
{
    for comparator in requirement.comparators.as_slice() {
        if let Some(found) = difference_at(requirement, interval, comparator) {
            return Some(found);
        }
    }
    None
}

/// Returns a release that the interval of a requirement holds and `VersionReq::matches` does not match, or the other way
/// round, if any. Such a requirement does not mean here what it means to Cargo: `<= 2` ends at 2.0.0 here, while
/// Cargo's matching takes each version of major number 2. Of releases, only comparators with `>`, `<=` or `=` and
/// without a patch number are read differently. Cargo's matching also leaves out most pre-releases, which are not
/// compared here.
///
/// # Errors
///
/// `BadParam` if the requirement is not admissible; else `OutOfMemory`.
pub fn find_difference(alloc: Global, requirement: &VersionReq) -> Result<Option<Difference>>
    ensures found { IfOk result (λ o. (i : Interval) × ((interval_of (comparators_of requirement.now) ≡ Some i)
        × IfSome o (λ d. IsDifference (comparators_of requirement.now) i (parts_of d.release) d.is_held))) }

    // If none is found, the interval and Cargo's matching agree on each release.
    ensures none { IfOk result (λ o. All LeavesLast (comparators_of requirement.now) → o ≡ None → (i : Interval)
        → interval_of (comparators_of requirement.now) ≡ Some i → (v : Parts) → IsRelease v → Agree (comparators_of requirement.now) i v) }

    // What is found is the first patch of a comparator.
    ensures first { IfOk result (λ o. IfSome o (λ d. Any (λ c. parts_of d.release ≡ first_patch c) (comparators_of requirement.now))) }

    // A requirement is read as Cargo's matching reads it with zeros for the numbers that `>`, `>=`, `<`, `<=` and `=` leave out.
    ensures zeros { IsReadAs (comparators_of requirement.now) (map with_zeros (comparators_of requirement.now)) }

    // If all comparators give three numbers, Cargo's matching reads the requirement alike, and nothing is found.
    ensures whole { All IsWhole (comparators_of requirement.now) → IsReadAs (comparators_of requirement.now) (comparators_of requirement.now) }
    ensures whole_none { IfOk result (λ o. All IsWhole (comparators_of requirement.now) → o ≡ None) }

    // So it does if a comparator leaves out its patch only after `>=`, `<`, `^` or `~`.
    ensures alike { All LeavesLast (comparators_of requirement.now) → All IsReadAlike (comparators_of requirement.now)
        → IsReadAs (comparators_of requirement.now) (comparators_of requirement.now) }
    ensures alike_none { IfOk result (λ o. All LeavesLast (comparators_of requirement.now) → All IsReadAlike (comparators_of requirement.now) → o ≡ None) }

    // One comparator of another operator without a patch is read differently; its first patch shows it, and is found.
    ensures single { (c : Held) → comparators_of requirement.now ≡ c ∷ [] → LeavesLast c → is_read_differently c ≡ true → (i : Interval)
        → interval_of (comparators_of requirement.now) ≡ Some i → IsDifference (comparators_of requirement.now) i (first_patch c) (is_greater c.0) }
    ensures single_found { IfOk result (λ o. (c : Held) → comparators_of requirement.now ≡ c ∷ [] → LeavesLast c → is_read_differently c ≡ true
        → IsSomeAnd o (λ d. (parts_of d.release ≡ first_patch c) × (d.is_held ≡ is_greater c.0))) }

    // The comparators of a requirement that is read from a text leave out their last numbers alone.
    ensures read { (text : List ℕ) → req_of text ≡ Ok (comparators_of requirement.now) → All LeavesLast (comparators_of requirement.now) }
    ensures err { IfErr result (IsRefusal ErrorKind.BadParam (interval_of (comparators_of requirement.now) ≡ None)) }

    // No memory is taken for `*`, nor for `>`, `>=`, `<` or `<=` with a release.
    ensures refused { OnErr result (hold_no_text (comparators_of requirement.now) ≡ true → interval_of (comparators_of requirement.now) ≡ None) }
{
    let interval = UnaffectedRange::from_req(alloc, requirement)?;
    let found = first_difference(requirement, &interval);
    Ok(found)
}
