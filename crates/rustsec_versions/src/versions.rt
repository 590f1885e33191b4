//! The lists of requirements of an advisory, and which versions they leave affected.

pub(crate) mod advisory_ranges;
mod apart;

ghost use Rattle.std.specs.Prelude.{◌≡◌, ◌<◌, ◌+◌, ◌-◌, ◌^◌, ◌≤◌, ◌∷◌, ℕ, IfErr, IfOk, List, OnErr, OnOk, false, is_some, length, map, true};
ghost use Rattle.std.specs.Cmp.{partial_equiv_from_equiv};
ghost use Rattle.semver.specs.Identifiers.{parts_of};
ghost use Rattle.rustsec_versions.specs.ranges.Between.{IsComplementOf};
ghost use Rattle.rustsec_versions.specs.Equality.{lists_eq, lists_equiv};
ghost use Rattle.rustsec_versions.specs.EqualityLaws.{lists_decides};
ghost use Rattle.rustsec_values.specs.Failure.{IsMemory, IsRefusal};
ghost use Rattle.rustsec_versions.specs.acceptance.Lists.{Lists, accepted, accepted_apart, affected, no_lists};
ghost use Rattle.rustsec_versions.specs.order.Precedence.{with_build};
ghost use Rattle.rustsec_versions.specs.ranges.Ranges.{Range, SameInEachList};
ghost use Rattle.rustsec_versions.specs.ranges.AcceptedRanges.{AreMergedRanges, AreRangesOf, HasBinaryDigits, HasUnboundedInterval};
ghost use Rattle.rustsec_versions.specs.Views.{comparators_of, lists_of};

use crate::acceptance::merge::merged_intervals;
use crate::acceptance::overlaps::overlap_error;
use crate::acceptance::tagged::{by_start, tagged_intervals};
use crate::ranges::complement::{AffectedInterval, complement};
use crate::ranges::{OsvRange, ranges_of};
use crate::requirement::requirements::Requirements;
use crate::search::in_complement;
use crate::search::steps::{Sought, Steps};
use crate::versions::apart::are_apart;
use rustsec_values::{Error, ErrorKind, ExactClone, ExactEq, Result};
use semver::{Version, VersionReq};
use std::alloc::{AllocError, Global};
use std::marker::Model;

/// The requirements of an advisory. Each is admissible, and no two clash; patched ones may overlap one another.
#[derive(Debug, Drop)]
pub struct Versions {
    patched: Requirements,
    unaffected: Requirements,
    /// The affected versions: what the intervals of the requirements leave, in order.
    complement: Vec<AffectedInterval>,
}

impl Model for Versions {
    ghost use Rattle.rustsec_versions.specs.ranges.Between.{IsComplementOf};
    ghost use Rattle.rustsec_versions.specs.acceptance.Lists.{Lists};

    ghost Value = { Lists };

    ghost view = { λ v. record { patched = v.patched; unaffected = v.unaffected } };

    ghost invariant = { λ v. IsComplementOf (record { patched = v.patched; unaffected = v.unaffected }) v.complement.items };
}

/// Returns the gaps between the merged intervals of the requirements.
fn complement_of(
    alloc: Global,
    patched: &Requirements,
    unaffected: &Requirements,
) -> Result<Vec<AffectedInterval>>
    ensures ok { IfOk result (λ v. IsComplementOf (record { patched = patched.now; unaffected = unaffected.now }) v.items) }
    ensures err { IfErr result (IsRefusal ErrorKind.BadParam
        (accepted (record { patched = patched.now; unaffected = unaffected.now }) ≡ false)) }
{
    let all = tagged_intervals(alloc, patched, unaffected, true)?;
    let sorted = by_start(alloc, &all)?;
    match merged_intervals(alloc, &sorted)? {
        Ok(intervals) => {
            let mut complement = complement(alloc, &intervals)?;
            complement.shrink_to_fit();
            Ok(complement)
        }
        Err((first, second)) => Err(overlap_error(alloc, first, second)),
    }
}

impl Versions {
    /// Returns the lists, if each requirement is admissible and no two clash.
    ///
    /// # Errors
    ///
    /// `BadParam` if a requirement is not admissible or two clash, with a message that shows the
    /// requirement or the two; else `OutOfMemory`.
    #[tactic(auto, using(crate::proofs::lemmas::ranges::Agreement::same_accepted, crate::proofs::lemmas::acceptance::Clashes::accepted_if_apart))]
    pub fn new(
        alloc: Global,
        patched: Vec<VersionReq>,
        unaffected: Vec<VersionReq>,
    ) -> Result<Versions>
        ensures ok { IfOk result (λ v. v ≡ lists_of patched.items unaffected.items) }
        ensures accepted { OnOk result (accepted (lists_of patched.items unaffected.items) ≡ true) }

        // The order of the requirements of each list doesn't change acceptance.
        ensures order { (ls : Lists) → SameInEachList (lists_of patched.items unaffected.items) ls
            → accepted ls ≡ accepted (lists_of patched.items unaffected.items) }

        // Lists that are accepted with every requirement as an unaffected one are accepted.
        ensures apart { accepted_apart (lists_of patched.items unaffected.items) ≡ true
            → accepted (lists_of patched.items unaffected.items) ≡ true }
        ensures err { IfErr result (IsRefusal ErrorKind.BadParam (accepted (lists_of patched.items unaffected.items) ≡ false)) }
    {
        let patched = Requirements::from(patched);
        let unaffected = Requirements::from(unaffected);
        let complement = complement_of(alloc, &patched, &unaffected)?;
        Ok(Versions {
            patched,
            unaffected,
            complement,
        })
    }

    /// Returns empty lists, so that every version is affected.
    ///
    /// # Errors
    ///
    /// `OutOfMemory` alone.
    pub fn default(alloc: Global) -> Result<Versions>
        ensures ok { IfOk result (λ v. v ≡ no_lists) }
        ensures err { IfErr result IsMemory }
    {
        Versions::new(alloc, Vec::new(alloc), Vec::new(alloc))
    }

    /// Returns the requirements whose versions are patched.
    pub fn patched(&self) -> &[VersionReq]
        ensures { map comparators_of result.now ≡ self.now.patched }
    {
        self.patched.as_slice()
    }

    /// Returns the requirements whose versions were never affected.
    pub fn unaffected(&self) -> &[VersionReq]
        ensures { map comparators_of result.now ≡ self.now.unaffected }
    {
        self.unaffected.as_slice()
    }

    /// Returns whether a version is affected: whether no requirement's interval holds it, by precedence (SemVer
    /// 2.0.0, section 11). It searches as `is_vulnerable_counted` does.
    pub fn is_vulnerable(&self, version: &Version) -> bool
        ensures answer { result ≡ affected self.now (parts_of version.now) }

        // Build metadata of the version changes nothing.
        ensures build { (b : List ℕ) → affected self.now (with_build b (parts_of version.now)) ≡ result }
        ensures accepted { accepted self.now ≡ true }
    {
        let mut steps = Steps::new();
        self.is_vulnerable_counted(version, &mut steps)
    }

    /// Returns whether a version is affected, by a binary search in the affected intervals. It counts the comparisons
    /// of versions: at most one more than the number of ranges has binary digits, and at least one less.
    pub fn is_vulnerable_counted(&self, version: &Version, steps: &mut Steps) -> bool
        ensures answer { result ≡ affected self.now (parts_of version.now) }
        ensures build { (b : List ℕ) → affected self.now (with_build b (parts_of version.now)) ≡ result }
        ensures accepted { accepted self.now ≡ true }
        ensures count { (rs : List Range) (digits : ℕ) → AreMergedRanges self.now rs → HasBinaryDigits (length rs) digits
            → steps.new ≤ steps.old + digits + 1 }

        // It counts at least one less than the number of ranges has digits, unless the count has reached its greatest
        // number.
        ensures least { (rs : List Range) (digits : ℕ) → AreMergedRanges self.now rs → HasBinaryDigits (length rs) digits
            → steps.new < 2 ^ 64 - 1 → steps.old + digits ≤ steps.new + 1 }

        // Where the first range has an introduction, it counts at least one less than one more than that number has,
        // so at least one.
        ensures begins { (r : Range) (rs : List Range) (digits : ℕ) → AreMergedRanges self.now (r ∷ rs)
            → is_some r.introduced ≡ true → HasBinaryDigits (length (r ∷ rs) + 1) digits
            → steps.new < 2 ^ 64 - 1 → steps.old + digits ≤ steps.new + 1 }
        ensures rises { steps.old ≤ steps.new }
        ensures stays { steps.old ≡ 2 ^ 64 - 1 → steps.new ≡ 2 ^ 64 - 1 }
    {
        in_complement(&self.complement, &Sought::new(version), steps)
    }

    /// Returns whether no two requirements overlap, whichever lists they are in. Here patched ones may overlap one
    /// another; the Rust crate refuses those.
    ///
    /// # Errors
    ///
    /// Out of memory.
    pub fn are_apart(&self, alloc: Global) -> std::result::Result<bool, AllocError>
        ensures ok { IfOk result (λ b. b ≡ accepted_apart self.now) }

        // With one patched requirement at most the answer takes no memory.
        ensures none { OnErr result (1 < length self.now.patched) }
    {
        if self.patched.as_slice().len() <= 1 {
            return Ok(true);
        }
        are_apart(alloc, &self.patched, &self.unaffected)
    }

    /// Returns the ranges that the requirements leave.
    #[tactic(auto, using(crate::proofs::lemmas::ranges::Agreement::some_gap))]
    pub(crate) fn ranges(&self, alloc: Global) -> Result<Vec<OsvRange>>
        ensures ok { IfOk result (λ v. AreRangesOf self.now v.items) }
        ensures none { OnErr result (¬ HasUnboundedInterval self.now) }
        ensures accepted { accepted self.now ≡ true }
        ensures err { IfErr result IsMemory }
    {
        let ranges = ranges_of(alloc, &self.complement)?;
        Ok(ranges)
    }

    /// Returns an equal value.
    ///
    /// # Errors
    ///
    /// `OutOfMemory` alone.
    pub fn clone(&self, _alloc: Global) -> Result<Versions>
        ensures ok { IfOk result (λ v. v ≡ self.now) }
        ensures err { IfErr result IsMemory }
    {
        let copy = Clone::clone(self)?;
        Ok(copy)
    }
}

/// Returns a copy of a list of gaps.
fn copied(
    complement: &Vec<AffectedInterval>,
) -> std::result::Result<Vec<AffectedInterval>, AllocError>
    ensures { IfOk result (λ v. v.items ≡ complement.now.items) }
{
    let copy = complement.clone()?;
    Ok(copy)
}

impl Clone for Versions {
    ghost is_clone = { λ a b. b ≡ a };

    fn clone(&self) -> std::result::Result<Versions, AllocError> {
        let patched = Clone::clone(&self.patched)?;
        let unaffected = Clone::clone(&self.unaffected)?;
        let complement = copied(&self.complement)?;
        Ok(Versions {
            patched,
            unaffected,
            complement,
        })
    }
}

impl ExactClone for Versions {
    ghost exact = { λ x y e. e };
}

impl PartialEq for Versions {
    ghost eq = { lists_eq };

    ghost laws = { partial_equiv_from_equiv lists_equiv };

    /// Returns whether the two lists are equal.
    fn eq(&self, other: &Versions) -> bool {
        self.patched == other.patched && self.unaffected == other.unaffected
    }
}

impl Eq for Versions {
    ghost laws = { lists_equiv };
}

impl ExactEq for Versions {
    ghost decides = { lists_decides };
}
