//! The intervals of the requirements of both lists, in the order of their starts.

ghost use Rattle.std.specs.Prelude.{◌≡◌, ◌++◌, ◌∷◌, [], IfErr, IfOk, IsPermutation, OnOk, false, map, true};
ghost use Rattle.std.specs.List.Sorted.{IsSortedByKey};
ghost use Rattle.rustsec_values.specs.Failure.{IsRefusal};
ghost use Rattle.rustsec_versions.specs.interval.StartOrder.{start_order};
ghost use Rattle.rustsec_versions.specs.acceptance.Lists.{all_admissible};
ghost use Rattle.rustsec_versions.specs.acceptance.Sweep.{tagged};
ghost use Rattle.rustsec_versions.specs.Views.{comparators_of, endpoint_of};

use crate::bound::Bound;
use crate::interval::UnaffectedRange;
use crate::requirement::requirements::Requirements;
use rustsec_values::{ErrorKind, Result};
use semver::VersionReq;
use std::alloc::{AllocError, Global};
use std::cmp::Ordering;
use std::marker::Model;

/// The interval of a requirement, and whether the requirement is in the patched list.
#[derive(Drop)]
pub(crate) struct TaggedInterval<'a> {
    pub(crate) interval: UnaffectedRange,
    pub(crate) requirement: &'a VersionReq,
    pub(crate) is_patched: bool,
}

impl<'a> Model for TaggedInterval<'a> {
    ghost use Rattle.rustsec_versions.specs.acceptance.Sweep.{TaggedInterval};

    ghost Value = { TaggedInterval };

    ghost view = { λ p. record { interval = p.interval; is_patched = p.is_patched } };
}

/// Appends the interval of a requirement.
fn push_tagged<'a>(
    alloc: Global,
    requirement: &'a VersionReq,
    is_patched: bool,
    intervals: &mut Vec<TaggedInterval<'a>>,
) -> Result<()>
    ensures ok { OnOk result (intervals.new.items ≡ intervals.old.items ++ tagged is_patched (comparators_of requirement.now ∷ [])) }
    ensures admissible { OnOk result (all_admissible (comparators_of requirement.now ∷ []) ≡ true) }
    ensures err { IfErr result (IsRefusal ErrorKind.BadParam (all_admissible (comparators_of requirement.now ∷ []) ≡ false)) }
{
    let interval = UnaffectedRange::from_req(alloc, requirement)?;
    let next = TaggedInterval {
        interval,
        requirement,
        is_patched,
    };
    intervals.push(next).map_err(|_| AllocError)?;
    Ok(())
}

/// Appends the interval of each requirement of one list.
fn add_tagged<'a>(
    alloc: Global,
    reqs: &'a [VersionReq],
    is_patched: bool,
    intervals: &mut Vec<TaggedInterval<'a>>,
) -> Result<()>
    ensures ok { OnOk result (intervals.new.items ≡ intervals.old.items ++ tagged is_patched (map comparators_of reqs.now)) }
    ensures admissible { OnOk result (all_admissible (map comparators_of reqs.now) ≡ true) }
    ensures err { IfErr result (IsRefusal ErrorKind.BadParam (all_admissible (map comparators_of reqs.now) ≡ false)) }
{
    for requirement in reqs {
        push_tagged(alloc, requirement, is_patched, intervals)?;
    }
    Ok(())
}

/// Returns the intervals of the requirements of two lists: those of the patched ones, marked as such or not, and those
/// of the unaffected ones.
pub(crate) fn tagged_intervals<'a>(
    alloc: Global,
    patched: &'a Requirements,
    unaffected: &'a Requirements,
    is_patched: bool,
) -> Result<Vec<TaggedInterval<'a>>>
    ensures ok { IfOk result (λ v. v.items ≡ tagged is_patched patched.now ++ tagged false unaffected.now) }
    ensures admissible { OnOk result (all_admissible (patched.now ++ unaffected.now) ≡ true) }
    ensures err { IfErr result (IsRefusal ErrorKind.BadParam (all_admissible (patched.now ++ unaffected.now) ≡ false)) }
{
    let patched = patched.as_slice();
    let unaffected = unaffected.as_slice();
    let mut intervals = Vec::new(alloc);
    add_tagged(alloc, patched, is_patched, &mut intervals)?;
    add_tagged(alloc, unaffected, false, &mut intervals)?;
    Ok(intervals)
}

/// Compares two starts, in the order of `Version`.
fn compare_starts(a: &Bound, b: &Bound) -> Ordering
    ensures { result ≡ start_order (endpoint_of a.now) (endpoint_of b.now) }
{
    match (a, b) {
        (Bound::Unbounded, Bound::Unbounded) => Ordering::Equal,
        (Bound::Unbounded, _) => Ordering::Less,
        (_, Bound::Unbounded) => Ordering::Greater,
        (Bound::Inclusive(a), Bound::Inclusive(b)) => a.cmp(b),
        (Bound::Exclusive(a), Bound::Exclusive(b)) => a.cmp(b),
        (Bound::Inclusive(a), Bound::Exclusive(b)) => a.cmp(b).then(Ordering::Less),
        (Bound::Exclusive(a), Bound::Inclusive(b)) => a.cmp(b).then(Ordering::Greater),
    }
}

/// Returns references to intervals.
fn references<'a, 'b>(
    alloc: Global,
    intervals: &'b [TaggedInterval<'a>],
) -> std::result::Result<Vec<&'b TaggedInterval<'a>>, AllocError>
    ensures { IfOk result (λ v. map (λ x. x.now) v.items ≡ intervals.now) }
{
    intervals.iter().collect(alloc)
}

/// Sorts references to intervals by their starts.
fn sort_by_start<'a, 'b>(
    intervals: &mut Vec<&'b TaggedInterval<'a>>,
) -> std::result::Result<(), AllocError>
    ensures same { IsPermutation intervals.old.items intervals.new.items }
    ensures sorted { OnOk result (IsSortedByKey (λ x. x.now.interval.start) start_order intervals.new.items) }
{
    intervals.sort_by(|a, b| compare_starts(a.interval.start(), b.interval.start()))
}

/// Returns references to intervals, sorted by their starts.
pub(crate) fn by_start<'a, 'b>(
    alloc: Global,
    intervals: &'b [TaggedInterval<'a>],
) -> std::result::Result<Vec<&'b TaggedInterval<'a>>, AllocError>
    ensures same { IfOk result (λ v. IsPermutation intervals.now (map (λ x. x.now) v.items)) }
    ensures sorted { IfOk result (λ v. IsSortedByKey (λ x. x.now.interval.start) start_order v.items) }
{
    let mut sorted = references(alloc, intervals)?;
    sort_by_start(&mut sorted)?;
    Ok(sorted)
}
