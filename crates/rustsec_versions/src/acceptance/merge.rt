//! Merges overlapping intervals of patched requirements, and finds requirements that clash.

ghost use Rattle.std.specs.Prelude.{◌≡◌, ◌&&◌, ◌++◌, Err, IfErr, IfOk, IsPermutation, Ok, map, true};
ghost use Rattle.std.specs.List.Sorted.{IsSortedByKey};
ghost use Rattle.rustsec_versions.specs.acceptance.FirstClash.{IsFirstClash};
ghost use Rattle.rustsec_versions.specs.acceptance.Lists.{Lists, all_admissible};
ghost use Rattle.rustsec_versions.specs.acceptance.Sweep.{all_swept, all_tagged, later, swept};
ghost use Rattle.rustsec_versions.specs.interval.Interval.{overlap};
ghost use Rattle.rustsec_versions.specs.interval.StartOrder.{start_order};
ghost use Rattle.rustsec_versions.specs.order.Precedence.{version_order};
ghost use Rattle.rustsec_versions.specs.Views.{endpoint_of};

use crate::acceptance::tagged::TaggedInterval;
use crate::bound::Bound;
use crate::interval::end_le;
use std::alloc::{AllocError, Global};
use std::marker::Model;

/// The merged interval of overlapping patched requirements, or the interval of one requirement.
#[derive(Drop)]
pub(crate) struct Merged<'a> {
    start: &'a Bound,
    /// The one of the intervals that ends last.
    last: &'a TaggedInterval<'a>,
}

impl<'a> Model for Merged<'a> {
    ghost use Rattle.rustsec_versions.specs.acceptance.Sweep.{TaggedInterval, from_start};
    ghost use Rattle.rustsec_versions.specs.Views.{endpoint_of};

    ghost Value = { TaggedInterval };

    ghost view = { λ m. from_start (endpoint_of m.start.now) m.last.now };
}

impl<'a> Merged<'a> {
    /// Returns the start.
    pub(crate) fn start(&self) -> &'a Bound
        ensures { endpoint_of result.now ≡ self.now.interval.start }
    {
        self.start
    }

    /// Returns the end.
    pub(crate) fn end(&self) -> &'a Bound
        ensures { endpoint_of result.now ≡ self.now.interval.end }
    {
        let last = self.last;
        last.interval.end()
    }
}

/// The intervals of two requirements that clash; the first one does not start after the second one.
pub(crate) type Clash<'a> = (&'a TaggedInterval<'a>, &'a TaggedInterval<'a>);

/// Returns whether the intervals of two requirements overlap.
fn overlap(first: &TaggedInterval, second: &TaggedInterval) -> bool
    ensures { result ≡ overlap version_order first.now.interval second.now.interval }
{
    first.interval.overlaps(&second.interval)
}

/// Returns whether two requirements are both patched, so that their intervals may overlap.
fn are_patched(first: &TaggedInterval, second: &TaggedInterval) -> bool
    ensures { result ≡ (first.now.is_patched && second.now.is_patched) }
{
    first.is_patched && second.is_patched
}

/// Returns the one of two intervals that ends later; the first one if both end at one place.
fn later<'a>(
    first: &'a TaggedInterval<'a>,
    second: &'a TaggedInterval<'a>,
) -> &'a TaggedInterval<'a>
    ensures { result.now ≡ later first.now second.now }
{
    if end_le(second.interval.end(), first.interval.end()) {
        first
    } else {
        second
    }
}

/// Returns the merged intervals from one interval on, or the first two that clash.
fn sweep<'a>(
    alloc: Global,
    first: &'a TaggedInterval<'a>,
    others: &[&'a TaggedInterval<'a>],
) -> std::result::Result<std::result::Result<Vec<Merged<'a>>, Clash<'a>>, AllocError>
    ensures merged { IfOk result (λ o. IfOk o (λ v. swept first.now.interval.start first.now (map (λ x. x.now) others.now) ≡ Ok v.items)) }
    ensures clash { IfOk result (λ o. IfErr o (λ p. swept first.now.interval.start first.now (map (λ x. x.now) others.now) ≡ Err (p.0.now, p.1.now))) }
{
    let mut done = Vec::new(alloc);
    let mut start = first.interval.start();
    let mut last = first;
    for next in others {
        if !overlap(last, next) {
            done.push(Merged { start, last }).map_err(|_| AllocError)?;
            start = next.interval.start();
            last = next;
        } else if are_patched(last, next) {
            last = later(last, next);
        } else {
            return Ok(Err((last, next)));
        }
    }
    done.push(Merged { start, last }).map_err(|_| AllocError)?;
    Ok(Ok(done))
}

/// Returns the merged intervals of a list that is sorted by starts, or the first two that clash.
pub(crate) fn merged_intervals<'a>(
    alloc: Global,
    sorted: &[&'a TaggedInterval<'a>],
) -> std::result::Result<std::result::Result<Vec<Merged<'a>>, Clash<'a>>, AllocError>
    ensures merged { IfOk result (λ o. IfOk o (λ v. all_swept (map (λ x. x.now) sorted.now) ≡ Ok v.items)) }

    // The intervals of admissible requirements in the order of their starts.
    ensures clash { IfOk result (λ o. IfErr o (λ p. (ls : Lists) → all_admissible (ls.patched ++ ls.unaffected) ≡ true
        → IsPermutation (all_tagged ls) (map (λ x. x.now) sorted.now) → IsSortedByKey (λ x. x.now.interval.start) start_order sorted.now
        → IsFirstClash (map (λ x. x.now) sorted.now) p.0.now p.1.now)) }
{
    match sorted.split_first() {
        Some((first, others)) => sweep(alloc, first, others),
        None => Ok(Ok(Vec::new(alloc))),
    }
}
