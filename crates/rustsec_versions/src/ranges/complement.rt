//! Intervals of affected versions: the gaps between the intervals of requirements.

ghost use Rattle.std.specs.Prelude.{◌≡◌, ◌++◌, [], IfErr, IfOk, OnOk};
ghost use Rattle.rustsec_versions.specs.ranges.Between.{gap_to, complement_between, opposite_bound};
ghost use Rattle.rustsec_values.specs.Failure.{IsMemory};
ghost use Rattle.rustsec_versions.specs.ranges.Complement.{HasValidBounds, cut};
ghost use Rattle.rustsec_versions.specs.interval.Interval.{unbounded};
ghost use Rattle.rustsec_versions.specs.acceptance.Sweep.{spans};
ghost use Rattle.rustsec_versions.specs.Views.{endpoint_of};

use crate::acceptance::merge::Merged;
use crate::bound::Bound;
use crate::ranges::{OsvRange, lower_cut, upper_cut};
use rustsec_values::{ExactClone, Result};
use std::alloc::{AllocError, Global};
use std::marker::Model;

/// An interval of affected versions; it may be empty.
#[derive(Clone, Debug, Drop)]
pub(crate) struct AffectedInterval {
    pub(crate) start: Bound,
    pub(crate) end: Bound,
}

impl Model for AffectedInterval {
    ghost use Rattle.rustsec_versions.specs.interval.Interval.{Interval};
    ghost use Rattle.rustsec_versions.specs.Views.{interval_between};

    ghost Value = { Interval };

    ghost view = { λ g. interval_between g.start g.end };
}

impl ExactClone for AffectedInterval {
    ghost use Rattle.std.proofs.Common.{rules};

    ghost exact = { λ x y e. Prim.search rules };
}

impl AffectedInterval {
    /// Returns the range of the same valid versions: it begins at the successor of an exclusive start and ends at the
    /// successor of an inclusive end.
    pub(crate) fn range(&self, alloc: Global) -> Result<OsvRange>
        requires { HasValidBounds self.now }
        ensures ok { IfOk result (λ r. r ≡ cut self.now) }
        ensures err { IfErr result IsMemory }
    {
        let introduced = lower_cut(alloc, &self.start)?;
        let fixed = upper_cut(alloc, &self.end)?;
        Ok(OsvRange { introduced, fixed })
    }
}

/// Returns the bound on the other side of the same cut: an exclusive end becomes an inclusive start, and so on.
fn opposite_bound(bound: &Bound) -> std::result::Result<Bound, AllocError>
    ensures { IfOk result (λ b. endpoint_of b ≡ opposite_bound (endpoint_of bound.now)) }
{
    match bound {
        Bound::Unbounded => Ok(Bound::Unbounded),
        Bound::Exclusive(version) => Ok(Bound::Inclusive(version.clone()?)),
        Bound::Inclusive(version) => Ok(Bound::Exclusive(version.clone()?)),
    }
}

/// Appends the gap before an interval with this start, if the start is bounded.
fn add_gap_before(
    from: Bound,
    start: &Bound,
    complement: &mut Vec<AffectedInterval>,
) -> std::result::Result<(), AllocError>
    ensures { OnOk result (complement.new.items ≡ complement.old.items ++ gap_to (endpoint_of from) (endpoint_of start.now) []) }
{
    match opposite_bound(start)? {
        Bound::Unbounded => Ok(()),
        end => complement
            .push(AffectedInterval { start: from, end })
            .map_err(|_| AllocError),
    }
}

/// Returns the gaps between intervals that are sorted by their starts.
pub(crate) fn complement(
    alloc: Global,
    intervals: &[Merged],
) -> std::result::Result<Vec<AffectedInterval>, AllocError>
    ensures { IfOk result (λ v. v.items ≡ complement_between unbounded (spans intervals.now)) }
{
    let mut complement = Vec::new(alloc);
    let mut from = Bound::Unbounded;
    for interval in intervals {
        add_gap_before(from, interval.start(), &mut complement)?;
        match opposite_bound(interval.end())? {
            Bound::Unbounded => return Ok(complement),
            next => from = next,
        }
    }
    let last = AffectedInterval {
        start: from,
        end: Bound::Unbounded,
    };
    complement.push(last).map_err(|_| AllocError)?;
    Ok(complement)
}
