//! Intervals of versions that are not affected.

ghost use Rattle.std.specs.Prelude.{◌≡◌, ◌⊎◌, IfErr, IfOk, OnErr, OnOk, None, Some, false, true};
ghost use Rattle.std.specs.Cmp.{partial_equiv_from_equiv};
ghost use Rattle.std.specs.Fmt.{DisplaysOnOk};
ghost use Rattle.semver.specs.Identifiers.{parts_of};
ghost use Rattle.rustsec_versions.specs.Equality.{interval_eq, interval_equiv};
ghost use Rattle.rustsec_values.specs.Failure.{IsMemory, IsOfKind, IsRefusal};
ghost use Rattle.rustsec_versions.specs.interval.Interval.{end_le, has_bound, holds, is_after, is_before, overlap, reaches};
ghost use Rattle.rustsec_versions.specs.interval.IntervalText.{end_text, interval_text, start_text};
ghost use Rattle.rustsec_versions.specs.Memory.{hold_no_text};
ghost use Rattle.rustsec_versions.specs.order.Precedence.{version_order};
ghost use Rattle.rustsec_versions.specs.requirement.Requirement.{has_successor, interval_of, end_cut_exists, start_cut_exists};
ghost use Rattle.rustsec_versions.specs.Views.{comparators_of, endpoint_of, interval_between};

use crate::bound::Bound;
use crate::requirement::comparator::bounds_of;
use crate::requirement::print::{quoted_bound, with_requirement};
use rustsec_values::{Error, ErrorKind, ExactClone, ExactEq, Result};
use semver::{Version, VersionReq};
use std::alloc::{AllocError, Global};
use std::fmt;
use std::marker::Model;

/// Returns whether a start is at or below an end, in the order of `Version`.
pub(crate) fn reaches(start: &Bound, end: &Bound) -> bool
    ensures { result ≡ reaches version_order (endpoint_of start.now) (endpoint_of end.now) }
{
    match (start, end) {
        (Bound::Unbounded, _) | (_, Bound::Unbounded) => true,
        (Bound::Inclusive(a), Bound::Inclusive(b)) => a.cmp(b).is_le(),
        (Bound::Inclusive(a) | Bound::Exclusive(a), Bound::Inclusive(b) | Bound::Exclusive(b)) => {
            a.cmp(b).is_lt()
        }
    }
}

/// Returns whether a version satisfies a start, by precedence.
fn is_after(start: &Bound, version: &Version) -> bool
    ensures { result ≡ is_after (endpoint_of start.now) (parts_of version.now) }
{
    match start {
        Bound::Unbounded => true,
        Bound::Exclusive(start) => start.cmp_precedence(version).is_lt(),
        Bound::Inclusive(start) => start.cmp_precedence(version).is_le(),
    }
}

/// Returns whether a version satisfies an end, by precedence.
fn is_before(end: &Bound, version: &Version) -> bool
    ensures { result ≡ is_before (endpoint_of end.now) (parts_of version.now) }
{
    match end {
        Bound::Unbounded => true,
        Bound::Exclusive(end) => version.cmp_precedence(end).is_lt(),
        Bound::Inclusive(end) => version.cmp_precedence(end).is_le(),
    }
}

/// Returns whether the first end is the second one or before it, by precedence.
pub(crate) fn end_le(first: &Bound, second: &Bound) -> bool
    ensures { result ≡ end_le (endpoint_of first.now) (endpoint_of second.now) }
{
    match (first, second) {
        (_, Bound::Unbounded) => true,
        (Bound::Unbounded, _) => false,
        (Bound::Inclusive(d), Bound::Exclusive(e)) => d.cmp_precedence(e).is_lt(),
        (Bound::Inclusive(d), Bound::Inclusive(e)) => d.cmp_precedence(e).is_le(),
        (Bound::Exclusive(d), Bound::Inclusive(e) | Bound::Exclusive(e)) => {
            d.cmp_precedence(e).is_le()
        }
    }
}

/// Returns whether a version has a successor.
fn has_successor(version: &Version) -> bool
    ensures { result ≡ has_successor (parts_of version.now) }
{
    !version.pre.is_empty() || version.patch < u64::MAX
}

/// Returns whether the successor that an exclusive start needs exists.
fn start_cut_exists(bound: &Bound) -> bool
    ensures { result ≡ start_cut_exists (endpoint_of bound.now) }
{
    match bound {
        Bound::Unbounded | Bound::Inclusive(_) => true,
        Bound::Exclusive(version) => has_successor(version),
    }
}

/// Returns whether the successor that an inclusive end needs exists.
fn end_cut_exists(bound: &Bound) -> bool
    ensures { result ≡ end_cut_exists (endpoint_of bound.now) }
{
    match bound {
        Bound::Unbounded | Bound::Exclusive(_) => true,
        Bound::Inclusive(version) => has_successor(version),
    }
}

/// An interval of unaffected versions, whose start is at or below its end.
#[derive(Debug, Drop)]
pub struct UnaffectedRange {
    start: Bound,
    end: Bound,
}

impl Model for UnaffectedRange {
    ghost use Rattle.std.specs.Prelude.{◌≡◌, true};
    ghost use Rattle.rustsec_versions.specs.interval.Interval.{Interval, reaches};
    ghost use Rattle.rustsec_versions.specs.order.Precedence.{version_order};
    ghost use Rattle.rustsec_versions.specs.Views.{endpoint_of, interval_between};

    ghost Value = { Interval };

    ghost view = { λ r. interval_between r.start r.end };

    ghost invariant = { λ r. reaches version_order (endpoint_of r.start) (endpoint_of r.end) ≡ true };
}

/// Returns the interval of a requirement, without the text of the requirement in an error.
fn admissible_interval(alloc: Global, req: &VersionReq) -> Result<UnaffectedRange>
    ensures ok { IfOk result (λ r. interval_of (comparators_of req.now) ≡ Some r) }
    ensures err { IfErr result
        (IsRefusal ErrorKind.BadParam (interval_of (comparators_of req.now) ≡ None)) }
    ensures none { OnErr result (hold_no_text (comparators_of req.now) ≡ true → interval_of (comparators_of req.now) ≡ None) }
{
    let (start, end) = bounds_of(alloc, req)?;
    if !start_cut_exists(&start) || !end_cut_exists(&end) {
        return Err(no_version_above_error(alloc));
    }
    UnaffectedRange::new(alloc, start, end)
}

/// Returns the error for a bound at a release whose patch number is the greatest one.
fn no_version_above_error(alloc: Global) -> Error
    ensures { IsOfKind ErrorKind.BadParam result }
{
    Error::bad_param(
        alloc,
        "a bound needs the version above a release whose patch number is 18446744073709551615, the greatest one",
    )
}

/// Returns the error for a start that is not at or below the end; its message shows both.
fn order_error(alloc: Global, start: &Bound, end: &Bound) -> Error
    ensures { IsOfKind ErrorKind.BadParam result }
{
    match (
        quoted_bound(alloc, ">", start),
        quoted_bound(alloc, "<", end),
    ) {
        (Ok(lower), Ok(upper)) => match format!(in alloc;
            "the lower bound {lower} is not below the upper bound {upper}"
        ) {
            Ok(message) => Error::bad_param(alloc, message.as_str()),
            Err(refused) => Error::from(refused),
        },
        _ => Error::from(AllocError),
    }
}

impl UnaffectedRange {
    /// Returns the interval of a requirement: the versions that it states as unaffected.
    ///
    /// # Errors
    ///
    /// `BadParam` if the requirement is not admissible, with a message that shows its text and says
    /// what is wrong with it; else `OutOfMemory`.
    pub fn from_req(alloc: Global, req: &VersionReq) -> Result<UnaffectedRange>
        ensures ok { IfOk result (λ r. interval_of (comparators_of req.now) ≡ Some r) }
        ensures err { IfErr result
            (IsRefusal ErrorKind.BadParam (interval_of (comparators_of req.now) ≡ None)) }

        // The interval of `*`, and of `>`, `>=`, `<` or `<=` with a release, takes no memory.
        ensures none { OnErr result (hold_no_text (comparators_of req.now) ≡ true → interval_of (comparators_of req.now) ≡ None) }
    {
        match admissible_interval(alloc, req) {
            Ok(interval) => Ok(interval),
            Err(e) => Err(with_requirement(alloc, req, &e)),
        }
    }

    /// Returns the interval between two bounds.
    ///
    /// # Errors
    ///
    /// `BadParam` if the start is not at or below the end, in the order of `Version`, with a message
    /// that shows both; else `OutOfMemory`.
    pub fn new(alloc: Global, start: Bound, end: Bound) -> Result<UnaffectedRange>
        ensures ok { IfOk result (λ r. r ≡ interval_between start end) }
        ensures in_order { OnOk result (reaches version_order (endpoint_of start) (endpoint_of end) ≡ true) }
        ensures err { IfErr result (IsRefusal ErrorKind.BadParam
            (reaches version_order (endpoint_of start) (endpoint_of end) ≡ false)) }

        // An interval takes no memory, so bounds in order are never refused.
        ensures refused { OnErr result (reaches version_order (endpoint_of start) (endpoint_of end) ≡ false) }
    {
        if reaches(&start, &end) {
            Ok(UnaffectedRange { start, end })
        } else {
            Err(order_error(alloc, &start, &end))
        }
    }

    /// Returns the start.
    pub fn start(&self) -> &Bound
        ensures { endpoint_of result.now ≡ self.now.start }
    {
        &self.start
    }

    /// Returns the end.
    pub fn end(&self) -> &Bound
        ensures { endpoint_of result.now ≡ self.now.end }
    {
        &self.end
    }

    /// Returns whether each interval's start is at or below the other's end, in the order of `Version`.
    pub fn overlaps(&self, other: &UnaffectedRange) -> bool
        ensures { result ≡ overlap version_order self.now other.now }
    {
        reaches(&self.start, &other.end) && reaches(&other.start, &self.end)
    }

    /// Returns whether a version satisfies the start and the end, by precedence (SemVer 2.0.0, section 11).
    pub fn holds(&self, version: &Version) -> bool
        ensures { result ≡ holds self.now (parts_of version.now) }
    {
        is_after(&self.start, version) && is_before(&self.end, version)
    }

    /// Returns an equal interval.
    ///
    /// # Errors
    ///
    /// `OutOfMemory` alone.
    pub fn clone(&self, _alloc: Global) -> Result<UnaffectedRange>
        ensures ok { IfOk result (λ r. r ≡ self.now) }
        ensures err { IfErr result IsMemory }

        // An interval without bounds takes no memory.
        ensures none { OnErr result ((has_bound self.now.start ≡ true) ⊎ (has_bound self.now.end ≡ true)) }
    {
        let copy = Clone::clone(self)?;
        Ok(copy)
    }
}

impl Clone for UnaffectedRange {
    ghost is_clone = { λ a b. b ≡ a };

    // An interval without bounds takes no memory.
    fn clone(&self) -> std::result::Result<UnaffectedRange, AllocError>
        ensures ok { IfOk result (λ r. r ≡ self.now) }
        ensures none { OnErr result ((has_bound self.now.start ≡ true) ⊎ (has_bound self.now.end ≡ true)) }
    {
        let start = Clone::clone(&self.start)?;
        let end = Clone::clone(&self.end)?;
        Ok(UnaffectedRange { start, end })
    }
}

impl ExactClone for UnaffectedRange {
    ghost exact = { λ x y e. e };
}

impl PartialEq for UnaffectedRange {
    ghost eq = { interval_eq };

    ghost laws = { partial_equiv_from_equiv interval_equiv };

    fn eq(&self, other: &UnaffectedRange) -> bool {
        self.start == other.start && self.end == other.end
    }
}

impl Eq for UnaffectedRange {
    ghost laws = { interval_equiv };
}

impl ExactEq for UnaffectedRange {
    ghost use Rattle.rustsec_versions.specs.EqualityLaws.{interval_decides};

    ghost decides = { interval_decides };
}

/// Writes a start: `[0`, `(v` or `[v`.
fn write_start<W: fmt::Write>(f: &mut fmt::Formatter<W>, start: &Bound) -> fmt::Result
    ensures { DisplaysOnOk W.write_str_gives f.old result (Some (start_text (endpoint_of start.now))) f.new }
{
    match start {
        Bound::Unbounded => f.write_str("[0"),
        Bound::Exclusive(version) => write!(f, "({version}"),
        Bound::Inclusive(version) => write!(f, "[{version}"),
    }
}

/// Writes an end: `∞)`, `v)` or `v]`.
fn write_end<W: fmt::Write>(f: &mut fmt::Formatter<W>, end: &Bound) -> fmt::Result
    ensures { DisplaysOnOk W.write_str_gives f.old result (Some (end_text (endpoint_of end.now))) f.new }
{
    match end {
        Bound::Unbounded => f.write_str("∞)"),
        Bound::Exclusive(version) => write!(f, "{version})"),
        Bound::Inclusive(version) => write!(f, "{version}]"),
    }
}

impl fmt::Display for UnaffectedRange {
    ghost output = { λ r. Some (interval_text r) };

    fn fmt<W: fmt::Write>(&self, f: &mut fmt::Formatter<W>) -> fmt::Result {
        write_start(f, &self.start)?;
        f.write_str(", ")?;
        write_end(f, &self.end)
    }
}
