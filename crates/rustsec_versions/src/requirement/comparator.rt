//! The bounds that the comparators of a requirement give.

ghost use Rattle.std.specs.Prelude.{◌≡◌, ◌==◌, ◌&&◌, ◌<◌, ◌^◌, ◌+◌, IfErr, IfOk, None, OnErr, Some, [], ◌∷◌, false, length, true};
ghost use Rattle.semver.specs.Grammar.{is_pre_release};
ghost use Rattle.semver.specs.Identifiers.{comparator_view, parts_of, pre_text};
ghost use Rattle.rustsec_values.specs.Failure.{IsMemory, IsOfKind, IsRefusal};
ghost use Rattle.rustsec_values.specs.Reading.{only_if};
ghost use Rattle.rustsec_versions.specs.Memory.{gives_one_bound, hold_no_text};
ghost use Rattle.rustsec_versions.specs.requirement.Requirement.{caret_end, names_version, base_version, next_major, next_minor, next_patch, of_one, side_of, stated, tilde_end};
ghost use Rattle.rustsec_versions.specs.Views.{comparators_of, endpoint_of, interval_between, side_view};
ghost use Rattle.rustsec_versions.specs.order.Precedence.{fits, least_of};

use crate::bound::Bound;
use crate::order::next_version::least_of;
use crate::requirement::semver_texts::is_out_of_memory;
use rustsec_values::{Error, ErrorKind, Result};
use semver::{BuildMetadata, Comparator, Op, Prerelease, Version, VersionReq};
use std::alloc::{AllocError, Global};

/// Returns a copy of a pre-release, or `BadParam` if it is not SemVer text.
fn checked_pre(alloc: Global, pre: &Prerelease) -> Result<Prerelease>
    ensures ok { IfOk result (λ p. only_if (is_pre_release (pre_text pre.now)) (Some (pre_text pre.now))
        ≡ Some (pre_text p)) }
    ensures err { IfErr result (IsRefusal ErrorKind.BadParam (only_if (is_pre_release (pre_text pre.now)) (Some (pre_text pre.now)) ≡ None)) }
    ensures none { OnErr result ((length (pre_text pre.now) == 0) ≡ false) }
{
    match Prerelease::new(alloc, pre.as_str()) {
        Ok(pre) => Ok(pre),
        Err(e) if is_out_of_memory(e) => Err(Error::from(AllocError)),
        Err(_) => Err(Error::bad_param(alloc, "a pre-release is not of SemVer's grammar")),
    }
}

/// Returns the error for a number that is too large for a version.
fn too_large_error(alloc: Global) -> Error
    ensures { IsOfKind ErrorKind.BadParam result }
{
    Error::bad_param(
        alloc,
        "the upper bound needs a number above 18446744073709551615, the greatest one",
    )
}

fn next_major(alloc: Global, major: u64) -> Result<Version>
    ensures ok { IfOk result (λ v. next_major major ≡ Some (parts_of v)) }
    ensures err { IfErr result (IsRefusal ErrorKind.BadParam (next_major major ≡ None)) }
{
    let Some(next) = major.checked_add(1) else {
        return Err(too_large_error(alloc));
    };
    least_of(alloc, next, 0, 0)
}

fn next_minor(alloc: Global, major: u64, minor: u64) -> Result<Version>
    ensures ok { IfOk result (λ v. next_minor major minor ≡ Some (parts_of v)) }
    ensures err { IfErr result (IsRefusal ErrorKind.BadParam (next_minor major minor ≡ None)) }
{
    let Some(next) = minor.checked_add(1) else {
        return Err(too_large_error(alloc));
    };
    least_of(alloc, major, next, 0)
}

fn next_patch(alloc: Global, major: u64, minor: u64, patch: u64) -> Result<Version>
    ensures ok { IfOk result (λ v. next_patch major minor patch ≡ Some (parts_of v)) }
    ensures err { IfErr result (IsRefusal ErrorKind.BadParam (next_patch major minor patch ≡ None)) }
{
    let Some(next) = patch.checked_add(1) else {
        return Err(too_large_error(alloc));
    };
    least_of(alloc, major, minor, next)
}

/// Returns the exclusive end of a `^` comparator.
fn caret_end(alloc: Global, c: &Comparator) -> Result<Version>
    ensures ok { IfOk result (λ v. caret_end c.now.major c.now.minor c.now.patch ≡ Some (parts_of v)) }
    ensures err { IfErr result (IsRefusal ErrorKind.BadParam (caret_end c.now.major c.now.minor c.now.patch ≡ None)) }
{
    match (c.major, c.minor, c.patch) {
        (_, None, Some(_)) => Err(no_minor_error(alloc)),
        (0, None, None) => next_major(alloc, 0),
        (0, Some(0), Some(patch)) => next_patch(alloc, 0, 0, patch),
        (0, Some(minor), _) => next_minor(alloc, 0, minor),
        (major, _, _) => next_major(alloc, major),
    }
}

/// Returns the exclusive end of a `~` comparator.
fn tilde_end(alloc: Global, c: &Comparator) -> Result<Version>
    ensures ok { IfOk result (λ v. tilde_end c.now.major c.now.minor c.now.patch ≡ Some (parts_of v)) }
    ensures err { IfErr result (IsRefusal ErrorKind.BadParam (tilde_end c.now.major c.now.minor c.now.patch ≡ None)) }
{
    match (c.minor, c.patch) {
        (None, Some(_)) => Err(no_minor_error(alloc)),
        (None, None) => next_major(alloc, c.major),
        (Some(minor), _) => next_minor(alloc, c.major, minor),
    }
}

fn no_minor_error(alloc: Global) -> Error
    ensures { IsOfKind ErrorKind.BadParam result }
{
    Error::bad_param(alloc, "a comparator has a patch number but no minor one")
}

/// Returns the version with these parts, without build metadata.
fn version_of(major: u64, minor: u64, patch: u64, pre: Prerelease) -> Version
    ensures parts { parts_of result ≡ (major, minor, patch, pre_text pre, []) }
    ensures fit { (fits major && (fits minor && fits patch)) ≡ true }
{
    Version {
        major,
        minor,
        patch,
        pre,
        build: BuildMetadata::empty(),
    }
}

/// Returns the version that a comparator names; missing numbers are zero.
fn base_version(alloc: Global, c: &Comparator) -> Result<Version>
    ensures ok { IfOk result (λ v. only_if (names_version (comparator_view c.now)) (Some (base_version (comparator_view c.now)))
        ≡ Some (parts_of v)) }
    ensures err { IfErr result (IsRefusal ErrorKind.BadParam (only_if (names_version (comparator_view c.now)) (Some (base_version (comparator_view c.now))) ≡ None)) }
    ensures none { OnErr result ((length (pre_text c.now.pre) == 0) ≡ false) }
{
    let major = c.major;
    let minor = c.minor.unwrap_or(0);
    let patch = c.patch.unwrap_or(0);
    let pre = checked_pre(alloc, &c.pre)?;
    Ok(version_of(major, minor, patch, pre))
}

/// Returns the bounds of one comparator with this version, by its operator.
fn bounds_by_op(alloc: Global, c: &Comparator, version: Version) -> Result<(Bound, Bound)>
    requires { parts_of version ≡ base_version (comparator_view c.now) }
    ensures ok { IfOk result (λ b. of_one c.now.op (comparator_view c.now) ≡ Some (interval_between b.0 b.1)) }
    ensures err { IfErr result (IsRefusal ErrorKind.BadParam (of_one c.now.op (comparator_view c.now) ≡ None)) }
    ensures none { OnErr result (gives_one_bound c.now.op ≡ false) }
{
    match c.op {
        Op::Greater => Ok((Bound::Exclusive(version), Bound::Unbounded)),
        Op::GreaterEq => Ok((Bound::Inclusive(version), Bound::Unbounded)),
        Op::Less => Ok((Bound::Unbounded, Bound::Exclusive(version))),
        Op::LessEq => Ok((Bound::Unbounded, Bound::Inclusive(version))),
        Op::Exact => {
            let end = version.clone()?;
            Ok((Bound::Inclusive(version), Bound::Inclusive(end)))
        }
        Op::Caret => {
            let end = caret_end(alloc, c)?;
            Ok((Bound::Inclusive(version), Bound::Exclusive(end)))
        }
        Op::Tilde => {
            let end = tilde_end(alloc, c)?;
            Ok((Bound::Inclusive(version), Bound::Exclusive(end)))
        }
        Op::Wildcard => Err(Error::bad_param(
            alloc,
            "a wildcard after a number is not taken without an operator",
        )),
    }
}

/// Returns the bounds of one comparator.
fn bounds_of_one(alloc: Global, c: &Comparator) -> Result<(Bound, Bound)>
    ensures ok { IfOk result (λ b. stated (comparator_view c.now ∷ []) ≡ Some (interval_between b.0 b.1)) }
    ensures err { IfErr result (IsRefusal ErrorKind.BadParam (stated (comparator_view c.now ∷ []) ≡ None)) }
    ensures none { OnErr result (hold_no_text (comparator_view c.now ∷ []) ≡ false) }
{
    let version = base_version(alloc, c)?;
    bounds_by_op(alloc, c, version)
}

/// What one of two comparators gives.
#[derive(Drop)]
pub(crate) enum Side {
    Lower(Bound),
    Upper(Bound),
    Neither,
}

/// Returns the side that a comparator with this version gives, by its operator.
fn side_by_op(c: &Comparator, version: Version) -> Side
    requires { parts_of version ≡ base_version (comparator_view c.now) }
    ensures { side_view result ≡ side_of c.now.op (comparator_view c.now) }
{
    match c.op {
        Op::Greater => Side::Lower(Bound::Exclusive(version)),
        Op::GreaterEq => Side::Lower(Bound::Inclusive(version)),
        Op::Less => Side::Upper(Bound::Exclusive(version)),
        Op::LessEq => Side::Upper(Bound::Inclusive(version)),
        Op::Exact | Op::Caret | Op::Tilde | Op::Wildcard => Side::Neither,
    }
}

/// Returns the side that a comparator gives.
fn side_of(alloc: Global, c: &Comparator) -> Result<Side>
    ensures ok { IfOk result (λ s. only_if (names_version (comparator_view c.now)) (Some (side_of c.now.op (comparator_view c.now)))
        ≡ Some (side_view s)) }
    ensures err { IfErr result (IsRefusal ErrorKind.BadParam (only_if (names_version (comparator_view c.now)) (Some (side_of c.now.op (comparator_view c.now))) ≡ None)) }
{
    let version = base_version(alloc, c)?;
    Ok(side_by_op(c, version))
}

/// Returns why two operators are not a lower and an upper bound.
fn no_two_sides(first: Op, second: Op) -> &'static str {
    match (first, second) {
        (Op::Greater | Op::GreaterEq, Op::Greater | Op::GreaterEq) => "there are two lower bounds",
        (Op::Less | Op::LessEq, Op::Less | Op::LessEq) => "there are two upper bounds",
        _ => "`=`, `^`, `~` or a wildcard is beside another comparator",
    }
}

#[tactic(auto, using(crate::proofs::lemmas::requirement::Stated::stated_two, crate::proofs::lemmas::requirement::Stated::stated_second))]
/// Returns the bounds of two comparators: one must give the start, the other the end.
fn bounds_of_two(alloc: Global, c: &Comparator, d: &Comparator) -> Result<(Bound, Bound)>
    ensures ok { IfOk result (λ b. stated (comparator_view c.now ∷ comparator_view d.now ∷ [])
        ≡ Some (interval_between b.0 b.1)) }
    ensures err { IfErr result (IsRefusal ErrorKind.BadParam (stated (comparator_view c.now ∷ comparator_view d.now ∷ []) ≡ None)) }
{
    let first = side_of(alloc, c)?;
    let second = side_of(alloc, d)?;
    match (first, second) {
        (Side::Lower(start), Side::Upper(end)) => Ok((start, end)),
        (Side::Upper(end), Side::Lower(start)) => Ok((start, end)),
        _ => Err(Error::bad_param(alloc, no_two_sides(c.op, d.op))),
    }
}

#[tactic(auto, using(crate::proofs::lemmas::requirement::Stated::stated_more))]
/// Returns the bounds of a requirement.
pub(crate) fn bounds_of(alloc: Global, req: &VersionReq) -> Result<(Bound, Bound)>
    ensures ok { IfOk result (λ b. stated (comparators_of req.now) ≡ Some (interval_between b.0 b.1)) }
    ensures err { IfErr result (IsRefusal ErrorKind.BadParam (stated (comparators_of req.now) ≡ None)) }
    ensures none { OnErr result (hold_no_text (comparators_of req.now) ≡ false) }
{
    match req.comparators.as_slice() {
        [] => Ok((Bound::Unbounded, Bound::Unbounded)),
        [only] => bounds_of_one(alloc, only),
        [first, second] => bounds_of_two(alloc, first, second),
        _ => Err(Error::bad_param(alloc, "there are more than two comparators")),
    }
}
