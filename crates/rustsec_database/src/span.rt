//! The versions between which all affected ones are. A search asks them before it reads an advisory.

ghost use Rattle.std.specs.Prelude.{◌≡◌, ◌&&◌, [], map, true};
ghost use Rattle.semver.specs.Identifiers.{comparator_view, parts_of};
ghost use Rattle.rustsec_versions.specs.Views.{comparators_of};
ghost use Rattle.rustsec_versions.specs.ranges.Ranges.{in_range, is_from, is_until};
ghost use Rattle.rustsec_versions.specs.order.Precedence.{fits};
ghost use Rattle.rustsec_database.specs.Spans.{end_by, first_end, first_start, release_of, span_of, start_by};

use rustsec_versions::Versions;
use semver::{Comparator, Op, Version, VersionReq};
use std::marker::Model;

/// A version without a pre-release and without build metadata.
#[derive(Debug, Drop)]
pub(crate) struct Release {
    major: u64,
    minor: u64,
    patch: u64,
}

impl Model for Release {
    ghost use Rattle.std.specs.Prelude.{[]};
    ghost use Rattle.semver.specs.Parse.{Parts};

    ghost Value = { Parts };

    ghost view = { λ r. (r.major, r.minor, r.patch, [], []) };
}

impl Release {
    /// Returns the version.
    fn version(&self) -> Version
        ensures { parts_of result ≡ self.now }
    {
        Version::new(self.major, self.minor, self.patch)
    }
}

/// The versions between which all those are that requirements leave affected: from the first release on, and below the
/// second one, where they are known.
#[derive(Debug, Drop)]
pub(crate) struct Span {
    introduced: Option<Release>,
    fixed: Option<Release>,
}

impl Model for Span {
    ghost use Rattle.rustsec_versions.specs.ranges.Ranges.{Range};

    ghost Value = { Range };

    ghost view = { λ s. record { introduced = s.introduced; fixed = s.fixed } };
}

/// Returns the release of these numbers.
fn with_numbers(major: u64, minor: u64, patch: u64) -> Release
    ensures parts { result ≡ (major, minor, patch, [], []) }
    ensures fit { (fits major && (fits minor && fits patch)) ≡ true }
{
    Release {
        major,
        minor,
        patch,
    }
}

/// Returns the version that a comparator names, unless it has a pre-release. Missing numbers are zero.
fn release_of(comparator: &Comparator) -> Option<Release>
    ensures { result ≡ release_of (comparator_view comparator.now) }
{
    if !comparator.pre.is_empty() {
        return None;
    }
    let minor = comparator.minor.unwrap_or(0);
    let patch = comparator.patch.unwrap_or(0);
    Some(with_numbers(comparator.major, minor, patch))
}

/// Returns the release from which on a requirement holds all versions, if it is `>=` of a release.
fn end_by(req: &VersionReq) -> Option<Release>
    ensures { result ≡ end_by (comparators_of req.now) }
{
    let [comparator] = req.comparators.as_slice() else {
        return None;
    };
    match comparator.op {
        Op::GreaterEq => release_of(comparator),
        _ => None,
    }
}

/// Returns the release below which a requirement holds all versions, if it is `<` of a release.
fn start_by(req: &VersionReq) -> Option<Release>
    ensures { result ≡ start_by (comparators_of req.now) }
{
    let [comparator] = req.comparators.as_slice() else {
        return None;
    };
    match comparator.op {
        Op::Less => release_of(comparator),
        _ => None,
    }
}

/// Returns the release of the first requirement that holds all versions from a release on.
fn first_end(requirements: &[VersionReq]) -> Option<Release>
    ensures { result ≡ first_end (map comparators_of requirements.now) }
{
    for req in requirements {
        if let Some(release) = end_by(req) {
            return Some(release);
        }
    }
    None
}

/// Returns the release of the first requirement that holds all versions below a release.
fn first_start(requirements: &[VersionReq]) -> Option<Release>
    ensures { result ≡ first_start (map comparators_of requirements.now) }
{
    for req in requirements {
        if let Some(release) = start_by(req) {
            return Some(release);
        }
    }
    None
}

/// Returns the span of the affected versions.
#[tactic(auto, unfolding(crate::specs::Spans::span_of))]
pub(crate) fn span_of(versions: &Versions) -> Span
    ensures { result ≡ span_of versions.now }
{
    Span {
        introduced: first_start(versions.unaffected()),
        fixed: first_end(versions.patched()),
    }
}

impl Span {
    /// Returns whether a version is not below where the span begins.
    fn is_from(&self, version: &Version) -> bool
        ensures { result ≡ is_from self.now.introduced (parts_of version.now) }
    {
        match &self.introduced {
            Some(release) => release.version().cmp_precedence(version).is_le(),
            None => true,
        }
    }

    /// Returns whether a version is below where the span ends.
    pub(crate) fn is_until(&self, version: &Version) -> bool
        ensures { result ≡ is_until self.now.fixed (parts_of version.now) }
    {
        match &self.fixed {
            Some(release) => version.cmp_precedence(&release.version()).is_lt(),
            None => true,
        }
    }

    /// Returns whether a version is in the span. One that is not is not affected.
    pub(crate) fn holds(&self, version: &Version) -> bool
        ensures { result ≡ in_range self.now (parts_of version.now) }
    {
        self.is_from(version) && self.is_until(version)
    }
}
