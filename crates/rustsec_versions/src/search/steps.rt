//! Counts comparisons of versions.

ghost use Rattle.std.specs.Prelude.{◌≡◌, ◌+◌, ◌-◌, ◌≤◌, ◌^◌, min};
ghost use Rattle.semver.specs.Identifiers.{parts_of};
ghost use Rattle.rustsec_versions.specs.order.Precedence.{precedence};

use semver::Version;
use std::cmp::Ordering;
use std::marker::Model;

/// The number of comparisons of versions that were made; it stops at the greatest number of 64 bits.
#[derive(Debug, Drop)]
pub struct Steps {
    count: u64,
}

impl Model for Steps {
    ghost use Rattle.std.specs.Prelude.{ℕ};

    ghost Value = { ℕ };

    ghost view = { λ s. s.count };
}

/// A version that is looked for. Other modules can compare it only through `Steps::cmp`.
#[derive(Drop)]
pub(crate) struct Sought<'a> {
    version: &'a Version,
}

impl<'a> Model for Sought<'a> {
    ghost use Rattle.semver.specs.Identifiers.{parts_of};
    ghost use Rattle.semver.specs.Parse.{Parts};

    ghost Value = { Parts };

    ghost view = { λ s. parts_of s.version.now };
}

impl<'a> Sought<'a> {
    /// Returns a version as one that is looked for.
    pub(crate) fn new(version: &'a Version) -> Sought<'a>
        ensures { result ≡ parts_of version.now }
    {
        Sought { version }
    }

    /// Compares a bound with this version, and counts one comparison.
    pub(crate) fn after(&self, bound: &Version, steps: &mut Steps) -> Ordering
        ensures order { result ≡ precedence (parts_of bound.now) self.now }
        ensures counted { steps.new ≡ min (steps.old + 1) (2 ^ 64 - 1) }
        ensures rises { steps.old ≤ steps.new }
    {
        steps.cmp(bound, self.version)
    }

    /// Compares this version with a bound, and counts one comparison.
    pub(crate) fn before(&self, bound: &Version, steps: &mut Steps) -> Ordering
        ensures order { result ≡ precedence self.now (parts_of bound.now) }
        ensures counted { steps.new ≡ min (steps.old + 1) (2 ^ 64 - 1) }
        ensures rises { steps.old ≤ steps.new }
    {
        steps.cmp(self.version, bound)
    }
}

impl Steps {
    /// Returns a count of zero.
    pub fn new() -> Steps
        ensures { result ≡ 0 }
    {
        Steps { count: 0 }
    }

    /// Returns the number of comparisons that were made.
    pub fn count(&self) -> u64
        ensures { result ≡ self.now }
    {
        self.count
    }

    /// Compares two versions by precedence (SemVer 2.0.0, section 11) and counts one comparison. At the greatest
    /// number the count stays.
    pub fn cmp(&mut self, a: &Version, b: &Version) -> Ordering
        ensures order { result ≡ precedence (parts_of a.now) (parts_of b.now) }
        ensures counted { self.new ≡ min (self.old + 1) (2 ^ 64 - 1) }
        ensures rises { self.old ≤ self.new }
    {
        self.count = self.count.saturating_add(1);
        a.cmp_precedence(b)
    }
}
