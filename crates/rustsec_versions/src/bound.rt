//! A bound: the start or the end of an interval.

ghost use Rattle.std.specs.Prelude.{◌≡◌, IfErr, IfOk, OnErr, option_map, true};
ghost use Rattle.std.specs.Cmp.{on_equiv, on_per, partial_equiv_from_equiv};
ghost use Rattle.semver.specs.Identifiers.{parts_of};
ghost use Rattle.rustsec_versions.specs.Equality.{endpoint_eq, endpoint_equiv};
ghost use Rattle.rustsec_values.specs.Failure.{IsMemory};
ghost use Rattle.rustsec_versions.specs.interval.Interval.{has_bound};
ghost use Rattle.rustsec_versions.specs.Views.{bound_version_of, endpoint_of};

use rustsec_values::Result;
use semver::Version;
use std::alloc::{AllocError, Global};

/// The start or the end of an interval.
#[derive(Debug, Drop)]
pub enum Bound {
    /// No bound: every version is on this side.
    Unbounded,
    /// The versions beyond this one, without the version itself.
    Exclusive(Version),
    /// The versions from this one on, with the version itself.
    Inclusive(Version),
}

impl Bound {
    /// Returns the version, unless the bound is `Unbounded`.
    pub fn version(&self) -> Option<&Version>
        ensures { option_map (λ v. parts_of v.now) result ≡ bound_version_of self.now }
    {
        match self {
            Bound::Unbounded => None,
            Bound::Exclusive(version) => Some(version),
            Bound::Inclusive(version) => Some(version),
        }
    }

    /// Returns an equal bound.
    ///
    /// # Errors
    ///
    /// `OutOfMemory` alone.
    pub fn clone(&self, _alloc: Global) -> Result<Bound>
        ensures ok { IfOk result (λ b. endpoint_of b ≡ endpoint_of self.now) }
        ensures err { IfErr result IsMemory }

        // `Unbounded` takes no memory.
        ensures none { OnErr result (has_bound (endpoint_of self.now) ≡ true) }
    {
        let copy = Clone::clone(self)?;
        Ok(copy)
    }
}

impl Clone for Bound {
    ghost is_clone = { λ a b. endpoint_of b ≡ endpoint_of a };

    // `Unbounded` takes no memory.
    fn clone(&self) -> std::result::Result<Bound, AllocError>
        ensures ok { IfOk result (λ b. endpoint_of b ≡ endpoint_of self.now) }
        ensures none { OnErr result (has_bound (endpoint_of self.now) ≡ true) }
    {
        match self {
            Bound::Unbounded => Ok(Bound::Unbounded),
            Bound::Exclusive(version) => Ok(Bound::Exclusive(version.clone()?)),
            Bound::Inclusive(version) => Ok(Bound::Inclusive(version.clone()?)),
        }
    }
}

impl PartialEq for Bound {
    ghost eq = { λ a b. endpoint_eq (endpoint_of a) (endpoint_of b) };

    ghost laws = { on_per endpoint_of (partial_equiv_from_equiv endpoint_equiv) };

    fn eq(&self, other: &Bound) -> bool {
        match (self, other) {
            (Bound::Unbounded, Bound::Unbounded) => true,
            (Bound::Exclusive(a), Bound::Exclusive(b)) => a == b,
            (Bound::Inclusive(a), Bound::Inclusive(b)) => a == b,
            _ => false,
        }
    }
}

impl Eq for Bound {
    ghost laws = { on_equiv endpoint_of endpoint_equiv };
}
