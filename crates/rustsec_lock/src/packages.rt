//! Packages of a lockfile.

ghost use Rattle.std.specs.Prelude.{◌≡◌, IfErr, IfOk, Some, refl};
ghost use Rattle.std.specs.Cmp.{partial_equiv_from_equiv, po};
ghost use Rattle.rustsec_values.specs.Failure.{IsMemory};
ghost use Rattle.rustsec_lock.specs.Package.{package_cmp, package_decides, package_eq, package_equiv, package_ties, package_total};

use crate::names::Name;
use crate::source::SourceId;
use rustsec_values::{ExactClone, ExactEq, Result, Text};
use semver::Version;
use std::alloc::Global;
use std::cmp::Ordering;
use std::marker::Model;

/// A package of a lockfile. Packages are ordered by these fields, in this order.
#[derive(Clone, Debug, Drop)]
pub struct Package {
    /// The name.
    pub name: Name,
    /// The version.
    pub version: Version,
    /// The source, if the lockfile gives one.
    pub source: Option<SourceId>,
    /// The checksum as it is written, if the lockfile gives one.
    pub checksum: Option<Text>,
}

impl Model for Package {
    ghost use Rattle.rustsec_lock.specs.Package.{PackageValue};
    ghost use Rattle.semver.specs.Identifiers.{parts_of};

    ghost Value = { PackageValue };

    ghost view = { λ p. record { name = p.name; version = parts_of p.version; source = p.source; checksum = p.checksum } };
}

impl Package {
    /// Returns an equal package.
    ///
    /// # Errors
    ///
    /// `OutOfMemory` alone.
    pub fn clone(&self, _alloc: Global) -> Result<Package>
        ensures ok { IfOk result (λ p. p ≡ self.now) }
        ensures err { IfErr result IsMemory }
    {
        let copy = Clone::clone(self)?;
        Ok(copy)
    }
}

impl ExactClone for Package {
    ghost use Rattle.std.proofs.Common.{rules};

    ghost exact = { λ x y e. Prim.search rules };
}

impl PartialEq for Package {
    ghost eq = { package_eq };

    ghost laws = { partial_equiv_from_equiv package_equiv };

    fn eq(&self, other: &Package) -> bool {
        self.name == other.name
            && self.version == other.version
            && self.source == other.source
            && self.checksum == other.checksum
    }
}

impl Eq for Package {
    ghost laws = { package_equiv };
}

impl ExactEq for Package {
    ghost decides = { package_decides };
}

impl PartialOrd for Package {
    ghost partial_cmp = { λ a b. Some (package_cmp a b) };

    ghost laws = { po package_total package_ties };

    fn partial_cmp(&self, other: &Package) -> Option<Ordering> {
        Some(self.cmp(other))
    }
}

impl Ord for Package {
    ghost cmp = { package_cmp };

    ghost total = { package_total };

    ghost matches_partial_cmp = { λ a b. refl };

    ghost matches_eq = { package_ties };

    fn cmp(&self, other: &Package) -> Ordering {
        self.name
            .cmp(&other.name)
            .then(self.version.cmp(&other.version))
            .then(self.source.cmp(&other.source))
            .then(self.checksum.cmp(&other.checksum))
    }
}
