//! Reports.

ghost use Rattle.std.specs.Prelude.{◌≡◌, IfErr, IfOk};
ghost use Rattle.rustsec_values.specs.Failure.{IsMemory};

use crate::info::{LockfileInfo, VulnerabilityInfo};
use crate::settings::Settings;
use crate::warnings::WarningInfo;
use rustsec_values::{ExactClone, Result};
use std::alloc::Global;

/// The report of a lockfile.
#[derive(Clone, Debug, Drop)]
pub struct Report {
    /// The lockfile.
    pub lockfile: LockfileInfo,
    /// The settings of the report.
    pub settings: Settings,
    /// The vulnerabilities of its packages.
    pub vulnerabilities: VulnerabilityInfo,
    /// The warnings about its packages.
    pub warnings: WarningInfo,
}

impl Report {
    /// Returns an equal report.
    ///
    /// # Errors
    ///
    /// `OutOfMemory` alone.
    pub fn clone(&self, _alloc: Global) -> Result<Report>
        ensures ok { IfOk result (λ r. r ≡ self.now) }
        ensures err { IfErr result IsMemory }
    {
        let copy = Clone::clone(self)?;
        Ok(copy)
    }
}

impl ExactClone for Report {
    ghost use Rattle.std.proofs.Common.{rules};

    ghost exact = { λ x y e. Prim.search rules };
}
