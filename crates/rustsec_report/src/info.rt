//! What a report contains about its lockfile and its vulnerabilities.

ghost use Rattle.std.specs.Prelude.{◌≡◌, [], IfErr, IfOk, length};
ghost use Rattle.rustsec_values.specs.Failure.{IsMemory};
ghost use Rattle.rustsec_report.specs.Report.{info_of};

use rustsec_database::Vulnerability;
use rustsec_lock::Lockfile;
use rustsec_values::{ExactClone, Items, Result};
use std::alloc::Global;

/// What a report contains about its lockfile.
#[derive(Clone, Copy, Debug)]
pub struct LockfileInfo {
    /// The number of packages.
    pub dependency_count: usize,
}

impl LockfileInfo {
    /// Returns the number of packages of a lockfile. This takes no memory.
    pub fn new(lockfile: &Lockfile) -> LockfileInfo
        ensures { result.dependency_count ≡ length lockfile.now.packages }
    {
        LockfileInfo {
            dependency_count: lockfile.packages.len(),
        }
    }
}

impl ExactClone for LockfileInfo {
    ghost exact = { λ x y e. e };
}

/// The vulnerabilities of a report.
#[derive(Clone, Debug, Drop)]
pub struct VulnerabilityInfo {
    /// Whether there are any.
    pub found: bool,
    /// Their number.
    pub count: usize,
    /// The vulnerabilities.
    pub list: Items<Vulnerability>,
}

impl VulnerabilityInfo {
    /// Returns these vulnerabilities, with their number and whether there are any. This takes no memory.
    pub fn new(list: Vec<Vulnerability>) -> VulnerabilityInfo
        ensures { result ≡ info_of list.items }
    {
        VulnerabilityInfo::of_items(Items::from(list))
    }

    /// As `new`, from `Items`.
    pub(crate) fn of_items(list: Items<Vulnerability>) -> VulnerabilityInfo
        ensures { result ≡ info_of list }
    {
        VulnerabilityInfo {
            found: !list.is_empty(),
            count: list.len(),
            list,
        }
    }

    /// Returns an empty list of vulnerabilities. This takes no memory.
    pub fn default(alloc: Global) -> VulnerabilityInfo
        ensures { result ≡ info_of [] }
    {
        VulnerabilityInfo::of_items(Items::new(alloc))
    }

    /// Returns an equal value.
    ///
    /// # Errors
    ///
    /// `OutOfMemory` alone.
    pub fn clone(&self, _alloc: Global) -> Result<VulnerabilityInfo>
        ensures ok { IfOk result (λ i. i ≡ self.now) }
        ensures err { IfErr result IsMemory }
    {
        let copy = Clone::clone(self)?;
        Ok(copy)
    }
}

impl ExactClone for VulnerabilityInfo {
    ghost use Rattle.std.proofs.Common.{rules};

    ghost exact = { λ x y e. Prim.search rules };
}
