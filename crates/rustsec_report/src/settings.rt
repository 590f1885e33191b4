//! The settings of a report.

ghost use Rattle.std.specs.Prelude.{◌≡◌, [], IfErr, IfOk, None, option_and_then};
ghost use Rattle.rustsec_values.specs.Failure.{IsMemory};
ghost use Rattle.rustsec_report.specs.Report.{is_wanted, query_of, wanted_kind};

use rustsec_database::Query;
use rustsec_lock::Severity;
use rustsec_lock::platforms::{Arch, OS};
use rustsec_texts::{Id, Informational, WarningKind};
use rustsec_values::{ExactClone, Items, Result};
use std::alloc::Global;

/// The settings of a report.
#[derive(Clone, Debug)]
pub struct Settings {
    /// The architectures; an advisory must affect one of them. An empty list means any.
    pub target_arch: Items<Arch>,
    /// The systems, likewise.
    pub target_os: Items<OS>,
    /// The least severity of an advisory that has one.
    pub severity: Option<Severity>,
    /// The IDs of advisories to leave out.
    pub ignore: Items<Id>,
    /// The kinds of informational advisories to warn about.
    pub informational_warnings: Items<Informational>,
}

/// Hand-written: a derived `Drop` is proved again, field by field, at every exit of every owner.
impl Drop for Settings {
    fn drop(self) {
        let Settings {
            target_arch: _,
            target_os: _,
            severity: _,
            ignore: _,
            informational_warnings: _,
        } = self;
    }
}

impl Settings {
    /// Returns settings without restrictions: any platform and severity, no ignored advisory, no warnings. This takes
    /// no memory.
    pub fn new(alloc: Global) -> Settings
        ensures { result ≡ record {
          target_arch = [];
          target_os = [];
          severity = None;
          ignore = [];
          informational_warnings = [];
        } }
    {
        Settings {
            target_arch: Items::new(alloc),
            target_os: Items::new(alloc),
            severity: None,
            ignore: Items::new(alloc),
            informational_warnings: Items::new(alloc),
        }
    }

    /// Returns the query for vulnerabilities: that of published packages, with the platforms and the severity. A
    /// query cannot leave out ignored advisories.
    ///
    /// # Errors
    ///
    /// `OutOfMemory` alone.
    pub fn query(&self, alloc: Global) -> Result<Query>
        ensures ok { IfOk result (λ q. q ≡ query_of self.now) }
        ensures err { IfErr result IsMemory }
    {
        let arch = Clone::clone(&self.target_arch)?;
        let os = Clone::clone(&self.target_os)?;
        let query = Query::crate_scope(alloc)
            .target_arch(Vec::from(arch))
            .target_os(Vec::from(os));
        match self.severity {
            Some(severity) => Ok(query.severity(severity)),
            None => Ok(query),
        }
    }

    /// Returns whether the settings ask for warnings of an informational kind.
    pub fn wants(&self, kind: &Informational) -> bool
        ensures { result ≡ is_wanted self.now kind.now }
    {
        self.informational_warnings.as_slice().contains(kind)
    }

    /// Returns the kind of the warnings that an informational kind gives, if it gives any and the settings ask for them.
    pub fn wanted_kind(&self, kind: &Option<Informational>) -> Option<WarningKind>
        ensures { result ≡ option_and_then (wanted_kind self.now) kind.now }
    {
        match kind {
            Some(kind) if self.wants(kind) => kind.warning_kind(),
            _ => None,
        }
    }

    /// Returns equal settings.
    ///
    /// # Errors
    ///
    /// `OutOfMemory` alone.
    pub fn clone(&self, _alloc: Global) -> Result<Settings>
        ensures ok { IfOk result (λ s. s ≡ self.now) }
        ensures err { IfErr result IsMemory }
    {
        let copy = Clone::clone(self)?;
        Ok(copy)
    }
}

impl ExactClone for Settings {
    ghost use Rattle.std.proofs.Common.{rules};

    ghost exact = { λ x y e. Prim.search rules };
}
