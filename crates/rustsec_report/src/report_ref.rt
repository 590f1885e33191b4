//! Reports as references: what they list is not copied.

ghost use Rattle.std.specs.Prelude.{◌≡◌, IfErr, IfOk};
ghost use Rattle.rustsec_values.specs.Failure.{IsMemory};
ghost use Rattle.rustsec_report.specs.Kinds.{with_map_of_kinds};
ghost use Rattle.rustsec_report.specs.Report.{report_of};

use crate::generate::{select_vulnerabilities, select_warnings};
use crate::info::{LockfileInfo, VulnerabilityInfo};
use crate::report::Report;
use crate::settings::Settings;
use crate::warning::Warning;
use crate::warning_ref::{WarningRef, WarningsOfKind};
use crate::warnings::{WarningInfo, copies_by_kind};
use rustsec_database::{Database, Vulnerability, VulnerabilityRef};
use rustsec_lock::Lockfile;
use rustsec_values::{Items, Result};
use std::alloc::{AllocError, Global};
use std::marker::Model;

/// A report as references. Contracts see it as the report.
#[derive(Drop)]
pub struct ReportRef<'a> {
    /// The lockfile.
    pub lockfile: LockfileInfo,
    /// The settings of the report.
    pub settings: &'a Settings,
    /// Whether there are any vulnerabilities.
    pub found: bool,
    /// Their number.
    pub count: usize,
    /// The vulnerabilities.
    pub vulnerabilities: Items<VulnerabilityRef<'a>>,
    /// The warnings, kind by kind.
    pub warnings: Items<WarningsOfKind<'a>>,
}

impl<'a> Model for ReportRef<'a> {
    ghost use Rattle.rustsec_report.specs.declared.report.Report as given;

    ghost Value = { given.Report };

    ghost view = { λ r. record {
      lockfile = r.lockfile;
      settings = r.settings.now;
      vulnerabilities = record { found = r.found; count = r.count; list = r.vulnerabilities };
      warnings = r.warnings;
    } };
}

/// Returns vulnerabilities as references.
fn vulnerability_refs<'a>(
    alloc: Global,
    list: &'a [Vulnerability],
) -> std::result::Result<Items<VulnerabilityRef<'a>>, AllocError>
    ensures { IfOk result (λ vs. vs ≡ list.now) }
{
    let refs: Vec<VulnerabilityRef<'a>> = list
        .iter()
        .map(|vulnerability| VulnerabilityRef::new(vulnerability))
        .collect(alloc)?;
    Ok(Items::from(refs))
}

/// Returns warnings as references.
fn warning_refs<'a>(
    alloc: Global,
    list: &'a [Warning],
) -> std::result::Result<Items<WarningRef<'a>>, AllocError>
    ensures { IfOk result (λ ws. ws ≡ list.now) }
{
    let refs: Vec<WarningRef<'a>> = list
        .iter()
        .map(|warning| WarningRef::new(warning))
        .collect(alloc)?;
    Ok(Items::from(refs))
}

/// Returns warnings by their kinds as references.
fn refs_by_kind<'a>(
    alloc: Global,
    warnings: &'a WarningInfo,
) -> std::result::Result<Items<WarningsOfKind<'a>>, AllocError>
    ensures { IfOk result (λ ws. ws ≡ warnings.now) }
{
    let mut refs = Items::new(alloc);
    for (kind, list) in warnings.as_map() {
        let list = warning_refs(alloc, list.as_slice())?;
        refs.push(WarningsOfKind { kind: *kind, list })?;
    }
    Ok(refs)
}

/// Returns copies of vulnerabilities, in order.
pub(crate) fn copies_of(
    alloc: Global,
    vulnerabilities: &[VulnerabilityRef<'_>],
) -> Result<Items<Vulnerability>>
    ensures ok { IfOk result (λ vs. vs ≡ vulnerabilities.now) }
    ensures err { IfErr result IsMemory }
{
    let mut copies = Items::new(alloc);
    for vulnerability in vulnerabilities {
        copies.push(vulnerability.to_vulnerability(alloc)?)?;
    }
    Ok(copies)
}

impl<'a> ReportRef<'a> {
    /// Returns a report as references.
    pub fn new(alloc: Global, report: &'a Report) -> std::result::Result<ReportRef<'a>, AllocError>
        ensures { IfOk result (λ r. r ≡ report.now) }
    {
        let vulnerabilities = vulnerability_refs(alloc, report.vulnerabilities.list.as_slice())?;
        let warnings = refs_by_kind(alloc, &report.warnings)?;
        Ok(ReportRef {
            lockfile: report.lockfile,
            settings: &report.settings,
            found: report.vulnerabilities.found,
            count: report.vulnerabilities.count,
            vulnerabilities,
            warnings,
        })
    }

    /// Returns the report of a lockfile by a database, as `Report::generate` does.
    ///
    /// # Errors
    ///
    /// `OutOfMemory` alone.
    pub fn generate(
        alloc: Global,
        database: &'a Database,
        lockfile: &'a Lockfile,
        settings: &'a Settings,
    ) -> Result<ReportRef<'a>>
        ensures ok { IfOk result (λ r. r ≡ report_of database.now lockfile.now.packages settings.now) }
        ensures err { IfErr result IsMemory }
    {
        let vulnerabilities = select_vulnerabilities(alloc, database, lockfile, settings)?;
        let warnings = select_warnings(alloc, database, lockfile, settings)?;
        Ok(ReportRef {
            lockfile: LockfileInfo::new(lockfile),
            settings,
            found: !vulnerabilities.is_empty(),
            count: vulnerabilities.len(),
            vulnerabilities,
            warnings,
        })
    }

    /// Returns the report, with copies of what it lists. Of two lists of warnings of one kind the later one is kept.
    ///
    /// # Errors
    ///
    /// `OutOfMemory` alone.
    pub fn to_report(&self, alloc: Global) -> Result<Report>
        ensures ok { IfOk result (λ r. r ≡ with_map_of_kinds self.now) }
        ensures err { IfErr result IsMemory }
    {
        let list = copies_of(alloc, self.vulnerabilities.as_slice())?;
        let warnings = copies_by_kind(alloc, self.warnings.as_slice())?;
        let settings = self.settings.clone(alloc)?;
        Ok(Report {
            lockfile: self.lockfile,
            settings,
            vulnerabilities: VulnerabilityInfo {
                found: self.found,
                count: self.count,
                list,
            },
            warnings,
        })
    }
}
