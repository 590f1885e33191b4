//! Generates a report from a database and a lockfile.

ghost use Rattle.std.specs.Prelude.{◌≡◌, ◌++◌, IfErr, IfOk, List, Some, map};
ghost use Rattle.std.specs.List.{filter};
ghost use Rattle.toml.specs.Data.{Members};
ghost use Rattle.rustsec_files.specs.declared.source_file.SourceFile.{SourceFile};
ghost use Rattle.rustsec_lock.specs.Lockfile.{packages_of};
ghost use Rattle.rustsec_texts.specs.Ids.{IdValue};
ghost use Rattle.rustsec_advisory.specs.declared.advisory.Advisory as given;
ghost use Rattle.rustsec_database.specs.Loaded.{AreLoaded};
ghost use Rattle.rustsec_database.specs.Pairs.{as_vulnerability, is_audited};
ghost use Rattle.rustsec_values.specs.Failure.{IsMemory};
ghost use Rattle.rustsec_report.specs.EndToEnd.{IsReportOf};
ghost use Rattle.rustsec_report.specs.ReportedAdvisories.{ListsWhatIsInForce};
ghost use Rattle.rustsec_report.specs.Report.{info_of, report_of, vulnerabilities, warnings};
ghost use Rattle.rustsec_report.specs.ReportLaws.{AddTheirOwn, FindTheSame, LacksOnly, ignoring};

use crate::counted::counted_pairs;
use crate::info::VulnerabilityInfo;
use crate::report::Report;
use crate::report_ref::{ReportRef, copies_of};
use crate::settings::Settings;
use crate::warning_ref::WarningsOfKind;
use crate::warnings::{WarningInfo, copies_by_kind, warnings_by_kind};
use rustsec_database::{Database, Pair, VulnerabilityRef};
use rustsec_lock::Lockfile;
use rustsec_values::{Items, Result};
use std::alloc::{AllocError, Global};

/// Returns pairs as vulnerabilities, in order.
fn vulnerabilities_of<'a>(
    alloc: Global,
    pairs: &[Pair<'a>],
) -> std::result::Result<Items<VulnerabilityRef<'a>>, AllocError>
    ensures { IfOk result (λ vs. vs ≡ map as_vulnerability pairs.now) }
{
    let mut refs = Items::new(alloc);
    for pair in pairs {
        refs.push(VulnerabilityRef::of(pair.advisory, pair.package))?;
    }
    Ok(refs)
}

/// Returns the vulnerabilities of a lockfile's packages that settings select, without those of ignored advisories, as
/// references: by package in the lockfile's order, then by advisory in the database's order.
pub(crate) fn select_vulnerabilities<'a>(
    alloc: Global,
    database: &'a Database,
    lockfile: &'a Lockfile,
    settings: &Settings,
) -> Result<Items<VulnerabilityRef<'a>>>
    ensures ok { IfOk result (λ vs. vs ≡ vulnerabilities database.now lockfile.now.packages settings.now) }
    ensures err { IfErr result IsMemory }
{
    let query = settings.query(alloc)?;
    let counted = counted_pairs(alloc, database, lockfile, &query, &settings.ignore)?;
    let vulnerabilities = vulnerabilities_of(alloc, counted.as_slice())?;
    Ok(vulnerabilities)
}

/// Returns the warnings about a lockfile's packages that settings ask for, as references: kind by kind, each list by package
/// in the lockfile's order, then by advisory in the database's order.
pub(crate) fn select_warnings<'a>(
    alloc: Global,
    database: &'a Database,
    lockfile: &'a Lockfile,
    settings: &Settings,
) -> Result<Items<WarningsOfKind<'a>>>
    ensures ok { IfOk result (λ ws. ws ≡ warnings database.now lockfile.now.packages settings.now) }
    ensures err { IfErr result IsMemory }
{
    let query = settings.query(alloc)?.informational(true);
    let counted = counted_pairs(alloc, database, lockfile, &query, &settings.ignore)?;
    let warnings = warnings_by_kind(alloc, counted.as_slice(), settings)?;
    Ok(warnings)
}

/// Returns the warnings about a lockfile's packages that settings ask for: kind by kind, each list by package in the
/// lockfile's order, then by advisory in the database's order.
///
/// # Errors
///
/// `OutOfMemory` alone.
pub fn find_warnings(
    alloc: Global,
    database: &Database,
    lockfile: &Lockfile,
    settings: &Settings,
) -> Result<WarningInfo>
    ensures ok { IfOk result (λ ws. ws ≡ warnings database.now lockfile.now.packages settings.now) }
    ensures err { IfErr result IsMemory }
{
    let warnings = select_warnings(alloc, database, lockfile, settings)?;
    copies_by_kind(alloc, warnings.as_slice())
}

/// Returns the vulnerabilities of a lockfile's packages that settings ask for, without those of ignored advisories: by
/// package in the lockfile's order, then by advisory in the database's order.
///
/// # Errors
///
/// `OutOfMemory` alone.
pub fn find_vulnerabilities(
    alloc: Global,
    database: &Database,
    lockfile: &Lockfile,
    settings: &Settings,
) -> Result<VulnerabilityInfo>
    ensures ok { IfOk result (λ i. i ≡ info_of (vulnerabilities database.now lockfile.now.packages settings.now)) }
    ensures err { IfErr result IsMemory }
{
    let vulnerabilities = select_vulnerabilities(alloc, database, lockfile, settings)?;
    let list = copies_of(alloc, vulnerabilities.as_slice())?;
    Ok(VulnerabilityInfo::of_items(list))
}

impl Report {
    /// Returns the report of a lockfile by a database. The settings select pairs of a package and an advisory, and
    /// ignored advisories are left out. A pair is a warning if its advisory is informational, and a vulnerability if
    /// not. Each list goes by package in the lockfile's order, then by advisory in the database's order; a package that
    /// occurs twice gives its pairs twice.
    ///
    /// # Errors
    ///
    /// `OutOfMemory` alone.
    pub fn generate(
        alloc: Global,
        database: &Database,
        lockfile: &Lockfile,
        settings: &Settings,
    ) -> Result<Report>
        ensures ok { IfOk result (λ r. r ≡ report_of database.now lockfile.now.packages settings.now) }

        // No advisory in it is withdrawn or ignored; advisories of vulnerabilities are not informational, and those
        // of warnings are.
        ensures holds { IfOk result ListsWhatIsInForce }

        // It is the report of any files that give this database and any table that gives these packages.
        ensures chain { IfOk result (λ r. (files : List SourceFile) (table : Members) → AreLoaded files database.now
            → packages_of table ≡ Some lockfile.now.packages → IsReportOf files table settings.now r) }

        // One more ignored ID takes away its own pairs and no other.
        ensures ignored { IfOk result (λ r. (id : IdValue)
            → LacksOnly id r (report_of database.now lockfile.now.packages (ignoring id settings.now))) }

        // Further advisories add their own pairs and no other, in each package's after those that are there.
        ensures further { IfOk result (λ r. (others : List given.Advisory)
            → AddTheirOwn database.now others lockfile.now.packages settings.now r (report_of (database.now ++ others) lockfile.now.packages settings.now)) }

        // Packages of other sources change nothing.
        ensures elsewhere { IfOk result (λ r. FindTheSame r (report_of database.now (filter is_audited lockfile.now.packages) settings.now)) }
        ensures err { IfErr result IsMemory }
    {
        let report = ReportRef::generate(alloc, database, lockfile, settings)?;
        report.to_report(alloc)
    }
}
