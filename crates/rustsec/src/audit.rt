//! The audit of texts: the main theorem of the crates below, as the contract of one call.

ghost use Rattle.std.specs.Prelude.{◌≡◌, All, IfErr, IfOk, map};
ghost use Rattle.semver.specs.Identifiers.{parts_of};
ghost use Rattle.rustsec_files.specs.declared.source_file.SourceFile.{SourceFile};
ghost use Rattle.rustsec_report.specs.EndToEnd.{IsReportOfText};
ghost use Rattle.rustsec.specs.Acceptance.{HasAcceptedLists};
ghost use Rattle.rustsec.specs.Answers.{HasEvents, HasRanges, HasVerdicts};
ghost use Rattle.rustsec.specs.Audits.{EachHas, IsAuditRefusal, IsInOrder};

use crate::audited_advisory::{AuditedAdvisory, audited_advisories};
use rustsec_database::Database;
use rustsec_files::SourceFile;
use rustsec_lock::Lockfile;
use rustsec_report::{Report, Settings};
use rustsec_values::{Items, Result};
use semver::Version;
use std::alloc::Global;

/// What an audit of texts answers.
#[derive(Debug, Drop)]
pub struct Audit {
    /// The report of the lockfile.
    pub report: Report,
    /// What is answered about each advisory, in the order of the files.
    pub advisories: Items<AuditedAdvisory>,
}

/// Returns the report of a lockfile's text by the advisories of some files, and for each advisory the verdict on each
/// version, the ranges and the exported events. Its clauses are the main theorem, part by part:
///
/// Where memory is found, `Versions::new` accepts exactly the lists of admissible requirements in which no two clash;
/// then `is_vulnerable`, the ranges and the exported events call a valid version affected exactly where no interval
/// holds it in SemVer precedence; and from advisory files that load and a lockfile, `Report::generate` lists exactly
/// the pairs of package and advisory that the settings select, in order.
///
/// # Errors
///
/// The refusal of the first file at fault, as `Database::load`; else `Parse` if the text is not a lockfile; else the
/// refusal of the first advisory without an OSV document, as `OsvAdvisory::from_rustsec`; else `OutOfMemory`.
pub fn audited(
    alloc: Global,
    files: &[SourceFile],
    lockfile: &str,
    settings: &Settings,
    versions: &[Version],
) -> Result<Audit>
    // The requirements of each file are admissible, and no two clash. Clause `err` has the converse: a text that has all
    // else of an advisory, and lists like these, is an advisory, so it is not refused for its lists.
    ensures acceptance { IfOk result (λ r. All (λ (f : SourceFile). HasAcceptedLists f.text) files.now) }

    // Each version is called affected exactly if no interval of the advisory's requirements holds it.
    ensures verdicts { IfOk result (λ r. EachHas (HasVerdicts (map parts_of versions.now)) files.now r.advisories) }

    // The ranges contain a valid version exactly if no interval holds it; no other list is the ranges of the advisory.
    ensures ranges { IfOk result (λ r. EachHas HasRanges files.now r.advisories) }

    // The exported events call a valid version affected exactly if no interval holds it.
    ensures events { IfOk result (λ r. EachHas HasEvents files.now r.advisories) }

    // The report lists exactly the pairs of package and advisory that the settings select.
    ensures report { IfOk result (λ r. IsReportOfText files.now lockfile.now settings.now r.report) }

    // The pairs go by package in the lockfile's order, then by advisory in that of the files; the answers by advisory.
    ensures order { IfOk result (IsInOrder files.now lockfile.now settings.now) }
    ensures err { IfErr result (IsAuditRefusal files.now lockfile.now) }
{
    let database = Database::load(alloc, files)?;
    let lockfile = Lockfile::from_str(alloc, lockfile)?;
    let report = Report::generate(alloc, &database, &lockfile, settings)?;
    let advisories = audited_advisories(alloc, database, versions)?;
    Ok(Audit { report, advisories })
}
