//! Reports of packages of four sources by three advisories, and the filter over a report with one warning.

use crate::packages::package;
use rustsec_advisory::Affected;
use rustsec_database::{Database, SourceFile};
use rustsec_fixtures::{ADVISORIES, FOUR_PACKAGES};
use rustsec_lock::package::Package;
use rustsec_lock::platforms::OS;
use rustsec_lock::{Lockfile, Severity};
use rustsec_report::{
    BinaryFormat, LockfileInfo, Report, Settings, VulnerabilityInfo, Warning, WarningInfo,
    filter_report_by_binary_type,
};
use rustsec_texts::{Informational, WarningKind};
use rustsec_values::{Items, Text};
use std::alloc::Global;
use std::test::Fail;

/// The first of the four packages, once more.
const FIRST_AGAIN: &str =
    "\n[[package]]\nname = \"base\"\nversion = \"1.0.0\"\nsource = \"registry+https://github.com/rust-lang/crates.io-index\"\n";

/// Returns a database of an advisory without a CVSS vector, a withdrawn one, and one of an informational kind.
fn database(alloc: Global, kind: &str) -> Result<Database, Fail> {
    let mut files = Vec::new(alloc);
    for (path, text) in ADVISORIES {
        files.push(SourceFile {
            path: Text::from_str(alloc, path)?,
            text: Text::from(text.replace(alloc, "unmaintained", kind)?),
        })?;
    }
    Ok(Database::load(alloc, &files)?)
}

/// Returns settings of severity High, which ask for warnings of a kind.
fn settings(alloc: Global, kind: &str) -> Result<Settings, Fail> {
    let kind = match kind {
        "unmaintained" => Informational::Unmaintained,
        _ => Informational::Other(Text::from_str(alloc, kind)?),
    };
    let mut settings = Settings::new(alloc);
    settings.severity = Some(Severity::High);
    settings.informational_warnings.push(kind)?;
    Ok(settings)
}

/// Returns the report by the database with an informational kind, and by settings that ask for it.
fn report(alloc: Global, again: &str, kind: &str) -> Result<Report, Fail> {
    let text = format!(in alloc; "{FOUR_PACKAGES}{again}")?;
    let lockfile = Lockfile::from_str(alloc, &text)?;
    let database = database(alloc, kind)?;
    let settings = settings(alloc, kind)?;
    Ok(Report::generate(alloc, &database, &lockfile, &settings)?)
}

fn is_first(package: &Package) -> bool {
    match &package.source {
        Some(source) => source.url() == "https://github.com/rust-lang/crates.io-index",
        None => false,
    }
}

/// Returns how many vulnerabilities there are, if all are of the first package, and none is of the withdrawn advisory.
fn vulnerability_count(info: &VulnerabilityInfo) -> Option<usize> {
    for vulnerability in info.list.as_slice() {
        let id = vulnerability.advisory.id.as_str();
        if id != "RUSTSEC-2001-0001" || !is_first(&vulnerability.package) {
            return None;
        }
    }
    (info.count == info.list.len()).then_some(info.count)
}

fn warning_count(warnings: &WarningInfo, kind: WarningKind) -> Option<usize> {
    let Some(list) = warnings.get(&kind) else {
        return Some(0);
    };
    for warning in list.as_slice() {
        if !is_first(&warning.package) {
            return None;
        }
    }
    Some(list.len())
}

/// How many packages, vulnerabilities, warnings that nobody maintains a package, and kinds of warnings there are.
type Counts = (usize, Option<usize>, Option<usize>, usize);

fn counts(alloc: Global, again: &str, kind: &str) -> Result<Counts, Fail> {
    let report = report(alloc, again, kind)?;
    Ok((
        report.lockfile.dependency_count,
        vulnerability_count(&report.vulnerabilities),
        warning_count(&report.warnings, WarningKind::Unmaintained),
        report.warnings.len(),
    ))
}

// Of the four packages named `base` only the first is of the registry that the database is about. A kind that is asked
// for, but gives no warning, is not listed.
#[test]
fn report_of_four_packages(rt: HostRuntime) -> Result<(), Fail> {
    for (again, kind, expected) in [
        ("", "unmaintained", (4, Some(1), Some(1), 1)),
        (FIRST_AGAIN, "unmaintained", (5, Some(2), Some(2), 1)),
        ("", "x", (4, Some(1), Some(0), 0)),
    ] {
        let found = counts(rt.alloc(), again, kind)?;
        assert!(rt; found == expected, "{kind}, {again}");
    }
    Ok(())
}

fn warning(alloc: Global, kind: WarningKind, system: OS) -> Result<Warning, Fail> {
    let package = package(alloc, "base 1.0.0")?;
    let mut affected = Affected::default(alloc);
    affected.os.push(system)?;
    Ok(Warning::new(alloc, kind, &package, None, Some(affected), None)?)
}

fn one_notice(alloc: Global, system: OS) -> Result<WarningInfo, Fail> {
    let mut list = Items::new(alloc);
    list.push(warning(alloc, WarningKind::Notice, system)?)?;
    let mut warnings = WarningInfo::new(alloc);
    warnings.insert(WarningKind::Notice, list)?;
    Ok(warnings)
}

/// Returns how many notices a format leaves of one; none if their kind is gone.
fn notices_left(alloc: Global, system: OS, format: BinaryFormat) -> Result<Option<usize>, Fail> {
    let dependency_count = 1;
    let mut report = Report {
        lockfile: LockfileInfo { dependency_count },
        settings: Settings::new(alloc),
        vulnerabilities: VulnerabilityInfo::default(alloc),
        warnings: one_notice(alloc, system)?,
    };
    filter_report_by_binary_type(&format, &mut report);
    match report.warnings.get(&WarningKind::Notice) {
        Some(list) => Ok(Some(list.len())),
        None => Ok(None),
    }
}

#[test]
fn filter_keeps_empty_kind(rt: HostRuntime) -> Result<(), Fail> {
    assert!(rt; notices_left(rt.alloc(), OS::Windows, BinaryFormat::Elf64)? == Some(0));
    assert!(rt; notices_left(rt.alloc(), OS::Windows, BinaryFormat::PE)? == Some(1));
    Ok(())
}

fn is_yanked(alloc: Global, kind: WarningKind) -> Result<bool, Fail> {
    let warning = warning(alloc, kind, OS::Windows)?;
    Ok(warning.is_yanked())
}

#[test]
fn warnings_of_yanked_packages(rt: HostRuntime) -> Result<(), Fail> {
    assert!(rt; is_yanked(rt.alloc(), WarningKind::Yanked)?);
    assert!(rt; !is_yanked(rt.alloc(), WarningKind::Notice)?);
    Ok(())
}
