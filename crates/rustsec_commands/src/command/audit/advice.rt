//! Describes the vulnerabilities and warnings of a report to a person, with what helps against them.

use rustsec_advisory::Metadata;
use rustsec_database::VulnerabilityRef;
use rustsec_lock::Cvss;
use rustsec_lock::package::Package;
use rustsec_report::{ReportRef, WarningRef, WarningsOfKind};
use rustsec_texts::WarningKind;
use rustsec_values::{Result, push_shown};
use rustsec_versions::{Versions, requirement_text};
use std::alloc::Global;
use std::fmt::Write as _;

/// Appends a line: a label and a text.
fn add_line(note: &mut String, label: &str, text: &str) -> Result<()> {
    note.push_str(label)?;
    push_shown(note, text)?;
    note.push_str("\n")?;
    Ok(())
}

/// Appends the lines for a package.
fn add_package(note: &mut String, package: &Package) -> Result<()> {
    let version = &package.version;
    add_line(note, "\nCrate:     ", package.name.as_str())?;
    writeln!(note, "Version:   {version}")?;
    Ok(())
}

/// Appends the line for the URL of an advisory: its page, or else where it was announced.
fn add_address(alloc: Global, note: &mut String, advisory: &Metadata) -> Result<()> {
    if let Some(page) = advisory.id.url(alloc)? {
        return add_line(note, "URL:       ", &page);
    }
    match &advisory.url {
        Some(address) => add_line(note, "URL:       ", address.as_str()),
        None => Ok(()),
    }
}

/// Appends the lines for an advisory.
fn add_advisory(alloc: Global, note: &mut String, advisory: &Metadata) -> Result<()> {
    add_line(note, "Title:     ", advisory.title.as_str())?;
    add_line(note, "Date:      ", advisory.date.as_str())?;
    add_line(note, "ID:        ", advisory.id.as_str())?;
    add_address(alloc, note, advisory)
}

/// Appends the line for the severity of a CVSS vector, or for the vector itself if it has no severity.
fn add_severity(alloc: Global, note: &mut String, cvss: &Cvss) -> Result<()> {
    match cvss.severity() {
        Some(severity) => writeln!(note, "Severity:  {severity}")?,
        None => {
            let vector = cvss.to_string(alloc)?;
            add_line(note, "Severity:  ", &vector)?;
        }
    }
    Ok(())
}

/// Appends the line for what helps: an upgrade to a version that the advisory calls patched, or that no
/// such version is known.
fn add_solution(alloc: Global, note: &mut String, versions: &Versions) -> Result<()> {
    let mut before = "Solution:  upgrade to ";
    for req in versions.patched() {
        note.push_str(before)?;
        push_shown(note, &requirement_text(alloc, req)?)?;
        before = " or ";
    }
    if versions.patched().is_empty() {
        note.push_str("Solution:  no fixed version is known")?;
    }
    note.push_str("\n")?;
    Ok(())
}

/// Appends a line for each function that is affected in the package's version.
fn add_functions(
    alloc: Global,
    note: &mut String,
    vulnerability: &VulnerabilityRef<'_>,
) -> Result<()> {
    let Some(paths) = vulnerability.affected_functions(alloc)? else {
        return Ok(());
    };
    for path in &paths {
        let path = path.to_string(alloc)?;
        add_line(note, "Function:  ", &path)?;
    }
    Ok(())
}

/// Appends the lines for a vulnerability.
fn add_vulnerability(
    alloc: Global,
    note: &mut String,
    vulnerability: &VulnerabilityRef<'_>,
) -> Result<()> {
    add_package(note, vulnerability.package)?;
    add_advisory(alloc, note, vulnerability.advisory)?;
    if let Some(cvss) = &vulnerability.advisory.cvss {
        add_severity(alloc, note, cvss)?;
    }
    add_solution(alloc, note, vulnerability.versions)?;
    add_functions(alloc, note, vulnerability)
}

/// Appends the lines for a warning.
fn add_warning(
    alloc: Global,
    note: &mut String,
    kind: WarningKind,
    warning: &WarningRef<'_>,
) -> Result<()> {
    add_package(note, warning.package)?;
    writeln!(note, "Warning:   {kind}")?;
    match warning.advisory {
        Some(advisory) => add_advisory(alloc, note, advisory),
        None => Ok(()),
    }
}

/// Appends the lines for the warnings of a kind.
fn add_kind(
    alloc: Global,
    note: &mut String,
    kind: WarningKind,
    warnings: &[WarningRef<'_>],
) -> Result<()> {
    for warning in warnings {
        add_warning(alloc, note, kind, warning)?;
    }
    Ok(())
}

/// Appends the lines for all warnings.
fn add_warnings(alloc: Global, note: &mut String, warnings: &[WarningsOfKind<'_>]) -> Result<()> {
    for of_kind in warnings {
        add_kind(alloc, note, of_kind.kind, of_kind.list.as_slice())?;
    }
    Ok(())
}

/// Returns a description of the vulnerabilities and warnings of a report, with what helps. Each text from a
/// file is shown on one line: only the ends of lines are line feeds.
pub fn advice(alloc: Global, report: &ReportRef<'_>) -> Result<String> {
    let mut note = String::new(alloc);
    for vulnerability in report.vulnerabilities.as_slice() {
        add_vulnerability(alloc, &mut note, vulnerability)?;
    }
    add_warnings(alloc, &mut note, report.warnings.as_slice())?;
    Ok(note)
}
