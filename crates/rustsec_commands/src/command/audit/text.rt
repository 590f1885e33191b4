//! The text of the command `audit`: a line for each vulnerability and each warning, and one that counts
//! them.

ghost use Rattle.std.specs.Prelude.{◌≡◌, ◌≢◌, ◌++◌, ◌==◌, ◌&&◌, ◌||◌, IfErr, IfOk, OnOk, flat_map, if◌then◌else◌, length, not, string_bytes};
ghost use Rattle.std.specs.Io.KnownBytes.{Appends, Keeps};
ghost use Rattle.rustsec_commands.specs.command.Audit.{audit_output, count_line, kind_lines, vulnerability_line, warning_count, warning_line};
ghost use Rattle.rustsec_commands.specs.declared.fault.Fault.TheVariants as fault;

use crate::fault::Fault;
use crate::output::Output;
use rustsec_database::VulnerabilityRef;
use rustsec_report::{Report, ReportRef, WarningRef, WarningsOfKind};
use rustsec_texts::WarningKind;
use std::alloc::{AllocError, Global};
use std::fmt::Write as _;
use std::io::Write;

/// Appends the line for a vulnerability.
fn add_vulnerability(
    text: &mut String,
    vulnerability: &VulnerabilityRef<'_>,
) -> Result<(), AllocError>
    ensures { OnOk result (string_bytes text.new ≡ string_bytes text.old ++ vulnerability_line vulnerability.now) }
{
    let id = &vulnerability.advisory.id;
    let package = vulnerability.package;
    let name = &package.name;
    let version = &package.version;
    writeln!(text, "vulnerability {id} {name} {version}")?;
    Ok(())
}

/// Appends a line for each vulnerability.
fn add_vulnerabilities(text: &mut String, found: &[VulnerabilityRef<'_>]) -> Result<(), AllocError>
    ensures { OnOk result (string_bytes text.new ≡ string_bytes text.old ++ flat_map vulnerability_line found.now) }
{
    for vulnerability in found {
        add_vulnerability(text, vulnerability)?;
    }
    Ok(())
}

/// Appends the line for a warning.
fn add_warning(
    text: &mut String,
    kind: WarningKind,
    warning: &WarningRef<'_>,
) -> Result<(), AllocError>
    ensures { OnOk result (string_bytes text.new ≡ string_bytes text.old ++ warning_line kind warning.now) }
{
    let package = warning.package;
    let name = &package.name;
    let version = &package.version;
    match warning.advisory {
        Some(advisory) => {
            let id = &advisory.id;
            writeln!(text, "warning {kind} {id} {name} {version}")?;
        }
        None => writeln!(text, "warning {kind} - {name} {version}")?,
    }
    Ok(())
}

/// Appends a line for each warning of a kind.
fn add_kind(
    text: &mut String,
    kind: WarningKind,
    warnings: &[WarningRef<'_>],
) -> Result<(), AllocError>
    ensures { OnOk result (string_bytes text.new ≡ string_bytes text.old ++ flat_map (warning_line kind) warnings.now) }
{
    for warning in warnings {
        add_warning(text, kind, warning)?;
    }
    Ok(())
}

/// Appends a line for each warning, kind by kind.
fn add_warnings(text: &mut String, warnings: &[WarningsOfKind<'_>]) -> Result<(), AllocError>
    ensures { OnOk result (string_bytes text.new ≡ string_bytes text.old ++ flat_map kind_lines warnings.now) }
{
    for of_kind in warnings {
        add_kind(text, of_kind.kind, of_kind.list.as_slice())?;
    }
    Ok(())
}

/// Counts all warnings. A sum that exceeds a `usize` is answered as out of memory: no memory holds that
/// many.
fn warning_count(warnings: &[WarningsOfKind<'_>]) -> Result<usize, AllocError>
    ensures { IfOk result (λ n. n ≡ warning_count warnings.now) }
{
    let mut count: usize = 0;
    for of_kind in warnings {
        match count.checked_add(of_kind.list.len()) {
            Some(sum) => count = sum,
            None => return Err(AllocError),
        }
    }
    Ok(count)
}

/// Returns the text for a report with this number of warnings.
fn audit_text(alloc: Global, report: &ReportRef<'_>, warnings: usize) -> Result<String, AllocError>
    ensures { IfOk result (λ t. string_bytes t ≡ flat_map vulnerability_line report.now.vulnerabilities.list
        ++ (flat_map kind_lines report.now.warnings ++ count_line (length report.now.vulnerabilities.list) warnings)) }
{
    let mut text = String::new(alloc);
    add_vulnerabilities(&mut text, report.vulnerabilities.as_slice())?;
    add_warnings(&mut text, report.warnings.as_slice())?;
    let vulnerabilities = report.vulnerabilities.len();
    writeln!(
        text,
        "{vulnerabilities} vulnerabilities, {warnings} warnings"
    )?;
    Ok(text)
}

/// Returns whether there is a vulnerability, or a warning if warnings are denied.
fn is_bad(vulnerabilities: usize, deny_warnings: bool, warnings: usize) -> bool
    ensures { result ≡ (not (vulnerabilities == 0) || (deny_warnings && not (warnings == 0))) }
{
    vulnerabilities != 0 || (deny_warnings && warnings != 0)
}

/// Returns status 1 for a bad report, and 0 for another.
fn status_of(is_bad: bool) -> u8
    ensures { result ≡ (if is_bad then 1 else 0) }
{
    if is_bad { 1 } else { 0 }
}

/// Makes the output of `audit` for a report: the text and the status.
pub(crate) fn audit_output(
    alloc: Global,
    deny_warnings: bool,
    report: &ReportRef<'_>,
) -> Result<Output, AllocError>
    ensures { IfOk result (λ o. o ≡ audit_output deny_warnings report.now) }
{
    let warnings = warning_count(report.warnings.as_slice())?;
    let text = audit_text(alloc, report, warnings)?;
    let is_bad = is_bad(report.vulnerabilities.len(), deny_warnings, warnings);
    Ok(Output::new(text, status_of(is_bad)))
}

/// Writes a line for each vulnerability of a report, one for each warning by kind, and one that counts
/// both. The whole text is made before the first write. Returns the status: 1 if there is a vulnerability,
/// or a warning and warnings are denied; else 0.
///
/// # Errors
///
/// `Memory`, with nothing written; or `Write`, after which it is unspecified how much was written.
pub fn write_audit<W: Write>(
    alloc: Global,
    report: &Report,
    deny_warnings: bool,
    output: &mut W,
) -> Result<u8, Fault>
    ensures status { IfOk result (λ s. s ≡ (audit_output deny_warnings report.now).status) }
    ensures text { OnOk result (Appends (W.contents output.old) (W.contents output.new) (audit_output deny_warnings report.now).text) }
    ensures kept { IfErr result (λ e. e ≢ fault.Write → Keeps (W.contents output.old) (W.contents output.new)) }
    ensures read { IfErr result (λ e. e ≢ fault.Read) }
{
    let report = ReportRef::new(alloc, report)?;
    audit_output(alloc, deny_warnings, &report)?.write(output)
}
