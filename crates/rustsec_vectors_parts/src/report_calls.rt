//! Reports by the library's calls: which pairs they list for the settings, and what of them applies to compiled
//! programs.

use rustsec_advisory::Affected;
use rustsec_commands::write_audit;
use rustsec_database::{Database, SourceFile};
use rustsec_fixtures::exact_field;
use rustsec_lock::platforms::OS;
use rustsec_lock::{Lockfile, Severity};
use rustsec_report::{
    BinaryFormat, Report, Settings, VulnerabilityInfo, Warning, WarningInfo,
    filter_report_by_binary_type, find_warnings,
};
use rustsec_texts::{Id, Informational, WarningKind};
use rustsec_values::{Items, Text};
use std::alloc::Global;
use std::test::Fail;

/// Returns whether a report has this number of packages, and its findings are these, as `write_audit` writes them.
fn lists(alloc: Global, report: &Report, packages: usize, findings: &str) -> Result<bool, Fail> {
    let mut text = Vec::new(alloc);
    let status = write_audit(alloc, report, false, &mut text)?;
    let (info, is_found) = (&report.vulnerabilities, status == 1);
    let are_counted = info.found == is_found && info.count == info.list.len();
    let is_whole = are_counted && report.lockfile.dependency_count == packages;
    Ok(is_whole && text.as_slice() == findings.as_bytes())
}

/// Advisories that are patched from version 2 on: the ends of their IDs, their packages, and a key of each.
const ADVISORIES: &[&str] = &[
    "1 | base | ",
    "2 | base | withdrawn = \"2001-02-04\"",
    "3 | base | informational = \"unmaintained\"",
    "4 | other | informational = \"notice\"",
    "5 | base | informational = \"unsound\"",
    "6 | base | informational = \"x\"",
];

fn file(alloc: Global, row: &str) -> Result<SourceFile, Fail> {
    let (end, package) = (exact_field(row, 0), exact_field(row, 1));
    let key = exact_field(row, 2);
    let path = format!(in alloc; "crates/{package}/RUSTSEC-2001-000{end}.md")?;
    let text = format!(in alloc;
        "```toml\n[advisory]\nid = \"RUSTSEC-2001-000{end}\"\npackage = \"{package}\"\ndate = \"2001-02-03\"\n{key}\n[versions]\npatched = [\">= 2.0.0\"]\n```\n\n# T\n\nD\n"
    )?;
    let (path, text) = (Text::from(path), Text::from(text));
    Ok(SourceFile { path, text })
}

fn database(alloc: Global) -> Result<Database, Fail> {
    let mut files = Vec::new(alloc);
    for row in ADVISORIES {
        files.push(file(alloc, row)?)?;
    }
    Ok(Database::load(alloc, &files)?)
}

/// A package of the default registry.
pub(crate) const BASE: &str =
    "[[package]]\nname = \"base\"\nversion = \"1.0.0\"\nsource = \"registry+https://github.com/rust-lang/crates.io-index\"\n";

/// Packages of the same name from elsewhere, and a package of another name from the default registry.
const OTHERS: &str = "[[package]]\nname = \"base\"\nversion = \"1.0.1\"\n\
    [[package]]\nname = \"base\"\nversion = \"1.0.2\"\nsource = \"git+https://example.com/base?branch=x#abc\"\n\
    [[package]]\nname = \"base\"\nversion = \"1.0.3\"\nsource = \"sparse+https://index.crates.io/\"\n\
    [[package]]\nname = \"other\"\nversion = \"1.5.0\"\nsource = \"registry+https://github.com/rust-lang/crates.io-index\"\n";

/// Returns the five packages, the first one as often as the row says.
fn lockfile(alloc: Global, row: &str) -> Result<Lockfile, Fail> {
    let is_twice = exact_field(row, 1) == "twice";
    let again = if is_twice { BASE } else { "" };
    let text = format!(in alloc; "{BASE}{again}{OTHERS}")?;
    Ok(Lockfile::from_str(alloc, &text)?)
}

/// The example; how often the first package is listed; the end of the ignored ID; the kinds that are asked for; and
/// what is listed. An advisory is ignored for warnings too. Another kind gives no warning.
const REPORTS: &[&str] = &[
    "report_of_five_packages | once | 9 | unmaintained | vulnerability RUSTSEC-2001-0001 base 1.0.0\nwarning unmaintained RUSTSEC-2001-0003 base 1.0.0\n1 vulnerabilities, 1 warnings\n",
    "kinds_of_warnings | once | 9 | notice | vulnerability RUSTSEC-2001-0001 base 1.0.0\nwarning notice RUSTSEC-2001-0004 other 1.5.0\n1 vulnerabilities, 1 warnings\n",
    "kinds_of_warnings | once | 9 | unsound | vulnerability RUSTSEC-2001-0001 base 1.0.0\nwarning unsound RUSTSEC-2001-0005 base 1.0.0\n1 vulnerabilities, 1 warnings\n",
    "kinds_of_warnings | once | 9 | unsound x notice unmaintained | vulnerability RUSTSEC-2001-0001 base 1.0.0\nwarning notice RUSTSEC-2001-0004 other 1.5.0\nwarning unmaintained RUSTSEC-2001-0003 base 1.0.0\nwarning unsound RUSTSEC-2001-0005 base 1.0.0\n1 vulnerabilities, 3 warnings\n",
    "kinds_of_warnings | once | 3 | notice unmaintained unsound | vulnerability RUSTSEC-2001-0001 base 1.0.0\nwarning notice RUSTSEC-2001-0004 other 1.5.0\nwarning unsound RUSTSEC-2001-0005 base 1.0.0\n1 vulnerabilities, 2 warnings\n",
    "kinds_of_warnings | once | 4 | notice | vulnerability RUSTSEC-2001-0001 base 1.0.0\n1 vulnerabilities, 0 warnings\n",
    "kinds_of_warnings | once | 9 |  | vulnerability RUSTSEC-2001-0001 base 1.0.0\n1 vulnerabilities, 0 warnings\n",
    "report_repeats | twice | 9 | unmaintained | vulnerability RUSTSEC-2001-0001 base 1.0.0\nvulnerability RUSTSEC-2001-0001 base 1.0.0\nwarning unmaintained RUSTSEC-2001-0003 base 1.0.0\nwarning unmaintained RUSTSEC-2001-0003 base 1.0.0\n2 vulnerabilities, 2 warnings\n",
    "report_repeats | twice | 1 | unmaintained | warning unmaintained RUSTSEC-2001-0003 base 1.0.0\nwarning unmaintained RUSTSEC-2001-0003 base 1.0.0\n0 vulnerabilities, 2 warnings\n",
    "report_repeats | twice | 9 | x | vulnerability RUSTSEC-2001-0001 base 1.0.0\nvulnerability RUSTSEC-2001-0001 base 1.0.0\n2 vulnerabilities, 0 warnings\n",
];

/// Returns settings of severity High, which ask for warnings of some kinds and ignore an advisory.
fn settings(alloc: Global, row: &str) -> Result<Settings, Fail> {
    let mut settings = Settings::new(alloc);
    settings.severity = Some(Severity::High);
    for word in exact_field(row, 3).split(' ') {
        if !word.is_empty() {
            let kind = Informational::from_str(alloc, word)?;
            settings.informational_warnings.push(kind)?;
        }
    }
    let ignored = format!(in alloc; "RUSTSEC-2001-000{}", exact_field(row, 2))?;
    settings.ignore.push(Id::from_str(alloc, &ignored)?)?;
    Ok(settings)
}

fn report(alloc: Global, row: &str) -> Result<Report, Fail> {
    let (database, lockfile) = (database(alloc)?, lockfile(alloc, row)?);
    let settings = settings(alloc, row)?;
    Ok(Report::generate(alloc, &database, &lockfile, &settings)?)
}

/// Returns whether a report lists what a row says.
fn holds(alloc: Global, report: &Report, row: &str) -> Result<bool, Fail> {
    let packages = if exact_field(row, 1) == "twice" { 6 } else { 5 };
    lists(alloc, report, packages, exact_field(row, 4))
}

#[test]
fn reports(rt: HostRuntime) -> Result<(), Fail> {
    for row in REPORTS {
        let report = report(rt.alloc(), row)?;
        assert!(rt; holds(rt.alloc(), &report, row)?, "{row}");
    }
    Ok(())
}

/// A report with two vulnerabilities and warnings of each kind.
const EACH_KIND: &str =
    "reports_with_ample_memory | twice | 9 | unmaintained notice unsound | vulnerability RUSTSEC-2001-0001 base 1.0.0\nvulnerability RUSTSEC-2001-0001 base 1.0.0\nwarning notice RUSTSEC-2001-0004 other 1.5.0\nwarning unmaintained RUSTSEC-2001-0003 base 1.0.0\nwarning unmaintained RUSTSEC-2001-0003 base 1.0.0\nwarning unsound RUSTSEC-2001-0005 base 1.0.0\nwarning unsound RUSTSEC-2001-0005 base 1.0.0\n2 vulnerabilities, 5 warnings\n";

fn tree(alloc: Global, report: &Report) -> Result<String, Fail> {
    let value = report.to_value(alloc)?;
    Ok(value.to_string(alloc)?)
}

/// Returns whether a copy of a report's two vulnerabilities is equal to them.
fn list_is_copied(alloc: Global, info: &VulnerabilityInfo) -> Result<bool, Fail> {
    let copy = info.clone(alloc)?;
    Ok(copy.count == 2 && info.count == 2 && copy.list == info.list)
}

/// Returns whether a copy of a report has the same tree.
fn tree_is_copied(alloc: Global, report: &Report) -> Result<bool, Fail> {
    let copy = report.clone(alloc)?;
    let (text, of_copy) = (tree(alloc, report)?, tree(alloc, &copy)?);
    Ok(text.as_str() == of_copy.as_str())
}

/// Returns what `find_warnings` finds for a row by copied settings.
fn found_warnings(alloc: Global, row: &str) -> Result<WarningInfo, Fail> {
    let settings = settings(alloc, row)?.clone(alloc)?;
    let (database, lockfile) = (database(alloc)?, lockfile(alloc, row)?);
    Ok(find_warnings(alloc, &database, &lockfile, &settings)?)
}

#[test]
fn reports_with_ample_memory(rt: HostRuntime) -> Result<(), Fail> {
    let mut report = report(rt.alloc(), EACH_KIND)?;
    report.warnings = found_warnings(rt.alloc(), EACH_KIND)?;
    assert!(rt; holds(rt.alloc(), &report, EACH_KIND)?);
    assert!(rt; tree_is_copied(rt.alloc(), &report)?);
    assert!(rt; list_is_copied(rt.alloc(), &report.vulnerabilities)?);
    Ok(())
}

/// Returns a list of one warning about a package, whose advisory affects one system.
fn warning(alloc: Global, kind: WarningKind, system: OS) -> Result<Items<Warning>, Fail> {
    let lockfile = Lockfile::from_str(alloc, BASE)?;
    let package = lockfile.packages.get(0).ok_or("no package")?;
    let mut affected = Affected::default(alloc);
    affected.os.push(system)?;
    let mut list = Items::new(alloc);
    list.push(Warning::new(alloc, kind, package, None, Some(affected), None)?)?;
    Ok(list)
}

/// Returns warnings, one of each informational kind.
fn warnings(alloc: Global, system: OS) -> Result<WarningInfo, Fail> {
    let mut warnings = WarningInfo::new(alloc);
    for word in "notice unmaintained unsound".split(' ') {
        let kind = WarningKind::from_str(alloc, word)?;
        warnings.insert(kind, warning(alloc, kind, system)?)?;
    }
    Ok(warnings)
}

/// An affected system, a format, how often the filter is called, and whether the warnings are left.
const FILTERED: &[(OS, BinaryFormat, u8, bool)] = &[
    (OS::Windows, BinaryFormat::Elf64, 1, false),
    (OS::Windows, BinaryFormat::Elf64, 2, false),
    (OS::Windows, BinaryFormat::Elf32, 1, false),
    (OS::Windows, BinaryFormat::Macho, 1, false),
    (OS::Windows, BinaryFormat::Wasm, 1, false),
    (OS::Windows, BinaryFormat::PE, 2, true),
    (OS::Windows, BinaryFormat::Unknown, 1, true),
    (OS::VisionOS, BinaryFormat::Macho, 1, true),
    (OS::VisionOS, BinaryFormat::Elf32, 1, false),
    (OS::Linux, BinaryFormat::Elf32, 1, true),
    (OS::Linux, BinaryFormat::PE, 1, false),
    (OS::None, BinaryFormat::Wasm, 1, true),
    (OS::Unknown, BinaryFormat::Elf64, 1, true),
];

/// The warnings, as `write_audit` writes them.
const LEFT: &str = "warning notice - base 1.0.0\nwarning unmaintained - base 1.0.0\n\
    warning unsound - base 1.0.0\n0 vulnerabilities, 3 warnings\n";

/// Returns whether a format leaves all three kinds, and their warnings as it should.
fn leaves(alloc: Global, row: &(OS, BinaryFormat, u8, bool)) -> Result<bool, Fail> {
    let (system, format, times, left) = row;
    let mut report = report(alloc, "filter | once | 1 | ")?;
    report.warnings = warnings(alloc, *system)?;
    for _ in 0..*times {
        if report.vulnerabilities.count != report.vulnerabilities.list.len() {
            return Ok(false);
        }
        filter_report_by_binary_type(format, &mut report);
    }
    let none = "0 vulnerabilities, 0 warnings\n";
    let findings = if *left { LEFT } else { none };
    Ok(report.warnings.len() == 3 && lists(alloc, &report, 5, findings)?)
}

#[test]
fn filter_keeps_empty_kind(rt: HostRuntime) -> Result<(), Fail> {
    for (i, row) in FILTERED.iter().enumerate() {
        assert!(rt; leaves(rt.alloc(), row)?, "row {i}");
    }
    Ok(())
}
