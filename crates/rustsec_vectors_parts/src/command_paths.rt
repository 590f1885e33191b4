//! The crate `rustsec`: its version, an audit by the paths where a user of the Rust crate looks, and how a report
//! prints.

use rustsec::advisory::affected::{FunctionPath, Identifier};
use rustsec::advisory::linter::ErrorKind as LintErrorKind;
use rustsec::advisory::metadata::Metadata;
use rustsec::advisory::{Affected, Category, Date, Id, IdKind, Linter, Parts, Versions};
use rustsec::binary_scanning::{BinaryFormat, filter_report_by_binary_type};
use rustsec::database::{Database, Query};
use rustsec::osv::{OsvAdvisory, OsvRange, ranges_for_advisory};
use rustsec::package::{Name, Package};
use rustsec::platforms::{Arch, OS};
use rustsec::registry::CachedIndex;
use rustsec::report::{Settings, find_warnings};
use rustsec::repository::signature::Signature;
use rustsec::{
    Collection, FixCommand, Fixer, Folders, Lockfile, Lookup, Report, SourceFile, SourceId, Text,
    UnaffectedRange, Vulnerability, Warning, WarningKind, requirement_text, successor,
};
use rustsec_fixtures::{ADVISORIES, FOUR_PACKAGES};
use std::alloc::Global;
use std::test::Fail;

fn database(alloc: Global) -> Result<Database, Fail> {
    let (path, text) = ADVISORIES[0];
    let (path, text) = (Text::from_str(alloc, path)?, Text::from_str(alloc, text)?);
    Ok(Database::load(alloc, &[SourceFile { path, text }])?)
}

/// Returns the report of that database and four packages, less what applies to no program of ELF.
fn report(alloc: Global) -> Result<Report, Fail> {
    let database = database(alloc)?;
    let lockfile = Lockfile::from_str(alloc, FOUR_PACKAGES)?;
    let settings = Settings::new(alloc);
    let mut report = Report::generate(alloc, &database, &lockfile, &settings)?;
    filter_report_by_binary_type(&BinaryFormat::Elf64, &mut report);
    Ok(report)
}

/// Returns how many vulnerabilities the report lists, and whether its text for a programmer begins so.
fn reports(alloc: Global, beginning: &str) -> Result<(usize, bool), Fail> {
    let report = report(alloc)?;
    let text = format!(in alloc; "{report:?}")?;
    Ok((report.vulnerabilities.count, text.starts_with(beginning)))
}

#[test]
fn an_audit_by_the_paths_of_the_rust_crate(rt: HostRuntime) -> Result<(), Fail> {
    let beginning = "Report { lockfile: LockfileInfo { dependency_count: 4 }, settings: Settings {";
    assert!(rt; rustsec::VERSION == "0.33.0");
    assert!(rt; reports(rt.alloc(), beginning)? == (1, true));
    Ok(())
}
