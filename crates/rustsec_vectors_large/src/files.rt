//! Databases of thousands of files, lockfiles of thousands of packages, and reports on them, also by an advisory with a
//! description of a megabyte.

use crate::folders::{entries_of, files_of, output_by, packages, rows_of, source_file};
use crate::numbers::{COUNT, MANY, MEGABYTE, filled, occurrences};
use rustsec::database::{Database, Query};
use rustsec::report::{Report, Settings};
use rustsec_commands::write_audit;
use rustsec_files::{SourceFile, source_files};
use rustsec_fixtures::{Failing, MemoryFolders, Paths};
use rustsec_lock::Lockfile;
use rustsec_lock::package::Name;
use rustsec_texts::{Collection, Id, Informational};
use rustsec_values::ErrorKind;
use std::alloc::Global;
use std::str;
use std::test::Fail;

/// Returns the database of this many advisories.
fn database(alloc: Global, count: u32) -> Result<Database, Fail> {
    let files = files_of(alloc, 0..count, false)?;
    Ok(Database::load(alloc, &files)?)
}

/// Returns a lockfile of this many packages, and of `base` in this many vulnerable versions.
fn lockfile(alloc: Global, others: u32, vulnerable: u32) -> Result<String, Fail> {
    let mut text = packages(alloc, others, "package-$", "0.0.$")?;
    text.push_str(&packages(alloc, vulnerable, "base", "0.0.$")?)?;
    Ok(text)
}

/// Two numbers of elements.
type Counts = (usize, usize);

/// Returns how many advisories there are, and how many the index gives for crates of a name.
fn counts(alloc: Global, database: &Database, name: &str) -> Result<Counts, Fail> {
    let all = database.query(alloc, &Query::new(alloc))?.len();
    let query = Query::new(alloc).collection(Collection::Crates);
    let query = query.package_name(Name::from_str(alloc, name)?);
    Ok((all, database.query(alloc, &query)?.len()))
}

#[test]
fn thousands_of_advisory_files(rt: HostRuntime) -> Result<(), Fail> {
    let database = database(rt.alloc(), COUNT)?;
    assert!(rt; counts(rt.alloc(), &database, "base")? == (MANY, MANY));
    assert!(rt; counts(rt.alloc(), &database, "other")? == (MANY, 0));
    Ok(())
}

/// Returns whether a lockfile has as many packages as wanted, a report on them counts these, and it and both queries
/// find as many vulnerabilities as wanted, the second number.
fn finds(alloc: Global, database: &Database, text: &str, wanted: Counts) -> Result<bool, Fail> {
    let lockfile = Lockfile::from_str(alloc, text)?;
    let crates = database.vulnerabilities(alloc, &lockfile)?.len();
    let all = database
        .query_vulnerabilities(alloc, &lockfile, &Query::new(alloc))?
        .len();
    let report = Report::generate(alloc, database, &lockfile, &Settings::new(alloc))?;
    let (packages, found) = wanted;
    let has_packages = lockfile.packages.len() == packages
        && report.lockfile.dependency_count == packages;
    let listed = report.vulnerabilities.list.len();
    Ok(has_packages && listed == found && crates == found && all == found)
}

/// Returns whether that holds for this many advisories, packages, and versions of `base`.
fn finds_by(alloc: Global, numbers: (u32, u32, u32), wanted: Counts) -> Result<bool, Fail> {
    let (advisories, others, vulnerable) = numbers;
    let lockfile = lockfile(alloc, others, vulnerable)?;
    let database = database(alloc, advisories)?;
    finds(alloc, &database, &lockfile, wanted)
}

#[test]
fn thousands_of_packages_and_advisories(rt: HostRuntime) -> Result<(), Fail> {
    assert!(rt; finds_by(rt.alloc(), (1, 0, COUNT), (MANY, MANY))?);
    assert!(rt; finds_by(rt.alloc(), (1, COUNT, 1), (MANY + 1, 1))?);
    assert!(rt; finds_by(rt.alloc(), (COUNT, 0, 1), (1, MANY))?);
    assert!(rt; finds_by(rt.alloc(), (COUNT, COUNT, 1), (MANY + 1, MANY))?);
    Ok(())
}

/// Returns whether a copy of a report prints as the report does; whether `write_audit` lists each vulnerability of it,
/// and counts them; and whether both hold for the report of thousands of texts, and it counts the packages.
fn report_is_copied(alloc: Global, report: &Report) -> Result<bool, Fail> {
    let printed = report.to_value(alloc)?.to_string(alloc)?;
    let copy = report.clone(alloc)?;
    Ok(copy.to_value(alloc)?.to_string(alloc)? == printed)
}

fn is_written(alloc: Global, report: &Report) -> Result<bool, Fail> {
    let mut written = Vec::new(alloc);
    let status = write_audit(alloc, report, false, &mut written)?;
    Ok(status == 1 && lists_all(str::from_utf8(written.as_slice())?))
}

fn report_of_texts(alloc: Global, files: &[SourceFile], lockfile: &str) -> Result<bool, Fail> {
    let report = Report::of_texts(alloc, files, lockfile, &Settings::new(alloc))?;
    let packages = report.lockfile.dependency_count;
    let is_copied = report_is_copied(alloc, &report)?;
    Ok(packages == MANY + 1 && is_copied && is_written(alloc, &report)?)
}

/// Returns how many vulnerabilities a report of files and of a lockfile's table lists.
fn listed_by_table(alloc: Global, files: &[SourceFile], lockfile: &str) -> Result<usize, Fail> {
    let table = toml::table_from_str(alloc, lockfile)?;
    let report = Report::of_files(alloc, files, &table, &Settings::new(alloc))?;
    Ok(report.vulnerabilities.list.len())
}

/// Returns whether a copy of a lockfile's packages is equal to them.
fn packages_are_copied(alloc: Global, text: &str) -> Result<bool, Fail> {
    let lockfile = Lockfile::from_str(alloc, text)?;
    let copy = lockfile.clone(alloc)?;
    Ok(copy == lockfile)
}

#[test]
fn reports_of_thousands_of_texts(rt: HostRuntime) -> Result<(), Fail> {
    let files = files_of(rt.alloc(), 0..COUNT, false)?;
    let lockfile = lockfile(rt.alloc(), COUNT, 1)?;
    assert!(rt; packages_are_copied(rt.alloc(), &lockfile)?);
    assert!(rt; listed_by_table(rt.alloc(), &files, &lockfile)? == MANY);
    assert!(rt; report_of_texts(rt.alloc(), &files, &lockfile)?);
    Ok(())
}

/// Returns whether a text of `audit` lists each advisory, and counts them; and whether a tree of `report` does, and
/// counts the packages.
fn lists_all(text: &str) -> bool {
    text.starts_with("vulnerability RUSTSEC-2001-0 base 0.0.1\n")
        && occurrences(text, "vulnerability RUSTSEC-2001-") == MANY
        && text.ends_with("\n10000 vulnerabilities, 0 warnings\n")
}

fn holds_all(text: &str) -> bool {
    let count = "\"vulnerabilities\":{\"count\":10000,\"found\":true,";
    text.starts_with("{\"lockfile\":{\"dependency-count\":10001}")
        && occurrences(text, count) == 1
        && occurrences(text, "\"id\":\"RUSTSEC-2001-") == MANY
}

/// Returns whether a command lists all vulnerabilities over files and a lockfile.
fn lists(alloc: Global, files: &[SourceFile], lockfile: &str, command: &str) -> Result<bool, Fail> {
    let words = format!(in alloc; "{command} db lock")?;
    let (status, text) = output_by(alloc, files, lockfile, &words)?;
    let lists_all = if command == "audit" {
        lists_all(&text)
    } else {
        holds_all(&text)
    };
    Ok(status == 1 && lists_all)
}

#[test]
fn commands_over_thousands_of_files(rt: HostRuntime) -> Result<(), Fail> {
    let files = files_of(rt.alloc(), 0..COUNT, false)?;
    let lockfile = lockfile(rt.alloc(), COUNT, 1)?;
    for command in &["audit", "report"] {
        let is_listed = lists(rt.alloc(), &files, &lockfile, command)?;
        assert!(rt; is_listed, "by {command}");
    }
    Ok(())
}

/// Returns whether the files under the root of folders with these rows are these, in this order.
fn are_found(alloc: Global, rows: Paths<'_>, files: &[SourceFile]) -> Result<bool, Fail> {
    let kind = ErrorKind::Io;
    let mut folders = MemoryFolders::new(rows, Failing { at: 0, kind });
    let found = source_files(alloc, &mut folders, "db")?;
    Ok(found.as_slice() == files)
}

// The numbers of these advisories have five digits each, so the names of their files are in order.
#[test]
fn thousands_of_source_files(rt: HostRuntime) -> Result<(), Fail> {
    let files = files_of(rt.alloc(), COUNT..2 * COUNT, false)?;
    let entries = entries_of(rt.alloc(), &files)?;
    let rows = rows_of(rt.alloc(), &files, &entries, "")?;
    assert!(rt; are_found(rt.alloc(), &rows, &files)?);
    Ok(())
}

/// A line of an advisory, how many bytes its description has, the number of the ignored ID, how many packages there
/// are, and how many vulnerabilities and warnings the report lists; it asks for notices alone.
type Row<'a> = (&'a str, usize, u32, u32, Counts);

/// Worked by hand. The first three list nothing, though the advisory affects each package, and the others list each.
const ROWS: &[Row<'_>] = &[
    ("informational = \"x\"", MEGABYTE, 1001, 4000, (0, 0)),
    ("informational = \"notice\"", MEGABYTE, 2101, 4000, (0, 0)),
    ("", MEGABYTE, 2101, 4000, (0, 0)),
    ("informational = \"notice\"", MEGABYTE, 1001, 3, (0, 3)),
    ("", MEGABYTE, 1001, 3, (3, 0)),
    ("informational = \"notice\"", 8, 1001, 4000, (0, 4000)),
];

/// Returns the database of an advisory that affects every version, with a line and a description of this many bytes.
fn described(alloc: Global, line: &str, bytes: usize) -> Result<Database, Fail> {
    let description = "survive ".repeat(alloc, bytes / 8)?;
    let text = format!(in alloc;
        "```toml\n[advisory]\nid = \"RUSTSEC-2001-2101\"\npackage = \"base\"\ndate = \"2001-02-03\"\n{line}\n[versions]\npatched = []\n```\n# T\n\n{description}\n"
    )?;
    Ok(Database::load(alloc, &[source_file(alloc, 2101, text)?])?)
}

/// Returns settings that ask for notices and ignore the ID with a number.
fn settings(alloc: Global, ignored: u32) -> Result<Settings, Fail> {
    let id = Id::from_str(alloc, &filled(alloc, "RUSTSEC-2001-$", ignored)?)?;
    let mut settings = Settings::new(alloc);
    settings.informational_warnings.push(Informational::Notice)?;
    settings.ignore.push(id)?;
    Ok(settings)
}

/// Returns how many vulnerabilities and warnings a report lists.
fn listed(
    alloc: Global,
    database: &Database,
    lockfile: &Lockfile,
    settings: &Settings,
) -> Result<Counts, Fail> {
    let report = Report::generate(alloc, database, lockfile, settings)?;
    let mut warnings: usize = 0;
    for (_, list) in report.warnings.as_map() {
        warnings = warnings.saturating_add(list.len());
    }
    Ok((report.vulnerabilities.list.len(), warnings))
}

/// Returns whether each package gives a pair by a query for everything, and the report lists as many as a row wants.
fn is_wanted(alloc: Global, row: &Row<'_>) -> Result<bool, Fail> {
    let (line, bytes, ignored, count, wanted) = row;
    let database = described(alloc, line, *bytes)?;
    let lockfile = Lockfile::from_str(alloc, &packages(alloc, *count, "base", "0.0.$")?)?;
    let pairs = database.query_pairs(alloc, &lockfile, &Query::new(alloc))?;
    let settings = settings(alloc, *ignored)?;
    let is_whole = pairs.len() == *count as usize;
    Ok(is_whole && listed(alloc, &database, &lockfile, &settings)? == *wanted)
}

#[test]
fn pairs_that_are_found_and_not_listed(rt: HostRuntime) -> Result<(), Fail> {
    for (i, row) in ROWS.iter().enumerate() {
        assert!(rt; is_wanted(rt.alloc(), row)?, "row {i}");
    }
    Ok(())
}
