//! Databases and reports: their answers as texts.

use crate::files::{source_files, text_of};
use crate::window::{closes, opens, refusal};
use rustsec_database::Database;
use rustsec_files::SourceFile;
use rustsec_lock::Lockfile;
use rustsec_report::{Report, Settings};
use rustsec_texts::Informational;
use rustsec_values::{Items, Result};
use std::alloc::{AllocError, Global};

/// Returns how many advisories of a database are equal to those of another at the same place.
fn shared(database: &Database, other: &Database) -> usize {
    let mut count = 0usize;
    for (a, b) in database.iter().zip(other.iter()) {
        if a == b {
            count = count.saturating_add(1);
        }
    }
    count
}

/// Returns how many advisories a database has, and how many of them are those that ample memory gives.
fn database_text(alloc: Global, database: &Database, files: &[SourceFile]) -> Result<String> {
    let ample = Database::load(alloc, files)?;
    let (count, shared) = (database.iter().count(), shared(database, &ample));
    Ok(format!(in alloc; "{count} advisories, the same: {shared}")?)
}

/// Returns the answer of `Database::load`.
pub fn load(rt: &HostRuntime, paths: &[&str]) -> Result<String> {
    let files = source_files(rt, paths)?;
    opens(rt);
    let answer = Database::load(rt.alloc(), &files);
    closes(rt);
    match answer {
        Ok(database) => database_text(rt.alloc(), &database, &files),
        Err(e) => refusal(rt.alloc(), &e),
    }
}

/// Returns settings that ask for all warnings.
fn settings(alloc: Global) -> std::result::Result<Settings, AllocError> {
    let kinds = vec![in alloc;
        Informational::Notice,
        Informational::Unmaintained,
        Informational::Unsound,
    ]?;
    let mut settings = Settings::new(alloc);
    settings.informational_warnings = Items::from(kinds);
    Ok(settings)
}

/// Returns the text of a report's tree.
fn report_text(alloc: Global, report: &Report) -> Result<String> {
    let tree = report.to_value(alloc)?;
    Ok(tree.to_string(alloc)?)
}

/// Returns the answer of `Report::generate`.
fn report_of(rt: &HostRuntime, database: &Database, lockfile: &Lockfile) -> Result<String> {
    let settings = settings(rt.alloc())?;
    opens(rt);
    let answer = Report::generate(rt.alloc(), database, lockfile, &settings);
    closes(rt);
    match answer {
        Ok(report) => report_text(rt.alloc(), &report),
        Err(e) => refusal(rt.alloc(), &e),
    }
}

/// Returns the answer of `Report::generate`, over a lockfile and the files of a database.
pub fn report(rt: &HostRuntime, lock: &str, paths: &[&str]) -> Result<String> {
    let files = source_files(rt, paths)?;
    let database = Database::load(rt.alloc(), &files)?;
    let lock = text_of(rt, lock)?;
    let lockfile = Lockfile::from_str(rt.alloc(), &lock)?;
    report_of(rt, &database, &lockfile)
}
