//! Lockfiles of numbered packages, databases of numbered advisories, and what commands write over them in memory.

use crate::numbers::{filled, numbered};
use rustsec_database_commands::run_over;
use rustsec_files::SourceFile;
use rustsec_fixtures::{Failing, Holds, MemoryFolders, Paths, SHORT};
use rustsec_values::{ErrorKind, Text};
use std::alloc::Global;
use std::ops::Range;
use std::test::Fail;

/// The time of the last change of a document.
pub(crate) const MODIFIED: &str = "2020-01-01T00:00:00Z";

/// Returns a package of the registry, in a lockfile.
pub(crate) fn package(alloc: Global, name: &str, version: &str) -> Result<String, Fail> {
    let text = format!(in alloc;
        "[[package]]\nname = \"{name}\"\nversion = \"{version}\"\nsource = \"registry+https://github.com/rust-lang/crates.io-index\"\n"
    )?;
    Ok(text)
}

/// Returns a lockfile of packages with the numbers from 1 to a count, whose name and version are templates.
pub(crate) fn packages(
    alloc: Global,
    count: u32,
    name: &str,
    version: &str,
) -> Result<String, Fail> {
    numbered(alloc, count, &package(alloc, name, version)?)
}

/// Returns the file of the advisory of `base` with a number.
pub(crate) fn source_file(alloc: Global, number: u32, text: String) -> Result<SourceFile, Fail> {
    let path = filled(alloc, "db/crates/base/RUSTSEC-2001-$.md", number)?;
    let (path, text) = (Text::from(path), Text::from(text));
    Ok(SourceFile { path, text })
}

/// Returns the text of the file with a number. Where there are faults, that of number 1000 is empty, and one of 25 has
/// the ID of the file before it.
fn text_of(alloc: Global, template: &str, number: u32, has_faults: bool) -> Result<String, Fail> {
    match (has_faults, number, number % 25) {
        (true, 1000, _) => Ok(String::new(alloc)),
        (true, _, 7) => filled(alloc, template, number.saturating_sub(1)),
        _ => filled(alloc, template, number),
    }
}

/// Returns the files with some numbers, in order: the advisory `SHORT` with the number in its ID.
pub(crate) fn files_of(
    alloc: Global,
    numbers: Range<u32>,
    has_faults: bool,
) -> Result<Vec<SourceFile>, Fail> {
    let template = SHORT.replace(alloc, "2101", "$")?;
    let mut files = Vec::new(alloc);
    for number in numbers {
        let text = text_of(alloc, &template, number, has_faults)?;
        files.push(source_file(alloc, number, text)?)?;
    }
    Ok(files)
}

/// Returns the entries of the folder of some files.
pub(crate) fn entries_of<'a>(
    alloc: Global,
    files: &'a [SourceFile],
) -> Result<Vec<(&'a str, bool)>, Fail> {
    let mut entries = Vec::new(alloc);
    for file in files {
        let (_, name) = file.path.as_str().split_once("base/").ok_or("no name")?;
        entries.push((name, false))?;
    }
    Ok(entries)
}

/// Returns what the paths of some files, of their folders and of a lockfile hold. An empty file cannot be read.
pub(crate) fn rows_of<'a>(
    alloc: Global,
    files: &'a [SourceFile],
    entries: &'a [(&'a str, bool)],
    lockfile: &'a str,
) -> Result<Vec<(&'a str, Holds<'a>)>, Fail> {
    let mut rows = Vec::new(alloc);
    rows.push(("lock", Holds::Text(lockfile)))?;
    rows.push(("db/crates", Holds::Entries(&[("base", true)])))?;
    rows.push(("db/rust", Holds::Entries(&[])))?;
    rows.push(("db/crates/base", Holds::Entries(entries)))?;
    for file in files {
        if !file.text.as_str().is_empty() {
            rows.push((file.path.as_str(), Holds::Text(file.text.as_str())))?;
        }
    }
    Ok(rows)
}

/// Returns the status of words, separated by blanks, over folders for an input, and what is written.
pub(crate) fn output_over(
    alloc: Global,
    rows: Paths<'_>,
    words: &str,
    input: &str,
    notes: &mut Vec<u8>,
) -> Result<(u8, String), Fail> {
    let words: Vec<&str> = words.split(' ').collect(alloc)?;
    let (at, kind) = (0, ErrorKind::Io);
    let mut folders = MemoryFolders::new(rows, Failing { at, kind });
    let mut input = input.as_bytes();
    let mut text = Vec::new(alloc);
    let status = run_over(&mut folders, alloc, &words, &mut input, &mut text, notes)?;
    Ok((status, String::from_utf8(text)?))
}

/// A status, an output, and perhaps the notes.
pub(crate) type Wanted<'a> = (u8, &'a str, Option<&'a str>);

/// Returns whether words over folders for an input write what is wanted.
pub(crate) fn writes(
    alloc: Global,
    rows: Paths<'_>,
    words: &str,
    input: &str,
    wanted: Wanted<'_>,
) -> Result<bool, Fail> {
    let (status, text, noted) = wanted;
    let mut notes = Vec::new(alloc);
    let (found, written) = output_over(alloc, rows, words, input, &mut notes)?;
    let is_noted = match noted {
        Some(noted) => notes.as_slice() == noted.as_bytes(),
        None => true,
    };
    Ok(is_noted && found == status && written.as_str() == text)
}

/// Returns the status of words over some files and a lockfile, and what is written. An input is a list of the lockfile.
pub(crate) fn output_by(
    alloc: Global,
    files: &[SourceFile],
    lockfile: &str,
    words: &str,
) -> Result<(u8, String), Fail> {
    let entries = entries_of(alloc, files)?;
    let rows = rows_of(alloc, files, &entries, lockfile)?;
    let mut notes = Vec::new(alloc);
    output_over(alloc, &rows, words, "lock\n", &mut notes)
}

/// Returns whether words over some files write what is wanted.
pub(crate) fn answers(
    alloc: Global,
    files: &[SourceFile],
    words: &str,
    wanted: Wanted<'_>,
) -> Result<bool, Fail> {
    let entries = entries_of(alloc, files)?;
    let rows = rows_of(alloc, files, &entries, "")?;
    writes(alloc, &rows, words, "", wanted)
}
