//! Files under a root, and the databases of them: each failing step, roots of the disk. Cases of `audit`, `report` and
//! `lint-database` have the roots over which no call fails.

use crate::rows::is_copied;
use crate::stored::PLACE;
use rustsec_database::Database;
use rustsec_files::{SourceFile, source_files};
use rustsec_fixtures::Holds::{Entries, Text};
use rustsec_fixtures::{Failing, Holds, MemoryFolders, Paths, VALID};
use rustsec_values::ErrorKind;
use std::alloc::Global;
use std::fs;
use std::process::Abort;
use std::rt::Files;
use std::test::Fail;

/// The text of an advisory of the collection `rust`.
const STD: &str =
    "```toml\n[advisory]\nid = \"RUSTSEC-2001-0001\"\npackage = \"std\"\ndate = \"2001-02-03\"\n\
    [versions]\npatched = []\n```\n# T\n\nD\n";

/// Folders with the file of the valid advisory, of that one, and of a text that is not an advisory.
const VALID_FOLDER: Holds<'static> = Entries(&[("RUSTSEC-2001-2101.md", false)]);

const STD_FOLDER: Holds<'static> = Entries(&[("RUSTSEC-2001-0001.md", false)]);

const NO_FOLDER: Holds<'static> = Entries(&[("RUSTSEC-2001-0002.md", false)]);

const DOT_NAMES: &[(&str, bool)] = &[(".DS_Store", false), ("RUSTSEC-2001-2101.md", false)];

const TWICE_NAMES: &[(&str, bool)] = &[("x", false), ("..", false), ("w", false), ("x", false)];

/// A root with one advisory, a file beside its folder, and a file that begins with a dot; `rust` is not there.
const ONE: Paths<'_> = &[
    ("db/crates", Entries(&[("base", true), ("README", false)])),
    ("db/crates/base", Entries(DOT_NAMES)),
    ("db/crates/base/RUSTSEC-2001-2101.md", Text(VALID)),
];

/// A root with an advisory in each collection, and its files.
const BOTH: Paths<'_> = &[
    ("db/crates", Entries(&[("base", true)])),
    ("db/crates/base", VALID_FOLDER),
    ("db/crates/base/RUSTSEC-2001-2101.md", Text(VALID)),
    ("db/rust", Entries(&[("std", true)])),
    ("db/rust/std", STD_FOLDER),
    ("db/rust/std/RUSTSEC-2001-0001.md", Text(STD)),
];

const FILES: &[(&str, &str)] = &[
    ("db/crates/base/RUSTSEC-2001-2101.md", VALID),
    ("db/rust/std/RUSTSEC-2001-0001.md", STD),
];

/// A root with a file that is not an advisory, followed by one that is.
const NO_ADVISORY: Paths<'_> = &[
    ("db/crates", Entries(&[("base", true), ("a", true)])),
    ("db/crates/a", NO_FOLDER),
    ("db/crates/a/RUSTSEC-2001-0002.md", Text("none")),
    ("db/crates/base", VALID_FOLDER),
    ("db/crates/base/RUSTSEC-2001-2101.md", Text(VALID)),
];

/// A root with an advisory in the folder of another package, followed by a file that is not an advisory.
const TWO_FAULTS: Paths<'_> = &[
    ("db/crates", Entries(&[("other", true), ("a", true)])),
    ("db/crates/a", VALID_FOLDER),
    ("db/crates/a/RUSTSEC-2001-2101.md", Text(VALID)),
    ("db/crates/other", NO_FOLDER),
    ("db/crates/other/RUSTSEC-2001-0002.md", Text("none")),
];

/// A root whose listing has a name twice, and `..`; and its files.
const TWICE: Paths<'_> = &[
    ("db/crates", Entries(&[("a", true)])),
    ("db/crates/a", Entries(TWICE_NAMES)),
    ("db/crates/a/w", Text("1")),
    ("db/crates/a/x", Text("2")),
];

const TWICE_FILES: &[(&str, &str)] = &[
    ("db/crates/a/w", "1"),
    ("db/crates/a/x", "2"),
    ("db/crates/a/x", "2"),
];

/// Returns whether files have these paths and texts, in order.
fn are(files: &[SourceFile], rows: &[(&str, &str)]) -> bool {
    for (file, (path, text)) in files.iter().zip(rows) {
        if file.path.as_str() != *path || file.text.as_str() != *text {
            return false;
        }
    }
    files.len() == rows.len()
}

/// A root, how a call fails, and what the answer is if none fails, then if the first one fails, and so on: a digit,
/// that many files and advisories; `x`, the failure; `p` and `r`, the database is refused as `Parse` and as `Repo`. The
/// calls, in an order of this port, list `crates` and its folders, then `rust` and its folders, and then read the
/// files. If the listing of `rust` fails, it is skipped; if memory is refused, nothing is.
type Row<'a> = (Paths<'static>, ErrorKind, &'a str);

const STEPS: &[Row<'static>] = &[
    (ONE, ErrorKind::Io, "1xx1x1"),
    (BOTH, ErrorKind::Io, "2xx1xxx2"),
    (BOTH, ErrorKind::OutOfMemory, "2xxxxxx2"),
    (NO_ADVISORY, ErrorKind::Io, "pxxxpxxp"),
    (NO_ADVISORY, ErrorKind::OutOfMemory, "pxxxxxxp"),
    (TWO_FAULTS, ErrorKind::Io, "rxxxrxxr"),
];

/// Returns whether the files under the root are as a step says: the first ones of `FILES`, or refused.
fn finds(alloc: Global, paths: Paths<'_>, failing: Failing, step: u8) -> bool {
    let mut folders = MemoryFolders::new(paths, failing);
    match (source_files(alloc, &mut folders, "db"), step) {
        (Ok(files), b'1') => are(files.as_slice(), FILES.get(..1).unwrap_or(FILES)),
        (Ok(files), b'2') => are(files.as_slice(), FILES),
        (Ok(files), _) => step != b'x' && files.len() == 2,
        (Err(e), _) => step == b'x' && e.kind() == failing.kind,
    }
}

fn opens(alloc: Global, paths: Paths<'_>, failing: Failing, step: u8) -> bool {
    let mut folders = MemoryFolders::new(paths, failing);
    match (Database::open_with(alloc, &mut folders, "db"), step) {
        (Ok(database), b'1') => database.iter().count() == 1,
        (Ok(database), _) => step == b'2' && database.iter().count() == 2,
        (Err(e), b'p') => e.kind() == ErrorKind::Parse,
        (Err(e), b'r') => e.kind() == ErrorKind::Repo,
        (Err(e), _) => step == b'x' && e.kind() == failing.kind,
    }
}

fn expect_steps<R: Abort>(rt: &R, alloc: Global, row: &Row<'_>) -> Result<(), Fail> {
    let (paths, kind, steps) = row;
    let mut at: u64 = 0;
    for step in steps.bytes() {
        let failing = Failing { at, kind: *kind };
        assert!(rt; finds(alloc, paths, failing, step), "finds {steps} at {at}");
        assert!(rt; opens(alloc, paths, failing, step), "opens {steps} at {at}");
        at = at.saturating_add(1);
    }
    Ok(())
}

#[test]
fn failing_steps(rt: HostRuntime) -> Result<(), Fail> {
    for row in STEPS {
        expect_steps(&rt, rt.alloc(), row)?;
    }
    Ok(())
}

fn are_copied(alloc: Global, paths: Paths<'_>, rows: &[(&str, &str)]) -> Result<bool, Fail> {
    let (at, kind) = (0, ErrorKind::Io);
    let mut folders = MemoryFolders::new(paths, Failing { at, kind });
    let files = source_files(alloc, &mut folders, "db")?;
    let first = files.get(0).ok_or("no file")?;
    Ok(is_copied(first)? && are(files.as_slice(), rows))
}

#[test]
fn files_are_copied(rt: HostRuntime) -> Result<(), Fail> {
    assert!(rt; are_copied(rt.alloc(), BOTH, FILES)?);
    assert!(rt; are_copied(rt.alloc(), TWICE, TWICE_FILES)?);
    Ok(())
}

/// Returns how many advisories a root of the disk gives, or the kind of the refusal.
fn opened_on_disk<T: Files + AllocGlobal>(rt: &T, root: &str) -> Result<usize, ErrorKind> {
    match Database::open(rt, rt.alloc(), root) {
        Ok(database) => Ok(database.iter().count()),
        Err(e) => Err(e.kind()),
    }
}

fn loads<T: Files + AllocGlobal>(rt: &T, path: &str) -> Result<bool, Fail> {
    let mut entries = rustsec_database::Entries::new(rt.alloc());
    let slot = entries.load_file(rt, rt.alloc(), path)?;
    Ok(slot.is_some() && entries.iter().count() == 1)
}

/// Returns whether a root with the valid advisory is opened, and its file loaded. The folder is removed again.
fn opens_and_loads<T: Files + AllocGlobal>(rt: &T, root: &str) -> Result<bool, Fail> {
    let folder = format!(in rt.alloc(); "{root}/crates/base")?;
    let path = format!(in rt.alloc(); "{root}/{PLACE}")?;
    fs::create_dir_all(rt, &folder)?;
    fs::write(rt, &path, VALID)?;
    let is_opened = opened_on_disk(rt, root) == Ok(1);
    let is_loaded = loads(rt, &path)?;
    fs::remove_dir_all(rt, root)?;
    Ok(is_opened && is_loaded)
}

/// Returns whether a root with a folder `rust`, and without `crates`, is refused as `Io`. The folder is removed again.
fn is_refused<T: Files + AllocGlobal>(rt: &T, root: &str) -> Result<bool, Fail> {
    let folder = format!(in rt.alloc(); "{root}/rust")?;
    fs::create_dir_all(rt, &folder)?;
    let found = opened_on_disk(rt, root);
    fs::remove_dir_all(rt, root)?;
    Ok(found == Err(ErrorKind::Io))
}

#[test]
fn open_folders_of_the_disk(rt: HostRuntime) -> Result<(), Fail> {
    assert!(rt; opens_and_loads(&rt, "open-folders-of-the-disk")?);
    assert!(rt; is_refused(&rt, "open-folders-of-the-disk-without-crates")?);
    Ok(())
}
