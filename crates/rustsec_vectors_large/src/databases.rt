//! Commands over a database of a thousand files in memory, and over folders that cannot be read. Each advisory has the
//! number of its file, or, where there are faults, one of 25 has that of the file before it.

use crate::folders::{MODIFIED, Wanted, answers, files_of, writes};
use crate::numbers::{Numbers, numbered_by};
use rustsec_fixtures::{Holds, Paths, SHORT_DOCUMENT};
use std::alloc::Global;
use std::test::Fail;

/// The numbers of the files with a fault.
const FAULTY: Numbers = (1007, 25, 40);

/// Returns whether words write what is wanted over the database. It has faults if the status is not 0.
fn holds(alloc: Global, words: &str, wanted: Wanted<'_>) -> Result<bool, Fail> {
    let files = files_of(alloc, 1000..2000, wanted.0 != 0)?;
    answers(alloc, &files, words, wanted)
}

/// The line on the file that cannot be read, and the lines and the notes on a file with a fault.
const UNREAD: &str =
    "db/crates/base/RUSTSEC-2001-1000.md: refused: refused: I/O operation failed\n";

const LINES: &str =
    "db/crates/base/RUSTSEC-2001-$.md: misplaced: another file name, expected `RUSTSEC-2001-$-.md`\ndb/crates/base/RUSTSEC-2001-$.md: twice: the ID of db/crates/base/RUSTSEC-2001-$-.md\n";

const NOTES: &str =
    "rustsec_audit: db/crates/base/RUSTSEC-2001-$.md: line 3: another file name, expected `RUSTSEC-2001-$-.md`\nrustsec_audit: db/crates/base/RUSTSEC-2001-$.md: line 3: the ID is that of db/crates/base/RUSTSEC-2001-$-.md\n";

/// Returns what `lint-database` notes: the faults of all files, and its progress at the end.
fn notes(alloc: Global) -> Result<String, Fail> {
    let notes = numbered_by(alloc, FAULTY, NOTES)?;
    let text = format!(in alloc;
        "rustsec_audit: I/O operation failed: the folders fail\n{notes}rustsec_audit: 1000 of 1000 files\n"
    )?;
    Ok(text)
}

/// Returns whether `lint-database` writes the lines on all files with a fault, with these notes.
fn lints(alloc: Global, notes: &str) -> Result<bool, Fail> {
    let lines = numbered_by(alloc, FAULTY, LINES)?;
    let text = format!(in alloc; "{UNREAD}{lines}files: 1000, faults: 81, notes: 0\n")?;
    let wanted = (1, text.as_str(), Some(notes));
    holds(alloc, "lint-database db --progress", wanted)
}

/// The same as JSON.
const UNREAD_OBJECT: &str =
    r#"{"first":null,"path":"db/crates/base/RUSTSEC-2001-1000.md","remarks":[{"fault":true,"kind":"refused","text":"refused: I/O operation failed"}]}"#;

const OBJECT: &str =
    r#",{"first":"db/crates/base/RUSTSEC-2001-$-.md","path":"db/crates/base/RUSTSEC-2001-$.md","remarks":[{"fault":true,"kind":"misplaced","text":"another file name, expected `RUSTSEC-2001-$-.md`"}]}"#;

/// Returns whether `lint-database` writes the objects of all files with a fault.
fn lints_as_json(alloc: Global) -> Result<bool, Fail> {
    let objects = numbered_by(alloc, FAULTY, OBJECT)?;
    let text = format!(in alloc;
        "{{\"entries\":[{UNREAD_OBJECT}{objects}],\"faults\":81,\"files\":1000,\"notes\":0}}\n"
    )?;
    holds(alloc, "lint-database db --format json", (1, &text, None))
}

#[test]
fn lint_database_of_a_thousand_files(rt: HostRuntime) -> Result<(), Fail> {
    let notes = notes(rt.alloc())?;
    assert!(rt; lints(rt.alloc(), &notes)?, "lines");
    assert!(rt; lints_as_json(rt.alloc())?, "JSON");
    Ok(())
}

/// The stats of the database.
const STATS: &str =
    "{\"advisories\":1000,\"categories\":{\"code-execution\":0,\"crypto-failure\":0,\"denial-of-service\":0,\"file-disclosure\":0,\"format-injection\":0,\"malicious\":0,\"memory-corruption\":0,\"memory-exposure\":0,\"other\":0,\"privilege-escalation\":0,\"thread-safety\":0},\"collections\":{\"crates\":1000,\"no-collection\":0,\"rust\":0},\"kinds\":{\"notice\":0,\"other\":0,\"unmaintained\":0,\"unsound\":0,\"vulnerability\":1000},\"severities\":{\"critical\":0,\"high\":0,\"low\":0,\"medium\":0,\"no-score\":1000,\"none\":0},\"withdrawals\":{\"current\":1000,\"withdrawn\":0},\"years\":{\"2001\":1000}}\n";

#[test]
fn stats_of_a_thousand_advisories(rt: HostRuntime) -> Result<(), Fail> {
    assert!(rt; holds(rt.alloc(), "stats db --format json", (0, STATS, None))?);
    Ok(())
}

/// Returns the document of each advisory, with this text after each.
fn documents(alloc: Global, after: &str) -> Result<String, Fail> {
    let document = SHORT_DOCUMENT.replace(alloc, "2101", "$")?;
    let template = format!(in alloc; "{document}{after}")?;
    numbered_by(alloc, (1000, 1, 1000), &template)
}

/// Returns whether `osv-database` writes the document of each advisory on a line of its own.
fn exports_all(alloc: Global) -> Result<bool, Fail> {
    let lines = documents(alloc, "\n")?;
    holds(
        alloc,
        "osv-database db 2020-01-01T00:00:00Z",
        (0, &lines, None),
    )
}

/// Returns whether `query-osv` answers with the document of each advisory, changed at noon of its day.
fn finds_all(alloc: Global) -> Result<bool, Fail> {
    let all = documents(alloc, ",")?;
    let all = all.replace(alloc, MODIFIED, "2001-02-03T12:00:00Z")?;
    let text = format!(in alloc; "{{\"vulns\":[{}]}}\n", all.trim_end_matches(','))?;
    holds(alloc, "query-osv db base 1.0.0", (0, &text, None))
}

#[test]
fn documents_of_a_thousand_advisories(rt: HostRuntime) -> Result<(), Fail> {
    assert!(rt; exports_all(rt.alloc())?, "osv-database");
    assert!(rt; finds_all(rt.alloc())?, "query-osv");
    Ok(())
}

/// Two databases: a folder that its own folder lists and that cannot be listed, and a file, likewise, whose name has a
/// line feed.
const FILES: Paths<'_> = &[
    ("unlisted/crates", Holds::Entries(&[("base", true)])),
    ("refused/crates", Holds::Entries(&[("base", true)])),
    ("refused/crates/base", Holds::Entries(&[("a\nb.md", false)])),
    ("refused/rust", Holds::Entries(&[])),
];

/// Words, their status and what they write.
const ROWS: &[(&str, u8, &str)] = &[
    (
        "lint-database unlisted",
        2,
        "refused: I/O operation failed\n",
    ),
    (
        "lint-database refused",
        1,
        "refused/crates/base/a\\u{a}b.md: refused: refused: I/O operation failed\nfiles: 1, faults: 1, notes: 0\n",
    ),
];

#[test]
fn lint_database_of_unread_paths(rt: HostRuntime) -> Result<(), Fail> {
    let notes = "rustsec_audit: I/O operation failed: the folders fail\n";
    for (words, status, text) in ROWS {
        let wanted = (*status, *text, Some(notes));
        assert!(rt; writes(rt.alloc(), FILES, words, "", wanted)?, "of {words}");
    }
    Ok(())
}
