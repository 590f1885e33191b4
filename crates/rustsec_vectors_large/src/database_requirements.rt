//! Commands over an advisory of 600 requirements: 300 unaffected ones of a single version each, below 300 patched ones
//! that leave gaps. Inputs and expected answers are both made from the numbers of the requirements.

use crate::folders::{MODIFIED, output_by, package, source_file};
use crate::numbers::{REQUIREMENTS, numbered, occurrences};
use crate::requirements::both;
use rustsec_advisory::Advisory;
use rustsec_files::SourceFile;
use rustsec_fixtures::{SHORT, SHORT_DOCUMENT, changed};
use rustsec_lint_database::upstream_remarks;
use std::alloc::Global;
use std::test::Fail;

/// Words, of how many patched requirements the lockfile has packages, their status, what they write for each of these,
/// and what they write after that. An audit and a check name the affected one of both packages, and a check names the
/// least version that the next requirement holds; an explanation says what holds the other one.
type Row<'a> = ((&'a str, u32, u8), &'a str, &'a str);

const ROWS: &[Row<'_>] = &[
    (
        ("audit db lock", 300, 1),
        "vulnerability RUSTSEC-2001-2101 base $.5.0\n",
        "300 vulnerabilities, 0 warnings\n",
    ),
    (
        ("check db lock", 10, 1),
        "RUSTSEC-2001-2101 base $.5.0: T\n  vulnerability\n  base $.5.0\n  update to $+.0.0 (incompatible with ^$.5.0)\n",
        "10 vulnerabilities, 0 warnings, 0 ignored; looked at 1 advisory and 20 packages\n",
    ),
    (
        ("explain db lock base", 10, 0),
        "base $.4.9 RUSTSEC-2001-2101: patched `>=$.0.0, <$.5.0` holds $.4.9\nbase $.5.0 RUSTSEC-2001-2101: affected\n",
        "",
    ),
    (("lint db/crates/base/RUSTSEC-2001-2101.md", 0, 0), "", ""),
    (
        ("lint-database db", 10, 0),
        "",
        "files: 1, faults: 0, notes: 0\n",
    ),
    (
        ("stats db --format json", 10, 0),
        "",
        "{\"advisories\":1,\"categories\":{\"code-execution\":0,\"crypto-failure\":0,\"denial-of-service\":0,\"file-disclosure\":0,\"format-injection\":0,\"malicious\":0,\"memory-corruption\":0,\"memory-exposure\":0,\"other\":0,\"privilege-escalation\":0,\"thread-safety\":0},\"collections\":{\"crates\":1,\"no-collection\":0,\"rust\":0},\"kinds\":{\"notice\":0,\"other\":0,\"unmaintained\":0,\"unsound\":0,\"vulnerability\":1},\"severities\":{\"critical\":0,\"high\":0,\"low\":0,\"medium\":0,\"no-score\":1,\"none\":0},\"withdrawals\":{\"current\":1,\"withdrawn\":0},\"years\":{\"2001\":1}}\n",
    ),
];

/// Returns both lists of requirements, with two texts before them.
fn both_lists(alloc: Global, patched: &str, unaffected: &str) -> Result<String, Fail> {
    let first = numbered(alloc, REQUIREMENTS, "\">=$.0.0, <$.5.0\",")?;
    let second = numbered(alloc, REQUIREMENTS, "\"=0.0.$\",")?;
    let first = first.trim_end_matches(',');
    let second = second.trim_end_matches(',');
    Ok(format!(in alloc; "{patched}{first}{unaffected}{second}]")?)
}

/// Returns the text of the advisory, with a text before the patched requirements; and its file.
fn advisory(alloc: Global, patched: &str) -> Result<String, Fail> {
    let keys = both_lists(alloc, patched, "]\nunaffected = [")?;
    changed(alloc, SHORT, "patched = [\">= 1.2.3\"]", &keys)
}

fn file(alloc: Global) -> Result<SourceFile, Fail> {
    source_file(alloc, 2101, advisory(alloc, "patched = [")?)
}

/// Returns a lockfile of the package `base` in a version of each of the first patched requirements, and in the version
/// that it ends with.
fn lockfile(alloc: Global, count: u32) -> Result<String, Fail> {
    let held = package(alloc, "base", "$.4.9")?;
    let affected = package(alloc, "base", "$.5.0")?;
    numbered(alloc, count, &format!(in alloc; "{held}{affected}")?)
}

/// Returns the status and the text that words write over the advisory and the lockfile of this many requirements; and
/// whether these are as wanted.
fn output(alloc: Global, words: &str, count: u32) -> Result<(u8, String), Fail> {
    let file = file(alloc)?;
    let lockfile = lockfile(alloc, count)?;
    output_by(alloc, &[file], &lockfile, words)
}

fn answers(alloc: Global, words: &str, count: u32, status: u8, text: &str) -> Result<bool, Fail> {
    let (found, written) = output(alloc, words, count)?;
    Ok(found == status && written.as_str() == text)
}

fn is_answered(alloc: Global, row: &Row<'_>) -> Result<bool, Fail> {
    let ((words, count, status), template, end) = row;
    let mut text = numbered(alloc, *count, template)?;
    text.push_str(end)?;
    answers(alloc, words, *count, *status, &text)
}

#[test]
fn commands_by_hundreds_of_requirements(rt: HostRuntime) -> Result<(), Fail> {
    for row in ROWS {
        assert!(rt; is_answered(rt.alloc(), row)?, "of {row:?}");
    }
    Ok(())
}

/// Returns the status of words over the advisory and the lockfile of ten requirements, and how often they write a part.
fn parts(alloc: Global, words: &str, part: &str) -> Result<(u8, usize), Fail> {
    let (status, text) = output(alloc, words, 10)?;
    Ok((status, occurrences(&text, part)))
}

// A report writes all requirements with each package, so the lockfile has packages for ten of them alone.
#[test]
fn a_report_by_hundreds_of_requirements(rt: HostRuntime) -> Result<(), Fail> {
    let lists = both_lists(rt.alloc(), "{\"patched\":[", "],\"unaffected\":[")?;
    let count = "\"vulnerabilities\":{\"count\":10,\"found\":true,";
    assert!(rt; parts(rt.alloc(), "report db lock", count)? == (1, 1));
    assert!(rt; parts(rt.alloc(), "report db lock", &lists)? == (1, 10));
    Ok(())
}

#[test]
fn a_list_by_hundreds_of_requirements(rt: HostRuntime) -> Result<(), Fail> {
    let part = "\"kind\":\"vulnerability\"";
    assert!(rt; parts(rt.alloc(), "check-many db", part)? == (1, 10));
    Ok(())
}

/// Returns the events that the advisory leaves between the first one and the end: an unaffected requirement ends the
/// range before it, and the next range starts at the least version above its own; a patched one starts the next range
/// at its own end.
fn events(alloc: Global) -> Result<String, Fail> {
    let unaffected = ",{\"fixed\":\"0.0.$\"},{\"introduced\":\"0.0.$+-0\"}";
    let patched = ",{\"fixed\":\"$.0.0\"},{\"introduced\":\"$.5.0\"}";
    both(alloc, unaffected, patched)
}

#[test]
fn an_advisory_of_hundreds_of_requirements(rt: HostRuntime) -> Result<(), Fail> {
    let events = events(rt.alloc())?;
    let events = format!(in rt.alloc(); "\"events\":[{{\"introduced\":\"0.0.0-0\"}}{events}]")?;
    let words = "osv db/crates/base/RUSTSEC-2001-2101.md 2020-01-01T00:00:00Z";
    assert!(rt; parts(rt.alloc(), words, &events)? == (0, 1));
    Ok(())
}

/// Returns the document of the advisory; whether `osv-database` writes it; and whether `query-osv` answers with it,
/// changed at noon of the advisory's day.
fn document(alloc: Global) -> Result<String, Fail> {
    let events = events(alloc)?;
    changed(alloc, SHORT_DOCUMENT, ",{\"fixed\":\"1.2.3\"}", &events)
}

fn is_exported(alloc: Global) -> Result<bool, Fail> {
    let line = format!(in alloc; "{}\n", document(alloc)?)?;
    answers(alloc, "osv-database db 2020-01-01T00:00:00Z", 10, 0, &line)
}

fn is_found(alloc: Global) -> Result<bool, Fail> {
    let document = document(alloc)?.replace(alloc, MODIFIED, "2001-02-03T12:00:00Z")?;
    let line = format!(in alloc; "{{\"vulns\":[{document}]}}\n")?;
    answers(alloc, "query-osv db base 300.5.0", 10, 0, &line)
}

#[test]
fn documents_of_hundreds_of_requirements(rt: HostRuntime) -> Result<(), Fail> {
    assert!(rt; is_exported(rt.alloc())?, "osv-database");
    assert!(rt; is_found(rt.alloc())?, "query-osv");
    Ok(())
}

/// Returns how many remarks of the kind `upstream` there are on the advisory with a text before the patched
/// requirements.
fn remarks_with(alloc: Global, patched: &str) -> Result<usize, Fail> {
    let text = advisory(alloc, patched)?;
    let advisory = Advisory::from_str(alloc, &text)?;
    Ok(upstream_remarks(alloc, &advisory)?.len())
}

#[test]
fn remarks_on_hundreds_of_requirements(rt: HostRuntime) -> Result<(), Fail> {
    assert!(rt; remarks_with(rt.alloc(), "patched = [")? == 0, "disjoint");
    assert!(rt;
        remarks_with(rt.alloc(), "patched = [\">=300.4.0\",")? == 1,
        "overlap"
    );
    Ok(())
}
