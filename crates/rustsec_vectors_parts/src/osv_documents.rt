//! OSV documents: trees that are read and printed again, those that are refused, copies, and what a document names.
//! Cases of `osv` have the documents of advisories.

use rustsec_advisory::Advisory;
use rustsec_fixtures::{SHORT, SHORT_DOCUMENT, VALID, changed, exact_field, kind_of};
use rustsec_osv::{OsvAdvisory, OsvAffected, OsvEcosystemSpecific, OsvJsonRange};
use rustsec_values::{Error, ErrorKind};
use serde_json::Value;
use std::alloc::Global;
use std::test::Fail;

/// Parts of the short advisory's document, what is there instead, and how that prints after it was read.
const READ: &str = r#"
"summary":"T" | "summary":"T" | "summary":"T"
"0.0.0-0" | "0" | "0.0.0"
"0.0.0-0"},{"fixed":"1.2.3" | "1"},{"last_affected":"1.2" | "1.0.0"},{"last_affected":"1.2.0"
"events":[{"introduced":"0.0.0-0"},{"fixed":"1.2.3"}] | "events":[] | "events":[]
"related":[],"severity":[],"summary":"T" | "schema_version":"1.4.0","summary":"T","withdrawn":"w" | "related":[],"schema_version":"1.4.0","severity":[],"summary":"T","withdrawn":"w"
"related":[],"severity":[],"summary":"T" | "schema_version":null,"summary":"T","withdrawn":null,"x":null | "related":[],"severity":[],"summary":"T"
"related":[],"severity":[] | "severity":[{"score":"CVSS:3.0/AV:N/AC:L/PR:N/UI:N/S:C/C:H/I:H/A:H","type":"CVSS_V3"},{"score":"CVSS:4.0/x","type":"CVSS_V4"}] | "related":[],"severity":[{"score":"CVSS:3.0/AV:N/AC:L/PR:N/UI:N/S:C/C:H/I:H/A:H","type":"CVSS_V3"},{"score":"CVSS:4.0/x","type":"CVSS_V4"}]
"#;

/// Parts of the document, and what is there instead in documents that are refused.
const REFUSED: &str = r#"
{"introduced":"0.0.0-0"},{"fixed":"1.2.3"} | {"introduced":"0","fixed":"1"}
{"introduced":"0.0.0-0"},{"fixed":"1.2.3"} | {"limit":"1"}
{"introduced":"0.0.0-0"},{"fixed":"1.2.3"} | {"introduced":"1.2-0"}
{"introduced":"0.0.0-0"},{"fixed":"1.2.3"} | {"introduced":1}
{"introduced":"0.0.0-0"},{"fixed":"1.2.3"} | {}
{"introduced":"0.0.0-0"},{"fixed":"1.2.3"} | ["introduced","1"]
"id":"RUSTSEC-2001-2101","modified":"2020-01-01T00:00:00Z" | "modified":"m"
"modified":"2020-01-01T00:00:00Z" | "modified":1.5
"related":[],"severity":[] | "schema_version":"1.4"
"related":[],"severity":[] | "related":null
"related":[],"severity":[] | "severity":{}
"related":[],"severity":[] | "severity":[{"score":"CVSS:4.0/x","type":"CVSS_V3"}]
"related":[],"severity":[] | "severity":[{"score":"CVSS:3.1/AV:N/AC:L/PR:N/UI:N/S:C/C:H/I:H/A:H","type":"CVSS_V4"}]
"related":[],"severity":[] | "severity":[{"score":"CVSS:4.0/x","type":"V4"}]
"#;

/// Returns the text of a document.
pub(crate) fn text_of(alloc: Global, document: &OsvAdvisory) -> Result<String, Fail> {
    Ok(document.to_value(alloc)?.to_string(alloc)?)
}

/// Reads the short advisory's document with a change.
fn read_with(alloc: Global, old: &str, new: &str) -> Result<Result<OsvAdvisory, Error>, Fail> {
    let text = changed(alloc, SHORT_DOCUMENT, old, new)?;
    let tree = Value::from_str(alloc, &text)?;
    Ok(OsvAdvisory::from_value(alloc, &tree))
}

/// Returns whether the document with the change of a row is read, and prints with the other one.
fn is_read(alloc: Global, row: &str) -> Result<bool, Fail> {
    let old = exact_field(row, 0);
    let found = text_of(alloc, &read_with(alloc, old, exact_field(row, 1))??)?;
    let wanted = changed(alloc, SHORT_DOCUMENT, old, exact_field(row, 2))?;
    Ok(found == wanted)
}

#[test]
fn osv_reader(rt: HostRuntime) -> Result<(), Fail> {
    for row in READ.trim().lines() {
        assert!(rt; is_read(rt.alloc(), row)?, "{row}");
    }
    Ok(())
}

#[test]
fn osv_refusals(rt: HostRuntime) -> Result<(), Fail> {
    for row in REFUSED.trim().lines() {
        let (old, new) = (exact_field(row, 0), exact_field(row, 1));
        let found = kind_of(read_with(rt.alloc(), old, new)?);
        assert!(rt; found == Some(ErrorKind::Parse), "{row}: {found:?}");
    }
    Ok(())
}

/// Returns whether copies of parts of a document are like them: of a range and its events, of what an ecosystem adds,
/// of a member of `affected`, and of references, vectors and a license.
fn range_is_copied(alloc: Global, range: &OsvJsonRange) -> Result<bool, Fail> {
    let copy = range.clone(alloc)?;
    let copied = &copy;
    for event in &copied.events {
        let _event = event.clone(alloc)?;
    }
    Ok(copied.kind == range.kind && copied.events.len() == 2)
}

fn ecosystem_is_copied(alloc: Global, ecosystem: &OsvEcosystemSpecific) -> Result<bool, Fail> {
    let copy = ecosystem.clone(alloc)?;
    let affects = copy.affects.as_ref().ok_or("nothing affected")?;
    Ok(affects.clone(alloc)?.arch.is_empty())
}

fn affected_is_copied(alloc: Global, affected: &OsvAffected) -> Result<bool, Fail> {
    let copy = affected.clone(alloc)?;
    let package = copy.package.clone(alloc)?;
    let database = copy.database_specific.clone(alloc)?;
    let (Some(ecosystem), Some(ranges)) = (&affected.ecosystem_specific, &affected.ranges) else {
        return Ok(false);
    };
    let range = ranges.get(0).ok_or("no range")?;
    let is_copied = package.name.as_str() == "base" && database.categories.is_empty();
    Ok(is_copied && ecosystem_is_copied(alloc, ecosystem)? && range_is_copied(alloc, range)?)
}

fn outer_parts_are_copied(alloc: Global, document: &OsvAdvisory) -> Result<bool, Fail> {
    for severity in &document.severity {
        let _severity = severity.clone(alloc)?;
    }
    let license = document.database_specific.clone(alloc)?;
    let reference = document.references.get(0).ok_or("no reference")?;
    Ok(reference.clone(alloc)?.url == reference.url && license.license.is_some())
}

/// Returns whether a document's own calls answer what its fields contain, and copies of it and of its parts are like
/// them.
fn is_copied(alloc: Global, document: &OsvAdvisory) -> Result<bool, Fail> {
    let affected = document.affected.get(0).ok_or("nothing affected")?;
    let copy = document.clone(alloc)?;
    Ok(
        copy.id().as_str() == "RUSTSEC-2001-2101"
            && copy.published() == "2001-02-03T12:00:00Z"
            && !copy.withdrawn()
            && copy.aliases().is_empty()
            && affected_is_copied(alloc, affected)?
            && outer_parts_are_copied(alloc, document)?,
    )
}

#[test]
fn osv_accessors_and_copies(rt: HostRuntime) -> Result<(), Fail> {
    let severity = r#""severity":[{"score":"CVSS:4.0/x","type":"CVSS_V4"}]"#;
    let document = read_with(rt.alloc(), r#""related":[],"severity":[]"#, severity)??;
    assert!(rt; is_copied(rt.alloc(), &document)?);
    Ok(())
}

fn export_refusal(alloc: Global, patched: &str) -> Result<Option<ErrorKind>, Fail> {
    let text = changed(alloc, SHORT, "\">= 1.2.3\"", patched)?;
    let advisory = Advisory::from_str(alloc, &text)?;
    Ok(kind_of(OsvAdvisory::from_rustsec(alloc, advisory, "")))
}

#[test]
fn star_alone_exported(rt: HostRuntime) -> Result<(), Fail> {
    for (patched, refusal) in &[
        ("\"*\"", Some(ErrorKind::BadParam)),
        ("\"< 1.2.3\", \">= 1.2.3\"", None),
        ("\"< 1.2.4-0\", \"> 1.2.3\"", Some(ErrorKind::BadParam)),
    ] {
        let found = export_refusal(rt.alloc(), patched)?;
        assert!(rt; found == *refusal, "of {patched}: {found:?}");
    }
    Ok(())
}

/// The text before the lists of a document with only the required keys.
pub(crate) const HEAD: &str =
    r#"{"details":"","id":"x","modified":"","published":"","summary":"","#;

/// The lists of a document with one event, which is at `@`.
const EVENT: &str =
    r#""affected":[{"database_specific":{},"package":{"ecosystem":"e","name":"n"},"ranges":[{"type":"SEMVER","events":[{"introduced":"@"}]}]}]}"#;

/// Returns the document with the required keys and some lists, or its refusal.
fn answer(alloc: Global, lists: &str) -> Result<Result<OsvAdvisory, Error>, Fail> {
    let text = format!(in alloc; "{HEAD}{lists}")?;
    let tree = Value::from_str(alloc, &text)?;
    Ok(OsvAdvisory::from_value(alloc, &tree))
}

/// Returns the document with the required keys and some lists.
pub(crate) fn with_lists(alloc: Global, lists: &str) -> Result<OsvAdvisory, Fail> {
    Ok(answer(alloc, lists)??)
}

/// Returns whether an event's text is read and printed as a version; or refused, if the version is empty.
fn is_event(alloc: Global, event: &str, version: &str) -> Result<bool, Fail> {
    let lists = changed(alloc, EVENT, "@", event)?;
    match answer(alloc, &lists)? {
        Ok(document) => prints_event(alloc, &document, version),
        Err(e) => Ok(version == "" && e.kind() == ErrorKind::Parse),
    }
}

fn prints_event(alloc: Global, document: &OsvAdvisory, version: &str) -> Result<bool, Fail> {
    let printed = text_of(alloc, document)?;
    let wanted = format!(in alloc; "[{{\"introduced\":\"{version}\"}}]")?;
    Ok(printed.contains(wanted.as_str()))
}

fn is_published(alloc: Global, time: &str) -> Result<bool, Fail> {
    let advisory = Advisory::from_str(alloc, VALID)?;
    let document = OsvAdvisory::from_rustsec(alloc, advisory, "m")?;
    Ok(document.published() == time)
}

#[test]
fn osv_readings(rt: HostRuntime) -> Result<(), Fail> {
    for (event, version) in &[
        ("1", "1.0.0"),
        ("1.2", "1.2.0"),
        ("1.2-0", ""),
        ("18446744073709551616", ""),
        ("1..", ""),
        ("", ""),
        (".", ""),
        ("..", ""),
        ("...", ""),
    ] {
        assert!(rt; is_event(rt.alloc(), event, version)?, "of {event}");
    }
    assert!(rt; is_published(rt.alloc(), "2001-02-03T12:00:00Z")?);
    Ok(())
}

/// Returns the document with links to some addresses. An `@` is the address of advisories.
fn linking(alloc: Global, addresses: &str) -> Result<OsvAdvisory, Fail> {
    let mut links = String::new(alloc);
    for address in addresses.split_whitespace() {
        let comma = if links.is_empty() { "" } else { "," };
        let link = format!(in alloc; "{comma}{{\"type\":\"WEB\",\"url\":\"{address}\"}}")?;
        links.push_str(&link)?;
    }
    let links = links.replace(alloc, "@", "https://rustsec.org/advisories/")?;
    let lists = format!(in alloc; "\"references\":[{links}]}}")?;
    with_lists(alloc, &lists)
}

/// Returns the IDs that a document imports, with a space after each, or `refused` if a link is refused with `Parse`.
fn imported(alloc: Global, document: &OsvAdvisory) -> Result<String, Fail> {
    let mut text = String::new(alloc);
    match document.rustsec_refs_imported(alloc) {
        Ok(ids) => {
            for id in &ids {
                text.push_str(id.as_str())?;
                text.push_str(" ")?;
            }
        }
        Err(e) if e.kind() == ErrorKind::Parse => text.push_str("refused")?,
        Err(e) => return Err(Fail::from(e)),
    }
    Ok(text)
}

/// Addresses of links, and the IDs that are imported from them.
const IMPORTED: &[&str] = &[
    "@RUSTSEC-2001-2101.html @RUSTSEC-2001-0001 @RUSTSEC-2001-2101.html https://crates.io/crates/base | RUSTSEC-2001-0001 RUSTSEC-2001-2101 ",
    "@RUSTSEC-2001-2101.html @RUSTSEC-1999-0001.html | refused",
    "@RUSTSEC-1999-0001.html | refused",
    "@RUSTSEC-2001 | refused",
    "@RUSTSEC-2001-210 | refused",
    "@ | refused",
    "@RUSTSEC-2001-2101 | RUSTSEC-2001-2101 ",
    "@RUSTSEC-2021-12345 | RUSTSEC-2021-1234 ",
    " | ",
];

fn imports(alloc: Global, row: &str) -> Result<bool, Fail> {
    let document = linking(alloc, exact_field(row, 0))?;
    let found = imported(alloc, &document)?;
    Ok(found.as_str() == exact_field(row, 1))
}

#[test]
fn imported_references(rt: HostRuntime) -> Result<(), Fail> {
    for row in IMPORTED {
        assert!(rt; imports(rt.alloc(), row)?, "{row}");
    }
    Ok(())
}

/// Packages of a document: two of crates.io, one of them twice, and one of another ecosystem.
const PACKAGES: &str =
    r#""affected":[{"database_specific":{},"package":{"ecosystem":"crates.io","name":"b"}},{"database_specific":{},"package":{"ecosystem":"npm","name":"a"}},{"database_specific":{},"package":{"ecosystem":"crates.io","name":"a_"}},{"database_specific":{},"package":{"ecosystem":"crates.io","name":"b"}}]}"#;

/// Returns whether the crates of a document with some lists are two of these names, in order.
fn has_crates(alloc: Global, lists: &str, first: &str, second: &str) -> Result<bool, Fail> {
    let document = with_lists(alloc, lists)?;
    let names = document.crates(alloc)?;
    match names.as_slice() {
        [one, two] => Ok(one.as_str() == first && two.as_str() == second),
        _ => Ok(false),
    }
}

#[test]
fn crates_of_a_document(rt: HostRuntime) -> Result<(), Fail> {
    assert!(rt; has_crates(rt.alloc(), PACKAGES, "a_", "b")?);
    Ok(())
}
