//! Advisories with a description of a megabyte, and with thousands of affected functions.

use crate::folders::{MODIFIED, writes};
use crate::lists::{printed, read_document, vulnerability_in};
use crate::numbers::{COUNT, MANY, MEGABYTE, numbered, occurrences};
use rustsec_advisory::{Advisory, Linter};
use rustsec_fixtures::{Holds, SHORT, VALID, changed};
use rustsec_lock::Lockfile;
use rustsec_osv::OsvAdvisory;
use rustsec_osv_rules::{document_of, exported_value, is_osv_schema};
use serde_json::Value;
use std::alloc::Global;
use std::test::Fail;

/// The description of the valid advisory.
const DESCRIPTION: &str = "You have no chance to survive. Make your time.";

/// Returns the long description between two texts, which ends otherwise than it begins; the text of an advisory with
/// it; and that of one with thousands of functions.
fn description(alloc: Global, before: &str, after: &str) -> Result<String, Fail> {
    let front = "survive ".repeat(alloc, MEGABYTE / 8)?;
    Ok(format!(in alloc; "{before}{front}end{after}")?)
}

fn described(alloc: Global) -> Result<String, Fail> {
    let description = description(alloc, "", "")?;
    changed(alloc, VALID, DESCRIPTION, &description)
}

fn with_functions(alloc: Global) -> Result<String, Fail> {
    let own = "functions = { \"base::belongs::All\" = [\"< 1.2.3\"] }\n";
    let lines = numbered(alloc, COUNT, "\"base::f$\" = [\"< 1.2.3\"]\n")?;
    let table = format!(in alloc; "[affected.functions]\n{lines}")?;
    changed(alloc, VALID, own, &table)
}

/// Returns how long the description of an advisory is and how many functions it has, if a copy is equal to it.
fn sizes(alloc: Global, text: &str) -> Result<Option<(usize, usize)>, Fail> {
    let advisory = Advisory::from_str(alloc, text)?;
    let copy = advisory.clone(alloc)?;
    let functions = match &advisory.affected {
        Some(affected) => affected.functions.len(),
        None => 0,
    };
    let sizes = (advisory.description().len(), functions);
    Ok(if copy == advisory { Some(sizes) } else { None })
}

/// Returns whether an advisory has these sizes and no lint error.
fn has_sizes(alloc: Global, text: &str, wanted: (usize, usize)) -> Result<bool, Fail> {
    let linter = Linter::lint_string(alloc, text, None)?;
    Ok(linter.errors().is_empty() && sizes(alloc, text)? == Some(wanted))
}

/// Returns the document of an advisory, as it prints.
fn document(alloc: Global, text: &str) -> Result<String, Fail> {
    let advisory = Advisory::from_str(alloc, text)?;
    let document = OsvAdvisory::from_rustsec(alloc, advisory, MODIFIED)?;
    printed(alloc, &document)
}

/// Returns whether a copy of a document that is read prints as the document was.
fn prints_again(alloc: Global, document: &str) -> Result<bool, Fail> {
    let read = read_document(alloc, document)?;
    let copy = read.clone(alloc)?;
    let printed = printed(alloc, &copy)?;
    Ok(printed.as_str() == document)
}

/// Returns whether the command `lint` writes nothing of an advisory, and `osv` its document, which prints again and has
/// a part this many times.
fn is_exported(alloc: Global, file: &str, part: &str, count: usize) -> Result<bool, Fail> {
    let document = document(alloc, file)?;
    let line = format!(in alloc; "{document}\n")?;
    let rows = [("file.md", Holds::Text(file))];
    let osv = "osv file.md 2020-01-01T00:00:00Z";
    let is_written = writes(alloc, &rows, "lint file.md", "", (0, "", None))?
        && writes(alloc, &rows, osv, "", (0, &line, None))?;
    let is_whole = occurrences(&document, part) == count;
    Ok(is_written && is_whole && prints_again(alloc, &document)?)
}

#[test]
fn a_description_of_a_megabyte(rt: HostRuntime) -> Result<(), Fail> {
    let text = described(rt.alloc())?;
    let member = description(rt.alloc(), "\"details\":\"", "\"")?;
    assert!(rt; has_sizes(rt.alloc(), &text, (MEGABYTE + 3, 1))?);
    assert!(rt; is_exported(rt.alloc(), &text, &member, 1)?);
    Ok(())
}

/// Returns how many functions of an advisory are affected in a version of its package.
fn affected_functions(alloc: Global, text: &str) -> Result<usize, Fail> {
    let lockfile = "[[package]]\nname = \"base\"\nversion = \"1.0.0\"\n";
    let lockfile = Lockfile::from_str(alloc, lockfile)?;
    let vulnerability = vulnerability_in(alloc, &lockfile, text)?;
    let functions = vulnerability.affected_functions(alloc)?;
    Ok(functions.ok_or("no function")?.len())
}

#[test]
fn thousands_of_functions(rt: HostRuntime) -> Result<(), Fail> {
    let text = with_functions(rt.alloc())?;
    assert!(rt; has_sizes(rt.alloc(), &text, (DESCRIPTION.len(), MANY))?);
    assert!(rt; is_exported(rt.alloc(), &text, "\"base::f", MANY)?);
    assert!(rt; affected_functions(rt.alloc(), &text)? == MANY);
    Ok(())
}

/// Returns the tree of the document of an advisory for the schema, if it keeps the schema.
fn exported(alloc: Global, text: &str) -> Result<Value, Fail> {
    let advisory = Advisory::from_str(alloc, text)?;
    let tree = exported_value(alloc, advisory, MODIFIED)?;
    if !is_osv_schema(&tree) {
        return Err(Fail::from("it does not keep the schema"));
    }
    Ok(tree)
}

/// Returns whether the document of an advisory for OSV's evaluation is that for the schema, and longer than this.
fn keeps_schema(alloc: Global, text: &str, least: usize) -> Result<bool, Fail> {
    let tree = exported(alloc, text)?.to_string(alloc)?;
    let document = document_of(alloc, Advisory::from_str(alloc, text)?, MODIFIED)?;
    Ok(tree.len() > least && printed(alloc, &document)? == tree)
}

#[test]
fn long_documents(rt: HostRuntime) -> Result<(), Fail> {
    let text = described(rt.alloc())?;
    assert!(rt; keeps_schema(rt.alloc(), SHORT, 0)?);
    assert!(rt; keeps_schema(rt.alloc(), &text, MEGABYTE)?);
    Ok(())
}
