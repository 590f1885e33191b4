//! The readers of the library over many inputs in a file.

use rustsec_advisory::{Advisory, Linter};
use rustsec_lock::package::Name;
use rustsec_lock::platforms::{Arch, OS};
use rustsec_lock::{Cvss, Lockfile, SourceId};
use rustsec_osv::OsvAdvisory;
use rustsec_osv_rules::is_osv_schema;
use rustsec_texts::{
    Address, Category, Collection, Date, FunctionPath, Id, Identifier, Informational, Keyword,
    License, Parts, WarningKind,
};
use rustsec_values::{FromText, Result};
use rustsec_versions::UnaffectedRange;
use semver::VersionReq;
use serde_json::Value;
use std::alloc::Global;
use std::io::Write;
use std::process::ExitCode;
use std::{fs, io, str};

/// The answer to an input that a reader accepts.
const READ: &str = "ok";

/// Parses a value of a type.
fn value<T: FromText>(alloc: Global, text: &str) -> Result<&'static str> {
    T::from_text(alloc, text)?;
    Ok(READ)
}

/// Splits an advisory file into its parts.
fn parts(alloc: Global, text: &str) -> Result<&'static str> {
    Parts::parse(alloc, text)?;
    Ok(READ)
}

/// Parses an advisory.
fn advisory(alloc: Global, text: &str) -> Result<&'static str> {
    Advisory::from_str(alloc, text)?;
    Ok(READ)
}

/// Lints an advisory.
fn lint(alloc: Global, text: &str) -> Result<&'static str> {
    Linter::lint_string(alloc, text, Some(false))?;
    Ok(READ)
}

/// Parses a lockfile.
fn lockfile(alloc: Global, text: &str) -> Result<&'static str> {
    Lockfile::from_str(alloc, text)?;
    Ok(READ)
}

/// Parses a requirement, and makes its interval.
fn interval(alloc: Global, text: &str) -> Result<&'static str> {
    match VersionReq::parse(alloc, text) {
        Ok(req) => {
            UnaffectedRange::from_req(alloc, &req)?;
            Ok(READ)
        }
        Err(_) => Ok("no requirement"),
    }
}

/// Reads an OSV document from a tree, and the IDs that it refers to.
fn document(alloc: Global, tree: &Value) -> Result<&'static str> {
    let document = OsvAdvisory::from_value(alloc, tree)?;
    document.to_value(alloc)?;
    document.crates(alloc)?;
    match document.rustsec_refs_imported(alloc) {
        Ok(_) => Ok(READ),
        Err(_) => Ok("ok, but for a link"),
    }
}

/// Parses an OSV document.
fn osv(alloc: Global, text: &str) -> Result<&'static str> {
    match Value::from_str(alloc, text) {
        Ok(tree) => document(alloc, &tree),
        Err(_) => Ok("no tree"),
    }
}

/// Returns whether a JSON document keeps the OSV schema.
fn schema_answer(tree: &Value) -> &'static str {
    if is_osv_schema(tree) {
        READ
    } else {
        "not of the schema"
    }
}

/// Decides whether the JSON document of a text keeps the OSV schema.
fn osv_schema(alloc: Global, text: &str) -> Result<&'static str> {
    match Value::from_str(alloc, text) {
        Ok(tree) => Ok(schema_answer(&tree)),
        Err(_) => Ok("no tree"),
    }
}

/// Parses a text by the reader of small texts with this name.
fn small(alloc: Global, reader: &str, text: &str) -> Result<&'static str> {
    match reader {
        "address" => value::<Address>(alloc, text),
        "arch" => value::<Arch>(alloc, text),
        "category" => value::<Category>(alloc, text),
        "collection" => value::<Collection>(alloc, text),
        "cvss" => value::<Cvss>(alloc, text),
        "date" => value::<Date>(alloc, text),
        "id" => value::<Id>(alloc, text),
        "identifier" => value::<Identifier>(alloc, text),
        "informational" => value::<Informational>(alloc, text),
        "keyword" => value::<Keyword>(alloc, text),
        "license" => value::<License>(alloc, text),
        "name" => value::<Name>(alloc, text),
        "os" => value::<OS>(alloc, text),
        "path" => value::<FunctionPath>(alloc, text),
        "source" => value::<SourceId>(alloc, text),
        "warning" => value::<WarningKind>(alloc, text),
        _ => Ok("no reader"),
    }
}

/// Parses a text by the reader with this name.
fn read(alloc: Global, reader: &str, text: &str) -> Result<&'static str> {
    match reader {
        "advisory" => advisory(alloc, text),
        "interval" => interval(alloc, text),
        "lint" => lint(alloc, text),
        "lockfile" => lockfile(alloc, text),
        "osv" => osv(alloc, text),
        "osv-schema" => osv_schema(alloc, text),
        "parts" => parts(alloc, text),
        _ => small(alloc, reader, text),
    }
}

/// Returns the answer to one input, which is the name of a reader, a space and a text: that it is accepted, or the
/// kind of the error.
fn answer(alloc: Global, input: &[u8]) -> &'static str {
    let Ok(input) = str::from_utf8(input) else {
        return "no text";
    };
    let Some((reader, text)) = input.split_once(' ') else {
        return "no reader";
    };
    match read(alloc, reader, text) {
        Ok(said) => said,
        Err(error) => error.kind().text(),
    }
}

/// Reads each input, and writes a line for each. A byte 255, which is not in any UTF-8 text, separates inputs.
fn answers<W: Write>(alloc: Global, inputs: &[u8], output: &mut W) -> io::Result<()> {
    for input in inputs.split(|b| *b == 255) {
        let said = answer(alloc, input);
        output.write_all(said.as_bytes())?;
        output.write_all(b"\n")?;
    }
    Ok(())
}

/// Returns the file with the inputs, if the arguments name one.
pub fn asked(words: &[String]) -> Option<&str> {
    match words {
        [word, path] => (word.as_str() == "read").then_some(path.as_str()),
        _ => None,
    }
}

/// Reads the inputs of a file.
pub fn read_file(rt: &HostRuntime, path: &str) -> ExitCode {
    let Ok(inputs) = fs::read(rt, path) else {
        return ExitCode::from(1);
    };
    match answers(rt.alloc(), &inputs, &mut io::writer(rt)) {
        Ok(()) => ExitCode::from(0),
        Err(_) => ExitCode::from(1),
    }
}
