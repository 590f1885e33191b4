//! Calls about OSV documents.

use rustsec_advisory::Advisory;
use rustsec_osv::OsvAdvisory;
use rustsec_values::{Error, ErrorKind, Result};
use serde_json::Value;
use std::alloc::Global;
use std::fs;
use std::process::ExitCode;

/// When the exported documents were last changed.
const MODIFIED: &str = "2020-01-01T00:00:00Z";

/// The call that is made.
#[derive(Clone, Copy)]
enum OsvCall {
    Copy,
    FromRustsec,
    ToValue,
    FromValue,
}

/// Returns the call with a name.
fn call_of(word: &str) -> Option<OsvCall> {
    match word {
        "copy" => Some(OsvCall::Copy),
        "from_rustsec" => Some(OsvCall::FromRustsec),
        "to_value" => Some(OsvCall::ToValue),
        "from_value" => Some(OsvCall::FromValue),
        _ => None,
    }
}

/// Copies an advisory many times.
fn copies(alloc: Global, advisory: &Advisory, times: u32) -> Result<()> {
    for _ in 0..times {
        advisory.clone(alloc)?;
    }
    Ok(())
}

/// Exports an advisory many times, from copies.
fn exports(alloc: Global, advisory: &Advisory, times: u32) -> Result<()> {
    for _ in 0..times {
        OsvAdvisory::from_rustsec(alloc, advisory.clone(alloc)?, MODIFIED)?;
    }
    Ok(())
}

/// Returns the compact text of a document's tree.
fn text_of(alloc: Global, document: &OsvAdvisory) -> Result<String> {
    let tree = document.to_value(alloc)?;
    let text = tree.to_string(alloc)?;
    Ok(text)
}

/// Prints a document many times.
fn texts(alloc: Global, document: &OsvAdvisory, times: u32) -> Result<()> {
    for _ in 0..times {
        text_of(alloc, document)?;
    }
    Ok(())
}

/// Prints the document of an advisory many times.
fn texts_of(alloc: Global, advisory: Advisory, times: u32) -> Result<()> {
    let document = OsvAdvisory::from_rustsec(alloc, advisory, MODIFIED)?;
    texts(alloc, &document, times)
}

/// Reads a tree as a document many times.
fn readings(alloc: Global, tree: &Value, times: u32) -> Result<()> {
    for _ in 0..times {
        OsvAdvisory::from_value(alloc, tree)?;
    }
    Ok(())
}

/// Parses a JSON tree.
fn tree_of(alloc: Global, text: &str) -> Result<Value> {
    match Value::from_str(alloc, text) {
        Ok(tree) => Ok(tree),
        Err(_) => Err(Error::new(alloc, ErrorKind::Parse, "no JSON")),
    }
}

/// Parses a JSON tree once, and reads it as a document many times.
fn readings_of(alloc: Global, text: &str, times: u32) -> Result<()> {
    let tree = tree_of(alloc, text)?;
    readings(alloc, &tree, times)
}

/// Makes a call many times. Its argument is read from the text once.
fn repeat(alloc: Global, call: OsvCall, times: u32, text: &str) -> Result<()> {
    match call {
        OsvCall::Copy => copies(alloc, &Advisory::from_str(alloc, text)?, times),
        OsvCall::FromRustsec => exports(alloc, &Advisory::from_str(alloc, text)?, times),
        OsvCall::ToValue => texts_of(alloc, Advisory::from_str(alloc, text)?, times),
        OsvCall::FromValue => readings_of(alloc, text, times),
    }
}

/// Returns the call, how often it is made, and the file.
fn asked(words: &[String]) -> Option<(OsvCall, u32, &str)> {
    match words {
        [call, times, path] => {
            let call = call_of(call)?;
            let times = times.parse().ok()?;
            Some((call, times, path.as_str()))
        }
        _ => None,
    }
}

/// Returns the exit status for an answer, and writes the kind of an error.
fn status(rt: &HostRuntime, answer: Result<()>) -> ExitCode {
    match answer {
        Ok(()) => ExitCode::from(0),
        Err(error) => {
            let _ = println!(rt; "refused: {}", error.kind().text());
            ExitCode::from(1)
        }
    }
}

/// Makes the call that the arguments name. The status is 2 for other arguments.
pub(crate) fn run(rt: &HostRuntime, words: &[String]) -> ExitCode {
    let Some((call, times, path)) = asked(words) else {
        return ExitCode::from(2);
    };
    let Ok(text) = fs::read_to_string(rt, path) else {
        return ExitCode::from(1);
    };
    status(rt, repeat(rt.alloc(), call, times, &text))
}
