//! Calls that change nothing: their answers as texts.

use crate::databases;
use crate::files::{advisory, requirements, text_of};
use crate::window::{closes, opens, refusal};
use rustsec_advisory::Advisory;
use rustsec_commands::{Fault, answer};
use rustsec_osv::OsvAdvisory;
use rustsec_texts::Parts;
use rustsec_values::Result;
use rustsec_versions::Versions;
use std::alloc::Global;

/// Returns the answer of `Versions::new`.
fn versions(rt: &HostRuntime, patched: &str, unaffected: &str) -> Result<String> {
    let patched = requirements(rt, patched)?;
    let unaffected = requirements(rt, unaffected)?;
    opens(rt);
    let answer = Versions::new(rt.alloc(), patched, unaffected);
    closes(rt);
    match answer {
        Ok(lists) => Ok(format!(in rt.alloc(); "{lists:?}")?),
        Err(e) => refusal(rt.alloc(), &e),
    }
}

/// Returns the answer of `Parts::parse`.
fn parts(rt: &HostRuntime, path: &str) -> Result<String> {
    let text = text_of(rt, path)?;
    opens(rt);
    let answer = Parts::parse(rt.alloc(), &text);
    closes(rt);
    match answer {
        Ok(parts) => Ok(format!(in rt.alloc(); "{parts:?}")?),
        Err(e) => refusal(rt.alloc(), &e),
    }
}

/// Returns whether parsing a text gives an advisory equal to another.
fn is_of(alloc: Global, advisory: &Advisory, text: &str) -> Result<bool> {
    let other = Advisory::from_str(alloc, text)?;
    Ok(*advisory == other)
}

/// Returns the answer of `Advisory::from_str`: whether the advisory is the one that ample memory gives.
fn advisory_of(rt: &HostRuntime, path: &str) -> Result<String> {
    let text = text_of(rt, path)?;
    opens(rt);
    let answer = Advisory::from_str(rt.alloc(), &text);
    closes(rt);
    match answer {
        Ok(found) => {
            let same = is_of(rt.alloc(), &found, &text)?;
            Ok(format!(in rt.alloc(); "{}, the same: {same}", found.id())?)
        }
        Err(e) => refusal(rt.alloc(), &e),
    }
}

/// Returns the text of a document.
fn document_text(alloc: Global, document: &OsvAdvisory) -> Result<String> {
    let tree = document.to_value(alloc)?;
    Ok(tree.to_string(alloc)?)
}

/// Returns the answer of `OsvAdvisory::from_rustsec`.
fn document_of(rt: &HostRuntime, path: &str) -> Result<String> {
    let advisory = advisory(rt, path)?;
    opens(rt);
    let answer = OsvAdvisory::from_rustsec(rt.alloc(), advisory, "2020-01-01T00:00:00Z");
    closes(rt);
    match answer {
        Ok(document) => document_text(rt.alloc(), &document),
        Err(e) => refusal(rt.alloc(), &e),
    }
}

/// Returns the result of `answer` and its output; just the text for out of memory if there is no output.
fn status_text(
    alloc: Global,
    status: std::result::Result<u8, Fault>,
    written: &[u8],
) -> Result<String> {
    match status {
        Ok(status) => Ok(format!(in alloc; "{status} {written:?}")?),
        Err(Fault::Memory) if written.is_empty() => Ok(String::from_str(alloc, "out of memory")?),
        Err(fault) => Ok(format!(in alloc; "{fault:?} {written:?}")?),
    }
}

/// Returns the answer of `answer`, over a writer that takes no memory.
fn status_of(rt: &HostRuntime, path: &str) -> Result<String> {
    let text = text_of(rt, path)?;
    let mut input = text.as_bytes();
    let mut output = Vec::with_capacity(rt.alloc(), 65536)?;
    opens(rt);
    let status = answer(rt.alloc(), &mut input, &mut output);
    closes(rt);
    status_text(rt.alloc(), status, output.as_slice())
}

/// Returns the answer of the call that the arguments name; none for other arguments.
pub fn answer_of(rt: &HostRuntime, words: &[&str]) -> Result<Option<String>> {
    let text = match words {
        ["versions", patched, unaffected] => versions(rt, patched, unaffected)?,
        ["parts", path] => parts(rt, path)?,
        ["advisory", path] => advisory_of(rt, path)?,
        ["load", paths @ ..] => databases::load(rt, paths)?,
        ["report", lock, paths @ ..] => databases::report(rt, lock, paths)?,
        ["from_rustsec", path] => document_of(rt, path)?,
        ["answer", path] => status_of(rt, path)?,
        _ => return Ok(None),
    };
    Ok(Some(text))
}
