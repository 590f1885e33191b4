//! Reads the files for the calls.

use rustsec_advisory::Advisory;
use rustsec_files::SourceFile;
use rustsec_values::{Error, ErrorKind, Result, Text};
use semver::VersionReq;
use std::alloc::{AllocError, Global};
use std::fs;

/// Returns the text of a file.
pub fn text_of(rt: &HostRuntime, path: &str) -> Result<String> {
    match fs::read_to_string(rt, path) {
        Ok(text) => Ok(text),
        Err(_) => Err(Error::new(rt.alloc(), ErrorKind::Io, path)),
    }
}

/// Returns a file of a database.
fn source_file(rt: &HostRuntime, path: &str) -> Result<SourceFile> {
    let text = text_of(rt, path)?;
    let path = Text::from_str(rt.alloc(), path)?;
    Ok(SourceFile {
        path,
        text: Text::from(text),
    })
}

/// Returns the files of a database.
pub fn source_files(rt: &HostRuntime, paths: &[&str]) -> Result<Vec<SourceFile>> {
    let mut files = Vec::new(rt.alloc());
    for path in paths {
        let file = source_file(rt, path)?;
        files.push(file).map_err(|_| AllocError)?;
    }
    Ok(files)
}

/// Parses the requirement of a line.
fn requirement(alloc: Global, line: &str) -> Result<VersionReq> {
    match VersionReq::parse(alloc, line) {
        Ok(req) => Ok(req),
        Err(_) => Err(Error::new(alloc, ErrorKind::Parse, line)),
    }
}

/// Returns the requirements of a file, one on each line.
pub fn requirements(rt: &HostRuntime, path: &str) -> Result<Vec<VersionReq>> {
    let text = text_of(rt, path)?;
    let mut reqs = Vec::new(rt.alloc());
    for line in text.lines() {
        let req = requirement(rt.alloc(), line)?;
        reqs.push(req).map_err(|_| AllocError)?;
    }
    Ok(reqs)
}

/// Parses the advisory of a file.
pub fn advisory(rt: &HostRuntime, path: &str) -> Result<Advisory> {
    let text = text_of(rt, path)?;
    Advisory::from_str(rt.alloc(), &text)
}
