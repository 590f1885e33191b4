//! Versions, requirements and lists of texts.

use rustsec_values::{Error, ErrorKind};
use rustsec_versions::{OsvRange, UnaffectedRange, Versions};
use semver::{Version, VersionReq};
use std::alloc::Global;
use std::test::Fail;

/// Parses a version.
pub fn version(alloc: Global, text: &str) -> Result<Version, Fail> {
    Ok(Version::parse(alloc, text)?)
}

/// Parses requirements.
pub fn requirements(alloc: Global, texts: &[&str]) -> Result<Vec<VersionReq>, Fail> {
    let mut reqs = Vec::new(alloc);
    for text in texts {
        reqs.push(VersionReq::parse(alloc, text)?)?;
    }
    Ok(reqs)
}

/// Returns the interval of a requirement's text.
pub fn interval(alloc: Global, text: &str) -> Result<Result<UnaffectedRange, Error>, Fail> {
    let req = VersionReq::parse(alloc, text)?;
    Ok(UnaffectedRange::from_req(alloc, &req))
}

/// Returns the lists of requirements, if they are accepted.
pub fn lists(
    alloc: Global,
    patched: &[&str],
    unaffected: &[&str],
) -> Result<Result<Versions, Error>, Fail> {
    let patched = requirements(alloc, patched)?;
    let unaffected = requirements(alloc, unaffected)?;
    Ok(Versions::new(alloc, patched, unaffected))
}

/// Returns the kind of an error.
pub fn kind_of<T: Drop>(answer: Result<T, Error>) -> Option<ErrorKind> {
    match answer {
        Ok(_) => None,
        Err(e) => Some(e.kind()),
    }
}

/// Returns whether some range contains a version.
pub fn some_affects(ranges: &[OsvRange], version: &Version) -> bool {
    for range in ranges {
        if range.affects(version) {
            return true;
        }
    }
    false
}
