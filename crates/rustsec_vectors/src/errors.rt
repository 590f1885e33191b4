//! How errors print, and what a person is told of them.

use crate::rows::prints;
use rustsec_values::{Error, ErrorKind};
use std::alloc::{AllocError, Global};
use std::error;
use std::test::Fail;

const MESSAGE: &str = "no file";

const CAUSE: &str = "it is a folder";

/// Each kind, and how its error prints without a message and with one. The Rust crate has no `OutOfMemory`.
const KINDS: &[(ErrorKind, &str, &str)] = &[
    (
        ErrorKind::BadParam,
        "bad parameter: ",
        "bad parameter: no file",
    ),
    (
        ErrorKind::Io,
        "I/O operation failed: ",
        "I/O operation failed: no file",
    ),
    (ErrorKind::NotFound, "not found: ", "not found: no file"),
    (
        ErrorKind::LockTimeout,
        "unable to acquire filesystem lock: ",
        "unable to acquire filesystem lock: no file",
    ),
    (ErrorKind::Parse, "parse error: ", "parse error: no file"),
    (ErrorKind::Registry, "registry: ", "registry: no file"),
    (
        ErrorKind::Repo,
        "git operation failed: ",
        "git operation failed: no file",
    ),
    (ErrorKind::Version, "bad version: ", "bad version: no file"),
    (
        ErrorKind::OutOfMemory,
        "out of memory: ",
        "out of memory: no file",
    ),
];

/// Returns whether an error with this message and this cause prints as a text.
fn prints_as(
    alloc: Global,
    kind: ErrorKind,
    message: &str,
    cause: Option<&str>,
    text: &str,
) -> Result<bool, Fail> {
    let error = Error::with_cause(alloc, kind, message, cause);
    prints(alloc, &error, text)
}

/// Returns whether the errors of a kind print as the texts of a row, with the cause as without it.
fn are_printed(alloc: Global, row: &(ErrorKind, &str, &str)) -> Result<bool, Fail> {
    let (kind, bare, whole) = row;
    Ok(
        prints_as(alloc, *kind, "", None, bare)?
            && prints_as(alloc, *kind, "", Some(CAUSE), bare)?
            && prints_as(alloc, *kind, MESSAGE, None, whole)?
            && prints_as(alloc, *kind, MESSAGE, Some(CAUSE), whole)?,
    )
}

/// Returns whether a person is told this of an error.
fn tells(alloc: Global, error: &Error, text: &str) -> Result<bool, Fail> {
    let told = error.text_with_cause(alloc)?;
    Ok(told.as_str() == text)
}

/// Returns whether a person is told this of an error of a kind with the message, and the cause after it.
fn tells_cause(alloc: Global, kind: ErrorKind, whole: &str) -> Result<bool, Fail> {
    let told = Error::with_cause(alloc, kind, MESSAGE, Some(CAUSE)).text_with_cause(alloc)?;
    Ok(told.as_str().strip_prefix(whole) == Some(": it is a folder"))
}

#[test]
fn errors_of_each_kind(rt: HostRuntime) -> Result<(), Fail> {
    for row in KINDS {
        let (kind, bare, whole) = row;
        assert!(rt; are_printed(rt.alloc(), row)?, "{bare}");
        assert!(rt; tells_cause(rt.alloc(), *kind, whole)?, "{whole}");
    }
    Ok(())
}

fn prints_as_error<E: error::Error>(alloc: Global, error: &E, text: &str) -> Result<bool, Fail> {
    prints(alloc, error, text)
}

#[test]
fn errors_without_a_message(rt: HostRuntime) -> Result<(), Fail> {
    let memory = Error::from(AllocError);
    assert!(rt; prints_as_error(rt.alloc(), &memory, "out of memory: ")?);
    assert!(rt; tells(rt.alloc(), &memory, "out of memory")?);
    let error = Error::with_cause(rt.alloc(), ErrorKind::Io, "", Some(CAUSE));
    assert!(rt; tells(rt.alloc(), &error, "I/O operation failed: it is a folder")?);
    Ok(())
}
