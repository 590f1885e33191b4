//! Parses versions and requirements. An error shows the text, and its cause is the reason of `semver`.

ghost use Rattle.std.specs.Prelude.{◌≡◌, ◌≢◌, [], IfErr, IfOk, None, OnErr, Some, false, true};
ghost use Rattle.semver.specs.Identifiers.{parts_of};
ghost use Rattle.semver.specs.Parse.{memory_error, req_of, version_parts};
ghost use Rattle.rustsec_values.specs.Reading.{value_of};
ghost use Rattle.rustsec_values.specs.Failure.{IsOfKind, IsRefusal};
ghost use Rattle.rustsec_versions.specs.Memory.{is_plain};
ghost use Rattle.rustsec_versions.specs.Views.{comparators_of};

use rustsec_values::{Error, ErrorKind, Result, text_error_with_cause};
use semver::{Version, VersionReq};
use std::alloc::{AllocError, Global};

/// Returns whether an error of `semver` means that memory was refused.
pub fn is_out_of_memory(e: semver::Error) -> bool
    ensures memory { e ≡ memory_error → result ≡ true }
    ensures only { result ≡ true → e ≡ memory_error }
{
    e == semver::Error::from(AllocError)
}

/// Returns the error for a text that `semver` refuses: what is wrong with which text, and what was expected.
fn semver_error(
    alloc: Global,
    wrong: &str,
    text: &str,
    expected: &str,
    reason: &semver::Error,
) -> Error
    ensures { IsOfKind ErrorKind.Parse result }
{
    match format!(in alloc; "{reason}") {
        Ok(why) => text_error_with_cause(alloc, wrong, text, expected, &why),
        Err(refused) => Error::from(refused),
    }
}

/// Parses a version. `written` is what an error shows of the text.
///
/// # Errors
///
/// `Parse` if the text is not a version of SemVer 2.0.0; else `OutOfMemory`.
pub fn read_version(alloc: Global, text: &str, written: &str) -> Result<Version>
    ensures ok { IfOk result (λ v. value_of (version_parts text.now) ≡ Some (parts_of v)) }
    ensures err { IfErr result (IsRefusal ErrorKind.Parse (value_of (version_parts text.now) ≡ None)) }

    // A version without a pre-release and without build metadata takes no memory.
    ensures none { OnErr result (is_plain (value_of (version_parts text.now)) ≡ false) }
{
    match Version::parse(alloc, text) {
        Ok(version) => Ok(version),
        Err(e) if is_out_of_memory(e) => Err(Error::from(AllocError)),
        Err(e) => Err(semver_error(
            alloc,
            "malformed version",
            written,
            "one such as `1.2.3`",
            &e,
        )),
    }
}

/// Parses a requirement.
///
/// # Errors
///
/// `Parse` if the text is not a requirement in Cargo's grammar; else `OutOfMemory`.
pub fn read_requirement(alloc: Global, text: &str) -> Result<VersionReq>
    ensures ok { IfOk result (λ r. value_of (req_of text.now) ≡ Some (comparators_of r)) }
    ensures err { IfErr result (IsRefusal ErrorKind.Parse (value_of (req_of text.now) ≡ None)) }

    // `*` takes no memory.
    ensures none { OnErr result (value_of (req_of text.now) ≢ Some []) }
{
    match VersionReq::parse(alloc, text) {
        Ok(mut req) => {
            req.comparators.shrink_to_fit();
            Ok(req)
        }
        Err(e) if is_out_of_memory(e) => Err(Error::from(AllocError)),
        Err(e) => Err(semver_error(
            alloc,
            "not a requirement",
            text,
            "comparators such as `>=1.2.3, <2`",
            &e,
        )),
    }
}
