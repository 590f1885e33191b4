//! Parses a line of the input.

ghost use Rattle.std.specs.Prelude.{◌≡◌, IfOk, option_map};
ghost use Rattle.semver.specs.Identifiers.{parts_of};
ghost use Rattle.semver.specs.Parse.{memory_error, req_of, version_parts};
ghost use Rattle.rustsec_values.specs.Reading.{value_of};
ghost use Rattle.rustsec_versions.specs.Views.{comparators_of};
ghost use Rattle.rustsec_commands.specs.input.Line.{by_word, line_says, without_return};
ghost use Rattle.rustsec_commands.specs.input.Views.{line_view};

use rustsec_versions::is_out_of_memory;
use semver::{Version, VersionReq};
use std::alloc::{AllocError, Global};
use std::str;

/// The content of a line.
#[derive(Drop)]
pub enum Line {
    Blank,
    Patched(VersionReq),
    Unaffected(VersionReq),
    Version(Version),
}

/// Returns the line without the one carriage return that ends it, if any.
fn without_return(line: &[u8]) -> &[u8]
    ensures { result.now ≡ without_return line.now }
{
    match line {
        [text @ .., b'\r'] => text,
        _ => line,
    }
}

/// Parses a requirement. A text that is not a requirement gives `None`.
fn requirement(alloc: Global, text: &str) -> Result<Option<VersionReq>, AllocError>
    ensures { IfOk result (λ o. option_map comparators_of o ≡ value_of (req_of text.now)) }
{
    match VersionReq::parse(alloc, text) {
        Ok(mut req) => {
            req.comparators.shrink_to_fit();
            Ok(Some(req))
        }
        Err(e) if is_out_of_memory(e) => Err(AllocError),
        Err(_) => Ok(None),
    }
}

/// Parses a version. A text that is not a version gives `None`.
fn version(alloc: Global, text: &str) -> Result<Option<Version>, AllocError>
    ensures { IfOk result (λ o. option_map parts_of o ≡ value_of (version_parts text.now)) }
{
    match Version::parse(alloc, text) {
        Ok(version) => Ok(Some(version)),
        Err(e) if is_out_of_memory(e) => Err(AllocError),
        Err(_) => Ok(None),
    }
}

/// Parses a text by the word that it begins with. A malformed text gives `None`.
fn by_word(alloc: Global, text: &str) -> Result<Option<Line>, AllocError>
    ensures { IfOk result (λ o. option_map line_view o ≡ by_word text.now) }
{
    if let Some(rest) = text.strip_prefix("patched ") {
        Ok(requirement(alloc, rest)?.map(Line::Patched))
    } else if let Some(rest) = text.strip_prefix("unaffected ") {
        Ok(requirement(alloc, rest)?.map(Line::Unaffected))
    } else if let Some(rest) = text.strip_prefix("version ") {
        Ok(version(alloc, rest)?.map(Line::Version))
    } else {
        Ok(None)
    }
}

/// Parses a line. A malformed line gives `None`.
pub fn line_says(alloc: Global, line: &[u8]) -> Result<Option<Line>, AllocError>
    ensures { IfOk result (λ o. option_map line_view o ≡ line_says line.now) }
{
    let text = without_return(line);
    if text.is_empty() {
        return Ok(Some(Line::Blank));
    }
    match str::from_utf8(text) {
        Ok(text) => by_word(alloc, text),
        Err(_) => Ok(None),
    }
}
