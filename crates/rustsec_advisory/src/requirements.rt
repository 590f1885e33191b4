//! Reads lists of requirements of a document.

ghost use Rattle.std.specs.Prelude.{◌≡◌, [], IfErr, IfOk, None, Some, map};
ghost use Rattle.toml.specs.View.{array_view, table_view, view};
ghost use Rattle.rustsec_values.specs.Reading.{read_all};
ghost use Rattle.rustsec_toml.specs.Fields.{defaulted, list_of, required, text};
ghost use Rattle.rustsec_advisory.specs.Requirements.{requirement_of, requirements_of};
ghost use Rattle.rustsec_values.specs.Failure.{IsRefusal};
ghost use Rattle.rustsec_versions.specs.Views.{comparators_of};

use rustsec_toml::Section;
use rustsec_values::{ErrorKind, Result};
use rustsec_versions::read_requirement;
use semver::VersionReq;
use std::alloc::{AllocError, Global};
use toml::Value;
use toml::value::Array;

/// Parses a requirement that was found at a key.
fn requirement_at(alloc: Global, section: Section<'_>, key: &str, text: &str) -> Result<VersionReq>
    ensures ok { IfOk result (λ r. requirement_of text.now ≡ Some (comparators_of r)) }
    ensures err { IfErr result (IsRefusal ErrorKind.Parse (requirement_of text.now ≡ None)) }
{
    match read_requirement(alloc, text) {
        Ok(req) => Ok(req),
        Err(e) => Err(section.with_key(alloc, key, &e)),
    }
}

/// Parses a requirement from a value that must be a string.
fn requirement_in(
    alloc: Global,
    section: Section<'_>,
    key: &str,
    value: &Value,
) -> Result<VersionReq>
    ensures ok { IfOk result (λ r. text requirement_of (view value.now) ≡ Some (comparators_of r)) }
    ensures err { IfErr result (IsRefusal ErrorKind.Parse (text requirement_of (view value.now) ≡ None)) }
{
    match value.as_str() {
        Some(text) => requirement_at(alloc, section, key, text),
        None => Err(section.unexpected_error(alloc, key, value, "a string")),
    }
}

/// Parses the requirements of an array, in order.
fn requirements_in(
    alloc: Global,
    section: Section<'_>,
    key: &str,
    array: &Array,
) -> Result<Vec<VersionReq>>
    ensures ok { IfOk result (λ rs. read_all (text requirement_of) (list_of (array_view array.now)) ≡ Some (map comparators_of rs.items)) }
    ensures err { IfErr result (IsRefusal ErrorKind.Parse (read_all (text requirement_of) (list_of (array_view array.now)) ≡ None)) }
{
    let mut read = Vec::with_capacity(alloc, array.len())?;
    for value in array {
        match requirement_in(alloc, section.at_element(read.len()), key, value) {
            Ok(req) => read.push(req).map_err(|_| AllocError)?,
            Err(e) => return Err(e),
        }
    }
    Ok(read)
}

/// Parses the requirements of a value that must be an array of strings.
pub fn requirements(
    alloc: Global,
    section: Section<'_>,
    key: &str,
    value: &Value,
) -> Result<Vec<VersionReq>>
    ensures ok { IfOk result (λ rs. requirements_of (view value.now) ≡ Some (map comparators_of rs.items)) }
    ensures err { IfErr result (IsRefusal ErrorKind.Parse (requirements_of (view value.now) ≡ None)) }
{
    match value.as_array() {
        Some(array) => requirements_in(alloc, section, key, array),
        None => Err(section.unexpected_error(alloc, key, value, "an array of strings")),
    }
}

/// Parses the requirements at a required key.
pub fn requirements_at(alloc: Global, section: Section<'_>, key: &str) -> Result<Vec<VersionReq>>
    ensures ok { IfOk result (λ rs. required requirements_of key.now (table_view section.entry.table.now) ≡ Some (map comparators_of rs.items)) }
    ensures err { IfErr result (IsRefusal ErrorKind.Parse (required requirements_of key.now (table_view section.entry.table.now) ≡ None)) }
{
    match section.get(key) {
        Some(value) => requirements(alloc, section, key, value),
        None => Err(section.missing_error(alloc, key)),
    }
}

/// Parses the requirements at a key; none if the key is missing.
pub fn optional_requirements_at(
    alloc: Global,
    section: Section<'_>,
    key: &str,
) -> Result<Vec<VersionReq>>
    ensures ok { IfOk result (λ rs. defaulted [] requirements_of key.now (table_view section.entry.table.now) ≡ Some (map comparators_of rs.items)) }
    ensures err { IfErr result (IsRefusal ErrorKind.Parse (defaulted [] requirements_of key.now (table_view section.entry.table.now) ≡ None)) }
{
    match section.get(key) {
        Some(value) => requirements(alloc, section, key, value),
        None => Ok(Vec::new(alloc)),
    }
}
