//! Writes how findings can be mended as JSON.

ghost use Rattle.std.specs.Prelude.{◌≡◌, ◌++◌, IfOk, OnOk, option_map, string_bytes};
ghost use Rattle.semver.specs.Identifiers.{parts_of, parts_text};
ghost use Rattle.rustsec_report.specs.Words.{package_word};
ghost use Rattle.rustsec_check_output.specs.CheckJson.{moved_json, boolean_json, command_json, optional_json, quoted, update_json};

use crate::list_json::push_id_refs;
use crate::package_json::push_version;
use crate::part::{First, Key, push_first, push_key};
use crate::quoted::push_quoted;
use rustsec_check::Update;
use rustsec_lock::package::Package;
use semver::Version;
use std::alloc::{AllocError, Global};

/// Appends a boolean.
pub(crate) fn push_boolean(json: &mut String, value: bool) -> Result<(), AllocError>
    ensures { OnOk result (string_bytes json.new ≡ string_bytes json.old ++ boolean_json value) }
{
    if value {
        json.push_str("true")?;
    } else {
        json.push_str("false")?;
    }
    Ok(())
}

/// Returns the argument that names a package: `SOURCE#NAME@VERSION`, or `NAME@VERSION` without a source.
fn package_word(alloc: Global, package: &Package) -> Result<String, AllocError>
    ensures { IfOk result (λ t. string_bytes t ≡ package_word «package».now) }
{
    let name = &package.name;
    let version = &package.version;
    let word = match &package.source {
        Some(source) => format!(in alloc; "{source}#{name}@{version}")?,
        None => format!(in alloc; "{name}@{version}")?,
    };
    Ok(word)
}

/// Appends the command that updates a package: a list of the program and its arguments.
#[tactic(auto, unfolding(crate::specs::CheckJson::command_json))]
fn push_command(alloc: Global, json: &mut String, package: &Package) -> Result<(), AllocError>
    ensures { OnOk result (string_bytes json.new ≡ string_bytes json.old ++ command_json «package».now) }
{
    let word = package_word(alloc, package)?;
    push_first(json, First::UpdateCommand)?;
    push_quoted(alloc, json, &word)?;
    json.push_str("]")?;
    Ok(())
}

/// Appends a version, null if it is missing.
fn push_version_if(
    alloc: Global,
    json: &mut String,
    version: &Option<Version>,
) -> Result<(), AllocError>
    ensures { OnOk result (string_bytes json.new ≡ string_bytes json.old
        ++ optional_json (λ v. quoted (parts_text v)) (option_map parts_of version.now)) }
{
    match version {
        Some(version) => push_version(alloc, json, version),
        None => {
            json.push_str("null")?;
            Ok(())
        }
    }
}

/// Appends which ignored advisories move an update, and its version.
#[tactic(auto, unfolding(crate::specs::CheckJson::moved_json))]
fn push_moved(
    alloc: Global,
    json: &mut String,
    package: &Package,
    update: &Update<'_>,
) -> Result<(), AllocError>
    ensures { OnOk result (string_bytes json.new ≡ string_bytes json.old ++ moved_json «package».now update.now) }
{
    push_key(json, Key::Ignored)?;
    push_id_refs(alloc, json, update.moved_by.as_slice())?;
    push_key(json, Key::LeastFree)?;
    push_version_if(alloc, json, &update.least_free)?;
    json.push_str("}")?;
    Ok(())
}

/// Appends how a finding about a package can be mended.
#[tactic(auto, unfolding(crate::specs::CheckJson::update_json))]
pub(crate) fn push_update(
    alloc: Global,
    json: &mut String,
    package: &Package,
    update: &Update<'_>,
) -> Result<(), AllocError>
    ensures { OnOk result (string_bytes json.new ≡ string_bytes json.old ++ update_json «package».now update.now) }
{
    push_first(json, First::Command)?;
    push_command(alloc, json, package)?;
    push_key(json, Key::Compatible)?;
    push_boolean(json, update.is_compatible)?;
    push_moved(alloc, json, package, update)
}
