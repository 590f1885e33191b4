//! Writes packages as JSON.

ghost use Rattle.std.specs.Prelude.{◌≡◌, ◌++◌, [], IfOk, OnOk, map, slice_get, string_bytes};
ghost use Rattle.std.specs.List.{cons_option};
ghost use Rattle.semver.specs.Identifiers.{parts_of, parts_text};
ghost use Rattle.rustsec_check_output.specs.CheckTree.{packages_at};
ghost use Rattle.rustsec_check_output.specs.CheckJson.{named_json, places_json, quoted, source_json, sourced_json};

use crate::list_json::{Push, push_list};
use crate::part::{First, Key, push_first, push_key};
use crate::quoted::push_quoted;
use rustsec_lock::SourceId;
use rustsec_lock::package::Package;
use semver::Version;
use std::alloc::{AllocError, Global};

/// Appends the text of a version as a string.
pub(crate) fn push_version(
    alloc: Global,
    json: &mut String,
    version: &Version,
) -> Result<(), AllocError>
    ensures { OnOk result (string_bytes json.new ≡ string_bytes json.old ++ quoted (parts_text (parts_of version.now))) }
{
    let text = version.to_string(alloc)?;
    push_quoted(alloc, json, &text)
}

/// Appends the name and the version of a package.
#[tactic(auto, unfolding(crate::specs::CheckJson::named_json))]
fn push_named(alloc: Global, json: &mut String, package: &Package) -> Result<(), AllocError>
    ensures { OnOk result (string_bytes json.new ≡ string_bytes json.old ++ named_json «package».now) }
{
    push_first(json, First::Name)?;
    push_quoted(alloc, json, package.name.as_str())?;
    push_key(json, Key::Version)?;
    push_version(alloc, json, &package.version)?;
    json.push_str("}")?;
    Ok(())
}

/// Appends the text of a source, null without a source.
fn push_source(
    alloc: Global,
    json: &mut String,
    source: &Option<SourceId>,
) -> Result<(), AllocError>
    ensures { OnOk result (string_bytes json.new ≡ string_bytes json.old ++ source_json source.now) }
{
    match source {
        Some(source) => {
            let text = source.to_string(alloc)?;
            push_quoted(alloc, json, &text)
        }
        None => {
            json.push_str("null")?;
            Ok(())
        }
    }
}

/// Appends the name, the source and the version of a package.
#[tactic(auto, unfolding(crate::specs::CheckJson::sourced_json))]
pub(crate) fn push_sourced(
    alloc: Global,
    json: &mut String,
    package: &Package,
) -> Result<(), AllocError>
    ensures { OnOk result (string_bytes json.new ≡ string_bytes json.old ++ sourced_json «package».now) }
{
    push_first(json, First::Name)?;
    push_quoted(alloc, json, package.name.as_str())?;
    push_key(json, Key::Source)?;
    push_source(alloc, json, &package.source)?;
    push_key(json, Key::Version)?;
    push_version(alloc, json, &package.version)?;
    json.push_str("}")?;
    Ok(())
}

/// Appends the package at a place, if any.
fn push_at<'a>(
    found: &mut Vec<&'a Package>,
    packages: &'a [Package],
    place: usize,
) -> Result<(), AllocError>
    ensures { OnOk result (map (λ p. p.now) found.new.items ≡ map (λ p. p.now) found.old.items ++ cons_option (slice_get packages.now place) []) }
{
    match packages.get(place) {
        Some(package) => {
            found.push(package)?;
            Ok(())
        }
        None => Ok(()),
    }
}

/// Returns the packages at some places, in order. A place without a package is left out.
fn packages_at<'a>(
    alloc: Global,
    packages: &'a [Package],
    places: &[usize],
) -> Result<Vec<&'a Package>, AllocError>
    ensures { IfOk result (λ v. map (λ p. p.now) v.items ≡ packages_at packages.now places.now) }
{
    let mut found = Vec::new(alloc);
    for place in places {
        push_at(&mut found, packages, *place)?;
    }
    Ok(found)
}

/// Writes packages by their names and versions.
struct Named;

impl<'a> Push<&'a Package> for Named {
    ghost use Rattle.rustsec_check_output.specs.CheckJson.{named_json};

    ghost written = { λ way p. named_json p.now };

    fn push(
        &self,
        alloc: Global,
        json: &mut String,
        package: &&'a Package,
    ) -> Result<(), AllocError> {
        push_named(alloc, json, package)
    }
}

/// Appends a list of the packages at some places, by their names and versions.
pub(crate) fn push_places(
    alloc: Global,
    json: &mut String,
    packages: &[Package],
    places: &[usize],
) -> Result<(), AllocError>
    ensures { OnOk result (string_bytes json.new ≡ string_bytes json.old ++ places_json packages.now places.now) }
{
    let found = packages_at(alloc, packages, places)?;
    push_list(alloc, json, &Named, found.as_slice())?;
    Ok(())
}
