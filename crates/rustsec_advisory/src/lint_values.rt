//! Finds lint errors in the values of an advisory's keys.

ghost use Rattle.std.specs.Prelude.{◌≡◌, ◌++◌, ◌&&◌, IfErr, IfOk, OnOk, false, flat_map, string_bytes};
ghost use Rattle.std.specs.Map.{keys_of};
ghost use Rattle.toml.specs.Text.{IsValueText};
ghost use Rattle.toml.specs.View.{view};
ghost use Rattle.toml_writer.specs.Text.{string_text};
ghost use Rattle.rustsec_advisory.specs.LintErrors.{begins_with, category_row, crate_name_of, differs, draft_row, function_row, id_rows, informational_row, is_other_category, is_other_license, kind_row, license_row, of_string, paths_in, shares_year, url_row, year_row, years_differ};
ghost use Rattle.rustsec_texts.specs.Dates.{day_of};
ghost use Rattle.rustsec_values.specs.Failure.{IsMemory};

use crate::advisory::Advisory;
use crate::lint_rows::BadValue;
use crate::linter::Error;
use crate::metadata::Metadata;
use rustsec_texts::{Category, FunctionPath, Informational, License};
use rustsec_values::{Items, Result, SortedMap};
use rustsec_versions::Requirements;
use std::alloc::{AllocError, Global};
use std::fmt;
use std::fmt::Formatter;
use toml::Value;

/// Returns whether a flag is given and differs from a fact.
fn differs(flag: Option<bool>, fact: bool) -> bool
    ensures { result ≡ differs flag fact }
{
    match flag {
        Some(flag) => flag != fact,
        None => false,
    }
}

/// Returns whether the ID's year differs from the date's. CVE IDs are exempt.
fn names_another_year(metadata: &Metadata) -> bool
    ensures { result ≡ (shares_year metadata.now.id.kind && years_differ metadata.now.id.year (day_of metadata.now.date)) }
{
    match metadata.id.year() {
        Some(year) if !metadata.id.is_other() && !metadata.id.is_cve() => year
            != metadata.date.year(),
        _ => false,
    }
}

/// Appends the lint error for an ID that disagrees with the draft flag, if so.
fn lint_draft(
    alloc: Global,
    errors: &mut Items<Error>,
    draft: Option<bool>,
    metadata: &Metadata,
    printed: &str,
) -> Result<()>
    ensures ok { OnOk result (errors.new ≡ errors.old ++ draft_row draft metadata.now printed.now) }
    ensures err { IfErr result IsMemory }
{
    let test = differs(draft, metadata.id.is_placeholder());
    let bad = BadValue {
        section: "advisory",
        name: "id",
        value: printed,
        message: "advisory ID draft status does not match file name",
    };
    bad.add_if(alloc, errors, test)
}

/// Appends the lint error for an ID of no known kind.
fn lint_kind(
    alloc: Global,
    errors: &mut Items<Error>,
    metadata: &Metadata,
    printed: &str,
) -> Result<()>
    ensures ok { OnOk result (errors.new ≡ errors.old ++ kind_row metadata.now printed.now) }
    ensures err { IfErr result IsMemory }
{
    let test = metadata.id.is_other();
    let bad = BadValue {
        section: "advisory",
        name: "id",
        value: printed,
        message: "unknown advisory ID type",
    };
    bad.add_if(alloc, errors, test)
}

/// Appends the lint error for an ID whose year is not the date's.
fn lint_year(
    alloc: Global,
    errors: &mut Items<Error>,
    metadata: &Metadata,
    printed: &str,
) -> Result<()>
    ensures ok { OnOk result (errors.new ≡ errors.old ++ year_row metadata.now printed.now) }
    ensures err { IfErr result IsMemory }
{
    let test = names_another_year(metadata);
    let bad = BadValue {
        section: "advisory",
        name: "id",
        value: printed,
        message: "year in advisory ID does not match date",
    };
    bad.add_if(alloc, errors, test)
}

/// Appends the lint errors for the ID; `value` is its text in them.
fn lint_id(
    alloc: Global,
    errors: &mut Items<Error>,
    draft: Option<bool>,
    metadata: &Metadata,
    printed: &str,
) -> Result<()>
    ensures ok { OnOk result (errors.new ≡ errors.old ++ id_rows draft metadata.now printed.now) }
    ensures err { IfErr result IsMemory }
{
    lint_draft(alloc, errors, draft, metadata, printed)?;
    lint_kind(alloc, errors, metadata, printed)?;
    lint_year(alloc, errors, metadata, printed)
}

/// Returns whether a category is not one of the table.
fn is_other_category(category: &Category) -> bool
    ensures { result ≡ is_other_category category.now }
{
    matches!(category, Category::Other(_))
}

/// Appends the lint error for a category.
fn lint_category(alloc: Global, errors: &mut Items<Error>, category: &Category) -> Result<()>
    ensures ok { OnOk result (errors.new ≡ errors.old ++ category_row category.now) }
    ensures err { IfErr result IsMemory }
{
    let test = is_other_category(category);
    let bad = BadValue {
        section: "advisory",
        name: "category",
        value: category.name(),
        message: "unknown category",
    };
    bad.add_if(alloc, errors, test)
}

/// Appends the lint errors for the categories.
pub(crate) fn lint_categories(
    alloc: Global,
    errors: &mut Items<Error>,
    categories: &[Category],
) -> Result<()>
    ensures ok { OnOk result (errors.new ≡ errors.old ++ flat_map category_row categories.now) }
    ensures err { IfErr result IsMemory }
{
    for category in categories {
        lint_category(alloc, errors, category)?;
    }
    Ok(())
}

/// Appends the lint error for an informational kind.
pub(crate) fn lint_informational(
    alloc: Global,
    errors: &mut Items<Error>,
    informational: &Option<Informational>,
) -> Result<()>
    ensures ok { OnOk result (errors.new ≡ errors.old ++ informational_row informational.now) }
    ensures err { IfErr result IsMemory }
{
    let Some(kind) = informational else {
        return Ok(());
    };
    let bad = BadValue {
        section: "advisory",
        name: "informational",
        value: kind.as_str(),
        message: "unknown informational advisory type",
    };
    bad.add_if(alloc, errors, kind.is_other())
}

/// Returns a value as TOML prints it.
fn printed(alloc: Global, value: &Value) -> std::result::Result<String, AllocError>
    ensures { IfOk result (λ s. IsValueText false (view value.now) (string_bytes s)) }
{
    let mut f = Formatter::new(String::new(alloc));
    match fmt::Display::fmt(value, &mut f) {
        Ok(()) => Ok(f.into_inner()),
        Err(_) => Err(AllocError),
    }
}

/// Appends the lint error for an address that the URL Standard's parser accepted.
pub(crate) fn lint_url(alloc: Global, errors: &mut Items<Error>, value: &Value) -> Result<()>
    ensures ok { OnOk result (errors.new ≡ errors.old ++ of_string url_row (view value.now)) }
    ensures err { IfErr result IsMemory }
{
    let Some(text) = value.as_str() else {
        return Ok(());
    };
    if text.starts_with("https://") {
        return Ok(());
    }
    let printed = printed(alloc, value)?;
    let bad = BadValue {
        section: "advisory",
        name: "url",
        value: &printed,
        message: "URL must start with https://",
    };
    bad.add_if(alloc, errors, true)
}

/// Returns whether a license is not one of the table.
fn is_other_license(license: &License) -> bool
    ensures { result ≡ is_other_license license.now }
{
    matches!(license, License::Other(_))
}

/// Appends the lint error for a license.
pub(crate) fn lint_license(
    alloc: Global,
    errors: &mut Items<Error>,
    license: &License,
) -> Result<()>
    ensures ok { OnOk result (errors.new ≡ errors.old ++ license_row license.now) }
    ensures err { IfErr result IsMemory }
{
    let test = is_other_license(license);
    let bad = BadValue {
        section: "advisory",
        name: "license",
        value: license.spdx(),
        message: "Unknown license",
    };
    bad.add_if(alloc, errors, test)
}

/// Appends the lint errors for the ID, if its value is a string.
pub(crate) fn lint_id_value(
    alloc: Global,
    errors: &mut Items<Error>,
    draft: Option<bool>,
    metadata: &Metadata,
    value: &Value,
) -> Result<()>
    ensures ok { OnOk result (errors.new ≡ errors.old ++ of_string (λ text. id_rows draft metadata.now (string_text text)) (view value.now)) }
    ensures err { IfErr result IsMemory }
{
    if value.as_str().is_none() {
        return Ok(());
    }
    let printed = printed(alloc, value)?;
    lint_id(alloc, errors, draft, metadata, &printed)
}

/// Returns the crate name with which paths of its functions begin: the package's name with `_` for `-`.
fn crate_name(alloc: Global, name: &str) -> std::result::Result<Vec<u8>, AllocError>
    ensures { IfOk result (λ v. v.items ≡ crate_name_of name.now) }
{
    let mut bytes = Vec::new(alloc);
    for byte in name.as_bytes() {
        bytes.push(if *byte == b'-' { b'_' } else { *byte })?;
    }
    Ok(bytes)
}

/// Returns whether a path begins with the name of a crate.
fn begins_with(name: &[u8], path: &FunctionPath) -> bool
    ensures { result ≡ begins_with name.now path.now }
{
    path.crate_name().as_bytes() == name
}

/// Appends the lint error for a function whose path does not begin with the name of its crate.
fn lint_function(
    alloc: Global,
    errors: &mut Items<Error>,
    name: &[u8],
    path: &FunctionPath,
) -> Result<()>
    ensures ok { OnOk result (errors.new ≡ errors.old ++ function_row name.now path.now) }
    ensures err { IfErr result IsMemory }
{
    if begins_with(name, path) {
        return Ok(());
    }
    let printed = path.to_string(alloc)?;
    let bad = BadValue {
        section: "affected",
        name: "functions",
        value: &printed,
        message: "function path must start with crate name",
    };
    bad.add_if(alloc, errors, true)
}

/// Appends the lint errors for some functions of a crate.
fn lint_paths(
    alloc: Global,
    errors: &mut Items<Error>,
    name: &[u8],
    functions: &SortedMap<FunctionPath, Requirements>,
) -> Result<()>
    ensures ok { OnOk result (errors.new ≡ errors.old ++ flat_map (function_row name.now) (keys_of functions.now)) }
    ensures err { IfErr result IsMemory }
{
    for (path, _) in functions {
        lint_function(alloc, errors, name, path)?;
    }
    Ok(())
}

/// Appends the lint errors for the functions of an advisory.
pub(crate) fn lint_functions(
    alloc: Global,
    errors: &mut Items<Error>,
    advisory: &Advisory,
) -> Result<()>
    ensures ok { OnOk result (errors.new ≡ errors.old ++ flat_map (function_row (crate_name_of advisory.now.metadata.«package»)) (paths_in advisory.now.affected)) }
    ensures err { IfErr result IsMemory }
{
    let Some(affected) = &advisory.affected else {
        return Ok(());
    };
    let name = crate_name(alloc, advisory.metadata.package.as_str())?;
    lint_paths(alloc, errors, &name, &affected.functions)
}
