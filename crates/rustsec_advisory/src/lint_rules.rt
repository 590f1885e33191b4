//! Finds an advisory's lint errors by a walk over the keys of its document.

ghost use Rattle.std.specs.Prelude.{◌≡◌, ◌++◌, IfErr, IfOk, OnOk, flat_map, true};
ghost use Rattle.toml.specs.View.{table_view, view};
ghost use Rattle.rustsec_advisory.specs.Affected.{members_of};
ghost use Rattle.rustsec_advisory.specs.KeyOrder.{DocumentRises, KeysRise, SectionRises, sections};
ghost use Rattle.rustsec_advisory.specs.LintErrors.{advisory_rows, affected_rows, is_one_of, lint_errors, platform_keys, quiet_keys, section_rows, top_rows, versions_rows};
ghost use Rattle.rustsec_values.specs.Failure.{IsMemory};

use crate::advisory::Advisory;
use crate::lint_rows::{add_content, add_key};
use crate::lint_values::{
    lint_categories, lint_functions, lint_id_value, lint_informational, lint_license, lint_url,
};
use crate::linter::Error;
use rustsec_values::{Items, Result};
use std::alloc::Global;
use toml::{Table, Value};

/// An advisory whose document is linted.
#[derive(Clone, Copy)]
struct Linted<'a> {
    /// Whether it is a draft, if that is known.
    draft: Option<bool>,
    /// What the document says.
    advisory: &'a Advisory,
}

/// Returns whether a key of the section `advisory` has a meaning and never has a lint error.
fn is_quiet(key: &str) -> bool
    ensures { result ≡ is_one_of quiet_keys key.now }
{
    // Few of the keys have the same length, so most are told apart without a look at their bytes.
    match key.len() {
        4 => matches!(key, "cvss" | "date"),
        5 => key == "title",
        6 => key == "source",
        7 => matches!(key, "aliases" | "package" | "related"),
        8 => key == "keywords",
        9 => key == "withdrawn",
        10 => key == "references",
        11 => key == "description",
        14 => key == "expect-deleted",
        _ => false,
    }
}

/// Appends the lint errors for a key of the section `advisory`.
fn lint_advisory_key(
    alloc: Global,
    errors: &mut Items<Error>,
    linted: Linted<'_>,
    key: &str,
    value: &Value,
) -> Result<()>
    ensures ok { OnOk result (errors.new ≡ errors.old ++ advisory_rows linted.entry.draft linted.entry.advisory.now.metadata (key.now, view value.now)) }
    ensures err { IfErr result IsMemory }
{
    // Most keys are quiet.
    if is_quiet(key) {
        return Ok(());
    }
    let metadata = &linted.advisory.metadata;
    match key {
        "id" => lint_id_value(alloc, errors, linted.draft, metadata, value),
        "categories" => lint_categories(alloc, errors, metadata.categories.as_slice()),
        "collection" => {
            let message = "collection shouldn't be explicit; inferred by location";
            add_content(alloc, errors, true, "advisory", message)
        }
        "informational" => lint_informational(alloc, errors, &metadata.informational),
        "url" => lint_url(alloc, errors, value),
        "yanked" => {
            let message = "Field `yanked` is deprecated, use `withdrawn` field instead";
            add_content(
                alloc,
                errors,
                metadata.withdrawn.is_none(),
                "metadata",
                message,
            )
        }
        "license" => lint_license(alloc, errors, &metadata.license),
        _ => add_key(alloc, errors, true, Some("advisory"), key),
    }
}

/// Appends the lint errors for the section `advisory`.
fn lint_advisory(
    alloc: Global,
    errors: &mut Items<Error>,
    linted: Linted<'_>,
    table: &Table,
) -> Result<()>
    ensures ok { OnOk result (errors.new ≡ errors.old ++ flat_map (advisory_rows linted.entry.draft linted.entry.advisory.now.metadata) (members_of (table_view table.now))) }
    ensures ordered { OnOk result (KeysRise (members_of (table_view table.now))) }
    ensures err { IfErr result IsMemory }
{
    for (key, value) in table {
        lint_advisory_key(alloc, errors, linted, key.as_str(), value)?;
    }
    Ok(())
}

/// Returns whether a key of the section `affected` names platforms.
fn is_platform_key(key: &str) -> bool
    ensures { result ≡ is_one_of platform_keys key.now }
{
    matches!(key, "arch" | "os")
}

/// Appends the lint errors for a key of the section `affected`.
fn lint_affected_key(
    alloc: Global,
    errors: &mut Items<Error>,
    advisory: &Advisory,
    key: &str,
) -> Result<()>
    ensures ok { OnOk result (errors.new ≡ errors.old ++ affected_rows advisory.now key.now) }
    ensures err { IfErr result IsMemory }
{
    match key {
        "functions" => lint_functions(alloc, errors, advisory),
        _ => add_key(alloc, errors, !is_platform_key(key), Some("affected"), key),
    }
}

/// Appends the lint errors for the section `affected`.
fn lint_affected(
    alloc: Global,
    errors: &mut Items<Error>,
    advisory: &Advisory,
    table: &Table,
) -> Result<()>
    ensures ok { OnOk result (errors.new ≡ errors.old ++ flat_map (λ e. affected_rows advisory.now e.0) (members_of (table_view table.now))) }
    ensures ordered { OnOk result (KeysRise (members_of (table_view table.now))) }
    ensures err { IfErr result IsMemory }
{
    for (key, _) in table {
        lint_affected_key(alloc, errors, advisory, key.as_str())?;
    }
    Ok(())
}

/// Appends the lint errors for a key of the section `versions`.
fn lint_versions_key(alloc: Global, errors: &mut Items<Error>, key: &str) -> Result<()>
    ensures ok { OnOk result (errors.new ≡ errors.old ++ versions_rows key.now) }
    ensures err { IfErr result IsMemory }
{
    match key {
        "patched" | "unaffected" => Ok(()),
        _ => add_key(alloc, errors, true, Some("versions"), key),
    }
}

/// Appends the lint errors for the section `versions`.
fn lint_versions(alloc: Global, errors: &mut Items<Error>, table: &Table) -> Result<()>
    ensures ok { OnOk result (errors.new ≡ errors.old ++ flat_map (λ e. versions_rows e.0) (members_of (table_view table.now))) }
    ensures ordered { OnOk result (KeysRise (members_of (table_view table.now))) }
    ensures err { IfErr result IsMemory }
{
    for (key, _) in table {
        lint_versions_key(alloc, errors, key.as_str())?;
    }
    Ok(())
}

/// Appends the lint errors for a section.
fn lint_section(
    alloc: Global,
    errors: &mut Items<Error>,
    linted: Linted<'_>,
    key: &str,
    table: &Table,
) -> Result<()>
    ensures ok { OnOk result (errors.new ≡ errors.old ++ section_rows linted.entry.draft linted.entry.advisory.now key.now (members_of (table_view table.now))) }
    ensures ordered { OnOk result (is_one_of sections key.now ≡ true → KeysRise (members_of (table_view table.now))) }
    ensures err { IfErr result IsMemory }
{
    match key {
        "advisory" => lint_advisory(alloc, errors, linted, table),
        "affected" => lint_affected(alloc, errors, linted.advisory, table),
        "versions" => lint_versions(alloc, errors, table),
        _ => add_key(alloc, errors, true, None, key),
    }
}

/// Appends the lint errors for a key at the top.
fn lint_top_key(
    alloc: Global,
    errors: &mut Items<Error>,
    linted: Linted<'_>,
    key: &str,
    value: &Value,
) -> Result<()>
    ensures ok { OnOk result (errors.new ≡ errors.old ++ top_rows linted.entry.draft linted.entry.advisory.now (key.now, view value.now)) }
    ensures ordered { OnOk result (SectionRises (key.now, view value.now)) }
    ensures err { IfErr result IsMemory }
{
    let Some(table) = value.as_table() else {
        let known = matches!(key, "advisory" | "affected" | "versions");
        return add_key(alloc, errors, !known, None, key);
    };
    lint_section(alloc, errors, linted, key, table)
}

/// Returns the lint errors of a document and its advisory.
pub(crate) fn of_document(
    alloc: Global,
    draft: Option<bool>,
    advisory: &Advisory,
    document: &Table,
) -> Result<Items<Error>>
    ensures ok { IfOk result (λ es. es ≡ lint_errors draft (table_view document.now) advisory.now) }
    ensures ordered { IfOk result (λ es. DocumentRises (table_view document.now)) }
    ensures err { IfErr result IsMemory }
{
    let mut errors = Items::new(alloc);
    for (key, value) in document {
        let linted = Linted { draft, advisory };
        lint_top_key(alloc, &mut errors, linted, key.as_str(), value)?;
    }
    Ok(errors)
}
