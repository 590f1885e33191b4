//! Builds the JSON trees of advisories and packages.

ghost use Rattle.std.specs.Prelude.{◌≡◌, IfOk, OnOk, option_map};
ghost use Rattle.serde_json.specs.View.{members_view, view};
ghost use Rattle.rustsec_json.specs.Trees.{optional_tree};
ghost use Rattle.rustsec_report.specs.Trees.{affected_tree, functions, kinds, metadata_tree, object_of, origin, package_tree, subject, terms, versions_tree, with_members};

use crate::object::{Members, put_tree, put_value, requirements_tree};
use rustsec_advisory::{Affected, Metadata};
use rustsec_lock::package::Package;
use rustsec_texts::FunctionPath;
use rustsec_values::SortedMap;
use rustsec_versions::{Requirements, Versions};
use serde_json::Value;
use std::alloc::{AllocError, Global};

/// Sets the key of each function, its path, to its requirements.
#[tactic(auto, unfolding(crate::specs::Trees::with_members))]
fn put_functions(
    alloc: Global,
    members: &mut Members,
    map: &SortedMap<FunctionPath, Requirements>,
) -> Result<(), AllocError>
    ensures { OnOk result (members_view members.new.entries ≡ with_members (members_view members.old.entries) (functions map.now)) }
{
    for (path, reqs) in map {
        let key = path.to_string(alloc)?;
        let tree = requirements_tree(alloc, reqs.as_slice())?;
        put_tree(alloc, members, &key, tree)?;
    }
    Ok(())
}

/// Builds the tree of functions.
fn functions_tree(
    alloc: Global,
    map: &SortedMap<FunctionPath, Requirements>,
) -> Result<Value, AllocError>
    ensures { IfOk result (λ v. view v ≡ object_of (functions map.now)) }
{
    let mut members = Members::new(alloc);
    put_functions(alloc, &mut members, map)?;
    Ok(Value::from(members))
}

/// Builds the tree of the table `affected`, null if the table is missing.
#[tactic(auto, unfolding(crate::specs::Trees::with_members))]
pub(crate) fn affected_tree(alloc: Global, affected: Option<&Affected>) -> Result<Value, AllocError>
    ensures { IfOk result (λ v. view v ≡ optional_tree affected_tree (option_map (λ a. a.now) affected.entry)) }
{
    let Some(affected) = affected else {
        return Ok(Value::Null);
    };
    let mut members = Members::new(alloc);
    put_value(alloc, &mut members, "arch", &affected.arch)?;
    let functions = functions_tree(alloc, &affected.functions)?;
    put_tree(alloc, &mut members, "functions", functions)?;
    put_value(alloc, &mut members, "os", &affected.os)?;
    Ok(Value::from(members))
}

/// Builds the tree of two lists of requirements.
#[tactic(auto, unfolding(crate::specs::Trees::with_members))]
pub(crate) fn versions_tree(alloc: Global, versions: &Versions) -> Result<Value, AllocError>
    ensures { IfOk result (λ v. view v ≡ versions_tree versions.now) }
{
    let mut members = Members::new(alloc);
    let patched = requirements_tree(alloc, versions.patched())?;
    put_tree(alloc, &mut members, "patched", patched)?;
    let unaffected = requirements_tree(alloc, versions.unaffected())?;
    put_tree(alloc, &mut members, "unaffected", unaffected)?;
    Ok(Value::from(members))
}

/// Sets the keys of an advisory's names, package and days.
#[tactic(auto, unfolding(crate::specs::Trees::with_members))]
fn put_subject(alloc: Global, members: &mut Members, metadata: &Metadata) -> Result<(), AllocError>
    ensures { OnOk result (members_view members.new.entries
        ≡ with_members (members_view members.old.entries) (subject metadata.now)) }
{
    put_value(alloc, members, "aliases", &metadata.aliases)?;
    put_value(alloc, members, "date", &metadata.date)?;
    put_value(alloc, members, "id", &metadata.id)?;
    put_value(alloc, members, "package", &metadata.package)?;
    put_value(alloc, members, "related", &metadata.related)
}

/// Sets the keys of an advisory's classification.
#[tactic(auto, unfolding(crate::specs::Trees::with_members))]
fn put_kinds(alloc: Global, members: &mut Members, metadata: &Metadata) -> Result<(), AllocError>
    ensures { OnOk result (members_view members.new.entries
        ≡ with_members (members_view members.old.entries) (kinds metadata.now)) }
{
    put_value(alloc, members, "categories", &metadata.categories)?;
    put_value(alloc, members, "collection", &metadata.collection)?;
    put_value(alloc, members, "cvss", &metadata.cvss)?;
    put_value(alloc, members, "informational", &metadata.informational)?;
    put_value(alloc, members, "keywords", &metadata.keywords)
}

/// Sets the keys of an advisory's references, source and address.
#[tactic(auto, unfolding(crate::specs::Trees::with_members))]
fn put_origin(alloc: Global, members: &mut Members, metadata: &Metadata) -> Result<(), AllocError>
    ensures { OnOk result (members_view members.new.entries
        ≡ with_members (members_view members.old.entries) (origin metadata.now)) }
{
    put_value(alloc, members, "references", &metadata.references)?;
    put_value(alloc, members, "source", &metadata.source)?;
    put_value(alloc, members, "url", &metadata.url)
}

/// Sets the keys of an advisory's texts, license and expectation of deletion.
#[tactic(auto, unfolding(crate::specs::Trees::with_members))]
fn put_terms(alloc: Global, members: &mut Members, metadata: &Metadata) -> Result<(), AllocError>
    ensures { OnOk result (members_view members.new.entries
        ≡ with_members (members_view members.old.entries) (terms metadata.now)) }
{
    put_value(alloc, members, "description", &metadata.description)?;
    put_tree(
        alloc,
        members,
        "expect-deleted",
        Value::from(metadata.expect_deleted),
    )?;
    put_value(alloc, members, "license", &metadata.license)?;
    put_value(alloc, members, "title", &metadata.title)?;
    put_value(alloc, members, "withdrawn", &metadata.withdrawn)
}

/// Builds the tree of an advisory's metadata.
#[tactic(auto, unfolding(crate::specs::Trees::with_members, crate::specs::Trees::metadata_entries, crate::specs::Trees::metadata_tree))]
pub(crate) fn metadata_tree(alloc: Global, metadata: &Metadata) -> Result<Value, AllocError>
    ensures { IfOk result (λ v. view v ≡ metadata_tree metadata.now) }
{
    let mut members = Members::new(alloc);
    put_subject(alloc, &mut members, metadata)?;
    put_kinds(alloc, &mut members, metadata)?;
    put_origin(alloc, &mut members, metadata)?;
    put_terms(alloc, &mut members, metadata)?;
    Ok(Value::from(members))
}

/// Builds the tree of a package.
#[tactic(auto, unfolding(crate::specs::Trees::with_members))]
pub(crate) fn package_tree(alloc: Global, package: &Package) -> Result<Value, AllocError>
    ensures { IfOk result (λ v. view v ≡ package_tree «package».now) }
{
    let mut members = Members::new(alloc);
    put_value(alloc, &mut members, "checksum", &package.checksum)?;
    put_value(alloc, &mut members, "name", &package.name)?;
    put_value(alloc, &mut members, "source", &package.source)?;
    let version = package.version.to_string(alloc)?;
    put_tree(alloc, &mut members, "version", Value::from(version))?;
    Ok(Value::from(members))
}
