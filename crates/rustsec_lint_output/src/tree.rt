//! Builds the JSON tree of what is wrong in a database.

ghost use Rattle.std.specs.Prelude.{◌≡◌, ◌++◌, ◌∷◌, [], IfOk, OnOk, filter, map};
ghost use Rattle.serde_json.specs.View.{members_view, view};
ghost use Rattle.rustsec_json.specs.Trees.{list_tree};
ghost use Rattle.rustsec_report.specs.Trees.{with_members};
ghost use Rattle.rustsec_lint_output.specs.LintTree.{file_entries, file_tree, is_listed, lint_entries, lint_tree, remark_entries, remark_tree};

use rustsec_json::ToTree;
use rustsec_lint_database::{Counts, Entry, Remark};
use serde_json::{Map, Value, put};
use std::alloc::{AllocError, Global};

/// The members of an object.
type Members = Map<String, Value>;

/// Sets the keys of a remark.
#[tactic(auto, unfolding(rustsec_report::specs::Trees::with_members))]
fn put_remark(
    alloc: Global,
    members: &mut Members,
    upstream: bool,
    remark: &Remark,
) -> Result<(), AllocError>
    ensures { OnOk result (members_view members.new.entries
        ≡ with_members (members_view members.old.entries) (remark_entries upstream remark.now)) }
{
    let fault = Value::from(remark.kind.is_fault(upstream));
    put(members, alloc, "fault", fault)?;
    let kind = Value::try_from_str(alloc, remark.kind.name())?;
    put(members, alloc, "kind", kind)?;
    let text = remark.text.to_tree(alloc)?;
    put(members, alloc, "text", text)
}

/// Builds the tree of a remark.
#[tactic(auto, unfolding(crate::specs::LintTree::remark_tree))]
fn remark_tree(alloc: Global, upstream: bool, remark: &Remark) -> Result<Value, AllocError>
    ensures { IfOk result (λ v. view v ≡ remark_tree upstream remark.now) }
{
    let mut members = Members::new(alloc);
    put_remark(alloc, &mut members, upstream, remark)?;
    Ok(Value::from(members))
}

/// Builds the tree of some remarks.
fn remarks_tree(alloc: Global, upstream: bool, remarks: &[Remark]) -> Result<Value, AllocError>
    ensures { IfOk result (λ v. view v ≡ list_tree (remark_tree upstream) remarks.now) }
{
    let mut trees = Vec::new(alloc);
    for remark in remarks {
        trees.push(remark_tree(alloc, upstream, remark)?)?;
    }
    Ok(Value::from(trees))
}

/// Sets the keys of a file.
#[tactic(auto, unfolding(rustsec_report::specs::Trees::with_members))]
fn put_file(
    alloc: Global,
    members: &mut Members,
    upstream: bool,
    entry: &Entry,
) -> Result<(), AllocError>
    ensures { OnOk result (members_view members.new.entries
        ≡ with_members (members_view members.old.entries) (file_entries upstream entry.now)) }
{
    let first = entry.first.to_tree(alloc)?;
    put(members, alloc, "first", first)?;
    let path = entry.file.path.to_tree(alloc)?;
    put(members, alloc, "path", path)?;
    let remarks = remarks_tree(alloc, upstream, entry.file.remarks.as_slice())?;
    put(members, alloc, "remarks", remarks)
}

/// Builds the tree of a file.
#[tactic(auto, unfolding(crate::specs::LintTree::file_tree))]
fn file_tree(alloc: Global, upstream: bool, entry: &Entry) -> Result<Value, AllocError>
    ensures { IfOk result (λ v. view v ≡ file_tree upstream entry.now) }
{
    let mut members = Members::new(alloc);
    put_file(alloc, &mut members, upstream, entry)?;
    Ok(Value::from(members))
}

/// Returns whether a file has the ID of an earlier file, or a remark.
fn is_listed(entry: &Entry) -> bool
    ensures { result ≡ is_listed entry.now }
{
    entry.first.is_some() || !entry.file.remarks.is_empty()
}

/// Appends the tree of a file, if it is listed.
#[tactic(auto, using(rustsec_files::proofs::ListFailures::filter_kept, rustsec_files::proofs::ListFailures::filter_left))]
fn push_file(
    alloc: Global,
    trees: &mut Vec<Value>,
    upstream: bool,
    entry: &Entry,
) -> Result<(), AllocError>
    ensures { OnOk result (map view trees.new.items
        ≡ map view trees.old.items ++ map (file_tree upstream) (filter is_listed (entry.now ∷ []))) }
{
    if is_listed(entry) {
        trees.push(file_tree(alloc, upstream, entry)?)?;
    }
    Ok(())
}

/// Builds the tree of the files that are listed.
fn files_tree(alloc: Global, upstream: bool, entries: &[Entry]) -> Result<Value, AllocError>
    ensures { IfOk result (λ v. view v ≡ list_tree (file_tree upstream) (filter is_listed entries.now)) }
{
    let mut trees = Vec::new(alloc);
    for entry in entries {
        push_file(alloc, &mut trees, upstream, entry)?;
    }
    Ok(Value::from(trees))
}

/// Sets the keys of what is wrong in a database.
#[tactic(auto, unfolding(rustsec_report::specs::Trees::with_members))]
fn put_lint(
    alloc: Global,
    members: &mut Members,
    upstream: bool,
    counts: Counts,
    entries: &[Entry],
) -> Result<(), AllocError>
    ensures { OnOk result (members_view members.new.entries
        ≡ with_members (members_view members.old.entries) (lint_entries upstream counts entries.now)) }
{
    let files = files_tree(alloc, upstream, entries)?;
    put(members, alloc, "entries", files)?;
    put(members, alloc, "faults", Value::from(counts.faults))?;
    put(members, alloc, "files", Value::from(counts.files))?;
    put(members, alloc, "notes", Value::from(counts.notes))
}

/// Builds the JSON object of what is wrong in a database: the numbers of files, faults and notes, and for each file that
/// has a remark or the ID of an earlier file, in order, an object with its path, its remarks, and the path of the first
/// file with its ID or null. A remark is an object with its kind, whether it is a fault, and its words. `upstream` says
/// whether what the Rust crate refuses is a fault.
///
/// # Errors
///
/// Out of memory.
#[tactic(auto, unfolding(crate::specs::LintTree::lint_tree))]
pub fn lint_tree(
    alloc: Global,
    upstream: bool,
    counts: Counts,
    entries: &[Entry],
) -> Result<Value, AllocError>
    ensures { IfOk result (λ v. view v ≡ lint_tree upstream counts entries.now) }
{
    let mut members = Members::new(alloc);
    put_lint(alloc, &mut members, upstream, counts, entries)?;
    Ok(Value::from(members))
}
