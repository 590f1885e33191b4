//! Builds and writes the log of a check.

ghost use Rattle.std.specs.Prelude.{◌≡◌, IfErr, IfOk, OnOk, map, string_bytes};
ghost use Rattle.serde_json.specs.View.{members_view, view};
ghost use Rattle.rustsec_values.specs.Failure.{IsMemory};
ghost use Rattle.rustsec_report.specs.Trees.{object_of, with_members};
ghost use Rattle.rustsec_json.specs.Lines.{tree_line};
ghost use Rattle.rustsec_sarif.specs.SarifTree.{driver_entries, log_entries, run_entries, run_tree, sarif_tree, tool_tree, yanked_of};

use crate::firsts::firsts;
use crate::object::{object_with, put_text};
use crate::results::results_tree;
use crate::rules::rule_trees;
use crate::said::File;
use rustsec_check::{Finding, Yanked};
use rustsec_check_output::Written;
use rustsec_json::tree_line;
use rustsec_report::{Members, put_tree};
use rustsec_toml::Place;
use rustsec_values::Result;
use serde_json::Value;
use std::alloc::{AllocError, Global};

/// The address of the schema of a log.
const SCHEMA: &str =
    "https://docs.oasis-open.org/sarif/sarif/v2.1.0/errata01/os/schemas/sarif-schema-2.1.0.json";

/// Returns the packages that are yanked, none if no index was asked.
fn yanked_of<'a, 'b>(written: &Written<'a, 'b>) -> &'a [Yanked<'b>]
    ensures { result.now ≡ yanked_of written.now }
{
    match written.yanked {
        Some(yanked) => yanked,
        None => &[],
    }
}

/// Builds the tree of the program, with its rules.
#[tactic(auto, unfolding(rustsec_report::specs::Trees::with_members))]
fn tool_tree(alloc: Global, rules: Vec<Value>) -> std::result::Result<Value, AllocError>
    ensures { IfOk result (λ v. view v ≡ tool_tree (map view rules.items)) }
{
    let mut members = Members::new(alloc);
    put_text(alloc, &mut members, "informationUri", "https://rustsec.org")?;
    put_text(alloc, &mut members, "name", "rustsec_audit")?;
    put_tree(alloc, &mut members, "rules", Value::from(rules))?;
    object_with(alloc, "driver", Value::from(members))
}

/// Sets the keys of a run.
#[tactic(auto, unfolding(rustsec_report::specs::Trees::with_members))]
fn put_run(
    alloc: Global,
    members: &mut Members,
    file: &File<'_>,
    written: &Written<'_, '_>,
) -> std::result::Result<(), AllocError>
    ensures { OnOk result (members_view members.new.entries
        ≡ with_members (members_view members.old.entries) (run_entries file.now written.now)) }
{
    let check = written.check;
    let findings = check.findings.as_slice();
    let yanked = yanked_of(written);
    let rules = firsts(alloc, findings)?;
    put_text(alloc, members, "columnKind", "unicodeCodePoints")?;
    let results = results_tree(alloc, file, rules.as_slice(), findings, yanked)?;
    put_tree(alloc, members, "results", results)?;
    let trees = rule_trees(alloc, rules.as_slice(), yanked)?;
    let tool = tool_tree(alloc, trees)?;
    put_tree(alloc, members, "tool", tool)
}

/// Builds the tree of a run.
#[tactic(auto, unfolding(crate::specs::SarifTree::run_tree))]
fn run_tree(
    alloc: Global,
    file: &File<'_>,
    written: &Written<'_, '_>,
) -> std::result::Result<Value, AllocError>
    ensures { IfOk result (λ v. view v ≡ run_tree file.now written.now) }
{
    let mut members = Members::new(alloc);
    put_run(alloc, &mut members, file, written)?;
    Ok(Value::from(members))
}

/// Sets the keys of a log with this run.
#[tactic(auto, unfolding(rustsec_report::specs::Trees::with_members))]
fn put_log(alloc: Global, members: &mut Members, run: Value) -> std::result::Result<(), AllocError>
    ensures { OnOk result (members_view members.new.entries
        ≡ with_members (members_view members.old.entries) (log_entries (view run))) }
{
    put_text(alloc, members, "$schema", SCHEMA)?;
    let mut runs = Vec::new(alloc);
    runs.push(run)?;
    put_tree(alloc, members, "runs", Value::from(runs))?;
    put_text(alloc, members, "version", "2.1.0")
}

/// Returns the log of a check of the lockfile at a path, whose text has its headers at these places.
///
/// # Errors
///
/// `OutOfMemory` alone.
#[tactic(auto, unfolding(crate::specs::SarifTree::sarif_tree))]
pub fn sarif_tree(
    alloc: Global,
    path: &str,
    places: &[Place],
    written: &Written<'_, '_>,
) -> Result<Value>
    ensures ok { IfOk result (λ v. view v ≡ sarif_tree path.now places.now written.now) }
    ensures err { IfErr result IsMemory }
{
    let file = File {
        path,
        places,
        count: written.lockfile.packages.len(),
    };
    let run = run_tree(alloc, &file, written)?;
    let mut members = Members::new(alloc);
    put_log(alloc, &mut members, run)?;
    Ok(Value::from(members))
}

/// Returns the log of a check of the lockfile at a path, on one line with a line feed at its end.
///
/// # Errors
///
/// `OutOfMemory` alone.
pub fn sarif_text(
    alloc: Global,
    path: &str,
    places: &[Place],
    written: &Written<'_, '_>,
) -> Result<String>
    ensures ok { IfOk result (λ t. string_bytes t ≡ tree_line (sarif_tree path.now places.now written.now)) }
    ensures err { IfErr result IsMemory }
{
    let tree = sarif_tree(alloc, path, places, written)?;
    let line = tree_line(alloc, &tree)?;
    Ok(line)
}
