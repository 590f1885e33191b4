//! Builds the JSON tree of stats.

ghost use Rattle.std.specs.Prelude.{◌≡◌, [], ◌∷◌, IfErr, IfOk, OnOk};
ghost use Rattle.serde_json.specs.View.{members_view, view};
ghost use Rattle.rustsec_values.specs.Failure.{IsMemory};
ghost use Rattle.rustsec_report.specs.Trees.{with_members};
ghost use Rattle.rustsec_stats.specs.StatsTree.{count_entries, counts_tree, stats_entries, stats_tree};

use crate::stats::{Count, Stats};
use rustsec_values::Result;
use serde_json::{Map, Value};
use std::alloc::{AllocError, Global};

/// The members of an object.
type Members = Map<String, Value>;

/// Sets a key to a tree.
#[tactic(auto, unfolding(rustsec_report::specs::Trees::with_members))]
fn put_tree(
    alloc: Global,
    members: &mut Members,
    key: &str,
    tree: Value,
) -> std::result::Result<(), AllocError>
    ensures { OnOk result (members_view members.new.entries
        ≡ with_members (members_view members.old.entries) ((key.now, view tree) ∷ [])) }
{
    serde_json::put(members, alloc, key, tree)
}

/// Sets the key of each row of a table.
#[tactic(auto, unfolding(rustsec_report::specs::Trees::with_members))]
fn put_counts(
    alloc: Global,
    members: &mut Members,
    counts: &[Count],
) -> std::result::Result<(), AllocError>
    ensures { OnOk result (members_view members.new.entries
        ≡ with_members (members_view members.old.entries) (count_entries counts.now)) }
{
    for row in counts {
        put_tree(alloc, members, row.name.as_str(), Value::from(row.count))?;
    }
    Ok(())
}

/// Builds the tree of a table.
#[tactic(auto, unfolding(crate::specs::StatsTree::counts_tree))]
fn counts_tree(alloc: Global, counts: &[Count]) -> std::result::Result<Value, AllocError>
    ensures { IfOk result (λ v. view v ≡ counts_tree counts.now) }
{
    let mut members = Members::new(alloc);
    put_counts(alloc, &mut members, counts)?;
    Ok(Value::from(members))
}

/// Sets a key to the tree of a table.
fn put_table(
    alloc: Global,
    members: &mut Members,
    key: &str,
    counts: &[Count],
) -> std::result::Result<(), AllocError>
    ensures { OnOk result (members_view members.new.entries
        ≡ with_members (members_view members.old.entries) ((key.now, counts_tree counts.now) ∷ [])) }
{
    let tree = counts_tree(alloc, counts)?;
    put_tree(alloc, members, key, tree)
}

/// Sets the keys of stats.
#[tactic(auto, unfolding(rustsec_report::specs::Trees::with_members))]
fn put_stats(
    alloc: Global,
    members: &mut Members,
    stats: &Stats,
) -> std::result::Result<(), AllocError>
    ensures { OnOk result (members_view members.new.entries
        ≡ with_members (members_view members.old.entries) (stats_entries stats.now)) }
{
    put_tree(alloc, members, "advisories", Value::from(stats.advisories))?;
    put_table(alloc, members, "categories", stats.categories.as_slice())?;
    put_table(alloc, members, "collections", stats.collections.as_slice())?;
    put_table(alloc, members, "kinds", stats.kinds.as_slice())?;
    put_table(alloc, members, "severities", stats.severities.as_slice())?;
    put_table(alloc, members, "withdrawals", stats.withdrawals.as_slice())?;
    put_table(alloc, members, "years", stats.years.as_slice())
}

/// Builds the tree of stats.
#[tactic(auto, unfolding(crate::specs::StatsTree::stats_tree))]
fn tree_of(alloc: Global, stats: &Stats) -> std::result::Result<Value, AllocError>
    ensures { IfOk result (λ v. view v ≡ stats_tree stats.now) }
{
    let mut members = Members::new(alloc);
    put_stats(alloc, &mut members, stats)?;
    Ok(Value::from(members))
}

/// Builds the JSON object of stats: the number of advisories, and for each table an object with the count of each row.
///
/// # Errors
///
/// `OutOfMemory` alone.
pub fn stats_tree(alloc: Global, stats: &Stats) -> Result<Value>
    ensures ok { IfOk result (λ v. view v ≡ stats_tree stats.now) }
    ensures err { IfErr result IsMemory }
{
    Ok(tree_of(alloc, stats)?)
}
