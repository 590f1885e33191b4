//! Builds the JSON tree of an entry of a policy.

ghost use Rattle.std.specs.Prelude.{◌≡◌, IfOk, OnOk};
ghost use Rattle.std.specs.Option.{option_copied};
ghost use Rattle.serde_json.specs.View.{members_view, view};
ghost use Rattle.rustsec_json.specs.Trees.{optional_tree, text_tree};
ghost use Rattle.rustsec_report.specs.Trees.{with_members};
ghost use Rattle.rustsec_explain_output.specs.ExplainTree.{entry_entries, entry_tree};

use rustsec_json::ToTree;
use rustsec_policy::Ignored;
use rustsec_report::{Members, put_tree};
use serde_json::Value;
use std::alloc::{AllocError, Global};

/// Builds the tree of the reason of an entry, null without a reason.
fn note_tree(alloc: Global, entry: &Ignored) -> Result<Value, AllocError>
    ensures { IfOk result (λ v. view v ≡ optional_tree text_tree entry.now.reason) }
{
    match &entry.reason {
        Some(note) => Value::try_from_str(alloc, note.as_str()),
        None => Ok(Value::Null),
    }
}

/// Builds the tree of the last day of an entry, null without a last day.
fn until_tree(alloc: Global, entry: &Ignored) -> Result<Value, AllocError>
    ensures { IfOk result (λ v. view v ≡ optional_tree text_tree entry.now.until) }
{
    match &entry.until {
        Some(until) => Value::try_from_str(alloc, until.as_str()),
        None => Ok(Value::Null),
    }
}

/// Sets the keys of an entry.
#[tactic(auto, unfolding(rustsec_report::specs::Trees::with_members))]
fn put_entry(alloc: Global, members: &mut Members, entry: &Ignored) -> Result<(), AllocError>
    ensures { OnOk result (members_view members.new.entries
        ≡ with_members (members_view members.old.entries) (entry_entries entry.now)) }
{
    let id = entry.id.to_tree(alloc)?;
    put_tree(alloc, members, "id", id)?;
    let note = note_tree(alloc, entry)?;
    put_tree(alloc, members, "reason", note)?;
    let until = until_tree(alloc, entry)?;
    put_tree(alloc, members, "until", until)
}

/// Builds the tree of an entry.
#[tactic(auto, unfolding(crate::specs::ExplainTree::entry_tree))]
fn entry_tree(alloc: Global, entry: &Ignored) -> Result<Value, AllocError>
    ensures { IfOk result (λ v. view v ≡ entry_tree entry.now) }
{
    let mut members = Members::new(alloc);
    put_entry(alloc, &mut members, entry)?;
    Ok(Value::from(members))
}

/// Builds the tree of an entry, or null if it is missing.
pub(crate) fn tree_of_entry(alloc: Global, entry: Option<&Ignored>) -> Result<Value, AllocError>
    ensures { IfOk result (λ v. view v ≡ optional_tree entry_tree (option_copied entry.entry)) }
{
    match entry {
        Some(entry) => entry_tree(alloc, entry),
        None => Ok(Value::Null),
    }
}
