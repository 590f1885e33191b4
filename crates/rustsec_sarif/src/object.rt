//! Builds objects of JSON trees, key by key.

ghost use Rattle.std.specs.Prelude.{◌≡◌, [], ◌∷◌, IfOk, OnOk};
ghost use Rattle.serde_json.specs.Data.{string};
ghost use Rattle.serde_json.specs.View.{members_view, view};
ghost use Rattle.rustsec_report.specs.Trees.{object_of, with_members};
ghost use Rattle.rustsec_sarif.specs.SarifTree.{message_tree};

use rustsec_report::{Members, put_tree};
use serde_json::Value;
use std::alloc::{AllocError, Global};

/// Sets a key to a text.
pub(crate) fn put_text(
    alloc: Global,
    members: &mut Members,
    key: &str,
    text: &str,
) -> Result<(), AllocError>
    ensures { OnOk result (members_view members.new.entries
        ≡ with_members (members_view members.old.entries) ((key.now, string text.now) ∷ [])) }
{
    let tree = Value::try_from_str(alloc, text)?;
    put_tree(alloc, members, key, tree)
}

/// Builds the object that has one key alone.
pub(crate) fn object_with(alloc: Global, key: &str, tree: Value) -> Result<Value, AllocError>
    ensures { IfOk result (λ v. view v ≡ object_of ((key.now, view tree) ∷ [])) }
{
    let mut members = Members::new(alloc);
    put_tree(alloc, &mut members, key, tree)?;
    Ok(Value::from(members))
}

/// Builds the tree of a text for people.
pub(crate) fn message_tree(alloc: Global, text: &str) -> Result<Value, AllocError>
    ensures { IfOk result (λ v. view v ≡ message_tree text.now) }
{
    let tree = Value::try_from_str(alloc, text)?;
    object_with(alloc, "text", tree)
}
