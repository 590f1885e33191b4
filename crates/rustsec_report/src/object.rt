//! Builds objects of JSON trees, key by key.

ghost use Rattle.std.specs.Prelude.{◌≡◌, [], ◌∷◌, IfOk, OnOk, map, string_bytes};
ghost use Rattle.serde_json.specs.Data.{string};
ghost use Rattle.serde_json.specs.View.{members_view, view};
ghost use Rattle.rustsec_json.specs.Trees.{list_tree};
ghost use Rattle.rustsec_versions.specs.requirement.RequirementText.{requirement_text};
ghost use Rattle.rustsec_versions.specs.Views.{comparators_of};
ghost use Rattle.rustsec_report.specs.Trees.{requirements_tree, with_members};

use rustsec_json::ToTree;
use rustsec_versions::requirement_text;
use semver::VersionReq;
use serde_json::{Map, Value};
use std::alloc::{AllocError, Global};

/// The members of an object.
pub type Members = Map<String, Value>;

/// Sets a key to a tree.
///
/// # Errors
///
/// Out of memory.
#[tactic(auto, unfolding(crate::specs::Trees::with_members))]
pub fn put_tree(
    alloc: Global,
    members: &mut Members,
    key: &str,
    tree: Value,
) -> Result<(), AllocError>
    ensures { OnOk result (members_view members.new.entries
        ≡ with_members (members_view members.old.entries) ((key.now, view tree) ∷ [])) }
{
    serde_json::put(members, alloc, key, tree)
}

/// Sets a key to the tree of a value.
pub(crate) fn put_value<T: ToTree>(
    alloc: Global,
    members: &mut Members,
    key: &str,
    value: &T,
) -> Result<(), AllocError>
    ensures { OnOk result (members_view members.new.entries
        ≡ with_members (members_view members.old.entries) ((key.now, T.tree value.now) ∷ [])) }
{
    let tree = value.to_tree(alloc)?;
    put_tree(alloc, members, key, tree)
}

/// Builds the tree of a requirement: its text.
fn requirement_tree(alloc: Global, req: &VersionReq) -> Result<Value, AllocError>
    ensures { IfOk result (λ v. view v ≡ string (requirement_text (comparators_of req.now))) }
{
    match requirement_text(alloc, req) {
        Ok(text) => Ok(Value::from(text)),
        Err(_) => Err(AllocError),
    }
}

/// Builds the tree of requirements: a list of their texts.
pub(crate) fn requirements_tree(alloc: Global, reqs: &[VersionReq]) -> Result<Value, AllocError>
    ensures { IfOk result (λ v. view v ≡ requirements_tree (map comparators_of reqs.now)) }
{
    let mut trees = Vec::new(alloc);
    for req in reqs {
        trees.push(requirement_tree(alloc, req)?)?;
    }
    Ok(Value::from(trees))
}
