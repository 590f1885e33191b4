//! Builds the JSON tree of an explanation.

ghost use Rattle.std.specs.Prelude.{◌≡◌, [], ◌∷◌, IfErr, IfOk, OnOk, map, option_map, slice_get};
ghost use Rattle.std.specs.Option.{option_copied};
ghost use Rattle.serde_json.specs.Data.{string};
ghost use Rattle.serde_json.specs.View.{members_view, view};
ghost use Rattle.rustsec_json.specs.Trees.{list_tree, optional_tree};
ghost use Rattle.rustsec_values.specs.Failure.{IsMemory};
ghost use Rattle.rustsec_versions.specs.requirement.RequirementText.{requirement_text};
ghost use Rattle.rustsec_versions.specs.Views.{comparators_of};
ghost use Rattle.rustsec_lock.specs.Source.{source_text};
ghost use Rattle.rustsec_report.specs.Trees.{object_of, with_members};
ghost use Rattle.rustsec_explain_output.specs.ExplainTree.{explain_tree, further_entries, package_entries, package_tree, pair_entries, pair_tree, reason_entries, reason_name, reason_tree, requirement_tree};
ghost use Rattle.rustsec_explain_output.specs.ReasonWords.{reason_words};

use crate::entry_tree::tree_of_entry;
use crate::reason_text::reason_words;
use crate::rules::{Rules, entry_of};
use rustsec_explain::{Explained, Reason};
use rustsec_json::ToTree;
use rustsec_lock::SourceId;
use rustsec_lock::package::Package;
use rustsec_report::{Members, put_tree};
use rustsec_values::Result;
use rustsec_versions::requirement_text;
use semver::VersionReq;
use serde_json::Value;
use std::alloc::{AllocError, Global};

/// Returns the name of a reason in JSON: the words of its variant in lower case, joined by hyphens.
pub fn reason_name(reason: &Reason) -> &'static str
    ensures { result.now ≡ reason_name reason.now }
{
    match reason {
        Reason::WithoutSource => "without-source",
        Reason::NotAudited => "not-audited",
        Reason::OtherCollection => "other-collection",
        Reason::OtherPackage => "other-package",
        Reason::HeldByPatched(_) => "held-by-patched",
        Reason::HeldByUnaffected(_) => "held-by-unaffected",
        Reason::OtherSource => "other-source",
        Reason::BelowThreshold => "below-threshold",
        Reason::OtherArchitecture => "other-architecture",
        Reason::OtherSystem => "other-system",
        Reason::Withdrawn => "withdrawn",
        Reason::KindNotWanted => "kind-not-wanted",
        Reason::KindWithoutWarnings => "kind-without-warnings",
        Reason::Ignored => "ignored",
    }
}

/// Returns the requirement at a place of a list, if any.
fn requirement_at(requirements: &[VersionReq], place: usize) -> Option<&VersionReq>
    ensures { option_copied result ≡ slice_get requirements.now place }
{
    requirements.get(place)
}

/// Builds the tree of a requirement: its text, or null if it is missing.
fn requirement_tree(
    alloc: Global,
    requirement: Option<&VersionReq>,
) -> std::result::Result<Value, AllocError>
    ensures { IfOk result (λ v. view v ≡ requirement_tree (option_map comparators_of (option_copied requirement.entry))) }
{
    let Some(requirement) = requirement else {
        return Ok(Value::Null);
    };
    match requirement_text(alloc, requirement) {
        Ok(text) => Ok(Value::from(text)),
        Err(_) => Err(AllocError),
    }
}

/// Builds the tree of the requirement at a place of a list.
fn tree_at(
    alloc: Global,
    requirements: &[VersionReq],
    place: usize,
) -> std::result::Result<Value, AllocError>
    ensures { IfOk result (λ v. view v ≡ requirement_tree (slice_get (map comparators_of requirements.now) place)) }
{
    requirement_tree(alloc, requirement_at(requirements, place))
}

/// Sets the key of the requirement that holds the version, or of the entry that ignores the advisory, for the reasons
/// that have one.
#[tactic(auto, unfolding(rustsec_report::specs::Trees::with_members))]
fn put_further(
    alloc: Global,
    members: &mut Members,
    rules: &Rules<'_>,
    pair: &Explained<'_>,
    reason: &Reason,
) -> std::result::Result<(), AllocError>
    ensures { OnOk result (members_view members.new.entries
        ≡ with_members (members_view members.old.entries) (further_entries rules.now pair.now reason.now)) }
{
    let versions = &pair.advisory.versions;
    match *reason {
        Reason::HeldByPatched(place) => {
            let tree = tree_at(alloc, versions.patched(), place)?;
            put_tree(alloc, members, "requirement", tree)
        }
        Reason::HeldByUnaffected(place) => {
            let tree = tree_at(alloc, versions.unaffected(), place)?;
            put_tree(alloc, members, "requirement", tree)
        }
        Reason::Ignored => {
            let tree = tree_of_entry(alloc, entry_of(rules, pair))?;
            put_tree(alloc, members, "entry", tree)
        }
        _ => Ok(()),
    }
}

/// Builds the tree of the words of a reason.
fn words_tree(
    alloc: Global,
    rules: &Rules<'_>,
    pair: &Explained<'_>,
    reason: &Reason,
) -> std::result::Result<Value, AllocError>
    ensures { IfOk result (λ v. view v ≡ string (reason_words rules.now pair.now reason.now)) }
{
    match reason_words(alloc, rules, pair, reason) {
        Ok(text) => Ok(Value::from(text)),
        Err(_) => Err(AllocError),
    }
}

/// Sets the keys of a reason of a pair.
#[tactic(auto, unfolding(rustsec_report::specs::Trees::with_members))]
fn put_reason(
    alloc: Global,
    members: &mut Members,
    rules: &Rules<'_>,
    pair: &Explained<'_>,
    reason: &Reason,
) -> std::result::Result<(), AllocError>
    ensures { OnOk result (members_view members.new.entries
        ≡ with_members (members_view members.old.entries) (reason_entries rules.now pair.now reason.now)) }
{
    let name = Value::try_from_str(alloc, reason_name(reason))?;
    put_tree(alloc, members, "reason", name)?;
    let words = words_tree(alloc, rules, pair, reason)?;
    put_tree(alloc, members, "text", words)?;
    put_further(alloc, members, rules, pair, reason)
}

/// Builds the tree of a reason of a pair.
#[tactic(auto, unfolding(crate::specs::ExplainTree::reason_tree))]
fn reason_tree(
    alloc: Global,
    rules: &Rules<'_>,
    pair: &Explained<'_>,
    reason: &Reason,
) -> std::result::Result<Value, AllocError>
    ensures { IfOk result (λ v. view v ≡ reason_tree rules.now pair.now reason.now) }
{
    let mut members = Members::new(alloc);
    put_reason(alloc, &mut members, rules, pair, reason)?;
    Ok(Value::from(members))
}

/// Builds the tree of the reasons of a pair.
fn reasons_tree(
    alloc: Global,
    rules: &Rules<'_>,
    pair: &Explained<'_>,
) -> std::result::Result<Value, AllocError>
    ensures { IfOk result (λ v. view v ≡ list_tree (reason_tree rules.now pair.now) pair.now.reasons) }
{
    let mut trees = Vec::new(alloc);
    for reason in pair.reasons.as_slice() {
        trees.push(reason_tree(alloc, rules, pair, reason)?)?;
    }
    Ok(Value::from(trees))
}

/// Builds the tree of a source: its text, or null if it is missing.
fn source_tree(alloc: Global, source: &Option<SourceId>) -> std::result::Result<Value, AllocError>
    ensures { IfOk result (λ v. view v ≡ optional_tree (λ x. string (source_text x)) source.now) }
{
    match source {
        Some(source) => source.to_tree(alloc),
        None => Ok(Value::Null),
    }
}

/// Sets the keys of a package.
#[tactic(auto, unfolding(rustsec_report::specs::Trees::with_members))]
fn put_package(
    alloc: Global,
    members: &mut Members,
    package: &Package,
) -> std::result::Result<(), AllocError>
    ensures { OnOk result (members_view members.new.entries
        ≡ with_members (members_view members.old.entries) (package_entries «package».now)) }
{
    let name = package.name.to_tree(alloc)?;
    put_tree(alloc, members, "name", name)?;
    let source = source_tree(alloc, &package.source)?;
    put_tree(alloc, members, "source", source)?;
    let version = package.version.to_string(alloc)?;
    put_tree(alloc, members, "version", Value::from(version))
}

/// Builds the tree of a package.
#[tactic(auto, unfolding(crate::specs::ExplainTree::package_tree))]
fn package_tree(alloc: Global, package: &Package) -> std::result::Result<Value, AllocError>
    ensures { IfOk result (λ v. view v ≡ package_tree «package».now) }
{
    let mut members = Members::new(alloc);
    put_package(alloc, &mut members, package)?;
    Ok(Value::from(members))
}

/// Sets the keys of a pair.
#[tactic(auto, unfolding(rustsec_report::specs::Trees::with_members))]
fn put_pair(
    alloc: Global,
    members: &mut Members,
    rules: &Rules<'_>,
    pair: &Explained<'_>,
) -> std::result::Result<(), AllocError>
    ensures { OnOk result (members_view members.new.entries
        ≡ with_members (members_view members.old.entries) (pair_entries rules.now pair.now)) }
{
    let advisory = pair.advisory;
    let id = advisory.metadata.id.to_tree(alloc)?;
    put_tree(alloc, members, "advisory", id)?;
    let finding = Value::from(pair.reasons.is_empty());
    put_tree(alloc, members, "finding", finding)?;
    let package = package_tree(alloc, pair.package)?;
    put_tree(alloc, members, "package", package)?;
    let reasons = reasons_tree(alloc, rules, pair)?;
    put_tree(alloc, members, "reasons", reasons)
}

/// Builds the JSON object of one pair, as `explain_tree` lists it.
///
/// # Errors
///
/// Out of memory.
#[tactic(auto, unfolding(crate::specs::ExplainTree::pair_tree))]
pub fn pair_tree(
    alloc: Global,
    rules: &Rules<'_>,
    pair: &Explained<'_>,
) -> std::result::Result<Value, AllocError>
    ensures { IfOk result (λ v. view v ≡ pair_tree rules.now pair.now) }
{
    let mut members = Members::new(alloc);
    put_pair(alloc, &mut members, rules, pair)?;
    Ok(Value::from(members))
}

/// Builds the tree of the pairs.
fn list_tree(
    alloc: Global,
    rules: &Rules<'_>,
    pairs: &[Explained<'_>],
) -> std::result::Result<Value, AllocError>
    ensures { IfOk result (λ v. view v ≡ explain_tree rules.now pairs.now) }
{
    let mut trees = Vec::new(alloc);
    for pair in pairs {
        trees.push(pair_tree(alloc, rules, pair)?)?;
    }
    Ok(Value::from(trees))
}

/// Builds the JSON list of an explanation: for each pair, in order, an object with the ID of its advisory, whether it
/// is a finding, its package and its reasons. A pair is a finding if it has no reason. A reason is an object with its
/// name and its words; if a requirement holds the version, it has the requirement's text too; if the advisory is ignored,
/// the entry of the policy that has its ID, with its reason and its last day, or null if the command line ignores it. The
/// settings are those of the explanation.
///
/// # Errors
///
/// `OutOfMemory` alone.
pub fn explain_tree(alloc: Global, rules: &Rules<'_>, pairs: &[Explained<'_>]) -> Result<Value>
    ensures ok { IfOk result (λ v. view v ≡ explain_tree rules.now pairs.now) }
    ensures err { IfErr result IsMemory }
{
    Ok(list_tree(alloc, rules, pairs)?)
}
