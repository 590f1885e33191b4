//! Builds the trees of rules.

ghost use Rattle.std.specs.Prelude.{◌≡◌, ◌++◌, ◌∷◌, [], IfOk, OnOk, codes, map};
ghost use Rattle.serde_json.specs.View.{members_view, view};
ghost use Rattle.rustsec_json.specs.Trees.{list_tree, text_tree};
ghost use Rattle.rustsec_report.specs.Trees.{with_members};
ghost use Rattle.rustsec_sarif.specs.SarifTree.{address_entries, class_entries, message_tree, properties_entries, properties_tree, rule_entries, rule_tree, said_entries, severity_entries, yanked_entries, yanked_rule_tree, yanked_rules};

use crate::messages::{help_words, long_words, short_words};
use crate::object::{message_tree, put_text};
use crate::uri::address_uri;
use rustsec_check::{Finding, Yanked};
use rustsec_check_output::rating::{kind_text, score_text, tenths_of};
use rustsec_report::{Members, put_tree};
use rustsec_texts::Address;
use serde_json::Value;
use std::alloc::{AllocError, Global};

/// The ID of the rule of yanked packages.
pub(crate) const YANKED: &str = "yanked";

/// Sets a key to the tree of a text for people.
fn put_message(
    alloc: Global,
    members: &mut Members,
    key: &str,
    text: &str,
) -> Result<(), AllocError>
    ensures { OnOk result (members_view members.new.entries
        ≡ with_members (members_view members.old.entries) ((key.now, message_tree text.now) ∷ [])) }
{
    let tree = message_tree(alloc, text)?;
    put_tree(alloc, members, key, tree)
}

/// Builds the list of tags: `security`, and a kind.
fn tags_tree(alloc: Global, kind: &str) -> Result<Value, AllocError>
    ensures { IfOk result (λ v. view v ≡ list_tree text_tree (codes "security" ∷ kind.now ∷ [])) }
{
    let security = Value::try_from_str(alloc, "security")?;
    let kind = Value::try_from_str(alloc, kind)?;
    let mut trees = Vec::new(alloc);
    trees.push(security)?;
    trees.push(kind)?;
    Ok(Value::from(trees))
}

/// Sets the key of the severity, if there is a score.
#[tactic(auto, unfolding(rustsec_report::specs::Trees::with_members))]
fn put_severity(alloc: Global, members: &mut Members, tenths: Option<u8>) -> Result<(), AllocError>
    ensures { OnOk result (members_view members.new.entries
        ≡ with_members (members_view members.old.entries) (severity_entries tenths)) }
{
    let Some(tenths) = tenths else {
        return Ok(());
    };
    let score = score_text(alloc, tenths)?;
    put_tree(alloc, members, "security-severity", Value::from(score))
}

/// Builds the properties of a rule: its tags, and its severity, if any.
#[tactic(auto, unfolding(rustsec_report::specs::Trees::with_members))]
fn properties_tree(alloc: Global, kind: &str, tenths: Option<u8>) -> Result<Value, AllocError>
    ensures { IfOk result (λ v. view v ≡ properties_tree kind.now tenths) }
{
    let mut members = Members::new(alloc);
    let tags = tags_tree(alloc, kind)?;
    put_tree(alloc, &mut members, "tags", tags)?;
    put_severity(alloc, &mut members, tenths)?;
    Ok(Value::from(members))
}

/// Sets the key of an address, if any.
#[tactic(auto, unfolding(rustsec_report::specs::Trees::with_members))]
fn put_address(
    alloc: Global,
    members: &mut Members,
    address: &Option<Address>,
) -> Result<(), AllocError>
    ensures { OnOk result (members_view members.new.entries
        ≡ with_members (members_view members.old.entries) (address_entries address.now)) }
{
    let Some(address) = address else {
        return Ok(());
    };
    let uri = address_uri(alloc, address.as_str())?;
    put_tree(alloc, members, "helpUri", Value::from(uri))
}

/// Sets the keys of what the rule of a finding's advisory says at length.
#[tactic(auto, unfolding(rustsec_report::specs::Trees::with_members))]
fn put_said(alloc: Global, members: &mut Members, finding: &Finding<'_>) -> Result<(), AllocError>
    ensures { OnOk result (members_view members.new.entries
        ≡ with_members (members_view members.old.entries) (said_entries finding.now)) }
{
    let metadata = &finding.advisory.metadata;
    put_message(alloc, members, "fullDescription", long_words(metadata))?;
    let help = help_words(alloc, finding.advisory)?;
    put_message(alloc, members, "help", help.as_str())?;
    put_text(alloc, members, "id", metadata.id.as_str())
}

/// Sets the keys of what the rule of a finding's advisory is.
#[tactic(auto, unfolding(rustsec_report::specs::Trees::with_members))]
fn put_class(alloc: Global, members: &mut Members, finding: &Finding<'_>) -> Result<(), AllocError>
    ensures { OnOk result (members_view members.new.entries
        ≡ with_members (members_view members.old.entries) (class_entries finding.now)) }
{
    let metadata = &finding.advisory.metadata;
    let properties = properties_tree(alloc, kind_text(finding.kind), tenths_of(metadata))?;
    put_tree(alloc, members, "properties", properties)?;
    put_message(alloc, members, "shortDescription", short_words(metadata))?;
    put_address(alloc, members, &metadata.url)
}

/// Sets the keys of the rule of a finding's advisory.
#[tactic(auto, unfolding(rustsec_report::specs::Trees::with_members, crate::specs::SarifTree::rule_entries))]
fn put_rule(alloc: Global, members: &mut Members, finding: &Finding<'_>) -> Result<(), AllocError>
    ensures { OnOk result (members_view members.new.entries
        ≡ with_members (members_view members.old.entries) (rule_entries finding.now)) }
{
    put_said(alloc, members, finding)?;
    put_class(alloc, members, finding)
}

/// Builds the rule of a finding's advisory.
#[tactic(auto, unfolding(crate::specs::SarifTree::rule_tree))]
fn rule_tree(alloc: Global, finding: &Finding<'_>) -> Result<Value, AllocError>
    ensures { IfOk result (λ v. view v ≡ rule_tree finding.now) }
{
    let mut members = Members::new(alloc);
    put_rule(alloc, &mut members, finding)?;
    Ok(Value::from(members))
}

/// Sets the keys of the rule of yanked packages.
#[tactic(auto, unfolding(rustsec_report::specs::Trees::with_members))]
fn put_yanked_rule(alloc: Global, members: &mut Members) -> Result<(), AllocError>
    ensures { OnOk result (members_view members.new.entries
        ≡ with_members (members_view members.old.entries) yanked_entries) }
{
    let long = "The version of the package is yanked from its registry.";
    put_message(alloc, members, "fullDescription", long)?;
    put_message(
        alloc,
        members,
        "help",
        "Choose a version that is not yanked.",
    )?;
    put_text(alloc, members, "id", YANKED)?;
    let properties = properties_tree(alloc, YANKED, None)?;
    put_tree(alloc, members, "properties", properties)?;
    put_message(alloc, members, "shortDescription", "Yanked package")
}

/// Builds the rule of yanked packages.
#[tactic(auto, unfolding(crate::specs::SarifTree::yanked_rule_tree))]
fn yanked_rule_tree(alloc: Global) -> Result<Value, AllocError>
    ensures { IfOk result (λ v. view v ≡ yanked_rule_tree) }
{
    let mut members = Members::new(alloc);
    put_yanked_rule(alloc, &mut members)?;
    Ok(Value::from(members))
}

/// Builds the rules of the advisories of some findings.
fn finding_rules(alloc: Global, rules: &[&Finding<'_>]) -> Result<Vec<Value>, AllocError>
    ensures { IfOk result (λ v. map view v.items ≡ map rule_tree (map (λ f. f.now) rules.now)) }
{
    let mut trees = Vec::new(alloc);
    for rule in rules {
        trees.push(rule_tree(alloc, rule)?)?;
    }
    Ok(trees)
}

/// Builds the rules of the advisories of some findings, and that of yanked packages, if any.
pub(crate) fn rule_trees(
    alloc: Global,
    rules: &[&Finding<'_>],
    yanked: &[Yanked<'_>],
) -> Result<Vec<Value>, AllocError>
    ensures { IfOk result (λ v. map view v.items ≡ map rule_tree (map (λ f. f.now) rules.now) ++ yanked_rules yanked.now) }
{
    let mut trees = finding_rules(alloc, rules)?;
    if let [_, ..] = yanked {
        trees.push(yanked_rule_tree(alloc)?)?;
    }
    Ok(trees)
}
