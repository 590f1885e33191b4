//! Builds the trees of results.

ghost use Rattle.std.specs.Prelude.{◌≡◌, ◌++◌, ◌∷◌, [], IfOk, OnOk, length, map};
ghost use Rattle.serde_json.specs.View.{members_view, view};
ghost use Rattle.rustsec_json.specs.Trees.{list_tree};
ghost use Rattle.rustsec_report.specs.Trees.{object_of, with_members};
ghost use Rattle.rustsec_sarif.specs.SarifTree.{finding_said, fingerprint_entries, known_entries, location_tree, package_place, physical_entries, region_entries, result_entries, result_tree, shown_entries, yanked_said};

use crate::firsts::rule_index;
use crate::messages::{finding_words, fingerprint, level, yanked_words};
use crate::object::{message_tree, object_with, put_text};
use crate::rules::YANKED;
use crate::said::{File, Said};
use crate::uri::path_uri;
use rustsec_check::{Finding, Yanked};
use rustsec_lock::package::Package;
use rustsec_report::{Members, put_tree};
use rustsec_toml::Place;
use serde_json::Value;
use std::alloc::{AllocError, Global};

/// Returns the place of the package at an index, or the text's beginning if the text has another number of headers than
/// there are packages.
fn package_place(places: &[Place], count: usize, index: usize) -> Place
    ensures { result ≡ package_place places.now count index }
{
    let beginning = Place { line: 1, column: 1 };
    if places.len() != count {
        return beginning;
    }
    match places.get(index) {
        Some(place) => *place,
        None => beginning,
    }
}

/// Builds the tree of a region that begins at a place.
#[tactic(auto, unfolding(rustsec_report::specs::Trees::with_members))]
fn region_tree(alloc: Global, place: Place) -> Result<Value, AllocError>
    ensures { IfOk result (λ v. view v ≡ object_of (region_entries place)) }
{
    let mut members = Members::new(alloc);
    put_tree(
        alloc,
        &mut members,
        "startColumn",
        Value::from(place.column),
    )?;
    put_tree(alloc, &mut members, "startLine", Value::from(place.line))?;
    Ok(Value::from(members))
}

/// Builds the tree of a place in a file.
#[tactic(auto, unfolding(rustsec_report::specs::Trees::with_members))]
fn physical_tree(alloc: Global, path: &str, place: Place) -> Result<Value, AllocError>
    ensures { IfOk result (λ v. view v ≡ object_of (physical_entries path.now place)) }
{
    let uri = path_uri(alloc, path)?;
    let artifact = object_with(alloc, "uri", Value::from(uri))?;
    let region = region_tree(alloc, place)?;
    let mut members = Members::new(alloc);
    put_tree(alloc, &mut members, "artifactLocation", artifact)?;
    put_tree(alloc, &mut members, "region", region)?;
    Ok(Value::from(members))
}

/// Builds the list of one location: a place in a file.
#[tactic(auto, unfolding(rustsec_report::specs::Trees::with_members))]
fn locations_tree(alloc: Global, path: &str, place: Place) -> Result<Value, AllocError>
    ensures { IfOk result (λ v. view v ≡ list_tree (location_tree path.now) (place ∷ [])) }
{
    let physical = physical_tree(alloc, path, place)?;
    let location = object_with(alloc, "physicalLocation", physical)?;
    let mut trees = Vec::new(alloc);
    trees.push(location)?;
    Ok(Value::from(trees))
}

/// Builds the tree of the key by which a result is known again.
#[tactic(auto, unfolding(rustsec_report::specs::Trees::with_members))]
fn fingerprint_tree(alloc: Global, rule: &str, package: &Package) -> Result<Value, AllocError>
    ensures { IfOk result (λ v. view v ≡ object_of (fingerprint_entries rule.now «package».now)) }
{
    let text = fingerprint(alloc, rule, package)?;
    let tree = object_with(alloc, "primaryLocationLineHash", Value::from(text))?;
    Ok(tree)
}

/// Sets the keys of what a result says and where.
#[tactic(auto, unfolding(rustsec_report::specs::Trees::with_members))]
fn put_shown(
    alloc: Global,
    members: &mut Members,
    file: &File<'_>,
    said: &Said<'_>,
) -> Result<(), AllocError>
    ensures { OnOk result (members_view members.new.entries
        ≡ with_members (members_view members.old.entries) (shown_entries file.now said.now)) }
{
    put_text(alloc, members, "level", said.level)?;
    let place = package_place(file.places, file.count, said.place);
    let locations = locations_tree(alloc, file.path, place)?;
    put_tree(alloc, members, "locations", locations)?;
    let message = message_tree(alloc, said.message)?;
    put_tree(alloc, members, "message", message)
}

/// Sets the keys of what a result is known by.
#[tactic(auto, unfolding(rustsec_report::specs::Trees::with_members))]
fn put_known(alloc: Global, members: &mut Members, said: &Said<'_>) -> Result<(), AllocError>
    ensures { OnOk result (members_view members.new.entries
        ≡ with_members (members_view members.old.entries) (known_entries said.now)) }
{
    let fingerprint = fingerprint_tree(alloc, said.rule, said.package)?;
    put_tree(alloc, members, "partialFingerprints", fingerprint)?;
    put_text(alloc, members, "ruleId", said.rule)?;
    put_tree(alloc, members, "ruleIndex", Value::from(said.index))
}

/// Sets the keys of a result.
#[tactic(auto, unfolding(rustsec_report::specs::Trees::with_members, crate::specs::SarifTree::result_entries))]
fn put_result(
    alloc: Global,
    members: &mut Members,
    file: &File<'_>,
    said: &Said<'_>,
) -> Result<(), AllocError>
    ensures { OnOk result (members_view members.new.entries
        ≡ with_members (members_view members.old.entries) (result_entries file.now said.now)) }
{
    put_shown(alloc, members, file, said)?;
    put_known(alloc, members, said)
}

/// Builds the tree of a result.
#[tactic(auto, unfolding(crate::specs::SarifTree::result_tree))]
fn result_tree(alloc: Global, file: &File<'_>, said: &Said<'_>) -> Result<Value, AllocError>
    ensures { IfOk result (λ v. view v ≡ result_tree file.now said.now) }
{
    let mut members = Members::new(alloc);
    put_result(alloc, &mut members, file, said)?;
    Ok(Value::from(members))
}

/// Builds the result of a finding, by the findings that have the rules.
#[tactic(auto, using(crate::proofs::OnceEach::index_same))]
fn finding_tree(
    alloc: Global,
    file: &File<'_>,
    rules: &[&Finding<'_>],
    finding: &Finding<'_>,
) -> Result<Value, AllocError>
    ensures { IfOk result (λ v. view v ≡ result_tree file.now (finding_said (map (λ f. f.now) rules.now) finding.now)) }
{
    let message = finding_words(alloc, finding)?;
    let said = Said {
        rule: finding.advisory.metadata.id.as_str(),
        index: rule_index(rules, finding),
        level: level(finding.is_denied, finding.is_old),
        message: message.as_str(),
        package: finding.package,
        place: finding.place,
    };
    result_tree(alloc, file, &said)
}

/// Builds the result of a yanked package, whose rule has this index.
fn yanked_tree(
    alloc: Global,
    file: &File<'_>,
    index: usize,
    yanked: &Yanked<'_>,
) -> Result<Value, AllocError>
    ensures { IfOk result (λ v. view v ≡ result_tree file.now (yanked_said index yanked.now)) }
{
    let message = yanked_words(alloc, yanked)?;
    let said = Said {
        rule: YANKED,
        index,
        level: level(yanked.is_denied, yanked.is_old),
        message: message.as_str(),
        package: yanked.package,
        place: yanked.place,
    };
    result_tree(alloc, file, &said)
}

/// Appends the results of findings.
fn push_findings(
    alloc: Global,
    trees: &mut Vec<Value>,
    file: &File<'_>,
    rules: &[&Finding<'_>],
    findings: &[Finding<'_>],
) -> Result<(), AllocError>
    ensures { OnOk result (map view trees.new.items ≡ map view trees.old.items
        ++ map (result_tree file.now) (map (finding_said (map (λ f. f.now) rules.now)) findings.now)) }
{
    for finding in findings {
        trees.push(finding_tree(alloc, file, rules, finding)?)?;
    }
    Ok(())
}

/// Appends the results of yanked packages, whose rule has this index.
fn push_yanked(
    alloc: Global,
    trees: &mut Vec<Value>,
    file: &File<'_>,
    index: usize,
    yanked: &[Yanked<'_>],
) -> Result<(), AllocError>
    ensures { OnOk result (map view trees.new.items ≡ map view trees.old.items
        ++ map (result_tree file.now) (map (yanked_said index) yanked.now)) }
{
    for package in yanked {
        trees.push(yanked_tree(alloc, file, index, package)?)?;
    }
    Ok(())
}

/// Builds the results of findings, and those of yanked packages.
#[tactic(auto, using(crate::proofs::OnceEach::count_same))]
pub(crate) fn results_tree(
    alloc: Global,
    file: &File<'_>,
    rules: &[&Finding<'_>],
    findings: &[Finding<'_>],
    yanked: &[Yanked<'_>],
) -> Result<Value, AllocError>
    ensures { IfOk result (λ v. view v ≡ list_tree (result_tree file.now)
        (map (finding_said (map (λ f. f.now) rules.now)) findings.now ++ map (yanked_said (length (map (λ f. f.now) rules.now))) yanked.now)) }
{
    let mut trees = Vec::new(alloc);
    push_findings(alloc, &mut trees, file, rules, findings)?;
    push_yanked(alloc, &mut trees, file, rules.len(), yanked)?;
    Ok(Value::from(trees))
}
