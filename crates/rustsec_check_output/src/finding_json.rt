//! Writes findings as JSON.

ghost use Rattle.std.specs.Prelude.{◌≡◌, ◌++◌, OnOk, option_map, string_bytes};
ghost use Rattle.rustsec_check_output.specs.CheckJson.{mended_json, finding_json, list_json, pair_json, path_json, said_json, versions_json};

use crate::advisory_json::push_advisory;
use crate::list_json::{Push, push_list, push_requirements};
use crate::package_json::{push_places, push_sourced};
use crate::part::{First, Key, push_first, push_key};
use crate::quoted::push_quoted;
use crate::rating::kind_text;
use crate::update_json::{push_boolean, push_update};
use rustsec_check::Finding;
use rustsec_lock::package::Package;
use rustsec_versions::Versions;
use std::alloc::{AllocError, Global};

/// Appends the packages of a path, null without a path.
pub(crate) fn push_path(
    alloc: Global,
    json: &mut String,
    packages: &[Package],
    path: &Option<Vec<usize>>,
) -> Result<(), AllocError>
    ensures { OnOk result (string_bytes json.new ≡ string_bytes json.old ++ path_json packages.now (option_map (λ p. p.items) path.now)) }
{
    match path {
        Some(places) => push_places(alloc, json, packages, places.as_slice()),
        None => {
            json.push_str("null")?;
            Ok(())
        }
    }
}

/// Appends two lists of requirements.
#[tactic(auto, unfolding(crate::specs::CheckJson::versions_json))]
fn push_versions(alloc: Global, json: &mut String, versions: &Versions) -> Result<(), AllocError>
    ensures { OnOk result (string_bytes json.new ≡ string_bytes json.old ++ versions_json versions.now) }
{
    push_first(json, First::Patched)?;
    push_requirements(alloc, json, versions.patched())?;
    push_key(json, Key::Unaffected)?;
    push_requirements(alloc, json, versions.unaffected())?;
    json.push_str("}")?;
    Ok(())
}

/// Appends the beginning of a finding, up to what it is.
#[tactic(auto, unfolding(crate::specs::CheckJson::pair_json))]
fn push_pair(
    alloc: Global,
    json: &mut String,
    packages: &[Package],
    finding: &Finding<'_>,
) -> Result<(), AllocError>
    ensures { OnOk result (string_bytes json.new ≡ string_bytes json.old ++ pair_json packages.now finding.now) }
{
    push_first(json, First::Advisory)?;
    push_advisory(alloc, json, &finding.advisory.metadata)?;
    push_key(json, Key::Denied)?;
    push_boolean(json, finding.is_denied)?;
    push_key(json, Key::Dependents)?;
    push_places(alloc, json, packages, finding.dependents.as_slice())?;
    push_key(json, Key::Kind)?;
    push_quoted(alloc, json, kind_text(finding.kind))?;
    Ok(())
}

/// Appends the path to a finding, and how it can be mended.
#[tactic(auto, unfolding(crate::specs::CheckJson::mended_json))]
fn push_mended(
    alloc: Global,
    json: &mut String,
    packages: &[Package],
    finding: &Finding<'_>,
) -> Result<(), AllocError>
    ensures { OnOk result (string_bytes json.new ≡ string_bytes json.old ++ mended_json packages.now finding.now) }
{
    push_key(json, Key::Path)?;
    push_path(alloc, json, packages, &finding.path)?;
    push_key(json, Key::Update)?;
    push_update(alloc, json, finding.package, &finding.update)?;
    push_key(json, Key::Versions)?;
    push_versions(alloc, json, &finding.advisory.versions)?;
    json.push_str("}")?;
    Ok(())
}

/// Appends the rest of a finding.
#[tactic(auto, unfolding(crate::specs::CheckJson::said_json))]
fn push_said(
    alloc: Global,
    json: &mut String,
    packages: &[Package],
    finding: &Finding<'_>,
) -> Result<(), AllocError>
    ensures { OnOk result (string_bytes json.new ≡ string_bytes json.old ++ said_json packages.now finding.now) }
{
    push_key(json, Key::Old)?;
    push_boolean(json, finding.is_old)?;
    push_key(json, Key::Package)?;
    push_sourced(alloc, json, finding.package)?;
    push_mended(alloc, json, packages, finding)
}

/// Appends a finding.
#[tactic(auto, unfolding(crate::specs::CheckJson::finding_json))]
fn push_finding(
    alloc: Global,
    json: &mut String,
    packages: &[Package],
    finding: &Finding<'_>,
) -> Result<(), AllocError>
    ensures { OnOk result (string_bytes json.new ≡ string_bytes json.old ++ finding_json packages.now finding.now) }
{
    push_pair(alloc, json, packages, finding)?;
    push_said(alloc, json, packages, finding)
}

/// Writes findings about the packages of a lockfile.
#[derive(Drop)]
struct Findings<'a> {
    packages: &'a [Package],
}

impl<'a, 'b> Push<Finding<'b>> for Findings<'a> {
    ghost use Rattle.rustsec_check_output.specs.CheckJson.{finding_json};

    ghost written = { λ way finding. finding_json way.packages.now finding };

    fn push(
        &self,
        alloc: Global,
        json: &mut String,
        finding: &Finding<'b>,
    ) -> Result<(), AllocError> {
        push_finding(alloc, json, self.packages, finding)
    }
}

/// Appends a list of findings.
pub(crate) fn push_findings(
    alloc: Global,
    json: &mut String,
    packages: &[Package],
    findings: &[Finding<'_>],
) -> Result<(), AllocError>
    ensures { OnOk result (string_bytes json.new ≡ string_bytes json.old ++ list_json (finding_json packages.now) findings.now) }
{
    push_list(alloc, json, &Findings { packages }, findings)
}
