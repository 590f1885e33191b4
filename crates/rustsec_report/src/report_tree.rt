//! Builds the JSON tree of a report.

ghost use Rattle.std.specs.Prelude.{◌≡◌, [], ◌∷◌, IfErr, IfOk, OnOk, option_map};
ghost use Rattle.serde_json.specs.View.{members_view, view};
ghost use Rattle.rustsec_json.specs.Trees.{list_tree, optional_tree};
ghost use Rattle.rustsec_values.specs.Failure.{IsMemory};
ghost use Rattle.rustsec_report.specs.Trees.{kinds_of_warnings, lockfile_tree, metadata_tree, object_of, report_entries, report_tree, settings_tree, severity_tree, versions_tree, vulnerabilities_tree, vulnerability_tree, warning_tree, with_members};

use crate::advisory_tree::{affected_tree, metadata_tree, package_tree, versions_tree};
use crate::info::LockfileInfo;
use crate::object::{Members, put_tree, put_value};
use crate::part::Part;
use crate::report::Report;
use crate::report_ref::ReportRef;
use crate::settings::Settings;
use crate::warning_ref::{WarningRef, WarningsOfKind};
use rustsec_advisory::Metadata;
use rustsec_database::VulnerabilityRef;
use rustsec_lock::Severity;
use rustsec_values::Result;
use rustsec_versions::Versions;
use serde_json::Value;
use std::alloc::{AllocError, Global};

/// Builds the tree of a vulnerability.
#[tactic(auto, unfolding(crate::specs::Trees::with_members, crate::specs::Trees::vulnerability_tree))]
pub(crate) fn vulnerability_tree(
    alloc: Global,
    vulnerability: &VulnerabilityRef<'_>,
) -> std::result::Result<Value, AllocError>
    ensures { IfOk result (λ v. view v ≡ vulnerability_tree vulnerability.now) }
{
    let mut members = Members::new(alloc);
    let advisory = metadata_tree(alloc, vulnerability.advisory)?;
    put_tree(alloc, &mut members, "advisory", advisory)?;
    let affected = affected_tree(alloc, vulnerability.affected)?;
    put_tree(alloc, &mut members, "affected", affected)?;
    let package = package_tree(alloc, vulnerability.package)?;
    put_tree(alloc, &mut members, "package", package)?;
    let versions = versions_tree(alloc, vulnerability.versions)?;
    put_tree(alloc, &mut members, "versions", versions)?;
    Ok(Value::from(members))
}

/// Builds the tree of a list of parts.
fn list_tree<T: Part>(alloc: Global, parts: &[T]) -> std::result::Result<Value, AllocError>
    ensures { IfOk result (λ v. view v ≡ list_tree T.tree parts.now) }
{
    let mut trees = Vec::new(alloc);
    for part in parts {
        trees.push(part.build_tree(alloc)?)?;
    }
    Ok(Value::from(trees))
}

/// Builds the tree of the metadata of a warning's advisory, null without an advisory.
fn optional_metadata_tree(
    alloc: Global,
    metadata: Option<&Metadata>,
) -> std::result::Result<Value, AllocError>
    ensures { IfOk result (λ v. view v ≡ optional_tree metadata_tree (option_map (λ m. m.now) metadata.entry)) }
{
    match metadata {
        Some(metadata) => metadata_tree(alloc, metadata),
        None => Ok(Value::Null),
    }
}

/// Builds the tree of a warning's lists of requirements, null without them.
fn optional_versions_tree(
    alloc: Global,
    versions: Option<&Versions>,
) -> std::result::Result<Value, AllocError>
    ensures { IfOk result (λ v. view v ≡ optional_tree versions_tree (option_map (λ v. v.now) versions.entry)) }
{
    match versions {
        Some(versions) => versions_tree(alloc, versions),
        None => Ok(Value::Null),
    }
}

/// Builds the tree of a warning.
#[tactic(auto, unfolding(crate::specs::Trees::with_members, crate::specs::Trees::warning_tree))]
pub(crate) fn warning_tree(
    alloc: Global,
    warning: &WarningRef<'_>,
) -> std::result::Result<Value, AllocError>
    ensures { IfOk result (λ v. view v ≡ warning_tree warning.now) }
{
    let mut members = Members::new(alloc);
    let advisory = optional_metadata_tree(alloc, warning.advisory)?;
    put_tree(alloc, &mut members, "advisory", advisory)?;
    let affected = affected_tree(alloc, warning.affected)?;
    put_tree(alloc, &mut members, "affected", affected)?;
    let kind = Value::try_from_str(alloc, warning.kind.as_str())?;
    put_tree(alloc, &mut members, "kind", kind)?;
    let package = package_tree(alloc, warning.package)?;
    put_tree(alloc, &mut members, "package", package)?;
    let versions = optional_versions_tree(alloc, warning.versions)?;
    put_tree(alloc, &mut members, "versions", versions)?;
    Ok(Value::from(members))
}

/// Sets a key for each kind of warnings, with the list of its warnings.
#[tactic(auto, unfolding(crate::specs::Trees::with_members))]
fn put_warnings(
    alloc: Global,
    members: &mut Members,
    warnings: &[WarningsOfKind<'_>],
) -> std::result::Result<(), AllocError>
    ensures { OnOk result (members_view members.new.entries
        ≡ with_members (members_view members.old.entries) (kinds_of_warnings warnings.now)) }
{
    for of_kind in warnings {
        let list = list_tree(alloc, of_kind.list.as_slice())?;
        put_tree(alloc, members, of_kind.kind.as_str(), list)?;
    }
    Ok(())
}

/// Builds the tree of warnings: an object from each kind to its list.
pub(crate) fn warnings_tree(
    alloc: Global,
    warnings: &[WarningsOfKind<'_>],
) -> std::result::Result<Value, AllocError>
    ensures { IfOk result (λ v. view v ≡ object_of (kinds_of_warnings warnings.now)) }
{
    let mut members = Members::new(alloc);
    put_warnings(alloc, &mut members, warnings)?;
    Ok(Value::from(members))
}

/// Builds the tree of a severity, null if it is missing.
fn severity_tree(
    alloc: Global,
    severity: Option<Severity>,
) -> std::result::Result<Value, AllocError>
    ensures { IfOk result (λ v. view v ≡ optional_tree severity_tree severity) }
{
    match severity {
        Some(severity) => Value::try_from_str(alloc, severity.as_str()),
        None => Ok(Value::Null),
    }
}

/// Builds the tree of settings.
#[tactic(auto, unfolding(crate::specs::Trees::with_members))]
pub(crate) fn settings_tree(
    alloc: Global,
    settings: &Settings,
) -> std::result::Result<Value, AllocError>
    ensures { IfOk result (λ v. view v ≡ settings_tree settings.now) }
{
    let mut members = Members::new(alloc);
    put_value(alloc, &mut members, "ignore", &settings.ignore)?;
    let kinds = &settings.informational_warnings;
    put_value(alloc, &mut members, "informational_warnings", kinds)?;
    let severity = severity_tree(alloc, settings.severity)?;
    put_tree(alloc, &mut members, "severity", severity)?;
    put_value(alloc, &mut members, "target_arch", &settings.target_arch)?;
    put_value(alloc, &mut members, "target_os", &settings.target_os)?;
    Ok(Value::from(members))
}

/// Builds the tree of what a report contains about its lockfile.
#[tactic(auto, unfolding(crate::specs::Trees::with_members))]
pub(crate) fn lockfile_tree(
    alloc: Global,
    info: LockfileInfo,
) -> std::result::Result<Value, AllocError>
    ensures { IfOk result (λ v. view v ≡ lockfile_tree info) }
{
    let mut members = Members::new(alloc);
    let count = Value::from(info.dependency_count);
    put_tree(alloc, &mut members, "dependency-count", count)?;
    Ok(Value::from(members))
}

/// Builds the tree of the vulnerabilities of a report.
#[tactic(auto, unfolding(crate::specs::Trees::with_members))]
fn vulnerabilities_tree(
    alloc: Global,
    report: &ReportRef<'_>,
) -> std::result::Result<Value, AllocError>
    ensures { IfOk result (λ v. view v ≡ vulnerabilities_tree report.now.vulnerabilities) }
{
    let mut members = Members::new(alloc);
    put_tree(alloc, &mut members, "count", Value::from(report.count))?;
    put_tree(alloc, &mut members, "found", Value::from(report.found))?;
    let list = list_tree(alloc, report.vulnerabilities.as_slice())?;
    put_tree(alloc, &mut members, "list", list)?;
    Ok(Value::from(members))
}

/// Sets the keys of a report.
#[tactic(auto, unfolding(crate::specs::Trees::with_members))]
fn put_report(
    alloc: Global,
    members: &mut Members,
    report: &ReportRef<'_>,
) -> std::result::Result<(), AllocError>
    ensures { OnOk result (members_view members.new.entries
        ≡ with_members (members_view members.old.entries) (report_entries report.now)) }
{
    let lockfile = lockfile_tree(alloc, report.lockfile)?;
    put_tree(alloc, members, "lockfile", lockfile)?;
    let settings = settings_tree(alloc, report.settings)?;
    put_tree(alloc, members, "settings", settings)?;
    let vulnerabilities = vulnerabilities_tree(alloc, report)?;
    put_tree(alloc, members, "vulnerabilities", vulnerabilities)?;
    let warnings = warnings_tree(alloc, report.warnings.as_slice())?;
    put_tree(alloc, members, "warnings", warnings)
}

impl Report {
    /// Builds the JSON tree of the report.
    ///
    /// # Errors
    ///
    /// `OutOfMemory` alone.
    #[tactic(auto, unfolding(crate::specs::Trees::report_tree))]
    pub fn to_value(&self, alloc: Global) -> Result<Value>
        ensures ok { IfOk result (λ v. view v ≡ report_tree self.now) }
        ensures err { IfErr result IsMemory }
    {
        let report = ReportRef::new(alloc, self)?;
        let mut members = Members::new(alloc);
        put_report(alloc, &mut members, &report)?;
        Ok(Value::from(members))
    }
}
