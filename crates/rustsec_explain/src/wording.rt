//! Reasons in words.

ghost use Rattle.std.specs.Prelude.{◌≡◌, ◌++◌, IfErr, IfOk, OnOk, codes, map, option_and_then, slice_get, string_bytes};
ghost use Rattle.semver.specs.Identifiers.{parts_of};
ghost use Rattle.rustsec_values.specs.Failure.{IsMemory};
ghost use Rattle.rustsec_versions.specs.Views.{comparators_of};
ghost use Rattle.rustsec_lock.specs.Cvss.{cvss_severity};
ghost use Rattle.rustsec_explain.specs.Wording.{below_threshold_text, further_names, held_text, kind_text, not_audited_text, other_architecture_text, other_collection_text, other_package_text, other_platform_text, other_source_text, other_system_text, quoted, quoted_names, reason_text, subject_source_text, withdrawn_text};

use crate::reason::Reason;
use rustsec_advisory::Advisory;
use rustsec_lock::package::Package;
use rustsec_report::Settings;
use rustsec_values::{ClosedEnum, Result};
use rustsec_versions::requirement_text;
use semver::{Version, VersionReq};
use std::alloc::{AllocError, Global};

/// Appends a name between backquotes.
fn push_quoted(text: &mut String, name: &str) -> std::result::Result<(), AllocError>
    ensures { OnOk result (string_bytes text.new ≡ string_bytes text.old ++ quoted name.now) }
{
    write!(text, "`{name}`")
}

/// Appends the names of some values, each after a comma and between backquotes.
fn push_further<T: ClosedEnum>(
    text: &mut String,
    values: &[T],
) -> std::result::Result<(), AllocError>
    ensures { OnOk result (string_bytes text.new ≡ string_bytes text.old ++ further_names T.name_of values.now) }
{
    for value in values {
        text.push_str(", ")?;
        push_quoted(text, value.name())?;
    }
    Ok(())
}

/// Returns the names of some values, each between backquotes, joined by commas.
fn quoted_names<T: ClosedEnum>(
    alloc: Global,
    values: &[T],
) -> std::result::Result<String, AllocError>
    ensures { IfOk result (λ t. string_bytes t ≡ quoted_names T.name_of values.now) }
{
    let mut names = String::new(alloc);
    if let Some((first, others)) = values.split_first() {
        push_quoted(&mut names, first.name())?;
        push_further(&mut names, others)?;
    }
    Ok(names)
}

/// Returns the text that the package's source is not audited.
fn not_audited(alloc: Global, package: &Package) -> std::result::Result<String, AllocError>
    ensures { IfOk result (λ t. string_bytes t ≡ not_audited_text «package».now.source) }
{
    match &package.source {
        Some(source) => format!(in alloc; "the source `{source}` is not the default registry"),
        None => String::from_str(alloc, "the source is not the default registry"),
    }
}

/// Returns the text of another collection.
fn other_collection(alloc: Global, advisory: &Advisory) -> std::result::Result<String, AllocError>
    ensures { IfOk result (λ t. string_bytes t ≡ other_collection_text advisory.now.metadata.collection) }
{
    match advisory.metadata.collection {
        Some(collection) => {
            let name = collection.as_str();
            format!(in alloc; "the advisory is in the collection `{name}` and not in `crates`")
        }
        None => String::from_str(alloc, "the advisory is in no collection"),
    }
}

/// Returns the text of another name.
fn other_package(
    alloc: Global,
    advisory: &Advisory,
    package: &Package,
) -> std::result::Result<String, AllocError>
    ensures { IfOk result (λ t. string_bytes t ≡ other_package_text advisory.now.metadata.«package» «package».now.name) }
{
    let subject = advisory.metadata.package.as_str();
    let name = package.name.as_str();
    format!(in alloc; "the advisory is about `{subject}` and not about `{name}`")
}

/// Returns the text of a requirement of a list that holds a version.
fn held(
    alloc: Global,
    list: &str,
    requirements: &[VersionReq],
    place: usize,
    version: &Version,
) -> Result<String>
    ensures ok { IfOk result (λ t. string_bytes t ≡ held_text list.now place (slice_get (map comparators_of requirements.now) place) (parts_of version.now)) }
    ensures err { IfErr result IsMemory }
{
    let Some(requirement) = requirements.get(place) else {
        let text = format!(in alloc; "{list} requirement {place} holds {version}")?;
        return Ok(text);
    };
    let requirement = requirement_text(alloc, requirement)?;
    let text = format!(in alloc; "{list} `{requirement}` holds {version}")?;
    Ok(text)
}

/// Returns the text of the source that an advisory is about.
fn subject_source(alloc: Global, advisory: &Advisory) -> std::result::Result<String, AllocError>
    ensures { IfOk result (λ t. string_bytes t ≡ subject_source_text advisory.now.metadata.source) }
{
    match &advisory.metadata.source {
        Some(source) => format!(in alloc; "`{source}`"),
        None => String::from_str(alloc, "the default registry's index in git"),
    }
}

/// Returns the text of another source.
fn other_source(
    alloc: Global,
    advisory: &Advisory,
    package: &Package,
) -> std::result::Result<String, AllocError>
    ensures { IfOk result (λ t. string_bytes t ≡ other_source_text advisory.now.metadata.source «package».now.source) }
{
    let subject = subject_source(alloc, advisory)?;
    match &package.source {
        Some(source) => format!(in alloc;
            "the advisory is about {subject} and not about `{source}`"
        ),
        None => format!(in alloc; "the advisory is about {subject}"),
    }
}

/// Returns the text of a severity below the least one.
fn below_threshold(
    alloc: Global,
    settings: &Settings,
    advisory: &Advisory,
) -> std::result::Result<String, AllocError>
    ensures { IfOk result (λ t. string_bytes t ≡ below_threshold_text (option_and_then cvss_severity advisory.now.metadata.cvss) settings.now.severity) }
{
    match (advisory.severity(), settings.severity) {
        (Some(severity), Some(least)) => {
            format!(in alloc; "severity {severity} is below {least}")
        }
        _ => String::from_str(alloc, "the severity is below the least one"),
    }
}

/// Returns the text of other platforms than those that are asked for.
fn other_platform<T: ClosedEnum>(
    alloc: Global,
    plural: &str,
    listed: &[T],
    asked: &[T],
) -> std::result::Result<String, AllocError>
    ensures { IfOk result (λ t. string_bytes t ≡ other_platform_text plural.now (quoted_names T.name_of listed.now) (quoted_names T.name_of asked.now)) }
{
    let listed = quoted_names(alloc, listed)?;
    let asked = quoted_names(alloc, asked)?;
    format!(in alloc; "the affected {plural} are {listed}, and those asked for are {asked}")
}

/// Returns the text of other architectures.
fn other_architecture(
    alloc: Global,
    settings: &Settings,
    advisory: &Advisory,
) -> std::result::Result<String, AllocError>
    ensures { IfOk result (λ t. string_bytes t ≡ other_architecture_text settings.now advisory.now.affected) }
{
    let asked = settings.target_arch.as_slice();
    match &advisory.affected {
        Some(affected) => other_platform(alloc, "architectures", affected.arch.as_slice(), asked),
        None => String::from_str(alloc, "no affected architecture is asked for"),
    }
}

/// Returns the text of other systems.
fn other_system(
    alloc: Global,
    settings: &Settings,
    advisory: &Advisory,
) -> std::result::Result<String, AllocError>
    ensures { IfOk result (λ t. string_bytes t ≡ other_system_text settings.now advisory.now.affected) }
{
    let asked = settings.target_os.as_slice();
    match &advisory.affected {
        Some(affected) => other_platform(alloc, "systems", affected.os.as_slice(), asked),
        None => String::from_str(alloc, "no affected system is asked for"),
    }
}

/// Returns the text of a withdrawn advisory.
fn withdrawn(alloc: Global, advisory: &Advisory) -> std::result::Result<String, AllocError>
    ensures { IfOk result (λ t. string_bytes t ≡ withdrawn_text advisory.now.metadata.withdrawn) }
{
    match &advisory.metadata.withdrawn {
        Some(date) => format!(in alloc; "withdrawn on {date}"),
        None => String::from_str(alloc, "withdrawn"),
    }
}

/// Returns the text of an ignored advisory.
fn ignored(alloc: Global, advisory: &Advisory) -> std::result::Result<String, AllocError>
    ensures { IfOk result (λ t. string_bytes t ≡ codes "the ID `" ++ (advisory.now.metadata.id.text ++ codes "` is ignored")) }
{
    let id = advisory.metadata.id.as_str();
    format!(in alloc; "the ID `{id}` is ignored")
}

/// Returns the text of an informational kind, and after it what is wrong with it.
fn kind_that(
    alloc: Global,
    advisory: &Advisory,
    fault: &str,
) -> std::result::Result<String, AllocError>
    ensures { IfOk result (λ t. string_bytes t ≡ kind_text advisory.now.metadata.informational fault.now) }
{
    match &advisory.metadata.informational {
        Some(kind) => format!(in alloc; "the kind `{kind}` {fault}"),
        None => format!(in alloc; "the kind {fault}"),
    }
}

impl Reason {
    /// Returns what the test of this reason compared for a pair, as one line for people: as "patched `>=1.2.3` holds
    /// 1.4.0", "withdrawn on 2021-03-04" or "severity medium is below high". Names and kinds are written as they are.
    ///
    /// # Errors
    ///
    /// `OutOfMemory` alone.
    pub fn text(
        &self,
        alloc: Global,
        settings: &Settings,
        advisory: &Advisory,
        package: &Package,
    ) -> Result<String>
        ensures ok { IfOk result (λ t. string_bytes t ≡ reason_text settings.now advisory.now «package».now self.now) }
        ensures err { IfErr result IsMemory }
    {
        let versions = &advisory.versions;
        let version = &package.version;
        let text = match *self {
            Reason::WithoutSource => String::from_str(alloc, "the package has no source"),
            Reason::NotAudited => not_audited(alloc, package),
            Reason::OtherCollection => other_collection(alloc, advisory),
            Reason::OtherPackage => other_package(alloc, advisory, package),
            Reason::HeldByPatched(place) => {
                return held(alloc, "patched", versions.patched(), place, version);
            }
            Reason::HeldByUnaffected(place) => {
                return held(alloc, "unaffected", versions.unaffected(), place, version);
            }
            Reason::OtherSource => other_source(alloc, advisory, package),
            Reason::BelowThreshold => below_threshold(alloc, settings, advisory),
            Reason::OtherArchitecture => other_architecture(alloc, settings, advisory),
            Reason::OtherSystem => other_system(alloc, settings, advisory),
            Reason::Withdrawn => withdrawn(alloc, advisory),
            Reason::KindNotWanted => kind_that(alloc, advisory, "is not asked for"),
            Reason::KindWithoutWarnings => kind_that(alloc, advisory, "gives no warnings"),
            Reason::Ignored => ignored(alloc, advisory),
        };
        Ok(text?)
    }
}
