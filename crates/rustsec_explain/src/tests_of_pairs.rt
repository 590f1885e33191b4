//! The tests that a finding passes, one by one.

ghost use Rattle.std.specs.Prelude.{◌≡◌, IfErr, IfOk};
ghost use Rattle.rustsec_database.specs.Query.{crate_scope, of_package};
ghost use Rattle.rustsec_database.specs.Selects.{has_name, has_source, in_collection, is_severe, on_arch, on_os};
ghost use Rattle.rustsec_report.specs.Report.{is_wanted, query_of};
ghost use Rattle.rustsec_values.specs.Failure.{IsMemory};
ghost use Rattle.rustsec_explain.specs.Reasons.{fails, is_elsewhere, is_ignored, warns};

use rustsec_advisory::Advisory;
use rustsec_database::Query;
use rustsec_lock::package::Package;
use rustsec_report::Settings;
use rustsec_texts::Collection;
use rustsec_values::Result;
use std::alloc::Global;

/// Returns whether a package's source is there and is not the default registry.
pub(crate) fn is_elsewhere(package: &Package) -> bool
    ensures { result ≡ is_elsewhere «package».now.source }
{
    match &package.source {
        Some(source) => !source.is_default_registry(),
        None => false,
    }
}

/// Returns whether an advisory is in the collection of crates.
pub(crate) fn in_crates(advisory: &Advisory) -> bool
    ensures { result ≡ in_collection crate_scope advisory.now }
{
    Some(Collection::Crates) == advisory.metadata.collection
}

/// Returns whether an advisory is about a package of this name.
pub(crate) fn has_name(package: &Package, advisory: &Advisory) -> bool
    ensures { result ≡ has_name (of_package crate_scope «package».now) advisory.now }
{
    package.name == advisory.metadata.package
}

/// Returns whether an advisory is about the source of a package; a package without a source passes.
#[tactic(auto, using(crate::proofs::OneField::source_alone))]
pub(crate) fn has_source(alloc: Global, package: &Package, advisory: &Advisory) -> Result<bool>
    ensures ok { IfOk result (λ b. b ≡ has_source (of_package crate_scope «package».now) advisory.now) }
    ensures err { IfErr result IsMemory }
{
    let Some(source) = &package.source else {
        return Ok(true);
    };
    let source = source.clone(alloc)?;
    let query = Query::new(alloc).package_source(source);
    Ok(query.matches(advisory))
}

/// Returns whether an advisory's severity is not below the least one; an advisory without a severity passes.
#[tactic(auto, using(crate::proofs::OneField::severity_alone))]
pub(crate) fn is_severe(alloc: Global, settings: &Settings, advisory: &Advisory) -> bool
    ensures { result ≡ is_severe (query_of settings.now) advisory.now }
{
    match settings.severity {
        Some(least) => Query::new(alloc).severity(least).matches(advisory),
        None => true,
    }
}

/// Returns whether an advisory affects an architecture that the settings ask for.
#[tactic(auto, using(crate::proofs::OneField::arch_alone))]
pub(crate) fn on_arch(alloc: Global, settings: &Settings, advisory: &Advisory) -> Result<bool>
    ensures ok { IfOk result (λ b. b ≡ on_arch (query_of settings.now) advisory.now) }
    ensures err { IfErr result IsMemory }
{
    let asked = Clone::clone(&settings.target_arch)?;
    let query = Query::new(alloc).target_arch(Vec::from(asked));
    Ok(query.matches(advisory))
}

/// Returns whether an advisory affects a system that the settings ask for.
#[tactic(auto, using(crate::proofs::OneField::os_alone))]
pub(crate) fn on_os(alloc: Global, settings: &Settings, advisory: &Advisory) -> Result<bool>
    ensures ok { IfOk result (λ b. b ≡ on_os (query_of settings.now) advisory.now) }
    ensures err { IfErr result IsMemory }
{
    let asked = Clone::clone(&settings.target_os)?;
    let query = Query::new(alloc).target_os(Vec::from(asked));
    Ok(query.matches(advisory))
}

/// Returns whether an advisory is informational and the settings do not ask for its kind.
pub(crate) fn is_unwanted(settings: &Settings, advisory: &Advisory) -> bool
    ensures { result ≡ fails (is_wanted settings.now) advisory.now.metadata.informational }
{
    match &advisory.metadata.informational {
        Some(kind) => !settings.wants(kind),
        None => false,
    }
}

/// Returns whether an advisory is informational and its kind gives no warnings.
pub(crate) fn is_without_warnings(advisory: &Advisory) -> bool
    ensures { result ≡ fails warns advisory.now.metadata.informational }
{
    match &advisory.metadata.informational {
        Some(kind) => kind.warning_kind().is_none(),
        None => false,
    }
}

/// Returns whether an advisory is ignored.
pub(crate) fn is_ignored(settings: &Settings, advisory: &Advisory) -> bool
    ensures { result ≡ is_ignored settings.now advisory.now }
{
    settings.ignore.as_slice().contains(&advisory.metadata.id)
}
