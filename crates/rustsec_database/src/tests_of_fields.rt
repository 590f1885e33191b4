//! The ten tests of a query, one by one. If a field is not set, every advisory passes its test.

ghost use Rattle.std.specs.Prelude.{◌≡◌, ◌&&◌, option_map};
ghost use Rattle.std.specs.List.{list_any};
ghost use denote.Enum.Bare.{sameb};
ghost use Rattle.semver.specs.Identifiers.{parts_of};
ghost use Rattle.rustsec_lock.specs.contracts.platforms.Arch.{the_type as arch_type};
ghost use Rattle.rustsec_lock.specs.contracts.platforms.OS.{the_type as os_type};
ghost use Rattle.rustsec_database.specs.Query.{unset};
ghost use Rattle.rustsec_database.specs.Selects.{as_informational, as_withdrawn, has_name, has_source, has_version, in_collection, is_place, is_severe, of_year, on_arch, on_os, source_of};

use rustsec_advisory::Advisory;
use rustsec_lock::package::Name;
use rustsec_lock::platforms::{Arch, OS};
use rustsec_lock::{Severity, SourceId, SourceKind};
use rustsec_texts::Collection;
use semver::Version;

/// Returns whether the collection is the asked one.
pub(crate) fn in_collection(asked: Option<Collection>, advisory: &Advisory) -> bool
    ensures { result ≡ in_collection (record unset { collection = asked }) advisory.now }
{
    match asked {
        Some(collection) => Some(collection) == advisory.metadata.collection,
        None => true,
    }
}

/// Returns whether the package has the asked name.
pub(crate) fn has_name(asked: Option<&Name>, advisory: &Advisory) -> bool
    ensures { result ≡ has_name (record unset { package_name = option_map (λ n. n.now) asked.entry }) advisory.now }
{
    match asked {
        Some(name) => *name == advisory.metadata.package,
        None => true,
    }
}

/// Returns whether the asked version is affected.
pub(crate) fn has_version(asked: Option<&Version>, advisory: &Advisory) -> bool
    ensures { result ≡ has_version (record unset { package_version = option_map (λ v. parts_of v.now) asked.entry }) advisory.now }
{
    match asked {
        Some(version) => advisory.versions.is_vulnerable(version),
        None => true,
    }
}

/// Returns whether the version, the collection and the name are the asked ones. The version is tested first, since an
/// index finds advisories by the other two.
pub(crate) fn is_about(
    collection: Option<Collection>,
    name: Option<&Name>,
    version: Option<&Version>,
    advisory: &Advisory,
) -> bool
    ensures { result ≡ (in_collection (record unset { collection = collection }) advisory.now
        && has_name (record unset { package_name = option_map (λ n. n.now) name.entry }) advisory.now
        && has_version (record unset { package_version = option_map (λ v. parts_of v.now) version.entry }) advisory.now) }
{
    has_version(version, advisory)
        && in_collection(collection, advisory)
        && has_name(name, advisory)
}

/// Returns whether an advisory's source, or the default one if it names none, has this kind and address.
fn is_from(kind: SourceKind, url: &str, advisory: &Advisory) -> bool
    ensures { result ≡ is_place kind url.now (source_of advisory.now) }
{
    match &advisory.metadata.source {
        Some(source) => source.kind() == kind && source.url() == url,
        None => {
            kind == SourceKind::Registry && url == "https://github.com/rust-lang/crates.io-index"
        }
    }
}

/// Returns whether the package comes from the asked source.
pub(crate) fn has_source(asked: Option<&SourceId>, advisory: &Advisory) -> bool
    ensures { result ≡ has_source (record unset { package_source = option_map (λ s. s.now) asked.entry }) advisory.now }
{
    match asked {
        Some(source) => is_from(source.kind(), source.url(), advisory),
        None => true,
    }
}

/// Returns whether the severity is at least the asked one. An advisory without a severity passes. The severity is only
/// calculated if one is asked.
pub(crate) fn is_severe(asked: Option<Severity>, advisory: &Advisory) -> bool
    ensures { result ≡ is_severe (record unset { severity = asked }) advisory.now }
{
    let Some(least) = asked else {
        return true;
    };
    match advisory.severity() {
        Some(severity) => severity >= least,
        None => true,
    }
}

/// Returns whether an architecture is listed.
fn lists_arch(listed: &[Arch], asked: Arch) -> bool
    ensures { result ≡ list_any (sameb arch_type asked) listed.now }
{
    listed.iter().any(|arch| asked == *arch)
}

/// Returns whether a system is listed.
fn lists_os(listed: &[OS], asked: OS) -> bool
    ensures { result ≡ list_any (sameb os_type asked) listed.now }
{
    listed.iter().any(|os| asked == *os)
}

/// Returns whether some asked architecture is listed.
fn lists_some_arch(listed: &[Arch], asked: &[Arch]) -> bool
    ensures { result ≡ list_any (λ x. list_any (sameb arch_type x) listed.now) asked.now }
{
    asked.iter().any(|arch| lists_arch(listed, *arch))
}

/// Returns whether some asked system is listed.
fn lists_some_os(listed: &[OS], asked: &[OS]) -> bool
    ensures { result ≡ list_any (λ x. list_any (sameb os_type x) listed.now) asked.now }
{
    asked.iter().any(|os| lists_os(listed, *os))
}

/// Returns whether an asked architecture is affected.
pub(crate) fn on_arch(asked: &[Arch], advisory: &Advisory) -> bool
    ensures { result ≡ on_arch (record unset { target_arch = asked.now }) advisory.now }
{
    match &advisory.affected {
        Some(affected) => {
            let listed = affected.arch.as_slice();
            asked.is_empty() || listed.is_empty() || lists_some_arch(listed, asked)
        }
        None => true,
    }
}

/// Returns whether an asked system is affected.
pub(crate) fn on_os(asked: &[OS], advisory: &Advisory) -> bool
    ensures { result ≡ on_os (record unset { target_os = asked.now }) advisory.now }
{
    match &advisory.affected {
        Some(affected) => {
            let listed = affected.os.as_slice();
            asked.is_empty() || listed.is_empty() || lists_some_os(listed, asked)
        }
        None => true,
    }
}

/// Returns whether the ID is of the asked year, or without a year.
pub(crate) fn of_year(asked: Option<u32>, advisory: &Advisory) -> bool
    ensures { result ≡ of_year (record unset { year = asked }) advisory.now }
{
    match (asked, advisory.metadata.id.year()) {
        (Some(asked), Some(year)) => asked == year,
        _ => true,
    }
}

/// Returns whether the advisory is withdrawn, or not, as asked.
pub(crate) fn as_withdrawn(asked: Option<bool>, advisory: &Advisory) -> bool
    ensures { result ≡ as_withdrawn (record unset { withdrawn = asked }) advisory.now }
{
    match asked {
        Some(withdrawn) => withdrawn == advisory.metadata.withdrawn.is_some(),
        None => true,
    }
}

/// Returns whether the advisory is informational, or not, as asked.
pub(crate) fn as_informational(asked: Option<bool>, advisory: &Advisory) -> bool
    ensures { result ≡ as_informational (record unset { informational = asked }) advisory.now }
{
    match asked {
        Some(informational) => informational == advisory.metadata.informational.is_some(),
        None => true,
    }
}
