//! Builds the members of an advisory's document.

ghost use Rattle.std.specs.Prelude.{◌≡◌, ◌∷◌, [], IfOk, map, option_map, option_to_list};
ghost use Rattle.std.specs.Map.{keys_of};
ghost use Rattle.rustsec_osv.specs.Export.{affects_of, database_of, member_of, noon, package_of, severity_of};

use crate::affected::{
    OsvAffected, OsvDatabaseSpecific, OsvEcosystemSpecific, OsvEcosystemSpecificAffected,
    OsvPackage,
};
use crate::ranges::OsvJsonRange;
use crate::severity::OsvSeverity;
use rustsec_advisory::Affected;
use rustsec_advisory::metadata::Kinds;
use rustsec_lock::Cvss;
use rustsec_lock::package::Name;
use rustsec_texts::{Date, FunctionPath};
use rustsec_values::{Items, SortedMap, Text, exact_copy};
use rustsec_versions::Requirements;
use std::alloc::{AllocError, Global};
use std::collections::BTreeMap;

/// The ecosystem of the packages of crates.io.
pub(crate) const ECOSYSTEM: &str = "crates.io";

/// Returns noon of a day (RFC 3339, `date-time`).
///
/// # Errors
///
/// Out of memory alone.
pub fn noon(alloc: Global, date: &Date) -> Result<Text, AllocError>
    ensures { IfOk result (λ t. t ≡ noon date.now) }
{
    let date = date.as_str();
    let text = format!(in alloc; "{date}T12:00:00Z")?;
    Ok(Text::from(text))
}

/// Returns noon of a day, if there is a day.
pub(crate) fn noon_of(alloc: Global, date: &Option<Date>) -> Result<Option<Text>, AllocError>
    ensures { IfOk result (λ o. o ≡ option_map noon date.now) }
{
    match date {
        Some(date) => Ok(Some(noon(alloc, date)?)),
        None => Ok(None),
    }
}

/// Returns a package of crates.io.
pub(crate) fn package_of(alloc: Global, name: &Name) -> Result<OsvPackage, AllocError>
    ensures { IfOk result (λ p. p ≡ package_of name.now) }
{
    let name = name.as_str();
    let purl = format!(in alloc; "pkg:cargo/{name}")?;
    let ecosystem = Text::from_str(alloc, ECOSYSTEM)?;
    let name = Text::from_str(alloc, name)?;
    Ok(OsvPackage {
        ecosystem,
        name,
        purl: Some(Text::from(purl)),
    })
}

/// Returns the paths of functions, in order.
fn paths_of(
    alloc: Global,
    functions: SortedMap<FunctionPath, Requirements>,
) -> Result<Vec<FunctionPath>, AllocError>
    ensures { IfOk result (λ v. v.items ≡ keys_of functions) }
{
    BTreeMap::from(functions).into_keys().collect(alloc)
}

/// Returns the affected platforms and functions, none if the advisory names none.
fn affects_of(
    alloc: Global,
    affected: Option<Affected>,
) -> Result<OsvEcosystemSpecificAffected, AllocError>
    ensures { IfOk result (λ a. a ≡ affects_of affected) }
{
    let affected = match affected {
        Some(affected) => affected,
        None => Affected::default(alloc),
    };
    let (arch, os, functions) = affected.into_parts();
    let paths = paths_of(alloc, functions)?;
    Ok(OsvEcosystemSpecificAffected {
        arch,
        os,
        functions: Items::from(paths),
    })
}

/// Returns a list with one element.
fn one<T: Drop>(alloc: Global, element: T) -> Result<Items<T>, AllocError>
    ensures { IfOk result (λ v. v ≡ element ∷ []) }
{
    let mut list = Items::new(alloc);
    list.push(element)?;
    Ok(list)
}

/// Returns what the advisory database adds, from the classification of the advisory.
pub(crate) fn database_of(kinds: Kinds) -> OsvDatabaseSpecific
    ensures { result ≡ database_of kinds }
{
    let Kinds {
        collection: _,
        categories,
        keywords: _,
        cvss,
        informational,
    } = kinds;
    OsvDatabaseSpecific {
        categories,
        cvss,
        informational,
    }
}

/// Returns the only affected package of an advisory.
pub(crate) fn affected_of(
    alloc: Global,
    package: OsvPackage,
    database_specific: OsvDatabaseSpecific,
    affected: Option<Affected>,
    range: OsvJsonRange,
) -> Result<Items<OsvAffected>, AllocError>
    ensures { IfOk result (λ v. v ≡ member_of «package» database_specific affected range ∷ []) }
{
    let affects = affects_of(alloc, affected)?;
    let ranges = one(alloc, range)?;
    one(
        alloc,
        OsvAffected {
            package,
            ecosystem_specific: Some(OsvEcosystemSpecific {
                affects: Some(affects),
                affected_functions: None,
            }),
            database_specific,
            ranges: Some(ranges),
            versions: Some(Items::new(alloc)),
        },
    )
}

/// Returns the severity of a CVSS vector, by its version.
pub(crate) fn severity_of(cvss: &Cvss) -> Result<OsvSeverity, AllocError>
    ensures { IfOk result (λ s. s ≡ severity_of cvss.now) }
{
    match cvss {
        Cvss::CvssV30(base) => Ok(OsvSeverity::CVSS_V3(*base)),
        Cvss::CvssV31(base) => Ok(OsvSeverity::CVSS_V3(*base)),
        Cvss::CvssV40(text) => {
            let text = exact_copy(text)?;
            Ok(OsvSeverity::CVSS_V4(text))
        }
    }
}

/// Returns the CVSS vector of an advisory as a list of at most one severity.
pub(crate) fn severities_of(
    alloc: Global,
    cvss: &Option<Cvss>,
) -> Result<Items<OsvSeverity>, AllocError>
    ensures { IfOk result (λ v. v ≡ map severity_of (option_to_list cvss.now)) }
{
    match cvss {
        Some(cvss) => one(alloc, severity_of(cvss)?),
        None => Ok(Items::new(alloc)),
    }
}
