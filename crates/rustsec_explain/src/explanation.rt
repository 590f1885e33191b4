//! Explanations: pairs of packages and advisories with the reasons why they are not findings.

ghost use Rattle.std.specs.Prelude.{◌≡◌, ◌++◌, ◌∷◌, [], IfErr, IfOk, OnOk, map};
ghost use Rattle.std.specs.List.{filter, find, flat_map};
ghost use Rattle.std.specs.Option.{option_copied};
ghost use Rattle.rustsec_values.specs.Failure.{IsMemory};
ghost use Rattle.rustsec_explain.specs.Explained.{advisories_with, explained, explained_by, explained_by_id, explained_by_name, explained_pairs, has_alias, has_id, is_about, is_named};

use crate::pairs::reasons;
use crate::reason::Reason;
use rustsec_advisory::Advisory;
use rustsec_lock::package::Package;
use rustsec_report::Settings;
use rustsec_texts::Id;
use rustsec_values::{Items, Result};
use std::alloc::{AllocError, Global};
use std::marker::Model;

/// A pair of a package and an advisory with every reason why it is not a finding. A finding has none.
#[derive(Debug, Drop)]
pub struct Explained<'a> {
    /// The advisory.
    pub advisory: &'a Advisory,
    /// The package.
    pub package: &'a Package,
    /// The reasons, in the order of the variants of `Reason`.
    pub reasons: Items<Reason>,
}

impl<'a> Model for Explained<'a> {
    ghost use Rattle.rustsec_explain.specs.Pair.{ExplainedPair};

    ghost Value = { ExplainedPair };

    ghost view = { λ e. record { by = e.advisory.now; of = e.«package».now; reasons = e.reasons } };
}

/// Returns the advisories about a package with a name, in order.
fn about<'a>(
    alloc: Global,
    advisories: &'a [Advisory],
    name: &str,
) -> std::result::Result<Vec<&'a Advisory>, AllocError>
    ensures { IfOk result (λ v. map (λ a. a.now) v.items ≡ filter (is_about name.now) advisories.now) }
{
    advisories
        .iter()
        .filter(|advisory| advisory.metadata.package.as_str() == name)
        .collect(alloc)
}

/// Returns the packages with a name, in order.
fn named<'a>(
    alloc: Global,
    packages: &'a [Package],
    name: &str,
) -> std::result::Result<Vec<&'a Package>, AllocError>
    ensures { IfOk result (λ v. map (λ p. p.now) v.items ≡ filter (is_named name.now) packages.now) }
{
    packages
        .iter()
        .filter(|package| package.name.as_str() == name)
        .collect(alloc)
}

/// Appends the pairs of a package with each advisory.
fn add_pairs<'a>(
    alloc: Global,
    pairs: &mut Items<Explained<'a>>,
    settings: &Settings,
    advisories: &[&'a Advisory],
    package: &'a Package,
) -> Result<()>
    ensures ok { OnOk result (pairs.new ≡ pairs.old ++ map (explained settings.now «package».now) (map (λ a. a.now) advisories.now)) }
    ensures err { IfErr result IsMemory }
{
    for advisory in advisories {
        let reasons = reasons(alloc, settings, advisory, package)?;
        pairs.push(Explained {
            advisory,
            package,
            reasons,
        })?;
    }
    Ok(())
}

/// Appends the pairs of each package with each advisory.
fn add_all_pairs<'a>(
    alloc: Global,
    pairs: &mut Items<Explained<'a>>,
    settings: &Settings,
    advisories: &[&'a Advisory],
    packages: &[&'a Package],
) -> Result<()>
    ensures ok { OnOk result (pairs.new ≡ pairs.old ++ explained_pairs settings.now (map (λ a. a.now) advisories.now) (map (λ p. p.now) packages.now)) }
    ensures err { IfErr result IsMemory }
{
    for package in packages {
        add_pairs(alloc, pairs, settings, advisories, package)?;
    }
    Ok(())
}

/// Returns each package with a name, and each advisory about a package with this name, with the reasons why they are
/// not a finding. They are in the order of the packages, and for each package in the order of the advisories. The
/// advisories of a database are `database.iter().as_slice()`.
///
/// # Errors
///
/// `OutOfMemory` alone.
pub fn explain<'a>(
    alloc: Global,
    settings: &Settings,
    advisories: &'a [Advisory],
    packages: &'a [Package],
    name: &str,
) -> Result<Vec<Explained<'a>>>
    ensures ok { IfOk result (λ v. v.items ≡ explained_by_name settings.now advisories.now packages.now name.now) }
    ensures err { IfErr result IsMemory }
{
    let about = about(alloc, advisories, name)?;
    let named = named(alloc, packages, name)?;
    let mut pairs = Items::new(alloc);
    add_all_pairs(alloc, &mut pairs, settings, &about, &named)?;
    Ok(Vec::from(pairs))
}

/// Returns the first advisory with an ID, if any.
fn with_id<'a>(advisories: &'a [Advisory], id: &Id) -> Option<&'a Advisory>
    ensures { option_copied result ≡ find (has_id id.now) advisories.now }
{
    for advisory in advisories {
        if advisory.metadata.id == *id {
            return Some(advisory);
        }
    }
    None
}

/// Returns whether an ID is among an advisory's aliases.
fn has_alias(advisory: &Advisory, id: &Id) -> bool
    ensures { result ≡ has_alias id.now advisory.now }
{
    advisory.metadata.aliases.as_slice().contains(id)
}

/// Returns the advisories that list an ID among their aliases, in order.
fn with_alias<'a>(
    alloc: Global,
    advisories: &'a [Advisory],
    id: &Id,
) -> std::result::Result<Vec<&'a Advisory>, AllocError>
    ensures { IfOk result (λ v. map (λ a. a.now) v.items ≡ filter (has_alias id.now) advisories.now) }
{
    advisories
        .iter()
        .filter(|advisory| has_alias(advisory, id))
        .collect(alloc)
}

/// Returns a list of one advisory.
fn only<'a>(
    alloc: Global,
    advisory: &'a Advisory,
) -> std::result::Result<Vec<&'a Advisory>, AllocError>
    ensures { IfOk result (λ v. map (λ a. a.now) v.items ≡ advisory.now ∷ []) }
{
    let mut list = Vec::new(alloc);
    list.push(advisory)?;
    Ok(list)
}

/// Returns the advisories that an ID means: the first whose own ID it is, or without one those that list it among their
/// aliases, in order.
fn meant_by<'a>(
    alloc: Global,
    advisories: &'a [Advisory],
    id: &Id,
) -> std::result::Result<Vec<&'a Advisory>, AllocError>
    ensures { IfOk result (λ v. map (λ a. a.now) v.items ≡ advisories_with advisories.now id.now) }
{
    match with_id(advisories, id) {
        Some(advisory) => only(alloc, advisory),
        None => with_alias(alloc, advisories, id),
    }
}

/// Appends the pairs of an advisory with each package of the name that it is about.
fn add_pairs_of<'a>(
    alloc: Global,
    pairs: &mut Items<Explained<'a>>,
    settings: &Settings,
    advisory: &'a Advisory,
    packages: &'a [Package],
) -> Result<()>
    ensures ok { OnOk result (pairs.new ≡ pairs.old ++ explained_by settings.now packages.now advisory.now) }
    ensures err { IfErr result IsMemory }
{
    let named = named(alloc, packages, advisory.metadata.package.as_str())?;
    add_all_pairs(alloc, pairs, settings, &[advisory], &named)
}

/// Returns the pairs of each advisory with each package of the name that it is about, advisory by advisory.
fn pairs_of<'a>(
    alloc: Global,
    settings: &Settings,
    advisories: &[&'a Advisory],
    packages: &'a [Package],
) -> Result<Items<Explained<'a>>>
    ensures ok { IfOk result (λ pairs. pairs ≡ flat_map (explained_by settings.now packages.now) (map (λ a. a.now) advisories.now)) }
    ensures err { IfErr result IsMemory }
{
    let mut pairs = Items::new(alloc);
    for advisory in advisories {
        add_pairs_of(alloc, &mut pairs, settings, advisory, packages)?;
    }
    Ok(pairs)
}

/// Returns each package with the name that the advisory with an ID is about, with the reasons why the two are not a
/// finding, in the order of the packages. If several advisories have the ID, the first one counts. If none has it as
/// its own, those that list it among their aliases are explained, one after the other; the list is empty if none does.
///
/// # Errors
///
/// `OutOfMemory` alone.
pub fn explain_id<'a>(
    alloc: Global,
    settings: &Settings,
    advisories: &'a [Advisory],
    packages: &'a [Package],
    id: &Id,
) -> Result<Vec<Explained<'a>>>
    ensures ok { IfOk result (λ v. v.items ≡ explained_by_id settings.now advisories.now packages.now id.now) }
    ensures err { IfErr result IsMemory }
{
    let meant = meant_by(alloc, advisories, id)?;
    let pairs = pairs_of(alloc, settings, &meant, packages)?;
    Ok(Vec::from(pairs))
}
