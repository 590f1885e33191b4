//! The findings of a check.

ghost use Rattle.std.specs.Prelude.{◌≡◌, IfErr, IfOk, map, option_map};
ghost use Rattle.std.specs.List.{list_any};
ghost use Rattle.rustsec_values.specs.Failure.{IsMemory};
ghost use Rattle.rustsec_check.specs.Facts.{AreAbout, AreFacts, ArePlaced};
ghost use Rattle.rustsec_check.specs.Findings.{AreFindingsOf, IsFinding, denies, is_denied, is_old, is_same, pair_of};
ghost use Rattle.rustsec_check.specs.Pairs.{as_ignored, left_out};

use crate::advice::update_of;
use crate::facts::{Facts, facts_about};
use crate::found::{Found, is_ignored};
use crate::subject::Viewed;
use crate::update::Update;
use rustsec_advisory::Advisory;
use rustsec_lock::Lockfile;
use rustsec_lock::package::Package;
use rustsec_policy::Denied;
use rustsec_texts::{Id, WarningKind};
use rustsec_values::Result;
use std::alloc::{AllocError, Global};
use std::marker::Model;

/// A package, and an advisory that affects it.
#[derive(Drop)]
pub struct Finding<'a> {
    /// The kind of the warning, or `None` for a vulnerability.
    pub kind: Option<WarningKind>,
    /// The advisory.
    pub advisory: &'a Advisory,
    /// The package.
    pub package: &'a Package,
    /// The place of the package in the lockfile, from 0 on.
    pub place: usize,
    /// Whether it is denied. A vulnerability is; a warning is if all warnings are denied, or those of its kind.
    pub is_denied: bool,
    /// Whether the baseline has a package with the same name, version and source.
    pub is_old: bool,
    /// The first of the shortest paths from a root to the package, or `None` if no root reaches it.
    pub path: Option<Vec<usize>>,
    /// The packages that depend on the package themselves, in order.
    pub dependents: Vec<usize>,
    /// How it can be mended.
    pub update: Update<'a>,
}

impl<'a> Model for Finding<'a> {
    ghost use Rattle.std.specs.Prelude.{option_map};
    ghost use Rattle.rustsec_check.specs.Values.{FindingValue};

    ghost Value = { FindingValue };

    ghost view = { λ f. record {
      kind = f.kind;
      advisory = f.advisory.now;
      «package» = f.«package».now;
      place = f.place;
      is_denied = f.is_denied;
      is_old = f.is_old;
      path = option_map (λ v. v.items) f.path;
      dependents = f.dependents.items;
      update = f.update;
    } };
}

/// A pair of a package and an advisory that would be a finding if the advisory were not ignored.
#[derive(Drop)]
pub struct IgnoredPair<'a> {
    /// The kind of the warning, or `None` for a vulnerability.
    pub kind: Option<WarningKind>,
    /// The advisory.
    pub advisory: &'a Advisory,
    /// The package.
    pub package: &'a Package,
}

impl<'a> Model for IgnoredPair<'a> {
    ghost use Rattle.rustsec_check.specs.Values.{IgnoredValue};

    ghost Value = { IgnoredValue };

    ghost view = { λ i. record { kind = i.kind; advisory = i.advisory.now; «package» = i.«package».now } };
}

/// Returns whether a word denies the warnings of a kind.
fn denies(kind: WarningKind, word: Denied) -> bool
    ensures { result ≡ denies kind word }
{
    match word {
        Denied::Warnings => true,
        Denied::Unmaintained => kind == WarningKind::Unmaintained,
        Denied::Unsound => kind == WarningKind::Unsound,
        Denied::Yanked => kind == WarningKind::Yanked,
    }
}

/// Returns whether some word denies the warnings of a kind.
fn some_denies(words: &[Denied], kind: WarningKind) -> bool
    ensures { result ≡ list_any (denies kind) words.now }
{
    words.iter().any(|word| denies(kind, *word))
}

/// Returns whether a vulnerability, which has no kind, or a warning of a kind is denied.
pub(crate) fn is_denied(words: &[Denied], kind: Option<WarningKind>) -> bool
    ensures { result ≡ is_denied words.now kind }
{
    match kind {
        Some(kind) => some_denies(words, kind),
        None => true,
    }
}

/// Returns whether two packages have the same name, version and source.
fn is_same(a: &Package, b: &Package) -> bool
    ensures { result ≡ is_same a.now b.now }
{
    a.name == b.name && a.version == b.version && a.source == b.source
}

/// Returns whether some package has the same name, version and source as another one.
pub(crate) fn has_package(packages: &[Package], package: &Package) -> bool
    ensures { result ≡ list_any (is_same «package».now) packages.now }
{
    packages.iter().any(|other| is_same(package, other))
}

/// Returns whether an older lockfile, if any, has a package.
pub(crate) fn is_old(baseline: Option<&Lockfile>, package: &Package) -> bool
    ensures { result ≡ is_old (option_map (λ l. l.now.packages) baseline.entry) «package».now }
{
    match baseline {
        Some(lockfile) => has_package(lockfile.packages.as_slice(), package),
        None => false,
    }
}

/// Returns the finding of a pair, by the facts about its package.
fn finding_of<'a>(
    alloc: Global,
    subject: &Viewed<'a>,
    facts: &Facts<'a>,
    found: &Found<'a>,
) -> Result<Finding<'a>>
    requires about { AreAbout facts.now found.now }
    requires facts { AreFacts subject.now facts.now }
    ensures pair { IfOk result (λ f. pair_of f ≡ found.now) }
    ensures ok { IfOk result (IsFinding subject.now) }
    ensures err { IfErr result IsMemory }
{
    let update = update_of(alloc, &facts.advice, found.package, found.advisory)?;
    Ok(Finding {
        kind: found.kind,
        advisory: found.advisory,
        package: found.package,
        place: found.place,
        is_denied: is_denied(subject.denied, found.kind),
        is_old: facts.is_old,
        path: facts.path(alloc)?,
        dependents: facts.dependents(alloc)?,
        update,
    })
}

/// Returns the findings of some pairs: of those whose advisory is not ignored, in their order.
pub(crate) fn findings_of<'a>(
    alloc: Global,
    subject: &Viewed<'a>,
    found: &[Found<'a>],
) -> Result<Vec<Finding<'a>>>
    requires { ArePlaced subject.now.packages found.now }
    ensures ok { IfOk result (λ v. AreFindingsOf subject.now found.now v.items) }
    ensures err { IfErr result IsMemory }
{
    let ids = subject.settings.ignore.as_slice();
    let mut findings = Vec::new(alloc);
    let mut last = None;
    for pair in found {
        if !is_ignored(ids, pair) {
            let facts = facts_about(alloc, subject, last.take(), pair)?;
            let finding = finding_of(alloc, subject, &facts, pair)?;
            findings.push(finding).map_err(|_| AllocError)?;
            last = Some(facts);
        }
    }
    Ok(findings)
}

/// Returns the pairs whose advisory is ignored, in order.
pub(crate) fn ignored_of<'a>(
    alloc: Global,
    ids: &[Id],
    found: &[Found<'a>],
) -> Result<Vec<IgnoredPair<'a>>>
    ensures ok { IfOk result (λ v. v.items ≡ map as_ignored (left_out ids.now found.now)) }
    ensures err { IfErr result IsMemory }
{
    let mut ignored = Vec::new(alloc);
    for pair in found {
        if is_ignored(ids, pair) {
            let left_out = IgnoredPair {
                kind: pair.kind,
                advisory: pair.advisory,
                package: pair.package,
            };
            ignored.push(left_out).map_err(|_| AllocError)?;
        }
    }
    Ok(ignored)
}
