//! What an entry is compared with for each package.

ghost use Rattle.std.specs.Prelude.{◌≡◌, ◌∷◌, [], IfOk, nat_eq};
ghost use Rattle.std.specs.Cmp.Lexicographic.{pointwise};
ghost use Rattle.std.specs.List.{list_any};
ghost use Rattle.toml.specs.View.{table_view};
ghost use Rattle.rustsec_graph.specs.Candidates.{candidate_of, in_entries, is_old, source_texts, texts_of, with_source, with_version, without_master, without_precise};
ghost use Rattle.rustsec_graph.specs.Entries.{fits};

use crate::releases::is_release;
use rustsec_lock::package::Package;
use rustsec_toml::{Section, TablePlace};
use rustsec_values::{Items, Text};
use std::alloc::{AllocError, Global};
use std::marker::Model;
use toml::Table;

/// A package for entries. The entries that fit it are only listed if requested: a package alone with its first word
/// is compared with few.
#[derive(Drop)]
pub(crate) struct Candidate<'a> {
    old: bool,
    package: &'a Package,
    texts: Option<Items<Text>>,
}

impl<'a> Model for Candidate<'a> {
    ghost use Rattle.std.specs.Prelude.{◌≡◌, IfSome};
    ghost use Rattle.rustsec_graph.specs.Candidates.{Candidate, candidate_of, texts_of};

    ghost Value = { Candidate };

    ghost view = { λ c. candidate_of c.old c.«package».now };

    ghost invariant = { λ c. IfSome c.texts (λ texts. texts ≡ texts_of c.old c.«package».now) };
}

impl<'a> Candidate<'a> {
    /// Returns whether the package is local.
    pub(crate) fn is_local(&self) -> bool
        ensures { result ≡ self.now.is_local }
    {
        let package = self.package;
        package.source.is_none()
    }

    /// Returns the name and the version of the package.
    pub(crate) fn release(&self, alloc: Global) -> Result<Text, AllocError>
        ensures { IfOk result (λ text. text ≡ self.now.release) }
    {
        with_version(alloc, self.package)
    }

    /// Returns whether an entry is one of the texts that fit the package.
    pub(crate) fn fits(&self, alloc: Global, entry: &str) -> Result<bool, AllocError>
        ensures { IfOk result (λ b. b ≡ fits entry.now self.now) }
    {
        match &self.texts {
            Some(texts) => Ok(is_among(texts.as_slice(), entry)),
            None => fits_alone(alloc, self, entry),
        }
    }
}

/// Returns whether a text is one of these.
fn is_among(texts: &[Text], entry: &str) -> bool
    ensures { result ≡ list_any (λ text. pointwise nat_eq text entry.now) texts.now }
{
    texts.iter().any(|text| text.as_str() == entry)
}

/// Returns whether an entry is a package's name and version and the text of a source in parentheses.
fn is_with_source(
    alloc: Global,
    package: &Package,
    source: &str,
    entry: &str,
) -> Result<bool, AllocError>
    ensures { IfOk result (λ b. b ≡ pointwise nat_eq (with_source «package».now source.now) entry.now) }
{
    let text = with_source(alloc, package, source)?;
    Ok(text.as_str() == entry)
}

/// Returns whether an entry is one of the texts with a source that fit a package from this source.
fn is_from(
    alloc: Global,
    old: bool,
    package: &Package,
    source: &str,
    entry: &str,
) -> Result<bool, AllocError>
    ensures { IfOk result (λ b. b ≡ list_any (λ text. pointwise nat_eq text entry.now) (with_source «package».now source.now
        ∷ with_source «package».now (without_precise source.now) ∷ with_source «package».now (in_entries old source.now) ∷ [])) }
{
    if is_with_source(alloc, package, source, entry)? {
        return Ok(true);
    }
    if is_with_source(alloc, package, without_precise(source), entry)? {
        return Ok(true);
    }
    is_with_source(alloc, package, in_entries(old, source), entry)
}

/// Returns whether an entry is one of the texts with a source that fit a package.
fn fits_source(alloc: Global, old: bool, package: &Package, entry: &str) -> Result<bool, AllocError>
    ensures { IfOk result (λ b. b ≡ list_any (λ text. pointwise nat_eq text entry.now) (source_texts old «package».now «package».now.source)) }
{
    match &package.source {
        Some(source) => {
            let source = source.to_string(alloc)?;
            is_from(alloc, old, package, source.as_str(), entry)
        }
        None => Ok(false),
    }
}

/// Returns whether an entry is one of the texts that fit a package. None of them is listed.
fn fits_alone(alloc: Global, candidate: &Candidate<'_>, entry: &str) -> Result<bool, AllocError>
    ensures { IfOk result (λ b. b ≡ fits entry.now candidate.now) }
{
    let package = candidate.package;
    if package.name.as_str() == entry || is_release(package, entry) {
        return Ok(true);
    }
    fits_source(alloc, candidate.old, package, entry)
}

/// Returns the text of a source without its precise part.
fn without_precise(source: &str) -> &str
    ensures { result.now ≡ without_precise source.now }
{
    match source.rsplit_once('#') {
        Some((before, _)) => before,
        None => source,
    }
}

/// Returns the text of a source without the branch `master` at its end.
fn without_master(source: &str) -> &str
    ensures { result.now ≡ without_master source.now }
{
    match source.strip_suffix("?branch=master") {
        Some(before) => before,
        None => source,
    }
}

/// Returns the text of a source in entries.
fn in_entries(old: bool, source: &str) -> &str
    ensures { result.now ≡ in_entries old source.now }
{
    let source = without_precise(source);
    if old { without_master(source) } else { source }
}

/// Returns whether a lockfile is one without a version.
pub(crate) fn is_old(table: &Table) -> bool
    ensures { result ≡ is_old (table_view table.now) }
{
    let root = Section {
        table,
        name: "",
        place: TablePlace::unknown(),
    };
    root.get("version").is_none()
}

/// Returns a package's name and version.
fn with_version(alloc: Global, package: &Package) -> Result<Text, AllocError>
    ensures { IfOk result (λ text. text ≡ with_version «package».now) }
{
    let text = format!(in alloc; "{} {}", package.name, package.version)?;
    Ok(Text::from(text))
}

/// Returns a package's name and version, and the text of a source in parentheses.
fn with_source(alloc: Global, package: &Package, source: &str) -> Result<Text, AllocError>
    ensures { IfOk result (λ text. text ≡ with_source «package».now source.now) }
{
    let text = format!(in alloc; "{} {} ({source})", package.name, package.version)?;
    Ok(Text::from(text))
}

/// Returns the entries that fit a package.
fn texts_of(alloc: Global, old: bool, package: &Package) -> Result<Items<Text>, AllocError>
    ensures { IfOk result (λ texts. texts ≡ texts_of old «package».now) }
{
    let mut texts = Items::new(alloc);
    texts.push(Text::from_str(alloc, package.name.as_str())?)?;
    texts.push(with_version(alloc, package)?)?;
    if let Some(source) = &package.source {
        let source = source.to_string(alloc)?;
        let full = source.as_str();
        texts.push(with_source(alloc, package, full)?)?;
        texts.push(with_source(alloc, package, without_precise(full))?)?;
        texts.push(with_source(alloc, package, in_entries(old, full))?)?;
    }
    Ok(texts)
}

/// Returns a package for entries, whose texts are listed if requested.
pub(crate) fn candidate_of<'a>(
    alloc: Global,
    old: bool,
    package: &'a Package,
    listed: bool,
) -> Result<Candidate<'a>, AllocError>
    ensures { IfOk result (λ candidate. candidate ≡ candidate_of old «package».now) }
{
    let texts = if listed {
        Some(texts_of(alloc, old, package)?)
    } else {
        None
    };
    Ok(Candidate {
        old,
        package,
        texts,
    })
}
