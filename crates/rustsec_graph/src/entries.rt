//! Which package a dependency entry names.

ghost use Rattle.std.specs.Prelude.{◌≡◌, ◌++◌, ◌∷◌, [], IfOk, OnOk, filter_map, length, map, option_map};
ghost use Rattle.std.specs.List.{filter, list_all};
ghost use Rattle.std.specs.Option.{option_or};
ghost use Rattle.toml.specs.View.{table_view, view};
ghost use Rattle.toml.specs.Data.{as_array};
ghost use Rattle.rustsec_graph.specs.Edges.{as_list, entry_text, replaced, targets_of, targets_of_array, unnamed_by, unreplaced, unresolved_of, unresolved_of_array};
ghost use Rattle.rustsec_graph.specs.Entries.{fits_at, found, is_local_at, is_same_release, named, named_by, next_found, only, only_local, packages_in, release_at, table_at, value_in};

use crate::candidates::Candidate;
use crate::index::Index;
use rustsec_toml::{Section, TablePlace};
use rustsec_values::{Items, Text};
use std::alloc::{AllocError, Global};
use toml::{Table, Value};

/// Returns whether an entry fits the package at a place.
fn fits_at(
    alloc: Global,
    candidates: &[Candidate<'_>],
    entry: &str,
    place: usize,
) -> Result<bool, AllocError>
    ensures { IfOk result (λ b. b ≡ fits_at candidates.now entry.now place) }
{
    match candidates.get(place) {
        Some(candidate) => candidate.fits(alloc, entry),
        None => Ok(false),
    }
}

/// Returns whether the package at a place is local.
fn is_local_at(candidates: &[Candidate<'_>], place: usize) -> bool
    ensures { result ≡ is_local_at candidates.now place }
{
    match candidates.get(place) {
        Some(candidate) => candidate.is_local(),
        None => false,
    }
}

/// Returns the name and the version of the package at a place.
fn release_at(alloc: Global, candidates: &[Candidate<'_>], place: usize) -> Result<Text, AllocError>
    ensures { IfOk result (λ text. text ≡ release_at candidates.now place) }
{
    match candidates.get(place) {
        Some(candidate) => candidate.release(alloc),
        None => Text::from_str(alloc, ""),
    }
}

/// Returns whether the packages at two places have the same name and version.
fn is_same_release(
    alloc: Global,
    candidates: &[Candidate<'_>],
    a: usize,
    b: usize,
) -> Result<bool, AllocError>
    ensures { IfOk result (λ same. same ≡ is_same_release candidates.now a b) }
{
    let first = release_at(alloc, candidates, a)?;
    let second = release_at(alloc, candidates, b)?;
    Ok(first.as_str() == second.as_str())
}

/// Returns those of these places whose packages an entry fits.
fn fitting_among(
    alloc: Global,
    candidates: &[Candidate<'_>],
    entry: &str,
    places: &[usize],
) -> Result<Vec<usize>, AllocError>
    ensures { IfOk result (λ v. v.items ≡ filter (fits_at candidates.now entry.now) places.now) }
{
    let mut fitting = Vec::new(alloc);
    for place in places {
        if fits_at(alloc, candidates, entry, *place)? {
            fitting.push(*place)?;
        }
    }
    Ok(fitting)
}

/// Returns the only place of a list.
fn only(places: &[usize]) -> Option<usize>
    ensures { result ≡ only places.now }
{
    match places {
        [place] => Some(*place),
        _ => None,
    }
}

/// Returns what is found after one more place: the place if it is the only one, else none.
fn next_found(found: Option<Option<usize>>, place: usize) -> Option<Option<usize>>
    ensures { result ≡ next_found found place }
{
    match found {
        None => Some(Some(place)),
        Some(_) => Some(None),
    }
}

/// Returns what is found after all places of local packages of a list.
fn found_local(candidates: &[Candidate<'_>], places: &[usize]) -> Option<Option<usize>>
    ensures { result ≡ found (filter (is_local_at candidates.now) places.now) }
{
    let local = places
        .iter()
        .copied()
        .filter(|place| is_local_at(candidates, *place));
    local.fold(None, |found, place| next_found(found, place))
}

/// Returns the place of the only local package of a list.
fn only_local_among(candidates: &[Candidate<'_>], places: &[usize]) -> Option<usize>
    ensures { result ≡ only (filter (is_local_at candidates.now) places.now) }
{
    match found_local(candidates, places) {
        Some(found) => found,
        None => None,
    }
}

/// Returns whether all packages of a list have the name and version of the one at a place.
fn have_release(
    alloc: Global,
    candidates: &[Candidate<'_>],
    places: &[usize],
    place: usize,
) -> Result<bool, AllocError>
    ensures { IfOk result (λ all. all ≡ list_all (λ x. is_same_release candidates.now x place) places.now) }
{
    for other in places {
        if !is_same_release(alloc, candidates, *other, place)? {
            return Ok(false);
        }
    }
    Ok(true)
}

/// Returns the place of the only local package of a list, if all packages of the list have its name and version.
fn only_local(
    alloc: Global,
    candidates: &[Candidate<'_>],
    places: &[usize],
) -> Result<Option<usize>, AllocError>
    ensures { IfOk result (λ place. place ≡ only_local candidates.now places.now) }
{
    let Some(place) = only_local_among(candidates, places) else {
        return Ok(None);
    };
    if have_release(alloc, candidates, places, place)? {
        Ok(Some(place))
    } else {
        Ok(None)
    }
}

/// Returns the place that an entry names, by the places of the packages that it fits.
fn named_among(
    alloc: Global,
    candidates: &[Candidate<'_>],
    places: &[usize],
) -> Result<Option<usize>, AllocError>
    ensures { IfOk result (λ place. place ≡ option_or (only places.now) (only_local candidates.now places.now)) }
{
    match only(places) {
        Some(place) => Ok(Some(place)),
        None => only_local(alloc, candidates, places),
    }
}

/// Returns a place if an entry fits the package there. No other package is near the entry.
fn fitting_alone(
    alloc: Global,
    candidates: &[Candidate<'_>],
    entry: &str,
    place: usize,
) -> Result<Option<usize>, AllocError>
    ensures { IfOk result (λ found. found ≡ only (filter (fits_at candidates.now entry.now) (place ∷ []))) }
{
    if fits_at(alloc, candidates, entry, place)? {
        Ok(Some(place))
    } else {
        Ok(None)
    }
}

/// Returns the place of the package that an entry names.
fn named(alloc: Global, index: &Index<'_>, entry: &str) -> Result<Option<usize>, AllocError>
    ensures { IfOk result (λ place. place ≡ named index.now entry.now) }
{
    let candidates = index.candidates();
    let near = index.near(entry);
    if let [place] = near {
        return fitting_alone(alloc, candidates, entry, *place);
    }
    let fitting = fitting_among(alloc, candidates, entry, near)?;
    named_among(alloc, candidates, fitting.as_slice())
}

/// Returns the place that a value of a list of entries names.
fn named_by(alloc: Global, index: &Index<'_>, value: &Value) -> Result<Option<usize>, AllocError>
    ensures { IfOk result (λ place. place ≡ named_by index.now (view value.now)) }
{
    match value.as_str() {
        Some(entry) => named(alloc, index, entry),
        None => Ok(None),
    }
}

/// Returns the text by which a note names an entry.
fn entry_text(alloc: Global, value: &Value) -> Result<Text, AllocError>
    ensures { IfOk result (λ t. t ≡ entry_text (view value.now)) }
{
    match value.as_str() {
        Some(entry) => Text::from_str(alloc, entry),
        None => Text::from_str(alloc, "(not a string)"),
    }
}

/// The places that the entries of a package name, and the texts of those that name none.
#[derive(Drop)]
pub(crate) struct Resolution {
    pub(crate) targets: Items<usize>,
    pub(crate) unresolved: Items<Text>,
}

impl Resolution {
    /// Returns that of no entry.
    fn new(alloc: Global) -> Resolution
        ensures targets { result.targets ≡ [] }
        ensures unresolved { result.unresolved ≡ [] }
    {
        Resolution {
            targets: Items::new(alloc),
            unresolved: Items::new(alloc),
        }
    }

    /// Adds the place that an entry names, or its text.
    fn add(&mut self, alloc: Global, index: &Index<'_>, entry: &Value) -> Result<(), AllocError>
        ensures targets { OnOk result (self.new.targets ≡ self.old.targets ++ as_list (named_by index.now (view entry.now))) }
        ensures unresolved { OnOk result (self.new.unresolved ≡ self.old.unresolved ++ as_list (unnamed_by index.now (view entry.now))) }
    {
        match named_by(alloc, index, entry)? {
            Some(place) => self.targets.push(place),
            None => self.unresolved.push(entry_text(alloc, entry)?),
        }
    }

    /// Adds the places that the entries of a list name, and the texts of the others, in their order.
    fn add_all(
        &mut self,
        alloc: Global,
        index: &Index<'_>,
        entries: &[Value],
    ) -> Result<(), AllocError>
        ensures targets { OnOk result (self.new.targets ≡ self.old.targets ++ filter_map (λ d. named_by index.now (view d)) entries.now) }
        ensures unresolved { OnOk result (self.new.unresolved ≡ self.old.unresolved ++ filter_map (λ d. unnamed_by index.now (view d)) entries.now) }
    {
        for entry in entries {
            self.add(alloc, index, entry)?;
        }
        Ok(())
    }

    /// Adds the entries of a value. One that is not a list is an entry that names no place.
    fn add_list(
        &mut self,
        alloc: Global,
        index: &Index<'_>,
        value: &Value,
    ) -> Result<(), AllocError>
        ensures targets { OnOk result (self.new.targets ≡ self.old.targets ++ targets_of_array index.now (as_array (view value.now))) }
        ensures unresolved { OnOk result (self.new.unresolved ≡ self.old.unresolved ++ unresolved_of_array index.now (as_array (view value.now))) }
    {
        match value.as_array() {
            Some(entries) => self.add_all(alloc, index, entries.as_slice()),
            None => self.unresolved.push(Text::from_str(alloc, "(not a list)")?),
        }
    }
}

/// Returns what the entries of a package name: those of the first value, and then the second value, where they are there.
pub(crate) fn resolve(
    alloc: Global,
    index: &Index<'_>,
    dependencies: Option<&Value>,
    replace: Option<&Value>,
) -> Result<Resolution, AllocError>
    ensures targets { IfOk result (λ r. r.targets ≡ targets_of index.now (option_map (λ d. view d.now) dependencies.entry)
        ++ replaced index.now (option_map (λ d. view d.now) replace.entry)) }
    ensures unresolved { IfOk result (λ r. r.unresolved ≡ unresolved_of index.now (option_map (λ d. view d.now) dependencies.entry)
        ++ unreplaced index.now (option_map (λ d. view d.now) replace.entry)) }
{
    let mut found = Resolution::new(alloc);
    if let Some(value) = dependencies {
        found.add_list(alloc, index, value)?;
    }
    if let Some(value) = replace {
        found.add(alloc, index, value)?;
    }
    Ok(found)
}

/// Returns the values of the array `package`.
pub(crate) fn packages_in(table: &Table) -> Option<&[Value]>
    ensures { option_map (λ vs. map view vs.now) result ≡ packages_in (table_view table.now) }
{
    let root = Section {
        table,
        name: "",
        place: TablePlace::unknown(),
    };
    match root.get("package") {
        Some(value) => match value.as_array() {
            Some(array) => Some(array.as_slice()),
            None => None,
        },
        None => None,
    }
}

/// Returns the table at a place of a list.
fn table_at(values: &[Value], place: usize) -> Option<&Table>
    ensures { option_map (λ t. table_view t.now) result ≡ table_at place (map view values.now) }
{
    match values.get(place) {
        Some(value) => value.as_table(),
        None => None,
    }
}

/// Returns the value at a key of the table of a package, by the values of the array `package`.
pub(crate) fn value_in<'a>(
    packages: Option<&'a [Value]>,
    key: &str,
    place: usize,
) -> Option<&'a Value>
    ensures { option_map (λ d. view d.now) result ≡ value_in key.now (option_map (λ vs. map view vs.now) packages.entry) place }
{
    let table = table_at(packages?, place)?;
    let package = Section {
        table,
        name: "",
        place: TablePlace::unknown(),
    };
    package.get(key)
}
