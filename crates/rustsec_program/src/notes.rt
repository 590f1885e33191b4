//! Makes the notes on what a check looks at.

ghost use Rattle.std.specs.Prelude.{◌≡◌, ◌++◌, [], IfOk, OnOk, length, slice_index_or};
ghost use Rattle.std.specs.List.{list_any};
ghost use Rattle.std.specs.Option.{option_copied};
ghost use Rattle.rustsec_program.specs.Checked.{index_notes};
ghost use Rattle.rustsec_program.specs.Notes.{dependency_note, dependency_notes, dependency_notes_at, empty_notes, is_from_elsewhere, is_from_sparse, is_sparse, kind_note, kind_notes, note_if, source_notes, unknown_kind};

use crate::locked::Loaded;
use crate::wanted::{Wanted, joined, push_if};
use rustsec_lock::SourceKind;
use rustsec_lock::package::Package;
use rustsec_registry::YankedPackages;
use rustsec_texts::Informational;
use rustsec_values::{Items, Text};
use std::alloc::{AllocError, Global};
use std::fmt::Write as _;

/// Returns the note on a kind of informational advisories that gives no warnings.
#[tactic(auto, unfolding(crate::specs::Notes::unknown_kind))]
fn unknown_kind(alloc: Global, kind: &Informational) -> Result<Text, AllocError>
    ensures { IfOk result (λ t. t ≡ unknown_kind kind.now) }
{
    let name = kind.as_str();
    let note = format!(in alloc;
        "`{name}` at `informational_warnings` is not a kind that gives warnings"
    )?;
    Ok(Text::from(note))
}

/// Appends the note on a kind of informational advisories, if it gives no warnings.
fn push_kind_note(
    alloc: Global,
    notes: &mut Items<Text>,
    kind: &Informational,
) -> Result<(), AllocError>
    ensures { OnOk result (notes.new ≡ notes.old ++ kind_note kind.now) }
{
    if kind.is_other() {
        let note = unknown_kind(alloc, kind)?;
        notes.push(note)?;
    }
    Ok(())
}

/// Appends the notes on kinds of informational advisories that give no warnings.
fn push_kind_notes(
    alloc: Global,
    notes: &mut Items<Text>,
    kinds: &[Informational],
) -> Result<(), AllocError>
    ensures { OnOk result (notes.new ≡ notes.old ++ kind_notes kinds.now) }
{
    for kind in kinds {
        push_kind_note(alloc, notes, kind)?;
    }
    Ok(())
}

/// Appends the notes on a database without advisories and on a lockfile without packages.
fn push_empty(
    alloc: Global,
    notes: &mut Items<Text>,
    advisories: usize,
    packages: usize,
) -> Result<(), AllocError>
    ensures { OnOk result (notes.new ≡ notes.old ++ empty_notes advisories packages) }
{
    push_if(
        alloc,
        notes,
        advisories == 0,
        "the database has no advisory",
    )?;
    push_if(alloc, notes, packages == 0, "the lockfile has no package")
}

/// Returns whether a kind of source is a sparse index.
fn is_sparse(kind: SourceKind) -> bool
    ensures { result ≡ is_sparse kind }
{
    match kind {
        SourceKind::SparseRegistry => true,
        _ => false,
    }
}

/// Returns whether a package has a source that is not the default registry.
#[tactic(auto, unfolding(crate::specs::Notes::is_from_elsewhere))]
fn is_from_elsewhere(package: &Package) -> bool
    ensures { result ≡ is_from_elsewhere «package».now }
{
    match &package.source {
        Some(source) => !source.is_default_registry(),
        None => false,
    }
}

/// Returns whether a package is from the sparse index of the default registry.
#[tactic(auto, unfolding(crate::specs::Notes::is_from_sparse))]
fn is_from_sparse(package: &Package) -> bool
    ensures { result ≡ is_from_sparse «package».now }
{
    match &package.source {
        Some(source) => is_sparse(source.kind()) && source.is_default_registry(),
        None => false,
    }
}

/// Returns whether some package has a source that is not the default registry.
fn some_from_elsewhere(packages: &[Package]) -> bool
    ensures { result ≡ list_any is_from_elsewhere packages.now }
{
    packages.iter().any(|package| is_from_elsewhere(package))
}

/// Returns whether some package is from the sparse index of the default registry.
fn some_from_sparse(packages: &[Package]) -> bool
    ensures { result ≡ list_any is_from_sparse packages.now }
{
    packages.iter().any(|package| is_from_sparse(package))
}

/// Appends the notes on packages from elsewhere, which are not audited, and on those from the sparse index.
fn push_source_notes(
    alloc: Global,
    notes: &mut Items<Text>,
    packages: &[Package],
) -> Result<(), AllocError>
    ensures { OnOk result (notes.new ≡ notes.old ++ source_notes packages.now) }
{
    push_if(
        alloc,
        notes,
        some_from_elsewhere(packages),
        "some packages are not from the default registry, and are not audited",
    )?;
    push_if(
        alloc,
        notes,
        some_from_sparse(packages),
        "some packages are from the sparse index of the default registry, which advisories without a source do not match",
    )
}

/// Returns the note on a dependency entry of a package that names no package of the lockfile, or several.
#[tactic(auto, unfolding(crate::specs::Notes::dependency_note))]
fn dependency_note(alloc: Global, package: &Package, entry: &str) -> Result<Text, AllocError>
    ensures { IfOk result (λ t. t ≡ dependency_note «package».now entry.now) }
{
    let version = &package.version;
    let mut note = String::from_str(alloc, package.name.as_str())?;
    write!(
        note,
        " {version}: dependency `{entry}` names no package, or several"
    )?;
    Ok(Text::from(note))
}

/// Returns the texts at a place, or none past the end.
fn texts_at(lists: &[Items<Text>], place: usize) -> &[Text]
    ensures { result.now ≡ slice_index_or lists.now place [] }
{
    match lists.get(place) {
        Some(texts) => texts.as_slice(),
        None => &[],
    }
}

/// Appends the notes on the entries of the package at a place that name no package, or several.
fn push_notes_at(
    alloc: Global,
    notes: &mut Items<Text>,
    unresolved: &[Items<Text>],
    place: usize,
    package: &Package,
) -> Result<(), AllocError>
    ensures { OnOk result (notes.new ≡ notes.old ++ dependency_notes_at unresolved.now (place, «package».now)) }
{
    let entries = texts_at(unresolved, place);
    for entry in entries {
        let note = dependency_note(alloc, package, entry.as_str())?;
        notes.push(note)?;
    }
    Ok(())
}

/// Appends the notes on all entries that name no package, or several.
fn push_dependency_notes(
    alloc: Global,
    notes: &mut Items<Text>,
    packages: &[Package],
    unresolved: &[Items<Text>],
) -> Result<(), AllocError>
    ensures { OnOk result (notes.new ≡ notes.old ++ dependency_notes packages.now unresolved.now) }
{
    for (place, package) in packages.iter().enumerate() {
        push_notes_at(alloc, notes, unresolved, place, package)?;
    }
    Ok(())
}

/// Returns notes and then those on the packages that an index does not list, if one was asked.
fn with_index_notes(
    notes: Items<Text>,
    yanked: Option<&YankedPackages>,
) -> Result<Items<Text>, AllocError>
    ensures { IfOk result (λ all. all ≡ notes ++ index_notes (option_copied yanked.entry)) }
{
    let Some(yanked) = yanked else {
        return Ok(notes);
    };
    let unlisted = Clone::clone(&yanked.unlisted)?;
    joined(notes, unlisted)
}

/// Returns the notes on a check: those on the policy and on the kinds of warnings, those on what is empty, by the number
/// of advisories, those on the sources and the dependencies of the lockfile's packages, and those on the index.
pub fn notes_of(
    alloc: Global,
    wanted: &Wanted,
    advisories: usize,
    loaded: &Loaded,
) -> Result<Items<Text>, AllocError>
    ensures { IfOk result (λ notes. notes ≡ ((((wanted.now.notes ++ kind_notes wanted.now.settings.informational_warnings)
        ++ empty_notes advisories (length loaded.now.locked.packages))
        ++ source_notes loaded.now.locked.packages)
        ++ dependency_notes loaded.now.locked.packages loaded.now.locked.graph.unresolved)
        ++ index_notes loaded.now.yanked) }
{
    let locked = &loaded.locked;
    let packages = locked.lockfile.packages.as_slice();
    let mut notes = Clone::clone(&wanted.notes)?;
    let kinds = &wanted.settings.informational_warnings;
    push_kind_notes(alloc, &mut notes, kinds.as_slice())?;
    push_empty(alloc, &mut notes, advisories, packages.len())?;
    push_source_notes(alloc, &mut notes, packages)?;
    push_dependency_notes(alloc, &mut notes, packages, locked.graph.unresolved())?;
    with_index_notes(notes, loaded.yanked.as_ref())
}
