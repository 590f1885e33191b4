//! The edges between the packages of a lockfile.

ghost use Rattle.std.specs.Prelude.{◌≡◌, ◌<◌, ◌==◌, ◌&&◌, ◌||◌, not, false, IfOk, length, map, option_map, slice_get, slice_index_or, ℕ};
ghost use Rattle.std.specs.List.{list_any, range_with_len};
ghost use Rattle.toml.specs.View.{table_view, view};
ghost use Rattle.rustsec_graph.specs.Edges.{is_needed, targets_at, targets_in, unresolved_at, unresolved_in};
ghost use Rattle.rustsec_graph.specs.Entries.{places};
ghost use Rattle.rustsec_graph.specs.Graph.{is_local, roots_of};

use crate::entries::{Resolution, packages_in, resolve, value_in};
use crate::index::Index;
use rustsec_lock::package::Package;
use rustsec_values::{Items, Text};
use std::alloc::{AllocError, Global};
use toml::{Table, Value};

/// The places that each package depends on, and the texts of the entries of each that name no package.
pub(crate) struct Resolved {
    pub(crate) edges: Items<Items<usize>>,
    pub(crate) unresolved: Items<Items<Text>>,
}

/// Returns what the entries of a package name, by the values of the array `package`.
fn resolve_at(
    alloc: Global,
    packages: Option<&[Value]>,
    index: &Index<'_>,
    place: usize,
) -> Result<Resolution, AllocError>
    ensures targets { IfOk result (λ r. r.targets ≡ targets_in index.now (option_map (λ vs. map view vs.now) packages.entry) place) }
    ensures unresolved { IfOk result (λ r. r.unresolved ≡ unresolved_in index.now (option_map (λ vs. map view vs.now) packages.entry) place) }
{
    let dependencies = value_in(packages, "dependencies", place);
    resolve(
        alloc,
        index,
        dependencies,
        value_in(packages, "replace", place),
    )
}

/// Returns what the entries of the first packages of a table name.
pub(crate) fn resolve_all(
    alloc: Global,
    table: &Table,
    index: &Index<'_>,
) -> Result<Resolved, AllocError>
    ensures edges { IfOk result (λ r. r.edges
        ≡ map (targets_at index.now (table_view table.now)) (range_with_len 0 (length index.now))) }
    ensures unresolved { IfOk result (λ r. r.unresolved
        ≡ map (unresolved_at index.now (table_view table.now)) (range_with_len 0 (length index.now))) }
{
    let packages = packages_in(table);
    let mut edges = Items::new(alloc);
    let mut unresolved = Items::new(alloc);
    for place in 0..index.candidates().len() {
        let Resolution {
            targets,
            unresolved: missing,
        } = resolve_at(alloc, packages, index, place)?;
        edges.push(targets)?;
        unresolved.push(missing)?;
    }
    Ok(Resolved { edges, unresolved })
}

/// Marks the successors of a place, but not the place itself.
fn mark(needed: &mut Vec<bool>, from: usize, successors: &[usize])
    ensures len { length needed.new.items ≡ length needed.old.items }
    ensures marks { (place : ℕ) → place < length needed.old.items → slice_index_or needed.new.items place false
        ≡ (slice_index_or needed.old.items place false || (not (from == place) && list_any (λ to. to == place) successors.now)) }
{
    for to in successors {
        if *to != from && *to < needed.len() {
            needed[*to] = true;
        }
    }
}

/// Returns for each place whether another one has an edge to it.
fn needed_of(alloc: Global, edges: &[Items<usize>]) -> Result<Vec<bool>, AllocError>
    ensures len { IfOk result (λ v. length v.items ≡ length edges.now) }
    ensures needed { IfOk result (λ v. (place : ℕ) → place < length edges.now → slice_index_or v.items place false ≡ is_needed edges.now place) }
{
    let mut needed = vec![in alloc; false; edges.len()]?;
    for (from, successors) in edges.iter().enumerate() {
        mark(&mut needed, from, successors.as_slice());
    }
    Ok(needed)
}

/// Returns the mark at a place, or `false` past the end.
fn is_marked(marks: &[bool], place: usize) -> bool
    ensures { result ≡ slice_index_or marks.now place false }
{
    match marks.get(place) {
        Some(mark) => *mark,
        None => false,
    }
}

/// Returns whether there is a package at a place, and it has no source.
fn is_local(packages: &[Package], place: usize) -> bool
    ensures { result ≡ is_local (slice_get packages.now place) }
{
    match packages.get(place) {
        Some(package) => package.source.is_none(),
        None => false,
    }
}

/// Returns whether a package is local, or no other one depends on it, by the places to which another one has an edge.
fn is_root(packages: &[Package], needed: &Vec<bool>, place: usize) -> bool
    ensures { result ≡ (is_local (slice_get packages.now place) || not (slice_index_or needed.now.items place false)) }
{
    is_local(packages, place) || !is_marked(needed, place)
}

/// Returns the roots: the local packages, and those on which no other one depends.
pub(crate) fn roots_of(
    alloc: Global,
    packages: &[Package],
    edges: &[Items<usize>],
) -> Result<Vec<usize>, AllocError>
    ensures { IfOk result (λ v. v.items ≡ roots_of packages.now edges.now) }
{
    let needed = needed_of(alloc, edges)?;
    let mut roots = Vec::new(alloc);
    for place in 0..edges.len() {
        if is_root(packages, &needed, place) {
            roots.push(place)?;
        }
    }
    Ok(roots)
}
