//! The packages that depend on each package.

ghost use Rattle.std.specs.Prelude.{◌≡◌, ◌++◌, ◌<◌, ◌==◌, ◌∷◌, [], if◌then◌else◌, IfOk, OnErr, OnOk, false, length, slice_index_or, ℕ};
ghost use Rattle.std.specs.List.{list_any};
ghost use Rattle.rustsec_graph.specs.Edges.{dependents};
ghost use Rattle.rustsec_graph.specs.Reverse.{ends_with, with_last};

use rustsec_values::Items;
use std::alloc::{AllocError, Global};

/// Returns whether a list of places ends with a place.
fn ends_with(places: &[usize], place: usize) -> bool
    ensures { result ≡ ends_with place places.now }
{
    places.last().map_or(false, |last| *last == place)
}

/// Appends a place to the list of another place, if there is a list that does not end with it.
fn push_at(lists: &mut Vec<Items<usize>>, at: usize, place: usize) -> Result<(), AllocError>
    ensures len { length lists.new.items ≡ length lists.old.items }
    ensures ok { OnOk result ((p : ℕ) → p < length lists.old.items → slice_index_or lists.new.items p []
        ≡ (if at == p then with_last place (slice_index_or lists.old.items p []) else slice_index_or lists.old.items p [])) }
{
    if at < lists.len() && !ends_with(lists[at].as_slice(), place) {
        lists[at].push(place)?;
    }
    Ok(())
}

/// Appends a place to the list of each of its successors, once. No list ends with the place before.
fn push_dependent(
    lists: &mut Vec<Items<usize>>,
    place: usize,
    successors: &[usize],
) -> Result<(), AllocError>
    requires { (p : ℕ) → p < length lists.old.items → ends_with place (slice_index_or lists.old.items p []) ≡ false }
    ensures len { length lists.new.items ≡ length lists.old.items }
    ensures ok { OnOk result ((p : ℕ) → p < length lists.old.items → slice_index_or lists.new.items p []
        ≡ slice_index_or lists.old.items p [] ++ (if list_any (λ to. to == p) successors.now then place ∷ [] else [])) }
{
    for to in successors {
        push_at(lists, *to, place)?;
    }
    Ok(())
}

/// Returns the given number of empty lists.
fn empty_lists(alloc: Global, count: usize) -> Result<Vec<Items<usize>>, AllocError>
    ensures len { IfOk result (λ v. length v.items ≡ count) }
    ensures empty { IfOk result (λ v. (p : ℕ) → slice_index_or v.items p [] ≡ []) }
{
    let mut lists = Vec::new(alloc);
    for _ in 0..count {
        lists.push(Items::new(alloc)).map_err(|_| AllocError)?;
    }
    Ok(lists)
}

/// Returns for each place those with an edge to it, in order.
pub(crate) fn reversed(
    alloc: Global,
    edges: &[Items<usize>],
) -> Result<Vec<Items<usize>>, AllocError>
    ensures len { IfOk result (λ v. length v.items ≡ length edges.now) }
    ensures each { IfOk result (λ v. (p : ℕ) → p < length edges.now → slice_index_or v.items p [] ≡ dependents edges.now p) }
{
    let mut lists = empty_lists(alloc, edges.len())?;
    for (place, successors) in edges.iter().enumerate() {
        push_dependent(&mut lists, place, successors.as_slice())?;
    }
    Ok(lists)
}

/// Returns a copy of a list of places.
pub(crate) fn copied(alloc: Global, places: &[usize]) -> Result<Vec<usize>, AllocError>
    ensures ok { IfOk result (λ v. v.items ≡ places.now) }

    // An empty list takes no memory.
    ensures none { OnErr result (0 < length places.now) }
{
    if places.is_empty() {
        return Ok(Vec::new(alloc));
    }
    places.to_vec(alloc)
}
