//! An index of advisories by the names of their packages.

ghost use Rattle.std.specs.Prelude.{◌≡◌, ◌++◌, ◌%◌, ◌<◌, ◌==◌, ◌∷◌, [], if◌then◌else◌, ℕ, IfErr, IfOk, OnOk, length, slice_index_or};
ghost use Rattle.rustsec_values.specs.Failure.{IsMemory};
ghost use Rattle.rustsec_database.specs.Postings.{IsIndexOf};

use crate::posting::Posting;
use crate::slot::Slot;
use rustsec_advisory::Advisory;
use rustsec_values::{Items, Result};
use std::alloc::{AllocError, Global};
use std::marker::Model;

/// Lists of postings. A posting is in the list whose place is the remainder of its digest by the number of lists.
#[derive(Debug, Drop)]
pub(crate) struct NameIndex {
    lists: Vec<Items<Posting>>,
}

impl Model for NameIndex {
    ghost use Rattle.std.specs.Prelude.{ℕ, List};
    ghost use Rattle.rustsec_versions.specs.ranges.Ranges.{Range};

    ghost Value = { List (List (ℕ × ℕ × Range)) };

    ghost view = { λ i. i.lists.items };
}

/// Returns the given number of empty lists.
fn empty_lists(alloc: Global, count: usize) -> std::result::Result<Vec<Items<Posting>>, AllocError>
    ensures len { IfOk result (λ v. length v.items ≡ count) }
    ensures empty { IfOk result (λ v. (place : ℕ) → slice_index_or v.items place [] ≡ []) }
{
    let mut lists = Vec::new(alloc);
    for _ in 0..count {
        lists.push(Items::new(alloc)).map_err(|_| AllocError)?;
    }
    Ok(lists)
}

/// Appends a posting to the list at a place, if any. The first one gets room for one: most lists have no other, and a search
/// has less memory to look at.
fn push_at(
    alloc: Global,
    lists: &mut Vec<Items<Posting>>,
    at: usize,
    posting: Posting,
) -> std::result::Result<(), AllocError>
    ensures len { length lists.new.items ≡ length lists.old.items }
    ensures ok { OnOk result ((place : ℕ) → place < length lists.old.items → slice_index_or lists.new.items place []
        ≡ (if at == place then slice_index_or lists.old.items place [] ++ posting ∷ [] else slice_index_or lists.old.items place [])) }
{
    if at < lists.len() {
        if lists[at].is_empty() {
            let mut list = Vec::with_capacity(alloc, 1)?;
            list.push(posting).map_err(|_| AllocError)?;
            lists[at] = Items::from(list);
        } else {
            lists[at].push(posting)?;
        }
    }
    Ok(())
}

/// Appends a posting to the list for its digest.
fn insert(
    alloc: Global,
    lists: &mut Vec<Items<Posting>>,
    posting: Posting,
) -> std::result::Result<(), AllocError>
    ensures len { length lists.new.items ≡ length lists.old.items }
    ensures ok { OnOk result ((place : ℕ) → place < length lists.old.items → slice_index_or lists.new.items place []
        ≡ (if posting.0 % length lists.old.items == place then slice_index_or lists.old.items place [] ++ posting ∷ []
        else slice_index_or lists.old.items place [])) }
{
    match posting.digest().checked_rem(lists.len()) {
        Some(at) => push_at(alloc, lists, at, posting),
        None => Ok(()),
    }
}

impl NameIndex {
    /// Returns the index of some advisories. The slot of each is its place among them. There are two lists for each, so that
    /// most have one posting at most, and one more, so that there is one.
    ///
    /// # Errors
    ///
    /// `OutOfMemory` alone.
    pub(crate) fn of(alloc: Global, advisories: &[Advisory]) -> Result<NameIndex>
        ensures ok { IfOk result (IsIndexOf advisories.now) }
        ensures err { IfErr result IsMemory }
    {
        let count = advisories.len().saturating_mul(2).saturating_add(1);
        let mut lists = empty_lists(alloc, count)?;
        for (place, advisory) in advisories.iter().enumerate() {
            let slot = Slot::new(place);
            let posting = Posting::new(advisory, slot);
            insert(alloc, &mut lists, posting)?;
        }
        Ok(NameIndex { lists })
    }

    /// Returns the list for a digest, with the postings of all advisories whose packages have names of this digest.
    pub(crate) fn postings(&self, digest: usize) -> &[Posting]
        ensures { result.now ≡ slice_index_or self.now (digest % length self.now) [] }
    {
        let Some(at) = digest.checked_rem(self.lists.len()) else {
            return &[];
        };
        match self.lists.get(at) {
            Some(list) => list.as_slice(),
            None => &[],
        }
    }
}
