//! Extracts from a document what other programs need: its crates, and the IDs that it refers to.

ghost use Rattle.std.specs.Prelude.{◌≡◌, ◌++◌, ◌∷◌, [], IfErr, IfOk, List, None, OnOk, Some, map, option_map, string_bytes};
ghost use Rattle.std.specs.Str.{IsAscii};
ghost use Rattle.rustsec_lock.specs.Names.{name_cmp};
ghost use Rattle.rustsec_texts.specs.IdOrder.{id_order};
ghost use Rattle.rustsec_texts.specs.Ids.{IdValue};
ghost use Rattle.rustsec_values.specs.Failure.{IsMemory, IsRefusal};
ghost use Rattle.rustsec_osv.specs.Imports.{AreDistinct, crate_names, is_crate, is_page, linked_id, linked_ids, linked_text};

use crate::affected::OsvAffected;
use crate::document::OsvAdvisory;
use crate::export::members::ECOSYSTEM;
use crate::reference::OsvReference;
use rustsec_texts::{Address, Id};
use rustsec_values::{ErrorKind, Items, Result, text_error};
use std::alloc::{AllocError, Global};

/// The beginning of the addresses of RustSec's advisories.
const PAGE: &str = "https://rustsec.org/advisories/";

/// The number of bytes of an ID in such an address.
const ID_LENGTH: usize = 17;

/// Returns whether an affected package is one of crates.io.
fn is_crate(affected: &OsvAffected) -> bool
    ensures { result ≡ is_crate affected.now }
{
    affected.package.ecosystem.as_str() == ECOSYSTEM
}

/// Appends the name of an affected package, if it is one of crates.io.
fn add_name(
    alloc: Global,
    member: &OsvAffected,
    names: &mut Vec<String>,
) -> std::result::Result<(), AllocError>
    ensures { OnOk result (map string_bytes names.new.items ≡ map string_bytes names.old.items ++ crate_names (member.now ∷ [])) }
{
    if is_crate(member) {
        names.push(String::from_str(alloc, member.package.name.as_str())?)?;
    }
    Ok(())
}

/// Returns the names of the affected packages of crates.io, in the order of the document.
fn crate_names(
    alloc: Global,
    members: &[OsvAffected],
) -> std::result::Result<Vec<String>, AllocError>
    ensures { IfOk result (λ v. map string_bytes v.items ≡ crate_names members.now) }
{
    let mut names = Vec::new(alloc);
    for member in members {
        add_name(alloc, member, &mut names)?;
    }
    Ok(names)
}

/// Returns the part of an address that should be an ID, if it is long enough.
fn linked_text(address: &str) -> Option<&str>
    requires { IsAscii address.now }
    ensures { option_map (λ t. t.now) result ≡ linked_text address.now }
{
    if address.len() < PAGE.len() + ID_LENGTH {
        return None;
    }
    Some(&address[PAGE.len()..PAGE.len() + ID_LENGTH])
}

/// Parses the ID in an address of RustSec's pages.
fn linked_id(alloc: Global, address: &Address) -> Result<Id>
    ensures ok { IfOk result (λ i. linked_id address.now ≡ Some i) }
    ensures err { IfErr result (IsRefusal ErrorKind.Parse (linked_id address.now ≡ None)) }
{
    let address = address.as_str();
    match linked_text(address) {
        Some(text) => Id::from_str(alloc, text),
        None => Err(text_error(
            alloc,
            "malformed link to an advisory",
            address,
            "an ID of 17 bytes after `https://rustsec.org/advisories/`",
        )),
    }
}

/// Returns whether an address begins as those of RustSec's advisories do.
fn is_page(address: &str) -> bool
    ensures { result ≡ is_page address.now }
{
    address.starts_with(PAGE)
}

/// Appends the ID in a reference, if that is a page of RustSec's advisories.
fn add_id(alloc: Global, reference: &OsvReference, ids: &mut Items<Id>) -> Result<()>
    ensures ok { OnOk result ((more : List IdValue) × (linked_ids (reference.now ∷ []) ≡ Some more) × (ids.new ≡ ids.old ++ more)) }
    ensures err { IfErr result (IsRefusal ErrorKind.Parse (linked_ids (reference.now ∷ []) ≡ None)) }
{
    if is_page(reference.url.as_str()) {
        let id = linked_id(alloc, &reference.url)?;
        ids.push(id)?;
    }
    Ok(())
}

/// Returns the IDs in the references that are pages of RustSec's advisories, in the order of the document.
fn linked_ids(alloc: Global, references: &[OsvReference]) -> Result<Items<Id>>
    ensures ok { IfOk result (λ v. linked_ids references.now ≡ Some v) }
    ensures err { IfErr result (IsRefusal ErrorKind.Parse (linked_ids references.now ≡ None)) }
{
    let mut ids = Items::new(alloc);
    for reference in references {
        add_id(alloc, reference, &mut ids)?;
    }
    Ok(ids)
}

/// Returns the distinct names, in the order of their bytes.
fn distinct_names(mut names: Vec<String>) -> std::result::Result<Vec<String>, AllocError>
    ensures { IfOk result (λ v. AreDistinct name_cmp (map string_bytes names.items) (map string_bytes v.items)) }
{
    names.sort()?;
    names.dedup();
    Ok(names)
}

/// Returns the distinct IDs, in their order.
fn distinct_ids(mut ids: Vec<Id>) -> std::result::Result<Vec<Id>, AllocError>
    ensures { IfOk result (λ v. AreDistinct id_order ids.items v.items) }
{
    ids.sort()?;
    ids.dedup();
    Ok(ids)
}

impl OsvAdvisory {
    /// Returns the names of the affected packages of crates.io, in the order of their bytes, each once.
    ///
    /// # Errors
    ///
    /// `OutOfMemory` alone.
    pub fn crates(&self, alloc: Global) -> Result<Vec<String>>
        ensures ok { IfOk result (λ v. AreDistinct name_cmp (crate_names self.now.affected) (map string_bytes v.items)) }
        ensures err { IfErr result IsMemory }
    {
        let names = crate_names(alloc, self.affected.as_slice())?;
        let distinct = distinct_names(names)?;
        Ok(distinct)
    }

    /// Returns the IDs in the references that are pages of RustSec's advisories, in the order of IDs, each once. The
    /// text of an ID is the 17 bytes after `https://rustsec.org/advisories/`, whatever follows.
    ///
    /// # Errors
    ///
    /// `Parse` if fewer bytes follow, or they are not an ID; else `OutOfMemory`.
    pub fn rustsec_refs_imported(&self, alloc: Global) -> Result<Vec<Id>>
        ensures ok { IfOk result (λ v. (ids : List IdValue) × (linked_ids self.now.references ≡ Some ids) × AreDistinct id_order ids v.items) }
        ensures err { IfErr result (IsRefusal ErrorKind.Parse (linked_ids self.now.references ≡ None)) }
    {
        let ids = linked_ids(alloc, self.references.as_slice())?;
        let distinct = distinct_ids(Vec::from(ids))?;
        Ok(distinct)
    }
}
