//! Builds the references of an advisory's document (OSV schema, `references`).

ghost use Rattle.std.specs.Prelude.{◌≡◌, ◌++◌, ◌∷◌, [], All, IfErr, IfOk, None, OnOk, Some, map, option_to_list};
ghost use Rattle.rustsec_texts.specs.Addresses.{address_of};
ghost use Rattle.rustsec_values.specs.Failure.{IsRefusal};
ghost use Rattle.rustsec_osv.specs.DocumentCodec.{IsReferenceAgain};
ghost use Rattle.rustsec_osv.specs.References.{advisory_page, has, is_advisory, is_package, is_report, kind_of, own_pages, package_page, reference_of};

use crate::reference::{OsvReference, OsvReferenceKind};
use rustsec_advisory::metadata::Origin;
use rustsec_lock::package::Name;
use rustsec_texts::{Address, Id};
use rustsec_values::{ErrorKind, Items, Result};
use std::alloc::{AllocError, Global};

/// Returns whether a text contains a part.
fn has(part: &str, text: &str) -> bool
    ensures { result ≡ has part.now text.now }
{
    text.contains(part)
}

/// Returns whether an address is that of a report on a forge.
fn is_report(address: &str) -> bool
    ensures { result ≡ is_report address.now }
{
    let is_forge = has("://github.com/", address) || has("://gitlab.", address);
    is_forge && has("/issues/", address)
}

/// Returns whether an address is that of an advisory.
fn is_advisory(address: &str) -> bool
    ensures { result ≡ is_advisory address.now }
{
    has("/advisories/", address) || has("://cve.mitre.org/", address)
}

/// Returns whether an address is that of a package.
fn is_package(address: &str) -> bool
    ensures { result ≡ is_package address.now }
{
    has("://crates.io/crates/", address)
}

/// Returns the kind of a reference, by the text that its address prints.
#[tactic(auto, unfolding(crate::specs::References::kind_of))]
fn kind_of(address: &str) -> OsvReferenceKind
    ensures { result ≡ kind_of address.now }
{
    if is_report(address) {
        OsvReferenceKind::REPORT
    } else if is_advisory(address) {
        OsvReferenceKind::ADVISORY
    } else if is_package(address) {
        OsvReferenceKind::PACKAGE
    } else {
        OsvReferenceKind::WEB
    }
}

/// Returns the reference to an address.
fn reference_of(address: Address) -> OsvReference
    ensures value { result ≡ reference_of address }

    // Parsing the text of an `Address` gives the same address.
    ensures again { IsReferenceAgain result }
{
    let kind = kind_of(address.as_str());
    OsvReference { kind, url: address }
}

/// Returns the address of a package's page.
fn package_page(alloc: Global, name: &Name) -> Result<Address>
    ensures ok { IfOk result (λ a. address_of (package_page name.now) ≡ Some a) }
    ensures err { IfErr result (IsRefusal ErrorKind.Parse (address_of (package_page name.now) ≡ None)) }
{
    let name = name.as_str();
    let text = format!(in alloc; "https://crates.io/crates/{name}")?;
    Address::from_str(alloc, &text)
}

/// Returns the address of an advisory's page.
fn advisory_page(alloc: Global, id: &Id) -> Result<Address>
    ensures ok { IfOk result (λ a. address_of (advisory_page id.now.text) ≡ Some a) }
    ensures err { IfErr result (IsRefusal ErrorKind.Parse (address_of (advisory_page id.now.text) ≡ None)) }
{
    let id = id.as_str();
    let text = format!(in alloc; "https://rustsec.org/advisories/{id}.html")?;
    Address::from_str(alloc, &text)
}

/// Appends the reference to an address.
fn add_reference(
    address: Address,
    references: &mut Items<OsvReference>,
) -> std::result::Result<(), AllocError>
    requires { All IsReferenceAgain references.old }
    ensures value { OnOk result (references.new ≡ references.old ++ reference_of address ∷ []) }
    ensures again { OnOk result (All IsReferenceAgain references.new) }
{
    references.push(reference_of(address))
}

/// Returns references to two pages.
fn two_references(
    alloc: Global,
    first: Address,
    second: Address,
) -> std::result::Result<Items<OsvReference>, AllocError>
    ensures value { IfOk result (λ v. v ≡ reference_of first ∷ (reference_of second ∷ [])) }
    ensures again { IfOk result (All IsReferenceAgain) }
{
    let mut references = Items::new(alloc);
    references.push(reference_of(first))?;
    references.push(reference_of(second))?;
    Ok(references)
}

/// Returns references to the pages of a package and of an advisory.
pub(crate) fn own_pages(alloc: Global, name: &Name, id: &Id) -> Result<Items<OsvReference>>
    ensures ok { IfOk result (λ v. own_pages name.now id.now.text ≡ Some v) }
    ensures again { IfOk result (All IsReferenceAgain) }
    ensures err { IfErr result (IsRefusal ErrorKind.Parse (own_pages name.now id.now.text ≡ None)) }
{
    let package = package_page(alloc, name)?;
    let advisory = advisory_page(alloc, id)?;
    let references = two_references(alloc, package, advisory)?;
    Ok(references)
}

/// Appends references to addresses.
fn add_references(
    addresses: Items<Address>,
    references: &mut Items<OsvReference>,
) -> std::result::Result<(), AllocError>
    requires { All IsReferenceAgain references.old }
    ensures value { OnOk result (references.new ≡ references.old ++ map reference_of addresses) }
    ensures again { OnOk result (All IsReferenceAgain references.new) }
{
    for address in Vec::from(addresses) {
        add_reference(address, references)?;
    }
    Ok(())
}

/// Returns the references of a document: those to its own pages, then the address and the references of the advisory.
pub(crate) fn with_addresses(
    pages: Items<OsvReference>,
    origin: Origin,
) -> std::result::Result<Items<OsvReference>, AllocError>
    requires { All IsReferenceAgain pages }
    ensures value { IfOk result (λ v. v ≡ pages ++ map reference_of (option_to_list origin.url ++ origin.references)) }
    ensures again { IfOk result (All IsReferenceAgain) }
{
    let Origin {
        references: addresses,
        source: _,
        url,
    } = origin;
    let mut references = pages;
    if let Some(url) = url {
        add_reference(url, &mut references)?;
    }
    add_references(addresses, &mut references)?;
    Ok(references)
}
