//! What the Rust crate refuses of an advisory.

ghost use Rattle.std.specs.Prelude.{◌≡◌, ◌++◌, IfOk, OnOk, is_some, true};
ghost use Rattle.rustsec_texts.specs.Addresses.{address_of};
ghost use Rattle.rustsec_versions.specs.Views.{comparators_of};
ghost use Rattle.rustsec_versions.specs.acceptance.Lists.{accepted_apart};
ghost use Rattle.rustsec_lint_database.specs.Upstream.{AreApart, overlap_remarks, source_remarks, upstream_remarks};

use crate::lines::{KeyIn, push_remarks};
use crate::remark::{Remark, RemarkKind, push_remark};
use rustsec_advisory::Advisory;
use rustsec_lock::SourceId;
use rustsec_texts::Address;
use rustsec_values::{ErrorKind, Items, Text};
use rustsec_versions::{UnaffectedRange, Versions};
use semver::{Version, VersionReq};
use std::alloc::{AllocError, Global};

/// Returns whether two requirements have intervals that do not overlap.
fn are_two_apart(alloc: Global, first: &VersionReq, second: &VersionReq) -> bool
    ensures { result ≡ true → AreApart (comparators_of first.now) (comparators_of second.now) }
{
    let Ok(one) = UnaffectedRange::from_req(alloc, first) else {
        return false;
    };
    let Ok(other) = UnaffectedRange::from_req(alloc, second) else {
        return false;
    };
    !one.overlaps(&other)
}

/// Returns whether an advisory has two patched requirements, and they do not overlap. Most advisories with more than one have
/// two, so few need a look at all intervals.
fn has_two_apart(alloc: Global, versions: &Versions) -> bool
    ensures { result ≡ true → accepted_apart versions.now ≡ true }
{
    let [first, second] = versions.patched() else {
        return false;
    };
    // Any verdict says that the lists are accepted, so that no other requirements overlap.
    let _ = versions.is_vulnerable(&Version::new(0, 0, 0));
    are_two_apart(alloc, first, second)
}

/// Appends the remark on patched requirements that overlap.
fn push_overlap(
    alloc: Global,
    remarks: &mut Items<Remark>,
    versions: &Versions,
) -> Result<(), AllocError>
    ensures { OnOk result (remarks.new ≡ remarks.old ++ overlap_remarks versions.now) }
{
    if has_two_apart(alloc, versions) {
        return Ok(());
    }
    if versions.are_apart(alloc)? {
        return Ok(());
    }
    let text = "the Rust crate refuses patched requirements that overlap";
    push_remark(
        remarks,
        RemarkKind::Upstream,
        String::from_str(alloc, text)?,
    )
}

/// Returns whether a text is an address (URL Standard).
fn is_address(alloc: Global, text: &str) -> Result<bool, AllocError>
    ensures { IfOk result (λ b. b ≡ is_some (address_of text.now)) }
{
    match Address::from_str(alloc, text) {
        Ok(_) => Ok(true),
        Err(e) => match e.kind() {
            ErrorKind::Parse => Ok(false),
            _ => Err(AllocError),
        },
    }
}

/// Appends the remark on a source whose address is not a URL.
fn push_source(
    alloc: Global,
    remarks: &mut Items<Remark>,
    source: &Option<SourceId>,
) -> Result<(), AllocError>
    ensures { OnOk result (remarks.new ≡ remarks.old ++ source_remarks source.now) }
{
    let Some(source) = source else {
        return Ok(());
    };
    if is_address(alloc, source.url())? {
        return Ok(());
    }
    let text = "the Rust crate refuses a `source` whose address is not a URL";
    push_remark(
        remarks,
        RemarkKind::Upstream,
        String::from_str(alloc, text)?,
    )
}

/// Appends what the Rust crate refuses of an advisory.
pub(crate) fn push_upstream(
    alloc: Global,
    remarks: &mut Items<Remark>,
    advisory: &Advisory,
) -> Result<(), AllocError>
    ensures { OnOk result (remarks.new ≡ remarks.old ++ upstream_remarks advisory.now) }
{
    push_overlap(alloc, remarks, &advisory.versions)?;
    push_source(alloc, remarks, &advisory.metadata.source)
}

/// Returns what the Rust crate refuses of an advisory: patched requirements that overlap, and a source whose address is
/// not a URL.
///
/// # Errors
///
/// Out of memory.
pub fn upstream_remarks(alloc: Global, advisory: &Advisory) -> Result<Items<Remark>, AllocError>
    ensures { IfOk result (λ remarks. remarks ≡ upstream_remarks advisory.now) }
{
    let mut remarks = Items::new(alloc);
    push_upstream(alloc, &mut remarks, advisory)?;
    Ok(remarks)
}

/// Returns the words of `upstream_remarks` on an advisory with this text, each after the line of the key that it is
/// about. No contract says which words they are.
///
/// # Errors
///
/// Out of memory.
pub fn upstream_notes(
    alloc: Global,
    text: &str,
    advisory: &Advisory,
) -> Result<Items<Text>, AllocError> {
    let mut notes = Items::new(alloc);
    let mut overlap = Items::new(alloc);
    push_overlap(alloc, &mut overlap, &advisory.versions)?;
    let patched = KeyIn::versions(text, "patched");
    push_remarks(alloc, &mut notes, patched, overlap.as_slice())?;
    let mut address = Items::new(alloc);
    push_source(alloc, &mut address, &advisory.metadata.source)?;
    let source = KeyIn::advisory(text, "source");
    push_remarks(alloc, &mut notes, source, address.as_slice())?;
    Ok(notes)
}
