//! Writes a finding of the page.

ghost use Rattle.std.specs.Prelude.{◌≡◌, ◌++◌, OnOk, string_bytes};
ghost use Rattle.std.specs.List.{flat_map};
ghost use Rattle.rustsec_page.specs.Findings.{about, address, addresses, description, finding, has_none, line_of, links, maybe_address};
ghost use Rattle.rustsec_page.specs.Pieces.{text_of};

use crate::card::Card;
use crate::drawn::Drawn;
use crate::facts::{push_facts, push_title};
use crate::item::Item;
use crate::line::{Line, push_line};
use crate::links::{push_linked, push_path};
use crate::mended::push_mended;
use crate::pieces::{push_card, push_content, push_item};
use rustsec_advisory::Metadata;
use rustsec_lock::package::Package;
use rustsec_texts::Address;
use std::alloc::{AllocError, Global};

/// Appends the description of an advisory.
#[tactic(auto, unfolding(crate::specs::Findings::description))]
fn push_description(text: &mut String, metadata: &Metadata) -> Result<(), AllocError>
    ensures { OnOk result (string_bytes text.new ≡ string_bytes text.old ++ text_of (description metadata.now)) }
{
    push_card(text, Card::DescriptionStart)?;
    push_content(text, metadata.description.as_str())?;
    push_card(text, Card::DescriptionEnd)
}

/// Appends an address, which links to itself.
#[tactic(auto, unfolding(crate::specs::Findings::address))]
fn push_address(text: &mut String, url: &Address) -> Result<(), AllocError>
    ensures { OnOk result (string_bytes text.new ≡ string_bytes text.old ++ text_of (address url.now)) }
{
    push_item(text, Item::Start)?;
    push_linked(text, url.as_str(), url.as_str())?;
    push_item(text, Item::End)
}

/// Appends an address, if present.
fn push_maybe_address(text: &mut String, address: &Option<Address>) -> Result<(), AllocError>
    ensures { OnOk result (string_bytes text.new ≡ string_bytes text.old ++ text_of (maybe_address address.now)) }
{
    match address {
        Some(address) => push_address(text, address),
        None => Ok(()),
    }
}

/// Appends some addresses.
fn push_references(text: &mut String, references: &[Address]) -> Result<(), AllocError>
    ensures { OnOk result (string_bytes text.new ≡ string_bytes text.old ++ text_of (flat_map address references.now)) }
{
    for reference in references {
        push_address(text, reference)?;
    }
    Ok(())
}

/// Appends the addresses of an advisory.
#[tactic(auto, unfolding(crate::specs::Findings::addresses))]
fn push_addresses(text: &mut String, metadata: &Metadata) -> Result<(), AllocError>
    ensures { OnOk result (string_bytes text.new ≡ string_bytes text.old ++ text_of (addresses metadata.now)) }
{
    push_card(text, Card::LinksStart)?;
    push_maybe_address(text, &metadata.url)?;
    push_references(text, metadata.references.as_slice())?;
    push_card(text, Card::LinksEnd)
}

/// Returns whether an advisory has no address.
fn has_none(metadata: &Metadata) -> bool
    ensures { result ≡ has_none metadata.now }
{
    metadata.url.is_none() && metadata.references.is_empty()
}

/// Appends the addresses of an advisory, if present.
fn push_links(text: &mut String, metadata: &Metadata) -> Result<(), AllocError>
    ensures { OnOk result (string_bytes text.new ≡ string_bytes text.old ++ text_of (links metadata.now)) }
{
    if has_none(metadata) {
        Ok(())
    } else {
        push_addresses(text, metadata)
    }
}

/// Appends the description and the addresses of an advisory.
#[tactic(auto, unfolding(crate::specs::Findings::about))]
fn push_about(text: &mut String, metadata: &Metadata) -> Result<(), AllocError>
    ensures { OnOk result (string_bytes text.new ≡ string_bytes text.old ++ text_of (about metadata.now)) }
{
    push_description(text, metadata)?;
    push_links(text, metadata)?;
    push_card(text, Card::End)
}

/// Appends the line of versions of a finding.
#[tactic(auto, unfolding(crate::specs::Findings::line_of))]
fn push_line_of(alloc: Global, text: &mut String, drawn: &Drawn<'_>) -> Result<(), AllocError>
    ensures { OnOk result (string_bytes text.new ≡ string_bytes text.old ++ text_of (line_of drawn.now)) }
{
    let finding = drawn.finding;
    let package = finding.package;
    let line = Line {
        ranges: drawn.ranges.as_slice(),
        locked: &package.version,
        free: &finding.update.least_free,
    };
    push_line(alloc, text, &line)
}

/// Appends all of a finding.
#[tactic(auto, unfolding(crate::specs::Findings::finding))]
pub(crate) fn push_finding(
    alloc: Global,
    text: &mut String,
    packages: &[Package],
    drawn: &Drawn<'_>,
) -> Result<(), AllocError>
    ensures { OnOk result (string_bytes text.new ≡ string_bytes text.old ++ text_of (finding packages.now drawn.now)) }
{
    let finding = drawn.finding;
    let metadata = &finding.advisory.metadata;
    push_title(alloc, text, metadata)?;
    push_facts(alloc, text, finding)?;
    push_line_of(alloc, text, drawn)?;
    push_mended(alloc, text, finding)?;
    push_path(alloc, text, packages, &finding.path)?;
    push_about(text, metadata)
}
