//! Writes links, packages and paths of packages.

ghost use Rattle.std.specs.Prelude.{◌≡◌, ◌++◌, IfErr, OnOk, option_map, string_bytes};
ghost use Rattle.std.specs.List.{flat_map};
ghost use Rattle.std.specs.Option.{option_copied};
ghost use Rattle.rustsec_page.specs.Links.{denied_tag, link, linked, linked_id, maybe_linked, old_tag, package_code, package_words, path_rows, place_words, step, steps};
ghost use Rattle.rustsec_page.specs.Pieces.{text_of};

use crate::item::Item;
use crate::pieces::{push_content, push_item, push_version};
use rustsec_lock::package::Package;
use rustsec_texts::Id;
use std::alloc::{AllocError, Global};

/// Appends a text that links to an address.
fn push_link(text: &mut String, address: &str, words: &str) -> Result<(), AllocError>
    ensures { OnOk result (string_bytes text.new ≡ string_bytes text.old ++ text_of (link address.now words.now)) }
{
    push_item(text, Item::LinkStart)?;
    push_content(text, address)?;
    push_item(text, Item::LinkText)?;
    push_content(text, words)?;
    push_item(text, Item::LinkEnd)
}

/// Appends a text, escaped for HTML, that links to an address if the address begins with `https://`.
///
/// # Errors
///
/// Out of memory.
#[tactic(auto, unfolding(crate::specs::Links::linked))]
pub fn push_linked(text: &mut String, address: &str, words: &str) -> Result<(), AllocError>
    ensures { OnOk result (string_bytes text.new ≡ string_bytes text.old ++ text_of (linked address.now words.now)) }
{
    if address.starts_with("https://") {
        push_link(text, address, words)
    } else {
        push_content(text, words)
    }
}

/// Appends an ID, which links to its page.
#[tactic(auto, unfolding(crate::specs::Links::linked_id))]
pub(crate) fn push_id(alloc: Global, text: &mut String, id: &Id) -> Result<(), AllocError>
    ensures { OnOk result (string_bytes text.new ≡ string_bytes text.old ++ text_of (linked_id id.now)) }
{
    match id.url(alloc) {
        Ok(Some(page)) => push_linked(text, &page, id.as_str()),
        Ok(None) => push_content(text, id.as_str()),
        Err(_) => Err(AllocError),
    }
}

/// Appends the name and the version of a package.
#[tactic(auto, unfolding(crate::specs::Links::package_words))]
pub(crate) fn push_package(
    alloc: Global,
    text: &mut String,
    package: &Package,
) -> Result<(), AllocError>
    ensures { OnOk result (string_bytes text.new ≡ string_bytes text.old ++ text_of (package_words «package».now)) }
{
    push_content(text, package.name.as_str())?;
    push_item(text, Item::VersionStart)?;
    push_version(alloc, text, &package.version)
}

/// Appends the name and the version of a package in the look of code.
#[tactic(auto, unfolding(crate::specs::Links::package_code))]
pub(crate) fn push_package_code(
    alloc: Global,
    text: &mut String,
    package: &Package,
) -> Result<(), AllocError>
    ensures { OnOk result (string_bytes text.new ≡ string_bytes text.old ++ text_of (package_code «package».now)) }
{
    push_item(text, Item::CodeStart)?;
    push_package(alloc, text, package)?;
    push_item(text, Item::CodeEnd)
}

/// Appends the package at a place, or a question mark if there is none.
fn push_place(
    alloc: Global,
    text: &mut String,
    packages: &[Package],
    place: usize,
) -> Result<(), AllocError>
    ensures { OnOk result (string_bytes text.new ≡ string_bytes text.old ++ text_of (place_words packages.now place)) }
{
    match packages.get(place) {
        Some(package) => push_package(alloc, text, package),
        None => push_item(text, Item::Unknown),
    }
}

/// Appends the item of the package at a place.
#[tactic(auto, unfolding(crate::specs::Links::step))]
fn push_step(
    alloc: Global,
    text: &mut String,
    packages: &[Package],
    place: usize,
) -> Result<(), AllocError>
    ensures { OnOk result (string_bytes text.new ≡ string_bytes text.old ++ text_of (step packages.now place)) }
{
    push_item(text, Item::Start)?;
    push_place(alloc, text, packages, place)?;
    push_item(text, Item::End)
}

/// Appends the items of the packages at some places.
fn push_all_steps(
    alloc: Global,
    text: &mut String,
    packages: &[Package],
    path: &[usize],
) -> Result<(), AllocError>
    ensures { OnOk result (string_bytes text.new ≡ string_bytes text.old ++ text_of (flat_map (step packages.now) path.now)) }
{
    for place in path {
        push_step(alloc, text, packages, *place)?;
    }
    Ok(())
}

/// Appends the packages of a path.
fn push_steps(
    alloc: Global,
    text: &mut String,
    packages: &[Package],
    path: &[usize],
) -> Result<(), AllocError>
    ensures { OnOk result (string_bytes text.new ≡ string_bytes text.old ++ text_of (steps packages.now path.now)) }
{
    push_item(text, Item::PathStart)?;
    push_all_steps(alloc, text, packages, path)?;
    push_item(text, Item::PathEnd)
}

/// Appends the packages of a path that may be missing.
pub(crate) fn push_path(
    alloc: Global,
    text: &mut String,
    packages: &[Package],
    path: &Option<Vec<usize>>,
) -> Result<(), AllocError>
    ensures { OnOk result (string_bytes text.new ≡ string_bytes text.old
        ++ text_of (path_rows packages.now (option_map (λ p. p.items) path.now))) }
{
    match path {
        Some(path) => push_steps(alloc, text, packages, path.as_slice()),
        None => push_item(text, Item::NoPath),
    }
}

/// Appends that something is denied, if it is.
pub(crate) fn push_denied_tag(text: &mut String, is_denied: bool) -> Result<(), AllocError>
    ensures { OnOk result (string_bytes text.new ≡ string_bytes text.old ++ text_of (denied_tag is_denied)) }
{
    if is_denied {
        push_item(text, Item::Denied)?;
    }
    Ok(())
}

/// Appends that something is old, if it is.
pub(crate) fn push_old_tag(text: &mut String, is_old: bool) -> Result<(), AllocError>
    ensures { OnOk result (string_bytes text.new ≡ string_bytes text.old ++ text_of (old_tag is_old)) }
{
    if is_old {
        push_item(text, Item::Old)?;
    }
    Ok(())
}
