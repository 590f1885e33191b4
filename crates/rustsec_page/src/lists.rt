//! Writes what the page shows after the findings.

ghost use Rattle.std.specs.Prelude.{◌≡◌, ◌++◌, OnOk, map, option_map, string_bytes};
ghost use Rattle.std.specs.List.{flat_map};
ghost use Rattle.std.specs.Option.{option_copied};
ghost use Rattle.rustsec_check_output.specs.CheckTree.{reason_of, until_of};
ghost use Rattle.rustsec_page.specs.Lists.{id_list, id_row, ids, ignored, ignored_list, ignored_row, ignored_with, lists, note_list, note_row, notes, reason_words, until_words, yanked, yanked_list, yanked_row, yanked_rows};
ghost use Rattle.rustsec_page.specs.Pieces.{text_of};

use crate::item::Item;
use crate::links::{push_denied_tag, push_id, push_old_tag, push_package_code, push_path};
use crate::pieces::{push_content, push_item, push_section};
use crate::section::Section;
use rustsec_check::{IgnoredPair, Yanked};
use rustsec_check_output::Written;
use rustsec_lock::package::Package;
use rustsec_policy::{Ignored, entry_with};
use rustsec_texts::Id;
use rustsec_values::Text;
use std::alloc::{AllocError, Global};

/// Appends a yanked package, and why it is there.
#[tactic(auto, unfolding(crate::specs::Lists::yanked_row))]
fn push_yanked_row(
    alloc: Global,
    text: &mut String,
    packages: &[Package],
    yanked: &Yanked<'_>,
) -> Result<(), AllocError>
    ensures { OnOk result (string_bytes text.new ≡ string_bytes text.old ++ text_of (yanked_row packages.now yanked.now)) }
{
    push_item(text, Item::Start)?;
    push_package_code(alloc, text, yanked.package)?;
    push_denied_tag(text, yanked.is_denied)?;
    push_old_tag(text, yanked.is_old)?;
    push_path(alloc, text, packages, &yanked.path)?;
    push_item(text, Item::End)
}

/// Appends yanked packages.
fn push_all_yanked(
    alloc: Global,
    text: &mut String,
    packages: &[Package],
    all: &[Yanked<'_>],
) -> Result<(), AllocError>
    ensures { OnOk result (string_bytes text.new ≡ string_bytes text.old ++ text_of (flat_map (yanked_row packages.now) all.now)) }
{
    for yanked in all {
        push_yanked_row(alloc, text, packages, yanked)?;
    }
    Ok(())
}

/// Appends the section of yanked packages.
///
/// # Errors
///
/// Out of memory.
#[tactic(auto, unfolding(crate::specs::Lists::yanked_list))]
pub fn push_yanked_list(
    alloc: Global,
    text: &mut String,
    packages: &[Package],
    all: &[Yanked<'_>],
) -> Result<(), AllocError>
    ensures { OnOk result (string_bytes text.new ≡ string_bytes text.old ++ text_of (yanked_list packages.now all.now)) }
{
    push_section(text, Section::Yanked)?;
    push_all_yanked(alloc, text, packages, all)?;
    push_section(text, Section::ListEnd)
}

/// Appends the section of yanked packages, if any.
fn push_yanked_rows(
    alloc: Global,
    text: &mut String,
    packages: &[Package],
    all: &[Yanked<'_>],
) -> Result<(), AllocError>
    ensures { OnOk result (string_bytes text.new ≡ string_bytes text.old ++ text_of (yanked_rows packages.now all.now)) }
{
    if !all.is_empty() {
        push_yanked_list(alloc, text, packages, all)?;
    }
    Ok(())
}

/// Appends the section of yanked packages, if an index was asked and some are.
fn push_yanked(
    alloc: Global,
    text: &mut String,
    packages: &[Package],
    all: Option<&[Yanked<'_>]>,
) -> Result<(), AllocError>
    ensures { OnOk result (string_bytes text.new ≡ string_bytes text.old
        ++ text_of (yanked packages.now (option_map (λ y. y.now) all.entry))) }
{
    match all {
        Some(all) => push_yanked_rows(alloc, text, packages, all),
        None => Ok(()),
    }
}

/// Appends the last day of an entry, if present.
fn push_until(text: &mut String, entry: Option<&Ignored>) -> Result<(), AllocError>
    ensures { OnOk result (string_bytes text.new ≡ string_bytes text.old
        ++ text_of (until_words (until_of (option_copied entry.entry)))) }
{
    let Some(entry) = entry else {
        return Ok(());
    };
    if let Some(until) = &entry.until {
        push_item(text, Item::Until)?;
        push_content(text, until.as_str())?;
    }
    Ok(())
}

/// Appends the reason of an entry, if present.
fn push_reason(text: &mut String, entry: Option<&Ignored>) -> Result<(), AllocError>
    ensures { OnOk result (string_bytes text.new ≡ string_bytes text.old
        ++ text_of (reason_words (reason_of (option_copied entry.entry)))) }
{
    let Some(entry) = entry else {
        return Ok(());
    };
    if let Some(reason) = &entry.reason {
        push_item(text, Item::Reason)?;
        push_content(text, reason.as_str())?;
    }
    Ok(())
}

/// Appends an ignored pair, whose advisory this entry ignores.
#[tactic(auto, unfolding(crate::specs::Lists::ignored_with))]
fn push_ignored_with(
    alloc: Global,
    text: &mut String,
    entry: Option<&Ignored>,
    pair: &IgnoredPair<'_>,
) -> Result<(), AllocError>
    ensures { OnOk result (string_bytes text.new ≡ string_bytes text.old
        ++ text_of (ignored_with (option_copied entry.entry) pair.now)) }
{
    push_item(text, Item::Start)?;
    push_id(alloc, text, &pair.advisory.metadata.id)?;
    push_item(text, Item::Space)?;
    push_package_code(alloc, text, pair.package)?;
    push_until(text, entry)?;
    push_reason(text, entry)?;
    push_item(text, Item::End)
}

/// Appends an ignored pair.
#[tactic(auto, unfolding(crate::specs::Lists::ignored_row))]
fn push_ignored_row(
    alloc: Global,
    text: &mut String,
    entries: &[Ignored],
    pair: &IgnoredPair<'_>,
) -> Result<(), AllocError>
    ensures { OnOk result (string_bytes text.new ≡ string_bytes text.old ++ text_of (ignored_row entries.now pair.now)) }
{
    let entry = entry_with(entries, &pair.advisory.metadata.id);
    push_ignored_with(alloc, text, entry, pair)
}

/// Appends ignored pairs.
fn push_all_ignored(
    alloc: Global,
    text: &mut String,
    entries: &[Ignored],
    pairs: &[IgnoredPair<'_>],
) -> Result<(), AllocError>
    ensures { OnOk result (string_bytes text.new ≡ string_bytes text.old ++ text_of (flat_map (ignored_row entries.now) pairs.now)) }
{
    for pair in pairs {
        push_ignored_row(alloc, text, entries, pair)?;
    }
    Ok(())
}

/// Appends the section of ignored pairs.
#[tactic(auto, unfolding(crate::specs::Lists::ignored_list))]
fn push_ignored_list(
    alloc: Global,
    text: &mut String,
    entries: &[Ignored],
    pairs: &[IgnoredPair<'_>],
) -> Result<(), AllocError>
    ensures { OnOk result (string_bytes text.new ≡ string_bytes text.old ++ text_of (ignored_list entries.now pairs.now)) }
{
    push_section(text, Section::Ignored)?;
    push_all_ignored(alloc, text, entries, pairs)?;
    push_section(text, Section::ListEnd)
}

/// Appends the section of ignored pairs, if any.
fn push_ignored(
    alloc: Global,
    text: &mut String,
    entries: &[Ignored],
    pairs: &[IgnoredPair<'_>],
) -> Result<(), AllocError>
    ensures { OnOk result (string_bytes text.new ≡ string_bytes text.old ++ text_of (ignored entries.now pairs.now)) }
{
    if !pairs.is_empty() {
        push_ignored_list(alloc, text, entries, pairs)?;
    }
    Ok(())
}

/// Appends an ignored ID without effect.
#[tactic(auto, unfolding(crate::specs::Lists::id_row))]
fn push_id_row(alloc: Global, text: &mut String, id: &Id) -> Result<(), AllocError>
    ensures { OnOk result (string_bytes text.new ≡ string_bytes text.old ++ text_of (id_row id.now)) }
{
    push_item(text, Item::Start)?;
    push_id(alloc, text, id)?;
    push_item(text, Item::End)
}

/// Appends ignored IDs without effect.
fn push_id_rows(alloc: Global, text: &mut String, rows: &[&Id]) -> Result<(), AllocError>
    ensures { OnOk result (string_bytes text.new ≡ string_bytes text.old
        ++ text_of (flat_map id_row (map (λ i. i.now) rows.now))) }
{
    for id in rows {
        push_id_row(alloc, text, id)?;
    }
    Ok(())
}

/// Appends a section of ignored IDs without effect.
#[tactic(auto, unfolding(crate::specs::Lists::id_list))]
fn push_id_list(
    alloc: Global,
    text: &mut String,
    section: Section,
    rows: &[&Id],
) -> Result<(), AllocError>
    ensures { OnOk result (string_bytes text.new ≡ string_bytes text.old
        ++ text_of (id_list section (map (λ i. i.now) rows.now))) }
{
    push_section(text, section)?;
    push_id_rows(alloc, text, rows)?;
    push_section(text, Section::ListEnd)
}

/// Appends a section of ignored IDs without effect, if any.
fn push_ids(
    alloc: Global,
    text: &mut String,
    section: Section,
    rows: &[&Id],
) -> Result<(), AllocError>
    ensures { OnOk result (string_bytes text.new ≡ string_bytes text.old ++ text_of (ids section (map (λ i. i.now) rows.now))) }
{
    if !rows.is_empty() {
        push_id_list(alloc, text, section, rows)?;
    }
    Ok(())
}

/// Appends a note.
#[tactic(auto, unfolding(crate::specs::Lists::note_row))]
fn push_note(text: &mut String, note: &str) -> Result<(), AllocError>
    ensures { OnOk result (string_bytes text.new ≡ string_bytes text.old ++ text_of (note_row note.now)) }
{
    push_item(text, Item::Start)?;
    push_content(text, note)?;
    push_item(text, Item::End)
}

/// Appends notes.
fn push_note_rows(text: &mut String, rows: &[Text]) -> Result<(), AllocError>
    ensures { OnOk result (string_bytes text.new ≡ string_bytes text.old ++ text_of (flat_map note_row rows.now)) }
{
    for note in rows {
        push_note(text, note.as_str())?;
    }
    Ok(())
}

/// Appends the section of notes.
#[tactic(auto, unfolding(crate::specs::Lists::note_list))]
fn push_note_list(text: &mut String, rows: &[Text]) -> Result<(), AllocError>
    ensures { OnOk result (string_bytes text.new ≡ string_bytes text.old ++ text_of (note_list rows.now)) }
{
    push_section(text, Section::Notes)?;
    push_note_rows(text, rows)?;
    push_section(text, Section::ListEnd)
}

/// Appends the section of notes, if any.
fn push_notes(text: &mut String, rows: &[Text]) -> Result<(), AllocError>
    ensures { OnOk result (string_bytes text.new ≡ string_bytes text.old ++ text_of (notes rows.now)) }
{
    if !rows.is_empty() {
        push_note_list(text, rows)?;
    }
    Ok(())
}

/// Appends what the page shows after the findings.
#[tactic(auto, unfolding(crate::specs::Lists::lists))]
pub(crate) fn push_lists(
    alloc: Global,
    text: &mut String,
    written: &Written<'_, '_>,
) -> Result<(), AllocError>
    ensures { OnOk result (string_bytes text.new ≡ string_bytes text.old ++ text_of (lists written.now)) }
{
    let check = written.check;
    let packages = written.lockfile.packages.as_slice();
    push_yanked(alloc, text, packages, written.yanked)?;
    push_ignored(alloc, text, written.entries, check.ignored.as_slice())?;
    push_ids(alloc, text, Section::Unused, check.unused.as_slice())?;
    push_ids(alloc, text, Section::Unknown, check.unknown.as_slice())?;
    push_notes(text, written.notes)
}
