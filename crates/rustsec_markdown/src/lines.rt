//! Writes the lines of the list after the table of findings.

ghost use Rattle.std.specs.Prelude.{◌≡◌, ◌++◌, IfOk, OnOk, map, option_map, string_bytes};
ghost use Rattle.std.specs.Option.{option_copied};
ghost use Rattle.rustsec_check_output.specs.CheckTree.{reason_of, until_of};
ghost use Rattle.rustsec_markdown.specs.MarkdownText.{below_line, below_lines, further_lines, id_lines, ignored_line, ignored_with, labelled, note_line, reason_words, unknown_line, until_words, unused_line, yanked_line, yanked_of};

use crate::cells::{push_code, push_denied, push_labelled, push_old, push_package};
use rustsec_check::{IgnoredPair, Yanked};
use rustsec_check_output::Written;
use rustsec_policy::{Ignored, entry_with};
use rustsec_texts::Id;
use rustsec_values::Text;
use std::alloc::{AllocError, Global};

/// Appends the words for a yanked package, and ends the line.
#[tactic(auto, unfolding(crate::specs::MarkdownText::yanked_line))]
fn push_yanked(alloc: Global, text: &mut String, yanked: &Yanked<'_>) -> Result<(), AllocError>
    ensures { OnOk result (string_bytes text.new ≡ string_bytes text.old ++ yanked_line yanked.now) }
{
    text.push_str("- yanked: ")?;
    push_package(alloc, text, yanked.package)?;
    push_denied(text, yanked.is_denied)?;
    push_old(text, yanked.is_old)?;
    text.push_str("\n")?;
    Ok(())
}

/// Appends the last day of an entry, if present.
fn push_until(text: &mut String, entry: Option<&Ignored>) -> Result<(), AllocError>
    ensures { OnOk result (string_bytes text.new ≡ string_bytes text.old ++ until_words (until_of (option_copied entry.entry))) }
{
    let Some(entry) = entry else {
        return Ok(());
    };
    if let Some(until) = &entry.until {
        text.push_str(" until ")?;
        push_code(text, until.as_str())?;
    }
    Ok(())
}

/// Appends the reason of an entry, if present.
fn push_reason(text: &mut String, entry: Option<&Ignored>) -> Result<(), AllocError>
    ensures { OnOk result (string_bytes text.new ≡ string_bytes text.old ++ reason_words (reason_of (option_copied entry.entry))) }
{
    let Some(entry) = entry else {
        return Ok(());
    };
    if let Some(reason) = &entry.reason {
        text.push_str(": ")?;
        push_code(text, reason.as_str())?;
    }
    Ok(())
}

/// Appends the words for an ignored pair, whose advisory this entry ignores, and ends the line.
fn push_ignored_with(
    alloc: Global,
    text: &mut String,
    entry: Option<&Ignored>,
    pair: &IgnoredPair<'_>,
) -> Result<(), AllocError>
    ensures { OnOk result (string_bytes text.new ≡ string_bytes text.old ++ ignored_with (option_copied entry.entry) pair.now) }
{
    text.push_str("- ignored: ")?;
    push_code(text, pair.advisory.metadata.id.as_str())?;
    text.push_str(" in ")?;
    push_package(alloc, text, pair.package)?;
    push_until(text, entry)?;
    push_reason(text, entry)?;
    text.push_str("\n")?;
    Ok(())
}

/// Appends the words for an ignored pair, and ends the line.
#[tactic(auto, unfolding(crate::specs::MarkdownText::ignored_line))]
fn push_ignored(
    alloc: Global,
    text: &mut String,
    entries: &[Ignored],
    pair: &IgnoredPair<'_>,
) -> Result<(), AllocError>
    ensures { OnOk result (string_bytes text.new ≡ string_bytes text.old ++ ignored_line entries.now pair.now) }
{
    let entry = entry_with(entries, &pair.advisory.metadata.id);
    push_ignored_with(alloc, text, entry, pair)
}

/// Returns the line for a yanked package.
fn yanked_line(alloc: Global, yanked: &Yanked<'_>) -> Result<Text, AllocError>
    ensures { IfOk result (λ t. t ≡ yanked_line yanked.now) }
{
    let mut text = String::new(alloc);
    push_yanked(alloc, &mut text, yanked)?;
    Ok(Text::from(text))
}

/// Returns the line for an ignored pair.
fn ignored_line(
    alloc: Global,
    entries: &[Ignored],
    pair: &IgnoredPair<'_>,
) -> Result<Text, AllocError>
    ensures { IfOk result (λ t. t ≡ ignored_line entries.now pair.now) }
{
    let mut text = String::new(alloc);
    push_ignored(alloc, &mut text, entries, pair)?;
    Ok(Text::from(text))
}

/// Returns a line with a label and a text of a file.
fn labelled(alloc: Global, label: &str, content: &str) -> Result<Text, AllocError>
    ensures { IfOk result (λ t. t ≡ labelled label.now content.now) }
{
    let mut text = String::new(alloc);
    push_labelled(&mut text, label, content)?;
    Ok(Text::from(text))
}

/// Returns the line for an ignored ID that ignores no pair.
#[tactic(auto, unfolding(crate::specs::MarkdownText::unused_line))]
fn unused_line(alloc: Global, id: &Id) -> Result<Text, AllocError>
    ensures { IfOk result (λ t. t ≡ unused_line id.now) }
{
    let line = labelled(alloc, "- unused ignore: ", id.as_str())?;
    Ok(line)
}

/// Returns the line for an ignored ID that no advisory has.
#[tactic(auto, unfolding(crate::specs::MarkdownText::unknown_line))]
fn unknown_line(alloc: Global, id: &Id) -> Result<Text, AllocError>
    ensures { IfOk result (λ t. t ≡ unknown_line id.now) }
{
    let line = labelled(alloc, "- unknown ignore: ", id.as_str())?;
    Ok(line)
}

/// Returns the line for a note.
#[tactic(auto, unfolding(crate::specs::MarkdownText::note_line))]
fn note_line(alloc: Global, note: &Text) -> Result<Text, AllocError>
    ensures { IfOk result (λ t. t ≡ note_line note.now) }
{
    let line = labelled(alloc, "- note: ", note.as_str())?;
    Ok(line)
}

/// Returns the line for the pairs that the least severity alone leaves out.
#[tactic(auto, unfolding(crate::specs::MarkdownText::below_line))]
fn below_line(alloc: Global, count: usize) -> Result<Text, AllocError>
    ensures { IfOk result (λ t. t ≡ below_line count) }
{
    let text = format!(in alloc; "- left out below the least severity: {count}\n")?;
    Ok(Text::from(text))
}

/// Appends a line for each yanked package.
fn add_yanked(alloc: Global, lines: &mut Vec<Text>, yanked: &[Yanked<'_>]) -> Result<(), AllocError>
    ensures { OnOk result (lines.new.items ≡ lines.old.items ++ map yanked_line yanked.now) }
{
    for item in yanked {
        lines.push(yanked_line(alloc, item)?)?;
    }
    Ok(())
}

/// Appends a line for each yanked package, none if no index was asked.
fn add_all_yanked(
    alloc: Global,
    lines: &mut Vec<Text>,
    yanked: Option<&[Yanked<'_>]>,
) -> Result<(), AllocError>
    ensures { OnOk result (lines.new.items ≡ lines.old.items ++ map yanked_line (yanked_of (option_map (λ y. y.now) yanked.entry))) }
{
    match yanked {
        Some(yanked) => add_yanked(alloc, lines, yanked),
        None => Ok(()),
    }
}

/// Appends a line for each ignored pair.
fn add_ignored(
    alloc: Global,
    lines: &mut Vec<Text>,
    entries: &[Ignored],
    pairs: &[IgnoredPair<'_>],
) -> Result<(), AllocError>
    ensures { OnOk result (lines.new.items ≡ lines.old.items ++ map (ignored_line entries.now) pairs.now) }
{
    for pair in pairs {
        lines.push(ignored_line(alloc, entries, pair)?)?;
    }
    Ok(())
}

/// Appends a line for each ignored ID that ignores no pair.
fn add_unused(alloc: Global, lines: &mut Vec<Text>, ids: &[&Id]) -> Result<(), AllocError>
    ensures { OnOk result (lines.new.items ≡ lines.old.items ++ map unused_line (map (λ i. i.now) ids.now)) }
{
    for id in ids {
        lines.push(unused_line(alloc, id)?)?;
    }
    Ok(())
}

/// Appends a line for each ignored ID that no advisory has.
fn add_unknown(alloc: Global, lines: &mut Vec<Text>, ids: &[&Id]) -> Result<(), AllocError>
    ensures { OnOk result (lines.new.items ≡ lines.old.items ++ map unknown_line (map (λ i. i.now) ids.now)) }
{
    for id in ids {
        lines.push(unknown_line(alloc, id)?)?;
    }
    Ok(())
}

/// Appends a line for each ignored ID without effect: those that ignore no pair, and those that no advisory has.
fn add_ids(
    alloc: Global,
    lines: &mut Vec<Text>,
    unused: &[&Id],
    unknown: &[&Id],
) -> Result<(), AllocError>
    ensures { OnOk result (lines.new.items ≡ lines.old.items ++ id_lines (map (λ i. i.now) unused.now) (map (λ i. i.now) unknown.now)) }
{
    add_unused(alloc, lines, unused)?;
    add_unknown(alloc, lines, unknown)?;
    Ok(())
}

/// Appends the line for the pairs that the least severity alone leaves out, if any.
fn add_below(alloc: Global, lines: &mut Vec<Text>, count: usize) -> Result<(), AllocError>
    ensures { OnOk result (lines.new.items ≡ lines.old.items ++ below_lines count) }
{
    if count > 0 {
        lines.push(below_line(alloc, count)?)?;
    }
    Ok(())
}

/// Appends a line for each note.
fn add_notes(alloc: Global, lines: &mut Vec<Text>, notes: &[Text]) -> Result<(), AllocError>
    ensures { OnOk result (lines.new.items ≡ lines.old.items ++ map note_line notes.now) }
{
    for note in notes {
        lines.push(note_line(alloc, note)?)?;
    }
    Ok(())
}

/// Returns the lines of the list: for each yanked package, each ignored pair, each ignored ID without effect, the pairs
/// below the least severity, and each note.
#[tactic(auto, unfolding(crate::specs::MarkdownText::further_lines))]
pub(crate) fn further_lines(
    alloc: Global,
    written: &Written<'_, '_>,
) -> Result<Vec<Text>, AllocError>
    ensures { IfOk result (λ v. v.items ≡ further_lines written.now) }
{
    let check = written.check;
    let mut lines = Vec::new(alloc);
    add_all_yanked(alloc, &mut lines, written.yanked)?;
    add_ignored(alloc, &mut lines, written.entries, check.ignored.as_slice())?;
    add_ids(
        alloc,
        &mut lines,
        check.unused.as_slice(),
        check.unknown.as_slice(),
    )?;
    add_below(alloc, &mut lines, check.below_threshold)?;
    add_notes(alloc, &mut lines, written.notes)?;
    Ok(lines)
}
