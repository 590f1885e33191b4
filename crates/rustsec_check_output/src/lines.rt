//! Writes the lines after the findings for people.

ghost use Rattle.std.specs.Prelude.{◌≡◌, ◌++◌, OnOk, map, not, length, option_map, string_bytes};
ghost use Rattle.std.specs.List.{filter, flat_map};
ghost use Rattle.std.specs.Option.{option_copied};
ghost use Rattle.rustsec_check_output.specs.CheckText.{below_line, below_words, counted, found_words, further_lines, id_lines, ignored_line, ignored_with, is_vulnerability, labelled, last_line, looked_at_words, note_line, reason_words, unknown_line, until_words, unused_line};
ghost use Rattle.rustsec_check_output.specs.CheckTree.{reason_of, until_of};

use crate::block::push_package;
use crate::written::Written;
use crate::yanked_block::push_yanked_count;
use rustsec_check::{Finding, IgnoredPair, Yanked};
use rustsec_policy::{Ignored, entry_with};
use rustsec_texts::Id;
use rustsec_values::{Text, push_shown};
use std::alloc::AllocError;
use std::fmt::Write as _;

/// Appends the last day of an entry, if present.
fn push_until(text: &mut String, entry: Option<&Ignored>) -> Result<(), AllocError>
    ensures { OnOk result (string_bytes text.new ≡ string_bytes text.old ++ until_words (until_of (option_copied entry.entry))) }
{
    let Some(entry) = entry else {
        return Ok(());
    };
    if let Some(until) = &entry.until {
        text.push_str(" until ")?;
        text.push_str(until.as_str())?;
    }
    Ok(())
}

/// Appends the reason of an entry, if present.
fn push_reason(text: &mut String, entry: Option<&Ignored>) -> Result<(), AllocError>
    ensures { OnOk result (string_bytes text.new ≡ string_bytes text.old ++ reason_words (reason_of (option_copied entry.entry))) }
{
    let Some(entry) = entry else {
        return Ok(());
    };
    if let Some(reason) = &entry.reason {
        text.push_str(": ")?;
        push_shown(text, reason.as_str())?;
    }
    Ok(())
}

/// Appends the line for an ignored pair, whose advisory this entry ignores.
fn push_ignored_with(
    text: &mut String,
    entry: Option<&Ignored>,
    pair: &IgnoredPair<'_>,
) -> Result<(), AllocError>
    ensures { OnOk result (string_bytes text.new ≡ string_bytes text.old ++ ignored_with (option_copied entry.entry) pair.now) }
{
    text.push_str("ignored ")?;
    push_shown(text, pair.advisory.metadata.id.as_str())?;
    text.push_str(" ")?;
    push_package(text, pair.package)?;
    push_until(text, entry)?;
    push_reason(text, entry)?;
    text.push_str("\n")?;
    Ok(())
}

/// Appends the line for an ignored pair.
#[tactic(auto, unfolding(crate::specs::CheckText::ignored_line))]
fn push_ignored(
    text: &mut String,
    entries: &[Ignored],
    pair: &IgnoredPair<'_>,
) -> Result<(), AllocError>
    ensures { OnOk result (string_bytes text.new ≡ string_bytes text.old ++ ignored_line entries.now pair.now) }
{
    let entry = entry_with(entries, &pair.advisory.metadata.id);
    push_ignored_with(text, entry, pair)
}

/// Appends a line for each ignored pair.
fn push_all_ignored(
    text: &mut String,
    entries: &[Ignored],
    pairs: &[IgnoredPair<'_>],
) -> Result<(), AllocError>
    ensures { OnOk result (string_bytes text.new ≡ string_bytes text.old ++ flat_map (ignored_line entries.now) pairs.now) }
{
    for pair in pairs {
        push_ignored(text, entries, pair)?;
    }
    Ok(())
}

/// Appends a line with a label and a text.
fn push_labelled(text: &mut String, label: &str, content: &str) -> Result<(), AllocError>
    ensures { OnOk result (string_bytes text.new ≡ string_bytes text.old ++ labelled label.now content.now) }
{
    text.push_str(label)?;
    push_shown(text, content)?;
    text.push_str("\n")?;
    Ok(())
}

/// Appends the line for an ignored ID that ignores no pair.
#[tactic(auto, unfolding(crate::specs::CheckText::unused_line))]
fn push_unused_id(text: &mut String, id: &Id) -> Result<(), AllocError>
    ensures { OnOk result (string_bytes text.new ≡ string_bytes text.old ++ unused_line id.now) }
{
    push_labelled(text, "unused ignore: ", id.as_str())?;
    Ok(())
}

/// Appends a line for each ignored ID that ignores no pair.
fn push_unused(text: &mut String, ids: &[&Id]) -> Result<(), AllocError>
    ensures { OnOk result (string_bytes text.new ≡ string_bytes text.old ++ flat_map unused_line (map (λ i. i.now) ids.now)) }
{
    for id in ids {
        push_unused_id(text, id)?;
    }
    Ok(())
}

/// Appends the line for an ignored ID that no advisory has.
#[tactic(auto, unfolding(crate::specs::CheckText::unknown_line))]
fn push_unknown_id(text: &mut String, id: &Id) -> Result<(), AllocError>
    ensures { OnOk result (string_bytes text.new ≡ string_bytes text.old ++ unknown_line id.now) }
{
    push_labelled(text, "unknown ignore: ", id.as_str())?;
    Ok(())
}

/// Appends a line for each ignored ID that no advisory has.
fn push_unknown(text: &mut String, ids: &[&Id]) -> Result<(), AllocError>
    ensures { OnOk result (string_bytes text.new ≡ string_bytes text.old ++ flat_map unknown_line (map (λ i. i.now) ids.now)) }
{
    for id in ids {
        push_unknown_id(text, id)?;
    }
    Ok(())
}

/// Appends a line for each note.
fn push_notes(text: &mut String, notes: &[Text]) -> Result<(), AllocError>
    ensures { OnOk result (string_bytes text.new ≡ string_bytes text.old ++ flat_map note_line notes.now) }
{
    for note in notes {
        push_labelled(text, "note: ", note.as_str())?;
    }
    Ok(())
}

/// Appends how many pairs the least severity alone leaves out.
#[tactic(auto, unfolding(crate::specs::CheckText::below_words))]
fn push_below_words(text: &mut String, count: usize) -> Result<(), AllocError>
    ensures { OnOk result (string_bytes text.new ≡ string_bytes text.old ++ below_words count) }
{
    write!(text, "left out below the least severity: {count}\n")?;
    Ok(())
}

/// Appends how many pairs the least severity alone leaves out, if any.
fn push_below(text: &mut String, count: usize) -> Result<(), AllocError>
    ensures { OnOk result (string_bytes text.new ≡ string_bytes text.old ++ below_line count) }
{
    if count > 0 {
        push_below_words(text, count)?;
    }
    Ok(())
}

/// Appends a line for each ignored ID without effect: those that ignore no pair, and those that no advisory has.
fn push_ids(text: &mut String, unused: &[&Id], unknown: &[&Id]) -> Result<(), AllocError>
    ensures { OnOk result (string_bytes text.new ≡ string_bytes text.old ++ id_lines (map (λ i. i.now) unused.now) (map (λ i. i.now) unknown.now)) }
{
    push_unused(text, unused)?;
    push_unknown(text, unknown)?;
    Ok(())
}

/// Appends a line for each ignored pair, for each ignored ID without effect, for the pairs below the least severity, and
/// for each note.
#[tactic(auto, unfolding(crate::specs::CheckText::further_lines))]
pub(crate) fn push_further(text: &mut String, written: &Written<'_, '_>) -> Result<(), AllocError>
    ensures { OnOk result (string_bytes text.new ≡ string_bytes text.old ++ further_lines written.now) }
{
    let check = written.check;
    push_all_ignored(text, written.entries, check.ignored.as_slice())?;
    push_ids(text, check.unused.as_slice(), check.unknown.as_slice())?;
    push_below(text, check.below_threshold)?;
    push_notes(text, written.notes)?;
    Ok(())
}

/// Appends a number of things, in the singular or in the plural.
#[tactic(auto, unfolding(crate::specs::CheckText::counted))]
fn push_counted(text: &mut String, n: usize, one: &str, many: &str) -> Result<(), AllocError>
    ensures { OnOk result (string_bytes text.new ≡ string_bytes text.old ++ counted n one.now many.now) }
{
    write!(text, "{n}")?;
    text.push_str(if n == 1 { one } else { many })?;
    Ok(())
}

/// Returns how many findings are vulnerabilities.
fn vulnerabilities_in(findings: &[Finding<'_>]) -> usize
    ensures { result ≡ length (filter is_vulnerability findings.now) }
{
    findings
        .iter()
        .filter(|finding| finding.kind.is_none())
        .count()
}

/// Returns how many findings are warnings.
fn warnings_in(findings: &[Finding<'_>]) -> usize
    ensures { result ≡ length (filter (λ f. not (is_vulnerability f)) findings.now) }
{
    findings
        .iter()
        .filter(|finding| finding.kind.is_some())
        .count()
}

/// Appends how many vulnerabilities, warnings, yanked packages and ignored pairs there are.
fn push_found(
    text: &mut String,
    findings: &[Finding<'_>],
    yanked: Option<&[Yanked<'_>]>,
    ignored: usize,
) -> Result<(), AllocError>
    ensures { OnOk result (string_bytes text.new
        ≡ string_bytes text.old ++ found_words findings.now (option_map (λ y. y.now) yanked.entry) ignored) }
{
    let (vulnerabilities, warnings) = (vulnerabilities_in(findings), warnings_in(findings));
    push_counted(
        text,
        vulnerabilities,
        " vulnerability, ",
        " vulnerabilities, ",
    )?;
    push_counted(text, warnings, " warning, ", " warnings, ")?;
    push_yanked_count(text, yanked)?;
    write!(text, "{ignored} ignored; looked at ")?;
    Ok(())
}

/// Appends how many advisories and packages were looked at.
fn push_looked_at(text: &mut String, advisories: usize, packages: usize) -> Result<(), AllocError>
    ensures { OnOk result (string_bytes text.new ≡ string_bytes text.old ++ looked_at_words advisories packages) }
{
    push_counted(text, advisories, " advisory and ", " advisories and ")?;
    push_counted(text, packages, " package\n", " packages\n")
}

/// Appends the last line: how much there is of each, and how much was looked at.
#[tactic(auto, unfolding(crate::specs::CheckText::last_line))]
pub(crate) fn push_last(text: &mut String, written: &Written<'_, '_>) -> Result<(), AllocError>
    ensures { OnOk result (string_bytes text.new ≡ string_bytes text.old ++ last_line written.now) }
{
    let check = written.check;
    push_found(
        text,
        check.findings.as_slice(),
        written.yanked,
        check.ignored.len(),
    )?;
    let advisories = written.database.count();
    push_looked_at(text, advisories, written.lockfile.packages.len())
}
