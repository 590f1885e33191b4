//! Writes what is wrong in a database as text: a line for each remark.

ghost use Rattle.std.specs.Prelude.{◌≡◌, ◌++◌, IfOk, OnOk, flat_map, string_bytes};
ghost use Rattle.rustsec_lint_output.specs.LintText.{count_line, file_lines, line, lint_text, remark_line, twice_line};

use rustsec_lint_database::{Counts, Entry, Remark};
use rustsec_values::{Text, push_shown};
use std::alloc::{AllocError, Global};
use std::fmt::Write as _;

/// Appends a line about the file at a path.
#[tactic(auto, unfolding(crate::specs::LintText::line))]
fn push_line(
    alloc: Global,
    lines: &mut String,
    path: &str,
    label: &str,
    words: &str,
) -> Result<(), AllocError>
    ensures { OnOk result (string_bytes lines.new ≡ string_bytes lines.old ++ line path.now label.now words.now) }
{
    let line = format!(in alloc; "{path}: {label}: {words}")?;
    push_shown(lines, &line)?;
    lines.push_str("\n")?;
    Ok(())
}

/// Appends a line for each remark on the file at a path.
fn push_remarks(
    alloc: Global,
    lines: &mut String,
    path: &str,
    remarks: &[Remark],
) -> Result<(), AllocError>
    ensures { OnOk result (string_bytes lines.new ≡ string_bytes lines.old ++ flat_map (remark_line path.now) remarks.now) }
{
    for remark in remarks {
        push_line(alloc, lines, path, remark.kind.name(), remark.text.as_str())?;
    }
    Ok(())
}

/// Appends a line for the file at a path, if it has the ID of an earlier one.
fn push_twice(
    alloc: Global,
    lines: &mut String,
    path: &str,
    first: &Option<Text>,
) -> Result<(), AllocError>
    ensures { OnOk result (string_bytes lines.new ≡ string_bytes lines.old ++ twice_line path.now first.now) }
{
    let Some(first) = first else {
        return Ok(());
    };
    let first = first.as_str();
    let words = format!(in alloc; "the ID of {first}")?;
    push_line(alloc, lines, path, "twice", &words)
}

/// Appends the lines of a file.
fn push_file(alloc: Global, lines: &mut String, entry: &Entry) -> Result<(), AllocError>
    ensures { OnOk result (string_bytes lines.new ≡ string_bytes lines.old ++ file_lines entry.now) }
{
    let path = entry.file.path.as_str();
    push_remarks(alloc, lines, path, entry.file.remarks.as_slice())?;
    push_twice(alloc, lines, path, &entry.first)
}

/// Returns the lines of the files.
fn lines_of(alloc: Global, entries: &[Entry]) -> Result<String, AllocError>
    ensures { IfOk result (λ t. string_bytes t ≡ flat_map file_lines entries.now) }
{
    let mut lines = String::new(alloc);
    for entry in entries {
        push_file(alloc, &mut lines, entry)?;
    }
    Ok(lines)
}

/// Appends the line of the numbers of files, faults and notes.
#[tactic(auto, unfolding(crate::specs::LintText::count_line))]
fn push_counts(lines: &mut String, counts: Counts) -> Result<(), AllocError>
    ensures { OnOk result (string_bytes lines.new ≡ string_bytes lines.old ++ count_line counts) }
{
    let files = counts.files;
    let faults = counts.faults;
    let notes = counts.notes;
    write!(lines, "files: {files}, faults: {faults}, notes: {notes}\n")?;
    Ok(())
}

/// Returns the text about what is wrong in a database: for each file a line for each remark, with the file's path, the
/// remark's kind and its words, and a line if the file has the ID of an earlier one, with the path of the first file that
/// has it; at the end a line with the numbers of files, faults and notes. Control characters and invisible ones are
/// written as their Unicode escapes, so that no file makes a further line.
///
/// # Errors
///
/// Out of memory.
#[tactic(auto, unfolding(crate::specs::LintText::lint_text))]
pub fn lint_text(alloc: Global, counts: Counts, entries: &[Entry]) -> Result<String, AllocError>
    ensures { IfOk result (λ t. string_bytes t ≡ lint_text counts entries.now) }
{
    let mut text = lines_of(alloc, entries)?;
    push_counts(&mut text, counts)?;
    Ok(text)
}
