//! Words on an advisory for a person: where the remarks on it are, and what others read differently.

use crate::hints::lint_help;
use crate::lines::{KeyIn, after_line, push_remarks};
use crate::placement::{push_collection, push_folder, push_name};
use crate::readings::reading_notes;
use crate::remark::{Remark, RemarkKind};
use crate::upstream::upstream_notes;
use rustsec_advisory::linter::{self, Linter};
use rustsec_advisory::{lint_error_line, placed_errors};
use rustsec_database::placement;
use rustsec_files::path::FilePath;
use rustsec_values::{Items, Text};
use std::alloc::{AllocError, Global};

/// The file of an advisory: its path, its text, and what the linter read of it.
#[derive(Clone, Copy)]
pub(crate) struct Source<'a> {
    /// The path.
    pub file: &'a FilePath<'a>,
    /// The text.
    pub text: &'a str,
    /// What the linter read.
    pub linter: &'a Linter,
}

/// Returns a lint error, and what helps against it, after its line in the text of the advisory, if the line is known.
fn placed(
    alloc: Global,
    text: &str,
    linter: &Linter,
    error: &linter::Error,
) -> Result<Option<Text>, AllocError> {
    let Some(line) = lint_error_line(alloc, text, error)? else {
        return Ok(None);
    };
    let mut words = error.to_string(alloc)?;
    words.push_str(&lint_help(alloc, linter, error)?)?;
    let placed = after_line(alloc, Some(line), &words)?;
    Ok(Some(placed))
}

/// Returns the lint errors of an advisory's text after their lines; of a very long text the first ones, and how many more
/// there are.
fn lint_words(alloc: Global, text: &str, linter: &Linter) -> Result<Items<Text>, AllocError> {
    let errors = linter.errors();
    let mut words = Items::new(alloc);
    let shown = placed_errors(text);
    for error in errors.iter().take(shown) {
        if let Some(line) = placed(alloc, text, linter, error)? {
            words.push(line)?;
        }
    }
    let more = errors.len().saturating_sub(shown);
    if more > 0 {
        let rest = format!(in alloc; "and {more} more lint errors")?;
        words.push(Text::from(rest))?;
    }
    Ok(words)
}

/// Returns whether a remark is of a kind.
fn has_kind(remarks: &[Remark], kind: RemarkKind) -> bool {
    remarks.iter().any(|remark| remark.kind == kind)
}

/// Appends the words on the place of an advisory's file: on its name, its folder and its collection, after the lines of
/// the ID, the package and the collection.
fn push_place(
    alloc: Global,
    words: &mut Items<Text>,
    source: Source<'_>,
) -> Result<(), AllocError> {
    let (file, text, advisory) = (source.file, source.text, source.linter.advisory());
    let mut name = Items::new(alloc);
    push_name(alloc, &mut name, file, advisory)?;
    push_remarks(alloc, words, KeyIn::advisory(text, "id"), name.as_slice())?;
    let mut folder = Items::new(alloc);
    push_folder(alloc, &mut folder, file, advisory)?;
    let package = KeyIn::advisory(text, "package");
    push_remarks(alloc, words, package, folder.as_slice())?;
    let mut collection = Items::new(alloc);
    let named = advisory.metadata.collection;
    push_collection(
        alloc,
        &mut collection,
        named,
        placement::collection_at(file),
    )?;
    let key = KeyIn::advisory(text, "collection");
    push_remarks(alloc, words, key, collection.as_slice())
}

/// Appends some words.
fn push_all(words: &mut Items<Text>, more: Items<Text>) -> Result<(), AllocError> {
    for text in Vec::from(more) {
        words.push(text)?;
    }
    Ok(())
}

/// Returns the words on the file of an advisory that has these remarks.
pub(crate) fn words_of(
    alloc: Global,
    source: Source<'_>,
    remarks: &[Remark],
) -> Result<Items<Text>, AllocError> {
    let (text, advisory) = (source.text, source.linter.advisory());
    let mut words = lint_words(alloc, text, source.linter)?;
    if has_kind(remarks, RemarkKind::Misplaced) {
        push_place(alloc, &mut words, source)?;
    }
    if has_kind(remarks, RemarkKind::Upstream) {
        push_all(&mut words, upstream_notes(alloc, text, advisory)?)?;
    }
    push_all(&mut words, reading_notes(alloc, text, &advisory.versions)?)?;
    Ok(words)
}
