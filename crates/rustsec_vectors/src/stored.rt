//! Paths of files: the names in them, drafts, and what entries store of files, refuse, and store after a refusal.
//!
//! A file is written as its path and words for the changes of the valid advisory, with spaces between them: another ID,
//! or one of the words `broken`, `rust` and `untitled`. Files have commas between them.

use crate::rows::field;
use rustsec_advisory::Advisory;
use rustsec_database::{Entries, Index, Slot};
use rustsec_files::path::FilePath;
use rustsec_fixtures::{VALID, changed};
use rustsec_lock::package::Name;
use rustsec_texts::{Collection, Id};
use rustsec_values::{Error, ErrorKind};
use std::alloc::Global;
use std::process::Abort;
use std::test::Fail;

/// Paths, each with the file's name, its folder and the folder of that, with a dash for each that is missing.
const NAMES: &str = "
crates/base/x.md | x.md | base | crates
/db/./crates//base/./x.md/. | x.md | base | crates
base/../x.md | x.md | .. | base
x.md | x.md | - | -
./ | - | - | -
";

fn has_names(row: &str) -> bool {
    let path = FilePath::of(field(row, 0));
    path.file_name().unwrap_or("-") == field(row, 1)
        && path.folder().unwrap_or("-") == field(row, 2)
        && path.folder_parent().unwrap_or("-") == field(row, 3)
}

#[test]
fn names_in_paths(rt: HostRuntime) {
    for row in NAMES.trim().lines() {
        assert!(rt; has_names(row), "{row}");
    }
}

/// Paths, an ID, and whether the file is that of the ID.
const FILES_OF_IDS: &str = "
crates/base/RUSTSEC-2001-2101.md | RUSTSEC-2001-2101 | yes
crates/base/RUSTSEC-2001-2101.md | RUSTSEC-2001-210 | no
crates/base/RUSTSEC-2001-2101.MD | RUSTSEC-2001-2101 | no
RUSTSEC-2001-2101.md.md | RUSTSEC-2001-2101 | no
| | no
";

#[test]
fn files_of_their_ids(rt: HostRuntime) {
    for row in FILES_OF_IDS.trim().lines() {
        let is_named = FilePath::of(field(row, 0)).is_markdown_file_of(field(row, 1));
        assert!(rt; is_named == (field(row, 2) == "yes"), "{row}");
    }
}

#[test]
fn drafts_by_their_paths(rt: HostRuntime) {
    assert!(rt; Advisory::is_draft("RUSTSEC-0000-0000.md"));
    assert!(rt; Advisory::is_draft("crates/base/RUSTSEC-0000-0000.x.md"));
    assert!(rt; Advisory::is_draft("crates/base/RUSTSEC-0000-0000.md/."));
    assert!(rt; !Advisory::is_draft("RUSTSEC-0000-0000.md/x"));
    assert!(rt; !Advisory::is_draft("RUSTSEC-0000-0000"));
    assert!(rt; !Advisory::is_draft("RUSTSEC-2001-2101.md"));
    assert!(rt; !Advisory::is_draft(""));
}

/// The path of the valid advisory.
pub(crate) const PLACE: &str = "crates/base/RUSTSEC-2001-2101.md";

fn change(word: &str) -> (&'static str, &str) {
    match word {
        "broken" => ("package", "packag"),
        "rust" => ("date", "collection = \"rust\"\ndate"),
        "untitled" => ("All your base are belong to us", "None"),
        id => ("RUSTSEC-2001-2101", id),
    }
}

/// Returns the path of a file and the words for its changes.
pub(crate) fn path_of(words: &str) -> (&str, &str) {
    words.split_once(" ").unwrap_or((words, ""))
}

/// Returns the valid advisory with changes.
pub(crate) fn text_of(alloc: Global, changes: &str) -> Result<String, Fail> {
    let mut text = changed(alloc, VALID, "", "")?;
    for word in changes.split_whitespace() {
        let (old, new) = change(word);
        text = changed(alloc, &text, old, new)?;
    }
    Ok(text)
}

/// Returns a word for a kind of refusals.
pub(crate) fn kind_word(kind: ErrorKind) -> &'static str {
    match kind {
        ErrorKind::Parse => "parse",
        ErrorKind::Repo => "repo",
        _ => "another kind",
    }
}

fn answer_word(answer: &Result<Option<Slot>, Error>) -> &'static str {
    match answer {
        Ok(Some(_)) => "stored",
        Ok(None) => "none",
        Err(e) => kind_word(e.kind()),
    }
}

fn load(alloc: Global, entries: &mut Entries, words: &str) -> Result<&'static str, Fail> {
    let (path, changes) = path_of(words);
    let text = text_of(alloc, changes)?;
    let answer = entries.load_text(alloc, path, &text);
    Ok(answer_word(&answer))
}

/// Loads files into entries, and returns a word for the last answer.
pub(crate) fn load_all(
    alloc: Global,
    entries: &mut Entries,
    files: &str,
) -> Result<&'static str, Fail> {
    let (before, last) = files.rsplit_once(", ").unwrap_or(("", files));
    for words in before.split(", ") {
        if !words.is_empty() {
            load(alloc, entries, words)?;
        }
    }
    load(alloc, entries, last)
}

/// Returns whether the advisories that are stored are in these collections, in order.
fn are_in(entries: &Entries, collections: &str) -> bool {
    for (advisory, word) in entries.iter().zip(collections.split_whitespace()) {
        let collection = advisory.metadata.collection.map(|it| it.as_str());
        if collection != Some(word) {
            return false;
        }
    }
    entries.iter().count() == collections.split_whitespace().count()
}

fn loads(alloc: Global, files: &str, answer: &str, collections: &str) -> Result<bool, Fail> {
    let mut entries = Entries::new(alloc);
    let found = load_all(alloc, &mut entries, files)?;
    Ok(found == answer && are_in(&entries, collections))
}

/// Checks rows of files, the answer to the last one, and the collections of what is stored then.
fn expect_loaded<R: Abort>(rt: &R, alloc: Global, rows: &str) -> Result<(), Fail> {
    for row in rows.lines() {
        let (row, collections) = row.rsplit_once(" |").ok_or("no collections")?;
        let (files, answer) = row.rsplit_once(" | ").ok_or("no answer")?;
        assert!(rt; loads(alloc, files, answer, collections)?, "{row}");
    }
    Ok(())
}

/// One file, which is the valid advisory. The second row has an empty path.
const PATHS: &str = "crates/base/RUSTSEC-2001-2101.md | stored | crates
 | repo |
crates//base/./RUSTSEC-2001-2101.md | stored | crates
crates/base/RUSTSEC-2001-2101.md/ | stored | crates
rust/base/RUSTSEC-2001-2101.md | stored | rust
/x/crates/y/../rust/base/RUSTSEC-2001-2101.md/. | stored | rust
crates/base/RUSTSEC-0000-0000.x.md | stored | crates
/ | repo |
crates/base/.. | repo |
crates/base/.md | repo |
crates/base/RUSTSEC-2001-2101.MD | repo |
base/RUSTSEC-2001-2101.md | repo |
crates/other/RUSTSEC-2001-2101.md | repo |
npm/base/RUSTSEC-2001-2101.md | repo |
RUSTSEC-0000-0000.md | repo |
x.md | repo |
RUSTSEC-2001-2101.md | repo |";

#[test]
fn load_path_forms(rt: HostRuntime) -> Result<(), Fail> {
    expect_loaded(&rt, rt.alloc(), PATHS)
}

/// A text that is not an advisory is refused before its path, and a draft with another collection before the
/// placeholder ends the checks.
const FILES: &str = "crates/base/RUSTSEC-0000-0000.md | stored | crates
crates/base/RUSTSEC-0000-0000.md RUSTSEC-0000-0000 | none |
crates/base/RUSTSEC-0000-0000.md RUSTSEC-0000-0000, crates/base/RUSTSEC-0000-0000.md RUSTSEC-0000-0000 | none |
crates/base/RUSTSEC-0000-0000.md, crates/base/RUSTSEC-2001-2101.md | parse | crates
crates/base/RUSTSEC-2001-2101.md, crates/base/RUSTSEC-2001-2101.md | parse | crates
x broken | parse |
crates/base/RUSTSEC-2001-2101.md rust | parse |
rust/base/RUSTSEC-2001-2101.md rust | stored | rust
crates/base/RUSTSEC-0000-0000.md RUSTSEC-0000-0000 rust | parse |";

#[test]
fn load_paths(rt: HostRuntime) -> Result<(), Fail> {
    expect_loaded(&rt, rt.alloc(), FILES)
}

fn have_the_valid(alloc: Global, entries: &Entries) -> Result<bool, Fail> {
    let mut valid = Advisory::from_str(alloc, VALID)?;
    valid.metadata.collection = Some(Collection::Crates);
    let found = entries.find_by_id(valid.id());
    Ok(found == Some(&valid) && entries.iter().count() == 1)
}

fn have_second(alloc: Global, entries: &Entries) -> Result<bool, Fail> {
    let id = Id::from_str(alloc, "RUSTSEC-2001-2102")?;
    Ok(entries.find_by_id(&id).is_some())
}

/// Returns whether entries with the valid advisory refuse a file so, are unchanged, and then store the second advisory.
fn go_on(alloc: Global, words: &str, answer: &str) -> Result<bool, Fail> {
    let mut entries = Entries::new(alloc);
    load(alloc, &mut entries, PLACE)?;
    let refused = load(alloc, &mut entries, words)? == answer;
    let unchanged = have_the_valid(alloc, &entries)? && !have_second(alloc, &entries)?;
    let second = "crates/base/RUSTSEC-2001-2102.md RUSTSEC-2001-2102";
    let stored = load(alloc, &mut entries, second)? == "stored";
    let has_both = have_second(alloc, &entries)? && entries.iter().count() == 2;
    Ok(refused && unchanged && stored && has_both)
}

/// Files that are refused after the valid advisory: the same ID again, others with an ID of their own.
const REFUSED: &str = "crates/base/RUSTSEC-2001-2101.md untitled | parse
crates/base/RUSTSEC-0000-0000.md | parse
crates/base/RUSTSEC-2001-2101.md RUSTSEC-2001-2102 rust | repo
crates/base/RUSTSEC-2001-2102.md RUSTSEC-2001-2102 rust | parse
crates/base/RUSTSEC-2001-2102.md RUSTSEC-2001-2102 broken | parse
npm/base/RUSTSEC-2001-2102.md RUSTSEC-2001-2102 | repo
crates/base/RUSTSEC-2001-2102.txt RUSTSEC-2001-2102 | repo";

#[test]
fn load_path_forms_refused_after_another(rt: HostRuntime) -> Result<(), Fail> {
    for row in REFUSED.lines() {
        let (words, answer) = row.split_once(" | ").ok_or("no answer")?;
        assert!(rt; go_on(rt.alloc(), words, answer)?, "{row}");
    }
    Ok(())
}

fn valid_slot(alloc: Global) -> Result<Slot, Fail> {
    let mut entries = Entries::new(alloc);
    let slot = entries.load_text(alloc, PLACE, VALID)?.ok_or("no slot")?;
    Ok(slot)
}

fn has_it_once(alloc: Global, name: &str, slot: Slot) -> Result<bool, Fail> {
    let name = Name::from_str(alloc, name)?;
    let mut index = Index::new(alloc);
    let fresh = index.insert(alloc, &name, slot)?;
    let again = index.insert(alloc, &name, slot)?;
    let found = index.get(&name).ok_or("no slots")?;
    Ok(fresh && !again && found == [slot].as_slice())
}

#[test]
fn entries_with_ample_memory(rt: HostRuntime) -> Result<(), Fail> {
    let slot = valid_slot(rt.alloc())?;
    assert!(rt; has_it_once(rt.alloc(), "base", slot)?);
    Ok(())
}
