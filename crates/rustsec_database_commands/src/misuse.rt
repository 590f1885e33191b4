//! Says what is wrong with words after the name of a command.

use crate::options::Flag;
use crate::usage::PAGE;
use rustsec_policy::nearest_word;
use rustsec_values::{from_name, push_shown};
use std::alloc::{AllocError, Global};

/// The names of the options.
const NAMES: &[&str] = &["--format", "--upstream", "--progress"];

/// Returns the first word that is not an option, or the last word if it is `--format` without its value.
fn wrong_word<'a>(words: &[&'a str]) -> Option<&'a str> {
    let mut awaits = None;
    for word in words {
        if awaits.is_some() {
            awaits = None;
        } else if *word == "--format" {
            awaits = Some(*word);
        } else if from_name::<Flag>(word).is_none() {
            return Some(*word);
        }
    }
    awaits
}

/// Appends which of some options is near to a word, if one is.
fn add_near(
    alloc: Global,
    note: &mut String,
    word: &str,
    names: &[&str],
) -> Result<(), AllocError> {
    if word.len() > 60 {
        return Ok(());
    }
    if let Some(name) = nearest_word(alloc, names, word)? {
        note.push_str("; did you mean `")?;
        note.push_str(name)?;
        note.push_str("`?")?;
    }
    Ok(())
}

/// Appends that a word is not one of some options.
fn add_unknown(
    alloc: Global,
    note: &mut String,
    word: &str,
    names: &[&str],
) -> Result<(), AllocError> {
    note.push_str("unknown option `")?;
    push_shown(note, word)?;
    note.push_str("`")?;
    add_near(alloc, note, word, names)
}

/// Appends what is wrong with a word.
fn add_wrong(alloc: Global, note: &mut String, word: &str) -> Result<(), AllocError> {
    if word == "--format" {
        return note.push_str("a value is expected after `--format`");
    }
    add_unknown(alloc, note, word, NAMES)
}

/// Returns a note on words that are not options, and the page on usage.
pub fn of_options(alloc: Global, words: &[&str]) -> Result<String, AllocError> {
    let mut note = String::from_str(alloc, "rustsec_audit: ")?;
    if let Some(word) = wrong_word(words) {
        add_wrong(alloc, &mut note, word)?;
    }
    note.push_str("\n")?;
    note.push_str(PAGE)?;
    Ok(note)
}

/// Returns a note on an option where a time is expected, and the page on usage.
pub fn of_no_time(alloc: Global, found: &str) -> Result<String, AllocError> {
    let mut note = String::from_str(
        alloc,
        "rustsec_audit: the time of the last change is expected after the root, found `",
    )?;
    push_shown(&mut note, found)?;
    note.push_str("`\n")?;
    note.push_str(PAGE)?;
    Ok(note)
}

/// Returns a note on words that are not all among these options, and the page on usage.
pub fn of_unknown(alloc: Global, words: &[&str], names: &[&str]) -> Result<String, AllocError> {
    let mut note = String::from_str(alloc, "rustsec_audit: ")?;
    match words.iter().find(|word| !names.contains(word)) {
        Some(word) => add_unknown(alloc, &mut note, word, names)?,
        None => note.push_str("the options have other values")?,
    }
    note.push_str("\n")?;
    note.push_str(PAGE)?;
    Ok(note)
}

/// Returns a note on a command with too few words after it, and the page on usage.
pub fn of_short(alloc: Global) -> Result<String, AllocError> {
    let mut note = String::from_str(alloc, "rustsec_audit: more words are expected\n")?;
    note.push_str(PAGE)?;
    Ok(note)
}
