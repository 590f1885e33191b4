//! Says what is wrong with words after the name of a command.

use crate::keys::{Flag, Key};
use crate::usage::PAGE;
use rustsec_values::{ClosedEnum, from_name, push_shown};
use std::alloc::{AllocError, Global};
use strsim::osa_distance;

/// Returns the name of an option that is at most two changes of a character away from a word.
fn near_name<T: ClosedEnum>(alloc: Global, word: &str) -> Result<Option<&'static str>, AllocError> {
    for value in T::all() {
        let name = value.name();
        if osa_distance(alloc, word, name)? < 3 {
            return Ok(Some(name));
        }
    }
    Ok(None)
}

/// Returns the name of an option that is near to a word.
fn near(alloc: Global, word: &str) -> Result<Option<&'static str>, AllocError> {
    match near_name::<Key>(alloc, word)? {
        Some(name) => Ok(Some(name)),
        None => near_name::<Flag>(alloc, word),
    }
}

/// Appends which option is near to a word, if one is.
fn add_near(alloc: Global, note: &mut String, word: &str) -> Result<(), AllocError> {
    if word.len() > 60 {
        return Ok(());
    }
    if let Some(name) = near(alloc, word)? {
        note.push_str("; did you mean `")?;
        note.push_str(name)?;
        note.push_str("`?")?;
    }
    Ok(())
}

/// Returns the first word that is not an option, or the last word if it is an option without its value.
fn wrong_word<'a>(words: &[&'a str]) -> Option<&'a str> {
    let mut awaits = None;
    for word in words {
        if awaits.is_some() {
            awaits = None;
        } else if from_name::<Key>(word).is_some() {
            awaits = Some(*word);
        } else if from_name::<Flag>(word).is_none() {
            return Some(*word);
        }
    }
    awaits
}

/// Appends what is wrong with a word.
fn add_wrong(alloc: Global, note: &mut String, word: &str) -> Result<(), AllocError> {
    if from_name::<Key>(word).is_some() {
        note.push_str("a value is expected after `")?;
        push_shown(note, word)?;
        return note.push_str("`");
    }
    note.push_str("unknown option `")?;
    push_shown(note, word)?;
    note.push_str("`")?;
    add_near(alloc, note, word)
}

/// Returns a note on words that are not options, and the page on usage.
pub fn of_options(alloc: Global, words: &[&str]) -> Result<String, AllocError> {
    let mut note = String::from_str(alloc, "rustsec_audit: ")?;
    if let Some(word) = wrong_word(words) {
        add_wrong(alloc, &mut note, word)?;
    }
    note.push_str("\n")?;
    note.push_str(PAGE)?;
    Ok(note)
}

/// Returns a note on a command with too few words after it, and the page on usage.
pub fn of_short(alloc: Global) -> Result<String, AllocError> {
    let mut note = String::from_str(alloc, "rustsec_audit: more words are expected\n")?;
    note.push_str(PAGE)?;
    Ok(note)
}
