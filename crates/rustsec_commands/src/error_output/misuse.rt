//! Says what is wrong with words that do not name a command or its options.

use crate::error_output::usage::PAGE;
use rustsec_values::push_shown;
use std::alloc::{AllocError, Global};

/// The names of the commands.
const NAMES: [&str; 6] = ["audit", "report", "lint", "osv", "affected", "ranges"];

/// Returns the number of bytes that two texts begin with alike.
fn same_beginning(first: &str, second: &str) -> usize {
    first
        .bytes()
        .zip(second.bytes())
        .take_while(|(a, b)| a == b)
        .count()
}

/// Returns the number of bytes that two texts end with alike.
fn same_end(first: &str, second: &str) -> usize {
    first
        .bytes()
        .rev()
        .zip(second.bytes().rev())
        .take_while(|(a, b)| a == b)
        .count()
}

/// Returns whether a word begins and ends as a name does, except for two bytes at most between.
fn is_near(word: &str, name: &str) -> bool {
    let same = same_beginning(word, name).saturating_add(same_end(word, name));
    same.saturating_add(2) >= word.len().max(name.len())
}

/// Returns the first name of a command that a word is near to.
fn near_name(word: &str) -> Option<&'static str> {
    for name in NAMES {
        if is_near(word, name) {
            return Some(name);
        }
    }
    None
}

/// Appends what is wrong with the first word.
fn add_reason(note: &mut String, word: &str) -> Result<(), AllocError> {
    match near_name(word) {
        Some(name) if name == word => note.push_str("other words are expected after `")?,
        _ => note.push_str("unknown command `")?,
    }
    push_shown(note, word)?;
    note.push_str("`")?;
    match near_name(word) {
        Some(name) if name != word => {
            note.push_str("; did you mean `")?;
            note.push_str(name)?;
            note.push_str("`?")?;
        }
        _ => {}
    }
    note.push_str("\n")
}

/// Returns a note on words that name no command: what is wrong with them, and the page on usage.
pub fn of_words(alloc: Global, words: &[&str]) -> Result<String, AllocError> {
    let mut note = String::from_str(alloc, "rustsec_audit: ")?;
    match words {
        [first, ..] => add_reason(&mut note, first)?,
        [] => note.push_str("no command is given\n")?,
    }
    note.push_str(PAGE)?;
    Ok(note)
}

/// Returns a note on words that are not options of `audit`, and the page on usage.
pub fn of_options(alloc: Global, words: &[&str]) -> Result<String, AllocError> {
    let mut note = String::from_str(
        alloc,
        "rustsec_audit: expected the options `--ignore ID` and `--deny-warnings`, found `",
    )?;
    let mut before = "";
    for word in words {
        note.push_str(before)?;
        push_shown(&mut note, word)?;
        before = " ";
    }
    note.push_str("`\n")?;
    note.push_str(PAGE)?;
    Ok(note)
}
